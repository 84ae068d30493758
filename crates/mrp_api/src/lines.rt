//! The library: the line that reports a text function's fault.

ghost use Rattle.std.specs.Prelude.{◌≡◌, IfErr};
ghost use Rattle.std.specs.List.{flat_map};
ghost use Rattle.mrp_csv_out.specs.Sending.{AppendsSome};
ghost use Rattle.mrp_api.specs.Lines.{fault_line, gate_line, SendsText, table_fault_word, calendar_word};
ghost use Rattle.mrp_api.specs.Lines.{loop_line, loop_word, pair_line, row_line, table_line};

use crate::fault::{PairName, TextFault};
use itoa::Buffer;
use mrp_cal::CalFault;
use mrp_report::{ReportFault, send};
use mrp_validation::{TableFault, TableFaultKind};
use std::io::Write;

/// Writes the line that reports the fault, as far as the writer takes it. It takes no memory, which is
/// built and tested: no clause says it.
///
/// # Errors
///
/// [`ReportFault::WriteFault`] where a write fails or takes nothing; a prefix of the line is written.
pub fn write_fault<W: Write>(fault: &TextFault, writer: &mut W) -> Result<(), ReportFault>
    ensures prefix { AppendsSome (W.contents writer.old) (W.contents writer.new) (fault_line fault.now) }
    ensures line { SendsText (W.contents writer.old) (W.contents writer.new) result (fault_line fault.now) }
    ensures fault { IfErr result (λ met. met ≡ ReportFault.WriteFault) }
{
    match send_line(fault, writer) {
        Ok(()) => Ok(()),
        Err(_) => Err(ReportFault::WriteFault),
    }
}

/// Sends the line of a fault.
fn send_line<W: Write>(fault: &TextFault, writer: &mut W) -> Result<(), ReportFault>
    ensures { SendsText (W.contents writer.old) (W.contents writer.new) result (fault_line fault.now) }
{
    match fault {
        TextFault::Table(table) => send_table_line(table, writer),
        TextFault::Loop(pairs) => send_loop_line(pairs.as_slice(), writer),
        TextFault::SupplyTooLarge(pair) => send_pair_line(b"mrp: SupplyTooLarge ", pair, writer),
        TextFault::NeedTooLarge(pair) => send_pair_line(b"mrp: NeedTooLarge ", pair, writer),
        TextFault::NoPair => send_words(b"mrp: no pair\n", writer),
        TextFault::NoPeriod => send_words(b"mrp: no period\n", writer),
        TextFault::ThreadRefused => send_words(b"mrp: ThreadRefused\n", writer),
        TextFault::GateShut(plant) => send_gate_line(plant.as_str(), writer),
        TextFault::Stopped => send_words(b"mrp: Stopped\n", writer),
        TextFault::WriteFault => send_words(b"mrp: WriteFault\n", writer),
        TextFault::Memory => send_words(b"mrp: Memory\n", writer),
        TextFault::NoPlant => send_words(b"mrp: no plant\n", writer),
    }
}

/// Sends the pieces one after the other.
fn send_all<W: Write>(pieces: &[&[u8]], writer: &mut W) -> Result<(), ReportFault>
    ensures { SendsText (W.contents writer.old) (W.contents writer.new) result
        (flat_map (λ piece. piece.now) pieces.now) }
{
    'pieces: for piece in pieces {
        if let Err(fault) = send(piece, writer) {
            return Err(fault);
        }
    }
    Ok(())
}

/// Sends the line of a fault of the table.
fn send_table_line<W: Write>(fault: &TableFault, writer: &mut W) -> Result<(), ReportFault>
    ensures { SendsText (W.contents writer.old) (W.contents writer.new) result (table_line fault.now) }
{
    match fault.kind {
        TableFaultKind::Memory => send_words(b"mrp: Memory\n", writer),
        _ => send_row_line(fault, writer),
    }
}

/// Sends the line of a fault of a row.
fn send_row_line<W: Write>(fault: &TableFault, writer: &mut W) -> Result<(), ReportFault>
    ensures { SendsText (W.contents writer.old) (W.contents writer.new) result (row_line fault.now) }
{
    let mut row = Buffer::new();
    send_all(
        &[
            b"mrp: row ",
            row.format(fault.row).as_bytes(),
            b": ",
            kind_word(fault.kind),
            b"\n",
        ],
        writer,
    )
}

/// Sends words that are known.
fn send_words<W: Write>(words: &[u8], writer: &mut W) -> Result<(), ReportFault>
    ensures { SendsText (W.contents writer.old) (W.contents writer.new) result words.now }
{
    send(words, writer)
}

/// Sends the line of a fault that names a pair.
fn send_pair_line<'a, W: Write>(
    words: &'a [u8],
    pair: &'a PairName,
    writer: &mut W,
) -> Result<(), ReportFault>
    ensures { SendsText (W.contents writer.old) (W.contents writer.new) result (pair_line words.now pair.now) }
{
    send_all(
        &[
            words,
            pair.plant.as_bytes(),
            b"/",
            pair.item.as_bytes(),
            b"\n",
        ],
        writer,
    )
}

/// Sends the line of a loop.
fn send_loop_line<W: Write>(pairs: &[PairName], writer: &mut W) -> Result<(), ReportFault>
    ensures { SendsText (W.contents writer.old) (W.contents writer.new) result (loop_line pairs.now) }
{
    if let Err(fault) = send_words(b"mrp: loop", writer) {
        return Err(fault);
    }
    if let Err(fault) = send_loop_words(pairs, writer) {
        return Err(fault);
    }
    send_words(b"\n", writer)
}

/// Sends the pairs of a loop.
fn send_loop_words<W: Write>(pairs: &[PairName], writer: &mut W) -> Result<(), ReportFault>
    ensures { SendsText (W.contents writer.old) (W.contents writer.new) result (flat_map loop_word pairs.now) }
{
    'pairs: for pair in pairs {
        if let Err(fault) = send_loop_word(pair, writer) {
            return Err(fault);
        }
    }
    Ok(())
}

/// Sends a pair of a loop.
fn send_loop_word<W: Write>(pair: &PairName, writer: &mut W) -> Result<(), ReportFault>
    ensures { SendsText (W.contents writer.old) (W.contents writer.new) result (loop_word pair.now) }
{
    send_all(
        &[b" ", pair.plant.as_bytes(), b"/", pair.item.as_bytes()],
        writer,
    )
}

/// Sends the line of a gate that was shut for this plant.
fn send_gate_line<W: Write>(plant: &str, writer: &mut W) -> Result<(), ReportFault>
    ensures { SendsText (W.contents writer.old) (W.contents writer.new) result (gate_line plant.now) }
{
    send_all(&[b"mrp: GateShut ", plant.as_bytes(), b"\n"], writer)
}

/// What a fault of the table is called.
fn kind_word<'a>(kind: TableFaultKind) -> &'a [u8]
    ensures { result.now ≡ table_fault_word kind }
{
    match kind {
        TableFaultKind::ReadFault => b"ReadFault",
        TableFaultKind::NotUtf8 => b"NotUtf8",
        TableFaultKind::FieldCount => b"FieldCount",
        TableFaultKind::UnknownKind => b"UnknownKind",
        TableFaultKind::KindOrder => b"KindOrder",
        TableFaultKind::BadName => b"BadName",
        TableFaultKind::BadNumber => b"BadNumber",
        TableFaultKind::BadRule => b"BadRule",
        TableFaultKind::BadSupply => b"BadSupply",
        TableFaultKind::CalendarFault(fault) => calendar_word(fault),
        TableFaultKind::Repeated => b"Repeated",
        TableFaultKind::UnknownPlant => b"UnknownPlant",
        TableFaultKind::UnknownPair => b"UnknownPair",
        TableFaultKind::NotMade => b"NotMade",
        TableFaultKind::NotSourced => b"NotSourced",
        TableFaultKind::SelfSource => b"SelfSource",
        TableFaultKind::TooMany => b"TooMany",
        TableFaultKind::Empty => b"Empty",
        TableFaultKind::Memory => b"Memory",
        TableFaultKind::ResetOrder => b"ResetOrder",
        TableFaultKind::Cut => b"Cut",
    }
}

/// What a fault of the calendar is called.
fn calendar_word<'a>(fault: CalFault) -> &'a [u8]
    ensures { result.now ≡ calendar_word fault }
{
    match fault {
        CalFault::BadDate => b"CalendarFault BadDate",
        CalFault::DaysOutOfRange => b"CalendarFault DaysOutOfRange",
        CalFault::PastEnd => b"CalendarFault PastEnd",
    }
}
