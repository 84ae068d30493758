//! The report of codes: its rows, the low-level code of each pair.

ghost use Rattle.std.specs.Prelude.{◌≡◌, ◌++◌, Err, OnOk, IfOk, IfErr};
ghost use Rattle.mrp_master_data.specs.Table.{IsPair};
ghost use Rattle.mrp_loops.specs.Codes.{AreCodes};
ghost use Rattle.mrp_report.specs.Headings.{code_names};
ghost use Rattle.mrp_csv_out.specs.Headings.{header_row};
ghost use Rattle.mrp_csv_out.specs.Writing.{IsBetweenRows, written};
ghost use Rattle.mrp_csv_out.specs.Sent.{SendsReport};
ghost use Rattle.mrp_report.specs.Codes.{code_row, code_text};

use csv::Writer;
use itoa::Buffer;
use mrp_commands::Heading;
use mrp_csv_out::{ReportFault, put_names, put_row, room_for, send, text_of};
use mrp_loops::Levels;
use mrp_net::{Network, PairNo};
use std::alloc::Global;
use std::io::Write;

/// The most bytes of a row: the word, two names of 20, a code of 6 digits, the commas and the line
/// feed.
const LONGEST_ROW: usize = 54;

/// Writes a row for each pair in table order: `code`, plant, item and the pair's low-level code. The
/// levels are those of the network. The names of the columns stand above them where `heading` says so.
///
/// # Errors
///
/// - [`ReportFault::WriteFault`] where a write fails or takes nothing; a prefix of the report is
///   written.
/// - [`ReportFault::Memory`] where the room for the report is refused; nothing is written.
pub fn code_rows<W: Write>(
    alloc: Global,
    network: &Network,
    levels: &Levels,
    heading: Heading,
    out: &mut W,
) -> Result<(), ReportFault>
    requires { AreCodes network.now levels.now }
    ensures text { SendsReport (W.contents out.old) (W.contents out.new) result
        (header_row heading code_names ++ code_text network.now levels.now) }
    ensures untouched { result ≡ Err ReportFault.Memory → out.new ≡ out.old }
{
    let text = code_text(alloc, network, levels, heading)?;
    send(text.as_slice(), out)
}

/// The code rows as bytes.
fn code_text(
    alloc: Global,
    network: &Network,
    levels: &Levels,
    heading: Heading,
) -> Result<Vec<u8>, ReportFault>
    requires { AreCodes network.now levels.now }
    ensures text { IfOk result (λ text. text.items ≡ header_row heading code_names
        ++ code_text network.now levels.now) }
    ensures fault { IfErr result (λ fault. fault ≡ ReportFault.Memory) }
{
    let mut rows = room_for(alloc, network.pairs(), LONGEST_ROW)?;
    put_names(&mut rows, heading, &[b"row", b"plant", b"item", b"code"])?;
    'pairs: for x in 0..network.pairs() {
        let (plant, item) = network.pair_name(PairNo(x));
        put_code(&mut rows, plant, item, levels.code(PairNo(x)))?;
    }
    text_of(rows)
}

/// Adds the row of a pair's code.
fn put_code<'a>(
    rows: &mut Writer<Vec<u8>>,
    plant: &'a str,
    item: &'a str,
    code: u64,
) -> Result<(), ReportFault>
    requires { IsBetweenRows rows.old }
    ensures row { OnOk result (written rows.new ≡ written rows.old ++ code_row plant.now item.now code) }
    ensures between { OnOk result (IsBetweenRows rows.new) }
    ensures fault { IfErr result (λ fault. fault ≡ ReportFault.Memory) }
{
    let mut digits = Buffer::new();
    put_row(
        rows,
        &[
            b"code",
            plant.as_bytes(),
            item.as_bytes(),
            digits.format(code).as_bytes(),
        ],
    )
}
