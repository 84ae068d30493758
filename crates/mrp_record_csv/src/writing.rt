//! Records as CSV, written as rows.

ghost use Rattle.std.specs.Prelude.{◌≡◌, ◌++◌, ◌∷◌, map, OnOk, OnErr};
ghost use Rattle.mrp_csv_out.specs.Rows.{row};
ghost use Rattle.mrp_record_csv.specs.Rows.{close_fields, end_fields, Grows, HasRow, line_fields, record_text};
ghost use Rattle.mrp_record_csv.specs.Rows.{reset_record_fields};

use itoa::Buffer;
use mrp_net::Network;
use mrp_qty::Memory;
use mrp_record::Record;

/// Puts the row of a record behind a text. The record's item is one of the network, and each of its
/// numbers is below 10^16.
///
/// # Errors
///
/// [`Memory`] where the text may not grow; it has the same bytes as before.
pub fn write_record(network: &Network, record: &Record, out: &mut Vec<u8>) -> Result<(), Memory>
    requires record { HasRow network.now «record».now }
    ensures written { OnOk result (out.new.items ≡ out.old.items ++ record_text network.now «record».now) }
    ensures unchanged { OnErr result (out.new.items ≡ out.old.items) }
{
    let before = out.len();
    let written = put_record(network, *record, out);
    if written.is_err() {
        out.truncate(before);
    }
    written
}

/// Puts the row of a record behind a text, or a prefix of it.
fn put_record(network: &Network, record: Record, out: &mut Vec<u8>) -> Result<(), Memory>
    requires record { HasRow network.now «record» }
    ensures written { OnOk result (out.new.items ≡ out.old.items ++ record_text network.now «record») }
    ensures kept { OnErr result (Grows out.old.items out.new.items) }
{
    match record {
        Record::Line {
            number,
            item,
            period,
            quantity,
            cumulative,
        } => {
            let name = network.item_name(item);
            put_line(number, name, period, quantity, cumulative, out)
        }
        Record::ItemEnd {
            number,
            item,
            lines,
            cumulative,
        } => put_end(number, network.item_name(item), lines, cumulative, out),
        Record::Reset {
            number,
            item,
            closed,
        } => put_reset(number, network.item_name(item), closed, out),
        Record::Close { number } => put_close(number, out),
    }
}

/// Puts the row of a line behind a text, or a prefix of it.
fn put_line(
    number: u64,
    item: &str,
    period: u64,
    quantity: u64,
    cumulative: u64,
    out: &mut Vec<u8>,
) -> Result<(), Memory>
    ensures written { OnOk result (out.new.items
        ≡ out.old.items ++ row (line_fields number item.now period quantity cumulative)) }
    ensures kept { OnErr result (Grows out.old.items out.new.items) }
{
    let mut place = Buffer::new();
    let mut arrives = Buffer::new();
    let mut pieces = Buffer::new();
    let mut figure = Buffer::new();
    put_row(
        b"line",
        &[
            place.format(number).as_bytes(),
            item.as_bytes(),
            arrives.format(period).as_bytes(),
            pieces.format(quantity).as_bytes(),
            figure.format(cumulative).as_bytes(),
        ],
        out,
    )
}

/// Puts the row of an item end behind a text, or a prefix of it.
fn put_end(
    number: u64,
    item: &str,
    lines: u64,
    cumulative: u64,
    out: &mut Vec<u8>,
) -> Result<(), Memory>
    ensures written { OnOk result (out.new.items
        ≡ out.old.items ++ row (end_fields number item.now lines cumulative)) }
    ensures kept { OnErr result (Grows out.old.items out.new.items) }
{
    let mut place = Buffer::new();
    let mut count = Buffer::new();
    let mut figure = Buffer::new();
    put_row(
        b"end",
        &[
            place.format(number).as_bytes(),
            item.as_bytes(),
            count.format(lines).as_bytes(),
            figure.format(cumulative).as_bytes(),
            b"",
        ],
        out,
    )
}

/// Puts the row of a reset behind a text, or a prefix of it.
fn put_reset(number: u64, item: &str, closed: u64, out: &mut Vec<u8>) -> Result<(), Memory>
    ensures written { OnOk result (out.new.items
        ≡ out.old.items ++ row (reset_record_fields number item.now closed)) }
    ensures kept { OnErr result (Grows out.old.items out.new.items) }
{
    let mut place = Buffer::new();
    let mut figure = Buffer::new();
    put_row(
        b"reset",
        &[
            place.format(number).as_bytes(),
            item.as_bytes(),
            figure.format(closed).as_bytes(),
            b"",
            b"",
        ],
        out,
    )
}

/// Puts the row of a closing record behind a text, or a prefix of it.
fn put_close(number: u64, out: &mut Vec<u8>) -> Result<(), Memory>
    ensures written { OnOk result (out.new.items ≡ out.old.items ++ row (close_fields number)) }
    ensures kept { OnErr result (Grows out.old.items out.new.items) }
{
    let mut place = Buffer::new();
    put_row(
        b"close",
        &[place.format(number).as_bytes(), b"", b"", b"", b""],
        out,
    )
}

/// Puts a row behind a text, or a prefix of it: a word and the fields after it.
fn put_row(word: &[u8], fields: &[&[u8]], out: &mut Vec<u8>) -> Result<(), Memory>
    ensures written { OnOk result (out.new.items
        ≡ out.old.items ++ row (word.now ∷ map (λ field. field.now) fields.now)) }
    ensures kept { OnErr result (Grows out.old.items out.new.items) }
{
    out.extend_from_slice(word)?;
    'fields: for field in fields {
        out.push(b',')?;
        out.extend_from_slice(field)?;
    }
    out.push(b'\n')?;
    Ok(())
}
