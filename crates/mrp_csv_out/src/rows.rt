//! CSV output: rows of csv in a room of their own.

ghost use Rattle.std.specs.Prelude.{◌≡◌, ◌≤◌, ◌++◌, map, IfOk, OnOk, IfErr, [], length};
ghost use Rattle.mrp_csv_out.specs.Headings.{header_row};
ghost use Rattle.mrp_csv_out.specs.Rows.{row};
ghost use Rattle.mrp_csv_out.specs.Writing.{IsBetweenRows, written};

use crate::ReportFault;
use csv::{QuoteStyle, Writer, WriterBuilder};
use mrp_commands::Heading;
use std::alloc::Global;

/// A writer that holds no rows, in whose room so many rows of at most so many bytes each fit (by construction;
/// no clause says how much that is).
///
/// # Errors
///
/// [`ReportFault::Memory`] where the room is refused.
pub fn room_for(alloc: Global, rows: usize, longest: usize) -> Result<Writer<Vec<u8>>, ReportFault>
    ensures empty { IfOk result (λ rows. written rows ≡ []) }
    ensures between { IfOk result IsBetweenRows }
    ensures fault { IfErr result (λ fault. fault ≡ ReportFault.Memory) }
{
    let text = Vec::with_capacity(alloc, rows.saturating_mul(longest))?;
    Ok(rows_in(text))
}

/// A writer of rows, after those that the text has.
pub fn rows_in(text: Vec<u8>) -> Writer<Vec<u8>>
    ensures written { written result ≡ text.items }
    ensures between { IsBetweenRows result }
{
    WriterBuilder::new()
        .quote_style(QuoteStyle::Never)
        .from_writer(text)
}

/// Adds a row of these fields, of which there are two and more.
///
/// # Errors
///
/// [`ReportFault::Memory`] where a growth of the room is refused.
pub fn put_row(rows: &mut Writer<Vec<u8>>, fields: &[&[u8]]) -> Result<(), ReportFault>
    requires between { IsBetweenRows rows.old }
    requires many { 2 ≤ length fields.now }
    ensures row { OnOk result (written rows.new ≡ written rows.old ++ row (map (λ field. field.now) fields.now)) }
    ensures between { OnOk result (IsBetweenRows rows.new) }
    ensures fault { IfErr result (λ fault. fault ≡ ReportFault.Memory) }
{
    let Ok(()) = rows.write_fields(fields) else {
        return Err(ReportFault::Memory);
    };
    Ok(())
}

/// Adds a row of the names of the columns, of which there are two and more, where they are asked for.
///
/// # Errors
///
/// [`ReportFault::Memory`] where a growth of the room is refused.
pub fn put_names(
    rows: &mut Writer<Vec<u8>>,
    heading: Heading,
    names: &[&[u8]],
) -> Result<(), ReportFault>
    requires between { IsBetweenRows rows.old }
    requires many { 2 ≤ length names.now }
    ensures names { OnOk result (written rows.new ≡ written rows.old
        ++ header_row heading (map (λ name. name.now) names.now)) }
    ensures between { OnOk result (IsBetweenRows rows.new) }
    ensures fault { IfErr result (λ fault. fault ≡ ReportFault.Memory) }
{
    match heading {
        Heading::Without => Ok(()),
        Heading::Names => put_row(rows, names),
    }
}

/// The text of the rows.
///
/// # Errors
///
/// [`ReportFault::Memory`] where a growth of the room is refused.
pub fn text_of(rows: Writer<Vec<u8>>) -> Result<Vec<u8>, ReportFault>
    ensures text { IfOk result (λ text. text.items ≡ written rows) }
    ensures fault { IfErr result (λ fault. fault ≡ ReportFault.Memory) }
{
    match rows.into_inner() {
        Ok(text) => Ok(text),
        Err(_) => Err(ReportFault::Memory),
    }
}
