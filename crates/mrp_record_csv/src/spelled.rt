//! Records as CSV: what the fields of a row spell.

ghost use Rattle.std.specs.Prelude.{◌≡◌, IfOk};
ghost use Rattle.csv.specs.Records.{fields_of};
ghost use Rattle.mrp_record_csv.specs.Grammar.{spelled_close, spelled_end, record_is_empty_from, item_field};
ghost use Rattle.mrp_record_csv.specs.Grammar.{spelled_line, number_field, spelled_reset};
ghost use Rattle.mrp_record_csv.specs.Grammar.{record_row_kind, spelled_record};

use crate::RecordFaultKind;
use crate::items::NamedItems;
use crate::kind::Kind;
use csv::StringRecord;
use mrp_master_data::number;
use mrp_net::ItemNo;
use mrp_record::Record;
use mrp_validation::{field, is_free};

/// How many fields a row has.
const FIELDS: usize = 6;

/// Whether the fields from `used` on are empty; two and more are used.
fn is_empty_from(row: &StringRecord, used: usize) -> bool
    ensures { result ≡ record_is_empty_from (fields_of row.now) used }
{
    is_free(row, used, 2) && is_free(row, used, 3) && is_free(row, used, 4) && is_free(row, used, 5)
}

/// The kind of a row that has the fields of its kind.
#[tactic(auto, unfolding(crate::specs::Grammar::record_row_kind))]
fn row_kind(row: &StringRecord) -> Result<Kind, RecordFaultKind>
    ensures { result ≡ record_row_kind (fields_of row.now) }
{
    if row.len() != FIELDS {
        return Err(RecordFaultKind::FieldCount);
    }
    let kind = Kind::of(field(row, 0)).ok_or(RecordFaultKind::UnknownKind)?;
    if is_empty_from(row, kind.used()) {
        Ok(kind)
    } else {
        Err(RecordFaultKind::FieldCount)
    }
}

/// The number in a field.
fn number_at(row: &StringRecord, i: usize) -> Result<u64, RecordFaultKind>
    ensures { result ≡ number_field (fields_of row.now) i }
{
    number(field(row, i)).ok_or(RecordFaultKind::BadNumber)
}

/// The item of a row.
fn item_at(items: &NamedItems<'_>, row: &StringRecord) -> Result<ItemNo, RecordFaultKind>
    ensures { result ≡ item_field items.now (fields_of row.now) }
{
    items
        .find(field(row, 2))
        .ok_or(RecordFaultKind::UnknownItem)
}

/// The line of a row.
#[tactic(auto, unfolding(crate::specs::Grammar::spelled_line))]
fn line_of(items: &NamedItems<'_>, row: &StringRecord) -> Result<Record, RecordFaultKind>
    ensures { result ≡ spelled_line items.now (fields_of row.now) }
{
    let number = number_at(row, 1)?;
    let period = number_at(row, 3)?;
    let quantity = number_at(row, 4)?;
    let cumulative = number_at(row, 5)?;
    let item = item_at(items, row)?;
    Ok(Record::Line {
        number,
        item,
        period,
        quantity,
        cumulative,
    })
}

/// The item end of a row.
#[tactic(auto, unfolding(crate::specs::Grammar::spelled_end))]
fn end_of(items: &NamedItems<'_>, row: &StringRecord) -> Result<Record, RecordFaultKind>
    ensures { result ≡ spelled_end items.now (fields_of row.now) }
{
    let number = number_at(row, 1)?;
    let lines = number_at(row, 3)?;
    let cumulative = number_at(row, 4)?;
    let item = item_at(items, row)?;
    Ok(Record::ItemEnd {
        number,
        item,
        lines,
        cumulative,
    })
}

/// The reset of a row.
#[tactic(auto, unfolding(crate::specs::Grammar::spelled_reset))]
fn reset_of(items: &NamedItems<'_>, row: &StringRecord) -> Result<Record, RecordFaultKind>
    ensures { result ≡ spelled_reset items.now (fields_of row.now) }
{
    let number = number_at(row, 1)?;
    let closed = number_at(row, 3)?;
    let item = item_at(items, row)?;
    Ok(Record::Reset {
        number,
        item,
        closed,
    })
}

/// The closing record of a row.
#[tactic(auto, unfolding(crate::specs::Grammar::spelled_close))]
fn close_of(row: &StringRecord) -> Result<Record, RecordFaultKind>
    ensures { result ≡ spelled_close (fields_of row.now) }
{
    let number = number_at(row, 1)?;
    Ok(Record::Close { number })
}

/// The record of a row whose fields are text, or the first fault of the row.
#[tactic(auto, unfolding(crate::specs::Grammar::spelled_record))]
pub(crate) fn spelled_record(
    items: &NamedItems<'_>,
    row: &StringRecord,
) -> Result<Record, RecordFaultKind>
    ensures { result ≡ spelled_record items.now (fields_of row.now) }
{
    match row_kind(row)? {
        Kind::Line => line_of(items, row),
        Kind::ItemEnd => end_of(items, row),
        Kind::Reset => reset_of(items, row),
        Kind::Close => close_of(row),
    }
}
