//! The reader of tables: fields of a row that are names, and numbers in their ranges.

ghost use Rattle.std.specs.Prelude.{◌≡◌, ◌≤◌, IfOk};
ghost use Rattle.mrp_master_data.specs.Table.{IsName};
ghost use Rattle.mrp_validation.specs.Grammar.{name_field, ranged, seen};

use mrp_master_data::{is_name, number_within};
use mrp_validation::TableFaultKind;

/// The text itself, where it is a name.
pub(crate) fn name(text: &str) -> Result<&str, TableFaultKind>
    ensures exact { seen (λ found. found.now) result ≡ name_field text.now }
    ensures named { IfOk result (λ found. IsName found.now) }
{
    if is_name(text) {
        Ok(text)
    } else {
        Err(TableFaultKind::BadName)
    }
}

/// A number field of a row, `low` to `high`.
pub(crate) fn ranged(text: &str, low: u64, high: u64) -> Result<u64, TableFaultKind>
    ensures exact { result ≡ ranged text.now low high }
    ensures within { IfOk result (λ n. (low ≤ n) × (n ≤ high)) }
{
    number_within(text, low, high).ok_or(TableFaultKind::BadNumber)
}
