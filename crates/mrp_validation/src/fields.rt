//! Fields of a row of comma-separated text, for the validation of tables and for the grammars of other texts.

ghost use Rattle.std.specs.Prelude.{◌≡◌};
ghost use Rattle.csv.specs.Records.{fields_of};
ghost use Rattle.mrp_validation.specs.Grammar.{field, is_free};

use csv::StringRecord;

/// A field of a row, counted from 0; one that isn't there is empty.
pub fn field(row: &StringRecord, i: usize) -> &str
    ensures { result.now ≡ field (fields_of row.now) i }
{
    row.get(i).unwrap_or("")
}

/// Whether a field, counted from 0, is one of the first `used`, or empty. Where it holds of each field,
/// the row says nothing behind the used ones.
pub fn is_free(row: &StringRecord, used: usize, i: usize) -> bool
    ensures { result ≡ is_free (fields_of row.now) used i }
{
    i < used || field(row, i).is_empty()
}
