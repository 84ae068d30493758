//! CSV output: fields of a row that are empty where there is nothing to say.

ghost use Rattle.std.specs.Prelude.{◌≡◌, ◌<◌, [], IfSome, length};
ghost use Rattle.std.specs.Option.{option_map_or};
ghost use Rattle.mrp_csv_out.specs.Fields.{date_if_any};

use crate::date_of;
use itoa::{Buffer, Integer};

/// A number in decimal digits, or an empty field where there is none.
pub fn number_if_any<I: Integer>(buffer: &mut Buffer, number: Option<I>) -> &[u8]
    ensures { result.now ≡ option_map_or I.text number [] }
{
    match number {
        None => b"",
        Some(number) => buffer.format(number).as_bytes(),
    }
}

/// The date of a period, yyyy-mm-dd, or an empty field where there is no period.
pub fn date_if_any<'a>(dates: &'a [[u8; 10]], period: Option<usize>) -> &'a [u8]
    requires { IfSome period (λ t. t < length dates.now) }
    ensures { result.now ≡ date_if_any dates.now period }
{
    match period {
        None => b"",
        Some(period) => date_of(dates, period),
    }
}
