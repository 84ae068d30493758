//! The calendar: the text of a day, yyyy-mm-dd, read and written.

ghost use Rattle.std.specs.Prelude.{◌≡◌, ◌*◌, ◌+◌, ◌-◌, ◌≤◌, ◌↔◌, pos, ◌≤ℤ◌, unsigned_abs, length, slice_index, IsTrue};
ghost use Rattle.std.specs.Prelude.{MatchOption};
ghost use Rattle.jiff.specs.Types.{Date as Plain};
ghost use Rattle.jiff.specs.Words.{epoch_day};
ghost use Rattle.mrp_cal.specs.DateText.{IsDigit, HasDateShape, IsDateText};
ghost use Rattle.mrp_cal.specs.Days.{date_text};

use jiff::civil::Date;

/// Whether a text has the shape `dddd-dd-dd`.
fn has_shape(text: &[u8]) -> bool
    ensures { IsTrue result ↔ HasDateShape text.now }
{
    if text.len() != 10 || text[4] != b'-' || text[7] != b'-' {
        return false;
    }
    text[0].is_ascii_digit()
        && text[1].is_ascii_digit()
        && text[2].is_ascii_digit()
        && text[3].is_ascii_digit()
        && text[5].is_ascii_digit()
        && text[6].is_ascii_digit()
        && text[8].is_ascii_digit()
        && text[9].is_ascii_digit()
}

/// The number that two digits spell, 0 to 99.
fn pair(tens: u8, ones: u8) -> u8
    requires tens { IsDigit tens }
    requires ones { IsDigit ones }
    ensures value { result ≡ 10 * (tens - 48) + (ones - 48) }
    ensures within { result ≤ 99 }
{
    10 * (tens - b'0') + (ones - b'0')
}

/// The date that a text `yyyy-mm-dd` spells, or `None` where it spells none.
pub(crate) fn date_of_text(text: &[u8]) -> Option<Date>
    ensures { MatchOption result ((d : Plain) → ¬ (IsDateText text.now d)) (IsDateText text.now) }
{
    if !has_shape(text) {
        return None;
    }
    let year = 100 * pair(text[0], text[1]) as i16 + pair(text[2], text[3]) as i16;
    let month = pair(text[5], text[6]) as i8;
    let day = pair(text[8], text[9]) as i8;
    Date::new(year, month, day).ok()
}

/// The byte of a digit, 0 to 9.
fn digit_byte(digit: u16) -> u8
    requires { digit ≤ 9 }
    ensures { result ≡ 48 + digit }
{
    b'0' + digit as u8
}

/// The ten bytes of a year up to 9999, a month and a day up to 99.
fn ten_bytes(year: u16, month: u16, day: u16) -> [u8; 10]
    requires year { year ≤ 9999 }
    requires month { month ≤ 99 }
    requires day { day ≤ 99 }
    ensures { result ≡ date_text year month day }
{
    [
        digit_byte(year / 1000),
        digit_byte(year / 100 % 10),
        digit_byte(year / 10 % 10),
        digit_byte(year % 10),
        b'-',
        digit_byte(month / 10),
        digit_byte(month % 10),
        b'-',
        digit_byte(day / 10),
        digit_byte(day % 10),
    ]
}

/// The text `yyyy-mm-dd` of a date from 1970-01-01 on.
pub(crate) fn text_of_date(date: Date) -> [u8; 10]
    requires { pos 0 ≤ℤ epoch_day date }
    ensures bytes { result ≡ date_text (unsigned_abs date.year) date.month date.day }
    ensures spells { IsDateText result date }
{
    let date = date.to_plain();
    ten_bytes(date.year.unsigned_abs(), date.month as u16, date.day as u16)
}
