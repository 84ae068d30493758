//! Reports: their rows, written from their end, each field with a comma before what stands behind it.

ghost use Rattle.std.specs.Prelude.{◌≡◌, ◌+◌, ◌++◌, ◌∷◌, ◌≤◌, drop, length, decimal};
ghost use Rattle.csv.specs.Writing.{comma};
ghost use Rattle.mrp_report.specs.Terms.{per_text};

use itoa::write_digits;

/// Writes a number and a comma before what starts at `next`, and returns where the number starts.
pub(crate) fn number_before(text: &mut [u8], next: usize, number: u64) -> usize
    requires room { length (decimal number) + 1 ≤ next }
    requires within { next ≤ length text.old }
    ensures start { result + length (decimal number) + 1 ≡ next }
    ensures part { drop result text.new ≡ decimal number ++ comma ∷ drop next text.old }
{
    text[next - 1] = b',';
    write_digits(number, text, next - 1)
}

/// Writes the pieces for so many parents before `end`, as `per/base`, or `per` where they are for one, and returns where
/// they start.
pub(crate) fn write_per(text: &mut [u8], end: usize, per: u64, base: u64) -> usize
    requires room { length (per_text per base) ≤ end }
    requires within { end ≤ length text.old }
    ensures start { result + length (per_text per base) ≡ end }
    ensures part { drop result text.new ≡ per_text per base ++ drop end text.old }
{
    if base == 1 {
        return write_digits(per, text, end);
    }
    let slash = write_digits(base, text, end) - 1;
    text[slash] = b'/';
    write_digits(per, text, slash)
}

/// Writes the pieces for so many parents and a comma before what starts at `next`, and returns where they start.
pub(crate) fn per_before(text: &mut [u8], next: usize, per: u64, base: u64) -> usize
    requires room { length (per_text per base) + 1 ≤ next }
    requires within { next ≤ length text.old }
    ensures start { result + length (per_text per base) + 1 ≡ next }
    ensures part { drop result text.new ≡ per_text per base ++ comma ∷ drop next text.old }
{
    text[next - 1] = b',';
    write_per(text, next - 1, per, base)
}

/// Writes bytes and a comma before what starts at `next`, and returns where the bytes start.
pub(crate) fn text_before(text: &mut [u8], next: usize, bytes: &[u8]) -> usize
    requires room { length bytes.now + 1 ≤ next }
    requires within { next ≤ length text.old }
    ensures start { result + length bytes.now + 1 ≡ next }
    ensures part { drop result text.new ≡ bytes.now ++ comma ∷ drop next text.old }
{
    let start = next - 1 - bytes.len();
    text[next - 1] = b',';
    text[start..next - 1].copy_from_slice(bytes);
    start
}
