//! Master data: short texts, as names and words are, and whether two are equal.

ghost use Rattle.std.specs.Prelude.{◌≡◌};
ghost use Rattle.std.specs.Str.{bytes_eq};

/// Whether two texts are equal. They are compared byte by byte, since names and words are short.
pub fn is_same_text(text: &str, other: &str) -> bool
    ensures { result ≡ bytes_eq text.now other.now }
{
    let (text, other) = (text.as_bytes(), other.as_bytes());
    if text.len() != other.len() {
        return false;
    }
    for i in 0..text.len() {
        if text[i] != other[i] {
            return false;
        }
    }
    true
}
