//! Master data: how a number is spelled.

ghost use Rattle.std.specs.Prelude.{◌≡◌, ◌≢◌, ◌≤◌, ℕ, length, IfSome, MatchOption, decimal};
ghost use Rattle.mrp_master_data.specs.Digits.{digits_of};
ghost use Rattle.mrp_master_data.specs.Parsing.{IsShort, spelled_number, number_within};

/// The number that digits spell, where each byte is one.
fn digits_value(text: &[u8]) -> Option<u64>
    requires short { length text.now ≤ 16 }
    ensures { result ≡ digits_of text.now }
{
    let mut value = 0;
    for byte in text {
        if !byte.is_ascii_digit() {
            return None;
        }
        value = 10 * value + (*byte - b'0') as u64;
    }
    Some(value)
}

/// The number that a text spells.
#[tactic(auto, unfolding(crate::specs::Parsing::spelled_number))]
fn read(text: &str) -> Option<u64>
    ensures { result ≡ spelled_number text.now }
{
    let bytes = text.as_bytes();
    if bytes.is_empty() || bytes.len() > 16 || (bytes[0] == b'0' && bytes.len() > 1) {
        return None;
    }
    digits_value(bytes)
}

/// The number that a text spells: `0`, or 1 to 16 digits of which the first is not `0`. Each number
/// below 10^16 has just one such text.
pub fn number(text: &str) -> Option<u64>
    ensures value { result ≡ spelled_number text.now }
    ensures spelled { MatchOption result ((n : ℕ) → IsShort n
        → text.now ≢ decimal n) (λ n. (text.now ≡ decimal n) × IsShort n) }
{
    read(text)
}

/// The number that a text spells, where it is `low` to `high`.
#[tactic(auto, unfolding(crate::specs::Parsing::number_within))]
pub fn number_within(text: &str, low: u64, high: u64) -> Option<u64>
    ensures exact { result ≡ number_within text.now low high }
    ensures within { IfSome result (λ n. (low ≤ n) × (n ≤ high)) }
{
    let value = number(text)?;
    if low <= value && value <= high {
        Some(value)
    } else {
        None
    }
}
