//! The reader of tables: the keys by which it finds names and pairs.

ghost use Rattle.std.specs.Prelude.{◌≡◌, ◌≤◌, length, nat_le, if◌then◌else◌, Some, None};
ghost use Rattle.mrp_tables.specs.Keys.{key_of, mixed, mixed_with, word_of};

use std::hash::{Hash, Hasher};

/// The most bytes of a name.
const LONGEST: usize = 20;

/// The bytes that one word holds.
const IN_WORD: usize = 7;

/// An odd number without a pattern, by which words are mixed: 2^64 divided by the golden ratio.
const MIXER: u64 = 0x9e37_79b9_7f4a_7c15;

/// A name as three words: two names, of at most 20 bytes, are equal exactly where their keys are.
#[derive(Clone, Copy, PartialEq, Eq)]
pub(crate) struct NameKey {
    first: u64,
    second: u64,
    third: u64,
}

impl Hash for NameKey {
    ghost use Rattle.std.specs.Hash as fed;
    ghost use Rattle.mrp_tables.specs.Keys.{mixed};
    ghost use Rattle.std.specs.Cmp.Rules.{hashing};
    ghost use Rattle.std.proofs.Common.{rules};

    ghost hash_input = { λ k. fed.u64 (mixed k) };

    ghost respects_eq = { Prim.search (hashing, rules) };

    fn hash<H: Hasher>(&self, state: &mut H) {
        state.write_u64(self.mixed());
    }
}

impl NameKey {
    /// The three words as one number; of a text of at most seven bytes it is the first word.
    fn mixed(&self) -> u64
        ensures { result ≡ mixed self.now }
    {
        mixed_with(mixed_with(self.third, self.second), self.first)
    }

    /// The key of a text, or `None` where it is longer than any name.
    pub(crate) fn of(text: &str) -> Option<NameKey>
        ensures { result ≡ (if nat_le (length text.now) 20 then Some (key_of text.now) else None) }
    {
        let bytes = text.as_bytes();
        if bytes.len() > LONGEST {
            None
        } else if bytes.len() > IN_WORD {
            Some(NameKey::of_words(bytes))
        } else {
            Some(NameKey {
                first: word_of(bytes),
                second: 0,
                third: 0,
            })
        }
    }

    /// The key of at most 20 bytes.
    fn of_words(bytes: &[u8]) -> NameKey
        requires few { length bytes.now ≤ 20 }
        ensures { result ≡ key_of bytes.now }
    {
        let (first, rest) = bytes.split_at(bytes.len().min(IN_WORD));
        let (second, third) = rest.split_at(rest.len().min(IN_WORD));
        NameKey {
            first: word_of(first),
            second: word_of(second),
            third: word_of(third),
        }
    }
}

/// Two words as one, for a hash.
fn mixed_with(word: u64, other: u64) -> u64
    ensures { result ≡ mixed_with word other }
{
    word.wrapping_mul(MIXER).wrapping_add(other)
}

/// Up to seven bytes as one number, whose digits to the base 512 are one more than the bytes, the first of
/// them the lowest. So it tells how many bytes there are, too.
fn word_of(bytes: &[u8]) -> u64
    requires few { length bytes.now ≤ 7 }
    ensures { result ≡ word_of bytes.now }
{
    let mut word = 0;
    for i in (0..bytes.len()).rev() {
        word = word * 512 + bytes[i] as u64 + 1;
    }
    word
}

/// A pair by the names of its plant and its item. Two pairs may have one hash; the words tell them apart.
#[derive(Clone, Copy, PartialEq, Eq)]
pub(crate) struct PairKey {
    pub(crate) plant: NameKey,
    pub(crate) item: NameKey,
}

impl Hash for PairKey {
    ghost use Rattle.std.specs.Hash as fed;
    ghost use Rattle.mrp_tables.specs.Keys.{mixed, mixed_with};
    ghost use Rattle.std.specs.Cmp.Rules.{hashing};
    ghost use Rattle.std.proofs.Common.{rules};

    ghost hash_input = { λ k. fed.u64 (mixed_with (mixed k.item) (mixed k.plant)) };

    ghost respects_eq = { Prim.search (hashing, rules) };

    fn hash<H: Hasher>(&self, state: &mut H) {
        state.write_u64(mixed_with(self.item.mixed(), self.plant.mixed()));
    }
}
