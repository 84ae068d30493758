//! Grouping by a key: amounts of rows added up by it.

ghost use Rattle.std.specs.Prelude.{◌≡◌, ℕ, ◌+◌, ◌*◌, ◌<◌, length, All};
ghost use Rattle.mrp_grouping.specs.Added.{AddsTotals, AddsAmounts};

use crate::KeyOf;

/// An amount that rows say.
pub trait AmountOf<T> {
    /// The amount of a row.
    ghost amount_of: { Self → T → ℕ };

    /// How many pieces the row says.
    fn amount(&self, row: &T) -> u64
        ensures { result ≡ amount_of self.now row.now };
}

/// Adds the amounts of the rows to `totals`, which has a number for each key. A sum past 2^64 - 1
/// stays there.
pub fn add_totals<T, K: KeyOf<T>, A: AmountOf<T>>(by: &K, of: &A, rows: &[T], totals: &mut [u64])
    requires has { All (K.has_key by.now) rows.now }
    requires keys { All (λ r. K.key_of by.now r < length totals.old) rows.now }
    ensures { AddsTotals (K.key_of by.now) (A.amount_of of.now) rows.now totals.old totals.new }
{
    for row in rows {
        let k = by.key(row);
        totals[k] = totals[k].saturating_add(of.amount(row));
    }
}

/// Adds the amounts of the rows to `amounts`, which has `width` numbers for each key, key by key: a
/// second key, as the period, says which of them. A sum past 2^64 - 1 stays there.
pub fn add_amounts<T, K: KeyOf<T>, L: KeyOf<T>, A: AmountOf<T>>(
    by: &K,
    second: &L,
    of: &A,
    rows: &[T],
    width: usize,
    amounts: &mut [u64],
)
    requires has { All (K.has_key by.now) rows.now }
    requires has_second { All (L.has_key second.now) rows.now }
    requires places { All (λ r. K.key_of by.now r * width + L.key_of second.now r < length amounts.old) rows.now }
    requires keys { All (λ r. L.key_of second.now r < width) rows.now }
    ensures { AddsAmounts (K.key_of by.now) (L.key_of second.now)
        (A.amount_of of.now) width rows.now amounts.old amounts.new }
{
    for row in rows {
        let at = by.key(row) * width + second.key(row);
        amounts[at] = amounts[at].saturating_add(of.amount(row));
    }
}
