//! Quantities of all periods of a row at once, in one tight loop each.

ghost use Rattle.std.specs.Prelude.{◌≡◌, ℕ, ◌+◌, ◌*◌, ◌≤◌, ◌<◌, length, slice_index, All};
ghost use Rattle.mrp_qty.specs.declared.quantity.TheConstants.{MOST};

use crate::Qty;

/// Adds `times` each quantity of `added` to that of the same period.
pub(crate) fn add_times(amounts: &mut [Qty], times: u64, added: &[Qty])
    requires periods { length amounts.old ≡ length added.now }
    requires within { (t : ℕ) → t < length amounts.old →
        slice_index amounts.old t + times * slice_index added.now t ≤ MOST }
    ensures { (t : ℕ) → t < length amounts.old →
        slice_index amounts.new t ≡ slice_index amounts.old t + times * slice_index added.now t }
{
    let periods = amounts.len();
    let added = &added[..periods];
    for t in 0..periods {
        let sum = amounts[t].get() + times * added[t].get();
        amounts[t] = Qty::of(sum);
    }
}

/// Makes each quantity the number of pieces of its period.
pub(crate) fn copy_pieces(amounts: &mut [Qty], pieces: &[u64])
    requires periods { length amounts.old ≡ length pieces.now }
    requires within { All (λ quantity. quantity ≤ MOST) pieces.now }
    ensures { amounts.new ≡ pieces.now }
{
    let periods = amounts.len();
    let pieces = &pieces[..periods];
    for t in 0..periods {
        amounts[t] = Qty::of(pieces[t]);
    }
}
