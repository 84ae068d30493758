//! Netting one pair: rows that may be shorter than the horizon. Past its end a row has no pieces.

ghost use Rattle.std.specs.Prelude.{◌≡◌, ℕ, ◌+◌, ◌≤◌, ◌<◌, length, slice_index, sum, take};
ghost use Rattle.mrp_qty.specs.declared.quantity.TheConstants.{MOST};
ghost use Rattle.mrp_qty.specs.declared.horizon.TheConstants.{LONGEST};

use mrp_qty::{Qty, Row};

/// The pieces of period `t`.
pub(crate) fn pieces_at(pieces: &[u64], t: usize) -> u64
    ensures { result ≡ slice_index pieces.now t }
{
    if t < pieces.len() { pieces[t] } else { 0 }
}

/// The quantity of period `t`.
pub(crate) fn quantity_at(row: &[Qty], t: usize) -> u64
    ensures { result ≡ slice_index row.now t }
{
    if t < row.len() { row[t].get() } else { 0 }
}

/// The pieces of the first `count` periods.
pub(crate) fn front_pieces(pieces: &[u64], count: usize) -> u64
    requires { sum pieces.now ≤ MOST }
    ensures { result ≡ sum (take count pieces.now) }
{
    let end = count.min(pieces.len());
    let mut total = 0;
    for t in 0..end {
        total += pieces[t];
    }
    total
}

/// The quantities of the first `count` periods.
pub(crate) fn front_quantity(row: &[Qty], count: usize) -> u64
    requires { sum row.now ≤ MOST }
    ensures { result ≡ sum (take count row.now) }
{
    let end = count.min(row.len());
    let mut total = 0;
    for t in 0..end {
        total += row[t].get();
    }
    total
}

/// Adds the pieces of each period to `row`.
pub(crate) fn add_pieces(row: &mut Row, pieces: &[u64])
    requires periods { length pieces.now ≤ length row.old }
    requires within { (t : ℕ) → slice_index row.old t + slice_index pieces.now t ≤ MOST }
    ensures each { (t : ℕ) → slice_index row.new t ≡ slice_index row.old t + slice_index pieces.now t }
    ensures size { length row.new ≡ length row.old }
{
    for t in 0..pieces.len() {
        row.add(t, Qty::of(pieces[t]));
    }
}

/// Makes the quantities of `row` those pieces.
pub(crate) fn put_pieces(row: &mut Row, pieces: &[u64])
    requires periods { length pieces.now ≤ length row.old }
    requires within { sum pieces.now ≤ MOST }
    ensures each { (t : ℕ) → slice_index row.new t ≡ slice_index pieces.now t }
    ensures size { length row.new ≡ length row.old }
{
    if pieces.len() == row.len() {
        row.copy_pieces(pieces);
        return;
    }
    row.clear();
    add_pieces(row, pieces);
}

/// The quantities of a row of at most 520 periods as pieces, in the first places of an array.
pub(crate) fn pieces_of(row: &[Qty]) -> [u64; 520]
    requires { length row.now ≤ LONGEST }
    ensures { take (length row.now) result ≡ row.now }
{
    let mut pieces = [0; 520];
    for t in 0..row.len() {
        pieces[t] = row[t].get();
    }
    pieces
}
