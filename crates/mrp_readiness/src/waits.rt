//! Readiness: how much each pair waits for before it is ready.

ghost use Rattle.std.specs.Prelude.{◌≡◌, ℕ, ◌+◌, ◌^◌, ◌<◌, All, IfOk, length, slice_index};
ghost use Rattle.mrp_readiness.specs.Progress.{times};
ghost use Rattle.mrp_readiness.specs.Counts.{AreCounted, AreFirstCounts};

use crate::Join;
use std::alloc::{AllocError, Global};

/// How much each of `pairs` pairs waits for before anything is planned: once for each join of it, and once
/// for each block that it awaits.
///
/// `awaited` has the place of a block's pair, once for each block that a pair of the plant awaits.
///
/// # Errors
///
/// [`AllocError`] where memory is refused.
pub fn first_waits(
    alloc: Global,
    joins: &[Join],
    awaited: &[usize],
    pairs: usize,
) -> Result<Vec<usize>, AllocError>
    requires few { length joins.now + length awaited.now < 2 ^ 64 }
    requires joins { All (λ j. j.component < pairs) joins.now }
    requires awaited { All (λ y. y < pairs) awaited.now }
    ensures size { IfOk result (λ waits. length waits.items ≡ pairs) }
    ensures counts { IfOk result (λ waits. AreFirstCounts waits.items joins.now (λ y. times y awaited.now)) }
{
    let mut waits = vec![in alloc; 0usize; pairs]?;
    count_joins(&mut waits, joins);
    count_blocks(&mut waits, awaited);
    Ok(waits)
}

/// Counts each join for its component.
fn count_joins(waits: &mut [usize], joins: &[Join])
    requires known { All (λ j. j.component < length waits.old) joins.now }
    requires few { (y : ℕ) → y < length waits.old → slice_index waits.old y + length joins.now < 2 ^ 64 }
    ensures { AreCounted (λ j. j.component) waits.old waits.new joins.now }
{
    for join in joins {
        waits[join.component] += 1;
    }
}

/// Counts each block for its pair.
fn count_blocks(waits: &mut [usize], awaited: &[usize])
    requires known { All (λ y. y < length waits.old) awaited.now }
    requires few { (y : ℕ) → y < length waits.old → slice_index waits.old y + length awaited.now < 2 ^ 64 }
    ensures { AreCounted (λ y. y) waits.old waits.new awaited.now }
{
    for &y in awaited {
        waits[y] += 1;
    }
}
