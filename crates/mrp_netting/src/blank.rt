//! Netting one pair: blank plans of single pairs, in which nothing is netted or planned yet.

ghost use Rattle.std.specs.Prelude.{◌≡◌, IfOk, replicate};
ghost use Rattle.mrp_netting.specs.Plan.{nothing_planned};

use crate::PairPlan;
use mrp_qty::{Horizon, Memory};
use std::alloc::Global;

/// For so many plans the memory grows at once, where they are of 104 periods; of 520 for some three.
const AT_ONCE: usize = 16;

/// A plan of 104 periods takes fewer bytes.
const ROOM: usize = 4_500;

/// So many plans of zeros with no late order, each as [`PairPlan::new`] makes it. The horizon is 1 to 520 periods.
///
/// # Errors
///
/// [`Memory`] where the room for them is refused.
pub fn blank_plans(alloc: Global, horizon: Horizon, count: usize) -> Result<Vec<PairPlan>, Memory>
    ensures { IfOk result (λ plans. plans.items ≡ replicate count (nothing_planned horizon)) }
{
    let mut plans = Vec::with_capacity(alloc, count)?;
    for place in 0..count {
        grow(alloc, place);
        plans.push(PairPlan::new(alloc, horizon)?)?;
    }
    Ok(plans)
}

/// Before every sixteen plans takes room for them and gives it back. The C library lets the memory of a thread grow
/// by what it is asked for at once: so it grows for many plans, and not page by page. A refusal is no fault, since
/// what follows asks for less.
fn grow(alloc: Global, place: usize) {
    if place % AT_ONCE == 0 {
        let _ = Vec::<u8>::with_capacity(alloc, AT_ONCE * ROOM);
    }
}
