//! Netting one pair: the late orders in its plan.

ghost use Rattle.std.specs.Prelude.{◌≡◌, ◌≤◌, ◌<◌, length, vec_capacity, MatchBool};
ghost use Rattle.mrp_qty.specs.declared.horizon.TheConstants.{LONGEST};
ghost use Rattle.mrp_netting.specs.PlanRows.{late_periods};

use mrp_qty::Qty;

/// Writes into `late` the periods before `lead` that have an order, by rising period: `lead` is the first period that
/// can be met, the lead time where there is no fence.
///
/// There are at most 520 orders, and `late` has room for as many periods.
pub fn note_late(lead: u64, order: &[Qty], late: &mut Vec<u16>)
    requires short { length order.now ≤ LONGEST }
    requires room { length order.now ≤ vec_capacity late.old }
    ensures periods { late.new.items ≡ late_periods lead order.now (length order.now) }
    ensures room { vec_capacity late.old ≤ vec_capacity late.new }
{
    late.clear();
    let end = order.len().min(lead as usize);
    for t in 0..end {
        if is_order(order[t]) {
            let _ = late.push(t as u16);
        }
    }
}

/// Whether there is something to order.
fn is_order(order: Qty) -> bool
    ensures { MatchBool result (0 < order) (order ≡ 0) }
{
    order.get() > 0
}
