//! Netting one pair: whether the rows of its plan follow from its planning data, period by period. Nothing is written.

ghost use Rattle.std.specs.Prelude.{◌≡◌, ℕ, ◌+◌, ◌≤◌, ◌<◌, ◌↔◌, IsTrue, List, Some, length, slice_get, sum};
ghost use Rattle.mrp_qty.specs.declared.quantity.TheConstants.{MOST};
ghost use Rattle.mrp_lot.specs.declared.rule.TheConstants.{LONGEST_LEAD};
ghost use Rattle.mrp_netting.specs.PlanRows.{late_orders};
ghost use Rattle.mrp_netting.specs.PlanningData.{incoming_row, order_row, available_row, planned_release, release_row};
ghost use Rattle.mrp_netting.specs.PlanningBound.{IsWithinData, data_of};

use crate::counting::Sums;
use crate::orders::order_and_stock;
use crate::pieces::{front_quantity, pieces_at, quantity_at};
use crate::releasing::earliest_period;
use crate::{PairPlan, PlanningData};
use mrp_qty::Qty;

/// Whether the row is what comes in: arrivals, firm planned orders, and the receipts that are counted in each period.
pub(crate) fn has_incoming(given: &PlanningData<'_>, gross: &[Qty], incoming: &[Qty]) -> bool
    requires within { IsWithinData (data_of given.now gross.now) }
    requires len { length incoming.now ≡ length gross.now }
    ensures { IsTrue result ↔ (incoming.now ≡ incoming_row (data_of given.now gross.now)) }
{
    if given.policy.sooner == 0 {
        return has_incoming_when_due(given, gross, incoming);
    }
    has_receipts_counted(given, gross, incoming)
}

/// The same where all receipts count when they come.
fn has_incoming_when_due(given: &PlanningData<'_>, gross: &[Qty], incoming: &[Qty]) -> bool
    requires within { IsWithinData (data_of given.now gross.now) }
    requires when_due { given.now.policy.sooner ≡ 0 }
    requires len { length incoming.now ≡ length gross.now }
    ensures { IsTrue result ↔ (incoming.now ≡ incoming_row (data_of given.now gross.now)) }
{
    for t in 0..incoming.len() {
        let comes = pieces_at(given.receipts, t) + pieces_at(given.arrivals, t);
        if incoming[t].get() != comes + pieces_at(given.firm_due, t) {
            return false;
        }
    }
    true
}

/// The same where receipts may be counted sooner.
fn has_receipts_counted(given: &PlanningData<'_>, gross: &[Qty], incoming: &[Qty]) -> bool
    requires within { IsWithinData (data_of given.now gross.now) }
    requires len { length incoming.now ≡ length gross.now }
    ensures { IsTrue result ↔ (incoming.now ≡ incoming_row (data_of given.now gross.now)) }
{
    let mut sums = Sums::new(given, gross);
    for t in 0..incoming.len() {
        let others = pieces_at(given.arrivals, t) + pieces_at(given.firm_due, t);
        if incoming[t].get() != others + sums.count(given, gross, t, others) {
            return false;
        }
    }
    true
}

/// Whether the planned order receipts and the projected available are those of the plan.
pub(crate) fn has_orders(
    given: &PlanningData<'_>,
    incoming: &[Qty],
    gross: &[Qty],
    order: &[Qty],
    available: &[Qty],
) -> bool
    requires within { IsWithinData (data_of given.now gross.now) }
    requires incoming { incoming.now ≡ incoming_row (data_of given.now gross.now) }
    requires order_len { length order.now ≡ length gross.now }
    requires available_len { length available.now ≡ length gross.now }
    ensures { IsTrue result ↔ ((order.now ≡ order_row (data_of given.now gross.now)) ×
        (available.now ≡ available_row (data_of given.now gross.now))) }
{
    let cover = given.policy.cover as usize;
    let mut before = given.params.on_hand;
    for t in 0..gross.len() {
        let ahead = front_quantity(&gross[t + 1..], cover);
        let (ordered, after) = order_and_stock(given, incoming, gross, ahead, before, t);
        if order[t].get() != ordered.get() || available[t].get() != after.get() {
            return false;
        }
        before = after;
    }
    true
}

/// Whether firm planned orders are released when they start, and planned orders a lead time before they are due, or
/// as soon as any can be.
pub(crate) fn has_releases(
    given: &PlanningData<'_>,
    gross: &[Qty],
    order: &[Qty],
    release: &[Qty],
) -> bool
    requires within { IsWithinData (data_of given.now gross.now) }
    requires orders { length order.now ≡ length gross.now }
    requires total { sum order.now + sum given.now.firm_start.now ≤ MOST }
    requires len { length release.now ≡ length gross.now }
    ensures { IsTrue result ↔ (release.now ≡ release_row (data_of given.now gross.now) order.now) }
{
    for u in 0..release.len() {
        if release[u].get() != pieces_at(given.firm_start, u) + planned_in(given, order, u) {
            return false;
        }
    }
    true
}

/// What of the planned orders is released in period `u`.
fn planned_in(given: &PlanningData<'_>, order: &[Qty], u: usize) -> u64
    requires lead { given.now.params.lead ≤ LONGEST_LEAD }
    requires period { u < length order.now }
    requires total { sum order.now ≤ MOST }
    ensures { (gross : List ℕ) → result ≡ planned_release (data_of given.now gross) order.now u }
{
    let due = u + given.params.lead as usize;
    let earliest = earliest_period(given) as usize;
    if due < earliest {
        return 0;
    }
    if due == earliest {
        return front_quantity(order, due + 1);
    }
    quantity_at(order, due)
}

/// Whether the late orders are those of the plan's order row that are due within the lead time.
pub(crate) fn late_follow(lead: u64, plan: &PairPlan) -> bool
    ensures { IsTrue result ↔ (plan.now.late ≡ late_orders lead plan.now.order) }
{
    let order = plan.order().as_slice();
    let end = order.len().min(lead as usize);
    let mut found = 0;
    for t in 0..end {
        let quantity = order[t];
        if quantity.get() > 0 {
            let by = lead - t as u64;
            if !has_late(plan, found, t, quantity, by) {
                return false;
            }
            found += 1;
        }
    }
    found == plan.late_count()
}

/// Whether the late order number `i` is there, and is this one.
fn has_late(plan: &PairPlan, i: usize, period: usize, quantity: Qty, by: u64) -> bool
    ensures { IsTrue result ↔
        (slice_get plan.now.late i ≡ Some (record { period = period; quantity = quantity; by = by })) }
{
    if i >= plan.late_count() {
        return false;
    }
    let late = plan.late(i);
    late.period == period && late.quantity.get() == quantity.get() && late.by == by
}
