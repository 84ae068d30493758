//! Netting one pair: planned order receipts and projected available from planning data, period by period.

ghost use Rattle.std.specs.Prelude.{◌≡◌, ◌+◌, ◌-◌, ◌<◌, ◌≤◌, length, suc};
ghost use Rattle.mrp_qty.specs.declared.quantity.TheConstants.{MOST};
ghost use Rattle.mrp_netting.specs.PlanRows.{sum_from};
ghost use Rattle.mrp_netting.specs.PlanningData.{need, greatest, lot_for, made_up, order_after, order_at};
ghost use Rattle.mrp_netting.specs.PlanningData.{balance_before, incoming_row, order_row, available_row};
ghost use Rattle.mrp_netting.specs.PlanningBound.{IsWithinData, data_of};

use crate::pieces::{front_quantity, quantity_at};
use crate::{PlanningData, Policy};
use mrp_lot::{Rule, lot};
use mrp_qty::{Qty, Row};

/// Writes the planned order receipts and the projected available.
pub(crate) fn order_all(
    given: &PlanningData<'_>,
    incoming: &[Qty],
    gross: &[Qty],
    order: &mut Row,
    available: &mut Row,
)
    requires within { IsWithinData (data_of given.now gross.now) }
    requires incoming { incoming.now ≡ incoming_row (data_of given.now gross.now) }
    requires order_room { length order.old ≡ length gross.now }
    requires available_room { length available.old ≡ length gross.now }
    ensures orders { order.new ≡ order_row (data_of given.now gross.now) }
    ensures balances { available.new ≡ available_row (data_of given.now gross.now) }
{
    if given.policy.cover == 0 {
        order_when_required(given, incoming, gross, order, available);
        return;
    }
    order_ahead(given, incoming, gross, order, available);
}

/// Writes both rows of a pair without periods of cover.
fn order_when_required(
    given: &PlanningData<'_>,
    incoming: &[Qty],
    gross: &[Qty],
    order: &mut Row,
    available: &mut Row,
)
    requires within { IsWithinData (data_of given.now gross.now) }
    requires cover { given.now.policy.cover ≡ 0 }
    requires incoming { incoming.now ≡ incoming_row (data_of given.now gross.now) }
    requires order_room { length order.old ≡ length gross.now }
    requires available_room { length available.old ≡ length gross.now }
    ensures orders { order.new ≡ order_row (data_of given.now gross.now) }
    ensures balances { available.new ≡ available_row (data_of given.now gross.now) }
{
    let mut before = given.params.on_hand;
    for t in 0..gross.len() {
        let (ordered, after) = order_and_stock(given, incoming, gross, 0, before, t);
        order.set(t, ordered);
        available.set(t, after);
        before = after;
    }
}

/// Writes both rows of a pair with periods of cover, whose gross requirements move on with the period.
fn order_ahead(
    given: &PlanningData<'_>,
    incoming: &[Qty],
    gross: &[Qty],
    order: &mut Row,
    available: &mut Row,
)
    requires within { IsWithinData (data_of given.now gross.now) }
    requires incoming { incoming.now ≡ incoming_row (data_of given.now gross.now) }
    requires order_room { length order.old ≡ length gross.now }
    requires available_room { length available.old ≡ length gross.now }
    ensures orders { order.new ≡ order_row (data_of given.now gross.now) }
    ensures balances { available.new ≡ available_row (data_of given.now gross.now) }
{
    let cover = given.policy.cover as usize;
    let mut before = given.params.on_hand;
    let mut ahead = front_quantity(gross, cover);
    for t in 0..gross.len() {
        ahead = ahead + quantity_at(gross, t + cover) - gross[t].get();
        let (ordered, after) = order_and_stock(given, incoming, gross, ahead, before, t);
        order.set(t, ordered);
        available.set(t, after);
        before = after;
    }
}

/// The planned order receipt of period `t` and the balance after it, where `before` is the balance before it and
/// `ahead` are the gross requirements of the periods of cover behind it.
pub(crate) fn order_and_stock(
    given: &PlanningData<'_>,
    incoming: &[Qty],
    gross: &[Qty],
    ahead: u64,
    before: Qty,
    t: usize,
) -> (Qty, Qty)
    requires within { IsWithinData (data_of given.now gross.now) }
    requires incoming { incoming.now ≡ incoming_row (data_of given.now gross.now) }
    requires period { t < length gross.now }
    requires ahead { ahead ≡ sum_from gross.now (suc t) given.now.policy.cover }
    requires before { before ≡ balance_before (data_of given.now gross.now) t }
    ensures order { result.0 ≡ order_at (data_of given.now gross.now) t }
    ensures balance { result.1 ≡ balance_before (data_of given.now gross.now) (suc t) }
{
    let ordered = order_for(given, incoming, gross, ahead, before, t);
    let after = balance_after(before, incoming[t], ordered, gross[t]);
    (ordered, after)
}

/// The balance after a period: what was there, what comes in and what is ordered, less the gross
/// requirement.
fn balance_after(before: Qty, receipt: Qty, ordered: Qty, gross: Qty) -> Qty
    requires covered { gross ≤ before + receipt + ordered }
    requires within { before + receipt + ordered - gross ≤ MOST }
    ensures { result ≡ before + receipt + ordered - gross }
{
    Qty::of(before.get() + receipt.get() + ordered.get() - gross.get())
}

/// The planned order receipt of period `t`, where `before` is the balance before it and `ahead` are the gross
/// requirements of the periods of cover behind it.
fn order_for(
    given: &PlanningData<'_>,
    incoming: &[Qty],
    gross: &[Qty],
    ahead: u64,
    before: Qty,
    t: usize,
) -> Qty
    requires within { IsWithinData (data_of given.now gross.now) }
    requires incoming { incoming.now ≡ incoming_row (data_of given.now gross.now) }
    requires period { t < length gross.now }
    requires ahead { ahead ≡ sum_from gross.now (suc t) given.now.policy.cover }
    ensures { result ≡ order_after (data_of given.now gross.now) before t }
{
    let needed = given.params.safety.get() + gross[t].get() + ahead;
    let net = needed.saturating_sub(before.get() + incoming[t].get());
    if net == 0 {
        return Qty::ZERO;
    }
    let lot = lot_of_needs(given, incoming, gross, before, Qty::of(net), t);
    made_up_lot(&given.policy, lot)
}

/// What the lot rule orders in period `t` for `net`, its net requirement.
fn lot_of_needs(
    given: &PlanningData<'_>,
    incoming: &[Qty],
    gross: &[Qty],
    before: Qty,
    net: Qty,
    t: usize,
) -> Qty
    requires within { IsWithinData (data_of given.now gross.now) }
    requires incoming { incoming.now ≡ incoming_row (data_of given.now gross.now) }
    requires period { t < length gross.now }
    requires net { net ≡ need (data_of given.now gross.now) before t 1 }
    ensures { result ≡ lot_for given.now.params.rule (need (data_of given.now gross.now) before t) }
{
    match given.params.rule {
        Rule::LotForLot => net,
        Rule::Periods(periods) => greatest_need(given, incoming, gross, before, t, periods),
        rule => lot(&rule, net, Qty::ZERO),
    }
}

/// A lot that is made up to the policy's minimum and multiple.
fn made_up_lot(policy: &Policy, lot: Qty) -> Qty
    requires within { lot + policy.now.least + policy.now.multiple ≤ MOST }
    ensures { result ≡ made_up policy.now lot }
{
    let least = lot.get().max(policy.least);
    if policy.multiple <= 1 {
        return Qty::of(least);
    }
    Qty::of(least.div_ceil(policy.multiple) * policy.multiple)
}

/// The greatest need beyond `before`, the balance before period `t`, of 1 to `periods` periods from `t` on.
fn greatest_need(
    given: &PlanningData<'_>,
    incoming: &[Qty],
    gross: &[Qty],
    before: Qty,
    t: usize,
    periods: u64,
) -> Qty
    requires within { IsWithinData (data_of given.now gross.now) }
    requires incoming { incoming.now ≡ incoming_row (data_of given.now gross.now) }
    requires period { t < length gross.now }
    ensures { result ≡ greatest (need (data_of given.now gross.now) before t) periods }
{
    let cover = given.policy.cover as usize;
    let count = (periods as usize).min(gross.len() - t);
    let mut needed = given.params.safety.get() + front_quantity(&gross[t..], cover);
    let mut had = before.get();
    let mut most = 0;
    for n in 0..count {
        needed += quantity_at(gross, t + n + cover);
        had += incoming[t + n].get();
        most = needed.saturating_sub(had).max(most);
    }
    Qty::of(most)
}
