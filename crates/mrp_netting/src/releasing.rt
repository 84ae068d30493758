//! Netting one pair: releases of firm and planned orders, from planning data.

ghost use Rattle.std.specs.Prelude.{◌≡◌, ◌+◌, ◌≤◌, length, max, sum};
ghost use Rattle.mrp_qty.specs.declared.quantity.TheConstants.{MOST};
ghost use Rattle.mrp_netting.specs.PlanningData.{earliest, release_row};
ghost use Rattle.mrp_netting.specs.PlanningBound.{IsWithinData, data_of};

use crate::PlanningData;
use crate::pieces::{front_quantity, put_pieces};
use mrp_qty::{Qty, Row};

/// The first period for which planned orders can be released in time.
pub(crate) fn earliest_period(given: &PlanningData<'_>) -> u64
    ensures { result ≡ max given.now.params.lead given.now.policy.fence }
{
    given.params.lead.max(given.policy.fence)
}

/// Writes what is released: firm planned orders when they start, and each planned order a lead time before it is due.
/// One that is due before the first period that can be met is released a lead time before that period.
pub(crate) fn release_all(given: &PlanningData<'_>, gross: &[Qty], order: &[Qty], release: &mut Row)
    requires within { IsWithinData (data_of given.now gross.now) }
    requires orders { length order.now ≡ length gross.now }
    requires total { sum order.now + sum given.now.firm_start.now ≤ MOST }
    requires room { length release.old ≡ length gross.now }
    ensures { release.new ≡ release_row (data_of given.now gross.now) order.now }
{
    let lead = given.params.lead as usize;
    let earliest = earliest_period(given) as usize;
    put_pieces(release, given.firm_start);
    let first = front_quantity(order, earliest + 1);
    release.add(earliest - lead, Qty::of(first));
    for t in earliest + 1..order.len() {
        release.add(t - lead, order[t]);
    }
}
