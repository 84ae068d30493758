//! Netting one pair: scheduled receipts, what comes in, and which receipts are counted sooner.

ghost use Rattle.std.specs.Prelude.{◌≡◌, ℕ, ◌+◌, length, slice_index};
ghost use Rattle.mrp_netting.specs.PlanningData.{incoming_row};
ghost use Rattle.mrp_netting.specs.PlanningBound.{IsWithinData, data_of};

use crate::PlanningData;
use crate::counting::Sums;
use crate::pieces::{add_pieces, put_pieces};
use mrp_qty::{Qty, Row};

/// Writes what comes in: arrivals, firm planned orders, and the receipts that are counted in each period.
pub(crate) fn plan_incoming(given: &PlanningData<'_>, gross: &[Qty], incoming: &mut Row)
    requires within { IsWithinData (data_of given.now gross.now) }
    requires room { length incoming.old ≡ length gross.now }
    ensures { incoming.new ≡ incoming_row (data_of given.now gross.now) }
{
    put_pieces(incoming, given.arrivals);
    add_pieces(incoming, given.firm_due);
    if given.policy.sooner == 0 {
        add_pieces(incoming, given.receipts);
        return;
    }
    count_receipts(given, gross, incoming);
}

/// Adds to each period the receipts that are counted in it: those that are due, and of those of the next periods what
/// is short.
fn count_receipts(given: &PlanningData<'_>, gross: &[Qty], incoming: &mut Row)
    requires within { IsWithinData (data_of given.now gross.now) }
    requires room { length incoming.old ≡ length gross.now }
    requires others { (t : ℕ) → slice_index incoming.old t
        ≡ slice_index given.now.arrivals.now t + slice_index given.now.firm_due.now t }
    ensures { incoming.new ≡ incoming_row (data_of given.now gross.now) }
{
    let mut sums = Sums::new(given, gross);
    for t in 0..gross.len() {
        let counted = sums.count(given, gross, t, incoming.get(t).get());
        incoming.add(t, Qty::of(counted));
    }
}
