//! Netting one pair: which receipts are counted in each period, by the sums of the periods before it, and the step to
//! the next.

ghost use Rattle.std.specs.Prelude.{◌≡◌, ◌+◌, ◌<◌, length, slice_index};
ghost use Rattle.mrp_netting.specs.PlanningData.{incoming_at};
ghost use Rattle.mrp_netting.specs.PlanningBound.{IsWithinData, data_of};
ghost use Rattle.mrp_netting.specs.Counting.{AreSums};

use crate::PlanningData;
use crate::pieces::{front_pieces, front_quantity, pieces_at, quantity_at};
use mrp_qty::Qty;

/// What the periods before one add up to.
#[derive(Clone, Copy)]
pub(crate) struct Sums {
    /// Receipts that have come.
    came: u64,
    /// Receipts that could be counted: those of the next SOONER periods too.
    could: u64,
    /// Safety stock and gross requirements, with those of the periods of cover.
    asked: u64,
    /// Stock on hand, arrivals and firm planned orders.
    has: u64,
    /// What is short: the greatest lack of a period.
    lacked: u64,
    /// Receipts that are counted.
    counted: u64,
}

impl Sums {
    /// The sums before period 0.
    pub(crate) fn new(given: &PlanningData<'_>, gross: &[Qty]) -> Sums
        requires within { IsWithinData (data_of given.now gross.now) }
        ensures { AreSums (data_of given.now gross.now) 0 result }
    {
        Sums {
            came: 0,
            could: front_pieces(given.receipts, given.policy.sooner as usize),
            asked: given.params.safety.get() + front_quantity(gross, given.policy.cover as usize),
            has: given.params.on_hand.get(),
            lacked: 0,
            counted: 0,
        }
    }

    /// Adds period `t`, in which `others` arrive and come from firm planned orders, and returns the receipts that are
    /// counted in it: those that are due, and of those of the next periods what is short.
    pub(crate) fn count(
        &mut self,
        given: &PlanningData<'_>,
        gross: &[Qty],
        t: usize,
        others: u64,
    ) -> u64
        requires within { IsWithinData (data_of given.now gross.now) }
        requires period { t < length gross.now }
        requires others { others ≡ slice_index given.now.arrivals.now t + slice_index given.now.firm_due.now t }
        requires before { AreSums (data_of given.now gross.now) t self.old }
        ensures after { AreSums (data_of given.now gross.now) (t + 1) self.new }
        ensures value { others + result ≡ incoming_at (data_of given.now gross.now) t }
    {
        let sooner = given.policy.sooner as usize;
        let cover = given.policy.cover as usize;
        self.came += pieces_at(given.receipts, t);
        self.could += pieces_at(given.receipts, t + sooner);
        self.asked += quantity_at(gross, t + cover);
        self.has += others;
        self.lacked = self.asked.saturating_sub(self.has).max(self.lacked);
        let had = self.could.min(self.lacked).max(self.came);
        let counted = had - self.counted;
        self.counted = had;
        counted
    }
}
