//! The network's rows for the firm planned orders of a pair: what of them is released in each period, and what is due.

ghost use Rattle.std.specs.Prelude.{◌≡◌, ℕ, ◌<◌, ◌≤◌, List, [], All, length, slice_index, sum_by};
ghost use Rattle.std.specs.Prelude.{if◌then◌else◌};
ghost use Rattle.mrp_qty.specs.declared.quantity.TheConstants.{MOST};
ghost use Rattle.mrp_netting.specs.PlanningData.{planned};
ghost use Rattle.mrp_netting.specs.PlanningBound.{data_of};
ghost use Rattle.mrp_grouping.specs.Added.{sum_of};
ghost use Rattle.mrp_net.specs.FirmOrders.{FirmPieces, starting_in, due_in};

use crate::sums::{ByDue, ByStart, Pieces};
use crate::terms::PlanningTerms;
use mrp_grouping::{KeyOf, add_totals};
use mrp_master_data::FirmRow;
use mrp_netting::PlanningData;
use mrp_qty::{Horizon, LONGEST};
use std::marker::Model;

/// The periods of the longest horizon.
const MOST_PERIODS: usize = LONGEST as usize;

/// Room for the rows of one pair's firm planned orders, by release and by due period. A pair without any has no rows.
#[derive(Drop)]
pub struct FirmRows {
    periods: usize,
    some: bool,
    start: [u64; MOST_PERIODS],
    due: [u64; MOST_PERIODS],
}

impl Model for FirmRows {
    ghost use Rattle.std.specs.Prelude.{◌≤◌, [], if◌then◌else◌, take};
    ghost use Rattle.mrp_qty.specs.declared.horizon.TheConstants.{LONGEST};
    ghost use Rattle.mrp_net.specs.FirmOrders.{FirmPieces};

    ghost Value = { FirmPieces };

    ghost view = { λ r. record {
      periods = r.periods;
      start = if r.some then take r.periods r.start else [];
      due = if r.some then take r.periods r.due else [];
    } };

    ghost invariant = { λ r. r.periods ≤ LONGEST };
}

impl FirmRows {
    /// Room for so many periods, and no order.
    pub fn new(horizon: Horizon) -> FirmRows
        ensures periods { result.periods ≡ horizon }
        ensures no_start { result.start ≡ [] }
        ensures no_due { result.due ≡ [] }
    {
        FirmRows {
            periods: horizon.get() as usize,
            some: false,
            start: [0; MOST_PERIODS],
            due: [0; MOST_PERIODS],
        }
    }

    /// Writes the rows of these orders, whatever stood here. They are released and due within the periods, and
    /// together at most 10^15 pieces.
    pub fn write(&mut self, orders: &[FirmRow])
        requires starts { All (λ f. f.start < self.old.periods) orders.now }
        requires dues { All (λ f. f.due < self.old.periods) orders.now }
        requires total { sum_by (λ f. f.quantity) orders.now ≤ MOST }
        ensures start { (t : ℕ) → t < self.old.periods → slice_index self.new.start t ≡ starting_in orders.now t }
        ensures due { (t : ℕ) → t < self.old.periods → slice_index self.new.due t ≡ due_in orders.now t }
        ensures few_starts { length self.new.start ≤ self.old.periods }
        ensures few_dues { length self.new.due ≤ self.old.periods }
        ensures periods { self.new.periods ≡ self.old.periods }
    {
        self.some = !orders.is_empty();
        if self.some {
            write_sums(&ByStart, orders, &mut self.start[..self.periods]);
            write_sums(&ByDue, orders, &mut self.due[..self.periods]);
        }
    }

    /// What a pair of these terms is planned from beside its gross requirements: what comes in at its time is
    /// `incoming`, and the firm planned orders are those that were written.
    pub fn planning_data<'a>(
        &'a self,
        terms: &PlanningTerms<'a>,
        incoming: &'a [u64],
    ) -> PlanningData<'a>
        ensures { (gross : List ℕ) → data_of result gross ≡ planned (record {
          params = terms.now.params;
          policy = terms.now.policy;
          receipts = terms.now.receipts.now;
          firm_start = self.now.start;
          firm_due = self.now.due;
        }) incoming.now gross }
    {
        let start = row_if(self.some, &self.start[..self.periods]);
        let due = row_if(self.some, &self.due[..self.periods]);
        terms.data_with(incoming, start, due)
    }
}

/// Writes what the orders of each period add up to.
fn write_sums<K: KeyOf<FirmRow>>(by: &K, orders: &[FirmRow], row: &mut [u64])
    requires has { All (K.has_key by.now) orders.now }
    requires within { All (λ f. K.key_of by.now f < length row.old) orders.now }
    requires total { sum_by (λ f. f.quantity) orders.now ≤ MOST }
    ensures sums { (t : ℕ) → t < length row.old
        → slice_index row.new t ≡ sum_of (K.key_of by.now) (λ f. f.quantity) t orders.now }
    ensures size { length row.new ≡ length row.old }
{
    row.fill(0);
    add_totals(by, &Pieces, orders, row);
}

/// The row where there are orders, and no row where there are none.
fn row_if(some: bool, row: &[u64]) -> &[u64]
    ensures { result.now ≡ (if some then row.now else []) }
{
    if some { row } else { &[] }
}
