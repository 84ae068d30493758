//! Netting one pair: its plan, of five rows and late orders.

ghost use Rattle.std.specs.Prelude.{◌≡◌, ◌<◌, ◌≤◌, ◌↔◌, length, IsTrue, IfOk, Some, slice_get, vec_capacity};
ghost use Rattle.mrp_netting.specs.PlanRows.{PlanRows};
ghost use Rattle.mrp_netting.specs.PlanningData.{plain, one};
ghost use Rattle.mrp_netting.specs.Bound.{IsWithin};
ghost use Rattle.mrp_netting.specs.Plan.{AreRows, nothing_planned, late_orders_in, AreLate};
ghost use Rattle.mrp_netting.specs.PlanningData as planning;
ghost use Rattle.mrp_netting.specs.PlanningBound.{IsWithinData, data_of};

use crate::incoming::plan_incoming;
use crate::late::note_late;
use crate::matching::{has_incoming, has_orders, has_releases, late_follow};
use crate::orders::order_all;
use crate::pieces::pieces_of;
use crate::releasing::{earliest_period, release_all};
use crate::{Late, PairParams, PlanningData};
use mrp_qty::{Horizon, LimitSet, Memory, Row};
use std::alloc::Global;
use std::marker::Model;
use std::mem;

/// The plan of one pair: five rows of one horizon, and the late orders.
///
/// It is the record of Orlicky's material requirements planning, with the APICS Dictionary's terms
/// for its rows: gross requirements, scheduled receipts, planned order receipts, planned order
/// releases and projected available balance. Net requirements are not kept: they are what the orders
/// were sized for. Quantities are 0 to 10^15 pieces, and periods are numbered from 0 to the horizon,
/// 1 to 520, less 1.
#[derive(Debug, Drop)]
pub struct PairPlan {
    gross: Row,
    incoming: Row,
    order: Row,
    release: Row,
    available: Row,
    lead: u64,
    late: Vec<u16>,
}

impl Model for PairPlan {
    ghost Value = { PlanRows };

    ghost view = { λ p. record {
      gross = p.gross;
      incoming = p.incoming;
      order = p.order;
      release = p.release;
      available = p.available;
      late = late_orders_in p.lead p.order p.late.items;
    } };

    ghost invariant = { λ p.
        (length p.incoming ≡ length p.gross) × (length p.order ≡ length p.gross) × (length p.release ≡ length p.gross) ×
        (length p.available ≡ length p.gross) × (length p.gross ≤ vec_capacity p.late) ×
        AreLate p.lead p.order p.late.items × (length p.late.items ≤ length p.gross) };
}

impl PairPlan {
    /// A plan of zeros with no late order, and with room for one a period. The horizon is 1 to 520
    /// periods.
    ///
    /// # Errors
    ///
    /// [`Memory`] where the room for it is refused.
    pub fn new(alloc: Global, horizon: Horizon) -> Result<PairPlan, Memory>
        ensures { IfOk result (λ plan. plan ≡ nothing_planned horizon) }
    {
        let gross = Row::zero(alloc, horizon)?;
        let incoming = Row::zero(alloc, horizon)?;
        let order = Row::zero(alloc, horizon)?;
        let release = Row::zero(alloc, horizon)?;
        let available = Row::zero(alloc, horizon)?;
        let late = Vec::with_capacity(alloc, horizon.get() as usize)?;
        Ok(PairPlan {
            gross,
            incoming,
            order,
            release,
            available,
            lead: 0,
            late,
        })
    }

    /// How many periods are planned, 1 to 520. All five rows have as many.
    pub fn len(&self) -> usize
        ensures value { result ≡ length self.now.gross }
        ensures rows { AreRows self.now }
    {
        let _incoming = self.incoming.len();
        let _order = self.order.len();
        let _release = self.release.len();
        let _available = self.available.len();
        self.gross.len()
    }

    /// Gross requirements: the pieces that are needed in each period, 0 to 10^15.
    pub fn gross(&self) -> &Row
        ensures { result.now ≡ self.now.gross }
    {
        &self.gross
    }

    /// Scheduled receipts: the pieces that come in from orders that are open already, 0 to 10^15. In a plan of
    /// [`plan_from`] receipts are here in the period in which they are counted, and firm planned orders when due.
    pub fn incoming(&self) -> &Row
        ensures { result.now ≡ self.now.incoming }
    {
        &self.incoming
    }

    /// Planned order receipts in pieces, 0 to 10^15, by the period in which they are due.
    pub fn order(&self) -> &Row
        ensures { result.now ≡ self.now.order }
    {
        &self.order
    }

    /// Planned order releases in pieces, 0 to 10^15: the orders a lead time earlier, the late ones in
    /// period 0. In a plan of [`plan_from`] firm planned orders are released too, and late orders in the first period
    /// in which a planned order may be released: the fence less the lead time, or period 0.
    pub fn release(&self) -> &Row
        ensures { result.now ≡ self.now.release }
    {
        &self.release
    }

    /// Projected available balance: the pieces in stock after each period, 0 to 10^15. In the plan of
    /// [`plan_pair`] and of [`plan_from`] they are never below safety stock.
    pub fn available(&self) -> &Row
        ensures { result.now ≡ self.now.available }
    {
        &self.available
    }

    /// How many orders are late, 0 to 520.
    pub fn late_count(&self) -> usize
        ensures { result ≡ length self.now.late }
    {
        self.late.len()
    }

    /// The late order number `i`, from 0 and below [`late_count`](PairPlan::late_count), by rising
    /// period. Its period is 0 to 519, its missing periods are 1 to 520, and together they are the
    /// lead time, or of a plan of [`plan_from`] the first period that planned orders can be released for.
    pub fn late(&self, i: usize) -> Late
        requires { i < length self.now.late }
        ensures { slice_get self.now.late i ≡ Some result }
    {
        let period = self.late[i];
        Late {
            period: period as usize,
            quantity: self.order.get(period as usize),
            by: self.lead - period as u64,
        }
    }

    /// A plan of its own that says the same.
    ///
    /// # Errors
    ///
    /// [`Memory`] where the room for it is refused.
    pub fn copy(&self, alloc: Global) -> Result<PairPlan, Memory>
        ensures { IfOk result (λ plan. plan ≡ self.now) }
    {
        let horizon = Horizon::within(LimitSet::Large, self.gross.len() as u64).unwrap();
        let mut copy = PairPlan::new(alloc, horizon)?;
        copy.copy_from(self);
        Ok(copy)
    }

    /// Takes over what a plan of as many periods says, whatever this one said. Nothing is allocated
    /// (by construction; no clause says so).
    pub fn copy_from(&mut self, other: &PairPlan)
        requires { length self.old.gross ≡ length other.now.gross }
        ensures { self.new ≡ other.now }
    {
        self.gross.copy_from(&other.gross);
        self.incoming.copy_from(&other.incoming);
        self.order.copy_from(&other.order);
        self.release.copy_from(&other.release);
        self.available.copy_from(&other.available);
        self.lead = other.lead;
        self.late.clear();
        let _ = self.late.extend_from_slice(other.late.as_slice());
    }
}

/// Plans one pair: writes into `into` the rows and the late orders that follow from `params`, the
/// scheduled receipts and the gross requirements, whatever `into` held.
///
/// The three horizons are equal. The lead time is 0 to 520 periods; the rule's quantities are 1 to
/// 10^12 pieces each and its periods of supply 1 to 520. On hand, safety stock, the rule's quantities,
/// all receipts and all gross requirements together are at most 10^15 pieces. Nothing is allocated
/// (by construction; no clause says so).
pub fn plan_pair(params: &PairParams, incoming: &Row, gross: &Row, into: &mut PairPlan)
    requires within { IsWithin params.now incoming.now gross.now }
    requires room { length into.old.gross ≡ length gross.now }
    ensures { into.new ≡ one (plain params.now incoming.now gross.now) }
{
    let count = incoming.len();
    let pieces = pieces_of(incoming.as_slice());
    into.gross.copy_from(gross);
    plan_rows(&PlanningData::plain(*params, &pieces[..count]), into);
}

/// Plans one pair from its planning data: writes into `into` the rows and the late orders that follow from it and from
/// the gross requirements `gross`, whatever `into` held. Those become the plan's own, and `gross` is left with the
/// row of gross requirements that `into` had: room for the next pair.
///
/// The horizons of `gross` and `into` are equal, and no row of the planning data is longer. The fence is below the
/// horizon; lead time, SOONER and COVER are 0 to 520 periods; the rule's periods of supply are 1 to 520, its quantities
/// 1 to 10^12 pieces each, LEAST and MULTIPLE 0 to 10^12. Firm planned orders are as many pieces by release as by due
/// period. On hand, safety stock, the rule's quantities, LEAST, MULTIPLE, all receipts, arrivals, firm planned orders
/// and gross requirements together are at most 10^15 pieces. Nothing is allocated (by construction; no clause says so).
pub fn plan_from(given: &PlanningData<'_>, gross: &mut Row, into: &mut PairPlan)
    requires within { IsWithinData (data_of given.now gross.old) }
    requires room { length into.old.gross ≡ length gross.old }
    ensures plan { into.new ≡ planning.one (data_of given.now gross.old) }
    ensures room { gross.new ≡ into.old.gross }
{
    mem::swap(&mut into.gross, gross);
    plan_rows(given, into);
}

/// Writes the rows and the late orders that follow from the planning data and from the gross requirements that stand in
/// the plan.
fn plan_rows(given: &PlanningData<'_>, into: &mut PairPlan)
    requires { IsWithinData (data_of given.now into.old.gross) }
    ensures { into.new ≡ planning.one (data_of given.now into.old.gross) }
{
    let required = into.gross.as_slice();
    plan_incoming(given, required, &mut into.incoming);
    order_all(
        given,
        into.incoming.as_slice(),
        required,
        &mut into.order,
        &mut into.available,
    );
    release_all(given, required, into.order.as_slice(), &mut into.release);
    into.lead = earliest_period(given);
    note_late(into.lead, into.order.as_slice(), &mut into.late);
}

/// Whether the plan is the one that follows from `params`, its scheduled receipts and its gross
/// requirements: each order, release, projected available and late order.
///
/// The lead time is 0 to 520 periods; the rule's quantities are 1 to 10^12 pieces each and its periods
/// of supply 1 to 520. On hand, safety stock, the rule's quantities, all receipts and all gross
/// requirements together are at most 10^15 pieces. Nothing is allocated
/// (by construction; no clause says so).
pub fn is_plan(params: &PairParams, plan: &PairPlan) -> bool
    requires { IsWithin params.now plan.now.incoming plan.now.gross }
    ensures { IsTrue result ↔ (plan.now ≡ one (plain params.now plan.now.incoming plan.now.gross)) }
{
    let count = plan.len();
    let pieces = pieces_of(plan.incoming().as_slice());
    is_plan_from(&PlanningData::plain(*params, &pieces[..count]), plan)
}

/// Whether the plan is the one that follows from its planning data and its gross requirements: what comes in, each
/// order, release, projected available and late order.
///
/// Receipts are to be counted as [`plan_from`] counts them, when they come or sooner, and what is within its bound may
/// be asked. Nothing is allocated (by construction; no clause says so).
pub fn is_plan_from(given: &PlanningData<'_>, plan: &PairPlan) -> bool
    requires within { IsWithinData (data_of given.now plan.now.gross) }
    ensures { IsTrue result ↔ (plan.now ≡ planning.one (data_of given.now plan.now.gross)) }
{
    let _len = plan.len();
    let gross = plan.gross().as_slice();
    let incoming = plan.incoming().as_slice();
    if !has_incoming(given, gross, incoming) {
        return false;
    }
    let order = plan.order().as_slice();
    if !has_orders(given, incoming, gross, order, plan.available().as_slice()) {
        return false;
    }
    if !has_releases(given, gross, order, plan.release().as_slice()) {
        return false;
    }
    late_follow(earliest_period(given), plan)
}
