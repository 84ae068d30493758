//! The network: what planners say of one of its pairs, and the rows planned for the pair from it.

ghost use Rattle.std.specs.Prelude.{◌≡◌, ◌<◌, ℕ, List, All, length};
ghost use Rattle.mrp_netting.specs.PlanningData.{planned, one};
ghost use Rattle.mrp_netting.specs.PlanningBound.{IsWithinData, data_of};
ghost use Rattle.mrp_net.specs.Terms.{terms_given};

use crate::firm_rows::FirmRows;
use mrp_master_data::FirmRow;
use mrp_netting::{PairParams, PairPlan, PlanningData, Policy, plan_from};
use mrp_qty::{Horizon, LimitSet, Row};

/// What planners say of a pair.
#[derive(Clone, Copy)]
pub struct PlanningTerms<'a> {
    /// Lot rule, lead time, stock on hand and safety stock.
    pub params: PairParams,
    /// How the pair is planned beyond that.
    pub policy: Policy,
    /// The scheduled receipts that may be counted sooner than they come, in pieces by period: of a pair without SOONER
    /// none.
    pub receipts: &'a [u64],
    /// The firm planned orders, in table order.
    pub orders: &'a [FirmRow],
}

impl<'a> PlanningTerms<'a> {
    /// What a pair is planned from beside its gross requirements, where these are the rows of its firm planned orders
    /// by release and by due period, and what comes in at its time is `incoming`.
    pub(crate) fn data_with(
        &self,
        incoming: &'a [u64],
        firm_start: &'a [u64],
        firm_due: &'a [u64],
    ) -> PlanningData<'a>
        ensures { (gross : List ℕ) → data_of result gross ≡ planned (record {
          params = self.now.params;
          policy = self.now.policy;
          receipts = self.now.receipts.now;
          firm_start = firm_start.now;
          firm_due = firm_due.now;
        }) incoming.now gross }
    {
        PlanningData {
            params: self.params,
            policy: self.policy,
            receipts: self.receipts,
            arrivals: incoming,
            firm_start,
            firm_due,
        }
    }
}

/// Plans one pair from its terms, what comes in at its time beside firm planned orders and what is required of it:
/// writes into `into` the rows and the late orders, whatever it held. The gross requirements become the plan's own,
/// and `gross` is left with the row that `into` had, as by [`plan_from`].
///
/// `incoming` and the receipts have a number for each period, or fewer. The orders are released and due within the
/// periods. All quantities together are at most 10^15. Nothing is allocated (by construction; no clause says so).
pub fn plan_by_terms(
    terms: &PlanningTerms<'_>,
    incoming: &[u64],
    gross: &mut Row,
    into: &mut PairPlan,
)
    requires starts { All (λ f. f.start < length gross.old) terms.now.orders.now }
    requires dues { All (λ f. f.due < length gross.old) terms.now.orders.now }
    requires within { IsWithinData (planned (terms_given (length gross.old) terms.now) incoming.now gross.old) }
    requires room { length into.old.gross ≡ length gross.old }
    ensures plan { into.new ≡ one (planned (terms_given (length gross.old) terms.now) incoming.now gross.old) }
    ensures room { gross.new ≡ into.old.gross }
{
    if terms.orders.is_empty() {
        plan_from(&terms.data_with(incoming, &[], &[]), gross, into);
        return;
    }
    let mut rows = FirmRows::new(Horizon::within(LimitSet::Large, gross.len() as u64).unwrap());
    rows.write(terms.orders);
    plan_from(&rows.planning_data(terms, incoming), gross, into);
}
