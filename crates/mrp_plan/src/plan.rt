//! The plan of the whole network, made pair after pair in planning order.

ghost use Rattle.std.specs.Prelude.{◌≡◌, ◌+◌, ◌<◌, ◌≤◌, length, map, slice_set, IfOk};
ghost use Rattle.mrp_qty.specs.declared.quantity.TheConstants.{MOST};
ghost use Rattle.mrp_master_data.specs.Table.{IsPair, horizon};
ghost use Rattle.mrp_net.specs.Sums.{demand, demand_total, row_of};
ghost use Rattle.mrp_net.specs.Plan.{gross, pair_plan, plan_of, rows_at};
ghost use Rattle.mrp_net.specs.PlanLaws.{Fits};
ghost use Rattle.mrp_loops.specs.Need.{AreNeeds};
ghost use Rattle.mrp_loops.specs.Sized.{IsSized};
ghost use Rattle.mrp_loops.specs.Planning.{IsPlanningOrder};
ghost use Rattle.mrp_plan.specs.Progress.{CanBeDrafted, IsPlannedTo};

use crate::explosion::explode_all;
use mrp_loops::SizedNet;
use mrp_net::{Network, PairNo, plan_by_terms};
use mrp_netting::{PairPlan, blank_plans};
use mrp_qty::{Memory, Row};
use std::alloc::Global;
use std::marker::Model;

/// The plans of all pairs of a network, in table order.
#[derive(Drop)]
pub struct Plan {
    pairs: Vec<PairPlan>,
}

impl Model for Plan {
    ghost use Rattle.std.specs.Prelude.{List};
    ghost use Rattle.mrp_netting.specs.PlanRows.{PlanRows};

    ghost Value = { List PlanRows };

    ghost view = { λ p. p.pairs.items };
}

impl Plan {
    /// The given plans: one for each pair of the network, in table order.
    pub fn gather(net: &SizedNet, pairs: Vec<PairPlan>) -> Plan
        requires { length pairs.items ≡ length net.now.network.pairs }
        ensures { result ≡ pairs.items }
    {
        let _ = net;
        Plan { pairs }
    }

    /// How many plans there are.
    pub(crate) fn len(&self) -> usize
        ensures { result ≡ length self.now }
    {
        self.pairs.len()
    }

    /// The plan of a pair of the network.
    pub fn pair(&self, x: PairNo) -> &PairPlan
        requires { x.0 < length self.now }
        ensures { result.now ≡ rows_at self.now x.0 }
    {
        &self.pairs[x.0]
    }
}

/// The plan of the whole network: each pair is planned once, after all of its demanders.
///
/// It takes time linear in edges times periods, and all room before the first pair is planned
/// (by construction; no clause says so).
///
/// # Errors
///
/// [`Memory`] where room for a plan is refused.
pub fn plan_all(alloc: Global, net: &SizedNet) -> Result<Plan, Memory>
    ensures fits { IfOk result (λ plan. Fits net.now.network plan) }
    ensures value { IfOk result (λ plan. plan ≡ plan_of net.now.network) }
{
    let network = net.network();
    let horizon = network.horizon();
    let mut pairs = blank_plans(alloc, horizon, network.pairs())?;
    let mut gross = Row::zero(alloc, horizon)?;
    let order = net.in_code_order();
    for k in 0..order.len() {
        plan_next(net, order, k, pairs.as_mut_slice(), &mut gross);
    }
    Ok(Plan { pairs })
}

/// Plans the pair at place `k` of the order, where those before it are planned. `gross` is room to work in.
fn plan_next(net: &SizedNet, order: &[PairNo], k: usize, plans: &mut [PairPlan], gross: &mut Row)
    requires sized { IsSized net.now.network }
    requires needs { AreNeeds net.now.network net.now.needs }
    requires order { IsPlanningOrder net.now.network (map (λ x. x.0) order.now) }
    requires place { k < length order.now }
    requires before { IsPlannedTo net.now.network net.now.needs (map (λ x. x.0) order.now) k plans.old }
    requires gross_room { length gross.old ≡ horizon net.now.network }
    ensures after { IsPlannedTo net.now.network net.now.needs (map (λ x. x.0) order.now) (k + 1) plans.new }
    ensures gross_room { length gross.new ≡ horizon net.now.network }
{
    plan_one(net.network(), order[k], plans, gross);
}

/// Plans one pair beside the plans of its demanders. `gross_row` is room to work in.
fn plan_one(network: &Network, x: PairNo, plans: &mut [PairPlan], gross_row: &mut Row)
    requires can { CanBeDrafted network.now plans.old x.0 }
    requires gross_room { length gross_row.old ≡ horizon network.now }
    ensures planned { plans.new ≡ slice_set plans.old x.0 (pair_plan network.now plans.old x.0) }
    ensures gross_room { length gross_row.new ≡ horizon network.now }
{
    fill_demand(network, x, gross_row);
    explode_all(network, network.demanders(x), plans, gross_row);
    let terms = network.terms(x);
    let incoming = network.incoming_row(x);
    let plan = &mut plans[x.0];
    plan_by_terms(&terms, incoming, gross_row, plan);
}

/// Writes the demand rows of the pair.
fn fill_demand(network: &Network, x: PairNo, row: &mut Row)
    requires pair { IsPair network.now x.0 }
    requires periods { length row.old ≡ horizon network.now }
    requires within { demand_total network.now x.0 ≤ MOST }
    ensures { row.new ≡ row_of network.now (demand network.now x.0) }
{
    row.copy_pieces(network.demand_row(x));
}
