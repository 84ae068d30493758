//! The plan of the whole network: whether a table of all plans obeys the rules at every pair.

ghost use Rattle.std.specs.Prelude.{◌≡◌, ◌<◌, ◌≤◌, ◌+◌, ◌↔◌, IsTrue, length, map, All};
ghost use Rattle.mrp_qty.specs.declared.quantity.TheConstants.{MOST};
ghost use Rattle.mrp_master_data.specs.Table.{horizon};
ghost use Rattle.mrp_net.specs.Sums.{row_of};
ghost use Rattle.mrp_net.specs.Plan.{gross, pair_plan, rows_at, asked};
ghost use Rattle.mrp_net.specs.PlanLaws.{Fits};
ghost use Rattle.mrp_loops.specs.Need.{AreNeeds};
ghost use Rattle.mrp_loops.specs.Sized.{IsSized};
ghost use Rattle.mrp_loops.specs.Planning.{IsPlanningOrder};
ghost use Rattle.mrp_plan.specs.Explosion.{CanAsk};
ghost use Rattle.mrp_plan.specs.Progress.{CanBeDrafted, HavePeriods, IsPlannedTo};

use crate::Plan;
use crate::explosion::need_of;
use mrp_loops::SizedNet;
use mrp_net::{Edge, FirmRows, Network, PairNo};
use mrp_netting::is_plan_from;
use mrp_qty::Row;

/// Whether the plan obeys the rules at every pair of the network: what comes in and its gross
/// requirements are those of the network, of its policies and firm planned orders and of the demanders' releases,
/// and its orders, releases, projected available and late orders follow from them.
///
/// The plan may be one of another network. Nothing is allocated, and it takes time linear in edges times
/// periods (by construction; no clause says so).
pub fn fits(net: &SizedNet, plan: &Plan) -> bool
    ensures { IsTrue result ↔ Fits net.now.network plan.now }
{
    let network = net.network();
    if plan.len() != network.pairs() {
        return false;
    }
    if !has_periods(network, plan) {
        return false;
    }
    let order = net.in_code_order();
    for k in 0..order.len() {
        if !fits_next(net, order, k, plan) {
            return false;
        }
    }
    true
}

/// Whether the plan of each pair has the periods of the network.
fn has_periods(network: &Network, plan: &Plan) -> bool
    requires { length plan.now ≡ length network.now.pairs }
    ensures { IsTrue result ↔ HavePeriods network.now plan.now }
{
    let periods = network.horizon().get() as usize;
    for x in 0..plan.len() {
        if plan.pair(PairNo(x)).len() != periods {
            return false;
        }
    }
    true
}

/// Whether the plan obeys the rules at the pair at place `k` of the order, where it does at those
/// before it.
fn fits_next(net: &SizedNet, order: &[PairNo], k: usize, plan: &Plan) -> bool
    requires sized { IsSized net.now.network }
    requires needs { AreNeeds net.now.network net.now.needs }
    requires order { IsPlanningOrder net.now.network (map (λ x. x.0) order.now) }
    requires place { k < length order.now }
    requires before { IsPlannedTo net.now.network net.now.needs (map (λ x. x.0) order.now) k plan.now }
    ensures after { IsTrue result → IsPlannedTo net.now.network net.now.needs (map (λ x. x.0) order.now)
        (k + 1) plan.now }
    ensures fits { Fits net.now.network plan.now → IsTrue result }
{
    fits_at(net.network(), order[k], plan)
}

/// Whether the plan obeys the rules at one pair.
fn fits_at(network: &Network, x: PairNo, plan: &Plan) -> bool
    requires { CanBeDrafted network.now plan.now x.0 }
    ensures { IsTrue result ↔ (rows_at plan.now x.0 ≡ pair_plan network.now plan.now x.0) }
{
    let own = plan.pair(x);
    if !has_gross(network, x, plan, own.gross()) {
        return false;
    }
    let terms = network.terms(x);
    let mut firm = FirmRows::new(network.horizon());
    firm.write(terms.orders);
    let given = firm.planning_data(&terms, network.incoming_row(x));
    is_plan_from(&given, own)
}

/// Whether the row is the gross requirements of the pair.
fn has_gross(network: &Network, x: PairNo, plan: &Plan, row: &Row) -> bool
    requires can { CanBeDrafted network.now plan.now x.0 }
    requires periods { length row.now ≡ horizon network.now }
    ensures { IsTrue result ↔ (row.now ≡ row_of network.now (gross network.now plan.now x.0)) }
{
    let edges = network.demanders(x);
    for t in 0..row.len() {
        let needed = network.demand(x, t) + asked_in(network, edges, plan, t);
        if row.get(t).get() != needed {
            return false;
        }
    }
    true
}

/// What the edges ask in the period for the releases of their demanders.
fn asked_in(network: &Network, edges: &[Edge], plan: &Plan, t: usize) -> u64
    requires edges { All (CanAsk network.now plan.now t) edges.now }
    requires within { asked network.now plan.now edges.now t ≤ MOST }
    ensures { result ≡ asked network.now plan.now edges.now t }
{
    let mut total = 0;
    for edge in edges {
        let released = plan.pair(edge.demander).release().get(t);
        total += need_of(network.usages(edge), edge, t, released.get());
    }
    total
}
