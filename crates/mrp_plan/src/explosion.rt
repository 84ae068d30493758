//! The plan of the whole network: its explosion as it goes on, which is what the releases
//! of a pair's demanders ask of it.

ghost use Rattle.std.specs.Prelude.{◌≡◌, ◌+◌, ◌*◌, ◌<◌, ◌≤◌, ◌↔◌, ℕ, IsTrue, length, sum, sum_by, slice_index, All};
ghost use Rattle.mrp_qty.specs.declared.quantity.TheConstants.{MOST};
ghost use Rattle.mrp_master_data.specs.Table.{IsTable};
ghost use Rattle.mrp_net.specs.Edges.{edge_most, edge_need};
ghost use Rattle.mrp_net.specs.Plan.{rows_at, asked};
ghost use Rattle.mrp_net.specs.Suppliers.{IsEdge};
ghost use Rattle.mrp_plan.specs.Explosion.{CanExplode, asked_total, need_by};

use mrp_net::{Edge, Network, UsageRow, add_asked, pieces_for, share_of, usage_in};
use mrp_netting::PairPlan;
use mrp_qty::{Qty, Row};

/// Whether the edge's part of a release is the whole of it.
fn is_whole(edge: &Edge) -> bool
    ensures { IsTrue result ↔ ((edge.now.low ≡ 0) × (edge.now.high ≡ 1000)) }
{
    edge.low == 0 && edge.high == 1000
}

/// What the edge asks in period `t` for a release of its demander, by its usage rows.
pub(crate) fn need_of(rows: &[UsageRow], edge: &Edge, t: usize, release: u64) -> u64
    requires bases { All (λ u. 1 ≤ u.usage.base) rows.now }
    requires shares { edge.now.low ≤ edge.now.high }
    requires whole { edge.now.high ≤ 1000 }
    requires quantity { release ≤ MOST }
    requires within { need_by rows.now edge.now t release ≤ MOST }
    ensures { result ≡ need_by rows.now edge.now t release }
{
    let part = share_of(edge.low, edge.high, release);
    pieces_for(usage_in(rows, edge.per, t), part)
}

/// Adds to `gross` what the edge asks for the releases of its demander.
fn explode(network: &Network, edge: &Edge, release: &Row, gross: &mut Row)
    requires table { IsTable network.now }
    requires edge { IsEdge network.now edge.now }
    requires periods { length release.now ≡ length gross.old }
    requires within { sum gross.old + edge_most network.now edge.now * sum release.now ≤ MOST }
    ensures each { (t : ℕ) → t < length gross.old →
        slice_index gross.new t ≡ slice_index gross.old t + edge_need network.now edge.now t (slice_index release.now t) }
    ensures total { sum gross.new ≤ sum gross.old + edge_most network.now edge.now * sum release.now }
    ensures size { length gross.new ≡ length gross.old }
{
    if is_whole(edge) {
        add_asked(network.usages(edge), edge.per, release, gross);
    } else {
        explode_part(network, edge, release, gross);
    }
}

/// Adds to `gross` what the edge asks, part by part.
fn explode_part(network: &Network, edge: &Edge, release: &Row, gross: &mut Row)
    requires table { IsTable network.now }
    requires edge { IsEdge network.now edge.now }
    requires periods { length release.now ≡ length gross.old }
    requires within { sum gross.old + edge_most network.now edge.now * sum release.now ≤ MOST }
    ensures each { (t : ℕ) → t < length gross.old →
        slice_index gross.new t ≡ slice_index gross.old t + edge_need network.now edge.now t (slice_index release.now t) }
    ensures size { length gross.new ≡ length gross.old }
{
    let rows = network.usages(edge);
    for t in 0..release.len() {
        let released = release.get(t);
        let quantity = released.get();
        if quantity != 0 {
            gross.add(t, Qty::of(need_of(rows, edge, t, quantity)));
        }
    }
}

/// Adds to `gross` what all edges ask for the releases of their demanders.
pub(crate) fn explode_all(network: &Network, edges: &[Edge], plans: &[PairPlan], gross: &mut Row)
    requires table { IsTable network.now }
    requires edges { All (CanExplode network.now plans.now (length gross.old)) edges.now }
    requires within { sum gross.old + asked_total network.now plans.now edges.now ≤ MOST }
    ensures each { (t : ℕ) → t < length gross.old →
        slice_index gross.new t ≡ slice_index gross.old t + asked network.now plans.now edges.now t }
    ensures total { sum gross.new ≤ sum gross.old + asked_total network.now plans.now edges.now }
    ensures size { length gross.new ≡ length gross.old }
{
    for edge in edges {
        let plan = &plans[edge.demander.0];
        explode(network, edge, plan.release(), gross);
    }
}
