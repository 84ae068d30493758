//! The bound: the needs of the pairs, what may be ordered of each at most.

ghost use Rattle.std.specs.Prelude.{◌≡◌, ◌-◌, ◌*◌, ◌^◌, min, length, sum_by, slice_index, All};
ghost use Rattle.mrp_lot.specs.Lot.{rule_quantities};
ghost use Rattle.mrp_master_data.specs.Table.{IsPair};
ghost use Rattle.mrp_net.specs.Edges.{edge_most};
ghost use Rattle.mrp_net.specs.Suppliers.{IsEdge};
ghost use Rattle.mrp_loops.specs.Need.{need_at};

use mrp_lot::Rule;
use mrp_net::{Edge, Network, PairNo, most_per};

/// What the pair needs over the whole horizon where its demanders need `needs`, or 2^64 - 1 where
/// that is more: its demand, what its demanders need of it by the greatest of their usages, its safety stock,
/// its rule's quantities, LEAST and MULTIPLE of its policy, and its firm planned orders.
pub fn need(network: &Network, needs: &[u64], x: PairNo) -> u64
    requires pair { IsPair network.now x.0 }
    requires size { length needs.now ≡ length network.now.pairs }
    ensures { result ≡ min (need_at network.now needs.now x.0) (2 ^ 64 - 1) }
{
    let row = network.pair(x);
    let policy = network.policy(x);
    let asked = asked_by(network, network.demanders(x), needs);
    network
        .demand_total(x)
        .saturating_add(asked)
        .saturating_add(row.safety.get())
        .saturating_add(quantities_of(&row.rule))
        .saturating_add(policy.least)
        .saturating_add(policy.multiple)
        .saturating_add(network.firm_total(x))
}

/// What the demanders of a pair need of it, or 2^64 - 1 where that is more.
fn asked_by(network: &Network, edges: &[Edge], needs: &[u64]) -> u64
    requires edges { All (IsEdge network.now) edges.now }
    requires size { length needs.now ≡ length network.now.pairs }
    ensures { let N = network.now in
        result ≡ min (sum_by (λ e. edge_most N e * slice_index needs.now e.demander.0) edges.now) (2 ^ 64 - 1) }
{
    let mut asked: u64 = 0;
    for edge in edges {
        asked = asked.saturating_add(most_of(network, edge).saturating_mul(needs[edge.demander.0]));
    }
    asked
}

/// The most pieces for one piece that the bill row of an edge or a usage row says, in force or not.
fn most_of(network: &Network, edge: &Edge) -> u64
    requires { IsEdge network.now edge.now }
    ensures { result ≡ edge_most network.now edge.now }
{
    most_per(network.usages(edge), edge.per)
}

/// The rule's own quantities together, or 2^64 - 1 where they are more.
fn quantities_of(rule: &Rule) -> u64
    ensures { result ≡ min (rule_quantities rule.now) (2 ^ 64 - 1) }
{
    match *rule {
        Rule::LotForLot | Rule::Periods(_) => 0,
        Rule::Fixed(quantity) => quantity,
        Rule::MinMultiple(least, multiple) => least.saturating_add(multiple),
    }
}
