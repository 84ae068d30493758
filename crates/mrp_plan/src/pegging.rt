//! The plan of the whole network: pegging in it, what a gross requirement consists of.

ghost use Rattle.std.specs.Prelude.{◌≡◌, ◌<◌, ◌≤◌, ◌++◌, ◌∷◌, [], ℕ, length, filter, map, All, IfOk, OnOk};
ghost use Rattle.mrp_master_data.specs.Table.{IsPair, horizon};
ghost use Rattle.mrp_net.specs.Edges.{demanders};
ghost use Rattle.mrp_net.specs.PlanLaws.{Fits};
ghost use Rattle.mrp_plan.specs.Peg.{peg_terms, is_asked, IsPeggable, demand_term as demand_term_of};
ghost use Rattle.mrp_plan.specs.Peg.{edge_term as edge_term_of};

use crate::{PegSource, PegTerm, Plan};
use mrp_loops::SizedNet;
use mrp_net::{Edge, Network, PairNo, pieces_for, share_of, usage_in};
use mrp_qty::Memory;
use std::alloc::Global;

/// Which requirements the gross requirement of the pair in period `t` consists of: its demand rows
/// first, then its demanders in table order, without terms of 0.
///
/// The plan is one that fits the network, and `t` is below the horizon.
///
/// # Errors
///
/// [`Memory`] where room for a term is refused.
pub fn peg(
    alloc: Global,
    net: &SizedNet,
    plan: &Plan,
    x: PairNo,
    t: usize,
) -> Result<Vec<PegTerm>, Memory>
    requires fits { Fits net.now.network plan.now }
    requires pair { IsPair net.now.network x.0 }
    requires period { t < horizon net.now.network }
    ensures terms { let N = net.now.network in IfOk result (λ terms. terms.items ≡ peg_terms N plan.now x.0 t) }
    ensures pairs { let N = net.now.network in IfOk result (λ terms. All (λ term. IsPair N term.pair.0) terms.items) }
{
    let network = net.network();
    let edges = asking_edges(network, plan, x, t);
    let mut terms = Vec::new(alloc);
    push_term(&mut terms, demand_term(network, x, t))?;
    push_edges(&mut terms, network, plan, edges, t)?;
    Ok(terms)
}

/// Keeps what the edges ask in the period, in their order.
fn push_edges(
    terms: &mut Vec<PegTerm>,
    network: &Network,
    plan: &Plan,
    edges: &[Edge],
    t: usize,
) -> Result<(), Memory>
    requires size { length plan.now ≡ length network.now.pairs }
    requires edges { All (IsPeggable network.now plan.now t) edges.now }
    ensures { OnOk result (terms.new.items ≡
        terms.old.items ++ filter is_asked (map (edge_term_of network.now plan.now t) edges.now)) }
{
    for edge in edges {
        push_term(terms, edge_term(network, plan, edge, t))?;
    }
    Ok(())
}

/// The edges by which the demanders of the pair may ask of it in period `t`, in table order of the
/// demanders.
///
/// The plan is one that fits the network, and `t` is below the horizon.
pub fn asking_edges<'a>(network: &'a Network, plan: &Plan, x: PairNo, t: usize) -> &'a [Edge]
    requires fits { Fits network.now plan.now }
    requires pair { IsPair network.now x.0 }
    requires period { t < horizon network.now }
    ensures value { result.now ≡ demanders network.now x.0 }
    ensures edges { All (IsPeggable network.now plan.now t) result.now }
{
    // What each asks is within the gross requirement, which is a quantity.
    let gross = plan.pair(x).gross().get(t);
    let _within = gross.get();
    network.demanders(x)
}

/// The demand rows of the pair in period `t`, as one term, which is 0 where there are none.
///
/// `t` is below the horizon.
pub fn demand_term(network: &Network, x: PairNo, t: usize) -> PegTerm
    requires pair { IsPair network.now x.0 }
    requires period { t < horizon network.now }
    ensures { result ≡ demand_term_of network.now x.0 t }
{
    let quantity = network.demand(x, t);
    PegTerm {
        source: PegSource::Demand,
        pair: x,
        release: quantity,
        per: 1,
        base: 1,
        quantity,
    }
}

/// What the edge asks in period `t` by the release of its demander and the usage in force, which is 0 where nothing is
/// released and where none goes into the demander.
///
/// The edge is one of [`asking_edges`] in the period.
pub fn edge_term(network: &Network, plan: &Plan, edge: &Edge, t: usize) -> PegTerm
    requires size { length plan.now ≡ length network.now.pairs }
    requires edge { IsPeggable network.now plan.now t edge.now }
    ensures { result ≡ edge_term_of network.now plan.now t edge.now }
{
    let released = plan.pair(edge.demander).release().get(t);
    let release = share_of(edge.low, edge.high, released.get());
    let usage = usage_in(network.usages(edge), edge.per, t);
    let demander = network.pair(edge.demander);
    let source = if demander.plant.0 == network.pair(edge.pair).plant.0 {
        PegSource::Bill
    } else {
        PegSource::Plant
    };
    PegTerm {
        source,
        pair: edge.demander,
        release,
        per: usage.per,
        base: usage.base,
        quantity: pieces_for(usage, release),
    }
}

/// Keeps the term, unless it is 0.
fn push_term(terms: &mut Vec<PegTerm>, term: PegTerm) -> Result<(), Memory>
    ensures { OnOk result (terms.new.items ≡ terms.old.items ++ filter is_asked (term ∷ [])) }
{
    if term.quantity != 0 {
        terms.push(term)?;
    }
    Ok(())
}
