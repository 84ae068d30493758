//! Tests of runs: what is done with the agents of a firm, or seen of them, one after the other.

ghost use Rattle.mrp_run_tests.specs.Hands.{AreAlone};

use super::hands::{agents_of, hand_over, next_out, plan};
use crate::has_pieces;
use crate::tests::network_of;
use mrp_agent::Agent;
use mrp_loops::{SizedNet, bound, check};
use mrp_net::{ItemNo, LaneNo, Network, PairNo};
use mrp_record::Record;
use std::alloc::Global;
use std::test::Fail;

/// What is done with an agent, or seen of it.
#[derive(Clone, Copy)]
pub(super) enum Deed<'a> {
    /// A lane's next record is this line, and is handed over: its number, its item, period, quantity and figure.
    Line(usize, u64, usize, u64, u64, u64),
    /// The same of an item end: its number, its item, lines and figure.
    End(usize, u64, usize, u64, u64),
    /// The same of a reset: its number, its item and the closed figure.
    Reset(usize, u64, usize, u64),
    /// The same of the closing record: its number.
    Close(usize, u64),
    /// A lane has no record to send.
    Rest(usize),
    /// A plant can plan these pairs.
    Ready(usize, &'a [usize]),
    /// A pair is planned, with these orders.
    Plan(usize, &'a [u64]),
    /// A plant is done.
    Done(usize),
    /// A plant isn't done.
    Undone(usize),
    /// A plant has so many pairs left to plan.
    Left(usize, usize),
    /// A plant has received so many pieces of an item over a lane, closed years added.
    Received(usize, usize, usize, u64),
}

/// The lane and the record of a deed that hands one over.
fn handed(deed: Deed) -> Option<(usize, Record)> {
    match deed {
        Deed::Line(lane, number, item, period, quantity, cumulative) => {
            let item = ItemNo(item);
            let line = Record::Line {
                number,
                item,
                period,
                quantity,
                cumulative,
            };
            Some((lane, line))
        }
        Deed::End(lane, number, item, lines, cumulative) => {
            let item = ItemNo(item);
            let end = Record::ItemEnd {
                number,
                item,
                lines,
                cumulative,
            };
            Some((lane, end))
        }
        Deed::Reset(lane, number, item, closed) => {
            let item = ItemNo(item);
            let reset = Record::Reset {
                number,
                item,
                closed,
            };
            Some((lane, reset))
        }
        Deed::Close(lane, number) => Some((lane, Record::Close { number })),
        _ => None,
    }
}

/// Whether a lane's next record is this one, and is handed over.
fn hands(network: &Network, agents: &mut [Agent], l: usize, wanted: Record) -> bool
    requires { AreAlone network.now agents.old }
    ensures { AreAlone network.now agents.new }
{
    if l >= network.lanes() {
        return false;
    }
    match hand_over(network, agents, LaneNo(l)) {
        Some(entry) => entry == wanted,
        None => false,
    }
}

/// Whether a lane has no record to send.
fn rests(network: &Network, agents: &[Agent], l: usize) -> bool
    requires { AreAlone network.now agents.now }
{
    l < network.lanes() && next_out(network, agents, LaneNo(l)).is_none()
}

/// Whether a plant can plan these pairs, in any order, and no other.
fn is_ready(agents: &[Agent], p: usize, pairs: &[usize]) -> bool {
    if p >= agents.len() {
        return false;
    }
    let ready = agents[p].ready_pairs();
    ready.len() == pairs.len()
        && pairs
            .iter()
            .all(|x| ready.iter().any(|known| known.0 == *x))
}

/// Whether a pair is planned now, with these orders.
fn plans(network: &Network, agents: &mut [Agent], x: usize, orders: &[u64]) -> bool
    requires { AreAlone network.now agents.old }
    ensures { AreAlone network.now agents.new }
{
    if x >= network.pairs() {
        return false;
    }
    let planned = plan(network, agents, PairNo(x));
    planned && has_orders(agents, x, orders)
}

/// Whether one of the agents has planned a pair, with these orders.
fn has_orders(agents: &[Agent], x: usize, orders: &[u64]) -> bool {
    for agent in agents {
        if let Some(planned) = agent.planned(PairNo(x)) {
            return has_pieces(planned.order(), orders);
        }
    }
    false
}

/// Whether a plant is done, as it is wanted.
fn is_done(agents: &[Agent], p: usize, wanted: bool) -> bool {
    p < agents.len() && agents[p].done() == wanted
}

/// Whether a plant has so many pairs left to plan.
fn has_left(agents: &[Agent], p: usize, wanted: usize) -> bool {
    p < agents.len() && agents[p].left() == wanted
}

/// Whether a plant has received so many pieces of an item over a lane.
fn has_received(agents: &[Agent], p: usize, l: usize, item: usize, wanted: u64) -> bool {
    if p >= agents.len() {
        return false;
    }
    match agents[p].cumulative(LaneNo(l), ItemNo(item)) {
        Some(figure) => figure.get() == wanted,
        None => false,
    }
}

/// Whether the agents take a deed so.
fn takes_one(network: &Network, agents: &mut [Agent], deed: Deed) -> bool
    requires { AreAlone network.now agents.old }
    ensures { AreAlone network.now agents.new }
{
    match handed(deed) {
        Some((l, wanted)) => hands(network, agents, l, wanted),
        None => is_seen(network, agents, deed),
    }
}

/// The same of a deed that hands nothing over.
fn is_seen(network: &Network, agents: &mut [Agent], deed: Deed) -> bool
    requires { AreAlone network.now agents.old }
    ensures { AreAlone network.now agents.new }
{
    match deed {
        Deed::Rest(l) => rests(network, agents, l),
        Deed::Ready(p, pairs) => is_ready(agents, p, pairs),
        Deed::Plan(x, orders) => plans(network, agents, x, orders),
        Deed::Done(p) => is_done(agents, p, true),
        Deed::Undone(p) => is_done(agents, p, false),
        Deed::Left(p, wanted) => has_left(agents, p, wanted),
        Deed::Received(p, l, item, wanted) => has_received(agents, p, l, item, wanted),
        _ => false,
    }
}

/// Whether the agents take each deed so.
pub(super) fn takes(network: &Network, agents: &mut [Agent], deeds: &[Deed]) -> bool
    requires { AreAlone network.now agents.old }
    ensures { AreAlone network.now agents.new }
{
    let mut all = true;
    for deed in deeds {
        all = takes_one(network, agents, *deed) && all;
    }
    all
}

/// Whether the agents of a network take the deeds so.
fn agents_take(alloc: Global, net: &SizedNet, deeds: &[Deed]) -> Result<bool, Fail> {
    let mut agents = agents_of(alloc, net)?;
    let is_so = takes(net.network(), agents.as_mut_slice(), deeds);
    drop(agents);
    Ok(is_so)
}

/// The same, once the network is checked.
fn network_takes(alloc: Global, network: &Network, deeds: &[Deed]) -> Result<bool, Fail> {
    let levels = check(alloc, network)?;
    let net = bound(alloc, network, &levels)?;
    agents_take(alloc, &net, deeds)
}

/// The same of the network of a table's text.
pub(super) fn go(rt: &HostRuntime, table: &str, deeds: &[Deed]) -> Result<bool, Fail> {
    let network = network_of(rt.alloc(), table)?;
    let is_so = network_takes(rt.alloc(), &network, deeds);
    drop(network);
    is_so
}
