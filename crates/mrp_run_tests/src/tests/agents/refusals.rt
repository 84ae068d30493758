//! Tests of runs: agents for which memory is refused. Once they are made they need none.

use super::deeds::{Deed, takes};
use super::hands::agents_of;
use crate::tests::network_of;
use crate::{RESET_LATER, has_pieces};
use mrp_agent::Agent;
use mrp_loops::{SizedNet, bound, check};
use mrp_net::Network;
use mrp_netting::PairPlan;
use std::alloc::Global;
use std::test::Fail;

/// What is done with the agents of two plants, from the first record to the last.
const DEEDS: &[Deed] = &[
    Deed::Rest(1),
    Deed::Left(0, 1),
    Deed::Received(0, 0, 0, 100),
    Deed::Reset(0, 1, 0, 100),
    Deed::Line(0, 2, 0, 2, 8, 8),
    Deed::Ready(0, &[]),
    Deed::End(0, 3, 0, 1, 8),
    Deed::Received(0, 0, 0, 108),
    Deed::Ready(0, &[0]),
    Deed::Plan(0, &[0, 0, 22, 0]),
    Deed::Left(0, 0),
    Deed::Line(1, 1, 0, 1, 22, 130),
    Deed::Reset(1, 2, 0, 130),
    Deed::End(1, 3, 0, 1, 0),
    Deed::Close(1, 4),
    Deed::Rest(1),
    Deed::Received(1, 1, 0, 130),
    Deed::Plan(1, &[0, 22, 0, 0]),
    Deed::Undone(1),
    Deed::Close(0, 4),
    Deed::Done(0),
    Deed::Done(1),
];

/// Whether the last of the agents gives the plan of its one pair, with these orders, and is gone.
fn gives(agents: &mut Vec<Agent>, orders: &[u64]) -> bool {
    match agents.pop() {
        Some(agent) => are_one(agent.into_plans().as_slice(), orders),
        None => false,
    }
}

/// Whether these are the plan of one pair, with these orders.
fn are_one(plans: &[PairPlan], orders: &[u64]) -> bool {
    plans.len() == 1 && has_pieces(plans[0].order(), orders)
}

/// Whether the agents of two plants, once they are made, do what agents do.
fn made_agents_go_on(alloc: Global, net: &SizedNet) -> Result<bool, Fail> {
    let mut agents = agents_of(alloc, net)?;
    let went_on = takes(net.network(), agents.as_mut_slice(), DEEDS);
    let is_so = went_on && gives(&mut agents, &[0, 22, 0, 0]);
    drop(agents);
    Ok(is_so)
}

/// The same, once the network is checked.
fn network_goes_on(alloc: Global, network: &Network) -> Result<bool, Fail> {
    let levels = check(alloc, network)?;
    let net = bound(alloc, network, &levels)?;
    made_agents_go_on(alloc, &net)
}

/// The same of a firm whose figures start anew later.
fn a_firm_goes_on(rt: &HostRuntime) -> Result<bool, Fail> {
    let network = network_of(rt.alloc(), RESET_LATER)?;
    let is_so = network_goes_on(rt.alloc(), &network);
    drop(network);
    is_so
}

/// With an allocation refused, or with all from one on, this test ends in an error for want of memory
/// before the agents are made, or it passes; its assertion never fails.
#[test]
fn agents_that_are_made_need_no_memory(rt: HostRuntime) -> Result<(), Fail> {
    assert!(rt; a_firm_goes_on(&rt)?);
    Ok(())
}
