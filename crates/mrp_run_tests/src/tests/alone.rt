//! Tests of runs: the thread of a plant whose network has no lanes. It has no ends, and is done in one turn.

ghost use Rattle.std.specs.Prelude.{◌≡◌, [], IfOk, length};
ghost use Rattle.mrp_net.specs.Lanes.{lanes};
ghost use Rattle.mrp_run.specs.Plant.{IsAtWork};

use super::network_of;
use crate::has_pieces;
use mrp_agent::{Agent, NoGate};
use mrp_loops::{SizedNet, bound, check};
use mrp_net::{Network, PairNo, PlantNo};
use mrp_plant_view::PlantView;
use mrp_qty::Memory;
use mrp_run::{Crew, Gate, RunFault, Stop, run_plant};
use std::alloc::Global;
use std::marker::Brand;
use std::sync::Wait;
use std::test::Fail;
use std::thread::Threads;

/// One plant: ten bicycles are asked for and two are on hand; wheels, two to a bicycle, are bought by the dozen.
const DOZENS: &str = "run,2026-01-05,7,4,,,,\nplant,P1,,,,,,\npair,P1,BIKE,make,lot,1,2,0\n\
pair,P1,WHEEL,buy,fixed:12,1,0,0\nbill,P1,BIKE,WHEEL,2,,,\ndemand,P1,BIKE,3,10,,,\n";

/// A gate that is shut to all turns.
struct Shut;

impl Gate for Shut {
    ghost worker_shut = { λ _ _. ⊥ };

    fn turn(&self, _plant: usize, _turn: u64) -> bool {
        false
    }

    fn worker(&self, _plant: usize, _worker: u64) -> bool {
        true
    }
}

/// The agent of the first plant of a network without lanes: with no ends it is at work.
fn new_agent(alloc: Global, net: &SizedNet) -> Result<Agent, Memory>
    requires lanes { length (lanes net.now.network) ≡ 0 }
    ensures work { IfOk result (λ agent. IsAtWork agent [] []) }
{
    let network = net.network();
    let view = PlantView::of(alloc, network, PlantNo(0))?;
    let agent = Agent::new(alloc, view)?;
    Ok(agent)
}

/// What the plant's thread answers where it is given one turn: the agent, or the fault.
fn run<R: Threads + Wait + Sync, G: Gate>(
    rt: &R,
    alloc: Global,
    net: &SizedNet,
    gate: &G,
) -> Result<Result<Agent, RunFault>, Fail>
    requires lanes { length (lanes net.now.network) ≡ 0 }
{
    let agent = new_agent(alloc, net)?;
    let mut crew = Crew::new(alloc, 2, agent.view().horizon())?;
    let stop = Stop::<Brand>::new();
    let sends = Vec::new(alloc);
    let takes = Vec::new(alloc);
    let plant = PlantNo(0);
    match run_plant(
        rt, alloc, plant, agent, sends, takes, &mut crew, gate, &stop, 1,
    ) {
        Ok((agent, _sends, _takes)) => Ok(Ok(agent)),
        Err(fault) => Ok(Err(fault)),
    }
}

/// The same of a network that is checked first.
fn run_in<R: Threads + Wait + Sync, G: Gate>(
    rt: &R,
    alloc: Global,
    network: &Network,
    gate: &G,
) -> Result<Result<Agent, RunFault>, Fail> {
    let levels = check(alloc, network)?;
    let net = bound(alloc, network, &levels)?;
    if net.network().lanes() > 0 {
        return Err(Fail::new("the network has lanes"));
    }
    run(rt, alloc, &net, gate)
}

/// The same of the plant of the dozens.
fn run_dozens<R: Threads + Wait + Sync, G: Gate>(
    rt: &R,
    alloc: Global,
    gate: &G,
) -> Result<Result<Agent, RunFault>, Fail> {
    let network = network_of(alloc, DOZENS)?;
    let answer = run_in(rt, alloc, &network, gate);
    drop(network);
    answer
}

/// Whether an agent has planned a pair with these receipts and releases of orders.
fn has_orders(agent: &Agent, pair: usize, order: &[u64], release: &[u64]) -> bool {
    match agent.planned(PairNo(pair)) {
        Some(plan) => has_pieces(plan.order(), order) && has_pieces(plan.release(), release),
        None => false,
    }
}

/// Eight bicycles are missing in the last period, so they are begun in the one before. That asks for 16 wheels, which
/// are two dozen, ordered a period earlier.
#[test]
fn a_plant_without_ends_plans_its_pairs(rt: HostRuntime) -> Result<(), Fail> {
    let Ok(agent) = run_dozens(&rt, rt.alloc(), &NoGate)? else {
        return Err(Fail::new("the plant's thread has a fault"));
    };
    assert!(rt; agent.done());
    assert!(rt; has_orders(&agent, 0, &[0, 0, 0, 8], &[0, 0, 8, 0]));
    assert!(rt; has_orders(&agent, 1, &[0, 0, 24, 0], &[0, 24, 0, 0]));
    Ok(())
}

#[test]
fn a_shut_gate_is_the_plants_fault(rt: HostRuntime) -> Result<(), Fail> {
    let fault = run_dozens(&rt, rt.alloc(), &Shut)?.err();
    assert!(rt; fault == Some(RunFault::GateShut(PlantNo(0))));
    Ok(())
}
