//! Tests of runs: crews at work on the agent of a plant, over tables that were worked by hand.

ghost use Rattle.std.specs.Prelude.{◌≡◌, IfOk, length};
ghost use Rattle.mrp_crew.specs.Planning.{IsPlannable};

mod gates;
mod refusals;
mod workers;

use crate::is_same_plan;
use crate::tests::network_of;
use mrp_agent::{Agent, NoGate};
use mrp_crew::{Crew, CrewFault, Gate, MOST_WORKERS};
use mrp_loops::{SizedNet, bound, check};
use mrp_net::{Network, PairNo, PlantNo};
use mrp_plan::{Plan, plan_all};
use mrp_plant_view::PlantView;
use mrp_qty::Memory;
use std::alloc::Global;
use std::sync::Wait;
use std::test::Fail;
use std::thread::Threads;

/// The agent of a plant, to which nothing has come.
fn new_agent(alloc: Global, net: &SizedNet, plant: usize) -> Result<Agent, Memory>
    ensures plannable { IfOk result IsPlannable }
{
    let network = net.network();
    let view = PlantView::of(alloc, network, PlantNo(plant))?;
    let agent = Agent::new(alloc, view)?;
    Ok(agent)
}

/// Has a crew plan what is ready; the agent can be planned for again.
fn plan<R: Threads + Wait + Sync, G: Gate>(
    rt: &R,
    alloc: Global,
    crew: &mut Crew,
    agent: &mut Agent,
    gate: &G,
) -> Result<usize, CrewFault>
    requires plannable { IsPlannable agent.old }
    requires horizon { crew.old.horizon ≡ agent.old.view.horizon }
    ensures crew { crew.new ≡ crew.old }
    ensures view { agent.new.view ≡ agent.old.view }
    ensures plannable { IsPlannable agent.new }
{
    crew.plan_ready(rt, alloc, agent, 0, gate)
}

/// How many of a network's pairs an agent has planned as the whole plan is; `None` where one is planned
/// otherwise.
fn planned_so(agent: &Agent, network: &Network, whole: &Plan) -> Option<usize>
    requires pairs { length whole.now ≡ length network.now.pairs }
{
    let mut count = 0usize;
    for x in 0..network.pairs() {
        if let Some(plan) = agent.planned(PairNo(x)) {
            if !is_same_plan(plan, whole.pair(PairNo(x))) {
                return None;
            }
            count = count.saturating_add(1);
        }
    }
    Some(count)
}

/// What came of two calls of a crew: what each answered, how many pairs were planned after it, and how many
/// were left at the end.
#[derive(Clone, Copy)]
struct Calls {
    first: Result<usize, CrewFault>,
    before: Option<usize>,
    second: Result<usize, CrewFault>,
    after: Option<usize>,
    left: usize,
}

/// Has a crew of so many workers plan at a gate, and then at an open one.
fn call_twice<R: Threads + Wait + Sync, G: Gate>(
    rt: &R,
    alloc: Global,
    agent: &mut Agent,
    network: &Network,
    whole: &Plan,
    workers: u64,
    gate: &G,
) -> Result<Calls, Fail>
    requires plannable { IsPlannable agent.old }
    requires pairs { length whole.now ≡ length network.now.pairs }
{
    if workers == 0 || workers > MOST_WORKERS {
        return Err(Fail::new("no crew has so many workers"));
    }
    let mut crew = Crew::new(alloc, workers, agent.view().horizon())?;
    let first = plan(rt, alloc, &mut crew, agent, gate);
    let before = planned_so(agent, network, whole);
    let second = plan(rt, alloc, &mut crew, agent, &NoGate);
    let after = planned_so(agent, network, whole);
    Ok(Calls {
        first,
        before,
        second,
        after,
        left: agent.left(),
    })
}

/// The same for the agent of the first plant of a network.
fn agent_plans<R: Threads + Wait + Sync, G: Gate>(
    rt: &R,
    alloc: Global,
    net: &SizedNet,
    whole: &Plan,
    workers: u64,
    gate: &G,
) -> Result<Calls, Fail>
    requires pairs { length whole.now ≡ length net.now.network.pairs }
{
    let mut agent = new_agent(alloc, net, 0)?;
    let answer = call_twice(rt, alloc, &mut agent, net.network(), whole, workers, gate);
    drop(agent);
    answer
}

/// The same for the first plant of a network, which is planned as a whole before.
fn plant_plans<R: Threads + Wait + Sync, G: Gate>(
    rt: &R,
    alloc: Global,
    net: &SizedNet,
    workers: u64,
    gate: &G,
) -> Result<Calls, Fail> {
    let whole = plan_all(alloc, net)?;
    let answer = agent_plans(rt, alloc, net, &whole, workers, gate);
    drop(whole);
    answer
}

/// The same, once the network is checked.
fn network_plans<R: Threads + Wait + Sync, G: Gate>(
    rt: &R,
    alloc: Global,
    network: &Network,
    workers: u64,
    gate: &G,
) -> Result<Calls, Fail> {
    let levels = check(alloc, network)?;
    let net = bound(alloc, network, &levels)?;
    plant_plans(rt, alloc, &net, workers, gate)
}

/// The same of the network of a table's text.
fn plans<R: Threads + Wait + Sync, G: Gate>(
    rt: &R,
    alloc: Global,
    text: &str,
    workers: u64,
    gate: &G,
) -> Result<Calls, Fail> {
    let network = network_of(alloc, text)?;
    let answer = network_plans(rt, alloc, &network, workers, gate);
    drop(network);
    answer
}
