//! The run by threads of a whole network, a thread for each plant.
ghost use Rattle.std.specs.Prelude.{◌≡◌, IfErr, IfOk, map};
ghost use Rattle.mrp_loops.specs.Sized.{IsSized};
ghost use Rattle.mrp_run.specs.Ends.{AreThrough};
ghost use Rattle.mrp_run.specs.declared.fault.RunFault.{RunFault};
ghost use Rattle.mrp_qty.specs.declared.limits.TheConstants.{MOST_TURNS};
ghost use Rattle.mrp_run.specs.Gates.{GateTells};
ghost use Rattle.mrp_net.specs.Plan.{plan_of};
ghost use Rattle.mrp_run.specs.Outcome.{AreOfRun, IsOutcome};

use crate::dealing::ready_plants;
use crate::fault::RunFault;
use crate::gathering::plans_of;
use crate::joining::{OfEnds, join_all};
use crate::plant::Plant;
use crate::settings::Settings;
use crate::threads::run_plants;
use mrp_agent::Gate;
use mrp_lane::{JoinedLane, Reconciled};
use mrp_loops::SizedNet;
use mrp_net::Network;
use mrp_netting::PairPlan;
use mrp_qty::MOST_TURNS;
use std::alloc::Global;
use std::marker::Brand;
use std::sync::Wait;
use std::thread::Threads;

/// What a run comes to. What went over its lanes is a [`Reconciled`] each, or, for proofs alone, a [`JoinedLane`].
#[derive(Drop)]
pub struct Outcome<L = Reconciled> {
    /// The plan of each pair, in table order.
    pub plans: Vec<PairPlan>,
    /// What went over each lane, as its ends showed it when they were joined, in lane order.
    pub lanes: Vec<L>,
}

/// Runs a network by a thread for each plant, until each plant is done.
///
/// The outcome is the one plan of the network, and what went over its lanes: when the two ends of a lane were
/// joined, the list of all records that had been sent was a whole text of the lane, the list of those that had
/// been taken was the same, nothing was left, and the figures are those of these lists. For every capacity of at
/// least one record some events lead from the opening state to a finished state with these lists. So it is for every
/// number of workers and every capacity. That these ends are those which the threads of the plants used, and that a run
/// has a thread for each plant, as many workers and as much room as `settings` says, stands in no clause. The gate
/// was open to the first turns of each plant, one or more. It isn't claimed that a run ends.
///
/// # Errors
///
/// It is built to answer [`RunFault::Memory`] where a growth is refused and [`RunFault::ThreadRefused`] where no
/// thread could be made; no clause says either. [`RunFault::GateShut`] with the plant of the network for which, or
/// for a worker of which, the gate was shut. [`RunFault::Stopped`] is built for a plant that isn't done after
/// [`MOST_TURNS`]; by the clause the gate was open to all these turns of some plant. Where several are met it is
/// built to answer the first of these, and of shut gates that of the lowest plant; no clause of this call says which.
pub fn run_network<R: Threads + Wait + Sync, G: Gate>(
    rt: &R,
    alloc: Global,
    net: &SizedNet<'_>,
    settings: Settings,
    gate: &G,
) -> Result<Outcome, RunFault>
    ensures outcome { IfOk result (λ o. IsOutcome net.now.network o) }
    ensures gate { GateTells G.turn_open G.turn_shut G.worker_shut settings.workers MOST_TURNS net.now.network result }
{
    run_network_within(rt, alloc, net, settings, gate, MOST_TURNS)
}

/// As [`run_network`], where a plant has so many turns at most.
///
/// # Errors
///
/// Those of [`run_network`], and [`RunFault::Stopped`] where a plant isn't done after its turns.
pub fn run_network_within<R: Threads + Wait + Sync, G: Gate>(
    rt: &R,
    alloc: Global,
    net: &SizedNet<'_>,
    settings: Settings,
    gate: &G,
    turns: u64,
) -> Result<Outcome, RunFault>
    ensures outcome { IfOk result (λ o. IsOutcome net.now.network o) }
    ensures gate { GateTells G.turn_open G.turn_shut G.worker_shut settings.workers turns net.now.network result }
{
    run_to(rt, alloc, net, settings, gate, turns)
}

/// The outcome of the run that [`run_network`] makes, where nobody asks for records and figures: the two ends of each
/// lane are joined for proofs alone, and no mailbox is emptied.
///
/// # Errors
///
/// Those of [`run_network`].
pub fn plan_network<R: Threads + Wait + Sync, G: Gate>(
    rt: &R,
    alloc: Global,
    net: &SizedNet<'_>,
    settings: Settings,
    gate: &G,
) -> Result<Outcome<JoinedLane>, RunFault>
    ensures outcome { IfOk result (λ o. IsOutcome net.now.network o) }
    ensures gate { GateTells G.turn_open G.turn_shut G.worker_shut settings.workers MOST_TURNS net.now.network result }
{
    run_to(rt, alloc, net, settings, gate, MOST_TURNS)
}

/// Runs a network, and makes of the two ends of each lane what the outcome has of it.
fn run_to<R: Threads + Wait + Sync, G: Gate, L: OfEnds>(
    rt: &R,
    alloc: Global,
    net: &SizedNet<'_>,
    settings: Settings,
    gate: &G,
    turns: u64,
) -> Result<Outcome<L>, RunFault>
    ensures outcome { IfOk result (λ o. (o.plans.items ≡ plan_of net.now.network)
        × AreOfRun net.now.network (map L.carried o.lanes.items)) }
    ensures gate { GateTells G.turn_open G.turn_shut G.worker_shut settings.workers turns net.now.network result }
{
    let ready = ready_plants(rt, alloc, net, settings.capacity())?;
    let through = run_plants::<R, G, Brand>(
        rt,
        alloc,
        ready,
        settings.workers(),
        settings.capacity(),
        gate,
        turns,
    )?;
    outcome_of(rt, alloc, net.network(), through)
}

/// What plants that have finished come to.
fn outcome_of<R: Wait, L: OfEnds>(
    rt: &R,
    alloc: Global,
    network: &Network,
    mut plants: Vec<Plant>,
) -> Result<Outcome<L>, RunFault>
    requires sized { IsSized network.now }
    requires through { AreThrough network.now plants.items }
    ensures outcome { IfOk result (λ o. (o.plans.items ≡ plan_of network.now)
        × AreOfRun network.now (map L.carried o.lanes.items)) }
    ensures fault { IfErr result (λ fault. fault ≡ RunFault.Memory) }
{
    let lanes = join_all(rt, alloc, network, plants.as_mut_slice())?;
    let plans = plans_of(alloc, network, plants)?;
    Ok(Outcome { plans, lanes })
}
