//! The library: a plan by threads for a text function. The network is run by a thread for each plant, and reported. A
//! network with a loop or past the bound is refused before anything is written.

ghost use Rattle.std.specs.Prelude.{◌≡◌, ◌<◌, IfOk, IfErr, length};
ghost use Rattle.mrp_loops.specs.Sized.{IsSized};
ghost use Rattle.mrp_net.specs.PlanLaws.{Fits};
ghost use Rattle.mrp_qty.specs.declared.limits.TheConstants.{MOST_TURNS};
ghost use Rattle.mrp_run.specs.Outcome.{IsOutcome};
ghost use Rattle.mrp_api.specs.Fault.{IsBeforeWriting, IsLate};
ghost use Rattle.mrp_api.specs.Gates.{GateExplains};
ghost use Rattle.mrp_api.specs.Reports.{IsPlanRows, WritesRows};
ghost use Rattle.mrp_api.specs.Refusals.{AskByThreads, RefusesTable};
ghost use Rattle.mrp_api.specs.Runs.{IsInNetwork, IsOfRun, IsRunFault, IsShutFor};
ghost use Rattle.mrp_api.specs.Text.{IsPlanReport, Writes};

use crate::fault::TextFault;
use crate::network::{levels_of, sized_of};
use mrp_loops::SizedNet;
use mrp_net::{Network, PlantNo};
use mrp_plan::Plan;
use mrp_report::{late_rows, plan_rows_by_threads};
use mrp_run::{Gate, JoinedLane, Outcome, RunFault, Settings, plan_network};
use std::alloc::{AllocError, Global};
use std::io::Write;
use std::sync::Wait;
use std::thread::Threads;

/// Writes the plan rows and the late rows of a network that is run by threads.
pub(crate) fn write_run<T: Threads + Wait + Sync, W: Write, G: Gate>(
    rt: &T,
    alloc: Global,
    network: &Network,
    writer: &mut W,
    settings: Settings,
    gate: &G,
) -> Result<(), TextFault>
    ensures text { Writes (W.contents writer.old) (W.contents writer.new) result (IsPlanReport network.now) }
    ensures rows { WritesRows W.contents writer.old writer.new result (IsPlanRows network.now) }
    ensures refusal { IfErr result (RefusesTable AskByThreads network.now) }
    ensures untouched { IfErr result (λ fault. IsBeforeWriting fault → writer.new ≡ writer.old) }
    ensures gate { GateExplains G.turn_open G.turn_shut G.worker_shut settings.workers MOST_TURNS
        (λ says. says network.now) result }
{
    let levels = levels_of(alloc, network)?;
    let net = sized_of(alloc, network, &levels)?;
    let outcome = run_plan(rt, alloc, &net, settings, gate)?;
    let plan = plan_of_outcome(&net, outcome);
    report_run(rt, alloc, &net, &plan, writer)
}

/// The outcome that the plants of a network come to, each in a thread of its own.
fn run_plan<T: Threads + Wait + Sync, G: Gate>(
    rt: &T,
    alloc: Global,
    net: &SizedNet<'_>,
    settings: Settings,
    gate: &G,
) -> Result<Outcome<JoinedLane>, TextFault>
    ensures outcome { IfOk result (λ o. IsOutcome net.now.network o) }
    ensures fault { IfErr result (IsRunFault net.now.network) }
    ensures gate { GateExplains G.turn_open G.turn_shut G.worker_shut settings.workers MOST_TURNS
        (λ says. says net.now.network) result }
{
    match plan_network(rt, alloc, net, settings, gate) {
        Ok(outcome) => Ok(outcome),
        Err(fault) => Err(named(alloc, net.network(), fault)?),
    }
}

/// The plan of an outcome.
fn plan_of_outcome(net: &SizedNet<'_>, outcome: Outcome<JoinedLane>) -> Plan
    requires plannable { IsSized net.now.network }
    requires outcome { IsOutcome net.now.network outcome }
    ensures fits { Fits net.now.network result }
{
    Plan::gather(net, outcome.plans)
}

/// Writes the plan rows, by threads, and the late rows of a plan.
fn report_run<T: Threads + Sync, W: Write>(
    rt: &T,
    alloc: Global,
    net: &SizedNet<'_>,
    plan: &Plan,
    writer: &mut W,
) -> Result<(), TextFault>
    requires plannable { IsSized net.now.network }
    requires fits { Fits net.now.network plan.now }
    ensures text { Writes (W.contents writer.old) (W.contents writer.new) result (IsPlanReport net.now.network) }
    ensures rows { WritesRows W.contents writer.old writer.new result (IsPlanRows net.now.network) }
    ensures fault { IfErr result IsLate }
{
    plan_rows_by_threads(rt, alloc, net, plan, writer)?;
    late_rows(alloc, net, plan, writer)?;
    Ok(())
}

/// The fault of a text that a fault of a run is; an error where memory for the name of a plant is refused.
fn named(alloc: Global, network: &Network, fault: RunFault) -> Result<TextFault, AllocError>
    requires plant { IsInNetwork network.now fault }
    ensures { IfOk result (IsOfRun network.now fault) }
{
    match fault {
        RunFault::Memory => Ok(TextFault::Memory),
        RunFault::ThreadRefused => Ok(TextFault::ThreadRefused),
        RunFault::GateShut(plant) => shut_for(alloc, network, plant),
        RunFault::Stopped => Ok(TextFault::Stopped),
    }
}

/// The fault of a gate that was shut for a plant; an error where memory for its name is refused.
fn shut_for(alloc: Global, network: &Network, plant: PlantNo) -> Result<TextFault, AllocError>
    requires plant { plant.0 < length network.now.plants }
    ensures { IfOk result (IsShutFor network.now plant) }
{
    let name = String::from_str(alloc, network.plant_name(plant))?;
    Ok(TextFault::GateShut(name))
}
