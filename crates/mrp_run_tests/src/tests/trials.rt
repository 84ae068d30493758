//! Tests of runs: what is tried on the network of a table, each by its name. A function holds one of the network, its
//! codes and the checked network.

ghost use Rattle.mrp_loops.specs.Codes.{AreCodes};

use super::endings::all_end;
use super::gates::{answers, answers_within};
use super::lanes::{LaneTrial, lanes_go};
use super::network_of;
use super::places::{Place, are_met};
use super::stops::are_stopped;
use crate::Ending;
use mrp_loops::{Levels, SizedNet, bound, check};
use mrp_net::Network;
use mrp_run::{Gate, RunFault};
use std::alloc::Global;
use std::sync::Wait;
use std::test::Fail;
use std::thread::Threads;

/// What is tried on a network.
#[derive(Clone, Copy)]
pub(super) enum Trial<'a> {
    /// Runs with each of the settings come to this ending.
    Ends(&'a Ending),
    /// A run with so many workers answers that fault under the gate, or is well where there is none.
    Answers(u64, Option<RunFault>),
    /// A run within so many turns of a plant answers that fault, or is well where there is none.
    AnswersWithin(u64, Option<RunFault>),
    /// Runs that are broken off at each number of the place answer as they have to, and none is whole below
    /// the least number.
    BreaksOff(&'a Ending, [(u64, u64); 2], Place, u64),
    /// Of so many plants one stops the run after so many turns of the others.
    Stops(usize, usize, u64),
    /// What is tried on the lanes alone.
    Lanes(LaneTrial),
}

/// Whether a trial goes as it says; the gate is for what a run answers under it.
fn holds<R: Threads + Wait + Sync, G: Gate>(
    rt: &R,
    alloc: Global,
    net: &SizedNet<'_>,
    trial: Trial<'_>,
    gate: &G,
) -> Result<bool, Fail> {
    match trial {
        Trial::Ends(ending) => all_end(rt, alloc, net, ending),
        Trial::Answers(workers, fault) => Ok(answers(rt, alloc, net, workers, gate, fault)),
        Trial::AnswersWithin(turns, fault) => Ok(answers_within(rt, alloc, net, turns, fault)),
        Trial::BreaksOff(ending, all, place, least) => {
            are_met(rt, alloc, net, ending, all, place, least)
        }
        Trial::Stops(plants, plant, turns) => {
            Ok(are_stopped(rt, alloc, net, plants, plant, turns))
        }
        Trial::Lanes(trial) => lanes_go(rt, alloc, net, trial),
    }
}

/// The same of a network with these low-level codes.
fn holds_at_levels<R: Threads + Wait + Sync, G: Gate>(
    rt: &R,
    alloc: Global,
    network: &Network,
    levels: &Levels,
    trial: Trial<'_>,
    gate: &G,
) -> Result<bool, Fail>
    requires { AreCodes network.now levels.now }
{
    let net = bound(alloc, network, levels)?;
    holds(rt, alloc, &net, trial, gate)
}

/// The same of a network.
fn holds_in_network<R: Threads + Wait + Sync, G: Gate>(
    rt: &R,
    alloc: Global,
    network: &Network,
    trial: Trial<'_>,
    gate: &G,
) -> Result<bool, Fail> {
    let levels = check(alloc, network)?;
    holds_at_levels(rt, alloc, network, &levels, trial, gate)
}

/// The same of the network of a table's text.
pub(super) fn holds_of<R: Threads + Wait + Sync, G: Gate>(
    rt: &R,
    alloc: Global,
    table: &str,
    trial: Trial<'_>,
    gate: &G,
) -> Result<bool, Fail> {
    let network = network_of(alloc, table)?;
    let is_so = holds_in_network(rt, alloc, &network, trial, gate);
    drop(network);
    is_so
}
