//! The run by threads: what the threads of the plants bring back, and which fault is answered.
ghost use Rattle.std.specs.Prelude.{◌≡◌, ◌≤◌, ◌⊎◌, ◌++◌, ◌∷◌, [], List, Ok, None, IfOk, IfErr, length, map};
ghost use Rattle.std.specs.Prelude.{option_to_list, vec_capacity};
ghost use Rattle.mrp_run.specs.declared.fault.RunFault.{RunFault};
ghost use Rattle.mrp_run.specs.Worst.{IsBefore, IsWorst, IsWorstOf};
ghost use Rattle.mrp_run.specs.Joined.{faults_in};

use crate::fault::RunFault;
use crate::plant::Plant;
use crate::stop::StopRule;
use mrp_agent::Gate;
use mrp_net::PlantNo;
use std::marker::PhantomData;
use std::snapshot::Snapshot;
use std::thread::Promise;

/// What a plant's thread brings back: the plant; or the fault that it met, or was told by another.
pub(crate) type Back = Result<Plant, RunFault>;

/// What a thread is started for: to finish the plant of this number, as it stands then, in some of its turns at
/// a gate of the kind `G`, or to bring back a fault by the rule.
pub(crate) struct Duty<G, S> {
    pub(crate) number: PlantNo,
    pub(crate) plant: Snapshot<Plant>,
    pub(crate) turns: u64,
    pub(crate) gate: PhantomData<G>,
    pub(crate) rule: PhantomData<S>,
}

impl<G, S> Drop for Duty<G, S> {
    fn drop(self) {
        let Duty {
            number: _,
            plant: _plant,
            turns: _,
            gate: _,
            rule: _,
        } = self;
    }
}

impl<G: Gate, S: StopRule> Promise<Back> for Duty<G, S> {
    ghost use Rattle.mrp_run.specs.Joined.{FulfilsDuty};

    ghost kept_by = { λ duty back. FulfilsDuty G.turn_open S.holds duty back };
}

/// The plants of all threads, where each brought one back and no fault was met before.
///
/// `plants` is the room that they are moved to.
///
/// # Errors
///
/// The worst of the faults: of that met before, if there is one, and those brought back.
pub(crate) fn all_of(
    backs: Vec<Back>,
    before: Option<RunFault>,
    mut plants: Vec<Plant>,
) -> Result<Vec<Plant>, RunFault>
    requires room { (plants.items ≡ []) × (length backs.items ≤ vec_capacity plants) }
    ensures none { IfOk result (λ _. before ≡ None) }
    ensures plants { IfOk result (λ all. backs.items ≡ map Ok all.items) }
    ensures fault { IfErr result (λ fault. IsWorst fault (option_to_list before ++ faults_in backs.items)) }
{
    let mut worst = before;
    for back in backs {
        match back {
            Ok(plant) => plants.push(plant).unwrap(),
            Err(fault) => worst = Some(with_fault(worst, fault)),
        }
    }
    match worst {
        None => Ok(plants),
        Some(fault) => Err(fault),
    }
}

/// The worst fault so far, with one more that was brought back.
fn with_fault(worst: Option<RunFault>, fault: RunFault) -> RunFault
    ensures { (faults : List RunFault) → IsWorstOf worst faults → IsWorst result (faults ++ fault ∷ []) }
{
    match worst {
        None => fault,
        Some(worst) => worse(worst, fault),
    }
}

/// The one of two faults that is answered.
fn worse(a: RunFault, b: RunFault) -> RunFault
    ensures one { (result ≡ a) ⊎ (result ≡ b) }
    ensures before { IsBefore result a × IsBefore result b }
{
    match a {
        RunFault::Memory => a,
        RunFault::ThreadRefused => match b {
            RunFault::Memory => b,
            _ => a,
        },
        RunFault::GateShut(plant) => match b {
            RunFault::Memory | RunFault::ThreadRefused => b,
            RunFault::GateShut(other) => { if other.0 < plant.0 { b } else { a } }
            RunFault::Stopped => a,
        },
        RunFault::Stopped => b,
    }
}
