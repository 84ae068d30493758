//! The run by threads: the thread of one plant, turn by turn.
ghost use Rattle.std.specs.Prelude.{◌≡◌, ◌≤◌, Err, IfErr, IfOk, OnOk};
ghost use Rattle.mrp_crew.specs.declared.fault.CrewFault.{CrewFault};
ghost use Rattle.mrp_run.specs.Faults as faults;
ghost use Rattle.mrp_crew.specs.Shut.{WasShutToWorker as WasWorkerShut};
ghost use Rattle.mrp_run.specs.Faults.{AllowsOf, HasTurned, IsOf, IsToldOrOf, WasShut, WasSpent, never_spent};
ghost use Rattle.mrp_run.specs.Plant as at;
ghost use Rattle.mrp_run.specs.Steps.{PlantIsAtWork, IsUnfinished, KeepsPlant, Finishes};
ghost use Rattle.mrp_run.specs.declared.fault.RunFault.{RunFault};

use crate::fault::RunFault;
use crate::moving::{Lanes, Looks, move_records};
use crate::plant::Plant;
use crate::stop::{Stop, StopRule};
use mrp_agent::{Agent, Gate};
use mrp_crew::{Crew, CrewFault};
use mrp_lane::{SendEnd, TakeEnd};
use mrp_net::PlantNo;
use std::alloc::Global;
use std::sync::Wait;
use std::thread::Threads;

/// Runs one plant until it is done.
///
/// The ends are those of the plant's lanes in one sized network, in lane order; the agent sees what the plant
/// sees there, and what it has sent and taken went through these ends. The crew has the plant's workers, and
/// plans for as many periods. The plant isn't given the network.
///
/// A turn asks the gate, books what lies in the lanes that come in, plans what is ready and offers what the
/// plant has to send, as far as there is room. Turns count from 1. Before each turn the plant looks whether
/// another told a fault to `stop`; a fault that it meets it tells there.
///
/// # Errors
///
/// The fault that the plant met, or the one that another told. The agent and the ends are gone then.
///
/// - [`RunFault::Memory`] where a growth is refused;
/// - [`RunFault::ThreadRefused`] where no thread could be made for a worker;
/// - [`RunFault::GateShut`] where the gate was shut for this plant or for one of its workers;
/// - [`RunFault::Stopped`] where the plant isn't done after so many turns.
pub fn run_plant<R: Threads + Wait + Sync, G: Gate, S: StopRule>(
    rt: &R,
    alloc: Global,
    plant: PlantNo,
    agent: Agent,
    sends: Vec<SendEnd>,
    takes: Vec<TakeEnd>,
    crew: &mut Crew,
    gate: &G,
    stop: &Stop<S>,
    turns: u64,
) -> Result<(Agent, Vec<SendEnd>, Vec<TakeEnd>), RunFault>
    requires work { at.IsAtWork agent sends.items takes.items }
    requires horizon { crew.old.horizon ≡ agent.view.horizon }
    requires rule { AllowsOf S.holds (WasShut G.turn_open G.turn_shut G.worker_shut crew.old.workers turns)
        (WasSpent G.turn_open turns) plant }
    ensures crew { crew.new ≡ crew.old }
    ensures kept { IfOk result (λ r. at.Kept agent sends.items takes.items r.0 r.1.items r.2.items) }
    ensures finished { IfOk result (λ r. at.HasFinished agent sends.items takes.items r.0 r.1.items r.2.items) }
    ensures turned { OnOk result (HasTurned G.turn_open turns plant.0) }
    ensures fault { IfErr result S.holds }
{
    let whole = Plant {
        agent,
        sends,
        takes,
    };
    let Plant {
        agent,
        sends,
        takes,
    } = run_owned(rt, alloc, plant, whole, crew, gate, stop, turns)?;
    Ok((agent, sends, takes))
}

/// Runs one plant, whose agent and ends are in one piece, and gives it back so.
pub(crate) fn run_owned<R: Threads + Wait + Sync, G: Gate, S: StopRule>(
    rt: &R,
    alloc: Global,
    number: PlantNo,
    plant: Plant,
    crew: &mut Crew,
    gate: &G,
    stop: &Stop<S>,
    turns: u64,
) -> Result<Plant, RunFault>
    requires work { PlantIsAtWork plant }
    requires horizon { crew.old.horizon ≡ plant.agent.view.horizon }
    requires rule { AllowsOf S.holds (WasShut G.turn_open G.turn_shut G.worker_shut crew.old.workers turns)
        (WasSpent G.turn_open turns) number }
    ensures crew { crew.new ≡ crew.old }
    ensures finishes { IfOk result (λ after. Finishes plant after) }
    ensures turned { OnOk result (HasTurned G.turn_open turns number.0) }
    ensures fault { IfErr result S.holds }
{
    let mut owned = plant;
    if let Err(fault) = work(rt, alloc, number, &mut owned, crew, gate, stop, turns) {
        stop.tell(fault);
        drop(owned);
        return Err(fault);
    }
    Ok(owned)
}

/// Turn by turn, until the plant is done.
fn work<R: Threads + Wait + Sync, G: Gate, S: StopRule>(
    rt: &R,
    alloc: Global,
    number: PlantNo,
    plant: &mut Plant,
    crew: &mut Crew,
    gate: &G,
    stop: &Stop<S>,
    turns: u64,
) -> Result<(), RunFault>
    requires work { PlantIsAtWork plant.old }
    requires horizon { crew.old.horizon ≡ plant.old.agent.view.horizon }
    ensures crew { crew.new ≡ crew.old }
    ensures finishes { OnOk result (Finishes plant.old plant.new) }
    ensures turned { OnOk result (HasTurned G.turn_open turns number.0) }
    ensures fault { IfErr result (IsToldOrOf S.holds
        (WasShut G.turn_open G.turn_shut G.worker_shut crew.old.workers turns)
        (WasSpent G.turn_open turns) number) }
    ensures unfinished { result ≡ Err RunFault.Stopped → IsUnfinished plant.old plant.new }
{
    for turn in 0..turns {
        begin(number, turn + 1, gate, stop)?;
        let moved = take_turn(
            rt,
            alloc,
            number,
            plant,
            crew,
            gate,
            stop,
            Looks::in_turn(turn),
        )?;
        if plant.agent.done() {
            return Ok(());
        }
        if !moved {
            stop.rest(rt, number);
        }
    }
    Err(RunFault::Stopped)
}

/// Whether a turn may begin: nobody has told a fault, and the gate is open.
fn begin<G: Gate, S: StopRule>(
    number: PlantNo,
    turn: u64,
    gate: &G,
    stop: &Stop<S>,
) -> Result<(), RunFault>
    requires turn { 1 ≤ turn }
    ensures opened { OnOk result (G.turn_open number.0 turn) }
    ensures fault { IfErr result (IsToldOrOf S.holds (λ plant. G.turn_shut plant turn) never_spent number) }
{
    if let Some(fault) = stop.fault() {
        Err(fault)
    } else if gate.turn(number.0, turn) {
        Ok(())
    } else {
        Err(RunFault::GateShut(number))
    }
}

/// One turn: books, then plans, then offers. Answers whether anything was booked, planned or sent. Where anything was
/// booked or planned, each lane that goes out may have a record to send.
fn take_turn<R: Threads + Wait + Sync, G: Gate, S: StopRule>(
    rt: &R,
    alloc: Global,
    number: PlantNo,
    plant: &mut Plant,
    crew: &mut Crew,
    gate: &G,
    stop: &Stop<S>,
    looks: Looks,
) -> Result<bool, RunFault>
    requires work { PlantIsAtWork plant.old }
    requires horizon { crew.old.horizon ≡ plant.old.agent.view.horizon }
    ensures crew { crew.new ≡ crew.old }
    ensures kept { KeepsPlant plant.old plant.new }
    ensures fault { IfErr result (IsOf (WasWorkerShut G.worker_shut crew.old.workers) never_spent number) }
    ensures by_crew { IfErr result (λ fault. (why : CrewFault) × (fault ≡ faults.of_crew number why)) }
{
    let booked = move_records(rt, plant, Lanes::Incoming, looks, stop);
    let planned = match crew.plan_ready(rt, alloc, &mut plant.agent, number.0, gate) {
        Ok(count) => count > 0,
        Err(fault) => return Err(of_crew(fault, number)),
    };
    let after = looks.after(booked | planned);
    let sent = move_records(rt, plant, Lanes::Outgoing, after, stop);
    Ok(booked | planned | sent)
}

/// The fault of a plant's crew, as the run answers it.
fn of_crew(fault: CrewFault, number: PlantNo) -> RunFault
    ensures { result ≡ faults.of_crew number fault }
{
    match fault {
        CrewFault::Memory => RunFault::Memory,
        CrewFault::ThreadRefused => RunFault::ThreadRefused,
        CrewFault::GateShut => RunFault::GateShut(number),
    }
}
