//! The run by threads: its threads, one for each plant, and how they are started and joined.
ghost use Rattle.std.specs.Prelude.{◌≡◌, ◌≤◌, ◌++◌, [], List, All, IfErr, IfOk, IfSome, OnOk, length, slice_index_or};
ghost use Rattle.std.specs.Prelude.{vec_capacity};
ghost use Rattle.std.specs.List.{AllZip};
ghost use Rattle.mrp_qty.specs.declared.limits.TheConstants.{MOST_WORKERS};
ghost use Rattle.mrp_run.specs.declared.fault.RunFault.{RunFault};
ghost use Rattle.mrp_run.specs.declared.plant.Plant.{Plant};
ghost use Rattle.mrp_run.specs.Ends.{EachAt};
ghost use Rattle.mrp_run.specs.Faults.{AllTurned, AllowsOf, HasTurned, WasShut, WasSpent};
ghost use Rattle.mrp_run.specs.Joined.{AreNumberedThreads, AreRooms, Finished, HasKept, started_plants};
ghost use Rattle.mrp_run.specs.Steps.{Finishes, PlantIsAtWork};
ghost use Rattle.mrp_run.specs.Worst.{AllowsOfFirst};

use crate::bells::Bells;
use crate::fault::RunFault;
use crate::plant::Plant;
use crate::results::{Back, Duty, all_of};
use crate::running::run_owned;
use crate::stop::{Stop, StopRule};
use mrp_agent::Gate;
use mrp_crew::Crew;
use mrp_net::PlantNo;
use mrp_qty::{Horizon, Memory};
use std::alloc::Global;
use std::marker::PhantomData;
use std::snapshot::Snapshot;
use std::sync::Wait;
use std::thread;
use std::thread::{PromisedHandle, Scope, Threads};

/// The thread of a plant.
pub(crate) type Running<G, S> = PromisedHandle<Back, Duty<G, S>>;

/// Room for what the threads of all plants bring back, and for the plants again.
#[derive(Drop)]
pub(crate) struct Rooms {
    pub(crate) backs: Vec<Back>,
    pub(crate) plants: Vec<Plant>,
}

/// Runs each plant in a thread of its own, and joins them all.
///
/// # Errors
///
/// The lowest fault met, and of shut gates that of the lowest plant. All threads that were started are
/// joined before.
pub(crate) fn run_plants<R: Threads + Wait + Sync, G: Gate, S: StopRule + Send + Sync>(
    rt: &R,
    alloc: Global,
    plants: Vec<Plant>,
    workers: u64,
    capacity: u64,
    gate: &G,
    turns: u64,
) -> Result<Vec<Plant>, RunFault>
    requires work { All PlantIsAtWork plants.items }
    requires workers { (1 ≤ workers) × (workers ≤ MOST_WORKERS) }
    requires rule { AllowsOfFirst S.holds (WasShut G.turn_open G.turn_shut G.worker_shut workers turns)
        (WasSpent G.turn_open turns) (length plants.items) }
    ensures all { IfOk result (λ after. length after.items ≡ length plants.items) }
    ensures each { IfOk result (λ after. EachAt (λ p P. Finishes (slice_index_or plants.items p P) P) after.items) }
    ensures turned { OnOk result (AllTurned G.turn_open turns (length plants.items)) }
    ensures fault { IfErr result S.holds }
{
    let stop = Stop::<S>::with_bells(Bells::new(alloc, plants.as_slice(), capacity)?);
    run_until(rt, alloc, plants, workers, gate, &stop, turns)
}

/// Runs each plant in a thread of its own, where they share `stop`, and joins them all.
fn run_until<R: Threads + Wait + Sync, G: Gate, S: StopRule + Send + Sync>(
    rt: &R,
    alloc: Global,
    plants: Vec<Plant>,
    workers: u64,
    gate: &G,
    stop: &Stop<S>,
    turns: u64,
) -> Result<Vec<Plant>, RunFault>
    requires work { All PlantIsAtWork plants.items }
    requires workers { (1 ≤ workers) × (workers ≤ MOST_WORKERS) }
    requires rule { AllowsOfFirst S.holds (WasShut G.turn_open G.turn_shut G.worker_shut workers turns)
        (WasSpent G.turn_open turns) (length plants.items) }
    ensures each { IfOk result (λ after. AllZip Finishes plants.items after.items) }
    ensures turned { OnOk result (AllTurned G.turn_open turns (length plants.items)) }
    ensures fault { IfErr result S.holds }
{
    thread::scope(
        thread::scope_env(),
        rt,
        move |scope| -> Result<Vec<Plant>, RunFault>
            requires work { All PlantIsAtWork plants.items }
            requires workers { (1 ≤ workers) × (workers ≤ MOST_WORKERS) }
            requires rule { AllowsOfFirst S.holds (WasShut G.turn_open G.turn_shut G.worker_shut workers turns)
                (WasSpent G.turn_open turns)
                (length plants.items) }
            ensures each { IfOk result (λ after. AllZip Finishes plants.items after.items) }
            ensures turned { OnOk result (AllTurned G.turn_open turns (length plants.items)) }
            ensures fault { IfErr result S.holds }
        { run_beside(scope, rt, alloc, plants, workers, gate, stop, turns) },
    )
}

/// Room for the threads of so many plants.
fn new_threads<G: Gate, S: StopRule>(
    alloc: Global,
    plants: usize,
) -> Result<Vec<Running<G, S>>, Memory>
    ensures { IfOk result (λ threads. (threads.items ≡ []) × (plants ≤ vec_capacity threads)) }
{
    Ok(Vec::with_capacity(alloc, plants)?)
}

/// Room for so many plants.
fn new_rooms(alloc: Global, plants: usize) -> Result<Rooms, Memory>
    ensures { IfOk result (AreRooms plants) }
{
    Ok(Rooms {
        backs: Vec::with_capacity(alloc, plants)?,
        plants: Vec::with_capacity(alloc, plants)?,
    })
}

/// Starts a thread for each plant within a scope, and joins them all.
fn run_beside<'s, E, R: Threads + Wait + Sync, G: Gate, S: StopRule + Send + Sync>(
    scope: &Scope<'s, E>,
    rt: &'s R,
    alloc: Global,
    plants: Vec<Plant>,
    workers: u64,
    gate: &'s G,
    stop: &'s Stop<S>,
    turns: u64,
) -> Result<Vec<Plant>, RunFault>
    requires work { All PlantIsAtWork plants.items }
    requires workers { (1 ≤ workers) × (workers ≤ MOST_WORKERS) }
    requires rule { AllowsOfFirst S.holds (WasShut G.turn_open G.turn_shut G.worker_shut workers turns)
        (WasSpent G.turn_open turns) (length plants.items) }
    ensures each { IfOk result (λ after. AllZip Finishes plants.items after.items) }
    ensures turned { OnOk result (AllTurned G.turn_open turns (length plants.items)) }
    ensures fault { IfErr result S.holds }
{
    let mut threads = new_threads(alloc, plants.len())?;
    let rooms = new_rooms(alloc, plants.len())?;
    let Rooms {
        mut backs,
        plants: all,
    } = rooms;
    let refused = start_all(
        scope,
        rt,
        alloc,
        plants,
        workers,
        gate,
        stop,
        turns,
        &mut threads,
    );
    join_all(rt, threads, &mut backs);
    all_of(backs, refused.err(), all)
}

/// Starts a thread for each plant.
///
/// # Errors
///
/// [`RunFault::ThreadRefused`] where one could not be started; no further ones are started then, and it is
/// told to the others.
fn start_all<'s, E, R: Threads + Wait + Sync, G: Gate, S: StopRule + Send + Sync>(
    scope: &Scope<'s, E>,
    rt: &'s R,
    alloc: Global,
    plants: Vec<Plant>,
    workers: u64,
    gate: &'s G,
    stop: &'s Stop<S>,
    turns: u64,
    threads: &mut Vec<Running<G, S>>,
) -> Result<(), RunFault>
    requires work { All PlantIsAtWork plants.items }
    requires workers { (1 ≤ workers) × (workers ≤ MOST_WORKERS) }
    requires rule { AllowsOfFirst S.holds (WasShut G.turn_open G.turn_shut G.worker_shut workers turns)
        (WasSpent G.turn_open turns) (length plants.items) }
    requires room { (threads.old.items ≡ []) × (length plants.items ≤ vec_capacity threads.old) }
    ensures started { (rest : List Plant) × (plants.items ≡ started_plants threads.new.items ++ rest)
        × OnOk result (rest ≡ []) }
    ensures numbered { AreNumberedThreads turns threads.new.items }
    ensures refused { IfErr result (λ fault. fault ≡ RunFault.ThreadRefused) }
{
    for plant in plants {
        let number = PlantNo(threads.len());
        let Some(thread) = start(scope, rt, alloc, number, plant, workers, gate, stop, turns) else {
            stop.tell(RunFault::ThreadRefused);
            return Err(RunFault::ThreadRefused);
        };
        threads.push(thread).unwrap();
    }
    Ok(())
}

/// Starts a thread for a plant; `None` where it could not be started, and the plant is gone then.
fn start<'s, E, R: Threads + Wait + Sync, G: Gate, S: StopRule + Send + Sync>(
    scope: &Scope<'s, E>,
    rt: &'s R,
    alloc: Global,
    number: PlantNo,
    plant: Plant,
    workers: u64,
    gate: &'s G,
    stop: &'s Stop<S>,
    turns: u64,
) -> Option<Running<G, S>>
    requires work { PlantIsAtWork plant }
    requires workers { (1 ≤ workers) × (workers ≤ MOST_WORKERS) }
    requires rule { AllowsOf S.holds (WasShut G.turn_open G.turn_shut G.worker_shut workers turns)
        (WasSpent G.turn_open turns) number }
    ensures plant { IfSome result (λ thread. thread.promise.plant.value ≡ plant) }
    ensures number { IfSome result (λ thread. thread.promise.number ≡ number) }
    ensures turns { IfSome result (λ thread. thread.promise.turns ≡ turns) }
{
    let duty = Duty {
        number,
        plant: Snapshot::of(&plant),
        turns,
        gate: PhantomData,
        rule: PhantomData,
    };
    let started = scope.spawn_with(
        duty,
        move || -> Back
            requires work { PlantIsAtWork plant }
            requires workers { (1 ≤ workers) × (workers ≤ MOST_WORKERS) }
            requires rule { AllowsOf S.holds (WasShut G.turn_open G.turn_shut G.worker_shut workers turns)
                (WasSpent G.turn_open turns) number }
        { run_alone(rt, alloc, number, plant, workers, gate, stop, turns) },
    );
    started.ok()
}

/// Runs a plant with a crew of its own.
fn run_alone<R: Threads + Wait + Sync, G: Gate, S: StopRule>(
    rt: &R,
    alloc: Global,
    number: PlantNo,
    plant: Plant,
    workers: u64,
    gate: &G,
    stop: &Stop<S>,
    turns: u64,
) -> Back
    requires work { PlantIsAtWork plant }
    requires workers { (1 ≤ workers) × (workers ≤ MOST_WORKERS) }
    requires rule { AllowsOf S.holds (WasShut G.turn_open G.turn_shut G.worker_shut workers turns)
        (WasSpent G.turn_open turns) number }
    ensures plant { Finished plant result }
    ensures turned { OnOk result (HasTurned G.turn_open turns number.0) }
    ensures fault { IfErr result S.holds }
{
    let horizon = plant.agent.view().horizon();
    match crew_for(alloc, workers, horizon, stop) {
        Ok(mut crew) => run_owned(rt, alloc, number, plant, &mut crew, gate, stop, turns),
        Err(fault) => {
            drop(plant);
            Err(fault)
        }
    }
}

/// A crew of so many workers; where there is no memory for one, that is told to the others.
fn crew_for<S: StopRule>(
    alloc: Global,
    workers: u64,
    horizon: Horizon,
    stop: &Stop<S>,
) -> Result<Crew, RunFault>
    requires workers { (1 ≤ workers) × (workers ≤ MOST_WORKERS) }
    requires rule { S.holds RunFault.Memory }
    ensures workers { IfOk result (λ crew. crew.workers ≡ workers) }
    ensures horizon { IfOk result (λ crew. crew.horizon ≡ horizon) }
    ensures fault { IfErr result (λ fault. fault ≡ RunFault.Memory) }
{
    let Ok(crew) = Crew::new(alloc, workers, horizon) else {
        stop.tell(RunFault::Memory);
        return Err(RunFault::Memory);
    };
    Ok(crew)
}

/// Joins all threads, in the order in which they were started.
fn join_all<R: Threads, G: Gate, S: StopRule>(
    rt: &R,
    threads: Vec<Running<G, S>>,
    backs: &mut Vec<Back>,
)
    requires empty { backs.old.items ≡ [] }
    requires room { length threads.items ≤ vec_capacity backs.old }
    ensures kept { AllZip (HasKept G.turn_open S.holds) threads.items backs.new.items }
{
    for thread in threads {
        backs.push(thread.join(rt)).unwrap();
    }
}
