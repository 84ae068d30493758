//! Tests of runs: what gates see of one, and the faults that are answered, a shut gate, and turns that are used up.
//!
//! Gates that wait for one another show that plants, and the workers of a plant, are at work at the same
//! time: on one thread the first would wait in vain.

use super::trials::{Trial, holds_of};
use crate::{BICYCLE, LONG_RING, NO_LANES, RING, TWO_CUSTOMERS, TWO_PLANTS};
use mrp_loops::SizedNet;
use mrp_run::{Gate, NoGate, PlantNo, RunFault, Settings, run_network, run_network_within};
use std::alloc::Global;
use std::sync::Wait;
use std::sync::atomic::{AtomicBool, AtomicU64, Ordering};
use std::test::Fail;
use std::thread;
use std::thread::Threads;

/// How often one looks for another that comes.
const LOOKS: u64 = 1_000_000;

/// The supplier of two customers, and the customers.
const SUPPLIER: usize = 0;

const CUSTOMERS: [usize; 2] = [1, 2];

/// Shut for one turn of one plant.
#[derive(Drop)]
struct ShutAtTurn {
    plant: usize,
    turn: u64,
}

impl Gate for ShutAtTurn {
    ghost worker_shut = { λ _ _. ⊥ };

    fn turn(&self, plant: usize, turn: u64) -> bool {
        plant != self.plant || turn != self.turn
    }

    fn worker(&self, _plant: usize, _worker: u64) -> bool {
        true
    }
}

/// Shut for one worker of one plant.
#[derive(Drop)]
struct ShutForWorker {
    plant: usize,
    worker: u64,
}

impl Gate for ShutForWorker {
    ghost turn_shut = { λ _ _. ⊥ };

    fn turn(&self, _plant: usize, _turn: u64) -> bool {
        true
    }

    fn worker(&self, plant: usize, worker: u64) -> bool {
        plant != self.plant || worker != self.worker
    }
}

/// Two that wait for each other.
#[derive(Drop)]
struct Meeting {
    first: AtomicBool,
    second: AtomicBool,
    looks: u64,
}

impl Meeting {
    /// Nobody has come yet; each looks so often.
    fn new(looks: u64) -> Meeting {
        Meeting {
            first: AtomicBool::new(false),
            second: AtomicBool::new(false),
            looks,
        }
    }

    /// The first comes, and waits for the second.
    fn first_meets(&self) -> bool {
        self.first.store(true, Ordering::SeqCst);
        self.comes(&self.second)
    }

    /// The second comes, and waits for the first.
    fn second_meets(&self) -> bool {
        self.second.store(true, Ordering::SeqCst);
        self.comes(&self.first)
    }

    /// Looks for the other, and yields after each look.
    fn comes(&self, other: &AtomicBool) -> bool {
        for _ in 0..self.looks {
            if other.load(Ordering::SeqCst) {
                return true;
            }
            thread::yield_now();
        }
        false
    }
}

/// Open to the first turns of plants 0 and 1 once both were asked for.
#[derive(Drop)]
struct PlantsMeet(Meeting);

impl Gate for PlantsMeet {
    fn turn(&self, plant: usize, turn: u64) -> bool {
        match (plant, turn) {
            (0, 1) => self.0.first_meets(),
            (1, 1) => self.0.second_meets(),
            _ => true,
        }
    }

    fn worker(&self, _plant: usize, _worker: u64) -> bool {
        true
    }
}

/// Open to workers 1 and 2 of plant 0 once both were asked for.
#[derive(Drop)]
struct WorkersMeet(Meeting);

impl Gate for WorkersMeet {
    fn turn(&self, _plant: usize, _turn: u64) -> bool {
        true
    }

    fn worker(&self, plant: usize, worker: u64) -> bool {
        match (plant, worker) {
            (0, 1) => self.0.first_meets(),
            (0, 2) => self.0.second_meets(),
            _ => true,
        }
    }
}

/// Knows which of three plants asked for a worker.
#[derive(Drop)]
struct Asked([AtomicBool; 3]);

impl Asked {
    /// Whether the plant asked for a worker.
    fn has_asked(&self, plant: usize) -> bool {
        plant < 3 && self.0[plant].load(Ordering::SeqCst)
    }
}

impl Gate for Asked {
    fn turn(&self, _plant: usize, _turn: u64) -> bool {
        true
    }

    fn worker(&self, plant: usize, _worker: u64) -> bool {
        if plant < 3 {
            self.0[plant].store(true, Ordering::SeqCst);
        }
        true
    }
}

/// Open to the next turn of each of three plants, once each, and to so many workers.
#[derive(Drop)]
struct InOrder {
    begun: [AtomicU64; 3],
    workers: u64,
}

impl InOrder {
    /// No plant has begun a turn; each has so many workers.
    fn new(workers: u64) -> InOrder {
        InOrder {
            begun: [AtomicU64::new(0), AtomicU64::new(0), AtomicU64::new(0)],
            workers,
        }
    }
}

impl Gate for InOrder {
    fn turn(&self, plant: usize, turn: u64) -> bool {
        plant < 3
            && self.begun[plant]
                .swap(turn, Ordering::SeqCst)
                .wrapping_add(1)
                == turn
    }

    fn worker(&self, _plant: usize, worker: u64) -> bool {
        1 <= worker && worker <= self.workers
    }
}

/// Whether a run with so many workers answers that fault under a gate, or is well where there is none.
pub(super) fn answers<R: Threads + Wait + Sync, G: Gate>(
    rt: &R,
    alloc: Global,
    net: &SizedNet,
    workers: u64,
    gate: &G,
    fault: Option<RunFault>,
) -> bool {
    let Some(settings) = Settings::new(workers, 1) else {
        return false;
    };
    run_network(rt, alloc, net, settings, gate).err() == fault
}

/// Whether a run answers that fault within so many turns of a plant, or is well where there is none.
pub(super) fn answers_within<R: Threads + Wait + Sync>(
    rt: &R,
    alloc: Global,
    net: &SizedNet,
    turns: u64,
    fault: Option<RunFault>,
) -> bool {
    let Some(settings) = Settings::new(1, 1) else {
        return false;
    };
    run_network_within(rt, alloc, net, settings, &NoGate, turns).err() == fault
}

/// Whether a run of the table with so many workers answers that fault under a gate.
fn is_answered<R: Threads + Wait + Sync, G: Gate>(
    rt: &R,
    alloc: Global,
    table: &str,
    workers: u64,
    gate: &G,
    fault: Option<RunFault>,
) -> Result<bool, Fail> {
    holds_of(rt, alloc, table, Trial::Answers(workers, fault), gate)
}

/// The same under a gate that is shut for one turn of one plant.
fn is_answered_at_turn<R: Threads + Wait + Sync>(
    rt: &R,
    alloc: Global,
    table: &str,
    plant: usize,
    turn: u64,
    fault: Option<RunFault>,
) -> Result<bool, Fail> {
    let gate = ShutAtTurn { plant, turn };
    is_answered(rt, alloc, table, 1, &gate, fault)
}

/// The same of two customers under a gate that is shut for one worker of one plant.
fn is_answered_for_worker<R: Threads + Wait + Sync>(
    rt: &R,
    alloc: Global,
    workers: u64,
    plant: usize,
    worker: u64,
    fault: Option<RunFault>,
) -> Result<bool, Fail> {
    let gate = ShutForWorker { plant, worker };
    is_answered(rt, alloc, TWO_CUSTOMERS, workers, &gate, fault)
}

/// Whether a run of the table is well under a gate where plants 0 and 1 meet.
fn plants_meet<R: Threads + Wait + Sync>(rt: &R, alloc: Global, table: &str) -> Result<bool, Fail> {
    let gate = PlantsMeet(Meeting::new(LOOKS));
    is_answered(rt, alloc, table, 1, &gate, None)
}

/// Whether a run of two customers with so many workers answers that fault under a gate where the first two
/// workers of the supplier look for each other so often.
fn is_answered_where_workers_meet<R: Threads + Wait + Sync>(
    rt: &R,
    alloc: Global,
    looks: u64,
    workers: u64,
    fault: Option<RunFault>,
) -> Result<bool, Fail> {
    let gate = WorkersMeet(Meeting::new(looks));
    is_answered(rt, alloc, TWO_CUSTOMERS, workers, &gate, fault)
}

/// Whether the supplier and both customers asked for a worker.
fn have_all_asked(gate: &Asked) -> bool {
    for customer in CUSTOMERS {
        if !gate.has_asked(customer) {
            return false;
        }
    }
    gate.has_asked(SUPPLIER)
}

/// Whether they did in a run with two workers, which is well.
fn all_ask<R: Threads + Wait + Sync>(rt: &R, alloc: Global) -> Result<bool, Fail> {
    let gate = Asked([
        AtomicBool::new(false),
        AtomicBool::new(false),
        AtomicBool::new(false),
    ]);
    let is_well = is_answered(rt, alloc, TWO_CUSTOMERS, 2, &gate, None)?;
    Ok(is_well && have_all_asked(&gate))
}

/// The fault of a gate that is shut to that plant.
const fn shut(plant: usize) -> Option<RunFault> {
    Some(RunFault::GateShut(PlantNo(plant)))
}

/// Whether a run of the table answers that fault within so many turns of a plant.
fn is_answered_within<R: Threads + Wait + Sync>(
    rt: &R,
    alloc: Global,
    table: &str,
    turns: u64,
    fault: Option<RunFault>,
) -> Result<bool, Fail> {
    let trial = Trial::AnswersWithin(turns, fault);
    holds_of(rt, alloc, table, trial, &NoGate)
}

/// Whether a run of two customers with so many workers asks for each turn once, in order, and for no other
/// workers.
fn is_asked_in_order<R: Threads + Wait + Sync>(
    rt: &R,
    alloc: Global,
    workers: u64,
) -> Result<bool, Fail> {
    let gate = InOrder::new(workers);
    is_answered(rt, alloc, TWO_CUSTOMERS, workers, &gate, None)
}

/// A table, the plant and the turn for which a gate is shut, and what is answered.
const SHUT_TURNS: [(&str, usize, u64, Option<RunFault>); 5] = [
    (TWO_PLANTS, 0, 1, Some(RunFault::GateShut(PlantNo(0)))),
    (TWO_PLANTS, 1, 1, Some(RunFault::GateShut(PlantNo(1)))),
    (LONG_RING, 0, 3, Some(RunFault::GateShut(PlantNo(0)))),
    (LONG_RING, 1, 3, Some(RunFault::GateShut(PlantNo(1)))),
    // (a plant that isn't there)
    (TWO_PLANTS, 2, 1, None),
];

#[test]
fn a_gate_shut_at_a_turn_names_its_plant(rt: HostRuntime) -> Result<(), Fail> {
    for (table, plant, turn, fault) in SHUT_TURNS {
        assert!(&rt; is_answered_at_turn(&rt, rt.alloc(), table, plant, turn, fault)?);
    }
    Ok(())
}

/// How many workers a plant has, the plant and the worker for which a gate is shut, and what is answered: a
/// second worker is asked for where there are two.
const SHUT_WORKERS: [(u64, usize, u64, Option<RunFault>); 5] = [
    (2, 0, 1, Some(RunFault::GateShut(PlantNo(0)))),
    (2, 1, 1, Some(RunFault::GateShut(PlantNo(1)))),
    (2, 2, 1, Some(RunFault::GateShut(PlantNo(2)))),
    (2, SUPPLIER, 2, Some(RunFault::GateShut(PlantNo(SUPPLIER)))),
    (1, SUPPLIER, 2, None),
];

#[test]
fn a_gate_shut_for_a_worker_names_its_plant(rt: HostRuntime) -> Result<(), Fail> {
    for (workers, plant, worker, fault) in SHUT_WORKERS {
        assert!(&rt; is_answered_for_worker(&rt, rt.alloc(), workers, plant, worker, fault)?);
    }
    Ok(())
}

#[test]
fn too_few_turns_stop_a_run(rt: HostRuntime) -> Result<(), Fail> {
    for turns in [0, 1, 2] {
        let stopped = Some(RunFault::Stopped);
        let stops = is_answered_within(&rt, rt.alloc(), LONG_RING, turns, stopped)?;
        assert!(&rt; stops, "within {turns}");
    }
    assert!(&rt; is_answered_within(&rt, rt.alloc(), LONG_RING, 1 << 62, None)?);
    Ok(())
}

/// Plants without lanes are done in their first turn.
#[test]
fn plants_may_be_done_in_their_last_turn(rt: HostRuntime) -> Result<(), Fail> {
    for table in [BICYCLE, NO_LANES] {
        let stopped = Some(RunFault::Stopped);
        assert!(&rt; is_answered_within(&rt, rt.alloc(), table, 0, stopped)?);
        assert!(&rt; is_answered_within(&rt, rt.alloc(), table, 1, None)?);
    }
    Ok(())
}

#[test]
fn each_turn_is_asked_for_once_and_in_order(rt: HostRuntime) -> Result<(), Fail> {
    for workers in [1, 2] {
        assert!(&rt;
            is_asked_in_order(&rt, rt.alloc(), workers)?,
            "{workers} workers"
        );
    }
    Ok(())
}

#[test]
fn plants_run_side_by_side(rt: HostRuntime) -> Result<(), Fail> {
    for table in [TWO_PLANTS, RING] {
        assert!(&rt; plants_meet(&rt, rt.alloc(), table)?);
    }
    Ok(())
}

#[test]
fn a_wave_is_on_two_threads(rt: HostRuntime) -> Result<(), Fail> {
    assert!(&rt; is_answered_where_workers_meet(&rt, rt.alloc(), LOOKS, 2, None)?);
    Ok(())
}

#[test]
fn a_worker_alone_waits_in_vain_for_another(rt: HostRuntime) -> Result<(), Fail> {
    let fault = shut(SUPPLIER);
    assert!(&rt; is_answered_where_workers_meet(&rt, rt.alloc(), 1_000, 1, fault)?);
    Ok(())
}

#[test]
fn each_plant_asks_for_workers(rt: HostRuntime) -> Result<(), Fail> {
    assert!(&rt; all_ask(&rt, rt.alloc())?);
    Ok(())
}
