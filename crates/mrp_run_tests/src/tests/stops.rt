//! Tests of runs that one plant stops while the others are at work: these end too, the fault is that of the one, and
//! nobody looks at the gate after the call.
//!
//! The plant that stops a run is one without which no other is done: each of the ring, whose plants wait for
//! one another's calls, or the supplier, whose shipments both customers wait to hear of.

use super::trials::{Trial, holds_of};
use crate::{RING, TWO_CUSTOMERS};
use mrp_loops::SizedNet;
use mrp_run::{Gate, NoGate, PlantNo, RunFault, Settings, run_network};
use std::alloc::Global;
use std::sync::Wait;
use std::sync::atomic::{AtomicU64, Ordering};
use std::test::Fail;
use std::thread;
use std::thread::Threads;

/// How often a plant looks whether the others have begun their turns, and yields after each look.
const LOOKS: u64 = 10_000_000;

/// The supplier of two customers.
const SUPPLIER: usize = 0;

/// How often one yields to threads that may be left over.
const YIELDS: u64 = 1_000;

/// How many workers a plant has, and for how many records a mailbox has room.
const SETTINGS: [(u64, u64); 2] = [(1, 1), (2, 64)];

/// A gate that lets one plant wait at its first turn until each other one has begun so many, and is shut for
/// it then. It counts the turns of three plants, and how often it was looked at.
#[derive(Drop)]
struct Halt {
    plants: usize,
    plant: usize,
    turns: u64,
    begun: [AtomicU64; 3],
    looks: AtomicU64,
}

impl Halt {
    /// Nobody has begun; so many plants, at most three, are in the run.
    fn new(plants: usize, plant: usize, turns: u64) -> Halt {
        Halt {
            plants,
            plant,
            turns,
            begun: [AtomicU64::new(0), AtomicU64::new(0), AtomicU64::new(0)],
            looks: AtomicU64::new(0),
        }
    }

    /// Whether each other plant has begun so many turns.
    fn are_others_at_work(&self) -> bool {
        for plant in 0..3 {
            let is_other = plant < self.plants && plant != self.plant;
            if is_other && self.begun[plant].load(Ordering::SeqCst) < self.turns {
                return false;
            }
        }
        true
    }

    /// Waits for the others; the answer is whether they came to be at work.
    fn waits(&self) -> bool {
        for _ in 0..LOOKS {
            if self.are_others_at_work() {
                return true;
            }
            thread::yield_now();
        }
        false
    }

    /// Whether nobody looks at the gate any more.
    fn is_left_alone(&self) -> bool {
        let looks = self.looks.load(Ordering::SeqCst);
        for _ in 0..YIELDS {
            thread::yield_now();
        }
        self.looks.load(Ordering::SeqCst) == looks
    }
}

impl Gate for Halt {
    fn turn(&self, plant: usize, turn: u64) -> bool {
        self.looks.fetch_add(1, Ordering::SeqCst);
        if plant < 3 {
            self.begun[plant].store(turn, Ordering::SeqCst);
        }
        plant != self.plant || !self.waits()
    }

    fn worker(&self, _plant: usize, _worker: u64) -> bool {
        self.looks.fetch_add(1, Ordering::SeqCst);
        true
    }
}

/// Whether a run that one of so many plants stops answers that plant's fault, after the others were at work
/// for so many turns, and is over then.
fn is_stopped<R: Threads + Wait + Sync>(
    rt: &R,
    alloc: Global,
    net: &SizedNet,
    settings: Settings,
    halt: &Halt,
) -> bool {
    let fault = run_network(rt, alloc, net, settings, halt).err();
    fault == Some(RunFault::GateShut(PlantNo(halt.plant)))
        && halt.are_others_at_work()
        && halt.is_left_alone()
}

/// Whether that holds with so many workers and so much room.
fn is_stopped_with<R: Threads + Wait + Sync>(
    rt: &R,
    alloc: Global,
    net: &SizedNet,
    workers: u64,
    capacity: u64,
    plants: usize,
    plant: usize,
    turns: u64,
) -> bool {
    let Some(settings) = Settings::new(workers, capacity) else {
        return false;
    };
    let halt = Halt::new(plants, plant, turns);
    is_stopped(rt, alloc, net, settings, &halt)
}

/// Whether that holds with each of the settings.
pub(super) fn are_stopped<R: Threads + Wait + Sync>(
    rt: &R,
    alloc: Global,
    net: &SizedNet,
    plants: usize,
    plant: usize,
    turns: u64,
) -> bool {
    for (workers, capacity) in SETTINGS {
        if !is_stopped_with(rt, alloc, net, workers, capacity, plants, plant, turns) {
            return false;
        }
    }
    true
}

/// Whether that holds for the table of so many plants.
fn stops<R: Threads + Wait + Sync>(
    rt: &R,
    alloc: Global,
    table: &str,
    plants: usize,
    plant: usize,
    turns: u64,
) -> Result<bool, Fail> {
    holds_of(
        rt,
        alloc,
        table,
        Trial::Stops(plants, plant, turns),
        &NoGate,
    )
}

/// The others have begun their first turn, their second or their hundredth.
#[test]
fn plants_at_work_end_where_another_stops(rt: HostRuntime) -> Result<(), Fail> {
    for turns in [1, 2, 100] {
        for plant in [0, 1] {
            assert!(&rt; stops(&rt, rt.alloc(), RING, 2, plant, turns)?);
        }
        assert!(&rt; stops(&rt, rt.alloc(), TWO_CUSTOMERS, 3, SUPPLIER, turns)?);
    }
    Ok(())
}
