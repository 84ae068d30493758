//! Tests of the library: gates of plans by threads, for which plants and workers they are asked, and what
//! is answered where they are shut.

use super::is_report;
use super::outcomes::outcome;
use super::reports::TWO_PLANTS_PLAN;
use mrp_api::{Gate, Settings, plan_text};
use mrp_run_tests::TWO_PLANTS;
use std::alloc::{AllocError, Global};
use std::process::Abort;
use std::sync::Wait;
use std::sync::atomic::{AtomicBool, AtomicU64, Ordering};
use std::test::Fail;
use std::thread;
use std::thread::Threads;

/// With how many workers and records a mailbox gates are asked here.
const SETTINGS: [(u64, u64); 6] = [(1, 1), (1, 65_536), (2, 1), (3, 64), (64, 1), (64, 65_536)];

/// How long a gate looks for the other plant, in looks.
const LOOKS: u64 = 1_000_000;

/// Shut for the turns of the plant with this number.
#[derive(Drop)]
struct ShutFor {
    plant: usize,
}

impl Gate for ShutFor {
    fn turn(&self, plant: usize, _turn: u64) -> bool {
        plant != self.plant
    }

    fn worker(&self, _plant: usize, _worker: u64) -> bool {
        true
    }
}

/// Shut for the workers of the plant with this number.
#[derive(Drop)]
struct NoWorkersFor {
    plant: usize,
}

impl Gate for NoWorkersFor {
    fn turn(&self, _plant: usize, _turn: u64) -> bool {
        true
    }

    fn worker(&self, plant: usize, _worker: u64) -> bool {
        plant != self.plant
    }
}

/// Open to the first turn of each of two plants once the other's was asked.
#[derive(Drop)]
struct Together {
    asked: [AtomicBool; 2],
}

impl Gate for Together {
    fn turn(&self, plant: usize, turn: u64) -> bool {
        if turn != 1 || plant >= 2 {
            return true;
        }
        self.asked[plant].store(true, Ordering::SeqCst);
        for _ in 0..LOOKS {
            if self.asked[1 - plant].load(Ordering::SeqCst) {
                return true;
            }
            thread::yield_now();
        }
        false
    }

    fn worker(&self, _plant: usize, _worker: u64) -> bool {
        true
    }
}

/// Open to the next turn of each of two plants, once each.
#[derive(Drop)]
struct OneByOne {
    begun: [AtomicU64; 2],
}

impl Gate for OneByOne {
    fn turn(&self, plant: usize, turn: u64) -> bool {
        plant < 2
            && self.begun[plant]
                .swap(turn, Ordering::SeqCst)
                .wrapping_add(1)
                == turn
    }

    fn worker(&self, _plant: usize, _worker: u64) -> bool {
        true
    }
}

/// What `mrp plan` writes for the table, or its fault.
fn threaded<T: Threads + Wait + Sync, G: Gate>(
    rt: &T,
    alloc: Global,
    table: &str,
    settings: Settings,
    gate: &G,
) -> Result<String, AllocError> {
    let mut written = Vec::new(alloc);
    let answer = plan_text(rt, alloc, table.as_bytes(), &mut written, settings, gate);
    outcome(alloc, written.as_slice(), &answer)
}

/// What is written of two plants with these settings under a gate.
fn gated<T: Threads + Wait + Sync, G: Gate>(
    rt: &T,
    alloc: Global,
    (workers, capacity): (u64, u64),
    gate: &G,
) -> Result<String, Fail> {
    let Some(settings) = Settings::new(workers, capacity) else {
        return Ok(String::new(alloc));
    };
    Ok(threaded(rt, alloc, TWO_PLANTS, settings, gate)?)
}

/// Two gates that are each shut for one of two plants are named with that plant.
fn name_their_plants<T: Threads + Wait + Sync + Abort, G: Gate>(
    rt: &T,
    alloc: Global,
    first: &G,
    second: &G,
) -> Result<(), Fail> {
    for settings in SETTINGS {
        let written = gated(rt, alloc, settings, first)?;
        is_report(rt, written, "3 mrp: GateShut A\n");
        let written = gated(rt, alloc, settings, second)?;
        is_report(rt, written, "3 mrp: GateShut B\n");
    }
    Ok(())
}

#[test]
fn a_shut_gate_is_named(rt: HostRuntime) -> Result<(), Fail> {
    let (first, second) = (ShutFor { plant: 0 }, ShutFor { plant: 1 });
    name_their_plants(&rt, rt.alloc(), &first, &second)
}

#[test]
fn workers_are_asked_for(rt: HostRuntime) -> Result<(), Fail> {
    let (first, second) = (NoWorkersFor { plant: 0 }, NoWorkersFor { plant: 1 });
    name_their_plants(&rt, rt.alloc(), &first, &second)
}

#[test]
fn plants_take_their_turns_together(rt: HostRuntime) -> Result<(), Fail> {
    for settings in SETTINGS {
        let together = Together {
            asked: [AtomicBool::new(false), AtomicBool::new(false)],
        };
        let written = gated(&rt, rt.alloc(), settings, &together)?;
        is_report(&rt, written, TWO_PLANTS_PLAN);
    }
    Ok(())
}

#[test]
fn each_turn_is_asked_for_once(rt: HostRuntime) -> Result<(), Fail> {
    for settings in SETTINGS {
        let one_by_one = OneByOne {
            begun: [AtomicU64::new(0), AtomicU64::new(0)],
        };
        let written = gated(&rt, rt.alloc(), settings, &one_by_one)?;
        is_report(&rt, written, TWO_PLANTS_PLAN);
    }
    Ok(())
}

/// The table of 64 plants that each buy an item.
fn of_64_plants(alloc: Global) -> Result<String, AllocError> {
    let mut plants = String::from_str(alloc, "run,2026-01-05,7,1,,,,\n")?;
    let mut pairs = String::new(alloc);
    for plant in 0..64u64 {
        plants.push_str(format!(in alloc; "plant,P{plant},,,,,,\n")?.as_str())?;
        pairs.push_str(format!(in alloc; "pair,P{plant},X,buy,lot,0,0,0\n")?.as_str())?;
    }
    plants.push_str(pairs.as_str())?;
    Ok(plants)
}

/// Whether threads answer of the table that the gate is shut, and name the plant of that number.
fn names_plant<T: Threads + Wait + Sync, G: Gate>(
    rt: &T,
    alloc: Global,
    table: &str,
    gate: &G,
    plant: usize,
) -> Result<bool, Fail> {
    let Some(settings) = Settings::new(1, 64) else {
        return Ok(false);
    };
    let written = threaded(rt, alloc, table, settings, gate)?;
    let wanted = format!(in alloc; "3 mrp: GateShut P{plant}\n")?;
    Ok(written.as_str() == wanted.as_str())
}

#[test]
fn a_gate_is_asked_for_each_of_64_plants_by_its_number(rt: HostRuntime) -> Result<(), Fail> {
    let table = of_64_plants(rt.alloc())?;
    for plant in 0..64 {
        let turns = names_plant(&rt, rt.alloc(), table.as_str(), &ShutFor { plant }, plant)?;
        assert!(&rt; turns, "turns of plant {plant}");
        let workers = names_plant(
            &rt,
            rt.alloc(),
            table.as_str(),
            &NoWorkersFor { plant },
            plant,
        )?;
        assert!(&rt; workers, "workers of plant {plant}");
    }
    Ok(())
}
