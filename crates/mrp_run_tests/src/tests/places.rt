//! Tests of runs that are broken off at each place: by a gate that is shut at one look of all that are taken, or from
//! that look on, for one turn of a plant or for one of its workers, and by turns that run out.
//!
//! Each run answers what was met, or else ends as an undisturbed one does: nothing between the two. How many
//! turns a run takes depends on how its threads fall; each lower bound below holds however they do.

ghost use Rattle.std.specs.Prelude.{◌≡◌, length};

use super::endings::is_ending;
use super::trials::{Trial, holds_of};
use crate::{Ending, RING_ENDING, TWO_CUSTOMERS_ENDING};
use mrp_loops::SizedNet;
use mrp_plan::{Plan, plan_all};
use mrp_run::{Gate, NoGate, Outcome, PlantNo, RunFault, Settings, run_network_within};
use std::alloc::Global;
use std::sync::Wait;
use std::sync::atomic::{AtomicBool, AtomicU64, Ordering};
use std::test::Fail;
use std::thread::Threads;

/// More turns than any run uses.
const AMPLE: u64 = 1 << 62;

/// Up to this number the places are tried one by one; each later one is twice as far.
const EACH: u64 = 16;

/// So many numbers are tried at most; the last is more than there are looks or turns in a run.
const TRIES: u32 = 64;

/// How many workers a plant has, and for how many records a mailbox has room.
const SETTINGS: [(u64, u64); 2] = [(1, 1), (2, 64)];

/// The same for crews that have a second worker.
const CREWS: [(u64, u64); 2] = [(2, 1), (64, 64)];

/// Where a run is broken off, each place by a number.
#[derive(Clone, Copy)]
pub(super) enum Place {
    /// The gate is shut at one look of all that are taken.
    AtLook,
    /// The gate is shut at a look and at all after it.
    FromLook,
    /// The gate is shut for one turn of the plant.
    ForTurn(usize),
    /// The gate is shut for one worker of the plant.
    ForWorker(usize),
    /// A plant has so many turns less one, and the gate is open.
    Turns,
}

/// A gate that is shut at a place, and knows which of three plants found it so.
#[derive(Drop)]
struct Barrier {
    place: Place,
    number: u64,
    looks: AtomicU64,
    met: [AtomicBool; 3],
}

impl Barrier {
    /// Nobody has looked yet.
    fn new(place: Place, number: u64) -> Barrier {
        Barrier {
            place,
            number,
            looks: AtomicU64::new(1),
            met: [
                AtomicBool::new(false),
                AtomicBool::new(false),
                AtomicBool::new(false),
            ],
        }
    }

    /// What a plant sees that looks, where the gate is shut for this turn or worker or isn't.
    fn is_open(&self, plant: usize, is_shut_here: bool) -> bool {
        let look = self.looks.fetch_add(1, Ordering::SeqCst);
        let is_shut = match self.place {
            Place::AtLook => look == self.number,
            Place::FromLook => look >= self.number,
            _ => is_shut_here,
        };
        if is_shut && plant < 3 {
            self.met[plant].store(true, Ordering::SeqCst);
        }
        !is_shut
    }

    /// The fault that a run answers which isn't whole: that of the lowest plant that found the gate shut, or
    /// that turns ran out.
    fn stated(&self) -> Option<RunFault> {
        for plant in 0..3 {
            if self.met[plant].load(Ordering::SeqCst) {
                return Some(RunFault::GateShut(PlantNo(plant)));
            }
        }
        match self.place {
            Place::Turns => Some(RunFault::Stopped),
            _ => None,
        }
    }

    /// Whether nobody found the gate shut.
    fn is_unmet(&self) -> bool {
        match self.stated() {
            Some(RunFault::GateShut(_)) => false,
            _ => true,
        }
    }
}

impl Gate for Barrier {
    fn turn(&self, plant: usize, turn: u64) -> bool {
        let is_shut = match self.place {
            Place::ForTurn(shut) => plant == shut && turn == self.number,
            _ => false,
        };
        self.is_open(plant, is_shut)
    }

    fn worker(&self, plant: usize, worker: u64) -> bool {
        let is_shut = match self.place {
            Place::ForWorker(shut) => plant == shut && worker == self.number,
            _ => false,
        };
        self.is_open(plant, is_shut)
    }
}

/// What a run came to.
#[derive(Clone, Copy)]
enum Verdict {
    /// The whole right outcome.
    Whole,
    /// The fault that was met.
    Met,
    /// Another fault, or another outcome.
    Wrong,
}

/// How many turns a plant has.
fn turns_at(place: Place, number: u64) -> u64 {
    match place {
        Place::Turns => number.saturating_sub(1),
        _ => AMPLE,
    }
}

/// The number that is tried next.
fn after(number: u64) -> u64 {
    if number < EACH {
        number + 1
    } else if number < AMPLE {
        number * 2
    } else {
        number
    }
}

/// What an answer came to, of a run under that gate.
fn judged(
    answer: &Result<Outcome, RunFault>,
    barrier: &Barrier,
    net: &SizedNet,
    whole: &Plan,
    ending: &Ending,
) -> Verdict
    requires pairs { length whole.now ≡ length net.now.network.pairs }
{
    let is_right = match answer {
        Ok(outcome) => barrier.is_unmet() && is_ending(outcome, net.network(), whole, ending),
        Err(fault) => barrier.stated() == Some(*fault),
    };
    match (is_right, answer.is_ok()) {
        (false, _) => Verdict::Wrong,
        (true, true) => Verdict::Whole,
        (true, false) => Verdict::Met,
    }
}

/// What a run comes to that is broken off there.
fn broken_off<R: Threads + Wait + Sync>(
    rt: &R,
    alloc: Global,
    net: &SizedNet,
    whole: &Plan,
    settings: Settings,
    ending: &Ending,
    place: Place,
    number: u64,
) -> Verdict
    requires pairs { length whole.now ≡ length net.now.network.pairs }
{
    let barrier = Barrier::new(place, number);
    let turns = turns_at(place, number);
    let answer = run_network_within(rt, alloc, net, settings, &barrier, turns);
    judged(&answer, &barrier, net, whole, ending)
}

/// The first number at which a run is whole, where each lower one is answered as it has to be; else 0.
fn first_whole<R: Threads + Wait + Sync>(
    rt: &R,
    alloc: Global,
    net: &SizedNet,
    whole: &Plan,
    settings: Settings,
    ending: &Ending,
    place: Place,
) -> u64
    requires pairs { length whole.now ≡ length net.now.network.pairs }
{
    let mut number = 1;
    for _ in 0..TRIES {
        match broken_off(rt, alloc, net, whole, settings, ending, place, number) {
            Verdict::Whole => return number,
            Verdict::Met => number = after(number),
            Verdict::Wrong => return 0,
        }
    }
    0
}

/// Whether with each of the settings each number is answered as it has to be until a run is whole, and no
/// run is below the least number.
fn are_met_by<R: Threads + Wait + Sync>(
    rt: &R,
    alloc: Global,
    net: &SizedNet,
    whole: &Plan,
    ending: &Ending,
    all: [(u64, u64); 2],
    place: Place,
    least: u64,
) -> bool
    requires pairs { length whole.now ≡ length net.now.network.pairs }
{
    for (workers, capacity) in all {
        let Some(settings) = Settings::new(workers, capacity) else {
            return false;
        };
        if first_whole(rt, alloc, net, whole, settings, ending, place) < least {
            return false;
        }
    }
    true
}

/// The same, by the plan of the network.
pub(super) fn are_met<R: Threads + Wait + Sync>(
    rt: &R,
    alloc: Global,
    net: &SizedNet,
    ending: &Ending,
    all: [(u64, u64); 2],
    place: Place,
    least: u64,
) -> Result<bool, Fail> {
    let whole = plan_all(alloc, net)?;
    Ok(are_met_by(rt, alloc, net, &whole, ending, all, place, least))
}

/// Whether that holds for the ending's table.
fn breaks_off<R: Threads + Wait + Sync>(
    rt: &R,
    alloc: Global,
    ending: &Ending,
    all: [(u64, u64); 2],
    place: Place,
    least: u64,
) -> Result<bool, Fail> {
    let trial = Trial::BreaksOff(ending, all, place, least);
    holds_of(rt, alloc, ending.table, trial, &NoGate)
}

/// The same of the ring at each of these places, with the least number of each.
fn ring_breaks_off<R: Threads + Wait + Sync>(
    rt: &R,
    alloc: Global,
    all: [(u64, u64); 2],
    places: &[(Place, u64)],
) -> Result<bool, Fail> {
    for (place, least) in places {
        if !breaks_off(rt, alloc, &RING_ENDING, all, *place, *least)? {
            return Ok(false);
        }
    }
    Ok(true)
}

/// The same of the supplier of two customers.
fn customers_break_off<R: Threads + Wait + Sync>(
    rt: &R,
    alloc: Global,
    all: [(u64, u64); 2],
    places: &[(Place, u64)],
) -> Result<bool, Fail> {
    for (place, least) in places {
        if !breaks_off(rt, alloc, &TWO_CUSTOMERS_ENDING, all, *place, *least)? {
            return Ok(false);
        }
    }
    Ok(true)
}

/// A worker looks for each pair, and each plant for a turn: 6 pairs and 2 plants, or 5 and 3, so 8 looks are
/// met at least before a run is whole.
#[test]
fn a_gate_shut_at_any_look_is_answered(rt: HostRuntime) -> Result<(), Fail> {
    let places = [(Place::AtLook, 9), (Place::FromLook, 9)];
    assert!(&rt; ring_breaks_off(&rt, rt.alloc(), SETTINGS, &places)?);
    assert!(&rt; customers_break_off(&rt, rt.alloc(), SETTINGS, &places)?);
    Ok(())
}

/// Each plant of the ring waits for the other between two of its plans, and so has two turns at least. A
/// plant of the other firm may be done in one.
#[test]
fn a_gate_shut_at_any_turn_of_a_plant_is_answered(rt: HostRuntime) -> Result<(), Fail> {
    let ring = [(Place::ForTurn(0), 3), (Place::ForTurn(1), 3)];
    assert!(&rt; ring_breaks_off(&rt, rt.alloc(), SETTINGS, &ring)?);
    let customers = [
        (Place::ForTurn(0), 2),
        (Place::ForTurn(1), 2),
        (Place::ForTurn(2), 2),
    ];
    assert!(&rt; customers_break_off(&rt, rt.alloc(), SETTINGS, &customers)?);
    Ok(())
}

/// The supplier's first two pairs are planned by two workers; each other wave is of one pair.
#[test]
fn a_gate_shut_for_any_worker_is_answered(rt: HostRuntime) -> Result<(), Fail> {
    let ring = [(Place::ForWorker(0), 2), (Place::ForWorker(1), 2)];
    assert!(&rt; ring_breaks_off(&rt, rt.alloc(), CREWS, &ring)?);
    let customers = [
        (Place::ForWorker(0), 3),
        (Place::ForWorker(1), 2),
        (Place::ForWorker(2), 2),
    ];
    assert!(&rt; customers_break_off(&rt, rt.alloc(), CREWS, &customers)?);
    Ok(())
}

/// One turn is too few for both firms, as none is: in the second a plant books before it offers, and so of
/// the supplier and a customer one books nothing of the other's in its first turn.
#[test]
fn turns_that_run_out_at_any_place_are_answered(rt: HostRuntime) -> Result<(), Fail> {
    assert!(&rt; ring_breaks_off(&rt, rt.alloc(), SETTINGS, &[(Place::Turns, 3)])?);
    assert!(&rt; customers_break_off(&rt, rt.alloc(), SETTINGS, &[(Place::Turns, 3)])?);
    Ok(())
}
