//! The run by threads: how a plant in its thread moves records over its lanes, one after the
//! other until none can be moved.
ghost use Rattle.std.specs.Prelude.{◌≡◌, ◌<◌};
ghost use Rattle.mrp_run.specs.Steps.{PlantIsAtWork, KeepsPlant, lane_count};

use crate::booking::book_next;
use crate::offering::offer_next;
use crate::plant::Plant;
use crate::stop::{Stop, StopRule};
use mrp_net::LaneNo;
use std::sync::Wait;

/// After how many turns a plant looks at all of its lanes again.
const TURNS_BETWEEN: u64 = 16;

/// Which lanes of a plant: over those that come in it books, and over those that go out it offers.
#[derive(Clone, Copy)]
pub(crate) enum Lanes {
    Incoming,
    Outgoing,
}

/// At which of its lanes a plant looks.
#[derive(Clone, Copy)]
pub(crate) enum Looks {
    /// At each.
    All,
    /// At those whose signs are up.
    Signed,
}

impl Looks {
    /// At which of its lanes a plant looks in a turn, from 0: at all in the first one, and now and then in a later
    /// one, so that a sign that isn't seen costs some turns and hangs nothing.
    pub(crate) fn in_turn(turn: u64) -> Looks {
        if turn % TURNS_BETWEEN == 0 {
            Looks::All
        } else {
            Looks::Signed
        }
    }

    /// At which of its lanes a plant looks where something may have changed at its own ends: at all, then.
    pub(crate) fn after(self, changed: bool) -> Looks {
        if changed { Looks::All } else { self }
    }
}

/// Moves over each of the lanes at which the plant looks what can be moved, wakes who may wait for it, and answers
/// whether any record was.
pub(crate) fn move_records<R: Wait, S: StopRule>(
    rt: &R,
    plant: &mut Plant,
    lanes: Lanes,
    looks: Looks,
    stop: &Stop<S>,
) -> bool
    requires work { PlantIsAtWork plant.old }
    ensures kept { KeepsPlant plant.old plant.new }
{
    let mut any = false;
    for k in 0..lane_count(plant, lanes) {
        if look_at(rt, plant, lanes, k, looks, stop) {
            any = true;
        }
    }
    any
}

/// Moves over a lane what can be moved, where the plant looks at it, and answers whether any record was.
fn look_at<R: Wait, S: StopRule>(
    rt: &R,
    plant: &mut Plant,
    lanes: Lanes,
    k: usize,
    looks: Looks,
    stop: &Stop<S>,
) -> bool
    requires work { PlantIsAtWork plant.old }
    requires lane { k < lane_count lanes plant.old }
    ensures kept { KeepsPlant plant.old plant.new }
{
    let lane = lane_of(plant, lanes, k);
    if !take_sign(lane, lanes, looks, stop) {
        return false;
    }
    let count = move_lane(rt, plant, lanes, k);
    if count > 0 {
        stop.ring(lane, lanes, count);
    }
    count > 0
}

/// Takes down a lane's sign, also where the plant looks at all lanes, and answers whether it looks at this one.
fn take_sign<S: StopRule>(lane: LaneNo, lanes: Lanes, looks: Looks, stop: &Stop<S>) -> bool {
    let was_up = stop.take_sign(lane, lanes);
    match looks {
        Looks::All => true,
        Looks::Signed => was_up,
    }
}

/// How many of the lanes there are.
fn lane_count(plant: &Plant, lanes: Lanes) -> usize
    ensures { result ≡ lane_count lanes plant.now }
{
    match lanes {
        Lanes::Incoming => plant.takes.len(),
        Lanes::Outgoing => plant.sends.len(),
    }
}

/// The number of one of the lanes.
fn lane_of(plant: &Plant, lanes: Lanes, k: usize) -> LaneNo
    requires { k < lane_count lanes plant.now }
{
    match lanes {
        Lanes::Incoming => plant.takes[k].lane(),
        Lanes::Outgoing => plant.sends[k].lane(),
    }
}

/// Moves over a lane what can be moved, and answers how many records were.
fn move_lane<R: Wait>(rt: &R, plant: &mut Plant, lanes: Lanes, k: usize) -> u64
    requires work { PlantIsAtWork plant.old }
    requires lane { k < lane_count lanes plant.old }
    ensures kept { KeepsPlant plant.old plant.new }
{
    let mut count: u64 = 0;
    for _ in rt.forever() {
        if !move_next(rt, plant, lanes, k) {
            break;
        }
        count = count.saturating_add(1);
    }
    count
}

/// Moves a record over a lane, and answers whether there was one that could be moved.
fn move_next<R: Wait>(rt: &R, plant: &mut Plant, lanes: Lanes, k: usize) -> bool
    requires work { PlantIsAtWork plant.old }
    requires lane { k < lane_count lanes plant.old }
    ensures kept { KeepsPlant plant.old plant.new }
{
    match lanes {
        Lanes::Incoming => book_next(rt, plant, k),
        Lanes::Outgoing => offer_next(rt, plant, k),
    }
}
