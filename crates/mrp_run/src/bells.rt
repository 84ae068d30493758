//! The run by threads: how its plants' threads wake one another.

use crate::moving::Lanes;
use crate::plant::Plant;
use crate::signs::Signs;
use mrp_net::{LaneNo, PlantNo};
use mrp_qty::Memory;
use std::alloc::Global;
use std::sync::Wait;
use std::thread::Parker;
use std::time::Duration;

/// How long a plant that nobody wakes sleeps at most, in microseconds, and how much longer for each plant of the run:
/// so the plants that wait wake by themselves no more than 20,000 times a second, however many they are.
const NAP: u64 = 1000;

const NAP_A_PLANT: u64 = 50;

/// Which plants have the two ends of a lane.
#[derive(Clone, Copy)]
struct LaneEnds {
    sender: PlantNo,
    receiver: PlantNo,
}

/// A bell for each plant of a run, by which others wake it, and signs that tell it at which lanes to look. Nothing is
/// claimed of when a plant wakes.
#[derive(Drop)]
pub(crate) struct Bells {
    bells: Vec<Parker>,
    lanes: Vec<LaneEnds>,
    signs: Signs,
    capacity: u64,
    nap: Duration,
}

impl Bells {
    /// The bells of plants with the ends of all their lanes, whose mailboxes have room for so many records or
    /// for a whole text.
    ///
    /// # Errors
    ///
    /// [`Memory`] where a growth is refused.
    pub(crate) fn new(alloc: Global, plants: &[Plant], capacity: u64) -> Result<Bells, Memory> {
        Ok(Bells {
            bells: new_bells(alloc, plants.len())?,
            lanes: ends_of(alloc, plants)?,
            signs: Signs::new(alloc, lane_total(plants))?,
            capacity,
            nap: nap_of(plants.len()),
        })
    }

    /// Puts up the sign at the other end of a lane over which so many records were moved, and wakes the plant there,
    /// where it may wait for them. A sender that found no room found the mailbox full, and all that lies in it is taken
    /// before its receiver finds none: so where fewer were taken, none waits for room.
    pub(crate) fn ring(&self, lane: LaneNo, lanes: Lanes, count: u64) {
        let Some(ends) = self.lanes.get(lane.0) else {
            return;
        };
        let waiting = match lanes {
            Lanes::Outgoing => Some(ends.receiver),
            Lanes::Incoming if count >= self.capacity => Some(ends.sender),
            Lanes::Incoming => None,
        };
        if let Some(plant) = waiting {
            self.signs.put_up(lane, lanes);
            self.ring_at(plant);
        }
    }

    /// Takes down the sign at a plant's end of a lane, and answers whether it was up.
    pub(crate) fn take_sign(&self, lane: LaneNo, lanes: Lanes) -> bool {
        self.signs.take_down(lane, lanes)
    }

    /// Wakes a plant.
    fn ring_at(&self, plant: PlantNo) {
        if let Some(bell) = self.bells.get(plant.0) {
            bell.unpark();
        }
    }

    /// Wakes all plants.
    pub(crate) fn ring_all(&self) {
        for bell in &self.bells {
            bell.unpark();
        }
    }

    /// Sleeps until the plant's bell is rung, or has been since it last slept, and for a moment at most.
    pub(crate) fn sleep<R: Wait>(&self, rt: &R, plant: PlantNo) {
        if let Some(bell) = self.bells.get(plant.0) {
            bell.park_timeout(rt, self.nap);
        }
    }
}

/// How long a plant of so many sleeps at most.
fn nap_of(plants: usize) -> Duration {
    let more = NAP_A_PLANT.saturating_mul(plants as u64);
    Duration::from_micros(NAP.saturating_add(more))
}

/// So many bells.
fn new_bells(alloc: Global, count: usize) -> Result<Vec<Parker>, Memory> {
    let mut bells = Vec::with_capacity(alloc, count)?;
    for _ in 0..count {
        bells.push(Parker::new())?;
    }
    Ok(bells)
}

/// The plants at the ends of each lane, by its number.
fn ends_of(alloc: Global, plants: &[Plant]) -> Result<Vec<LaneEnds>, Memory> {
    let nobody = LaneEnds {
        sender: PlantNo(0),
        receiver: PlantNo(0),
    };
    let mut lanes = vec![in alloc; nobody; lane_total(plants)]?;
    for p in 0..plants.len() {
        note_sends(lanes.as_mut_slice(), PlantNo(p), &plants[p]);
        note_takes(lanes.as_mut_slice(), PlantNo(p), &plants[p]);
    }
    Ok(lanes)
}

/// How many lanes go from the plants.
fn lane_total(plants: &[Plant]) -> usize {
    let mut total: usize = 0;
    for plant in plants {
        total = total.saturating_add(plant.sends.len());
    }
    total
}

/// Notes the lanes that go from a plant.
fn note_sends(lanes: &mut [LaneEnds], number: PlantNo, plant: &Plant) {
    for end in &plant.sends {
        let l = end.lane().0;
        if l < lanes.len() {
            lanes[l].sender = number;
        }
    }
}

/// Notes the lanes that come to a plant.
fn note_takes(lanes: &mut [LaneEnds], number: PlantNo, plant: &Plant) {
    for end in &plant.takes {
        let l = end.lane().0;
        if l < lanes.len() {
            lanes[l].receiver = number;
        }
    }
}
