//! The world driven on one thread: its plants plan, and records go by its mailboxes, until nothing moves.
ghost use Rattle.std.specs.Prelude.{◌<◌, List, length};
ghost use Rattle.mrp_net.specs.Lanes.{lanes};
ghost use Rattle.mrp_world.specs.Driving.{LeadOn, Tried};
ghost use Rattle.mrp_world.specs.Mailbox.{Held};
ghost use Rattle.mrp_world.specs.Moves.{AreSomewhere, LaneRests, LanesRest, PlantRests, PlantsRest, AllRests};

use crate::acting::{plan, receive, send};
use crate::{Mailbox, Plant};
use mrp_net::{LaneNo, Network};

/// Lets enabled events happen one by one until none is enabled. What can be planned is planned first, then records
/// move lane by lane, each computed once.
pub(crate) fn drive_on<P: Plant>(network: &Network, plants: &mut Vec<P>, boxes: &mut Vec<Mailbox>)
    requires shown { AreSomewhere P.shows network.now plants.old.items boxes.old.items }
    ensures runs { LeadOn P.shows network.now plants.old.items boxes.old.items 0 plants.new.items boxes.new.items }
    ensures rests { AllRests P.shows network.now plants.new.items boxes.new.items }
{
    // No run has as many steps.
    for _ in 0..u64::MAX {
        if !go_on(network, plants, boxes) {
            return;
        }
    }
}

/// A round over the lists that own the plants and the mailboxes. Answers whether something happened.
fn go_on<P: Plant>(network: &Network, plants: &mut Vec<P>, boxes: &mut Vec<Mailbox>) -> bool
    requires shown { AreSomewhere P.shows network.now plants.old.items boxes.old.items }
    ensures { Tried P.shows network.now plants.old.items boxes.old.items (AllRests P.shows network.now) result
        plants.new.items boxes.new.items }
{
    go_round(network, plants.as_mut_slice(), boxes.as_mut_slice())
}

/// A round: plans what can be planned or, where nothing can, lets records move over the lanes. Answers whether
/// something happened.
fn go_round<P: Plant>(network: &Network, plants: &mut [P], boxes: &mut [Mailbox]) -> bool
    requires shown { AreSomewhere P.shows network.now plants.old boxes.old }
    ensures { Tried P.shows network.now plants.old boxes.old (AllRests P.shows network.now) result plants.new
        boxes.new }
{
    if plan_all(network, plants) {
        return true;
    }
    move_all(network, plants, boxes)
}

/// Lets records move over each lane in turn, after which its receiver plans what it can. Answers whether something
/// happened.
fn move_all<P: Plant>(network: &Network, plants: &mut [P], boxes: &mut [Mailbox]) -> bool
    requires shown { AreSomewhere P.shows network.now plants.old boxes.old }
    ensures { Tried P.shows network.now plants.old boxes.old
        (LanesRest P.shows network.now 0 (length (lanes network.now))) result plants.new boxes.new }
{
    let mut happened = false;
    for l in 0..network.lanes() {
        happened |= move_over_lane(network, plants, boxes, LaneNo(l));
        happened |= plan_ready(network, plants, network.lane(LaneNo(l)).receiver.0);
    }
    happened
}

/// Lets records move over a lane until its receiver has none to take, and its sender none to send. Answers whether
/// there was one.
fn move_over_lane<P: Plant>(
    network: &Network,
    plants: &mut [P],
    boxes: &mut [Mailbox],
    lane: LaneNo,
) -> bool
    requires lane { lane.0 < length (lanes network.now) }
    requires shown { AreSomewhere P.shows network.now plants.old boxes.old }
    ensures { Tried P.shows network.now plants.old boxes.old (LaneRests P.shows network.now lane.0) result plants.new
        boxes.new }
{
    if !move_one(network, plants, boxes, lane) {
        return false;
    }
    for _record in 0..u64::MAX {
        if !move_one(network, plants, boxes, lane) {
            break;
        }
    }
    true
}

/// Lets the receiver of a lane take what waits first, or else its sender send what comes next, and answers
/// whether there was something.
fn move_one<P: Plant>(
    network: &Network,
    plants: &mut [P],
    boxes: &mut [Mailbox],
    lane: LaneNo,
) -> bool
    requires lane { lane.0 < length (lanes network.now) }
    requires shown { AreSomewhere P.shows network.now plants.old boxes.old }
    ensures { Tried P.shows network.now plants.old boxes.old (LaneRests P.shows network.now lane.0) result plants.new
        boxes.new }
{
    if receive(network, plants, boxes, lane) {
        return true;
    }
    send(network, plants, boxes, lane)
}

/// Plans the pairs of each plant that can be planned, and answers whether there was one.
fn plan_all<P: Plant>(network: &Network, plants: &mut [P]) -> bool
    requires shown { (boxes : List Held) × AreSomewhere P.shows network.now plants.old boxes }
    ensures { (boxes : List Held) → Tried P.shows network.now plants.old boxes
        (PlantsRest P.shows network.now 0 (length plants.old)) result plants.new boxes }
{
    let mut planned = false;
    for p in 0..plants.len() {
        planned |= plan_ready(network, plants, p);
    }
    planned
}

/// Plans the pairs of a plant that can be planned, until there is none, and answers whether there was one.
fn plan_ready<P: Plant>(network: &Network, plants: &mut [P], plant: usize) -> bool
    requires plant { plant < length plants.old }
    requires shown { (boxes : List Held) × AreSomewhere P.shows network.now plants.old boxes }
    ensures { (boxes : List Held) → Tried P.shows network.now plants.old boxes (PlantRests P.shows network.now plant)
        result plants.new boxes }
{
    if !plan_one(network, plants, plant) {
        return false;
    }
    for _pair in 0..u64::MAX {
        if !plan_one(network, plants, plant) {
            break;
        }
    }
    true
}

/// Plans a pair of a plant, if one can be planned, and answers whether there was one.
fn plan_one<P: Plant>(network: &Network, plants: &mut [P], plant: usize) -> bool
    requires plant { plant < length plants.old }
    requires shown { (boxes : List Held) × AreSomewhere P.shows network.now plants.old boxes }
    ensures { (boxes : List Held) → Tried P.shows network.now plants.old boxes (PlantRests P.shows network.now plant)
        result plants.new boxes }
{
    match plants[plant].ready() {
        Some(x) => plan(network, plants, x),
        None => false,
    }
}
