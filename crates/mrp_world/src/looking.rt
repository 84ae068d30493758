//! The world: which of its events is enabled, looked for from a place on.
ghost use Rattle.std.specs.Prelude.{◌<◌, ◌≤◌, length, IfSome, IfNone};
ghost use Rattle.mrp_net.specs.Lanes.{lanes};
ghost use Rattle.mrp_world.specs.Moves.{AreSomewhere, MayLead, LaneRests, LanesRest, PlantsRest, AllRests};

use crate::{Mailbox, Plant};
use mrp_net::{LaneNo, Network};
use mrp_protocol::Event;

/// Where the last event happened: the next one is looked for from there on.
#[derive(Clone, Copy)]
pub(crate) struct Place {
    lane: usize,
    plant: usize,
}

/// Where the first event is looked for.
pub(crate) fn first_place() -> Place {
    Place { lane: 0, plant: 0 }
}

/// Where an event happened.
pub(crate) fn place_after(network: &Network, event: Event, before: Place) -> Place {
    match event {
        Event::Send(lane) | Event::Receive(lane) if lane.0 < network.lanes() => Place {
            lane: lane.0,
            plant: network.lane(lane).receiver.0,
        },
        Event::Plan(x) if x.0 < network.pairs() => Place {
            lane: before.lane,
            plant: network.pair(x).plant.0,
        },
        _ => before,
    }
}

/// An event that is enabled: a pair of the near plant that can be planned, else one over the lanes from the near one
/// on and round, else a pair of any plant.
pub(crate) fn look<P: Plant>(
    network: &Network,
    plants: &[P],
    boxes: &[Mailbox],
    near: Place,
) -> Option<Event>
    requires shown { AreSomewhere P.shows network.now plants.now boxes.now }
    ensures some { IfSome result (λ event. MayLead P.shows network.now plants.now boxes.now event) }
    ensures none { IfNone result (AllRests P.shows network.now plants.now boxes.now) }
{
    let all = plants.len();
    let plant = near.plant.min(all);
    let next = plant.saturating_add(1).min(all);
    if let Some(event) = ready_among(network, plants, boxes, plant, next) {
        return Some(event);
    }
    let lanes = network.lanes();
    let from = near.lane.min(lanes);
    if let Some(event) = moving_among(network, plants, boxes, from, lanes) {
        return Some(event);
    }
    if let Some(event) = moving_among(network, plants, boxes, 0, from) {
        return Some(event);
    }
    ready_among(network, plants, boxes, 0, all)
}

/// The first enabled event over the lanes from one number up to another.
fn moving_among<P: Plant>(
    network: &Network,
    plants: &[P],
    boxes: &[Mailbox],
    from: usize,
    to: usize,
) -> Option<Event>
    requires lanes { to ≤ length (lanes network.now) }
    requires shown { AreSomewhere P.shows network.now plants.now boxes.now }
    ensures some { IfSome result (λ event. MayLead P.shows network.now plants.now boxes.now event) }
    ensures none { IfNone result (LanesRest P.shows network.now from to plants.now boxes.now) }
{
    for l in from..to {
        if let Some(event) = moving(network, plants, boxes, LaneNo(l)) {
            return Some(event);
        }
    }
    None
}

/// An event over a lane that is enabled: its receiver takes what waits before its sender sends more.
fn moving<P: Plant>(
    network: &Network,
    plants: &[P],
    boxes: &[Mailbox],
    lane: LaneNo,
) -> Option<Event>
    requires lane { lane.0 < length (lanes network.now) }
    requires shown { AreSomewhere P.shows network.now plants.now boxes.now }
    ensures some { IfSome result (λ event. MayLead P.shows network.now plants.now boxes.now event) }
    ensures none { IfNone result (LaneRests P.shows network.now lane.0 plants.now boxes.now) }
{
    let mailbox = &boxes[lane.0];
    if let Some(_waiting) = mailbox.first() {
        return Some(Event::Receive(lane));
    }
    if !mailbox.has_room() {
        return None;
    }
    let sender = network.lane(lane).sender;
    match plants[sender.0].next_out(lane) {
        Some(_next) => Some(Event::Send(lane)),
        None => None,
    }
}

/// The first pair that can be planned, of the plants from one number up to another.
fn ready_among<P: Plant>(
    network: &Network,
    plants: &[P],
    boxes: &[Mailbox],
    from: usize,
    to: usize,
) -> Option<Event>
    requires plants { to ≤ length plants.now }
    requires shown { AreSomewhere P.shows network.now plants.now boxes.now }
    ensures some { IfSome result (λ event. MayLead P.shows network.now plants.now boxes.now event) }
    ensures none { IfNone result (PlantsRest P.shows network.now from to plants.now boxes.now) }
{
    for p in from..to {
        if let Some(x) = plants[p].ready() {
            return Some(Event::Plan(x));
        }
    }
    None
}
