//! The world: one event, done to its plants and mailboxes on one thread.
ghost use Rattle.std.specs.Prelude.{◌<◌, List, length};
ghost use Rattle.mrp_master_data.specs.Table.{IsPair};
ghost use Rattle.mrp_net.specs.Lanes.{lanes};
ghost use Rattle.mrp_protocol.specs.declared.event.Event.TheVariants.{Send, Receive, Plan};
ghost use Rattle.mrp_world.specs.Mailbox.{Held};
ghost use Rattle.mrp_world.specs.Moves.{Acts, AreSomewhere};

use crate::{Mailbox, Plant};
use mrp_net::{LaneNo, Network, PairNo};
use mrp_protocol::Event;

/// Sends the next record of a lane, if there is one and the mailbox has room.
pub(crate) fn send<P: Plant>(
    network: &Network,
    plants: &mut [P],
    boxes: &mut [Mailbox],
    lane: LaneNo,
) -> bool
    requires lane { lane.0 < length (lanes network.now) }
    requires shown { AreSomewhere P.shows network.now plants.old boxes.old }
    ensures { Acts P.shows network.now plants.old boxes.old (Send lane) result plants.new boxes.new }
{
    let mailbox = &mut boxes[lane.0];
    if !mailbox.has_room() {
        return false;
    }
    let sender = network.lane(lane).sender;
    match plants[sender.0].send(lane) {
        Some(entry) => {
            mailbox.push(entry);
            true
        }
        None => false,
    }
}

/// Lets the receiver of a lane book the first record of its mailbox.
pub(crate) fn receive<P: Plant>(
    network: &Network,
    plants: &mut [P],
    boxes: &mut [Mailbox],
    lane: LaneNo,
) -> bool
    requires lane { lane.0 < length (lanes network.now) }
    requires shown { AreSomewhere P.shows network.now plants.old boxes.old }
    ensures { Acts P.shows network.now plants.old boxes.old (Receive lane) result plants.new boxes.new }
{
    let mailbox = &mut boxes[lane.0];
    let Some(entry) = mailbox.first() else {
        return false;
    };
    let receiver = network.lane(lane).receiver;
    match plants[receiver.0].book(lane, &entry) {
        Ok(()) => {
            mailbox.drop_first();
            true
        }
        Err(_fault) => false,
    }
}

/// Lets the plant of a pair plan it, if it can be planned.
pub(crate) fn plan<P: Plant>(network: &Network, plants: &mut [P], x: PairNo) -> bool
    requires pair { IsPair network.now x.0 }
    requires shown { (boxes : List Held) × AreSomewhere P.shows network.now plants.old boxes }
    ensures { (boxes : List Held) → Acts P.shows network.now plants.old boxes (Plan x) result plants.new boxes }
{
    let plant = network.pair(x).plant;
    plants[plant.0].plan(x)
}

/// Lets one event happen, if it is enabled.
fn act<P: Plant>(network: &Network, plants: &mut [P], boxes: &mut [Mailbox], event: Event) -> bool
    requires shown { AreSomewhere P.shows network.now plants.old boxes.old }
    ensures { Acts P.shows network.now plants.old boxes.old event result plants.new boxes.new }
{
    match event {
        Event::Send(lane) if lane.0 < network.lanes() => send(network, plants, boxes, lane),
        Event::Receive(lane) if lane.0 < network.lanes() => receive(network, plants, boxes, lane),
        Event::Plan(x) if x.0 < network.pairs() => plan(network, plants, x),
        _ => false,
    }
}

/// Lets one event happen, if it is enabled, over the lists that own the plants and the mailboxes.
pub(crate) fn act_on<P: Plant>(
    network: &Network,
    plants: &mut Vec<P>,
    boxes: &mut Vec<Mailbox>,
    event: Event,
) -> bool
    requires shown { AreSomewhere P.shows network.now plants.old.items boxes.old.items }
    ensures { Acts P.shows network.now plants.old.items boxes.old.items event result plants.new.items boxes.new.items }
{
    act(network, plants.as_mut_slice(), boxes.as_mut_slice(), event)
}
