//! The world: how its plants and mailboxes are made.
ghost use Rattle.std.specs.Prelude.{◌≡◌, ◌≤◌, IfOk};
ghost use Rattle.mrp_protocol.specs.State.{opening_state};
ghost use Rattle.mrp_world.specs.World.{PlantsShow};
ghost use Rattle.mrp_world.specs.Moves.{BoxesHold};

use crate::{Mailbox, Plant};
use mrp_loops::SizedNet;
use mrp_net::{LaneNo, PlantNo};
use mrp_plant_view::PlantView;
use mrp_qty::Memory;
use std::alloc::Global;

/// The plants of a network before the first event.
///
/// # Errors
///
/// [`Memory`] where a growth is refused.
pub(crate) fn new_plants<P: Plant>(alloc: Global, net: &SizedNet<'_>) -> Result<Vec<P>, Memory>
    ensures { IfOk result (λ plants. PlantsShow P.shows net.now.network plants.items opening_state) }
{
    let network = net.network();
    let mut plants = Vec::with_capacity(alloc, network.plants())?;
    for p in 0..network.plants() {
        let view = PlantView::of(alloc, network, PlantNo(p))?;
        let plant = P::new(alloc, view)?;
        plants.push(plant)?;
    }
    Ok(plants)
}

/// The empty mailboxes of a network's lanes. Each has room for `capacity` records, or for the longest text
/// that its lane can have where that is less.
///
/// # Errors
///
/// [`Memory`] where a growth is refused.
pub(crate) fn new_boxes(
    alloc: Global,
    net: &SizedNet<'_>,
    capacity: u64,
) -> Result<Vec<Mailbox>, Memory>
    ensures { IfOk result (λ boxes. BoxesHold net.now.network capacity boxes.items opening_state) }
{
    let network = net.network();
    let mut boxes = Vec::with_capacity(alloc, network.lanes())?;
    for l in 0..network.lanes() {
        let room = capacity.min(network.longest_text(LaneNo(l)));
        let mailbox = Mailbox::new(alloc, room as usize)?;
        boxes.push(mailbox)?;
    }
    Ok(boxes)
}
