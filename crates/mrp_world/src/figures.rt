//! The world: the cumulative figures of the lanes at a moment of it, read off its plants and mailboxes.
ghost use Rattle.std.specs.Prelude.{◌≡◌, ◌<◌, ◌++◌, ℕ, Contains, IfOk, OnOk, length};
ghost use Rattle.mrp_net.specs.Lanes.{lanes, lane_at, lane_items};
ghost use Rattle.mrp_protocol.specs.State.{State};
ghost use Rattle.mrp_world.specs.Figures.{lane_figure_at, figures_in_lane, figures_in};
ghost use Rattle.mrp_world.specs.Moves.{AreAt, AreSomewhere};

use crate::{Mailbox, Plant};
use mrp_book::LaneFigure;
use mrp_net::{ItemNo, LaneNo, Network};
use mrp_qty::{Memory, Qty};
use std::alloc::Global;

/// The figures of each lane and each of its items.
///
/// # Errors
///
/// [`Memory`] where a growth is refused.
pub(crate) fn figures<P: Plant>(
    alloc: Global,
    network: &Network,
    plants: &[P],
    boxes: &[Mailbox],
) -> Result<Vec<LaneFigure>, Memory>
    requires shown { AreSomewhere P.shows network.now plants.now boxes.now }
    ensures { IfOk result (λ figures. (capacity : ℕ) (s : State)
        → AreAt P.shows network.now capacity plants.now boxes.now s
        → figures.items ≡ figures_in network.now s) }
{
    let mut figures = Vec::new(alloc);
    for l in 0..network.lanes() {
        add_lane(&mut figures, network, plants, boxes, LaneNo(l))?;
    }
    Ok(figures)
}

/// Adds the figures of the lane's items.
fn add_lane<P: Plant>(
    figures: &mut Vec<LaneFigure>,
    network: &Network,
    plants: &[P],
    boxes: &[Mailbox],
    lane: LaneNo,
) -> Result<(), Memory>
    requires lane { lane.0 < length (lanes network.now) }
    requires shown { AreSomewhere P.shows network.now plants.now boxes.now }
    ensures { OnOk result ((capacity : ℕ) (s : State) → AreAt P.shows network.now capacity plants.now boxes.now s
        → figures.new.items ≡ figures.old.items ++ figures_in_lane network.now s lane.0) }
{
    for item in network.lane_items(lane) {
        figures.push(figure(network, plants, boxes, lane, *item))?;
    }
    Ok(())
}

/// The figures of an item of a lane: the receiver has counted what it took, and the mailbox holds the rest.
fn figure<P: Plant>(
    network: &Network,
    plants: &[P],
    boxes: &[Mailbox],
    lane: LaneNo,
    item: ItemNo,
) -> LaneFigure
    requires lane { lane.0 < length (lanes network.now) }
    requires item { Contains (lane_items network.now (lane_at network.now lane.0)) item }
    requires shown { AreSomewhere P.shows network.now plants.now boxes.now }
    ensures { (capacity : ℕ) (s : State) → AreAt P.shows network.now capacity plants.now boxes.now s
        → result ≡ lane_figure_at network.now s lane.0 item }
{
    let opening = Qty::of(network.opening(lane, item));
    let waiting = boxes[lane.0].pieces(item);
    let receiver = network.lane(lane).receiver;
    let received = plants[receiver.0].received(lane, item);
    LaneFigure {
        lane,
        item,
        opening,
        shipped: Qty::of(received.get() + waiting),
        received,
    }
}
