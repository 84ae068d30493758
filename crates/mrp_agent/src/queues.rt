//! The agent: where it queues the pairs of its plant for sending once they are planned.

ghost use Rattle.std.specs.Prelude.{◌≡◌, ◌++◌, ◌^◌, ◌<◌, IfOk, length};
ghost use Rattle.mrp_agent.specs.Queues.{item_queues, lane_queues, queue_place, queue_places};
ghost use Rattle.mrp_grouping.specs.Starts.{IsGrouped};

use crate::places::ItemPlaces;
use mrp_grouping::{Groups, KeyOf, group};
use mrp_net::LaneKind;
use mrp_plant_view::{OutgoingItems, OutgoingLane};
use std::alloc::{AllocError, Global};

/// Where a pair is queued once it is planned: a schedule lane, and the place of the pair's item on it.
#[derive(Clone, Copy)]
pub(crate) struct QueuePlace {
    /// The place of the pair.
    pub(crate) pair: usize,
    /// The place of the lane.
    pub(crate) lane: usize,
    /// The place of the item among those of the lane.
    pub(crate) item: usize,
}

/// Puts queue places into groups by their pairs.
pub(crate) struct ByPair;

impl KeyOf<QueuePlace> for ByPair {
    ghost key_of = { λ _ q. q.pair };

    fn key(&self, place: &QueuePlace) -> usize {
        place.pair
    }
}

/// The queue places of so many pairs, whose items these are, by pair.
pub(crate) fn queues(
    alloc: Global,
    items: &ItemPlaces,
    lanes: &[OutgoingLane],
    pairs: usize,
) -> Result<Groups<QueuePlace>, AllocError>
    requires few { pairs < 2 ^ 32 }
    requires items { length items.now ≡ pairs }
    ensures { IfOk result
        (λ g. IsGrouped (λ q. q.pair) pairs (queue_places items.now lanes.now) g.rows.items g.starts.items) }
{
    let places = queue_places(alloc, items, lanes)?;
    group(alloc, &ByPair, &places, pairs)
}

/// The queue places of the pairs with these items, lane by lane.
fn queue_places(
    alloc: Global,
    items: &ItemPlaces,
    lanes: &[OutgoingLane],
) -> Result<Vec<QueuePlace>, AllocError>
    ensures { IfOk result (λ v. v.items ≡ queue_places items.now lanes.now) }
{
    let mut places = Vec::new(alloc);
    for lane in 0..lanes.len() {
        add_lane(&mut places, items, lane, &lanes[lane])?;
    }
    Ok(places)
}

/// Adds those of a lane: none on a despatch lane.
fn add_lane(
    places: &mut Vec<QueuePlace>,
    items: &ItemPlaces,
    lane: usize,
    outgoing: &OutgoingLane,
) -> Result<(), AllocError>
    ensures { IfOk result
        (λ _. places.new.items ≡ places.old.items ++ lane_queues outgoing.now.kind items.now lane outgoing.now.items) }
{
    match outgoing.kind {
        LaneKind::Despatch => Ok(()),
        LaneKind::Schedule => add_items(places, items, lane, &outgoing.items),
    }
}

/// Adds those of a schedule lane with these items.
fn add_items(
    places: &mut Vec<QueuePlace>,
    items: &ItemPlaces,
    lane: usize,
    outgoing: &OutgoingItems,
) -> Result<(), AllocError>
    ensures { IfOk result (λ _. places.new.items ≡ places.old.items ++ item_queues items.now lane outgoing.now) }
{
    for item in 0..outgoing.len() {
        let pair = items.find(outgoing.get(item).item);
        add_place(places, pair, lane, item)?;
    }
    Ok(())
}

/// Adds that of an item of a schedule lane, if the plant has a pair of it.
fn add_place(
    places: &mut Vec<QueuePlace>,
    pair: Option<usize>,
    lane: usize,
    item: usize,
) -> Result<(), AllocError>
    ensures { IfOk result (λ _. places.new.items ≡ places.old.items ++ queue_place pair lane item) }
{
    if let Some(pair) = pair {
        places.push(QueuePlace { pair, lane, item })?;
    }
    Ok(())
}
