//! The network: its plants, the pairs of each, and the lanes that each receives and sends.

ghost use Rattle.std.specs.Prelude.{◌≡◌, ◌<◌, length, slice_index_or, IfOk};
ghost use Rattle.mrp_net.specs.Lanes.{lanes, no_lane};
ghost use Rattle.mrp_net.specs.Sums.{no_pair};
ghost use Rattle.mrp_net.specs.Plants.{pair_numbers, lane_numbers, ArePairs, AreReceived, AreSent, ArePlantLists};

use crate::lane::{Lane, LaneNo};
use mrp_grouping::{Groups, KeyOf, group};
use mrp_master_data::{PairNo, PairRow, Tables};
use mrp_qty::Memory;
use std::alloc::Global;

/// The pairs of each plant, in table order, and the lanes that it receives and sends, in lane order.
#[derive(Drop)]
pub struct PlantLists {
    pub pairs: Groups<PairNo>,
    pub received: Groups<LaneNo>,
    pub sent: Groups<LaneNo>,
}

/// Puts pairs into groups by their plants.
#[derive(Drop)]
struct ByPlant<'a> {
    pairs: &'a [PairRow],
}

impl KeyOf<PairNo> for ByPlant<'_> {
    ghost has_key = { λ k x. x.0 < length k.pairs.now };

    ghost key_of = { λ k x. (slice_index_or k.pairs.now x.0 no_pair).plant.0 };

    fn key(&self, pair: &PairNo) -> usize {
        self.pairs[pair.0].plant.0
    }
}

/// Puts lanes into groups by the plants that receive them.
#[derive(Drop)]
struct ByReceiver<'a> {
    lanes: &'a [Lane],
}

impl KeyOf<LaneNo> for ByReceiver<'_> {
    ghost has_key = { λ k l. l.0 < length k.lanes.now };

    ghost key_of = { λ k l. (slice_index_or k.lanes.now l.0 no_lane).receiver.0 };

    fn key(&self, lane: &LaneNo) -> usize {
        self.lanes[lane.0].receiver.0
    }
}

/// Puts lanes into groups by the plants that send them.
#[derive(Drop)]
struct BySender<'a> {
    lanes: &'a [Lane],
}

impl KeyOf<LaneNo> for BySender<'_> {
    ghost has_key = { λ k l. l.0 < length k.lanes.now };

    ghost key_of = { λ k l. (slice_index_or k.lanes.now l.0 no_lane).sender.0 };

    fn key(&self, lane: &LaneNo) -> usize {
        self.lanes[lane.0].sender.0
    }
}

/// The numbers of so many pairs.
fn pair_numbers(alloc: Global, count: usize) -> Result<Vec<PairNo>, Memory>
    ensures { IfOk result (λ v. v.items ≡ pair_numbers count) }
{
    let numbers: Vec<PairNo> = (0..count).map(PairNo).collect(alloc)?;
    Ok(numbers)
}

/// The numbers of so many lanes.
fn lane_numbers(alloc: Global, count: usize) -> Result<Vec<LaneNo>, Memory>
    ensures { IfOk result (λ v. v.items ≡ lane_numbers count) }
{
    let numbers: Vec<LaneNo> = (0..count).map(LaneNo).collect(alloc)?;
    Ok(numbers)
}

/// The pairs of each plant.
fn pairs_by_plant(alloc: Global, tables: &Tables) -> Result<Groups<PairNo>, Memory>
    ensures { IfOk result (λ g. ArePairs tables.now g.rows.items g.starts.items) }
{
    let rows = tables.rows();
    let pairs = rows.pairs();
    let numbers = pair_numbers(alloc, pairs.len())?;
    let groups = group(alloc, &ByPlant { pairs }, numbers.as_slice(), rows.plants())?;
    Ok(groups)
}

/// The lanes that each plant receives.
fn lanes_by_receiver(alloc: Global, tables: &Tables, all: &[Lane]) -> Result<Groups<LaneNo>, Memory>
    requires { all.now ≡ lanes tables.now }
    ensures { IfOk result (λ g. AreReceived tables.now g.rows.items g.starts.items) }
{
    let plants = tables.rows().plants();
    let numbers = lane_numbers(alloc, all.len())?;
    let groups = group(
        alloc,
        &ByReceiver { lanes: all },
        numbers.as_slice(),
        plants,
    )?;
    Ok(groups)
}

/// The lanes that each plant sends.
fn lanes_by_sender(alloc: Global, tables: &Tables, all: &[Lane]) -> Result<Groups<LaneNo>, Memory>
    requires { all.now ≡ lanes tables.now }
    ensures { IfOk result (λ g. AreSent tables.now g.rows.items g.starts.items) }
{
    let plants = tables.rows().plants();
    let numbers = lane_numbers(alloc, all.len())?;
    let groups = group(alloc, &BySender { lanes: all }, numbers.as_slice(), plants)?;
    Ok(groups)
}

/// The pairs of each plant, and the lanes that it receives and sends.
pub fn plant_lists_of(alloc: Global, tables: &Tables, all: &[Lane]) -> Result<PlantLists, Memory>
    requires { all.now ≡ lanes tables.now }
    ensures { IfOk result (ArePlantLists tables.now) }
{
    let pairs = pairs_by_plant(alloc, tables)?;
    let received = lanes_by_receiver(alloc, tables, all)?;
    let sent = lanes_by_sender(alloc, tables, all)?;
    Ok(PlantLists {
        pairs,
        received,
        sent,
    })
}
