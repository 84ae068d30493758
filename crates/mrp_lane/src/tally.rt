//! A lane's mailbox between threads: what each of its two ends counts of the records that went through it.
ghost use Rattle.std.specs.Prelude.{◌≡◌, ◌+◌, ◌<◌, ◌^◌, ◌==◌, false, [], All, Contains, IfOk, IfSome, IfNone, IsTrue};
ghost use Rattle.std.specs.Prelude.{length, map, slice_index_or};
ghost use Rattle.std.specs.List.{IsDistinct};
ghost use Rattle.mrp_loops.specs.Sized.{IsSized};
ghost use Rattle.mrp_net.specs.Lanes.{lanes, lane_at, lane_items};
ghost use Rattle.mrp_lane.specs.declared.tally.ItemPieces.{ItemPieces};
ghost use Rattle.mrp_lane.specs.Tallies.{counts_of, counted, is_same_pieces, item_pieces_of, more_of, record_pieces};

use mrp_net::{ItemNo, LaneNo, Network};
use mrp_qty::{Memory, Qty};
use mrp_record::Record;
use std::alloc::Global;
use std::marker::Model;

/// The pieces of one item that went through an end of a lane.
#[derive(Clone, Copy)]
pub struct ItemPieces {
    /// An item of the lane.
    pub item: ItemNo,
    /// Where its cumulative figures begin.
    pub opening: Qty,
    /// The pieces of its lines so far.
    pub pieces: u64,
}

/// How many records went through an end, and how many pieces of each item.
///
/// The items are the lane's, in its order. The records of an item stand together on a lane, so its place
/// is looked for beside that of the last one first.
#[derive(Drop)]
pub struct Tally {
    records: u64,
    near: usize,
    items: Vec<ItemPieces>,
}

impl Model for Tally {
    ghost use Rattle.std.specs.List.{IsDistinct};
    ghost use Rattle.mrp_lane.specs.Tallies.{Counts, is_same_pieces};

    ghost Value = { Counts };

    ghost view = { λ t. record { records = t.records; items = t.items.items } };

    ghost invariant = { λ t. IsDistinct is_same_pieces t.items.items };
}

impl Tally {
    /// The tally before the first record.
    ///
    /// # Errors
    ///
    /// [`Memory`] where the room for the items is refused.
    pub fn of(alloc: Global, network: &Network, lane: LaneNo) -> Result<Tally, Memory>
        requires sized { IsSized network.now }
        requires lane { lane.0 < length (lanes network.now) }
        ensures { IfOk result (λ t. t ≡ counts_of network.now lane.0 []) }
    {
        let items = opened(alloc, network, lane)?;
        Ok(Tally {
            records: 0,
            near: 0,
            items,
        })
    }

    /// One record more.
    pub fn add(&mut self, entry: &Record)
        requires number { self.old.records + 1 < 2 ^ 64 }
        requires fits { All (λ i. i.pieces + record_pieces i.item.0 entry.now < 2 ^ 64) self.old.items }
        ensures { self.new ≡ counted self.old entry.now }
    {
        self.records += 1;
        if let Record::Line { item, quantity, .. } = *entry {
            self.near = add_pieces(self.items.as_mut_slice(), self.near, item, quantity);
        }
    }

    /// How many records went through.
    pub fn records(&self) -> u64
        ensures { result ≡ self.now.records }
    {
        self.records
    }

    /// The pieces of each item.
    pub fn items(&self) -> &[ItemPieces]
        ensures { result.now ≡ self.now.items }
    {
        self.items.as_slice()
    }
}

/// Room behind the items of a tally, so that those of the two ends, which two threads write, lie in cache
/// lines of their own.
const APART: usize = 8;

/// The items of a lane before the first record.
fn opened(alloc: Global, network: &Network, lane: LaneNo) -> Result<Vec<ItemPieces>, Memory>
    requires sized { IsSized network.now }
    requires lane { lane.0 < length (lanes network.now) }
    ensures items { IfOk result (λ items. items.items ≡ (counts_of network.now lane.0 []).items) }
    ensures once { IfOk result (λ items. IsDistinct is_same_pieces items.items) }
{
    let on_lane = network.lane_items(lane);
    let mut items = Vec::with_capacity(alloc, on_lane.len().saturating_add(APART))?;
    for item in on_lane {
        items.push(opened_item(network, lane, *item))?;
    }
    Ok(items)
}

/// An item of a lane before the first record.
fn opened_item(network: &Network, lane: LaneNo, item: ItemNo) -> ItemPieces
    requires sized { IsSized network.now }
    requires lane { lane.0 < length (lanes network.now) }
    requires item { Contains (lane_items network.now (lane_at network.now lane.0)) item }
    ensures { result ≡ item_pieces_of network.now lane.0 [] item }
{
    ItemPieces {
        item,
        opening: Qty::of(network.opening(lane, item)),
        pieces: 0,
    }
}

/// Adds the pieces to the item's, and answers where it stands; `near` is where the last one stood.
fn add_pieces(items: &mut [ItemPieces], near: usize, item: ItemNo, quantity: u64) -> usize
    requires once { IsDistinct is_same_pieces items.old }
    requires fits { All (λ i. i.item.0 ≡ item.0 → i.pieces + quantity < 2 ^ 64) items.old }
    ensures { items.new ≡ map (more_of item.0 quantity) items.old }
{
    match place(items, near, item) {
        Some(at) => {
            items[at].pieces += quantity;
            at
        }
        None => near,
    }
}

/// Where the item stands, or `None` where it doesn't: first at `near` and behind it, then anywhere.
fn place(items: &[ItemPieces], near: usize, item: ItemNo) -> Option<usize>
    ensures inside { IfSome result (λ at. at < length items.now) }
    ensures found { IfSome result (λ at. (d : ItemPieces) → (slice_index_or items.now at d).item.0 ≡ item.0) }
    ensures missing { IfNone result (All (λ i. (item.0 == i.item.0) ≡ false) items.now) }
{
    let next = near.wrapping_add(1);
    if is_at(items, near, item) {
        Some(near)
    } else if is_at(items, next, item) {
        Some(next)
    } else {
        position(items, item)
    }
}

/// Whether the item stands there.
fn is_at(items: &[ItemPieces], at: usize, item: ItemNo) -> bool
    ensures { IsTrue result → (at < length items.now)
        × ((d : ItemPieces) → (slice_index_or items.now at d).item.0 ≡ item.0) }
{
    at < items.len() && item.0 == items[at].item.0
}

/// Where the item stands first, or `None` where it doesn't.
fn position(items: &[ItemPieces], item: ItemNo) -> Option<usize>
    ensures inside { IfSome result (λ at. at < length items.now) }
    ensures found { IfSome result (λ at. (d : ItemPieces) → (slice_index_or items.now at d).item.0 ≡ item.0) }
    ensures missing { IfNone result (All (λ i. (item.0 == i.item.0) ≡ false) items.now) }
{
    for at in 0..items.len() {
        if item.0 == items[at].item.0 {
            return Some(at);
        }
    }
    None
}
