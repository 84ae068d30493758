//! The view of one plant: its pairs, their rows, its lanes.

use crate::frame::PlantFrame;
use crate::lists::Lists;
use mrp_net::{FirmRow, ItemNo, LaneKind, LaneNo, PairNo, Shipment, UsageRow};
use mrp_netting::{PairParams, Policy};
use mrp_qty::{Horizon, Memory};
use std::alloc::Global;
use std::marker::Model;

/// A pair of a plant.
#[derive(Clone, Copy, Debug)]
pub struct PlantPair {
    /// Its number in the network.
    pub number: PairNo,
    /// What it is.
    pub item: ItemNo,
    /// How it is planned.
    pub params: PairParams,
    /// How it is planned beyond that: none of each where no policy says more.
    pub policy: Policy,
}

/// A component of a made pair of a plant.
#[derive(Clone, Copy, Debug)]
pub struct PlantEdge {
    /// The pair that is made.
    pub parent: PairNo,
    /// The pair that goes into it.
    pub component: PairNo,
    /// How many pieces of the component go into one of the parent where no usage row is in force, 1 to 10^6.
    pub per: u64,
}

/// An item of a lane that a plant receives.
#[derive(Clone, Copy, Debug)]
pub struct IncomingItem {
    /// The item.
    pub item: ItemNo,
    /// The plant's pair of the item: the taker on a despatch lane, the pair that is taken from on a
    /// schedule lane.
    pub pair: PairNo,
    /// Where its cumulative figures begin, in pieces.
    pub opening: u64,
    /// The period from which they start anew.
    pub reset: Option<u64>,
}

/// The items of a lane that a plant receives, in lane order. Contracts see it as their list.
#[derive(Drop)]
pub struct IncomingItems {
    items: Vec<IncomingItem>,
}

impl Model for IncomingItems {
    ghost use Rattle.std.specs.Prelude.{List};
    ghost use Rattle.mrp_plant_view.specs.declared.view.IncomingItem.{IncomingItem};

    ghost Value = { List IncomingItem };

    ghost view = { λ i. i.items.items };
}

impl IncomingItems {
    ghost use Rattle.std.specs.Prelude.{◌≡◌};

    /// The items.
    pub fn as_slice(&self) -> &[IncomingItem]
        ensures { result.now ≡ self.now }
    {
        self.items.as_slice()
    }

    /// The items of a list.
    pub(crate) fn of(items: Vec<IncomingItem>) -> IncomingItems
        ensures { result ≡ items.items }
    {
        IncomingItems { items }
    }
}

/// A lane that a plant receives.
#[derive(Drop)]
pub struct IncomingLane {
    /// Its number in the network.
    pub number: LaneNo,
    /// What its records say.
    pub kind: LaneKind,
    /// Its items.
    pub items: IncomingItems,
}

/// What a schedule lane calls for of an item: a share of what one of the plant's own pairs releases.
#[derive(Clone, Copy, Debug)]
pub struct Call {
    /// The plant's own pair that takes the item.
    pub customer: PairNo,
    /// Where this supplier's share of its releases begins, 0 to 999 thousandths.
    pub low: u64,
    /// Where it ends, 1 to 1000 thousandths.
    pub high: u64,
}

/// What an item of an outgoing lane says beside its shipments.
#[derive(Clone, Copy, Debug)]
pub struct OutgoingItem {
    /// The item.
    pub item: ItemNo,
    /// What had been shipped of it before the shipments of the table, in pieces, at most 10^15.
    pub figure: u64,
    /// What is called for of it on a schedule lane. `None` on a despatch lane: which pair takes the item
    /// there, and how much of it from whom, is the customer's.
    pub call: Option<Call>,
    /// The period from which its cumulative figures start anew.
    pub reset: Option<u64>,
}

/// An item of an outgoing lane, and where its shipments stand in the lane's list of them.
#[derive(Clone, Copy)]
pub(crate) struct OutgoingRow {
    item: OutgoingItem,
    begin: usize,
    end: usize,
}

/// The items of a lane that a plant sends, in lane order, each with its shipments on their way.
/// Contracts see it as their list.
#[derive(Drop)]
pub struct OutgoingItems {
    rows: Vec<OutgoingRow>,
    shipments: Vec<Shipment>,
}

impl Model for OutgoingItems {
    ghost use Rattle.std.specs.Prelude.{List};
    ghost use Rattle.mrp_plant_view.specs.Loads.{OutgoingLoad, loads_of, AreParts};

    ghost Value = { List OutgoingLoad };

    ghost view = { λ o. loads_of o.rows.items o.shipments.items };

    ghost invariant = { λ o. AreParts o.rows.items o.shipments.items };
}

impl OutgoingItems {
    ghost use Rattle.std.specs.Prelude.{◌≡◌, ◌<◌, ◌++◌, ◌∷◌, [], length, IfOk};
    ghost use Rattle.mrp_plant_view.specs.Loads.{load, bare, load_at};

    /// No items.
    pub(crate) fn new(alloc: Global) -> OutgoingItems
        ensures { result ≡ [] }
    {
        OutgoingItems {
            rows: Vec::new(alloc),
            shipments: Vec::new(alloc),
        }
    }

    /// One item more, with its shipments.
    pub(crate) fn push(&mut self, item: OutgoingItem, shipments: &[Shipment]) -> Result<(), Memory>
        ensures { IfOk result (λ _. self.new ≡ self.old ++ load item shipments.now ∷ []) }
    {
        let begin = self.shipments.len();
        self.shipments.extend_from_slice(shipments)?;
        let end = self.shipments.len();
        self.rows.push(OutgoingRow { item, begin, end })?;
        Ok(())
    }

    /// How many items there are.
    pub fn len(&self) -> usize
        ensures { result ≡ length self.now }
    {
        self.rows.len()
    }

    /// Item `j`, without its shipments.
    pub fn get(&self, j: usize) -> OutgoingItem
        requires { j < length self.now }
        ensures { result ≡ bare (load_at self.now j) }
    {
        self.rows[j].item
    }

    /// The shipments of item `j` on their way from this plant, in table order: none on a schedule lane.
    pub fn shipments(&self, j: usize) -> &[Shipment]
        requires { j < length self.now }
        ensures { result.now ≡ (load_at self.now j).shipments }
    {
        let row = self.rows[j];
        &self.shipments[row.begin..row.end]
    }
}

/// A lane that a plant sends.
#[derive(Drop)]
pub struct OutgoingLane {
    /// Its number in the network.
    pub number: LaneNo,
    /// What its records say.
    pub kind: LaneKind,
    /// Its items.
    pub items: OutgoingItems,
}

/// What one plant sees of a network: its own pairs, the components of those that are made, what their
/// demand rows and receipt rows add up to, their firm planned orders, policies and usage rows, and the lanes that it
/// receives or sends. It sees no row of another plant beside these lanes, and every pair that it names is the plant's
/// own.
///
/// Demands and receipts are kept as sums for each pair and period, since a plan looks at nothing else
/// of them.
#[derive(Drop)]
pub struct PlantView {
    pub(crate) frame: PlantFrame,
    pub(crate) demands: Vec<u64>,
    pub(crate) receipts: Vec<u64>,
}

impl Model for PlantView {
    ghost use Rattle.std.specs.Prelude.{◌≡◌};
    ghost use Rattle.mrp_plant_view.specs.View.{PlantRows};

    ghost Value = { PlantRows };

    ghost view = { λ v. v.frame };

    ghost invariant = { λ v. (v.frame.demands ≡ v.demands.items) × (v.frame.receipts ≡ v.receipts.items) };
}

impl PlantView {
    ghost use Rattle.std.specs.Prelude.{◌≡◌, ◌==◌, position};

    /// The number of periods.
    pub fn horizon(&self) -> Horizon
        ensures { result ≡ self.now.horizon }
    {
        self.frame.horizon()
    }

    /// The plant's pairs, in table order. The place of a pair is its place in this list.
    pub fn pairs(&self) -> &[PlantPair]
        ensures { result.now ≡ self.now.pairs }
    {
        self.frame.pairs()
    }

    /// The place of a pair among the plant's pairs, or `None` where it is another plant's.
    pub fn place(&self, x: PairNo) -> Option<usize>
        ensures { result ≡ position (λ p. p.number.0 == x.0) self.now.pairs }
    {
        self.frame.place(x)
    }

    /// The components of its made pairs, by component in table order, and then by parent.
    pub fn edges(&self) -> &[PlantEdge]
        ensures { result.now ≡ self.now.edges }
    {
        self.frame.edges()
    }

    /// The sums of the demand rows, in pieces: pair by pair, period by period.
    pub fn demands(&self) -> &[u64]
        ensures { result.now ≡ self.now.demands }
    {
        self.demands.as_slice()
    }

    /// The sums of the receipt rows that count when they come, in pieces: pair by pair, period by period. A pair whose
    /// receipts may be counted sooner has 0 here.
    pub fn receipts(&self) -> &[u64]
        ensures { result.now ≡ self.now.receipts }
    {
        self.receipts.as_slice()
    }

    /// The firm planned orders of its pairs, by the places of the pairs.
    pub fn firms(&self) -> &Lists<FirmRow>
        ensures { result.now ≡ self.now.firms }
    {
        self.frame.firms()
    }

    /// The receipts of its pairs that may be counted sooner than they come, by the places of the pairs: of a pair whose
    /// policy has SOONER what its receipt rows add up to, in pieces by period, of others no period.
    pub fn sooner(&self) -> &Lists<u64>
        ensures { result.now ≡ self.now.sooner }
    {
        self.frame.sooner()
    }

    /// The usage rows of its pairs as components, by the places of the pairs: how many pieces go into their parents, in
    /// order of the parents, and of each parent by rising periods.
    pub fn usages(&self) -> &Lists<UsageRow>
        ensures { result.now ≡ self.now.usages }
    {
        self.frame.usages()
    }

    /// The lanes that the plant receives, in lane order.
    pub fn incoming(&self) -> &[IncomingLane]
        ensures { result.now ≡ self.now.incoming }
    {
        self.frame.incoming()
    }

    /// The lanes that the plant sends, in lane order.
    pub fn outgoing(&self) -> &[OutgoingLane]
        ensures { result.now ≡ self.now.outgoing }
    {
        self.frame.outgoing()
    }

    /// What the plant sees without the sums, the sums of the demand rows, and those of the receipt rows that count when
    /// they come.
    pub fn into_parts(self) -> (PlantFrame, Vec<u64>, Vec<u64>)
        ensures frame { result.0 ≡ self }
        ensures demands { result.1.items ≡ self.demands }
        ensures receipts { result.2.items ≡ self.receipts }
    {
        let PlantView {
            frame,
            demands,
            receipts,
        } = self;
        (frame, demands, receipts)
    }
}
