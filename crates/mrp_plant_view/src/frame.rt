//! The view of one plant, but for the sums of its demand rows and of its receipt rows that count when they come.

use crate::lists::Lists;
use crate::view::{IncomingLane, OutgoingLane, PlantEdge, PlantPair};
use mrp_net::{FirmRow, PairNo, UsageRow};
use mrp_qty::Horizon;
use std::marker::Model;
use std::snapshot::Snapshot;

/// What one plant sees of a network, after the sums of its demand rows and of its receipt rows that count when they come
/// were handed out: its own pairs, the components of those that are made, and the lanes that it receives or sends.
///
/// Contracts see the sums too. They take no room here.
#[derive(Drop)]
pub struct PlantFrame {
    pub(crate) horizon: Horizon,
    pub(crate) pairs: Vec<PlantPair>,
    pub(crate) edges: Vec<PlantEdge>,
    pub(crate) demands: Snapshot<Vec<u64>>,
    pub(crate) receipts: Snapshot<Vec<u64>>,
    pub(crate) firms: Lists<FirmRow>,
    pub(crate) sooner: Lists<u64>,
    pub(crate) usages: Lists<UsageRow>,
    pub(crate) incoming: Vec<IncomingLane>,
    pub(crate) outgoing: Vec<OutgoingLane>,
}

impl Model for PlantFrame {
    ghost use Rattle.mrp_plant_view.specs.View.{PlantRows};

    ghost Value = { PlantRows };

    ghost view = { λ v. record {
      horizon = v.horizon;
      pairs = v.pairs.items;
      edges = v.edges.items;
      demands = v.demands.value.items;
      receipts = v.receipts.value.items;
      firms = v.firms;
      sooner = v.sooner;
      usages = v.usages;
      incoming = v.incoming.items;
      outgoing = v.outgoing.items;
    } };

    ghost use Rattle.mrp_plant_view.specs.View.{NumbersRise};

    ghost invariant = { λ v. NumbersRise v.pairs.items };
}

impl PlantFrame {
    ghost use Rattle.std.specs.Prelude.{◌≡◌, ◌==◌, position, Some, IfSome};

    /// The number of periods.
    pub fn horizon(&self) -> Horizon
        ensures { result ≡ self.now.horizon }
    {
        self.horizon
    }

    /// The plant's pairs, in table order. The place of a pair is its place in this list.
    pub fn pairs(&self) -> &[PlantPair]
        ensures { result.now ≡ self.now.pairs }
    {
        self.pairs.as_slice()
    }

    /// The place of a pair among the plant's pairs, or `None` where it is another plant's.
    pub fn place(&self, x: PairNo) -> Option<usize>
        ensures { result ≡ position (λ p. p.number.0 == x.0) self.now.pairs }
    {
        match self.following_place(x) {
            Some(place) => Some(place),
            None => self.searched_place(x),
        }
    }

    /// The place of a pair where the plant's pairs up to it follow one another in the table, as they mostly
    /// do.
    fn following_place(&self, x: PairNo) -> Option<usize>
        ensures { IfSome result (λ place. Some place ≡ position (λ p. p.number.0 == x.0) self.now.pairs) }
    {
        let first = self.pairs.first()?;
        let place = x.0.checked_sub(first.number.0)?;
        let pair = self.pairs.get(place)?;
        if pair.number.0 == x.0 {
            Some(place)
        } else {
            None
        }
    }

    /// The place of a pair, wherever the plant's pairs stand in the table.
    fn searched_place(&self, x: PairNo) -> Option<usize>
        ensures { result ≡ position (λ p. p.number.0 == x.0) self.now.pairs }
    {
        let found = self.pairs.binary_search_by_key(&x.0, |pair| pair.number.0);
        found.ok()
    }

    /// The components of its made pairs, by component in table order, and then by parent.
    pub fn edges(&self) -> &[PlantEdge]
        ensures { result.now ≡ self.now.edges }
    {
        self.edges.as_slice()
    }

    /// The firm planned orders of its pairs, by the places of the pairs.
    pub fn firms(&self) -> &Lists<FirmRow>
        ensures { result.now ≡ self.now.firms }
    {
        &self.firms
    }

    /// The receipts of its pairs that may be counted sooner than they come, by the places of the pairs: of a pair whose
    /// policy has SOONER what its receipt rows add up to, in pieces by period, of others no period.
    pub fn sooner(&self) -> &Lists<u64>
        ensures { result.now ≡ self.now.sooner }
    {
        &self.sooner
    }

    /// The usage rows of its pairs as components, by the places of the pairs: how many pieces go into their parents, in
    /// order of the parents, and of each parent by rising periods.
    pub fn usages(&self) -> &Lists<UsageRow>
        ensures { result.now ≡ self.now.usages }
    {
        &self.usages
    }

    /// The lanes that the plant receives, in lane order.
    pub fn incoming(&self) -> &[IncomingLane]
        ensures { result.now ≡ self.now.incoming }
    {
        self.incoming.as_slice()
    }

    /// The lanes that the plant sends, in lane order.
    pub fn outgoing(&self) -> &[OutgoingLane]
        ensures { result.now ≡ self.now.outgoing }
    {
        self.outgoing.as_slice()
    }
}
