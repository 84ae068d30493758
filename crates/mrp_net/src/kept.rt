//! The network: what it keeps of its table.

ghost use Rattle.std.specs.Prelude.{◌≡◌, ◌==◌, ◌&&◌, ◌↔◌, IsSome, IfSome, option_map, position};
ghost use Rattle.mrp_master_data.specs.Table.{IsPair, IsTable, horizon, pair_no};
ghost use Rattle.mrp_master_data.specs.Dropping.{without_bills_and_demands};

use mrp_master_data::{ItemNo, PairNo, PlantNo, RowLists, Tables};
use mrp_qty::Horizon;
use std::alloc::Global;
use std::marker::Model;
use std::snapshot::Snapshot;

/// A table whose bill, demand and usage rows were dropped: edges, sums and usages have what they say.
///
/// Contracts see the whole table.
#[derive(Drop)]
pub struct Kept {
    whole: Snapshot<Tables>,
    kept: Tables,
}

impl Model for Kept {
    ghost use Rattle.std.specs.Prelude.{◌≡◌};
    ghost use Rattle.mrp_master_data.specs.Table.{Table, IsTable};
    ghost use Rattle.mrp_master_data.specs.Dropping.{without_bills_and_demands};

    ghost Value = { Table };

    ghost view = { λ k. k.whole.value };

    ghost invariant = { λ k. IsTable k.whole.value × (k.kept ≡ without_bills_and_demands k.whole.value) };
}

impl Kept {
    /// What is kept of a table whose edges, sums and usages are made.
    pub fn of(alloc: Global, tables: Tables) -> Kept
        ensures { result ≡ tables }
    {
        let _rows = tables.rows();
        let whole = Snapshot::of(&tables);
        let mut kept = tables;
        kept.drop_bills_and_demands(alloc);
        Kept { whole, kept }
    }

    /// The table without the rows that were dropped.
    pub fn as_tables(&self) -> &Tables
        ensures { result.now ≡ without_bills_and_demands self.now }
    {
        &self.kept
    }

    /// The rows that are kept: all but the bill, demand and usage rows.
    pub fn rows(&self) -> &RowLists
        ensures value { result.now ≡ without_bills_and_demands self.now }
        ensures table { IsTable self.now }
    {
        self.kept.rows()
    }

    /// The number of periods.
    pub fn horizon(&self) -> Horizon
        ensures value { result ≡ horizon self.now }
    {
        self.kept.horizon()
    }

    /// The pair of a plant and an item, if there is one.
    pub fn find_pair(&self, plant: PlantNo, item: ItemNo) -> Option<PairNo>
        ensures place { option_map (λ x. x.0) result
            ≡ position (λ p. (p.plant.0 == plant.0) && (p.item.0 == item.0)) self.now.pairs }
        ensures found { IsSome result ↔ IsPair self.now (pair_no self.now plant.0 item.0) }
        ensures value { IfSome result (λ x. x.0 ≡ pair_no self.now plant.0 item.0) }
    {
        self.kept.find_pair(plant, item)
    }
}
