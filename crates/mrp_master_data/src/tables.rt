//! Master data of a table that was read and accepted, as all that plan see them.

ghost use Rattle.std.specs.Prelude.{◌≡◌};

use crate::{ItemNo, PairNo, PlantNo, RowLists};
use mrp_qty::Horizon;
use std::marker::Model;

/// An accepted table: the calendar, and the rows of each kind in table order, with names as numbers.
#[derive(Drop)]
pub struct Tables {
    pub(crate) lists: RowLists,
}

impl Model for Tables {
    ghost use Rattle.mrp_master_data.specs.Table.{Table, IsTable};

    ghost Value = { Table };

    ghost view = { λ t. t.lists };

    ghost invariant = { λ t. IsTable t.lists };
}

impl Tables {
    ghost use Rattle.std.specs.Prelude.{◌≡◌, ◌==◌, ◌&&◌, ◌↔◌, IsSome, IfSome, option_map, position};
    ghost use Rattle.mrp_master_data.specs.Table.{IsPair, IsTable, horizon, pair_no};

    /// The table of all rows read.
    pub fn of(lists: RowLists) -> Tables
        requires table { IsTable lists }
        ensures same { result ≡ lists }
    {
        Tables { lists }
    }

    /// The rows, by which all of the table is read: its calendar, its names, and each list in table order.
    pub fn rows(&self) -> &RowLists
        ensures value { result.now ≡ self.now }
        ensures table { IsTable self.now }
    {
        &self.lists
    }

    /// The number of periods.
    pub fn horizon(&self) -> Horizon
        ensures value { result ≡ horizon self.now }
    {
        self.lists.calendar().horizon()
    }

    /// The pair of a plant and an item, if there is one.
    pub fn find_pair(&self, plant: PlantNo, item: ItemNo) -> Option<PairNo>
        ensures place { option_map (λ x. x.0) result
            ≡ position (λ p. (p.plant.0 == plant.0) && (p.item.0 == item.0)) self.now.pairs }
        ensures found { IsSome result ↔ IsPair self.now (pair_no self.now plant.0 item.0) }
        ensures value { IfSome result (λ x. x.0 ≡ pair_no self.now plant.0 item.0) }
    {
        self.lists.find_pair(plant, item)
    }
}
