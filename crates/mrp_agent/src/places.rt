//! The agent: where an item stands among those of its plant.

ghost use Rattle.std.specs.Prelude.{◌≡◌, IfOk, map};

use mrp_grouping::Places;
use mrp_master_data::ItemNo;
use mrp_plant_view::PlantPair;
use std::alloc::{AllocError, Global};
use std::marker::Model;

/// The places of items in a list that has each of them once. Contracts see the list.
#[derive(Drop)]
pub(crate) struct ItemPlaces {
    items: Places<ItemNo>,
}

impl Model for ItemPlaces {
    ghost use Rattle.std.specs.Prelude.{List};
    ghost use Rattle.mrp_master_data.specs.declared.numbers.ItemNo.{ItemNo};

    ghost Value = { List ItemNo };

    ghost view = { λ p. p.items };
}

impl ItemPlaces {
    ghost use Rattle.std.specs.Prelude.{ℕ, ◌<◌, ◌≤◌, ◌==◌, count_by, length, IfSome};
    ghost use Rattle.mrp_agent.specs.After.{place_among};

    /// The place of an item.
    pub(crate) fn find(&self, item: ItemNo) -> Option<usize>
        ensures place { result ≡ place_among self.now item }
        ensures within { IfSome result (λ place. place < length self.now) }
    {
        self.items.find(item)
    }

    /// The place of an item, which is looked for at the place `near` and right behind it first.
    pub(crate) fn find_near(&self, item: ItemNo, near: usize) -> Option<usize>
        ensures place { result ≡ place_among self.now item }
        ensures within { IfSome result (λ place. place < length self.now) }
    {
        self.items.find_near(item, near)
    }

    /// The items of a plant's pairs, which has each of them once.
    pub(crate) fn of_pairs(alloc: Global, pairs: &[PlantPair]) -> Result<ItemPlaces, AllocError>
        requires { (item : ℕ) → count_by (λ p. p.item.0 == item) pairs.now ≤ 1 }
        ensures { IfOk result (λ places. places ≡ map (λ p. p.item) pairs.now) }
    {
        let mut items = Places::new(alloc);
        for pair in pairs {
            items.push(pair.item)?;
        }
        Ok(ItemPlaces { items })
    }
}

/// Where the lanes and the pair of the last records stood. The next ones are looked for there first, and
/// then everywhere, so these places change no answer. Contracts don't see them.
#[derive(Clone, Copy)]
pub(crate) struct LastPlaces {
    /// The place of the lane that a record was sent on.
    pub(crate) sent: usize,
    /// The place of the lane that a record was booked on.
    pub(crate) booked: usize,
    /// The place of the pair whose item was booked.
    pub(crate) pair: usize,
}

impl LastPlaces {
    /// Those before the first record.
    pub(crate) fn new() -> LastPlaces {
        LastPlaces {
            sent: 0,
            booked: 0,
            pair: 0,
        }
    }
}
