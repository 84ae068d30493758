//! The reader of tables: the plants, the items and the pairs of the rows so far, found by their names.

ghost use Rattle.std.specs.Prelude.{◌≡◌, ℕ, List, position};
ghost use Rattle.std.specs.Str.{bytes_eq};
ghost use Rattle.mrp_tables.specs.Keys.{FindsNames};

use crate::draft::Draft;
use crate::name_key::{NameKey, PairKey};
use csv::StringRecord;
use indexmap::IndexSet;
use mrp_master_data::{ItemNo, PairNo, PairRow, PlantNo, RowLists};
use mrp_validation::{TableFaultKind, field};
use std::alloc::Global;

/// The plants, the items and the pairs of the rows so far by their keys, in their order. A pair is found by the names
/// of its plant and its item in one look-up, since nearly each row looks for one.
#[derive(Drop)]
pub(crate) struct KnownNames {
    plants: IndexSet<NameKey>,
    items: IndexSet<NameKey>,
    pairs: IndexSet<PairKey>,
}

impl KnownNames {
    ghost use Rattle.std.specs.Prelude.{◌≡◌, ◌<◌, ◌==◌, ◌&&◌, [], false, length, position, unwrap_or, IfErr, IfOk};
    ghost use Rattle.std.specs.Prelude.{OnOk};
    ghost use Rattle.std.specs.List.{list_any};
    ghost use Rattle.std.specs.Str.{bytes_eq};
    ghost use Rattle.mrp_validation.specs.declared.fault.TableFaultKind.TheVariants.{Memory};
    ghost use Rattle.mrp_master_data.specs.Table.{most};
    ghost use Rattle.mrp_master_data.specs.Growing.{with_item, with_pair, with_plant};
    ghost use Rattle.mrp_master_data.specs.Names.{has_plant};
    ghost use Rattle.mrp_master_data.specs.Table.{IsName, IsPairRow, IsRead};
    ghost use Rattle.mrp_tables.specs.Keys.{FindsAll, Knows};

    /// No names.
    pub(crate) fn new(alloc: Global) -> KnownNames
        ensures knows { FindsAll [] [] [] result }
    {
        KnownNames {
            plants: IndexSet::new(alloc),
            items: IndexSet::new(alloc),
            pairs: IndexSet::new(alloc),
        }
    }

    /// Adds a plant, of which there is no row yet.
    pub(crate) fn add_plant(
        &mut self,
        lists: &mut RowLists,
        alloc: Global,
        name: &str,
    ) -> Result<(), TableFaultKind>
        requires rows { IsRead lists.old }
        requires knows { Knows lists.old self.old }
        requires named { IsName name.now }
        requires fresh { has_plant lists.old name.now ≡ false }
        requires room { length lists.old.plants < (most lists.old).plants }
        ensures memory { IfErr result (λ fault. fault ≡ Memory) }
        ensures rows { OnOk result (IsRead lists.new) }
        ensures table { OnOk result (lists.new ≡ with_plant lists.old name.now) }
        ensures knows { OnOk result (Knows lists.new self.new) }
    {
        let Some(key) = NameKey::of(name) else {
            unreachable!();
        };
        if !self.plants.insert(key)? {
            unreachable!();
        }
        lists.add_plant(alloc, name)?;
        Ok(())
    }

    /// The number of the item of that name, which is added where no pair row has named it.
    pub(crate) fn item_no(
        &mut self,
        lists: &mut RowLists,
        alloc: Global,
        name: &str,
    ) -> Result<ItemNo, TableFaultKind>
        requires rows { IsRead lists.old }
        requires knows { Knows lists.old self.old }
        requires named { IsName name.now }
        requires room { length lists.old.items < (most lists.old).pairs }
        ensures memory { IfErr result (λ fault. fault ≡ Memory) }
        ensures rows { OnOk result (IsRead lists.new) }
        ensures table { OnOk result (lists.new ≡ with_item lists.old name.now) }
        ensures knows { OnOk result (Knows lists.new self.new) }
        ensures place { IfOk result (λ item. item.0 ≡ unwrap_or (position (bytes_eq name.now) lists.new.items) 0) }
        ensures within { IfOk result (λ item. item.0 < length lists.new.items) }
    {
        let Some(key) = NameKey::of(name) else {
            unreachable!();
        };
        let (place, is_new) = self.items.insert_full(key)?;
        if !is_new {
            return Ok(ItemNo(place));
        }
        lists.add_item(alloc, name)?;
        Ok(ItemNo(place))
    }

    /// Adds a pair, of which there is no row yet.
    pub(crate) fn add_pair(
        &mut self,
        lists: &mut RowLists,
        row: PairRow,
    ) -> Result<(), TableFaultKind>
        requires rows { IsRead lists.old }
        requires knows { Knows lists.old self.old }
        requires row { IsPairRow lists.old row }
        requires fresh { list_any (λ p. (p.plant.0 == row.plant.0) && (p.item.0 == row.item.0)) lists.old.pairs
            ≡ false }
        requires room { length lists.old.pairs < (most lists.old).pairs }
        ensures memory { IfErr result (λ fault. fault ≡ Memory) }
        ensures rows { OnOk result (IsRead lists.new) }
        ensures table { OnOk result (lists.new ≡ with_pair lists.old row) }
        ensures knows { OnOk result (Knows lists.new self.new) }
    {
        let Some(item) = NameKey::of(lists.item_name(row.item)) else {
            unreachable!();
        };
        let Some(plant) = NameKey::of(lists.plant_name(row.plant)) else {
            unreachable!();
        };
        if !self.pairs.insert(PairKey { plant, item })? {
            unreachable!();
        }
        lists.add_pair(row)?;
        Ok(())
    }
}

impl Draft {
    ghost use Rattle.std.specs.Prelude.{◌≡◌, ◌<◌, is_some, length, option_map, true, IfOk, IfSome, OnSome};
    ghost use Rattle.csv.specs.Records.{fields_of};
    ghost use Rattle.mrp_validation.specs.Grammar.{field, known_pair, seen};
    ghost use Rattle.mrp_tables.specs.Lists.{FindsPair};
    ghost use Rattle.mrp_master_data.specs.Names.{has_plant, pair_named, plant_no};
    ghost use Rattle.mrp_master_data.specs.Table.{IsName, IsRead};
    ghost use Rattle.mrp_tables.specs.Keys.{Knows};

    /// Whether there is a plant of that name.
    pub(crate) fn has_plant(&self, name: &str) -> bool
        requires knows { Knows self.now.lists self.now.known }
        ensures exact { result ≡ has_plant self.now.lists name.now }
    {
        self.find_plant(name).is_some()
    }

    /// The plant of that name, if there is one.
    pub(crate) fn find_plant(&self, name: &str) -> Option<PlantNo>
        requires knows { Knows self.now.lists self.now.known }
        ensures place { option_map (λ p. p.0) result ≡ plant_no self.now.lists name.now }
        ensures within { IfSome result (λ p. p.0 < length self.now.lists.plants) }
        ensures named { OnSome result (IsName name.now) }
    {
        place_by_key(&self.known.plants, name).map(PlantNo)
    }

    /// Whether there is a plant of that name. It isn't looked for where a pair of it was found.
    pub(crate) fn has_plant_of(&self, found: Option<PairNo>, plant: &str) -> bool
        requires knows { Knows self.now.lists self.now.known }
        requires found { OnSome found (is_some (plant_no self.now.lists plant.now) ≡ true) }
        ensures { result ≡ is_some (plant_no self.now.lists plant.now) }
    {
        found.is_some() || self.has_plant(plant)
    }

    /// The pair that the second and the third field of a row name, if it was found.
    pub(crate) fn known_pair(
        &self,
        row: &StringRecord,
        found: Option<PairNo>,
    ) -> Result<PairNo, TableFaultKind>
        requires knows { Knows self.now.lists self.now.known }
        requires found { FindsPair self.now.lists (fields_of row.now) found }
        ensures exact { result ≡ seen (λ known. known.1)
            (known_pair self.now.lists (field (fields_of row.now) 1) (field (fields_of row.now) 2)) }
        ensures within { IfOk result (λ pair. pair.0 < length self.now.lists.pairs) }
    {
        if !self.has_plant_of(found, field(row, 1)) {
            return Err(TableFaultKind::UnknownPlant);
        }
        found.ok_or(TableFaultKind::UnknownPair)
    }

    /// The pair of these names, if there is one.
    pub(crate) fn find_pair(&self, plant: &str, item: &str) -> Option<PairNo>
        requires rows { IsRead self.now.lists }
        requires knows { Knows self.now.lists self.now.known }
        ensures exact { option_map (λ x. x.0) result
            ≡ pair_named self.now.lists (plant_no self.now.lists plant.now) item.now }
        ensures within { IfSome result (λ pair. pair.0 < length self.now.lists.pairs) }
        ensures plant { OnSome result (is_some (plant_no self.now.lists plant.now) ≡ true) }
        ensures named { OnSome result (IsName plant.now × IsName item.now) }
    {
        let plant = NameKey::of(plant)?;
        let item = NameKey::of(item)?;
        match self.known.pairs.get_index_of(&PairKey { plant, item }) {
            Some(place) => Some(PairNo(place)),
            None => None,
        }
    }

    /// Whether there is a row of the pair of these names.
    pub(crate) fn has_pair(&self, plant: &str, item: &str) -> bool
        requires rows { IsRead self.now.lists }
        requires knows { Knows self.now.lists self.now.known }
        ensures exact { result ≡ is_some (pair_named self.now.lists (plant_no self.now.lists plant.now) item.now) }
    {
        self.find_pair(plant, item).is_some()
    }
}

/// The place of a name by its key, from 0, or `None` where it isn't there.
fn place_by_key(keys: &IndexSet<NameKey>, name: &str) -> Option<usize>
    ensures exact { (names : List (List ℕ)) → FindsNames names keys.now.keys
        → result ≡ position (bytes_eq name.now) names }
{
    let key = NameKey::of(name)?;
    keys.get_index_of(&key)
}
