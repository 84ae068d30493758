//! The reader of tables: plant and pair rows, tested against the rows before them.

ghost use Rattle.std.specs.Prelude.{◌≡◌, map};
ghost use Rattle.mrp_master_data.specs.SupplyParsing.{named_sources};
ghost use Rattle.mrp_validation.specs.Grammar.{supply_kind};
ghost use Rattle.mrp_master_data.specs.Spelled.{source_view, supply_view, AreSources, HasSources};

use crate::draft::{Arrivals, Draft, LaneKey};
use crate::spelled::{SpelledPair, spelled_pair, spelled_plant};
use csv::StringRecord;
use mrp_master_data::{
    PairNo, PairRow, PlantNo, SourceRow, SpelledSource, SpelledSupply, Supply, names_plant,
};
use mrp_qty::Qty;
use mrp_validation::TableFaultKind;
use std::alloc::Global;

impl Draft {
    ghost use Rattle.std.specs.Prelude.{◌≡◌, ◌+◌, ◌*◌, ◌≤◌, ◌<◌, false, true, length, map, All, OnOk, IfErr, IfOk};
    ghost use Rattle.csv.specs.Records.{fields_of};
    ghost use Rattle.mrp_validation.specs.declared.fault.TableFaultKind.TheVariants.{Memory};
    ghost use Rattle.mrp_master_data.specs.Table.{most};
    ghost use Rattle.mrp_qty.specs.declared.limits.TheConstants.{MOST_SOURCES_OF_PAIR};
    ghost use Rattle.mrp_master_data.specs.Table.{most};
    ghost use Rattle.mrp_tables.specs.Drafts.{FitsPair, IsNewPair, with_sources};
    ghost use Rattle.mrp_master_data.specs.Names.{has_plant};
    ghost use Rattle.mrp_validation.specs.Grammar.{knows_sources, pair_fits, pair_row, plant_in_row, plant_row, seen};
    ghost use Rattle.mrp_validation.specs.Grammar.{source_row, TellsMade, with_pair_terms};
    ghost use Rattle.mrp_tables.specs.Keys.{Knows};
    ghost use Rattle.mrp_tables.specs.Lists.{IsDraft, AddsRow, FitsRows, AddsSources};
    ghost use Rattle.mrp_master_data.specs.Table.{IsRead};
    ghost use Rattle.mrp_master_data.specs.Growing.{with_source};
    ghost use Rattle.mrp_tables.specs.Spelled.{pair_view, IsSpelledPair};
    ghost use Rattle.mrp_master_data.specs.Spelled.{source_view, AreSources, IsSource};
    ghost use Rattle.mrp_master_data.specs.Table.{is_taken_from, IsName};

    /// Adds a plant row.
    pub(crate) fn add_plant(
        &mut self,
        alloc: Global,
        row: &StringRecord,
    ) -> Result<(), TableFaultKind>
        requires draft { IsDraft self.old }
        ensures exact { TellsMade result (plant_row self.old.lists (fields_of row.now)) self.new.lists }
        ensures adds { OnOk result (AddsRow self.old self.new) }
    {
        let name = self.plant_of(row)?;
        self.known.add_plant(&mut self.lists, alloc, name)
    }

    /// The name of the plant that a plant row adds.
    #[tactic(auto, unfolding(mrp_validation::specs::Grammar::plant_in_row))]
    fn plant_of<'r>(&self, row: &'r StringRecord) -> Result<&'r str, TableFaultKind>
        requires knows { Knows self.now.lists self.now.known }
        ensures exact { seen (λ name. name.now) result ≡ plant_in_row self.now.lists (fields_of row.now) }
        ensures named { IfOk result (λ name. IsName name.now) }
        ensures fresh { IfOk result (λ name. has_plant self.now.lists name.now ≡ false) }
        ensures room { OnOk result (length self.now.lists.plants < (most self.now.lists).plants) }
    {
        let name = spelled_plant(row)?;
        if self.has_plant(name) {
            return Err(TableFaultKind::Repeated);
        }
        if self.lists.plants() >= self.lists.limits().plants {
            return Err(TableFaultKind::TooMany);
        }
        Ok(name)
    }

    /// Adds a pair row.
    pub(crate) fn add_pair(
        &mut self,
        alloc: Global,
        row: &StringRecord,
    ) -> Result<(), TableFaultKind>
        requires draft { IsDraft self.old }
        ensures exact { TellsMade result (pair_row self.old.lists (fields_of row.now)) self.new.lists }
        ensures adds { OnOk result (AddsRow self.old self.new) }
    {
        let spelled = spelled_pair(alloc, self.lists.limit_set(), row)?;
        let plant = self.pair_fits(&spelled)?;
        self.add_spelled(alloc, plant, &spelled)
    }

    /// The plant of a pair row that fits the rows before it.
    #[tactic(auto, unfolding(mrp_validation::specs::Grammar::pair_fits))]
    fn pair_fits(&self, spelled: &SpelledPair<'_>) -> Result<PlantNo, TableFaultKind>
        requires rows { IsRead self.now.lists }
        requires knows { Knows self.now.lists self.now.known }
        ensures exact { result ≡ pair_fits self.now.lists (pair_view spelled.now) }
        ensures fits { IfOk result (λ plant. FitsPair self.now.lists plant (pair_view spelled.now)) }
    {
        if self.has_pair(spelled.plant, spelled.item) {
            return Err(TableFaultKind::Repeated);
        }
        let plant = self.find_plant(spelled.plant);
        let plant = plant.ok_or(TableFaultKind::UnknownPlant)?;
        let sources = named_sources(&spelled.supply);
        if !self.knows_all(sources) {
            return Err(TableFaultKind::UnknownPlant);
        }
        if names_plant(sources, spelled.plant) {
            return Err(TableFaultKind::SelfSource);
        }
        if self.lists.pairs().len() >= self.lists.limits().pairs {
            return Err(TableFaultKind::TooMany);
        }
        Ok(plant)
    }

    /// Whether each source is a plant with a row.
    fn knows_all(&self, sources: &[SpelledSource<'_>]) -> bool
        requires knows { Knows self.now.lists self.now.known }
        ensures exact { result ≡ knows_sources self.now.lists (map source_view sources.now) }
    {
        sources.iter().all(|source| self.has_plant(source.plant))
    }

    /// Adds a pair that fits, its item where that is new, and its sources.
    fn add_spelled(
        &mut self,
        alloc: Global,
        plant: PlantNo,
        spelled: &SpelledPair<'_>,
    ) -> Result<(), TableFaultKind>
        requires draft { IsDraft self.old }
        requires spelled { IsSpelledPair self.old.lists.limits spelled.now }
        requires fits { FitsPair self.old.lists plant (pair_view spelled.now) }
        ensures memory { IfErr result (λ fault. fault ≡ Memory) }
        ensures table { OnOk result (self.new.lists ≡ with_pair_terms self.old.lists plant (pair_view spelled.now)) }
        ensures adds { OnOk result (AddsRow self.old self.new) }
    {
        let item = self.known.item_no(&mut self.lists, alloc, spelled.item)?;
        let pair = PairNo(self.lists.pairs().len());
        let row = PairRow {
            plant,
            item,
            supply: supply_of(&spelled.supply),
            rule: spelled.rule,
            lead: spelled.lead,
            on_hand: Qty::of(spelled.on_hand),
            safety: Qty::of(spelled.safety),
        };
        self.known.add_pair(&mut self.lists, row)?;
        self.add_sources(pair, named_sources(&spelled.supply))
    }

    /// Adds the sources of the pair that was added last.
    fn add_sources(
        &mut self,
        pair: PairNo,
        sources: &[SpelledSource<'_>],
    ) -> Result<(), TableFaultKind>
        requires rows { IsRead self.old.lists }
        requires knows { Knows self.old.lists self.old.known }
        requires pair { pair.0 < length self.old.lists.pairs }
        requires sources { AreSources sources.now }
        requires known { knows_sources self.old.lists (map source_view sources.now) ≡ true }
        requires fits { FitsRows self.old.lists self.old.lane_keys.keys self.old.arrivals.items }
        requires fresh { IsNewPair self.old.lists pair.0 }
        requires room { length self.old.lists.sources + MOST_SOURCES_OF_PAIR
            ≤ MOST_SOURCES_OF_PAIR * length self.old.lists.pairs }
        ensures memory { IfErr result (λ fault. fault ≡ Memory) }
        ensures table { OnOk result (self.new.lists
            ≡ with_sources self.old.lists pair.0 (map source_view sources.now)) }
        ensures adds { OnOk result (AddsSources self.old self.new (length sources.now)) }
    {
        for source in sources {
            self.add_source(pair, source)?;
        }
        Ok(())
    }

    /// Adds one source of a pair.
    fn add_source(&mut self, pair: PairNo, source: &SpelledSource<'_>) -> Result<(), TableFaultKind>
        requires rows { IsRead self.old.lists }
        requires knows { Knows self.old.lists self.old.known }
        requires pair { pair.0 < length self.old.lists.pairs }
        requires source { IsSource source.now }
        requires known { has_plant self.old.lists source.now.plant.now ≡ true }
        requires fresh { is_taken_from self.old.lists pair.0
            (source_row self.old.lists pair.0 (source_view source.now)).plant.0 ≡ false }
        requires fits { FitsRows self.old.lists self.old.lane_keys.keys self.old.arrivals.items }
        requires ships { All (λ s. s.pair.0 < pair.0) self.old.lists.ships }
        requires room { length self.old.lists.sources < MOST_SOURCES_OF_PAIR * length self.old.lists.pairs }
        ensures memory { IfErr result (λ fault. fault ≡ Memory) }
        ensures table { OnOk result (self.new.lists
            ≡ with_source self.old.lists (source_row self.old.lists pair.0 (source_view source.now))) }
        ensures adds { OnOk result (AddsSources self.old self.new 1) }
    {
        let Some(from) = self.find_plant(source.plant) else {
            unreachable!();
        };
        if !self.lane_keys.insert(LaneKey { from, pair })? {
            unreachable!();
        }
        self.arrivals.push(Arrivals {
            last: 0,
            falls: false,
        })?;
        self.lists.add_source(SourceRow {
            pair,
            plant: from,
            low: source.low,
            high: source.high,
        })?;
        Ok(())
    }
}

/// The sources that a supply names.
fn named_sources<'s, 'r>(supply: &'s SpelledSupply<'r>) -> &'s [SpelledSource<'r>]
    ensures exact { map source_view result.now ≡ named_sources (supply_view supply.now) }
    ensures sources { HasSources supply.now → AreSources result.now }
{
    match supply {
        SpelledSupply::Make => &[],
        SpelledSupply::Buy => &[],
        SpelledSupply::From(sources) => sources.as_slice(),
    }
}

/// Where a pair comes from, without the plants.
fn supply_of(supply: &SpelledSupply<'_>) -> Supply
    ensures exact { result ≡ supply_kind (supply_view supply.now) }
{
    match supply {
        SpelledSupply::Make => Supply::Make,
        SpelledSupply::Buy => Supply::Buy,
        SpelledSupply::From(_) => Supply::From,
    }
}
