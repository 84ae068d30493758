//! The reader of tables: shipment, cumulative and reset rows, tested against the rows before them. Names that find a
//! plant and a pair aren't tested for being names.

ghost use Rattle.std.specs.Prelude.{◌≡◌, IfOk};
ghost use Rattle.mrp_tables.specs.Lists.{key_between};

use crate::draft::{Draft, LaneKey};
use crate::spelled::{spelled_lane_number, spelled_ship};
use csv::StringRecord;
use mrp_master_data::{CumRow, PairNo, PlantNo, ResetRow, ShipRow};
use mrp_qty::{MOST, Qty};
use mrp_validation::{TableFaultKind, field};

/// What a row on a lane names, as far as it is there.
#[derive(Clone, Copy)]
pub(crate) struct NamedLane {
    pub(crate) from: Option<PlantNo>,
    /// Whether there is a plant of the receiver's name.
    pub(crate) has_to: bool,
    pub(crate) pair: Option<PairNo>,
    /// The place of the source, where the pair is taken from the plant.
    pub(crate) place: Option<usize>,
}

/// A lane that is there: the plant that ships, the pair that receives and the place of the source.
#[derive(Clone, Copy)]
pub(crate) struct KnownLane {
    pub(crate) from: PlantNo,
    pub(crate) pair: PairNo,
    pub(crate) place: usize,
}

/// The key of a plant that ships and a pair that receives, where both are there.
fn lane_key(from: Option<PlantNo>, pair: Option<PairNo>) -> Option<LaneKey>
    ensures { result ≡ key_between from pair }
{
    match (from, pair) {
        (Some(from), Some(pair)) => Some(LaneKey { from, pair }),
        _ => None,
    }
}

impl NamedLane {
    ghost use Rattle.std.specs.Prelude.{◌≡◌, ◌&&◌, is_some, Some, IfOk};
    ghost use Rattle.mrp_tables.specs.Lists.{known_found};

    /// Whether the plant that ships and the pair that receives are there, and so their names are names.
    fn is_named(self) -> bool
        ensures { result ≡ (is_some self.from && is_some self.pair) }
    {
        self.from.is_some() && self.pair.is_some()
    }

    /// The lane, where all of it is there.
    #[tactic(auto, unfolding(crate::specs::Lists::known_found))]
    fn known(self) -> Result<KnownLane, TableFaultKind>
        ensures exact { result ≡ known_found self }
        ensures from { IfOk result (λ lane. self.from ≡ Some lane.from) }
        ensures pair { IfOk result (λ lane. self.pair ≡ Some lane.pair) }
        ensures place { IfOk result (λ lane. self.place ≡ Some lane.place) }
    {
        let from = self.from.ok_or(TableFaultKind::UnknownPlant)?;
        if !self.has_to {
            return Err(TableFaultKind::UnknownPlant);
        }
        let pair = self.pair.ok_or(TableFaultKind::UnknownPair)?;
        let place = self.place.ok_or(TableFaultKind::NotSourced)?;
        Ok(KnownLane { from, pair, place })
    }
}

impl Draft {
    ghost use Rattle.std.specs.Prelude.{◌≡◌, ◌<◌, length, OnOk, IfOk, IfSome};
    ghost use Rattle.std.specs.Prelude.{option_map};
    ghost use Rattle.mrp_master_data.specs.Table.{most};
    ghost use Rattle.mrp_master_data.specs.Table.{IsCumRow, IsResetRow, IsShipRow};
    ghost use Rattle.std.specs.Prelude.{◌&&◌, false, is_some, not, true, IsSome, Some};
    ghost use Rattle.csv.specs.Records.{fields_of};
    ghost use Rattle.mrp_master_data.specs.Table.{arrivals, rises_from};
    ghost use Rattle.mrp_validation.specs.Grammar.{cum_between, cum_of, cum_row, reset_between, reset_in_row};
    ghost use Rattle.mrp_validation.specs.Grammar.{reset_row, seen, ship_of, ship_row, TellsMade};
    ghost use Rattle.mrp_tables.specs.Spelled.{terms_of_lane, HasThreeNames};
    ghost use Rattle.mrp_tables.specs.Lists.{AddsRow, Finds, IsDraft, IsNamedLane, source_at, source_named};

    /// What the names of a row on a lane stand for.
    fn lane_named(&self, row: &StringRecord) -> NamedLane
        requires draft { IsDraft self.now }
        ensures exact { Finds self.now.lists (terms_of_lane (fields_of row.now)) result }
        ensures named { IsNamedLane self.now result }
        ensures place { result.place ≡ source_named self.now.lists (option_map (λ p. p.0) result.from)
            (option_map (λ x. x.0) result.pair) }
        ensures names { (is_some result.from && is_some result.pair) ≡ true → HasThreeNames (fields_of row.now) }
    {
        let from = self.find_plant(field(row, 1));
        let pair = self.find_pair(field(row, 2), field(row, 3));
        NamedLane {
            from,
            has_to: self.has_plant_of(pair, field(row, 2)),
            pair,
            place: self.source_place(from, pair),
        }
    }

    /// The place of the source from which a pair is taken.
    fn source_place(&self, from: Option<PlantNo>, pair: Option<PairNo>) -> Option<usize>
        requires draft { IsDraft self.now }
        ensures exact { result ≡ source_named self.now.lists (option_map (λ p. p.0) from) (option_map (λ x. x.0) pair) }
        ensures within { IfSome result (λ place. place < length self.now.lane_keys.keys) }
    {
        let key = lane_key(from, pair)?;
        self.lane_keys.get_index_of(&key)
    }

    /// Adds a ship row.
    pub(crate) fn add_ship(&mut self, row: &StringRecord) -> Result<(), TableFaultKind>
        requires draft { IsDraft self.old }
        ensures exact { TellsMade result (ship_row self.old.lists (fields_of row.now)) self.new.lists }
        ensures adds { OnOk result (AddsRow self.old self.new) }
    {
        let (ship, place) = self.ship_of(row)?;
        let period = ship.period;
        self.lists.add_ship(ship)?;
        self.arrivals[place].ship(period);
        Ok(())
    }

    /// What a ship row says, with the place of its source.
    #[tactic(auto, unfolding(mrp_validation::specs::Grammar::ship_of))]
    pub(crate) fn ship_of(&self, row: &StringRecord) -> Result<(ShipRow, usize), TableFaultKind>
        requires draft { IsDraft self.now }
        ensures exact { seen (λ s. s.0) result ≡ ship_of self.now.lists (fields_of row.now) }
        ensures row { IfOk result (λ s. IsShipRow self.now.lists s.0) }
        ensures place { IfOk result (λ s. source_at self.now.lists s.0.from.0 s.0.pair.0 ≡ Some s.1) }
        ensures room { OnOk result (length self.now.lists.ships < (most self.now.lists).of_a_kind) }
    {
        let named = self.lane_named(row);
        let horizon = self.lists.calendar().horizon();
        let (period, quantity) = spelled_ship(row, horizon, named.is_named())?;
        let lane = named.known()?;
        if self.lists.ships().len() >= self.lists.limits().of_a_kind {
            return Err(TableFaultKind::TooMany);
        }
        let ship = ShipRow {
            from: lane.from,
            pair: lane.pair,
            period,
            quantity: Qty::of(quantity),
        };
        Ok((ship, lane.place))
    }

    /// Adds a cum row.
    pub(crate) fn add_cum(&mut self, row: &StringRecord) -> Result<(), TableFaultKind>
        requires draft { IsDraft self.old }
        ensures exact { TellsMade result (cum_row self.old.lists (fields_of row.now)) self.new.lists }
        ensures adds { OnOk result (AddsRow self.old self.new) }
    {
        let cum = self.cum_of(row)?;
        let key = LaneKey {
            from: cum.from,
            pair: cum.pair,
        };
        if !self.cum_keys.insert(key)? {
            unreachable!();
        }
        self.lists.add_cum(cum)?;
        Ok(())
    }

    /// What a cum row says.
    #[tactic(auto, unfolding(mrp_validation::specs::Grammar::cum_of))]
    fn cum_of(&self, row: &StringRecord) -> Result<CumRow, TableFaultKind>
        requires draft { IsDraft self.now }
        ensures exact { result ≡ cum_of self.now.lists (fields_of row.now) }
        ensures row { IfOk result (IsCumRow self.now.lists) }
        ensures fresh { IfOk result (λ c. cum_between self.now.lists (Some c.from.0) (Some c.pair.0) ≡ false) }
        ensures room { OnOk result (length self.now.lists.cums < (most self.now.lists).of_a_kind) }
    {
        let named = self.lane_named(row);
        let figure = spelled_lane_number(row, MOST, named.is_named())?;
        if self.has_cum(named) {
            return Err(TableFaultKind::Repeated);
        }
        let lane = named.known()?;
        if self.lists.cums().len() >= self.lists.limits().of_a_kind {
            return Err(TableFaultKind::TooMany);
        }
        Ok(CumRow {
            from: lane.from,
            pair: lane.pair,
            figure: Qty::of(figure),
        })
    }

    /// Whether there is a cumulative figure of the plant and the pair.
    fn has_cum(&self, named: NamedLane) -> bool
        requires draft { IsDraft self.now }
        ensures exact { result ≡ cum_between self.now.lists (option_map (λ p. p.0) named.from)
            (option_map (λ x. x.0) named.pair) }
    {
        match lane_key(named.from, named.pair) {
            Some(key) => self.cum_keys.contains(&key),
            None => false,
        }
    }

    /// Adds a reset row.
    pub(crate) fn add_reset(&mut self, row: &StringRecord) -> Result<(), TableFaultKind>
        requires draft { IsDraft self.old }
        ensures exact { TellsMade result (reset_row self.old.lists (fields_of row.now)) self.new.lists }
        ensures adds { OnOk result (AddsRow self.old self.new) }
    {
        let reset = self.reset_of(row)?;
        let key = LaneKey {
            from: reset.from,
            pair: reset.pair,
        };
        if !self.reset_keys.insert(key)? {
            unreachable!();
        }
        self.lists.add_reset(reset)?;
        Ok(())
    }

    /// What a reset row says.
    #[tactic(auto, unfolding(mrp_validation::specs::Grammar::reset_in_row))]
    fn reset_of(&self, row: &StringRecord) -> Result<ResetRow, TableFaultKind>
        requires draft { IsDraft self.now }
        ensures exact { result ≡ reset_in_row self.now.lists (fields_of row.now) }
        ensures row { IfOk result (IsResetRow self.now.lists) }
        ensures fresh { IfOk result (λ r. reset_between self.now.lists (Some r.from.0) (Some r.pair.0) ≡ false) }
        ensures source { IfOk result (λ r. IsSome (source_at self.now.lists r.from.0 r.pair.0)) }
    {
        let named = self.lane_named(row);
        let horizon = self.lists.calendar().horizon();
        let period = spelled_lane_number(row, horizon.get() - 1, named.is_named())? as usize;
        if self.has_reset(named) {
            return Err(TableFaultKind::Repeated);
        }
        let lane = named.known()?;
        if self.falls(lane) {
            return Err(TableFaultKind::ResetOrder);
        }
        Ok(ResetRow {
            from: lane.from,
            pair: lane.pair,
            period,
        })
    }

    /// Whether the figures of the plant and the pair start anew.
    fn has_reset(&self, named: NamedLane) -> bool
        requires draft { IsDraft self.now }
        ensures exact { result ≡ reset_between self.now.lists (option_map (λ p. p.0) named.from)
            (option_map (λ x. x.0) named.pair) }
    {
        match lane_key(named.from, named.pair) {
            Some(key) => self.reset_keys.contains(&key),
            None => false,
        }
    }

    /// Whether a shipment on a lane arrives before the one that stands above it.
    fn falls(&self, lane: KnownLane) -> bool
        requires draft { IsDraft self.now }
        requires place { source_at self.now.lists lane.from.0 lane.pair.0 ≡ Some lane.place }
        ensures exact { result ≡ not (rises_from 0 (arrivals self.now.lists lane.from.0 lane.pair.0)) }
    {
        self.arrivals[lane.place].falls
    }
}
