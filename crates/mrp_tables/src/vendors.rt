//! The reader of tables: vendors of bought pairs, tested against the rows before them. Names that find a pair aren't
//! tested for being names.

ghost use Rattle.std.specs.Prelude.{◌≡◌, ◌-◌, ◌≤◌, ◌<◌, true, IfOk, IfSome};
ghost use Rattle.mrp_qty.specs.declared.quantity.TheConstants.{MOST};
ghost use Rattle.csv.specs.Records.{fields_of};
ghost use Rattle.mrp_master_data.specs.Table.{IsName};
ghost use Rattle.mrp_validation.specs.Grammar.{field, ranged_if_any, seen, vendor_terms};
ghost use Rattle.mrp_tables.specs.Spelled.{HasPairBehind, terms_of_vendor};

use crate::draft::Draft;
use crate::spelled::test_name;
use crate::spelling::{name, ranged};
use csv::StringRecord;
use mrp_master_data::{PairNo, Supply, VendorRow};
use mrp_qty::{Horizon, MOST, Qty};
use mrp_validation::{TableFaultKind, field};
use std::alloc::Global;

/// What a vendor row says: the figure received and the pieces on their way, and the period, counted from 0, from which
/// figures start anew, if they do.
#[derive(Clone, Copy)]
struct SpelledVendor {
    figure: u64,
    transit: u64,
    reset: Option<usize>,
}

/// The numbers of a vendor row. The names of its pair aren't tested where they are known.
#[tactic(auto, unfolding(mrp_validation::specs::Grammar::vendor_terms))]
fn spelled_vendor(
    row: &StringRecord,
    horizon: Horizon,
    are_known: bool,
) -> Result<SpelledVendor, TableFaultKind>
    requires known { are_known ≡ true → HasPairBehind (fields_of row.now) }
    ensures exact { seen (terms_of_vendor (fields_of row.now)) result ≡ vendor_terms (fields_of row.now) horizon }
    ensures vendor { IfOk result (λ v. IsName (field (fields_of row.now) 1)) }
    ensures pieces { IfOk result (λ v. (v.figure ≤ MOST) × (v.transit ≤ MOST)) }
    ensures reset { IfOk result (λ v. IfSome v.reset (λ period. period < horizon)) }
{
    name(field(row, 1))?;
    test_name(row, 2, are_known)?;
    test_name(row, 3, are_known)?;
    let figure = ranged(field(row, 4), 0, MOST)?;
    let transit = ranged(field(row, 5), 0, MOST)?;
    let reset = period_if_any(field(row, 6), horizon)?;
    Ok(SpelledVendor {
        figure,
        transit,
        reset,
    })
}

/// A period within the horizon, counted from 0, or none where the field is empty.
fn period_if_any(text: &str, horizon: Horizon) -> Result<Option<usize>, TableFaultKind>
    ensures exact { result ≡ ranged_if_any text.now 0 (horizon - 1) }
    ensures within { IfOk result (λ found. IfSome found (λ period. period < horizon)) }
{
    if text.is_empty() {
        return Ok(None);
    }
    let period = ranged(text, 0, horizon.get() - 1)?;
    Ok(Some(period as usize))
}

impl Draft {
    ghost use Rattle.std.specs.Prelude.{◌≡◌, ◌≤◌, ◌<◌, false, length, option_map, Some, IfOk, IfSome, OnOk};
    ghost use Rattle.csv.specs.Records.{fields_of};
    ghost use Rattle.mrp_qty.specs.declared.quantity.TheConstants.{MOST};
    ghost use Rattle.mrp_master_data.specs.Table.{horizon, IsName, IsVendorRow};
    ghost use Rattle.mrp_validation.specs.Grammar.{field, has_vendor, is_bought, seen, TellsMade, vendor_fits};
    ghost use Rattle.mrp_validation.specs.Grammar.{vendor_in_row, vendor_made, vendor_row};
    ghost use Rattle.mrp_tables.specs.Lists.{AddsRow, FindsBought, IsDraft};
    ghost use Rattle.mrp_tables.specs.Spelled.{terms_of_vendor};

    /// Adds a vendor row.
    pub(crate) fn add_vendor(
        &mut self,
        alloc: Global,
        row: &StringRecord,
    ) -> Result<(), TableFaultKind>
        requires draft { IsDraft self.old }
        ensures exact { TellsMade result (vendor_row self.old.lists (fields_of row.now)) self.new.lists }
        ensures adds { OnOk result (AddsRow self.old self.new) }
    {
        let (pair, spelled) = self.vendor_of(row)?;
        let name = String::from_str(alloc, field(row, 1))?;
        if !self.vendor_keys.insert(pair)? {
            unreachable!();
        }
        self.lists.add_vendor(VendorRow {
            name,
            pair,
            figure: Qty::of(spelled.figure),
            transit: Qty::of(spelled.transit),
            reset: spelled.reset,
        })?;
        Ok(())
    }

    /// The pair of a vendor row, and what it says of the vendor beside its name.
    fn vendor_of(&self, row: &StringRecord) -> Result<(PairNo, SpelledVendor), TableFaultKind>
        requires draft { IsDraft self.now }
        ensures exact { seen (λ v. vendor_made v.0 (terms_of_vendor (fields_of row.now) v.1)) result
            ≡ vendor_in_row self.now.lists (fields_of row.now) }
        ensures row { IfOk result (λ v. IsVendorRow self.now.lists
            (vendor_made v.0 (terms_of_vendor (fields_of row.now) v.1))) }
        ensures fresh { IfOk result (λ v. has_vendor self.now.lists (Some v.0.0) ≡ false) }
    {
        let found = self.find_pair(field(row, 2), field(row, 3));
        let horizon = self.lists.calendar().horizon();
        let spelled = spelled_vendor(row, horizon, found.is_some())?;
        let pair = self.vendor_fits(row, found, spelled)?;
        Ok((pair, spelled))
    }

    /// The pair of a vendor row, if it is there, where the row fits the rows before it.
    #[tactic(auto, unfolding(mrp_validation::specs::Grammar::vendor_fits))]
    fn vendor_fits(
        &self,
        row: &StringRecord,
        found: Option<PairNo>,
        spelled: SpelledVendor,
    ) -> Result<PairNo, TableFaultKind>
        requires draft { IsDraft self.now }
        requires found { FindsBought self.now.lists (fields_of row.now) found }
        ensures exact { seen (λ pair. vendor_made pair (terms_of_vendor (fields_of row.now) spelled)) result
            ≡ vendor_fits self.now.lists (terms_of_vendor (fields_of row.now) spelled) }
        ensures within { IfOk result (λ pair. pair.0 < length self.now.lists.pairs) }
        ensures fresh { IfOk result (λ pair. has_vendor self.now.lists (Some pair.0) ≡ false) }
    {
        if self.has_vendor(found) {
            return Err(TableFaultKind::Repeated);
        }
        if !self.has_plant_of(found, field(row, 2)) {
            return Err(TableFaultKind::UnknownPlant);
        }
        let pair = found.ok_or(TableFaultKind::UnknownPair)?;
        if !self.is_bought(pair) {
            return Err(TableFaultKind::NotSourced);
        }
        if self.has_plant(field(row, 1)) {
            return Err(TableFaultKind::SelfSource);
        }
        Ok(pair)
    }

    /// Whether a pair is bought.
    fn is_bought(&self, pair: PairNo) -> bool
        requires known { pair.0 < length self.now.lists.pairs }
        ensures exact { result ≡ is_bought self.now.lists pair.0 }
    {
        self.lists.pairs()[pair.0].supply == Supply::Buy
    }

    /// Whether there is a vendor row of the pair.
    fn has_vendor(&self, found: Option<PairNo>) -> bool
        requires draft { IsDraft self.now }
        ensures exact { result ≡ has_vendor self.now.lists (option_map (λ x. x.0) found) }
    {
        match found {
            Some(pair) => self.vendor_keys.contains(&pair),
            None => false,
        }
    }
}
