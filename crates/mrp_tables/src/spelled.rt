//! The reader of tables: what the fields of a row spell, kind by kind.

ghost use Rattle.std.specs.Prelude.{◌≡◌, ◌≤◌, ◌<◌, true, IfOk};
ghost use Rattle.mrp_qty.specs.Limits.{limits_of};
ghost use Rattle.mrp_qty.specs.declared.limits.TheConstants.{MOST_IN_ROW, MOST_PER};
ghost use Rattle.csv.specs.Records.{fields_of};
ghost use Rattle.mrp_validation.specs.Grammar.{amount_terms, bill_terms, field, firm_terms, is_empty_from};
ghost use Rattle.mrp_validation.specs.Grammar.{kind_of, lane_number, lane_terms, name_field, pair_terms, plant_terms};
ghost use Rattle.mrp_validation.specs.Grammar.{policy_terms};
ghost use Rattle.mrp_validation.specs.Grammar.{row_kind, run_terms, seen, ship_terms, TellsSeen};
ghost use Rattle.mrp_tables.specs.Spelled.{terms_of_amount, terms_of_bill, terms_of_firm, terms_of_lane, pair_view, run_view};
ghost use Rattle.mrp_tables.specs.Spelled.{terms_of_policy};
ghost use Rattle.mrp_tables.specs.Spelled.{HasThreeNames, HasTwoNames, IsSpelledPair};
ghost use Rattle.mrp_master_data.specs.Table.{IsName};
ghost use Rattle.mrp_tables.specs.Drafts.{TellsRun};

use crate::spelling::{name, ranged};
use csv::StringRecord;
use mrp_cal::Calendar;
use mrp_lot::Rule;
use mrp_master_data::{
    MOST_IN_ROW, MOST_PER, Policy, SpelledSupply, is_same_text, number, rule_within, supply,
};
use mrp_qty::{Horizon, LimitSet};
use mrp_validation::{Kind, TableFaultKind, field, is_free, used};
use std::alloc::Global;

/// How many fields a row has.
const FIELDS: usize = 8;

/// The kind that a first field names.
fn kind_of(word: &str) -> Option<Kind>
    ensures { result ≡ kind_of word.now }
{
    if is_same_text(word, "demand") {
        Some(Kind::Demand)
    } else if is_same_text(word, "receipt") {
        Some(Kind::Receipt)
    } else if is_same_text(word, "ship") {
        Some(Kind::Ship)
    } else if is_same_text(word, "bill") {
        Some(Kind::Bill)
    } else if is_same_text(word, "pair") {
        Some(Kind::Pair)
    } else if is_same_text(word, "firm") {
        Some(Kind::Firm)
    } else if is_same_text(word, "policy") {
        Some(Kind::Policy)
    } else if is_same_text(word, "usage") {
        Some(Kind::Usage)
    } else if is_same_text(word, "cum") {
        Some(Kind::Cum)
    } else if is_same_text(word, "reset") {
        Some(Kind::Reset)
    } else if is_same_text(word, "vendor") {
        Some(Kind::Vendor)
    } else if is_same_text(word, "day") {
        Some(Kind::Day)
    } else if is_same_text(word, "plant") {
        Some(Kind::Plant)
    } else if is_same_text(word, "run") {
        Some(Kind::Run)
    } else if is_same_text(word, "end") {
        Some(Kind::End)
    } else {
        None
    }
}

/// Whether the fields from `used` on are empty.
fn is_empty_from(row: &StringRecord, used: usize) -> bool
    ensures { result ≡ is_empty_from (fields_of row.now) used }
{
    is_free(row, used, 1)
        && is_free(row, used, 2)
        && is_free(row, used, 3)
        && is_free(row, used, 4)
        && is_free(row, used, 5)
        && is_free(row, used, 6)
        && is_free(row, used, 7)
}

/// The kind of a row that has the fields of its kind.
#[tactic(auto, unfolding(mrp_validation::specs::Grammar::row_kind))]
pub(crate) fn row_kind(row: &StringRecord) -> Result<Kind, TableFaultKind>
    ensures { result ≡ row_kind (fields_of row.now) }
{
    if row.len() != FIELDS {
        return Err(TableFaultKind::FieldCount);
    }
    let kind = kind_of(field(row, 0)).ok_or(TableFaultKind::UnknownKind)?;
    if is_empty_from(row, used(kind)) {
        Ok(kind)
    } else {
        Err(TableFaultKind::FieldCount)
    }
}

/// What a run row spells.
#[derive(Clone, Copy)]
struct SpelledRun<'r> {
    first: &'r str,
    days: u64,
    periods: u64,
}

/// What a run row spells.
#[tactic(auto, unfolding(mrp_validation::specs::Grammar::run_terms))]
fn run_of(limits: LimitSet, row: &StringRecord) -> Result<SpelledRun<'_>, TableFaultKind>
    ensures exact { seen run_view result ≡ run_terms limits (fields_of row.now) }
    ensures periods { IfOk result (λ run. (1 ≤ run.periods) × (run.periods ≤ (limits_of limits).periods)) }
{
    let days = number(field(row, 2)).ok_or(TableFaultKind::BadNumber)?;
    let periods = ranged(field(row, 3), 1, limits.limits().periods)?;
    Ok(SpelledRun {
        first: field(row, 1),
        days,
        periods,
    })
}

/// The calendar of a run row.
pub(crate) fn spelled_run(limits: LimitSet, row: &StringRecord) -> Result<Calendar, TableFaultKind>
    ensures exact { TellsRun limits result (fields_of row.now) }
    ensures within { IfOk result (λ calendar. calendar.periods ≤ (limits_of limits).periods) }
{
    let run = run_of(limits, row)?;
    let Some(horizon) = Horizon::within(limits, run.periods) else {
        unreachable!();
    };
    match Calendar::new(run.first, run.days, horizon) {
        Ok(calendar) => Ok(calendar),
        Err(fault) => Err(TableFaultKind::CalendarFault(fault)),
    }
}

/// The name of a plant row.
pub(crate) fn spelled_plant(row: &StringRecord) -> Result<&str, TableFaultKind>
    ensures exact { seen (λ name. name.now) result ≡ plant_terms (fields_of row.now) }
    ensures named { IfOk result (λ name. IsName name.now) }
{
    name(field(row, 1))
}

/// A pair row.
#[derive(Drop)]
pub(crate) struct SpelledPair<'r> {
    pub(crate) plant: &'r str,
    pub(crate) item: &'r str,
    pub(crate) supply: SpelledSupply<'r>,
    pub(crate) rule: Rule,
    pub(crate) lead: u64,
    pub(crate) on_hand: u64,
    pub(crate) safety: u64,
}

/// What a pair row spells.
#[tactic(auto, unfolding(mrp_validation::specs::Grammar::pair_terms))]
pub(crate) fn spelled_pair(
    alloc: Global,
    limits: LimitSet,
    row: &StringRecord,
) -> Result<SpelledPair<'_>, TableFaultKind>
    ensures exact { TellsSeen pair_view result (pair_terms limits (fields_of row.now)) }
    ensures ranges { IfOk result (IsSpelledPair limits) }
{
    let plant = name(field(row, 1))?;
    let item = name(field(row, 2))?;
    let lead = ranged(field(row, 5), 0, limits.limits().lead)?;
    let on_hand = ranged(field(row, 6), 0, MOST_IN_ROW)?;
    let safety = ranged(field(row, 7), 0, MOST_IN_ROW)?;
    let rule = rule_within(limits, field(row, 4)).ok_or(TableFaultKind::BadRule)?;
    let supply = supply(alloc, field(row, 3))?;
    Ok(SpelledPair {
        plant,
        item,
        supply,
        rule,
        lead,
        on_hand,
        safety,
    })
}

/// Tests that a field is a name, unless it is known to be one.
pub(crate) fn test_name(row: &StringRecord, i: usize, is_known: bool) -> Result<(), TableFaultKind>
    requires { is_known ≡ true → IsName (field (fields_of row.now) i) }
    ensures { seen (λ _. field (fields_of row.now) i) result ≡ name_field (field (fields_of row.now) i) }
{
    if !is_known {
        name(field(row, i))?;
    }
    Ok(())
}

/// The pieces of a component that go into one of its parent, by a bill row. Its names aren't tested where they are
/// known.
#[tactic(auto, unfolding(mrp_validation::specs::Grammar::bill_terms))]
pub(crate) fn spelled_bill(row: &StringRecord, are_known: bool) -> Result<u64, TableFaultKind>
    requires known { are_known ≡ true → HasThreeNames (fields_of row.now) }
    ensures exact { seen (terms_of_bill (fields_of row.now)) result ≡ bill_terms (fields_of row.now) }
    ensures per { IfOk result (λ per. (1 ≤ per) × (per ≤ MOST_PER)) }
{
    test_name(row, 1, are_known)?;
    test_name(row, 2, are_known)?;
    test_name(row, 3, are_known)?;
    ranged(field(row, 4), 1, MOST_PER)
}

/// The period, counted from 0, and the pieces of a demand or a receipt row. Its names aren't tested where they are
/// known.
#[tactic(auto, unfolding(mrp_validation::specs::Grammar::amount_terms))]
pub(crate) fn spelled_amount(
    row: &StringRecord,
    horizon: Horizon,
    are_known: bool,
) -> Result<(usize, u64), TableFaultKind>
    requires known { are_known ≡ true → HasTwoNames (fields_of row.now) }
    ensures exact { seen (λ a. terms_of_amount (fields_of row.now) a.0 a.1) result
        ≡ amount_terms (fields_of row.now) horizon }
    ensures ranges { IfOk result (λ a. (a.0 < horizon) × (1 ≤ a.1) × (a.1 ≤ MOST_IN_ROW)) }
{
    test_name(row, 1, are_known)?;
    test_name(row, 2, are_known)?;
    let period = ranged(field(row, 3), 0, horizon.get() - 1)? as usize;
    let quantity = ranged(field(row, 4), 1, MOST_IN_ROW)?;
    Ok((period, quantity))
}

/// The order of a firm row: the period, counted from 0, of its release, that in which it is due, and its pieces.
#[derive(Clone, Copy)]
pub(crate) struct SpelledFirm {
    pub(crate) start: usize,
    pub(crate) due: usize,
    pub(crate) quantity: u64,
}

/// The order of a firm row. Its names aren't tested where they are known.
#[tactic(auto, unfolding(mrp_validation::specs::Grammar::firm_terms))]
pub(crate) fn spelled_firm(
    row: &StringRecord,
    horizon: Horizon,
    are_known: bool,
) -> Result<SpelledFirm, TableFaultKind>
    requires known { are_known ≡ true → HasTwoNames (fields_of row.now) }
    ensures exact { seen (terms_of_firm (fields_of row.now)) result ≡ firm_terms (fields_of row.now) horizon }
    ensures ranges { IfOk result (λ f. (f.start ≤ f.due) × (f.due < horizon) × (1 ≤ f.quantity)
        × (f.quantity ≤ MOST_IN_ROW)) }
{
    test_name(row, 1, are_known)?;
    test_name(row, 2, are_known)?;
    let last = horizon.get() - 1;
    let start = ranged(field(row, 3), 0, last)?;
    let due = ranged(field(row, 4), start, last)?;
    let quantity = ranged(field(row, 5), 1, MOST_IN_ROW)?;
    Ok(SpelledFirm {
        start: start as usize,
        due: due as usize,
        quantity,
    })
}

/// How a pair is planned by a policy row. Its names aren't tested where they are known.
#[tactic(auto, unfolding(mrp_validation::specs::Grammar::policy_terms))]
pub(crate) fn spelled_policy(
    limits: LimitSet,
    row: &StringRecord,
    horizon: Horizon,
    are_known: bool,
) -> Result<Policy, TableFaultKind>
    requires known { are_known ≡ true → HasTwoNames (fields_of row.now) }
    ensures exact { seen (λ p. terms_of_policy (fields_of row.now) p.fence p.sooner p.cover p.least p.multiple) result
        ≡ policy_terms limits (fields_of row.now) horizon }
    ensures fence { IfOk result (λ p. p.fence < horizon) }
    ensures periods { IfOk result (λ p. (p.sooner ≤ (limits_of limits).lead) × (p.cover ≤ (limits_of limits).lead)) }
    ensures pieces { IfOk result (λ p. (p.least ≤ MOST_IN_ROW) × (p.multiple ≤ MOST_IN_ROW)) }
{
    test_name(row, 1, are_known)?;
    test_name(row, 2, are_known)?;
    let fence = ranged(field(row, 3), 0, horizon.get() - 1)?;
    let longest = limits.limits().lead;
    let sooner = ranged(field(row, 4), 0, longest)?;
    let cover = ranged(field(row, 5), 0, longest)?;
    let least = ranged(field(row, 6), 0, MOST_IN_ROW)?;
    let multiple = ranged(field(row, 7), 0, MOST_IN_ROW)?;
    Ok(Policy {
        fence,
        sooner,
        cover,
        least,
        multiple,
    })
}

/// Tests the names of a ship, cum or reset row, unless they are known.
#[tactic(auto, unfolding(mrp_validation::specs::Grammar::lane_terms))]
fn test_lane_names(row: &StringRecord, are_known: bool) -> Result<(), TableFaultKind>
    requires known { are_known ≡ true → HasThreeNames (fields_of row.now) }
    ensures exact { seen (λ _. terms_of_lane (fields_of row.now)) result ≡ lane_terms (fields_of row.now) }
{
    test_name(row, 1, are_known)?;
    test_name(row, 2, are_known)?;
    test_name(row, 3, are_known)
}

/// The period of arrival and the pieces of a ship row. Its names aren't tested where they are known.
#[tactic(auto, unfolding(mrp_validation::specs::Grammar::ship_terms))]
pub(crate) fn spelled_ship(
    row: &StringRecord,
    horizon: Horizon,
    are_known: bool,
) -> Result<(usize, u64), TableFaultKind>
    requires known { are_known ≡ true → HasThreeNames (fields_of row.now) }
    ensures exact { seen (λ s. (terms_of_lane (fields_of row.now), s.0, s.1)) result
        ≡ ship_terms (fields_of row.now) horizon }
    ensures ranges { IfOk result (λ s. (s.0 < horizon) × (1 ≤ s.1) × (s.1 ≤ MOST_IN_ROW)) }
{
    test_lane_names(row, are_known)?;
    let period = ranged(field(row, 4), 0, horizon.get() - 1)? as usize;
    let quantity = ranged(field(row, 5), 1, MOST_IN_ROW)?;
    Ok((period, quantity))
}

/// The number of a cum or a reset row, 0 to `most`: a figure or a period. Its names aren't tested where they are known.
#[tactic(auto, unfolding(mrp_validation::specs::Grammar::lane_number))]
pub(crate) fn spelled_lane_number(
    row: &StringRecord,
    most: u64,
    are_known: bool,
) -> Result<u64, TableFaultKind>
    requires known { are_known ≡ true → HasThreeNames (fields_of row.now) }
    ensures exact { seen (λ number. (terms_of_lane (fields_of row.now), number)) result
        ≡ lane_number (fields_of row.now) most }
    ensures within { IfOk result (λ number. number ≤ most) }
{
    test_lane_names(row, are_known)?;
    ranged(field(row, 4), 0, most)
}
