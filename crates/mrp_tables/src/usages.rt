//! The reader of tables: usages of components, tested against the rows before them. Names that find a pair aren't
//! tested for being names.

ghost use Rattle.std.specs.Prelude.{◌≡◌, ◌≤◌, ◌<◌, true, IfOk};
ghost use Rattle.mrp_qty.specs.declared.limits.TheConstants.{MOST_PER};
ghost use Rattle.mrp_master_data.specs.Table.{most};
ghost use Rattle.csv.specs.Records.{fields_of};
ghost use Rattle.mrp_validation.specs.Grammar.{seen, usage_terms};
ghost use Rattle.mrp_tables.specs.Spelled.{HasThreeNames, terms_of_usage};

use crate::draft::{Draft, UsageKey};
use crate::spelled::test_name;
use crate::spelling::ranged;
use csv::StringRecord;
use mrp_master_data::{MOST_PER, PairNo, Usage, UsageRow};
use mrp_qty::Horizon;
use mrp_validation::{TableFaultKind, field};

/// What a usage row says: the period, counted from 0, that it begins in, and how much goes into the parents from then on.
#[derive(Clone, Copy)]
struct SpelledUsage {
    period: usize,
    usage: Usage,
}

/// The period and the usage of a usage row. Its names aren't tested where they are known.
#[tactic(auto, unfolding(mrp_validation::specs::Grammar::usage_terms))]
fn spelled_usage(
    row: &StringRecord,
    horizon: Horizon,
    are_known: bool,
) -> Result<SpelledUsage, TableFaultKind>
    requires known { are_known ≡ true → HasThreeNames (fields_of row.now) }
    ensures exact { seen (terms_of_usage (fields_of row.now)) result ≡ usage_terms (fields_of row.now) horizon }
    ensures period { IfOk result (λ u. u.period < horizon) }
    ensures usage { IfOk result (λ u. (u.usage.per ≤ MOST_PER) × (1 ≤ u.usage.base) × (u.usage.base ≤ MOST_PER)) }
{
    test_name(row, 1, are_known)?;
    test_name(row, 2, are_known)?;
    test_name(row, 3, are_known)?;
    let period = ranged(field(row, 4), 0, horizon.get() - 1)? as usize;
    let per = ranged(field(row, 5), 0, MOST_PER)?;
    let base = ranged(field(row, 6), 1, MOST_PER)?;
    Ok(SpelledUsage {
        period,
        usage: Usage { per, base },
    })
}

impl Draft {
    ghost use Rattle.std.specs.Prelude.{◌≡◌, ◌≤◌, ◌<◌, false, length, option_map, Some, IfOk, OnOk};
    ghost use Rattle.csv.specs.Records.{fields_of};
    ghost use Rattle.mrp_qty.specs.declared.limits.TheConstants.{MOST_PER};
    ghost use Rattle.mrp_master_data.specs.Table.{most};
    ghost use Rattle.mrp_validation.specs.Grammar.{has_usage, TellsMade, usage_fits, usage_of, usage_row};
    ghost use Rattle.mrp_master_data.specs.Table.{horizon, IsUsageRow};
    ghost use Rattle.mrp_tables.specs.Lists.{AddsRow, FindsParts, IsDraft};
    ghost use Rattle.mrp_tables.specs.Spelled.{terms_of_usage};

    /// Adds a usage row.
    pub(crate) fn add_usage(&mut self, row: &StringRecord) -> Result<(), TableFaultKind>
        requires draft { IsDraft self.old }
        ensures exact { TellsMade result (usage_row self.old.lists (fields_of row.now)) self.new.lists }
        ensures adds { OnOk result (AddsRow self.old self.new) }
    {
        let usage = self.usage_of(row)?;
        let key = UsageKey {
            parent: usage.parent,
            component: usage.component,
            period: usage.period,
        };
        if !self.usage_keys.insert(key)? {
            unreachable!();
        }
        self.lists.add_usage(usage)?;
        Ok(())
    }

    /// What a usage row says.
    fn usage_of(&self, row: &StringRecord) -> Result<UsageRow, TableFaultKind>
        requires draft { IsDraft self.now }
        ensures exact { result ≡ usage_of self.now.lists (fields_of row.now) }
        ensures row { IfOk result (IsUsageRow self.now.lists) }
        ensures fresh { IfOk result (λ u. has_usage self.now.lists (Some u.parent.0) (Some u.component.0) u.period ≡ false) }
        ensures room { OnOk result (length self.now.lists.usages < (most self.now.lists).bills) }
    {
        let parent = self.find_pair(field(row, 1), field(row, 2));
        let component = self.find_pair(field(row, 1), field(row, 3));
        let horizon = self.lists.calendar().horizon();
        let spelled = spelled_usage(row, horizon, parent.is_some() && component.is_some())?;
        self.usage_fits(row, parent, component, spelled)
    }

    /// The usage row of these pairs, if they are there, where it fits the rows before it.
    #[tactic(auto, unfolding(mrp_validation::specs::Grammar::usage_fits))]
    fn usage_fits(
        &self,
        row: &StringRecord,
        parent: Option<PairNo>,
        component: Option<PairNo>,
        spelled: SpelledUsage,
    ) -> Result<UsageRow, TableFaultKind>
        requires draft { IsDraft self.now }
        requires found { FindsParts self.now.lists (fields_of row.now) parent component }
        requires period { spelled.period < horizon self.now.lists }
        requires usage { (spelled.usage.per ≤ MOST_PER) × (1 ≤ spelled.usage.base) × (spelled.usage.base ≤ MOST_PER) }
        ensures exact { result ≡ usage_fits self.now.lists (terms_of_usage (fields_of row.now) spelled) }
        ensures row { IfOk result (IsUsageRow self.now.lists) }
        ensures fresh { IfOk result (λ u. has_usage self.now.lists (Some u.parent.0) (Some u.component.0) u.period ≡ false) }
        ensures room { OnOk result (length self.now.lists.usages < (most self.now.lists).bills) }
    {
        if self.has_usage(parent, component, spelled.period) {
            return Err(TableFaultKind::Repeated);
        }
        if !self.has_plant_of(parent, field(row, 1)) {
            return Err(TableFaultKind::UnknownPlant);
        }
        let parent = parent.ok_or(TableFaultKind::UnknownPair)?;
        let component = component.ok_or(TableFaultKind::UnknownPair)?;
        if !self.has_bill(Some(parent), Some(component)) {
            return Err(TableFaultKind::NotMade);
        }
        if self.lists.usages().len() >= self.lists.limits().bills {
            return Err(TableFaultKind::TooMany);
        }
        Ok(UsageRow {
            parent,
            component,
            period: spelled.period,
            usage: spelled.usage,
        })
    }

    /// Whether there is a usage row of the two pairs from that period on.
    fn has_usage(&self, parent: Option<PairNo>, component: Option<PairNo>, period: usize) -> bool
        requires draft { IsDraft self.now }
        ensures exact { result ≡ has_usage self.now.lists (option_map (λ x. x.0) parent)
            (option_map (λ x. x.0) component) period }
    {
        match (parent, component) {
            (Some(parent), Some(component)) => self.usage_keys.contains(&UsageKey {
                parent,
                component,
                period,
            }),
            _ => false,
        }
    }
}
