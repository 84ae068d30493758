//! The reader of tables: its draft, the table as far as it is read.

ghost use Rattle.std.specs.Prelude.{◌≡◌, ◌+◌, OnOk, IfOk};

use crate::names::KnownNames;
use crate::spelled::{row_kind, spelled_run};
use csv::StringRecord;
use indexmap::IndexSet;
use mrp_master_data::{LimitSet, PairNo, PlantNo, RowLists};
use mrp_validation::{Kind, TableFaultKind, may_follow};
use std::alloc::Global;

/// A source of a pair by its plant and the pair.
#[derive(Clone, Copy, PartialEq, Eq, Hash)]
pub(crate) struct LaneKey {
    pub(crate) from: PlantNo,
    pub(crate) pair: PairNo,
}

/// A bill row by its parent and its component.
#[derive(Clone, Copy, PartialEq, Eq, Hash)]
pub(crate) struct BillKey {
    pub(crate) parent: PairNo,
    pub(crate) component: PairNo,
}

/// A usage row by its parent, its component and the period that it begins in.
#[derive(Clone, Copy, PartialEq, Eq, Hash)]
pub(crate) struct UsageKey {
    pub(crate) parent: PairNo,
    pub(crate) component: PairNo,
    pub(crate) period: usize,
}

/// What the rows so far say of the shipments from one source of a pair.
#[derive(Clone, Copy)]
pub(crate) struct Arrivals {
    /// The period of arrival of its last shipment, 0 without one.
    pub(crate) last: usize,
    /// Whether a shipment arrives before the one that stands above it.
    pub(crate) falls: bool,
}

impl Arrivals {
    ghost use Rattle.mrp_tables.specs.Lists.{after_ship};

    /// Notes one shipment more.
    pub(crate) fn ship(&mut self, period: usize)
        ensures { self.new ≡ after_ship self.old period }
    {
        self.falls = self.falls || period < self.last;
        self.last = period;
    }
}

/// A table while its rows are read.
#[derive(Drop)]
pub(crate) struct Draft {
    pub(crate) lists: RowLists,
    /// The plants, the items and the pairs by their names.
    pub(crate) known: KnownNames,
    /// The sources in the order of their rows, and the shipments from each.
    pub(crate) lane_keys: IndexSet<LaneKey>,
    pub(crate) arrivals: Vec<Arrivals>,
    /// The bill rows, the cumulative figures and where they start anew by their keys, in the order of
    /// their rows.
    pub(crate) bill_keys: IndexSet<BillKey>,
    pub(crate) cum_keys: IndexSet<LaneKey>,
    pub(crate) reset_keys: IndexSet<LaneKey>,
    /// The pairs of the policy rows, in the order of the rows.
    pub(crate) policy_keys: IndexSet<PairNo>,
    /// The usage rows by their keys, in the order of the rows.
    pub(crate) usage_keys: IndexSet<UsageKey>,
    /// The pairs of the vendor rows, in the order of the rows.
    pub(crate) vendor_keys: IndexSet<PairNo>,
    /// The kind of the last row, and how many rows there are.
    pub(crate) last: Kind,
    pub(crate) rows: u64,
}

impl Draft {
    ghost use Rattle.std.specs.Prelude.{◌≡◌, ◌+◌, ◌<◌, false, OnOk, IfOk};
    ghost use Rattle.csv.specs.Records.{AllText, fields_of};
    ghost use Rattle.mrp_validation.specs.Grammar.{TellsMade};
    ghost use Rattle.mrp_tables.specs.Lists.{IsDraft, AddsRow};
    ghost use Rattle.mrp_validation.specs.Reading.{row_of_kind};
    ghost use Rattle.mrp_tables.specs.Drafts.{IsDraftKept, TellsAdded, TellsFirst};

    /// What a first row makes.
    pub(crate) fn first(
        alloc: Global,
        limits: LimitSet,
        row: &StringRecord,
    ) -> Result<Draft, TableFaultKind>
        requires text { AllText (fields_of row.now) }
        ensures exact { TellsFirst limits result (fields_of row.now) }
        ensures draft { IfOk result IsDraft }
        ensures limits { IfOk result (λ draft. draft.lists.limits ≡ limits) }
        ensures rows { IfOk result (λ draft. draft.rows ≡ 1) }
    {
        if row_kind(row)? != Kind::Run {
            return Err(TableFaultKind::KindOrder);
        }
        let calendar = spelled_run(limits, row)?;
        Ok(Draft {
            lists: RowLists::new(alloc, limits, calendar),
            known: KnownNames::new(alloc),
            lane_keys: IndexSet::new(alloc),
            arrivals: Vec::new(alloc),
            bill_keys: IndexSet::new(alloc),
            cum_keys: IndexSet::new(alloc),
            reset_keys: IndexSet::new(alloc),
            policy_keys: IndexSet::new(alloc),
            usage_keys: IndexSet::new(alloc),
            vendor_keys: IndexSet::new(alloc),
            last: Kind::Run,
            rows: 1,
        })
    }

    /// Adds one more row.
    pub(crate) fn add(&mut self, alloc: Global, row: &StringRecord) -> Result<(), TableFaultKind>
        requires draft { IsDraft self.old }
        requires kept { IsDraftKept self.old }
        requires text { AllText (fields_of row.now) }
        ensures exact { TellsAdded self.old self.new result (fields_of row.now) }
        ensures draft { OnOk result (IsDraft self.new) }
        ensures rows { OnOk result (self.new.rows ≡ self.old.rows + 1) }
    {
        let kind = row_kind(row)?;
        if !may_follow(kind, self.last) {
            return Err(TableFaultKind::KindOrder);
        }
        self.add_row(alloc, kind, row)?;
        self.last = kind;
        self.rows += 1;
        Ok(())
    }

    /// Adds a row of that kind, which is not counted yet.
    #[tactic(auto, unfolding(mrp_validation::specs::Reading::row_of_kind))]
    fn add_row(
        &mut self,
        alloc: Global,
        kind: Kind,
        row: &StringRecord,
    ) -> Result<(), TableFaultKind>
        requires draft { IsDraft self.old }
        requires endless { self.old.lists.ended ≡ false }
        ensures exact { TellsMade result (row_of_kind kind self.old.lists (fields_of row.now)) self.new.lists }
        ensures adds { OnOk result (AddsRow self.old self.new) }
    {
        match kind {
            Kind::Run => Err(TableFaultKind::KindOrder),
            Kind::Plant => self.add_plant(alloc, row),
            Kind::Pair => self.add_pair(alloc, row),
            Kind::Bill => self.add_bill(row),
            Kind::Demand => self.add_demand(row),
            Kind::Receipt => self.add_receipt(row),
            Kind::Ship => self.add_ship(row),
            Kind::Cum => self.add_cum(row),
            Kind::Reset => self.add_reset(row),
            Kind::Firm => self.add_firm(row),
            Kind::Policy => self.add_policy(row),
            Kind::Usage => self.add_usage(row),
            Kind::Vendor => self.add_vendor(alloc, row),
            Kind::Day => self.add_day(row),
            Kind::End => self.add_end(row),
        }
    }
}
