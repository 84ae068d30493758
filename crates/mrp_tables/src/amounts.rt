//! The reader of tables: bill, demand and receipt rows, tested against the rows before them. Names that find a pair
//! aren't tested for being names.

use crate::draft::{BillKey, Draft};
use crate::spelled::{spelled_amount, spelled_bill};
use csv::StringRecord;
use mrp_master_data::{BillRow, DemandRow, PairNo, ReceiptRow, Supply};
use mrp_qty::Qty;
use mrp_validation::{TableFaultKind, field};

/// The pairs that a bill row names, if they are there, and so many pieces of its component that go into one of its
/// parent.
#[derive(Clone, Copy)]
struct NamedBill {
    parent: Option<PairNo>,
    component: Option<PairNo>,
    per: u64,
}

/// What a demand or a receipt row says of a pair that is there: a period, counted from 0, and so many pieces.
#[derive(Clone, Copy)]
struct KnownAmount {
    pair: PairNo,
    period: usize,
    quantity: u64,
}

impl Draft {
    ghost use Rattle.std.specs.Prelude.{◌≡◌, ◌≤◌, ◌<◌, length, option_map, OnOk, IfOk};
    ghost use Rattle.csv.specs.Records.{fields_of};
    ghost use Rattle.mrp_qty.specs.declared.limits.TheConstants.{MOST_IN_ROW};
    ghost use Rattle.mrp_master_data.specs.Table.{most};
    ghost use Rattle.mrp_qty.specs.declared.limits.TheConstants.{MOST_PER};
    ghost use Rattle.mrp_master_data.specs.Table.{most};
    ghost use Rattle.mrp_validation.specs.Grammar.{bill_fits, bill_of, bill_row, bill_terms, demand_of, demand_row};
    ghost use Rattle.mrp_validation.specs.Grammar.{has_bill, is_made, receipt_of, receipt_row, seen, TellsMade};
    ghost use Rattle.mrp_tables.specs.Amounts.{known_amount, without_bills};
    ghost use Rattle.mrp_tables.specs.Spelled.{terms_of_bill};
    ghost use Rattle.mrp_master_data.specs.Table.{IsBillRow, IsDemandRow, IsReceiptRow};
    ghost use Rattle.mrp_tables.specs.Keys.{Knows};
    ghost use Rattle.mrp_tables.specs.Lists.{AddsRow, FindsParts, IsDraft};
    ghost use Rattle.mrp_master_data.specs.Table.{IsRead, horizon};

    /// Adds a bill row. That it is a second one of its pairs is told before what those lack.
    pub(crate) fn add_bill(&mut self, row: &StringRecord) -> Result<(), TableFaultKind>
        requires draft { IsDraft self.old }
        ensures exact { TellsMade result (bill_row self.old.lists (fields_of row.now)) self.new.lists }
        ensures adds { OnOk result (AddsRow self.old self.new) }
    {
        let named = self.named_bill(row)?;
        match self.bill_fits(row, named) {
            Ok(bill) => self.take_bill(bill),
            Err(fault) => {
                if self.has_bill(named.parent, named.component) {
                    return Err(TableFaultKind::Repeated);
                }
                Err(fault)
            }
        }
    }

    /// What a bill row says, whatever bill rows there are.
    pub(crate) fn bill_of(&self, row: &StringRecord) -> Result<BillRow, TableFaultKind>
        requires draft { IsDraft self.now }
        ensures exact { result ≡ bill_of (without_bills self.now.lists) (fields_of row.now) }
        ensures row { IfOk result (IsBillRow self.now.lists) }
    {
        let named = self.named_bill(row)?;
        self.bill_fits(row, named)
    }

    /// The pairs that a bill row names, if they are there, and its number.
    fn named_bill(&self, row: &StringRecord) -> Result<NamedBill, TableFaultKind>
        requires draft { IsDraft self.now }
        ensures exact { seen (λ b. terms_of_bill (fields_of row.now) b.per) result ≡ bill_terms (fields_of row.now) }
        ensures found { IfOk result (λ b. FindsParts self.now.lists (fields_of row.now) b.parent b.component) }
        ensures per { IfOk result (λ b. (1 ≤ b.per) × (b.per ≤ MOST_PER)) }
    {
        let parent = self.find_pair(field(row, 1), field(row, 2));
        let component = self.find_pair(field(row, 1), field(row, 3));
        let per = spelled_bill(row, parent.is_some() && component.is_some())?;
        Ok(NamedBill {
            parent,
            component,
            per,
        })
    }

    /// The bill row of these pairs, where they are there and the parent is made, whatever bill rows there are.
    fn bill_fits(&self, row: &StringRecord, named: NamedBill) -> Result<BillRow, TableFaultKind>
        requires draft { IsDraft self.now }
        requires found { FindsParts self.now.lists (fields_of row.now) named.parent named.component }
        requires per { (1 ≤ named.per) × (named.per ≤ MOST_PER) }
        ensures exact { result
            ≡ bill_fits (without_bills self.now.lists) (terms_of_bill (fields_of row.now) named.per) }
        ensures row { IfOk result (IsBillRow self.now.lists) }
    {
        if !self.has_plant_of(named.parent, field(row, 1)) {
            return Err(TableFaultKind::UnknownPlant);
        }
        let parent = named.parent.ok_or(TableFaultKind::UnknownPair)?;
        let component = named.component.ok_or(TableFaultKind::UnknownPair)?;
        if !self.is_made(parent) {
            return Err(TableFaultKind::NotMade);
        }
        Ok(BillRow {
            parent,
            component,
            per: named.per,
        })
    }

    /// Whether a pair is made.
    fn is_made(&self, pair: PairNo) -> bool
        requires known { pair.0 < length self.now.lists.pairs }
        ensures exact { result ≡ is_made self.now.lists pair.0 }
    {
        self.lists.pairs()[pair.0].supply == Supply::Make
    }

    /// Whether there is a bill row of the two pairs.
    pub(crate) fn has_bill(&self, parent: Option<PairNo>, component: Option<PairNo>) -> bool
        requires draft { IsDraft self.now }
        ensures exact { result ≡ has_bill self.now.lists (option_map (λ x. x.0) parent)
            (option_map (λ x. x.0) component) }
    {
        match (parent, component) {
            (Some(parent), Some(component)) => {
                self.bill_keys.contains(&BillKey { parent, component })
            }
            _ => false,
        }
    }

    /// The pair, the period and the quantity of a demand or a receipt row.
    fn known_amount(&self, row: &StringRecord) -> Result<KnownAmount, TableFaultKind>
        requires rows { IsRead self.now.lists }
        requires knows { Knows self.now.lists self.now.known }
        ensures exact { seen (λ a. (a.pair, a.period, a.quantity)) result
            ≡ known_amount self.now.lists (fields_of row.now) }
        ensures pair { IfOk result (λ a. a.pair.0 < length self.now.lists.pairs) }
        ensures ranges { IfOk result (λ a. (a.period < horizon self.now.lists) × (1 ≤ a.quantity)
            × (a.quantity ≤ MOST_IN_ROW)) }
    {
        let found = self.find_pair(field(row, 1), field(row, 2));
        let horizon = self.lists.calendar().horizon();
        let (period, quantity) = spelled_amount(row, horizon, found.is_some())?;
        let pair = self.known_pair(row, found)?;
        Ok(KnownAmount {
            pair,
            period,
            quantity,
        })
    }

    /// Adds a demand row.
    pub(crate) fn add_demand(&mut self, row: &StringRecord) -> Result<(), TableFaultKind>
        requires draft { IsDraft self.old }
        ensures exact { TellsMade result (demand_row self.old.lists (fields_of row.now)) self.new.lists }
        ensures adds { OnOk result (AddsRow self.old self.new) }
    {
        let demand = self.demand_of(row)?;
        self.lists.add_demand(demand)?;
        Ok(())
    }

    /// What a demand row says.
    pub(crate) fn demand_of(&self, row: &StringRecord) -> Result<DemandRow, TableFaultKind>
        requires draft { IsDraft self.now }
        ensures exact { result ≡ demand_of self.now.lists (fields_of row.now) }
        ensures row { IfOk result (IsDemandRow self.now.lists) }
        ensures room { OnOk result (length self.now.lists.demands < (most self.now.lists).demands) }
    {
        let amount = self.known_amount(row)?;
        if self.lists.demands().len() >= self.lists.limits().demands {
            return Err(TableFaultKind::TooMany);
        }
        Ok(DemandRow {
            pair: amount.pair,
            period: amount.period,
            quantity: Qty::of(amount.quantity),
        })
    }

    /// Adds a receipt row.
    pub(crate) fn add_receipt(&mut self, row: &StringRecord) -> Result<(), TableFaultKind>
        requires draft { IsDraft self.old }
        ensures exact { TellsMade result (receipt_row self.old.lists (fields_of row.now)) self.new.lists }
        ensures adds { OnOk result (AddsRow self.old self.new) }
    {
        let receipt = self.receipt_of(row)?;
        self.lists.add_receipt(receipt)?;
        Ok(())
    }

    /// What a receipt row says.
    pub(crate) fn receipt_of(&self, row: &StringRecord) -> Result<ReceiptRow, TableFaultKind>
        requires draft { IsDraft self.now }
        ensures exact { result ≡ receipt_of self.now.lists (fields_of row.now) }
        ensures row { IfOk result (IsReceiptRow self.now.lists) }
        ensures room { OnOk result (length self.now.lists.receipts < (most self.now.lists).of_a_kind) }
    {
        let amount = self.known_amount(row)?;
        if self.lists.receipts().len() >= self.lists.limits().of_a_kind {
            return Err(TableFaultKind::TooMany);
        }
        Ok(ReceiptRow {
            pair: amount.pair,
            period: amount.period,
            quantity: Qty::of(amount.quantity),
        })
    }
}
