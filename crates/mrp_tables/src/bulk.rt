//! The reader of tables: bills, demands, receipts and shipments, most rows of a table. What they say is of pairs and lanes
//! alone and not of one another, so they may be read in any order. They are taken into the table in theirs, where a bill
//! row may be a second one of its pairs.

ghost use Rattle.std.specs.Prelude.{◌≡◌};
ghost use Rattle.mrp_tables.specs.Bulk.{kind_of_bulk};

use crate::draft::{BillKey, Draft};
use crate::spelled::row_kind;
use csv::StringRecord;
use mrp_master_data::{BillRow, DemandRow, ReceiptRow, ShipRow};
use mrp_validation::{Kind, TableFaultKind, may_follow};

/// What a bill, a demand, a receipt or a shipment says; of a shipment with the place of its source.
#[derive(Clone, Copy)]
pub(crate) enum BulkRow {
    Bill(BillRow),
    Demand(DemandRow),
    Receipt(ReceiptRow),
    Ship(ShipRow, usize),
}

impl BulkRow {
    /// Its kind.
    fn kind(&self) -> Kind
        ensures { result ≡ kind_of_bulk self.now }
    {
        match self {
            BulkRow::Bill(_) => Kind::Bill,
            BulkRow::Demand(_) => Kind::Demand,
            BulkRow::Receipt(_) => Kind::Receipt,
            BulkRow::Ship(_, _) => Kind::Ship,
        }
    }
}

impl Draft {
    ghost use Rattle.std.specs.Prelude.{◌≡◌, ◌+◌, ◌<◌, false, Some, IfOk, OnOk};
    ghost use Rattle.csv.specs.Records.{AllText, fields_of};
    ghost use Rattle.mrp_master_data.specs.Table.{IsBillRow, IsDemandRow, IsReceiptRow, IsShipRow};
    ghost use Rattle.mrp_validation.specs.Grammar.{TellsMade};
    ghost use Rattle.mrp_tables.specs.Bulk.{IsBulk, Says, TellsAfter, bulk_after, with_bulk};
    ghost use Rattle.mrp_tables.specs.Drafts.{IsDraftKept, draft_state};
    ghost use Rattle.mrp_tables.specs.Lists.{AddsRow, IsDraft, source_at};
    ghost use Rattle.mrp_tables.specs.declared.bulk.BulkRow.TheVariants as bulk;

    /// What a row says, where it is a bill, a demand, a receipt or a shipment that has no fault of its own.
    pub(crate) fn bulk_of(&self, row: &StringRecord) -> Result<BulkRow, TableFaultKind>
        requires draft { IsDraft self.now }
        requires text { AllText (fields_of row.now) }
        ensures says { IfOk result (Says self.now.lists (fields_of row.now)) }
        ensures is { IfOk result (IsBulk self.now.lists) }
    {
        match row_kind(row)? {
            Kind::Bill => Ok(BulkRow::Bill(self.bill_of(row)?)),
            Kind::Demand => Ok(BulkRow::Demand(self.demand_of(row)?)),
            Kind::Receipt => Ok(BulkRow::Receipt(self.receipt_of(row)?)),
            Kind::Ship => {
                let (ship, place) = self.ship_of(row)?;
                Ok(BulkRow::Ship(ship, place))
            }
            _ => Err(TableFaultKind::KindOrder),
        }
    }

    /// Takes what a row said into the table, where its kind may follow and there is room.
    pub(crate) fn take(&mut self, row: BulkRow) -> Result<(), TableFaultKind>
        requires draft { IsDraft self.old }
        requires kept { IsDraftKept self.old }
        requires row { IsBulk self.old.lists row }
        ensures exact { TellsAfter (bulk_after (draft_state self.old) row) self.new result }
        ensures draft { OnOk result (IsDraft self.new) }
        ensures rows { OnOk result (self.new.rows ≡ self.old.rows + 1) }
    {
        let kind = row.kind();
        if !may_follow(kind, self.last) {
            return Err(TableFaultKind::KindOrder);
        }
        self.take_row(row)?;
        self.last = kind;
        self.rows += 1;
        Ok(())
    }

    /// Takes a row, which is not counted yet.
    fn take_row(&mut self, row: BulkRow) -> Result<(), TableFaultKind>
        requires draft { IsDraft self.old }
        requires row { IsBulk self.old.lists row }
        ensures exact { TellsMade result (with_bulk self.old.lists row) self.new.lists }
        ensures adds { OnOk result (AddsRow self.old self.new) }
    {
        match row {
            BulkRow::Bill(bill) => self.take_bill(bill),
            BulkRow::Demand(demand) => self.take_demand(demand),
            BulkRow::Receipt(receipt) => self.take_receipt(receipt),
            BulkRow::Ship(ship, place) => self.take_ship(ship, place),
        }
    }

    /// Takes a bill row, where it is the first of its pairs.
    pub(crate) fn take_bill(&mut self, bill: BillRow) -> Result<(), TableFaultKind>
        requires draft { IsDraft self.old }
        requires row { IsBillRow self.old.lists bill }
        ensures exact { TellsMade result (with_bulk self.old.lists (bulk.Bill bill)) self.new.lists }
        ensures adds { OnOk result (AddsRow self.old self.new) }
    {
        let key = BillKey {
            parent: bill.parent,
            component: bill.component,
        };
        if !self.bill_keys.insert(key)? {
            return Err(TableFaultKind::Repeated);
        }
        if self.lists.bills().len() >= self.lists.limits().bills {
            return Err(TableFaultKind::TooMany);
        }
        self.lists.add_bill(bill)?;
        Ok(())
    }

    /// Takes a demand.
    fn take_demand(&mut self, demand: DemandRow) -> Result<(), TableFaultKind>
        requires draft { IsDraft self.old }
        requires row { IsDemandRow self.old.lists demand }
        ensures exact { TellsMade result (with_bulk self.old.lists (bulk.Demand demand)) self.new.lists }
        ensures adds { OnOk result (AddsRow self.old self.new) }
    {
        if self.lists.demands().len() >= self.lists.limits().demands {
            return Err(TableFaultKind::TooMany);
        }
        self.lists.add_demand(demand)?;
        Ok(())
    }

    /// Takes a receipt.
    fn take_receipt(&mut self, receipt: ReceiptRow) -> Result<(), TableFaultKind>
        requires draft { IsDraft self.old }
        requires row { IsReceiptRow self.old.lists receipt }
        ensures exact { TellsMade result (with_bulk self.old.lists (bulk.Receipt receipt)) self.new.lists }
        ensures adds { OnOk result (AddsRow self.old self.new) }
    {
        if self.lists.receipts().len() >= self.lists.limits().of_a_kind {
            return Err(TableFaultKind::TooMany);
        }
        self.lists.add_receipt(receipt)?;
        Ok(())
    }

    /// Takes a shipment, and notes when it arrives from the source at that place.
    fn take_ship(&mut self, ship: ShipRow, place: usize) -> Result<(), TableFaultKind>
        requires draft { IsDraft self.old }
        requires row { IsShipRow self.old.lists ship }
        requires place { source_at self.old.lists ship.from.0 ship.pair.0 ≡ Some place }
        ensures exact { TellsMade result (with_bulk self.old.lists (bulk.Ship ship place)) self.new.lists }
        ensures adds { OnOk result (AddsRow self.old self.new) }
    {
        if self.lists.ships().len() >= self.lists.limits().of_a_kind {
            return Err(TableFaultKind::TooMany);
        }
        let period = ship.period;
        self.lists.add_ship(ship)?;
        self.arrivals[place].ship(period);
        Ok(())
    }
}
