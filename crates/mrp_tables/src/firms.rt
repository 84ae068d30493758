//! The reader of tables: firm planned orders, tested against the rows before them. Names that find a pair aren't tested
//! for being names.

use crate::draft::Draft;
use crate::spelled::spelled_firm;
use csv::StringRecord;
use mrp_master_data::FirmRow;
use mrp_qty::Qty;
use mrp_validation::{TableFaultKind, field};

impl Draft {
    ghost use Rattle.std.specs.Prelude.{◌≡◌, ◌<◌, length, OnOk, IfOk};
    ghost use Rattle.csv.specs.Records.{fields_of};
    ghost use Rattle.mrp_master_data.specs.Table.{most};
    ghost use Rattle.mrp_validation.specs.Grammar.{firm_of, firm_row, TellsMade};
    ghost use Rattle.mrp_master_data.specs.Table.{IsFirmRow};
    ghost use Rattle.mrp_tables.specs.Lists.{AddsRow, IsDraft};

    /// Adds a firm row.
    pub(crate) fn add_firm(&mut self, row: &StringRecord) -> Result<(), TableFaultKind>
        requires draft { IsDraft self.old }
        ensures exact { TellsMade result (firm_row self.old.lists (fields_of row.now)) self.new.lists }
        ensures adds { OnOk result (AddsRow self.old self.new) }
    {
        let firm = self.firm_of(row)?;
        self.lists.add_firm(firm)?;
        Ok(())
    }

    /// What a firm row says.
    #[tactic(auto, unfolding(mrp_validation::specs::Grammar::firm_of))]
    fn firm_of(&self, row: &StringRecord) -> Result<FirmRow, TableFaultKind>
        requires draft { IsDraft self.now }
        ensures exact { result ≡ firm_of self.now.lists (fields_of row.now) }
        ensures row { IfOk result (IsFirmRow self.now.lists) }
        ensures room { OnOk result (length self.now.lists.firms < (most self.now.lists).of_a_kind) }
    {
        let found = self.find_pair(field(row, 1), field(row, 2));
        let horizon = self.lists.calendar().horizon();
        let order = spelled_firm(row, horizon, found.is_some())?;
        let pair = self.known_pair(row, found)?;
        if self.lists.firms().len() >= self.lists.limits().of_a_kind {
            return Err(TableFaultKind::TooMany);
        }
        Ok(FirmRow {
            pair,
            start: order.start,
            due: order.due,
            quantity: Qty::of(order.quantity),
        })
    }
}
