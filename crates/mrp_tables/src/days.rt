//! The reader of tables: the dates on which periods begin, each tested against the day rows before it.

use crate::draft::Draft;
use crate::spelling::ranged;
use csv::StringRecord;
use mrp_validation::{TableFaultKind, field};

impl Draft {
    ghost use Rattle.std.specs.Prelude.{◌≡◌, ◌+◌, ◌-◌, ◌<◌, IfOk, OnOk};
    ghost use Rattle.csv.specs.Records.{fields_of};
    ghost use Rattle.mrp_cal.specs.Begins.{latest_begun};
    ghost use Rattle.mrp_master_data.specs.Table.{horizon};
    ghost use Rattle.mrp_validation.specs.Grammar.{day_row, field, ranged, TellsMade};
    ghost use Rattle.mrp_tables.specs.Lists.{AddsRow, IsDraft};

    /// Adds a day row.
    #[tactic(auto, unfolding(mrp_validation::specs::Grammar::day_in_row))]
    pub(crate) fn add_day(&mut self, row: &StringRecord) -> Result<(), TableFaultKind>
        requires draft { IsDraft self.old }
        ensures exact { TellsMade result (day_row self.old.lists (fields_of row.now)) self.new.lists }
        ensures adds { OnOk result (AddsRow self.old self.new) }
    {
        let period = self.period_of(row)?;
        match self.lists.begin(period, field(row, 2)) {
            Ok(()) => Ok(()),
            Err(fault) => Err(TableFaultKind::CalendarFault(fault)),
        }
    }

    /// The period of a day row, counted from 0, which comes after those of the day rows before it.
    fn period_of(&self, row: &StringRecord) -> Result<usize, TableFaultKind>
        ensures exact { result ≡ ranged (field (fields_of row.now) 1) (latest_begun self.now.lists.calendar + 1)
            (horizon self.now.lists - 1) }
        ensures later { IfOk result (λ period. latest_begun self.now.lists.calendar < period) }
        ensures within { IfOk result (λ period. period < horizon self.now.lists) }
    {
        let calendar = self.lists.calendar();
        let last = calendar.horizon().get() - 1;
        let first = calendar.latest_begun() as u64 + 1;
        Ok(ranged(field(row, 1), first, last)? as usize)
    }
}
