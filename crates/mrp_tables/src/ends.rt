//! The reader of tables: the end row, which says how many rows stand above it.

use crate::draft::Draft;
use crate::spelling::ranged;
use csv::StringRecord;
use mrp_validation::{TableFaultKind, field};

impl Draft {
    ghost use Rattle.std.specs.Prelude.{◌≡◌, false, OnOk};
    ghost use Rattle.csv.specs.Records.{fields_of};
    ghost use Rattle.mrp_validation.specs.Grammar.{end_row, TellsMade};
    ghost use Rattle.mrp_tables.specs.Lists.{AddsRow, IsDraft};

    /// Adds the end row.
    #[tactic(auto, unfolding(mrp_validation::specs::Grammar::end_in_row))]
    pub(crate) fn add_end(&mut self, row: &StringRecord) -> Result<(), TableFaultKind>
        requires draft { IsDraft self.old }
        requires endless { self.old.lists.ended ≡ false }
        ensures exact { TellsMade result (end_row self.old.lists (fields_of row.now)) self.new.lists }
        ensures adds { OnOk result (AddsRow self.old self.new) }
    {
        ranged(field(row, 1), self.rows, self.rows)?;
        self.lists.end();
        Ok(())
    }
}
