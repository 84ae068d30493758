//! Master data: a table drops the rows that nobody reads once its edges and sums are made.

ghost use Rattle.std.specs.Prelude.{◌≡◌};
ghost use Rattle.mrp_master_data.specs.Dropping.{without_bills_and_demands};

use crate::{RowLists, Tables};
use std::alloc::Global;

impl RowLists {
    /// Drops the bill rows with their usage rows and the demand rows, and keeps all others.
    pub(crate) fn drop_bills_and_demands(&mut self, alloc: Global)
        ensures { self.new ≡ without_bills_and_demands self.old }
    {
        self.bills = Vec::new(alloc);
        self.usages = Vec::new(alloc);
        self.demands = Vec::new(alloc);
    }
}

impl Tables {
    /// Drops the bill rows with their usage rows and the demand rows, and keeps all others.
    pub fn drop_bills_and_demands(&mut self, alloc: Global)
        ensures { self.new ≡ without_bills_and_demands self.old }
    {
        self.lists.drop_bills_and_demands(alloc);
    }
}
