//! Records as CSV: their laws. Each is the contract of a function that does nothing.

ghost use Rattle.mrp_record_csv.specs.Laws.{RecordsHaveOneRow, RowsHaveListedFaults};
ghost use Rattle.mrp_record_csv.specs.Laws.{WrittenHasNoFault, WrittenReadsBack};
ghost use Rattle.mrp_record_csv.specs.Laws.{WrittenRowsAreRead};
ghost use Rattle.mrp_record_csv.specs.Tests.{RowsHaveTheirFirstFault};

/// Each record has one row, and only that row is read as it.
pub fn records_have_one_row()
    ensures { RecordsHaveOneRow }
{}

/// A row is refused for a fault of a row alone, never for a failed read or for want of memory.
pub fn rows_have_listed_faults()
    ensures { RowsHaveListedFaults }
{}

/// A row is refused for the first test of the list that it fails, and taken where it passes all of them.
pub fn rows_have_their_first_fault()
    ensures { RowsHaveTheirFirstFault }
{}

/// What was written reads back: its rows are those of the records, no other records are read of it, and
/// none of its rows has a fault.
pub fn written_reads_back()
    ensures rows { WrittenRowsAreRead }
    ensures records { WrittenReadsBack }
    ensures faults { WrittenHasNoFault }
{}
