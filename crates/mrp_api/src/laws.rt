//! The library: laws of its text functions' reports and refusals, each the contract of a function that does nothing.

ghost use Rattle.mrp_api.specs.Laws.{BytesMakeOneTable, CutTablesAreOne, CutTablesHaveNoOtherReport, ReportsAreOne};
ghost use Rattle.mrp_api.specs.Laws.{ReportsExcludeRefusals, RequestsExcludeRefusals, TablesAreRead};
ghost use Rattle.mrp_api.specs.FigureLaws.{FiguresAreCalledFor};

/// Bytes are a table, written out, exactly where the grammar reads it: what is said of the table of some bytes is
/// said of the table that is read in them.
pub fn tables_are_read()
    ensures { TablesAreRead }
{}

/// Bytes are those of one table at most.
pub fn bytes_make_one_table()
    ensures { BytesMakeOneTable }
{}

/// Bytes have one report at most of each kind: one plan report, one code report, one cumulative report, one peg
/// report of a pair in a period and one of the whole plan, one order report up to a period, one report of the
/// schedules from and to plants, one of messages for open orders, one of shortages, and one of reach.
pub fn reports_are_one()
    ensures { ReportsAreOne }
{}

/// A text that is accepted is not refused: where bytes have a report of a kind, no fault is theirs when it is asked
/// for but one of the machine, with status 3; nor is it where a request says how the table is to be read.
pub fn reports_exclude_refusals()
    ensures choices { ReportsExcludeRefusals }
    ensures requests { RequestsExcludeRefusals }
{}

/// A table that was cut off isn't taken for another one: bytes that begin others, where both are tables and the first one
/// ends with an `end` row, are those of the same table. So where a table has to be whole, what is left of one that was cut off is refused, or has
/// the report of all of it, as where the line feed behind the last row is missing.
pub fn cut_tables_are_refused_or_whole()
    ensures tables { CutTablesAreOne }
    ensures reports { CutTablesHaveNoOtherReport }
{}

/// The cumulative report and the delivery schedules of a table agree: on a schedule lane the figure that the
/// cumulative report has as shipped is its opening figure and the pieces of all calls of the item's schedule.
pub fn figures_are_called_for()
    ensures { FiguresAreCalledFor }
{}
