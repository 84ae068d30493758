//! Laws of the grammar that validates tables, each the contract of a function that does nothing.
ghost use Rattle.std.specs.Prelude.{◌≡◌, ◌↔◌, ◌++◌, ◌+◌, ◌*◌, ℕ, length, List, Err, Ok, Result, true};
ghost use Rattle.csv.specs.Reading.{AreRecords, default_config, records};
ghost use Rattle.csv.specs.declared.parser.State.TheVariants.{StartRecord};
ghost use Rattle.mrp_cal.specs.Calendar.{CalendarTerms};
ghost use Rattle.mrp_cal.specs.declared.fault.CalFault.{CalFault};
ghost use Rattle.mrp_commands.specs.declared.reading.Reading.{Reading};
ghost use Rattle.mrp_validation.specs.declared.fault.TableFault.{TableFault};
ghost use Rattle.mrp_validation.specs.declared.kind.Kind.{Kind};
ghost use Rattle.mrp_validation.specs.Asked.{CutTablesAreRefused, OtherFaultsStay, ReadsAreOneAs};
ghost use Rattle.mrp_validation.specs.Asked.{TablesEndWithTheirEnd, UsualReadingAsksNothing, WholeTablesEnd};
ghost use Rattle.mrp_validation.specs.Faults.{faults_of, HasListedFaults, Rise};
ghost use Rattle.mrp_validation.specs.Grammar.{RunTerms};
ghost use Rattle.mrp_validation.specs.LimitLaws.{as_large, IsNoMatterOfLimits};
ghost use Rattle.mrp_validation.specs.Missing.{TellsMissing};
ghost use Rattle.mrp_validation.specs.Reading.{IsCalendarOf, Reads};
ghost use Rattle.mrp_validation.specs.Tests.{HasFirstFault};
ghost use Rattle.mrp_validation.specs.Written.{AreNumbered, rows_of};
ghost use Rattle.mrp_master_data.specs.Table.{IsTable, Table};
ghost use Rattle.mrp_qty.specs.declared.limits.LimitSet.{LimitSet};
ghost use Rattle.mrp_qty.specs.declared.limits.LimitSet.TheVariants.{Large, Usual};

/// What is read is a table: rows that the grammar reads say all that an accepted table says, whatever the limits.
pub fn what_is_read_is_a_table()
    ensures { (limits : LimitSet) (rows : List (List (List ℕ))) (N : Table) → Reads limits rows (Ok N) → IsTable N }
{}

/// Rows that are read are the table written out: the run row, then each plant, pair, bill, demand, receipt, ship,
/// cum, reset, firm, policy, usage, vendor, day and end row of the table in its order, with the names of what it names, its
/// period, its quantity and its other values each in the field where it is written, and nothing in the fields that it
/// doesn't use.
pub fn rows_are_the_table_written_out()
    ensures { (limits : LimitSet) (rows : List (List (List ℕ))) (N : Table) → Reads limits rows (Ok N)
        → rows ≡ rows_of N }
{}

/// A table is read from one list of rows alone: reading loses nothing that a row says.
pub fn tables_have_one_list_of_rows()
    ensures { (limits : LimitSet) (a b : List (List (List ℕ))) (N : Table) → Reads limits a (Ok N)
        → Reads limits b (Ok N) → a ≡ b }
{}

/// Items are numbered in the order of their first pairs: each pair of a table that is read has an item of a pair
/// above it, or the next one, and there is no other item.
pub fn items_are_numbered_by_their_pairs()
    ensures { (limits : LimitSet) (rows : List (List (List ℕ))) (N : Table) → Reads limits rows (Ok N)
        → AreNumbered 0 N.pairs (length N.items) }
{}

/// Every table whose items are numbered by their pairs is read from what is written of it.
pub fn tables_written_out_are_read()
    ensures { (N : Table) → IsTable N → AreNumbered 0 N.pairs (length N.items) → Reads N.limits (rows_of N) (Ok N) }
{}

/// A table is read from its own rows alone: what is read is a table of these limits with its items numbered by its
/// pairs, from the rows that are written of it, and each such table is read from them.
pub fn a_table_is_read_from_its_own_rows_alone()
    ensures { (limits : LimitSet) (rows : List (List (List ℕ))) (N : Table) → Reads limits rows (Ok N)
        ↔ ((N.limits ≡ limits) × (rows ≡ rows_of N) × IsTable N × AreNumbered 0 N.pairs (length N.items)) }
{}

/// The records that the grammar speaks of are all the records of a text.
pub fn records_are_all_records()
    ensures { (text : List ℕ) → AreRecords default_config StartRecord text (records default_config text) }
{}

/// A table that ends with its `end` row is no other table cut off: where more text follows and is read too, it is the
/// same table.
pub fn a_table_with_its_end_is_whole()
    ensures { (limits : LimitSet) (text more : List ℕ) (N M : Table) → Reads limits (records default_config text) (Ok N)
        → Reads limits (records default_config (text ++ more)) (Ok M) → N.ended ≡ true → N ≡ M }
{}

/// A run row has one calendar at most, or one fault of its calendar.
pub fn a_run_has_one_calendar()
    ensures { (t : RunTerms) (a b : Result CalendarTerms CalFault) → IsCalendarOf t a → IsCalendarOf t b → a ≡ b }
{}

/// Rows are read one way at most: they make one table, or have one first fault.
pub fn reads_are_one()
    ensures { (limits : LimitSet) (rows : List (List (List ℕ))) (a b : Result Table TableFault) → Reads limits rows a
        → Reads limits rows b → a ≡ b }
{}

/// The faults of each kind of row are listed in the order of their numbers.
pub fn faults_rise()
    ensures { (k : Kind) → Rise (faults_of (Ok k)) }
{}

/// A row is refused for a fault of its list alone: a first row, and a later one whatever the rows above it.
pub fn rows_have_listed_faults()
    ensures { (row : List (List ℕ)) → HasListedFaults row }
{}

/// A row is refused for the first test of its list that it fails, and taken where it passes all of them; a
/// first row that passes them may still make no calendar.
pub fn rows_have_their_first_fault()
    ensures { (row : List (List ℕ)) → HasFirstFault row }
{}

/// The test that waits for the last row refuses a table exactly where a source takes from a pair that has no
/// row, at the row of the pair of the first such source.
pub fn missing_pairs_are_told()
    ensures { (N : Table) → TellsMissing N }
{}

/// A table has an end where an `end` row is its last, and that row says how many stand above it.
pub fn tables_end_with_their_end()
    ensures { (limits : LimitSet) (rows : List (List (List ℕ))) (N : Table) → TablesEndWithTheirEnd limits rows N }
{}

/// Rows are read as is asked one way at most.
pub fn reads_as_asked_are_one()
    ensures { (reading : Reading) (rows : List (List (List ℕ))) (a b : Result Table TableFault)
        → ReadsAreOneAs reading rows a b }
{}

/// Where a table need not be whole it is read as ever.
pub fn usual_reading_asks_nothing()
    ensures { (reading : Reading) (rows : List (List (List ℕ))) (read : Result Table TableFault)
        → UsualReadingAsksNothing reading rows read }
{}

/// A table that has to be whole is read where it is one and ends with its `end` row.
pub fn whole_tables_end()
    ensures { (reading : Reading) (rows : List (List (List ℕ))) (N : Table) → WholeTablesEnd reading rows N }
{}

/// Rows are refused as cut off, at the row behind the last, where the table has to be whole and has no `end` row.
pub fn cut_tables_are_refused()
    ensures { (reading : Reading) (rows : List (List (List ℕ))) (e : TableFault) → CutTablesAreRefused reading rows e }
{}

/// Rows that have another fault are refused for it, whether the table has to be whole or not.
pub fn other_faults_stay()
    ensures { (reading : Reading) (rows : List (List (List ℕ))) (e : TableFault) → OtherFaultsStay reading rows e }
{}

/// What is read within the usual limits is read within the large ones, as the same table but for its limits.
pub fn usual_tables_are_large_tables()
    ensures { (rows : List (List (List ℕ))) (N : Table) → Reads Usual rows (Ok N) → Reads Large rows (Ok (as_large N)) }
{}

/// Rows that are refused within the usual limits are refused for the same fault, at the same row, within the large
/// ones, unless the fault is one row too many of a kind, a number or a lot rule.
pub fn usual_faults_are_large_faults()
    ensures { (rows : List (List (List ℕ))) (e : TableFault) → IsNoMatterOfLimits e.kind → Reads Usual rows (Err e)
        → Reads Large rows (Err e) }
{}
