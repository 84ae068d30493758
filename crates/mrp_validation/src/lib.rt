//! The grammar of a planner's table: what each row says, which rows make which table, and which fault comes first.
//!
//! The grammar is in `specs/`, field by field, row by row and for a whole table. Its laws are functions that do
//! nothing: a table has one list of rows, by which it is read back, and rows that make none have one first fault; a
//! table that has to be whole ends with its `end` row.
//!
//! Used by `mrp_tables`, which reads a table by it, and by all that tell a fault.
//! Keeps true: rows make one table or have one first fault, and a table is read back from its own rows.
#![tactic(auto)]

mod fault;
mod fields;
mod kind;
mod laws;

pub use fault::{TableFault, TableFaultKind};
pub use fields::{field, is_free};
pub use kind::{Kind, may_follow, used};
pub use laws::{
    a_run_has_one_calendar, a_table_is_read_from_its_own_rows_alone, a_table_with_its_end_is_whole,
    cut_tables_are_refused, faults_rise, items_are_numbered_by_their_pairs, missing_pairs_are_told,
    other_faults_stay, reads_are_one, reads_as_asked_are_one, records_are_all_records,
    rows_are_the_table_written_out, rows_have_listed_faults, rows_have_their_first_fault,
    tables_end_with_their_end, tables_have_one_list_of_rows, tables_written_out_are_read,
    usual_faults_are_large_faults, usual_reading_asks_nothing, usual_tables_are_large_tables,
    what_is_read_is_a_table, whole_tables_end,
};
