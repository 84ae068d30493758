//! Reading a planner's table: which rows it has, or the first fault and its row.
//!
//! A table is comma-separated text of eight fields a row: the run, plants, pairs, bills, demands,
//! receipts, shipments between plants, cumulative figures, where those start anew, firm planned orders, policies of pairs,
//! usages of components, vendors, the dates of periods, and the end. What is accepted are the
//! [`Tables`](mrp_master_data::Tables) of its rows, by the grammar of `mrp_validation`: what each row says, which rows
//! make which table, and which fault a text has first.
//!
//! Used by `mrp_api` and `mrp_record_csv`, and by tests.
//! Keeps true: bytes make one table or have one first fault, and a table is read back from its own rows.
#![tactic(auto)]

mod amounts;
mod blocks;
mod bulk;
mod days;
mod draft;
mod ends;
mod firms;
mod lanes;
mod name_key;
mod names;
mod pairs;
mod pieces;
mod policies;
mod reading;
mod source;
mod spelled;
mod spelling;
mod steps;
mod threads;
mod usages;
mod vendors;

pub use mrp_commands::Reading;
pub use mrp_qty::MAX_TURNS;
pub use mrp_validation::{TableFault, TableFaultKind};
pub use reading::{read_tables, read_tables_as, read_tables_uncounted};
pub use steps::Steps;
pub use threads::{read_tables_by_blocks, read_tables_by_threads};
