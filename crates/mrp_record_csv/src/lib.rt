//! Records as CSV: comma-separated rows, one a record.
//!
//! Each record of a network has one row, and a row that is read is the row of one record.
//!
//! Used by tests alone; no command reads or writes records.
//! Keeps true: a record has one row, and what is written reads back as the same records.
#![tactic(auto)]

mod fault;
mod items;
mod kind;
pub mod laws;
mod most;
mod reading;
mod spelled;
mod writing;

pub use fault::{RecordFault, RecordFaultKind};
pub use mrp_qty::MOST_RECORDS;
pub use mrp_record::Record;
pub use reading::{read_lane_records, read_records};
pub use writing::write_record;
