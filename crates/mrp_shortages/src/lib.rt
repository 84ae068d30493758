//! Shortages: which requirements of period 0 lack parts, so that an order that lacks some isn't started unseen.
//!
//! The terms of a pair's gross requirement in period 0 take what is there of it one after the other, and each that gets
//! less than its quantity has a row. A row ends with a line feed, and the names of the columns may stand above. The room
//! for the report is taken before its first byte is sent: where it is refused, the writer is as it was.
//!
//! Used by `mrp_api`, which writes the report.
//! Keeps true: the pieces that a pair's terms lack add up to what its gross requirement is above what is there.
#![tactic(auto)]

mod laws;
mod shortage;
mod shortage_report;

pub use laws::{shortages_add_up, shortages_are_read_back, shortages_are_terms};
pub use mrp_csv_out::{Heading, ReportFault};
pub use mrp_plan::PegTerm;
pub use shortage::Shortage;
pub use shortage_report::shortage_rows;
