//! Reach: until which period what a plan says is whole, whatever is wanted behind the horizon.
//!
//! The plan of a table knows nothing of what comes after its last period. Requirements behind it would join orders before
//! it, by lead times, periods of cover and lot rules that order for several periods, and through the bills and sources the
//! requirements of components and suppliers. What is whole can be acted on; beyond it a message says no more than that
//! nothing is known yet.
//!
//! Used by `mrp_advice` and `mrp_api`.
//! Keeps true: in the plan of each table that goes on where this one ends, what is whole is the same.
#![tactic(auto)]

mod laws;
mod reach_laws;
mod reach_report;
mod whole;

pub use laws::{whole_periods_are_one, whole_periods_grow, whole_periods_stay};
pub use mrp_csv_out::{Heading, ReportFault};
pub use mrp_qty::Memory;
pub use reach_laws::reach_is_read_back;
pub use reach_report::reach_rows;
pub use whole::{receipts_whole, releases_whole, whole_periods};
