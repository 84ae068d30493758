//! Reports of a plan as comma-separated rows: the plan rows and the late orders of a plan, the pegging
//! of a gross requirement and of the whole plan, the low-level codes, the cumulative figures of lanes, and
//! the planned and firm orders.
//!
//! A row ends with a line feed. All reports but those of the plan may begin with a row of the names of
//! their columns. The room for a report is taken before its first byte is sent: where it is refused, the
//! writer is as it was.
//!
//! Used by `mrp_api`, which writes the reports, by the program and by the library for C.
//! Keeps true: a report is its definition in `specs/`, and csv reads back the fields that its rows are made of.
#![tactic(auto)]

mod before;
mod codes;
mod lanes;
mod late;
mod laws;
mod orders;
mod pegging;
mod pegs;
mod plan;
mod room;
mod rounds;
mod supply;

pub use codes::code_rows;
pub use lanes::lane_rows;
pub use late::late_rows;
pub use laws::reports_are_read_back;
pub use mrp_csv_out::{ReportFault, send};
pub use orders::order_rows;
pub use pegging::pegs_rows;
pub use pegs::peg_rows;
pub use plan::plan_rows;
pub use rounds::plan_rows_by_threads;
