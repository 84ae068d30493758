//! Delivery schedules: what the customer plant calls for, item by item, for each plant that supplies it, and for
//! each vendor.
//!
//! A schedule has for each item of its lane what is in transit, the calls with their cumulative figures, and the
//! reset. It is what the lane's records say of the item, made from the plan; that of a vendor is made in the same
//! way of its row and the releases of the pair that it delivers. A row of the report ends with a line
//! feed, and the names of the columns may stand above. The room for the report is taken before its first byte is
//! sent: where it is refused, the writer is as it was.
//!
//! Used by `mrp_api`, which writes the report.
//! Keeps true: a schedule is what a whole text of its lane says of the item, its calls add up to the release, and
//! each figure goes on from the one before.
#![tactic(auto)]

mod calls;
mod laws;
mod line;
mod report;
mod schedule;

pub use laws::{
    calls_are_released, figures_add_up, figures_follow, schedules_are_read_back,
    texts_carry_schedules, vendor_calls_are_released, vendor_schedules_open,
};
pub use line::ScheduleLine;
pub use mrp_csv_out::{Heading, ReportFault};
pub use mrp_net::{ItemNo, LaneNo, PlantNo, VendorRow};
pub use report::schedule_rows;
pub use schedule::{add_schedule, add_vendor_schedule};
