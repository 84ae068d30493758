//! The network of a firm: its pairs, who takes from whom, and what its rows add up to.
//!
//! A network is made once from the rows of a table, by counting and placing, and then answers every question
//! but those for a name and for the usage rows of an edge in constant time or with a slice (by construction; no
//! clause says so). Names it looks through one by one, usage rows by halving.
//!
//! Used by plans, reports and agents.
//! Keeps true: a `Network` is its table; each reader is the definition on the rows.
#![tactic(auto)]

mod build;
mod edge;
mod firm_rows;
mod incoming;
mod kept;
mod lane;
mod lanes;
pub mod laws;
mod network;
mod plants;
mod policies;
mod shares;
mod sums;
mod terms;
mod usages;

pub use edge::Edge;
pub use firm_rows::FirmRows;
pub use lane::{Lane, LaneKind, LaneNo, Shipment};
pub use mrp_master_data::{
    FirmRow, ItemNo, PairNo, PairRow, PlantNo, PolicyRow, ReceiptRow, ShipRow, SourceRow, Supply,
    Usage, UsageRow, VendorRow,
};
pub use network::Network;
pub use shares::share_of;
pub use terms::{PlanningTerms, plan_by_terms};
pub use usages::{add_asked, most_per, pieces_for, usage_in, usages_of};
