//! The plan of a whole network: each pair planned after all of its demanders, pegging, and planned orders.
//!
//! Used by `mrp_api` and the reports, and by `mrp_world` for steps and figures.
//! Keeps true: `plan_all` makes the one plan of its network; terms, and firm and planned orders, add up to its rows.
#![tactic(auto)]

mod explosion;
mod fitting;
mod laws;
mod orders;
mod pegging;
mod plan;
mod terms;

pub use fitting::fits;
pub use laws::{orders_are_listed, orders_make_releases, terms_add_up, terms_have_rows};
pub use mrp_net::Network;
pub use mrp_netting::PairPlan;
pub use mrp_qty::Memory;
pub use orders::{ListedOrder, OrderSort, PlannedOrder, planned_order};
pub use pegging::{asking_edges, demand_term, edge_term, peg};
pub use plan::{Plan, plan_all};
pub use terms::{PegSource, PegTerm};
