//! The view of one plant of a network: its own pairs and rows, and the lanes that it receives or sends. A
//! plant is planned from this alone.
//!
//! Used by agents and those who make them, and by the proofs of plans that plants make alone.
//! Keeps true: a view has the rows and lanes of its own plant and no other, and they are enough to plan it.
#![tactic(auto)]

mod amounts;
mod frame;
pub mod laws;
mod lists;
mod view;
mod viewing;

pub use frame::PlantFrame;
pub use lists::Lists;
pub use mrp_net::{FirmRow, ItemNo, LaneKind, LaneNo, PairNo, PlantNo, Shipment, Usage, UsageRow};
pub use view::{
    Call, IncomingItem, IncomingItems, IncomingLane, OutgoingItem, OutgoingItems, OutgoingLane,
    PlantEdge, PlantPair, PlantView,
};
