//! The agent of one plant, which plans from the plant's own view and from the records that come to it.
//!
//! An agent is given what its plant sees and nothing else of the network. It books the records of the
//! lanes that come in, plans a pair once nothing is missing for it, and sends what its plans and its
//! shipments say. Contracts speak of every history that an agent shows: the lists of records sent and
//! taken, and the planned pairs. None of the lists is stored. The plans of all plants' pairs are gathered to the plan
//! of the network.
//!
//! Used by crews and by both drivers of a firm.
//! Keeps true: what an agent plans and sends follows from its view and the records that came, and is the network's.
#![tactic(auto)]

mod agent;
mod booking;
mod drafting;
mod edges;
mod gate;
mod gathering;
pub mod laws;
mod making;
mod parts;
mod places;
mod planning;
mod queues;
mod room;
mod sending;
mod settling;

pub use agent::Agent;
pub use gate::{Gate, NoGate};
pub use gathering::gather;
pub use mrp_book::BookFault;
pub use mrp_net::{LaneNo, PairNo};
pub use mrp_record::Record;
pub use room::Room;
pub use sending::NextOut;
