//! A plant's crew of workers: threads that draft the plans of its ready pairs side by side.
//!
//! A crew plans in waves. Of the pairs that are ready it takes as many as it has workers, each worker
//! drafts the plan of one, and the agent keeps them, one after the other; so it goes on until no pair is
//! ready. However many workers there are and however their steps fall, each pair gets the plan that the
//! agent alone would have given it.
//!
//! Used by `mrp_run`.
//! Keeps true: a crew makes the plans that its agent alone would make, however many workers it has.
#![tactic(auto)]

mod crew;
mod fault;
pub mod laws;
mod rooms;
mod settling;
mod threads;
mod work;

pub use crew::Crew;
pub use fault::CrewFault;
pub use mrp_agent::{Agent, Gate, NoGate};
pub use mrp_qty::MOST_WORKERS;
