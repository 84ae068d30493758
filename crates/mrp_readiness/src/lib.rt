//! Readiness: which pairs of a plant can be planned, kept event by event.
//!
//! A pair is named by its place among the pairs of its plant. It waits for each join to a demander at the plant that
//! isn't planned yet, and for each block of messages that it awaits and that isn't ended: [`Readiness`] has how many
//! that are, and the list of the pairs that wait for nothing and aren't planned.
//!
//! Used by agents, which tell it what was planned and what has come.
//! Keeps true: the listed pairs are those that wait for nothing and aren't planned, each once.
#![tactic(auto)]

mod components;
mod join;
mod pair_set;
mod readiness;
pub mod readiness_laws;
mod slots;
mod waits;

pub use components::Components;
pub use join::Join;
pub use mrp_master_data::PairNo;
pub use readiness::Readiness;
pub use waits::first_waits;
