//! The loop check with low-level codes, and the bound on quantities: which networks can be planned.
//!
//! A [`SizedNet`] is a network that passed both.
//!
//! Used by plans, reports, lanes, worlds and runs: each takes a `SizedNet`. Agents use its definitions alone.
//! Keeps true: a `SizedNet` has no loop and no figure above 10^15 pieces, so it has exactly one plan.
#![tactic(auto)]

pub mod laws;
mod loops;
mod needs;
mod order;
mod sized;
mod taking;
mod walk;

pub use loops::{Levels, LoopFault, check};
pub use sized::{BoundFault, SizedNet, bound};
