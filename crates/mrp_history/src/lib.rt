//! Histories of plants in logical time, which agree over each lane and merge to a run of the events.
//!
//! Plants that run side by side have no common clock. Each keeps what it did in order, with a stamp for each message
//! that is later than all that its sender knew; so the histories of all plants, sorted by their stamps, are one run.
//!
//! Used by runs by threads, whose lists are those of such histories.
//! Keeps true: whatever histories agree over each lane, there is a run of the events that has them.
#![tactic(auto)]

pub mod history_laws;
