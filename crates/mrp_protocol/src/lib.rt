//! The protocol between plants: what lanes carry, which events can happen, and the laws of every run, which are FIFO
//! and conservation on each lane ([`lane_laws`]), no deadlock, and termination ([`run_laws`]).
//!
//! What a lane carries is small and of known length ([`load_laws`]). A pair that is ready has all that its plan
//! needs ([`ready_laws`]), and a plant's view says what its lanes carry ([`view_laws`]). So what one plant plans and
//! sends from its view and the records that came is the network's ([`local_laws`]).
//!
//! Used by agents, by both drivers of a firm, by mailboxes, and by the laws of schedules.
//! Keeps true: FIFO, conservation, no deadlock and termination hold of every run, whatever the order of its events.
#![tactic(auto)]

mod event;
pub mod lane_laws;
pub mod load_laws;
pub mod local_laws;
pub mod ready_laws;
pub mod run_laws;
pub mod view_laws;

pub use event::Event;
pub use mrp_net::{LaneNo, PairNo};
