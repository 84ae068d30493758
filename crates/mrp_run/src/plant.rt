//! The run by threads: a plant at work in its thread, with its agent and the ends of its lanes.

use mrp_agent::Agent;
use mrp_lane::{SendEnd, TakeEnd};

/// What a plant's thread owns: the plant's agent, and the ends of its lanes in lane order.
#[derive(Drop)]
pub(crate) struct Plant {
    pub(crate) agent: Agent,
    pub(crate) sends: Vec<SendEnd>,
    pub(crate) takes: Vec<TakeEnd>,
}
