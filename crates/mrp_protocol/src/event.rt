//! The protocol between plants has three events: a record is sent, a record is received, a pair is planned.

use mrp_net::{LaneNo, PairNo};

/// One step of a run: a record is sent over a lane, the next one of a lane is received, or one pair
/// is planned.
#[derive(Clone, Copy, Debug, PartialEq, Eq)]
pub enum Event {
    /// The lane's sender sends one record more.
    Send(LaneNo),
    /// The lane's receiver takes the first record that it hasn't taken yet.
    Receive(LaneNo),
    /// The plant of the pair plans it.
    Plan(PairNo),
}
