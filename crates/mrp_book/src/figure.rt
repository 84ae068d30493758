//! The book: the cumulative figures of an item on a lane, as its receiver keeps them and reports tell them.

use mrp_net::{ItemNo, LaneNo};
use mrp_qty::Qty;

/// The cumulative figures of an item on a lane, closed years added.
#[derive(Clone, Copy, Debug)]
pub struct LaneFigure {
    /// The lane.
    pub lane: LaneNo,
    /// One of its items.
    pub item: ItemNo,
    /// The figure that the lane opens with, in pieces.
    pub opening: Qty,
    /// The figure of all lines sent.
    pub shipped: Qty,
    /// The figure of all lines booked by the receiver.
    pub received: Qty,
}
