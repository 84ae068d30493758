//! Netting one pair: what the pair is planned by, and an order of its plan that is late.

use mrp_lot::Rule;
use mrp_qty::Qty;

/// What the plan of one pair needs to know of it beside its two given rows.
#[derive(Clone, Copy, Debug)]
pub struct PairParams {
    /// How its orders are sized.
    pub rule: Rule,
    /// Periods from release to receipt, 0 to 520.
    pub lead: u64,
    /// Pieces on hand before period 0, 0 to 10^15; of a pair of a table 0 to 10^12.
    pub on_hand: Qty,
    /// Safety stock in pieces, 0 to 10^15, below which projected available never falls; of a pair of a table 0 to
    /// 10^12.
    pub safety: Qty,
}

/// An order that is due before the first period that can be met: within the lead time, or inside the fence.
#[derive(Clone, Copy, Debug, PartialEq, Eq)]
pub struct Late {
    /// The period of the order's receipt, 0 to 519 and below the horizon.
    pub period: usize,
    /// How many pieces are ordered, 1 to 10^15.
    pub quantity: Qty,
    /// How many periods are missing: the lead time, or the fence where that is longer, less period, 1 to 520.
    pub by: u64,
}
