//! Records of a lane: lines, resets, item ends and the closing.

use mrp_master_data::ItemNo;

/// One record of a lane.
///
/// The records of a lane are numbered from 1. Those of an item stand together, as its block: its
/// lines, at most one reset before, among or after them, and the item end. The closing record is the last of all.
/// The figure of an item is cumulative: it counts the pieces of all its lines so far, on top of the
/// figure that the item opened with, and after a reset from 0 on.
#[derive(Clone, Copy, Debug, PartialEq, Eq)]
pub enum Record {
    /// A delivery: on a despatch lane what has been shipped, on a schedule lane what is called for.
    Line {
        /// The record's place on its lane, from 1.
        number: u64,
        /// What is delivered.
        item: ItemNo,
        /// The period in which it arrives or, on a schedule lane, is to be shipped; below the horizon.
        period: u64,
        /// How many pieces, at least 1.
        quantity: u64,
        /// The item's figure with this line, in pieces, at most 10^15.
        cumulative: u64,
    },
    /// The last record of an item.
    ItemEnd {
        /// The record's place on its lane, from 1.
        number: u64,
        /// Whose block ends.
        item: ItemNo,
        /// How many lines the item has; a reset is no line.
        lines: u64,
        /// The item's figure at the end, in pieces.
        cumulative: u64,
    },
    /// From here on the item's figure counts from 0 again.
    Reset {
        /// The record's place on its lane, from 1.
        number: u64,
        /// Whose figure starts anew.
        item: ItemNo,
        /// The figure that is closed, in pieces.
        closed: u64,
    },
    /// The last record of the lane.
    Close {
        /// The record's place on its lane, from 1.
        number: u64,
    },
}
