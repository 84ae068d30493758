//! Delivery schedules: one of their lines.

use mrp_qty::Qty;

/// A line of the delivery schedule of an item between a customer plant and the plant or vendor that supplies it.
///
/// Figures are cumulative, in pieces: what was received, what is in transit and what is called for, all in all since
/// counting began or, after a reset, since that.
#[derive(Clone, Copy, Debug, PartialEq, Eq)]
pub enum ScheduleLine {
    /// Where the schedule begins, its first line.
    Opening {
        /// How many pieces are in transit to the customer, by the shipments of the table or by the vendor's row, 0 to
        /// 10^15.
        transit: Qty,
        /// The figure that the calls are counted on from, these pieces included, 0 to 10^15.
        figure: Qty,
    },
    /// A delivery that the customer calls for.
    Call {
        /// The period in which it is to be shipped, from 0, below the horizon.
        period: u64,
        /// How many pieces, 1 to 10^15.
        quantity: Qty,
        /// The figure in force with this call, in pieces, 1 to 10^15.
        cumulative: Qty,
    },
    /// From here on the figure counts from 0 again; at most one line of a schedule.
    Reset {
        /// The first period that is counted anew, from 0, below the horizon.
        period: u64,
        /// The figure that is closed, in pieces, 0 to 10^15.
        closed: Qty,
    },
}
