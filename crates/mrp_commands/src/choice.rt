//! Commands of the planner: what may be chosen, and the limits of what may be asked for.

/// The most workers of a plant: 64.
pub const MOST_WORKERS: u64 = mrp_qty::MOST_WORKERS;

/// The most records that a mailbox between two plants may hold: 65,536.
pub const MOST_CAPACITY: u64 = mrp_qty::MOST_ROOM;

/// The last period that may be asked about: 519, that of the longest horizon, counted from 0. Of a table within the
/// usual limits it is 103: [`Request::is_within_limits`].
pub const LAST_PERIOD: u64 = mrp_qty::LONGEST - 1;

/// Whether a report begins with a row that names its columns.
#[derive(Clone, Copy, Debug, PartialEq, Eq)]
pub enum Heading {
    /// It has its rows alone.
    Without,
    /// It begins with the names of its columns.
    Names,
}

/// What the program is asked to do.
#[derive(Clone, Copy, Debug, PartialEq, Eq)]
pub enum Choice<'a> {
    /// Write the plan.
    Plan {
        /// Workers of each plant, 1 to [`MOST_WORKERS`].
        workers: u64,
        /// Records that the mailbox between two plants may hold, 1 to [`MOST_CAPACITY`].
        capacity: u64,
        /// One thread plans all plants.
        single: bool,
    },
    /// Write the low-level codes.
    Check {
        /// Whether the names of the columns stand above them.
        heading: Heading,
    },
    /// Write until which period each pair's requirements and releases are whole, whatever is wanted behind the horizon.
    Reach {
        /// Whether the names of the columns stand above the rows.
        heading: Heading,
    },
    /// Write what a gross requirement consists of.
    Peg {
        /// The name of the plant.
        plant: &'a str,
        /// The name of the item.
        item: &'a str,
        /// The period, 0 to [`LAST_PERIOD`].
        period: u64,
        /// Whether the names of the columns stand above the terms.
        heading: Heading,
    },
    /// Write the cumulative figures of the lanes between plants.
    Cums {
        /// Whether the names of the columns stand above them.
        heading: Heading,
    },
    /// Write the planned orders, and the firm ones beside them.
    Orders {
        /// The last period of a release, 0 to [`LAST_PERIOD`]: orders that are released later are left
        /// out. Without it none is.
        until: Option<u64>,
        /// Whether the names of the columns stand above them.
        heading: Heading,
    },
    /// Write the delivery schedules of plants and vendors.
    Schedule {
        /// The name of the supplier, a plant or a vendor, whose schedules alone are written, if it is given.
        from: Option<&'a str>,
        /// The name of the customer plant whose schedules alone are written, if it is given.
        to: Option<&'a str>,
        /// Whether the names of the columns stand above them.
        heading: Heading,
    },
    /// Write what each gross requirement of the plan consists of.
    Pegs {
        /// Whether the names of the columns stand above them.
        heading: Heading,
    },
    /// Write which open orders to expedite, to defer and to cancel.
    Advice {
        /// The last period in which an open order comes, 0 to [`LAST_PERIOD`]: later ones are left out. Without
        /// it none is.
        until: Option<u64>,
        /// Messages that the horizon makes are told as beyond it.
        reach: bool,
        /// Whether the names of the columns stand above them.
        heading: Heading,
    },
    /// Write which requirements of period 0 lack parts.
    Shortages {
        /// Whether the names of the columns stand above them.
        heading: Heading,
    },
}
