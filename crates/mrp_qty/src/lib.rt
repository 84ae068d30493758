//! Quantities, planning horizons, rows of one quantity a period, and the limits of tables, records and
//! runs: the numbers that every other crate plans with.
//!
//! Contracts see a [`Qty`] and a [`Horizon`] as the number, and a [`Row`] as the list of its
//! quantities, period by period. What each limit is say the laws [`limits_are_numbers`], [`usual_limits_are_numbers`]
//! and [`large_limits_are_numbers`].
//!
//! Used by every crate that plans or counts.
//! Keeps true: a quantity is at most 10^15 pieces, and a row has one quantity for each period of its horizon.
#![tactic(auto)]

mod horizon;
mod laws;
mod limits;
mod memory;
mod periods;
mod quantity;
mod row;

pub use horizon::{Horizon, LONGEST};
pub use laws::{
    large_limits_are_numbers, limits_are_numbers, turns_are_rows, usual_limits_are_numbers,
};
pub use limits::{
    LARGE, LimitSet, Limits, MAX_TURNS, MOST_BILLS, MOST_DEMANDS, MOST_IN_ROW, MOST_OF_A_KIND,
    MOST_PAIRS, MOST_PER, MOST_PLANTS, MOST_RECORDS, MOST_ROOM, MOST_SHARE, MOST_SOURCES,
    MOST_SOURCES_OF_PAIR, MOST_TURNS, MOST_WORKERS, USUAL,
};
pub use memory::Memory;
pub use quantity::{MOST, Qty};
pub use row::Row;
