//! Tests of runs, worked cases of firms: all plants and the mailboxes between them, event by event, agents alone,
//! crews, lanes between threads, and networks that are run by threads, one for each plant. Of a lane, a cursor over a
//! network feeds one end, and what comes out at the other is compared with records worked by hand.
//!
//! The tables that were worked by hand, and what each comes to, are here for the other tests, too:
//! [`is_same_plan`] and [`has_pieces`] compare plans with one another and with what was worked.
//!
//! Used by `mrp_api_tests`, which shares its tables.
//! Keeps true: expected plans and records are worked by hand, never taken from the program.
#![tactic(auto)]

mod endings;
mod plans;
mod tables;

pub use endings::{
    COUNTED_SOONER_ENDING, COVERED_ENDING, Ending, FENCED_ENDING, FIVE_ARTICLES_BY_POLICY_ENDING,
    FOUR_PLANTS_BY_POLICY_ENDING, FOUR_PLANTS_ENDING, IDLE_RING_ENDING, LONG_RING_ENDING,
    NO_LANES_ENDING, NO_PLANTS_ENDING, ONE_SHARED_ENDING, RESET_AT_RELEASE_ENDING,
    RESET_LATER_ENDING, RING_ENDING, ROUNDED_UP_ENDING, SHARED_AFTER_SHIPMENT_ENDING,
    SHARED_ENDING, TWO_CUSTOMERS_ENDING, TWO_PLANTS_ENDING, TWO_SHIPMENTS_ENDING,
    USED_BY_PERIOD_ENDING,
};
pub use plans::{has_pieces, is_same_plan};
pub use tables::{
    BICYCLE, COUNTED_SOONER, COVERED, FENCED, FIVE_ARTICLES, FIVE_ARTICLES_BY_POLICY, FOUR_PLANTS,
    FOUR_PLANTS_BY_POLICY, IDLE_RING, LONG_RING, NO_LANES, NO_PLANTS, ONE_SHARED, RESET_AT_RELEASE,
    RESET_LATER, RING, ROUNDED_UP, SHARED, SHARED_AFTER_SHIPMENT, TWO_CUSTOMERS, TWO_PLANTS,
    TWO_SHIPMENTS, USED_BY_PERIOD,
};

#[cfg(test)]
mod tests;
