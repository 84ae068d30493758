//! Tests of the library: tables that were worked by hand, computed in the prover by the
//! definitions that the theorem cites.
//!
//! The tests are of calls that no command makes: which plan fits, records as text, booked and written again, and the
//! text functions at their edges: readers and writers that fail, memory that is refused, gates that are shut.
//!
//! Nobody uses it: it is tests and worked tables.
//! Keeps true: expected rows are worked by hand, never taken from the program.
#![tactic(auto)]

mod worked;

pub use worked::{
    bicycle_is_planned, bicycle_is_written, by_policy_is_advised, by_policy_is_ordered,
    by_policy_is_planned, by_policy_is_written, by_usage_is_pegged, by_usage_is_planned,
    by_usage_is_written, by_vendor_is_planned, by_vendor_is_scheduled, by_vendor_is_written,
    customer_is_asked_for, firm_and_planned_is_ordered, firm_and_planned_is_planned,
    firm_and_planned_is_written, firm_call_is_scheduled, firm_of_two_is_planned,
    firm_of_two_is_written, frames_are_advised, frames_are_advised_within_reach,
    frames_are_written, frames_have_an_end, frames_reach, over_new_year_is_planned,
    over_new_year_is_written, phantom_is_short_of_parts, phantom_is_written, pumps_are_advised,
    pumps_are_counted, pumps_are_ordered, pumps_are_planned, pumps_are_scheduled,
    pumps_are_written, scrapped_thrice_is_planned, scrapped_thrice_is_written,
    two_demanders_are_short_of_parts, two_demanders_are_written, two_vendors_are_scheduled,
    two_vendors_are_written, vendor_is_asked_for, working_days_are_ordered,
    working_days_are_planned, working_days_are_scheduled, working_days_are_written,
};

#[cfg(test)]
mod tests;
