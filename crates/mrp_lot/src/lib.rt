//! Lot rules: how much is ordered for a net requirement.
//!
//! `specs/` has the definitions of the lot rules, in the terms of the APICS Dictionary: lot for lot, fixed order
//! quantity, period order quantity, minimum and multiple.
//!
//! Quantities are 0 to 10^15 pieces, and periods of supply 1 to 520.
//!
//! Used by the plan of one pair, and by all that speak of lot rules.
//! Keeps true: whatever the rule, an order covers its need, as it is sized.
#![tactic(auto)]

mod laws;
mod rule;
mod sizing;

pub use laws::{
    fixed_is_least, limits_are_numbers, lot_covers, lot_for_lot_is_exact, min_multiple_is_least,
};
pub use rule::{LONGEST_LEAD, MOST_IN_RULE, Rule};
pub use sizing::lot;
