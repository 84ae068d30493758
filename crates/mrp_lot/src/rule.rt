//! Lot rules and their limits.

/// The greatest quantity in a lot rule: 10^12 pieces.
pub const MOST_IN_RULE: u64 = 1_000_000_000_000;

/// The longest lead time of any table, in periods.
pub const LONGEST_LEAD: u64 = 520;

/// How a pair's planned orders are sized, once there is a net requirement.
///
/// Quantities are 1 to [`MOST_IN_RULE`] pieces and numbers of periods 1 to 520; a rule with another
/// number is outside the conditions of every call.
#[derive(Clone, Copy, Debug, PartialEq, Eq, Hash)]
pub enum Rule {
    /// Lot for lot: exactly the net requirement.
    LotForLot,
    /// Fixed order quantity: as many lots of this quantity as are needed, 1 to 10^12 pieces each.
    Fixed(u64),
    /// Period order quantity: enough to cover this many periods, 1 to 520.
    Periods(u64),
    /// At least the first quantity, in multiples of the second, each 1 to 10^12 pieces.
    MinMultiple(u64, u64),
}
