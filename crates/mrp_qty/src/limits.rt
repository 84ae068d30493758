//! Quantities and limits: the limits of tables, records and runs, each as a number, and the two sets of a table's.

ghost use Rattle.std.specs.Prelude.{◌≡◌};
ghost use Rattle.mrp_qty.specs.Limits.{limits_of};

use crate::LONGEST;

/// How great a table may be.
#[derive(Clone, Copy, Debug, PartialEq, Eq)]
pub enum LimitSet {
    /// As great as most firms want: [`USUAL`].
    Usual,
    /// As great as any table may be: [`LARGE`].
    Large,
}

/// The limits of a table, each as a number.
#[derive(Clone, Copy, Debug, PartialEq, Eq)]
pub struct Limits {
    /// The most plants.
    pub plants: usize,
    /// The most pairs, and so the most items, policy and vendor rows.
    pub pairs: usize,
    /// The most source rows, four of each pair, and the most reset rows, one of each source.
    pub sources: usize,
    /// The most bill rows, and the most usage rows.
    pub bills: usize,
    /// The most demand rows.
    pub demands: usize,
    /// The most receipt, ship, cum and firm rows, of each kind.
    pub of_a_kind: usize,
    /// The most periods, also those that a lot rule covers.
    pub periods: u64,
    /// The longest lead time, and the most periods of a policy's SOONER and COVER.
    pub lead: u64,
    /// The most turns of reading: the rows of each kind up to their limit, the `end` row, and the end.
    pub turns: u64,
}

/// The usual limits: 64 plants, 20,000 pairs, 104 periods.
pub const USUAL: Limits = Limits {
    plants: 64,
    pairs: 20_000,
    sources: 80_000,
    bills: 200_000,
    demands: 1_000_000,
    of_a_kind: 1_000_000,
    periods: 104,
    lead: 104,
    turns: MAX_TURNS,
};

/// The limits of any table: 1,000 plants, 1,000,000 pairs, 520 periods.
pub const LARGE: Limits = Limits {
    plants: MOST_PLANTS,
    pairs: MOST_PAIRS,
    sources: MOST_SOURCES,
    bills: MOST_BILLS,
    demands: MOST_DEMANDS,
    of_a_kind: MOST_OF_A_KIND,
    periods: LONGEST,
    lead: LONGEST,
    turns: 81_001_522,
};

impl LimitSet {
    /// The limits of the set.
    pub fn limits(self) -> Limits
        ensures { result ≡ limits_of self }
    {
        match self {
            LimitSet::Usual => USUAL,
            LimitSet::Large => LARGE,
        }
    }
}

/// The most plants of any table.
pub const MOST_PLANTS: usize = 1_000;

/// The most pairs of any table, and so the most items, policy and vendor rows.
pub const MOST_PAIRS: usize = 1_000_000;

/// The most sources of one pair.
pub const MOST_SOURCES_OF_PAIR: usize = 4;

/// The most source rows of any table, four of each pair, and the most reset rows, one of each source.
pub const MOST_SOURCES: usize = 4_000_000;

/// The most bill rows of any table, and the most usage rows.
pub const MOST_BILLS: usize = 10_000_000;

/// The most demand rows of any table.
pub const MOST_DEMANDS: usize = 18_000_000;

/// The most receipt, ship, cum and firm rows of any table, of each kind.
pub const MOST_OF_A_KIND: usize = 9_000_000;

/// The greatest quantity of a pair, demand, receipt, ship, firm or policy row: 10^12 pieces. A cumulative figure may be
/// greater.
pub const MOST_IN_ROW: u64 = 1_000_000_000_000;

/// The greatest quantity of a component in one parent, and the greatest number of parents that a usage row speaks of.
pub const MOST_PER: u64 = 1_000_000;

/// All shares of one pair together, in thousandths.
pub const MOST_SHARE: u64 = 1000;

/// The most turns of reading a table within the usual limits: the rows of each kind up to their limit, its `end` row,
/// and the end.
pub const MAX_TURNS: u64 = 5_540_170;

/// The most records of one text.
pub const MOST_RECORDS: u64 = 4_000_000;

/// The greatest capacity of a mailbox between two plants, in records.
pub const MOST_ROOM: u64 = 65_536;

/// The greatest number of workers of a plant.
pub const MOST_WORKERS: u64 = 64;

/// The most turns that a run gives a plant where it is told no other number: more than any run uses.
pub const MOST_TURNS: u64 = 1 << 62;
