//! Tests of runs: what the tables of firms that were worked by hand come to.

use crate::tables::{
    COUNTED_SOONER, COVERED, FENCED, FIVE_ARTICLES_BY_POLICY, FOUR_PLANTS, FOUR_PLANTS_BY_POLICY,
    IDLE_RING, LONG_RING, NO_LANES, NO_PLANTS, ONE_SHARED, RESET_AT_RELEASE, RESET_LATER, RING,
    ROUNDED_UP, SHARED, SHARED_AFTER_SHIPMENT, TWO_CUSTOMERS, TWO_PLANTS, TWO_SHIPMENTS,
    USED_BY_PERIOD,
};

/// What a table comes to, whoever plans it and in whatever order.
#[derive(Clone, Copy)]
pub struct Ending {
    /// The text of the table.
    pub table: &'static str,
    /// How many records go over each lane, in lane order, its item ends and its closing record counted.
    pub records: &'static [u64],
    /// Of each lane, and of each of its items, the cumulative figure at its opening and that at its end, in
    /// pieces, closed years added. At the end as much is shipped as is received.
    pub figures: &'static [&'static [(u64, u64)]],
    /// Of each pair, in the order of the table, the planned order receipts in pieces, period by period.
    pub orders: &'static [&'static [u64]],
}

/// What [`TWO_PLANTS`] comes to.
pub const TWO_PLANTS_ENDING: Ending = Ending {
    table: TWO_PLANTS,
    records: &[3, 3],
    figures: &[&[(100, 108)], &[(108, 130)]],
    orders: &[&[0, 0, 22, 0], &[0, 22, 0, 0]],
};

/// What [`TWO_SHIPMENTS`] comes to.
pub const TWO_SHIPMENTS_ENDING: Ending = Ending {
    table: TWO_SHIPMENTS,
    records: &[4, 3],
    figures: &[&[(100, 116)], &[(116, 130)]],
    orders: &[&[0, 0, 14, 0], &[0, 14, 0, 0]],
};

/// What [`RESET_LATER`] comes to.
pub const RESET_LATER_ENDING: Ending = Ending {
    table: RESET_LATER,
    records: &[4, 4],
    figures: &[&[(100, 108)], &[(108, 130)]],
    orders: &[&[0, 0, 22, 0], &[0, 22, 0, 0]],
};

/// What [`RESET_AT_RELEASE`] comes to: the same.
pub const RESET_AT_RELEASE_ENDING: Ending = Ending {
    table: RESET_AT_RELEASE,
    ..RESET_LATER_ENDING
};

/// What [`RING`] comes to.
pub const RING_ENDING: Ending = Ending {
    table: RING,
    records: &[2, 3, 3, 5],
    figures: &[&[(0, 0)], &[(0, 10)], &[(0, 0), (0, 0)], &[(0, 5), (0, 30)]],
    orders: &[&[5], &[5], &[10], &[10], &[30], &[30]],
};

/// What [`IDLE_RING`] comes to.
pub const IDLE_RING_ENDING: Ending = Ending {
    table: IDLE_RING,
    records: &[2, 2, 3, 3],
    figures: &[&[(0, 0)], &[(0, 0)], &[(0, 0), (0, 0)], &[(0, 0), (0, 0)]],
    orders: &[&[0], &[0], &[0], &[0], &[0], &[0]],
};

/// What [`LONG_RING`] comes to.
pub const LONG_RING_ENDING: Ending = Ending {
    table: LONG_RING,
    records: &[3, 5, 4, 7],
    figures: &[
        &[(0, 0), (0, 0)],
        &[(0, 10), (0, 30)],
        &[(0, 0), (0, 0), (0, 0)],
        &[(0, 5), (0, 30), (0, 60)],
    ],
    orders: &[
        &[5],
        &[5],
        &[10],
        &[10],
        &[30],
        &[30],
        &[30],
        &[30],
        &[60],
        &[60],
    ],
};

/// What [`TWO_CUSTOMERS`] comes to.
pub const TWO_CUSTOMERS_ENDING: Ending = Ending {
    table: TWO_CUSTOMERS,
    records: &[2, 3, 2, 3],
    figures: &[&[(0, 0)], &[(0, 15)], &[(0, 0)], &[(0, 25)]],
    orders: &[&[10], &[10], &[100], &[15], &[25]],
};

/// What [`SHARED`] comes to.
pub const SHARED_ENDING: Ending = Ending {
    table: SHARED,
    records: &[2, 3, 2, 3],
    figures: &[&[(0, 0)], &[(0, 4)], &[(0, 0)], &[(0, 3)]],
    orders: &[&[7], &[4], &[3]],
};

/// What [`ONE_SHARED`] comes to.
pub const ONE_SHARED_ENDING: Ending = Ending {
    table: ONE_SHARED,
    records: &[2, 2, 2, 3],
    figures: &[&[(0, 0)], &[(0, 0)], &[(0, 0)], &[(0, 1)]],
    orders: &[&[1], &[0], &[1]],
};

/// What [`SHARED_AFTER_SHIPMENT`] comes to.
pub const SHARED_AFTER_SHIPMENT_ENDING: Ending = Ending {
    table: SHARED_AFTER_SHIPMENT,
    records: &[2, 3, 3, 3],
    figures: &[&[(0, 0)], &[(0, 1)], &[(0, 5)], &[(5, 6)]],
    orders: &[&[2], &[1], &[1]],
};

/// What [`FOUR_PLANTS`] comes to.
pub const FOUR_PLANTS_ENDING: Ending = Ending {
    table: FOUR_PLANTS,
    records: &[4, 5, 2, 4, 3, 4, 2, 4, 4, 5, 4, 5],
    figures: &[
        &[(40, 42)],
        &[(42, 47)],
        &[(0, 0)],
        &[(0, 3)],
        &[(0, 3)],
        &[(3, 6)],
        &[(0, 0)],
        &[(0, 2)],
        &[(0, 2)],
        &[(2, 11)],
        &[(900, 901)],
        &[(901, 907)],
    ],
    orders: &[
        &[0, 8, 0, 3],
        &[1, 0, 1, 0],
        &[4, 0, 0, 0],
        &[6, 0, 5, 0],
        &[2, 0, 0, 4],
        &[7, 0, 0, 0],
        &[4, 0, 5, 0],
    ],
};

/// What [`COUNTED_SOONER`] comes to. In period 1 A is short of 30 and counts all 20 of its open order; B is short
/// of 10 in period 0 and counts 6.
pub const COUNTED_SOONER_ENDING: Ending = Ending {
    table: COUNTED_SOONER,
    records: &[3, 4],
    figures: &[&[(100, 108)], &[(108, 120)]],
    orders: &[&[0, 10, 2, 0], &[4, 2, 0, 0]],
};

/// What [`FENCED`] comes to. A's 10 for period 1 are released in 1, a period late, but its firm 5 in 0. B's orders
/// for 0 and 1 are released in 2, three and two periods late, and its 15 for 4 in 3.
pub const FENCED_ENDING: Ending = Ending {
    table: FENCED,
    records: &[2, 5],
    figures: &[&[(0, 0)], &[(0, 30)]],
    orders: &[
        &[0, 10, 0, 0, 0, 15],
        &[5, 10, 0, 0, 15, 0],
        &[0, 0, 30, 30, 0, 0],
    ],
};

/// What [`COVERED`] comes to. A orders in period 1 what it wants in 2 too; B in 0 what it wants up to 2, and in 1
/// what its own customers want in 3.
pub const COVERED_ENDING: Ending = Ending {
    table: COVERED,
    records: &[2, 4],
    figures: &[&[(0, 0)], &[(0, 25)]],
    orders: &[&[0, 20, 5, 0, 0], &[21, 7, 0, 0, 0]],
};

/// What [`ROUNDED_UP`] comes to. A wants 7, 1 and 16, and orders 15, 15 and 20. B wants 13, 8 and 8: its rule makes
/// 14 of each, the least quantity 18, and fours 20.
pub const ROUNDED_UP_ENDING: Ending = Ending {
    table: ROUNDED_UP,
    records: &[2, 5],
    figures: &[&[(0, 0)], &[(0, 50)]],
    orders: &[&[0, 15, 15, 20], &[20, 20, 20, 0]],
};

/// What [`USED_BY_PERIOD`] comes to. A releases 10 in each of 0 to 2. B wants 11 Y for each of the first two, and A makes
/// them of 22 and of 3 Z.
pub const USED_BY_PERIOD_ENDING: Ending = Ending {
    table: USED_BY_PERIOD,
    records: &[2, 5, 2, 4],
    figures: &[&[(0, 0)], &[(0, 30)], &[(0, 0)], &[(0, 22)]],
    orders: &[
        &[0, 10, 10, 10],
        &[11, 11, 0, 0],
        &[17, 3, 0, 0],
        &[10, 10, 10, 0],
        &[11, 11, 0, 0],
    ],
};

/// What [`FOUR_PLANTS_BY_POLICY`] comes to. Releases, period by period, are 3 4 0 0 10 0 of A's X, 0 2 0 10 0 0 of
/// B's, 0 0 24 0 0 0 of B's Y, 0 0 7 0 0 0 of C's X, 5 0 12 0 0 0 of D's, and 52 of D's Z in period 3.
pub const FOUR_PLANTS_BY_POLICY_ENDING: Ending = Ending {
    table: FOUR_PLANTS_BY_POLICY,
    records: &[4, 6, 2, 5, 3, 5, 2, 3, 4, 4, 4, 4, 2, 3],
    figures: &[
        &[(40, 42)],
        &[(42, 50)],
        &[(0, 0)],
        &[(0, 5)],
        &[(0, 3)],
        &[(3, 7)],
        &[(0, 0)],
        &[(0, 6)],
        &[(0, 2)],
        &[(2, 20)],
        &[(900, 901)],
        &[(901, 908)],
        &[(0, 0)],
        &[(0, 52)],
    ],
    orders: &[
        &[0, 4, 0, 0, 0, 10],
        &[0, 10, 0, 0, 0, 0],
        &[0, 10, 0, 52, 0, 0],
        &[0, 0, 0, 0, 10, 0],
        &[6, 6, 12, 0, 0, 0],
        &[2, 0, 3, 2, 0, 0],
        &[0, 0, 21, 0, 0, 0],
        &[6, 0, 0, 6, 0, 0],
        &[16, 36, 0, 0, 0, 0],
    ],
};

/// What [`FIVE_ARTICLES_BY_POLICY`] comes to. What the articles ask of the parts is 20 60 30 0 of B1 and 16 36 60 0
/// of B2, and the parts ask 50 210 0 0 of C.
pub const FIVE_ARTICLES_BY_POLICY_ENDING: Ending = Ending {
    table: FIVE_ARTICLES_BY_POLICY,
    records: &[],
    figures: &[],
    orders: &[
        &[0, 0, 30, 0],
        &[20, 0, 0, 0],
        &[16, 0, 0, 0],
        &[0, 20, 0, 0],
        &[0, 0, 0, 9],
        &[30, 30, 30, 0],
        &[50, 30, 0, 0],
        &[180, 0, 0, 0],
    ],
};

/// What [`NO_LANES`] comes to.
pub const NO_LANES_ENDING: Ending = Ending {
    table: NO_LANES,
    records: &[],
    figures: &[],
    orders: &[&[20, 0, 20]],
};

/// What [`NO_PLANTS`] comes to: nothing.
pub const NO_PLANTS_ENDING: Ending = Ending {
    table: NO_PLANTS,
    records: &[],
    figures: &[],
    orders: &[],
};
