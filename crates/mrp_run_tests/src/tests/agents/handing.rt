//! Tests of runs: firms agent by agent, with each record handed over.

use super::deeds::{Deed, go};
use crate::{
    COUNTED_SOONER, COVERED, FENCED, NO_LANES, ONE_SHARED, RESET_AT_RELEASE, RESET_LATER, RING,
    ROUNDED_UP, SHARED, SHARED_AFTER_SHIPMENT, TWO_CUSTOMERS, TWO_PLANTS, TWO_SHIPMENTS,
};
use std::test::Fail;

const A_PLANT_WITHOUT_LANES: &[Deed] = &[
    Deed::Ready(0, &[0]),
    Deed::Undone(0),
    Deed::Plan(0, &[20, 0, 20]),
    Deed::Ready(0, &[]),
    Deed::Done(0),
];

const TWO_PLANTS_DEEDS: &[Deed] = &[
    Deed::Ready(0, &[]),
    Deed::Ready(1, &[]),
    Deed::Rest(1),
    Deed::Line(0, 1, 0, 2, 8, 108),
    Deed::Ready(0, &[]),
    Deed::End(0, 2, 0, 1, 108),
    Deed::Ready(0, &[0]),
    Deed::Rest(1),
    Deed::Plan(0, &[0, 0, 22, 0]),
    Deed::Ready(0, &[]),
    Deed::Line(1, 1, 0, 1, 22, 130),
    Deed::Ready(1, &[]),
    Deed::End(1, 2, 0, 1, 130),
    Deed::Close(1, 3),
    Deed::Rest(1),
    Deed::Ready(1, &[1]),
    Deed::Undone(0),
    Deed::Undone(1),
    Deed::Plan(1, &[0, 22, 0, 0]),
    Deed::Undone(1),
    Deed::Close(0, 3),
    Deed::Rest(0),
    Deed::Done(0),
    Deed::Done(1),
];

const TWO_SHIPMENTS_DEEDS: &[Deed] = &[
    Deed::Line(0, 1, 0, 2, 8, 108),
    Deed::Line(0, 2, 0, 2, 8, 116),
    Deed::End(0, 3, 0, 2, 116),
    Deed::Plan(0, &[0, 0, 14, 0]),
    Deed::Line(1, 1, 0, 1, 14, 130),
    Deed::End(1, 2, 0, 1, 130),
    Deed::Plan(1, &[0, 14, 0, 0]),
];

/// The ring's items are numbered as its pairs name them: X, Y, W.
const A_RING: &[Deed] = &[
    Deed::Ready(0, &[]),
    Deed::Ready(1, &[]),
    Deed::End(2, 1, 0, 0, 0),
    Deed::Ready(1, &[0]),
    Deed::Plan(0, &[5]),
    Deed::Line(3, 1, 0, 0, 5, 5),
    Deed::End(3, 2, 0, 1, 5),
    Deed::Rest(3),
    Deed::Plan(1, &[5]),
    Deed::Ready(0, &[]),
    Deed::End(0, 1, 1, 0, 0),
    Deed::Ready(0, &[2]),
    Deed::Close(0, 2),
    Deed::Plan(2, &[10]),
    Deed::Line(1, 1, 1, 0, 10, 10),
    Deed::End(1, 2, 1, 1, 10),
    Deed::Close(1, 3),
    Deed::Plan(3, &[10]),
    Deed::Ready(1, &[]),
    Deed::End(2, 2, 2, 0, 0),
    Deed::Plan(4, &[30]),
    Deed::Line(3, 3, 2, 0, 30, 30),
    Deed::End(3, 4, 2, 1, 30),
    Deed::Plan(5, &[30]),
    Deed::Undone(0),
    Deed::Undone(1),
    Deed::Close(2, 3),
    Deed::Close(3, 5),
    Deed::Done(0),
    Deed::Done(1),
];

/// The item Z is the third that the table names.
const A_PAIR_WAITS_FOR_ALL_ITS_CUSTOMERS: &[Deed] = &[
    Deed::Ready(0, &[0, 1]),
    Deed::Plan(0, &[10]),
    Deed::Ready(0, &[1]),
    Deed::Plan(1, &[10]),
    Deed::Ready(0, &[]),
    Deed::End(0, 1, 2, 0, 0),
    Deed::End(2, 1, 2, 0, 0),
    Deed::Ready(1, &[3]),
    Deed::Ready(2, &[4]),
    Deed::Plan(3, &[15]),
    Deed::Line(1, 1, 2, 0, 15, 15),
    Deed::End(1, 2, 2, 1, 15),
    Deed::Ready(0, &[]),
    Deed::Plan(4, &[25]),
    Deed::Line(3, 1, 2, 0, 25, 25),
    Deed::Ready(0, &[]),
    Deed::End(3, 2, 2, 1, 25),
    Deed::Ready(0, &[2]),
    Deed::Plan(2, &[100]),
    Deed::Undone(0),
];

const PARTS_OF_AN_ORDER: &[Deed] = &[
    Deed::End(0, 1, 0, 0, 0),
    Deed::Ready(0, &[]),
    Deed::End(2, 1, 0, 0, 0),
    Deed::Plan(0, &[7]),
    Deed::Line(1, 1, 0, 0, 4, 4),
    Deed::End(1, 2, 0, 1, 4),
    Deed::Line(3, 1, 0, 0, 3, 3),
    Deed::End(3, 2, 0, 1, 3),
    Deed::Plan(1, &[4]),
    Deed::Plan(2, &[3]),
];

const A_PART_OF_NOTHING_HAS_NO_LINE: &[Deed] = &[
    Deed::End(0, 1, 0, 0, 0),
    Deed::End(2, 1, 0, 0, 0),
    Deed::Plan(0, &[1]),
    Deed::End(1, 1, 0, 0, 0),
    Deed::Close(1, 2),
    Deed::Line(3, 1, 0, 0, 1, 1),
    Deed::End(3, 2, 0, 1, 1),
    Deed::Plan(1, &[0]),
    Deed::Plan(2, &[1]),
];

const PARTS_AFTER_A_SHIPMENT: &[Deed] = &[
    Deed::End(0, 1, 0, 0, 0),
    Deed::Line(2, 1, 0, 0, 5, 5),
    Deed::Ready(0, &[]),
    Deed::End(2, 2, 0, 1, 5),
    Deed::Plan(0, &[2]),
    Deed::Line(1, 1, 0, 0, 1, 1),
    Deed::End(1, 2, 0, 1, 1),
    Deed::Line(3, 1, 0, 0, 1, 6),
    Deed::End(3, 2, 0, 1, 6),
    Deed::Plan(1, &[1]),
    Deed::Plan(2, &[1]),
];

const FIGURES_START_ANEW_WITH_THE_SHIPMENT: &[Deed] = &[
    Deed::Reset(0, 1, 0, 100),
    Deed::Line(0, 2, 0, 2, 8, 8),
    Deed::End(0, 3, 0, 1, 8),
    Deed::Plan(0, &[0, 0, 22, 0]),
    Deed::Line(1, 1, 0, 1, 22, 130),
    Deed::Reset(1, 2, 0, 130),
    Deed::End(1, 3, 0, 1, 0),
    Deed::Close(1, 4),
    Deed::Plan(1, &[0, 22, 0, 0]),
    Deed::Close(0, 4),
    Deed::Done(0),
    Deed::Done(1),
];

const FIGURES_START_ANEW_WITH_THE_RELEASE: &[Deed] = &[
    Deed::Reset(0, 1, 0, 100),
    Deed::Line(0, 2, 0, 2, 8, 8),
    Deed::End(0, 3, 0, 1, 8),
    Deed::Plan(0, &[0, 0, 22, 0]),
    Deed::Reset(1, 1, 0, 108),
    Deed::Line(1, 2, 0, 1, 22, 22),
    Deed::End(1, 3, 0, 1, 22),
    Deed::Close(1, 4),
    Deed::Plan(1, &[0, 22, 0, 0]),
    Deed::Close(0, 4),
    Deed::Done(0),
    Deed::Done(1),
];

const OPEN_ORDERS_COUNT_SOONER: &[Deed] = &[
    Deed::Line(0, 1, 0, 2, 8, 108),
    Deed::End(0, 2, 0, 1, 108),
    Deed::Plan(0, &[0, 10, 2, 0]),
    Deed::Line(1, 1, 0, 0, 10, 118),
    Deed::Line(1, 2, 0, 1, 2, 120),
    Deed::End(1, 3, 0, 2, 120),
    Deed::Plan(1, &[4, 2, 0, 0]),
];

const ORDERS_WAIT_FOR_THE_FENCE: &[Deed] = &[
    Deed::End(0, 1, 0, 0, 0),
    Deed::Plan(0, &[0, 10, 0, 0, 0, 15]),
    Deed::Line(1, 1, 0, 0, 5, 5),
    Deed::Line(1, 2, 0, 1, 10, 15),
    Deed::Line(1, 3, 0, 4, 15, 30),
    Deed::End(1, 4, 0, 3, 30),
    Deed::Plan(1, &[5, 10, 0, 0, 15, 0]),
    Deed::Plan(2, &[0, 0, 30, 30, 0, 0]),
];

const ORDERS_COVER_LATER_PERIODS: &[Deed] = &[
    Deed::End(0, 1, 0, 0, 0),
    Deed::Plan(0, &[0, 20, 5, 0, 0]),
    Deed::Line(1, 1, 0, 0, 20, 20),
    Deed::Line(1, 2, 0, 1, 5, 25),
    Deed::End(1, 3, 0, 2, 25),
    Deed::Plan(1, &[21, 7, 0, 0, 0]),
];

const ORDERS_ARE_ROUNDED_UP: &[Deed] = &[
    Deed::End(0, 1, 0, 0, 0),
    Deed::Plan(0, &[0, 15, 15, 20]),
    Deed::Line(1, 1, 0, 0, 15, 15),
    Deed::Line(1, 2, 0, 1, 15, 30),
    Deed::Line(1, 3, 0, 2, 20, 50),
    Deed::End(1, 4, 0, 3, 50),
    Deed::Plan(1, &[20, 20, 20, 0]),
];

/// The agents of each of these tables, and what is done with them.
const CASES: [(&str, &[Deed]); 14] = [
    (NO_LANES, A_PLANT_WITHOUT_LANES),
    (TWO_PLANTS, TWO_PLANTS_DEEDS),
    (TWO_SHIPMENTS, TWO_SHIPMENTS_DEEDS),
    (RING, A_RING),
    (TWO_CUSTOMERS, A_PAIR_WAITS_FOR_ALL_ITS_CUSTOMERS),
    (SHARED, PARTS_OF_AN_ORDER),
    (ONE_SHARED, A_PART_OF_NOTHING_HAS_NO_LINE),
    (SHARED_AFTER_SHIPMENT, PARTS_AFTER_A_SHIPMENT),
    (RESET_LATER, FIGURES_START_ANEW_WITH_THE_SHIPMENT),
    (RESET_AT_RELEASE, FIGURES_START_ANEW_WITH_THE_RELEASE),
    (COUNTED_SOONER, OPEN_ORDERS_COUNT_SOONER),
    (FENCED, ORDERS_WAIT_FOR_THE_FENCE),
    (COVERED, ORDERS_COVER_LATER_PERIODS),
    (ROUNDED_UP, ORDERS_ARE_ROUNDED_UP),
];

#[test]
fn agents_hand_their_records_over(rt: HostRuntime) -> Result<(), Fail> {
    for (number, (table, deeds)) in CASES.iter().enumerate() {
        assert!(rt; go(&rt, table, deeds)?, "case {number}");
    }
    Ok(())
}
