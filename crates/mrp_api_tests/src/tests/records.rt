//! Tests of the library: records of lanes, their texts, read, booked and written again, whole and damaged.

ghost use Rattle.std.specs.Prelude.{◌≡◌, All};
ghost use Rattle.mrp_record_csv.specs.Rows.{HasRow};

use crate::tests::network_of;
use mrp_book::{Book, BookFault, BookItem};
use mrp_net::{ItemNo, LaneKind, Network};
use mrp_qty::{Horizon, Qty};
use mrp_record::Record;
use mrp_record_csv::{read_records, write_record};
use mrp_run_tests::{RING, SHARED_AFTER_SHIPMENT, TWO_PLANTS};
use std::alloc::Global;

/// What B has sent to A of the firm.
pub(super) const DESPATCHES: &str = "line,1,X,2,8,108\nend,2,X,1,108,\nclose,3,,,,\n";

/// The items of a lane: one, by its number, with its opening figure and the period from which its figures
/// start anew; or X and W of the ring.
#[derive(Clone, Copy)]
enum Items {
    One(usize, u64, Option<u64>),
    XAndW,
}

/// A lane of a table's network, over so many periods.
#[derive(Clone, Copy)]
struct Lane {
    table: &'static str,
    kind: LaneKind,
    periods: u64,
    items: Items,
}

/// A lane, what its book answers to the records of each text, and the figures that its first item then has: in
/// force, and with the closed years.
///
/// Where the answer to a text is `None` each of its records is taken. A text that ends with a line's end is
/// written again as it was read.
type Case = (Lane, &'static [Answered], (u64, u64));

/// A text of records, and the fault that each of them is refused for, or `None` where it is taken.
type Answered = (&'static str, Option<BookFault>);

/// The book of a lane of one item.
fn book_of_one(
    alloc: Global,
    kind: LaneKind,
    horizon: Horizon,
    item: usize,
    opening: u64,
    reset: Option<u64>,
) -> Option<Book> {
    let item = BookItem {
        item: ItemNo(item),
        opening: Qty::new(opening)?,
        reset,
    };
    Book::new(alloc, kind, horizon, &[item]).ok()
}

/// An item as a book of the ring is given it.
fn opened(number: usize) -> BookItem
    ensures { result.item.0 ≡ number }
{
    BookItem {
        item: ItemNo(number),
        opening: Qty::ZERO,
        reset: None,
    }
}

/// The book of a lane of the ring that carries X and W.
fn book_of_two(alloc: Global, kind: LaneKind, horizon: Horizon) -> Option<Book> {
    Book::new(alloc, kind, horizon, &[opened(0), opened(2)]).ok()
}

/// The book of a lane.
fn book_of(alloc: Global, lane: Lane) -> Option<Book> {
    let horizon = Horizon::new(lane.periods)?;
    match lane.items {
        Items::One(item, opening, reset) => {
            book_of_one(alloc, lane.kind, horizon, item, opening, reset)
        }
        Items::XAndW => book_of_two(alloc, lane.kind, horizon),
    }
}

/// Whether a book gives each of the records that answer.
fn are_answered(book: &mut Book, records: &[Record], wanted: Option<BookFault>) -> bool {
    let mut all = true;
    for record in records {
        all = book.book(record).err() == wanted && all;
    }
    all
}

/// Whether a text that ends with a line's end is written of these records.
fn is_written(alloc: Global, network: &Network, records: &[Record], text: &str) -> bool
    requires { All (HasRow network.now) records.now }
{
    let mut written = Vec::new(alloc);
    let mut all = true;
    for record in records {
        all = write_record(network, record, &mut written).is_ok() && all;
    }
    all && (!text.ends_with('\n') || written.as_slice() == text.as_bytes())
}

/// Whether a book gives the records of a text that answer, and the text is written of them.
fn is_answered(
    alloc: Global,
    network: &Network,
    book: &mut Book,
    text: &str,
    wanted: Option<BookFault>,
) -> bool {
    match read_records(alloc, network, text.as_bytes()) {
        Ok(records) => {
            are_answered(book, &records, wanted) && is_written(alloc, network, &records, text)
        }
        Err(_) => false,
    }
}

/// Whether a book has these figures of an item: in force, and with the closed years.
fn has_figures(book: &Book, item: ItemNo, (in_force, cumulative): (u64, u64)) -> bool {
    book.in_force(item) == Qty::new(in_force)
        && book.cumulative(item) == Qty::new(cumulative)
        && book.cumulative_near(item, 1) == Qty::new(cumulative)
}

/// The first item of a lane.
fn first_item(lane: Lane) -> ItemNo {
    match lane.items {
        Items::One(item, _, _) => ItemNo(item),
        Items::XAndW => ItemNo(0),
    }
}

/// Whether a book gives the texts those answers.
fn answers(alloc: Global, network: &Network, book: &mut Book, texts: &[Answered]) -> bool {
    let mut all = true;
    for (text, wanted) in texts {
        all = is_answered(alloc, network, book, *text, *wanted) && all;
    }
    all
}

/// Whether a new book of the case's lane answers as it says, and then has its figures.
fn new_book_answers(alloc: Global, network: &Network, (lane, texts, figures): Case) -> bool {
    match book_of(alloc, lane) {
        Some(mut book) => {
            answers(alloc, network, &mut book, texts)
                && has_figures(&book, first_item(lane), figures)
        }
        None => false,
    }
}

/// The same in the network of its table.
fn holds(alloc: Global, case: Case) -> bool {
    let Some(network) = network_of(alloc, case.0.table) else {
        return false;
    };
    let is_so = new_book_answers(alloc, &network, case);
    drop(network);
    is_so
}

/// Despatches of X to A, which open with 100.
const TO_A: Lane = Lane {
    table: TWO_PLANTS,
    kind: LaneKind::Despatch,
    periods: 4,
    items: Items::One(0, 100, None),
};

/// The same where the figures start anew in period 2.
const TO_A_ANEW: Lane = Lane {
    table: TWO_PLANTS,
    kind: LaneKind::Despatch,
    periods: 4,
    items: Items::One(0, 100, Some(2)),
};

/// Despatches of X to A, which open just below the greatest figure.
const TO_A_AT_MOST: Lane = Lane {
    table: TWO_PLANTS,
    kind: LaneKind::Despatch,
    periods: 4,
    items: Items::One(0, 999_999_999_999_999, None),
};

/// Each record once, and in turn.
const IN_TURN: Case = (
    TO_A,
    &[
        ("line,1,X,2,8,108", None),
        ("end,2,X,1,108,", None),
        ("end,2,X,1,108,", Some(BookFault::Repeated)),
        ("close,4,,,,", Some(BookFault::Gap)),
        ("close,3,,,,", None),
        ("close,4,,,,", Some(BookFault::AfterClose)),
        ("close,3,,,,", Some(BookFault::Repeated)),
    ],
    (108, 108),
);

/// What is refused changes nothing.
const REFUSED: Case = (
    TO_A,
    &[
        ("line,1,X,2,8,10", Some(BookFault::CumWrong)),
        ("line,1,X,2,8,109", Some(BookFault::CumWrong)),
        ("close,1,,,,", Some(BookFault::CloseEarly)),
        ("end,2,X,1,108,", Some(BookFault::Gap)),
        ("\"line\",1,\"X\",2,8,108", None),
        ("line,1,X,2,8,108", Some(BookFault::Repeated)),
        ("end,2,X,0,108,", Some(BookFault::EndWrong)),
        ("line,2,X,4,1,109", Some(BookFault::PeriodWrong)),
        ("line,2,X,3,0,108", Some(BookFault::QuantityZero)),
        ("line,2,X,3,1,109", None),
        ("", None),
    ],
    (109, 109),
);

/// A reset in its turn.
const RESET: Case = (
    TO_A_ANEW,
    &[
        ("line,1,X,2,8,108", Some(BookFault::ResetWrong)),
        ("reset,1,X,99,,", Some(BookFault::ResetWrong)),
        ("reset,1,X,100,,", None),
        ("line,2,X,2,8,108", Some(BookFault::CumWrong)),
        ("line,2,X,1,8,8", Some(BookFault::ResetWrong)),
        ("line,2,X,2,8,8", None),
        ("reset,3,X,8,,", Some(BookFault::ResetWrong)),
        ("end,3,X,1,8,", None),
    ],
    (8, 108),
);

/// After a reset alone no figure is in force.
const RESET_ALONE: Case = (TO_A_ANEW, &[("reset,1,X,100,,", None)], (0, 100));

/// A figure of 10^15, and none above it.
const GREATEST: Case = (
    TO_A_AT_MOST,
    &[
        ("line,1,X,0,1,1000000000000000", None),
        ("line,2,X,0,1,1000000000000001", Some(BookFault::TooLarge)),
        ("line,2,X,0,1,1000000000000002", Some(BookFault::CumWrong)),
    ],
    (1_000_000_000_000_000, 1_000_000_000_000_000),
);

#[test]
fn books_answer_to_records(rt: HostRuntime) {
    for case in [IN_TURN, REFUSED, RESET, RESET_ALONE, GREATEST] {
        assert!(rt; holds(rt.alloc(), case));
    }
}

/// Schedules of X to B, which open with 108.
const TO_B: Lane = Lane {
    table: TWO_PLANTS,
    kind: LaneKind::Schedule,
    periods: 4,
    items: Items::One(0, 108, None),
};

/// The same where the figures start anew in period 2.
const TO_B_ANEW: Lane = Lane {
    table: TWO_PLANTS,
    kind: LaneKind::Schedule,
    periods: 4,
    items: Items::One(0, 108, Some(2)),
};

/// The same where they start anew in the period of the release.
const TO_B_AT_ONCE: Lane = Lane {
    table: TWO_PLANTS,
    kind: LaneKind::Schedule,
    periods: 4,
    items: Items::One(0, 108, Some(1)),
};

/// Despatches to the customer of two suppliers.
const TO_SHARED: Lane = Lane {
    table: SHARED_AFTER_SHIPMENT,
    kind: LaneKind::Despatch,
    periods: 1,
    items: Items::One(0, 0, None),
};

/// Schedules to its suppliers.
const FROM_SHARED: Lane = Lane {
    table: SHARED_AFTER_SHIPMENT,
    kind: LaneKind::Schedule,
    periods: 1,
    items: Items::One(0, 0, None),
};

/// Schedules to the one that has shipped five.
const FROM_SHARED_AFTER: Lane = Lane {
    table: SHARED_AFTER_SHIPMENT,
    kind: LaneKind::Schedule,
    periods: 1,
    items: Items::One(0, 5, None),
};

/// The ring's lanes of Y.
const OF_Y: Lane = Lane {
    table: RING,
    kind: LaneKind::Despatch,
    periods: 1,
    items: Items::One(1, 0, None),
};

/// The same, as schedules.
const FOR_Y: Lane = Lane {
    table: RING,
    kind: LaneKind::Schedule,
    periods: 1,
    items: Items::One(1, 0, None),
};

/// The ring's lanes of X and W.
const OF_X_AND_W: Lane = Lane {
    table: RING,
    kind: LaneKind::Despatch,
    periods: 1,
    items: Items::XAndW,
};

/// The same, as schedules.
const FOR_X_AND_W: Lane = Lane {
    table: RING,
    kind: LaneKind::Schedule,
    periods: 1,
    items: Items::XAndW,
};

/// The whole texts of lanes; where two items have no lines their blocks come in either order.
const WHOLE: [Case; 14] = [
    (TO_A, &[(DESPATCHES, None)], (108, 108)),
    (
        TO_A_ANEW,
        &[(
            "reset,1,X,100,,\nline,2,X,2,8,8\nend,3,X,1,8,\nclose,4,,,,\n",
            None,
        )],
        (8, 108),
    ),
    (
        TO_B,
        &[("line,1,X,1,22,130\nend,2,X,1,130,\nclose,3,,,,\n", None)],
        (130, 130),
    ),
    (
        TO_B_ANEW,
        &[(
            "line,1,X,1,22,130\nreset,2,X,130,,\nend,3,X,1,0,\nclose,4,,,,\n",
            None,
        )],
        (0, 130),
    ),
    (
        TO_B_AT_ONCE,
        &[(
            "reset,1,X,108,,\nline,2,X,1,22,22\nend,3,X,1,22,\nclose,4,,,,\n",
            None,
        )],
        (22, 130),
    ),
    (TO_SHARED, &[("end,1,X,0,0,\nclose,2,,,,\n", None)], (0, 0)),
    (
        FROM_SHARED,
        &[("line,1,X,0,1,1\nend,2,X,1,1,\nclose,3,,,,\n", None)],
        (1, 1),
    ),
    (
        TO_SHARED,
        &[("line,1,X,0,5,5\nend,2,X,1,5,\nclose,3,,,,\n", None)],
        (5, 5),
    ),
    (
        FROM_SHARED_AFTER,
        &[("line,1,X,0,1,6\nend,2,X,1,6,\nclose,3,,,,\n", None)],
        (6, 6),
    ),
    (OF_Y, &[("end,1,Y,0,0,\nclose,2,,,,\n", None)], (0, 0)),
    (
        FOR_Y,
        &[("line,1,Y,0,10,10\nend,2,Y,1,10,\nclose,3,,,,\n", None)],
        (10, 10),
    ),
    (
        OF_X_AND_W,
        &[("end,1,X,0,0,\nend,2,W,0,0,\nclose,3,,,,\n", None)],
        (0, 0),
    ),
    (
        OF_X_AND_W,
        &[("end,1,W,0,0,\nend,2,X,0,0,\nclose,3,,,,\n", None)],
        (0, 0),
    ),
    (
        FOR_X_AND_W,
        &[(
            "line,1,X,0,5,5\nend,2,X,1,5,\nline,3,W,0,30,30\nend,4,W,1,30,\nclose,5,,,,\n",
            None,
        )],
        (5, 5),
    ),
];

#[test]
fn whole_texts_are_booked_and_written_again(rt: HostRuntime) {
    for case in WHOLE {
        assert!(rt; holds(rt.alloc(), case));
    }
}

/// Whether a book takes so many lines of one piece each.
fn takes_lines(book: &mut Book, count: u64) -> bool {
    let mut all = true;
    for before in 0..count {
        let line = Record::Line {
            number: before + 1,
            item: ItemNo(0),
            period: 0,
            quantity: 1,
            cumulative: before + 1,
        };
        all = book.book(&line).is_ok() && all;
    }
    all
}

/// Whether a book takes the item end and the closing record after a million lines, and is closed.
fn takes_the_end(book: &mut Book) -> bool {
    let end = Record::ItemEnd {
        number: 1_000_001,
        item: ItemNo(0),
        lines: 1_000_000,
        cumulative: 1_000_000,
    };
    are_answered(book, &[end, Record::Close { number: 1_000_002 }], None) && book.closed()
}

/// Whether a new book takes a million lines, and what comes after them.
fn takes_a_million_lines(alloc: Global) -> bool {
    match book_of(alloc, TO_SHARED) {
        Some(mut book) => {
            takes_lines(&mut book, 1_000_000)
                && takes_the_end(&mut book)
                && has_figures(&book, ItemNo(0), (1_000_000, 1_000_000))
        }
        None => false,
    }
}

#[test]
fn a_million_lines(rt: HostRuntime) {
    assert!(rt; takes_a_million_lines(rt.alloc()));
}
