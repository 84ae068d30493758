//! Tests of runs: what a book says of the records that it takes.

use mrp_book::{Book, BookFault, BookItem};
use mrp_net::{ItemNo, LaneKind};
use mrp_qty::{Horizon, Qty};
use mrp_record::Record;
use std::test::Fail;

/// Records count from 1, and one that is refused isn't counted.
#[test]
fn a_book_says_the_next_number(rt: HostRuntime) -> Result<(), Fail> {
    let horizon = Horizon::new(1).ok_or("one period")?;
    let wheel = BookItem {
        item: ItemNo(0),
        opening: Qty::ZERO,
        reset: None,
    };
    let mut book = Book::new(rt.alloc(), LaneKind::Despatch, horizon, &[wheel])?;
    assert!(rt; book.next_number() == 1);
    assert!(rt; book.book(&Record::Close { number: 1 }) == Err(BookFault::CloseEarly));
    assert!(rt; book.next_number() == 1);
    let end = Record::ItemEnd {
        number: 1,
        item: ItemNo(0),
        lines: 0,
        cumulative: 0,
    };
    assert!(rt; book.book(&end).is_ok() && book.next_number() == 2);
    assert!(rt; book.book(&Record::Close { number: 2 }).is_ok() && book.next_number() == 3);
    Ok(())
}
