//! Tests of the library: tables read by blocks of every size, in any number of pieces, beside the one loop: the same rows,
//! or the same fault at the same row.

ghost use Rattle.std.specs.Prelude.{◌<◌};

use super::READ_ALL;
use mrp_master_data::{BillRow, DemandRow, ReceiptRow, RowLists, ShipRow, Tables};
use mrp_tables::{TableFault, read_tables_by_blocks, read_tables_uncounted};
use std::alloc::Global;
use std::io;
use std::io::{ErrorKind, Read};
use std::process::Abort;
use std::test::Fail;
use std::thread::Threads;

/// A table with several rows of each kind that threads read, and rows of each kind behind them.
const TABLE: &str =
    "run,2026-01-05,7,4,,,,\nplant,A,,,,,,\nplant,B,,,,,,\npair,A,X,from:B,lot,1,0,0\n\
pair,B,X,make,lot,0,0,0\npair,B,W,buy,lot,1,5,0\npair,B,V,buy,lot,1,0,0\nbill,B,X,W,2,,,\nbill,B,X,V,1,,,\n\
demand,A,X,0,30,,,\ndemand,A,X,2,30,,,\ndemand,B,W,1,1,,,\ndemand,A,X,3,7,,,\ndemand,B,X,3,12,,,\n\
receipt,B,W,0,10,,,\nreceipt,B,W,3,1,,,\nreceipt,B,X,1,40,,,\nship,B,A,X,0,8,,\nship,B,A,X,2,8,,\n\
ship,B,A,X,2,9,,\ncum,B,A,X,100,,,\nreset,B,A,X,2,,,\nfirm,B,X,0,1,5,,\npolicy,B,W,1,0,0,0,0\n\
usage,B,X,W,2,3,2,\nvendor,V-W,B,W,20,1,,\nday,2,2026-01-26,,,,,\nend,27,,,,,,\n";

/// Whether two lists have the same bills.
fn same_bills(a: &[BillRow], b: &[BillRow]) -> bool {
    if a.len() != b.len() {
        return false;
    }
    for (x, y) in a.iter().zip(b.iter()) {
        if x.parent != y.parent || x.component != y.component || x.per != y.per {
            return false;
        }
    }
    true
}

/// Whether two lists have the same demands.
fn same_demands(a: &[DemandRow], b: &[DemandRow]) -> bool {
    if a.len() != b.len() {
        return false;
    }
    for (x, y) in a.iter().zip(b.iter()) {
        if x.pair != y.pair || x.period != y.period || x.quantity != y.quantity {
            return false;
        }
    }
    true
}

/// Whether two lists have the same receipts.
fn same_receipts(a: &[ReceiptRow], b: &[ReceiptRow]) -> bool {
    if a.len() != b.len() {
        return false;
    }
    for (x, y) in a.iter().zip(b.iter()) {
        if x.pair != y.pair || x.period != y.period || x.quantity != y.quantity {
            return false;
        }
    }
    true
}

/// Whether two lists have the same shipments.
fn same_ships(a: &[ShipRow], b: &[ShipRow]) -> bool {
    if a.len() != b.len() {
        return false;
    }
    for (x, y) in a.iter().zip(b.iter()) {
        let same_lane = x.from == y.from && x.pair == y.pair;
        if !same_lane || x.period != y.period || x.quantity != y.quantity {
            return false;
        }
    }
    true
}

/// Whether two tables have as many rows of the other kinds, and end alike.
fn has_as_many(a: &RowLists, b: &RowLists) -> bool {
    a.cums().len() == b.cums().len()
        && a.resets().len() == b.resets().len()
        && a.firms().len() == b.firms().len()
        && a.policies().len() == b.policies().len()
        && a.usages().len() == b.usages().len()
        && a.vendors().len() == b.vendors().len()
        && a.is_ended() == b.is_ended()
}

/// Whether two tables have the same rows of the kinds that are read by pieces, and as many of others.
fn same_rows(a: &RowLists, b: &RowLists) -> bool {
    same_bills(a.bills(), b.bills())
        && same_demands(a.demands(), b.demands())
        && same_receipts(a.receipts(), b.receipts())
        && same_ships(a.ships(), b.ships())
        && a.pairs().len() == b.pairs().len()
        && has_as_many(a, b)
}

/// Whether two answers are the same.
fn same_answer(a: &Result<Tables, TableFault>, b: &Result<Tables, TableFault>) -> bool {
    match (a, b) {
        (Ok(a), Ok(b)) => same_rows(a.rows(), b.rows()),
        (Err(a), Err(b)) => a == b,
        _ => false,
    }
}

/// Whether a text is read the same by blocks of that size.
fn reads_alike<T: Threads + Sync>(
    rt: &T,
    alloc: Global,
    text: &[u8],
    block: usize,
    count: usize,
) -> bool
    requires { 0 < count }
{
    let whole = read_tables_uncounted(alloc, READ_ALL, text);
    let pieces = read_tables_by_blocks(rt, alloc, READ_ALL, text, block, count);
    same_answer(&whole, &pieces)
}

/// Asserts that it is so of blocks of that size.
fn is_so_of<R: Abort>(rt: &R, is_so: bool, block: usize, place: usize) {
    assert!(rt; is_so, "with blocks of {block} bytes, at {place}");
}

#[test]
fn blocks_of_many_sizes(rt: HostRuntime) {
    for part in 0..120usize {
        let block = part * 7;
        let is_so = reads_alike(&rt, rt.alloc(), TABLE.as_bytes(), block, 3);
        is_so_of(&rt, is_so, block, 0);
    }
}

#[test]
fn pieces_in_every_number(rt: HostRuntime) {
    for count in 1..9usize {
        let is_so = reads_alike(&rt, rt.alloc(), TABLE.as_bytes(), 240, count);
        is_so_of(&rt, is_so, 240, count);
    }
}

/// A reader of a text, at most `step` bytes a call, that fails once where `left` bytes are left, and goes on where it is
/// asked again.
#[derive(Drop)]
struct Failing<'t> {
    text: &'t [u8],
    step: usize,
    left: usize,
    has_failed: bool,
}

impl Read for Failing<'_> {
    fn read(&mut self, buf: &mut [u8]) -> io::Result<usize> {
        let size = self.text.len();
        if size <= self.left && !self.has_failed {
            self.has_failed = true;
            return Err(io::Error::from(ErrorKind::Other));
        }
        let room = self.step.min(buf.len());
        let most = if self.has_failed {
            size
        } else {
            size.saturating_sub(self.left)
        };
        let count = room.min(most).min(size);
        buf[..count].copy_from_slice(&self.text[..count]);
        self.text = &self.text[count..];
        Ok(count)
    }
}

/// Such a reader of the table.
fn failing_at(step: usize, left: usize) -> Failing<'static> {
    Failing {
        text: TABLE.as_bytes(),
        step,
        left,
        has_failed: false,
    }
}

/// Whether a reader that fails is told at the same row.
fn fails_alike<T: Threads + Sync>(rt: &T, alloc: Global, step: usize, left: usize) -> bool {
    let whole = read_tables_uncounted(alloc, READ_ALL, failing_at(step, left));
    let pieces = read_tables_by_blocks(rt, alloc, READ_ALL, failing_at(step, left), 240, 3);
    same_answer(&whole, &pieces)
}

#[test]
fn readers_that_fail_in_each_block(rt: HostRuntime) {
    for left in 0..700usize {
        is_so_of(&rt, fails_alike(&rt, rt.alloc(), 1_000, left), 240, left);
    }
}

#[test]
fn readers_that_give_little(rt: HostRuntime) {
    for step in 1..300usize {
        is_so_of(&rt, fails_alike(&rt, rt.alloc(), step, 0), 240, step);
    }
}

/// What is put in the place of a row, or in front of it.
const DAMAGES: [&[u8]; 11] = [
    b"demand,A,X,4,30,,,\n",
    b"demand,A,Z,1,30,,,\n",
    b"ship,A,B,X,1,5,,\n",
    b"bill,B,X,W,1,,,\n",
    b"bill,B,W,X,1,,,\n",
    b"firm,A,X,0,1,5,,\n",
    b"\"demand\",A,X,1,30,,,\r\n",
    b"demand,A,X,1,30,,,\r",
    b"\xef\xbb\xbfdemand,A,X,1,30,,,\n",
    b"demand,A,X\xff,1,30,,,\n",
    b"\n\r\n\n",
];

/// The table with that damage in front of the row at that place, counted from 0.
fn damaged(alloc: Global, place: usize, damage: &[u8]) -> Result<Vec<u8>, Fail> {
    let mut text = Vec::new(alloc);
    let mut row = 0usize;
    if place == 0 {
        text.extend_from_slice(damage)?;
    }
    for byte in TABLE.as_bytes() {
        text.push(*byte)?;
        if *byte == b'\n' {
            row = row.saturating_add(1);
            if row == place {
                text.extend_from_slice(damage)?;
            }
        }
    }
    Ok(text)
}

/// Whether the damaged table is read the same by blocks of each of these sizes.
fn damage_is_alike<T: Threads + Sync>(
    rt: &T,
    alloc: Global,
    place: usize,
    damage: &[u8],
) -> Result<bool, Fail> {
    let text = damaged(alloc, place, damage)?;
    let mut is_so = true;
    for block in [120usize, 200, 330] {
        is_so = is_so && reads_alike(rt, alloc, text.as_slice(), block, 3);
    }
    Ok(is_so)
}

#[test]
fn damages_at_each_row(rt: HostRuntime) -> Result<(), Fail> {
    for place in 0..29usize {
        for damage in DAMAGES {
            let is_so = damage_is_alike(&rt, rt.alloc(), place, damage)?;
            is_so_of(&rt, is_so, 330, place);
        }
    }
    Ok(())
}
