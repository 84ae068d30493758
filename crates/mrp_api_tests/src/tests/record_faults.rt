//! Tests of the library: what is read of texts of records that are damaged, too long or not read to their end.

ghost use Rattle.std.specs.Prelude.{◌<◌, length};
ghost use Rattle.mrp_net.specs.Lanes.{lanes};

use crate::tests::network_of;
use crate::tests::records::DESPATCHES;
use mrp_net::{LaneNo, Network};
use mrp_record_csv::{RecordFault, RecordFaultKind, read_lane_records, read_records};
use mrp_run_tests::TWO_PLANTS;
use std::alloc::Global;
use std::io;
use std::io::{ErrorKind, Read};
use std::sync::atomic::{AtomicU64, Ordering};

/// Whether what is read of a reader is refused at that row for that fault.
fn is_refused<R: Read + Drop>(
    alloc: Global,
    network: &Network,
    reader: R,
    row: u64,
    kind: RecordFaultKind,
) -> bool {
    match read_records(alloc, network, reader) {
        Ok(_) => false,
        Err(fault) => fault == RecordFault { row, kind },
    }
}

/// Whether each text is refused at that row for that fault.
fn are_refused(alloc: Global, rows: &[(&[u8], u64, RecordFaultKind)]) -> bool {
    let Some(network) = network_of(alloc, TWO_PLANTS) else {
        return false;
    };
    let mut all = true;
    for (text, row, kind) in rows {
        all = is_refused(alloc, &network, *text, *row, *kind) && all;
    }
    drop(network);
    all
}

#[test]
fn damaged_rows(rt: HostRuntime) {
    let rows: [(&[u8], u64, RecordFaultKind); 12] = [
        (b"close,3", 1, RecordFaultKind::FieldCount),
        (
            b"line,1,X,2,8,108\nclose,3\n",
            2,
            RecordFaultKind::FieldCount,
        ),
        (b"close,3,,,1,\n", 1, RecordFaultKind::FieldCount),
        (b"reset,1,X,100,0,\n", 1, RecordFaultKind::FieldCount),
        (b"clos,3,,,,\n", 1, RecordFaultKind::UnknownKind),
        (b"Line,01,X,2,8,108\n", 1, RecordFaultKind::UnknownKind),
        (b"line,01,X,2,8,108\n", 1, RecordFaultKind::BadNumber),
        (b"line,1,Q,2,8,10 8\n", 1, RecordFaultKind::BadNumber),
        (
            b"line,1,X,2,8,12345678901234567\n",
            1,
            RecordFaultKind::BadNumber,
        ),
        (b"line,1,Q,2,8,108\n", 1, RecordFaultKind::UnknownItem),
        (b"end,1,a name,0,0,\n", 1, RecordFaultKind::UnknownItem),
        (b"line,1,\xff,2,8,108\n", 1, RecordFaultKind::NotUtf8),
    ];
    assert!(rt; are_refused(rt.alloc(), &rows));
}

/// A reader of a text, seven bytes a call, which counts its calls and whose call number `fails` fails. Asked
/// again it goes on.
#[derive(Drop)]
struct Failing<'t> {
    left: &'t [u8],
    calls: &'t AtomicU64,
    fails: u64,
}

impl Read for Failing<'_> {
    fn read(&mut self, buf: &mut [u8]) -> io::Result<usize> {
        if self.calls.fetch_add(1, Ordering::SeqCst) == self.fails {
            return Err(io::Error::from(ErrorKind::Other));
        }
        let count = 7usize.min(buf.len()).min(self.left.len());
        buf[..count].copy_from_slice(&self.left[..count]);
        self.left = &self.left[count..];
        Ok(count)
    }
}

/// How often a reader of a text is called, whose call number `fails` fails, where what is read is refused at
/// that row for that fault.
fn calls_of(
    alloc: Global,
    network: &Network,
    text: &str,
    fails: u64,
    row: u64,
    kind: RecordFaultKind,
) -> Option<u64> {
    let calls = AtomicU64::new(0);
    let reader = Failing {
        left: text.as_bytes(),
        calls: &calls,
        fails,
    };
    if is_refused(alloc, network, reader, row, kind) {
        Some(calls.load(Ordering::SeqCst))
    } else {
        None
    }
}

/// Whether the reading of what B has sent fails in each of those rows where that call fails, and isn't tried again.
fn all_fail_in(alloc: Global, rows: &[(u64, u64)]) -> bool {
    let Some(network) = network_of(alloc, TWO_PLANTS) else {
        return false;
    };
    let mut all = true;
    for (fails, row) in rows {
        let kind = RecordFaultKind::ReadFault;
        let calls = calls_of(alloc, &network, DESPATCHES, *fails, *row, kind);
        all = calls == Some(fails.saturating_add(1)) && all;
    }
    drop(network);
    all
}

#[test]
fn a_reader_that_fails(rt: HostRuntime) {
    // 44 bytes, seven a read: the rows end in the third, the fifth and the seventh read, and a row is
    // handed out once the read after its end came.
    let rows = [
        (0, 1),
        (1, 1),
        (2, 1),
        (3, 1),
        (4, 2),
        (5, 2),
        (6, 3),
        (7, 3),
    ];
    assert!(rt; all_fail_in(rt.alloc(), &rows));
}

/// Whether nothing is read behind the read that hands out a bad row, though two more rows come.
fn fault_ends_the_reading(alloc: Global) -> bool {
    let Some(network) = network_of(alloc, TWO_PLANTS) else {
        return false;
    };
    // the first row ends in the second read, and the third hands it out
    let text = "clos,3,,,,\nline,1,X,2,8,108\nend,2,X,1,108,\n";
    let calls = calls_of(alloc, &network, text, 20, 1, RecordFaultKind::UnknownKind);
    drop(network);
    calls == Some(3)
}

#[test]
fn the_first_fault_ends_the_reading(rt: HostRuntime) {
    assert!(rt; fault_ends_the_reading(rt.alloc()));
}

/// Whether of so many rows, more than may be read, the last is refused.
fn last_is_refused(alloc: Global, network: &Network, rows: usize) -> bool {
    match "close,1,,,,\n".repeat(alloc, rows) {
        Ok(text) => is_refused(
            alloc,
            network,
            text.as_bytes(),
            rows as u64,
            RecordFaultKind::ReadFault,
        ),
        Err(_) => false,
    }
}

/// Whether that many records are read of a text.
fn has_records(alloc: Global, network: &Network, text: &str, count: usize) -> bool {
    match read_records(alloc, network, text.as_bytes()) {
        Ok(records) => records.len() == count,
        Err(_) => false,
    }
}

/// Whether so many rows are read.
fn all_are_read(alloc: Global, network: &Network, rows: usize) -> bool {
    match "close,1,,,,\n".repeat(alloc, rows) {
        Ok(text) => has_records(alloc, network, text.as_str(), rows),
        Err(_) => false,
    }
}

/// Whether the firm's network reads four million records and refuses one more.
fn limit_is_kept(alloc: Global) -> bool {
    let Some(network) = network_of(alloc, TWO_PLANTS) else {
        return false;
    };
    let is_so = all_are_read(alloc, &network, 4_000_000)
        && last_is_refused(alloc, &network, 4_000_001);
    drop(network);
    is_so
}

#[test]
fn four_million_records_are_read_and_no_more(rt: HostRuntime) {
    assert!(rt; limit_is_kept(rt.alloc()));
}

/// Whether so many rows are read as the text of a lane: as many records, or the last of them is refused.
fn lane_text_is(alloc: Global, network: &Network, lane: LaneNo, rows: usize, good: bool) -> bool
    requires { lane.0 < length (lanes network.now) }
{
    let Ok(text) = "close,1,,,,\n".repeat(alloc, rows) else {
        return false;
    };
    match read_lane_records(alloc, network, lane, text.as_bytes()) {
        Ok(records) => good && records.len() == rows,
        Err(fault) => !good && fault.row == rows as u64 && fault.kind == RecordFaultKind::ReadFault,
    }
}

/// Whether that many records are read of the text of a lane, and one more is refused.
fn lane_has_most(alloc: Global, network: &Network, lane: usize, most: usize) -> bool {
    lane < network.lanes()
        && lane_text_is(alloc, network, LaneNo(lane), most, true)
        && lane_text_is(alloc, network, LaneNo(lane), most.saturating_add(1), false)
}

/// Whether of both lanes of the firm as many records are read as they can have: a despatch lane with one shipment, and a
/// schedule lane of four periods.
fn lane_limits_are_kept(alloc: Global) -> bool {
    let Some(network) = network_of(alloc, TWO_PLANTS) else {
        return false;
    };
    let is_so = lane_has_most(alloc, &network, 0, 3) && lane_has_most(alloc, &network, 1, 6);
    drop(network);
    is_so
}

#[test]
fn no_more_records_than_a_lane_can_have(rt: HostRuntime) {
    assert!(rt; lane_limits_are_kept(rt.alloc()));
}
