//! Tests of the library: readers and writers that give little, fail or end early.

ghost use Rattle.mrp_commands.specs.Range.{IsInRange};

use super::is_report;
use super::outcomes::outcome;
use super::reports::{
    BICYCLE_PLAN, EARLY, EARLY_ADVICE, EARLY_ADVICE_WITHIN, LACKING, LACKING_SHORTAGES,
    TWO_PLANTS_CUMS, TWO_PLANTS_PEGS, TWO_PLANTS_REACH, TWO_PLANTS_SCHEDULE,
};
use mrp_api::{TextFault, answer, check_text, drive_text, status};
use mrp_commands::{Choice, Heading, Reading, Request};
use mrp_master_data::LimitSet;
use mrp_run_tests::{BICYCLE, TWO_PLANTS};
use mrp_validation::TableFaultKind;
use std::alloc::{AllocError, Global};
use std::io;
use std::io::{ErrorKind, Read, Write};
use std::process::Abort;
use std::sync::Wait;
use std::sync::atomic::{AtomicU64, Ordering};
use std::test::Fail;
use std::thread::Threads;

/// An order that is due within its lead time.
const LATE: &str =
    "run,2026-01-05,7,2,,,,\nplant,A,,,,,,\npair,A,X,buy,lot,3,0,0\ndemand,A,X,1,7,,,\n";

const LATE_PLAN: &str =
    "plan,A,X,0,2026-01-05,0,0,0,7,0\nplan,A,X,1,2026-01-12,7,0,7,0,0\nlate,A,X,1,7,2\n";

/// A reader of a text, `step` bytes a call, whose call number `fails` fails. Asked again it goes on, so that
/// a read which is tried again shows.
#[derive(Drop)]
struct Source<'t> {
    left: &'t [u8],
    step: usize,
    call: usize,
    fails: usize,
}

impl Read for Source<'_> {
    fn read(&mut self, buf: &mut [u8]) -> io::Result<usize> {
        let call = self.call;
        self.call = call.saturating_add(1);
        if call == self.fails {
            return Err(io::Error::from(ErrorKind::Other));
        }
        let count = self.step.min(buf.len()).min(self.left.len());
        buf[..count].copy_from_slice(&self.left[..count]);
        self.left = &self.left[count..];
        Ok(count)
    }
}

/// A writer that takes `step` bytes a call; its call number `ends` fails, or takes nothing. Asked again it
/// goes on, so that a write which is tried again shows, and so does a flush behind that call.
#[derive(Drop)]
struct Sink {
    taken: Vec<u8>,
    step: usize,
    call: usize,
    ends: usize,
    takes_nothing: bool,
}

impl Write for Sink {
    fn write(&mut self, buf: &[u8]) -> io::Result<usize> {
        let call = self.call;
        self.call = call.saturating_add(1);
        if call == self.ends {
            return if self.takes_nothing {
                Ok(0)
            } else {
                Err(io::Error::from(ErrorKind::Other))
            };
        }
        let count = self.step.min(buf.len());
        self.taken.extend_from_slice(&buf[..count])?;
        Ok(count)
    }

    fn flush(&mut self) -> io::Result<()> {
        if self.call > self.ends {
            self.taken.extend_from_slice(b" flushed")?;
        }
        Ok(())
    }
}

/// A reader of the bicycle, seven bytes a call, whose call number `fails` fails.
fn failing(fails: usize) -> Source<'static> {
    Source {
        left: BICYCLE.as_bytes(),
        step: 7,
        call: 0,
        fails,
    }
}

/// The row of a failed read.
fn row_of(fault: &TextFault) -> Option<u64> {
    match fault {
        TextFault::Table(fault) if fault.kind == TableFaultKind::ReadFault => Some(fault.row),
        _ => None,
    }
}

/// How many rows of the bicycle have come whole before that read.
fn rows_before(fails: usize) -> u64 {
    let bytes = BICYCLE.as_bytes();
    let count = fails.saturating_mul(7).min(bytes.len());
    let mut rows = 0;
    for byte in &bytes[..count] {
        if *byte == b'\n' && rows < u64::MAX {
            rows += 1;
        }
    }
    rows
}

/// How many reads bring the bicycle, seven bytes each.
const READS: usize = 21;

/// The row that is awaited at that read: a row is handed out once the read after its end came, and
/// all rows are where the read at the end of the text fails.
fn row_awaited(fails: usize) -> u64 {
    let read = if fails < READS {
        fails.saturating_sub(1)
    } else {
        fails
    };
    rows_before(read).saturating_add(1)
}

/// Whether the answer is that the read failed at the row that was awaited, with status 3 and with
/// nothing written.
fn tells_the_read(answer: &Result<(), TextFault>, written: &[u8], fails: usize) -> bool {
    let Err(fault) = answer else {
        return false;
    };
    row_of(fault) == Some(row_awaited(fails)) && status(fault) == 3 && written.is_empty()
}

/// Asserts that it is so where the read or write of that number fails.
fn is_so_at<R: Abort>(rt: &R, is_so: bool, call: usize) {
    assert!(rt; is_so, "at call {call}");
}

/// Whether the choice tells the failed read.
fn choice_tells<T: Threads + Wait + Sync>(
    rt: &T,
    alloc: Global,
    asked: Asked,
    fails: usize,
) -> bool {
    let mut written = Vec::new(alloc);
    let answer = answer(rt, alloc, request_of(asked), failing(fails), &mut written);
    tells_the_read(&answer, written.as_slice(), fails)
}

/// Whether each choice does.
fn choices_tell<T: Threads + Wait + Sync>(rt: &T, alloc: Global, fails: usize) -> bool {
    for written in &REPORTS {
        if !choice_tells(rt, alloc, written.asked, fails) {
            return false;
        }
    }
    true
}

#[test]
fn a_reader_that_fails_before_each_choice(rt: HostRuntime) {
    for fails in 0..22usize {
        is_so_at(&rt, choices_tell(&rt, rt.alloc(), fails), fails);
    }
}

/// Whether the bicycle is planned where a read after the end of the text fails.
fn plans_before_the_read(alloc: Global, fails: usize) -> bool {
    let mut written = Vec::new(alloc);
    let answer = drive_text(alloc, failing(fails), &mut written, 64);
    answer.is_ok() && written.as_slice() == BICYCLE_PLAN.as_bytes()
}

#[test]
fn a_reader_that_fails_after_the_end(rt: HostRuntime) {
    assert!(rt; plans_before_the_read(rt.alloc(), 22));
}

/// A writer that takes ten bytes a call; its call number `ends` fails, or takes nothing.
fn ending(alloc: Global, ends: usize, takes_nothing: bool) -> Sink {
    Sink {
        taken: Vec::new(alloc),
        step: 10,
        call: 0,
        ends,
        takes_nothing,
    }
}

/// Whether the writer ended at its call number `ends` with the prefix of the text that it took.
fn ended_in_front(answer: &Result<(), TextFault>, sink: &Sink, text: &[u8]) -> bool {
    let front = &text[..sink.ends.saturating_mul(10).min(text.len())];
    matches!(answer, Err(TextFault::WriteFault)) && sink.taken.as_slice() == front
}

/// What that many writes take of the late plan: the plan rows are sent first, 64 bytes in seven
/// writes, then the late row, 15 bytes in two.
fn late_front(writes: usize) -> &'static [u8] {
    let count = if writes < 7 {
        writes.saturating_mul(10)
    } else {
        writes
            .saturating_sub(7)
            .saturating_mul(10)
            .saturating_add(64)
    };
    let text = LATE_PLAN.as_bytes();
    &text[..count.min(text.len())]
}

/// Whether the plan with a late order ends there.
fn late_plan_ends(alloc: Global, ends: usize) -> bool {
    let mut sink = ending(alloc, ends, false);
    let answer = drive_text(alloc, LATE.as_bytes(), &mut sink, 64);
    matches!(answer, Err(TextFault::WriteFault)) && sink.taken.as_slice() == late_front(ends)
}

#[test]
fn a_writer_that_ends_in_the_late_rows(rt: HostRuntime) {
    for ends in 0..9usize {
        is_so_at(&rt, late_plan_ends(rt.alloc(), ends), ends);
    }
}

/// What is asked for.
#[derive(Clone, Copy)]
enum Asked {
    PlanByThreads,
    PlanOnOneThread,
    Codes,
    Terms,
    Figures,
    Orders,
    Schedules,
    Pegs,
    Reach,
    Advice,
    AdviceWithin,
    Shortages,
}

/// The choice that asks for it.
fn choice_of(asked: Asked) -> Choice<'static>
    ensures { IsInRange result }
{
    match asked {
        Asked::PlanByThreads => Choice::Plan {
            workers: 1,
            capacity: 64,
            single: false,
        },
        Asked::PlanOnOneThread => Choice::Plan {
            workers: 1,
            capacity: 64,
            single: true,
        },
        Asked::Codes => Choice::Check {
            heading: Heading::Names,
        },
        Asked::Terms => Choice::Peg {
            plant: "P1",
            item: "WHEEL",
            period: 2,
            heading: Heading::Without,
        },
        Asked::Figures => Choice::Cums {
            heading: Heading::Without,
        },
        Asked::Orders => Choice::Orders {
            until: None,
            heading: Heading::Names,
        },
        Asked::Schedules => Choice::Schedule {
            from: None,
            to: None,
            heading: Heading::Names,
        },
        Asked::Pegs => Choice::Pegs {
            heading: Heading::Names,
        },
        Asked::Reach => Choice::Reach {
            heading: Heading::Names,
        },
        Asked::Advice => Choice::Advice {
            until: None,
            reach: false,
            heading: Heading::Names,
        },
        Asked::AdviceWithin => Choice::Advice {
            until: None,
            reach: true,
            heading: Heading::Names,
        },
        Asked::Shortages => Choice::Shortages {
            heading: Heading::Names,
        },
    }
}

/// The request that asks for it, of any table.
fn request_of(asked: Asked) -> Request<'static>
    ensures { IsInRange result.choice }
{
    Request {
        reading: Reading {
            whole: false,
            limits: LimitSet::Usual,
        },
        choice: choice_of(asked),
    }
}

/// What is written of that table where it is asked for.
struct Written {
    asked: Asked,
    table: &'static str,
    report: &'static str,
}

/// A report of each choice, of three writes at least.
const REPORTS: [Written; 12] = [
    Written {
        asked: Asked::PlanByThreads,
        table: BICYCLE,
        report: BICYCLE_PLAN,
    },
    Written {
        asked: Asked::PlanOnOneThread,
        table: BICYCLE,
        report: BICYCLE_PLAN,
    },
    Written {
        asked: Asked::Codes,
        table: BICYCLE,
        report: "row,plant,item,code\ncode,P1,BIKE,0\ncode,P1,WHEEL,1\n",
    },
    Written {
        asked: Asked::Terms,
        table: BICYCLE,
        report: "peg,bill,P1,BIKE,10,2,20\n",
    },
    Written {
        asked: Asked::Figures,
        table: TWO_PLANTS,
        report: TWO_PLANTS_CUMS,
    },
    Written {
        asked: Asked::Orders,
        table: BICYCLE,
        report: "row,plant,item,supply,quantity,release,release_date,due,due_date,late\n\
order,P1,BIKE,make,10,2,2026-01-19,3,2026-01-26,0\norder,P1,WHEEL,buy,20,1,2026-01-12,2,2026-01-19,0\n",
    },
    Written {
        asked: Asked::Schedules,
        table: TWO_PLANTS,
        report: TWO_PLANTS_SCHEDULE,
    },
    Written {
        asked: Asked::Pegs,
        table: TWO_PLANTS,
        report: TWO_PLANTS_PEGS,
    },
    Written {
        asked: Asked::Reach,
        table: TWO_PLANTS,
        report: TWO_PLANTS_REACH,
    },
    Written {
        asked: Asked::Advice,
        table: EARLY,
        report: EARLY_ADVICE,
    },
    Written {
        asked: Asked::AdviceWithin,
        table: EARLY,
        report: EARLY_ADVICE_WITHIN,
    },
    Written {
        asked: Asked::Shortages,
        table: LACKING,
        report: LACKING_SHORTAGES,
    },
];

/// Whether the choice ends there, or its report does before.
fn choice_ends<T: Threads + Wait + Sync>(
    rt: &T,
    alloc: Global,
    written: &Written,
    ends: usize,
    takes_nothing: bool,
) -> bool {
    if ends.saturating_mul(10) >= written.report.len() {
        return true;
    }
    let request = request_of(written.asked);
    let mut sink = ending(alloc, ends, takes_nothing);
    let answer = answer(rt, alloc, request, written.table.as_bytes(), &mut sink);
    ended_in_front(&answer, &sink, written.report.as_bytes())
}

/// Whether each choice does.
fn choices_end<T: Threads + Wait + Sync>(
    rt: &T,
    alloc: Global,
    ends: usize,
    takes_nothing: bool,
) -> bool {
    for written in &REPORTS {
        if !choice_ends(rt, alloc, written, ends, takes_nothing) {
            return false;
        }
    }
    true
}

#[test]
fn a_writer_that_ends_in_each_choice(rt: HostRuntime) {
    for ends in 0..30usize {
        is_so_at(&rt, choices_end(&rt, rt.alloc(), ends, false), ends);
        is_so_at(&rt, choices_end(&rt, rt.alloc(), ends, true), ends);
    }
}

/// Whether the bicycle is planned to a writer that takes one byte a call.
fn plans_byte_by_byte(alloc: Global) -> bool {
    let mut sink = Sink {
        taken: Vec::new(alloc),
        step: 1,
        call: 0,
        ends: usize::MAX,
        takes_nothing: false,
    };
    let answer = drive_text(alloc, BICYCLE.as_bytes(), &mut sink, 1);
    answer.is_ok() && sink.taken.as_slice() == BICYCLE_PLAN.as_bytes()
}

#[test]
fn a_writer_of_single_bytes(rt: HostRuntime) {
    assert!(rt; plans_byte_by_byte(rt.alloc()));
}

/// The bicycle with its first two rows exchanged.
const EXCHANGED: &str = "plant,P1,,,,,,\nrun,2026-01-05,7,4,,,,\npair,P1,BIKE,make,lot,1,0,0\n\
pair,P1,WHEEL,buy,lot,1,0,0\nbill,P1,BIKE,WHEEL,2,,,\ndemand,P1,BIKE,3,10,,,\n";

/// A reader of a text, 15 bytes a call, which counts the calls.
#[derive(Drop)]
struct Counted<'t> {
    left: &'t [u8],
    calls: &'t AtomicU64,
}

impl Read for Counted<'_> {
    fn read(&mut self, buf: &mut [u8]) -> io::Result<usize> {
        self.calls.fetch_add(1, Ordering::SeqCst);
        let count = buf.len().min(15).min(self.left.len());
        buf[..count].copy_from_slice(&self.left[..count]);
        self.left = &self.left[count..];
        Ok(count)
    }
}

/// The refusal of the first row, 15 bytes long, where no call follows the one after its end.
fn refusal_at_once(alloc: Global) -> Result<String, AllocError> {
    let calls = AtomicU64::new(0);
    let reader = Counted {
        left: EXCHANGED.as_bytes(),
        calls: &calls,
    };
    let mut written = Vec::new(alloc);
    let answer = check_text(alloc, reader, &mut written);
    if calls.load(Ordering::SeqCst) > 3 {
        return String::from_str(alloc, "read on");
    }
    outcome(alloc, written.as_slice(), &answer)
}

#[test]
fn the_first_fault_ends_the_reading(rt: HostRuntime) -> Result<(), Fail> {
    is_report(
        &rt,
        refusal_at_once(rt.alloc())?,
        "1 mrp: row 1: KindOrder\n",
    );
    Ok(())
}
