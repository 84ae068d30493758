//! Tests of the library: tables with their end and without it, read as is asked.

use super::is_report;
use super::outcomes::outcome;
use mrp_api::{answer, report_text};
use mrp_commands::{Choice, Heading, Reading, Request};
use mrp_master_data::LimitSet;
use std::alloc::{AllocError, Global};
use std::sync::Wait;
use std::test::Fail;
use std::thread::Threads;

/// A table that ends with its `end` row.
const ENDED: &str = "run,2026-01-05,7,2,,,,\nplant,A,,,,,,\npair,A,X,buy,lot,1,0,0\n\
demand,A,X,1,5,,,\nend,4,,,,,,\n";

/// Its plan.
const PLAN: &str = "plan,A,X,0,2026-01-05,0,0,0,5,0\nplan,A,X,1,2026-01-12,5,0,5,0,0\n";

/// The same table, cut off behind its pair.
const CUT: &str = "run,2026-01-05,7,2,,,,\nplant,A,,,,,,\npair,A,X,buy,lot,1,0,0\n";

/// And within its last row.
const CUT_WITHIN_ITS_END: &str = "run,2026-01-05,7,2,,,,\nplant,A,,,,,,\npair,A,X,buy,lot,1,0,0\n\
demand,A,X,1,5,,,\nend,4,,,,,";

/// A byte order mark, and the table without the line feed behind its last row.
const MARKED: &str = "\u{feff}run,2026-01-05,7,2,,,,\nplant,A,,,,,,\npair,A,X,buy,lot,1,0,0\n\
demand,A,X,1,5,,,\nend,4,,,,,,";

/// The plan of a table on one thread, or the line of its fault.
fn planned(alloc: Global, text: &str, whole: bool) -> Result<String, AllocError> {
    let mut written = Vec::new(alloc);
    let request = Request {
        reading: Reading {
            whole,
            limits: LimitSet::Usual,
        },
        choice: Choice::Plan {
            workers: 1,
            capacity: 4,
            single: true,
        },
    };
    let answer = report_text(alloc, text.as_bytes(), &mut written, request);
    outcome(alloc, written.as_slice(), &answer)
}

/// That by threads.
fn planned_by_threads<T: Threads + Wait + Sync>(
    rt: &T,
    alloc: Global,
    text: &str,
    whole: bool,
) -> Result<String, AllocError> {
    let mut written = Vec::new(alloc);
    let request = Request {
        reading: Reading {
            whole,
            limits: LimitSet::Usual,
        },
        choice: Choice::Plan {
            workers: 1,
            capacity: 4,
            single: false,
        },
    };
    let answer = answer(rt, alloc, request, text.as_bytes(), &mut written);
    outcome(alloc, written.as_slice(), &answer)
}

#[test]
fn a_table_with_its_end_is_planned(rt: HostRuntime) -> Result<(), Fail> {
    let alloc = rt.alloc();
    is_report(&rt, planned(alloc, ENDED, true)?, PLAN);
    is_report(&rt, planned(alloc, ENDED, false)?, PLAN);
    is_report(&rt, planned(alloc, MARKED, true)?, PLAN);
    Ok(())
}

#[test]
fn a_table_that_was_cut_off_is_refused_where_it_has_to_be_whole(
    rt: HostRuntime,
) -> Result<(), Fail> {
    let alloc = rt.alloc();
    is_report(&rt, planned(alloc, CUT, true)?, "1 mrp: row 4: Cut\n");
    is_report(
        &rt,
        planned(alloc, CUT_WITHIN_ITS_END, true)?,
        "1 mrp: row 5: FieldCount\n",
    );
    Ok(())
}

#[test]
fn a_table_without_its_end_is_planned_where_it_need_not_be_whole(
    rt: HostRuntime,
) -> Result<(), Fail> {
    is_report(
        &rt,
        planned(rt.alloc(), CUT, false)?,
        "plan,A,X,0,2026-01-05,0,0,0,0,0\nplan,A,X,1,2026-01-12,0,0,0,0,0\n",
    );
    Ok(())
}

#[test]
fn threads_plan_whole_tables_alone_where_that_is_asked(rt: HostRuntime) -> Result<(), Fail> {
    let alloc = rt.alloc();
    is_report(&rt, planned_by_threads(&rt, alloc, ENDED, true)?, PLAN);
    is_report(
        &rt,
        planned_by_threads(&rt, alloc, CUT, true)?,
        "1 mrp: row 4: Cut\n",
    );
    Ok(())
}
