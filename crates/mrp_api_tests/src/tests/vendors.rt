//! Tests of the library: vendors, and periods whose first days are given, from the text of a table to its reports, and
//! the lines of rows that are refused.

use super::is_report;
use super::outcomes::outcome;
use super::reports::{MOTORS, MOTORS_SCHEDULE};
use mrp_api::{check_text, drive_text, schedule_text};
use mrp_commands::Heading;
use std::alloc::{AllocError, Global};
use std::process::Abort;
use std::test::Fail;

/// The plan of the motors: a firm order, and a lot that waits for the fence and is a period late.
const MOTORS_PLAN: &str = "plan,WORKS,MOTOR,0,2026-01-05,0,0,0,0,30\n\
plan,WORKS,MOTOR,1,2026-01-12,80,100,0,20,50\nplan,WORKS,MOTOR,2,2026-01-19,60,20,50,100,60\n\
plan,WORKS,MOTOR,3,2026-01-26,90,0,50,100,20\nplan,WORKS,MOTOR,4,2026-02-02,70,0,100,0,50\n\
plan,WORKS,MOTOR,5,2026-02-09,0,0,0,0,50\nlate,WORKS,MOTOR,2,50,1\n";

/// A takes X from B, where it is bought of SOUTH; NORTH delivers Y to A.
const TWO_VENDORS: &str = "run,2026-01-05,7,3,,,,\nplant,A,,,,,,\nplant,B,,,,,,\n\
pair,A,X,from:B,lot,1,0,0\npair,A,Y,buy,lot,0,0,0\npair,B,X,buy,lot,1,0,0\ndemand,A,X,2,10,,,\n\
demand,A,Y,1,5,,,\ndemand,A,Y,2,3,,,\nreceipt,B,X,1,6,,,\ncum,B,A,X,40,,,\n\
vendor,SOUTH,B,X,200,6,,\nvendor,NORTH,A,Y,0,0,,\n";

/// The names of the columns of schedules.
const COLUMNS: &str = "row,kind,supplier,customer,item,period,date,quantity,cumulative\n";

/// The rows between the two plants, and those of each vendor.
const FROM_B: &str = "schedule,opening,B,A,X,,,0,40\nschedule,call,B,A,X,1,2026-01-12,10,50\n";

const FROM_SOUTH: &str =
    "schedule,opening,SOUTH,B,X,,,6,206\nschedule,call,SOUTH,B,X,0,2026-01-05,4,210\n";

const FROM_NORTH: &str = "schedule,opening,NORTH,A,Y,,,0,0\n\
schedule,call,NORTH,A,Y,1,2026-01-12,5,5\nschedule,call,NORTH,A,Y,2,2026-01-19,3,8\n";

/// Weeks of which the second begins in the new year.
const OVER_NEW_YEAR: &str = "run,2026-12-21,7,4,,,,\nplant,A,,,,,,\npair,A,X,buy,lot,1,0,0\n\
demand,A,X,1,10,,,\ndemand,A,X,3,5,,,\nday,1,2027-01-04,,,,,\n";

const OVER_NEW_YEAR_PLAN: &str = "plan,A,X,0,2026-12-21,0,0,0,10,0\n\
plan,A,X,1,2027-01-04,10,0,10,0,0\nplan,A,X,2,2027-01-11,0,0,0,5,0\n\
plan,A,X,3,2027-01-18,5,0,5,0,0\n";

/// Working days from a Thursday on, with what a vendor delivers on them.
const WORKING_DAYS: &str = "run,2026-01-08,1,8,,,,\nplant,A,,,,,,\npair,A,X,buy,lot,2,0,0\n\
demand,A,X,2,4,,,\ndemand,A,X,7,9,,,\nvendor,V,A,X,0,0,5,\nday,2,2026-01-12,,,,,\n\
day,7,2026-01-19,,,,,\n";

const WORKING_DAYS_PLAN: &str = "plan,A,X,0,2026-01-08,0,0,0,4,0\n\
plan,A,X,1,2026-01-09,0,0,0,0,0\nplan,A,X,2,2026-01-12,4,0,4,0,0\n\
plan,A,X,3,2026-01-13,0,0,0,0,0\nplan,A,X,4,2026-01-14,0,0,0,0,0\n\
plan,A,X,5,2026-01-15,0,0,0,9,0\nplan,A,X,6,2026-01-16,0,0,0,0,0\n\
plan,A,X,7,2026-01-19,9,0,9,0,0\n";

const WORKING_DAYS_SCHEDULE: &str = "schedule,opening,V,A,X,,,0,0\n\
schedule,call,V,A,X,0,2026-01-08,4,4\nschedule,reset,V,A,X,5,2026-01-15,,4\n\
schedule,call,V,A,X,5,2026-01-15,9,9\n";

/// What is written of the schedules, or the fault.
fn scheduled(
    alloc: Global,
    table: &str,
    from: Option<&str>,
    to: Option<&str>,
    heading: Heading,
) -> Result<String, AllocError> {
    let mut written = Vec::new(alloc);
    let answer = schedule_text(alloc, table.as_bytes(), &mut written, from, to, heading);
    outcome(alloc, written.as_slice(), &answer)
}

/// What is written of the plan, or the fault.
fn planned(alloc: Global, table: &str) -> Result<String, AllocError> {
    let mut written = Vec::new(alloc);
    let answer = drive_text(alloc, table.as_bytes(), &mut written, 64);
    outcome(alloc, written.as_slice(), &answer)
}

#[test]
fn a_vendor_is_scheduled(rt: HostRuntime) -> Result<(), Fail> {
    let written = scheduled(rt.alloc(), MOTORS, None, None, Heading::Names)?;
    is_report(&rt, written, MOTORS_SCHEDULE);
    is_report(&rt, planned(rt.alloc(), MOTORS)?, MOTORS_PLAN);
    Ok(())
}

/// These rows below the names of the columns.
fn below_columns(alloc: Global, blocks: &[&str]) -> Result<String, AllocError> {
    let mut text = String::from_str(alloc, COLUMNS)?;
    for block in blocks {
        text.push_str(block)?;
    }
    Ok(text)
}

/// Asserts that those of the two vendors' rows are written which are asked for.
fn writes_blocks<R: Abort>(
    rt: &R,
    alloc: Global,
    from: Option<&str>,
    to: Option<&str>,
    blocks: &[&str],
) -> Result<(), AllocError> {
    let written = scheduled(alloc, TWO_VENDORS, from, to, Heading::Names)?;
    let wanted = below_columns(alloc, blocks)?;
    is_report(rt, written, wanted.as_str());
    Ok(())
}

#[test]
fn vendors_stand_behind_lanes(rt: HostRuntime) -> Result<(), Fail> {
    writes_blocks(
        &rt,
        rt.alloc(),
        None,
        None,
        &[FROM_B, FROM_SOUTH, FROM_NORTH],
    )?;
    writes_blocks(&rt, rt.alloc(), Some("NORTH"), None, &[FROM_NORTH])?;
    writes_blocks(&rt, rt.alloc(), Some("B"), None, &[FROM_B])?;
    writes_blocks(&rt, rt.alloc(), Some("A"), None, &[])?;
    writes_blocks(&rt, rt.alloc(), None, Some("A"), &[FROM_B, FROM_NORTH])?;
    writes_blocks(&rt, rt.alloc(), None, Some("B"), &[FROM_SOUTH])?;
    writes_blocks(&rt, rt.alloc(), Some("SOUTH"), Some("A"), &[])?;
    Ok(())
}

#[test]
fn a_vendor_is_no_customer(rt: HostRuntime) -> Result<(), Fail> {
    let written = scheduled(rt.alloc(), TWO_VENDORS, None, Some("SOUTH"), Heading::Names)?;
    is_report(&rt, written, "1 mrp: no plant\n");
    let written = scheduled(rt.alloc(), TWO_VENDORS, Some("X"), None, Heading::Names)?;
    is_report(&rt, written, "1 mrp: no plant\n");
    Ok(())
}

#[test]
fn periods_begin_on_the_days_that_are_given(rt: HostRuntime) -> Result<(), Fail> {
    is_report(&rt, planned(rt.alloc(), OVER_NEW_YEAR)?, OVER_NEW_YEAR_PLAN);
    is_report(&rt, planned(rt.alloc(), WORKING_DAYS)?, WORKING_DAYS_PLAN);
    let written = scheduled(rt.alloc(), WORKING_DAYS, None, None, Heading::Without)?;
    is_report(&rt, written, WORKING_DAYS_SCHEDULE);
    Ok(())
}

/// Five rows, behind which a vendor or a first day may stand.
const FRONT: &str = "run,2026-12-21,7,4,,,,\nplant,A,,,,,,\npair,A,X,buy,lot,1,0,0\n\
pair,A,Y,buy,lot,1,0,0\npair,A,Z,make,lot,1,0,0\n";

/// Rows behind them, and the line of the fault.
const FAULTY: [(&str, &str); 22] = [
    ("vendor,V V,A,X,0,0,,\n", "1 mrp: row 6: BadName\n"),
    ("vendor,V,A,X,,0,,\n", "1 mrp: row 6: BadNumber\n"),
    (
        "vendor,V,A,X,1000000000000001,0,,\n",
        "1 mrp: row 6: BadNumber\n",
    ),
    (
        "vendor,V,A,X,0,1000000000000001,,\n",
        "1 mrp: row 6: BadNumber\n",
    ),
    ("vendor,V,A,X,0,0,4,\n", "1 mrp: row 6: BadNumber\n"),
    (
        "vendor,V,A,X,0,0,,\nvendor,W,A,X,0,0,,\n",
        "1 mrp: row 7: Repeated\n",
    ),
    ("vendor,V,B,X,0,0,,\n", "1 mrp: row 6: UnknownPlant\n"),
    ("vendor,V,A,W,0,0,,\n", "1 mrp: row 6: UnknownPair\n"),
    ("vendor,A,A,Z,0,0,,\n", "1 mrp: row 6: NotSourced\n"),
    ("vendor,A,A,X,0,0,,\n", "1 mrp: row 6: SelfSource\n"),
    ("vendor,V,A,X,0,0,,7\n", "1 mrp: row 6: FieldCount\n"),
    (
        "vendor,V,A,X,1000000000000000,1,,\n",
        "1 mrp: SupplyTooLarge A/X\n",
    ),
    ("day,0,2027-01-04,,,,,\n", "1 mrp: row 6: BadNumber\n"),
    ("day,4,2027-02-01,,,,,\n", "1 mrp: row 6: BadNumber\n"),
    (
        "day,2,2027-01-11,,,,,\nday,2,2027-01-18,,,,,\n",
        "1 mrp: row 7: BadNumber\n",
    ),
    (
        "day,1,2026-12-21,,,,,\n",
        "1 mrp: row 6: CalendarFault BadDate\n",
    ),
    (
        "day,2,2026-12-28,,,,,\n",
        "1 mrp: row 6: CalendarFault BadDate\n",
    ),
    (
        "day,1,2027-1-4,,,,,\n",
        "1 mrp: row 6: CalendarFault BadDate\n",
    ),
    (
        "day,1,2027-02-29,,,,,\n",
        "1 mrp: row 6: CalendarFault BadDate\n",
    ),
    (
        "day,1,2199-12-12,,,,,\n",
        "1 mrp: row 6: CalendarFault PastEnd\n",
    ),
    (
        "day,1,2027-01-04,,,,,\nvendor,V,A,X,0,0,,\n",
        "1 mrp: row 7: KindOrder\n",
    ),
    ("day,1,2027-01-04,7,,,,\n", "1 mrp: row 6: FieldCount\n"),
];

/// What is answered of the table with these rows behind the five.
fn checked(alloc: Global, rows: &str) -> Result<String, AllocError> {
    let mut table = String::from_str(alloc, FRONT)?;
    table.push_str(rows)?;
    let mut written = Vec::new(alloc);
    let answer = check_text(alloc, table.as_str().as_bytes(), &mut written);
    outcome(alloc, written.as_slice(), &answer)
}

#[test]
fn faulty_rows_are_refused(rt: HostRuntime) -> Result<(), Fail> {
    for (rows, line) in FAULTY {
        is_report(&rt, checked(rt.alloc(), rows)?, line);
    }
    Ok(())
}

/// Rows that are just within what is accepted.
const ACCEPTED: [&str; 5] = [
    "vendor,V,A,X,1000000000000000,0,3,\nvendor,V,A,Y,0,1000000000000000,0,\n",
    "vendor,X,A,X,0,0,,\n",
    "day,1,2026-12-22,,,,,\nday,3,2026-12-30,,,,,\n",
    "day,1,2199-12-11,,,,,\n",
    "day,3,2199-12-25,,,,,\n",
];

#[test]
fn rows_within_the_limits_are_accepted(rt: HostRuntime) -> Result<(), Fail> {
    for rows in ACCEPTED {
        is_report(
            &rt,
            checked(rt.alloc(), rows)?,
            "code,A,X,0\ncode,A,Y,0\ncode,A,Z,0\n",
        );
    }
    Ok(())
}
