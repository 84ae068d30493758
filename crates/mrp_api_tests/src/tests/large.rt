//! Tests of the library: tables beyond the usual limits, read within both sets of them.

use super::is_report;
use super::outcomes::outcome;
use mrp_api::{check_text, report_text};
use mrp_commands::{Choice, Heading, Reading, Request};
use mrp_master_data::LimitSet;
use std::alloc::{AllocError, Global};
use std::test::Fail;

/// The run row of 105 periods and a plant, a pair and a demand in the last period.
const LONG: &str = "run,2026-01-05,7,105,,,,\nplant,A,,,,,,\npair,A,X,buy,lot,1,0,0\n\
demand,A,X,104,5,,,\n";

/// What is released for it.
const RELEASED: &str = "order,A,X,buy,5,103,2027-12-27,104,2028-01-03,0\n";

/// A lead time and a rule of 105 periods.
const LEAD: &str = "run,2026-01-05,7,2,,,,\nplant,A,,,,,,\npair,A,X,buy,lot,105,0,0\n";

const RULE: &str = "run,2026-01-05,7,2,,,,\nplant,A,,,,,,\npair,A,X,buy,periods:105,1,0,0\n";

const POLICY: &str = "run,2026-01-05,7,2,,,,\nplant,A,,,,,,\npair,A,X,buy,lot,1,0,0\n\
policy,A,X,0,105,105,0,0\n";

/// More than any table may have.
const LONGER: &str = "run,2026-01-05,1,521,,,,\nplant,A,,,,,,\npair,A,X,buy,lot,1,0,0\n";

const LONGER_LEAD: &str = "run,2026-01-05,7,2,,,,\nplant,A,,,,,,\npair,A,X,buy,lot,521,0,0\n";

const LONGER_POLICY: &str = "run,2026-01-05,7,2,,,,\nplant,A,,,,,,\npair,A,X,buy,lot,1,0,0\n\
policy,A,X,0,105,521,0,0\n";

const LONGER_RULE: &str = "run,2026-01-05,7,2,,,,\nplant,A,,,,,,\npair,A,X,buy,periods:521,1,0,0\n";

/// The orders of a table within these limits, or the line of its fault.
fn ordered(alloc: Global, text: &str, limits: LimitSet) -> Result<String, AllocError> {
    let mut written = Vec::new(alloc);
    let request = Request {
        reading: Reading {
            whole: false,
            limits,
        },
        choice: Choice::Orders {
            until: None,
            heading: Heading::Without,
        },
    };
    let answer = report_text(alloc, text.as_bytes(), &mut written, request);
    outcome(alloc, written.as_slice(), &answer)
}

/// The low-level codes of a table within these limits, or the line of its fault.
fn coded(alloc: Global, text: &[u8], limits: LimitSet) -> Result<String, AllocError> {
    let mut written = Vec::new(alloc);
    let request = Request {
        reading: Reading {
            whole: false,
            limits,
        },
        choice: Choice::Check {
            heading: Heading::Without,
        },
    };
    let answer = report_text(alloc, text, &mut written, request);
    outcome(alloc, written.as_slice(), &answer)
}

/// The codes of the text function, which takes the usual limits.
fn checked(alloc: Global, text: &str) -> Result<String, AllocError> {
    let mut written = Vec::new(alloc);
    let answer = check_text(alloc, text.as_bytes(), &mut written);
    outcome(alloc, written.as_slice(), &answer)
}

#[test]
fn long_horizons_want_the_large_limits(rt: HostRuntime) -> Result<(), Fail> {
    let alloc = rt.alloc();
    let usual = ordered(alloc, LONG, LimitSet::Usual)?;
    is_report(&rt, usual, "1 mrp: row 1: BadNumber\n");
    is_report(&rt, checked(alloc, LONG)?, "1 mrp: row 1: BadNumber\n");
    is_report(&rt, ordered(alloc, LONG, LimitSet::Large)?, RELEASED);
    let longer = ordered(alloc, LONGER, LimitSet::Large)?;
    is_report(&rt, longer, "1 mrp: row 1: BadNumber\n");
    Ok(())
}

#[test]
fn long_lead_times_want_the_large_limits(rt: HostRuntime) -> Result<(), Fail> {
    let alloc = rt.alloc();
    let usual = coded(alloc, LEAD.as_bytes(), LimitSet::Usual)?;
    is_report(&rt, usual, "1 mrp: row 3: BadNumber\n");
    let large = coded(alloc, LEAD.as_bytes(), LimitSet::Large)?;
    is_report(&rt, large, "code,A,X,0\n");
    let longer = coded(alloc, LONGER_LEAD.as_bytes(), LimitSet::Large)?;
    is_report(&rt, longer, "1 mrp: row 3: BadNumber\n");
    Ok(())
}

#[test]
fn long_rules_want_the_large_limits(rt: HostRuntime) -> Result<(), Fail> {
    let alloc = rt.alloc();
    let usual = coded(alloc, RULE.as_bytes(), LimitSet::Usual)?;
    is_report(&rt, usual, "1 mrp: row 3: BadRule\n");
    let large = coded(alloc, RULE.as_bytes(), LimitSet::Large)?;
    is_report(&rt, large, "code,A,X,0\n");
    let longer = coded(alloc, LONGER_RULE.as_bytes(), LimitSet::Large)?;
    is_report(&rt, longer, "1 mrp: row 3: BadRule\n");
    Ok(())
}

#[test]
fn long_policies_want_the_large_limits(rt: HostRuntime) -> Result<(), Fail> {
    let alloc = rt.alloc();
    let usual = coded(alloc, POLICY.as_bytes(), LimitSet::Usual)?;
    is_report(&rt, usual, "1 mrp: row 4: BadNumber\n");
    let large = coded(alloc, POLICY.as_bytes(), LimitSet::Large)?;
    is_report(&rt, large, "code,A,X,0\n");
    let longer = coded(alloc, LONGER_POLICY.as_bytes(), LimitSet::Large)?;
    is_report(&rt, longer, "1 mrp: row 4: BadNumber\n");
    Ok(())
}

/// What names are made of.
const LETTERS: &[u8] = b"ABCDEFGHIJKLMNOPQRSTUVWXYZ0123456789";

/// A letter of a name, by its number.
fn letter(number: usize) -> u8 {
    LETTERS.get(number).copied().unwrap_or(b'-')
}

/// The bytes of a table of that many plants, at most 1,296.
fn many_plants(alloc: Global, count: usize) -> Result<Vec<u8>, AllocError> {
    let mut text = Vec::new(alloc);
    text.extend_from_slice(b"run,2026-01-05,7,2,,,,\n")?;
    for plant in 0..count {
        text.extend_from_slice(b"plant,")?;
        text.push(letter(plant / 36))?;
        text.push(letter(plant % 36))?;
        text.extend_from_slice(b",,,,,,\n")?;
    }
    Ok(text)
}

#[test]
fn many_plants_want_the_large_limits(rt: HostRuntime) -> Result<(), Fail> {
    let alloc = rt.alloc();
    let text = many_plants(alloc, 65)?;
    let usual = coded(alloc, text.as_slice(), LimitSet::Usual)?;
    is_report(&rt, usual, "1 mrp: row 66: TooMany\n");
    let large = coded(alloc, text.as_slice(), LimitSet::Large)?;
    is_report(&rt, large, "");
    let text = many_plants(alloc, 1001)?;
    let more = coded(alloc, text.as_slice(), LimitSet::Large)?;
    is_report(&rt, more, "1 mrp: row 1002: TooMany\n");
    Ok(())
}
