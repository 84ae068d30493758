//! The library for C: what each call does once it is said how the table is to be read, and within which limits.

ghost use Rattle.mrp_c_api.specs.Calls.{AnswersCodes, AnswersFigures, AnswersMessages, AnswersOrders, AnswersPlan};
ghost use Rattle.mrp_c_api.specs.Calls.{AnswersReach, AnswersSchedules, AnswersShortages};

use crate::buffer::{answer, refuse_name};
use crate::options::{given, heading, limit};
use mrp_commands::{Choice, Reading, Request};
use std::alloc::Global;
use std::str::from_utf8;

/// Plans a table.
pub(crate) fn plan(
    alloc: Global,
    table: &[u8],
    reading: Reading,
    buffer: &mut [u8],
    size: &mut usize,
) -> u32
    ensures { AnswersPlan table.now reading result buffer.old buffer.new size.new }
{
    let choice = Choice::Plan {
        workers: 1,
        capacity: 64,
        single: true,
    };
    answer(alloc, table, Request { reading, choice }, buffer, size)
}

/// Writes the planned and firm orders of a table.
pub(crate) fn orders(
    alloc: Global,
    table: &[u8],
    reading: Reading,
    limited: bool,
    until: u64,
    header: bool,
    buffer: &mut [u8],
    size: &mut usize,
) -> u32
    ensures { AnswersOrders table.now reading limited until header result buffer.old buffer.new size.new }
{
    let until = limit(limited, until);
    let heading = heading(header);
    let choice = Choice::Orders { until, heading };
    answer(alloc, table, Request { reading, choice }, buffer, size)
}

/// Writes the delivery schedules of a table, or refuses a name that isn't UTF-8.
pub(crate) fn schedule(
    alloc: Global,
    table: &[u8],
    reading: Reading,
    from: &[u8],
    to: &[u8],
    header: bool,
    buffer: &mut [u8],
    size: &mut usize,
) -> u32
    ensures { AnswersSchedules table.now reading from.now to.now header result buffer.old buffer.new size.new }
{
    let Ok(supplier) = from_utf8(from) else {
        return refuse_name(buffer, size);
    };
    let Ok(customer) = from_utf8(to) else {
        return refuse_name(buffer, size);
    };
    let from = given(supplier);
    let to = given(customer);
    let heading = heading(header);
    let choice = Choice::Schedule { from, to, heading };
    answer(alloc, table, Request { reading, choice }, buffer, size)
}

/// Writes the low-level code of each pair of a table.
pub(crate) fn check(
    alloc: Global,
    table: &[u8],
    reading: Reading,
    header: bool,
    buffer: &mut [u8],
    size: &mut usize,
) -> u32
    ensures { AnswersCodes table.now reading header result buffer.old buffer.new size.new }
{
    let heading = heading(header);
    let choice = Choice::Check { heading };
    answer(alloc, table, Request { reading, choice }, buffer, size)
}

/// Writes until which period the gross requirements of each pair of a table, and its releases, are whole.
pub(crate) fn reach(
    alloc: Global,
    table: &[u8],
    reading: Reading,
    header: bool,
    buffer: &mut [u8],
    size: &mut usize,
) -> u32
    ensures { AnswersReach table.now reading header result buffer.old buffer.new size.new }
{
    let heading = heading(header);
    let choice = Choice::Reach { heading };
    answer(alloc, table, Request { reading, choice }, buffer, size)
}

/// Writes the cumulative figures of the lanes between the plants of a table.
pub(crate) fn cums(
    alloc: Global,
    table: &[u8],
    reading: Reading,
    header: bool,
    buffer: &mut [u8],
    size: &mut usize,
) -> u32
    ensures { AnswersFigures table.now reading header result buffer.old buffer.new size.new }
{
    let heading = heading(header);
    let choice = Choice::Cums { heading };
    answer(alloc, table, Request { reading, choice }, buffer, size)
}

/// Writes which open orders of a table to expedite, to defer and to cancel.
pub(crate) fn advice(
    alloc: Global,
    table: &[u8],
    reading: Reading,
    limited: bool,
    until: u64,
    reach: bool,
    header: bool,
    buffer: &mut [u8],
    size: &mut usize,
) -> u32
    ensures { AnswersMessages table.now reading limited until reach header result buffer.old buffer.new size.new }
{
    let until = limit(limited, until);
    let heading = heading(header);
    let choice = Choice::Advice {
        until,
        reach,
        heading,
    };
    answer(alloc, table, Request { reading, choice }, buffer, size)
}

/// Writes which requirements of a table's plan in period 0 lack parts.
pub(crate) fn shortages(
    alloc: Global,
    table: &[u8],
    reading: Reading,
    header: bool,
    buffer: &mut [u8],
    size: &mut usize,
) -> u32
    ensures { AnswersShortages table.now reading header result buffer.old buffer.new size.new }
{
    let heading = heading(header);
    let choice = Choice::Shortages { heading };
    answer(alloc, table, Request { reading, choice }, buffer, size)
}
