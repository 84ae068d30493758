//! The library for C: the calls for tables within the large limits.

ghost use Rattle.mrp_c_api.specs.Calls.{AnswersCodes, AnswersFigures, AnswersMessages, AnswersOrders, AnswersPlan};
ghost use Rattle.mrp_c_api.specs.Calls.{AnswersReach, AnswersSchedules, AnswersShortages};
ghost use Rattle.mrp_c_api.specs.Options.{large_reading_of};

use crate::calls;
use crate::options::{Reading, large_reading_of};
use std::alloc::Global;

/// As [`mrp_plan`](crate::mrp_plan), statuses too, of a table within the large limits. The text is that of
/// `mrp plan --large`.
#[unsafe(no_mangle)]
pub extern "C" fn mrp_plan_large(
    alloc: Global,
    table: &[u8],
    reading: &Reading,
    buffer: &mut [u8],
    size: &mut usize,
) -> u32
    ensures { AnswersPlan table.now (large_reading_of reading.now) result buffer.old buffer.new size.new }
{
    let reading = large_reading_of(reading);
    calls::plan(alloc, table, reading, buffer, size)
}

/// As [`mrp_orders`](crate::mrp_orders), statuses too, of a table within the large limits. The text is that of
/// `mrp orders --large`.
#[unsafe(no_mangle)]
pub extern "C" fn mrp_orders_large(
    alloc: Global,
    table: &[u8],
    reading: &Reading,
    limited: bool,
    until: u64,
    header: bool,
    buffer: &mut [u8],
    size: &mut usize,
) -> u32
    ensures { AnswersOrders table.now (large_reading_of reading.now) limited until header result buffer.old buffer.new
        size.new }
{
    let reading = large_reading_of(reading);
    calls::orders(alloc, table, reading, limited, until, header, buffer, size)
}

/// As [`mrp_schedule`](crate::mrp_schedule), statuses too, of a table within the large limits. The text is that of
/// `mrp schedule --large`.
#[unsafe(no_mangle)]
pub extern "C" fn mrp_schedule_large(
    alloc: Global,
    table: &[u8],
    reading: &Reading,
    from: &[u8],
    to: &[u8],
    header: bool,
    buffer: &mut [u8],
    size: &mut usize,
) -> u32
    ensures { AnswersSchedules table.now (large_reading_of reading.now) from.now to.now header result buffer.old
        buffer.new size.new }
{
    let reading = large_reading_of(reading);
    calls::schedule(alloc, table, reading, from, to, header, buffer, size)
}

/// As [`mrp_check`](crate::mrp_check), statuses too, of a table within the large limits. The text is that of
/// `mrp check --large`.
#[unsafe(no_mangle)]
pub extern "C" fn mrp_check_large(
    alloc: Global,
    table: &[u8],
    reading: &Reading,
    header: bool,
    buffer: &mut [u8],
    size: &mut usize,
) -> u32
    ensures { AnswersCodes table.now (large_reading_of reading.now) header result buffer.old buffer.new size.new }
{
    let reading = large_reading_of(reading);
    calls::check(alloc, table, reading, header, buffer, size)
}

/// As [`mrp_reach`](crate::mrp_reach), statuses too, of a table within the large limits. The text is that of
/// `mrp check --reach --large`.
#[unsafe(no_mangle)]
pub extern "C" fn mrp_reach_large(
    alloc: Global,
    table: &[u8],
    reading: &Reading,
    header: bool,
    buffer: &mut [u8],
    size: &mut usize,
) -> u32
    ensures { AnswersReach table.now (large_reading_of reading.now) header result buffer.old buffer.new size.new }
{
    let reading = large_reading_of(reading);
    calls::reach(alloc, table, reading, header, buffer, size)
}

/// As [`mrp_cums`](crate::mrp_cums), statuses too, of a table within the large limits. The text is that of
/// `mrp cums --large`.
#[unsafe(no_mangle)]
pub extern "C" fn mrp_cums_large(
    alloc: Global,
    table: &[u8],
    reading: &Reading,
    header: bool,
    buffer: &mut [u8],
    size: &mut usize,
) -> u32
    ensures { AnswersFigures table.now (large_reading_of reading.now) header result buffer.old buffer.new size.new }
{
    let reading = large_reading_of(reading);
    calls::cums(alloc, table, reading, header, buffer, size)
}

/// As [`mrp_advice`](crate::mrp_advice), statuses too, of a table within the large limits. The text is that of
/// `mrp advice --large`.
#[unsafe(no_mangle)]
pub extern "C" fn mrp_advice_large(
    alloc: Global,
    table: &[u8],
    reading: &Reading,
    limited: bool,
    until: u64,
    reach: bool,
    header: bool,
    buffer: &mut [u8],
    size: &mut usize,
) -> u32
    ensures { AnswersMessages table.now (large_reading_of reading.now) limited until reach header result buffer.old
        buffer.new size.new }
{
    let reading = large_reading_of(reading);
    calls::advice(
        alloc, table, reading, limited, until, reach, header, buffer, size,
    )
}

/// As [`mrp_shortages`](crate::mrp_shortages), statuses too, of a table within the large limits. The text is that of
/// `mrp shortages --large`.
#[unsafe(no_mangle)]
pub extern "C" fn mrp_shortages_large(
    alloc: Global,
    table: &[u8],
    reading: &Reading,
    header: bool,
    buffer: &mut [u8],
    size: &mut usize,
) -> u32
    ensures { AnswersShortages table.now (large_reading_of reading.now) header result buffer.old buffer.new size.new }
{
    let reading = large_reading_of(reading);
    calls::shortages(alloc, table, reading, header, buffer, size)
}
