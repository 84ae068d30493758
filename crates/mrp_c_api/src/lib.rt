//! The library for C: the bytes of a table go in, and a report or the line of a fault comes out in the caller's
//! buffer. `include/mrp.h` declares the calls, and [`mrp_api`] is what they call, on one thread.
//!
//! **Text.** A call returns a status, as the program ends with one. At 0 the text is the report, to the byte what the
//! program writes to standard output. At 1, where the table or the question is refused, and at 3, where memory was
//! refused, it is the line that the program writes to standard error. [`mrp_schedule`] has 2 for names that aren't
//! UTF-8. Where there is no memory for the line of a fault, the fault is that: 3, `mrp: Memory`. The contracts allow 3
//! with the line of a failed read too, below rows without a fault: nothing that is read here fails.
//!
//! **Reading.** Each call is told how the table is to be read: where [`Reading::whole`] is true, one that does not end with
//! an `end` row is refused, as with the option `--whole` of the program.
//!
//! **Limits.** A call takes a table within the usual limits. The call of its name with `_large` behind it is the same for
//! a table within the large ones, as with the option `--large` of the program: 1,000 plants, 1,000,000 pairs, 520
//! periods.
//!
//! **Buffer.** `size` tells the length of the text in bytes. Where that is at most the length of the buffer, the buffer
//! begins with the text and goes on as it was. Else the whole buffer is as it was, and the caller asks again with as
//! much room. No byte behind the text and none outside the buffer is written.
//!
//! A call keeps nothing once it has returned: what it takes of memory, by `malloc`, it gives back. A caller hands in no
//! null pointer, also where a length is 0, and a buffer and a size that nothing else reads or writes meanwhile.
//!
//! Used by programs in C and Python.
//! Keeps true: `include/mrp.h` and the calls agree, and nothing outside the caller's buffer and size is written.
#![tactic(auto)]

mod buffer;
mod calls;
mod large;
mod options;

ghost use Rattle.mrp_c_api.specs.Calls.{AnswersCodes, AnswersFigures, AnswersMessages, AnswersOrders, AnswersPlan};
ghost use Rattle.mrp_c_api.specs.Calls.{AnswersReach, AnswersSchedules, AnswersShortages};
ghost use Rattle.mrp_c_api.specs.Options.{reading_of};

use crate::options::reading_of;
pub use options::Reading;
use std::alloc::Global;

/// Plans a table: a row for each pair and period, then a row for each late order.
///
/// `table` is the bytes of a table, of any length. The text is that of `mrp plan`.
///
/// # Errors
///
/// Status 1 where the table is refused, and 3 where memory was refused; the text is the line of the fault.
#[unsafe(no_mangle)]
pub extern "C" fn mrp_plan(
    alloc: Global,
    table: &[u8],
    reading: &Reading,
    buffer: &mut [u8],
    size: &mut usize,
) -> u32
    ensures { AnswersPlan table.now (reading_of reading.now) result buffer.old buffer.new size.new }
{
    let reading = reading_of(reading);
    calls::plan(alloc, table, reading, buffer, size)
}

/// Writes the planned and firm orders of a table: where `limited` is true those alone that are released in period `until` or
/// before it.
///
/// `until` counts periods from 0, and is read only where `limited` is true; from the last period on no order is left
/// out. Where `header` is true the names of the columns stand above the rows. The text is that of `mrp orders`.
///
/// # Errors
///
/// Status 1 where the table is refused, and 3 where memory was refused; the text is the line of the fault.
#[unsafe(no_mangle)]
pub extern "C" fn mrp_orders(
    alloc: Global,
    table: &[u8],
    reading: &Reading,
    limited: bool,
    until: u64,
    header: bool,
    buffer: &mut [u8],
    size: &mut usize,
) -> u32
    ensures { AnswersOrders table.now (reading_of reading.now) limited until header result buffer.old buffer.new
        size.new }
{
    let reading = reading_of(reading);
    calls::orders(alloc, table, reading, limited, until, header, buffer, size)
}

/// Writes the delivery schedules of a table: those of the plant or the vendor `from` alone and to the customer plant
/// `to` alone, where these are given.
///
/// `from` and `to` are names in UTF-8, and an empty one is none: then schedules aren't chosen by it. Where `header` is
/// true the names of the columns stand above the rows. The text is that of `mrp schedule`.
///
/// # Errors
///
/// Status 1 where the table is refused, or has no plant of a name that is given, and for `from` no vendor either, and 3
/// where memory was refused; the text is the line of the fault. Status 2 where a name is no UTF-8, whatever the table; the text is
/// `mrp: a name is not UTF-8`, a line.
#[unsafe(no_mangle)]
pub extern "C" fn mrp_schedule(
    alloc: Global,
    table: &[u8],
    reading: &Reading,
    from: &[u8],
    to: &[u8],
    header: bool,
    buffer: &mut [u8],
    size: &mut usize,
) -> u32
    ensures { AnswersSchedules table.now (reading_of reading.now) from.now to.now header result buffer.old
        buffer.new size.new }
{
    let reading = reading_of(reading);
    calls::schedule(alloc, table, reading, from, to, header, buffer, size)
}

/// Writes the low-level code of each pair of a table.
///
/// Where `header` is true the names of the columns stand above the rows. The text is that of `mrp check`.
///
/// # Errors
///
/// Status 1 where the table is refused, and 3 where memory was refused; the text is the line of the fault.
#[unsafe(no_mangle)]
pub extern "C" fn mrp_check(
    alloc: Global,
    table: &[u8],
    reading: &Reading,
    header: bool,
    buffer: &mut [u8],
    size: &mut usize,
) -> u32
    ensures { AnswersCodes table.now (reading_of reading.now) header result buffer.old buffer.new size.new }
{
    let reading = reading_of(reading);
    calls::check(alloc, table, reading, header, buffer, size)
}

/// Writes until which period the gross requirements of each pair of a table, and its releases, are whole: nothing that is
/// wanted behind the horizon changes them.
///
/// Where `header` is true the names of the columns stand above the rows. The text is that of `mrp check --reach`.
///
/// # Errors
///
/// Status 1 where the table is refused, and 3 where memory was refused; the text is the line of the fault.
#[unsafe(no_mangle)]
pub extern "C" fn mrp_reach(
    alloc: Global,
    table: &[u8],
    reading: &Reading,
    header: bool,
    buffer: &mut [u8],
    size: &mut usize,
) -> u32
    ensures { AnswersReach table.now (reading_of reading.now) header result buffer.old buffer.new size.new }
{
    let reading = reading_of(reading);
    calls::reach(alloc, table, reading, header, buffer, size)
}

/// Writes the cumulative figures of the lanes between the plants of a table, once all plants have planned.
///
/// Where `header` is true the names of the columns stand above the rows. The text is that of `mrp cums`.
///
/// # Errors
///
/// Status 1 where the table is refused, and 3 where memory was refused; the text is the line of the fault.
#[unsafe(no_mangle)]
pub extern "C" fn mrp_cums(
    alloc: Global,
    table: &[u8],
    reading: &Reading,
    header: bool,
    buffer: &mut [u8],
    size: &mut usize,
) -> u32
    ensures { AnswersFigures table.now (reading_of reading.now) header result buffer.old buffer.new size.new }
{
    let reading = reading_of(reading);
    calls::cums(alloc, table, reading, header, buffer, size)
}

/// Writes which open orders of a table to expedite, to defer and to cancel: where `limited` is true of those alone that
/// come in period `until` or before it.
///
/// `until` counts periods from 0, and is read only where `limited` is true; from the last period on no open order is
/// left out. Where `reach` is true a message that holds only as long as nothing is wanted behind the horizon is told as
/// `beyond`, or not at all where the order comes beyond it too. Where `header` is true the names of the columns stand above
/// the rows. The text is that of `mrp advice`, and of `mrp advice --reach` where `reach` is true.
///
/// # Errors
///
/// Status 1 where the table is refused, and 3 where memory was refused; the text is the line of the fault.
#[unsafe(no_mangle)]
pub extern "C" fn mrp_advice(
    alloc: Global,
    table: &[u8],
    reading: &Reading,
    limited: bool,
    until: u64,
    reach: bool,
    header: bool,
    buffer: &mut [u8],
    size: &mut usize,
) -> u32
    ensures { AnswersMessages table.now (reading_of reading.now) limited until reach header result buffer.old
        buffer.new size.new }
{
    let reading = reading_of(reading);
    calls::advice(
        alloc, table, reading, limited, until, reach, header, buffer, size,
    )
}

/// Writes which requirements of a table's plan in period 0 lack parts, and how many pieces.
///
/// Where `header` is true the names of the columns stand above the rows. The text is that of `mrp shortages`.
///
/// # Errors
///
/// Status 1 where the table is refused, and 3 where memory was refused; the text is the line of the fault.
#[unsafe(no_mangle)]
pub extern "C" fn mrp_shortages(
    alloc: Global,
    table: &[u8],
    reading: &Reading,
    header: bool,
    buffer: &mut [u8],
    size: &mut usize,
) -> u32
    ensures { AnswersShortages table.now (reading_of reading.now) header result buffer.old buffer.new size.new }
{
    let reading = reading_of(reading);
    calls::shortages(alloc, table, reading, header, buffer, size)
}
