//! The library for C: a text in the buffer of a caller, with the status of the call.

ghost use Rattle.std.specs.Prelude.{◌≡◌};
ghost use Rattle.mrp_c_api.specs.Answers.{Answers, Tells, TellsFault, TellsOrMemory, name_line};
ghost use Rattle.mrp_c_api.specs.Buffer.{HandsOver};
ghost use Rattle.mrp_api.specs.Answer.{IsAlone, IsAnswer, question_of};

use mrp_api::{REFUSED, TextFault, report_text, status, write_fault};
use mrp_commands::Request;
use std::alloc::Global;

/// Hands over the report that one thread is asked for, or the line of its fault. Answers with the status.
pub(crate) fn answer(
    alloc: Global,
    table: &[u8],
    request: Request<'_>,
    buffer: &mut [u8],
    size: &mut usize,
) -> u32
    requires { IsAlone request.choice }
    ensures { Answers table.now request.entry.reading (question_of request.entry.choice) (IsAnswer request.entry.choice)
        result buffer.old buffer.new size.new }
{
    let mut report = Vec::new(alloc);
    let done = report_text(alloc, table, &mut report, request);
    tell(alloc, done, report, buffer, size)
}

/// Hands over the report where the work was done, and else the line of its fault. Answers with the status. A report in
/// memory lacks nothing but that, so a write that failed is told as want of it.
fn tell(
    alloc: Global,
    done: Result<(), TextFault>,
    report: Vec<u8>,
    buffer: &mut [u8],
    size: &mut usize,
) -> u32
    ensures { Tells done report.items result buffer.old buffer.new size.new }
{
    match done {
        Ok(()) => {
            hand_over(report.as_slice(), buffer, size);
            0
        }
        Err(TextFault::WriteFault) => {
            drop(report);
            tell_memory(buffer, size)
        }
        Err(fault) => {
            drop(report);
            tell_fault(alloc, &fault, buffer, size)
        }
    }
}

/// Hands over the line of a fault; where memory is wanting for it the line of that.
fn tell_fault(alloc: Global, fault: &TextFault, buffer: &mut [u8], size: &mut usize) -> u32
    ensures { TellsOrMemory fault.now result buffer.old buffer.new size.new }
{
    let mut line = Vec::new(alloc);
    match write_fault(fault, &mut line) {
        Ok(()) => {
            hand_over(line.as_slice(), buffer, size);
            u32::from(status(fault))
        }
        Err(_) => tell_memory(buffer, size),
    }
}

/// Hands over the line of want of memory, which takes none.
fn tell_memory(buffer: &mut [u8], size: &mut usize) -> u32
    ensures { TellsFault TextFault.Memory result buffer.old buffer.new size.new }
{
    hand_over(b"mrp: Memory\n", buffer, size);
    u32::from(status(&TextFault::Memory))
}

/// Refuses a name that isn't UTF-8.
pub(crate) fn refuse_name(buffer: &mut [u8], size: &mut usize) -> u32
    ensures status { result ≡ 2 }
    ensures line { HandsOver name_line buffer.old buffer.new size.new }
{
    hand_over(b"mrp: a name is not UTF-8\n", buffer, size);
    u32::from(REFUSED)
}

/// Tells the length of a text in bytes, and puts it at the front of the buffer where it fits.
fn hand_over(text: &[u8], buffer: &mut [u8], size: &mut usize)
    ensures { HandsOver text.now buffer.old buffer.new size.new }
{
    *size = text.len();
    if buffer.len() < text.len() {
        return;
    }
    buffer[..text.len()].copy_from_slice(text);
}
