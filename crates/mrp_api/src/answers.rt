//! The library's answer to a request: a report of a table or a fault, and the status with which a program ends.

ghost use Rattle.std.specs.Prelude.{◌≡◌, IfErr};
ghost use Rattle.mrp_commands.specs.Range.{IsInRange};
ghost use Rattle.mrp_api.specs.Answer.{IsRequested, question_of, IsBeforeReport, IsNoShutGate, exit_status_of};
ghost use Rattle.mrp_api.specs.Text.{Writes, OfTableWithin};
ghost use Rattle.mrp_api.specs.Refusals.{RefusesAs};
ghost use Rattle.mrp_api.specs.Reports.{WritesRows, IsPlanRows};

use crate::fault::{TextFault, status};
use crate::text::{plan_as, report_by_threads, report_text};
use mrp_commands::{Choice, Request};
use mrp_run::{NoGate, Settings};
use std::alloc::Global;
use std::io::{Read, Write};
use std::sync::Wait;
use std::thread::Threads;

/// Does what is asked: reads a table as the request says and writes the report that its choice asks for. Threads read
/// the table, but for a plan that is made on one thread alone.
///
/// # Errors
///
/// As [`TextFault`] says. Nothing is written after a fault of the input; of a report that isn't a plan nothing after
/// any fault but [`TextFault::WriteFault`]. Each may wait for threads, but for a plan that is made on one thread alone.
pub fn answer<T: Threads + Wait + Sync, R: Read + Drop, W: Write>(
    rt: &T,
    alloc: Global,
    request: Request<'_>,
    reader: R,
    writer: &mut W,
) -> Result<(), TextFault>
    requires { IsInRange request.choice }
    ensures text { Writes (W.contents writer.old) (W.contents writer.new) result
        (λ text. OfTableWithin request.entry.reading.limits (R.remaining reader)
        (λ N. IsRequested request.entry N text)) }
    ensures rows { WritesRows W.contents writer.old writer.new result
        (λ rows. OfTableWithin request.entry.reading.limits (R.remaining reader) (λ N. IsPlanRows N rows)) }
    ensures refusal { IfErr result (RefusesAs request.entry.reading (R.remaining reader)
        (question_of request.entry.choice)) }
    ensures untouched { IfErr result (λ fault. IsBeforeReport request.entry.choice fault → writer.new ≡ writer.old) }
    ensures gate { IfErr result IsNoShutGate }
{
    match request.choice {
        Choice::Plan {
            workers,
            capacity,
            single: false,
        } => {
            let Some(settings) = Settings::new(workers, capacity) else {
                unreachable!()
            };
            plan_as(
                rt,
                alloc,
                request.reading,
                reader,
                writer,
                settings,
                &NoGate,
            )
        }
        Choice::Plan { single: true, .. } => report_text(alloc, reader, writer, request),
        _ => report_by_threads(rt, alloc, reader, writer, request),
    }
}

/// The status of the process: 0 where the work was done, else that of the fault.
pub fn exit_status(done: &Result<(), TextFault>) -> u8
    ensures { result ≡ exit_status_of done.now }
{
    match done {
        Ok(()) => 0,
        Err(fault) => status(fault),
    }
}
