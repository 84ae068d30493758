//! The library's text functions: each reads a table and writes one report of it.
//!
//! Their contracts say what the planner does from bytes to bytes: `text` which text is written,
//! `refusal` what each fault says of the input, `untouched` after which faults nothing is written. The last clause
//! of a run by threads, `gate`, is for those who give a gate of their own.
//!
//! `plan_as`, `report_text` and `report_by_threads` alone hold a network. They let it go by `drop` and not at the end of a scope: what
//! lets go each of its lists is then proved once.

ghost use Rattle.std.specs.Prelude.{◌≡◌, ◌≢◌, ◌≤◌, IfErr};
ghost use Rattle.mrp_qty.specs.declared.limits.TheConstants.{MOST_TURNS};
ghost use Rattle.mrp_api.specs.Answer.{IsAlone, IsAnswer, IsBeforeReport, IsRequested, question_of};
ghost use Rattle.mrp_api.specs.Fault.{IsBeforeWriting};
ghost use Rattle.mrp_api.specs.Text.{Writes, OfTable, OfTableWithin, IsPlanReport, Suits};
ghost use Rattle.mrp_api.specs.Reports.{WritesRows, IsPlanRows, IsCodeReport};
ghost use Rattle.mrp_report.specs.Headings.{pegs_names};
ghost use Rattle.mrp_api.specs.Reports.{IsPegReport, IsCumReport, IsOrderReport, IsHeaded};
ghost use Rattle.mrp_commands.specs.Given.{name_of};
ghost use Rattle.mrp_api.specs.Reports.{IsAdviceReport, IsPegsReport, IsReachReport, IsScheduleReport};
ghost use Rattle.mrp_api.specs.Reports.{IsShortagesReport};
ghost use Rattle.mrp_api.specs.Refusals.{Refuses, RefusesAs, AskWhole, AskByThreads, AskPair, AskPlants};
ghost use Rattle.mrp_api.specs.Gates.{GateExplains};
ghost use Rattle.mrp_commands.specs.declared.choice.TheConstants.{MOST_CAPACITY};

use crate::fault::TextFault;
use crate::network::{network_by_threads, network_of};
use crate::run::write_run;
use crate::writing::write_report;
use mrp_commands::{Choice, Heading, MOST_CAPACITY, Reading, Request};
use mrp_master_data::LimitSet;
use mrp_run::{Gate, Settings};
use std::alloc::Global;
use std::io::{Read, Write};
use std::sync::Wait;
use std::thread::Threads;

/// A table within the usual limits, whether it ends with an `end` row or not.
const READ_ALL: Reading = Reading {
    whole: false,
    limits: LimitSet::Usual,
};

/// Reads a table and writes its plan: a row for each pair and period, then a row for each late order. Each plant plans
/// in a thread of its own, with the workers and the mailboxes of `settings`.
///
/// The text is that of [`drive_text`], for every number of workers and every capacity. Threads, workers, and that
/// `gate` is asked before each turn of a plant and the work of each worker, are by construction; no clause says so.
/// Where the call ends well, the gate was open to the first turns of each plant, one or more. The call may wait, and
/// it isn't claimed that it returns.
///
/// # Errors
///
/// As [`TextFault`] says. Nothing is written after a fault of the input, nor after
/// [`TextFault::ThreadRefused`], [`TextFault::GateShut`] and [`TextFault::Stopped`]; after
/// [`TextFault::WriteFault`] a prefix of the text is written, and after [`TextFault::Memory`] nothing, or all plan
/// rows and no late order.
pub fn plan_text<T: Threads + Wait + Sync, R: Read + Drop, W: Write, G: Gate>(
    rt: &T,
    alloc: Global,
    reader: R,
    writer: &mut W,
    settings: Settings,
    gate: &G,
) -> Result<(), TextFault>
    ensures text { Writes (W.contents writer.old) (W.contents writer.new) result
        (λ text. OfTable (R.remaining reader) (λ N. IsPlanReport N text)) }
    ensures rows { WritesRows W.contents writer.old writer.new result
        (λ rows. OfTable (R.remaining reader) (λ N. IsPlanRows N rows)) }
    ensures refusal { IfErr result (Refuses (R.remaining reader) AskByThreads) }
    ensures untouched { IfErr result (λ fault. IsBeforeWriting fault → writer.new ≡ writer.old) }
    ensures gate { GateExplains G.turn_open G.turn_shut G.worker_shut settings.workers MOST_TURNS
        (OfTable (R.remaining reader)) result }
{
    plan_as(rt, alloc, READ_ALL, reader, writer, settings, gate)
}

/// Reads a table as is asked, and writes its plan as [`plan_text`] does.
pub(crate) fn plan_as<T: Threads + Wait + Sync, R: Read + Drop, W: Write, G: Gate>(
    rt: &T,
    alloc: Global,
    reading: Reading,
    reader: R,
    writer: &mut W,
    settings: Settings,
    gate: &G,
) -> Result<(), TextFault>
    ensures text { Writes (W.contents writer.old) (W.contents writer.new) result
        (λ text. OfTableWithin reading.limits (R.remaining reader) (λ N. Suits reading N × IsPlanReport N text)) }
    ensures rows { WritesRows W.contents writer.old writer.new result
        (λ rows. OfTableWithin reading.limits (R.remaining reader) (λ N. IsPlanRows N rows)) }
    ensures refusal { IfErr result (RefusesAs reading (R.remaining reader) AskByThreads) }
    ensures untouched { IfErr result (λ fault. IsBeforeWriting fault → writer.new ≡ writer.old) }
    ensures gate { GateExplains G.turn_open G.turn_shut G.worker_shut settings.workers MOST_TURNS
        (OfTableWithin reading.limits (R.remaining reader)) result }
{
    let network = network_by_threads(rt, alloc, reading, reader)?;
    let written = write_run(rt, alloc, &network, writer, settings, gate);
    drop(network);
    written
}

/// Reads a table and writes its plan, made on one thread: a row for each pair and period, then a row for each late
/// order.
///
/// `capacity` is how many records the mailbox between two plants may hold, 1 to [`MOST_CAPACITY`]; it has room for
/// eight at most. The text is the same for each.
///
/// # Errors
///
/// As [`TextFault`] says. Nothing is written after a fault of the input; after [`TextFault::WriteFault`] a prefix
/// of the text is written, and after [`TextFault::Memory`] nothing, or all plan rows and no late order.
///
/// # Examples
///
/// The plan of a table in memory, as bytes:
///
/// ```
/// let mut report = Vec::new(alloc);
/// drive_text(alloc, table.as_bytes(), &mut report, 64)?;
/// ```
pub fn drive_text<R: Read + Drop, W: Write>(
    alloc: Global,
    reader: R,
    writer: &mut W,
    capacity: u64,
) -> Result<(), TextFault>
    requires some { 1 ≤ capacity }
    requires within { capacity ≤ MOST_CAPACITY }
    ensures text { Writes (W.contents writer.old) (W.contents writer.new) result
        (λ text. OfTable (R.remaining reader) (λ N. IsPlanReport N text)) }
    ensures rows { WritesRows W.contents writer.old writer.new result
        (λ rows. OfTable (R.remaining reader) (λ N. IsPlanRows N rows)) }
    ensures refusal { IfErr result (Refuses (R.remaining reader) AskWhole) }
    ensures untouched { IfErr result (λ fault. IsBeforeWriting fault → writer.new ≡ writer.old) }
{
    let choice = Choice::Plan {
        workers: 1,
        capacity,
        single: true,
    };
    usual_text(alloc, reader, writer, choice)
}

/// Reads a table and writes the low-level code of each pair.
///
/// # Errors
///
/// As [`TextFault`] says. After [`TextFault::WriteFault`] a prefix of the text is written, and nothing
/// after every other fault.
pub fn check_text<R: Read + Drop, W: Write>(
    alloc: Global,
    reader: R,
    writer: &mut W,
) -> Result<(), TextFault>
    ensures text { Writes (W.contents writer.old) (W.contents writer.new) result
        (λ text. OfTable (R.remaining reader) (λ N. IsCodeReport N text)) }
    ensures refusal { IfErr result (Refuses (R.remaining reader) AskWhole) }
    ensures untouched { IfErr result (λ fault. fault ≢ TextFault.WriteFault → writer.new ≡ writer.old) }
{
    let heading = Heading::Without;
    usual_text(alloc, reader, writer, Choice::Check { heading })
}

/// Reads a table and writes what the gross requirement of a pair in a period, counted from 0, consists of: a row for
/// its demand rows, and a row for each demander's release.
///
/// # Errors
///
/// As [`TextFault`] says: [`TextFault::NoPair`] where the table has no pair of these names, and
/// [`TextFault::NoPeriod`] where it has, and `period` isn't below the number of periods. After
/// [`TextFault::WriteFault`] a prefix of the text is written, and nothing after every other fault.
pub fn peg_text<R: Read + Drop, W: Write>(
    alloc: Global,
    reader: R,
    writer: &mut W,
    plant: &str,
    item: &str,
    period: u64,
) -> Result<(), TextFault>
    ensures text { Writes (W.contents writer.old) (W.contents writer.new) result
        (λ text. OfTable (R.remaining reader) (λ N. IsPegReport plant.now item.now period N text)) }
    ensures refusal { IfErr result (Refuses (R.remaining reader) (AskPair plant.now item.now period)) }
    ensures untouched { IfErr result (λ fault. fault ≢ TextFault.WriteFault → writer.new ≡ writer.old) }
{
    let choice = Choice::Peg {
        plant,
        item,
        period,
        heading: Heading::Without,
    };
    usual_text(alloc, reader, writer, choice)
}

/// Reads a table and writes the cumulative figures of the lanes between its plants, once all plants have
/// planned: a row for each lane and each of its items.
///
/// # Errors
///
/// As [`TextFault`] says. After [`TextFault::WriteFault`] a prefix of the text is written, and nothing
/// after every other fault.
pub fn cums_text<R: Read + Drop, W: Write>(
    alloc: Global,
    reader: R,
    writer: &mut W,
) -> Result<(), TextFault>
    ensures text { Writes (W.contents writer.old) (W.contents writer.new) result
        (λ text. OfTable (R.remaining reader) (λ N. IsCumReport N text)) }
    ensures refusal { IfErr result (Refuses (R.remaining reader) AskWhole) }
    ensures untouched { IfErr result (λ fault. fault ≢ TextFault.WriteFault → writer.new ≡ writer.old) }
{
    let heading = Heading::Without;
    usual_text(alloc, reader, writer, Choice::Cums { heading })
}

/// Reads a table and writes its orders, firm and planned: a row for each that is released in period `until` or
/// before it, without it for each, with the names of the columns above them where `heading` says so.
///
/// The network is planned as a whole, as for pegs: orders follow from the one plan, and no lane is looked at.
///
/// # Errors
///
/// As [`TextFault`] says. After [`TextFault::WriteFault`] a prefix of the text is written, and nothing
/// after every other fault.
pub fn orders_text<R: Read + Drop, W: Write>(
    alloc: Global,
    reader: R,
    writer: &mut W,
    until: Option<u64>,
    heading: Heading,
) -> Result<(), TextFault>
    ensures text { Writes (W.contents writer.old) (W.contents writer.new) result
        (λ text. OfTable (R.remaining reader) (λ N. IsOrderReport until heading N text)) }
    ensures refusal { IfErr result (Refuses (R.remaining reader) AskWhole) }
    ensures untouched { IfErr result (λ fault. fault ≢ TextFault.WriteFault → writer.new ≡ writer.old) }
{
    usual_text(alloc, reader, writer, Choice::Orders { until, heading })
}

/// Reads a table and writes the delivery schedules of its plants and vendors: for each item that a customer plant
/// takes from a supplier plant, and behind these for each pair that a vendor delivers, what is in transit, then each
/// delivery that is called for, with the cumulative figure in force, and where figures start anew the figure that is
/// closed. Those from the plant or the vendor named `from` alone, where it is given, and to the plant named `to`, with
/// the names of the columns above them where `heading` says so.
///
/// The network is planned as a whole, as for orders: what a lane carries follows from the one plan.
///
/// # Errors
///
/// As [`TextFault`] says: [`TextFault::NoPlant`] where the table has no plant of a name that is given, and for `from` no
/// vendor either. After [`TextFault::WriteFault`] a prefix of the text is written, and nothing after every other fault.
pub fn schedule_text<R: Read + Drop, W: Write>(
    alloc: Global,
    reader: R,
    writer: &mut W,
    from: Option<&str>,
    to: Option<&str>,
    heading: Heading,
) -> Result<(), TextFault>
    ensures text { Writes (W.contents writer.old) (W.contents writer.new) result
        (λ text. OfTable (R.remaining reader) (λ N. IsScheduleReport (name_of from.entry)
        (name_of to.entry) heading N text)) }
    ensures refusal { IfErr result (Refuses (R.remaining reader) (AskPlants (name_of from.entry) (name_of to.entry))) }
    ensures untouched { IfErr result (λ fault. fault ≢ TextFault.WriteFault → writer.new ≡ writer.old) }
{
    usual_text(
        alloc,
        reader,
        writer,
        Choice::Schedule { from, to, heading },
    )
}

/// Reads a table and writes the pegging of its whole plan: what each gross requirement of each pair and
/// period consists of, with the names of the columns above the rows where `heading` says so. The rows are
/// built and sent by pieces; room for them is taken before the first.
///
/// # Errors
///
/// As [`TextFault`] says. After [`TextFault::WriteFault`] a prefix of the text is written, and nothing
/// after every other fault.
pub fn pegs_text<R: Read + Drop, W: Write>(
    alloc: Global,
    reader: R,
    writer: &mut W,
    heading: Heading,
) -> Result<(), TextFault>
    ensures text { Writes (W.contents writer.old) (W.contents writer.new) result
        (λ text. OfTable (R.remaining reader) (λ N. IsHeaded heading pegs_names (IsPegsReport N) text)) }
    ensures refusal { IfErr result (Refuses (R.remaining reader) AskWhole) }
    ensures untouched { IfErr result (λ fault. fault ≢ TextFault.WriteFault → writer.new ≡ writer.old) }
{
    usual_text(alloc, reader, writer, Choice::Pegs { heading })
}

/// Reads a table and writes which of its open orders, receipts, shipments and firm planned orders, to expedite, to
/// defer and to cancel, since they are needed in another period than they come in, or in none of the plan: a row for
/// each that comes in period `until` or before it, without it for each, with the names of the columns above them where
/// `heading` says so. With `reach` a message that holds only as long as nothing is wanted behind the horizon is told as
/// `beyond`, or not at all where the order comes beyond it too.
///
/// # Errors
///
/// As [`TextFault`] says. After [`TextFault::WriteFault`] a prefix of the text is written, and nothing
/// after every other fault.
pub fn advice_text<R: Read + Drop, W: Write>(
    alloc: Global,
    reader: R,
    writer: &mut W,
    until: Option<u64>,
    reach: bool,
    heading: Heading,
) -> Result<(), TextFault>
    ensures text { Writes (W.contents writer.old) (W.contents writer.new) result
        (λ text. OfTable (R.remaining reader) (λ N. IsAdviceReport until reach heading N text)) }
    ensures refusal { IfErr result (Refuses (R.remaining reader) AskWhole) }
    ensures untouched { IfErr result (λ fault. fault ≢ TextFault.WriteFault → writer.new ≡ writer.old) }
{
    let choice = Choice::Advice {
        until,
        reach,
        heading,
    };
    usual_text(alloc, reader, writer, choice)
}

/// Reads a table and writes which requirements of its plan in period 0 lack parts: a row for each that gets less than it
/// asks for of what is there of its pair, and how many pieces are missing, with the names of the columns above them where
/// `heading` says so.
///
/// # Errors
///
/// As [`TextFault`] says. After [`TextFault::WriteFault`] a prefix of the text is written, and nothing
/// after every other fault.
pub fn shortages_text<R: Read + Drop, W: Write>(
    alloc: Global,
    reader: R,
    writer: &mut W,
    heading: Heading,
) -> Result<(), TextFault>
    ensures text { Writes (W.contents writer.old) (W.contents writer.new) result
        (λ text. OfTable (R.remaining reader) (λ N. IsShortagesReport heading N text)) }
    ensures refusal { IfErr result (Refuses (R.remaining reader) AskWhole) }
    ensures untouched { IfErr result (λ fault. fault ≢ TextFault.WriteFault → writer.new ≡ writer.old) }
{
    usual_text(alloc, reader, writer, Choice::Shortages { heading })
}

/// Reads a table and writes until which period the gross requirements of each pair, and its releases, are whole:
/// nothing that is wanted behind the horizon changes them. With the names of the columns above the rows where `heading`
/// says so.
///
/// # Errors
///
/// As [`TextFault`] says. After [`TextFault::WriteFault`] a prefix of the text is written, and nothing
/// after every other fault.
pub fn reach_text<R: Read + Drop, W: Write>(
    alloc: Global,
    reader: R,
    writer: &mut W,
    heading: Heading,
) -> Result<(), TextFault>
    ensures text { Writes (W.contents writer.old) (W.contents writer.new) result
        (λ text. OfTable (R.remaining reader) (λ N. IsReachReport heading N text)) }
    ensures refusal { IfErr result (Refuses (R.remaining reader) AskWhole) }
    ensures untouched { IfErr result (λ fault. fault ≢ TextFault.WriteFault → writer.new ≡ writer.old) }
{
    usual_text(alloc, reader, writer, Choice::Reach { heading })
}

/// Reads a table within the usual limits, which may lack an `end` row, and writes the report that one thread is asked
/// for.
fn usual_text<R: Read + Drop, W: Write>(
    alloc: Global,
    reader: R,
    writer: &mut W,
    choice: Choice<'_>,
) -> Result<(), TextFault>
    requires alone { IsAlone choice }
    ensures text { Writes (W.contents writer.old) (W.contents writer.new) result
        (λ text. OfTable (R.remaining reader) (λ N. IsAnswer choice.entry N text)) }
    ensures rows { WritesRows W.contents writer.old writer.new result
        (λ rows. OfTable (R.remaining reader) (λ N. IsPlanRows N rows)) }
    ensures refusal { IfErr result (Refuses (R.remaining reader) (question_of choice.entry)) }
    ensures untouched { IfErr result (λ fault. IsBeforeReport choice.entry fault → writer.new ≡ writer.old) }
{
    let reading = READ_ALL;
    report_text(alloc, reader, writer, Request { reading, choice })
}

/// Reads a table as is asked and writes the report that one thread is asked for: what each text function but
/// [`plan_text`] does.
///
/// A plan is asked for with `single` alone, and with mailboxes for 1 to [`MOST_CAPACITY`] records; its workers aren't
/// looked at.
///
/// # Errors
///
/// As [`TextFault`] says. Of a plan as those of [`drive_text`]; of every other report a prefix of the text is written
/// after [`TextFault::WriteFault`], and nothing after every other fault.
pub fn report_text<R: Read + Drop, W: Write>(
    alloc: Global,
    reader: R,
    writer: &mut W,
    request: Request<'_>,
) -> Result<(), TextFault>
    requires alone { IsAlone request.choice }
    ensures text { Writes (W.contents writer.old) (W.contents writer.new) result
        (λ text. OfTableWithin request.entry.reading.limits (R.remaining reader)
        (λ N. IsRequested request.entry N text)) }
    ensures rows { WritesRows W.contents writer.old writer.new result
        (λ rows. OfTableWithin request.entry.reading.limits (R.remaining reader) (λ N. IsPlanRows N rows)) }
    ensures refusal { IfErr result (RefusesAs request.entry.reading (R.remaining reader)
        (question_of request.entry.choice)) }
    ensures untouched { IfErr result (λ fault. IsBeforeReport request.entry.choice fault → writer.new ≡ writer.old) }
{
    let network = network_of(alloc, request.reading, reader)?;
    let written = write_report(alloc, &network, writer, request.choice);
    drop(network);
    written
}

/// Reads a table by threads and writes the report that a request asks for, as [`report_text`] does.
pub(crate) fn report_by_threads<T: Threads + Sync, R: Read + Drop, W: Write>(
    rt: &T,
    alloc: Global,
    reader: R,
    writer: &mut W,
    request: Request<'_>,
) -> Result<(), TextFault>
    requires alone { IsAlone request.choice }
    ensures text { Writes (W.contents writer.old) (W.contents writer.new) result
        (λ text. OfTableWithin request.entry.reading.limits (R.remaining reader)
        (λ N. IsRequested request.entry N text)) }
    ensures rows { WritesRows W.contents writer.old writer.new result
        (λ rows. OfTableWithin request.entry.reading.limits (R.remaining reader) (λ N. IsPlanRows N rows)) }
    ensures refusal { IfErr result (RefusesAs request.entry.reading (R.remaining reader)
        (question_of request.entry.choice)) }
    ensures untouched { IfErr result (λ fault. IsBeforeReport request.entry.choice fault → writer.new ≡ writer.old) }
{
    let network = network_by_threads(rt, alloc, request.reading, reader)?;
    let told = write_report(alloc, &network, writer, request.choice);
    drop(network);
    told
}
