//! The report of the plan: its rows, the record of each pair, period by period.

ghost use Rattle.std.specs.Prelude.{◌≡◌, ◌+◌, ◌-◌, ◌*◌, ◌++◌, ◌∷◌, [], ◌≤◌, drop, take, length, decimal, Err};
ghost use Rattle.std.specs.Prelude.{OnOk, IfErr, OnErr};
ghost use Rattle.csv.specs.Writing.{comma};
ghost use Rattle.mrp_master_data.specs.Table.{IsTable};
ghost use Rattle.mrp_net.specs.PlanLaws.{Fits};
ghost use Rattle.mrp_csv_out.specs.Rows.{row};
ghost use Rattle.std.specs.Io.KnownBytes.{Appends};
ghost use Rattle.mrp_csv_out.specs.Sending.{AppendsPrefix};
ghost use Rattle.mrp_csv_out.specs.Sent.{SendsReport};
ghost use Rattle.mrp_csv_out.specs.Dates.{dates_of};
ghost use Rattle.mrp_report.specs.Parts.{parts_text, period_part};
ghost use Rattle.mrp_report.specs.Report.{plan_text};
ghost use Rattle.mrp_report.specs.Parts.{HasPeriod, HasPeriods, pairs_text, period_at};

use crate::before::{number_before, text_before};
use crate::room::{LONGEST_PAIR, name_pair, put_parts};
use itoa::write_digits;
use mrp_csv_out::{ReportFault, date_texts, send};
use mrp_loops::SizedNet;
use mrp_net::{Network, PairNo};
use mrp_netting::PairPlan;
use mrp_plan::Plan;
use mrp_qty::Qty;
use std::alloc::Global;
use std::io::Write;

/// Of so many pairs the rows are written before they are sent.
const PAIRS_AT_ONCE: usize = 16;

/// The most bytes of what a row has of its period: a number of 20 digits, a date, five quantities of
/// 16 and the commas between.
const LONGEST_PERIOD: usize = 116;

/// The most bytes of a row: what all rows of its pair begin with, a comma, what it has of its period
/// and the line feed.
pub(crate) const LONGEST_ROW: usize = 164;

/// The figures of one period of a plan, in pieces.
#[derive(Clone, Copy)]
pub(crate) struct Period {
    pub(crate) number: usize,
    pub(crate) gross: Qty,
    pub(crate) incoming: Qty,
    pub(crate) order: Qty,
    pub(crate) release: Qty,
    pub(crate) available: Qty,
}

/// What the plan rows are of: a plan, its network, and the text of each period's date.
#[derive(Clone, Copy)]
pub(crate) struct PlanReport<'a> {
    pub(crate) network: &'a Network,
    pub(crate) plan: &'a Plan,
    pub(crate) dates: &'a [[u8; 10]],
}

/// Writes a row for each pair in table order and each period in rising order: `plan`, plant, item,
/// period, its first day, gross requirement, incoming receipts, planned order receipt, planned order
/// release and projected available.
///
/// # Errors
///
/// - [`ReportFault::WriteFault`] where a write fails or takes nothing; a prefix of the report is
///   written. The rows go by pieces of some pairs, and what builds and sends a piece is handed enough
///   room for it, no allocator, and nothing that gives one, so it is never for want of memory.
/// - [`ReportFault::Memory`] where the room for the dates or for a piece is refused; nothing is
///   written.
pub fn plan_rows<W: Write>(
    alloc: Global,
    net: &SizedNet<'_>,
    plan: &Plan,
    out: &mut W,
) -> Result<(), ReportFault>
    requires fits { Fits net.now.network plan.now }
    ensures text { SendsReport (W.contents out.old) (W.contents out.new) result (plan_text net.now.network plan.now) }
    ensures untouched { result ≡ Err ReportFault.Memory → out.new ≡ out.old }
{
    let network = net.network();
    let calendar = network.calendar();
    let dates = date_texts(alloc, calendar)?;
    let periods = calendar.horizon().get() as usize;
    let mut room = vec![in alloc; 0; PAIRS_AT_ONCE * (periods * LONGEST_ROW)]?;
    let report = PlanReport {
        network,
        plan,
        dates: dates.as_slice(),
    };
    send_pieces(room.as_mut_slice(), &report, out)
}

/// Sends the plan rows by pieces, each built in the room.
fn send_pieces<W: Write>(
    room: &mut [u8],
    report: &PlanReport<'_>,
    out: &mut W,
) -> Result<(), ReportFault>
    requires fits { Fits report.now.network.now report.now.plan.now }
    requires dates { report.now.dates.now ≡ dates_of report.now.network.now.calendar }
    requires room { PAIRS_AT_ONCE * (length report.now.dates.now * LONGEST_ROW) ≤ length room.old }
    ensures text { SendsReport (W.contents out.old) (W.contents out.new) result
        (plan_text report.now.network.now report.now.plan.now) }
    ensures fault { IfErr result (λ fault. fault ≡ ReportFault.WriteFault) }
{
    let pairs = report.network.pairs();
    let mut sent = 0;
    'pieces: while sent < pairs {
        let end = pairs.min(sent + PAIRS_AT_ONCE);
        send_piece(room, report, sent, end, out)?;
        sent = end;
    }
    Ok(())
}

/// Sends the rows of the pairs from `first` on and before `end`, at most so many as go at once.
fn send_piece<W: Write>(
    room: &mut [u8],
    report: &PlanReport<'_>,
    first: usize,
    end: usize,
    out: &mut W,
) -> Result<(), ReportFault>
    requires table { IsTable report.now.network.now }
    requires fits { Fits report.now.network.now report.now.plan.now }
    requires dates { report.now.dates.now ≡ dates_of report.now.network.now.calendar }
    requires order { first ≤ end }
    requires pairs { end ≤ length report.now.network.now.pairs }
    requires few { end ≤ first + PAIRS_AT_ONCE }
    requires room { PAIRS_AT_ONCE * (length report.now.dates.now * LONGEST_ROW) ≤ length room.old }
    ensures whole { OnOk result (Appends (W.contents out.old) (W.contents out.new)
        (pairs_text report.now.network.now report.now.plan.now first (end - first))) }
    ensures prefix { OnErr result (AppendsPrefix (W.contents out.old) (W.contents out.new)
        (pairs_text report.now.network.now report.now.plan.now first (end - first))) }
    ensures fault { IfErr result (λ fault. fault ≡ ReportFault.WriteFault) }
    ensures room { length room.new ≡ length room.old }
{
    let used = pairs_text(room, report, first, end);
    send(&room[..used], out)
}

/// Writes the rows of the pairs from `first` on and before `end` at the beginning of the room, and
/// returns how much of it they take.
pub(crate) fn pairs_text(
    room: &mut [u8],
    report: &PlanReport<'_>,
    first: usize,
    end: usize,
) -> usize
    requires table { IsTable report.now.network.now }
    requires fits { Fits report.now.network.now report.now.plan.now }
    requires dates { report.now.dates.now ≡ dates_of report.now.network.now.calendar }
    requires order { first ≤ end }
    requires pairs { end ≤ length report.now.network.now.pairs }
    requires room { (end - first) * (length report.now.dates.now * LONGEST_ROW) ≤ length room.old }
    ensures within { result ≤ length room.new }
    ensures text { take result room.new ≡ pairs_text report.now.network.now report.now.plan.now first (end - first) }
    ensures room { length room.new ≡ length room.old }
{
    let mut names = [0; LONGEST_PAIR];
    let mut used = 0;
    'pairs: for x in first..end {
        let (plant, item) = report.network.pair_name(PairNo(x));
        let named = name_pair(&mut names, b"plan", plant, item);
        let plan = report.plan.pair(PairNo(x));
        used = put_pair(room, used, &names[..named], report.dates, plan);
    }
    used
}

/// Adds the rows of a pair, which begin with `pair`, to the used front of the room, and returns how
/// much is used then.
fn put_pair(room: &mut [u8], used: usize, pair: &[u8], dates: &[[u8; 10]], plan: &PairPlan) -> usize
    requires periods { HasPeriods plan.now (length dates.now) }
    requires pair { length pair.now ≤ LONGEST_PAIR }
    requires room { used + length dates.now * LONGEST_ROW ≤ length room.old }
    ensures rows { take result room.new ≡ take used room.old ++ parts_text pair.now dates.now plan.now }
    ensures longest { result ≤ used + length dates.now * LONGEST_ROW }
    ensures room { length room.new ≡ length room.old }
{
    let mut period = [0; LONGEST_PERIOD];
    let mut after = used;
    'periods: for t in 0..dates.len() {
        let start = put_period(&mut period, &dates[t], period_at(plan, t));
        after = put_parts(room, after, pair, &period[start..]);
    }
    after
}

/// The figures of period `t`.
fn period_at(plan: &PairPlan, t: usize) -> Period
    requires { HasPeriod plan.now t }
    ensures { result ≡ period_at plan.now t }
{
    Period {
        number: t,
        gross: plan.gross().get(t),
        incoming: plan.incoming().get(t),
        order: plan.order().get(t),
        release: plan.release().get(t),
        available: plan.available().get(t),
    }
}

/// Writes what a row has of its period at the end of the text, the last figure first, and returns
/// where it starts.
fn put_period(text: &mut [u8; LONGEST_PERIOD], date: &[u8; 10], period: Period) -> usize
    ensures within { result ≤ LONGEST_PERIOD }
    ensures part { drop result text.new ≡ period_part date.now period }
{
    let available = write_digits(period.available.get(), text, LONGEST_PERIOD);
    let release = quantity_before(text, available, period.release);
    let order = quantity_before(text, release, period.order);
    let incoming = quantity_before(text, order, period.incoming);
    let gross = quantity_before(text, incoming, period.gross);
    let day = text_before(text, gross, date);
    number_before(text, day, period.number as u64)
}

/// Writes a quantity and a comma before what starts at `next`, and returns where the quantity starts.
fn quantity_before(text: &mut [u8; LONGEST_PERIOD], next: usize, quantity: Qty) -> usize
    requires room { 17 ≤ next }
    requires within { next ≤ LONGEST_PERIOD }
    ensures before { result ≤ next }
    ensures longest { next ≤ result + 17 }
    ensures part { drop result text.new ≡ decimal quantity ++ comma ∷ drop next text.old }
{
    number_before(text, next, quantity.get())
}
