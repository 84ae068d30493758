//! The report of the plan: its rows by threads, large pieces of them written side by side, and sent in order.

ghost use Rattle.std.specs.Prelude.{◌≡◌, ◌*◌, ◌-◌, ◌<◌, ◌≤◌, List, ℕ, Err, min, length, take};
ghost use Rattle.std.specs.Prelude.{IfOk, OnOk, IfErr, OnErr};
ghost use Rattle.std.specs.List.{concat};
ghost use Rattle.std.specs.Io.KnownBytes.{Appends};
ghost use Rattle.mrp_net.specs.PlanLaws.{Fits};
ghost use Rattle.mrp_csv_out.specs.Sending.{AppendsPrefix};
ghost use Rattle.mrp_csv_out.specs.Sent.{SendsReport};
ghost use Rattle.mrp_report.specs.Parts.{pairs_text};
ghost use Rattle.mrp_report.specs.Report.{plan_text};
ghost use Rattle.mrp_report.specs.Rounds.{IsRound, piece_text};

use crate::plan::{LONGEST_ROW, PlanReport, pairs_text, plan_rows};
use mrp_csv_out::{ReportFault, date_texts, send};
use mrp_loops::SizedNet;
use mrp_plan::Plan;
use std::alloc::Global;
use std::io::Write;
use std::marker::Model;
use std::thread::{Threads, available_parallelism, for_each_mut};

/// A piece has at most so many rows.
pub(crate) const ROWS_AT_ONCE: usize = 20_000;

/// At most so many pieces are written side by side.
pub(crate) const MOST_PIECES: usize = 8;

/// The rows of some pairs, in a room with place for as many rows as a piece may have.
#[derive(Drop)]
struct Piece {
    room: Vec<u8>,
    used: usize,
}

impl Model for Piece {
    ghost use Rattle.std.specs.Prelude.{◌≤◌, ◌*◌, List, ℕ, length, take};
    ghost use Rattle.mrp_report.specs.declared.plan.TheConstants.{LONGEST_ROW};
    ghost use Rattle.mrp_report.specs.declared.rounds.TheConstants.{ROWS_AT_ONCE};

    ghost Value = { List ℕ };

    ghost view = { λ p. take p.used p.room.items };

    ghost invariant = { λ p. (p.used ≤ length p.room.items) × (ROWS_AT_ONCE * LONGEST_ROW ≤ length p.room.items) };
}

/// Writes what [`plan_rows`] writes. Where there are rows for several pieces, threads write these side by
/// side, as many as there are processors and at most eight, and the calling one sends them in order; where
/// a thread can't be started, the calling one writes its piece. No clause speaks of time.
///
/// # Errors
///
/// Those of [`plan_rows`]. The room for all pieces is taken before the first byte is sent.
pub fn plan_rows_by_threads<R: Threads + Sync, W: Write>(
    rt: &R,
    alloc: Global,
    net: &SizedNet<'_>,
    plan: &Plan,
    out: &mut W,
) -> Result<(), ReportFault>
    requires fits { Fits net.now.network plan.now }
    ensures text { SendsReport (W.contents out.old) (W.contents out.new) result (plan_text net.now.network plan.now) }
    ensures untouched { result ≡ Err ReportFault.Memory → out.new ≡ out.old }
{
    let network = net.network();
    let calendar = network.calendar();
    let size = ROWS_AT_ONCE / calendar.horizon().get() as usize;
    let count = pieces_at_once(rt, network.pairs() / size);
    if count < 2 {
        return plan_rows(alloc, net, plan, out);
    }
    let dates = date_texts(alloc, calendar)?;
    let mut pieces = new_pieces(alloc, count)?;
    let report = PlanReport {
        network,
        plan,
        dates: dates.as_slice(),
    };
    send_rounds(rt, pieces.as_mut_slice(), &report, size, out)
}

/// How many of so many pieces are written side by side.
fn pieces_at_once<R: Threads>(rt: &R, pieces: usize) -> usize
    ensures { result ≤ MOST_PIECES }
{
    match available_parallelism(rt) {
        Ok(processors) => pieces.min(processors.get()).min(MOST_PIECES),
        Err(_) => 1,
    }
}

/// So many pieces, in which there are no rows yet.
fn new_pieces(alloc: Global, count: usize) -> Result<Vec<Piece>, ReportFault>
    ensures count { IfOk result (λ pieces. length pieces.items ≡ count) }
    ensures fault { IfErr result (λ fault. fault ≡ ReportFault.Memory) }
{
    let mut pieces = Vec::with_capacity(alloc, count)?;
    'pieces: for _ in 0..count {
        pieces.push(Piece::new(alloc)?)?;
    }
    Ok(pieces)
}

impl Piece {
    /// A piece in which there are no rows yet.
    fn new(alloc: Global) -> Result<Piece, ReportFault>
        ensures fault { IfErr result (λ fault. fault ≡ ReportFault.Memory) }
    {
        let room = vec![in alloc; 0; ROWS_AT_ONCE * LONGEST_ROW]?;
        Ok(Piece { room, used: 0 })
    }

    /// Writes the rows of piece `k` of a round that begins with pair `first`, so many pairs to a piece.
    fn write(&mut self, report: &PlanReport<'_>, first: usize, size: usize, k: usize)
        requires round { IsRound report.now.network.now report.now.plan.now report.now.dates.now first size }
        requires place { k < MOST_PIECES }
        ensures text { self.new ≡ piece_text report.now.network.now report.now.plan.now first size k }
    {
        let pairs = report.network.pairs();
        let start = first + (pairs - first).min(k * size);
        let end = start + (pairs - start).min(size);
        self.used = pairs_text(self.room.as_mut_slice(), report, start, end);
    }

    /// Sends the rows.
    fn send<W: Write>(&self, out: &mut W) -> Result<(), ReportFault>
        ensures whole { OnOk result (Appends (W.contents out.old) (W.contents out.new) self.now) }
        ensures prefix { OnErr result (AppendsPrefix (W.contents out.old) (W.contents out.new) self.now) }
        ensures fault { IfErr result (λ fault. fault ≡ ReportFault.WriteFault) }
    {
        send(&self.room[..self.used], out)
    }
}

/// Sends the plan rows by rounds, so many pairs to a piece.
fn send_rounds<R: Threads + Sync, W: Write>(
    rt: &R,
    pieces: &mut [Piece],
    report: &PlanReport<'_>,
    size: usize,
    out: &mut W,
) -> Result<(), ReportFault>
    requires round { IsRound report.now.network.now report.now.plan.now report.now.dates.now 0 size }
    requires some { (0 < length pieces.old) × (0 < size) }
    requires few { length pieces.old ≤ MOST_PIECES }
    ensures text { SendsReport (W.contents out.old) (W.contents out.new) result
        (plan_text report.now.network.now report.now.plan.now) }
    ensures fault { IfErr result (λ fault. fault ≡ ReportFault.WriteFault) }
{
    let pairs = report.network.pairs();
    let mut sent = 0;
    'rounds: while sent < pairs {
        write_round(rt, pieces, report, sent, size);
        send_round(pieces, out)?;
        sent += (pairs - sent).min(pieces.len() * size);
    }
    Ok(())
}

/// Writes the pieces of a round that begins with pair `first` side by side, so many pairs to a piece.
fn write_round<R: Threads + Sync>(
    rt: &R,
    pieces: &mut [Piece],
    report: &PlanReport<'_>,
    first: usize,
    size: usize,
)
    requires round { IsRound report.now.network.now report.now.plan.now report.now.dates.now first size }
    requires some { 0 < length pieces.old }
    requires few { length pieces.old ≤ MOST_PIECES }
    ensures text { concat pieces.new ≡ pairs_text report.now.network.now report.now.plan.now first
        (min (length report.now.network.now.pairs - first) (length pieces.old * size)) }
    ensures count { length pieces.new ≡ length pieces.old }
{
    let count = pieces.len();
    for_each_mut(
        rt,
        pieces,
        count,
        &|k, piece: &mut Piece| { piece.write(report, first, size, k) },
    );
}

/// Sends the pieces of a round in order.
fn send_round<W: Write>(pieces: &[Piece], out: &mut W) -> Result<(), ReportFault>
    ensures whole { OnOk result (Appends (W.contents out.old) (W.contents out.new) (concat pieces.now)) }
    ensures prefix { OnErr result (AppendsPrefix (W.contents out.old) (W.contents out.new) (concat pieces.now)) }
    ensures fault { IfErr result (λ fault. fault ≡ ReportFault.WriteFault) }
{
    'pieces: for piece in pieces {
        piece.send(out)?;
    }
    Ok(())
}
