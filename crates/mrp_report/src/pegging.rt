//! The report of pegs: its rows, the pegging of the whole plan.

ghost use Rattle.std.specs.Prelude.{◌≡◌, ◌≤◌, ◌<◌, ◌++◌, drop, length, All, Err, OnOk};
ghost use Rattle.std.specs.Prelude.{IfErr, OnErr};
ghost use Rattle.mrp_master_data.specs.Table.{IsPair, IsTable, horizon};
ghost use Rattle.mrp_net.specs.PlanLaws.{Fits};
ghost use Rattle.mrp_plan.specs.Peg.{IsPeggable};
ghost use Rattle.mrp_csv_out.specs.Headings.{header_row};
ghost use Rattle.mrp_csv_out.specs.Sending.{AppendsPrefix};
ghost use Rattle.mrp_csv_out.specs.Sent.{SendsReport};
ghost use Rattle.mrp_report.specs.Gathering.{Gathers};
ghost use Rattle.mrp_report.specs.Headings.{pegs_names};
ghost use Rattle.mrp_report.specs.Pegs.{pair_pegs_text, pegs_text, period_pegs_text};
ghost use Rattle.mrp_report.specs.PegParts.{IsPegLine, edges_text, term_part, term_text};

use crate::before::{number_before, per_before, text_before};
use crate::pegs::source_word;
use crate::room::{LONGEST_PAIR, LONGEST_ROW, Room, name_pair};
use itoa::write_digits;
use mrp_commands::Heading;
use mrp_csv_out::ReportFault;
use mrp_loops::SizedNet;
use mrp_net::{Edge, Network, PairNo};
use mrp_plan::{PegTerm, Plan, asking_edges, demand_term, edge_term};
use std::alloc::Global;
use std::io::Write;

/// The most bytes of what a row has of its term: five numbers of 20 digits, a word of 6, two names of
/// 20, and the commas and the slash between.
const LONGEST_TERM: usize = 153;

/// What the rows of a pair have in common: the pair, what each begins with, and the network and the plan
/// that they are of.
#[derive(Clone, Copy)]
pub(crate) struct PegLine<'a> {
    pub(crate) network: &'a Network,
    pub(crate) plan: &'a Plan,
    pub(crate) x: PairNo,
    pub(crate) begins: &'a [u8],
}

/// Writes what each gross requirement of the plan consists of: pairs in table order, periods in rising
/// order, and in each period the terms that [`mrp_plan::peg`] gives. Of each term it writes `pegs`,
/// plant and item of the pair, the period, the source (`demand`, `bill` or `plant`), plant and item of
/// the pair that asks, its release in pieces, the pieces for each piece of it as `2`, or for so many of
/// it as `103/100`, and the pieces that are asked. The names of the columns stand above them where
/// `heading` says so.
///
/// The quantities of a pair in a period add up to its gross requirement there
/// ([`mrp_plan::terms_add_up`]).
///
/// # Errors
///
/// - [`ReportFault::WriteFault`] where a write fails or takes nothing; a prefix of the report is
///   written. The rows are sent piece by piece from one room, which never grows (by construction; no
///   clause says so).
/// - [`ReportFault::Memory`] where the allocation of the room fails; nothing is written.
pub fn pegs_rows<W: Write>(
    alloc: Global,
    net: &SizedNet<'_>,
    plan: &Plan,
    heading: Heading,
    out: &mut W,
) -> Result<(), ReportFault>
    requires fits { Fits net.now.network plan.now }
    ensures text { SendsReport (W.contents out.old) (W.contents out.new) result
        (header_row heading pegs_names ++ pegs_text net.now.network plan.now) }
    ensures untouched { result ≡ Err ReportFault.Memory → out.new ≡ out.old }
{
    let mut room = Room::new(alloc, heading_text(heading))?;
    send_pegs(&mut room, net.network(), plan, out)
}

/// The row of the names of the columns, where they are asked for.
fn heading_text<'a>(heading: Heading) -> &'a [u8]
    ensures text { result.now ≡ header_row heading pegs_names }
    ensures short { length result.now ≤ LONGEST_ROW }
{
    match heading {
        Heading::Without => b"",
        Heading::Names => {
            b"row,plant,item,period,source,by_plant,by_item,release,per,quantity\n"
        }
    }
}

/// Sends what waits in the room and then the rows of all pairs.
fn send_pegs<W: Write>(
    room: &mut Room,
    network: &Network,
    plan: &Plan,
    out: &mut W,
) -> Result<(), ReportFault>
    requires fits { Fits network.now plan.now }
    ensures text { SendsReport (W.contents out.old) (W.contents out.new) result
        (room.old ++ pegs_text network.now plan.now) }
    ensures fault { IfErr result (λ fault. fault ≡ ReportFault.WriteFault) }
{
    put_pegs(room, network, plan, out)?;
    room.send(out)
}

/// Adds the rows of all pairs to what waits in the room.
fn put_pegs<W: Write>(
    room: &mut Room,
    network: &Network,
    plan: &Plan,
    out: &mut W,
) -> Result<(), ReportFault>
    requires fits { Fits network.now plan.now }
    ensures rows { OnOk result (Gathers (W.contents out.old) (W.contents out.new) room.old room.new
        (pegs_text network.now plan.now)) }
    ensures prefix { OnErr result (AppendsPrefix (W.contents out.old) (W.contents out.new)
        (room.old ++ pegs_text network.now plan.now)) }
    ensures fault { IfErr result (λ fault. fault ≡ ReportFault.WriteFault) }
{
    let mut names = [0; LONGEST_PAIR];
    'pairs: for x in 0..network.pairs() {
        let (plant, item) = network.pair_name(PairNo(x));
        let named = name_pair(&mut names, b"pegs", plant, item);
        let line = PegLine {
            network,
            plan,
            x: PairNo(x),
            begins: &names[..named],
        };
        put_pair_pegs(room, &line, out)?;
    }
    Ok(())
}

/// Adds the rows of a pair, in rising period.
fn put_pair_pegs<W: Write>(
    room: &mut Room,
    line: &PegLine<'_>,
    out: &mut W,
) -> Result<(), ReportFault>
    requires { IsPegLine line.now }
    ensures rows { OnOk result (Gathers (W.contents out.old) (W.contents out.new) room.old room.new
        (pair_pegs_text line.now.network.now line.now.plan.now line.now.x.0)) }
    ensures prefix { OnErr result (AppendsPrefix (W.contents out.old) (W.contents out.new)
        (room.old ++ pair_pegs_text line.now.network.now line.now.plan.now line.now.x.0)) }
    ensures fault { IfErr result (λ fault. fault ≡ ReportFault.WriteFault) }
{
    let periods = line.network.horizon().get() as usize;
    'periods: for t in 0..periods {
        put_period_pegs(room, line, t, out)?;
    }
    Ok(())
}

/// Adds the rows of a pair in period `t`: of its demand rows, and of what its demanders ask.
fn put_period_pegs<W: Write>(
    room: &mut Room,
    line: &PegLine<'_>,
    t: usize,
    out: &mut W,
) -> Result<(), ReportFault>
    requires line { IsPegLine line.now }
    requires period { t < horizon line.now.network.now }
    ensures rows { OnOk result (Gathers (W.contents out.old) (W.contents out.new) room.old room.new
        (period_pegs_text line.now.network.now line.now.plan.now line.now.x.0 t)) }
    ensures prefix { OnErr result (AppendsPrefix (W.contents out.old) (W.contents out.new)
        (room.old ++ period_pegs_text line.now.network.now line.now.plan.now line.now.x.0 t)) }
    ensures fault { IfErr result (λ fault. fault ≡ ReportFault.WriteFault) }
{
    let demand = demand_term(line.network, line.x, t);
    put_peg(room, line, t, demand, out)?;
    let edges = asking_edges(line.network, line.plan, line.x, t);
    put_edge_pegs(room, line, edges, t, out)
}

/// Adds the rows of what the edges ask in period `t`.
fn put_edge_pegs<W: Write>(
    room: &mut Room,
    line: &PegLine<'_>,
    edges: &[Edge],
    t: usize,
    out: &mut W,
) -> Result<(), ReportFault>
    requires line { IsPegLine line.now }
    requires edges { All (IsPeggable line.now.network.now line.now.plan.now t) edges.now }
    ensures rows { OnOk result (Gathers (W.contents out.old) (W.contents out.new) room.old room.new
        (edges_text line.now.network.now line.now.plan.now line.now.x.0 t edges.now)) }
    ensures prefix { OnErr result (AppendsPrefix (W.contents out.old) (W.contents out.new)
        (room.old ++ edges_text line.now.network.now line.now.plan.now line.now.x.0 t edges.now)) }
    ensures fault { IfErr result (λ fault. fault ≡ ReportFault.WriteFault) }
{
    'edges: for edge in edges {
        let term = edge_term(line.network, line.plan, edge, t);
        put_peg(room, line, t, term, out)?;
    }
    Ok(())
}

/// Adds the row of a term of period `t`, unless it is 0.
fn put_peg<W: Write>(
    room: &mut Room,
    line: &PegLine<'_>,
    t: usize,
    term: PegTerm,
    out: &mut W,
) -> Result<(), ReportFault>
    requires line { IsPegLine line.now }
    requires pair { IsPair line.now.network.now term.pair.0 }
    ensures rows { OnOk result (Gathers (W.contents out.old) (W.contents out.new) room.old room.new
        (term_text line.now.network.now line.now.x.0 t term)) }
    ensures prefix { OnErr result (AppendsPrefix (W.contents out.old) (W.contents out.new)
        (room.old ++ term_text line.now.network.now line.now.x.0 t term)) }
    ensures fault { IfErr result (λ fault. fault ≡ ReportFault.WriteFault) }
{
    if term.quantity == 0 {
        return Ok(());
    }
    let mut text = [0; LONGEST_TERM];
    let start = write_term(&mut text, line.network, t, term);
    room.put_row(line.begins, &text[start..], out)
}

/// Writes what a row has of its term at the end of the text, the quantity first, and returns where it
/// starts.
fn write_term(text: &mut [u8; LONGEST_TERM], network: &Network, t: usize, term: PegTerm) -> usize
    requires table { IsTable network.now }
    requires pair { IsPair network.now term.pair.0 }
    ensures within { result ≤ LONGEST_TERM }
    ensures part { drop result text.new ≡ term_part network.now t term }
{
    let (plant, item) = network.pair_name(term.pair);
    let quantity = write_digits(term.quantity, text, LONGEST_TERM);
    let per = per_before(text, quantity, term.per, term.base);
    let release = number_before(text, per, term.release);
    let by_item = text_before(text, release, item.as_bytes());
    let by_plant = text_before(text, by_item, plant.as_bytes());
    let source = text_before(text, by_plant, source_word(term.source));
    number_before(text, source, t as u64)
}
