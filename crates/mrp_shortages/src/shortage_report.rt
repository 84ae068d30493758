//! Shortages: their rows, each requirement of period 0 that lacks pieces.

ghost use Rattle.std.specs.Prelude.{◌≡◌, ◌-◌, ◌++◌, All, Err, OnOk, IfOk, IfErr, length, map};
ghost use Rattle.mrp_loops.specs.Sized.{IsSized};
ghost use Rattle.mrp_master_data.specs.Table.{IsPair};
ghost use Rattle.mrp_net.specs.PlanLaws.{Fits};
ghost use Rattle.mrp_plan.specs.Peg.{IsPeggable, edge_term};
ghost use Rattle.mrp_csv_out.specs.Writing.{IsBetweenRows, written};
ghost use Rattle.mrp_csv_out.specs.Sent.{SendsReport};
ghost use Rattle.mrp_shortages.specs.ShortageLines.{IsShortageLine, line_text, lacks_text};
ghost use Rattle.mrp_shortages.specs.ShortageRows.{pair_shortages_text, shortage_row, shortage_text};
ghost use Rattle.mrp_shortages.specs.ShortageRows.{shortages_text, source_word};

use crate::Shortage;
use crate::shortage::{take, there};
use csv::Writer;
use itoa::Buffer;
use mrp_commands::Heading;
use mrp_csv_out::{ReportFault, put_names, put_row, room_for, send, text_of};
use mrp_loops::SizedNet;
use mrp_master_data::PairNo;
use mrp_net::{Edge, Network};
use mrp_plan::{PegSource, PegTerm, Plan, asking_edges, demand_term, edge_term};
use std::alloc::Global;
use std::io::Write;

/// The most bytes of a row: two words of 14 together, four names of 20, two quantities of 16 digits, the commas and the
/// line feed.
const LONGEST_ROW: usize = 134;

/// What the rows of a pair have in common: the network, the plan, and the names of the pair's plant and item.
#[derive(Clone, Copy)]
pub(crate) struct ShortageLine<'a> {
    pub(crate) network: &'a Network,
    pub(crate) plan: &'a Plan,
    pub(crate) plant: &'a str,
    pub(crate) item: &'a str,
}

/// Writes a row for each requirement of period 0 that lacks pieces, pairs in table order and the terms of a pair in the
/// order of [`mrp_plan::peg`]: `shortage`, plant and item of the pair, the source (`demand`, `bill` or `plant`), plant and
/// item of the pair that asks, the quantity of the term in pieces, and how many of them are missing. The names of the
/// columns stand above them where `heading` says so.
///
/// Of a pair there is what is on hand, safety stock with it, and its receipts and shipments of period 0 by their rows. Of
/// a made pair whose lead time and planning time fence are 0 there are also its orders that are due in period 0, firm and
/// planned, whose own components say what they lack. No other order is there. The terms of the gross requirement take of
/// it one after the other as much as is left.
///
/// # Errors
///
/// - [`ReportFault::WriteFault`] where a write fails or takes nothing; a prefix of the report is
///   written.
/// - [`ReportFault::Memory`] where the room for the report is refused; nothing is written.
pub fn shortage_rows<W: Write>(
    alloc: Global,
    net: &SizedNet<'_>,
    plan: &Plan,
    heading: Heading,
    out: &mut W,
) -> Result<(), ReportFault>
    requires fits { Fits net.now.network plan.now }
    ensures text { SendsReport (W.contents out.old) (W.contents out.new) result
        (shortage_text heading net.now.network plan.now) }
    ensures untouched { result ≡ Err ReportFault.Memory → out.new ≡ out.old }
{
    let text = shortage_text(alloc, net.network(), plan, heading)?;
    send(text.as_slice(), out)
}

/// The shortage rows as bytes.
fn shortage_text(
    alloc: Global,
    network: &Network,
    plan: &Plan,
    heading: Heading,
) -> Result<Vec<u8>, ReportFault>
    requires sized { IsSized network.now }
    requires fits { Fits network.now plan.now }
    ensures text { IfOk result (λ text. text.items ≡ shortage_text heading network.now plan.now) }
    ensures fault { IfErr result (λ fault. fault ≡ ReportFault.Memory) }
{
    // Room to begin with, which grows where more requirements than pairs lack pieces.
    let mut rows = room_for(alloc, network.pairs(), LONGEST_ROW)?;
    put_names(
        &mut rows,
        heading,
        &[
            b"row",
            b"plant",
            b"item",
            b"source",
            b"by_plant",
            b"by_item",
            b"quantity",
            b"short",
        ],
    )?;
    put_pairs(&mut rows, network, plan)?;
    text_of(rows)
}

/// Adds the rows of all pairs.
fn put_pairs(rows: &mut Writer<Vec<u8>>, network: &Network, plan: &Plan) -> Result<(), ReportFault>
    requires between { IsBetweenRows rows.old }
    requires sized { IsSized network.now }
    requires fits { Fits network.now plan.now }
    ensures rows { OnOk result (written rows.new ≡ written rows.old ++ shortages_text network.now plan.now) }
    ensures between { OnOk result (IsBetweenRows rows.new) }
    ensures fault { IfErr result (λ fault. fault ≡ ReportFault.Memory) }
{
    'pairs: for x in 0..network.pairs() {
        put_pair_shortages(rows, network, plan, PairNo(x))?;
    }
    Ok(())
}

/// Adds the rows of a pair: of its demand rows, and of what its demanders ask.
fn put_pair_shortages(
    rows: &mut Writer<Vec<u8>>,
    network: &Network,
    plan: &Plan,
    x: PairNo,
) -> Result<(), ReportFault>
    requires between { IsBetweenRows rows.old }
    requires sized { IsSized network.now }
    requires fits { Fits network.now plan.now }
    requires pair { IsPair network.now x.0 }
    ensures rows { OnOk result (written rows.new ≡ written rows.old
        ++ pair_shortages_text network.now plan.now x.0) }
    ensures between { OnOk result (IsBetweenRows rows.new) }
    ensures fault { IfErr result (λ fault. fault ≡ ReportFault.Memory) }
{
    let line = line_of(network, plan, x);
    let mut left = there(network, plan, x);
    put_next(rows, &line, &mut left, demand_term(network, x, 0))?;
    let edges = asking_edges(network, plan, x, 0);
    put_edge_shortages(rows, &line, left, edges)
}

/// What the rows of a pair have in common.
fn line_of<'a>(network: &'a Network, plan: &'a Plan, x: PairNo) -> ShortageLine<'a>
    requires { IsPair network.now x.0 }
    ensures { IsShortageLine network.now plan.now x.0 result }
{
    let (plant, item) = network.pair_name(x);
    ShortageLine {
        network,
        plan,
        plant,
        item,
    }
}

/// Adds the rows of what edges ask, one after the other, of the pieces that are left.
fn put_edge_shortages<'a>(
    rows: &mut Writer<Vec<u8>>,
    line: &'a ShortageLine<'a>,
    left: u64,
    edges: &[Edge],
) -> Result<(), ReportFault>
    requires between { IsBetweenRows rows.old }
    requires size { length line.now.plan.now ≡ length line.now.network.now.pairs }
    requires edges { All (IsPeggable line.now.network.now line.now.plan.now 0) edges.now }
    ensures rows { OnOk result (written rows.new ≡ written rows.old
        ++ lacks_text line.now left (map (edge_term line.now.network.now line.now.plan.now 0) edges.now)) }
    ensures between { OnOk result (IsBetweenRows rows.new) }
    ensures fault { IfErr result (λ fault. fault ≡ ReportFault.Memory) }
{
    let mut left = left;
    'edges: for edge in edges {
        let term = edge_term(line.network, line.plan, edge, 0);
        put_next(rows, line, &mut left, term)?;
    }
    Ok(())
}

/// Adds the row of a term, where it lacks pieces of those that are left, and takes what it gets.
fn put_next<'a>(
    rows: &mut Writer<Vec<u8>>,
    line: &'a ShortageLine<'a>,
    left: &mut u64,
    term: PegTerm,
) -> Result<(), ReportFault>
    requires between { IsBetweenRows rows.old }
    requires pair { IsPair line.now.network.now term.pair.0 }
    ensures row { OnOk result (written rows.new ≡ written rows.old ++ line_text line.now left.old term) }
    ensures between { OnOk result (IsBetweenRows rows.new) }
    ensures fault { IfErr result (λ fault. fault ≡ ReportFault.Memory) }
    ensures left { left.new ≡ left.old - term.quantity }
{
    let shortage = take(left, term);
    if shortage.short == 0 {
        return Ok(());
    }
    put_shortage(rows, line, shortage)
}

/// Adds the row of a shortage.
fn put_shortage<'a>(
    rows: &mut Writer<Vec<u8>>,
    line: &'a ShortageLine<'a>,
    shortage: Shortage,
) -> Result<(), ReportFault>
    requires between { IsBetweenRows rows.old }
    requires pair { IsPair line.now.network.now shortage.term.pair.0 }
    ensures row { OnOk result (written rows.new ≡ written rows.old
        ++ shortage_row line.now.network.now line.now.plant.now line.now.item.now shortage) }
    ensures between { OnOk result (IsBetweenRows rows.new) }
    ensures fault { IfErr result (λ fault. fault ≡ ReportFault.Memory) }
{
    let term = shortage.term;
    let (by_plant, by_item) = line.network.pair_name(term.pair);
    let mut quantity = Buffer::new();
    let mut short = Buffer::new();
    put_row(
        rows,
        &[
            b"shortage",
            line.plant.as_bytes(),
            line.item.as_bytes(),
            source_word(term.source),
            by_plant.as_bytes(),
            by_item.as_bytes(),
            quantity.format(term.quantity).as_bytes(),
            short.format(shortage.short).as_bytes(),
        ],
    )
}

/// What a row calls the source of a term.
fn source_word<'a>(source: PegSource) -> &'a [u8]
    ensures { result.now ≡ source_word source }
{
    match source {
        PegSource::Demand => b"demand",
        PegSource::Bill => b"bill",
        PegSource::Plant => b"plant",
    }
}
