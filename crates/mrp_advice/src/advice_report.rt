//! Advice: its rows, an exception message for each open order that isn't due in the period in which it is needed.

ghost use Rattle.std.specs.Prelude.{◌≡◌, ◌+◌, ◌≤◌, ◌++◌, Err, OnOk, IfOk, IfErr, IfSome, if◌then◌else◌, length};
ghost use Rattle.mrp_qty.specs.declared.quantity.TheConstants.{MOST};
ghost use Rattle.mrp_master_data.specs.Table.{IsPair, horizon};
ghost use Rattle.mrp_net.specs.PlanLaws.{Fits};
ghost use Rattle.mrp_loops.specs.Sized.{IsSized};
ghost use Rattle.mrp_reach.specs.Reach.{AreWhole};
ghost use Rattle.mrp_csv_out.specs.Dates.{dates_of};
ghost use Rattle.mrp_csv_out.specs.Writing.{IsBetweenRows, written};
ghost use Rattle.mrp_csv_out.specs.Sent.{SendsReport};
ghost use Rattle.mrp_advice.specs.AdviceLines.{HasSender, IsAdvice, IsAdvised, IsAdviceLine, IsOpenOrder};
ghost use Rattle.mrp_advice.specs.AdviceLines.{advice_line_row, advice_line_text, message_text};
ghost use Rattle.mrp_advice.specs.Beyond.{advice_within, wholes_of};
ghost use Rattle.mrp_advice.specs.Gathered.{AreOpenOrders};
ghost use Rattle.mrp_advice.specs.Lacking.{AreRunOuts, HaveRoom, first_lacking, lacks_of, needed_by, run_out_of};
ghost use Rattle.mrp_advice.specs.Needed.{may_come_sooner};
ghost use Rattle.mrp_advice.specs.AdviceRows.{action_word, advice_text, order_kind_word};
ghost use Rattle.mrp_advice.specs.AdviceRows.{messages_text, pair_advice_text, sender_name};

use crate::beyond::needs_whole;
use crate::gathering::open_orders;
use crate::lacks::{Lacks, find_lacks};
use crate::run_out::{RunOut, RunOuts, next_advice};
use crate::{Action, Advice, OpenOrder, OrderKind};
use csv::Writer;
use itoa::Buffer;
use mrp_commands::Heading;
use mrp_csv_out::{
    ReportFault, date_if_any, date_of, date_texts, number_if_any, put_names, put_row, room_for,
    send, text_of,
};
use mrp_grouping::Groups;
use mrp_loops::SizedNet;
use mrp_master_data::PairNo;
use mrp_net::Network;
use mrp_netting::Policy;
use mrp_plan::Plan;
use std::alloc::Global;
use std::io::Write;

/// The most bytes of a row: three words of 21 together, three names of 20, two periods of 3 digits, two
/// dates, a quantity of 13 digits, the commas and the line feed.
const LONGEST_ROW: usize = 131;

/// What the advice rows are of: a plan, its network, the open orders of all pairs, the text of each
/// period's date, the whole periods of each pair's gross requirements, if they are given, and the last period
/// of an order that has a row.
#[derive(Clone, Copy)]
struct AdviceReport<'a> {
    network: &'a Network,
    plan: &'a Plan,
    orders: &'a Groups<OpenOrder>,
    dates: &'a [[u8; 10]],
    wholes: Option<&'a [usize]>,
    until: Option<u64>,
}

/// What the rows of a pair's messages have in common: the network, the names of the pair's plant and
/// item, the text of each period's date, in how many periods it is whole which orders are needed there, if that is
/// asked for, and the last period of an order that has a row.
#[derive(Clone, Copy)]
pub(crate) struct AdviceLine<'a> {
    pub(crate) network: &'a Network,
    pub(crate) plant: &'a str,
    pub(crate) item: &'a str,
    pub(crate) dates: &'a [[u8; 10]],
    pub(crate) whole: Option<usize>,
    pub(crate) until: Option<u64>,
}

/// Writes a row for each open order that isn't due in the period in which it is needed, pairs in table
/// order and the open orders of a pair by rising period, in one period receipts before shipments before
/// firm planned orders and each in table order: `advice`, what to do (`expedite`, `defer`, `cancel` or `beyond`),
/// `receipt`, `ship` or `firm`, plant and item, the sender of a shipment, the period in which the order is
/// due and its first day, its quantity in pieces, and the period in which it is needed and its first day,
/// which are empty where it is to be cancelled. The names of the columns stand above them where `heading`
/// says so.
///
/// An order is needed in the first period in which what is on hand and the open orders before it are less
/// than safety stock and the gross requirements of the plan up to that period, that one and the periods of cover
/// included.
///
/// Where the pair's policy lets receipts be counted sooner than they come, receipts and the other orders go by
/// themselves: before a receipt are had what is on hand, the receipts before it, and the shipments and firm planned
/// orders that are due by the period; before another order what is on hand, the shipments and firm planned orders
/// before it, and of the receipts that may be counted by the period those that are short. So each receipt that the
/// plan counts sooner has `expedite`.
///
/// With `wholes`, the whole periods of the network, a row has what holds whatever is wanted behind the horizon. When the
/// orders of a pair are needed is whole in as many periods as its gross requirements are, less its periods of cover. An
/// order that isn't needed in one of these has `beyond` where it is due in one of them, with no period in which it is
/// needed, and no row where it is due later.
///
/// With `until`, a period from 0, an open order that is due after it has no row, and nothing else changes. A
/// period past the horizon leaves nothing out.
///
/// # Errors
///
/// - [`ReportFault::WriteFault`] where a write fails or takes nothing; a prefix of the report is
///   written.
/// - [`ReportFault::Memory`] where the room for the report is refused; nothing is written.
pub fn advice_rows<W: Write>(
    alloc: Global,
    net: &SizedNet<'_>,
    plan: &Plan,
    wholes: Option<&[usize]>,
    until: Option<u64>,
    heading: Heading,
    out: &mut W,
) -> Result<(), ReportFault>
    requires fits { Fits net.now.network plan.now }
    requires wholes { IfSome wholes (λ wholes. AreWhole net.now.network wholes.now) }
    ensures text { SendsReport (W.contents out.old) (W.contents out.new) result
        (advice_text heading (wholes_of wholes.entry) until net.now.network plan.now) }
    ensures untouched { result ≡ Err ReportFault.Memory → out.new ≡ out.old }
{
    let network = net.network();
    let dates = date_texts(alloc, network.calendar())?;
    let orders = open_orders(alloc, network)?;
    let report = AdviceReport {
        network,
        plan,
        orders: &orders,
        dates: dates.as_slice(),
        wholes,
        until,
    };
    let text = advice_text(alloc, &report, heading)?;
    send(text.as_slice(), out)
}

/// The advice rows as bytes.
fn advice_text(
    alloc: Global,
    report: &AdviceReport<'_>,
    heading: Heading,
) -> Result<Vec<u8>, ReportFault>
    requires sized { IsSized report.now.network.now }
    requires fits { Fits report.now.network.now report.now.plan.now }
    requires orders { AreOpenOrders report.now.network.now report.now.orders.now.rows.items
        report.now.orders.now.starts.items }
    requires dates { report.now.dates.now ≡ dates_of report.now.network.now.calendar }
    requires wholes { IfSome report.now.wholes (λ wholes. length wholes.now ≡ length report.now.network.now.pairs) }
    ensures text { IfOk result (λ text. text.items
        ≡ advice_text heading (wholes_of report.now.wholes) report.now.until report.now.network.now report.now.plan.now) }
    ensures fault { IfErr result (λ fault. fault ≡ ReportFault.Memory) }
{
    // Room to begin with, which grows where there are more messages than pairs.
    let mut rows = room_for(alloc, report.network.pairs(), LONGEST_ROW)?;
    put_names(
        &mut rows,
        heading,
        &[
            b"row",
            b"action",
            b"kind",
            b"plant",
            b"item",
            b"supplier",
            b"period",
            b"date",
            b"quantity",
            b"needed",
            b"needed_date",
        ],
    )?;
    put_all_messages(alloc, &mut rows, report)?;
    text_of(rows)
}

/// Adds the rows of all pairs.
fn put_all_messages(
    alloc: Global,
    rows: &mut Writer<Vec<u8>>,
    report: &AdviceReport<'_>,
) -> Result<(), ReportFault>
    requires between { IsBetweenRows rows.old }
    requires sized { IsSized report.now.network.now }
    requires fits { Fits report.now.network.now report.now.plan.now }
    requires orders { AreOpenOrders report.now.network.now report.now.orders.now.rows.items
        report.now.orders.now.starts.items }
    requires dates { report.now.dates.now ≡ dates_of report.now.network.now.calendar }
    requires wholes { IfSome report.now.wholes (λ wholes. length wholes.now ≡ length report.now.network.now.pairs) }
    ensures rows { OnOk result (written rows.new ≡ written rows.old
        ++ messages_text (wholes_of report.now.wholes) report.now.until report.now.network.now report.now.plan.now) }
    ensures between { OnOk result (IsBetweenRows rows.new) }
    ensures fault { IfErr result (λ fault. fault ≡ ReportFault.Memory) }
{
    match Lacks::room(alloc, report.network.horizon()) {
        Ok(mut lacks) => put_pairs(rows, report, &mut lacks),
        Err(_) => Err(ReportFault::Memory),
    }
}

/// Adds the rows of all pairs, one after the other.
fn put_pairs(
    rows: &mut Writer<Vec<u8>>,
    report: &AdviceReport<'_>,
    lacks: &mut Lacks,
) -> Result<(), ReportFault>
    requires between { IsBetweenRows rows.old }
    requires sized { IsSized report.now.network.now }
    requires fits { Fits report.now.network.now report.now.plan.now }
    requires orders { AreOpenOrders report.now.network.now report.now.orders.now.rows.items
        report.now.orders.now.starts.items }
    requires dates { report.now.dates.now ≡ dates_of report.now.network.now.calendar }
    requires wholes { IfSome report.now.wholes (λ wholes. length wholes.now ≡ length report.now.network.now.pairs) }
    requires room { HaveRoom (horizon report.now.network.now) lacks.old }
    ensures rows { OnOk result (written rows.new ≡ written rows.old
        ++ messages_text (wholes_of report.now.wholes) report.now.until report.now.network.now report.now.plan.now) }
    ensures between { OnOk result (IsBetweenRows rows.new) }
    ensures fault { IfErr result (λ fault. fault ≡ ReportFault.Memory) }
{
    'pairs: for x in 0..report.network.pairs() {
        put_pair_messages(rows, report, lacks, PairNo(x))?;
    }
    Ok(())
}

/// Adds the rows of a pair.
fn put_pair_messages(
    rows: &mut Writer<Vec<u8>>,
    report: &AdviceReport<'_>,
    lacks: &mut Lacks,
    x: PairNo,
) -> Result<(), ReportFault>
    requires between { IsBetweenRows rows.old }
    requires sized { IsSized report.now.network.now }
    requires fits { Fits report.now.network.now report.now.plan.now }
    requires orders { AreOpenOrders report.now.network.now report.now.orders.now.rows.items
        report.now.orders.now.starts.items }
    requires dates { report.now.dates.now ≡ dates_of report.now.network.now.calendar }
    requires wholes { IfSome report.now.wholes (λ wholes. length wholes.now ≡ length report.now.network.now.pairs) }
    requires room { HaveRoom (horizon report.now.network.now) lacks.old }
    requires pair { IsPair report.now.network.now x.0 }
    ensures rows { OnOk result (written rows.new ≡ written rows.old
        ++ pair_advice_text (wholes_of report.now.wholes) report.now.until report.now.network.now report.now.plan.now x.0) }
    ensures between { OnOk result (IsBetweenRows rows.new) }
    ensures fault { IfErr result (λ fault. fault ≡ ReportFault.Memory) }
    ensures room { HaveRoom (horizon report.now.network.now) lacks.new }
{
    let orders = report.orders.get(x.0);
    if orders.is_empty() {
        return Ok(());
    }
    let line = line_of(report, x);
    find_lacks(report.network, report.plan, x, lacks);
    put_messages(rows, &line, report.network.policy(x), lacks, orders)
}

/// What the rows of a pair's messages have in common.
fn line_of<'a>(report: &AdviceReport<'a>, x: PairNo) -> AdviceLine<'a>
    requires dates { report.now.dates.now ≡ dates_of report.now.network.now.calendar }
    requires wholes { IfSome report.now.wholes (λ wholes. length wholes.now ≡ length report.now.network.now.pairs) }
    requires pair { IsPair report.now.network.now x.0 }
    ensures { IsAdviceLine report.now.network.now x.0 (wholes_of report.now.wholes) report.now.until result }
{
    let (plant, item) = report.network.pair_name(x);
    AdviceLine {
        network: report.network,
        plant,
        item,
        dates: report.dates,
        whole: needs_whole(report.network, report.wholes, x),
        until: report.until,
    }
}

/// Adds the rows of a pair's open orders that have a message and come by the last period.
fn put_messages<'a>(
    rows: &mut Writer<Vec<u8>>,
    line: &'a AdviceLine<'a>,
    policy: Policy,
    lacks: &Lacks,
    orders: &[OpenOrder],
) -> Result<(), ReportFault>
    requires between { IsBetweenRows rows.old }
    requires dates { length line.now.dates.now ≡ horizon line.now.network.now }
    requires advised { IsAdvised line.now.network.now lacks.now orders.now }
    ensures rows { OnOk result (written rows.new ≡ written rows.old
        ++ advice_line_text line.now (needed_by policy lacks.now orders.now) orders.now) }
    ensures between { OnOk result (IsBetweenRows rows.new) }
    ensures fault { IfErr result (λ fault. fault ≡ ReportFault.Memory) }
{
    let mut run_outs = RunOuts {
        receipts: RunOut::START,
        others: RunOut::START,
    };
    'orders: for i in 0..orders.len() {
        put_next(rows, line, policy, lacks, &mut run_outs, orders[i])?;
    }
    Ok(())
}

/// Adds the row of the next open order of a pair, where it has a message and comes by the last period.
fn put_next<'a>(
    rows: &mut Writer<Vec<u8>>,
    line: &'a AdviceLine<'a>,
    policy: Policy,
    lacks: &Lacks,
    run_outs: &mut RunOuts,
    order: OpenOrder,
) -> Result<(), ReportFault>
    requires between { IsBetweenRows rows.old }
    requires dates { length line.now.dates.now ≡ horizon line.now.network.now }
    requires room { HaveRoom (horizon line.now.network.now) lacks.now }
    requires run_outs { AreRunOuts lacks.now run_outs.old }
    requires room_of_receipts { run_outs.old.receipts.pieces + order.quantity ≤ MOST }
    requires room_of_others { run_outs.old.others.pieces + order.quantity ≤ MOST }
    requires order { IsOpenOrder line.now.network.now order }
    ensures row { OnOk result (written rows.new ≡ written rows.old
        ++ message_text line.now (advice_within line.now.whole order (first_lacking (lacks_of lacks.now (may_come_sooner policy order))
        (run_out_of run_outs.old (may_come_sooner policy order)).pieces))) }
    ensures between { OnOk result (IsBetweenRows rows.new) }
    ensures fault { IfErr result (λ fault. fault ≡ ReportFault.Memory) }
    ensures run_outs { AreRunOuts lacks.now run_outs.new }
    ensures receipts { run_outs.new.receipts.pieces
        ≡ run_outs.old.receipts.pieces + (if may_come_sooner policy order then order.quantity else 0) }
    ensures others { run_outs.new.others.pieces
        ≡ run_outs.old.others.pieces + (if may_come_sooner policy order then 0 else order.quantity) }
{
    let advice = next_advice(line.whole, policy, lacks, run_outs, order);
    put_message(rows, line, advice)
}

/// Adds the row of a message, where there is one and its order comes by the last period.
fn put_message<'a>(
    rows: &mut Writer<Vec<u8>>,
    line: &'a AdviceLine<'a>,
    advice: Option<Advice>,
) -> Result<(), ReportFault>
    requires between { IsBetweenRows rows.old }
    requires dates { length line.now.dates.now ≡ horizon line.now.network.now }
    requires advice { IfSome advice (IsAdvice line.now.network.now) }
    ensures rows { OnOk result (written rows.new ≡ written rows.old ++ message_text line.now advice) }
    ensures between { OnOk result (IsBetweenRows rows.new) }
    ensures fault { IfErr result (λ fault. fault ≡ ReportFault.Memory) }
{
    match advice {
        Some(advice) if advice.order.comes_by(line.until) => put_advice(rows, line, advice),
        _ => Ok(()),
    }
}

/// Adds the row of a message.
fn put_advice<'a>(
    rows: &mut Writer<Vec<u8>>,
    line: &'a AdviceLine<'a>,
    advice: Advice,
) -> Result<(), ReportFault>
    requires between { IsBetweenRows rows.old }
    requires dates { length line.now.dates.now ≡ horizon line.now.network.now }
    requires advice { IsAdvice line.now.network.now advice }
    ensures row { OnOk result (written rows.new ≡ written rows.old ++ advice_line_row line.now advice) }
    ensures between { OnOk result (IsBetweenRows rows.new) }
    ensures fault { IfErr result (λ fault. fault ≡ ReportFault.Memory) }
{
    let order = advice.order;
    let mut period = Buffer::new();
    let mut quantity = Buffer::new();
    let mut needed = Buffer::new();
    put_row(
        rows,
        &[
            b"advice",
            action_word(advice.action),
            kind_word(order.kind),
            line.plant.as_bytes(),
            line.item.as_bytes(),
            supplier_name(line.network, order.kind),
            period.format(order.period).as_bytes(),
            date_of(line.dates, order.period),
            quantity.format(order.quantity.get()).as_bytes(),
            number_if_any(&mut needed, advice.needed),
            date_if_any(line.dates, advice.needed),
        ],
    )
}

/// What a row calls an action.
fn action_word<'a>(action: Action) -> &'a [u8]
    ensures { result.now ≡ action_word action }
{
    match action {
        Action::Expedite => b"expedite",
        Action::Defer => b"defer",
        Action::Cancel => b"cancel",
        Action::Beyond => b"beyond",
    }
}

/// What a row calls a kind of open order.
fn kind_word<'a>(kind: OrderKind) -> &'a [u8]
    ensures { result.now ≡ order_kind_word kind }
{
    match kind {
        OrderKind::Receipt => b"receipt",
        OrderKind::Ship(_) => b"ship",
        OrderKind::Firm => b"firm",
    }
}

/// The name of a shipment's sender. Receipts and firm planned orders have none.
fn supplier_name(network: &Network, kind: OrderKind) -> &[u8]
    requires { HasSender network.now kind }
    ensures { result.now ≡ sender_name network.now kind }
{
    match kind {
        OrderKind::Receipt | OrderKind::Firm => b"",
        OrderKind::Ship(from) => network.plant_name(from).as_bytes(),
    }
}
