//! The report of orders, row by row: each order, firm and planned, with where its pair comes from and when it is
//! released and due.

ghost use Rattle.std.specs.Prelude.{◌≡◌, ◌+◌, ◌<◌, ◌++◌, All, Err, OnOk, IfOk, IfErr, length};
ghost use Rattle.std.specs.List.{flat_map};
ghost use Rattle.mrp_master_data.specs.Table.{IsFirmRow, IsPair};
ghost use Rattle.mrp_net.specs.PlanLaws.{Fits};
ghost use Rattle.mrp_csv_out.specs.Dates.{dates_of};
ghost use Rattle.mrp_csv_out.specs.Headings.{header_row};
ghost use Rattle.mrp_report.specs.Headings.{order_names};
ghost use Rattle.mrp_report.specs.Orders.{order_text, order_word, orders_text, pair_orders_text, spelled_supply};
ghost use Rattle.mrp_report.specs.OrderLines.{HasDates, IsOrderLine, due_text, firm_text, order_line_row};
ghost use Rattle.mrp_report.specs.OrderLines.{order_line_text, released_text};
ghost use Rattle.mrp_csv_out.specs.Writing.{IsBetweenRows, written};
ghost use Rattle.mrp_csv_out.specs.Sent.{SendsReport};

use crate::supply::put_supply;
use csv::Writer;
use itoa::Buffer;
use mrp_commands::Heading;
use mrp_csv_out::{ReportFault, date_of, date_texts, put_names, put_row, room_for, send, text_of};
use mrp_loops::SizedNet;
use mrp_net::{FirmRow, Network, PairNo};
use mrp_netting::PairPlan;
use mrp_plan::{ListedOrder, OrderSort, Plan, planned_order};
use std::alloc::Global;
use std::io::Write;

/// The most bytes of a row: the word, two names of 20, a supply of four names and shares, a quantity of
/// 16, three periods or counts of periods of 3 digits each, two dates, the commas and the line feed.
const LONGEST_ROW: usize = 204;

/// The most bytes of a supply: the word and four names of 20 with shares of 3 digits.
const LONGEST_SUPPLY: usize = 104;

/// What the order rows are of: a plan, its network, the text of each period's date, and the last period
/// of a release.
#[derive(Clone, Copy)]
struct OrderReport<'a> {
    network: &'a Network,
    plan: &'a Plan,
    dates: &'a [[u8; 10]],
    until: Option<u64>,
}

/// What the rows of a pair's orders have in common: the names of its plant and item, where it comes
/// from, the text of each period's date, its firm planned orders, its lead time, the earliest period in which planned
/// orders can come in, and the last period of a release.
#[derive(Clone, Copy)]
pub(crate) struct OrderLine<'a> {
    pub(crate) plant: &'a str,
    pub(crate) item: &'a str,
    pub(crate) supply: &'a [u8],
    pub(crate) dates: &'a [[u8; 10]],
    pub(crate) firms: &'a [FirmRow],
    pub(crate) lead: u64,
    pub(crate) earliest: u64,
    pub(crate) until: Option<u64>,
}

/// Writes a row for each order that is released in period `until` or before it, without it for each, pairs in table
/// order and due periods in rising order, and in one period the firm planned orders in table order before the planned
/// one: `firm` or `order`, plant, item, where the pair comes from, the quantity in pieces, the period of the release and
/// its first day, the period in which it is due and its first day, and how many periods are missing, 0 where none is: of
/// a planned order so many as it is due before the earliest period in which one can come in, the later of lead time and
/// planning time fence. The names of the columns stand above them where `heading` says so.
///
/// # Errors
///
/// - [`ReportFault::WriteFault`] where a write fails or takes nothing; a prefix of the report is
///   written.
/// - [`ReportFault::Memory`] where the room for the report is refused; nothing is written.
pub fn order_rows<W: Write>(
    alloc: Global,
    net: &SizedNet<'_>,
    plan: &Plan,
    until: Option<u64>,
    heading: Heading,
    out: &mut W,
) -> Result<(), ReportFault>
    requires fits { Fits net.now.network plan.now }
    ensures text { SendsReport (W.contents out.old) (W.contents out.new) result
        (order_text heading until net.now.network plan.now) }
    ensures untouched { result ≡ Err ReportFault.Memory → out.new ≡ out.old }
{
    let network = net.network();
    let dates = date_texts(alloc, network.calendar())?;
    let report = OrderReport {
        network,
        plan,
        dates: dates.as_slice(),
        until,
    };
    let text = order_text(alloc, &report, heading)?;
    send(text.as_slice(), out)
}

/// The order rows as bytes.
fn order_text(
    alloc: Global,
    report: &OrderReport<'_>,
    heading: Heading,
) -> Result<Vec<u8>, ReportFault>
    requires fits { Fits report.now.network.now report.now.plan.now }
    requires dates { report.now.dates.now ≡ dates_of report.now.network.now.calendar }
    ensures text { IfOk result (λ text. text.items
        ≡ order_text heading report.now.until report.now.network.now report.now.plan.now) }
    ensures fault { IfErr result (λ fault. fault ≡ ReportFault.Memory) }
{
    // Room to begin with, which grows where there are more orders than pairs.
    let mut rows = room_for(alloc, report.network.pairs(), LONGEST_ROW)?;
    put_names(
        &mut rows,
        heading,
        &[
            b"row",
            b"plant",
            b"item",
            b"supply",
            b"quantity",
            b"release",
            b"release_date",
            b"due",
            b"due_date",
            b"late",
        ],
    )?;
    put_all_orders(&mut rows, alloc, report)?;
    text_of(rows)
}

/// Adds the rows of all pairs.
fn put_all_orders(
    rows: &mut Writer<Vec<u8>>,
    alloc: Global,
    report: &OrderReport<'_>,
) -> Result<(), ReportFault>
    requires between { IsBetweenRows rows.old }
    requires fits { Fits report.now.network.now report.now.plan.now }
    requires dates { report.now.dates.now ≡ dates_of report.now.network.now.calendar }
    ensures rows { OnOk result (written rows.new ≡ written rows.old
        ++ orders_text report.now.until report.now.network.now report.now.plan.now) }
    ensures between { OnOk result (IsBetweenRows rows.new) }
    ensures fault { IfErr result (λ fault. fault ≡ ReportFault.Memory) }
{
    let mut supply = Vec::with_capacity(alloc, LONGEST_SUPPLY)?;
    'pairs: for x in 0..report.network.pairs() {
        put_supply(&mut supply, report.network, PairNo(x))?;
        put_pair_orders(rows, report, PairNo(x), supply.as_slice())?;
    }
    Ok(())
}

/// Adds the rows of a pair, which comes from there.
fn put_pair_orders(
    rows: &mut Writer<Vec<u8>>,
    report: &OrderReport<'_>,
    x: PairNo,
    supply: &[u8],
) -> Result<(), ReportFault>
    requires between { IsBetweenRows rows.old }
    requires fits { Fits report.now.network.now report.now.plan.now }
    requires dates { report.now.dates.now ≡ dates_of report.now.network.now.calendar }
    requires pair { IsPair report.now.network.now x.0 }
    requires supply { supply.now ≡ spelled_supply report.now.network.now x.0 }
    ensures rows { OnOk result (written rows.new ≡ written rows.old
        ++ pair_orders_text report.now.until report.now.network.now report.now.plan.now x.0) }
    ensures between { OnOk result (IsBetweenRows rows.new) }
    ensures fault { IfErr result (λ fault. fault ≡ ReportFault.Memory) }
{
    let line = line_of(report, x, supply);
    put_orders(rows, &line, report.plan.pair(x))
}

/// What the rows of a pair's orders have in common.
fn line_of<'a>(report: &OrderReport<'a>, x: PairNo, supply: &'a [u8]) -> OrderLine<'a>
    requires dates { report.now.dates.now ≡ dates_of report.now.network.now.calendar }
    requires pair { IsPair report.now.network.now x.0 }
    requires supply { supply.now ≡ spelled_supply report.now.network.now x.0 }
    ensures line { IsOrderLine report.now.network.now x.0 report.now.until result }
    ensures firms { All (IsFirmRow report.now.network.now) result.firms.now }
    ensures earliest { result.earliest < result.lead + length result.dates.now }
{
    let _pairs = report.network.pairs();
    let (plant, item) = report.network.pair_name(x);
    OrderLine {
        plant,
        item,
        supply,
        dates: report.dates,
        firms: report.network.firm_orders(x),
        lead: report.network.pair(x).lead,
        earliest: report.network.earliest(x),
        until: report.until,
    }
}

/// Adds the rows of a plan's orders, due period by due period.
fn put_orders<'a>(
    rows: &mut Writer<Vec<u8>>,
    line: &'a OrderLine<'a>,
    plan: &PairPlan,
) -> Result<(), ReportFault>
    requires between { IsBetweenRows rows.old }
    requires periods { length plan.now.order ≡ length line.now.dates.now }
    requires firms { All (HasDates line.now) line.now.firms.now }
    requires earliest { line.now.earliest < line.now.lead + length line.now.dates.now }
    ensures rows { OnOk result (written rows.new ≡ written rows.old ++ order_line_text line.now plan.now) }
    ensures between { OnOk result (IsBetweenRows rows.new) }
    ensures fault { IfErr result (λ fault. fault ≡ ReportFault.Memory) }
{
    'periods: for t in 0..line.dates.len() {
        put_due(rows, line, plan, t)?;
    }
    Ok(())
}

/// Adds the rows of the orders that are due in period `t` and released by the last period of a release, first those of
/// firm planned orders.
fn put_due<'a>(
    rows: &mut Writer<Vec<u8>>,
    line: &'a OrderLine<'a>,
    plan: &PairPlan,
    t: usize,
) -> Result<(), ReportFault>
    requires between { IsBetweenRows rows.old }
    requires period { t < length plan.now.order }
    requires date { t < length line.now.dates.now }
    requires firms { All (HasDates line.now) line.now.firms.now }
    requires earliest { line.now.earliest < line.now.lead + length line.now.dates.now }
    ensures rows { OnOk result (written rows.new ≡ written rows.old ++ due_text line.now plan.now t) }
    ensures between { OnOk result (IsBetweenRows rows.new) }
    ensures fault { IfErr result (λ fault. fault ≡ ReportFault.Memory) }
{
    put_firms_due(rows, line, t)?;
    match planned_order(plan, line.lead, line.earliest, t) {
        Some(order) => put_released(rows, line, ListedOrder::planned(order)),
        None => Ok(()),
    }
}

/// Adds the rows of the firm planned orders that are due in period `t` and released by the last period of a release, in
/// table order.
fn put_firms_due<'a>(
    rows: &mut Writer<Vec<u8>>,
    line: &'a OrderLine<'a>,
    t: usize,
) -> Result<(), ReportFault>
    requires between { IsBetweenRows rows.old }
    requires firms { All (HasDates line.now) line.now.firms.now }
    ensures rows { OnOk result (written rows.new ≡ written rows.old
        ++ flat_map (firm_text line.now t) line.now.firms.now) }
    ensures between { OnOk result (IsBetweenRows rows.new) }
    ensures fault { IfErr result (λ fault. fault ≡ ReportFault.Memory) }
{
    'orders: for firm in line.firms {
        if firm.due == t {
            put_released(rows, line, ListedOrder::firm(firm))?;
        }
    }
    Ok(())
}

/// Adds the row of an order, if it is released by the last period of a release.
fn put_released<'a>(
    rows: &mut Writer<Vec<u8>>,
    line: &'a OrderLine<'a>,
    listed: ListedOrder,
) -> Result<(), ReportFault>
    requires between { IsBetweenRows rows.old }
    requires release { listed.order.release < length line.now.dates.now }
    requires due { listed.order.due < length line.now.dates.now }
    ensures row { OnOk result (written rows.new ≡ written rows.old ++ released_text line.now listed) }
    ensures between { OnOk result (IsBetweenRows rows.new) }
    ensures fault { IfErr result (λ fault. fault ≡ ReportFault.Memory) }
{
    if listed.order.is_released_by(line.until) {
        put_order(rows, line, listed)
    } else {
        Ok(())
    }
}

/// What a row calls an order that planners set, and one of the plan.
fn order_word<'a>(sort: OrderSort) -> &'a [u8]
    ensures { result.now ≡ order_word sort }
{
    match sort {
        OrderSort::Firm => b"firm",
        OrderSort::Planned => b"order",
    }
}

/// Adds the row of an order.
fn put_order<'a>(
    rows: &mut Writer<Vec<u8>>,
    line: &'a OrderLine<'a>,
    listed: ListedOrder,
) -> Result<(), ReportFault>
    requires between { IsBetweenRows rows.old }
    requires release { listed.order.release < length line.now.dates.now }
    requires due { listed.order.due < length line.now.dates.now }
    ensures row { OnOk result (written rows.new ≡ written rows.old ++ order_line_row line.now listed) }
    ensures between { OnOk result (IsBetweenRows rows.new) }
    ensures fault { IfErr result (λ fault. fault ≡ ReportFault.Memory) }
{
    let order = listed.order;
    let mut quantity = Buffer::new();
    let mut release = Buffer::new();
    let mut due = Buffer::new();
    let mut late = Buffer::new();
    put_row(
        rows,
        &[
            order_word(listed.sort),
            line.plant.as_bytes(),
            line.item.as_bytes(),
            line.supply,
            quantity.format(order.quantity.get()).as_bytes(),
            release.format(order.release).as_bytes(),
            date_of(line.dates, order.release),
            due.format(order.due).as_bytes(),
            date_of(line.dates, order.due),
            late.format(order.late).as_bytes(),
        ],
    )
}
