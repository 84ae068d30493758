//! Delivery schedules: their rows, of plants and of vendors, item by item and line by line.

ghost use Rattle.std.specs.Prelude.{◌≡◌, ◌<◌, ◌++◌, Err, OnOk, IfOk, IfErr, IfSome, All, Contains, length};
ghost use Rattle.std.specs.List.{flat_map};
ghost use Rattle.mrp_net.specs.declared.lane.LaneKind.TheVariants.{Schedule};
ghost use Rattle.mrp_net.specs.Lanes.{lane_at, lane_items, lanes};
ghost use Rattle.mrp_net.specs.PlanLaws.{Fits};
ghost use Rattle.mrp_net.specs.Routes.{IsLane};
ghost use Rattle.mrp_master_data.specs.Rows.{vendor_of};
ghost use Rattle.mrp_master_data.specs.Table.{IsTable};
ghost use Rattle.mrp_csv_out.specs.Dates.{dates_of};
ghost use Rattle.mrp_csv_out.specs.Writing.{IsBetweenRows, written};
ghost use Rattle.mrp_csv_out.specs.Sent.{SendsReport};
ghost use Rattle.mrp_schedules.specs.ScheduleRows.{is_asked_for, is_between, is_vendor_to, item_text, lane_schedule_text};
ghost use Rattle.mrp_commands.specs.Given.{name_of};
ghost use Rattle.mrp_schedules.specs.ScheduleRows.{lanes_text, schedule_text, vendor_text, vendors_text};
ghost use Rattle.mrp_schedules.specs.ItemRows.{AreRowsOf, IsLineWithin, asked_text, asked_vendor_text, item_row, kind_row};

use crate::{ScheduleLine, add_schedule, add_vendor_schedule};
use csv::Writer;
use itoa::Buffer;
use mrp_commands::Heading;
use mrp_csv_out::{
    ReportFault, date_if_any, date_texts, number_if_any, put_names, put_row, room_for, send,
    text_of,
};
use mrp_loops::SizedNet;
use mrp_master_data::is_same_text;
use mrp_net::{ItemNo, Lane, LaneKind, LaneNo, Network, PlantNo, VendorRow};
use mrp_plan::Plan;
use mrp_qty::Qty;
use std::alloc::Global;
use std::io::Write;

/// The most bytes of a row: two words, three names of 20, a period of 3 digits, a date, two figures of
/// 16, the commas and the line feed.
const LONGEST_ROW: usize = 129;

/// What the schedule rows are of: a network and its plan, the text of each period's date, and the names of
/// the supplier and the customer that are asked for.
#[derive(Clone, Copy)]
struct ScheduleReport<'a> {
    net: &'a SizedNet<'a>,
    plan: &'a Plan,
    dates: &'a [[u8; 10]],
    from: Option<&'a str>,
    to: Option<&'a str>,
}

/// What the rows of an item's schedule have in common: the names of the supplier, the customer and the
/// item, and the text of each period's date.
#[derive(Clone, Copy)]
pub(crate) struct ItemRows<'a> {
    pub(crate) supplier: &'a str,
    pub(crate) customer: &'a str,
    pub(crate) item: &'a str,
    pub(crate) dates: &'a [[u8; 10]],
}

/// Writes the rows of the delivery schedules by which the plant named `to` calls on the plant or the vendor
/// named `from`, without `from` on all and without `to` those of all plants: lanes by customer and then by
/// supplier, in table order, and the items of a lane in table order of the customer's pairs; behind all
/// lanes the vendors in the order of their rows.
///
/// Each row is `schedule`, its kind, supplier, customer, item, a period and its first day, a quantity and
/// a cumulative figure, both in pieces. An item begins with `opening`, which has no period: what the
/// shipments of the table have on their way, or the vendor's row says is, and the figure that the calls are
/// counted on from. Each delivery that is called for is a `call`, in rising period, with the figure in force
/// after it. Before the first call that is counted from 0 again stands `reset`, without a quantity: the
/// period from which counting begins anew, and the figure that it closes. Where no names fit there are no
/// rows. The names of the columns stand above them where `heading` says so.
///
/// # Errors
///
/// - [`ReportFault::WriteFault`] where a write fails or takes nothing; a prefix of the report is
///   written.
/// - [`ReportFault::Memory`] where the room for the report is refused; nothing is written.
pub fn schedule_rows<W: Write>(
    alloc: Global,
    net: &SizedNet<'_>,
    plan: &Plan,
    from: Option<&str>,
    to: Option<&str>,
    heading: Heading,
    out: &mut W,
) -> Result<(), ReportFault>
    requires fits { Fits net.now.network plan.now }
    ensures text { SendsReport (W.contents out.old) (W.contents out.new) result
        (schedule_text heading (name_of from.entry) (name_of to.entry) net.now.network) }
    ensures untouched { result ≡ Err ReportFault.Memory → out.new ≡ out.old }
{
    let dates = date_texts(alloc, net.network().calendar())?;
    let report = ScheduleReport {
        net,
        plan,
        dates: dates.as_slice(),
        from,
        to,
    };
    let text = schedule_text(alloc, &report, heading)?;
    send(text.as_slice(), out)
}

/// The schedule rows as bytes.
fn schedule_text(
    alloc: Global,
    report: &ScheduleReport<'_>,
    heading: Heading,
) -> Result<Vec<u8>, ReportFault>
    requires fits { Fits report.now.net.now.network report.now.plan.now }
    requires dates { report.now.dates.now ≡ dates_of report.now.net.now.network.calendar }
    ensures text { IfOk result (λ text. text.items
        ≡ schedule_text heading (name_of report.now.from) (name_of report.now.to) report.now.net.now.network) }
    ensures fault { IfErr result (λ fault. fault ≡ ReportFault.Memory) }
{
    // Room to begin with, which grows where there are more rows than lanes.
    let mut rows = room_for(alloc, report.net.network().lanes(), LONGEST_ROW)?;
    put_names(
        &mut rows,
        heading,
        &[
            b"row",
            b"kind",
            b"supplier",
            b"customer",
            b"item",
            b"period",
            b"date",
            b"quantity",
            b"cumulative",
        ],
    )?;
    let mut lines = Vec::new(alloc);
    put_lanes(&mut rows, &mut lines, report)?;
    put_vendors(&mut rows, &mut lines, report)?;
    text_of(rows)
}

/// Adds the rows of all lanes whose schedules are asked for. The list is room for the lines of an item.
fn put_lanes(
    rows: &mut Writer<Vec<u8>>,
    lines: &mut Vec<ScheduleLine>,
    report: &ScheduleReport<'_>,
) -> Result<(), ReportFault>
    requires between { IsBetweenRows rows.old }
    requires fits { Fits report.now.net.now.network report.now.plan.now }
    requires dates { report.now.dates.now ≡ dates_of report.now.net.now.network.calendar }
    ensures rows { OnOk result (written rows.new ≡ written rows.old
        ++ lanes_text (name_of report.now.from) (name_of report.now.to) report.now.net.now.network) }
    ensures between { OnOk result (IsBetweenRows rows.new) }
    ensures fault { IfErr result (λ fault. fault ≡ ReportFault.Memory) }
{
    'lanes: for l in 0..report.net.network().lanes() {
        put_lane(rows, lines, report, LaneNo(l))?;
    }
    Ok(())
}

/// Adds the rows of a lane, if its schedules are asked for. The list is room for the lines of an item.
fn put_lane(
    rows: &mut Writer<Vec<u8>>,
    lines: &mut Vec<ScheduleLine>,
    report: &ScheduleReport<'_>,
    lane: LaneNo,
) -> Result<(), ReportFault>
    requires between { IsBetweenRows rows.old }
    requires fits { Fits report.now.net.now.network report.now.plan.now }
    requires dates { report.now.dates.now ≡ dates_of report.now.net.now.network.calendar }
    requires lane { lane.0 < length (lanes report.now.net.now.network) }
    ensures rows { OnOk result (written rows.new ≡ written rows.old
        ++ asked_text (name_of report.now.from) (name_of report.now.to) report.now.net.now.network
        (lane_at report.now.net.now.network lane.0)) }
    ensures between { OnOk result (IsBetweenRows rows.new) }
    ensures fault { IfErr result (λ fault. fault ≡ ReportFault.Memory) }
{
    let network = report.net.network();
    if is_between(network, report.from, report.to, network.lane(lane)) {
        put_items(rows, lines, report, lane)
    } else {
        Ok(())
    }
}

/// Whether the schedules of a lane are asked for: it is a schedule lane to the supplier and from the customer
/// of these names.
fn is_between(network: &Network, from: Option<&str>, to: Option<&str>, lane: Lane) -> bool
    requires lane { IsLane network.now lane }
    ensures { result ≡ is_between (name_of from.entry) (name_of to.entry) network.now lane }
{
    lane.kind == LaneKind::Schedule
        && is_asked(from, network.plant_name(lane.supplier()))
        && is_asked(to, network.plant_name(lane.customer()))
}

/// Whether it is the name that is asked for. Where none is asked for every name is.
fn is_asked(asked: Option<&str>, name: &str) -> bool
    ensures { result ≡ is_asked_for (name_of asked.entry) name.now }
{
    match asked {
        None => true,
        Some(asked) => is_same_text(asked, name),
    }
}

/// Adds the rows of the items of a schedule lane.
fn put_items(
    rows: &mut Writer<Vec<u8>>,
    lines: &mut Vec<ScheduleLine>,
    report: &ScheduleReport<'_>,
    lane: LaneNo,
) -> Result<(), ReportFault>
    requires between { IsBetweenRows rows.old }
    requires fits { Fits report.now.net.now.network report.now.plan.now }
    requires dates { report.now.dates.now ≡ dates_of report.now.net.now.network.calendar }
    requires lane { lane.0 < length (lanes report.now.net.now.network) }
    requires schedule { (lane_at report.now.net.now.network lane.0).kind ≡ Schedule }
    ensures rows { OnOk result (written rows.new ≡ written rows.old
        ++ lane_schedule_text report.now.net.now.network (lane_at report.now.net.now.network lane.0)) }
    ensures between { OnOk result (IsBetweenRows rows.new) }
    ensures fault { IfErr result (λ fault. fault ≡ ReportFault.Memory) }
{
    let items = report.net.network().lane_items(lane);
    'items: for item in items {
        put_item(rows, lines, report, lane, *item)?;
    }
    Ok(())
}

/// Adds the rows of the schedule of an item of a schedule lane.
fn put_item(
    rows: &mut Writer<Vec<u8>>,
    lines: &mut Vec<ScheduleLine>,
    report: &ScheduleReport<'_>,
    lane: LaneNo,
    item: ItemNo,
) -> Result<(), ReportFault>
    requires between { IsBetweenRows rows.old }
    requires fits { Fits report.now.net.now.network report.now.plan.now }
    requires dates { report.now.dates.now ≡ dates_of report.now.net.now.network.calendar }
    requires lane { lane.0 < length (lanes report.now.net.now.network) }
    requires schedule { (lane_at report.now.net.now.network lane.0).kind ≡ Schedule }
    requires item { Contains (lane_items report.now.net.now.network (lane_at report.now.net.now.network lane.0)) item }
    ensures rows { OnOk result (written rows.new ≡ written rows.old
        ++ item_text report.now.net.now.network (lane_at report.now.net.now.network lane.0) item) }
    ensures between { OnOk result (IsBetweenRows rows.new) }
    ensures fault { IfErr result (λ fault. fault ≡ ReportFault.Memory) }
{
    lines.clear();
    let Ok(()) = add_schedule(lines, report.net, report.plan, lane, item) else {
        return Err(ReportFault::Memory);
    };
    let network = report.net.network();
    let route = network.lane(lane);
    let supplier = network.plant_name(route.supplier());
    let common = rows_of(network, supplier, route.customer(), item, report.dates);
    put_lines(rows, &common, lines.as_slice())
}

/// Adds the rows of all vendors whose schedules are asked for. The list is room for one schedule.
fn put_vendors(
    rows: &mut Writer<Vec<u8>>,
    schedule: &mut Vec<ScheduleLine>,
    report: &ScheduleReport<'_>,
) -> Result<(), ReportFault>
    requires between { IsBetweenRows rows.old }
    requires fits { Fits report.now.net.now.network report.now.plan.now }
    requires dates { report.now.dates.now ≡ dates_of report.now.net.now.network.calendar }
    ensures rows { OnOk result (written rows.new ≡ written rows.old
        ++ vendors_text (name_of report.now.from) (name_of report.now.to) report.now.net.now.network) }
    ensures between { OnOk result (IsBetweenRows rows.new) }
    ensures fault { IfErr result (λ fault. fault ≡ ReportFault.Memory) }
{
    let vendors = report.net.network().vendors();
    'vendors: for vendor in vendors {
        put_vendor(rows, schedule, report, vendor)?;
    }
    Ok(())
}

/// Adds the rows of the schedule of a vendor, if it is asked for.
fn put_vendor(
    rows: &mut Writer<Vec<u8>>,
    schedule: &mut Vec<ScheduleLine>,
    report: &ScheduleReport<'_>,
    vendor: &VendorRow,
) -> Result<(), ReportFault>
    requires between { IsBetweenRows rows.old }
    requires fits { Fits report.now.net.now.network report.now.plan.now }
    requires dates { report.now.dates.now ≡ dates_of report.now.net.now.network.calendar }
    requires vendor { Contains report.now.net.now.network.vendors (vendor_of vendor.now) }
    ensures rows { OnOk result (written rows.new ≡ written rows.old
        ++ asked_vendor_text (name_of report.now.from) (name_of report.now.to) report.now.net.now.network
        (vendor_of vendor.now)) }
    ensures between { OnOk result (IsBetweenRows rows.new) }
    ensures fault { IfErr result (λ fault. fault ≡ ReportFault.Memory) }
{
    let network = report.net.network();
    if is_vendor_to(network, report.from, report.to, vendor) {
        put_vendor_lines(rows, schedule, report, vendor)
    } else {
        Ok(())
    }
}

/// Whether the schedule of a vendor is asked for: it has the supplier's name, and its plant the customer's.
fn is_vendor_to(network: &Network, from: Option<&str>, to: Option<&str>, vendor: &VendorRow) -> bool
    requires table { IsTable network.now }
    requires vendor { Contains network.now.vendors (vendor_of vendor.now) }
    ensures { result ≡ is_vendor_to (name_of from.entry) (name_of to.entry) network.now (vendor_of vendor.now) }
{
    let pair = network.pair(vendor.pair);
    is_asked(from, vendor.name.as_str()) && is_asked(to, network.plant_name(pair.plant))
}

/// Adds the rows of the schedule of a vendor.
fn put_vendor_lines(
    rows: &mut Writer<Vec<u8>>,
    schedule: &mut Vec<ScheduleLine>,
    report: &ScheduleReport<'_>,
    vendor: &VendorRow,
) -> Result<(), ReportFault>
    requires between { IsBetweenRows rows.old }
    requires fits { Fits report.now.net.now.network report.now.plan.now }
    requires dates { report.now.dates.now ≡ dates_of report.now.net.now.network.calendar }
    requires vendor { Contains report.now.net.now.network.vendors (vendor_of vendor.now) }
    ensures rows { OnOk result (written rows.new ≡ written rows.old
        ++ vendor_text report.now.net.now.network (vendor_of vendor.now)) }
    ensures between { OnOk result (IsBetweenRows rows.new) }
    ensures fault { IfErr result (λ fault. fault ≡ ReportFault.Memory) }
{
    schedule.clear();
    let Ok(()) = add_vendor_schedule(schedule, report.net, report.plan, vendor) else {
        return Err(ReportFault::Memory);
    };
    let network = report.net.network();
    let pair = network.pair(vendor.pair);
    let common = rows_of(
        network,
        vendor.name.as_str(),
        pair.plant,
        pair.item,
        report.dates,
    );
    put_lines(rows, &common, schedule.as_slice())
}

/// What the rows of a schedule have in common: the supplier of that name, the customer and the item.
fn rows_of<'a>(
    network: &'a Network,
    supplier: &'a str,
    customer: PlantNo,
    item: ItemNo,
    dates: &'a [[u8; 10]],
) -> ItemRows<'a>
    requires customer { customer.0 < length network.now.plants }
    requires item { item.0 < length network.now.items }
    requires dates { dates.now ≡ dates_of network.now.calendar }
    ensures { AreRowsOf network.now supplier.now customer.0 item.0 result }
{
    ItemRows {
        supplier,
        customer: network.plant_name(customer),
        item: network.item_name(item),
        dates,
    }
}

/// Adds the rows of the lines of a schedule.
fn put_lines(
    rows: &mut Writer<Vec<u8>>,
    common: &ItemRows<'_>,
    lines: &[ScheduleLine],
) -> Result<(), ReportFault>
    requires between { IsBetweenRows rows.old }
    requires periods { All (IsLineWithin (length common.now.dates.now)) lines.now }
    ensures rows { OnOk result (written rows.new ≡ written rows.old ++ flat_map (item_row common.now) lines.now) }
    ensures between { OnOk result (IsBetweenRows rows.new) }
    ensures fault { IfErr result (λ fault. fault ≡ ReportFault.Memory) }
{
    'lines: for line in lines {
        put_line(rows, common, *line)?;
    }
    Ok(())
}

/// Adds the row of a line.
fn put_line(
    rows: &mut Writer<Vec<u8>>,
    common: &ItemRows<'_>,
    line: ScheduleLine,
) -> Result<(), ReportFault>
    requires between { IsBetweenRows rows.old }
    requires period { IsLineWithin (length common.now.dates.now) line }
    ensures row { OnOk result (written rows.new ≡ written rows.old ++ item_row common.now line) }
    ensures between { OnOk result (IsBetweenRows rows.new) }
    ensures fault { IfErr result (λ fault. fault ≡ ReportFault.Memory) }
{
    match line {
        ScheduleLine::Opening { transit, figure } => {
            put_kind_row(rows, common, b"opening", None, Some(transit.get()), figure)
        }
        ScheduleLine::Call {
            period,
            quantity,
            cumulative: figure,
        } => {
            let period = Some(period as usize);
            put_kind_row(rows, common, b"call", period, Some(quantity.get()), figure)
        }
        ScheduleLine::Reset { period, closed } => {
            put_kind_row(rows, common, b"reset", Some(period as usize), None, closed)
        }
    }
}

/// Adds a row of that kind, whose period, date and quantity are empty where it has none.
fn put_kind_row(
    rows: &mut Writer<Vec<u8>>,
    common: &ItemRows<'_>,
    kind: &[u8],
    period: Option<usize>,
    pieces: Option<u64>,
    figure: Qty,
) -> Result<(), ReportFault>
    requires between { IsBetweenRows rows.old }
    requires period { IfSome period (λ t. t < length common.now.dates.now) }
    ensures row { OnOk result (written rows.new ≡ written rows.old
        ++ kind_row common.now kind.now period pieces figure) }
    ensures between { OnOk result (IsBetweenRows rows.new) }
    ensures fault { IfErr result (λ fault. fault ≡ ReportFault.Memory) }
{
    let mut number = Buffer::new();
    let mut quantity = Buffer::new();
    let mut cumulative = Buffer::new();
    put_row(
        rows,
        &[
            b"schedule",
            kind,
            common.supplier.as_bytes(),
            common.customer.as_bytes(),
            common.item.as_bytes(),
            number_if_any(&mut number, period),
            date_if_any(common.dates, period),
            number_if_any(&mut quantity, pieces),
            cumulative.format(figure.get()).as_bytes(),
        ],
    )
}
