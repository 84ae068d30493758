//! The report of the plan: its late rows, each planned order that is due before the earliest
//! period in which one can come in.

ghost use Rattle.std.specs.Prelude.{◌≡◌, ◌++◌, Err, OnOk, IfOk, IfErr};
ghost use Rattle.std.specs.List.{flat_map};
ghost use Rattle.mrp_net.specs.PlanLaws.{Fits};
ghost use Rattle.mrp_csv_out.specs.Writing.{IsBetweenRows, written};
ghost use Rattle.mrp_csv_out.specs.Sent.{SendsReport};
ghost use Rattle.mrp_report.specs.Report.{late_text};
ghost use Rattle.mrp_report.specs.Parts.{late_row};

use csv::Writer;
use itoa::Buffer;
use mrp_csv_out::{ReportFault, put_row, room_for, send, text_of};
use mrp_loops::SizedNet;
use mrp_net::PairNo;
use mrp_netting::{Late, PairPlan};
use mrp_plan::Plan;
use std::alloc::Global;
use std::io::Write;

/// The most bytes of a row: the word, two names of 20, a period and a count of periods of 3 digits
/// each, a quantity of 16, the commas and the line feed.
const LONGEST_ROW: usize = 72;

/// Writes a row for each planned order that is late, due before its pair's lead time or planning time fence, pairs in
/// table order and periods in rising order: `late`, plant, item, the period of the order's receipt, its quantity and the
/// missing periods.
///
/// # Errors
///
/// - [`ReportFault::WriteFault`] where a write fails or takes nothing; a prefix of the report is
///   written.
/// - [`ReportFault::Memory`] where the room for the report is refused; nothing is written.
pub fn late_rows<W: Write>(
    alloc: Global,
    net: &SizedNet<'_>,
    plan: &Plan,
    out: &mut W,
) -> Result<(), ReportFault>
    requires fits { Fits net.now.network plan.now }
    ensures text { SendsReport (W.contents out.old) (W.contents out.new) result (late_text net.now.network plan.now) }
    ensures untouched { result ≡ Err ReportFault.Memory → out.new ≡ out.old }
{
    let text = late_text(alloc, net, plan)?;
    send(text.as_slice(), out)
}

/// The late rows as bytes.
fn late_text(alloc: Global, net: &SizedNet<'_>, plan: &Plan) -> Result<Vec<u8>, ReportFault>
    requires fits { Fits net.now.network plan.now }
    ensures text { IfOk result (λ text. text.items ≡ late_text net.now.network plan.now) }
    ensures fault { IfErr result (λ fault. fault ≡ ReportFault.Memory) }
{
    let network = net.network();
    let mut rows = room_for(alloc, late_count(net, plan), LONGEST_ROW)?;
    'pairs: for x in 0..network.pairs() {
        let (plant, item) = network.pair_name(PairNo(x));
        put_orders(&mut rows, plant, item, plan.pair(PairNo(x)))?;
    }
    text_of(rows)
}

/// How many orders are late.
fn late_count(net: &SizedNet<'_>, plan: &Plan) -> usize
    requires fits { Fits net.now.network plan.now }
{
    let mut count: usize = 0;
    'pairs: for x in 0..net.network().pairs() {
        count = count.saturating_add(plan.pair(PairNo(x)).late_count());
    }
    count
}

/// Adds the rows of a pair's late orders.
fn put_orders(
    rows: &mut Writer<Vec<u8>>,
    plant: &str,
    item: &str,
    plan: &PairPlan,
) -> Result<(), ReportFault>
    requires { IsBetweenRows rows.old }
    ensures rows { OnOk result (written rows.new ≡ written rows.old
        ++ flat_map (late_row plant.now item.now) plan.now.late) }
    ensures between { OnOk result (IsBetweenRows rows.new) }
    ensures fault { IfErr result (λ fault. fault ≡ ReportFault.Memory) }
{
    'orders: for i in 0..plan.late_count() {
        put_order(rows, plant, item, plan.late(i))?;
    }
    Ok(())
}

/// Adds the row of a late order.
fn put_order<'a>(
    rows: &mut Writer<Vec<u8>>,
    plant: &'a str,
    item: &'a str,
    late: Late,
) -> Result<(), ReportFault>
    requires { IsBetweenRows rows.old }
    ensures row { OnOk result (written rows.new ≡ written rows.old ++ late_row plant.now item.now late) }
    ensures between { OnOk result (IsBetweenRows rows.new) }
    ensures fault { IfErr result (λ fault. fault ≡ ReportFault.Memory) }
{
    let mut period = Buffer::new();
    let mut quantity = Buffer::new();
    let mut by = Buffer::new();
    put_row(
        rows,
        &[
            b"late",
            plant.as_bytes(),
            item.as_bytes(),
            period.format(late.period).as_bytes(),
            quantity.format(late.quantity.get()).as_bytes(),
            by.format(late.by).as_bytes(),
        ],
    )
}
