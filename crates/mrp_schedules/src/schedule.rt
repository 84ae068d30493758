//! Delivery schedules: that of an item of a lane, and that of a vendor.

ghost use Rattle.std.specs.Prelude.{◌≡◌, ◌+◌, ◌<◌, ◌≤◌, ◌++◌, IfOk, IfErr, IsOk, Contains, length, vec_capacity};
ghost use Rattle.mrp_net.specs.declared.lane.LaneKind.TheVariants.{Schedule};
ghost use Rattle.mrp_net.specs.Lanes.{lanes, lane_at, lane_items, opening};
ghost use Rattle.mrp_net.specs.PlanLaws.{Fits};
ghost use Rattle.mrp_master_data.specs.Rows.{vendor_of};
ghost use Rattle.mrp_master_data.specs.Table.{horizon};
ghost use Rattle.mrp_loops.specs.Sized.{IsSized};
ghost use Rattle.mrp_schedules.specs.declared.line.ScheduleLine.TheVariants.{Opening};
ghost use Rattle.mrp_schedules.specs.Schedule.{in_transit, schedule_of};
ghost use Rattle.mrp_schedules.specs.Vendors.{vendor_schedule};

use crate::ScheduleLine;
use crate::calls::add_calls;
use mrp_loops::SizedNet;
use mrp_net::{ItemNo, LaneNo, Network, VendorRow};
use mrp_plan::Plan;
use mrp_qty::{Memory, Qty};

/// Appends the delivery schedule of an item of a schedule lane to a list: its opening, its calls by a plan that
/// fits the network, in rising periods, and its reset before the first call that is counted anew, or behind
/// all calls where there is none.
///
/// Where the list has room for two lines more than there are periods it is never refused. No room of the list
/// is given back.
///
/// # Errors
///
/// [`Memory`] where the list hasn't that room and growing is refused; it is as it was then.
pub fn add_schedule(
    lines: &mut Vec<ScheduleLine>,
    net: &SizedNet,
    plan: &Plan,
    lane: LaneNo,
    item: ItemNo,
) -> Result<(), Memory>
    requires fits { Fits net.now.network plan.now }
    requires lane { lane.0 < length (lanes net.now.network) }
    requires schedule { (lane_at net.now.network lane.0).kind ≡ Schedule }
    requires item { Contains (lane_items net.now.network (lane_at net.now.network lane.0)) item }
    ensures lines { IfOk result (λ _. lines.new.items ≡ lines.old.items
        ++ schedule_of net.now.network (lane_at net.now.network lane.0) item) }
    ensures refused { IfErr result (λ _. lines.new.items ≡ lines.old.items) }
    ensures room { length lines.old.items + horizon net.now.network + 2 ≤ vec_capacity lines.old → IsOk result }
    ensures capacity { vec_capacity lines.old ≤ vec_capacity lines.new }
{
    let network = net.network();
    make_room(lines, network)?;
    add_lines(lines, network, plan, lane, item);
    Ok(())
}

/// Makes room in a list for one more schedule, whose lines are at most two more than there are periods. Where the
/// room is refused the list is as it was.
fn make_room(lines: &mut Vec<ScheduleLine>, network: &Network) -> Result<(), Memory>
    ensures kept { lines.new.items ≡ lines.old.items }
    ensures room { IfOk result (λ _. length lines.new.items + horizon network.now + 2 ≤ vec_capacity lines.new) }
    ensures needless { length lines.old.items + horizon network.now + 2 ≤ vec_capacity lines.old → IsOk result }
    ensures capacity { vec_capacity lines.old ≤ vec_capacity lines.new }
{
    let periods = network.horizon().get() as usize;
    lines.reserve(periods + 2)?;
    Ok(())
}

/// Appends the delivery schedule of an item of a schedule lane to a list that has room for it.
fn add_lines(
    lines: &mut Vec<ScheduleLine>,
    network: &Network,
    plan: &Plan,
    lane: LaneNo,
    item: ItemNo,
)
    requires sized { IsSized network.now }
    requires fits { Fits network.now plan.now }
    requires lane { lane.0 < length (lanes network.now) }
    requires schedule { (lane_at network.now lane.0).kind ≡ Schedule }
    requires item { Contains (lane_items network.now (lane_at network.now lane.0)) item }
    requires room { length lines.old.items + horizon network.now + 2 ≤ vec_capacity lines.old }
    ensures lines { lines.new.items ≡ lines.old.items ++ schedule_of network.now (lane_at network.now lane.0) item }
    ensures capacity { vec_capacity lines.new ≡ vec_capacity lines.old }
{
    let source = network.lane_source(lane, item);
    let release = plan.pair(source.pair).release();
    lines.push_reserved(opening_line(network, lane, item));
    let figure = network.opening(lane, item);
    let reset = network.reset(lane, item);
    add_calls(lines, source.low, source.high, release, reset, figure);
}

/// Where the schedule of an item begins.
fn opening_line(network: &Network, lane: LaneNo, item: ItemNo) -> ScheduleLine
    requires sized { IsSized network.now }
    requires lane { lane.0 < length (lanes network.now) }
    requires schedule { (lane_at network.now lane.0).kind ≡ Schedule }
    requires item { Contains (lane_items network.now (lane_at network.now lane.0)) item }
    ensures { result ≡ Opening (in_transit network.now (lane_at network.now lane.0) item)
        (opening network.now (lane_at network.now lane.0) item) }
{
    let figure = network.opening(lane, item);
    let before = network.figure(lane, item);
    ScheduleLine::Opening {
        transit: Qty::of(figure - before),
        figure: Qty::of(figure),
    }
}

/// Appends the delivery schedule of a vendor to a list: its opening, a call for what a plan that fits the network
/// releases of its pair in each period, and its reset before the first call that is counted anew, or behind all calls
/// where there is none.
///
/// Where the list has room for two lines more than there are periods it is never refused. No room of the list
/// is given back.
///
/// # Errors
///
/// [`Memory`] where the list hasn't that room and growing is refused; it is as it was then.
pub fn add_vendor_schedule(
    lines: &mut Vec<ScheduleLine>,
    net: &SizedNet,
    plan: &Plan,
    vendor: &VendorRow,
) -> Result<(), Memory>
    requires fits { Fits net.now.network plan.now }
    requires vendor { Contains net.now.network.vendors (vendor_of vendor.now) }
    ensures lines { IfOk result (λ _. lines.new.items ≡ lines.old.items
        ++ vendor_schedule net.now.network (vendor_of vendor.now)) }
    ensures refused { IfErr result (λ _. lines.new.items ≡ lines.old.items) }
    ensures room { length lines.old.items + horizon net.now.network + 2 ≤ vec_capacity lines.old → IsOk result }
    ensures capacity { vec_capacity lines.old ≤ vec_capacity lines.new }
{
    let network = net.network();
    make_room(lines, network)?;
    add_vendor_lines(lines, network, plan, vendor);
    Ok(())
}

/// Appends the delivery schedule of a vendor to a list that has room for it.
fn add_vendor_lines(
    lines: &mut Vec<ScheduleLine>,
    network: &Network,
    plan: &Plan,
    vendor: &VendorRow,
)
    requires sized { IsSized network.now }
    requires fits { Fits network.now plan.now }
    requires vendor { Contains network.now.vendors (vendor_of vendor.now) }
    requires room { length lines.old.items + horizon network.now + 2 ≤ vec_capacity lines.old }
    ensures lines { lines.new.items ≡ lines.old.items ++ vendor_schedule network.now (vendor_of vendor.now) }
    ensures capacity { vec_capacity lines.new ≡ vec_capacity lines.old }
{
    let release = plan.pair(vendor.pair).release();
    let opening = vendor.figure.get() + vendor.transit.get();
    lines.push_reserved(ScheduleLine::Opening {
        transit: vendor.transit,
        figure: Qty::of(opening),
    });
    add_calls(lines, 0, 1000, release, reset_of(vendor), opening);
}

/// The period from which the figures of a vendor start anew, if they do.
fn reset_of(vendor: &VendorRow) -> Option<u64>
    ensures { result ≡ vendor.now.reset }
{
    match vendor.reset {
        Some(period) => Some(period as u64),
        None => None,
    }
}
