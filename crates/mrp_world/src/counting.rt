//! The world: how many events a whole run of it has.
ghost use Rattle.std.specs.Prelude.{◌≡◌, ◌<◌, Contains, IfOk, length};
ghost use Rattle.mrp_net.specs.Lanes.{lanes, lane_at, lane_items};
ghost use Rattle.mrp_net.specs.Plan.{plan_of};
ghost use Rattle.mrp_net.specs.PlanLaws.{Fits};
ghost use Rattle.mrp_loops.specs.Sized.{IsSized};
ghost use Rattle.mrp_record.specs.Lengths.{block_length, length_of_text};
ghost use Rattle.mrp_protocol.specs.Loads.{load_of, loads};
ghost use Rattle.mrp_protocol.specs.Steps.{steps};

use crate::carried::{Carried, carried_on};
use mrp_loops::SizedNet;
use mrp_net::{ItemNo, LaneNo, Network};
use mrp_plan::{Plan, plan_all};
use mrp_qty::Memory;
use std::alloc::Global;

/// How many events a whole run of a network has: each pair is planned, and each record of each lane is
/// sent and received. The network is planned for it once.
///
/// # Errors
///
/// [`Memory`] where room for the plan is refused.
pub(crate) fn steps(alloc: Global, net: &SizedNet) -> Result<u64, Memory>
    ensures { IfOk result (λ count. count ≡ steps net.now.network) }
{
    let plan = plan_all(alloc, net)?;
    Ok(steps_by(net, &plan))
}

/// How many events a whole run of a network has, by its plan.
fn steps_by(net: &SizedNet, plan: &Plan) -> u64
    requires fits { Fits net.now.network plan.now }
    requires plan { plan.now ≡ plan_of net.now.network }
    ensures { result ≡ steps net.now.network }
{
    let network = net.network();
    let mut records = 0;
    for l in 0..network.lanes() {
        records += text_length(network, plan, LaneNo(l));
    }
    network.pairs() as u64 + 2 * records
}

/// How many records the text of a lane has.
fn text_length(network: &Network, plan: &Plan, lane: LaneNo) -> u64
    requires sized { IsSized network.now }
    requires fits { Fits network.now plan.now }
    requires plan { plan.now ≡ plan_of network.now }
    requires lane { lane.0 < length (lanes network.now) }
    ensures { result ≡ length_of_text (loads network.now (lane_at network.now lane.0)) }
{
    let mut records = 1;
    for item in network.lane_items(lane) {
        records += block_length(network, plan, lane, *item);
    }
    records
}

/// How many records an item's block has: its lines, a reset where its figures start anew, and its end.
fn block_length(network: &Network, plan: &Plan, lane: LaneNo, item: ItemNo) -> u64
    requires sized { IsSized network.now }
    requires fits { Fits network.now plan.now }
    requires plan { plan.now ≡ plan_of network.now }
    requires lane { lane.0 < length (lanes network.now) }
    requires item { Contains (lane_items network.now (lane_at network.now lane.0)) item }
    ensures { result ≡ block_length (load_of network.now (lane_at network.now lane.0) item) }
{
    let Carried { lines, .. } = carried_on(network, plan, lane, item);
    match network.reset(lane, item) {
        Some(_) => lines + 2,
        None => lines + 1,
    }
}
