//! The world: the cumulative figures of the lanes at the end of every run of it, by the plan.
ghost use Rattle.std.specs.Prelude.{◌≡◌, ◌<◌, ◌++◌, All, Contains, IfOk, OnOk, length};
ghost use Rattle.mrp_net.specs.Lanes.{lanes, lane_at, lane_items};
ghost use Rattle.mrp_net.specs.Plan.{plan_of};
ghost use Rattle.mrp_net.specs.PlanLaws.{Fits};
ghost use Rattle.mrp_loops.specs.Sized.{IsSized};
ghost use Rattle.mrp_world.specs.Figures.{last_figures, last_on, settled_figure};
ghost use Rattle.mrp_book.specs.LaneFigures.{IsLaneFigure};

use crate::carried::{Carried, carried_on};
use mrp_book::LaneFigure;
use mrp_loops::SizedNet;
use mrp_net::{ItemNo, LaneNo, Network};
use mrp_plan::Plan;
use mrp_qty::{Memory, Qty};
use std::alloc::Global;

/// The cumulative figures of each item of each lane once all is shipped and received, by lane, then lane item: those
/// that [`World::figures`](crate::World::figures) answers of each finished world, by a plan that fits the network and
/// without a world.
///
/// # Errors
///
/// [`Memory`] where a growth is refused.
pub fn last_figures(
    alloc: Global,
    net: &SizedNet<'_>,
    plan: &Plan,
) -> Result<Vec<LaneFigure>, Memory>
    requires { Fits net.now.network plan.now }
    ensures figures { IfOk result (λ figures. figures.items ≡ last_figures net.now.network) }
    ensures lanes { IfOk result (λ figures. All (IsLaneFigure net.now.network) figures.items) }
{
    let network = net.network();
    let mut figures = Vec::new(alloc);
    for l in 0..network.lanes() {
        add_lane(&mut figures, network, plan, LaneNo(l))?;
    }
    Ok(figures)
}

/// Adds the figures of the lane's items.
fn add_lane(
    figures: &mut Vec<LaneFigure>,
    network: &Network,
    plan: &Plan,
    lane: LaneNo,
) -> Result<(), Memory>
    requires sized { IsSized network.now }
    requires fits { Fits network.now plan.now }
    requires plan { plan.now ≡ plan_of network.now }
    requires lane { lane.0 < length (lanes network.now) }
    ensures { OnOk result (figures.new.items ≡ figures.old.items ++ last_on network.now lane.0) }
{
    for item in network.lane_items(lane) {
        figures.push(settled_figure(network, plan, lane, *item))?;
    }
    Ok(())
}

/// The figures of an item of a lane that has carried all.
fn settled_figure(network: &Network, plan: &Plan, lane: LaneNo, item: ItemNo) -> LaneFigure
    requires sized { IsSized network.now }
    requires fits { Fits network.now plan.now }
    requires plan { plan.now ≡ plan_of network.now }
    requires lane { lane.0 < length (lanes network.now) }
    requires item { Contains (lane_items network.now (lane_at network.now lane.0)) item }
    ensures { result ≡ settled_figure network.now lane.0 item }
{
    let opening = network.opening(lane, item);
    let Carried { pieces, .. } = carried_on(network, plan, lane, item);
    let last = Qty::of(opening + pieces);
    LaneFigure {
        lane,
        item,
        opening: Qty::of(opening),
        shipped: last,
        received: last,
    }
}
