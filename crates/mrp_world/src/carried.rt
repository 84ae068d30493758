//! The world: what a lane carries of an item, by the plan, which is what the world's run ends with.
ghost use Rattle.std.specs.Prelude.{◌≡◌, ◌<◌, ◌≤◌, Contains, length, slice_index};
ghost use Rattle.mrp_qty.specs.declared.quantity.TheConstants.{MOST};
ghost use Rattle.mrp_master_data.specs.Table.{IsPair, horizon};
ghost use Rattle.mrp_net.specs.Lanes.{lanes, lane_at, lane_items};
ghost use Rattle.mrp_net.specs.Plan.{plan_of};
ghost use Rattle.mrp_net.specs.PlanLaws.{Fits};
ghost use Rattle.mrp_net.specs.Shares.{share_of};
ghost use Rattle.mrp_loops.specs.Sized.{IsSized};
ghost use Rattle.mrp_record.specs.Text.{total};
ghost use Rattle.mrp_protocol.specs.Loads.{by_period, called_in, load_of};

use mrp_net::{ItemNo, LaneKind, LaneNo, Network, SourceRow, share_of};
use mrp_plan::Plan;
use mrp_qty::Row;

/// How many lines a lane carries of an item, and the pieces of all of them.
#[derive(Clone, Copy)]
pub(crate) struct Carried {
    pub(crate) lines: u64,
    pub(crate) pieces: u64,
}

/// What a lane carries of an item: a line for each shipment on its way, or for each period in which its source is
/// called for something.
pub(crate) fn carried_on(network: &Network, plan: &Plan, lane: LaneNo, item: ItemNo) -> Carried
    requires sized { IsSized network.now }
    requires fits { Fits network.now plan.now }
    requires plan { plan.now ≡ plan_of network.now }
    requires lane { lane.0 < length (lanes network.now) }
    requires item { Contains (lane_items network.now (lane_at network.now lane.0)) item }
    ensures lines { result.lines ≡ length (load_of network.now (lane_at network.now lane.0) item).lines }
    ensures pieces { result.pieces ≡ total (load_of network.now (lane_at network.now lane.0) item).lines }
{
    match network.lane(lane).kind {
        LaneKind::Despatch => Carried {
            lines: network.shipments(lane, item).len() as u64,
            pieces: network.shipped(lane, item),
        },
        LaneKind::Schedule => called(network, plan, network.lane_source(lane, item)),
    }
}

/// What a source is called for by the plan, together at most 10^15 pieces.
fn called(network: &Network, plan: &Plan, source: SourceRow) -> Carried
    requires fits { Fits network.now plan.now }
    requires plan { plan.now ≡ plan_of network.now }
    requires pair { IsPair network.now source.pair.0 }
    requires rises { source.low ≤ source.high }
    requires ends { source.high ≤ 1000 }
    requires within { total (by_period (called_in network.now source) (horizon network.now)) ≤ MOST }
    ensures lines { result.lines ≡ length (by_period (called_in network.now source) (horizon network.now)) }
    ensures pieces { result.pieces ≡ total (by_period (called_in network.now source) (horizon network.now)) }
{
    let of_pair = plan.pair(source.pair);
    let _periods = of_pair.len();
    called_by(source, of_pair.release())
}

/// What a source is called for by a row of releases, together at most 10^15 pieces.
fn called_by(source: SourceRow, release: &Row) -> Carried
    requires rises { source.low ≤ source.high }
    requires ends { source.high ≤ 1000 }
    requires within { total (by_period (λ t. share_of source.low source.high (slice_index release.now t))
        (length release.now)) ≤ MOST }
    ensures lines { result.lines ≡ length (by_period (λ t. share_of source.low source.high (slice_index release.now t))
        (length release.now)) }
    ensures pieces { result.pieces ≡ total (by_period (λ t. share_of source.low source.high
        (slice_index release.now t)) (length release.now)) }
{
    let mut lines = 0;
    let mut pieces = 0;
    for period in 0..release.len() {
        let share = share_of(source.low, source.high, release.get(period).get());
        if share > 0 {
            lines += 1;
            pieces += share;
        }
    }
    Carried { lines, pieces }
}
