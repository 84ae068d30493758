//! Tests of runs: what they come to, for many numbers of workers and rooms of mailboxes, the plan of the network, and
//! lanes that carried their whole texts.

ghost use Rattle.std.specs.Prelude.{◌≡◌, length};

use super::trials::{Trial, holds_of};
use crate::{
    COUNTED_SOONER_ENDING, COVERED_ENDING, Ending, FENCED_ENDING, FIVE_ARTICLES_BY_POLICY_ENDING,
    FOUR_PLANTS_BY_POLICY_ENDING, FOUR_PLANTS_ENDING, IDLE_RING_ENDING, LONG_RING_ENDING,
    NO_LANES_ENDING, NO_PLANTS_ENDING, ONE_SHARED_ENDING, RESET_AT_RELEASE_ENDING,
    RESET_LATER_ENDING, RING_ENDING, ROUNDED_UP_ENDING, SHARED_AFTER_SHIPMENT_ENDING,
    SHARED_ENDING, TWO_CUSTOMERS_ENDING, TWO_PLANTS_ENDING, TWO_SHIPMENTS_ENDING,
    USED_BY_PERIOD_ENDING, has_pieces, is_same_plan,
};
use mrp_book::LaneFigure;
use mrp_loops::SizedNet;
use mrp_net::{Network, PairNo};
use mrp_netting::PairPlan;
use mrp_plan::{Plan, plan_all};
use mrp_run::{NoGate, Outcome, Reconciled, Settings, run_network};
use std::alloc::Global;
use std::sync::Wait;
use std::test::Fail;
use std::thread::Threads;

/// How many workers a plant has, and for how many records a mailbox has room.
const SETTINGS: [(u64, u64); 12] = [
    (1, 1),
    (1, 2),
    (1, 64),
    (2, 1),
    (2, 2),
    (2, 64),
    (3, 1),
    (3, 2),
    (3, 64),
    (2, 65_536),
    (64, 1),
    (64, 65_536),
];

/// Whether there is a plan of each pair, which is that of the whole network.
fn are_of_the_network(plans: &[PairPlan], network: &Network, whole: &Plan) -> bool
    requires pairs { length whole.now ≡ length network.now.pairs }
{
    if plans.len() != network.pairs() {
        return false;
    }
    for x in 0..network.pairs() {
        if !is_same_plan(&plans[x], whole.pair(PairNo(x))) {
            return false;
        }
    }
    true
}

/// Whether the plans have these orders.
fn have_orders(plans: &[PairPlan], orders: &[&[u64]]) -> bool {
    plans.len() == orders.len()
        && plans
            .iter()
            .zip(orders)
            .all(|(plan, pieces)| has_pieces(plan.order(), *pieces))
}

/// Whether of each item as much is shipped as is received, and the figures are these.
fn are_settled(figures: &[LaneFigure], wanted: &[(u64, u64)]) -> bool {
    figures.len() == wanted.len()
        && figures.iter().zip(wanted).all(|(figure, (opening, end))| {
            figure.opening.get() == *opening
                && figure.shipped.get() == *end
                && figure.received.get() == *end
        })
}

/// Whether a lane of that number carried so many records with these figures, and nothing is left.
fn is_carried(lane: &Reconciled, number: usize, records: u64, figures: &[(u64, u64)]) -> bool {
    lane.lane().0 == number
        && lane.sent() == records
        && lane.taken() == records
        && lane.left().is_empty()
        && are_settled(lane.figures(), figures)
}

/// Whether the lanes, in lane order, carried what the ending says.
fn are_carried(lanes: &[Reconciled], ending: &Ending) -> bool {
    if lanes.len() != ending.records.len() || lanes.len() != ending.figures.len() {
        return false;
    }
    for l in 0..lanes.len() {
        if !is_carried(&lanes[l], l, ending.records[l], ending.figures[l]) {
            return false;
        }
    }
    true
}

/// Whether an outcome is this ending, and its plans are those of the whole network.
pub(super) fn is_ending(outcome: &Outcome, network: &Network, whole: &Plan, ending: &Ending) -> bool
    requires pairs { length whole.now ≡ length network.now.pairs }
{
    are_of_the_network(outcome.plans.as_slice(), network, whole)
        && have_orders(outcome.plans.as_slice(), ending.orders)
        && are_carried(outcome.lanes.as_slice(), ending)
}

/// Whether a run with so many workers and so much room ends so.
fn ends_with<R: Threads + Wait + Sync>(
    rt: &R,
    alloc: Global,
    net: &SizedNet,
    whole: &Plan,
    workers: u64,
    capacity: u64,
    ending: &Ending,
) -> Result<bool, Fail>
    requires pairs { length whole.now ≡ length net.now.network.pairs }
{
    let Some(settings) = Settings::new(workers, capacity) else {
        return Ok(false);
    };
    let outcome = run_network(rt, alloc, net, settings, &NoGate)?;
    Ok(is_ending(&outcome, net.network(), whole, ending))
}

/// Whether a run with any of the settings ends so.
fn each_ends<R: Threads + Wait + Sync>(
    rt: &R,
    alloc: Global,
    net: &SizedNet,
    whole: &Plan,
    ending: &Ending,
) -> Result<bool, Fail>
    requires pairs { length whole.now ≡ length net.now.network.pairs }
{
    for (workers, capacity) in SETTINGS {
        if !ends_with(rt, alloc, net, whole, workers, capacity, ending)? {
            return Ok(false);
        }
    }
    Ok(true)
}

/// The same, by the plan of the network.
pub(super) fn all_end<R: Threads + Wait + Sync>(
    rt: &R,
    alloc: Global,
    net: &SizedNet,
    ending: &Ending,
) -> Result<bool, Fail> {
    let whole = plan_all(alloc, net)?;
    each_ends(rt, alloc, net, &whole, ending)
}

/// Whether all runs of the ending's table end so.
fn ends<R: Threads + Wait + Sync>(rt: &R, alloc: Global, ending: &Ending) -> Result<bool, Fail> {
    holds_of(rt, alloc, ending.table, Trial::Ends(ending), &NoGate)
}

/// The endings that every run of their tables comes to.
const ENDINGS: &[Ending] = &[
    TWO_PLANTS_ENDING,
    TWO_SHIPMENTS_ENDING,
    RING_ENDING,
    IDLE_RING_ENDING,
    LONG_RING_ENDING,
    TWO_CUSTOMERS_ENDING,
    SHARED_ENDING,
    ONE_SHARED_ENDING,
    SHARED_AFTER_SHIPMENT_ENDING,
    FOUR_PLANTS_ENDING,
    NO_LANES_ENDING,
    NO_PLANTS_ENDING,
    RESET_LATER_ENDING,
    RESET_AT_RELEASE_ENDING,
];

/// The same of tables with policies or usages.
const ENDINGS_WITH_POLICIES: &[Ending] = &[
    COUNTED_SOONER_ENDING,
    FENCED_ENDING,
    COVERED_ENDING,
    ROUNDED_UP_ENDING,
    USED_BY_PERIOD_ENDING,
    FOUR_PLANTS_BY_POLICY_ENDING,
    FIVE_ARTICLES_BY_POLICY_ENDING,
];

#[test]
fn runs_come_to_their_endings(rt: HostRuntime) -> Result<(), Fail> {
    for ending in ENDINGS {
        assert!(&rt; ends(&rt, rt.alloc(), ending)?, "{}", ending.table);
    }
    Ok(())
}

#[test]
fn runs_with_policies_come_to_their_endings(rt: HostRuntime) -> Result<(), Fail> {
    for ending in ENDINGS_WITH_POLICIES {
        assert!(&rt; ends(&rt, rt.alloc(), ending)?, "{}", ending.table);
    }
    Ok(())
}
