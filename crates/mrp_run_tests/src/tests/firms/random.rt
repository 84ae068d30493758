//! Tests of runs: firms of several plants by events in random order, enabled or not.

ghost use Rattle.std.specs.Prelude.{◌≡◌, length};

use super::trials::{Trial, holds_of};
use super::{are_received, follows, is_at_the_end, is_planned_whole};
use crate::{
    COUNTED_SOONER, COVERED, FENCED, FOUR_PLANTS, FOUR_PLANTS_BY_POLICY, RESET_AT_RELEASE,
    RESET_LATER, RING, ROUNDED_UP, SHARED_AFTER_SHIPMENT, USED_BY_PERIOD,
};
use mrp_book::LaneFigure;
use mrp_loops::SizedNet;
use mrp_net::{LaneNo, Network, PairNo};
use mrp_plan::{Plan, plan_all};
use mrp_world::{Event, Firm, MOST_ROOM};
use std::alloc::Global;
use std::test::Fail;

/// How many orders of events each table is tried with, at each of three capacities.
const ORDERS: u64 = 300;

/// The same of each table with policies, which has more receipts and firm orders to look through.
const ORDERS_WITH_POLICIES: u64 = 100;

/// Numbers in an order that looks random, from a linear congruential generator.
#[derive(Drop)]
struct Dice {
    state: u64,
}

impl Dice {
    /// A number below `sides`, or 0 where there are none.
    fn roll(&mut self, sides: u64) -> u64 {
        self.state = self
            .state
            .wrapping_mul(6_364_136_223_846_793_005)
            .wrapping_add(1_442_695_040_888_963_407);
        if sides == 0 {
            return 0;
        }
        (self.state >> 33) % sides
    }
}

/// An event of the firm, or one of a lane or pair past its last.
fn any_event(dice: &mut Dice, network: &Network) -> Event {
    let lane = dice.roll(network.lanes() as u64 | 1) as usize;
    let pair = dice.roll(network.pairs() as u64 | 1) as usize;
    match dice.roll(5) {
        0 | 1 => Event::Send(LaneNo(lane)),
        2 | 3 => Event::Receive(LaneNo(lane)),
        _ => Event::Plan(PairNo(pair)),
    }
}

/// Whether no more is received than was shipped, and nothing that was shipped or received before is
/// taken back.
fn are_figures_after(figures: &[LaneFigure], before: &[LaneFigure]) -> bool {
    figures.len() == before.len()
        && figures.iter().zip(before).all(|(now, old)| {
            now.opening.get() == old.opening.get()
                && old.shipped.get() <= now.shipped.get()
                && old.received.get() <= now.received.get()
                && now.opening.get() <= now.received.get()
                && now.received.get() <= now.shipped.get()
        })
}

/// Whether the event takes one step or none, as the firm answers, and an event that is enabled is
/// known as long as steps are left.
fn counts(firm: &mut Firm, event: Event) -> bool
    ensures network { firm.new.network ≡ firm.old.network }
{
    let before = firm.steps_left();
    let enabled = firm.apply(event);
    let left = firm.steps_left();
    let counted = if enabled {
        left < before && before - left == 1
    } else {
        left == before
    };
    counted && firm.finished() == (left == 0) && firm.enabled().is_none() == (left == 0)
}

/// Whether the laws hold after an event: figures that were `before` have not fallen, and each pair that
/// is planned has its plan. The figures after it are then those before the next.
fn keeps_them(
    alloc: Global,
    network: &Network,
    plan: &Plan,
    firm: &mut Firm,
    event: Event,
    before: &mut Vec<LaneFigure>,
) -> Result<bool, Fail>
    requires network { firm.old.network ≡ network.now }
    requires pairs { length plan.now ≡ length network.now.pairs }
    ensures network { firm.new.network ≡ firm.old.network }
{
    let counted = counts(firm, event);
    let figures = firm.figures(alloc)?;
    let risen = are_figures_after(figures.as_slice(), before.as_slice());
    *before = figures;
    Ok(counted && risen && follows(firm, network, plan))
}

/// Whether the laws hold after each of so many events, where figures were `before` the first.
fn keeps_each(
    alloc: Global,
    network: &Network,
    plan: &Plan,
    firm: &mut Firm,
    seed: u64,
    before: &mut Vec<LaneFigure>,
) -> Result<bool, Fail>
    requires network { firm.old.network ≡ network.now }
    requires pairs { length plan.now ≡ length network.now.pairs }
    ensures network { firm.new.network ≡ firm.old.network }
{
    let mut dice = Dice { state: seed };
    let mut kept = true;
    for _ in 0..150u64 {
        let event = any_event(&mut dice, network);
        kept = keeps_them(alloc, network, plan, firm, event, before)? && kept;
    }
    Ok(kept)
}

/// The same, beginning with the figures that the firm shows.
fn keeps_the_laws(
    alloc: Global,
    network: &Network,
    plan: &Plan,
    firm: &mut Firm,
    seed: u64,
) -> Result<bool, Fail>
    requires network { firm.old.network ≡ network.now }
    requires pairs { length plan.now ≡ length network.now.pairs }
    ensures network { firm.new.network ≡ firm.old.network }
{
    let mut before = firm.figures(alloc)?;
    keeps_each(alloc, network, plan, firm, seed, &mut before)
}

/// Whether the firm has received all that it shipped.
fn has_received_all(alloc: Global, firm: &Firm) -> Result<bool, Fail> {
    let figures = firm.figures(alloc)?;
    Ok(are_received(figures.as_slice()))
}

/// Whether a firm keeps the laws under events in an order that comes from the seed, and is driven
/// from there to its end.
fn keeps_to_the_end(
    alloc: Global,
    network: &Network,
    plan: &Plan,
    firm: &mut Firm,
    seed: u64,
) -> Result<bool, Fail>
    requires network { firm.old.network ≡ network.now }
    requires pairs { length plan.now ≡ length network.now.pairs }
{
    let kept = keeps_the_laws(alloc, network, plan, firm, seed)?;
    firm.drive();
    let received = has_received_all(alloc, firm)?;
    Ok(
        kept && is_at_the_end(firm)
            && received
            && is_planned_whole(firm, network)
            && follows(firm, network, plan),
    )
}

/// The same of a new firm with mailboxes of that room.
fn keeps_on(
    alloc: Global,
    net: &SizedNet,
    plan: &Plan,
    capacity: u64,
    seed: u64,
) -> Result<bool, Fail>
    requires pairs { length plan.now ≡ length net.now.network.pairs }
{
    if capacity == 0 || capacity > MOST_ROOM {
        return Ok(false);
    }
    let mut firm: Firm<'_> = Firm::new(alloc, net, capacity)?;
    keeps_to_the_end(alloc, net.network(), plan, &mut firm, seed)
}

/// Whether that holds for so many orders of events, each at capacity 1, 2 and 64.
fn keep_on_by_plan(alloc: Global, net: &SizedNet, plan: &Plan, lists: u64) -> Result<bool, Fail>
    requires pairs { length plan.now ≡ length net.now.network.pairs }
{
    for seed in 0..lists {
        if !keeps_on(alloc, net, plan, 1, seed)?
            || !keeps_on(alloc, net, plan, 2, seed)?
            || !keeps_on(alloc, net, plan, 64, seed)?
        {
            return Ok(false);
        }
    }
    Ok(true)
}

/// The same, by the plan of the network.
pub(super) fn keep_on(alloc: Global, net: &SizedNet, lists: u64) -> Result<bool, Fail> {
    let plan = plan_all(alloc, net)?;
    keep_on_by_plan(alloc, net, &plan, lists)
}

/// The same of the firm of a table.
fn table_keeps_on(rt: &HostRuntime, table: &str, lists: u64) -> Result<bool, Fail> {
    holds_of(rt.alloc(), table, Trial::KeepsOn(lists))
}

#[test]
fn firms_keep_the_laws_in_any_order(rt: HostRuntime) -> Result<(), Fail> {
    for table in [
        RING,
        SHARED_AFTER_SHIPMENT,
        RESET_LATER,
        RESET_AT_RELEASE,
        USED_BY_PERIOD,
        FOUR_PLANTS,
    ] {
        assert!(rt; table_keeps_on(&rt, table, ORDERS)?, "{table}");
    }
    Ok(())
}

#[test]
fn firms_with_policies_keep_the_laws_in_any_order(rt: HostRuntime) -> Result<(), Fail> {
    for table in [
        COUNTED_SOONER,
        FENCED,
        COVERED,
        ROUNDED_UP,
        FOUR_PLANTS_BY_POLICY,
    ] {
        assert!(rt;
            table_keeps_on(&rt, table, ORDERS_WITH_POLICIES)?,
            "{table}"
        );
    }
    Ok(())
}
