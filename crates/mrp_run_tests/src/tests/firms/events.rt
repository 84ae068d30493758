//! Tests of runs: what plants do at each event, and how firms end.

ghost use Rattle.std.specs.Prelude.{◌≡◌, length};

use super::trials::{Trial, holds_of};
use super::{Figures, are_received, follows, is_at_the_end, is_planned_whole, shows};
use crate::{
    COUNTED_SOONER_ENDING, COVERED_ENDING, Ending, FENCED_ENDING, FIVE_ARTICLES_BY_POLICY_ENDING,
    FOUR_PLANTS_BY_POLICY_ENDING, IDLE_RING_ENDING, NO_LANES_ENDING, NO_PLANTS_ENDING, ONE_SHARED,
    ONE_SHARED_ENDING, RESET_AT_RELEASE, RESET_AT_RELEASE_ENDING, RESET_LATER, RESET_LATER_ENDING,
    RING, RING_ENDING, ROUNDED_UP_ENDING, SHARED, SHARED_AFTER_SHIPMENT_ENDING, SHARED_ENDING,
    TWO_CUSTOMERS_ENDING, TWO_PLANTS, TWO_PLANTS_ENDING, TWO_SHIPMENTS_ENDING,
    USED_BY_PERIOD_ENDING, has_pieces,
};
use mrp_book::LaneFigure;
use mrp_loops::SizedNet;
use mrp_net::{LaneNo, Network, PairNo};
use mrp_plan::{Plan, plan_all};
use mrp_world::{Event, Firm, MOST_ROOM};
use std::alloc::Global;
use std::test::Fail;

/// An event, whether it is enabled, and how many steps are left after it.
pub(super) type Tried = (Event, bool, u64);

/// Whether an event is enabled where that is wanted, and leaves so many steps.
fn takes_one(firm: &mut Firm, tried: Tried) -> bool
    ensures network { firm.new.network ≡ firm.old.network }
{
    let (event, enabled, left) = tried;
    let applied = firm.apply(event);
    applied == enabled && firm.steps_left() == left
}

/// The same of each event.
fn takes(firm: &mut Firm, tried: &[Tried]) -> bool
    ensures network { firm.new.network ≡ firm.old.network }
{
    let mut all = true;
    for each in tried {
        all = takes_one(firm, *each) && all;
    }
    all
}

/// Whether the firm takes the events so, shows these figures after them, and has planned no pair
/// otherwise than the network is.
fn takes_them(
    alloc: Global,
    network: &Network,
    whole: &Plan,
    firm: &mut Firm,
    tried: &[Tried],
    figures: &[Figures],
) -> Result<bool, Fail>
    requires network { firm.old.network ≡ network.now }
    requires pairs { length whole.now ≡ length network.now.pairs }
{
    let taken = takes(firm, tried);
    let shown = shows(alloc, firm, figures)?;
    Ok(taken && shown && follows(firm, network, whole))
}

/// The same of a new firm with mailboxes of that room.
fn goes_by_plan(
    alloc: Global,
    net: &SizedNet,
    whole: &Plan,
    capacity: u64,
    tried: &[Tried],
    figures: &[Figures],
) -> Result<bool, Fail>
    requires pairs { length whole.now ≡ length net.now.network.pairs }
{
    if capacity == 0 || capacity > MOST_ROOM {
        return Ok(false);
    }
    let mut firm: Firm<'_> = Firm::new(alloc, net, capacity)?;
    takes_them(alloc, net.network(), whole, &mut firm, tried, figures)
}

/// The same, by the plan of the network.
pub(super) fn goes_so(
    alloc: Global,
    net: &SizedNet,
    capacity: u64,
    tried: &[Tried],
    figures: &[Figures],
) -> Result<bool, Fail> {
    let whole = plan_all(alloc, net)?;
    goes_by_plan(alloc, net, &whole, capacity, tried, figures)
}

/// The same of the firm of a table.
fn goes(
    rt: &HostRuntime,
    table: &str,
    capacity: u64,
    tried: &[Tried],
    figures: &[Figures],
) -> Result<bool, Fail> {
    holds_of(rt.alloc(), table, Trial::Goes(capacity, tried, figures))
}

/// Whether the pair is planned with these orders.
fn has_orders(firm: &Firm, network: &Network, x: usize, orders: &[u64]) -> bool
    requires network { firm.now.network ≡ network.now }
{
    if x >= network.pairs() {
        return false;
    }
    match firm.planned(PairNo(x)) {
        Some(planned) => has_pieces(planned.order(), orders),
        None => false,
    }
}

/// Whether each pair is planned with its orders.
fn has_all_orders(firm: &Firm, network: &Network, orders: &[&[u64]]) -> bool
    requires network { firm.now.network ≡ network.now }
{
    for (x, row) in orders.iter().enumerate() {
        if !has_orders(firm, network, x, *row) {
            return false;
        }
    }
    orders.len() == network.pairs()
}

/// Whether the figures are these, each as opening and end, and as much is received as is shipped.
fn are_settled(figures: &[LaneFigure], wanted: &[(u64, u64)]) -> bool {
    are_received(figures)
        && figures.len() == wanted.len()
        && figures.iter().zip(wanted).all(|(figure, (opening, end))| {
            figure.opening.get() == *opening && figure.shipped.get() == *end
        })
}

/// Whether the figures are those, lane by lane.
fn are_settled_lanes(figures: &[LaneFigure], wanted: &[&[(u64, u64)]]) -> bool {
    let mut rest = figures;
    for lane in wanted {
        if rest.len() < lane.len() {
            return false;
        }
        let (first, others) = rest.split_at(lane.len());
        if !are_settled(first, *lane) {
            return false;
        }
        rest = others;
    }
    rest.is_empty()
}

/// Whether the firm shows the figures of this ending.
fn shows_settled(alloc: Global, firm: &Firm, ending: &Ending) -> Result<bool, Fail> {
    let shown = firm.figures(alloc)?;
    Ok(are_settled_lanes(shown.as_slice(), ending.figures))
}

/// Whether the firm is at this ending, which is the plan of the network.
fn is_planned_so(firm: &Firm, network: &Network, whole: &Plan, ending: &Ending) -> bool
    requires network { firm.now.network ≡ network.now }
    requires pairs { length whole.now ≡ length network.now.pairs }
{
    is_at_the_end(firm)
        && has_all_orders(firm, network, ending.orders)
        && is_planned_whole(firm, network)
        && follows(firm, network, whole)
}

/// Whether the firm begins with so many steps and is driven to this ending.
fn is_driven_to(
    alloc: Global,
    network: &Network,
    whole: &Plan,
    firm: &mut Firm,
    ending: &Ending,
    wanted: u64,
) -> Result<bool, Fail>
    requires network { firm.old.network ≡ network.now }
    requires pairs { length whole.now ≡ length network.now.pairs }
{
    let steps = firm.steps_left();
    firm.drive();
    let settled = shows_settled(alloc, firm, ending)?;
    Ok(steps == wanted && settled && is_planned_so(firm, network, whole, ending))
}

/// The same of a new firm with mailboxes of that room.
fn ends_by_plan(
    alloc: Global,
    net: &SizedNet,
    whole: &Plan,
    capacity: u64,
    ending: &Ending,
    wanted: u64,
) -> Result<bool, Fail>
    requires pairs { length whole.now ≡ length net.now.network.pairs }
{
    if capacity == 0 || capacity > MOST_ROOM {
        return Ok(false);
    }
    let mut firm: Firm<'_> = Firm::new(alloc, net, capacity)?;
    is_driven_to(alloc, net.network(), whole, &mut firm, ending, wanted)
}

/// The same, by the plan of the network.
fn ends_so(
    alloc: Global,
    net: &SizedNet,
    capacity: u64,
    ending: &Ending,
    wanted: u64,
) -> Result<bool, Fail> {
    let whole = plan_all(alloc, net)?;
    ends_by_plan(alloc, net, &whole, capacity, ending, wanted)
}

/// Whether the firm ends so with mailboxes for 1, 2, 64 and 65,536 records.
pub(super) fn ends_at_each_capacity(
    alloc: Global,
    net: &SizedNet,
    ending: &Ending,
    steps: u64,
) -> Result<bool, Fail> {
    for capacity in [1, 2, 64, 65_536] {
        if !ends_so(alloc, net, capacity, ending, steps)? {
            return Ok(false);
        }
    }
    Ok(true)
}

/// The same of the firm of the ending's table.
fn ends(rt: &HostRuntime, ending: &Ending, steps: u64) -> Result<bool, Fail> {
    holds_of(rt.alloc(), ending.table, Trial::Ends(ending, steps))
}

/// A record is sent before it is received.
const SENT_FIRST: &[Tried] = &[
    (Event::Receive(LaneNo(0)), false, 14),
    (Event::Send(LaneNo(0)), true, 13),
    (Event::Send(LaneNo(0)), false, 13),
    (Event::Plan(PairNo(0)), false, 13),
];

/// A pair is planned once its block has ended.
const PLANNED_AFTER_ITS_BLOCK: &[Tried] = &[
    (Event::Receive(LaneNo(0)), false, 14),
    (Event::Send(LaneNo(0)), true, 13),
    (Event::Send(LaneNo(0)), false, 13),
    (Event::Plan(PairNo(0)), false, 13),
    (Event::Receive(LaneNo(0)), true, 12),
    (Event::Plan(PairNo(0)), false, 12),
    (Event::Send(LaneNo(0)), true, 11),
    (Event::Receive(LaneNo(0)), true, 10),
    (Event::Plan(PairNo(0)), true, 9),
    (Event::Plan(PairNo(0)), false, 9),
    (Event::Plan(PairNo(1)), false, 9),
];

/// A schedule is sent once its pair is planned.
const SENT_AFTER_ITS_PLAN: &[Tried] = &[
    (Event::Send(LaneNo(1)), false, 14),
    (Event::Send(LaneNo(0)), true, 13),
    (Event::Send(LaneNo(0)), true, 12),
    (Event::Receive(LaneNo(0)), true, 11),
    (Event::Receive(LaneNo(0)), true, 10),
    (Event::Send(LaneNo(1)), false, 10),
    (Event::Plan(PairNo(0)), true, 9),
    (Event::Send(LaneNo(1)), true, 8),
];

/// Two plants from the first event to the last.
const FIRST_TO_LAST: &[Tried] = &[
    (Event::Send(LaneNo(0)), true, 13),
    (Event::Receive(LaneNo(0)), true, 12),
    (Event::Send(LaneNo(0)), true, 11),
    (Event::Receive(LaneNo(0)), true, 10),
    (Event::Plan(PairNo(0)), true, 9),
    (Event::Send(LaneNo(1)), true, 8),
    (Event::Send(LaneNo(1)), false, 8),
    (Event::Plan(PairNo(1)), false, 8),
    (Event::Receive(LaneNo(1)), true, 7),
    (Event::Plan(PairNo(1)), false, 7),
    (Event::Send(LaneNo(1)), true, 6),
    (Event::Receive(LaneNo(1)), true, 5),
    (Event::Plan(PairNo(1)), true, 4),
    (Event::Send(LaneNo(0)), true, 3),
    (Event::Receive(LaneNo(0)), true, 2),
    (Event::Send(LaneNo(0)), false, 2),
    (Event::Receive(LaneNo(0)), false, 2),
    (Event::Send(LaneNo(1)), true, 1),
    (Event::Receive(LaneNo(1)), true, 0),
    (Event::Send(LaneNo(1)), false, 0),
    (Event::Receive(LaneNo(1)), false, 0),
    (Event::Plan(PairNo(1)), false, 0),
];

/// A firm has no other lanes and pairs.
const NOWHERE: &[Tried] = &[
    (Event::Send(LaneNo(2)), false, 14),
    (Event::Receive(LaneNo(2)), false, 14),
    (Event::Plan(PairNo(2)), false, 14),
    (Event::Send(LaneNo(usize::MAX)), false, 14),
    (Event::Receive(LaneNo(usize::MAX)), false, 14),
    (Event::Plan(PairNo(usize::MAX)), false, 14),
];

/// A pair waits for its second source.
const SECOND_SOURCE: &[Tried] = &[
    (Event::Send(LaneNo(0)), true, 22),
    (Event::Receive(LaneNo(0)), true, 21),
    (Event::Plan(PairNo(0)), false, 21),
    (Event::Send(LaneNo(1)), false, 21),
    (Event::Send(LaneNo(3)), false, 21),
    (Event::Send(LaneNo(2)), true, 20),
    (Event::Plan(PairNo(0)), false, 20),
    (Event::Receive(LaneNo(2)), true, 19),
    (Event::Plan(PairNo(0)), true, 18),
    (Event::Send(LaneNo(1)), true, 17),
    (Event::Send(LaneNo(3)), true, 16),
    (Event::Plan(PairNo(1)), false, 16),
    (Event::Plan(PairNo(2)), false, 16),
];

/// A source without a part has a block without lines.
const WITHOUT_A_PART: &[Tried] = &[
    (Event::Send(LaneNo(0)), true, 20),
    (Event::Receive(LaneNo(0)), true, 19),
    (Event::Send(LaneNo(2)), true, 18),
    (Event::Receive(LaneNo(2)), true, 17),
    (Event::Plan(PairNo(0)), true, 16),
    (Event::Send(LaneNo(1)), true, 15),
    (Event::Receive(LaneNo(1)), true, 14),
    (Event::Plan(PairNo(1)), true, 13),
    (Event::Send(LaneNo(3)), true, 12),
    (Event::Send(LaneNo(1)), true, 11),
    (Event::Send(LaneNo(1)), false, 11),
];

/// A lane is closed after all its blocks.
const CLOSED_LAST: &[Tried] = &[
    (Event::Send(LaneNo(2)), true, 31),
    (Event::Send(LaneNo(2)), true, 30),
    (Event::Send(LaneNo(2)), true, 29),
    (Event::Send(LaneNo(2)), false, 29),
    (Event::Receive(LaneNo(2)), true, 28),
    (Event::Plan(PairNo(0)), true, 27),
    (Event::Send(LaneNo(3)), true, 26),
    (Event::Send(LaneNo(3)), true, 25),
    (Event::Send(LaneNo(3)), false, 25),
    (Event::Receive(LaneNo(3)), true, 24),
    (Event::Plan(PairNo(1)), false, 24),
    (Event::Receive(LaneNo(3)), true, 23),
    (Event::Plan(PairNo(1)), true, 22),
    (Event::Plan(PairNo(2)), false, 22),
    (Event::Send(LaneNo(0)), true, 21),
    (Event::Receive(LaneNo(0)), true, 20),
    (Event::Plan(PairNo(2)), true, 19),
    (Event::Send(LaneNo(1)), true, 18),
    (Event::Send(LaneNo(1)), true, 17),
    (Event::Receive(LaneNo(1)), true, 16),
    (Event::Receive(LaneNo(1)), true, 15),
    (Event::Plan(PairNo(3)), true, 14),
    (Event::Plan(PairNo(4)), false, 14),
    (Event::Receive(LaneNo(2)), true, 13),
    (Event::Plan(PairNo(4)), true, 12),
    (Event::Send(LaneNo(3)), true, 11),
    (Event::Send(LaneNo(3)), true, 10),
    (Event::Send(LaneNo(3)), true, 9),
    (Event::Send(LaneNo(3)), false, 9),
    (Event::Receive(LaneNo(3)), true, 8),
    (Event::Receive(LaneNo(3)), true, 7),
    (Event::Plan(PairNo(5)), true, 6),
    (Event::Receive(LaneNo(3)), true, 5),
    (Event::Receive(LaneNo(2)), true, 4),
    (Event::Send(LaneNo(0)), true, 3),
    (Event::Receive(LaneNo(0)), true, 2),
    (Event::Send(LaneNo(1)), true, 1),
    (Event::Receive(LaneNo(1)), true, 0),
];

/// Figures start anew before the shipment.
const BEFORE_THE_SHIPMENT: &[Tried] = &[
    (Event::Send(LaneNo(0)), true, 17),
    (Event::Receive(LaneNo(0)), true, 16),
];

/// Figures start anew after the release.
const AFTER_THE_RELEASE: &[Tried] = &[
    (Event::Send(LaneNo(0)), true, 17),
    (Event::Send(LaneNo(0)), true, 16),
    (Event::Send(LaneNo(0)), true, 15),
    (Event::Receive(LaneNo(0)), true, 14),
    (Event::Receive(LaneNo(0)), true, 13),
    (Event::Plan(PairNo(0)), false, 13),
    (Event::Receive(LaneNo(0)), true, 12),
    (Event::Plan(PairNo(0)), true, 11),
    (Event::Send(LaneNo(1)), true, 10),
];

/// Figures start anew before the release.
const BEFORE_THE_RELEASE: &[Tried] = &[
    (Event::Send(LaneNo(0)), true, 17),
    (Event::Send(LaneNo(0)), true, 16),
    (Event::Send(LaneNo(0)), true, 15),
    (Event::Receive(LaneNo(0)), true, 14),
    (Event::Receive(LaneNo(0)), true, 13),
    (Event::Receive(LaneNo(0)), true, 12),
    (Event::Plan(PairNo(0)), true, 11),
    (Event::Send(LaneNo(1)), true, 10),
];

/// Closed years are added.
const CLOSED_YEARS: &[Tried] = &[
    (Event::Send(LaneNo(0)), true, 17),
    (Event::Send(LaneNo(0)), true, 16),
    (Event::Send(LaneNo(0)), true, 15),
    (Event::Receive(LaneNo(0)), true, 14),
    (Event::Receive(LaneNo(0)), true, 13),
    (Event::Receive(LaneNo(0)), true, 12),
    (Event::Plan(PairNo(0)), true, 11),
    (Event::Send(LaneNo(1)), true, 10),
    (Event::Send(LaneNo(1)), true, 9),
    (Event::Receive(LaneNo(1)), true, 8),
    (Event::Receive(LaneNo(1)), true, 7),
    (Event::Send(LaneNo(1)), true, 6),
    (Event::Send(LaneNo(1)), true, 5),
    (Event::Send(LaneNo(1)), false, 5),
];

/// A table, how many records a mailbox holds, the events, and the figures after them.
type Case = (&'static str, u64, &'static [Tried], &'static [Figures]);

const CASES: [Case; 12] = [
    (
        TWO_PLANTS,
        1,
        SENT_FIRST,
        &[(100, 108, 100), (108, 108, 108)],
    ),
    (
        TWO_PLANTS,
        1,
        PLANNED_AFTER_ITS_BLOCK,
        &[(100, 108, 108), (108, 108, 108)],
    ),
    (
        TWO_PLANTS,
        64,
        SENT_AFTER_ITS_PLAN,
        &[(100, 108, 108), (108, 130, 108)],
    ),
    (
        TWO_PLANTS,
        1,
        FIRST_TO_LAST,
        &[(100, 108, 108), (108, 130, 130)],
    ),
    (TWO_PLANTS, 1, NOWHERE, &[(100, 100, 100), (108, 108, 108)]),
    (
        SHARED,
        4,
        SECOND_SOURCE,
        &[(0, 0, 0), (0, 4, 0), (0, 0, 0), (0, 3, 0)],
    ),
    (
        ONE_SHARED,
        4,
        WITHOUT_A_PART,
        &[(0, 0, 0), (0, 0, 0), (0, 0, 0), (0, 1, 0)],
    ),
    (
        RING,
        64,
        CLOSED_LAST,
        &[
            (0, 0, 0),
            (0, 10, 10),
            (0, 0, 0),
            (0, 0, 0),
            (0, 5, 5),
            (0, 30, 30),
        ],
    ),
    (
        RESET_LATER,
        8,
        BEFORE_THE_SHIPMENT,
        &[(100, 100, 100), (108, 108, 108)],
    ),
    (
        RESET_LATER,
        8,
        AFTER_THE_RELEASE,
        &[(100, 108, 108), (108, 130, 108)],
    ),
    (
        RESET_AT_RELEASE,
        8,
        BEFORE_THE_RELEASE,
        &[(100, 108, 108), (108, 108, 108)],
    ),
    (
        RESET_AT_RELEASE,
        8,
        CLOSED_YEARS,
        &[(100, 108, 108), (108, 130, 130)],
    ),
];

#[test]
fn firms_take_what_is_enabled(rt: HostRuntime) -> Result<(), Fail> {
    for (number, (table, capacity, tried, figures)) in CASES.iter().enumerate() {
        assert!(rt;
            goes(&rt, table, *capacity, tried, figures)?,
            "case {number}"
        );
    }
    Ok(())
}

/// Whether so many of the events are enabled, and the firm shows these figures after them.
fn counts_so(
    alloc: Global,
    firm: &mut Firm,
    events: &[Event],
    wanted: u64,
    figures: &[Figures],
) -> Result<bool, Fail> {
    let count = firm.run(events);
    let shown = shows(alloc, firm, figures)?;
    Ok(count == wanted && shown)
}

const NONE_ENABLED: &[Event] = &[
    Event::Receive(LaneNo(0)),
    Event::Plan(PairNo(0)),
    Event::Send(LaneNo(1)),
    Event::Plan(PairNo(1)),
    Event::Receive(LaneNo(1)),
    Event::Send(LaneNo(7)),
];

const SOME_ENABLED: &[Event] = &[
    Event::Send(LaneNo(0)),
    Event::Send(LaneNo(0)),
    Event::Plan(PairNo(0)),
    Event::Receive(LaneNo(0)),
    Event::Receive(LaneNo(0)),
    Event::Send(LaneNo(0)),
    Event::Plan(PairNo(0)),
];

/// Whether events that aren't enabled count nothing among those that are, and change nothing.
fn counts_in_lists(alloc: Global, firm: &mut Firm) -> Result<bool, Fail> {
    let none = counts_so(
        alloc,
        firm,
        NONE_ENABLED,
        0,
        &[(100, 100, 100), (108, 108, 108)],
    )?;
    let some = counts_so(
        alloc,
        firm,
        SOME_ENABLED,
        3,
        &[(100, 108, 108), (108, 108, 108)],
    )?;
    Ok(none && some && firm.steps_left() == 11 && !firm.finished())
}

/// The same of a new firm with mailboxes of one.
pub(super) fn counts_what_is_enabled(alloc: Global, net: &SizedNet) -> Result<bool, Fail> {
    let mut firm: Firm<'_> = Firm::new(alloc, net, 1)?;
    counts_in_lists(alloc, &mut firm)
}

#[test]
fn lists_count_the_events_that_are_enabled(rt: HostRuntime) -> Result<(), Fail> {
    assert!(rt; holds_of(rt.alloc(), TWO_PLANTS, Trial::CountsWhatIsEnabled)?);
    Ok(())
}

/// Firms that are driven to their ends, each with the steps that it takes.
const ENDINGS: &[(Ending, u64)] = &[
    (TWO_PLANTS_ENDING, 14),
    (TWO_SHIPMENTS_ENDING, 16),
    (RING_ENDING, 32),
    (IDLE_RING_ENDING, 26),
    (TWO_CUSTOMERS_ENDING, 25),
    (SHARED_ENDING, 23),
    (ONE_SHARED_ENDING, 21),
    (SHARED_AFTER_SHIPMENT_ENDING, 25),
    (NO_LANES_ENDING, 1),
    (NO_PLANTS_ENDING, 0),
    (RESET_LATER_ENDING, 18),
    (RESET_AT_RELEASE_ENDING, 18),
    (COUNTED_SOONER_ENDING, 16),
    (FENCED_ENDING, 17),
    (COVERED_ENDING, 14),
    (ROUNDED_UP_ENDING, 16),
    (USED_BY_PERIOD_ENDING, 31),
    (FOUR_PLANTS_BY_POLICY_ENDING, 111),
    (FIVE_ARTICLES_BY_POLICY_ENDING, 8),
];

#[test]
fn firms_are_driven_to_their_ends(rt: HostRuntime) -> Result<(), Fail> {
    for (ending, steps) in ENDINGS {
        assert!(rt; ends(&rt, ending, *steps)?, "{}", ending.table);
    }
    Ok(())
}
