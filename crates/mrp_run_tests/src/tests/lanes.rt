//! Tests of runs: lanes between plants, the two ends in one thread, and each in a thread of its own. With an allocation
//! refused, a test in one thread passes or ends in an error for want of memory; its assertion never fails.

ghost use Rattle.std.specs.Prelude.{◌≡◌, ◌<◌, ◌≤◌, ◌-◌, ◌*◌, ◌/◌, length, Contains, IfOk};
ghost use Rattle.mrp_master_data.specs.Table.{IsTable, horizon};
ghost use Rattle.mrp_net.specs.Lanes.{lanes, lane_at, lane_items};
ghost use Rattle.mrp_net.specs.Plan.{plan_of};
ghost use Rattle.mrp_net.specs.PlanLaws.{Fits};
ghost use Rattle.mrp_net.specs.Sources.{source_on};
ghost use Rattle.mrp_protocol.specs.Loads.{called_in};
ghost use Rattle.mrp_record.specs.Next.{IsWhatIsLeft, IsNextLine, IsRemainder};
ghost use Rattle.mrp_run_tests.specs.Feeding.{despatches_from, calls_from, item_goods, goods, IsOver, Feeds};

use super::trials::{Trial, holds_of};
use crate::{RING, TWO_PLANTS};
use mrp_lane::{LaneNo, Reconciled, Record, SendEnd, TakeEnd, lane, reconcile};
use mrp_loops::SizedNet;
use mrp_master_data::SourceRow;
use mrp_net::{ItemNo, LaneKind, Network};
use mrp_plan::{Plan, plan_all};
use mrp_qty::Qty;
use mrp_record::{NextLine, OutCursor, Remainder};
use mrp_run::NoGate;
use std::alloc::{AllocError, Global};
use std::marker::Brand;
use std::sync::Wait;
use std::test::Fail;
use std::thread;
use std::thread::Threads;

/// The firm of two plants as far as its shipments, of which there are then very many.
const BUSY: &str = "run,2026-01-05,7,4,,,,
plant,A,,,,,,
plant,B,,,,,,
pair,A,X,from:B,lot,1,0,0
pair,B,X,buy,lot,0,0,0
demand,A,X,2,30,,,
";

/// The lane by which B ships X to A.
const DESPATCH: LaneNo = LaneNo(0);

/// The lane by which A calls for X at B.
const SCHEDULE: LaneNo = LaneNo(1);

/// The lane by which B calls for X and W at A, in the ring.
const RING_SCHEDULE: LaneNo = LaneNo(3);

/// How many shipments the busy firm has.
const MANY: u64 = 1_000_000;

/// What came of one look at an end.
#[derive(Clone, Copy)]
enum Look {
    /// A record went through.
    Went,
    /// There was no room.
    Full,
    /// Nothing is left.
    Over,
}

/// The first shipment of an item from a mark on.
fn next_shipment(network: &Network, l: LaneNo, item: ItemNo, mark: usize) -> Option<NextLine>
    requires lane { l.0 < length (lanes network.now) }
    requires item { Contains (lane_items network.now (lane_at network.now l.0)) item }
    ensures { IsNextLine (despatches_from network.now (lane_at network.now l.0) item) mark result }
{
    let shipments = network.shipments(l, item);
    if mark < shipments.len() {
        let shipment = shipments[mark];
        Some(NextLine {
            period: shipment.period as u64,
            quantity: shipment.quantity.get(),
            after: mark + 1,
        })
    } else {
        None
    }
}

/// A source's share of a release.
fn share(source: &SourceRow, release: Qty) -> u64
    requires rises { source.now.low ≤ source.now.high }
    requires ends { source.now.high ≤ 1000 }
    ensures { result ≡ (release * source.now.high) / 1000 - (release * source.now.low) / 1000 }
{
    let pieces = release.get();
    pieces * source.high / 1000 - pieces * source.low / 1000
}

/// What is called for of an item in a period.
fn call(network: &Network, plan: &Plan, l: LaneNo, item: ItemNo, period: usize) -> u64
    requires lane { l.0 < length (lanes network.now) }
    requires item { Contains (lane_items network.now (lane_at network.now l.0)) item }
    requires table { IsTable network.now }
    requires fits { Fits network.now plan.now }
    requires plan { plan.now ≡ plan_of network.now }
    requires period { period < horizon network.now }
    ensures { result ≡ called_in network.now (source_on network.now (lane_at network.now l.0) item) period }
{
    let source = network.lane_source(l, item);
    share(&source, plan.pair(source.pair).release().get(period))
}

/// The first period from a mark on in which something is called for.
fn next_call(
    network: &Network,
    plan: &Plan,
    l: LaneNo,
    item: ItemNo,
    mark: usize,
) -> Option<NextLine>
    requires lane { l.0 < length (lanes network.now) }
    requires item { Contains (lane_items network.now (lane_at network.now l.0)) item }
    requires table { IsTable network.now }
    requires fits { Fits network.now plan.now }
    requires plan { plan.now ≡ plan_of network.now }
    ensures { IsNextLine (calls_from network.now (lane_at network.now l.0) item) mark result }
{
    for period in mark..network.horizon().get() as usize {
        let quantity = call(network, plan, l, item, period);
        if quantity > 0 {
            return Some(NextLine {
                period: period as u64,
                quantity,
                after: period + 1,
            });
        }
    }
    None
}

/// What is left of an item from a mark on.
fn left_of(network: &Network, plan: &Plan, l: LaneNo, item: ItemNo, mark: usize) -> Remainder
    requires lane { l.0 < length (lanes network.now) }
    requires item { Contains (lane_items network.now (lane_at network.now l.0)) item }
    requires table { IsTable network.now }
    requires fits { Fits network.now plan.now }
    requires plan { plan.now ≡ plan_of network.now }
    ensures { IsRemainder (item_goods network.now (lane_at network.now l.0) item) mark result }
{
    let line = match network.lane(l).kind {
        LaneKind::Despatch => next_shipment(network, l, item, mark),
        LaneKind::Schedule => next_call(network, plan, l, item, mark),
    };
    Remainder {
        item,
        opening: network.opening(l, item),
        reset: network.reset(l, item),
        line,
    }
}

/// What is left of the item at the head of a lane's cursor.
fn left(network: &Network, plan: &Plan, l: LaneNo, cursor: &OutCursor) -> Option<Remainder>
    requires lane { l.0 < length (lanes network.now) }
    requires table { IsTable network.now }
    requires fits { Fits network.now plan.now }
    requires plan { plan.now ≡ plan_of network.now }
    requires over { IsOver network.now l.0 cursor.now }
    ensures { IsWhatIsLeft (goods network.now l.0) cursor.now result }
{
    let place = cursor.head()?;
    let item = network.lane_items(l)[place];
    Some(left_of(network, plan, l, item, cursor.mark()))
}

/// Offers the next record of a lane's text.
fn offer_next<R: Wait>(
    rt: &R,
    network: &Network,
    plan: &Plan,
    cursor: &mut OutCursor,
    end: &mut SendEnd,
) -> Look
    requires fits { Fits network.now plan.now }
    requires plan { plan.now ≡ plan_of network.now }
    requires feeds { Feeds network.now cursor.old end.old }
    ensures feeds { Feeds network.now cursor.new end.new }
    ensures name { end.new.name ≡ end.old.name }
{
    let left = left(network, plan, end.lane(), cursor);
    let Some(record) = cursor.next_record(left) else {
        return Look::Over;
    };
    match end.offer::<Brand, R>(rt, record) {
        Ok(()) => {
            cursor.step(left);
            Look::Went
        }
        Err(_) => Look::Full,
    }
}

/// Offers records until one comes back or none is left, and counts those that went.
fn offered<R: Wait>(
    rt: &R,
    network: &Network,
    plan: &Plan,
    cursor: &mut OutCursor,
    end: &mut SendEnd,
) -> u64
    requires fits { Fits network.now plan.now }
    requires plan { plan.now ≡ plan_of network.now }
    requires feeds { Feeds network.now cursor.old end.old }
    ensures feeds { Feeds network.now cursor.new end.new }
    ensures name { end.new.name ≡ end.old.name }
{
    let mut count = 0u64;
    for _ in rt.forever() {
        match offer_next(rt, network, plan, cursor, end) {
            Look::Went => count = count.saturating_add(1),
            Look::Full | Look::Over => break,
        }
    }
    count
}

/// The ends of a lane of the network, with a cursor over its text.
fn ends(
    alloc: Global,
    net: &SizedNet<'_>,
    l: LaneNo,
    capacity: u64,
) -> Result<(OutCursor, SendEnd, TakeEnd), Fail>
    requires { (1 ≤ capacity) × (capacity ≤ 65536) }
    ensures feeds { IfOk result (λ ends. Feeds net.now.network ends.0 ends.1) }
    ensures same { IfOk result (λ ends. ends.1.name ≡ ends.2.name) }
{
    let network = net.network();
    if l.0 >= network.lanes() {
        return Err(Fail::new("no such lane"));
    }
    let cursor = OutCursor::with_all(alloc, network.lane_items(l).len())?;
    let (send, take) = lane(alloc, net, l, capacity)?;
    Ok((cursor, send, take))
}

/// Opening figure, shipped and received of an item of the lane, by its place.
fn figures(done: &Reconciled, place: usize) -> Option<(u64, u64, u64)> {
    let figure = done.figures().get(place)?;
    Some((
        figure.opening.get(),
        figure.shipped.get(),
        figure.received.get(),
    ))
}

/// A line of item 0.
fn line(number: u64, period: u64, quantity: u64, cumulative: u64) -> Record {
    Record::Line {
        number,
        item: ItemNo(0),
        period,
        quantity,
        cumulative,
    }
}

/// The end of an item with one line.
fn item_end(number: u64, item: ItemNo, cumulative: u64) -> Record {
    Record::ItemEnd {
        number,
        item,
        lines: 1,
        cumulative,
    }
}

/// Whether three records are the block of item 0, with one line, and the closing record.
fn are_block(records: &[Record], period: u64, quantity: u64, cumulative: u64) -> bool {
    records.len() == 3
        && records[0] == line(1, period, quantity, cumulative)
        && records[1] == item_end(2, ItemNo(0), cumulative)
        && records[2] == Record::Close { number: 3 }
}

/// Offers what a mailbox has room for and takes nothing. Answers how many records went, and what
/// reconciling tells then.
fn offered_alone<R: Wait>(
    rt: &R,
    alloc: Global,
    net: &SizedNet<'_>,
    l: LaneNo,
    capacity: u64,
) -> Result<(u64, Reconciled), Fail>
    requires { (1 ≤ capacity) × (capacity ≤ 65536) }
{
    let plan = plan_all(alloc, net)?;
    let (mut cursor, mut send, take) = ends(alloc, net, l, capacity)?;
    let count = offered(rt, net.network(), &plan, &mut cursor, &mut send);
    let done = reconcile(rt, alloc, send, take)?;
    Ok((count, done))
}

/// Whether all three records of the firm's calls lie in a mailbox of four when none is taken.
fn leaves_all<R: Wait>(rt: &R, alloc: Global, net: &SizedNet<'_>) -> Result<bool, Fail> {
    let (count, done) = offered_alone(rt, alloc, net, SCHEDULE, 4)?;
    Ok(
        count == 3
            && done.lane() == SCHEDULE
            && (done.sent(), done.taken()) == (3, 0)
            && are_block(done.left(), 1, 22, 130)
            && figures(&done, 0) == Some((108, 130, 108)),
    )
}

/// Whether a mailbox of one takes the first record of the firm's shipments and gives the second back,
/// which stays the next one until the first is taken.
fn gives_the_second_back<R: Wait>(
    rt: &R,
    network: &Network,
    plan: &Plan,
    cursor: &mut OutCursor,
    send: &mut SendEnd,
    take: &mut TakeEnd,
) -> bool
    requires fits { Fits network.now plan.now }
    requires plan { plan.now ≡ plan_of network.now }
    requires feeds { Feeds network.now cursor.old send.old }
    ensures sent { send.new.name ≡ send.old.name }
    ensures taken { take.new.name ≡ take.old.name }
{
    let empty = take.take(rt).is_none();
    let first = offered(rt, network, plan, cursor, send);
    let taken = take.take(rt) == Some(line(1, 2, 8, 108));
    let second = offered(rt, network, plan, cursor, send);
    empty && taken && (first, second) == (1, 1)
}

/// Whether of two records that were sent the second is left.
fn has_left_the_second(done: &Reconciled) -> bool {
    (done.sent(), done.taken()) == (2, 1)
        && done.left() == [item_end(2, ItemNo(0), 108)].as_slice()
        && figures(done, 0) == Some((100, 108, 108))
}

/// Whether both hold of the firm's shipments over a mailbox of one.
fn refuses_by_plan<R: Wait>(
    rt: &R,
    alloc: Global,
    net: &SizedNet<'_>,
    plan: &Plan,
) -> Result<bool, Fail>
    requires fits { Fits net.now.network plan.now }
    requires plan { plan.now ≡ plan_of net.now.network }
{
    let (mut cursor, mut send, mut take) = ends(alloc, net, DESPATCH, 1)?;
    let given = gives_the_second_back(rt, net.network(), plan, &mut cursor, &mut send, &mut take);
    let done = reconcile(rt, alloc, send, take)?;
    Ok(given && has_left_the_second(&done))
}

/// The same, by the plan of the network.
fn refuses_the_second<R: Wait>(rt: &R, alloc: Global, net: &SizedNet<'_>) -> Result<bool, Fail> {
    let plan = plan_all(alloc, net)?;
    refuses_by_plan(rt, alloc, net, &plan)
}

/// Which text is carried between two threads.
#[derive(Clone, Copy)]
enum Text {
    /// What B calls for in the ring: 5 of X and 30 of W.
    Ring,
    /// So many shipments of one piece of X.
    Busy(u64),
}

impl Text {
    /// How many records it has.
    fn len(self) -> u64 {
        match self {
            Text::Ring => 5,
            Text::Busy(shipments) => shipments.saturating_add(2),
        }
    }

    /// How often each thread looks at most.
    fn looks(self) -> u64 {
        match self {
            Text::Ring => 1_000_000,
            Text::Busy(shipments) => shipments.saturating_mul(1000),
        }
    }

    /// Its record of that number, from 1.
    fn record(self, number: u64) -> Record {
        match self {
            Text::Ring => ring_record(number),
            Text::Busy(shipments) => busy_record(shipments, number),
        }
    }
}

/// The record of that number on the ring's lane.
fn ring_record(number: u64) -> Record {
    match number {
        1 => line(1, 0, 5, 5),
        2 => item_end(2, ItemNo(0), 5),
        3 => Record::Line {
            number: 3,
            item: ItemNo(2),
            period: 0,
            quantity: 30,
            cumulative: 30,
        },
        4 => item_end(4, ItemNo(2), 30),
        _ => Record::Close { number: 5 },
    }
}

/// The record of that number where so many pieces are shipped one by one.
fn busy_record(shipments: u64, number: u64) -> Record {
    if number <= shipments {
        return line(number, 2, 1, number);
    }
    if number > shipments.saturating_add(1) {
        return Record::Close { number };
    }
    Record::ItemEnd {
        number,
        item: ItemNo(0),
        lines: shipments,
        cumulative: shipments,
    }
}

/// Offers a lane's text. It looks so often at most, and yields where there is no room.
fn send_text<R: Wait>(
    rt: &R,
    network: &Network,
    plan: &Plan,
    cursor: &mut OutCursor,
    send: &mut SendEnd,
    text: Text,
)
    requires fits { Fits network.now plan.now }
    requires plan { plan.now ≡ plan_of network.now }
    requires feeds { Feeds network.now cursor.old send.old }
    ensures name { send.new.name ≡ send.old.name }
{
    for _ in 0..text.looks() {
        match offer_next(rt, network, plan, cursor, send) {
            Look::Went => {}
            Look::Full => thread::yield_now(),
            Look::Over => break,
        }
    }
}

/// Takes records for as long as they come in order, and counts them. It looks so often at most, and yields
/// where there is none.
fn take_text<R: Wait>(rt: &R, take: &mut TakeEnd, text: Text) -> u64
    ensures { take.new.name ≡ take.old.name }
{
    let mut count = 0u64;
    for _ in 0..text.looks() {
        if count >= text.len() {
            break;
        }
        match take.take(rt) {
            Some(record) if record == text.record(count.saturating_add(1)) => {
                count = count.saturating_add(1);
            }
            Some(_) => break,
            None => thread::yield_now(),
        }
    }
    count
}

/// One thread offers a lane's text and another takes it. Answers the ends, and how many records came in
/// order.
fn between_threads<R: Threads + Wait + Sync>(
    rt: &R,
    network: &Network,
    plan: &Plan,
    ends: (OutCursor, SendEnd, TakeEnd),
    text: Text,
) -> (SendEnd, (TakeEnd, u64))
    requires fits { Fits network.now plan.now }
    requires plan { plan.now ≡ plan_of network.now }
    requires feeds { Feeds network.now ends.0 ends.1 }
    ensures sent { result.0.name ≡ ends.1.name }
    ensures taken { result.1.0.name ≡ ends.2.name }
{
    let (mut cursor, mut send, mut take) = ends;
    thread::join(
        rt,
        move || -> SendEnd
            requires { Fits network.now plan.now × (plan.now ≡ plan_of network.now) × Feeds network.now cursor send }
            ensures { result.name ≡ send.name }
        {
            send_text(rt, network, plan, &mut cursor, &mut send, text);
            send
        },
        move || -> (TakeEnd, u64)
            ensures { result.0.name ≡ take.name }
        {
            let count = take_text(rt, &mut take, text);
            (take, count)
        },
    )
}

/// Carries a text over a lane between two threads. Answers what went over it where all of it came in order
/// and nothing is left, and else `None`.
fn carried<R: Threads + Wait + Sync>(
    rt: &R,
    alloc: Global,
    net: &SizedNet<'_>,
    l: LaneNo,
    text: Text,
    capacity: u64,
) -> Result<Option<Reconciled>, Fail>
    requires { (1 ≤ capacity) × (capacity ≤ 65536) }
{
    let plan = plan_all(alloc, net)?;
    let ends = ends(alloc, net, l, capacity)?;
    let (send, (take, count)) = between_threads(rt, net.network(), &plan, ends, text);
    let done = reconcile(rt, alloc, send, take)?;
    if count == text.len()
        && (done.sent(), done.taken()) == (count, count)
        && done.left().is_empty()
    {
        Ok(Some(done))
    } else {
        Ok(None)
    }
}

/// Whether the ring's calls come over a mailbox of one record, with 1,000,000 looks at most at each end.
fn carries_the_ring<R: Threads + Wait + Sync>(
    rt: &R,
    alloc: Global,
    net: &SizedNet<'_>,
) -> Result<bool, Fail> {
    let Some(done) = carried(rt, alloc, net, RING_SCHEDULE, Text::Ring, 1)? else {
        return Ok(false);
    };
    Ok(
        done.lane() == RING_SCHEDULE
            && done.figures().len() == 2
            && figures(&done, 0) == Some((0, 5, 5))
            && figures(&done, 1) == Some((0, 30, 30)),
    )
}

/// Whether the shipments come over a mailbox of that room.
fn carries_shipments<R: Threads + Wait + Sync>(
    rt: &R,
    alloc: Global,
    net: &SizedNet<'_>,
    capacity: u64,
) -> Result<bool, Fail> {
    if capacity == 0 || capacity > 65_536 {
        return Ok(false);
    }
    let Some(done) = carried(rt, alloc, net, DESPATCH, Text::Busy(MANY), capacity)? else {
        return Ok(false);
    };
    Ok(figures(&done, 0) == Some((0, MANY, MANY)))
}

/// The table of the firm with so many shipments of one piece.
fn busy_table(alloc: Global, shipments: u64) -> Result<String, AllocError> {
    let mut text = String::from_str(alloc, BUSY)?;
    for _ in 0..shipments {
        text.push_str("ship,B,A,X,2,1,,\n")?;
    }
    Ok(text)
}

/// What is tried on the lanes of a network.
#[derive(Clone, Copy)]
pub(super) enum LaneTrial {
    /// All records of the firm's calls are left where none is taken.
    LeavesAll,
    /// A mailbox of one refuses the second record of the firm's shipments.
    RefusesTheSecond,
    /// The ring's calls come over a mailbox of one, from thread to thread.
    CarriesTheRing,
    /// The busy firm's shipments come over a mailbox of that room, from thread to thread.
    CarriesShipments(u64),
}

/// Whether a trial goes as it says.
pub(super) fn lanes_go<R: Threads + Wait + Sync>(
    rt: &R,
    alloc: Global,
    net: &SizedNet<'_>,
    trial: LaneTrial,
) -> Result<bool, Fail> {
    match trial {
        LaneTrial::LeavesAll => leaves_all(rt, alloc, net),
        LaneTrial::RefusesTheSecond => refuses_the_second(rt, alloc, net),
        LaneTrial::CarriesTheRing => carries_the_ring(rt, alloc, net),
        LaneTrial::CarriesShipments(capacity) => carries_shipments(rt, alloc, net, capacity),
    }
}

/// Whether a trial goes so on the lanes of a table.
fn goes<R: Threads + Wait + Sync>(
    rt: &R,
    alloc: Global,
    table: &str,
    trial: LaneTrial,
) -> Result<bool, Fail> {
    holds_of(rt, alloc, table, Trial::Lanes(trial), &NoGate)
}

#[test]
fn lanes_in_one_thread(rt: HostRuntime) -> Result<(), Fail> {
    for trial in [LaneTrial::LeavesAll, LaneTrial::RefusesTheSecond] {
        assert!(&rt; goes(&rt, rt.alloc(), TWO_PLANTS, trial)?);
    }
    Ok(())
}

#[test]
fn one_thread_offers_the_calls_of_a_ring_and_another_takes(rt: HostRuntime) -> Result<(), Fail> {
    assert!(&rt; goes(&rt, rt.alloc(), RING, LaneTrial::CarriesTheRing)?);
    Ok(())
}

#[test]
fn a_million_shipments_go_through_a_lane(rt: HostRuntime) -> Result<(), Fail> {
    let table = busy_table(rt.alloc(), MANY)?;
    for capacity in [1, 64, 65_536] {
        let trial = LaneTrial::CarriesShipments(capacity);
        assert!(&rt; goes(&rt, rt.alloc(), table.as_str(), trial)?, "{capacity}");
    }
    Ok(())
}
