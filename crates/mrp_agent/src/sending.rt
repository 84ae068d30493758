//! The agent: what it sends next on a lane, and how it goes on once that is sent.

ghost use Rattle.std.specs.Prelude.{◌≡◌, ◌==◌, ◌<◌, ◌≤◌, true, count_by, length, position};
ghost use Rattle.std.specs.List.{position_or_len};
ghost use Rattle.mrp_plant_view.specs.Loads.{load_at};
ghost use Rattle.mrp_agent.specs.Sending.{next_shipment, next_called, left_to_ship, left_to_call, figure_in};
ghost use Rattle.mrp_agent.specs.Sending.{IsCallShare};
ghost use Rattle.mrp_agent.specs.Kept.{IsShowing};

use crate::Agent;
use crate::booking::incoming_near;
use mrp_book::Book;
use mrp_master_data::ItemNo;
use mrp_net::{LaneKind, LaneNo, Shipment, share_of};
use mrp_netting::PairPlan;
use mrp_plant_view::{Call, OutgoingItem, OutgoingItems, OutgoingLane};
use mrp_qty::Row;
use mrp_record::{NextLine, Record, Remainder};

/// The record that a lane is to be sent next, and what is left of its item before: [`Agent::next_at`] gives it, and
/// [`Agent::sent_at`] takes it back.
#[derive(Clone, Copy)]
pub struct NextOut {
    /// The record.
    pub entry: Record,
    /// What is left of the item that the record is of, where it is of one.
    pub left: Option<Remainder>,
}

impl Agent {
    ghost use Rattle.std.specs.Prelude.{IsSome, IfSome, IfNone, Contains, Some};
    ghost use Rattle.mrp_net.specs.declared.lane.LaneKind.TheVariants.{Schedule};
    ghost use Rattle.mrp_agent.specs.After.{after_sent};
    ghost use Rattle.mrp_agent.specs.Sending.{next_out, next_at, left_at, remainder};
    ghost use Rattle.mrp_agent.specs.Sent.{GivenIsLegal, NoneCanBeSent, IsAppended};
    ghost use Rattle.mrp_record.specs.declared.record.Record.{Record};
    ghost use Rattle.mrp_agent.specs.State.{outgoing_place};

    /// The record that a lane that goes out is to be sent next, where there is one.
    ///
    /// A record that is given may be sent: it continues what was sent to a legal beginning of whatever
    /// lane has these goods. Where none is given none can be sent.
    pub fn next_out(&self, lane: LaneNo) -> Option<Record>
        requires outgoing { outgoing_place self.now.view lane.0 < length self.now.view.outgoing }
        ensures exact { result ≡ next_out self.now (outgoing_place self.now.view lane.0) }
        ensures given { IfSome result (λ r. GivenIsLegal self.now (outgoing_place self.now.view lane.0) r) }
        ensures none { IfNone result (NoneCanBeSent self.now (outgoing_place self.now.view lane.0)) }
    {
        let k = self.out_place(lane);
        let next = self.next_at(k)?;
        Some(next.entry)
    }

    /// The same of the lane at a place among those that go out, with what [`Agent::sent_at`] takes back.
    pub fn next_at(&self, k: usize) -> Option<NextOut>
        requires outgoing { k < length self.now.view.outgoing }
        ensures exact { result ≡ next_at self.now k }
        ensures given { IfSome result (λ next. GivenIsLegal self.now k next.entry) }
        ensures none { IfNone result (NoneCanBeSent self.now k) }
    {
        let left = self.left_at(k);
        let entry = self.lanes.outs[k].next_record(left)?;
        Some(NextOut { entry, left })
    }

    /// Goes on after the record that [`Agent::next_out`] gives was sent on the lane.
    pub fn sent(&mut self, lane: LaneNo)
        requires outgoing { outgoing_place self.old.view lane.0 < length self.old.view.outgoing }
        requires given { IsSome (next_out self.old (outgoing_place self.old.view lane.0)) }
        ensures view { self.new.view ≡ self.old.view }
        ensures exact { self.new ≡ after_sent self.old (outgoing_place self.old.view lane.0) }
        ensures appended { (r : Record) → next_out self.old (outgoing_place self.old.view lane.0) ≡ Some r
            → IsAppended self.old self.new (outgoing_place self.old.view lane.0) r }
    {
        let _sent = self.send(lane);
    }

    /// Goes on after the record that [`Agent::next_at`] gives was sent on the lane at a place.
    pub fn sent_at(&mut self, k: usize, next: NextOut)
        requires outgoing { k < length self.old.view.outgoing }
        requires given { next_at self.old k ≡ Some next }
        ensures view { self.new.view ≡ self.old.view }
        ensures exact { self.new ≡ after_sent self.old k }
        ensures appended { IsAppended self.old self.new k next.entry }
    {
        self.lanes.outs[k].step(next.left);
        self.last.sent = k;
    }

    /// Sends the record that a lane that goes out is to be sent next, or answers `None` where there is none;
    /// then nothing has changed.
    ///
    /// It is [`Agent::next_out`] and then, where that gives a record, [`Agent::sent`], and looks but once for
    /// the lane and for what is left.
    pub fn send(&mut self, lane: LaneNo) -> Option<Record>
        requires outgoing { outgoing_place self.old.view lane.0 < length self.old.view.outgoing }
        ensures view { self.new.view ≡ self.old.view }
        ensures exact { result ≡ next_out self.old (outgoing_place self.old.view lane.0) }
        ensures given { IfSome result (λ r. GivenIsLegal self.old (outgoing_place self.old.view lane.0) r) }
        ensures none { IfNone result (NoneCanBeSent self.old (outgoing_place self.old.view lane.0)) }
        ensures sent { IfSome result (λ _. self.new ≡ after_sent self.old (outgoing_place self.old.view lane.0)) }
        ensures appended { IfSome result (λ r. IsAppended self.old self.new (outgoing_place self.old.view lane.0) r) }
        ensures unchanged { IfNone result (self.new ≡ self.old) }
    {
        let k = self.seek(lane);
        let next = self.next_at(k)?;
        self.sent_at(k, next);
        Some(next.entry)
    }

    /// The place of a lane among those that go out, or how many these are. It is looked for first where the last
    /// record was sent or looked for.
    fn out_place(&self, lane: LaneNo) -> usize
        ensures { result ≡ outgoing_place self.now.view lane.0 }
    {
        outgoing_near(self.view.outgoing(), lane, self.last.sent)
    }

    /// The same, and the next look begins there.
    fn seek(&mut self, lane: LaneNo) -> usize
        ensures place { result ≡ outgoing_place self.old.view lane.0 }
        ensures unchanged { self.new ≡ self.old }
    {
        let k = self.out_place(lane);
        self.last.sent = k;
        k
    }

    /// What is left of the item at the head of a lane's queue.
    fn left_at(&self, k: usize) -> Option<Remainder>
        requires { k < length self.now.view.outgoing }
        ensures { result ≡ left_at self.now k }
    {
        let place = self.lanes.outs[k].head()?;
        let mark = self.lanes.outs[k].mark();
        Some(self.left_of(&self.view.outgoing()[k], k, place, mark))
    }

    /// What is left of the item at a place of a lane that goes out, from a mark on. The lane stands at `near`.
    fn left_of(&self, lane: &OutgoingLane, near: usize, place: usize, mark: usize) -> Remainder
        requires lane { Contains self.now.view.outgoing lane.now }
        requires place { place < length lane.now.items }
        ensures { result ≡ remainder self.now lane.now mark place }
    {
        match lane.kind {
            LaneKind::Despatch => left_to_ship(&lane.items, place, mark),
            LaneKind::Schedule => self.schedule_left(lane, near, place, mark),
        }
    }

    /// What a schedule lane has left to call for of an item.
    ///
    /// The despatch lane before it is looked for at the schedule lane's own place first: a plant receives a
    /// lane from each plant that it sends one to. It has the same items in the same order.
    fn schedule_left(
        &self,
        lane: &OutgoingLane,
        near: usize,
        place: usize,
        mark: usize,
    ) -> Remainder
        requires lane { Contains self.now.view.outgoing lane.now }
        requires schedule { lane.now.kind ≡ Schedule }
        requires place { place < length lane.now.items }
        ensures { result ≡ remainder self.now lane.now mark place }
    {
        let before = incoming_near(self.view.incoming(), LaneNo(lane.number.0 - 1), near);
        let item = lane.items.get(place);
        let Some(call) = item.call else {
            unreachable!()
        };
        let Some(customer) = self.view.place(call.customer) else {
            unreachable!()
        };
        left_to_call(
            &self.lanes.books[before],
            &self.amounts.plans[customer],
            &item,
            &call,
            place,
            mark,
        )
    }
}

/// What a schedule lane has left to call for of an item, by the book of the despatch lane before it and
/// the customer's plan.
fn left_to_call(
    book: &Book,
    plan: &PairPlan,
    item: &OutgoingItem,
    call: &Call,
    near: usize,
    mark: usize,
) -> Remainder
    requires book { IsShowing book.now }
    requires shares { IsCallShare call.now }
    ensures { result ≡ left_to_call book.now plan.now.release item.now call.now mark }
{
    Remainder {
        item: item.item,
        opening: figure_in(book, item.item, near),
        reset: item.reset,
        line: next_call(plan.release(), call, mark),
    }
}

/// The cumulative figure of an item in a book, or 0 where the lane doesn't have it. The item is looked for
/// at the place `near` first.
fn figure_in(book: &Book, item: ItemNo, near: usize) -> u64
    requires { IsShowing book.now }
    ensures { result ≡ figure_in book.now item.0 }
{
    match book.cumulative_near(item, near) {
        Some(figure) => figure.get(),
        None => 0,
    }
}

/// The place of a lane among those that go out, or how many these are.
fn outgoing_place(lanes: &[OutgoingLane], lane: LaneNo) -> usize
    ensures { result ≡ position_or_len (λ l. l.number.0 == lane.0) lanes.now }
{
    find_outgoing(lanes, lane).unwrap_or(lanes.len())
}

/// The place of a lane among those that go out, or how many these are. The lane is looked for at `near` first, and then
/// right behind it.
fn outgoing_near(lanes: &[OutgoingLane], lane: LaneNo, near: usize) -> usize
    requires { count_by (λ l. l.number.0 == lane.0) lanes.now ≤ 1 }
    ensures { result ≡ position_or_len (λ l. l.number.0 == lane.0) lanes.now }
{
    let next = near.saturating_add(1);
    if is_outgoing_at(lanes, lane, near) {
        near
    } else if is_outgoing_at(lanes, lane, next) {
        next
    } else {
        outgoing_place(lanes, lane)
    }
}

/// Whether a lane stands at a place of those that go out.
fn is_outgoing_at(lanes: &[OutgoingLane], lane: LaneNo, place: usize) -> bool
    requires { count_by (λ l. l.number.0 == lane.0) lanes.now ≤ 1 }
    ensures { result ≡ true → position_or_len (λ l. l.number.0 == lane.0) lanes.now ≡ place }
{
    match lanes.get(place) {
        Some(known) => known.number.0 == lane.0,
        None => false,
    }
}

/// The place of a lane among those that go out.
fn find_outgoing(lanes: &[OutgoingLane], lane: LaneNo) -> Option<usize>
    ensures { result ≡ position (λ l. l.number.0 == lane.0) lanes.now }
{
    lanes.iter().position(|known| known.number.0 == lane.0)
}

/// What a despatch lane has left to ship of an item.
fn left_to_ship(items: &OutgoingItems, place: usize, mark: usize) -> Remainder
    requires { place < length items.now }
    ensures { result ≡ left_to_ship (load_at items.now place) mark }
{
    let item = items.get(place);
    Remainder {
        item: item.item,
        opening: item.figure,
        reset: item.reset,
        line: next_shipment(items.shipments(place), mark),
    }
}

/// The first shipment from a mark on.
fn next_shipment(shipments: &[Shipment], mark: usize) -> Option<NextLine>
    ensures { result ≡ next_shipment shipments.now mark }
{
    if mark < shipments.len() {
        let shipment = shipments[mark];
        Some(NextLine {
            period: shipment.period as u64,
            quantity: shipment.quantity.get(),
            after: mark + 1,
        })
    } else {
        None
    }
}

/// The first period from a mark on in which a lane's share of a release is something.
fn next_call(release: &Row, call: &Call, mark: usize) -> Option<NextLine>
    requires { IsCallShare call.now }
    ensures { result ≡ next_called release.now call.now mark }
{
    for period in mark..release.len() {
        let quantity = share_of(call.low, call.high, release.get(period).get());
        if quantity > 0 {
            return Some(NextLine {
                period: period as u64,
                quantity,
                after: period + 1,
            });
        }
    }
    None
}
