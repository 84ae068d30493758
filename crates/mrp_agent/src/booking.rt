//! The agent of a plant: how it books a record that has come to it.

ghost use Rattle.std.specs.Prelude.{◌≡◌, ◌==◌, ◌*◌, ◌<◌, ◌≤◌, count_by, length, position, IfSome};
ghost use Rattle.std.specs.List.{position_or_len};
ghost use Rattle.mrp_agent.specs.After.{receipts_after, demand_after, items_of, with_line, added_at, ended_place};
ghost use Rattle.mrp_agent.specs.After.{BlockEnded, IsAwaited};

use crate::Agent;
use crate::places::ItemPlaces;
use mrp_book::BookFault;
use mrp_net::{LaneKind, LaneNo};
use mrp_plant_view::{IncomingLane, PlantFrame};
use mrp_readiness::Readiness;
use mrp_record::Record;

impl Agent {
    ghost use Rattle.std.specs.Prelude.{ℕ, List, [], ◌∷◌, ◌++◌, Bool, Some, IfErr, OnErr, OnOk};
    ghost use Rattle.mrp_record.specs.declared.record.Record.{Record};
    ghost use Rattle.mrp_record.specs.Form.{IsInForm};
    ghost use Rattle.mrp_book.specs.Faults.{first_fault};
    ghost use Rattle.mrp_book.specs.Figures.{figures};
    ghost use Rattle.mrp_protocol.specs.State.{changed};
    ghost use Rattle.mrp_agent.specs.State.{incoming_place, incoming_at};
    ghost use Rattle.mrp_agent.specs.Shows.{ShowsHistory, BooksShow, form_of};
    ghost use Rattle.mrp_agent.specs.Sent.{IsRefused, with_taken};

    /// Books the next record of a lane that comes in.
    ///
    /// # Errors
    ///
    /// The first fault of the lane's book; then nothing has changed.
    pub fn book(&mut self, lane: LaneNo, entry: &Record) -> Result<(), BookFault>
        requires incoming { incoming_place self.old.view lane.0 < length self.old.view.incoming }
        ensures view { self.new.view ≡ self.old.view }
        ensures booked { OnOk result ((sent taken : ℕ → List Record) (planned : ℕ → Bool)
            → ShowsHistory self.old sent taken planned
            → ShowsHistory self.new sent (changed taken lane.0 (taken lane.0 ++ entry.now ∷ [])) planned) }
        ensures refused { IfErr result (λ fault. (taken : ℕ → List Record) → BooksShow self.old taken
            → (first_fault (figures (form_of self.old.view
            (incoming_at self.old.view (incoming_place self.old.view lane.0)))
            (taken lane.0)) entry.now ≡ Some fault)
            × (IsInForm (form_of self.old.view (incoming_at self.old.view (incoming_place self.old.view lane.0)))
            (taken lane.0 ++ entry.now ∷ []) → ⊥)) }
        ensures unchanged { OnErr result (self.new ≡ self.old) }
    {
        let k = self.in_place(lane);
        self.book_at(k, entry)
    }

    /// The place of a lane among those that come in, or how many these are. It is looked for first where the last
    /// record was booked.
    fn in_place(&self, lane: LaneNo) -> usize
        ensures { result ≡ incoming_place self.now.view lane.0 }
    {
        incoming_near(self.view.incoming(), lane, self.last.booked)
    }

    /// Books the next record of the lane at a place among those that come in.
    ///
    /// # Errors
    ///
    /// The first fault of the lane's book; then nothing has changed.
    pub fn book_at(&mut self, k: usize, entry: &Record) -> Result<(), BookFault>
        requires incoming { k < length self.old.view.incoming }
        ensures view { self.new.view ≡ self.old.view }
        ensures booked { OnOk result ((sent taken : ℕ → List Record) (planned : ℕ → Bool)
            → ShowsHistory self.old sent taken planned
            → ShowsHistory self.new sent (with_taken self.old.view taken k entry.now) planned) }
        ensures refused { IfErr result (λ fault. (taken : ℕ → List Record) → BooksShow self.old taken
            → IsRefused self.old.view k (taken (incoming_at self.old.view k).number.0) entry.now fault) }
        ensures unchanged { OnErr result (self.new ≡ self.old) }
    {
        self.lanes.books[k].book(entry)?;
        let kind = self.view.incoming()[k].kind;
        let near = pair_near(&self.structure.items, entry, self.last.pair);
        self.last.booked = k;
        self.last.pair = near;
        add_entry(
            &mut self.amounts.scheduled_receipts,
            &mut self.amounts.outside_demand,
            &self.view,
            &self.structure.items,
            near,
            kind,
            entry,
        );
        end_block(
            &mut self.structure.progress,
            &self.structure.items,
            near,
            entry,
        );
        Ok(())
    }
}

/// The place of a lane among those that come in, or how many these are.
pub(crate) fn incoming_place(lanes: &[IncomingLane], lane: LaneNo) -> usize
    ensures { result ≡ position_or_len (λ l. l.number.0 == lane.0) lanes.now }
{
    find_incoming(lanes, lane).unwrap_or(lanes.len())
}

/// The place of a lane among those that come in, or how many these are. The lane is looked for at `near` first.
pub(crate) fn incoming_near(lanes: &[IncomingLane], lane: LaneNo, near: usize) -> usize
    requires { count_by (λ l. l.number.0 == lane.0) lanes.now ≤ 1 }
    ensures { result ≡ position_or_len (λ l. l.number.0 == lane.0) lanes.now }
{
    match lanes.get(near) {
        Some(known) if known.number.0 == lane.0 => near,
        _ => incoming_place(lanes, lane),
    }
}

/// The place of a lane among those that come in.
fn find_incoming(lanes: &[IncomingLane], lane: LaneNo) -> Option<usize>
    ensures { result ≡ position (λ l. l.number.0 == lane.0) lanes.now }
{
    lanes.iter().position(|known| known.number.0 == lane.0)
}

/// Where the item of a record stands among those of the plant's pairs, by a look at the place `near` and
/// right behind it first. It is `near` where the record has no item.
fn pair_near(items: &ItemPlaces, entry: &Record, near: usize) -> usize {
    match *entry {
        Record::Line { item, .. } | Record::ItemEnd { item, .. } | Record::Reset { item, .. } => {
            items.find_near(item, near).unwrap_or(near)
        }
        Record::Close { .. } => near,
    }
}

/// Adds the pieces of a line where they belong: on a despatch lane they come in, on a schedule lane they
/// are called for. Their pair is looked for at the place `near` first.
fn add_entry(
    receipts: &mut Vec<u64>,
    demand: &mut Vec<u64>,
    view: &PlantFrame,
    items: &ItemPlaces,
    near: usize,
    kind: LaneKind,
    entry: &Record,
)
    requires items { items.now ≡ items_of view.now }
    requires receipts { length receipts.old.items ≡ length view.now.pairs * view.now.horizon }
    requires demand { length demand.old.items ≡ length view.now.pairs * view.now.horizon }
    ensures receipts { receipts.new.items ≡ receipts_after kind view.now receipts.old.items entry.now }
    ensures demand { demand.new.items ≡ demand_after kind view.now demand.old.items entry.now }
{
    let periods = view.horizon().get() as usize;
    match kind {
        LaneKind::Despatch => add_line(receipts, items, near, periods, entry),
        LaneKind::Schedule => add_line(demand, items, near, periods, entry),
    }
}

/// Adds the pieces of a line at its pair and period; another record adds nothing.
fn add_line(amounts: &mut [u64], items: &ItemPlaces, near: usize, periods: usize, entry: &Record)
    requires room { length items.now * periods ≤ length amounts.old }
    ensures { amounts.new ≡ with_line items.now periods amounts.old entry.now }
{
    let Record::Line {
        item,
        period,
        quantity,
        ..
    } = *entry
    else {
        return;
    };
    let Some(place) = items.find_near(item, near) else {
        return;
    };
    if period < periods as u64 {
        add_at(amounts, place * periods + period as usize, quantity);
    }
}

/// Adds pieces to an amount. A sum past 2^64 - 1 stays there.
fn add_at(amounts: &mut [u64], at: usize, quantity: u64)
    requires { at < length amounts.old }
    ensures { amounts.new ≡ added_at amounts.old at quantity }
{
    amounts[at] = amounts[at].saturating_add(quantity);
}

/// Counts the block of an item as ended at the item's end.
fn end_block(progress: &mut Readiness, items: &ItemPlaces, near: usize, entry: &Record)
    requires { IfSome (ended_place items.now entry.now) (λ y. IsAwaited progress.old y) }
    ensures { BlockEnded (ended_place items.now entry.now) progress.old progress.new }
{
    let Record::ItemEnd { item, .. } = *entry else {
        return;
    };
    let Some(place) = items.find_near(item, near) else {
        return;
    };
    progress.arrive(place);
}
