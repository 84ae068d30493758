//! The agent: the rooms that it is made of.

ghost use Rattle.std.specs.Prelude.{◌≡◌, ℕ, ◌++◌, ◌<◌, ◌≤◌, ◌^◌, [], false, All, IfOk, length, map, replicate};
ghost use Rattle.std.specs.List.{flat_map};
ghost use Rattle.mrp_qty.specs.declared.quantity.TheConstants.{MOST};
ghost use Rattle.mrp_book.specs.Figures.{BookShows};
ghost use Rattle.mrp_readiness.specs.Counts.{AreCounts};
ghost use Rattle.mrp_readiness.specs.Progress.{times};
ghost use Rattle.mrp_plant_view.specs.Seen.{IsIncomingItem, IsIncomingLane};
ghost use Rattle.mrp_agent.specs.Kept.{HasSmallItems};
ghost use Rattle.mrp_agent.specs.Making.{AreFit, AreIdleOuts, new_figures, IsIdleOut, awaited_places, place_awaited};
ghost use Rattle.mrp_agent.specs.Shows.{book_item, form_of};

use crate::PairNo;
use mrp_book::{Book, BookItem};
use mrp_net::LaneKind;
use mrp_plant_view::{IncomingItem, IncomingLane, OutgoingLane, PlantFrame};
use mrp_qty::{Memory, Qty};
use mrp_readiness::{Join, Readiness, first_waits};
use mrp_record::OutCursor;
use std::alloc::{AllocError, Global};

/// The book of each lane that comes in.
pub(crate) fn new_books(
    alloc: Global,
    view: &PlantFrame,
    lanes: &[IncomingLane],
) -> Result<Vec<Book>, AllocError>
    requires lanes { All (IsIncomingLane view.now) lanes.now }
    requires openings { All HasSmallItems lanes.now }
    ensures { IfOk result (λ v. v.items ≡ map (new_figures view.now) lanes.now) }
{
    let mut books = Vec::new(alloc);
    for lane in lanes {
        books.push(new_book(alloc, view, lane)?)?;
    }
    Ok(books)
}

/// The book of one lane.
fn new_book(alloc: Global, view: &PlantFrame, lane: &IncomingLane) -> Result<Book, AllocError>
    requires lane { IsIncomingLane view.now lane.now }
    requires openings { HasSmallItems lane.now }
    ensures shows { IfOk result (λ b. BookShows (form_of view.now lane.now) b []) }
    ensures value { IfOk result (λ b. b ≡ new_figures view.now lane.now) }
{
    let items = book_items(alloc, lane.items.as_slice())?;
    Book::new(alloc, lane.kind, view.horizon(), &items)
}

/// The items of a lane, as its book is given them.
fn book_items(alloc: Global, items: &[IncomingItem]) -> Result<Vec<BookItem>, AllocError>
    requires { All (λ i. i.opening ≤ MOST) items.now }
    ensures { IfOk result (λ v. v.items ≡ map book_item items.now) }
{
    let mut found = Vec::new(alloc);
    for item in items {
        found.push(BookItem {
            item: item.item,
            opening: Qty::of(item.opening),
            reset: item.reset,
        })?;
    }
    Ok(found)
}

/// Each amount has 64 bits.
pub(crate) fn are_fit(amounts: &[u64])
    ensures { AreFit amounts.now }
{
    let _count = amounts.len();
}

/// Nothing is planned, and each pair waits for its parents and for the blocks that are to come.
pub(crate) fn first_progress(
    alloc: Global,
    view: &PlantFrame,
    joins: &[Join],
) -> Result<Readiness, Memory>
    requires lanes { All (IsIncomingLane view.now) view.now.incoming }
    requires joins { All (λ j. j.component < length view.now.pairs) joins.now }
    requires few { length joins.now < 2 ^ 63 }
    ensures numbers { IfOk result (λ r. r.numbers ≡ map (λ p. p.number) view.now.pairs) }
    ensures planned { IfOk result (λ r. r.planned ≡ replicate (length view.now.pairs) false) }
    ensures size { IfOk result (λ r. length r.waits ≡ length view.now.pairs) }
    ensures waits { IfOk result (λ r. AreCounts r.waits joins.now r.planned (λ y. times y (awaited_places view.now))) }
{
    let numbers = numbers(alloc, view)?;
    let awaited = awaited_places(alloc, view, view.incoming())?;
    let waits = first_waits(alloc, joins, &awaited, numbers.len())?;
    Ok(Readiness::new(alloc, &numbers, waits)?)
}

/// The numbers of the pairs.
fn numbers(alloc: Global, view: &PlantFrame) -> Result<Vec<PairNo>, AllocError>
    ensures { IfOk result (λ v. v.items ≡ map (λ p. p.number) view.now.pairs) }
{
    view.pairs().iter().map(|pair| pair.number).collect(alloc)
}

/// The place of the pair of each block that comes in.
fn awaited_places(
    alloc: Global,
    view: &PlantFrame,
    lanes: &[IncomingLane],
) -> Result<Vec<usize>, AllocError>
    requires { All (IsIncomingLane view.now) lanes.now }
    ensures { IfOk result (λ v. v.items ≡ flat_map (λ lane. map (place_awaited view.now) lane.items) lanes.now) }
{
    let mut places = Vec::new(alloc);
    for lane in lanes {
        add_awaited(&mut places, view, lane.items.as_slice())?;
    }
    Ok(places)
}

/// Adds the places of the pairs of a lane's items.
fn add_awaited(
    places: &mut Vec<usize>,
    view: &PlantFrame,
    items: &[IncomingItem],
) -> Result<(), AllocError>
    requires { All (IsIncomingItem view.now) items.now }
    ensures { IfOk result (λ _. places.new.items ≡ places.old.items ++ map (place_awaited view.now) items.now) }
{
    for item in items {
        places.push(view.place(item.pair).unwrap())?;
    }
    Ok(())
}

/// The cursor of each lane, before the first record. What is shipped may be sent at once.
pub(crate) fn idle_outs(alloc: Global, lanes: &[OutgoingLane]) -> Result<Vec<OutCursor>, AllocError>
    ensures { IfOk result (λ v. AreIdleOuts lanes.now v.items) }
{
    let mut outs = Vec::new(alloc);
    for lane in lanes {
        outs.push(idle_out(alloc, lane.kind, lane.items.len())?)?;
    }
    Ok(outs)
}

/// The cursor of a lane with so many items.
fn idle_out(alloc: Global, kind: LaneKind, size: usize) -> Result<OutCursor, AllocError>
    ensures { IfOk result (λ o. IsIdleOut kind size o) }
{
    match kind {
        LaneKind::Despatch => OutCursor::with_all(alloc, size),
        LaneKind::Schedule => OutCursor::new(alloc, size),
    }
}
