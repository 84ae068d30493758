//! The book of a lane's receiver: the records that came, as figures.

ghost use Rattle.std.specs.Prelude.{◌≡◌, ◌<◌, IfOk, IfSome};
ghost use Rattle.std.specs.List.{list_all};
ghost use Rattle.mrp_net.specs.LaneLaws.{is_schedule};

use crate::{BookFault, BookItem, ItemFigure};
use mrp_grouping::Places;
use mrp_net::{ItemNo, LaneKind};
use mrp_qty::{Horizon, MOST, Qty};
use mrp_record::Record;
use std::alloc::{AllocError, Global};
use std::marker::Model;

/// The book of a lane's receiver.
///
/// It shows a list of records in form and takes the next record exactly where the list stays in form. It
/// keeps figures only: no call but [`Book::new`] takes memory, and each is done in constant time, but for
/// the closing record, which looks at each item once (by construction; no clause says so).
#[derive(Drop)]
pub struct Book {
    rising: bool,
    horizon: Horizon,
    next: u64,
    closed: bool,
    begun: Option<ItemNo>,
    near: usize,
    places: Places<ItemNo>,
    items: Vec<ItemFigure>,
}

impl Model for Book {
    ghost use Rattle.std.specs.Prelude.{option_map};
    ghost use Rattle.mrp_book.specs.Figures.{Figures};
    ghost use Rattle.mrp_book.specs.After.{IsBook};

    ghost Value = { Figures };

    ghost view = { λ b. record {
      rising = b.rising;
      horizon = b.horizon;
      next = b.next;
      closed = b.closed;
      begun = option_map (λ i. i.0) b.begun;
      items = b.items.items;
    } };

    ghost invariant = { λ b. IsBook b.next b.places b.items.items };
}

impl Book {
    ghost use Rattle.std.specs.Prelude.{◌==◌, ◌+◌, [], ◌∷◌, ◌++◌, List, false, length, position};
    ghost use Rattle.std.specs.Prelude.{option_map, unwrap_or, IfErr};
    ghost use Rattle.std.specs.Prelude.{None, OnErr, OnOk, Some};
    ghost use Rattle.std.specs.List.{IsDistinct};
    ghost use Rattle.mrp_record.specs.declared.record.Record.TheVariants.{Line, ItemEnd, Reset, Close};
    ghost use Rattle.mrp_book.specs.After.{Books};
    ghost use Rattle.mrp_book.specs.Faults.{Answers, number_tests, close_tests, first_fault, is_other_begun, IsInTurn};
    ghost use Rattle.mrp_record.specs.Entries.{contents, cum, in_force, is_closed, is_ended};
    ghost use Rattle.mrp_record.specs.Form.{item_on, IsInForm, LaneForm};
    ghost use Rattle.mrp_record.specs.declared.record.Record.{Record};
    ghost use Rattle.mrp_book.specs.Figures.{figures, book_form, is_same_book_item, BookShows};
    ghost use Rattle.mrp_book.specs.Meanings.{first_had};

    /// The book of a lane's receiver before the first record.
    ///
    /// `kind` says whether periods rise within an item's block, `horizon` how many periods there are.
    /// `items` are the lane's, each once; there may be none.
    ///
    /// # Errors
    ///
    /// [`AllocError`] where the room for the items is refused.
    pub fn new(
        alloc: Global,
        kind: LaneKind,
        horizon: Horizon,
        items: &[BookItem],
    ) -> Result<Book, AllocError>
        requires once { IsDistinct is_same_book_item items.now }
        ensures shows { IfOk result (λ book. BookShows (book_form kind horizon items.now) book []) }
    {
        let mut places = Places::new(alloc);
        let mut figures = Vec::new(alloc);
        for item in items {
            places.push(item.item)?;
            figures.push(ItemFigure::opened(item))?;
        }
        Ok(Book {
            rising: rises_on(kind),
            horizon,
            next: 1,
            closed: false,
            begun: None,
            near: 0,
            places,
            items: figures,
        })
    }

    /// Books the next record of the lane.
    ///
    /// # Errors
    ///
    /// The first fault that holds; then nothing has changed.
    pub fn book(&mut self, entry: &Record) -> Result<(), BookFault>
        ensures booked { OnOk result ((F : LaneForm) (records : List Record) → BookShows F self.old records
            → BookShows F self.new (records ++ entry.now ∷ [])) }
        ensures refused { IfErr result (λ fault. (F : LaneForm) (records : List Record) → BookShows F self.old records
            → (first_fault (figures F records) entry.now ≡ Some fault) × (IsInForm F (records ++ entry.now ∷ []) → ⊥)) }
        ensures first { IfErr result (λ fault. (F : LaneForm) (records : List Record) → BookShows F self.old records
            → first_had F records entry.now ≡ Some fault) }
        ensures unchanged { OnErr result (self.new ≡ self.old) }
    {
        self.book_exactly(*entry)
    }

    /// The cumulative figure of an item, closed years added, or `None` where it isn't on the lane.
    pub fn cumulative(&self, item: ItemNo) -> Option<Qty>
        ensures { (F : LaneForm) (records : List Record) → BookShows F self.now records
            → result ≡ option_map (λ i. cum i.opening i.item (contents records)) (item_on F item.0) }
    {
        self.cumulative_near(item, self.near)
    }

    /// The cumulative figure of an item, or `None` where it isn't on the lane. The item is looked for at the place
    /// `near` among the lane's, and right behind it, first.
    pub fn cumulative_near(&self, item: ItemNo, near: usize) -> Option<Qty>
        ensures { (F : LaneForm) (records : List Record) → BookShows F self.now records
            → result ≡ option_map (λ i. cum i.opening i.item (contents records)) (item_on F item.0) }
    {
        match self.find_near(item, near) {
            Some(place) => {
                let known = self.items[place];
                Some(Qty::of(known.figure + known.closed))
            }
            None => None,
        }
    }

    /// The figure in force of an item, counted since its reset if that is booked, or `None` where it isn't
    /// on the lane.
    pub fn in_force(&self, item: ItemNo) -> Option<Qty>
        ensures { (F : LaneForm) (records : List Record) → BookShows F self.now records
            → result ≡ option_map (λ i. in_force i.opening i.item (contents records)) (item_on F item.0) }
    {
        match self.find(item) {
            Some(place) => {
                let known = self.items[place];
                Some(Qty::of(known.figure))
            }
            None => None,
        }
    }

    /// Whether the end of an item is booked; false where it isn't on the lane.
    pub fn ended(&self, item: ItemNo) -> bool
        ensures { (F : LaneForm) (records : List Record) → BookShows F self.now records
            → result ≡ unwrap_or (option_map (λ i. is_ended i.item (contents records)) (item_on F item.0)) false }
    {
        match self.find(item) {
            Some(place) => {
                let known = self.items[place];
                known.ended
            }
            None => false,
        }
    }

    /// Whether the closing record is booked.
    pub fn closed(&self) -> bool
        ensures { (F : LaneForm) (records : List Record) → BookShows F self.now records
            → result ≡ is_closed (contents records) }
    {
        self.closed
    }

    /// The number of the next record, from 1.
    pub fn next_number(&self) -> u64
        ensures { (F : LaneForm) (records : List Record) → BookShows F self.now records → result ≡ length records + 1 }
    {
        self.next
    }

    /// Books a record where no fault holds.
    fn book_exactly(&mut self, entry: Record) -> Result<(), BookFault>
        ensures { Books self.old self.new entry result }
    {
        match entry {
            Record::Line {
                number,
                item,
                period,
                quantity,
                cumulative,
            } => self.book_line(number, item, period, quantity, cumulative),
            Record::ItemEnd {
                number,
                item,
                lines,
                cumulative,
            } => self.book_end(number, item, lines, cumulative),
            Record::Reset {
                number,
                item,
                closed,
            } => self.book_reset(number, item, closed),
            Record::Close { number } => self.book_close(number),
        }
    }

    /// Whether a number is the next one and the lane isn't closed.
    fn check_number(&self, number: u64) -> Result<(), BookFault>
        ensures { Answers result (number_tests self.now number) }
    {
        if number < self.next {
            return Err(BookFault::Repeated);
        }
        if number > self.next {
            return Err(BookFault::Gap);
        }
        if self.closed {
            return Err(BookFault::AfterClose);
        }
        Ok(())
    }

    /// The place of an item among those of the lane.
    fn find(&self, item: ItemNo) -> Option<usize>
        ensures place { result ≡ position (λ g. g.item.0 == item.0) self.now.items }
        ensures within { IfSome result (λ place. place < length self.now.items) }
    {
        self.places.find(item)
    }

    /// The place of an item, which is looked for at the place `near` and right behind it first.
    fn find_near(&self, item: ItemNo, near: usize) -> Option<usize>
        ensures place { result ≡ position (λ g. g.item.0 == item.0) self.now.items }
        ensures within { IfSome result (λ place. place < length self.now.items) }
    {
        self.places.find_near(item, near)
    }

    /// Whether the block of another item has begun and isn't ended.
    fn is_other_begun(&self, item: ItemNo) -> bool
        ensures { result ≡ is_other_begun self.now.begun item.0 }
    {
        match self.begun {
            None => false,
            Some(begun) => begun != item,
        }
    }

    /// The place of an item whose block may go on.
    fn place_in_turn(&self, item: ItemNo) -> Result<usize, BookFault>
        ensures { IsInTurn result self.now item.0 }
    {
        let Some(place) = self.find_near(item, self.near) else {
            return Err(BookFault::NotOnLane);
        };
        let figure = self.items[place];
        if figure.ended || self.is_other_begun(item) {
            return Err(BookFault::AfterItemEnd);
        }
        Ok(place)
    }

    /// Books a line.
    fn book_line(
        &mut self,
        number: u64,
        item: ItemNo,
        period: u64,
        quantity: u64,
        cumulative: u64,
    ) -> Result<(), BookFault>
        ensures { Books self.old self.new (Line number item period quantity cumulative) result }
    {
        self.check_number(number)?;
        let place = self.place_in_turn(item)?;
        let figure = self.items[place];
        figure.check_line(
            self.rising,
            self.horizon.get(),
            number,
            period,
            quantity,
            cumulative,
        )?;
        self.items[place].add_line(period, quantity);
        self.begun = Some(item);
        self.near = place;
        self.next += 1;
        Ok(())
    }

    /// Books an item end.
    fn book_end(
        &mut self,
        number: u64,
        item: ItemNo,
        lines: u64,
        cumulative: u64,
    ) -> Result<(), BookFault>
        ensures { Books self.old self.new (ItemEnd number item lines cumulative) result }
    {
        self.check_number(number)?;
        let place = self.place_in_turn(item)?;
        let figure = self.items[place];
        figure.check_end(number, lines, cumulative)?;
        self.items[place].add_end();
        self.begun = None;
        self.near = place;
        self.next += 1;
        Ok(())
    }

    /// Books a reset.
    fn book_reset(&mut self, number: u64, item: ItemNo, closed: u64) -> Result<(), BookFault>
        ensures { Books self.old self.new (Reset number item closed) result }
    {
        self.check_number(number)?;
        let place = self.place_in_turn(item)?;
        let figure = self.items[place];
        figure.check_reset(number, closed)?;
        self.items[place].add_reset();
        self.begun = Some(item);
        self.near = place;
        self.next += 1;
        Ok(())
    }

    /// The first fault of a closing record with the next number.
    fn check_close(&self, number: u64) -> Result<(), BookFault>
        ensures { Answers result (close_tests self.now number) }
    {
        if number > MOST {
            return Err(BookFault::TooLarge);
        }
        if !are_all_ended(&self.items) {
            return Err(BookFault::CloseEarly);
        }
        Ok(())
    }

    /// Books the closing record.
    fn book_close(&mut self, number: u64) -> Result<(), BookFault>
        ensures { Books self.old self.new (Close number) result }
    {
        self.check_number(number)?;
        self.check_close(number)?;
        self.begun = None;
        self.closed = true;
        self.next += 1;
        Ok(())
    }
}

/// Whether the end of each item is booked.
fn are_all_ended(items: &[ItemFigure]) -> bool
    ensures { result ≡ list_all (λ g. g.ended) items.now }
{
    items.iter().all(|figure| figure.ended)
}

/// Whether the periods of an item rise on lanes of that kind.
fn rises_on(kind: LaneKind) -> bool
    ensures { result ≡ is_schedule kind }
{
    match kind {
        LaneKind::Despatch => false,
        LaneKind::Schedule => true,
    }
}
