//! Records of a lane: the sender's cursor over them, the next one, and what is left to send.

ghost use Rattle.std.specs.Prelude.{◌≡◌, ℕ, IfOk};
ghost use Rattle.std.specs.List.{range_with_len};

use crate::remainder::Due;
use crate::{NextLine, Record, Remainder};
use std::alloc::{AllocError, Global};
use std::marker::Model;

/// What a sender keeps of an outgoing lane.
///
/// The items of the lane have places, from 0 on. A place is queued once its item's block may be sent; the
/// blocks go out whole, in the order of the queue, and after those of all places the closing record. The
/// cursor stands at the head of the queue, within or before that block. It stores none of the records:
/// only [`OutCursor::new`] and [`OutCursor::with_all`] take memory, and every other call is done in
/// constant time (by construction; no clause says so).
///
/// Numbers and figures are added up to 2^64 - 1. The laws say that within 64 bits nothing is lost.
#[derive(Drop)]
pub struct OutCursor {
    next: u64,
    closed: bool,
    slots: Vec<usize>,
    queued: usize,
    head: usize,
    mark: usize,
    lines: u64,
    moved: u64,
    anew: bool,
}

impl Model for OutCursor {
    ghost use Rattle.std.specs.Prelude.{take, length};
    ghost use Rattle.mrp_record.specs.Cursor.{OutFigures, IsQueue};

    ghost Value = { OutFigures };

    ghost view = { λ o. record {
      next = o.next;
      closed = o.closed;
      size = length o.slots.items;
      queue = take o.queued o.slots.items;
      head = o.head;
      mark = o.mark;
      lines = o.lines;
      moved = o.moved;
      anew = o.anew;
    } };

    ghost invariant = { λ o. IsQueue o.head o.queued o.slots.items };
}

impl OutCursor {
    ghost use Rattle.std.specs.Prelude.{◌<◌, [], slice_get, IfSome, None, take, length};
    ghost use Rattle.mrp_record.specs.Cursor.{Goods, IsQueue, unsent};
    ghost use Rattle.mrp_record.specs.declared.remainder.Due.TheVariants.{Moving, Restarting, Ending};
    ghost use Rattle.mrp_record.specs.Next.{due, figure_said, record_due, next_record, stepped, stepped_by, queued};
    ghost use Rattle.mrp_record.specs.Shows.{ShowsSent};

    /// The cursor of a lane with that many items, before the first record. No item may be sent yet.
    ///
    /// # Errors
    ///
    /// [`AllocError`] where the room for the places is refused.
    pub fn new(alloc: Global, size: usize) -> Result<OutCursor, AllocError>
        ensures shows { IfOk result (λ cursor. (goods : ℕ → Goods) → ShowsSent goods cursor []) }
        ensures size { IfOk result (λ cursor. cursor.size ≡ size) }
        ensures queue { IfOk result (λ cursor. cursor.queue ≡ []) }
    {
        let slots = vec![in alloc; 0; size]?;
        Ok(OutCursor::unsent(slots, 0))
    }

    /// The cursor of a lane with that many items, before the first record, where all may be sent: their
    /// blocks go out in the order of their places.
    ///
    /// # Errors
    ///
    /// [`AllocError`] where the room for the places is refused.
    pub fn with_all(alloc: Global, size: usize) -> Result<OutCursor, AllocError>
        ensures shows { IfOk result (λ cursor. (goods : ℕ → Goods) → ShowsSent goods cursor []) }
        ensures size { IfOk result (λ cursor. cursor.size ≡ size) }
        ensures queue { IfOk result (λ cursor. cursor.queue ≡ range_with_len 0 size) }
    {
        let slots = places(alloc, size)?;
        let queued = slots.len();
        Ok(OutCursor::unsent(slots, queued))
    }

    /// The item at a place of the lane may now be sent: its block comes after those of the places queued
    /// before. Nothing changes where the lane has no such place, or as many are queued as it has.
    pub fn push(&mut self, place: usize)
        ensures { self.new ≡ queued self.old place }
    {
        let size = self.slots.len();
        if place < size && self.queued < size {
            self.slots[self.queued] = place;
            self.queued += 1;
        }
    }

    /// The place of the item whose block is to be sent, begun or not; `None` where all queued ones are
    /// sent.
    pub fn head(&self) -> Option<usize>
        ensures value { result ≡ slice_get self.now.queue self.now.head }
        ensures place { IfSome result (λ place. place < self.now.size) }
    {
        if self.head < self.queued {
            Some(self.slots[self.head])
        } else {
            None
        }
    }

    /// The mark from which the deliveries of the item at the head are left; 0 before its first line.
    pub fn mark(&self) -> usize
        ensures { result ≡ self.now.mark }
    {
        self.mark
    }

    /// Whether the closing record was sent.
    pub fn is_closed(&self) -> bool
        ensures { result ≡ self.now.closed }
    {
        self.closed
    }

    /// The record to be sent next, where one can be. `left` is what is left of the item at
    /// [`OutCursor::head`] from [`OutCursor::mark`] on, and `None` where that is. The record then continues
    /// what was sent to a legal beginning; where there is none, no record does that may be sent.
    pub fn next_record(&self, left: Option<Remainder>) -> Option<Record>
        ensures { result ≡ next_record self.now left }
    {
        match left {
            Some(left) => Some(self.record_due(&left)),
            None => self.closing_record(),
        }
    }

    /// Goes on after the record that [`OutCursor::next_record`] gives for what is left: the cursor then
    /// shows the list with that record.
    pub fn step(&mut self, left: Option<Remainder>)
        ensures { self.new ≡ stepped self.old left }
    {
        match left {
            Some(left) => self.step_due(left.due(self.anew)),
            None => self.step_close(),
        }
    }

    /// The cursor before the first record, with the first places queued.
    fn unsent(slots: Vec<usize>, queued: usize) -> OutCursor
        requires { IsQueue 0 queued slots.items }
        ensures { result ≡ unsent (length slots.items) (take queued slots.items) }
    {
        OutCursor {
            next: 1,
            closed: false,
            slots,
            queued,
            head: 0,
            mark: 0,
            lines: 0,
            moved: 0,
            anew: false,
        }
    }

    /// The figure of the item at the head, which opened with that many pieces.
    fn figure(&self, opening: u64) -> u64
        ensures { result ≡ figure_said self.now.anew self.now.moved opening }
    {
        if self.anew {
            self.moved
        } else {
            opening.saturating_add(self.moved)
        }
    }

    /// The next record of the block of which that is left.
    fn record_due(&self, left: &Remainder) -> Record
        ensures { result ≡ record_due self.now left.now (due self.now.anew left.now) }
    {
        let number = self.next;
        let item = left.item;
        let figure = self.figure(left.opening);
        match left.due(self.anew) {
            Due::Moving(line) => Record::Line {
                number,
                item,
                period: line.period,
                quantity: line.quantity,
                cumulative: figure.saturating_add(line.quantity),
            },
            Due::Restarting => Record::Reset {
                number,
                item,
                closed: figure,
            },
            Due::Ending => Record::ItemEnd {
                number,
                item,
                lines: self.lines,
                cumulative: figure,
            },
        }
    }

    /// The closing record, where it is to be sent once no block is left of those queued.
    fn closing_record(&self) -> Option<Record>
        ensures { result ≡ next_record self.now None }
    {
        if self.closed || self.head < self.slots.len() {
            return None;
        }
        Some(Record::Close { number: self.next })
    }

    /// Goes on after a record of the block at the head.
    fn step_due(&mut self, due: Due)
        ensures { self.new ≡ stepped_by self.old due }
    {
        match due {
            Due::Moving(line) => self.step_line(line),
            Due::Restarting => self.step_reset(),
            Due::Ending => self.step_end(),
        }
    }

    /// Goes on after a line.
    fn step_line(&mut self, line: NextLine)
        ensures { self.new ≡ stepped_by self.old (Moving line) }
    {
        self.mark = line.after;
        self.lines = self.lines.saturating_add(1);
        self.moved = self.moved.saturating_add(line.quantity);
        self.next = self.next.saturating_add(1);
    }

    /// Goes on after a reset: the figure counts from 0 again.
    fn step_reset(&mut self)
        ensures { self.new ≡ stepped_by self.old Restarting }
    {
        self.moved = 0;
        self.anew = true;
        self.next = self.next.saturating_add(1);
    }

    /// Goes on after an item end: the next block of the queue is at the head.
    fn step_end(&mut self)
        ensures { self.new ≡ stepped_by self.old Ending }
    {
        if self.head < self.queued {
            self.head += 1;
        }
        self.mark = 0;
        self.lines = 0;
        self.moved = 0;
        self.anew = false;
        self.next = self.next.saturating_add(1);
    }

    /// Goes on after the closing record.
    fn step_close(&mut self)
        ensures { self.new ≡ stepped self.old None }
    {
        self.closed = true;
        self.next = self.next.saturating_add(1);
    }
}

/// All places of a lane with that many items, in order.
fn places(alloc: Global, size: usize) -> Result<Vec<usize>, AllocError>
    ensures { IfOk result (λ slots. slots.items ≡ range_with_len 0 size) }
{
    (0..size).collect(alloc)
}
