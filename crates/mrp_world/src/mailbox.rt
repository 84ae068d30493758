//! The world: its mailbox of a lane, where on the one thread records wait in the order in which they were sent.
ghost use Rattle.std.specs.Prelude.{◌≡◌, ◌<◌, ◌++◌, ◌^◌, [], ◌∷◌, length, nat_lt, IfOk, slice_get, drop};
ghost use Rattle.mrp_record.specs.Entries.{contents, moved};

use mrp_qty::Memory;
use mrp_record::{ItemNo, Record};
use std::alloc::Global;
use std::collections::VecDeque;
use std::marker::Model;

/// The records that have been sent over a lane and not yet taken, first in first out. It takes all its room at
/// once, so that no call after [`Mailbox::new`] takes memory (by construction; no clause says so).
#[derive(Drop)]
pub struct Mailbox {
    records: VecDeque<Record>,
    room: usize,
}

impl Model for Mailbox {
    ghost use Rattle.std.specs.Prelude.{◌≤◌};
    ghost use Rattle.std.specs.VecDeque.{deque_capacity};
    ghost use Rattle.mrp_world.specs.Mailbox.{Held};

    ghost Value = { Held };

    ghost view = { λ m. record { records = m.records.items; room = m.room } };

    ghost invariant = { λ m. m.room ≤ deque_capacity m.records };
}

impl Mailbox {
    /// An empty mailbox with room for so many records.
    ///
    /// # Errors
    ///
    /// [`Memory`] where the room is refused.
    pub fn new(alloc: Global, room: usize) -> Result<Mailbox, Memory>
        ensures { IfOk result (λ mailbox. mailbox ≡ record { records = []; room = room }) }
    {
        let records = VecDeque::with_capacity(alloc, room)?;
        Ok(Mailbox { records, room })
    }

    /// Whether one record more has room.
    pub fn has_room(&self) -> bool
        ensures { result ≡ nat_lt (length self.now.records) self.now.room }
    {
        self.records.len() < self.room
    }

    /// Adds a record behind the others; the caller has seen that there is room.
    pub fn push(&mut self, entry: Record)
        requires { length self.old.records < self.old.room }
        ensures { self.new ≡ record { records = self.old.records ++ entry ∷ []; room = self.old.room } }
    {
        self.records.push_back_reserved(entry);
    }

    /// The record that was sent first, which stays; `None` where none waits.
    pub fn first(&self) -> Option<Record>
        ensures { result ≡ slice_get self.now.records 0 }
    {
        self.records.front().copied()
    }

    /// Drops the first record. One that is alone is taken from the back, so that the next one lies where it
    /// lay, and room that is never needed is never touched (by construction; no clause says so).
    pub fn drop_first(&mut self)
        ensures { self.new ≡ record { records = drop 1 self.old.records; room = self.old.room } }
    {
        if self.records.len() == 1 {
            let _alone = self.records.pop_back();
            return;
        }
        let _taken = self.records.pop_front();
    }

    /// The pieces of an item's lines among the records: the caller knows that they are below 2^64.
    pub fn pieces(&self, item: ItemNo) -> u64
        requires { moved item.0 (contents self.now.records) < 2 ^ 64 }
        ensures { result ≡ moved item.0 (contents self.now.records) }
    {
        let mut pieces = 0;
        for at in 0..self.records.len() {
            pieces += pieces_in(&self.records[at], item);
        }
        pieces
    }
}

/// The pieces of a record, where it is a line of the item.
fn pieces_in(entry: &Record, item: ItemNo) -> u64
    ensures { result ≡ moved item.0 (contents (entry.now ∷ [])) }
{
    match *entry {
        Record::Line {
            item: of,
            quantity,
            ..
        } if of.0 == item.0 => quantity,
        _ => 0,
    }
}
