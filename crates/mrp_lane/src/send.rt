//! A lane's mailbox between threads: the sender's end, by which a record is offered.
ghost use Rattle.std.specs.Prelude.{◌≡◌, ◌<◌, true, false, [], ◌∷◌, ◌++◌, length, IfErr, OnOk, IsTrue};
ghost use Rattle.crossbeam_queue.specs.Fifo.{Held};
ghost use Rattle.crossbeam_queue.specs.Passes.{view, IsPassOf, IsSamePass, ruled_capacity};
ghost use Rattle.mrp_net.specs.Lanes.{lanes};
ghost use Rattle.mrp_lane.specs.Ends.{HasLegalList, IsNextRecord};
ghost use Rattle.mrp_lane.specs.Views.{view_with_sent, IsLegal, IsUntaken};

use crate::tally::Tally;
use crate::view::{LanePass, Mailbox, Sent, Stamp};
use mrp_net::LaneNo;
use mrp_record::Record;
use std::alloc::Global;
use std::marker::{Brand, Model};
use std::sync::{Arc, Wait};

/// The sender's end of a lane.
///
/// Contracts see the lane's name and the list of all records that were offered and not refused, with their stamps.
#[derive(Drop)]
pub struct SendEnd {
    pub(crate) mailbox: Arc<Mailbox, Global>,
    pub(crate) pass: LanePass,
    pub(crate) lane: LaneNo,
    pub(crate) tally: Tally,
}

impl Model for SendEnd {
    ghost use Rattle.std.specs.Prelude.{◌≡◌, true};
    ghost use Rattle.std.specs.Arc.{arc_value};
    ghost use Rattle.crossbeam_queue.specs.Passes.{view as known};
    ghost use Rattle.mrp_lane.specs.Ends.{End, Holds, end_of};

    ghost Value = { End };

    ghost view = { λ e. end_of (arc_value e.mailbox) e.pass e.lane.0 (known e.pass).sent (known e.pass).sent_at };

    ghost invariant = { λ e.
        ((known e.pass).sends ≡ true) × Holds (arc_value e.mailbox) e.pass e.lane.0 (known e.pass).sent e.tally };
}

impl SendEnd {
    /// The lane's number.
    pub fn lane(&self) -> LaneNo
        ensures value { result.0 ≡ self.now.name.lane }
        ensures there { result.0 < length (lanes self.now.name.network) }
        ensures legal { HasLegalList self.now }
    {
        self.lane
    }

    /// Puts the record into the mailbox, behind those before it. It allocates nothing (by construction; no
    /// clause says so).
    ///
    /// The record has to continue what this end has sent to a legal beginning of the lane's text. It goes with the
    /// stamp that the caller picks for its proof, `S`; `Brand` stands for the pick.
    ///
    /// # Errors
    ///
    /// The same record, where the queue under the mailbox finds no room; nothing is changed then. By `full` at
    /// least as many records were sent as it has room for. That so many lay in it at one moment of the call is
    /// what the kit says of its queue, and no clause of this call.
    pub fn offer<S: Stamp, R: Wait>(&mut self, rt: &R, entry: Record) -> Result<(), Record>
        requires legal { IsNextRecord self.old entry }
        ensures name { self.new.name ≡ self.old.name }
        ensures sent { OnOk result (self.new.list ≡ self.old.list ++ entry ∷ []) }
        ensures stamped { OnOk result (self.new.stamps ≡ self.old.stamps ++ S.stamp ∷ []) }
        ensures back { IfErr result (λ back. back ≡ entry) }
        ensures unchanged { IfErr result (λ _. self.new.list ≡ self.old.list) }
        ensures unstamped { IfErr result (λ _. self.new.stamps ≡ self.old.stamps) }
        ensures full { IfErr result (λ _. Held self.old.name.room (IsUntaken self.old.list)) }
    {
        if let Err(back) = push::<S, R>(rt, &self.mailbox, &mut self.pass, entry) {
            return Err(back);
        }
        self.tally.add(&entry);
        Ok(())
    }

    /// Whether the mailbox has room for a record, so that none is made that would be refused. This end alone fills it,
    /// so the room that is found stays (by construction; no clause says so). Until as many records were sent as it has
    /// room for, the mailbox isn't looked at.
    pub fn has_room(&mut self) -> bool
        ensures same { self.new ≡ self.old }
        ensures full { result ≡ false → Held self.old.name.room (IsUntaken self.old.list) }
    {
        if self.tally.records() < self.mailbox.capacity() as u64 {
            return true;
        }
        !is_full(&self.mailbox, &mut self.pass)
    }
}

/// Whether the mailbox is full.
fn is_full(mailbox: &Mailbox, pass: &mut LanePass) -> bool
    requires pass { IsPassOf mailbox.now pass.old }
    requires sends { (view pass.old).sends ≡ true }
    ensures same { IsSamePass pass.old pass.new }
    ensures unchanged { view pass.new ≡ view pass.old }
    ensures full { IsTrue result → Held (ruled_capacity mailbox.now) (IsUntaken (view pass.old).sent) }
{
    mailbox.is_full_as::<Sent<Brand>>(pass)
}

/// Pushes the record with the stamp.
fn push<S: Stamp, R: Wait>(
    rt: &R,
    mailbox: &Mailbox,
    pass: &mut LanePass,
    entry: Record,
) -> Result<(), Record>
    requires pass { IsPassOf mailbox.now pass.old }
    requires sends { (view pass.old).sends ≡ true }
    requires named { (view pass.old).named ≡ true }
    requires legal { IsLegal (view pass.old).network (view pass.old).lane ((view pass.old).sent ++ entry ∷ []) }
    ensures same { IsSamePass pass.old pass.new }
    ensures sent { OnOk result (view pass.new ≡ view_with_sent (view pass.old) entry S.stamp) }
    ensures back { IfErr result (λ back. back ≡ entry) }
    ensures unchanged { IfErr result (λ _. view pass.new ≡ view pass.old) }
    ensures full { IfErr result (λ _. Held (ruled_capacity mailbox.now) (IsUntaken (view pass.old).sent)) }
{
    mailbox.push_as::<Sent<S>, R>(rt, pass, entry)
}
