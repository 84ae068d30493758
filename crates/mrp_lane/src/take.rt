//! A lane's mailbox between threads: the receiver's end, by which a record is taken.
ghost use Rattle.std.specs.Prelude.{◌≡◌, ◌<◌, true, [], ◌∷◌, ◌++◌, length, IfNone, IfSome};
ghost use Rattle.crossbeam_queue.specs.Passes.{view, IsPassOf, IsSamePass};
ghost use Rattle.mrp_net.specs.Lanes.{lanes};
ghost use Rattle.mrp_lane.specs.Ends.{HasLegalList, IsStampedOnce};
ghost use Rattle.mrp_lane.specs.Views.{IsWholePass, Takes};

use crate::tally::Tally;
use crate::view::{LanePass, Mailbox, Taken};
use mrp_net::LaneNo;
use mrp_record::Record;
use std::alloc::Global;
use std::marker::Model;
use std::sync::{Arc, Wait};

/// The receiver's end of a lane.
///
/// Contracts see the lane's name and the list of all records that were taken, with their stamps.
#[derive(Drop)]
pub struct TakeEnd {
    pub(crate) mailbox: Arc<Mailbox, Global>,
    pub(crate) pass: LanePass,
    pub(crate) lane: LaneNo,
    pub(crate) tally: Tally,
}

impl Model for TakeEnd {
    ghost use Rattle.std.specs.Prelude.{◌≡◌, true};
    ghost use Rattle.std.specs.Arc.{arc_value};
    ghost use Rattle.crossbeam_queue.specs.Passes.{view as known};
    ghost use Rattle.mrp_lane.specs.Ends.{End, Holds, end_of};

    ghost Value = { End };

    ghost view = { λ e. end_of (arc_value e.mailbox) e.pass e.lane.0 (known e.pass).taken (known e.pass).taken_at };

    ghost invariant = { λ e.
        ((known e.pass).takes ≡ true) × Holds (arc_value e.mailbox) e.pass e.lane.0 (known e.pass).taken e.tally };
}

impl TakeEnd {
    /// The lane's number.
    pub fn lane(&self) -> LaneNo
        ensures value { result.0 ≡ self.now.name.lane }
        ensures there { result.0 < length (lanes self.now.name.network) }
        ensures legal { HasLegalList self.now }
    {
        self.lane
    }

    /// Takes the next record out of the mailbox, or answers `None` where the queue under it finds none; nothing
    /// is changed then. That it was empty at one moment of the call is what the kit says of its queue, and no
    /// clause of this call. It allocates nothing (by construction; no clause says so).
    pub fn take<R: Wait>(&mut self, rt: &R) -> Option<Record>
        ensures name { self.new.name ≡ self.old.name }
        ensures taken { IfSome result (λ entry. self.new.list ≡ self.old.list ++ entry ∷ []) }
        ensures legal { IfSome result (λ _. HasLegalList self.new) }
        ensures none { IfNone result (self.new.list ≡ self.old.list) }
        ensures stamped { IfSome result (λ _. IsStampedOnce self.old.stamps self.new.stamps) }
        ensures unstamped { IfNone result (self.new.stamps ≡ self.old.stamps) }
    {
        let entry = pop(rt, &self.mailbox, &mut self.pass)?;
        self.tally.add(&entry);
        Some(entry)
    }
}

/// Pops the next record.
pub(crate) fn pop<R: Wait>(rt: &R, mailbox: &Mailbox, pass: &mut LanePass) -> Option<Record>
    requires pass { IsPassOf mailbox.now pass.old }
    requires takes { (view pass.old).takes ≡ true }
    requires named { (view pass.old).named ≡ true }
    ensures same { IsSamePass pass.old pass.new }
    ensures taken { IfSome result (λ entry. Takes (view pass.old) entry (view pass.new)) }
    ensures unchanged { IfNone result (view pass.new ≡ view pass.old) }
    ensures empty { IfNone result ((view pass.old).sends ≡ true → (view pass.old).sent ≡ (view pass.old).taken) }
    ensures whole { IfNone result ((view pass.old).sends ≡ true → IsWholePass (view pass.old) []) }
{
    mailbox.pop_as::<Taken, R>(rt, pass)
}
