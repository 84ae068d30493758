//! A lane's mailbox between threads: what its two ends know of it, and the rule that each step keeps.

use crossbeam_queue::protocol::{Join, Lesson, Outcome, Protocol, Split};
use crossbeam_queue::{Pass, RuledArrayQueue};
use mrp_master_data::Tables;
use mrp_record::Record;
use std::collections::LinkedList;
use std::marker::{Brand, PhantomData};

/// What a pass to a lane's mailbox may do and knows. No value of it is made.
pub struct LaneView {
    /// Whether it may push, and so knows all that was sent.
    pub sends: bool,
    /// Whether it may pop, and so knows all that was taken.
    pub takes: bool,
    /// Whether it knows the network and the lane.
    pub named: bool,
    /// The network, as its table.
    pub network: Tables,
    /// The lane's number.
    pub lane: usize,
    /// What was sent, if it may push.
    pub sent: LinkedList<Record>,
    /// What was taken, if it may pop.
    pub taken: LinkedList<Record>,
    /// The stamp of each record that was sent, if it may push.
    pub sent_at: LinkedList<u64>,
    /// The stamp of each record that was taken, if it may pop.
    pub taken_at: LinkedList<u64>,
}

/// The rule of a lane's mailbox.
pub struct LaneRule;

impl Protocol<Record, LaneView> for LaneRule {
    ghost use Rattle.mrp_lane.specs.Views.{Keeps, unnamed};

    ghost holds = { Keeps };

    ghost first = { unnamed };
}

/// The mailbox of a lane.
pub type Mailbox = RuledArrayQueue<Record, LaneView, LaneRule>;

/// What one end knows of the mailbox. It has no bytes.
pub type LanePass = Pass<Record, LaneView>;

/// The stamp of a record that is offered, for proofs: a number that the sender picks, and that goes over the lane with
/// the record. It has no bytes.
pub trait Stamp {
    ghost use Rattle.std.specs.Prelude.{ℕ};

    ghost stamp: { ℕ };
}

impl Stamp for Brand {
    ghost stamp = { 0 };
}

/// A push appends the record to what was sent, with its stamp. Where there is no room, what was sent is what has been
/// taken by then and what the mailbox holds.
pub struct Sent<S: Stamp> {
    stamp: PhantomData<S>,
}

impl<S: Stamp> Outcome<Record, LaneView> for Sent<S> {
    ghost use Rattle.std.specs.Prelude.{◌≡◌};
    ghost use Rattle.mrp_lane.specs.Views.{view_with_sent};

    ghost then = { λ v r w. w ≡ view_with_sent v r S.stamp };
}

impl<S: Stamp> Lesson<Record, LaneView> for Sent<S> {
    ghost use Rattle.mrp_lane.specs.Views.{IsUntaken};

    ghost fact = { λ v mailbox. IsUntaken v.sent mailbox };
}

/// A pop appends the record to what was taken, which stays a legal beginning, and its stamp to those. Where there is
/// nothing to take, all that was sent is taken, as far as the pass knows both.
pub struct Taken;

impl Outcome<Record, LaneView> for Taken {
    ghost use Rattle.mrp_lane.specs.Views.{Takes};

    ghost then = { Takes };
}

impl Lesson<Record, LaneView> for Taken {
    ghost use Rattle.mrp_lane.specs.Views.{Leaves};

    ghost fact = { Leaves };
}

/// The name of a lane, for proofs.
pub trait Naming {
    ghost use Rattle.std.specs.Prelude.{ℕ};
    ghost use Rattle.mrp_master_data.specs.Table.{Table};

    ghost network: { Table };

    ghost lane: { ℕ };
}

impl Naming for Brand {
    ghost use Rattle.mrp_lane.specs.Views.{blank};

    ghost network = { blank };

    ghost lane = { 0 };
}

/// The first pass becomes the sender's, and the new one is the receiver's.
pub struct Parting<N: Naming> {
    name: PhantomData<N>,
}

impl<N: Naming> Split<LaneView> for Parting<N> {
    ghost use Rattle.mrp_lane.specs.Views.{sending, taking};

    ghost left = { λ _. sending N.network N.lane };

    ghost right = { λ _. taking N.network N.lane };
}

/// The sender's pass takes in the receiver's.
pub struct Meeting;

impl Join<LaneView> for Meeting {
    ghost use Rattle.mrp_lane.specs.Views.{joined_pass, spent};

    ghost both = { joined_pass };

    ghost spent = { spent };
}
