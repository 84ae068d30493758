//! A lane's mailbox between threads: of bounded room without locks, with two ends.
//!
//! The sender's thread owns one end and the receiver's the other. Whatever the two threads do, and in
//! whichever order their steps fall, the records taken are the records sent (offered and not refused), in
//! order and each once, but for the last ones, which lie in the mailbox; and what has been sent is a legal
//! beginning of the lane's text. That is the rule of the mailbox, which the kit's queue keeps at each step.
//! Once both ends are in one thread again they can be reconciled: what that answers shows their lists. Where a proof
//! alone asks for these, the ends are joined.
//!
//! Used by `mrp_run`.
//! Keeps true: FIFO and at-most-once delivery: the records taken are a prefix of the records sent.
#![tactic(auto)]

mod joining;
pub mod laws;
mod making;
mod send;
mod take;
mod tally;
mod view;

pub use joining::{JoinedLane, Reconciled, join, reconcile};
pub use making::lane;
pub use mrp_book::LaneFigure;
pub use mrp_net::{ItemNo, LaneNo};
pub use mrp_qty::MOST_ROOM;
pub use mrp_record::Record;
pub use send::SendEnd;
pub use take::TakeEnd;
pub use view::Stamp;
