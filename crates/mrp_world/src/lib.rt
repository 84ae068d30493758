//! The world, its **headline**. On every network without a loop and within the bound, where memory was there to make
//! the world, for capacities of 1 to 65,536 and every list of events: each lane books its sender's records in order,
//! at most once, and none after the closing record; one whose closing record is booked has brought its whole text.
//! Cumulative shipped less cumulative received is the sum in the mailbox, for each lane and each of its items. What
//! a plant keeps as the plan of a planned pair is that of the whole network. In a finished run every line of every
//! lane was booked once, and every pair is planned. As long as the run isn't finished some event is enabled, and a
//! run that is driven ends finished.
//!
//! A [`Plant`] plans from what it sees and from the records that come to it, and an agent is one; its contract speaks
//! of every moment of a run at which it can be. Between two plants records wait in a [`Mailbox`], in order.
//!
//! The firm over events: all plants of a network with the mailboxes between them, one event at a time.
//! Whatever list of events a world is given, it takes exactly those that are enabled, each as a step of the
//! run that it shows ([`World`]); [`laws`] says what follows for every run. The cumulative figures of each finished
//! run are those of the plan ([`last_figures`]).
//!
//! Used by `mrp_api` for plans on one thread and for cumulative figures.
//! Keeps true: a world takes exactly the enabled events, each as one step of the run that it shows.
#![tactic(auto)]

mod acting;
mod agents;
mod carried;
mod counting;
mod driving;
mod ending;
mod figures;
mod gathering;
pub mod laws;
mod looking;
mod mailbox;
mod making;
mod plant;
mod world;

pub use ending::last_figures;
pub use mailbox::Mailbox;
pub use mrp_agent::Agent;
pub use mrp_book::{BookFault, LaneFigure};
pub use mrp_net::{ItemNo, LaneNo, PairNo};
pub use mrp_protocol::Event;
pub use mrp_qty::MOST_ROOM;
pub use mrp_record::Record;
pub use plant::Plant;
pub use world::{Firm, World};
