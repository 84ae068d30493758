//! Records of lanes: the lines, ends, resets and closings that go over a lane between two plants, the texts that they
//! make, and the cursor of a sender, which is what it keeps of what it has sent, so that each record that it sends
//! continues that to a legal beginning of the lane's text.
//!
//! Contracts speak of every list of records that a cursor shows; none is stored.
//!
//! Used by books, agents, mailboxes and schedules.
//! Keeps true: what a cursor has sent is a legal beginning of its lane's text, and a whole text is closed once.
#![tactic(auto)]

mod cursor;
pub mod cursor_laws;
pub mod laws;
mod record;
mod remainder;

pub use cursor::OutCursor;
pub use mrp_master_data::ItemNo;
pub use record::Record;
pub use remainder::{NextLine, Remainder};
