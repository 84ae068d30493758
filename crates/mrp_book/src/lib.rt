//! The book of a lane's receiver, in cumulative figures: it takes exactly the records that keep the list
//! in form, and keeps figures only.
//!
//! Contracts speak of every list of records that a book shows; none is stored.
//!
//! Used by agents, lanes and worlds, and by reports for the figures of lanes.
//! Keeps true: a book takes a record exactly where the list with it is in form, and else names its first fault.
#![tactic(auto)]

mod book;
mod fault;
mod figure;
mod item;
pub mod laws;

pub use book::Book;
pub use fault::BookFault;
pub use figure::LaneFigure;
pub use item::{BookItem, ItemFigure};
pub use mrp_net::{ItemNo, LaneKind, LaneNo};
pub use mrp_record::Record;
