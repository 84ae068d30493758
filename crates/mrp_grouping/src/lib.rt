//! Grouping: rows of any type put into groups by a key, amounts added up by a key, and keys found by their places.
//!
//! [`group`] puts rows in order by a key, as that of a pair, a route or a low-level code: rows are counted, and
//! then placed (a stable counting sort). [`starts`] says where the groups begin. [`add_totals`] and [`add_amounts`]
//! add up amounts of rows by one key and by two. [`Places`] finds the place of a key by hash. All but hashing are
//! linear in rows and keys by construction; no clause says so.
//!
//! Used by each crate that sorts, indexes or adds up rows: the table's, the network's, plants', reports.
//! Keeps true: a group is the rows of its key in the order in which they came, and a place is the key's first.
#![tactic(auto)]

pub mod laws;
mod places;
mod sort;
mod sums;

pub use places::Places;
pub use sort::{Groups, KeyOf, group, group_into, starts};
pub use sums::{AmountOf, add_amounts, add_totals};
