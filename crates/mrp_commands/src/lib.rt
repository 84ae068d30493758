//! Commands, what the planner may be asked to do: the nine commands with their values, and how the table is to be read.
//!
//! A program of one's own makes a [`Request`] and hands it to `answer` of `mrp_api`; `mrp_command_line` reads one
//! from the arguments of a command line. It is a crate of its own since the command line, the library of texts and
//! the reports all speak of it, and neither of the first two stands on the other.
//!
//! Used by the command line, reports, the planner and the library for C.
//! Keeps true: a choice is a command with its values, each within its limits.
#![tactic(auto)]

mod choice;
mod laws;
mod reading;
mod request;

pub use choice::{Choice, Heading, LAST_PERIOD, MOST_CAPACITY, MOST_WORKERS};
pub use laws::limits_are_numbers;
pub use reading::Reading;
pub use request::Request;
