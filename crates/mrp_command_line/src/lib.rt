//! The command line of `mrp`: which words the program takes, and what each choice of words asks for.
//!
//! The command line is written out in `specs/CommandLine.antt`, and `specs/Choice.antt` says which
//! choice a subcommand and its values are, and how the table is to be read.
//!
//! Used by the program.
//! Keeps true: each list of arguments asks for one thing, and is spelled as `specs/CommandLine.antt` says.
#![tactic(auto)]

mod laws;
mod meaning;
mod named;
mod texts;
mod words;

pub use laws::version_is_asked_for;
pub use meaning::{Meaning, means};
pub use mrp_commands::{
    Choice, Heading, LAST_PERIOD, MOST_CAPACITY, MOST_WORKERS, Reading, Request,
};
pub use mrp_qty::LimitSet;
pub use named::named_words;
pub use words::{ChooseFault, choose, request};
