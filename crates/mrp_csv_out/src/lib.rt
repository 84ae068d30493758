//! CSV output: comma-separated rows, which a report is made of. Rows are written into a room of their own and then
//! sent whole to a writer, with the names of the columns above them where these are asked for.
//!
//! A row ends with a line feed. Names, numbers, dates and the words of a report need no quotes, so no field
//! gets any. The room is taken before the first byte is sent: where it is refused, the writer is as it was.
//!
//! Used by all reports, by the rows of lane records, and by what writes fault lines.
//! Keeps true: no field needs quotes, and a writer has the whole report or a prefix of it.
#![tactic(auto)]

mod dates;
mod fault;
mod fields;
mod rows;
mod writing;

pub use dates::{date_of, date_texts};
pub use fault::ReportFault;
pub use fields::{date_if_any, number_if_any};
pub use mrp_commands::Heading;
pub use rows::{put_names, put_row, room_for, rows_in, text_of};
pub use writing::send;
