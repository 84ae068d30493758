//! The library, its **theorem**: a table has one plan by the rules of material requirements planning, or it is refused.
//! On success what a text function has written is exactly the report of that plan. A refusal is the first fault that
//! holds, and nothing is written. After any other fault what was written is a prefix of the right report.
//!
//! The planner as a library: a table from any reader, a report to any writer.
//! [`plan_text`] writes the plan, each plant planned in a thread of its own (by construction; no clause says so),
//! and [`drive_text`] the same plan on one thread; [`check_text`] writes the low-level codes, [`peg_text`] what a gross
//! requirement consists of, and [`pegs_text`] so of the whole plan, [`cums_text`] the cumulative figures of the lanes
//! between plants, [`orders_text`] the planned and firm orders, [`schedule_text`] the delivery schedules of plants and vendors,
//! [`advice_text`] which open orders to move, [`shortages_text`] which requirements lack parts, and [`reach_text`] until
//! when requirements and releases are whole. [`report_text`] writes the report that a [`Request`] asks for on one thread,
//! and [`answer`] by threads, but for a plan on one thread; a request says too whether the table has to end with an `end`
//! row, and within which limits it is read. Each other text function takes a table within the usual limits, with an
//! `end` row or without. A [`Heading`] says whether the names of the columns stand above the rows; for codes, terms and
//! figures a `Choice` has one.
//! Where a text was not written whole, a [`TextFault`] says why: [`write_fault`] writes the line that
//! reports it, and [`status`] and [`exit_status`] are the statuses with which a program ends. [`ended`]
//! does both after the work, [`after_help`] after help or the version, [`unread`] where the arguments
//! can't be read, and [`beyond_limits`] where they ask about a period that no table of the limits has.
//!
//! No call ends the process: a growth that is refused is [`TextFault::Memory`], or while the table is read
//! [`TextFault::Table`] with that kind.
//!
//! Used by the program, by the library for C, and by programs of one's own.
//! Keeps true: what is written on success is the one report of the table, and each fault comes for its cause.
#![tactic(auto)]

mod answers;
mod ending;
mod fault;
mod firm;
mod laws;
mod lines;
mod network;
mod run;
mod text;
mod writing;

pub use answers::{answer, exit_status};
pub use ending::{Ending, REFUSED, after_help, beyond_limits, ended, unread};
pub use fault::{PairName, TextFault, status};
pub use laws::{
    bytes_make_one_table, cut_tables_are_refused_or_whole, figures_are_called_for, reports_are_one,
    reports_exclude_refusals, tables_are_read,
};
pub use lines::write_fault;
pub use mrp_commands::{Heading, Reading, Request};
pub use mrp_report::ReportFault;
pub use mrp_run::{Gate, NoGate, Settings};
pub use text::{
    advice_text, check_text, cums_text, drive_text, orders_text, peg_text, pegs_text, plan_text,
    reach_text, report_text, schedule_text, shortages_text,
};
