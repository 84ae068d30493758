//! The calendar of planning: the date on which each period begins.
//!
//! Contracts see a [`Calendar`] as its terms: the number of the first day, counted from 1970-01-01, the days of a
//! period, the number of periods, and the periods whose first days are given, as after a holiday.
//!
//! Used by the table and its reader, and by reports for the dates of periods.
//! Keeps true: a calendar is its terms, first days rise, and each day from 1970-01-01 to 2199-12-31 has one text.
#![tactic(auto)]

mod begun;
mod calendar;
mod date_text;
mod fault;
mod laws;

pub use begun::Begun;
pub use calendar::Calendar;
pub use fault::CalFault;
pub use laws::{
    a_day_has_one_text, a_text_spells_one_day, dates_rise, days_follow, earlier_periods_stay,
    given_days_are_spelled, given_days_begin_periods, limits_are_numbers,
    the_text_of_a_day_spells_it,
};
