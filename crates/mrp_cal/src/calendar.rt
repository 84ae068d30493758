//! The calendar: a first day, days a period, periods, and first days that are given.

ghost use Rattle.std.specs.Prelude.{◌≡◌, ◌<◌, ◌≤◌, ◌^◌, ◌+◌, ◌-◌, ◌*◌, pos, ◌+ℤ◌, ◌<ℤ◌, Err, Ok, IfOk, IfErr, IfSome, MatchOption, OnErr, OnOk};
ghost use Rattle.jiff.specs.Words.{epoch_day, IsEpochDay};
ghost use Rattle.mrp_cal.specs.DateText.{SpellsDay};
ghost use Rattle.mrp_cal.specs.Days.{day_text};
ghost use Rattle.mrp_cal.specs.Begins.{begins, day_spelled, latest_begun};
ghost use Rattle.mrp_cal.specs.Calendar.{IsCalendar, first_day};
ghost use Rattle.mrp_cal.specs.Made.{IsCalendarFrom, IsRefused};

use crate::{Begun, CalFault, date_text};
use jiff::civil::{Date, date};
use mrp_qty::Horizon;
use std::marker::Model;

/// The days from 1970-01-01 to 2199-12-31, the last that a calendar may have, both included.
const ALL_DAYS: u64 = 84_006;

/// The most periods whose first days are given: all but the first.
const MOST_BEGUN: usize = 519;

/// The days of a plan: a first day, and periods of as many days each but where their first days are given.
#[derive(Debug, Drop)]
pub struct Calendar {
    first: u64,
    days: u64,
    horizon: Horizon,
    // the periods whose first days are given are the first so many of the array
    begun: [Begun; MOST_BEGUN],
    given: usize,
}

impl Model for Calendar {
    ghost use Rattle.std.specs.Prelude.{◌≤◌, take};
    ghost use Rattle.mrp_cal.specs.declared.calendar.TheConstants.{MOST_BEGUN};
    ghost use Rattle.mrp_cal.specs.Calendar.{CalendarTerms, IsCalendar};

    ghost Value = { CalendarTerms };

    ghost view = { λ c. record { first = c.first; days = c.days; periods = c.horizon; begun = take c.given c.begun } };

    ghost invariant = { λ c.
        IsCalendar (record { first = c.first; days = c.days; periods = c.horizon; begun = take c.given c.begun })
        × (c.given ≤ MOST_BEGUN) };
}

/// How many days a date is after 1970-01-01, or `None` before it.
fn day_number(date: Date) -> Option<u64>
    ensures number { MatchOption result (epoch_day date <ℤ pos 0) (λ n. epoch_day date ≡ pos n) }
    ensures within { IfSome result (λ n. n < 2 ^ 32) }
{
    let day = date.to_plain().to_unix_epoch_day();
    if day < 0 {
        return None;
    }
    Some(day as u64)
}

/// The day, counted from 1970-01-01, that a text `yyyy-mm-dd` spells, or `None` where it spells none from then on.
fn day_of(text: &str) -> Option<u64>
    ensures value { result ≡ day_spelled text.now }
    ensures within { IfSome result (λ n. n < 2 ^ 32) }
{
    day_number(date_text::date_of_text(text.as_bytes())?)
}

/// The date that many days later, which is one that the library has.
fn date_after(date: Date, days: u64) -> Date
    requires short { days < 2 ^ 32 }
    requires within { IsEpochDay (epoch_day date +ℤ pos days) }
    ensures { epoch_day result ≡ epoch_day date +ℤ pos days }
{
    Date::from_plain(date.to_plain().checked_add(days as i64).unwrap())
}

/// The date that many days after 1970-01-01.
fn date_of_day(day: u64) -> Date
    requires { day ≤ 84005 }
    ensures { epoch_day result ≡ pos day }
{
    date_after(date(1970, 1, 1), day)
}

impl Calendar {
    /// The calendar of `horizon` periods of `days` days each (1 to 31), the first of which begins on
    /// `first`, a date as `yyyy-mm-dd`.
    ///
    /// # Errors
    ///
    /// - [`CalFault::BadDate`] where `first` isn't the ten bytes `yyyy-mm-dd` of a date from
    ///   1970-01-01 on.
    /// - [`CalFault::DaysOutOfRange`] where it is, and `days` isn't 1 to 31.
    /// - [`CalFault::PastEnd`] where neither of these applies, and the last day of the last period is
    ///   after 2199-12-31.
    pub fn new(first: &str, days: u64, horizon: Horizon) -> Result<Calendar, CalFault>
        ensures value { IfOk result (IsCalendarFrom first.now days horizon) }
        ensures calendar { IfOk result IsCalendar }
        ensures fault { IfErr result (IsRefused first.now days horizon) }
    {
        let Some(first) = date_text::date_of_text(first.as_bytes()) else {
            return Err(CalFault::BadDate);
        };
        let Some(number) = day_number(first) else {
            return Err(CalFault::BadDate);
        };
        if days < 1 || days > 31 {
            return Err(CalFault::DaysOutOfRange);
        }
        if number + horizon.get() * days > ALL_DAYS {
            return Err(CalFault::PastEnd);
        }
        Ok(Calendar {
            first: number,
            days,
            horizon,
            begun: [Begun { period: 0, day: 0 }; MOST_BEGUN],
            given: 0,
        })
    }

    /// Says on which date, as `yyyy-mm-dd`, a period begins: above those that were said before, and below the number of
    /// periods. The periods after it follow by the days of a period.
    ///
    /// # Errors
    ///
    /// - [`CalFault::BadDate`] where `date` isn't the ten bytes `yyyy-mm-dd` of a date from 1970-01-01 on, or isn't later
    ///   than the first day of the period before.
    /// - [`CalFault::PastEnd`] where it is, and the last day of the last period would be after 2199-12-31.
    ///
    /// The calendar is as it was then.
    pub fn begin(&mut self, period: usize, date: &str) -> Result<(), CalFault>
        requires later { latest_begun self.old < period }
        requires within { period < self.old.periods }
        ensures value { OnOk result (begins self.old period date.now ≡ Ok self.new) }
        ensures fault { IfErr result (λ fault. begins self.old period date.now ≡ Err fault) }
        ensures unchanged { OnErr result (self.new ≡ self.old) }
    {
        let Some(day) = day_of(date) else {
            return Err(CalFault::BadDate);
        };
        if day <= self.day(period - 1) {
            return Err(CalFault::BadDate);
        }
        if day + (self.horizon.get() - period as u64) * self.days > ALL_DAYS {
            return Err(CalFault::PastEnd);
        }
        self.begun[self.given] = Begun { period, day };
        self.given += 1;
        Ok(())
    }

    /// The last period whose first day was said, 0 where none was.
    pub fn latest_begun(&self) -> usize
        ensures value { result ≡ latest_begun self.now }
        ensures within { result < self.now.periods }
    {
        let _ = &self.given;
        match self.begun().last() {
            Some(begun) => begun.period,
            None => 0,
        }
    }

    /// The periods whose first days were said, in rising order.
    pub fn begun(&self) -> &[Begun]
        ensures value { result.now ≡ self.now.begun }
    {
        &self.begun[..self.given]
    }

    /// How many days after 1970-01-01 period `t` begins, 0 to 84,005, `t` being below the number of
    /// periods.
    pub fn day(&self, t: usize) -> u64
        requires { t < self.now.periods }
        ensures value { result ≡ first_day self.now t }
        ensures until { result ≤ 84005 }
    {
        let since = self.since(t);
        since.day + (t - since.period) as u64 * self.days
    }

    /// The last period up to `t` whose first day was said, with that day, and period 0 where there is none.
    fn since(&self, t: usize) -> Begun
        ensures up_to { result.period ≤ t }
        ensures day { first_day self.now t ≡ result.day + (t - result.period) * self.now.days }
    {
        let mut since = Begun {
            period: 0,
            day: self.first,
        };
        for begun in self.begun() {
            if t < begun.period {
                return since;
            }
            since = *begun;
        }
        since
    }

    /// The text `yyyy-mm-dd` of the date on which period `t` begins, `t` being below the number of
    /// periods.
    pub fn text(&self, t: usize) -> [u8; 10]
        requires { t < self.now.periods }
        ensures value { result ≡ day_text (first_day self.now t) }
        ensures spells { SpellsDay result (pos (first_day self.now t)) }
    {
        date_text::text_of_date(date_of_day(self.day(t)))
    }

    /// The days of a period, 1 to 31.
    pub fn days(&self) -> u64
        ensures value { result ≡ self.now.days }
        ensures calendar { IsCalendar self.now }
    {
        self.days
    }

    /// The number of periods.
    pub fn horizon(&self) -> Horizon
        ensures value { result ≡ self.now.periods }
        ensures calendar { IsCalendar self.now }
    {
        self.horizon
    }
}
