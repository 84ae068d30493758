//! The calendar: laws of its dates, their texts and its limits, each the contract of a function that does nothing.
ghost use Rattle.std.specs.Prelude.{◌≡◌, ◌≢◌, ◌+◌, ◌*◌, ◌<◌, ◌≤◌, ◌↔◌, ℕ, All, List, [], Some, ℤ, pos, codes};
ghost use Rattle.mrp_cal.specs.Begins.{begun_with, day_spelled, latest_begun};
ghost use Rattle.mrp_cal.specs.Calendar.{CalendarTerms, IsCalendar, IsPeriodLength, first_day, last_date};
ghost use Rattle.mrp_cal.specs.DateText.{SpellsDay};
ghost use Rattle.mrp_cal.specs.Days.{day_text};

/// A text spells one day at most.
pub fn a_text_spells_one_day()
    ensures { (text : List ℕ) (a b : ℤ) → SpellsDay text a → SpellsDay text b → a ≡ b }
{}

/// The text of each day from 1970-01-01 to 2199-12-31 spells that day.
pub fn the_text_of_a_day_spells_it()
    ensures { (day : ℕ) → day ≤ last_date → SpellsDay (day_text day) (pos day) }
{}

/// Each day from 1970-01-01 to 2199-12-31 has one text: what spells it is its text.
pub fn a_day_has_one_text()
    ensures { (text : List ℕ) (day : ℕ) → day ≤ last_date → SpellsDay text (pos day) → text ≡ day_text day }
{}

/// Where no first day is given each period begins so many days after the one before it.
pub fn days_follow()
    ensures { (c : CalendarTerms) (t : ℕ) → c.begun ≡ [] → first_day c t ≡ c.first + t * c.days }
{}

/// A period whose first day is given begins on it, and each other one so many days after the one before it.
pub fn given_days_begin_periods()
    ensures given { (c : CalendarTerms) → IsCalendar c → All (λ b. first_day c b.period ≡ b.day) c.begun }
    ensures others { (c : CalendarTerms) (t : ℕ) → IsCalendar c → All (λ b. b.period ≢ t + 1) c.begun
        → first_day c (t + 1) ≡ first_day c t + c.days }
{}

/// Where one more first day is given, of a later period than those before, that period begins on it, and the periods
/// before it begin as they did.
pub fn earlier_periods_stay()
    ensures given { (c : CalendarTerms) (period day : ℕ) → IsCalendar c → latest_begun c < period → period < c.periods
        → first_day (begun_with c period day) period ≡ day }
    ensures earlier { (c : CalendarTerms) (period day t : ℕ) → t < period
        → first_day (begun_with c period day) t ≡ first_day c t }
{}

/// The day that is looked for in the text of a first day is the one that the text spells.
pub fn given_days_are_spelled()
    ensures { (text : List ℕ) (day : ℕ) → (day_spelled text ≡ Some day) ↔ SpellsDay text (pos day) }
{}

/// Each period begins after those before it, and by 2199-12-31.
pub fn dates_rise()
    ensures rise { (c : CalendarTerms) → IsCalendar c → (t u : ℕ) → t < u → u < c.periods → first_day c t < first_day c u }
    ensures end { (c : CalendarTerms) → IsCalendar c → (t : ℕ) → t < c.periods → first_day c t ≤ last_date }
{}

/// The limits as numbers: DAYS is 1 to 31, and only a period before one whose first day is given may be longer or
/// shorter. Days are counted from 1970-01-01, which is day 0, and the last day that a calendar may have is 2199-12-31.
pub fn limits_are_numbers()
    ensures length { (days : ℕ) → IsPeriodLength days ↔ ((1 ≤ days) × (days ≤ 31)) }
    ensures first { SpellsDay (codes "1970-01-01") (pos 0) }
    ensures last { SpellsDay (codes "2199-12-31") (pos last_date) }
{}
