//! The calendar: a period whose first day is given.

/// A period whose first day is given, after a holiday or a shutdown, say.
#[derive(Clone, Copy, Debug)]
pub struct Begun {
    /// The period, from 1, below the number of periods.
    pub period: usize,
    /// The day on which it begins, counted from 1970-01-01, at most 84,005.
    pub day: u64,
}
