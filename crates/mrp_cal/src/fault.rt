//! The calendar: why it is refused.

use thiserror::Error;

/// Why a calendar is refused.
#[derive(Clone, Copy, Debug, PartialEq, Eq, Error)]
pub enum CalFault {
    /// The first day isn't the text `yyyy-mm-dd` of a date from 1970-01-01 on.
    #[error("the first day is not a date from 1970-01-01 on")]
    BadDate,
    /// A period has no day, or more than 31.
    #[error("a period does not have 1 to 31 days")]
    DaysOutOfRange,
    /// The last day of the last period is after 2199-12-31.
    #[error("the last period ends after 2199-12-31")]
    PastEnd,
}
