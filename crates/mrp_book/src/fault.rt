//! The book: why a lane's receiver refuses a record, by the fault that the book answers.

use thiserror::Error;

/// Why a record is refused: the first fault that holds. A refusal changes nothing.
#[derive(Clone, Copy, Debug, PartialEq, Eq, Error)]
pub enum BookFault {
    /// The number is below the next number.
    #[error("the record is booked already")]
    Repeated,
    /// The number is above the next number.
    #[error("a record is missing before this one")]
    Gap,
    /// The closing record is booked.
    #[error("the lane is closed")]
    AfterClose,
    /// The item isn't one of the lane's.
    #[error("the item is not on this lane")]
    NotOnLane,
    /// The item's end is booked, or another item's block has a line or a reset and no end.
    #[error("the item's block is ended, or another one is open")]
    AfterItemEnd,
    /// A line's period isn't below the horizon or, on a schedule lane, not above that of the item's last
    /// line.
    #[error("the period is wrong")]
    PeriodWrong,
    /// A line's quantity is 0.
    #[error("the quantity is 0")]
    QuantityZero,
    /// A line's figure isn't the item's figure in force plus the quantity.
    #[error("the cumulative figure is wrong")]
    CumWrong,
    /// A line's figure with the closed years added, or the record's number, is above 10^15.
    #[error("a figure is too large")]
    TooLarge,
    /// An item end's lines or figure differ from those booked.
    #[error("the item end is wrong")]
    EndWrong,
    /// A closing record while an item's end is missing.
    #[error("an item's end is missing")]
    CloseEarly,
    /// A reset of an item without one, or a second one, or one with another figure than the one in force;
    /// a line on the wrong side of the reset; an item end without it.
    #[error("the reset is wrong")]
    ResetWrong,
}
