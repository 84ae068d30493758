//! The book: what it knows of one item of its lane.

ghost use Rattle.std.specs.Prelude.{◌≡◌, ◌+◌, ◌^◌, ◌≤◌, ◌<◌};
ghost use Rattle.mrp_qty.specs.declared.quantity.TheConstants.{MOST};

use crate::BookFault;
use mrp_net::ItemNo;
use mrp_qty::{MOST, Qty};

/// An item of a lane, as a new book is given it.
#[derive(Clone, Copy, Debug)]
pub struct BookItem {
    /// The item.
    pub item: ItemNo,
    /// The figure that it opens with, in pieces.
    pub opening: Qty,
    /// The period from which its figures start anew, where they do.
    pub reset: Option<u64>,
}

/// What a book keeps of one item.
#[derive(Clone, Copy, Debug)]
pub struct ItemFigure {
    /// The item.
    pub item: ItemNo,
    /// The period from which its figures start anew, where they do.
    pub reset: Option<u64>,
    /// The figure in force, in pieces.
    pub figure: u64,
    /// The figures closed by resets, in pieces; with the figure in force at most 10^15.
    pub closed: u64,
    /// How many lines are booked.
    pub lines: u64,
    /// The first period after that of its last line; 0 without one.
    pub next_period: u64,
    /// Whether the reset is booked.
    pub was_reset: bool,
    /// Whether the item end is booked.
    pub ended: bool,
}

impl ItemFigure {
    ghost use Rattle.mrp_record.specs.Form.{is_anew};
    ghost use Rattle.mrp_book.specs.After.{opened, figure_after_line, with_end, figure_after_reset};
    ghost use Rattle.mrp_book.specs.Faults.{period_is_wrong, cum_is_wrong, is_too_large, is_side_wrong, end_is_wrong};
    ghost use Rattle.mrp_book.specs.Faults.{is_reset_missing, reset_is_wrong};
    ghost use Rattle.mrp_book.specs.Faults.{Answers, line_tests, end_tests, reset_tests};

    /// The figures of an item before its first record.
    pub(crate) fn opened(item: &BookItem) -> ItemFigure
        ensures value { result ≡ opened item.now }
        ensures small { result.figure ≤ MOST }
    {
        ItemFigure {
            item: item.item,
            reset: item.reset,
            figure: item.opening.get(),
            closed: 0,
            lines: 0,
            next_period: 0,
            was_reset: false,
            ended: false,
        }
    }

    /// Whether the figures of a period are those of the new start.
    fn is_anew(&self, period: u64) -> bool
        ensures { result ≡ is_anew self.now.reset period }
    {
        match self.reset {
            None => false,
            Some(from) => from <= period,
        }
    }

    /// Whether a line's period is past the horizon or, where periods rise, not after the last line's.
    fn is_period_wrong(&self, rising: bool, horizon: u64, period: u64) -> bool
        ensures { result ≡ period_is_wrong rising horizon self.now period }
    {
        horizon <= period || (rising && period < self.next_period)
    }

    /// Whether a line's figure isn't the one in force plus its quantity.
    fn is_cum_wrong(&self, quantity: u64, cumulative: u64) -> bool
        ensures { result ≡ cum_is_wrong self.now quantity cumulative }
    {
        cumulative < self.figure || cumulative - self.figure != quantity
    }

    /// Whether a line's number, or its figure with the closed years added, is above 10^15.
    fn is_too_large(&self, number: u64, cumulative: u64) -> bool
        ensures { result ≡ is_too_large self.now number cumulative }
    {
        number > MOST || cumulative > MOST || self.closed > MOST - cumulative
    }

    /// Whether a line stands on the wrong side of the reset.
    fn is_side_wrong(&self, period: u64) -> bool
        ensures { result ≡ is_side_wrong self.now period }
    {
        if self.was_reset {
            !self.is_anew(period)
        } else {
            self.is_anew(period)
        }
    }

    /// Whether an item end differs from what is booked.
    fn is_end_wrong(&self, lines: u64, cumulative: u64) -> bool
        ensures { result ≡ end_is_wrong self.now lines cumulative }
    {
        lines != self.lines || cumulative != self.figure
    }

    /// Whether a reset is awaited and isn't booked.
    fn is_reset_missing(&self) -> bool
        ensures { result ≡ is_reset_missing self.now }
    {
        self.reset.is_some() && !self.was_reset
    }

    /// Whether no reset is awaited, or one is booked, or it closes another figure than the one in force.
    fn is_reset_wrong(&self, closed: u64) -> bool
        ensures { result ≡ reset_is_wrong self.now closed }
    {
        self.reset.is_none() || self.was_reset || closed != self.figure
    }

    /// The first fault of a line of the item.
    pub(crate) fn check_line(
        &self,
        rising: bool,
        horizon: u64,
        number: u64,
        period: u64,
        quantity: u64,
        cumulative: u64,
    ) -> Result<(), BookFault>
        ensures { Answers result (line_tests rising horizon number period quantity cumulative self.now) }
    {
        if self.is_period_wrong(rising, horizon, period) {
            return Err(BookFault::PeriodWrong);
        }
        if quantity == 0 {
            return Err(BookFault::QuantityZero);
        }
        if self.is_cum_wrong(quantity, cumulative) {
            return Err(BookFault::CumWrong);
        }
        if self.is_too_large(number, cumulative) {
            return Err(BookFault::TooLarge);
        }
        if self.is_side_wrong(period) {
            return Err(BookFault::ResetWrong);
        }
        Ok(())
    }

    /// The first fault of the item's end.
    pub(crate) fn check_end(
        &self,
        number: u64,
        lines: u64,
        cumulative: u64,
    ) -> Result<(), BookFault>
        ensures { Answers result (end_tests number lines cumulative self.now) }
    {
        if number > MOST {
            return Err(BookFault::TooLarge);
        }
        if self.is_end_wrong(lines, cumulative) {
            return Err(BookFault::EndWrong);
        }
        if self.is_reset_missing() {
            return Err(BookFault::ResetWrong);
        }
        Ok(())
    }

    /// The first fault of a reset of the item.
    pub(crate) fn check_reset(&self, number: u64, closed: u64) -> Result<(), BookFault>
        ensures { Answers result (reset_tests number closed self.now) }
    {
        if number > MOST {
            return Err(BookFault::TooLarge);
        }
        if self.is_reset_wrong(closed) {
            return Err(BookFault::ResetWrong);
        }
        Ok(())
    }

    /// Books a line.
    pub(crate) fn add_line(&mut self, period: u64, quantity: u64)
        requires figure { self.old.figure + quantity ≤ MOST }
        requires lines { self.old.lines ≤ MOST }
        requires period { period + 1 < 2 ^ 64 }
        ensures { self.new ≡ figure_after_line period quantity self.old }
    {
        self.figure += quantity;
        self.lines += 1;
        self.next_period = period + 1;
    }

    /// Books the item's end.
    pub(crate) fn add_end(&mut self)
        ensures { self.new ≡ with_end self.old }
    {
        self.ended = true;
    }

    /// Books a reset: the figure in force is closed.
    pub(crate) fn add_reset(&mut self)
        requires { self.old.figure + self.old.closed ≤ MOST }
        ensures { self.new ≡ figure_after_reset self.old }
    {
        self.closed += self.figure;
        self.figure = 0;
        self.was_reset = true;
    }
}
