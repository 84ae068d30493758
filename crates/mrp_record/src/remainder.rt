//! Records of a lane: what a sender's cursor has left to send of an item, its next line, and the records behind it.

use crate::ItemNo;

/// The next delivery of an item, as it is still to be sent.
#[derive(Clone, Copy, Debug, PartialEq, Eq)]
pub struct NextLine {
    /// Its period.
    pub period: u64,
    /// How many pieces.
    pub quantity: u64,
    /// The mark from which the item's further deliveries are left.
    pub after: usize,
}

/// What is left to send of the item at the head of a cursor's queue.
#[derive(Clone, Copy, Debug, PartialEq, Eq)]
pub struct Remainder {
    /// The item.
    pub item: ItemNo,
    /// The figure that it opens with, in pieces.
    pub opening: u64,
    /// The period from which its figures start anew, where they do; also once the reset is sent.
    pub reset: Option<u64>,
    /// The first of its deliveries from the cursor's mark on, or `None` where all are sent.
    pub line: Option<NextLine>,
}

/// Which record of an item's block comes next.
pub(crate) enum Due {
    /// The line of its next delivery.
    Moving(NextLine),
    /// The reset of its figures.
    Restarting,
    /// Its end.
    Ending,
}

impl Remainder {
    ghost use Rattle.std.specs.Prelude.{◌≡◌, not, ◌&&◌};
    ghost use Rattle.mrp_record.specs.Next.{is_reset_due, due};

    /// Which record comes next, by whether the reset was sent.
    pub(crate) fn due(&self, anew: bool) -> Due
        ensures { result ≡ due anew self.now }
    {
        if !anew && self.is_reset_due() {
            return Due::Restarting;
        }
        match self.line {
            Some(line) => Due::Moving(line),
            None => Due::Ending,
        }
    }

    /// Whether a reset that wasn't sent comes before what is left.
    fn is_reset_due(&self) -> bool
        ensures { result ≡ is_reset_due self.now.reset self.now.line }
    {
        match self.reset {
            Some(from) => match self.line {
                Some(line) => from <= line.period,
                None => true,
            },
            None => false,
        }
    }
}
