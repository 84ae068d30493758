//! Commands: a request, which is a command with its values, and how the table is to be read.

ghost use Rattle.std.specs.Prelude.{◌≡◌, ◌↔◌, IsTrue};
ghost use Rattle.mrp_commands.specs.Range.{asked_period, IsWithinLimits};

use crate::{Choice, Reading};

/// What is asked of the planner: a report, of a table read so.
#[derive(Clone, Copy, Debug, PartialEq, Eq)]
pub struct Request<'a> {
    /// How the table is to be read.
    pub reading: Reading,
    /// The report, with its values.
    pub choice: Choice<'a>,
}

impl Request<'_> {
    /// Whether a table within the limits may have the period that is asked about, if one is: up to 103, or 519.
    pub fn is_within_limits(&self) -> bool
        ensures { IsTrue result ↔ IsWithinLimits self.now }
    {
        match period_of(&self.choice) {
            Some(period) => period < self.reading.limits.limits().periods,
            None => true,
        }
    }
}

/// The period that is asked about, if one is.
fn period_of(choice: &Choice<'_>) -> Option<u64>
    ensures { result ≡ asked_period choice.now }
{
    match choice {
        Choice::Peg { period, .. } => Some(*period),
        Choice::Orders { until, .. } => *until,
        Choice::Advice { until, .. } => *until,
        _ => None,
    }
}
