//! Commands: the limits of their values, as the contract of a function that does nothing.
ghost use Rattle.std.specs.Prelude.{◌≡◌};
ghost use Rattle.mrp_commands.specs.declared.choice.TheConstants.{MOST_WORKERS, MOST_CAPACITY, LAST_PERIOD};

use crate::{LAST_PERIOD, MOST_CAPACITY, MOST_WORKERS};

/// The limits as numbers: a plant has at most 64 workers, a mailbox between two plants holds at
/// most 65,536 records, and the last period that may be asked about is 519.
pub fn limits_are_numbers()
    ensures workers { MOST_WORKERS ≡ 64 }
    ensures capacity { MOST_CAPACITY ≡ 65536 }
    ensures period { LAST_PERIOD ≡ 519 }
{}
