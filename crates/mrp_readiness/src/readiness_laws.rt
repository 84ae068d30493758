//! Readiness: its laws, of what pairs wait for. Each is the contract of a function that does nothing.

ghost use Rattle.mrp_readiness.specs.ReadinessLaws.{ReadyWhereNothingIsOpen, ComponentsWait, EndingOpensFewer};
ghost use Rattle.mrp_readiness.specs.ReadinessLaws.{OpenBlocksAreAwaited};

/// Where each pair waits for its joins with unplanned demanders and for its open blocks, exactly the
/// ready pairs aren't planned, have no unplanned demander at the plant, and await no open block.
pub fn ready_where_nothing_is_open()
    ensures { ReadyWhereNothingIsOpen }
{}

/// The components of a pair that isn't planned wait for it, as [`crate::Readiness::settle`] requires.
pub fn components_wait()
    ensures { ComponentsWait }
{}

/// When a block is ended, one fewer is open of its pair alone, as [`crate::Readiness::arrive`] says; and
/// until then its pair waits, as that requires.
pub fn ending_opens_fewer()
    ensures fewer { EndingOpensFewer }
    ensures awaited { OpenBlocksAreAwaited }
{}
