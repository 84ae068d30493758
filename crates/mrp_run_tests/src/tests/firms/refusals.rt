//! Tests of runs: firms whose allocations are refused. Each answer is that memory is out, or the true one.

use super::shows;
use super::trials::{Trial, holds_of};
use crate::TWO_PLANTS;
use mrp_loops::SizedNet;
use mrp_plan::fits;
use mrp_world::Firm;
use std::alloc::Global;
use std::test::Fail;

/// Whether the firm is driven to its end, and its figures, once made, are these.
fn is_driven_to_figures(alloc: Global, firm: &mut Firm) -> Result<bool, Fail> {
    firm.drive();
    let shown = shows(alloc, firm, &[(100, 108, 108), (108, 130, 130)])?;
    Ok(firm.steps_left() == 0 && shown)
}

/// The same of a new firm, once made.
fn ends_or_is_refused(alloc: Global, net: &SizedNet) -> Result<bool, Fail> {
    let mut firm: Firm<'_> = Firm::new(alloc, net, 2)?;
    is_driven_to_figures(alloc, &mut firm)
}

/// Whether the plan that a firm gives at its end, once given, fits the network.
fn fits_or_is_refused(alloc: Global, net: &SizedNet) -> Result<bool, Fail> {
    let firm: Firm<'_> = Firm::driven(alloc, net, 2)?;
    let plan = firm.into_plan(alloc, net)?;
    Ok(fits(net, &plan))
}

/// Whether both hold of a firm.
pub(super) fn answers_or_is_refused(alloc: Global, net: &SizedNet) -> Result<bool, Fail> {
    Ok(ends_or_is_refused(alloc, net)? && fits_or_is_refused(alloc, net)?)
}

/// With an allocation refused this test passes or ends in an error for want of memory; its assertion
/// never fails.
#[test]
fn a_refusal_is_the_only_other_answer(rt: HostRuntime) -> Result<(), Fail> {
    assert!(rt; holds_of(rt.alloc(), TWO_PLANTS, Trial::AnswersOrIsRefused)?);
    Ok(())
}
