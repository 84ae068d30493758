//! Tests of runs: what crews plan, and what they answer.

use super::gates::{Counting, Meeting, ShutTo};
use super::plans;
use crate::{FIVE_ARTICLES, FIVE_ARTICLES_BY_POLICY, TWO_CUSTOMERS};
use mrp_crew::CrewFault;
use std::test::Fail;

/// S plans P1 and P2 in one wave whose two workers wait for each other, and then nothing: Z waits for its
/// customers.
#[test]
fn two_workers_draft_side_by_side(rt: HostRuntime) -> Result<(), Fail> {
    let calls = plans(&rt, rt.alloc(), TWO_CUSTOMERS, 2, &Meeting::of(2))?;
    assert!(rt; calls.first == Ok(2) && calls.second == Ok(0));
    assert!(rt; calls.after == Some(2) && calls.left == 1);
    Ok(())
}

/// A gate that is shut to both workers lets no pair be planned, and one that is shut to one of them lets
/// the other's. A later call with an open gate plans the rest.
#[test]
fn a_shut_gate_leaves_pairs_for_later(rt: HostRuntime) -> Result<(), Fail> {
    for (shut_to, kept, later) in [(0, 0, 2), (1, 1, 1), (2, 1, 1)] {
        let calls = plans(&rt, rt.alloc(), TWO_CUSTOMERS, 2, &ShutTo(shut_to))?;
        assert!(rt; calls.first == Err(CrewFault::GateShut) && calls.before == Some(kept));
        assert!(rt; calls.second == Ok(later) && calls.after == Some(2));
    }
    Ok(())
}

/// Five articles, then two parts, then the stuff, with policies or without: one worker goes pair by pair, and 64
/// in waves of 5, 2 and 1, whose numbers add up to 15, 3 and 1. Each pair is asked for once.
#[test]
fn crews_of_any_size_plan_the_same(rt: HostRuntime) -> Result<(), Fail> {
    for (table, workers, numbers) in [
        (FIVE_ARTICLES, 1, 8),
        (FIVE_ARTICLES, 2, 0),
        (FIVE_ARTICLES, 64, 15 + 3 + 1),
        (FIVE_ARTICLES_BY_POLICY, 1, 8),
        (FIVE_ARTICLES_BY_POLICY, 2, 0),
        (FIVE_ARTICLES_BY_POLICY, 64, 15 + 3 + 1),
    ] {
        let gate = Counting::new();
        let calls = plans(&rt, rt.alloc(), table, workers, &gate)?;
        assert!(rt; calls.first == Ok(8) && calls.before == Some(8) && calls.left == 0);
        assert!(rt; gate.was_asked(8, numbers));
    }
    Ok(())
}
