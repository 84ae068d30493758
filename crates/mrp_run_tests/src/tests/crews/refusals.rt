//! Tests of runs: crews whose allocations are refused. Each answer is that memory is out, or the true one.

use super::plans;
use crate::FIVE_ARTICLES;
use mrp_agent::NoGate;
use mrp_crew::CrewFault;
use std::test::Fail;

/// A crew of three plans the plant whole, or, where it is refused memory or a thread, goes on from there in
/// a second call; what is planned is planned rightly after each. With an allocation refused this test
/// passes or ends in an error for want of memory; its assertions never fail.
#[test]
fn a_refusal_is_the_only_other_answer(rt: HostRuntime) -> Result<(), Fail> {
    let calls = plans(&rt, rt.alloc(), FIVE_ARTICLES, 3, &NoGate)?;
    let went_on = match calls.first {
        Ok(count) => count == 8 && calls.second == Ok(0),
        Err(CrewFault::GateShut) => false,
        Err(_) => calls.before.is_some() && calls.second.is_ok(),
    };
    assert!(rt; went_on);
    assert!(rt; calls.after == Some(8) && calls.left == 0);
    Ok(())
}
