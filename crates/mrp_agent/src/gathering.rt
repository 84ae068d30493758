//! The agents of all plants: how their plans are gathered to the plan of the network.
ghost use Rattle.std.specs.Prelude.{◌≡◌, ◌+◌, ◌<◌, IfOk, Some, length, reverse};
ghost use Rattle.mrp_master_data.specs.Table.{IsPair};
ghost use Rattle.mrp_net.specs.Plan.{plan_of, rows_at};
ghost use Rattle.mrp_loops.specs.Sized.{IsSized};
ghost use Rattle.mrp_agent.specs.Given.{HaveGiven};

use mrp_net::{Network, PairNo};
use mrp_netting::PairPlan;
use mrp_qty::Memory;
use std::alloc::Global;

/// The plan of each pair of the network, in table order. `given` has a list for each plant, in plant order: the
/// plans of that plant's pairs, in table order. The plans are moved, not copied.
///
/// # Errors
///
/// [`Memory`] where room for the list is refused; all plans are gone then.
pub fn gather(
    alloc: Global,
    network: &Network,
    mut given: Vec<Vec<PairPlan>>,
) -> Result<Vec<PairPlan>, Memory>
    requires sized { IsSized network.now }
    requires given { HaveGiven network.now given.items (length network.now.pairs) }
    ensures { IfOk result (λ plans. plans.items ≡ plan_of network.now) }
{
    let mut plans = from_the_last(alloc, network, given.as_mut_slice())?;
    plans.as_mut_slice().reverse();
    Ok(plans)
}

/// The plans of all pairs, the last pair's first.
fn from_the_last(
    alloc: Global,
    network: &Network,
    given: &mut [Vec<PairPlan>],
) -> Result<Vec<PairPlan>, Memory>
    requires sized { IsSized network.now }
    requires given { HaveGiven network.now given.old (length network.now.pairs) }
    ensures { IfOk result (λ plans. plans.items ≡ reverse (plan_of network.now)) }
{
    let pairs = network.pairs();
    let mut plans = Vec::with_capacity(alloc, pairs)?;
    for done in 0..pairs {
        if let Some(plan) = take_last(network, given, PairNo(pairs - 1 - done)) {
            plans.push(plan)?;
        }
    }
    Ok(plans)
}

/// Takes the plan of the last pair that there are plans of.
fn take_last(network: &Network, given: &mut [Vec<PairPlan>], x: PairNo) -> Option<PairPlan>
    requires sized { IsSized network.now }
    requires pair { IsPair network.now x.0 }
    requires given { HaveGiven network.now given.old (x.0 + 1) }
    ensures plan { result ≡ Some (rows_at (plan_of network.now) x.0) }
    ensures given { HaveGiven network.now given.new x.0 }
{
    let plant = network.pair(x).plant;
    given[plant.0].pop()
}
