//! The run by threads: what the plants' threads bring to the plan of the network once it ends.
ghost use Rattle.std.specs.Prelude.{◌≡◌, IfErr, IfOk, length};
ghost use Rattle.mrp_master_data.specs.Table.{Table};
ghost use Rattle.mrp_net.specs.Plan.{plan_of};
ghost use Rattle.mrp_loops.specs.Sized.{IsSized};
ghost use Rattle.mrp_run.specs.Ends.{HavePlans};
ghost use Rattle.mrp_agent.specs.Given.{HaveGiven};

use crate::fault::RunFault;
use crate::plant::Plant;
use mrp_agent::gather;
use mrp_net::Network;
use mrp_netting::PairPlan;
use mrp_qty::Memory;
use std::alloc::Global;

/// The plan of each pair of the network, in table order. The plans of the plants are moved, not copied.
///
/// # Errors
///
/// [`RunFault::Memory`] where a growth is refused; all plans are gone then.
pub(crate) fn plans_of(
    alloc: Global,
    network: &Network,
    plants: Vec<Plant>,
) -> Result<Vec<PairPlan>, RunFault>
    requires sized { IsSized network.now }
    requires plans { HavePlans network.now plants.items }
    ensures plans { IfOk result (λ plans. plans.items ≡ plan_of network.now) }
    ensures fault { IfErr result (λ fault. fault ≡ RunFault.Memory) }
{
    let given = plans_by_plant(alloc, plants)?;
    Ok(gather(alloc, network, given)?)
}

/// The plans of each plant's pairs, in table order.
fn plans_by_plant(alloc: Global, plants: Vec<Plant>) -> Result<Vec<Vec<PairPlan>>, Memory>
    ensures { (N : Table) → HavePlans N plants.items → IfOk result (λ given. HaveGiven N given.items (length N.pairs)) }
{
    let mut given = Vec::with_capacity(alloc, plants.len())?;
    for plant in plants {
        let Plant { agent, .. } = plant;
        given.push(agent.into_plans()).unwrap();
    }
    Ok(given)
}
