//! The world: what its plants give to the plan once it has been driven to its end.
ghost use Rattle.std.specs.Prelude.{◌<◌, ℕ, IfOk, List, length};
ghost use Rattle.mrp_protocol.specs.State.{State, IsFinished};
ghost use Rattle.mrp_agent.specs.Given.{HaveGiven};
ghost use Rattle.mrp_world.specs.Mailbox.{Held};
ghost use Rattle.mrp_world.specs.Moves.{AreAt};

use crate::Plant;
use mrp_net::Network;
use mrp_netting::PairPlan;
use mrp_qty::Memory;
use std::alloc::Global;

/// The plans of each plant's pairs, in plant order.
///
/// # Errors
///
/// [`Memory`] where a growth is refused; all plans are gone then.
pub(crate) fn plans_by_plant<P: Plant>(
    alloc: Global,
    network: &Network,
    plants: Vec<P>,
) -> Result<Vec<Vec<PairPlan>>, Memory>
    requires finished { (capacity : ℕ) × (boxes : List Held) × (s : State)
        × AreAt P.shows network.now capacity plants.items boxes s × IsFinished network.now s }
    ensures { IfOk result (λ lists. HaveGiven network.now lists.items (length network.now.pairs)) }
{
    let mut lists = Vec::with_capacity(alloc, plants.len())?;
    for plant in plants {
        lists.push(plant.into_plans())?;
    }
    Ok(lists)
}
