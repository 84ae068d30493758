//! The library: the plan on one thread, for a text function. The plants of a network with the mailboxes between them,
//! driven until all have planned.

ghost use Rattle.std.specs.Prelude.{◌≡◌, ◌≤◌, IfOk, IfErr};
ghost use Rattle.mrp_loops.specs.Sized.{IsSized};
ghost use Rattle.mrp_net.specs.PlanLaws.{Fits};
ghost use Rattle.mrp_commands.specs.declared.choice.TheConstants.{MOST_CAPACITY};

use crate::fault::TextFault;
use mrp_commands::MOST_CAPACITY;
use mrp_loops::SizedNet;
use mrp_plan::Plan;
use mrp_world::Firm;
use std::alloc::Global;

/// The most records that a mailbox has room for where one thread drives the firm. It has no use for more: the plan
/// is that of every capacity, and a receiver takes a record before its sender sends the next (by construction; no
/// clause says so).
const DRIVEN_CAPACITY: u64 = 8;

/// The plan that the plants of a network come to, whose mailboxes may hold so many records.
pub(crate) fn driven_plan(
    alloc: Global,
    net: &SizedNet<'_>,
    capacity: u64,
) -> Result<Plan, TextFault>
    requires capacity { (1 ≤ capacity) × (capacity ≤ MOST_CAPACITY) }
    requires plannable { IsSized net.now.network }
    ensures fits { IfOk result (Fits net.now.network) }
    ensures fault { IfErr result (λ fault. fault ≡ TextFault.Memory) }
{
    let firm = Firm::driven(alloc, net, capacity.min(DRIVEN_CAPACITY))?;
    let plan = firm.into_plan(alloc, net)?;
    Ok(plan)
}
