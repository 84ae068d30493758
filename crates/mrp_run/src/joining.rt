//! The run by threads: how the two ends of each lane are paired and joined after its threads.
ghost use Rattle.std.specs.Prelude.{◌≡◌, ◌+◌, ◌<◌, [], ◌∷◌, ◌++◌, List, length, map, IfOk, IfSome, IsSomeAnd};
ghost use Rattle.mrp_master_data.specs.Table.{Table};
ghost use Rattle.mrp_net.specs.Lanes.{lanes, lane_at};
ghost use Rattle.mrp_lane.specs.Ends.{AreOfOneLane, HasLegalList, Name};
ghost use Rattle.mrp_lane.specs.Reconciled.{ShowsEnds};
ghost use Rattle.mrp_run.specs.Ends.{AreEndsOf, AreNames, AreOfEnds, HaveEnded, HaveLeft, HaveLeftOf, HavePlans};
ghost use Rattle.mrp_run.specs.Ends.{IsSendEndOf, IsTakeEndOf};
ghost use Rattle.mrp_run.specs.Plant.{IsClosed};

use crate::plant::Plant;
use mrp_lane::{JoinedLane, Reconciled, SendEnd, TakeEnd, join, reconcile};
use mrp_net::{LaneNo, Network, PlantNo};
use mrp_qty::Memory;
use std::alloc::Global;
use std::sync::Wait;

/// What is made of the two ends of a lane when they are joined.
pub(crate) trait OfEnds: Drop + Sized {
    ghost use Rattle.mrp_lane.specs.Reconciled.{Carried};

    /// What it shows of the lane.
    ghost carried: { Self → Carried };

    /// Makes one of two ends.
    ///
    /// # Errors
    ///
    /// [`Memory`] where a growth is refused; both ends are gone then.
    fn of_ends<R: Wait>(rt: &R, alloc: Global, send: SendEnd, take: TakeEnd) -> Result<Self, Memory>
        requires same { AreOfOneLane send take }
        ensures shows { IfOk result (λ r. ShowsEnds send take (carried r)) }
        ensures legal { HasLegalList send };
}

impl OfEnds for Reconciled {
    ghost carried = { λ r. r };

    fn of_ends<R: Wait>(
        rt: &R,
        alloc: Global,
        send: SendEnd,
        take: TakeEnd,
    ) -> Result<Reconciled, Memory> {
        reconcile(rt, alloc, send, take)
    }
}

impl OfEnds for JoinedLane {
    ghost carried = { λ r. r };

    fn of_ends<R: Wait>(
        _rt: &R,
        _alloc: Global,
        send: SendEnd,
        take: TakeEnd,
    ) -> Result<JoinedLane, Memory> {
        Ok(join(send, take))
    }
}

/// The two ends of each lane, joined, in lane order.
///
/// # Errors
///
/// [`Memory`] where a growth is refused.
pub(crate) fn join_all<L: OfEnds, R: Wait>(
    rt: &R,
    alloc: Global,
    network: &Network,
    plants: &mut [Plant],
) -> Result<Vec<L>, Memory>
    requires ended { (ns : List Name) × AreNames network.now (length (lanes network.now)) ns
        × HaveEnded network.now ns ns plants.old }
    ensures ends { IfOk result (λ all. AreOfEnds network.now plants.old (map L.carried all.items)) }
    ensures plans { IfOk result (λ _. HavePlans network.now plants.new) }
{
    let lanes = network.lanes();
    let mut all = Vec::with_capacity(alloc, lanes)?;
    for done in 0..lanes {
        let (send, take) = last_ends(network, LaneNo(lanes - 1 - done), plants);
        let joined = L::of_ends(rt, alloc, send, take)?;
        all.push(joined).unwrap();
    }
    all.as_mut_slice().reverse();
    Ok(all)
}

/// Takes the two ends of the last lane whose ends are there.
fn last_ends(network: &Network, lane: LaneNo, plants: &mut [Plant]) -> (SendEnd, TakeEnd)
    requires lane { lane.0 < length (lanes network.now) }
    requires left { HaveLeft network.now (lane.0 + 1) plants.old }
    ensures ends { AreEndsOf network.now plants.old lane.0 result.0 result.1 }
    ensures left { HaveLeft network.now lane.0 plants.new }
    ensures left_of { HaveLeftOf plants.old plants.new }
{
    let between = network.lane(lane);
    let Some(send) = last_send(plants, between.sender) else {
        unreachable!()
    };
    let Some(take) = last_take(plants, between.receiver) else {
        unreachable!()
    };
    (send, take)
}

/// Takes the last sender's end of a plant.
fn last_send(plants: &mut [Plant], sender: PlantNo) -> Option<SendEnd>
    requires there { sender.0 < length plants.old }
    ensures last { (N : Table) (ns ts : List Name) (n : Name) → (lane_at N n.lane).sender.0 ≡ sender.0
        → HaveEnded N (ns ++ n ∷ []) ts plants.old
        → IsSomeAnd result (λ e. (e.name ≡ n) × IsClosed e) × HaveEnded N ns ts plants.new }
    ensures there { IfSome result (λ e. IsSendEndOf plants.old sender.0 e) }
    ensures left { HaveLeftOf plants.old plants.new }
{
    plants[sender.0].sends.pop()
}

/// Takes the last receiver's end of a plant.
fn last_take(plants: &mut [Plant], receiver: PlantNo) -> Option<TakeEnd>
    requires there { receiver.0 < length plants.old }
    ensures last { (N : Table) (ns ts : List Name) (n : Name) → (lane_at N n.lane).receiver.0 ≡ receiver.0
        → HaveEnded N ns (ts ++ n ∷ []) plants.old
        → IsSomeAnd result (λ e. (e.name ≡ n) × IsClosed e) × HaveEnded N ns ts plants.new }
    ensures there { IfSome result (λ e. IsTakeEndOf plants.old receiver.0 e) }
    ensures left { HaveLeftOf plants.old plants.new }
{
    plants[receiver.0].takes.pop()
}
