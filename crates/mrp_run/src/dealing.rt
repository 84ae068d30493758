//! The run by threads: how the plants are made before its threads start, and the ends of the lanes dealt to them.
ghost use Rattle.std.specs.Prelude.{◌≡◌, ◌+◌, ◌≤◌, ◌<◌, [], ◌∷◌, ◌++◌, List, All, IfOk, OnOk, Ok, length, map};
ghost use Rattle.mrp_master_data.specs.Table.{Table};
ghost use Rattle.mrp_net.specs.Lanes.{lanes, lane_at};
ghost use Rattle.mrp_loops.specs.Sized.{IsSized};
ghost use Rattle.mrp_qty.specs.declared.limits.TheConstants.{MOST_ROOM};
ghost use Rattle.mrp_lane.specs.Ends.{Name};
ghost use Rattle.mrp_run.specs.Ends.{AreIdle, AreReady, HaveMailboxRoom, HaveFirst, IsEmpty, IsIdle};

use crate::plant::Plant;
use mrp_agent::Agent;
use mrp_lane::{SendEnd, TakeEnd, lane};
use mrp_loops::SizedNet;
use mrp_net::{LaneNo, Network, PlantNo};
use mrp_plant_view::PlantView;
use mrp_qty::Memory;
use std::alloc::Global;
use std::thread;
use std::thread::Threads;

/// The plants of a network before the first turn, each with its agent and the ends of its lanes. A mailbox
/// has room for `capacity` records, or for the longest text of its lane where that is less.
///
/// # Errors
///
/// [`Memory`] where a growth is refused.
pub(crate) fn ready_plants<R: Threads + Sync>(
    rt: &R,
    alloc: Global,
    net: &SizedNet<'_>,
    capacity: u64,
) -> Result<Vec<Plant>, Memory>
    requires capacity { (1 ≤ capacity) × (capacity ≤ MOST_ROOM) }
    ensures ready { IfOk result (λ plants. AreReady net.now.network plants.items) }
    ensures rooms { IfOk result (λ plants. All (HaveMailboxRoom net.now.network capacity) plants.items) }
{
    let network = net.network();
    let mut plants = idle_plants(rt, alloc, network)?;
    for l in 0..network.lanes() {
        deal(alloc, net, LaneNo(l), capacity, &mut plants)?;
    }
    Ok(plants)
}

/// The plants, with no ends yet. All processors make them, and where no thread can be made one makes them all.
fn idle_plants<R: Threads + Sync>(
    rt: &R,
    alloc: Global,
    network: &Network,
) -> Result<Vec<Plant>, Memory>
    requires sized { IsSized network.now }
    ensures { IfOk result (λ plants. AreIdle network.now [] [] plants.items) }
{
    let idle = |p: usize| -> Result<Plant, Memory>
        requires sized { IsSized network.now }
        ensures { IfOk result (λ idle. IsIdle network.entry.now [] [] p idle) }
    { idle_plant(alloc, network, PlantNo(p)) };
    let made = thread::map_indices(rt, alloc, network.plants(), &idle)?;
    all_made(alloc, made)
}

/// The plants, where each was made.
fn all_made(alloc: Global, made: Vec<Result<Plant, Memory>>) -> Result<Vec<Plant>, Memory>
    ensures { IfOk result (λ plants. made.items ≡ map Ok plants.items) }
{
    let mut plants = Vec::with_capacity(alloc, made.len())?;
    for plant in made {
        plants.push(plant?).unwrap();
    }
    Ok(plants)
}

/// A plant with no ends yet.
fn idle_plant(alloc: Global, network: &Network, plant: PlantNo) -> Result<Plant, Memory>
    requires sized { IsSized network.now }
    ensures { IfOk result (λ idle. IsIdle network.now [] [] plant.0 idle) }
{
    let view = PlantView::of(alloc, network, plant)?;
    Ok(Plant {
        agent: Agent::new(alloc, view)?,
        sends: Vec::new(alloc),
        takes: Vec::new(alloc),
    })
}

/// Makes the mailbox of the next lane and deals its two ends.
fn deal(
    alloc: Global,
    net: &SizedNet<'_>,
    number: LaneNo,
    capacity: u64,
    plants: &mut [Plant],
) -> Result<(), Memory>
    requires lane { number.0 < length (lanes net.now.network) }
    requires capacity { (1 ≤ capacity) × (capacity ≤ MOST_ROOM) }
    requires first { HaveFirst net.now.network capacity number.0 plants.old }
    ensures next { OnOk result (HaveFirst net.now.network capacity (number.0 + 1) plants.new) }
{
    let between = net.network().lane(number);
    let (send, take) = lane(alloc, net, number, capacity)?;
    deal_send(plants, between.sender, send)?;
    deal_take(plants, between.receiver, take)
}

/// Deals the sender's end of a new lane.
fn deal_send(plants: &mut [Plant], sender: PlantNo, end: SendEnd) -> Result<(), Memory>
    requires there { sender.0 < length plants.old }
    ensures { OnOk result ((N : Table) (ns ts : List Name) → (lane_at N end.name.lane).sender.0 ≡ sender.0 → IsEmpty end
        → AreIdle N ns ts plants.old
        → AreIdle N (ns ++ end.name ∷ []) ts plants.new) }
{
    plants[sender.0].sends.push(end)?;
    Ok(())
}

/// Deals the receiver's end of a new lane.
fn deal_take(plants: &mut [Plant], receiver: PlantNo, end: TakeEnd) -> Result<(), Memory>
    requires there { receiver.0 < length plants.old }
    ensures { OnOk result ((N : Table) (ns ts : List Name) → (lane_at N end.name.lane).receiver.0 ≡ receiver.0
        → IsEmpty end → AreIdle N ns ts plants.old
        → AreIdle N ns (ts ++ end.name ∷ []) plants.new) }
{
    plants[receiver.0].takes.push(end)?;
    Ok(())
}
