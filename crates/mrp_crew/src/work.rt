//! A crew's workers: what one of them does, and what the workers of a wave bring back.
ghost use Rattle.std.specs.Prelude.{◌≡◌, ◌≤◌};
ghost use Rattle.mrp_agent.specs.Drafts.{CanDraft};
ghost use Rattle.mrp_crew.specs.Rooms.{IsRoom, WorkedFor};
ghost use Rattle.mrp_crew.specs.Shut.{IsLetIn};
ghost use Rattle.mrp_qty.specs.declared.limits.TheConstants.{MOST_WORKERS};

use mrp_agent::{Agent, Gate, Room};
use mrp_net::PairNo;
use std::marker::PhantomData;
use std::snapshot::Snapshot;
use std::thread::Promise;

/// What a worker brings back: its pair, whether the gate was open, and its room, with the plan of the pair
/// where it was.
#[derive(Drop)]
pub(crate) struct Work {
    pub(crate) pair: PairNo,
    pub(crate) open: bool,
    pub(crate) room: Room,
}

/// What a thread is started for: the plan of a pair of a plant, as the agent stands then, drafted by the worker
/// of this number, at a gate of the kind `G`.
pub(crate) struct Order<G> {
    pub(crate) agent: Snapshot<Agent>,
    pub(crate) pair: PairNo,
    pub(crate) plant: usize,
    pub(crate) number: u64,
    pub(crate) gate: PhantomData<G>,
}

impl<G> Drop for Order<G> {
    fn drop(self) {
        let Order {
            agent: _agent,
            pair: _,
            plant: _,
            number: _,
            gate: _,
        } = self;
    }
}

impl<G: Gate> Promise<Work> for Order<G> {
    ghost use Rattle.mrp_crew.specs.Rooms.{FulfilsOrder};

    ghost kept_by = { λ order work. FulfilsOrder G.worker_shut order work };
}

/// What the workers of a wave bring back, whether all of them could be started, and the rooms that none
/// took.
#[derive(Drop)]
pub(crate) struct Drafts {
    pub(crate) works: Vec<Work>,
    pub(crate) all: bool,
    pub(crate) rooms: Vec<Room>,
}

/// A worker asks the gate, and where it is open drafts the plan of its pair.
pub(crate) fn draft_pair<G: Gate>(
    agent: &Agent,
    plant: usize,
    gate: &G,
    number: u64,
    pair: PairNo,
    mut room: Room,
) -> Work
    requires can { CanDraft agent.now pair }
    requires room { IsRoom agent.now.view.horizon room }
    requires number { (1 ≤ number) × (number ≤ MOST_WORKERS) }
    ensures pair { result.pair ≡ pair }
    ensures worked { WorkedFor agent.now result }
    ensures shut { IsLetIn (G.worker_shut plant number) result }
{
    if !gate.worker(plant, number) {
        return Work {
            pair,
            open: false,
            room,
        };
    }
    room.draft(agent, pair);
    Work {
        pair,
        open: true,
        room,
    }
}
