//! A crew's workers: their threads, started for a wave, and joined.
ghost use Rattle.std.specs.Prelude.{◌≡◌, ◌+◌, ◌++◌, ◌<◌, ◌≤◌, false, List, [], ◌∷◌, length, reverse, All, IfSome, ℕ};
ghost use Rattle.std.specs.Prelude.{vec_capacity};
ghost use Rattle.std.specs.Bool.{OnTrue};
ghost use Rattle.mrp_master_data.specs.declared.numbers.PairNo.{PairNo};
ghost use Rattle.mrp_agent.specs.Drafts.{CanDraft};
ghost use Rattle.mrp_agent.specs.State.{AgentState};
ghost use Rattle.mrp_crew.specs.Rooms.{AreDrafts, IsRoom, IsWave, WorkedFor, pairs_worked};
ghost use Rattle.mrp_crew.specs.Shut.{AreLetIn, IsLetIn, WasShutToWorker};
ghost use Rattle.mrp_qty.specs.declared.limits.TheConstants.{MOST_WORKERS};
ghost use Rattle.mrp_crew.specs.Started.{IsWorkerOf, IsFor, IsStarted, ordered};

use crate::rooms::put_back;
use crate::work::{Drafts, Order, Work, draft_pair};
use mrp_agent::{Agent, Gate, Room};
use mrp_net::PairNo;
use std::marker::PhantomData;
use std::snapshot::Snapshot;
use std::sync::Wait;
use std::thread;
use std::thread::{PromisedHandle, Scope, Threads};

/// A thread that drafts the plan of a pair.
pub(crate) type Worker<G> = PromisedHandle<Work, Order<G>>;

/// Drafts the plans of pairs, of one in the calling thread and of each other one in a thread of its own.
/// It returns when all of them have returned.
pub(crate) fn draft_wave<R: Threads + Wait + Sync, G: Gate>(
    rt: &R,
    agent: &Agent,
    plant: usize,
    gate: &G,
    others: &[PairNo],
    own: PairNo,
    rooms: Vec<Room>,
    workers: Vec<Worker<G>>,
    works: Vec<Work>,
) -> Drafts
    requires wave { IsWave agent.now others.now own rooms.items workers works }
    ensures drafts { AreDrafts agent.now (others.now ++ own ∷ []) result }
    ensures shut { AreLetIn (WasShutToWorker G.worker_shut (length others.now + 1) plant) result.works.items }
    ensures refused { result.all ≡ false → 0 < length others.now }
{
    thread::scope(
        thread::scope_env(),
        rt,
        move |scope| -> Drafts
            requires wave { IsWave agent.now others.now own rooms.items workers works }
            ensures drafts { AreDrafts agent.entry.now (others.entry.now ++ own ∷ []) result }
            ensures shut { AreLetIn (WasShutToWorker G.worker_shut (length others.entry.now + 1) plant)
                result.works.items }
            ensures refused { result.all ≡ false → 0 < length others.entry.now }
        {
            draft_beside(
                scope, rt, agent, plant, gate, others, own, rooms, workers, works,
            )
        },
    )
}

/// Drafts the pairs of a wave within the scope in which the threads run.
fn draft_beside<'s, E, R: Threads, G: Gate>(
    scope: &Scope<'s, E>,
    rt: &R,
    agent: &'s Agent,
    plant: usize,
    gate: &'s G,
    others: &[PairNo],
    own: PairNo,
    mut rooms: Vec<Room>,
    mut workers: Vec<Worker<G>>,
    mut works: Vec<Work>,
) -> Drafts
    requires wave { IsWave agent.now others.now own rooms.items workers works }
    ensures drafts { AreDrafts agent.now (others.now ++ own ∷ []) result }
    ensures shut { AreLetIn (WasShutToWorker G.worker_shut (length others.now + 1) plant) result.works.items }
    ensures refused { result.all ≡ false → 0 < length others.now }
{
    let room = rooms.take_last();
    let all = start_all(scope, agent, plant, gate, others, &mut rooms, &mut workers);
    if !all {
        put_back(&mut rooms, room);
        join_all(rt, workers, &mut works);
        return Drafts { works, all, rooms };
    }
    let number = others.len() as u64 + 1;
    let drafted = draft_pair(agent, plant, gate, number, own, room);
    works.push_reserved(drafted);
    join_all(rt, workers, &mut works);
    Drafts { works, all, rooms }
}

/// Starts a thread for each pair, unless one is refused, and answers whether none was.
fn start_all<'s, E, G: Gate>(
    scope: &Scope<'s, E>,
    agent: &'s Agent,
    plant: usize,
    gate: &'s G,
    pairs: &[PairNo],
    rooms: &mut Vec<Room>,
    workers: &mut Vec<Worker<G>>,
) -> bool
    requires can { All (CanDraft agent.now) pairs.now }
    requires rooms { All (IsRoom agent.now.view.horizon) rooms.old.items }
    requires enough { length pairs.now ≤ length rooms.old.items }
    requires few { length pairs.now < MOST_WORKERS }
    requires workers { (workers.old.items ≡ []) × (length pairs.now ≤ vec_capacity workers.old) }
    ensures rooms { All (IsRoom agent.now.view.horizon) rooms.new.items }
    ensures started { (rest : List PairNo) × (pairs.now ≡ ordered workers.new.items ++ rest)
        × OnTrue result (rest ≡ []) }
    ensures few { length workers.new.items ≤ length pairs.now }
    ensures agent { All (IsFor agent.now) workers.new.items }
    ensures plant { All (IsWorkerOf plant (length pairs.now + 1)) workers.new.items }
    ensures refused { result ≡ false → 0 < length pairs.now }
{
    for pair in pairs {
        let room = rooms.take_last();
        let number = workers.len() as u64 + 1;
        let Some(worker) = start(scope, agent, plant, gate, number, *pair, room) else {
            return false;
        };
        workers.push_reserved(worker);
    }
    true
}

/// Starts a thread for a pair; `None` where it could not be started, and the room is gone then.
fn start<'s, E, G: Gate>(
    scope: &Scope<'s, E>,
    agent: &'s Agent,
    plant: usize,
    gate: &'s G,
    number: u64,
    pair: PairNo,
    room: Room,
) -> Option<Worker<G>>
    requires can { CanDraft agent.now pair }
    requires room { IsRoom agent.now.view.horizon room }
    requires number { (1 ≤ number) × (number ≤ MOST_WORKERS) }
    ensures { IfSome result (IsStarted agent.now plant number pair) }
{
    let order = Order {
        agent: Snapshot::of(agent),
        pair,
        plant,
        number,
        gate: PhantomData,
    };
    let started = scope.spawn_with(
        order,
        move || -> Work
            requires can { CanDraft agent.now pair }
            requires room { IsRoom agent.now.view.horizon room }
            requires number { (1 ≤ number) × (number ≤ MOST_WORKERS) }
            ensures pair { result.pair ≡ pair }
            ensures worked { WorkedFor agent.entry.now result }
            ensures shut { IsLetIn (G.worker_shut plant number) result }
        { draft_pair(agent, plant, gate, number, pair, room) },
    );
    started.ok()
}

/// Joins the threads, the last first, and puts their results behind those before them.
fn join_all<R: Threads, G: Gate>(rt: &R, mut workers: Vec<Worker<G>>, works: &mut Vec<Work>)
    requires room { length workers.items + length works.old.items ≤ vec_capacity works.old }
    ensures pairs { pairs_worked (reverse works.new.items) ≡ ordered workers.items
        ++ pairs_worked (reverse works.old.items) }
    ensures worked { (A : AgentState) → All (IsFor A) workers.items → All (WorkedFor A) works.old.items
        → All (WorkedFor A) works.new.items }
    ensures shut { (plant most : ℕ) → All (IsWorkerOf plant most) workers.items
        → AreLetIn (WasShutToWorker G.worker_shut most plant) works.old.items
        → AreLetIn (WasShutToWorker G.worker_shut most plant) works.new.items }
{
    while let Some(worker) = workers.pop() {
        works.push_reserved(worker.join(rt));
    }
}
