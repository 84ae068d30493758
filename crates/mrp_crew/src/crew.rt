//! A plant's crew: its workers, and the rooms that they draft in.

ghost use Rattle.std.specs.Prelude.{◌≡◌, ◌+◌, ◌<◌, ◌≤◌, true, false, min, List, length, reverse, All, IfErr, IfOk};
ghost use Rattle.std.specs.Prelude.{OnOk};
ghost use Rattle.mrp_master_data.specs.declared.numbers.PairNo.{PairNo};
ghost use Rattle.mrp_agent.specs.Drafts.{ready_numbers};
ghost use Rattle.mrp_crew.specs.Planning.{IsPlannable, PlansAll};
ghost use Rattle.mrp_crew.specs.Rooms.{IsRoom};
ghost use Rattle.mrp_crew.specs.Settled.{AreToSettle};
ghost use Rattle.mrp_crew.specs.Shut.{AreLetIn, WasShutToWorker};
ghost use Rattle.mrp_qty.specs.declared.limits.TheConstants.{MOST_WORKERS};
ghost use Rattle.mrp_crew.specs.declared.fault.CrewFault.{CrewFault};

use crate::fault::CrewFault;
use crate::rooms::refill;
use crate::settling::keep_drafts;
use crate::threads::draft_wave;
use crate::work::Drafts;
use mrp_agent::{Agent, Gate, Room};
use mrp_qty::{Horizon, Memory};
use std::alloc::Global;
use std::marker::Model;
use std::mem;
use std::sync::Wait;
use std::thread::Threads;

/// The workers of a plant.
///
/// Contracts see how many they are and for how many periods they plan. The rooms in which they draft are made by
/// the first wave of several pairs, and kept from wave to wave (by construction; no clause says so).
#[derive(Drop)]
pub struct Crew {
    workers: u64,
    horizon: Horizon,
    rooms: Vec<Room>,
}

impl Model for Crew {
    ghost use Rattle.std.specs.Prelude.{◌≤◌, All};
    ghost use Rattle.mrp_crew.specs.Rooms.{IsRoom};
    ghost use Rattle.mrp_crew.specs.State.{CrewState};
    ghost use Rattle.mrp_qty.specs.declared.limits.TheConstants.{MOST_WORKERS};

    ghost Value = { CrewState };

    ghost view = { λ crew. record { workers = crew.workers; horizon = crew.horizon } };

    ghost invariant = { λ crew. (1 ≤ crew.workers) × (crew.workers ≤ MOST_WORKERS)
        × All (IsRoom crew.horizon) crew.rooms.items };
}

impl Crew {
    ghost use Rattle.std.specs.Prelude.{◌<◌, List, [], length, IfErr, IfOk, OnOk};
    ghost use Rattle.mrp_master_data.specs.declared.numbers.PairNo.{PairNo};
    ghost use Rattle.mrp_agent.specs.Drafts.{ready_numbers};
    ghost use Rattle.mrp_crew.specs.Planning.{IsPlannable, PlansAll};
    ghost use Rattle.mrp_crew.specs.Shut.{WasShutToWorker};

    /// A crew of 1 to [`MOST_WORKERS`] workers that plan for so many periods.
    ///
    /// # Errors
    ///
    /// [`Memory`] where a growth is refused.
    pub fn new(alloc: Global, workers: u64, horizon: Horizon) -> Result<Crew, Memory>
        requires workers { (1 ≤ workers) × (workers ≤ MOST_WORKERS) }
        ensures workers { IfOk result (λ crew. crew.workers ≡ workers) }
        ensures horizon { IfOk result (λ crew. crew.horizon ≡ horizon) }
    {
        let rooms = Vec::with_capacity(alloc, workers as usize)?;
        Ok(Crew {
            workers,
            horizon,
            rooms,
        })
    }

    /// Plans the pairs of an agent in waves until none is ready, and answers how many it planned.
    ///
    /// A wave takes the ready pairs, at most the first as many as there are workers. The last of them is
    /// drafted by the calling thread, and each of the others by a thread of its own; so a wave of one pair,
    /// as all of one worker are, starts none, and is planned where the agent keeps its plans. Each worker, the
    /// calling thread too, first asks `gate.worker` with the plant and its number in the wave, from 1 on (by
    /// construction; no clause says so, nor which pairs a wave takes). The wave is over once all its threads
    /// have returned, and then the agent keeps all plans that were drafted.
    ///
    /// The agent is one of a plant of a sized network, to which legal beginnings have come, and the crew
    /// plans for as many periods. The calling thread may wait for its workers.
    ///
    /// # Errors
    ///
    /// In this order, and after any of them each pair is planned rightly or not planned:
    ///
    /// - [`CrewFault::Memory`] where a growth is refused.
    /// - [`CrewFault::ThreadRefused`] where a thread could not be started, never by a crew of one; no further ones
    ///   of the wave are started then, and the calling thread drafts nothing.
    /// - [`CrewFault::GateShut`] where the gate answered false to one of these workers.
    pub fn plan_ready<R: Threads + Wait + Sync, G: Gate>(
        &mut self,
        rt: &R,
        alloc: Global,
        agent: &mut Agent,
        plant: usize,
        gate: &G,
    ) -> Result<usize, CrewFault>
        requires plannable { IsPlannable agent.old }
        requires horizon { self.old.horizon ≡ agent.old.view.horizon }
        ensures crew { self.new ≡ self.old }
        ensures planned { (xs : List PairNo) × PlansAll agent.old agent.new xs
            × IfOk result (λ count. (count ≡ length xs) × (ready_numbers agent.new ≡ [])) }
        ensures shut { IfErr result (λ fault. fault ≡ CrewFault.GateShut
            → WasShutToWorker G.worker_shut self.old.workers plant) }
        ensures refused { IfErr result (λ fault. fault ≡ CrewFault.ThreadRefused → 2 ≤ self.old.workers) }
    {
        let before = agent.left();
        while agent.ready().is_some() {
            self.plan_wave(rt, alloc, agent, plant, gate)?;
        }
        Ok(before - agent.left())
    }

    /// Plans a wave of ready pairs; there is one. A wave of one pair needs no threads, and no room: the calling thread,
    /// the first worker, plans it.
    fn plan_wave<R: Threads + Wait + Sync, G: Gate>(
        &mut self,
        rt: &R,
        alloc: Global,
        agent: &mut Agent,
        plant: usize,
        gate: &G,
    ) -> Result<(), CrewFault>
        requires plannable { IsPlannable agent.old }
        requires horizon { self.old.horizon ≡ agent.old.view.horizon }
        requires ready { 0 < length (ready_numbers agent.old) }
        ensures crew { self.new ≡ self.old }
        ensures planned { (xs : List PairNo) × PlansAll agent.old agent.new xs × OnOk result (0 < length xs) }
        ensures shut { IfErr result (λ fault. fault ≡ CrewFault.GateShut
            → WasShutToWorker G.worker_shut self.old.workers plant) }
        ensures refused { IfErr result (λ fault. fault ≡ CrewFault.ThreadRefused → 2 ≤ self.old.workers) }
    {
        let ready = agent.ready_pairs();
        if self.workers > 1 && ready.len() > 1 {
            return self.plan_by_threads(rt, alloc, agent, plant, gate);
        }
        let pair = ready[0];
        if !gate.worker(plant, 1) {
            return Err(CrewFault::GateShut);
        }
        agent.plan(pair);
        Ok(())
    }

    /// Plans a wave of ready pairs by threads, where there is one; of several, each in a room of its own.
    fn plan_by_threads<R: Threads + Wait + Sync, G: Gate>(
        &mut self,
        rt: &R,
        alloc: Global,
        agent: &mut Agent,
        plant: usize,
        gate: &G,
    ) -> Result<(), CrewFault>
        requires plannable { IsPlannable agent.old }
        requires horizon { self.old.horizon ≡ agent.old.view.horizon }
        requires ready { 0 < length (ready_numbers agent.old) }
        ensures crew { self.new ≡ self.old }
        ensures planned { (xs : List PairNo) × PlansAll agent.old agent.new xs × OnOk result (0 < length xs) }
        ensures shut { IfErr result (λ fault. fault ≡ CrewFault.GateShut
            → WasShutToWorker G.worker_shut self.old.workers plant) }
        ensures refused { IfErr result (λ fault. fault ≡ CrewFault.ThreadRefused → 2 ≤ self.old.workers) }
    {
        refill(alloc, &mut self.rooms, self.horizon, self.workers)?;
        let drafts = draft_ready(rt, alloc, agent, plant, gate, self.workers, &mut self.rooms)?;
        let Drafts { works, all, rooms } = drafts;
        self.rooms = rooms;
        let open = keep_drafts(agent, works, &mut self.rooms);
        wave_end(all, open)
    }
}

/// Drafts the plans of the first ready pairs, of as many as there are workers; for each there is a room.
fn draft_ready<R: Threads + Wait + Sync, G: Gate>(
    rt: &R,
    alloc: Global,
    agent: &Agent,
    plant: usize,
    gate: &G,
    workers: u64,
    rooms: &mut Vec<Room>,
) -> Result<Drafts, Memory>
    requires plannable { IsPlannable agent.now }
    requires ready { 0 < length (ready_numbers agent.now) }
    requires workers { (1 ≤ workers) × (workers ≤ MOST_WORKERS) }
    requires rooms { All (IsRoom agent.now.view.horizon) rooms.old.items }
    requires enough { workers ≤ length rooms.old.items }
    ensures rooms { All (IsRoom agent.now.view.horizon) rooms.new.items }
    ensures drafts { IfOk result (λ drafts. AreToSettle agent.now (reverse drafts.works.items)) }
    ensures some { IfOk result (λ drafts. drafts.all ≡ true → 0 < length drafts.works.items) }
    ensures free { IfOk result (λ drafts. All (IsRoom agent.now.view.horizon) drafts.rooms.items) }
    ensures shut { IfOk result (λ drafts. AreLetIn (WasShutToWorker G.worker_shut workers plant) drafts.works.items) }
    ensures refused { IfOk result (λ drafts. drafts.all ≡ false → 2 ≤ workers) }
{
    let pairs = agent.ready_pairs();
    let others = others_of(pairs.len(), workers);
    let works = Vec::with_capacity(alloc, others + 1)?;
    let threads = Vec::with_capacity(alloc, others)?;
    let rooms = mem::replace(rooms, Vec::new(alloc));
    let own = pairs[others];
    let others = &pairs[..others];
    Ok(draft_wave(rt, agent, plant, gate, others, own, rooms, threads, works))
}

/// How a wave ended: all its pairs are planned, or a thread could not be started, or the gate was shut.
fn wave_end(all: bool, let_in: bool) -> Result<(), CrewFault>
    ensures planned { OnOk result ((all ≡ true) × (let_in ≡ true)) }
    ensures shut { IfErr result (λ fault. fault ≡ CrewFault.GateShut → let_in ≡ false) }
    ensures refused { IfErr result (λ fault. fault ≡ CrewFault.ThreadRefused → all ≡ false) }
{
    if !all {
        return Err(CrewFault::ThreadRefused);
    }
    if let_in {
        Ok(())
    } else {
        Err(CrewFault::GateShut)
    }
}

/// How many threads a wave of a crew starts: one less than it has pairs, since the calling thread drafts
/// one. It has the ready pairs, or as many of them as there are workers.
fn others_of(ready: usize, workers: u64) -> usize
    requires ready { 1 ≤ ready }
    requires workers { (1 ≤ workers) × (workers ≤ MOST_WORKERS) }
    ensures { result + 1 ≡ min ready workers }
{
    ready.min(workers as usize) - 1
}
