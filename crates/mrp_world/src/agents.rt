//! The world: its plants are agents, and what it asks of a plant an agent answers.

use crate::plant::Plant;
use mrp_agent::Agent;
use mrp_book::BookFault;
use mrp_net::{ItemNo, LaneNo, PairNo};
use mrp_netting::PairPlan;
use mrp_plant_view::PlantView;
use mrp_qty::{Memory, Qty};
use mrp_record::Record;
use std::alloc::Global;

impl Plant for Agent {
    ghost use Rattle.mrp_agent.specs.State.{plans_of};
    ghost use Rattle.mrp_agent.proofs.AgentStays.{agent_is_local, agent_stays};
    ghost use Rattle.mrp_agent.specs.InNetwork.{ShowsAgent};

    ghost shows = { ShowsAgent };

    ghost kept = { plans_of };

    fn new(alloc: Global, view: PlantView) -> Result<Agent, Memory> {
        Agent::new(alloc, view)
    }

    fn next_out(&self, lane: LaneNo) -> Option<Record> {
        Agent::next_out(self, lane)
    }

    fn send(&mut self, lane: LaneNo) -> Option<Record> {
        Agent::send(self, lane)
    }

    fn book(&mut self, lane: LaneNo, entry: &Record) -> Result<(), BookFault> {
        Agent::book(self, lane, entry)
    }

    fn ready(&self) -> Option<PairNo> {
        self.ready_pairs().first().copied()
    }

    fn plan(&mut self, x: PairNo) -> bool {
        // Its contract says that a pair is among these where it can be planned.
        let _ready = self.ready_pairs();
        Agent::plan(self, x)
    }

    fn planned(&self, x: PairNo) -> Option<&PairPlan> {
        Agent::planned(self, x)
    }

    fn into_plans(self) -> Vec<PairPlan> {
        Agent::into_plans(self)
    }

    fn received(&self, lane: LaneNo, item: ItemNo) -> Qty {
        self.cumulative(lane, item).unwrap_or(Qty::ZERO)
    }

    ghost stays = { agent_stays };

    ghost local = { agent_is_local };
}
