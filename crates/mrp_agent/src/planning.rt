//! The agent: how it plans a pair that can be planned.

use crate::Agent;
use crate::drafting::{pair_rows, planning_terms};
use crate::settling::queue_item;
use mrp_net::PairNo;

impl Agent {
    ghost use Rattle.std.specs.Prelude.{◌≡◌, ◌↔◌, ◌+◌, ℕ, Bool, true, List, Contains, IsTrue, slice_set};
    ghost use Rattle.std.specs.Bool.{OnFalse, OnTrue};
    ghost use Rattle.mrp_netting.specs.PlanningBound.{IsWithinData};
    ghost use Rattle.mrp_master_data.specs.declared.numbers.PairNo.{PairNo};
    ghost use Rattle.mrp_record.specs.declared.record.Record.{Record};
    ghost use Rattle.mrp_readiness.specs.Progress.{IsFree, left_of};
    ghost use Rattle.mrp_plant_view.specs.Seen.{IsOwnPair};
    ghost use Rattle.mrp_protocol.specs.State.{changed};
    ghost use Rattle.mrp_agent.specs.State.{pair_place, plans_of};
    ghost use Rattle.mrp_agent.specs.Drafts.{CanDraft, drafted, drafted_data, ready_numbers};
    ghost use Rattle.mrp_agent.specs.Marking.{IsMarked};
    ghost use Rattle.mrp_agent.specs.Reading.{OwnCanBePlanned};
    ghost use Rattle.mrp_agent.specs.Shows.{ShowsHistory};

    /// Plans a pair of the plant if it can be planned: drafts its plan and keeps it. The answer is whether
    /// it could; if not, the agent stays as it is.
    pub fn plan(&mut self, x: PairNo) -> bool
        requires own { IsOwnPair self.old.view x }
        requires within { Contains (ready_numbers self.old) x
            → IsWithinData (drafted_data self.old x) }
        ensures view { self.new.view ≡ self.old.view }
        ensures can { IsTrue result ↔ Contains (ready_numbers self.old) x }
        ensures exact { (sent taken : ℕ → List Record) (planned : ℕ → Bool) → ShowsHistory self.old sent taken planned
            → IsTrue result ↔ OwnCanBePlanned self.old.view taken planned x }
        ensures planned { OnTrue result ((sent taken : ℕ → List Record) (planned : ℕ → Bool)
            → ShowsHistory self.old sent taken planned
            → ShowsHistory self.new sent taken (changed planned x.0 true)) }
        ensures kept { OnTrue result (plans_of self.new x.0 ≡ drafted self.old x) }
        ensures left { OnTrue result (left_of self.new.progress.planned + 1 ≡ left_of self.old.progress.planned) }
        ensures others { OnTrue result ((y : PairNo) → Contains (ready_numbers self.old) y → (y.0 ≡ x.0 → ⊥)
            → Contains (ready_numbers self.new) y) }
        ensures drafts { OnTrue result ((y : PairNo) → Contains (ready_numbers self.old) y
            → drafted self.new y ≡ drafted self.old y) }
        ensures unchanged { OnFalse result (self.new ≡ self.old) }
    {
        let Some(place) = self.view.place(x) else {
            unreachable!()
        };
        let _ready = self.structure.progress.ready_pairs();
        let can = self.structure.progress.is_ready(place);
        if can {
            self.write_plan(x, place);
            self.mark_planned(place);
        }
        can
    }

    /// Drafts the plan of a pair that can be planned, and writes it among the plans.
    fn write_plan(&mut self, x: PairNo, place: usize)
        requires can { CanDraft self.old x }
        requires place { place ≡ pair_place self.old.view x.0 }
        ensures { self.new ≡ record self.old { plans = slice_set self.old.plans place (drafted self.old x) } }
    {
        let terms = planning_terms(&self.view, place);
        let rows = pair_rows(
            &self.view,
            &self.structure.edges,
            &self.amounts.scheduled_receipts,
            &self.amounts.outside_demand,
            place,
        );
        self.amounts
            .room
            .draft_rows(&terms, &rows, &self.amounts.plans);
        self.amounts.room.exchange(&mut self.amounts.plans[place]);
    }

    /// Counts the pair at a place as planned, and lets the schedule lanes that have its item send it.
    pub(crate) fn mark_planned(&mut self, place: usize)
        requires ready { Contains self.old.progress.ready place }
        requires free { IsFree self.old.progress.waits self.old.progress.planned place }
        ensures { IsMarked self.old place self.new }
    {
        self.structure
            .progress
            .count_planned(place, self.structure.components.of(place));
        queue_item(&mut self.lanes.outs, self.lanes.queues.get(place));
    }
}
