//! The agent: how it keeps a plan that was drafted elsewhere.

ghost use Rattle.std.specs.Prelude.{◌≡◌, ◌<◌, All, fold, length};
ghost use Rattle.mrp_agent.specs.Queues.{with_queued};

use crate::Agent;
use crate::queues::QueuePlace;
use mrp_net::PairNo;
use mrp_netting::PairPlan;
use mrp_record::OutCursor;

impl Agent {
    ghost use Rattle.std.specs.Prelude.{ℕ, Bool, true, List, Contains, ◌+◌};
    ghost use Rattle.mrp_master_data.specs.declared.numbers.PairNo.{PairNo};
    ghost use Rattle.mrp_readiness.specs.Progress.{left_of};
    ghost use Rattle.mrp_agent.specs.State.{plans_of};
    ghost use Rattle.mrp_record.specs.declared.record.Record.{Record};
    ghost use Rattle.mrp_protocol.specs.State.{changed};
    ghost use Rattle.mrp_agent.specs.Drafts.{CanDraft, drafted, ready_numbers};
    ghost use Rattle.mrp_agent.specs.Shows.{ShowsHistory};

    /// Keeps the plan of a pair that can be planned, as [`Agent::draft`] wrote it.
    pub fn settle(&mut self, x: PairNo, plan: &PairPlan)
        requires can { CanDraft self.old x }
        requires draft { plan.now ≡ drafted self.old x }
        ensures view { self.new.view ≡ self.old.view }
        ensures planned { (sent taken : ℕ → List Record) (planned : ℕ → Bool) → ShowsHistory self.old sent taken planned
            → ShowsHistory self.new sent taken (changed planned x.0 true) }
        ensures kept { plans_of self.new x.0 ≡ plan.now }
        ensures left { left_of self.new.progress.planned + 1 ≡ left_of self.old.progress.planned }
        ensures others { (y : PairNo) → Contains (ready_numbers self.old) y → (y.0 ≡ x.0 → ⊥)
            → Contains (ready_numbers self.new) y }
        ensures drafts { (y : PairNo) → Contains (ready_numbers self.old) y → drafted self.new y ≡ drafted self.old y }
    {
        let Some(place) = self.view.place(x) else {
            unreachable!()
        };
        let _ready = self.structure.progress.ready_pairs();
        self.amounts.plans[place].copy_from(plan);
        self.mark_planned(place);
    }
}

/// Lets each lane that one of these places is on send the item there.
pub(crate) fn queue_item(outs: &mut Vec<OutCursor>, places: &[QueuePlace])
    requires { All (λ q. q.lane < length outs.old.items) places.now }
    ensures { outs.new.items ≡ fold with_queued outs.old.items places.now }
{
    for place in places {
        outs[place.lane].push(place.item);
    }
}
