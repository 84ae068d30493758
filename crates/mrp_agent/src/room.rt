//! The agent: the room in which it drafts the plan of a pair.

ghost use Rattle.std.specs.Prelude.{◌≡◌, IfOk, length};
ghost use Rattle.std.specs.Prelude.{All};
ghost use Rattle.mrp_netting.specs.PlanningData.{one};
ghost use Rattle.mrp_netting.specs.Plan.{nothing_planned};
ghost use Rattle.mrp_net.specs.Terms.{terms_given};
ghost use Rattle.mrp_agent.specs.Asking.{HasDraft, IsFirmWithin, data_over, uses_by};
ghost use Rattle.mrp_agent.specs.Drafts.{CanDraft, drafted};

use crate::Agent;
use crate::drafting::{PairRows, draft_from};
use mrp_net::{PairNo, PlanningTerms};
use mrp_netting::PairPlan;
use mrp_qty::{Horizon, Memory, Row};
use std::alloc::Global;
use std::marker::Model;
use std::mem;

/// Room for the plan of one pair: a row to work in, and the plan that was drafted last. Contracts see that plan.
#[derive(Drop)]
pub struct Room {
    gross: Row,
    plan: PairPlan,
}

impl Model for Room {
    ghost use Rattle.std.specs.Prelude.{◌≡◌, length};
    ghost use Rattle.mrp_netting.specs.PlanRows.{PlanRows};

    ghost Value = { PlanRows };

    ghost view = { λ r. r.plan };

    ghost invariant = { λ r. length r.gross ≡ length r.plan.gross };
}

impl Room {
    /// Room for plans of so many periods, 1 to 520, in which nothing is planned.
    ///
    /// # Errors
    ///
    /// [`Memory`] where a growth is refused.
    pub fn new(alloc: Global, horizon: Horizon) -> Result<Room, Memory>
        ensures { IfOk result (λ room. room ≡ nothing_planned horizon) }
    {
        let gross = Row::zero(alloc, horizon)?;
        let plan = PairPlan::new(alloc, horizon)?;
        Ok(Room { gross, plan })
    }

    /// Drafts the plan of a pair of an agent that can be planned, as [`Agent::draft`] does. The room has the
    /// agent's horizon; what was drafted in it before doesn't matter.
    pub fn draft(&mut self, agent: &Agent, x: PairNo)
        requires can { CanDraft agent.now x }
        requires periods { length self.old.gross ≡ agent.now.view.horizon }
        ensures { self.new ≡ drafted agent.now x }
    {
        agent.draft_into(x, &mut self.gross, &mut self.plan);
    }

    /// The plan that was drafted last.
    pub fn plan(&self) -> &PairPlan
        ensures { result.now ≡ self.now }
    {
        &self.plan
    }

    /// Drafts the plan of a pair from what planners say of it, what comes in at its time, the demand from outside, and
    /// the plans of its parents.
    pub(crate) fn draft_rows(
        &mut self,
        terms: &PlanningTerms<'_>,
        rows: &PairRows<'_>,
        plans: &[PairPlan],
    )
        requires draft { HasDraft (terms_given (length rows.now.demand.now) terms.now) rows.now.incoming.now
            rows.now.demand.now rows.now.edges.now (uses_by rows.now) plans.now }
        requires orders { All (IsFirmWithin (length rows.now.demand.now)) terms.now.orders.now }
        requires periods { length self.old.gross ≡ length rows.now.demand.now }
        ensures { self.new ≡ one (data_over terms.now rows.now plans.now) }
    {
        draft_from(terms, rows, plans, &mut self.gross, &mut self.plan);
    }

    /// Gives the plan that was drafted last for another one of as many periods.
    pub(crate) fn exchange(&mut self, plan: &mut PairPlan)
        requires { length plan.old.gross ≡ length self.old.gross }
        ensures given { plan.new ≡ self.old }
        ensures taken { self.new ≡ plan.old }
    {
        mem::swap(&mut self.plan, plan);
    }
}
