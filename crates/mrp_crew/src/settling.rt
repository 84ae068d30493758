//! A crew's workers: what they drafted in a wave, kept by the agent.
ghost use Rattle.std.specs.Prelude.{◌≡◌, ◌≢◌, true, List, length, reverse, All, Contains};
ghost use Rattle.std.specs.Bool.{OnTrue};
ghost use Rattle.mrp_master_data.specs.declared.numbers.PairNo.{PairNo};
ghost use Rattle.mrp_agent.specs.Drafts.{drafted, ready_numbers};
ghost use Rattle.mrp_crew.specs.Planning.{IsPlannable, PlansAll};
ghost use Rattle.mrp_crew.specs.Rooms.{IsRoom, WorkedFor};
ghost use Rattle.mrp_crew.specs.Settled.{AreToSettle, StaysReady};

use crate::rooms::put_back;
use crate::work::Work;
use mrp_agent::{Agent, Room};

/// Has the agent keep each plan that was drafted, and puts the rooms back. The answer is whether the gate
/// was open to all.
pub(crate) fn keep_drafts(agent: &mut Agent, mut works: Vec<Work>, rooms: &mut Vec<Room>) -> bool
    requires plannable { IsPlannable agent.old }
    requires drafts { AreToSettle agent.old (reverse works.items) }
    requires rooms { All (IsRoom agent.old.view.horizon) rooms.old.items }
    ensures rooms { All (IsRoom agent.old.view.horizon) rooms.new.items }
    ensures planned { (xs : List PairNo) × PlansAll agent.old agent.new xs
        × OnTrue result (length xs ≡ length works.items) }
    ensures let_in { All (λ work. work.open ≡ true) works.items → result ≡ true }
{
    let mut all = true;
    while let Some(work) = works.pop() {
        let kept = keep_draft(agent, &work, all);
        all = kept;
        put_back(rooms, work.room);
    }
    all
}

/// Has the agent keep a plan where it was drafted. The answer is whether it was, and `before` with it.
fn keep_draft(agent: &mut Agent, work: &Work, before: bool) -> bool
    requires plannable { IsPlannable agent.old }
    requires ready { Contains (ready_numbers agent.old) work.now.pair }
    requires worked { WorkedFor agent.old work.now }
    ensures planned { (xs : List PairNo) × PlansAll agent.old agent.new xs
        × OnTrue result ((before ≡ true) × (length xs ≡ 1)) }
    ensures let_in { before ≡ true → work.now.open ≡ true → result ≡ true }
    ensures others { (y : PairNo) → Contains (ready_numbers agent.old) y → y ≢ work.now.pair
        → StaysReady agent.old agent.new y }
{
    let _ready = agent.ready_pairs();
    if !work.open {
        return false;
    }
    agent.settle(work.pair, work.room.plan());
    before
}
