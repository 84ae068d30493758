//! The world: what it asks of a plant.

use mrp_book::BookFault;
use mrp_net::{ItemNo, LaneNo, PairNo};
use mrp_netting::PairPlan;
use mrp_plant_view::PlantView;
use mrp_qty::{Memory, Qty};
use mrp_record::Record;
use std::alloc::Global;

/// A plant of a network, which plans from what it sees and from the records that come to it.
///
/// Its contract speaks of every moment of a run at which a plant can be: the network, the plant's number
/// and the state that it shows, which is one that events lead to. No call but [`Plant::new`] is given an
/// allocator.
pub trait Plant: Drop {
    ghost use Rattle.std.specs.Prelude.{◌≡◌, ◌<◌, ◌++◌, ◌∷◌, [], ℕ, false, true, length, Contains, Some, IfOk, IfErr};
    ghost use Rattle.std.specs.Prelude.{IfSome, IfNone, OnOk, OnErr};
    ghost use Rattle.mrp_netting.specs.PlanRows.{PlanRows};
    ghost use Rattle.mrp_master_data.specs.Table.{Table};
    ghost use Rattle.mrp_net.specs.Lanes.{lane_at, lane_items};
    ghost use Rattle.mrp_net.specs.Plan.{plan_of, rows_at};
    ghost use Rattle.mrp_plant_view.specs.View.{plant_rows};
    ghost use Rattle.mrp_loops.specs.Sized.{IsSized};
    ghost use Rattle.mrp_record.specs.declared.record.Record.{Record};
    ghost use Rattle.mrp_record.specs.Form.{IsInForm};
    ghost use Rattle.mrp_book.specs.Meanings.{first_had};
    ghost use Rattle.mrp_protocol.specs.LocalPlans.{IsLocal};
    ghost use Rattle.mrp_protocol.specs.LaneOrder.{cum_on};
    ghost use Rattle.mrp_protocol.specs.LoadLaws.{lane_form};
    ghost use Rattle.mrp_protocol.specs.State.{State, opening_state, CanTake, CanPlan, after_send, after_take};
    ghost use Rattle.mrp_protocol.specs.State.{after_plan};
    ghost use Rattle.mrp_world.specs.Gathering.{HasPlannedAll, own_plans};
    ghost use Rattle.mrp_world.specs.Moments.{Moment, IsAt, IsNext, IsSeen, SendsLane, Receives, Has};
    ghost use Rattle.mrp_agent.specs.OwnPart.{IsOut, IsIn, IsOwn, AgreeAt};

    /// Which states of a network a plant with a number shows.
    ghost shows: { Table → ℕ → State → Self → Type 0 };

    /// The plan that a plant keeps of a pair, by the pair's number.
    ghost kept: { Self → ℕ → PlanRows };

    /// The plant that sees this, before the first event.
    ///
    /// # Errors
    ///
    /// [`Memory`] where a growth is refused; the view is gone then.
    fn new(alloc: Global, view: PlantView) -> Result<Self, Memory>
        requires seen { IsSeen view }
        ensures opens { IfOk result (λ plant. (N : Table) (p : ℕ) → IsSized N → p < length N.plants
            → view ≡ plant_rows N p → shows N p opening_state plant) };

    /// The record that a lane is to be sent next, or `None` where there is none.
    fn next_out(&self, lane: LaneNo) -> Option<Record>
        requires lane { SendsLane shows self.now lane.0 }
        ensures next { IfSome result (λ r. (m : Moment) (p : ℕ) → IsAt shows m p self.now → IsOut m.network p lane.0
            → IsNext m lane.0 r) }
        ensures none { IfNone result ((m : Moment) (p : ℕ) → IsAt shows m p self.now → IsOut m.network p lane.0
            → (r : Record) → ¬ IsNext m lane.0 r) };

    /// Sends the next record of a lane, or answers `None` where there is none; then nothing has changed.
    fn send(&mut self, lane: LaneNo) -> Option<Record>
        requires lane { SendsLane shows self.old lane.0 }
        ensures next { IfSome result (λ r. (m : Moment) (p : ℕ) → IsAt shows m p self.old → IsOut m.network p lane.0
            → IsNext m lane.0 r) }
        ensures sent { IfSome result (λ r. (m : Moment) (p : ℕ) → IsAt shows m p self.old → IsOut m.network p lane.0
            → shows m.network p (after_send m.state lane.0 r) self.new) }
        ensures none { IfNone result ((m : Moment) (p : ℕ) → IsAt shows m p self.old → IsOut m.network p lane.0
            → (r : Record) → ¬ IsNext m lane.0 r) }
        ensures unchanged { IfNone result (self.new ≡ self.old) };

    /// Books the next record of a lane that comes in: one with which what was taken stays in form. So the
    /// first record of a mailbox is booked.
    ///
    /// # Errors
    ///
    /// The first fault of the record after those that were taken; then nothing has changed.
    fn book(&mut self, lane: LaneNo, entry: &Record) -> Result<(), BookFault>
        requires lane { Receives shows self.old lane.0 }
        ensures fits { OnOk result ((m : Moment) (p : ℕ) → IsAt shows m p self.old → IsIn m.network p lane.0
            → IsInForm (lane_form m.network (lane_at m.network lane.0)) (m.state.taken lane.0 ++ entry.now ∷ [])) }
        ensures booked { OnOk result ((m : Moment) (p : ℕ) → IsAt shows m p self.old → IsIn m.network p lane.0
            → shows m.network p (after_take m.state lane.0 entry.now) self.new) }
        ensures first { IfErr result (λ fault. (m : Moment) (p : ℕ) → IsAt shows m p self.old → IsIn m.network p lane.0
            → first_had (lane_form m.network (lane_at m.network lane.0)) (m.state.taken lane.0) entry.now
            ≡ Some fault) }
        ensures refused { OnErr result ((m : Moment) (p : ℕ) → IsAt shows m p self.old
            → IsIn m.network p lane.0 → ¬ CanTake m.network m.state lane.0 entry.now) }
        ensures unchanged { OnErr result (self.new ≡ self.old) };

    /// A pair of the plant that can be planned, or `None` where there is none.
    fn ready(&self) -> Option<PairNo>
        ensures own { IfSome result (λ x. (m : Moment) (p : ℕ) → IsAt shows m p self.now → IsOwn m.network p x.0) }
        ensures can { IfSome result (λ x. (m : Moment) (p : ℕ) → IsAt shows m p self.now
            → CanPlan m.network m.state x.0) }
        ensures none { IfNone result ((m : Moment) (p x : ℕ) → IsAt shows m p self.now → IsOwn m.network p x
            → ¬ CanPlan m.network m.state x) };

    /// Plans a pair of the plant if it can be planned, and answers whether it can; if not, nothing has
    /// changed.
    fn plan(&mut self, x: PairNo) -> bool
        requires pair { Has shows self.old x.0 }
        ensures can { result ≡ true → (m : Moment) (p : ℕ) → IsAt shows m p self.old → IsOwn m.network p x.0
            → CanPlan m.network m.state x.0 }
        ensures planned { result ≡ true → (m : Moment) (p : ℕ) → IsAt shows m p self.old → IsOwn m.network p x.0
            → shows m.network p (after_plan m.state x.0) self.new }
        ensures cannot { result ≡ false → (m : Moment) (p : ℕ) → IsAt shows m p self.old → IsOwn m.network p x.0
            → ¬ CanPlan m.network m.state x.0 }
        ensures unchanged { result ≡ false → self.new ≡ self.old };

    /// The plan of a pair of the plant, once it is planned.
    fn planned(&self, x: PairNo) -> Option<&PairPlan>
        requires pair { Has shows self.now x.0 }
        ensures kept { IfSome result (λ plan. plan.now ≡ kept self.now x.0) }
        ensures planned { IfSome result (λ plan. (m : Moment) (p : ℕ) → IsAt shows m p self.now → IsOwn m.network p x.0
            → m.state.planned x.0 ≡ true) }
        ensures plan { IfSome result (λ plan. (m : Moment) (p : ℕ) → IsAt shows m p self.now
            → IsOwn m.network p x.0 → plan.now ≡ rows_at (plan_of m.network) x.0) }
        ensures none { IfNone result ((m : Moment) (p : ℕ) → IsAt shows m p self.now → IsOwn m.network p x.0
            → m.state.planned x.0 ≡ false) };

    /// The plans of all its pairs, in table order, once all of them are planned. The plant is gone then.
    fn into_plans(self) -> Vec<PairPlan>
        ensures { (m : Moment) (p : ℕ) → IsAt shows m p self → HasPlannedAll m p
            → result.items ≡ own_plans m.network p };

    /// The cumulative figure of an item of a lane that comes in, closed years added.
    fn received(&self, lane: LaneNo, item: ItemNo) -> Qty
        requires lane { Receives shows self.now lane.0 }
        ensures { (m : Moment) (p : ℕ) → IsAt shows m p self.now → IsIn m.network p lane.0
            → Contains (lane_items m.network (lane_at m.network lane.0)) item
            → result ≡ cum_on m.network lane.0 item (m.state.taken lane.0) };

    /// What a plant shows depends on its own part of a state alone.
    ghost stays: { (N : Table) (p : ℕ) (s t : State) (plant : Self) → shows N p s plant → AgreeAt N p s t
        → shows N p t plant };

    /// Nothing was missing for a pair that is planned, and its plan is what the plant's own rows, the records
    /// that it has taken and the plans that it keeps of the pair's parents give.
    ghost local: { (N : Table) (p : ℕ) (s : State) (plant : Self) → shows N p s plant
        → IsLocal (plant_rows N p) s.taken s.planned (kept plant) };
}
