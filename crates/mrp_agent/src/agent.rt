//! The agent of a plant: what it keeps, how it is made, and what it answers.

ghost use Rattle.std.specs.Prelude.{◌≡◌, All, IfOk, IfSome};
ghost use Rattle.std.specs.List.{list_all};
ghost use Rattle.mrp_agent.specs.Kept.{IsShowing};

use crate::booking::incoming_place;
use crate::parts::{Amounts, Lanes, Structure};
use crate::places::LastPlaces;
use mrp_book::Book;
use mrp_net::{ItemNo, LaneNo, PairNo};
use mrp_netting::PairPlan;
use mrp_plant_view::{PlantFrame, PlantView};
use mrp_qty::{Memory, Qty};
use mrp_record::OutCursor;
use std::alloc::Global;
use std::marker::Model;

/// The agent of one plant.
///
/// Its calls name a lane by the lane's number and a pair by the pair's. No call but [`Agent::new`]
/// takes memory (by construction; no clause says so).
#[derive(Drop)]
pub struct Agent {
    pub(crate) view: PlantFrame,
    pub(crate) structure: Structure,
    pub(crate) lanes: Lanes,
    pub(crate) amounts: Amounts,
    pub(crate) last: LastPlaces,
}

impl Model for Agent {
    ghost use Rattle.mrp_agent.specs.State.{AgentState};

    ghost Value = { AgentState };

    ghost use Rattle.mrp_agent.specs.Fields.{indexes_of, agent_state};
    ghost use Rattle.mrp_agent.specs.Kept.{IsKept};

    ghost view = { agent_state };

    ghost invariant = { λ a. IsKept (agent_state a) (indexes_of a) };
}

impl Agent {
    ghost use Rattle.std.specs.Prelude.{◌↔◌, ℕ, Bool, IfNone, IsSome, IsTrue, List, slice_get, ◌≢◌, AllPairs, Contains};
    ghost use Rattle.std.specs.Prelude.{length};
    ghost use Rattle.mrp_protocol.specs.State.{opening_state};
    ghost use Rattle.mrp_readiness.specs.Progress.{is_planned, left_of};
    ghost use Rattle.mrp_record.specs.declared.record.Record.{Record};
    ghost use Rattle.mrp_plant_view.specs.declared.view.PlantPair.{PlantPair};
    ghost use Rattle.mrp_plant_view.specs.Seen.{IsOwnPair, IsView};
    ghost use Rattle.mrp_protocol.specs.LocalPlans.{CanBePlanned};
    ghost use Rattle.mrp_agent.specs.Drafts.{ready_numbers};
    ghost use Rattle.mrp_agent.specs.Kept.{HasSmallOpenings};
    ghost use Rattle.mrp_agent.specs.Reading.{HasDone, NoneCanBePlanned, OwnCanBePlanned, OwnIsPlanned, received_over};
    ghost use Rattle.mrp_agent.specs.Reading.{unplanned_pairs};
    ghost use Rattle.mrp_agent.specs.Shows.{ShowsHistory, is_done};
    ghost use Rattle.mrp_agent.specs.State.{pair_place, plans_of};

    /// The agent of a plant that sees this: nothing has come, nothing was sent, and no pair is planned.
    ///
    /// # Errors
    ///
    /// [`Memory`] where a growth is refused; the view is gone then.
    pub fn new(alloc: Global, view: PlantView) -> Result<Agent, Memory>
        requires seen { IsView view }
        requires openings { HasSmallOpenings view }
        ensures view { IfOk result (λ agent. agent.view ≡ view) }
        ensures opens { IfOk result
            (λ agent. ShowsHistory agent opening_state.sent opening_state.taken opening_state.planned) }
    {
        let (frame, demands, receipts) = view.into_parts();
        Agent::of_parts(alloc, frame, demands, receipts)
    }

    /// The agent of the parts of a view: the sums of its demand rows become the demand from outside, those of its receipt
    /// rows what comes in at its time. Receipts that may be counted sooner stay apart, in the view.
    fn of_parts(
        alloc: Global,
        view: PlantFrame,
        demands: Vec<u64>,
        receipts: Vec<u64>,
    ) -> Result<Agent, Memory>
        requires seen { IsView view }
        requires openings { HasSmallOpenings view }
        requires demands { demands.items ≡ view.demands }
        requires receipts { receipts.items ≡ view.receipts }
        ensures view { IfOk result (λ agent. agent.view ≡ view) }
        ensures opens { IfOk result
            (λ agent. ShowsHistory agent opening_state.sent opening_state.taken opening_state.planned) }
    {
        let structure = Structure::new(alloc, &view)?;
        let lanes = Lanes::new(alloc, &view, &structure.items)?;
        let amounts = Amounts::new(alloc, &view, receipts, demands)?;
        Ok(Agent {
            view,
            structure,
            lanes,
            amounts,
            last: LastPlaces::new(),
        })
    }

    /// What the plant sees.
    pub fn view(&self) -> &PlantFrame
        ensures { result.now ≡ self.now.view }
    {
        &self.view
    }

    /// The pairs that can be planned, each once.
    pub fn ready_pairs(&self) -> &[PairNo]
        ensures numbers { result.now ≡ ready_numbers self.now }
        ensures own { All (IsOwnPair self.now.view) result.now }
        ensures once { AllPairs (λ x y. x ≢ y) result.now }
        ensures exact { (sent taken : ℕ → List Record) (planned : ℕ → Bool) → ShowsHistory self.now sent taken planned
            → (p : PlantPair) → Contains self.now.view.pairs p
            → Contains result.now p.number ↔ CanBePlanned self.now.view taken planned p }
    {
        self.structure.progress.ready_pairs()
    }

    /// A pair that can be planned, where there is one.
    pub fn ready(&self) -> Option<PairNo>
        ensures first { result ≡ slice_get (ready_numbers self.now) 0 }
        ensures given { (sent taken : ℕ → List Record) (planned : ℕ → Bool) → ShowsHistory self.now sent taken planned
            → IfSome result (OwnCanBePlanned self.now.view taken planned) }
        ensures none { (sent taken : ℕ → List Record) (planned : ℕ → Bool) → ShowsHistory self.now sent taken planned
            → IfNone result (NoneCanBePlanned self.now.view taken planned) }
    {
        self.ready_pairs().first().copied()
    }

    /// How many pairs aren't planned.
    pub fn left(&self) -> usize
        ensures count { result ≡ left_of self.now.progress.planned }
        ensures unplanned { (sent taken : ℕ → List Record) (planned : ℕ → Bool)
            → ShowsHistory self.now sent taken planned
            → result ≡ unplanned_pairs self.now.view planned }
    {
        self.structure.progress.left()
    }

    /// The plan of a pair, once it is planned; `None` where it isn't, or is another plant's.
    pub fn planned(&self, x: PairNo) -> Option<&PairPlan>
        ensures plan { IfSome result (λ plan. plan.now ≡ plans_of self.now x.0) }
        ensures there { IsSome result ↔ IsTrue (is_planned self.now.progress.planned (pair_place self.now.view x.0)) }
        ensures exact { (sent taken : ℕ → List Record) (planned : ℕ → Bool) → ShowsHistory self.now sent taken planned
            → IsSome result ↔ OwnIsPlanned self.now.view planned x }
    {
        let place = self.view.place(x)?;
        if self.structure.progress.planned(place) {
            Some(&self.amounts.plans[place])
        } else {
            None
        }
    }

    /// The plans of all pairs, in the order of the view's pairs. A pair that isn't planned has some plan.
    pub fn into_plans(self) -> Vec<PairPlan>
        ensures plans { result.items ≡ self.plans }
        ensures all { length self.plans ≡ length self.view.pairs }
    {
        let Agent {
            view,
            structure,
            lanes,
            amounts,
            last: _,
        } = self;
        drop(view);
        drop(structure);
        drop(lanes);
        amounts.into_plans()
    }

    /// The cumulative figure received of an item over a lane, closed years added, in pieces; `None` where
    /// the lane doesn't come in, or doesn't have the item.
    pub fn cumulative(&self, lane: LaneNo, item: ItemNo) -> Option<Qty>
        ensures { (sent taken : ℕ → List Record) (planned : ℕ → Bool) → ShowsHistory self.now sent taken planned
            → result ≡ received_over self.now.view taken lane item }
    {
        let place = incoming_place(self.view.incoming(), lane);
        if place < self.lanes.books.len() {
            self.lanes.books[place].cumulative(item)
        } else {
            None
        }
    }

    /// Whether the plant's work is done: all pairs are planned, all lanes that come in are booked to the
    /// end, and all that go out are sent to the end.
    pub fn done(&self) -> bool
        ensures exact { result ≡ is_done self.now }
        ensures finished { (sent taken : ℕ → List Record) (planned : ℕ → Bool)
            → ShowsHistory self.now sent taken planned
            → (IsTrue result ↔ HasDone self.now.view sent taken planned) }
    {
        let _ = &self.view;
        self.is_done()
    }

    /// Whether no pair is left, and each lane has ended, by what the agent keeps and by no history.
    fn is_done(&self) -> bool
        ensures { result ≡ is_done self.now }
    {
        self.left() == 0 && are_booked(&self.lanes.books) && are_sent(&self.lanes.outs)
    }
}

/// Whether the closing record of each lane is booked.
fn are_booked(books: &[Book]) -> bool
    requires { All IsShowing books.now }
    ensures { result ≡ list_all (λ b. b.closed) books.now }
{
    for book in books {
        if !is_booked(book) {
            return false;
        }
    }
    true
}

/// Whether the closing record of a lane is booked.
fn is_booked(book: &Book) -> bool
    requires { IsShowing book.now }
    ensures { result ≡ book.now.closed }
{
    book.closed()
}

/// Whether the closing record of each lane is sent.
fn are_sent(outs: &[OutCursor]) -> bool
    ensures { result ≡ list_all (λ o. o.closed) outs.now }
{
    outs.iter().all(|out| out.is_closed())
}
