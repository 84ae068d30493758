//! The agent: the parts that it is made of.

ghost use Rattle.std.specs.Prelude.{◌≡◌, IfOk, length, map, replicate};
ghost use Rattle.std.specs.List.{range_with_len};
ghost use Rattle.mrp_readiness.specs.Counts.{components_of};
ghost use Rattle.mrp_plant_view.specs.Seen.{IsView};
ghost use Rattle.mrp_agent.specs.Kept.{parent_edge};
ghost use Rattle.mrp_agent.specs.Making.{IsFirstProgress};
ghost use Rattle.mrp_agent.specs.Shows.{joins_of};

use crate::edges::{ByComponent, ParentEdge, joins, parent_edges};
use crate::making::{are_fit, first_progress, idle_outs, new_books};
use crate::places::ItemPlaces;
use crate::queues::{QueuePlace, queues};
use crate::room::Room;
use mrp_book::Book;
use mrp_grouping::{Groups, group};
use mrp_netting::{PairPlan, blank_plans};
use mrp_plant_view::PlantFrame;
use mrp_qty::Memory;
use mrp_readiness::{Components, Join, Readiness};
use mrp_record::OutCursor;
use std::alloc::Global;

/// The pairs of a plant by their places: their items, their edges, and which of them can be planned.
#[derive(Drop)]
pub(crate) struct Structure {
    pub(crate) items: ItemPlaces,
    pub(crate) edges: Groups<ParentEdge>,
    pub(crate) components: Components,
    pub(crate) progress: Readiness,
}

impl Structure {
    ghost use Rattle.mrp_grouping.specs.Starts.{IsGrouped};

    /// The pairs of a plant where nothing is planned and nothing has come.
    pub(crate) fn new(alloc: Global, view: &PlantFrame) -> Result<Structure, Memory>
        requires seen { IsView view.now }
        ensures items { IfOk result (λ s. s.items ≡ map (λ p. p.item) view.now.pairs) }
        ensures edges { IfOk result (λ s. IsGrouped (λ e. e.component) (length view.now.pairs)
            (map (parent_edge view.now) view.now.edges)
            s.edges.rows.items s.edges.starts.items) }
        ensures components { IfOk result
            (λ s. s.components ≡ map (components_of (joins_of view.now)) (range_with_len 0 (length view.now.pairs))) }
        ensures first { IfOk result (λ s. IsFirstProgress view.now s.progress) }
    {
        let parents = parent_edges(alloc, view, view.edges())?;
        Structure::of_edges(alloc, view, &parents)
    }

    /// The pairs of a plant with these edges where nothing is planned and nothing has come.
    fn of_edges(
        alloc: Global,
        view: &PlantFrame,
        parents: &[ParentEdge],
    ) -> Result<Structure, Memory>
        requires seen { IsView view.now }
        requires parents { parents.now ≡ map (parent_edge view.now) view.now.edges }
        ensures items { IfOk result (λ s. s.items ≡ map (λ p. p.item) view.now.pairs) }
        ensures edges { IfOk result (λ s. IsGrouped (λ e. e.component) (length view.now.pairs)
            (map (parent_edge view.now) view.now.edges)
            s.edges.rows.items s.edges.starts.items) }
        ensures components { IfOk result
            (λ s. s.components ≡ map (components_of (joins_of view.now)) (range_with_len 0 (length view.now.pairs))) }
        ensures first { IfOk result (λ s. IsFirstProgress view.now s.progress) }
    {
        let items = ItemPlaces::of_pairs(alloc, view.pairs())?;
        let edges = group(alloc, &ByComponent, parents, view.pairs().len())?;
        let (components, progress) = first_waiting(alloc, view, parents)?;
        Ok(Structure {
            items,
            edges,
            components,
            progress,
        })
    }
}

/// For each pair the components that wait for it, and what is planned at first, by the plant's edges.
fn first_waiting(
    alloc: Global,
    view: &PlantFrame,
    parents: &[ParentEdge],
) -> Result<(Components, Readiness), Memory>
    requires seen { IsView view.now }
    requires parents { parents.now ≡ map (parent_edge view.now) view.now.edges }
    ensures components { IfOk result
        (λ w. w.0 ≡ map (components_of (joins_of view.now)) (range_with_len 0 (length view.now.pairs))) }
    ensures first { IfOk result (λ w. IsFirstProgress view.now w.1) }
{
    let joins = joins(alloc, parents)?;
    waiting_by(alloc, view, &joins)
}

/// For each pair the components that wait for it by these joins, and what is planned at first.
fn waiting_by(
    alloc: Global,
    view: &PlantFrame,
    joins: &[Join],
) -> Result<(Components, Readiness), Memory>
    requires seen { IsView view.now }
    requires joins { joins.now ≡ joins_of view.now }
    ensures components { IfOk result
        (λ w. w.0 ≡ map (components_of (joins_of view.now)) (range_with_len 0 (length view.now.pairs))) }
    ensures first { IfOk result (λ w. IsFirstProgress view.now w.1) }
{
    let components = Components::new(alloc, joins, view.pairs().len())?;
    let progress = first_progress(alloc, view, joins)?;
    Ok((components, progress))
}

/// The lanes of a plant: the book of each that comes in, the cursor of each that goes out, and where on
/// those each pair is queued once it is planned.
#[derive(Drop)]
pub(crate) struct Lanes {
    pub(crate) books: Vec<Book>,
    pub(crate) queues: Groups<QueuePlace>,
    pub(crate) outs: Vec<OutCursor>,
}

impl Lanes {
    ghost use Rattle.mrp_grouping.specs.Starts.{IsGrouped};
    ghost use Rattle.mrp_agent.specs.After.{items_of};
    ghost use Rattle.mrp_agent.specs.Kept.{HasSmallOpenings};
    ghost use Rattle.mrp_agent.specs.Making.{AreIdleOuts, new_figures};
    ghost use Rattle.mrp_agent.specs.Queues.{queue_places};

    /// The lanes of a plant before the first record, where these are the items of its pairs.
    pub(crate) fn new(alloc: Global, view: &PlantFrame, items: &ItemPlaces) -> Result<Lanes, Memory>
        requires seen { IsView view.now }
        requires openings { HasSmallOpenings view.now }
        requires items { items.now ≡ items_of view.now }
        ensures books { IfOk result (λ l. l.books.items ≡ map (new_figures view.now) view.now.incoming) }
        ensures queues { IfOk result
            (λ l. IsGrouped (λ q. q.pair) (length view.now.pairs) (queue_places (items_of view.now) view.now.outgoing)
            l.queues.rows.items l.queues.starts.items) }
        ensures outs { IfOk result (λ l. AreIdleOuts view.now.outgoing l.outs.items) }
    {
        let books = new_books(alloc, view, view.incoming())?;
        let queues = queues(alloc, items, view.outgoing(), view.pairs().len())?;
        let outs = idle_outs(alloc, view.outgoing())?;
        Ok(Lanes {
            books,
            queues,
            outs,
        })
    }
}

/// The amounts of a plant by pair and period, and the room in which plans are drafted.
#[derive(Drop)]
pub(crate) struct Amounts {
    /// What comes in at its time, beside firm planned orders: the receipt rows but where they may be counted sooner, and
    /// the despatches that are booked.
    pub(crate) scheduled_receipts: Vec<u64>,
    /// What is asked for from outside the plant: the demand rows, and the calls that are booked.
    pub(crate) outside_demand: Vec<u64>,
    pub(crate) plans: Vec<PairPlan>,
    pub(crate) room: Room,
}

impl Amounts {
    ghost use Rattle.mrp_netting.specs.Plan.{nothing_planned};
    ghost use Rattle.mrp_agent.specs.Making.{AreFit};

    /// What comes in at its time and the demand from outside by the view's sums, which are taken over, and no plans.
    pub(crate) fn new(
        alloc: Global,
        view: &PlantFrame,
        scheduled_receipts: Vec<u64>,
        outside_demand: Vec<u64>,
    ) -> Result<Amounts, Memory>
        requires scheduled_receipts { scheduled_receipts.items ≡ view.now.receipts }
        requires outside_demand { outside_demand.items ≡ view.now.demands }
        ensures scheduled_receipts { IfOk result (λ a. a.scheduled_receipts.items ≡ view.now.receipts) }
        ensures outside_demand { IfOk result (λ a. a.outside_demand.items ≡ view.now.demands) }
        ensures plans { IfOk result (λ a. a.plans.items
            ≡ replicate (length view.now.pairs) (nothing_planned view.now.horizon)) }
        ensures room { IfOk result (λ a. length a.room.gross ≡ view.now.horizon) }
        ensures receipts { IfOk result (λ _. AreFit view.now.receipts) }
        ensures demands { IfOk result (λ _. AreFit view.now.demands) }
    {
        are_fit(&scheduled_receipts);
        are_fit(&outside_demand);
        let plans = blank_plans(alloc, view.horizon(), view.pairs().len())?;
        let room = Room::new(alloc, view.horizon())?;
        Ok(Amounts {
            scheduled_receipts,
            outside_demand,
            plans,
            room,
        })
    }

    /// The plans, without the rest.
    pub(crate) fn into_plans(self) -> Vec<PairPlan>
        ensures { result.items ≡ self.plans.items }
    {
        let Amounts { plans, room, .. } = self;
        drop(room);
        plans
    }
}
