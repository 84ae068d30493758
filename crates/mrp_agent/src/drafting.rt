//! The agent: how it drafts the plan of a pair from what planners say of it, what comes in at its time, the demand
//! from outside and its parents' plans.

ghost use Rattle.std.specs.Prelude.{◌≡◌, ◌<◌, ◌≤◌, ◌+◌, ◌*◌, ℕ, [], All, length, map, slice_index, slice_index_or};
ghost use Rattle.std.specs.List.Sorted.{IsNonDecreasingBy};
ghost use Rattle.mrp_qty.specs.declared.quantity.TheConstants.{MOST};
ghost use Rattle.mrp_netting.specs.PlanningData.{one};
ghost use Rattle.mrp_net.specs.Terms.{terms_given};
ghost use Rattle.mrp_net.specs.Usages.{usages_of};
ghost use Rattle.mrp_grouping.specs.Starts.{IsGrouped};
ghost use Rattle.mrp_agent.specs.Asking.{AreUses, HasDraft, IsFirmWithin, ParentCanAsk};
ghost use Rattle.mrp_agent.specs.Asking.{asked_by, asked_on, data_over, parent_number, uses_by};
ghost use Rattle.mrp_agent.specs.Kept.{parent_edge};
ghost use Rattle.mrp_agent.specs.Rows.{edges_at, part_at, uses_at};
ghost use Rattle.mrp_agent.specs.State.{terms_at_place};

use crate::Agent;
use crate::edges::ParentEdge;
use mrp_grouping::Groups;
use mrp_net::{PairNo, PlanningTerms, UsageRow, add_asked, plan_by_terms, usages_of};
use mrp_netting::PairPlan;
use mrp_plant_view::{PlantFrame, PlantPair};
use mrp_qty::Row;

/// What the plan of a pair is drafted from, beside what planners say of it and the plans of its parents: what comes in
/// at its time and the demand from outside by period, the edges to its parents, its usage rows in order of their
/// parents, and the plant's pairs, at whose places the parents' numbers stand.
#[derive(Clone, Copy)]
pub(crate) struct PairRows<'a> {
    incoming: &'a [u64],
    demand: &'a [u64],
    edges: &'a [ParentEdge],
    usages: &'a [UsageRow],
    pairs: &'a [PlantPair],
}

impl Agent {
    ghost use Rattle.mrp_agent.specs.Drafts.{CanDraft, drafted};

    /// Writes the plan of a pair that can be planned into `into`, from what has come and from the plans of
    /// its parents. The agent stays as it is.
    ///
    /// The rows are room to work in. They and `into` have the agent's horizon; what they held doesn't
    /// matter. What comes in is read where the agent has it, so `_incoming` stays as it is.
    pub fn draft(&self, x: PairNo, _incoming: &mut Row, gross: &mut Row, into: &mut PairPlan)
        requires can { CanDraft self.now x }
        requires incoming { length _incoming.old ≡ self.now.view.horizon }
        requires gross { length gross.old ≡ self.now.view.horizon }
        requires into { length into.old.gross ≡ self.now.view.horizon }
        ensures plan { into.new ≡ drafted self.now x }
        ensures incoming { length _incoming.new ≡ length _incoming.old }
        ensures gross { length gross.new ≡ length gross.old }
    {
        self.draft_into(x, gross, into);
    }

    /// Writes the plan of a pair that can be planned into `into`; `gross` is room to work in.
    pub(crate) fn draft_into(&self, x: PairNo, gross: &mut Row, into: &mut PairPlan)
        requires can { CanDraft self.now x }
        requires gross { length gross.old ≡ self.now.view.horizon }
        requires into { length into.old.gross ≡ self.now.view.horizon }
        ensures plan { into.new ≡ drafted self.now x }
        ensures gross { length gross.new ≡ length gross.old }
    {
        let Some(place) = self.view.place(x) else {
            unreachable!()
        };
        let terms = planning_terms(&self.view, place);
        let rows = pair_rows(
            &self.view,
            &self.structure.edges,
            &self.amounts.scheduled_receipts,
            &self.amounts.outside_demand,
            place,
        );
        draft_from(&terms, &rows, &self.amounts.plans, gross, into);
    }
}

/// What planners say of the pair at a place.
pub(crate) fn planning_terms(view: &PlantFrame, place: usize) -> PlanningTerms<'_>
    requires place { place < length view.now.pairs }
    requires firms { length view.now.firms ≡ length view.now.pairs }
    requires sooner { length view.now.sooner ≡ length view.now.pairs }
    ensures terms { terms_given view.now.horizon result ≡ terms_at_place view.now place }
    ensures orders { result.orders.now ≡ slice_index_or view.now.firms place [] }
{
    let pair = &view.pairs()[place];
    PlanningTerms {
        params: pair.params,
        policy: pair.policy,
        receipts: view.sooner().at(place),
        orders: view.firms().at(place),
    }
}

/// What the plan of the pair at a place is drafted from, beside what planners say of it.
pub(crate) fn pair_rows<'a>(
    view: &'a PlantFrame,
    edges: &'a Groups<ParentEdge>,
    receipts: &'a [u64],
    demand: &'a [u64],
    place: usize,
) -> PairRows<'a>
    requires place { place < length view.now.pairs }
    requires edges { IsGrouped (λ e. e.component) (length view.now.pairs) (map (parent_edge view.now) view.now.edges)
        edges.now.rows.items edges.now.starts.items }
    requires receipts { length receipts.now ≡ length view.now.pairs * view.now.horizon }
    requires demand { length demand.now ≡ length view.now.pairs * view.now.horizon }
    requires usages { length view.now.usages ≡ length view.now.pairs }
    ensures incoming { result.incoming.now ≡ part_at view.now.horizon place receipts.now }
    ensures demand { result.demand.now ≡ part_at view.now.horizon place demand.now }
    ensures edges { result.edges.now ≡ edges_at view.now place }
    ensures uses { uses_by result ≡ uses_at view.now place }
{
    let periods = view.horizon().get() as usize;
    PairRows {
        incoming: part_of(receipts, periods, place),
        demand: part_of(demand, periods, place),
        edges: edges.get(place),
        usages: view.usages().at(place),
        pairs: view.pairs(),
    }
}

/// The amounts of the pair at a place.
fn part_of(amounts: &[u64], periods: usize, place: usize) -> &[u64]
    requires { place * periods + periods ≤ length amounts.now }
    ensures { result.now ≡ part_at periods place amounts.now }
{
    let begin = place * periods;
    &amounts[begin..begin + periods]
}

/// Writes the plan of a pair from what planners say of it, what comes in at its time, the demand from outside, and the
/// plans of its parents.
pub(crate) fn draft_from(
    terms: &PlanningTerms<'_>,
    rows: &PairRows<'_>,
    plans: &[PairPlan],
    gross: &mut Row,
    into: &mut PairPlan,
)
    requires draft { HasDraft (terms_given (length rows.now.demand.now) terms.now) rows.now.incoming.now
        rows.now.demand.now rows.now.edges.now (uses_by rows.now) plans.now }
    requires orders { All (IsFirmWithin (length rows.now.demand.now)) terms.now.orders.now }
    requires gross { length gross.old ≡ length rows.now.demand.now }
    requires into { length into.old.gross ≡ length rows.now.demand.now }
    ensures plan { into.new ≡ one (data_over terms.now rows.now plans.now) }
    ensures gross { length gross.new ≡ length gross.old }
{
    let _periods = gross.len();
    gross.copy_pieces(rows.demand);
    add_parents(rows, plans, gross);
    plan_by_terms(terms, rows.incoming, gross, into);
}

/// Adds to `gross` what the releases of a pair's parents ask of it.
fn add_parents(rows: &PairRows<'_>, plans: &[PairPlan], gross: &mut Row)
    requires edges { All (ParentCanAsk plans.now (length gross.old)) rows.now.edges.now }
    requires uses { AreUses (uses_by rows.now) plans.now }
    requires within { (t : ℕ) → t < length gross.old
        → slice_index gross.old t + asked_by (uses_by rows.now) plans.now rows.now.edges.now t ≤ MOST }
    ensures each { (t : ℕ) → t < length gross.old → slice_index gross.new t
        ≡ slice_index gross.old t + asked_by (uses_by rows.now) plans.now rows.now.edges.now t }
    ensures size { length gross.new ≡ length gross.old }
{
    for edge in rows.edges {
        add_edge(rows, edge, plans, gross);
    }
}

/// Adds to `gross` what the releases of one parent ask.
fn add_edge(rows: &PairRows<'_>, edge: &ParentEdge, plans: &[PairPlan], gross: &mut Row)
    requires edge { ParentCanAsk plans.now (length gross.old) edge.now }
    requires uses { AreUses (uses_by rows.now) plans.now }
    requires within { (t : ℕ) → t < length gross.old
        → slice_index gross.old t + asked_on (uses_by rows.now) plans.now t edge.now ≤ MOST }
    ensures each { (t : ℕ) → t < length gross.old
        → slice_index gross.new t ≡ slice_index gross.old t + asked_on (uses_by rows.now) plans.now t edge.now }
    ensures size { length gross.new ≡ length gross.old }
{
    let plan = &plans[edge.parent as usize];
    let _periods = plan.len();
    let usages = parent_usages(rows.usages, rows.pairs, edge);
    add_asked(usages, edge.per as u64, plan.release(), gross);
}

/// Of the usage rows of a component those of a parent. Where there are none, the parent isn't looked up.
fn parent_usages<'a>(
    usages: &'a [UsageRow],
    pairs: &[PlantPair],
    edge: &ParentEdge,
) -> &'a [UsageRow]
    requires rise { IsNonDecreasingBy (λ u. u.parent.0) usages.now }
    requires parent { edge.now.parent < length pairs.now }
    ensures { result.now ≡ usages_of usages.now (parent_number pairs.now edge.now) }
{
    if usages.is_empty() {
        return usages;
    }
    usages_of(usages, pairs[edge.parent as usize].number)
}
