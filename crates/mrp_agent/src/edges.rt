//! The agent: the edges among its pairs, by the places of the pairs, grouped by component.

ghost use Rattle.std.specs.Prelude.{◌≡◌, ◌<◌, ◌≤◌, All, IfOk, length, map};
ghost use Rattle.mrp_agent.specs.Kept.{parent_edge};
ghost use Rattle.mrp_agent.specs.Shows.{join_of};
ghost use Rattle.mrp_agent.specs.State.{pair_place};
ghost use Rattle.mrp_qty.specs.declared.limits.TheConstants.{MOST_PAIRS};
ghost use Rattle.mrp_plant_view.specs.Seen.{IsOwnPair, IsPlantEdge};

use mrp_grouping::KeyOf;
use mrp_net::PairNo;
use mrp_plant_view::{PlantEdge, PlantFrame};
use mrp_readiness::Join;
use std::alloc::{AllocError, Global};

/// An edge of the plant by the places of its pairs. A plant has far fewer than 2^32 of them.
#[derive(Clone, Copy)]
pub(crate) struct ParentEdge {
    /// The place of the component.
    pub(crate) component: u32,
    /// The place of the pair that is made.
    pub(crate) parent: u32,
    /// How many pieces of the component go into one of the parent where no usage row is in force.
    pub(crate) per: u32,
}

/// Puts edges into groups by their components.
pub(crate) struct ByComponent;

impl KeyOf<ParentEdge> for ByComponent {
    ghost key_of = { λ _ e. e.component };

    fn key(&self, edge: &ParentEdge) -> usize {
        edge.component as usize
    }
}

/// The edges of a plant by places.
pub(crate) fn parent_edges(
    alloc: Global,
    view: &PlantFrame,
    edges: &[PlantEdge],
) -> Result<Vec<ParentEdge>, AllocError>
    requires edges { All (IsPlantEdge view.now) edges.now }
    requires few { length view.now.pairs ≤ MOST_PAIRS }
    ensures { IfOk result (λ v. v.items ≡ map (parent_edge view.now) edges.now) }
{
    let mut parents = Vec::new(alloc);
    for edge in edges {
        parents.push(parent_edge(view, edge))?;
    }
    Ok(parents)
}

/// An edge by places.
fn parent_edge(view: &PlantFrame, edge: &PlantEdge) -> ParentEdge
    requires edge { IsPlantEdge view.now edge.now }
    requires few { length view.now.pairs ≤ MOST_PAIRS }
    ensures { result ≡ parent_edge view.now edge.now }
{
    let component = short_place(view, edge.component);
    let parent = short_place(view, edge.parent);
    ParentEdge {
        component,
        parent,
        per: edge.per as u32,
    }
}

/// The place of one of the plant's pairs.
fn short_place(view: &PlantFrame, x: PairNo) -> u32
    requires own { IsOwnPair view.now x }
    requires few { length view.now.pairs ≤ MOST_PAIRS }
    ensures { result ≡ pair_place view.now x.0 }
{
    view.place(x).unwrap() as u32
}

/// The joins of edges.
pub(crate) fn joins(alloc: Global, edges: &[ParentEdge]) -> Result<Vec<Join>, AllocError>
    ensures { IfOk result (λ v. v.items ≡ map (λ e. record { component = e.component; demander = e.parent })
        edges.now) }
{
    edges
        .iter()
        .map(|edge| Join {
            component: edge.component as usize,
            demander: edge.parent as usize,
        })
        .collect(alloc)
}
