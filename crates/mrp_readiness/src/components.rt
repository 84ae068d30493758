//! Readiness: the components that wait for each pair, grouped by demander.

ghost use Rattle.std.specs.Prelude.{◌≡◌, ◌<◌, ◌^◌, All, IfOk, Some, length, map, slice_get};
ghost use Rattle.std.specs.List.{range_with_len};
ghost use Rattle.mrp_readiness.specs.Counts.{components_of};

use crate::Join;
use mrp_grouping::{Groups, KeyOf, group};
use std::alloc::{AllocError, Global};
use std::marker::Model;

/// The components that go into each pair of a plant, as [`crate::Readiness::settle`] takes them. Contracts
/// see by place the list of their places.
#[derive(Drop)]
pub struct Components {
    groups: Groups<usize>,
}

impl Model for Components {
    ghost use Rattle.std.specs.Prelude.{ℕ, List};
    ghost use Rattle.mrp_readiness.specs.Components.{ArePartsOf, parts};

    ghost Value = { List (List ℕ) };

    ghost view = { λ c. parts c.groups.rows.items c.groups.starts.items };

    ghost invariant = { λ c. ArePartsOf c.groups.rows.items c.groups.starts.items };
}

impl Components {
    /// The components of `pairs` pairs, fewer than 2^32: those of a pair in the order of its joins.
    ///
    /// # Errors
    ///
    /// [`AllocError`] where memory is refused.
    pub fn new(alloc: Global, joins: &[Join], pairs: usize) -> Result<Components, AllocError>
        requires few { pairs < 2 ^ 32 }
        requires known { All (λ j. j.demander < pairs) joins.now }
        ensures { IfOk result (λ c. c ≡ map (components_of joins.now) (range_with_len 0 pairs)) }
    {
        let grouped = group(alloc, &ByDemander, joins, pairs)?;
        let rows = component_places(alloc, &grouped.rows)?;
        let starts = grouped.starts;
        Ok(Components {
            groups: Groups { rows, starts },
        })
    }

    /// The places of the components that go into the pair at `x`.
    pub fn of(&self, x: usize) -> &[usize]
        requires { x < length self.now }
        ensures { slice_get self.now x ≡ Some result.now }
    {
        self.groups.get(x)
    }
}

/// The component of each join.
fn component_places(alloc: Global, joins: &[Join]) -> Result<Vec<usize>, AllocError>
    ensures { IfOk result (λ places. places.items ≡ map (λ j. j.component) joins.now) }
{
    joins.iter().map(|join| join.component).collect(alloc)
}

/// Puts joins into groups by their demanders.
struct ByDemander;

impl KeyOf<Join> for ByDemander {
    ghost key_of = { λ _ j. j.demander };

    fn key(&self, join: &Join) -> usize {
        join.demander
    }
}
