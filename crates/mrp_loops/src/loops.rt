//! The loop check: low-level codes, or a loop.

ghost use Rattle.std.specs.Prelude.{◌≡◌, ◌<◌, ◌≤◌, length, take, All, IfOk, IfErr, IfNone, IfSome, slice_index};
ghost use Rattle.mrp_loops.specs.declared.loops.LoopFault.TheVariants.{Memory};
ghost use Rattle.mrp_loops.specs.Loop.{IsLoopFree};
ghost use Rattle.mrp_loops.specs.Codes.{AreCodes};
ghost use Rattle.mrp_loops.specs.LoopFaults.{IsLoopFault};

use crate::taking::take_away;
use crate::walk::loop_above;
use mrp_net::{Network, PairNo};
use std::alloc::Global;
use std::marker::Model;
use thiserror::Error;

/// Why a network has no codes.
#[derive(Debug, Drop, Error)]
pub enum LoopFault {
    /// These pairs are a loop: each takes from the next, and the last from the first. No pair is
    /// named twice, and the list begins with its pair that is first in the table.
    #[error("loop")]
    Loop(Vec<PairNo>),
    /// Memory was refused.
    #[error("memory")]
    Memory,
}

impl From<mrp_qty::Memory> for LoopFault {
    ghost from_gives = { λ _ e. e ≡ Memory };

    fn from(_refusal: mrp_qty::Memory) -> LoopFault {
        LoopFault::Memory
    }
}

/// The low-level codes of all pairs of a network.
///
/// The code of a pair is the length of the longest chain of edges that ends in it: 0 without
/// demanders, else one more than the greatest code of its demanders.
#[derive(Drop)]
pub struct Levels {
    codes: Vec<u64>,
}

impl Model for Levels {
    ghost use Rattle.std.specs.Prelude.{List, ℕ, ◌≤◌, length, All};

    ghost Value = { List ℕ };

    ghost view = { λ l. l.codes.items };

    ghost invariant = { λ l. All (λ code. code ≤ length l.codes.items) l.codes.items };
}

impl Levels {
    /// The low-level code of a pair.
    pub fn code(&self, x: PairNo) -> u64
        requires { x.0 < length self.now }
        ensures { result ≡ slice_index self.now x.0 }
    {
        self.codes[x.0]
    }

    /// How many pairs have a code. No code is greater.
    pub(crate) fn pairs(&self) -> usize
        ensures value { result ≡ length self.now }
        ensures codes { All (λ code. code ≤ length self.now) self.now }
    {
        self.codes.len()
    }

    /// The code as an index: it is no greater than the number of pairs.
    pub(crate) fn index(&self, x: PairNo) -> usize
        requires { x.0 < length self.now }
        ensures value { result ≡ slice_index self.now x.0 }
        ensures within { result ≤ length self.now }
    {
        let codes = self.codes.as_slice();
        codes[x.0] as usize
    }
}

/// The loop check: the low-level codes of a network without loops.
///
/// Pairs without demanders are taken away, again and again, until none is left or each that is left
/// has a demander left. It is built to take time in proportion to the pairs and edges; no clause counts it.
///
/// # Errors
///
/// [`LoopFault::Loop`] where the network has a loop; [`LoopFault::Memory`] where a growth was refused.
///
/// Of several loops that of the walk upstream is answered: it begins with the first pair in the table
/// that is left, and goes from a pair to its demander left that is first in the table.
pub fn check(alloc: Global, network: &Network) -> Result<Levels, LoopFault>
    ensures codes { IfOk result (λ levels. AreCodes network.now levels × IsLoopFree network.now) }
    ensures fault { IfErr result (λ fault. IsLoopFault network.now fault) }
{
    let taken = take_away(alloc, network)?;
    let Some(first) = first_left(taken.left.as_slice()) else {
        return Ok(Levels { codes: taken.codes });
    };
    let found = loop_above(alloc, network, taken.left.as_slice(), PairNo(first))?;
    Err(LoopFault::Loop(found))
}

/// The first pair that is left.
fn first_left(left: &[usize]) -> Option<usize>
    ensures none { IfNone result (All (λ waiting. waiting ≡ 0) left.now) }
    ensures within { IfSome result (λ x. x < length left.now) }
    ensures some { IfSome result (λ x. 0 < slice_index left.now x) }
    ensures first { IfSome result (λ x. All (λ waiting. waiting ≡ 0) (take x left.now)) }
{
    left.iter().position(|waiting| *waiting > 0)
}
