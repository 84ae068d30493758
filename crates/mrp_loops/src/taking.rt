//! The loop check: how pairs are taken away, demanders first, until each that is left has a demander left.

ghost use Rattle.std.specs.Prelude.{◌≡◌, ◌+◌, ◌<◌, ◌≤◌, ◌-◌, ◌++◌, ◌∷◌, [], ◌==◌, if◌then◌else◌, max, length, take};
ghost use Rattle.std.specs.Prelude.{slice_index};
ghost use Rattle.std.specs.Prelude.{slice_set, slice_index_or, IfOk, OnOk};
ghost use Rattle.mrp_loops.specs.Taking.{IsTaken};

use mrp_net::{Network, PairNo};
use mrp_qty::Memory;
use std::alloc::Global;

/// Pairs are taken away, demanders first, until each pair that is left has a demander left.
#[derive(Drop)]
pub struct Taking {
    /// How many edges from demanders not yet taken away a pair has.
    pub left: Vec<usize>,
    /// The longest chain of passed edges that ends in a pair.
    pub codes: Vec<u64>,
    /// The pairs without a demander left, in the order in which they are taken away.
    pub queue: Vec<PairNo>,
}

/// Takes away all pairs that can be taken away.
pub fn take_away(alloc: Global, network: &Network) -> Result<Taking, Memory>
    ensures { IfOk result (λ t. IsTaken network.now t.queue.items t.queue.items t.left.items t.codes.items) }
{
    let mut state = begin(alloc, network)?;
    let mut next = 0;
    while next < state.queue.len() {
        let demander = state.queue[next];
        pass(network, &mut state, next, demander)?;
        next += 1;
    }
    Ok(state)
}

/// Every pair with all its demanders, and those in the queue that have none.
fn begin(alloc: Global, network: &Network) -> Result<Taking, Memory>
    ensures { IfOk result (λ t. IsTaken network.now [] t.queue.items t.left.items t.codes.items) }
{
    let pairs = network.pairs();
    let mut left = Vec::with_capacity(alloc, pairs)?;
    let codes = vec![in alloc; 0; pairs]?;
    let mut queue = Vec::with_capacity(alloc, pairs)?;
    for x in 0..pairs {
        let waiting = network.demanders(PairNo(x)).len();
        left.push(waiting)?;
        if waiting == 0 {
            queue.push(PairNo(x))?;
        }
    }
    Ok(Taking { left, codes, queue })
}

/// Takes the pair at `next` in the queue away: passes each edge from it.
fn pass(network: &Network, state: &mut Taking, next: usize, demander: PairNo) -> Result<(), Memory>
    requires within { next < length state.old.queue.items }
    requires at { demander ≡ slice_index_or state.old.queue.items next demander }
    requires taken { IsTaken network.now (take next state.old.queue.items) state.old.queue.items state.old.left.items
        state.old.codes.items }
    ensures within { OnOk result (next + 1 ≤ length state.new.queue.items) }
    ensures taken { OnOk result (IsTaken network.now
        (take (next + 1) state.new.queue.items) state.new.queue.items state.new.left.items state.new.codes.items) }
{
    let code = state.codes[demander.0] + 1;
    for edge in network.suppliers(demander) {
        lower(state, edge.pair, code)?;
    }
    Ok(())
}

/// Passes one edge to `pair`, from a demander with a code one below `code`.
fn lower(state: &mut Taking, pair: PairNo, code: u64) -> Result<(), Memory>
    requires left { pair.0 < length state.old.left.items }
    requires codes { pair.0 < length state.old.codes.items }
    requires some { 1 ≤ slice_index state.old.left.items pair.0 }
    ensures left { OnOk result (state.new.left.items
        ≡ slice_set state.old.left.items pair.0 (slice_index state.old.left.items pair.0 - 1)) }
    ensures codes { OnOk result (state.new.codes.items
        ≡ slice_set state.old.codes.items pair.0 (max (slice_index state.old.codes.items pair.0) code)) }
    ensures queue { OnOk result (state.new.queue.items ≡
        (if slice_index state.old.left.items pair.0 == 1 then state.old.queue.items ++ pair ∷ []
        else state.old.queue.items)) }
{
    let x = pair.0;
    state.codes[x] = state.codes[x].max(code);
    state.left[x] -= 1;
    if state.left[x] == 0 {
        state.queue.push(pair)?;
    }
    Ok(())
}
