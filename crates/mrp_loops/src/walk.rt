//! The loop check: its walk upstream among the pairs that are left, until one is met twice.

ghost use Rattle.std.specs.Prelude.{◌≡◌, ◌<◌, ◌≤◌, true, All, length, map, drop, slice_index, slice_index_or, IfOk};
ghost use Rattle.mrp_master_data.specs.Table.{IsPair};
ghost use Rattle.mrp_loops.specs.Taking.{is_in};
ghost use Rattle.mrp_loops.specs.Upstream.{IsFirst, IsLeft, GoesTo, ComesFrom, IsMet, IsLoopAnswered};
ghost use Rattle.mrp_loops.specs.Walk.{IsStuck, IsRing};

use mrp_net::{Network, PairNo};
use mrp_qty::Memory;
use std::alloc::Global;

/// A walk that came to a pair for the second time.
#[derive(Drop)]
struct Lasso {
    /// The pairs in the order of the walk: each is a demander of the one before it.
    path: Vec<PairNo>,
    /// Where in the path the pair stands that the walk came to again.
    from: usize,
}

/// The loop that the walk upstream from `first` ends in, over pairs with a demander left.
pub fn loop_above(
    alloc: Global,
    network: &Network,
    left: &[usize],
    first: PairNo,
) -> Result<Vec<PairNo>, Memory>
    requires stuck { IsStuck network.now left.now }
    requires pair { IsPair network.now first.0 }
    requires left { 0 < slice_index left.now first.0 }
    requires first { IsFirst (IsLeft network.now) first.0 }
    ensures { IfOk result (λ found. IsLoopAnswered network.now (map (λ x. x.0) found.items)) }
{
    let lasso = walk(alloc, network, left, first)?;
    let path = lasso.path.as_slice();
    turned(alloc, network, &path[lasso.from..])
}

/// Walks upstream until a pair comes for the second time.
fn walk(alloc: Global, network: &Network, left: &[usize], first: PairNo) -> Result<Lasso, Memory>
    requires stuck { IsStuck network.now left.now }
    requires pair { IsPair network.now first.0 }
    requires left { 0 < slice_index left.now first.0 }
    requires first { IsFirst (IsLeft network.now) first.0 }
    ensures within { IfOk result (λ lasso. lasso.from ≤ length lasso.path.items) }
    ensures ring { IfOk result (λ lasso. IsRing (ComesFrom network.now) (drop lasso.from lasso.path.items)) }
    ensures met { IfOk result (λ lasso. All (λ x. IsMet network.now x.0) (drop lasso.from lasso.path.items)) }
{
    let mut visited = vec![in alloc; false; left.len()]?;
    let mut path = Vec::with_capacity(alloc, left.len())?;
    let mut x = first;
    while !visited[x.0] {
        visited[x.0] = true;
        path.push(x)?;
        x = demander_left(network, left, x);
    }
    let from = place_on_path(path.as_slice(), x);
    Ok(Lasso { path, from })
}

/// The demander left of `x` that is first in the table.
fn demander_left(network: &Network, left: &[usize], x: PairNo) -> PairNo
    requires stuck { IsStuck network.now left.now }
    requires pair { IsPair network.now x.0 }
    requires left { 0 < slice_index left.now x.0 }
    ensures pair { IsPair network.now result.0 }
    ensures left { 0 < slice_index left.now result.0 }
    ensures goes { GoesTo network.now x.0 result.0 }
{
    for edge in network.demanders(x) {
        if left[edge.demander.0] > 0 {
            return edge.demander;
        }
    }
    unreachable!()
}

/// Where the pair stands in a path that it is in.
fn place_on_path(path: &[PairNo], x: PairNo) -> usize
    requires { is_in path.now x.0 ≡ true }
    ensures within { result < length path.now }
    ensures at { (slice_index_or path.now result x).0 ≡ x.0 }
{
    for (k, y) in path.iter().enumerate() {
        if y.0 == x.0 {
            return k;
        }
    }
    unreachable!()
}

/// The ring of a walk in the order of its edges, begun with the pair that is first in the table.
fn turned(alloc: Global, network: &Network, ring: &[PairNo]) -> Result<Vec<PairNo>, Memory>
    requires ring { IsRing (ComesFrom network.now) ring.now }
    requires met { All (λ x. IsMet network.now x.0) ring.now }
    ensures { IfOk result (λ found. IsLoopAnswered network.now (map (λ x. x.0) found.items)) }
{
    let mut found = Vec::from_slice(alloc, ring)?;
    let pairs = found.as_mut_slice();
    pairs.reverse();
    let first = least(pairs);
    pairs.rotate_left(first);
    Ok(found)
}

/// Where the pair stands that is first in the table.
fn least(pairs: &[PairNo]) -> usize
    requires { 0 < length pairs.now }
    ensures within { result < length pairs.now }
    ensures first { All (λ x. (slice_index_or pairs.now result x).0 ≤ x.0) pairs.now }
{
    let mut first = 0;
    for k in 1..pairs.len() {
        if pairs[k].0 < pairs[first].0 {
            first = k;
        }
    }
    first
}
