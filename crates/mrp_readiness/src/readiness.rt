//! Readiness: which pairs of a plant can be planned, kept up with each event.

ghost use Rattle.std.specs.Prelude.{◌≡◌, ℕ, ◌<◌, ◌↔◌, [], IfOk, IsTrue, Contains, length, slice_index};

use crate::PairNo;
use crate::pair_set::PairSet;
use std::alloc::{AllocError, Global};
use std::marker::Model;

/// How far the planning of a plant's pairs is, and which of them can be planned.
///
/// Contracts see each pair's number, how much it waits for and whether it is planned, by its place at the
/// plant, and the list of the ready pairs. No call but [`Readiness::new`] takes memory; an event is done
/// in constant time, and a settled pair in time linear in its components (by construction; no clause says
/// so).
#[derive(Drop)]
pub struct Readiness {
    waits: Vec<usize>,
    planned: Vec<bool>,
    ready: PairSet,
    left: usize,
}

impl Model for Readiness {
    ghost use Rattle.mrp_readiness.specs.Progress.{Progress, progress_of, IsProgressKept};

    ghost Value = { Progress };

    ghost view = { λ r. progress_of r.waits.items r.planned.items r.ready };

    ghost invariant = { λ r. IsProgressKept (progress_of r.waits.items r.planned.items r.ready) r.ready.gone r.left };
}

impl Readiness {
    ghost use Rattle.std.specs.Prelude.{true, false, ◌+◌, ◌-◌, ◌≢◌, ◌≤◌, List, All, map, replicate, slice_set};
    ghost use Rattle.mrp_readiness.specs.declared.join.Join.{Join};
    ghost use Rattle.mrp_readiness.specs.Chosen.{AreApart, number_at};
    ghost use Rattle.mrp_readiness.specs.Progress.{IsFree, IsListed, IsLess, Lowers, is_planned, left_of, times};
    ghost use Rattle.mrp_readiness.specs.Counts.{AreCounts, AreFirstCounts, IsOneEnded, components_of};

    /// A plant of which no pair is planned.
    ///
    /// `numbers` are those of its pairs, and `waits` how many joins to a demander at the plant each pair
    /// has, together with the blocks that it awaits.
    ///
    /// # Errors
    ///
    /// [`AllocError`] where memory is refused.
    pub fn new(
        alloc: Global,
        numbers: &[PairNo],
        waits: Vec<usize>,
    ) -> Result<Readiness, AllocError>
        requires { length waits.items ≡ length numbers.now }
        ensures numbers { IfOk result (λ r. r.numbers ≡ numbers.now) }
        ensures waits { IfOk result (λ r. r.waits ≡ waits.items) }
        ensures planned { IfOk result (λ r. r.planned ≡ replicate (length numbers.now) false) }
        ensures listed { IfOk result (λ r. IsListed r.waits r.planned r.ready) }
        ensures counts { IfOk result (λ r. (joins : List Join) (blocks : ℕ → ℕ)
            → AreFirstCounts waits.items joins blocks → AreCounts r.waits joins r.planned blocks) }
    {
        let planned = vec![in alloc; false; numbers.len()]?;
        let ready = waiting_for_none(alloc, numbers, &waits)?;
        Ok(Readiness {
            waits,
            planned,
            ready,
            left: numbers.len(),
        })
    }

    /// Counts the ready pair at `x` as planned.
    ///
    /// `components` are the places of the pairs that go into it at the plant, as often as they stand in
    /// its joins: each waits for one less each time, and those that wait for nothing any more become
    /// ready.
    pub fn count_planned(&mut self, x: usize, components: &[usize])
        requires ready { Contains self.old.ready x }
        requires known { All (λ y. y < length self.old.waits) components.now }
        requires waits { (y : ℕ) → y < length self.old.waits
            → times y components.now ≤ slice_index self.old.waits y }
        ensures numbers { self.new.numbers ≡ self.old.numbers }
        ensures planned { self.new.planned ≡ slice_set self.old.planned x true }
        ensures left { left_of self.new.planned + 1 ≡ left_of self.old.planned }
        ensures fewer { IsLess self.old.waits self.new.waits components.now }
        ensures listed { IsListed self.new.waits self.new.planned self.new.ready }
        ensures others { (y : ℕ) → Contains self.old.ready y → y ≢ x → Contains self.new.ready y }
        ensures counts { (joins : List Join) (blocks : ℕ → ℕ) → components.now ≡ components_of joins x
            → AreCounts self.old.waits joins self.old.planned blocks
            → AreCounts self.new.waits joins self.new.planned blocks }
    {
        self.mark(x);
        self.lower_each(components);
    }

    /// Counts an awaited block of the pair at `y` as ended: it waits for one less, and becomes ready where
    /// it waits for nothing any more.
    pub fn arrive(&mut self, y: usize)
        requires known { y < length self.old.waits }
        requires waits { 0 < slice_index self.old.waits y }
        ensures numbers { self.new.numbers ≡ self.old.numbers }
        ensures planned { self.new.planned ≡ self.old.planned }
        ensures fewer { self.new.waits ≡ slice_set self.old.waits y (slice_index self.old.waits y - 1) }
        ensures listed { IsListed self.new.waits self.new.planned self.new.ready }
        ensures others { (z : ℕ) → Contains self.old.ready z → Contains self.new.ready z }
        ensures counts { (joins : List Join) (before after : ℕ → ℕ) → IsOneEnded y before after
            → AreCounts self.old.waits joins self.old.planned before
            → AreCounts self.new.waits joins self.new.planned after }
    {
        self.lower(y);
    }

    /// The numbers of the ready pairs.
    pub fn ready_pairs(&self) -> &[PairNo]
        ensures pairs { result.now ≡ map (number_at self.now.numbers) self.now.ready }
        ensures listed { IsListed self.now.waits self.now.planned self.now.ready }
        ensures once { AreApart self.now.ready }
    {
        let _ = &self.waits;
        self.ready.pairs()
    }

    /// Whether the pair at a place is ready; false where there is no such place.
    pub fn is_ready(&self, x: usize) -> bool
        ensures ready { IsTrue result ↔ Contains self.now.ready x }
        ensures free { IsTrue result ↔ IsFree self.now.waits self.now.planned x }
    {
        let _ = &self.waits;
        self.ready.contains(x)
    }

    /// Whether the pair at a place is planned; false where there is no such place.
    pub fn planned(&self, x: usize) -> bool
        ensures { result ≡ is_planned self.now.planned x }
    {
        x < self.planned.len() && self.planned[x]
    }

    /// How many pairs aren't planned.
    pub fn left(&self) -> usize
        ensures { result ≡ left_of self.now.planned }
    {
        self.left
    }

    /// Counts a ready pair as planned; its components wait as before.
    fn mark(&mut self, x: usize)
        requires { Contains self.old.ready x }
        ensures was_free { IsFree self.old.waits self.old.planned x }
        ensures known { x < length self.old.planned }
        ensures numbers { self.new.numbers ≡ self.old.numbers }
        ensures waits { self.new.waits ≡ self.old.waits }
        ensures planned { self.new.planned ≡ slice_set self.old.planned x true }
        ensures listed { IsListed self.new.waits self.new.planned self.new.ready }
        ensures others { (y : ℕ) → Contains self.old.ready y → y ≢ x → Contains self.new.ready y }
    {
        self.planned[x] = true;
        self.left -= 1;
        self.ready.remove(x);
    }

    /// Lets each component wait for one less.
    fn lower_each(&mut self, components: &[usize])
        requires known { All (λ y. y < length self.old.waits) components.now }
        requires waits { (y : ℕ) → y < length self.old.waits
            → times y components.now ≤ slice_index self.old.waits y }
        ensures { Lowers self.old self.new components.now }
    {
        for &component in components {
            self.lower(component);
        }
    }

    /// Lets a pair wait for one less. It becomes ready where it waits for nothing any more.
    fn lower(&mut self, y: usize)
        requires known { y < length self.old.waits }
        requires waits { 0 < slice_index self.old.waits y }
        ensures numbers { self.new.numbers ≡ self.old.numbers }
        ensures planned { self.new.planned ≡ self.old.planned }
        ensures fewer { self.new.waits ≡ slice_set self.old.waits y (slice_index self.old.waits y - 1) }
        ensures listed { IsListed self.new.waits self.new.planned self.new.ready }
        ensures others { (z : ℕ) → Contains self.old.ready z → Contains self.new.ready z }
    {
        self.waits[y] -= 1;
        if self.waits[y] == 0 {
            self.ready.insert(y);
        }
    }
}

/// The pairs that wait for nothing.
fn waiting_for_none(
    alloc: Global,
    numbers: &[PairNo],
    waits: &[usize],
) -> Result<PairSet, AllocError>
    requires { length waits.now ≡ length numbers.now }
    ensures numbers { IfOk result (λ s. s.numbers ≡ numbers.now) }
    ensures gone { IfOk result (λ s. s.gone ≡ []) }
    ensures exact { IfOk result (λ s. (x : ℕ)
        → Contains s.places x ↔ ((x < length waits.now) × (slice_index waits.now x ≡ 0))) }
{
    let mut ready = PairSet::new(alloc, numbers)?;
    for (x, &count) in waits.iter().enumerate() {
        if count == 0 {
            ready.insert(x);
        }
    }
    Ok(ready)
}
