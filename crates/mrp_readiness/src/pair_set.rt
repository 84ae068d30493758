//! Readiness: a set of a plant's pairs, as of those that are ready.

ghost use Rattle.std.specs.Prelude.{◌≡◌, ◌<◌, IfOk, IsTrue, ◌↔◌};

use crate::PairNo;
use crate::slots::Slots;
use std::alloc::{AllocError, Global};
use std::marker::Model;

/// Some of the pairs of a plant, by their places there. The chosen pairs stand in the slots from `begin`
/// to before `end`, and those that were taken out before them. Where always the first is taken out, the
/// pairs come out in the order in which they were chosen; another one leaves its slot to the first. Each
/// change is done in constant time and takes no memory (by construction; no clause says so).
#[derive(Drop)]
pub(crate) struct PairSet {
    slots: Slots,
    begin: usize,
    end: usize,
}

impl Model for PairSet {
    ghost use Rattle.mrp_readiness.specs.Chosen.{Chosen, chosen, AreSlotted};

    ghost Value = { Chosen };

    ghost view = { λ s. chosen s.slots.numbers.items s.slots.places.items s.slots.slots.items s.begin s.end };

    ghost invariant = { λ s. AreSlotted s.slots.numbers.items s.slots.places.items s.slots.slots.items s.begin s.end };
}

impl PairSet {
    ghost use Rattle.std.specs.Prelude.{ℕ, ◌≢◌, [], ◌∷◌, ◌++◌, Contains, length, map};
    ghost use Rattle.mrp_readiness.specs.Chosen.{AreApart, number_at};

    /// No pair chosen among those with these numbers.
    pub(crate) fn new(alloc: Global, numbers: &[PairNo]) -> Result<PairSet, AllocError>
        ensures numbers { IfOk result (λ s. s.numbers ≡ numbers.now) }
        ensures gone { IfOk result (λ s. s.gone ≡ []) }
        ensures empty { IfOk result (λ s. s.places ≡ []) }
    {
        let slots = Slots::new(alloc, numbers)?;
        Ok(PairSet {
            slots,
            begin: 0,
            end: 0,
        })
    }

    /// Chooses the pair at a place, behind the others. A pair that was taken out isn't chosen again.
    pub(crate) fn insert(&mut self, x: usize)
        requires known { x < length self.old.numbers }
        requires absent { Contains self.old.places x → ⊥ }
        requires fresh { Contains self.old.gone x → ⊥ }
        ensures numbers { self.new.numbers ≡ self.old.numbers }
        ensures gone { self.new.gone ≡ self.old.gone }
        ensures added { self.new.places ≡ self.old.places ++ x ∷ [] }
    {
        let slot = self.slots.slots[x];
        self.slots.exchange(slot, self.end);
        self.end += 1;
    }

    /// Takes out the pair at a place.
    pub(crate) fn remove(&mut self, x: usize)
        requires { Contains self.old.places x }
        ensures numbers { self.new.numbers ≡ self.old.numbers }
        ensures gone { self.new.gone ≡ self.old.gone ++ x ∷ [] }
        ensures others { (y : ℕ) → Contains self.new.places y ↔ (Contains self.old.places y × (y ≢ x)) }
    {
        let slot = self.slots.slots[x];
        self.slots.exchange(slot, self.begin);
        self.begin += 1;
    }

    /// Whether the pair at a place is chosen; false where there is no such place.
    pub(crate) fn contains(&self, x: usize) -> bool
        ensures { IsTrue result ↔ Contains self.now.places x }
    {
        if x >= self.slots.slots.len() {
            return false;
        }
        let slot = self.slots.slots[x];
        self.begin <= slot && slot < self.end
    }

    /// The numbers of the chosen pairs.
    pub(crate) fn pairs(&self) -> &[PairNo]
        ensures pairs { result.now ≡ map (number_at self.now.numbers) self.now.places }
        ensures once { AreApart self.now.places }
    {
        &self.slots.numbers[self.begin..self.end]
    }
}
