//! Readiness: the pairs of a plant in slots, each found by its place, for the set of ready pairs.

ghost use Rattle.std.specs.Prelude.{◌≡◌, ◌<◌, IfOk, length, swap, slice_index};
ghost use Rattle.std.specs.List.{range_with_len};
ghost use Rattle.mrp_readiness.specs.Chosen.{slots_after};

use crate::PairNo;
use std::alloc::{AllocError, Global};

/// The places of all pairs of a plant in some order, each in one slot.
#[derive(Drop)]
pub(crate) struct Slots {
    /// The number of the pair in each slot.
    pub(crate) numbers: Vec<PairNo>,
    /// The place of the pair in each slot.
    pub(crate) places: Vec<usize>,
    /// By place, the slot in which it stands.
    pub(crate) slots: Vec<usize>,
}

impl Slots {
    /// The pairs in the order of their places.
    pub(crate) fn new(alloc: Global, numbers: &[PairNo]) -> Result<Slots, AllocError>
        ensures numbers { IfOk result (λ s. s.numbers.items ≡ numbers.now) }
        ensures places { IfOk result (λ s. s.places.items ≡ range_with_len 0 (length numbers.now)) }
        ensures slots { IfOk result (λ s. s.slots.items ≡ range_with_len 0 (length numbers.now)) }
    {
        Ok(Slots {
            numbers: Vec::from_slice(alloc, numbers)?,
            places: first_places(alloc, numbers.len())?,
            slots: first_places(alloc, numbers.len())?,
        })
    }

    /// Lets the pairs in two slots change places.
    pub(crate) fn exchange(&mut self, i: usize, j: usize)
        requires first { i < length self.old.places.items }
        requires second { j < length self.old.places.items }
        requires numbered { length self.old.numbers.items ≡ length self.old.places.items }
        requires slot_of_first { slice_index self.old.places.items i < length self.old.slots.items }
        requires slot_of_second { slice_index self.old.places.items j < length self.old.slots.items }
        ensures numbers { self.new.numbers.items ≡ swap self.old.numbers.items i j }
        ensures places { self.new.places.items ≡ swap self.old.places.items i j }
        ensures slots { self.new.slots.items ≡ slots_after self.old.places.items self.old.slots.items i j }
    {
        let (x, y) = (self.places[i], self.places[j]);
        self.numbers.swap(i, j);
        self.places.swap(i, j);
        self.slots[x] = j;
        self.slots[y] = i;
    }
}

/// The places from 0 on.
fn first_places(alloc: Global, count: usize) -> Result<Vec<usize>, AllocError>
    ensures { IfOk result (λ v. v.items ≡ range_with_len 0 count) }
{
    (0..count).collect(alloc)
}
