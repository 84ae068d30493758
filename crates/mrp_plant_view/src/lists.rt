//! The view of one plant: a list for each of its pairs.

use mrp_qty::Memory;
use std::alloc::Global;
use std::marker::Model;

/// Where the list of a pair stands in the list of all.
#[derive(Clone, Copy)]
pub(crate) struct Span {
    begin: usize,
    end: usize,
}

/// A list for each of a plant's pairs, by the places of the pairs, as of firm planned orders, usage rows or pieces by
/// period. They are kept one after the other in one list, so a pair with none takes no room but for its place.
/// Contracts see it as the list of these lists.
#[derive(Drop)]
pub struct Lists<T: Copy> {
    spans: Vec<Span>,
    elements: Vec<T>,
}

impl<T: Copy> Model for Lists<T> {
    ghost use Rattle.std.specs.Prelude.{List};
    ghost use Rattle.mrp_plant_view.specs.Lists.{AreSpans, lists_of};

    ghost Value = { List (List T) };

    ghost view = { λ l. lists_of l.spans.items l.elements.items };

    ghost invariant = { λ l. AreSpans l.spans.items l.elements.items };
}

impl<T: Copy> Lists<T> {
    ghost use Rattle.std.specs.Prelude.{◌≡◌, ◌<◌, ◌++◌, ◌∷◌, [], length, slice_index_or, IfOk};

    /// Those of no pair.
    pub(crate) fn new(alloc: Global) -> Lists<T>
        ensures { result ≡ [] }
    {
        Lists {
            spans: Vec::new(alloc),
            elements: Vec::new(alloc),
        }
    }

    /// The list of one pair more.
    pub(crate) fn push(&mut self, list: &[T]) -> Result<(), Memory>
        ensures { IfOk result (λ _. self.new ≡ self.old ++ list.now ∷ []) }
    {
        let begin = self.elements.len();
        self.elements.extend_from_slice(list)?;
        let end = self.elements.len();
        self.spans.push(Span { begin, end })?;
        Ok(())
    }

    /// The list of the pair at a place.
    pub fn at(&self, place: usize) -> &[T]
        requires { place < length self.now }
        ensures { result.now ≡ slice_index_or self.now place [] }
    {
        let span = self.spans[place];
        &self.elements[span.begin..span.end]
    }
}
