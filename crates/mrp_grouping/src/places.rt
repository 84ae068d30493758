//! Grouping by a key: where keys stand in a list that has each of them once, found by hash.

use std::alloc::{AllocError, Global};
use std::collections::HashMap;
use std::hash::Hash;
use std::marker::Model;

/// Keys in the order in which they came, each once, and by hash the place of each. Contracts see the keys.
#[derive(Drop)]
pub struct Places<K: Eq + Hash> {
    keys: Vec<K>,
    places: HashMap<K, usize>,
}

impl<K: Eq + Hash> Model for Places<K> {
    ghost use Rattle.std.specs.Prelude.{◌≡◌, List, position};
    ghost use Rattle.std.specs.HashMap.{get};
    ghost use Rattle.std.specs.List.{IsDistinct};

    ghost Value = { List K };

    ghost view = { λ p. p.keys.items };

    ghost invariant = { λ p. IsDistinct K.eq p.keys.items
        × ((key : K) → get K.eq p.places key ≡ position (K.eq key) p.keys.items) };
}

impl<K: Eq + Hash + Copy + Drop> Places<K> {
    ghost use Rattle.std.specs.Prelude.{◌≡◌, ◌<◌, ◌++◌, ◌∷◌, [], length, position, false, IfSome, IsTrue, OnErr, OnOk};
    ghost use Rattle.std.specs.Prelude.{Some};
    ghost use Rattle.std.specs.List.{list_any};

    /// No keys.
    pub fn new(alloc: Global) -> Places<K>
        ensures { result ≡ [] }
    {
        Places {
            keys: Vec::new(alloc),
            places: HashMap::new(alloc),
        }
    }

    /// Puts a key that isn't there behind the others.
    ///
    /// # Errors
    ///
    /// [`AllocError`] where the room for it is refused; then nothing has changed.
    pub fn push(&mut self, key: K) -> Result<(), AllocError>
        requires fresh { list_any (K.eq key) self.old ≡ false }
        ensures keys { OnOk result (self.new ≡ self.old ++ key ∷ []) }
        ensures unchanged { OnErr result (self.new ≡ self.old) }
    {
        let place = self.keys.len();
        self.keys.reserve(1)?;
        self.places.insert(key, place)?;
        let Ok(()) = self.keys.push(key) else {
            unreachable!();
        };
        Ok(())
    }

    /// The place of a key, from 0, or `None` where it isn't there.
    pub fn find(&self, key: K) -> Option<usize>
        ensures place { result ≡ position (K.eq key) self.now }
        ensures within { IfSome result (λ place. place < length self.now) }
    {
        self.places.get(&key).copied()
    }

    /// The place of a key, which is looked for at `near` and right behind it first.
    pub fn find_near(&self, key: K, near: usize) -> Option<usize>
        ensures place { result ≡ position (K.eq key) self.now }
        ensures within { IfSome result (λ place. place < length self.now) }
    {
        let next = near.saturating_add(1);
        if self.is_at(key, near) {
            Some(near)
        } else if self.is_at(key, next) {
            Some(next)
        } else {
            self.find(key)
        }
    }

    /// Whether a key stands at a place.
    fn is_at(&self, key: K, place: usize) -> bool
        ensures { IsTrue result → position (K.eq key) self.now ≡ Some place }
    {
        match self.keys.get(place) {
            Some(known) => key == *known,
            None => false,
        }
    }
}
