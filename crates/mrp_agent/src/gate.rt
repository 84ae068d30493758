//! The agent: the gate that is asked before each turn of its plant, and before each work of a worker of it.

ghost use Rattle.std.specs.Prelude.{◌≡◌, ◌≤◌, ℕ, false, true};

/// Who is asked before a plant's thread begins a turn, and before a worker of a plant begins its work.
///
/// Whoever writes a gate is promised that turns and workers count from 1: each call proves it. And they may
/// say what holds where the gate answers: the fault of a shut gate comes only where what holds of a gate that
/// is shut holds of some worker of the plant or of a turn of it, and what holds of an open gate holds of each
/// turn before that; and a plant has used its turns only where what holds of an open gate holds of each.
pub trait Gate: Sync {
    /// What holds where the gate is shut to a turn of a plant.
    ghost turn_shut: { ℕ → ℕ → Type 0 } = { λ _ _. Unit {0} };

    /// What holds where the gate is open to a turn of a plant.
    ghost turn_open: { ℕ → ℕ → Type 0 } = { λ _ _. Unit {0} };

    /// What holds where the gate is shut to a worker of a plant.
    ghost worker_shut: { ℕ → ℕ → Type 0 } = { λ _ _. Unit {0} };

    /// Whether a plant may begin a turn. Turns count from 1.
    fn turn(&self, plant: usize, turn: u64) -> bool
        requires counted { 1 ≤ turn }
        ensures shut { result ≡ false → turn_shut plant turn }
        ensures opened { result ≡ true → turn_open plant turn };

    /// Whether a worker of a plant may begin. Workers count from 1.
    fn worker(&self, plant: usize, worker: u64) -> bool
        requires counted { 1 ≤ worker }
        ensures shut { result ≡ false → worker_shut plant worker };
}

/// A gate that is always open.
#[derive(Clone, Copy, Debug)]
pub struct NoGate;

impl Gate for NoGate {
    ghost use Rattle.std.specs.Prelude.{◌≡◌, true};

    ghost turn_shut = { λ _ _. ⊥ };

    ghost worker_shut = { λ _ _. ⊥ };

    fn turn(&self, _plant: usize, _turn: u64) -> bool
        ensures { result ≡ true }
    {
        true
    }

    fn worker(&self, _plant: usize, _worker: u64) -> bool
        ensures { result ≡ true }
    {
        true
    }
}
