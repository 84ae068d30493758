//! Tests of runs: the gates that workers of a crew meet.

use mrp_agent::Gate;
use std::sync::atomic::{AtomicU64, Ordering};
use std::thread;

/// How often a worker looks whether the others have come.
const MOST_LOOKS: u32 = 1_000_000;

/// A gate that opens to so many workers once all of them have asked, and answers false to one that has
/// looked in vain.
#[derive(Drop)]
pub(super) struct Meeting {
    workers: u64,
    asked: AtomicU64,
}

impl Meeting {
    pub(super) fn of(workers: u64) -> Meeting {
        Meeting {
            workers,
            asked: AtomicU64::new(0),
        }
    }
}

impl Gate for Meeting {
    fn turn(&self, _plant: usize, _turn: u64) -> bool {
        true
    }

    fn worker(&self, _plant: usize, _worker: u64) -> bool {
        self.asked.fetch_add(1, Ordering::SeqCst);
        for _ in 0..MOST_LOOKS {
            if self.asked.load(Ordering::SeqCst) >= self.workers {
                return true;
            }
            thread::yield_now();
        }
        false
    }
}

/// A gate that is shut to the worker of a number, or to all at 0.
#[derive(Drop)]
pub(super) struct ShutTo(pub(super) u64);

impl Gate for ShutTo {
    ghost turn_shut = { λ _ _. ⊥ };

    fn turn(&self, _plant: usize, _turn: u64) -> bool {
        true
    }

    fn worker(&self, _plant: usize, worker: u64) -> bool {
        self.0 != 0 && worker != self.0
    }
}

/// A gate that is open and counts what it is asked: how often, the sum of the numbers, and how many
/// asked of another plant than the first.
#[derive(Drop)]
pub(super) struct Counting {
    asked: AtomicU64,
    numbers: AtomicU64,
    strange: AtomicU64,
}

impl Counting {
    pub(super) fn new() -> Counting {
        Counting {
            asked: AtomicU64::new(0),
            numbers: AtomicU64::new(0),
            strange: AtomicU64::new(0),
        }
    }

    /// Whether it was asked so often, with numbers that add up to this, or at 0 to any sum, and never of
    /// another plant.
    pub(super) fn was_asked(&self, times: u64, numbers: u64) -> bool {
        let sum = self.numbers.load(Ordering::SeqCst);
        self.asked.load(Ordering::SeqCst) == times
            && (numbers == 0 || sum == numbers)
            && self.strange.load(Ordering::SeqCst) == 0
    }
}

impl Gate for Counting {
    ghost turn_shut = { λ _ _. ⊥ };

    ghost worker_shut = { λ _ _. ⊥ };

    fn turn(&self, _plant: usize, _turn: u64) -> bool {
        true
    }

    fn worker(&self, plant: usize, worker: u64) -> bool {
        self.asked.fetch_add(1, Ordering::SeqCst);
        self.numbers.fetch_add(worker, Ordering::SeqCst);
        if plant != 0 {
            self.strange.fetch_add(1, Ordering::SeqCst);
        }
        true
    }
}
