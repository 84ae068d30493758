//! The run by threads: its settings, which are the workers of a plant and the room of a mailbox.

use mrp_crew::MOST_WORKERS;
use mrp_lane::MOST_ROOM;
use std::marker::Model;

/// How a network is run: how many workers each plant has, and how many records a mailbox has room for.
#[derive(Clone, Copy, Debug)]
pub struct Settings {
    workers: u64,
    capacity: u64,
}

impl Model for Settings {
    ghost use Rattle.mrp_run.specs.Settings.{Limits, AreLimits};

    ghost Value = { Limits };

    ghost view = { λ s. record { workers = s.workers; capacity = s.capacity } };

    ghost invariant = { λ s. AreLimits s.workers s.capacity };

    ghost inverse = { λ v. record { workers = v.workers; capacity = v.capacity } };
}

impl Settings {
    ghost use Rattle.std.specs.Prelude.{◌≡◌, ◌↔◌, IfSome, IsSome};
    ghost use Rattle.mrp_run.specs.Settings.{AreLimits};

    /// That many workers, 1 to [`MOST_WORKERS`], and room for that many records, 1 to [`MOST_ROOM`]; `None`
    /// out of these.
    pub fn new(workers: u64, capacity: u64) -> Option<Settings>
        ensures workers { IfSome result (λ s. s.workers ≡ workers) }
        ensures capacity { IfSome result (λ s. s.capacity ≡ capacity) }
        ensures exact { IsSome result ↔ AreLimits workers capacity }
    {
        let fits = 1 <= workers
            && workers <= MOST_WORKERS
            && 1 <= capacity
            && capacity <= MOST_ROOM;
        if fits {
            Some(Settings { workers, capacity })
        } else {
            None
        }
    }

    /// How many workers each plant has.
    pub fn workers(self) -> u64
        ensures value { result ≡ self.workers }
        ensures limits { AreLimits self.workers self.capacity }
    {
        self.workers
    }

    /// How many records a mailbox has room for.
    pub fn capacity(self) -> u64
        ensures value { result ≡ self.capacity }
        ensures limits { AreLimits self.workers self.capacity }
    {
        self.capacity
    }
}
