//! The world: all plants and the mailboxes between them, one event at a time.

ghost use Rattle.std.specs.Prelude.{◌≡◌, ◌+◌, ℕ, ◌-◌, ◌≤◌, true, false, slice_get, All, List, IfOk, IfSome, IfNone};
ghost use Rattle.std.specs.Prelude.{IsSome, IsSomeAnd, MatchBool, IsTrue, ◌↔◌};
ghost use Rattle.mrp_master_data.specs.Table.{IsPair};
ghost use Rattle.mrp_qty.specs.declared.limits.TheConstants.{MOST_ROOM};

use crate::acting::act_on;
use crate::counting::steps;
use crate::driving::drive_on;
use crate::figures::figures;
use crate::gathering::plans_by_plant;
use crate::looking::{Place, first_place, look, place_after};
use crate::making::{new_boxes, new_plants};
use crate::{Agent, Mailbox, Plant};
use mrp_book::LaneFigure;
use mrp_loops::SizedNet;
use mrp_net::{Network, PairNo};
use mrp_netting::PairPlan;
use mrp_plan::Plan;
use mrp_protocol::Event;
use mrp_qty::Memory;
use std::alloc::Global;
use std::marker::Model;

/// The firm: all plants of a network, each with its agent, and the mailboxes between them.
pub type Firm<'a> = World<'a, Agent>;

/// All plants of a network with the mailboxes between them.
///
/// A world shows a state of the network's runs. It takes exactly the events that are enabled in it. No call
/// takes memory but those that are given an allocator (by construction; no clause says so).
#[derive(Drop)]
pub struct World<'a, P: Plant> {
    network: &'a Network,
    capacity: u64,
    plants: Vec<P>,
    boxes: Vec<Mailbox>,
    left: u64,
    near: Place,
}

impl<'a, P: Plant> Model for World<'a, P> {
    ghost use Rattle.std.specs.Prelude.{};
    ghost use Rattle.mrp_world.specs.World.{WorldState};
    ghost use Rattle.mrp_world.specs.Moves.{IsWorld};

    ghost Value = { WorldState P };

    ghost view = { λ w. record {
      network = w.network.now;
      capacity = w.capacity;
      plants = w.plants.items;
      boxes = w.boxes.items;
      left = w.left;
    } };

    ghost invariant = { λ w. IsWorld P.shows (record {
      network = w.network.now;
      capacity = w.capacity;
      plants = w.plants.items;
      boxes = w.boxes.items;
      left = w.left;
    }) };
}

impl<'a, P: Plant> World<'a, P> {
    ghost use Rattle.mrp_net.specs.Plan.{plan_of, rows_at};
    ghost use Rattle.mrp_protocol.specs.declared.event.Event.{Event};
    ghost use Rattle.mrp_protocol.specs.Steps.{steps as network_steps};
    ghost use Rattle.mrp_protocol.specs.Progress.{steps_left};
    ghost use Rattle.mrp_protocol.specs.State.{State, Step, IsEnabled, IsFinished, opening_state};
    ghost use Rattle.mrp_net.specs.Sums.{pair_at};
    ghost use Rattle.mrp_world.specs.Enabled.{CountsEnabled};
    ghost use Rattle.mrp_world.specs.Figures.{figures_in, last_figures};
    ghost use Rattle.mrp_book.specs.LaneFigures.{IsLaneFigure};
    ghost use Rattle.mrp_world.specs.Moves.{Runs, WorldShows};

    /// A world before the first event.
    ///
    /// A mailbox may hold `capacity` records, 1 to [`MOST_ROOM`], and has room for as many, or for the
    /// longest text that its lane can have where that is less. The network is planned once, to count its
    /// steps; that plan isn't kept.
    ///
    /// # Errors
    ///
    /// [`Memory`] where a growth is refused.
    pub fn new(alloc: Global, net: &SizedNet<'a>, capacity: u64) -> Result<World<'a, P>, Memory>
        requires capacity { (1 ≤ capacity) × (capacity ≤ MOST_ROOM) }
        ensures network { IfOk result (λ world. world.network ≡ net.now.network) }
        ensures capacity { IfOk result (λ world. world.capacity ≡ capacity) }
        ensures opens { IfOk result (λ world. WorldShows P.shows world opening_state) }
        ensures steps { IfOk result (λ world. world.left ≡ network_steps net.now.network) }
    {
        let network = net.network();
        let left = steps(alloc, net)?;
        let plants = new_plants(alloc, net)?;
        let boxes = new_boxes(alloc, net, capacity)?;
        Ok(World {
            network,
            capacity,
            plants,
            boxes,
            left,
            near: first_place(),
        })
    }

    /// A world after the last event: as [`World::new`] makes it and [`World::drive`] drives it, but that its
    /// steps aren't counted first, so that no pair is planned but by its plant.
    ///
    /// A mailbox may hold `capacity` records, 1 to [`MOST_ROOM`].
    ///
    /// # Errors
    ///
    /// [`Memory`] where a growth is refused; then no event has happened.
    pub fn driven(alloc: Global, net: &SizedNet<'a>, capacity: u64) -> Result<World<'a, P>, Memory>
        requires capacity { (1 ≤ capacity) × (capacity ≤ MOST_ROOM) }
        ensures network { IfOk result (λ world. world.network ≡ net.now.network) }
        ensures capacity { IfOk result (λ world. world.capacity ≡ capacity) }
        ensures shows { IfOk result (λ world. (s : State) × WorldShows P.shows world s) }
        ensures finished { IfOk result (λ world. (s : State) → WorldShows P.shows world s
            → IsFinished world.network s) }
        ensures left { IfOk result (λ world. world.left ≡ 0) }
    {
        let network = net.network();
        let mut plants = new_plants(alloc, net)?;
        let mut boxes = new_boxes(alloc, net, capacity)?;
        drive_on(network, &mut plants, &mut boxes);
        Ok(World {
            network,
            capacity,
            plants,
            boxes,
            left: 0,
            near: first_place(),
        })
    }

    /// Lets an event happen, and answers whether it was enabled. Where it wasn't, nothing has changed.
    pub fn apply(&mut self, event: Event) -> bool
        ensures leads { result ≡ true → (s : State) → WorldShows P.shows self.old s
            → (t : State) × Step self.old.network self.old.capacity s event t × WorldShows P.shows self.new t }
        ensures nowhere { result ≡ false → (s : State) → WorldShows P.shows self.old s
            → ¬ IsEnabled self.old.network self.old.capacity s event }
        ensures unchanged { result ≡ false → self.new ≡ self.old }
        ensures network { self.new.network ≡ self.old.network }
        ensures capacity { self.new.capacity ≡ self.old.capacity }
        ensures step { result ≡ true → self.new.left + 1 ≡ self.old.left }
    {
        if !act_on(self.network, &mut self.plants, &mut self.boxes, event) {
            return false;
        }
        self.left -= 1;
        self.near = place_after(self.network, event, self.near);
        true
    }

    /// An event that is enabled, or `None` where the world is finished.
    ///
    /// It is looked for from where the last event happened, so that a run looks at a few lanes for each
    /// event, and at all of them only where nothing more moves (by construction; no clause says so).
    pub fn enabled(&self) -> Option<Event>
        ensures some { IfSome result (λ event. (s : State) → WorldShows P.shows self.now s
            → IsEnabled self.now.network self.now.capacity s event) }
        ensures none { IfNone result ((s : State) → WorldShows P.shows self.now s → IsFinished self.now.network s) }
        ensures left { IfNone result (self.now.left ≡ 0) }
    {
        look(
            self.network,
            self.plants.as_slice(),
            self.boxes.as_slice(),
            self.near,
        )
    }

    /// How many steps are left until each closing record is booked and each pair is planned.
    pub fn steps_left(&self) -> u64
        ensures shows { (s : State) × WorldShows P.shows self.now s }
        ensures value { result ≡ self.now.left }
        ensures counted { (s : State) → WorldShows P.shows self.now s → result ≡ steps_left self.now.network s }
    {
        self.left
    }

    /// Whether the closing record of each lane is booked and each pair planned.
    pub fn finished(&self) -> bool
        ensures finished { (s : State) → WorldShows P.shows self.now s
            → MatchBool result (IsFinished self.now.network s) (¬ IsFinished self.now.network s) }
        ensures left { IsTrue result ↔ (self.now.left ≡ 0) }
    {
        self.left == 0
    }

    /// The plan that the plant of a pair keeps, once the pair is planned: that of the one plan of the whole
    /// network. In a finished world each pair has one.
    pub fn planned(&self, x: PairNo) -> Option<&PairPlan>
        requires pair { IsPair self.now.network x.0 }
        ensures kept { IfSome result (λ plan. IsSomeAnd
            (slice_get self.now.plants (pair_at self.now.network x.0).plant.0)
            (λ plant. plan.now ≡ P.kept plant x.0)) }
        ensures planned { IfSome result (λ plan. (s : State) → WorldShows P.shows self.now s → s.planned x.0 ≡ true) }
        ensures plan { IfSome result (λ plan. plan.now ≡ rows_at (plan_of self.now.network) x.0) }
        ensures none { IfNone result ((s : State) → WorldShows P.shows self.now s → s.planned x.0 ≡ false) }
        ensures finished { self.now.left ≡ 0 → IsSome result }
    {
        let plant = self.network.pair(x).plant;
        self.plants[plant.0].planned(x)
    }

    /// The cumulative figures of each item of each lane, by lane, then lane item: where they begin, what has
    /// been shipped, and what has been received, closed years added. Those of a finished world are what the
    /// rows alone say.
    ///
    /// # Errors
    ///
    /// [`Memory`] where a growth is refused.
    pub fn figures(&self, alloc: Global) -> Result<Vec<LaneFigure>, Memory>
        ensures figures { IfOk result (λ figures. (s : State) → WorldShows P.shows self.now s
            → figures.items ≡ figures_in self.now.network s) }
        ensures lanes { IfOk result (λ figures. All (IsLaneFigure self.now.network) figures.items) }
        ensures last { IfOk result (λ figures. self.now.left ≡ 0 → figures.items ≡ last_figures self.now.network) }
    {
        figures(
            alloc,
            self.network,
            self.plants.as_slice(),
            self.boxes.as_slice(),
        )
    }

    /// The plan of the whole network. A finished world is taken apart for it: the plans of its plants are
    /// moved, not copied (by construction; no clause says so). `net` is the network that the world was made of.
    ///
    /// # Errors
    ///
    /// [`Memory`] where room for the list of the plans is refused; the world is gone then.
    pub fn into_plan(self, alloc: Global, net: &SizedNet) -> Result<Plan, Memory>
        requires network { net.now.network ≡ self.network }
        requires finished { self.left ≡ 0 }
        ensures { IfOk result (λ plan. plan ≡ plan_of net.now.network) }
    {
        let World {
            network,
            plants,
            ..
        } = self;
        let lists = plans_by_plant(alloc, network, plants)?;
        let pairs = mrp_agent::gather(alloc, network, lists)?;
        Ok(Plan::gather(net, pairs))
    }

    /// Lets the events happen one by one, and answers how many were enabled, each in its turn.
    pub fn run(&mut self, events: &[Event]) -> u64
        ensures runs { Runs P.shows self.old events.now self.new }
        ensures enabled { (s : State) → WorldShows P.shows self.old s
            → (t : State) × CountsEnabled self.old.network self.old.capacity s events.now result t
            × WorldShows P.shows self.new t }
        ensures count { result + self.new.left ≡ self.old.left }
    {
        let before = self.steps_left();
        for event in events {
            let _enabled = self.apply(*event);
        }
        before - self.steps_left()
    }

    /// Lets enabled events happen until the world is finished.
    pub fn drive(&mut self)
        ensures runs { (events : List Event) × Runs P.shows self.old events self.new }
        ensures finished { (t : State) → WorldShows P.shows self.new t → IsFinished self.new.network t }
        ensures left { self.new.left ≡ 0 }
    {
        drive_on(self.network, &mut self.plants, &mut self.boxes);
        self.left = 0;
    }
}
