//! The world: what every world says, whatever has happened in it. Each law is the contract
//! of a function that does nothing.
ghost use Rattle.mrp_protocol.specs.State.{State, IsFinished};
ghost use Rattle.mrp_world.specs.Figures.{FiguresAreOfLanes, FinishedFiguresAreLast};
ghost use Rattle.mrp_world.specs.Headline.{OrderIsKept, NothingIsLost, ClosedLanesAreWhole, PlansAreThePlan};
ghost use Rattle.mrp_world.specs.Headline.{IsComplete};
ghost use Rattle.mrp_world.specs.Moves.{WorldShows};
ghost use Rattle.mrp_world.specs.PlansLocal.{PlansAreLocal};
ghost use Rattle.mrp_world.specs.World.{Shows};

use crate::Plant;
use crate::world::World;

/// The headline. Every world, of a network without loops and within the bound, with any capacity and after any list
/// of events, shows some state of the network's runs. In each state that it shows
///
/// - the receiver of each lane has booked its sender's records in order, at most once, none after closing;
/// - cumulative shipped less cumulative received is the sum in the mailbox;
/// - a lane whose closing record is booked has brought its whole text, each line once;
/// - what a plant keeps as the plan of a planned pair are the pair's rows of the one plan of the whole network;
/// - where it is finished, every line of every lane was booked once, and every pair has its plan.
///
/// That a world which is made shows the opening state, and that each enabled event moves it, is said by its calls
/// ([`World::new`], [`World::apply`], [`World::run`], [`World::enabled`], [`World::drive`]).
pub fn headline<P: Plant>(world: &World<P>)
    ensures shows { (s : State) × Shows P.shows world.now s }
    ensures order { (s : State) → Shows P.shows world.now s → OrderIsKept world.now s }
    ensures figures { (s : State) → Shows P.shows world.now s → NothingIsLost world.now s }
    ensures closed { (s : State) → Shows P.shows world.now s → ClosedLanesAreWhole world.now s }
    ensures plans { (s : State) → Shows P.shows world.now s → PlansAreThePlan P.kept world.now s }
    ensures finished { (s : State) → Shows P.shows world.now s → IsFinished world.now.network s
        → IsComplete P.kept world.now s }
{
    let _left = world.steps_left();
}

/// Plans are made of what a plant has: in each state that a world shows, what a plant keeps as the plan of a planned
/// pair is what its own rows, the records that have come to it and the plans of the pair's parents give.
pub fn plans_are_local<P: Plant>(world: &World<P>)
    ensures { (s : State) → Shows P.shows world.now s → PlansAreLocal P.kept world.now s }
{
    let _left = world.steps_left();
}

/// The state that a world shows is the one that its calls speak of: its mailboxes have room for all that they may
/// ever hold, and the steps that are left are counted.
pub fn steps_are_counted<P: Plant>(world: &World<P>)
    ensures { (s : State) × WorldShows P.shows world.now s }
{
    let _left = world.steps_left();
}

/// In each state that events lead to, the figures are of the network's lanes and items, and no more is
/// received than shipped.
pub fn figures_are_of_lanes()
    ensures { FiguresAreOfLanes }
{}

/// Whatever has happened, a finished run ends with the same figures, which the rows alone say: for each item
/// of each lane its opening figure, and as shipped and as received that figure and all pieces that the lane
/// carries of it, those of closed years too.
pub fn finished_figures_are_last()
    ensures { FinishedFiguresAreLast }
{}
