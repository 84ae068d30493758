//! The run by threads: laws of what it comes to. Each is the contract of a function that does nothing.

ghost use Rattle.mrp_run.specs.Laws.{SettledLanesAreCounted};
ghost use Rattle.mrp_run.specs.Moments.{MomentsAreReached};

/// Of a lane that carried its whole text as many records were sent as its texts have, and as many were taken.
/// Of each item as much was shipped as was received, by a text of the lane.
pub fn settled_lanes_are_counted()
    ensures { SettledLanesAreCounted }
{}

/// Wherever each plant of a network is at work and the two ends of each lane are in order, within a capacity, some
/// events lead from the opening state to a state with exactly the lists of all ends and the pairs that the agents have
/// planned. A moment lies between the steps of a plant; that all threads are at such moments at once is said nowhere.
pub fn moments_are_reached()
    ensures { MomentsAreReached }
{}
