//! The view of one plant: laws of what it says. Each is the contract of a function that does nothing.

ghost use Rattle.mrp_plant_view.specs.Laws.{ViewsSayEnough, ViewsHaveLanesIn, ViewsHaveLanesOut, ViewsHaveParents};
ghost use Rattle.mrp_plant_view.specs.Laws.{ViewsHaveBills};

/// What a plant sees of an accepted table says all that it needs to know to plan alone: no pair, item
/// or lane stands twice, edges, usage rows, lanes and calls name its own pairs and no other, parameters, policies, usages,
/// shares, shipments and shipped figures are in range, and before each schedule lane that it sends it receives the
/// despatch lane of the same two plants.
pub fn views_say_enough()
    ensures { ViewsSayEnough }
{}

/// A plant sees the lanes that it receives and those that it sends, in lane order, and no other.
pub fn views_have_their_lanes()
    ensures incoming { ViewsHaveLanesIn }
    ensures outgoing { ViewsHaveLanesOut }
{}

/// The edges that a plant sees are those of its components: to each of its pairs they are the pair's
/// own, and they ask of it what the component rows ask.
pub fn views_have_their_edges()
    ensures parents { ViewsHaveParents }
    ensures bills { ViewsHaveBills }
{}
