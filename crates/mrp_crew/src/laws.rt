//! A crew of workers: laws of planning by it. Each is the contract of a function that does nothing.

ghost use Rattle.mrp_crew.specs.Laws.{PlanningKeepsAtWork};

/// Where an agent of a plant of a network, to which legal beginnings have come, has planned some pairs and
/// done nothing else, it is still one, with these pairs planned.
pub fn planning_keeps_agents_at_work()
    ensures { PlanningKeepsAtWork }
{}
