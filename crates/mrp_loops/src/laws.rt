//! Loops, low-level codes, the needs of a sized network, and its plans within the bound: their laws. Each is the
//! contract of a function that does nothing.

ghost use Rattle.mrp_loops.specs.Laws.{CodesRise, CodedIsLoopFree, CodesExist, CodesAreOne, WalkedLoopIsOne};
ghost use Rattle.mrp_loops.specs.Laws.{SetsHaveAFirst, DemandersDecide};
ghost use Rattle.mrp_loops.specs.Laws.{NeedsExist, NeedsAreOne, CodeOrderPlans, PlanningOrdersExist, SizedHasCodes};
ghost use Rattle.mrp_loops.specs.Laws.{SizedHasNeeds, OnePlan};
ghost use Rattle.mrp_loops.specs.Within.{ReleasesAreWithinNeed, GrossIsWithinNeed, SupplyAndReleasesAreWithin};
ghost use Rattle.mrp_loops.specs.Within.{FiguresAreWithin, PlansAreWithin, DataAreWithin};
ghost use Rattle.mrp_loops.specs.Within.{QuantitiesAreWithin, PlanIsWithin, LaneFiguresAreWithin};

/// Low-level codes rise along edges: a pair's code is above that of each of its demanders. So a
/// network with codes has no loop. A network without loops has codes, and none has two lists of them.
pub fn codes_rise()
    ensures rise { CodesRise }
    ensures free { CodedIsLoopFree }
    ensures exist { CodesExist }
    ensures one { CodesAreOne }
{}

/// A network has at most one loop that [`check`](crate::check) may answer: that of the walk upstream.
pub fn walked_loop_is_one()
    ensures { WalkedLoopIsOne }
{}

/// In each set of pairs of a network without loops that isn't empty there is a pair without a
/// demander in the set. The set is given as a test.
pub fn sets_have_a_first()
    ensures { SetsHaveAFirst }
{}

/// What holds of a pair wherever it holds of all its demanders holds of each pair of a network
/// without loops.
pub fn demanders_decide()
    ensures { DemandersDecide }
{}

/// A network with codes has needs, and a network without loops has at most one list of them.
pub fn needs_are_one()
    ensures exist { NeedsExist }
    ensures one { NeedsAreOne }
{}

/// The pairs by rising code, and within a code in table order, are an order in which each pair comes
/// after its demanders. So a network without loops has such an order.
pub fn demanders_come_first()
    ensures codes { CodeOrderPlans }
    ensures exist { PlanningOrdersExist }
{}

/// A sized network has codes and needs, and one list of each. The needs are those within the bound.
pub fn sized_has_codes_and_needs()
    ensures codes { SizedHasCodes }
    ensures needs { SizedHasNeeds }
{}

/// The plan of a network without loops obeys the rules at every pair, and is the only table of plans
/// that does.
pub fn one_plan()
    ensures { OnePlan }
{}

/// In a table of plans that fits a sized network the releases of a pair, firm and planned, and its gross
/// requirements with safety stock, the quantities of rule and policy and firm planned orders, are over all
/// periods at most its need. So supply and releases together are at most 10^15 pieces, and so is each cumulative
/// figure: opening figure, shipments and releases.
pub fn releases_within_need()
    ensures releases { ReleasesAreWithinNeed }
    ensures gross { GrossIsWithinNeed }
    ensures supply { SupplyAndReleasesAreWithin }
    ensures figures { FiguresAreWithin }
{}

/// On hand, what comes in, gross requirements, safety stock and the rule's quantities of a pair are
/// then together at most 10^15 pieces, and what it is planned from, its policy's quantities too, is within
/// the bound. So no row of it has a quantity or a balance above.
pub fn quantities_within()
    ensures together { PlansAreWithin }
    ensures given { DataAreWithin }
    ensures each { QuantitiesAreWithin }
{}

/// The plan of a sized network is within the bound: on hand, what comes in, gross requirements, safety
/// stock and the rule's quantities of each pair are together at most 10^15 pieces, what it is planned from
/// is within the bound, its releases are within its need, and no row has a quantity or a balance above
/// 10^15.
pub fn plan_within()
    ensures { PlanIsWithin }
{}

/// Over a lane the figure with which an item begins and all parts of the plan's releases of it are
/// together at most 10^15 pieces: so is each cumulative figure of the lane, in every period.
pub fn lane_figures_within()
    ensures { LaneFiguresAreWithin }
{}
