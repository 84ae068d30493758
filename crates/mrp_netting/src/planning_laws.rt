//! Netting one pair: laws of its plan from one record of planning data. Each is the contract
//! of a function that does nothing.

ghost use Rattle.mrp_netting.specs.PlanningLaws.{PlainIsToday, PlainFollowsRules, ReceiptsAreCounted};
ghost use Rattle.mrp_netting.specs.PlanningLaws.{OrdersComeAfterReceipts, AvailableCoversAhead, StockIsKept};
ghost use Rattle.mrp_netting.specs.PlanningLaws.{StockIsKeptInAll, OrdersAreLeastMultiples, FenceHoldsReleases};
ghost use Rattle.mrp_netting.specs.PlanningLaws.{OrdersAreAllReleased, ReleasesStayBounded, AllRowsStayWithin};
ghost use Rattle.mrp_netting.specs.PlanningLaws.{AllComesIn, SumIsEnough};
ghost use Rattle.mrp_netting.specs.OpenOrders.{NeededReceiptsAreCounted, NeedlessOrdersChangeNothing};
ghost use Rattle.mrp_netting.specs.WorkedPairs.{FirmParentIsPlanned, FirmComponentIsPlanned, FencedIsPlanned};
ghost use Rattle.mrp_netting.specs.WorkedPairs.{CountedSoonerIsPlanned, CoveredAheadIsPlanned};

/// The plan of a pair without policy and firm planned orders, all of whose receipts count when they come, is the plan
/// from two rows; so the rows that follow the rules are that plan, and no others are.
pub fn plain_pairs_are_planned_from_two_rows()
    ensures same { PlainIsToday }
    ensures rules { PlainFollowsRules }
{}

/// Receipts are counted in the period in which they come or sooner, at most by SOONER periods, each once, and all of
/// them by the last period.
pub fn receipts_are_counted()
    ensures { ReceiptsAreCounted }
{}

/// Over all periods what comes in is the receipts, what arrives, and the firm planned orders.
pub fn all_comes_in()
    ensures { AllComesIn }
{}

/// Of the receipts that come within SOONER periods those are counted that are needed by then, and no others: the plan
/// counts a receipt sooner than it comes exactly if a period up to then would lack something without it.
pub fn needed_receipts_are_counted()
    ensures { NeededReceiptsAreCounted }
{}

/// Without receipts, arrivals and firm planned orders that no period needs the plan orders the same.
pub fn needless_orders_change_nothing()
    ensures { NeedlessOrdersChangeNothing }
{}

/// Nothing is ordered in a period by which a receipt could still be counted.
pub fn orders_come_after_receipts()
    ensures { OrdersComeAfterReceipts }
{}

/// Projected available is never below safety stock and the gross requirements of the periods of cover together.
pub fn available_covers_ahead()
    ensures { AvailableCoversAhead }
{}

/// On hand, all that comes in and all that is ordered up to a period are the gross requirements up to it and what is
/// then available: nothing is cut off at 0.
pub fn stock_is_kept()
    ensures each { StockIsKept }
    ensures all { StockIsKeptInAll }
{}

/// An order is the least multiple of the policy's multiple that is below neither the lot nor the policy's minimum; in
/// a period without a net requirement nothing is ordered.
pub fn orders_are_least_multiples()
    ensures { OrdersAreLeastMultiples }
{}

/// Of the periods from which an order would come inside the fence only firm planned orders are released.
pub fn fence_holds_releases()
    ensures { FenceHoldsReleases }
{}

/// Over all periods firm and planned orders are released, together at most safety stock, all gross requirements, the
/// quantities of rule and policy, and all firm planned orders.
pub fn planned_and_firm_orders_are_released()
    ensures all { OrdersAreAllReleased }
    ensures bounded { ReleasesStayBounded }
{}

/// No quantity of a plan is above 10^15 pieces, where the quantities that it is made of together aren't
/// (`IsWithinData`).
pub fn all_rows_stay_within()
    ensures { AllRowsStayWithin }
{}

/// Of pairs all of whose receipts count when they come, the plan depends on what comes in by period and on what is
/// firmly released alone: not on which of it are receipts, arrivals or firm planned orders.
pub fn sum_is_enough()
    ensures { SumIsEnough }
{}

/// The plans of five pairs that were planned by hand: a parent with a firm planned order and its component, a fence,
/// a receipt that counts sooner, and a period of cover.
pub fn worked_pairs_are_planned()
    ensures firm_parent { FirmParentIsPlanned }
    ensures firm_component { FirmComponentIsPlanned }
    ensures fenced { FencedIsPlanned }
    ensures counted_sooner { CountedSoonerIsPlanned }
    ensures covered_ahead { CoveredAheadIsPlanned }
{}
