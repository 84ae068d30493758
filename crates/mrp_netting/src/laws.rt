//! Netting one pair: laws of its plan. Each is the contract of a function that does nothing.

ghost use Rattle.mrp_netting.specs.Rules.{LotForLotOrdersTheNeed, PeriodsIsGreatest};
ghost use Rattle.mrp_netting.specs.Rules.{NothingIsOrderedWithoutANeed, OrderCoversTheNeed};
ghost use Rattle.mrp_netting.specs.Rules.{AvailableCoversSafety, OrdersAreReleased, ReleasesAreBounded};
ghost use Rattle.mrp_netting.specs.Rules.{RowsStayWithin, PlanFollowsRules, RulesHaveOnePlan};

/// Lot for lot orders in each period just what the period asks beyond the balance and the receipts.
pub fn lot_for_lot_orders_the_need()
    ensures { LotForLotOrdersTheNeed }
{}

/// Periods of supply order the greatest need over 1 to so many periods, no further than the horizon:
/// none of those needs is above the order, and one of them is the order.
pub fn periods_is_greatest()
    ensures { PeriodsIsGreatest }
{}

/// Whatever the rule, nothing is ordered in a period without a net requirement.
pub fn nothing_is_ordered_without_a_need()
    ensures { NothingIsOrderedWithoutANeed }
{}

/// Whatever the rule, the order of a period covers its net requirement.
pub fn orders_cover_the_need()
    ensures { OrderCoversTheNeed }
{}

/// The projected available of a plan is never below safety stock, in pieces, where the quantities
/// that it is made of together are at most 10^15 (`IsWithin`).
///
/// With a safety stock of 0 this says nothing. That nothing is cut off at 0 is said by
/// [`rules_have_one_plan`]: what was there, comes in and is ordered is what is required or stays.
pub fn available_covers_safety()
    ensures { AvailableCoversSafety }
{}

/// Over all periods a plan releases what it orders.
pub fn orders_are_released()
    ensures { OrdersAreReleased }
{}

/// All releases of a plan together are at most safety stock, the rule's quantities and all gross
/// requirements, where the quantities that it is made of together are at most 10^15 (`IsWithin`).
pub fn releases_are_bounded()
    ensures { ReleasesAreBounded }
{}

/// No order, release or projected available of a plan is above 10^15 pieces, where the quantities
/// that it is made of together aren't (`IsWithin`).
pub fn rows_stay_within()
    ensures { RowsStayWithin }
{}

/// The plan follows the rules period by period, and rows that follow them are the plan, where the
/// quantities that it is made of together are at most 10^15 (`IsWithin`).
pub fn rules_have_one_plan()
    ensures follows { PlanFollowsRules }
    ensures only { RulesHaveOnePlan }
{}
