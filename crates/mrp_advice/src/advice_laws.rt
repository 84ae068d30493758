//! Advice: laws of open orders, of when they are needed, and of the report of their exception messages. Each is the
//! contract of a function that does nothing.

ghost use Rattle.mrp_advice.specs.AdviceLaws.{AdviceIsReadBack, AllAreAdvised, CancelledOrdersChangeNothing};
ghost use Rattle.mrp_advice.specs.AdviceLaws.{CountedSoonerIsExpedited, ExpeditedIsCountedSooner};
ghost use Rattle.mrp_advice.specs.AdviceLaws.{HorizonDropsNone, NeededIsCountedSooner, NeedsRise, NoneComesLater};
ghost use Rattle.mrp_advice.specs.AdviceLaws.{OrdersAreAllPlanned, OrdersAreKept, OrdersAreOfPlan, OrdersArePlanned};
ghost use Rattle.mrp_advice.specs.AdviceLaws.{OrdersComeIn, OthersAreKept, OthersAreNeeded, PlainNeedsRise};
ghost use Rattle.mrp_advice.specs.AdviceLaws.{PlainOrdersSuffice, PlainPairsAreAdvised, ReceiptsAreNeeded};
ghost use Rattle.mrp_advice.specs.AdviceLaws.{TimelyOrdersSuffice};
ghost use Rattle.mrp_advice.specs.WorkedOrders.{CoveredAheadAreNeeded, CoveredSoonerAreNeeded, FourAreNeeded};
ghost use Rattle.mrp_advice.specs.WorkedOrders.{FourAreNeededByBalance, OthersAreNeededBehindReceipts};
ghost use Rattle.mrp_advice.specs.WorkedOrders.{ReceiptsAreNeededBehindOthers, SixtyAreExpedited};

/// If each open order of a pair came in the period in which it is needed, and one that is needed in none never,
/// then without any planned order what is on hand and has come would be as much as safety stock and gross requirements
/// ask, those of the periods of cover among them, in each period before one in which an order is needed. So where there
/// are no periods of cover, the projected available balance would be at safety stock or above.
pub fn timely_orders_suffice()
    ensures orders { TimelyOrdersSuffice }
    ensures plain { PlainOrdersSuffice }
{}

/// What is needed never moves back from one open order to the next of its sort, which are receipts that may be counted
/// sooner than they come, and the others: by the period in which one is needed, all before it are needed too. Where
/// receipts count when they come, all open orders are of one sort.
pub fn needs_rise()
    ensures sorts { NeedsRise }
    ensures plain { PlainNeedsRise }
{}

/// A receipt of which the plan counts a piece before the period in which it comes is to be expedited, and no other one is
/// of a pair whose receipts may be counted sooner.
pub fn receipts_counted_sooner_are_expedited()
    ensures counted { CountedSoonerIsExpedited }
    ensures expedited { ExpeditedIsCountedSooner }
{}

/// Of a receipt that may be counted sooner than it comes the plan counts a piece by a period before that exactly if the
/// receipt is needed by the period and comes within SOONER periods of it. So within these none is needed sooner than the
/// plan counts it.
pub fn needed_receipts_are_counted_sooner()
    ensures { NeededIsCountedSooner }
{}

/// An open order is needed by a period exactly if a period up to that one needs it in the words of the laws of
/// `mrp_netting`, by which the plan counts needed receipts and orders the same without needless orders.
pub fn open_orders_are_needed_by_the_plan()
    ensures receipts { ReceiptsAreNeeded }
    ensures others { OthersAreNeeded }
{}

/// Without the open orders that are to be cancelled a pair's planned orders are the same, by the same gross
/// requirements. Those of its components may change, since a cancelled firm planned order takes none.
pub fn cancelled_orders_change_nothing()
    ensures { CancelledOrdersChangeNothing }
{}

/// Where receipts count when they come and there are no periods of cover, as without a policy, an open order is needed
/// in the first period in which what is on hand and the open orders before it leave the projected available balance
/// below safety stock.
pub fn plain_pairs_are_advised_by_balance()
    ensures { PlainPairsAreAdvised }
{}

/// Open orders of pairs that were worked by hand are needed when they were found to be.
pub fn worked_orders_are_needed()
    ensures expedited { SixtyAreExpedited }
    ensures sooner { FourAreNeeded }
    ensures when_due { FourAreNeededByBalance }
    ensures cover { CoveredAheadAreNeeded }
    ensures cover_sooner { CoveredSoonerAreNeeded }
    ensures behind_others { ReceiptsAreNeededBehindOthers }
    ensures behind_receipts { OthersAreNeededBehindReceipts }
{}

/// The open orders of all pairs are the receipts, the shipments and the firm planned orders of the table, each once.
/// Those of a pair in a period add up to what comes in for it there, and each sort to what the pair is planned from.
/// Where receipts count when they come, that is the plan's incoming of the period; elsewhere it is over all periods.
pub fn open_orders_come_in()
    ensures kept { OrdersAreKept }
    ensures sums { OrdersComeIn }
    ensures sorts { OrdersAreOfPlan }
    ensures plan { OrdersArePlanned }
    ensures all_planned { OrdersAreAllPlanned }
{}

/// A last period leaves out the messages for open orders that come after it, and no others: without one the report has
/// all messages of a pair; with one it has none for a later order, and with those that are left out it has all, each
/// once. The last period of the horizon leaves nothing out.
pub fn later_messages_are_dropped()
    ensures all { AllAreAdvised }
    ensures none { NoneComesLater }
    ensures kept { OthersAreKept }
    ensures horizon { HorizonDropsNone }
{}

/// What csv reads by its defaults of the report of an accepted table is exactly the fields that its rows are made
/// of, with the names of the columns first, where they are asked for, and none of them needs quotes.
pub fn advice_is_read_back()
    ensures { AdviceIsReadBack }
{}
