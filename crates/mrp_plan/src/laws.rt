//! The plan of the whole network: laws of pegging and of orders in it, each the contract
//! of a function that does nothing.

ghost use Rattle.mrp_plan.specs.OrderLaws.{OrdersMakeReleases, PlannedOrdersMakeReleases};
ghost use Rattle.mrp_plan.specs.OrderLaws.{LateOrdersAreOrders, LateOrdersAreListed, LateOrdersArePlanned};
ghost use Rattle.mrp_plan.specs.OrderLaws.{FirmOrdersAreListed, PlannedOrdersAreListed, NoFirmOrders};
ghost use Rattle.mrp_plan.specs.PegLaws.{TermsAddUp, TermsAreProducts, TermsHaveRows, WholeTermsAreProducts};

/// In a plan that fits the terms of a pair in a period add up to its gross requirement there, in
/// pieces. Each is so many pieces for so many that are released, rounded up once, for the whole release, and never 0.
pub fn terms_add_up()
    ensures sum { TermsAddUp }
    ensures product { TermsAreProducts }
    ensures whole { WholeTermsAreProducts }
{}

/// Each term is what the rows of its source ask: the demand rows of the pair, a row of a bill for the
/// parent's whole release by the usage in force in the period, or a source for its share of the release of the pair that
/// takes from it.
pub fn terms_have_rows()
    ensures { TermsHaveRows }
{}

/// In a plan that fits the orders of a pair that are released in a period, firm and planned, add up to its
/// release there. Those to which periods are missing are its late orders, in their order; each of them is
/// a planned order.
pub fn orders_make_releases()
    ensures releases { OrdersMakeReleases }
    ensures planned { PlannedOrdersMakeReleases }
    ensures late { LateOrdersAreOrders }
    ensures listed { LateOrdersAreListed }
{}

/// Each firm planned order and each planned order of a pair is listed once. A pair without firm planned orders has its
/// planned orders alone, and the listed orders that are late are the late planned orders.
pub fn orders_are_listed()
    ensures firm { FirmOrdersAreListed }
    ensures planned { PlannedOrdersAreListed }
    ensures late { LateOrdersArePlanned }
    ensures none_firm { NoFirmOrders }
{}
