//! Reach: its laws, until which period a plan is whole; each the contract of a function that does nothing.

ghost use Rattle.mrp_reach.specs.ReachLaws.{DatesStay, WholeStays, WholesAreOne, WholesAreWithin, WholesExist, WholesGrow};

/// What is whole stays so: two tables of which the later one goes on where the other one ends, with any demands, orders
/// and firm planned orders behind its horizon, have the same gross requirements, incoming, orders, balances and releases
/// as far as the earlier one's are whole. The periods of the earlier one begin on the same days.
pub fn whole_periods_stay()
    ensures plan { WholeStays }
    ensures dates { DatesStay }
{}

/// A network without loops has one list of whole periods, none of them beyond the horizon.
pub fn whole_periods_are_one()
    ensures some { WholesExist }
    ensures one { WholesAreOne }
    ensures within { WholesAreWithin }
{}

/// And of a table that goes on as many periods are whole, or more.
pub fn whole_periods_grow()
    ensures { WholesGrow }
{}
