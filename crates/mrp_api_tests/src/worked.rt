//! Tests of the library: tables that were worked by hand, computed by the definitions alone. Each law is the contract
//! of a function that does nothing.

ghost use Rattle.mrp_api_tests.specs.FirmOrders.{FirmAndPlannedIsOrdered, FirmAndPlannedIsPlanned};
ghost use Rattle.mrp_api_tests.specs.FirmOrders.{FirmAndPlannedIsWritten, FirmCallIsScheduled};
ghost use Rattle.mrp_api_tests.specs.Frames.{FramesAreAdvised, FramesAreAdvisedWithin, FramesAreWhole};
ghost use Rattle.mrp_api_tests.specs.Frames.{FramesAreCut, FramesAreUncut, FramesAreWritten};
ghost use Rattle.mrp_api_tests.specs.Frames.{FramesNeedNoEnd, FramesReach};
ghost use Rattle.mrp_api_tests.specs.Policies.{ByPolicyIsAdvised, ByPolicyIsOrdered};
ghost use Rattle.mrp_api_tests.specs.Policies.{ByPolicyIsPlanned, ByPolicyIsWritten};
ghost use Rattle.mrp_api_tests.specs.Pumps.{PumpsArePlanned, PumpsAreWritten};
ghost use Rattle.mrp_api_tests.specs.PumpsReports.{PumpsAreAdvised, PumpsAreCounted, PumpsAreOrdered, PumpsAreScheduled};
ghost use Rattle.mrp_api_tests.specs.ShortParts.{PhantomIsWritten, PhantomLacks};
ghost use Rattle.mrp_api_tests.specs.ShortParts.{TwoDemandersAreWritten, TwoDemandersLack};
ghost use Rattle.mrp_api_tests.specs.Usages.{ByUsageIsPegged, ByUsageIsPlanned, ByUsageIsWritten};
ghost use Rattle.mrp_api_tests.specs.Usages.{ScrappedThriceIsPlanned, ScrappedThriceIsWritten};
ghost use Rattle.mrp_api_tests.specs.Vendors.{ByVendorIsPlanned, ByVendorIsScheduled, ByVendorIsWritten};
ghost use Rattle.mrp_api_tests.specs.Vendors.{CustomerIsAskedFor, OverNewYearIsPlanned, OverNewYearIsWritten};
ghost use Rattle.mrp_api_tests.specs.Vendors.{TwoVendorsAreScheduled, TwoVendorsAreWritten, VendorIsAskedFor};
ghost use Rattle.mrp_api_tests.specs.Vendors.{WorkingDaysAreOrdered, WorkingDaysArePlanned};
ghost use Rattle.mrp_api_tests.specs.Vendors.{WorkingDaysAreScheduled, WorkingDaysAreWritten};
ghost use Rattle.mrp_api_tests.specs.Worked.{BicycleIsPlanned, BicycleIsWritten, FirmOfTwoIsPlanned, FirmOfTwoIsWritten};

/// The rows that are written of the bicycle, field by field.
pub fn bicycle_is_written()
    ensures { BicycleIsWritten }
{}

/// The plan report of the bicycle, to the byte: ten bicycles in period 3, started in period 2, and their twenty
/// wheels ordered in period 1.
pub fn bicycle_is_planned()
    ensures { BicycleIsPlanned }
{}

/// The rows that are written of two plants, one of which takes an item from the other, field by field.
pub fn firm_of_two_is_written()
    ensures { FirmOfTwoIsWritten }
{}

/// Their plan report, to the byte: of 30 pieces 8 are on their way, and the other 22 are asked of the supplier
/// where the customer releases its order.
pub fn firm_of_two_is_planned()
    ensures { FirmOfTwoIsPlanned }
{}

/// The rows that are written of a firm with each lot rule, safety stocks, receipts, shipments, shares of two sources,
/// cumulative figures and resets, field by field.
pub fn pumps_are_written()
    ensures { PumpsAreWritten }
{}

/// Its plan report, to the byte, with its late orders: worked by hand pair by pair (`examples/pumps.md`).
pub fn pumps_are_planned()
    ensures { PumpsArePlanned }
{}

/// Their orders, to the byte, with where each comes from and what is late.
pub fn pumps_are_ordered()
    ensures { PumpsAreOrdered }
{}

/// Their delivery schedules, to the byte: what is in transit, each call with its cumulative figure, and the resets.
pub fn pumps_are_scheduled()
    ensures { PumpsAreScheduled }
{}

/// Which of their open orders to expedite, to defer and to cancel, to the byte.
pub fn pumps_are_advised()
    ensures { PumpsAreAdvised }
{}

/// Their cumulative figures, to the byte, with which every run between the plants ends.
pub fn pumps_are_counted()
    ensures { PumpsAreCounted }
{}

/// The rows that are written of a plant with a firm planned order, field by field.
pub fn firm_and_planned_is_written()
    ensures { FirmAndPlannedIsWritten }
{}

/// Its plan report, to the byte: the firm order comes in where it is due, the rest of what is wanted is ordered beside
/// it, and it takes its components in the period of its release.
pub fn firm_and_planned_is_planned()
    ensures { FirmAndPlannedIsPlanned }
{}

/// Its orders, to the byte: the firm one before the planned one of the same period.
pub fn firm_and_planned_is_ordered()
    ensures { FirmAndPlannedIsOrdered }
{}

/// The delivery schedule of a plant whose customer has a firm planned order, to the byte: it is a call like others, and
/// the cumulative figures have it.
pub fn firm_call_is_scheduled()
    ensures { FirmCallIsScheduled }
{}

/// The rows that are written of a plant with policies, field by field.
pub fn by_policy_is_written()
    ensures { ByPolicyIsWritten }
{}

/// Its plan report, to the byte: a planned order that waits for the fence, an open order that counts two periods
/// sooner, and requirements that are in stock a period ahead.
pub fn by_policy_is_planned()
    ensures { ByPolicyIsPlanned }
{}

/// Its orders, to the byte: the late one is released with the next, a lead time before the fence.
pub fn by_policy_is_ordered()
    ensures { ByPolicyIsOrdered }
{}

/// Its messages, to the byte: the open order that counts sooner than it comes is to be expedited.
pub fn by_policy_is_advised()
    ensures { ByPolicyIsAdvised }
{}

/// The rows that are written of a plant with a phantom, and with a pair inside its fence, field by field.
pub fn phantom_is_written()
    ensures { PhantomIsWritten }
{}

/// What lacks parts there, to the byte: the phantom's own orders of period 0 are there, firm and planned, those of the
/// other pair aren't, and what the two need of their component is short in table order.
pub fn phantom_is_short_of_parts()
    ensures { PhantomLacks }
{}

/// The rows that are written of two plants, one of which takes an item from the other, that also goes into a bill there,
/// field by field.
pub fn two_demanders_are_written()
    ensures { TwoDemandersAreWritten }
{}

/// What lacks parts there, to the byte: safety stock, and what comes in period 0 by its rows, is taken by demand, by the
/// other plant and then by the bill, and at the other plant a shipment by demand.
pub fn two_demanders_are_short_of_parts()
    ensures { TwoDemandersLack }
{}

/// The rows that are written of a plant with usages, field by field.
pub fn by_usage_is_written()
    ensures { ByUsageIsWritten }
{}

/// Its plan report, to the byte: scrap and fractions rounded up period by period, an old component that runs out as a new
/// one comes, and one that isn't used for a period.
pub fn by_usage_is_planned()
    ensures { ByUsageIsPlanned }
{}

/// Its pegging, to the byte: the pieces for so many parents as they are in force, and no row where none are used.
pub fn by_usage_is_pegged()
    ensures { ByUsageIsPegged }
{}

/// The rows that are written of a plant with scrap at each of three levels, field by field.
pub fn scrapped_thrice_is_written()
    ensures { ScrappedThriceIsWritten }
{}

/// Its plan report, to the byte: each level asks for 3% more, rounded up.
pub fn scrapped_thrice_is_planned()
    ensures { ScrappedThriceIsPlanned }
{}

/// The rows that are written of a plant to which a vendor delivers, field by field.
pub fn by_vendor_is_written()
    ensures { ByVendorIsWritten }
{}

/// Its plan report, to the byte: a firm order, and a lot that waits for the fence and is a period late.
pub fn by_vendor_is_planned()
    ensures { ByVendorIsPlanned }
{}

/// Its vendor's schedule, to the byte: what is in transit, firm and planned orders as calls, and the figures of the calls
/// that are counted from the reset on.
pub fn by_vendor_is_scheduled()
    ensures { ByVendorIsScheduled }
{}

/// The rows that are written of two plants, one of which takes an item from the other, and of a vendor of each, field by
/// field.
pub fn two_vendors_are_written()
    ensures { TwoVendorsAreWritten }
{}

/// Their schedules, to the byte: those of lanes before those of vendors, and these in the order of their rows.
pub fn two_vendors_are_scheduled()
    ensures { TwoVendorsAreScheduled }
{}

/// The schedules of one vendor, to the byte.
pub fn vendor_is_asked_for()
    ensures { VendorIsAskedFor }
{}

/// What one plant is delivered, to the byte: the plant that it takes from, and then its vendor.
pub fn customer_is_asked_for()
    ensures { CustomerIsAskedFor }
{}

/// The rows that are written of weeks of which the second begins in the new year, field by field.
pub fn over_new_year_is_written()
    ensures { OverNewYearIsWritten }
{}

/// Their plan report, to the byte: the dates after the first day that is given follow from it.
pub fn over_new_year_is_planned()
    ensures { OverNewYearIsPlanned }
{}

/// The rows that are written of working days, each a period, field by field.
pub fn working_days_are_written()
    ensures { WorkingDaysAreWritten }
{}

/// Their plan report, to the byte: after each Friday comes a Monday, and a lead time is counted in working days.
pub fn working_days_are_planned()
    ensures { WorkingDaysArePlanned }
{}

/// Their orders, to the byte, with the dates on which they are released and due.
pub fn working_days_are_ordered()
    ensures { WorkingDaysAreOrdered }
{}

/// Their vendor's schedule, to the byte, with the date of its reset.
pub fn working_days_are_scheduled()
    ensures { WorkingDaysAreScheduled }
{}

/// The rows that are written of bicycles, their frames, tubes and pipe, and of the end of the table, field by field.
pub fn frames_are_written()
    ensures { FramesAreWritten }
{}

/// Until when what is wanted of each, and what is released, is whole, with the report of it, to the byte: a pair that
/// nobody takes, one that is ordered for two periods at a time, and what these are made of, a lead time before.
pub fn frames_reach()
    ensures whole { FramesAreWhole }
    ensures report { FramesReach }
{}

/// Their messages, to the byte: receipts that no period of the plan needs are to be cancelled.
pub fn frames_are_advised()
    ensures { FramesAreAdvised }
{}

/// Those within reach, to the byte: a receipt that comes as far as all is whole is beyond it, and a later one isn't told.
pub fn frames_are_advised_within_reach()
    ensures { FramesAreAdvisedWithin }
{}

/// Their table ends: where it has to be whole it is taken as it stands, and refused behind its last row where it is cut
/// off; where it need not be, it is taken cut off too.
pub fn frames_have_an_end()
    ensures whole { FramesAreUncut }
    ensures cut { FramesAreCut }
    ensures usual { FramesNeedNoEnd }
{}
