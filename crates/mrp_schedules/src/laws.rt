//! Delivery schedules: their laws. Each is the contract of a function that does nothing.

ghost use Rattle.mrp_schedules.specs.Laws.{TextsCarrySchedules, FiguresAddUp, CallsAreReleased};
ghost use Rattle.mrp_schedules.specs.Laws.{VendorCallsAreReleased, VendorSchedulesOpen};
ghost use Rattle.mrp_schedules.specs.Following.{LaneFiguresFollow, VendorFiguresFollow};
ghost use Rattle.mrp_schedules.specs.ScheduleSheets.{SchedulesAreReadBack};

/// A schedule is what the lane carries: behind its opening stand exactly the lines of the item's records in every
/// whole text of the lane and its reset, with the period that the table says, in whatever order the text has its
/// items.
pub fn texts_carry_schedules()
    ensures { TextsCarrySchedules }
{}

/// At the end of a lane the cumulative figure of an item, closed years added, is the opening figure of its
/// schedule and the pieces of all its calls.
pub fn figures_add_up()
    ensures { FiguresAddUp }
{}

/// Of a pair that is taken from other plants the schedules call for what the plan releases and no more: in each
/// period the calls to all its sources add up to the planned order release.
pub fn calls_are_released()
    ensures { CallsAreReleased }
{}

/// A vendor's schedule begins with the pieces in transit, and with the figure received and these pieces.
pub fn vendor_schedules_open()
    ensures { VendorSchedulesOpen }
{}

/// What a vendor is called for in a period is what the plan releases of its pair.
pub fn vendor_calls_are_released()
    ensures { VendorCallsAreReleased }
{}

/// In each schedule, of a lane's item and of a vendor, the figure of a call less its pieces is the one in force before
/// it: the opening figure before the first call, 0 before the first one that is counted anew, and else the figure of the
/// call before it. Calls stand in rising periods, those before the reset before its period and the others not.
pub fn figures_follow()
    ensures lanes { LaneFiguresFollow }
    ensures vendors { VendorFiguresFollow }
{}

/// What csv reads of the report of schedules is exactly the fields that its rows are made of, row by row, the
/// empty ones too, and none of them needs quotes.
pub fn schedules_are_read_back()
    ensures { SchedulesAreReadBack }
{}
