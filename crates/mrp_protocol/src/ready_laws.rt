//! The protocol: pairs that its events let be planned. What the lanes have brought to a ready one, and that its local
//! plan is the network's. Each law is the contract of a function that does nothing.

ghost use Rattle.mrp_protocol.specs.Local.{PlannedStayReady, DespatchesBringIncoming, SchedulesBringGross};
ghost use Rattle.mrp_protocol.specs.Local.{LocalPlansAreThePlan, ReachedPlansAreThePlan};

/// A pair that is planned was ready and stays so: its demanders at its own plant are planned, and each
/// lane to the plant has brought its whole block of the item.
pub fn planned_are_ready()
    ensures { PlannedStayReady }
{}

/// What taken lanes have brought to a ready pair is what the network's plan says: with the receipt rows that count when
/// they come all that comes in at its time beside firm planned orders, and with the demand rows and what the parents at
/// its plant ask the gross requirements.
pub fn taken_blocks_bring_the_plan()
    ensures incoming { DespatchesBringIncoming }
    ensures gross { SchedulesBringGross }
{}

/// Local plans are the plan: where a plant makes the plan of each ready pair from its own rows, its
/// parents' plans and what has been taken, it is that of the one plan of the whole network. So it is
/// for every planned pair in each state that events lead to.
pub fn local_plans_are_the_plan()
    ensures plant { LocalPlansAreThePlan }
    ensures reached { ReachedPlansAreThePlan }
{}
