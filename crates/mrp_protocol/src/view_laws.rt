//! The protocol: what a plant sees of its lanes says what they carry. Each law is the contract
//! of a function that does nothing.

ghost use Rattle.mrp_protocol.specs.Seen.{DespatchesAreSeen, SchedulesAreSeen, SchedulesOpenAfterShipments};
ghost use Rattle.mrp_protocol.specs.Seen.{LocalLoadsAreTheLoads, FormsAreSeen, BroughtIsSeen};

/// What a plant sees of the lanes that it sends says their loads: despatches by the shipments on their
/// way, schedules by the source's share of what the plan releases for the customer's pair. A schedule
/// begins at the figure that the despatch lane of the same two plants has reached with the item's block.
pub fn loads_are_seen()
    ensures despatches { DespatchesAreSeen }
    ensures schedules { SchedulesAreSeen }
    ensures opening { SchedulesOpenAfterShipments }
{}

/// What a plant sends by its own plans is what its lanes carry: of each planned pair a schedule lane has
/// the load by the pair's local plan, from the figure that the despatch lane before it has reached.
pub fn local_loads_are_the_loads()
    ensures { LocalLoadsAreTheLoads }
{}

/// What a plant sees of the lanes that it receives says what form their records have, and what they
/// have brought to each of its pairs.
pub fn incoming_lanes_are_seen()
    ensures forms { FormsAreSeen }
    ensures brought { BroughtIsSeen }
{}
