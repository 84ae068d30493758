//! The protocol's laws of local plans and of what is sent by them. Each is the contract of a function that does
//! nothing.

ghost use Rattle.mrp_protocol.specs.LocalLaws.{PlantPlansAreThePlan, DraftsAreThePlan};
ghost use Rattle.mrp_protocol.specs.LocalLaws.{DraftsAreWithin, PlannableIsLocal};
ghost use Rattle.mrp_protocol.specs.LocalLaws.{LocalGoodsAreTheLoads, LocalGoodsAgree, LocalGoodsAreSmall};

/// Whatever has come to a plant so far, the pairs that it has planned have the plan of the network, and
/// so will each pair for which nothing is missing.
pub fn local_plans_are_the_plan()
    ensures planned { PlantPlansAreThePlan }
    ensures drafts { DraftsAreThePlan }
{}

/// In a sized network what a pair has on hand, what comes in, what is asked for, safety stock and the
/// quantities of its lot rule and its policy are together at most 10^15 pieces, once nothing is missing for its plan.
pub fn drafts_are_within()
    ensures { DraftsAreWithin }
{}

/// The pairs that the plant can plan by the rules of the network are those for which it misses nothing
/// and which it has not planned.
pub fn plannable_is_local()
    ensures { PlannableIsLocal }
{}

/// What a plant has to send of an item that may be sent is what the lane carries of it in the network:
/// its shipments on a despatch lane, and on a schedule lane the parts of the releases of the pair that
/// takes it. So its goods agree with the network's loads as the laws of cursors ask.
pub fn local_goods_are_the_loads()
    ensures goods { LocalGoodsAreTheLoads }
    ensures agree { LocalGoodsAgree }
{}

/// In a sized network what a plant has to send is small, and a cursor over it stays within its 64 bits.
pub fn local_goods_are_small()
    ensures { LocalGoodsAreSmall }
{}
