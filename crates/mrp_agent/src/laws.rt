//! The agent in a network, laws. Each is the contract of a function that does nothing.

ghost use Rattle.mrp_agent.specs.Laws.{NothingLegalIsLeft, PlannedPairsHaveThePlan, SentIsLegal, SentIsWithin64};
ghost use Rattle.mrp_agent.specs.Laws.{ViewsCanBePlanned, AgentDraftsAreThePlan, AgentDraftsAreWithin};
ghost use Rattle.mrp_agent.specs.Reading.{ReceivedFiguresAreCumulative};

/// In a network without loops an agent that has taken legal beginnings keeps the network's plan of each
/// planned pair.
pub fn planned_pairs_have_the_plan()
    ensures { PlannedPairsHaveThePlan }
{}

/// In a sized network what such an agent drafts for a pair is the network's plan of it, once nothing is
/// missing for the pair; and what the pair has on hand, what comes in, what is asked for, safety stock and
/// the quantities of its lot rule and its policy are together at most 10^15 pieces.
pub fn drafts_are_the_plan()
    ensures within { AgentDraftsAreWithin }
    ensures plan { AgentDraftsAreThePlan }
{}

/// In a sized network such an agent's numbers and figures stay below 2^64, and each record that it is
/// given to send continues what it sent to a legal beginning of the network's lane.
pub fn what_is_sent_is_legal()
    ensures within { SentIsWithin64 }
    ensures legal { SentIsLegal }
{}

/// Where such an agent of a sized network is given no record to send, no record continues what it sent
/// to a legal beginning of the network's lane but one whose item's pair isn't planned yet.
pub fn nothing_legal_is_left()
    ensures { NothingLegalIsLeft }
{}

/// In a sized network what a plant sees is all that its agent needs to begin, as [`crate::Agent::new`]
/// requires: the view says enough, and no figures begin above 10^15 pieces.
pub fn what_a_plant_sees_is_enough()
    ensures { ViewsCanBePlanned }
{}

/// Of an item of a lane that comes in, what [`crate::Agent::cumulative`] answers is the lane's cumulative
/// figure from the item's opening one on.
pub fn received_figures_are_cumulative()
    ensures { ReceivedFiguresAreCumulative }
{}
