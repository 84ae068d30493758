//! The protocol's runs: each list of events is one, there is no deadlock, and every run terminates after the same
//! number of steps. Each law is the contract of a function that does nothing.

ghost use Rattle.mrp_protocol.specs.Deciding.{EventsAreDecided, EveryListRuns, RunsGoOn};
ghost use Rattle.mrp_protocol.specs.Deciding.{OpeningIsReached, ReachedGoesOn};
ghost use Rattle.mrp_protocol.specs.Progress.{RunsBeginWithSteps, EventsAreSteps, NoneIsLeftAtTheEnd};
ghost use Rattle.mrp_protocol.specs.Progress.{NoScheduleSticks, EventsAndStepsLeft, LongestRunsFinish};

/// In each state that events lead to an event is enabled or isn't, so each list of events, enabled or
/// not, leads from the opening state to some state.
pub fn every_list_runs()
    ensures decided { EventsAreDecided }
    ensures runs { EveryListRuns }
{}

/// What happens after a run makes it longer. So events lead to the opening state, and from each state
/// that they lead to to the one that an event leads to from there.
pub fn runs_go_on()
    ensures runs { RunsGoOn }
    ensures opening { OpeningIsReached }
    ensures next { ReachedGoesOn }
{}

/// A run begins with all steps of the network to go, each event that is enabled takes one of them, and
/// none is left exactly where each lane is closed and each pair planned.
pub fn steps_are_counted()
    ensures begin { RunsBeginWithSteps }
    ensures events { EventsAreSteps }
    ensures end { NoneIsLeftAtTheEnd }
{}

/// No deadlock, and termination. In a network without loops, whatever has happened so far, the run is finished or
/// some event is enabled; a mailbox has to hold one record at least. So a list of enabled events that can't be
/// made longer takes all steps, and the run is finished.
pub fn no_schedule_sticks()
    ensures sticks { NoScheduleSticks }
    ensures left { EventsAndStepsLeft }
    ensures longest { LongestRunsFinish }
{}
