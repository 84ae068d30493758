//! Histories: their laws. Each is the contract of a function that does nothing.

ghost use Rattle.mrp_history.specs.HistoryLaws.{HistoriesMerge, FinishedHistoriesMerge};
ghost use Rattle.mrp_history.specs.HistoryLaws.{LanesAreCausal, ExplainedStatesMerge, FinishedStatesMerge};

/// Of a table without a loop: histories of its plants that agree over each lane merge to a run. At each moment at
/// which no mailbox holds more records than its capacity, one at least, some events lead from the opening state to
/// the state with exactly what the histories have sent, taken and planned. Where each closing record is taken and
/// each pair planned, for every capacity some events lead there, and the state is finished.
pub fn histories_merge()
    ensures moments { HistoriesMerge }
    ensures finished { FinishedHistoriesMerge }
{}

/// Stamps carry causality. Where the stamps at the two ends of a lane agree as the records do, at each moment what the
/// one plant has taken is a prefix of what the other has sent.
pub fn lanes_are_causal()
    ensures { LanesAreCausal }
{}

/// So, of a table without a loop, the states of plants merge to a state of a run, where each is explained by some
/// history and both ends of each lane agree: within the capacity, or once they have finished.
pub fn explained_states_merge()
    ensures moments { ExplainedStatesMerge }
    ensures finished { FinishedStatesMerge }
{}
