//! The protocol's laws of each lane in every state of a run: FIFO, at-most-once delivery, and conservation. Each law is
//! the contract of a function that does nothing.

ghost use Rattle.mrp_protocol.specs.Laws.{LanesKeepOrder, NothingSentIsLost};
ghost use Rattle.mrp_protocol.specs.Laws.{ClosedTextsAreWhole, SentIsDecided};

/// FIFO and at-most-once delivery. In every state that events lead to the records taken on a lane are those sent,
/// in order and each once, but for the last ones, which lie in the mailbox and are at most as many as it
/// holds. What is sent is a legal beginning, nothing after the closing record.
pub fn lanes_keep_order()
    ensures { LanesKeepOrder }
{}

/// Conservation. In every state that events lead to, an item's cumulative figure shipped over a lane is the one
/// received and the pieces in the mailbox, closed years added.
pub fn nothing_is_lost()
    ensures { NothingSentIsLost }
{}

/// Once a lane's closing record is taken, its whole text is, and nothing else has been sent.
pub fn closed_lanes_are_whole()
    ensures { ClosedTextsAreWhole }
{}

/// On a schedule lane each record that has been sent is of an item whose customer's pair is planned.
pub fn sent_is_decided()
    ensures { SentIsDecided }
{}
