//! Advice where the whole periods are given, laws. Each is the contract of a function that does nothing.

ghost use Rattle.mrp_advice.specs.BeyondLaws.{MessagesStay, NeedsStay, OthersAreNotNeeded};

/// By the whole periods, messages hold whatever is wanted behind the horizon. In each table that goes on where this one
/// ends, an open order is needed in the same one of the periods in which that is whole, or in none of them. So each
/// message but [`Action::Beyond`](crate::Action::Beyond) is a message of that table, with its whole periods given and
/// without; and an order whose message is another one by the whole periods, or is left out, isn't needed in one of them
/// there.
pub fn known_messages_stay()
    ensures needs { NeedsStay }
    ensures messages { MessagesStay }
    ensures others { OthersAreNotNeeded }
{}
