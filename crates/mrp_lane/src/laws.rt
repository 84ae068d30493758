//! A lane's mailbox between threads: its laws. Each is the contract of a function that does nothing.

ghost use Rattle.mrp_lane.specs.Laws.{MailboxesKeepOrder};

/// Wherever the rule of a lane's mailbox holds, what the sender's end has sent is what the receiver's end has
/// taken and then what the mailbox holds, and so are its stamps. It is a legal beginning, and both ends know the
/// same network and the same lane.
///
/// That the rule holds before and after each step of either thread is the contract of the kit's queue under a
/// rule (`RuledArrayQueue` of `crossbeam_queue`, over `atomic_table`), through whose calls alone the ends reach
/// the mailbox. This law says what the rule says.
pub fn mailboxes_keep_order()
    ensures { MailboxesKeepOrder }
{}
