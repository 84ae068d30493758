//! Records of a lane: laws of the sender's cursor over them. Each is the contract of a function that does nothing.

ghost use Rattle.mrp_record.specs.CursorLaws.{GivenContinues, StepsShow, StepsKeepPlaces, NoneIsLeft, QueuesShow};
ghost use Rattle.mrp_record.specs.CursorLaws.{QueuedArePlaces, LooksAtQueued};
ghost use Rattle.mrp_record.specs.CursorLaws.{ShownBegin, ClosedIsShown, ClosedShowsWhole, ShownAreShort};
ghost use Rattle.mrp_record.specs.CursorLaws.{SmallAreBounded};

/// The record that a cursor gives may be sent: it continues the shown list to a legal beginning.
pub fn given_continues()
    ensures { GivenContinues }
{}

/// After a step a cursor shows the list with the given record. Its queue stays as it was.
pub fn steps_show()
    ensures shows { StepsShow }
    ensures places { StepsKeepPlaces }
{}

/// Where a cursor gives no record, none can be sent.
pub fn none_is_left()
    ensures { NoneIsLeft }
{}

/// A place that may now be sent comes to the end of the queue, and the shown list stays shown. The
/// queue has places of the lane alone.
pub fn queues_show()
    ensures more { QueuesShow }
    ensures places { QueuedArePlaces }
{}

/// A cursor looks at the goods of queued places alone.
pub fn looks_at_queued()
    ensures { LooksAtQueued }
{}

/// A shown list is a legal beginning.
pub fn shown_begin()
    ensures { ShownBegin }
{}

/// A shown list is no longer than the blocks that may be sent, and so a cursor's numbers and figures
/// stay within 64 bits where the goods do.
pub fn shown_are_short()
    ensures short { ShownAreShort }
    ensures bounded { SmallAreBounded }
{}

/// A cursor is closed exactly where the shown list is, and that is then the whole text.
pub fn closed_is_whole()
    ensures closed { ClosedIsShown }
    ensures whole { ClosedShowsWhole }
{}
