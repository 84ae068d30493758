//! The book: laws of its answer, the first fault of a record. Each is the contract of a function that does nothing.

ghost use Rattle.mrp_book.specs.Laws.{NoFaultIsInForm, FaultsAreFirst};

/// After a list in form a record has no fault exactly where the list with it is in form.
pub fn no_fault_is_in_form()
    ensures { NoFaultIsInForm }
{}

/// After a list in form a record is refused for the first of the twelve faults that it has, in the order
/// in which [`crate::BookFault`] lists them, and for none where it has none. What each fault says stands
/// apart from all others, over the records and what is known of the lane.
pub fn faults_are_first()
    ensures { FaultsAreFirst }
{}
