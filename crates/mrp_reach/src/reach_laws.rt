//! Reach: the law of its report.

ghost use Rattle.mrp_reach.specs.ReachSheets.{ReachIsReadBack};

/// What csv reads by its defaults of the report of an accepted table is exactly the fields that its rows are made
/// of, with the names of the columns first, where they are asked for, and none of them needs quotes.
pub fn reach_is_read_back()
    ensures { ReachIsReadBack }
{}
