//! The protocol: what a lane carries, its loads, the bounds of its figures, and how long its text is. Each law is the
//! contract of a function that does nothing.

ghost use Rattle.mrp_protocol.specs.LoadLaws.{LoadsStandOnce, LoadsAreSmall, LegalIsInForm};
ghost use Rattle.mrp_protocol.specs.LoadLaws.{LegalFiguresAreSmall, LegalCumsAreSmall};
ghost use Rattle.mrp_protocol.specs.LoadLaws.{OpeningsAreSmall, TextsAreNoLonger};
ghost use Rattle.mrp_protocol.specs.LoadLaws.{LaneBeginningsAreNoLonger, StepsAreFew};

/// A lane has one load of each of its items. Those of a sized network are small: each delivery is of
/// one piece at least and in the horizon, on a schedule lane their periods rise, and opening figure and
/// deliveries of an item are together at most 10^15 pieces.
pub fn loads_are_small()
    ensures once { LoadsStandOnce }
    ensures small { LoadsAreSmall }
{}

/// Over a sized network each legal beginning is in form, so its receiver can book it record by record,
/// and its numbers and figures are at most 10^15, cumulative figures with the closed years added.
pub fn beginnings_are_in_form()
    ensures form { LegalIsInForm }
    ensures figures { LegalFiguresAreSmall }
    ensures cums { LegalCumsAreSmall }
{}

/// In a sized network no item's figures begin above 10^15 pieces, on either lane.
pub fn openings_are_small()
    ensures { OpeningsAreSmall }
{}

/// No text of a lane, and no legal beginning, is longer than what is read off the table without any plan.
/// A run has at most 2 * 10^15 events, so its steps can be counted in 64 bits.
pub fn texts_have_the_lanes_length()
    ensures texts { TextsAreNoLonger }
    ensures beginnings { LaneBeginningsAreNoLonger }
    ensures steps { StepsAreFew }
{}
