//! Records of a lane: laws of lists of them, the texts of lanes and their beginnings. Each is the contract
//! of a function that does nothing.

ghost use Rattle.mrp_record.specs.Laws.{EmptyIsABeginning, PrefixesAreBeginnings};
ghost use Rattle.mrp_record.specs.Laws.{PrefixesAreNested, NothingFollowsClosing};
ghost use Rattle.mrp_record.specs.Laws.{ClosedIsWhole, TextsHaveOneLength};
ghost use Rattle.mrp_record.specs.Laws.{BeginningsAreNoLonger};
ghost use Rattle.mrp_record.specs.Laws.{EndedBlocksAreWhole, EndedBlocksBringDeliveries, EndedBlocksBringPeriods};
ghost use Rattle.mrp_record.specs.Laws.{EndedBlocksBringTotals, EndedItemsAreDone};
ghost use Rattle.mrp_record.specs.Laws.{CumIsOpeningAndMoved, BeginningsAreInForm, FiguresAreSmall, CumsAreSmall};
ghost use Rattle.mrp_record.specs.Laws.{ListsInFormAreBeginnings};

/// The list without records is a legal beginning, and so is each prefix of a legal beginning. Of two
/// prefixes of one text one is a prefix of the other.
pub fn fronts_are_beginnings()
    ensures empty { EmptyIsABeginning }
    ensures fronts { PrefixesAreBeginnings }
    ensures nested { PrefixesAreNested }
{}

/// Nothing follows the closing record, and a legal beginning that ends with it is a whole text.
pub fn closing_is_last()
    ensures nothing { NothingFollowsClosing }
    ensures whole { ClosedIsWhole }
{}

/// All texts of a lane have one length, and no legal beginning is longer.
pub fn texts_have_one_length()
    ensures texts { TextsHaveOneLength }
    ensures beginnings { BeginningsAreNoLonger }
{}

/// An item whose end has come has brought its whole block, and with it its load, delivery by
/// delivery, period by period and in total. It gets no more records.
pub fn ended_blocks_are_whole()
    ensures whole { EndedBlocksAreWhole }
    ensures deliveries { EndedBlocksBringDeliveries }
    ensures periods { EndedBlocksBringPeriods }
    ensures totals { EndedBlocksBringTotals }
    ensures done { EndedItemsAreDone }
{}

/// On a legal beginning the cumulative figure of an item, closed years added, is its opening figure
/// and the pieces of all its lines so far.
pub fn cum_is_opening_and_moved()
    ensures { CumIsOpeningAndMoved }
{}

/// A legal beginning of loads within bounds is in form, and no figure in it is above 10^15 pieces, nor
/// is a cumulative figure with the closed years added.
pub fn beginnings_are_in_form()
    ensures form { BeginningsAreInForm }
    ensures figures { FiguresAreSmall }
    ensures cums { CumsAreSmall }
{}

/// A list in form, on a lane that has each item once, is a legal beginning of some loads. Their deliveries
/// are of one piece at least, in the horizon and on a schedule lane in rising periods, and come with the
/// opening figure to at most 10^15 pieces, unless that is more.
pub fn lists_in_form_are_beginnings()
    ensures { ListsInFormAreBeginnings }
{}
