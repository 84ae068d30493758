//! Shortages: their laws, and those of the report of them. Each is the contract of a function that does nothing.

ghost use Rattle.mrp_shortages.specs.ShortageLaws.{ShortagesAddUp, ShortagesAddUpSoFar, ShortagesAreOfTerms};
ghost use Rattle.mrp_shortages.specs.ShortageLaws.{ShortagesAreReadBack, ShortagesAreTermsInOrder};

/// The missing pieces of a pair's shortages add up to what its gross requirement in period 0 is above what is there, and
/// are none where it isn't above; and what the first of its terms lack, as many as one likes, to what these ask above
/// what is there.
pub fn shortages_add_up()
    ensures all { ShortagesAddUp }
    ensures first { ShortagesAddUpSoFar }
{}

/// Each shortage lacks a piece at least, and no more pieces than its term asks for; their terms are terms of the gross
/// requirement in its order.
pub fn shortages_are_terms()
    ensures pieces { ShortagesAreOfTerms }
    ensures order { ShortagesAreTermsInOrder }
{}

/// What csv reads by its defaults of the report of an accepted table is exactly the fields that its rows are made
/// of, with the names of the columns first, where they are asked for, and none of them needs quotes.
pub fn shortages_are_read_back()
    ensures { ShortagesAreReadBack }
{}
