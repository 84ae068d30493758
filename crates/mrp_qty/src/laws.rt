//! Quantities and limits: laws of the limits of quantities, tables and runs, each the contract
//! of a function that does nothing.
ghost use Rattle.std.specs.Prelude.{◌≡◌, ◌+◌, ◌*◌, ◌^◌};
ghost use Rattle.mrp_qty.specs.declared.horizon.TheConstants.{LONGEST};
ghost use Rattle.mrp_qty.specs.declared.quantity.TheConstants.{MOST};
ghost use Rattle.mrp_qty.specs.declared.limits.LimitSet.{LimitSet};
ghost use Rattle.mrp_qty.specs.declared.limits.TheConstants.{LARGE, USUAL, MAX_TURNS, MOST_BILLS, MOST_DEMANDS};
ghost use Rattle.mrp_qty.specs.declared.limits.TheConstants.{MOST_IN_ROW, MOST_OF_A_KIND, MOST_PAIRS, MOST_PER};
ghost use Rattle.mrp_qty.specs.declared.limits.TheConstants.{MOST_PLANTS, MOST_RECORDS, MOST_ROOM, MOST_SHARE, MOST_SOURCES};
ghost use Rattle.mrp_qty.specs.declared.limits.TheConstants.{MOST_SOURCES_OF_PAIR, MOST_TURNS, MOST_WORKERS};
ghost use Rattle.mrp_qty.specs.Limits.{limits_of, rows_within};

/// The limits that are the same for every table, as numbers: a quantity is at most 10^15 pieces, and the others are
/// those of a row, of a text of records and of a run.
pub fn limits_are_numbers()
    ensures most { MOST ≡ 1000000000000000 }
    ensures sources_of_pair { MOST_SOURCES_OF_PAIR ≡ 4 }
    ensures in_row { MOST_IN_ROW ≡ 1000000000000 }
    ensures per { MOST_PER ≡ 1000000 }
    ensures share { MOST_SHARE ≡ 1000 }
    ensures records { MOST_RECORDS ≡ 4000000 }
    ensures room { MOST_ROOM ≡ 65536 }
    ensures workers { MOST_WORKERS ≡ 64 }
    ensures turns { MOST_TURNS ≡ 2 ^ 62 }
{}

/// The usual limits of a table as numbers.
pub fn usual_limits_are_numbers()
    ensures plants { USUAL.plants ≡ 64 }
    ensures pairs { USUAL.pairs ≡ 20000 }
    ensures sources { USUAL.sources ≡ MOST_SOURCES_OF_PAIR * USUAL.pairs }
    ensures bills { USUAL.bills ≡ 200000 }
    ensures demands { USUAL.demands ≡ 1000000 }
    ensures of_a_kind { USUAL.of_a_kind ≡ 1000000 }
    ensures periods { USUAL.periods ≡ 104 }
    ensures lead { USUAL.lead ≡ 104 }
    ensures turns { USUAL.turns ≡ MAX_TURNS }
{}

/// The limits of any table as numbers.
pub fn large_limits_are_numbers()
    ensures plants { (LARGE.plants ≡ MOST_PLANTS) × (MOST_PLANTS ≡ 1000) }
    ensures pairs { (LARGE.pairs ≡ MOST_PAIRS) × (MOST_PAIRS ≡ 1000000) }
    ensures sources { (LARGE.sources ≡ MOST_SOURCES) × (MOST_SOURCES ≡ MOST_SOURCES_OF_PAIR * MOST_PAIRS) }
    ensures bills { (LARGE.bills ≡ MOST_BILLS) × (MOST_BILLS ≡ 10000000) }
    ensures demands { (LARGE.demands ≡ MOST_DEMANDS) × (MOST_DEMANDS ≡ 18000000) }
    ensures of_a_kind { (LARGE.of_a_kind ≡ MOST_OF_A_KIND) × (MOST_OF_A_KIND ≡ 9000000) }
    ensures periods { (LARGE.periods ≡ LONGEST) × (LONGEST ≡ 520) }
    ensures lead { LARGE.lead ≡ LONGEST }
{}

/// The most turns of reading, within each set of limits: the run, each other kind of row up to its limit (first days of
/// all periods but the first one), the `end` row, and the end.
pub fn turns_are_rows()
    ensures { (set : LimitSet) → (limits_of set).turns ≡ rows_within (limits_of set) + 1 }
{}
