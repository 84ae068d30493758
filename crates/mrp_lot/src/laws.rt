//! Lot rules: their laws. Each is the contract of a function that does nothing.

ghost use Rattle.std.specs.Prelude.{◌≡◌, ◌≤◌, ◌↔◌, ℕ};
ghost use Rattle.mrp_lot.specs.Lot.{IsRule};
ghost use Rattle.mrp_lot.specs.declared.rule.Rule.TheVariants.{Fixed, Periods, MinMultiple};
ghost use Rattle.mrp_lot.specs.Rules.{LotForLotIsExact, LotCovers};
ghost use Rattle.mrp_lot.specs.Rules.{FixedIsLeast, MinMultipleIsLeast, FixedIsSmall, MinMultipleIsSmall};

use crate::{LONGEST_LEAD, MOST_IN_RULE};

/// Lot for lot orders exactly the net requirement.
pub fn lot_for_lot_is_exact()
    ensures { LotForLotIsExact }
{}

/// A fixed quantity orders as few lots as cover the net requirement.
pub fn fixed_is_least()
    ensures least { FixedIsLeast }
    ensures small { FixedIsSmall }
{}

/// A minimum and a multiple order the least multiple that is below neither the net requirement nor
/// the minimum.
pub fn min_multiple_is_least()
    ensures least { MinMultipleIsLeast }
    ensures small { MinMultipleIsSmall }
{}

/// Whatever the rule, an order covers the net requirement, where that is at most the span that the rule is given.
pub fn lot_covers()
    ensures { LotCovers }
{}

/// The limits as numbers: a lead time is at most 520 periods, the quantities of a rule are 1 to 10^12
/// pieces, and its periods of supply are 1 to 520.
pub fn limits_are_numbers()
    ensures lead { LONGEST_LEAD ≡ 520 }
    ensures most { MOST_IN_RULE ≡ 1000000000000 }
    ensures fixed { (q : ℕ) → IsRule (Fixed q) ↔ ((1 ≤ q) × (q ≤ 1000000000000)) }
    ensures multiple { (m k : ℕ) → IsRule (MinMultiple m k) ↔
        ((1 ≤ m) × (m ≤ 1000000000000) × (1 ≤ k) × (k ≤ 1000000000000)) }
    ensures periods { (k : ℕ) → IsRule (Periods k) ↔ ((1 ≤ k) × (k ≤ 520)) }
{}
