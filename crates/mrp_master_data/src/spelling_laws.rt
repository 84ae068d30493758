//! Master data: laws of how they are spelled, each the contract of a function that does nothing.
ghost use Rattle.std.specs.Prelude.{◌≡◌, ℕ, List, Some, decimal};
ghost use Rattle.mrp_lot.specs.declared.rule.Rule.{Rule};
ghost use Rattle.mrp_lot.specs.Lot.{IsRuleWithin};
ghost use Rattle.mrp_qty.specs.Limits.{limits_of};
ghost use Rattle.mrp_qty.specs.declared.limits.LimitSet.{LimitSet};
ghost use Rattle.mrp_master_data.specs.Spelling.{rule_text};
ghost use Rattle.mrp_master_data.specs.Parsing.{IsShort, spelled_number, rule_of};
ghost use Rattle.mrp_master_data.specs.Supplies.{supply_text, SupplyTerms};
ghost use Rattle.mrp_master_data.specs.SupplyParsing.{IsWholeSupply, supply_of};

/// What is spelled after `from:` is at most four plants, all different, each with a share, and their
/// shares are together the whole.
pub fn supplies_are_whole()
    ensures { (text : List ℕ) (supply : SupplyTerms) → supply_of text ≡ Some supply → IsWholeSupply supply }
{}

/// A supply has one text, and that text is read as it: what stands after `from:` is a plant, or plants
/// with their shares, as they are written.
pub fn supplies_have_one_text()
    ensures read { (supply : SupplyTerms) → IsWholeSupply supply → supply_of (supply_text supply) ≡ Some supply }
    ensures text { (text : List ℕ) (supply : SupplyTerms) → supply_of text ≡ Some supply
        → (text ≡ supply_text supply) × IsWholeSupply supply }
{}

/// Within each set of limits a lot rule has one text, `lot`, `fixed:Q`, `periods:K` or `min:M:K` with its own numbers,
/// and that text is read as it: the minimum stands before the multiple.
pub fn rules_have_one_text()
    ensures read { (limits : LimitSet) (rule : Rule) → IsRuleWithin (limits_of limits).periods rule
        → rule_of (limits_of limits).periods (rule_text rule) ≡ Some rule }
    ensures text { (limits : LimitSet) (text : List ℕ) (rule : Rule)
        → rule_of (limits_of limits).periods text ≡ Some rule → (text ≡ rule_text rule) × IsRuleWithin (limits_of limits).periods rule }
{}

/// A number has one text, and that text is read as it.
pub fn numbers_have_one_text()
    ensures read { (n : ℕ) → IsShort n → spelled_number (decimal n) ≡ Some n }
    ensures text { (text : List ℕ) (n : ℕ) → spelled_number text ≡ Some n → (text ≡ decimal n) × IsShort n }
{}
