//! Master data: how a pair's lot rule is spelled.

ghost use Rattle.std.specs.Prelude.{◌≡◌, ◌≢◌, ℕ, IfSome, MatchOption};
ghost use Rattle.mrp_lot.specs.declared.rule.Rule.{Rule};
ghost use Rattle.mrp_lot.specs.Lot.{IsRuleWithin};
ghost use Rattle.mrp_qty.specs.Limits.{limits_of};
ghost use Rattle.mrp_master_data.specs.Spelled.{cut_view};
ghost use Rattle.mrp_master_data.specs.Spelling.{rule_text};
ghost use Rattle.mrp_master_data.specs.Parsing.{cut, min_rule_of, numbered_rule, rule_of};

use crate::spelled_numbers::number_within;
use mrp_lot::{MOST_IN_RULE, Rule};
use mrp_qty::LimitSet;

/// A text cut at its first colon.
#[tactic(auto, unfolding(crate::specs::Parsing::cut))]
pub(crate) fn cut(text: &str) -> Option<(&str, &str)>
    ensures { cut_view result ≡ cut text.now }
{
    text.split_once(':')
}

/// The lot rule that a text spells, or `None` where it spells none: `lot`, `fixed:Q`, `periods:K` or `min:M:K`. The K of
/// `periods:K` is 1 to 104. Each rule has just one such text.
pub fn rule(text: &str) -> Option<Rule>
    ensures exact { result ≡ rule_of 104 text.now }
    ensures written { MatchOption result ((rule : Rule) → IsRuleWithin 104 rule → text.now ≢ rule_text rule)
        (λ rule. (text.now ≡ rule_text rule) × IsRuleWithin 104 rule) }
    ensures rule { IfSome result (IsRuleWithin 104) }
{
    rule_within(LimitSet::Usual, text)
}

/// The lot rule that a text spells, as [`rule`] reads it, or `None`: of another text, or where it covers more periods
/// than a table of these limits may have.
pub fn rule_within(limits: LimitSet, text: &str) -> Option<Rule>
    ensures exact { result ≡ rule_of (limits_of limits).periods text.now }
    ensures written { MatchOption result
        ((rule : Rule) → IsRuleWithin (limits_of limits).periods rule → text.now ≢ rule_text rule)
        (λ rule. (text.now ≡ rule_text rule) × IsRuleWithin (limits_of limits).periods rule) }
    ensures rule { IfSome result (IsRuleWithin (limits_of limits).periods) }
{
    read(limits.limits().periods, text)
}

/// The lot rule that a text spells, which covers so many periods at most.
#[tactic(auto, unfolding(crate::specs::Parsing::rule_of))]
fn read(longest: u64, text: &str) -> Option<Rule>
    ensures exact { result ≡ rule_of longest text.now }
    ensures rule { IfSome result (IsRuleWithin longest) }
{
    match cut(text) {
        None => {
            if text == "lot" {
                Some(Rule::LotForLot)
            } else {
                None
            }
        }
        Some((word, numbers)) => numbered_rule(longest, word, numbers),
    }
}

/// The lot rule of a word and the numbers after it.
#[tactic(auto, unfolding(crate::specs::Parsing::numbered_rule))]
fn numbered_rule(longest: u64, word: &str, numbers: &str) -> Option<Rule>
    ensures exact { result ≡ numbered_rule longest word.now numbers.now }
    ensures rule { IfSome result (IsRuleWithin longest) }
{
    if word == "fixed" {
        Some(Rule::Fixed(number_within(numbers, 1, MOST_IN_RULE)?))
    } else if word == "periods" {
        Some(Rule::Periods(number_within(numbers, 1, longest)?))
    } else if word == "min" {
        min_rule(numbers)
    } else {
        None
    }
}

/// The lot rule of a minimum and a multiple.
fn min_rule(numbers: &str) -> Option<Rule>
    ensures exact { result ≡ min_rule_of (cut numbers.now) }
    ensures rule { (longest : ℕ) → IfSome result (IsRuleWithin longest) }
{
    let (least, multiple) = cut(numbers)?;
    let least = number_within(least, 1, MOST_IN_RULE)?;
    let multiple = number_within(multiple, 1, MOST_IN_RULE)?;
    Some(Rule::MinMultiple(least, multiple))
}
