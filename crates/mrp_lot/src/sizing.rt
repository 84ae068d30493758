//! Lot rules: how much one of them orders for a net requirement.

ghost use Rattle.std.specs.Prelude.{◌≡◌, ◌+◌, ◌≤◌};
ghost use Rattle.mrp_qty.specs.declared.quantity.TheConstants.{MOST};
ghost use Rattle.mrp_lot.specs.Lot.{least_multiple_of, lot_of, rule_quantities, IsRule};

use crate::Rule;
use mrp_qty::Qty;

/// What the rule orders for the net requirement `net`, above 0: lot for lot the net requirement
/// itself; a fixed quantity as many lots as are needed; a minimum and a multiple the least multiple
/// that is below neither; a number of periods `span`, the greatest requirement over those periods.
///
/// Only [`Rule::Periods`] looks at `span`, 0 to 10^15 pieces. `net` and the rule's quantities
/// together are at most 10^15 pieces, and so is the answer.
pub fn lot(rule: &Rule, net: Qty, span: Qty) -> Qty
    requires rule { IsRule rule.now }
    requires within { net + rule_quantities rule.now ≤ MOST }
    ensures { result ≡ lot_of rule.now net span }
{
    match *rule {
        Rule::LotForLot => net,
        Rule::Fixed(quantity) => least_multiple(quantity, net.get()),
        Rule::Periods(_) => span,
        Rule::MinMultiple(least, multiple) => least_multiple(multiple, net.get().max(least)),
    }
}

/// The least multiple of `lot` that is not below `quantity`; both together are at most 10^15.
fn least_multiple(lot: u64, quantity: u64) -> Qty
    requires some { 1 ≤ lot }
    requires within { quantity + lot ≤ MOST }
    ensures { result ≡ least_multiple_of lot quantity }
{
    Qty::of(quantity.div_ceil(lot) * lot)
}
