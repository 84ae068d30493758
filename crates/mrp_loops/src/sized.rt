//! The bound: a network whose quantities stay at 10^15 pieces and below, or the pair that goes beyond.

ghost use Rattle.std.specs.Prelude.{◌≡◌, ◌≤◌, ℕ, IfOk, IfErr, IfNone, IfSome, map};
ghost use Rattle.mrp_qty.specs.declared.quantity.TheConstants.{MOST};
ghost use Rattle.mrp_loops.specs.declared.sized.BoundFault.TheVariants.{Memory};
ghost use Rattle.mrp_master_data.specs.Table.{IsPair};
ghost use Rattle.mrp_net.specs.Sums.{supply};
ghost use Rattle.mrp_loops.specs.Codes.{AreCodes};
ghost use Rattle.mrp_loops.specs.Need.{AreNeeds, AreWithin};
ghost use Rattle.mrp_loops.specs.Order.{code_order, IsInCodeOrder};
ghost use Rattle.mrp_loops.specs.BoundFaults.{AreSuppliesWithin, IsBoundFault, IsSupplyTooLarge, IsNeedFault};
ghost use Rattle.mrp_loops.specs.Sized.{IsSized};
ghost use Rattle.mrp_loops.specs.Planning.{IsPlanningOrder};

use crate::Levels;
use crate::needs::need;
use crate::order::by_code;
use mrp_net::{Network, PairNo};
use mrp_qty::MOST;
use std::alloc::{AllocError, Global};
use std::marker::Model;
use thiserror::Error;

/// Why a network is refused.
#[derive(Debug, Drop, Error)]
pub enum BoundFault {
    /// The pair's supply is above 10^15 pieces; it is the first such pair in the table.
    #[error("supply too large")]
    SupplyTooLarge(PairNo),
    /// The pair's supply and need together are above 10^15 pieces; it is the first such pair by
    /// low-level code, and within a code the first in the table.
    #[error("need too large")]
    NeedTooLarge(PairNo),
    /// Memory was refused.
    #[error("memory")]
    Memory,
}

impl From<mrp_qty::Memory> for BoundFault {
    ghost from_gives = { λ _ e. e ≡ Memory };

    fn from(_refusal: mrp_qty::Memory) -> BoundFault {
        BoundFault::Memory
    }
}

impl From<AllocError> for BoundFault {
    ghost from_gives = { λ _ e. e ≡ Memory };

    fn from(_refusal: AllocError) -> BoundFault {
        BoundFault::Memory
    }
}

/// A network without loops whose figures stay within the bound.
#[derive(Drop)]
pub struct SizedNet<'a> {
    network: &'a Network,
    levels: &'a Levels,
    order: Vec<PairNo>,
    needs: Vec<u64>,
}

impl<'a> Model for SizedNet<'a> {
    ghost use Rattle.std.specs.Prelude.{◌≡◌};
    ghost use Rattle.mrp_loops.specs.Codes.{AreCodes};
    ghost use Rattle.mrp_loops.specs.Need.{AreNeeds};
    ghost use Rattle.mrp_loops.specs.Order.{code_order};
    ghost use Rattle.mrp_loops.specs.Sized.{IsSized};
    ghost use Rattle.mrp_loops.specs.Planning.{Sized};

    ghost Value = { Sized };

    ghost view = { λ s. record { network = s.network.now; codes = s.levels.now; needs = s.needs.items } };

    ghost invariant = { λ s.
        IsSized s.network.now × AreCodes s.network.now s.levels.now × AreNeeds s.network.now s.needs.items ×
        (s.order.items ≡ code_order s.levels.now) };
}

impl<'a> SizedNet<'a> {
    /// The network.
    pub fn network(&self) -> &'a Network
        ensures value { result.now ≡ self.now.network }
        ensures sized { IsSized self.now.network }
        ensures codes { AreCodes self.now.network self.now.codes }
        ensures needs { AreNeeds self.now.network self.now.needs }
    {
        self.network
    }

    /// All pairs, by rising low-level code and within a code in table order.
    pub fn in_code_order(&self) -> &[PairNo]
        ensures value { result.now ≡ code_order self.now.codes }
        ensures planning { IsPlanningOrder self.now.network (map (λ x. x.0) result.now) }
        ensures by_code { IsInCodeOrder self.now.codes (map (λ x. x.0) result.now) }
    {
        self.order.as_slice()
    }
}

/// The bound: a network whose figures stay at 10^15 pieces or below.
///
/// The supply of a pair is what it has without any planned order: on hand, receipts, shipments to it,
/// its firm planned orders, its opening figures, and FIGURE and TRANSIT of its vendor. Its need is its
/// demand, what its demanders need of it, its safety stock, its rule's quantities, LEAST and MULTIPLE
/// of its policy, and its firm planned orders. All supplies are tested before any need.
///
/// # Errors
///
/// [`BoundFault::SupplyTooLarge`] where a supply is above 10^15; [`BoundFault::NeedTooLarge`] where
/// a supply and need together are; [`BoundFault::Memory`] where a growth was refused, which is asked
/// for only where no supply is too large.
pub fn bound<'a>(
    alloc: Global,
    network: &'a Network,
    levels: &'a Levels,
) -> Result<SizedNet<'a>, BoundFault>
    requires { AreCodes network.now levels.now }
    ensures sized { IfOk result (λ s. (s.network ≡ network.now) × (s.codes ≡ levels.now)) }
    ensures within { IfOk result (λ s. IsSized s.network) }
    ensures needs { IfOk result (λ s. AreNeeds s.network s.needs) }
    ensures fault { IfErr result (λ fault. IsBoundFault network.now levels.now fault) }
{
    if let Some(x) = first_oversupplied(network) {
        return Err(BoundFault::SupplyTooLarge(x));
    }
    let _pairs = network.pairs();
    let order = by_code(alloc, levels)?;
    let needs = test_needs(alloc, network, order.as_slice())?;
    Ok(SizedNet {
        network,
        levels,
        order,
        needs,
    })
}

/// The first pair in the table whose supply is above the bound.
fn first_oversupplied(network: &Network) -> Option<PairNo>
    ensures none { IfNone result (AreSuppliesWithin network.now) }
    ensures some { IfSome result (λ x. IsSupplyTooLarge network.now x.0) }
{
    for x in 0..network.pairs() {
        if network.supply(PairNo(x)) > MOST {
            return Some(PairNo(x));
        }
    }
    None
}

/// The need of each pair; tests that supply and need together are within the bound.
fn test_needs(alloc: Global, network: &Network, order: &[PairNo]) -> Result<Vec<u64>, BoundFault>
    requires { IsPlanningOrder network.now (map (λ x. x.0) order.now) }
    ensures needs { IfOk result (λ needs. AreNeeds network.now needs.items) }
    ensures within { IfOk result (λ needs. AreWithin network.now needs.items) }
    ensures fault { IfErr result (λ fault. IsNeedFault network.now order.now fault) }
{
    let mut needs = vec![in alloc; 0; network.pairs()]?;
    for x in order {
        let need = need(network, needs.as_slice(), *x);
        if network.supply(*x).saturating_add(need) > MOST {
            return Err(BoundFault::NeedTooLarge(*x));
        }
        needs[x.0] = need;
    }
    Ok(needs)
}
