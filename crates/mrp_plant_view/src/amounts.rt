//! The view of one plant: what it has of demand and receipts, what the demand rows of its pairs add up to, and their
//! receipt rows that count when they come.
ghost use Rattle.std.specs.Prelude.{◌≡◌, ◌≤◌, ◌++◌, length, All, IfOk};
ghost use Rattle.std.specs.List.{flat_map};
ghost use Rattle.mrp_master_data.specs.Table.{IsPair};
ghost use Rattle.mrp_net.specs.Sums.{row_of, received_when_due};
ghost use Rattle.mrp_plant_view.specs.View.{amount_of};

use crate::view::PlantPair;
use mrp_net::{Network, PairNo};
use mrp_qty::Memory;
use std::alloc::Global;

/// Which rows of a pair are added up.
#[derive(Clone, Copy)]
pub(crate) enum Amounts {
    /// All demand rows.
    Demands,
    /// The receipt rows, if they count when they come.
    Receipts,
}

/// What they add up to, pair by pair and period by period.
pub(crate) fn plant_amounts(
    alloc: Global,
    network: &Network,
    pairs: &[PlantPair],
    which: Amounts,
) -> Result<Vec<u64>, Memory>
    requires pairs { All (λ p. IsPair network.now p.number.0) pairs.now }
    requires few { length pairs.now ≤ length network.now.pairs }
    ensures { IfOk result (λ v. v.items ≡ flat_map
        (λ p. row_of network.now (amount_of which network.now p.number.0)) pairs.now) }
{
    let _pairs = network.pairs();
    let periods = network.horizon().get() as usize;
    let mut amounts = Vec::with_capacity(alloc, pairs.len() * periods)?;
    for pair in pairs {
        add_amounts(&mut amounts, network, pair.number, which)?;
    }
    Ok(amounts)
}

/// Adds what they add up to for a pair, period by period.
fn add_amounts(
    amounts: &mut Vec<u64>,
    network: &Network,
    x: PairNo,
    which: Amounts,
) -> Result<(), Memory>
    requires { IsPair network.now x.0 }
    ensures { IfOk result (λ _. amounts.new.items ≡ amounts.old.items
        ++ row_of network.now (amount_of which network.now x.0)) }
{
    match which {
        Amounts::Demands => amounts.extend_from_slice(network.demand_row(x))?,
        Amounts::Receipts => add_receipts(amounts, network, x)?,
    }
    Ok(())
}

/// Adds what the receipt rows of a pair add up to, period by period, and 0 where they may be counted sooner.
fn add_receipts(amounts: &mut Vec<u64>, network: &Network, x: PairNo) -> Result<(), Memory>
    requires { IsPair network.now x.0 }
    ensures { IfOk result (λ _. amounts.new.items ≡ amounts.old.items
        ++ row_of network.now (received_when_due network.now x.0)) }
{
    if network.policy(x).sooner > 0 {
        let periods = network.horizon().get() as usize;
        amounts.resize(amounts.len() + periods, 0)?;
    } else {
        amounts.extend_from_slice(network.received_row(x))?;
    }
    Ok(())
}
