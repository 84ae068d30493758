//! Tests of the library: the plan of a bicycle, which is the only one that fits. No command asks what fits.

ghost use Rattle.std.specs.Prelude.{◌≡◌, ◌≤◌, length};
ghost use Rattle.mrp_lot.specs.declared.rule.TheConstants.{LONGEST_LEAD};

use crate::tests::network;
use mrp_loops::{SizedNet, bound, check};
use mrp_lot::Rule;
use mrp_net::{Network, PairNo};
use mrp_netting::{PairParams, PairPlan, plan_pair};
use mrp_plan::{Plan, fits, plan_all};
use mrp_qty::{Horizon, Qty, Row};
use mrp_run_tests::BICYCLE;
use std::alloc::Global;
use std::test::Fail;

/// The plan of a bought pair of which 20 pieces are required in period 2.
fn wheels(alloc: Global, horizon: Horizon, lead: u64) -> Result<PairPlan, Fail>
    requires { lead ≤ LONGEST_LEAD }
{
    let params = PairParams {
        rule: Rule::LotForLot,
        lead,
        on_hand: Qty::ZERO,
        safety: Qty::ZERO,
    };
    let incoming = Row::zero(alloc, horizon)?;
    let mut gross = Row::zero(alloc, horizon)?;
    if gross.len() < 3 {
        return Err("too short")?;
    }
    gross.set(2, Qty::of(20));
    if incoming.total() > 0 || gross.total() > 20 {
        return Err("too large")?;
    }
    let mut plan = PairPlan::new(alloc, horizon)?;
    plan_pair(&params, &incoming, &gross, &mut plan);
    Ok(plan)
}

/// Whether the plan of the bicycle's network fits with the wheels' plan exchanged for one with
/// that lead time.
fn fits_with_lead(alloc: Global, net: &SizedNet, plan: &Plan, lead: u64) -> Result<bool, Fail>
    requires lead { lead ≤ LONGEST_LEAD }
    requires pairs { length plan.now ≡ length net.now.network.pairs }
{
    let network = net.network();
    let mut pairs = Vec::new(alloc);
    if network.pairs() != 2 {
        return Err("not two pairs")?;
    }
    pairs.push(plan.pair(PairNo(0)).copy(alloc)?)?;
    pairs.push(wheels(alloc, network.horizon(), lead)?)?;
    Ok(fits(net, &Plan::gather(net, pairs)))
}

/// Whether the plan fits, and no other release of the wheels does.
fn is_the_only_plan(alloc: Global, net: &SizedNet) -> Result<bool, Fail> {
    let plan = plan_all(alloc, net)?;
    Ok(
        fits(net, &plan)
            && fits_with_lead(alloc, net, &plan, 1)?
            && !fits_with_lead(alloc, net, &plan, 0)?,
    )
}

/// Whether the network has one plan only.
fn has_one_plan(alloc: Global, network: &Network) -> Result<bool, Fail> {
    let levels = check(alloc, network)?;
    let net = bound(alloc, network, &levels)?;
    is_the_only_plan(alloc, &net)
}

/// Whether the bicycle has one plan only.
fn a_bicycle_has_one_plan(alloc: Global) -> Result<bool, Fail> {
    let network = network(alloc, BICYCLE)?;
    let is_so = has_one_plan(alloc, &network);
    drop(network);
    is_so
}

#[test]
fn a_plan_with_another_release_does_not_fit(rt: HostRuntime) -> Result<(), Fail> {
    assert!(rt; a_bicycle_has_one_plan(rt.alloc())?);
    Ok(())
}
