//! Reach: how many periods of each pair's plan are whole.

ghost use Rattle.std.specs.Prelude.{◌≡◌, IfOk, length};
ghost use Rattle.mrp_master_data.specs.Table.{IsPair};
ghost use Rattle.mrp_reach.specs.Reach.{AreWhole, periods_joined, receipts_whole, releases_whole, whole_at};

use mrp_loops::SizedNet;
use mrp_lot::Rule;
use mrp_net::{Network, PairNo};
use mrp_qty::Memory;
use std::alloc::Global;

/// How many periods of the gross requirements of each pair are whole, in table order: from period 0 on, at most the
/// horizon. They are the same whatever is wanted behind the horizon.
///
/// # Errors
///
/// [`Memory`] where the room for them is refused.
pub fn whole_periods(alloc: Global, net: &SizedNet<'_>) -> Result<Vec<usize>, Memory>
    ensures { IfOk result (λ wholes. AreWhole net.now.network wholes.items) }
{
    let network = net.network();
    let mut wholes = vec![in alloc; 0; network.pairs()]?;
    for x in net.in_code_order() {
        let whole = whole_of(network, wholes.as_slice(), *x);
        wholes[x.0] = whole;
    }
    Ok(wholes)
}

/// How many periods of the pair's gross requirements are whole, those of its demanders being given: the horizon, or as
/// many as the releases of a demander where these are fewer.
fn whole_of(network: &Network, wholes: &[usize], x: PairNo) -> usize
    requires pair { IsPair network.now x.0 }
    requires size { length wholes.now ≡ length network.now.pairs }
    ensures { result ≡ whole_at network.now wholes.now x.0 }
{
    let mut whole = network.horizon().get() as usize;
    for edge in network.demanders(x) {
        let demander = edge.demander;
        whole = whole.min(releases_whole(network, demander, wholes[demander.0]));
    }
    whole
}

/// How many periods of a pair's releases are whole, where so many of its gross requirements are: its orders are whole
/// in fewer by the periods that it looks ahead, and are released its lead time before. No planned order is released
/// earlier than a lead time before the end of lead time and planning time fence: what is released before that is firm,
/// and whole.
pub fn releases_whole(network: &Network, x: PairNo, whole: usize) -> usize
    requires { IsPair network.now x.0 }
    ensures { result ≡ releases_whole network.now x.0 whole }
{
    let row = network.pair(x);
    let cover = network.policy(x).cover as usize;
    let orders = whole
        .saturating_sub(cover)
        .saturating_sub(periods_joined(&row.rule));
    (network.earliest(x) as usize)
        .max(orders)
        .saturating_sub(row.lead as usize)
}

/// How many periods of a pair's counted receipts are whole, where so many of its gross requirements are: fewer by its
/// periods of cover.
pub fn receipts_whole(network: &Network, x: PairNo, whole: usize) -> usize
    requires { IsPair network.now x.0 }
    ensures { result ≡ receipts_whole network.now x.0 whole }
{
    whole.saturating_sub(network.policy(x).cover as usize)
}

/// How many periods beyond its own an order by the rule is for.
fn periods_joined(rule: &Rule) -> usize
    ensures { result ≡ periods_joined rule.now }
{
    match *rule {
        Rule::LotForLot | Rule::Fixed(_) | Rule::MinMultiple(_, _) => 0,
        Rule::Periods(periods) => (periods as usize).saturating_sub(1),
    }
}
