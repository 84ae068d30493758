//! Shortages: what is there of a pair in period 0, and what each requirement of the period lacks of it.

ghost use Rattle.std.specs.Prelude.{◌≡◌, ◌==◌, ◌≤◌, ◌+◌, ◌-◌, ◌*◌, if◌then◌else◌, sum_by};
ghost use Rattle.mrp_loops.specs.Sized.{IsSized};
ghost use Rattle.mrp_master_data.specs.Table.{IsPair};
ghost use Rattle.mrp_qty.specs.declared.quantity.TheConstants.{MOST};
ghost use Rattle.mrp_net.specs.FirmOrders.{due_in};
ghost use Rattle.mrp_net.specs.PlanLaws.{Fits};
ghost use Rattle.mrp_net.specs.Sums.{received, shipped};
ghost use Rattle.mrp_shortages.specs.Shortages.{is_made_at_once, lack_of, made_at_once, there};

use mrp_master_data::{FirmRow, PairNo, Supply};
use mrp_net::Network;
use mrp_plan::{PegTerm, Plan};

/// A requirement of period 0 that gets less than it asks for.
#[derive(Clone, Copy, Debug)]
pub struct Shortage {
    /// The term of the gross requirement.
    pub term: PegTerm,
    /// How many of its pieces are missing, 1 to its quantity.
    pub short: u64,
}

/// The pieces of a pair that are there in period 0: on hand, its receipts and the shipments to it that come in the period
/// by their rows, and its orders that are due in it where it is made at once.
pub(crate) fn there(network: &Network, plan: &Plan, x: PairNo) -> u64
    requires sized { IsSized network.now }
    requires fits { Fits network.now plan.now }
    requires pair { IsPair network.now x.0 }
    ensures { result ≡ there network.now plan.now x.0 }
{
    network.pair(x).on_hand.get() + come(network, x) + made_at_once(network, plan, x)
}

/// What comes in for a pair in period 0 by the rows of its receipts and of the shipments to it, whether receipts may be
/// counted sooner or not.
fn come(network: &Network, x: PairNo) -> u64
    requires sized { IsSized network.now }
    requires pair { IsPair network.now x.0 }
    ensures pieces { result ≡ received network.now x.0 0 + shipped network.now x.0 0 }
    ensures within { result ≤ 2 * MOST }
{
    let incoming = network.incoming(x, 0);
    if network.policy(x).sooner > 0 {
        network.received_row(x)[0] + incoming
    } else {
        incoming
    }
}

/// The orders of a pair that are due in period 0, firm and planned, where it is made at once. Of every other pair there
/// are none.
fn made_at_once(network: &Network, plan: &Plan, x: PairNo) -> u64
    requires sized { IsSized network.now }
    requires fits { Fits network.now plan.now }
    requires pair { IsPair network.now x.0 }
    ensures pieces { result ≡ made_at_once network.now plan.now x.0 }
    ensures within { result ≤ 2 * MOST }
{
    if is_made_at_once(network, x) {
        firm_pieces(network.firm_orders(x)) + plan.pair(x).order().get(0).get()
    } else {
        0
    }
}

/// Whether a pair is made, and its planned orders can come in in period 0.
fn is_made_at_once(network: &Network, x: PairNo) -> bool
    requires { IsPair network.now x.0 }
    ensures { result ≡ is_made_at_once network.now x.0 }
{
    match network.pair(x).supply {
        Supply::Make => network.earliest(x) == 0,
        Supply::Buy | Supply::From => false,
    }
}

/// The pieces of firm planned orders that are due in period 0.
fn firm_pieces(orders: &[FirmRow]) -> u64
    requires { sum_by (λ f. f.quantity) orders.now ≤ MOST }
    ensures pieces { result ≡ due_in orders.now 0 }
    ensures within { result ≤ MOST }
{
    let mut pieces = 0;
    'orders: for order in orders {
        pieces += pieces_now(order);
    }
    pieces
}

/// The pieces of a firm planned order, where it is due in period 0.
fn pieces_now(order: &FirmRow) -> u64
    ensures { result ≡ (if order.now.due == 0 then order.now.quantity else 0) }
{
    if order.due == 0 {
        order.quantity.get()
    } else {
        0
    }
}

/// What a requirement lacks of the pieces that are left, which it takes as far as they go.
pub(crate) fn take(left: &mut u64, term: PegTerm) -> Shortage
    ensures lack { result ≡ lack_of left.old term }
    ensures left { left.new ≡ left.old - term.quantity }
{
    let short = term.quantity.saturating_sub(*left);
    *left = left.saturating_sub(term.quantity);
    Shortage { term, short }
}
