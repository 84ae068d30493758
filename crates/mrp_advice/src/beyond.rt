//! Advice where a plan is whole in its first periods alone.

ghost use Rattle.std.specs.Prelude.{◌≡◌, IfSome, length};
ghost use Rattle.mrp_master_data.specs.Table.{IsPair};
ghost use Rattle.mrp_advice.specs.Beyond.{advice_within, beyond_for, is_needed_below, needs_whole, wholes_of};

use crate::advice::advice_for;
use crate::{Action, Advice, OpenOrder};
use mrp_net::{Network, PairNo};
use mrp_reach::receipts_whole;

/// In how many periods it is whole which open orders of a pair are needed there, where the whole periods of each pair's
/// gross requirements are given.
pub(crate) fn needs_whole(network: &Network, wholes: Option<&[usize]>, x: PairNo) -> Option<usize>
    requires pair { IsPair network.now x.0 }
    requires wholes { IfSome wholes (λ wholes. length wholes.now ≡ length network.now.pairs) }
    ensures { result ≡ needs_whole (wholes_of wholes.entry) network.now x.0 }
{
    match wholes {
        None => None,
        Some(wholes) => Some(receipts_whole(network, x, wholes[x.0])),
    }
}

/// The message for an order that is needed in a period, or in none, where there is something to do. With `whole`, so many
/// periods, one that isn't needed in one of them has [`Action::Beyond`] where it comes in one, and no message where it
/// comes later.
pub(crate) fn advice_within(
    whole: Option<usize>,
    order: OpenOrder,
    needed: Option<usize>,
) -> Option<Advice>
    ensures { result ≡ advice_within whole order needed }
{
    match whole {
        None => advice_for(order, needed),
        Some(whole) => {
            if is_needed_below(whole, needed) {
                advice_for(order, needed)
            } else {
                beyond_for(whole, order)
            }
        }
    }
}

/// Whether an order is needed, and in one of so many periods.
fn is_needed_below(whole: usize, needed: Option<usize>) -> bool
    ensures { result ≡ is_needed_below whole needed }
{
    match needed {
        None => false,
        Some(period) => period < whole,
    }
}

/// The message for an order that isn't needed in one of so many periods, where it comes in one.
fn beyond_for(whole: usize, order: OpenOrder) -> Option<Advice>
    ensures { result ≡ beyond_for whole order }
{
    if order.period < whole {
        Some(Advice {
            action: Action::Beyond,
            order,
            needed: None,
        })
    } else {
        None
    }
}
