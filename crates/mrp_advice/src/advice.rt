//! Advice: what an exception message says of an open order, to expedite, defer or cancel it.

ghost use Rattle.std.specs.Prelude.{◌≡◌};
ghost use Rattle.mrp_advice.specs.Actions.{action_for, advice_for};

use crate::OpenOrder;

/// What to do with an open order that isn't due in the period in which it is needed.
#[derive(Clone, Copy, Debug, PartialEq, Eq)]
pub enum Action {
    /// Reschedule in: it is needed before it is due.
    Expedite,
    /// Reschedule out: it is needed after it is due.
    Defer,
    /// It is needed in no period of the horizon.
    Cancel,
    /// It isn't needed in the periods in which the plan is whole, and nothing is known of later ones.
    Beyond,
}

/// An exception message for an open order.
#[derive(Clone, Copy, Debug)]
pub struct Advice {
    /// What to do.
    pub action: Action,
    /// The order.
    pub order: OpenOrder,
    /// The period in which it is needed, from 0, below the horizon; none where it is to be cancelled, or where nothing
    /// is known of it.
    pub needed: Option<usize>,
}

/// The message for an order that is needed in a period, or in none, where there is something to do.
pub(crate) fn advice_for(order: OpenOrder, needed: Option<usize>) -> Option<Advice>
    ensures { result ≡ advice_for order needed }
{
    let action = action_for(order.period, needed)?;
    Some(Advice {
        action,
        order,
        needed,
    })
}

/// What to do with an order that is due in one period and needed in another or in none.
fn action_for(due: usize, needed: Option<usize>) -> Option<Action>
    ensures { result ≡ action_for due needed }
{
    match needed {
        None => Some(Action::Cancel),
        Some(period) if period < due => Some(Action::Expedite),
        Some(period) if period > due => Some(Action::Defer),
        Some(_) => None,
    }
}
