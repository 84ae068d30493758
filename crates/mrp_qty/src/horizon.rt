//! Quantities: the planning horizon, which is how many periods they are planned for.

ghost use Rattle.std.specs.Prelude.{◌≡◌, ℕ, ◌≤◌, ◌↔◌, IsSome, IfSome};
ghost use Rattle.mrp_qty.specs.declared.horizon.TheConstants.{LONGEST};
ghost use Rattle.mrp_qty.specs.Limits.{limits_of};

use crate::LimitSet;
use std::marker::Model;

/// The greatest number of periods of any table: two years of working days.
pub const LONGEST: u64 = 520;

/// How many periods are planned: 1 to [`LONGEST`], numbered from 0.
#[derive(Clone, Copy, Debug, PartialEq, Eq, PartialOrd, Ord, Hash)]
pub struct Horizon {
    periods: u64,
}

impl Model for Horizon {
    ghost Value = { ℕ };

    ghost view = { λ h. h.periods };

    ghost invariant = { λ h. (1 ≤ h.periods) × (h.periods ≤ LONGEST) };

    ghost inverse = { λ n. record { periods = n } };
}

impl Horizon {
    /// The horizon of that many periods, or `None` where it is 0 or above 104, two years of weeks.
    pub fn new(periods: u64) -> Option<Horizon>
        ensures within { IsSome result ↔ ((1 ≤ periods) × (periods ≤ 104)) }
        ensures value { IfSome result (λ h. h ≡ periods) }
    {
        Horizon::within(LimitSet::Usual, periods)
    }

    /// The horizon of that many periods, or `None` where it is 0 or above the limits' periods: 104, or [`LONGEST`].
    pub fn within(limits: LimitSet, periods: u64) -> Option<Horizon>
        ensures within { IsSome result ↔ ((1 ≤ periods) × (periods ≤ (limits_of limits).periods)) }
        ensures value { IfSome result (λ h. h ≡ periods) }
    {
        if periods >= 1 && periods <= limits.limits().periods {
            Some(Horizon { periods })
        } else {
            None
        }
    }

    /// How many periods it has.
    pub fn get(self) -> u64
        ensures value { result ≡ self }
        ensures some { 1 ≤ result }
        ensures within { result ≤ LONGEST }
    {
        self.periods
    }
}
