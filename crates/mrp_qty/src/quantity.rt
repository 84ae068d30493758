//! Quantities: one of them, of pieces, up to 10^15.

ghost use Rattle.std.specs.Prelude.{◌≡◌, ℕ, ◌≤◌, ◌↔◌, IsSome, IfSome, Some, decimal};
ghost use Rattle.mrp_qty.specs.declared.quantity.TheConstants.{MOST};

use std::fmt;
use std::marker::Model;

/// The greatest quantity: no figure of a plan passes 10^15 pieces.
pub const MOST: u64 = 1_000_000_000_000_000;

/// A quantity in whole pieces, from 0 to [`MOST`].
#[derive(Clone, Copy, Debug, PartialEq, Eq, PartialOrd, Ord, Hash)]
pub struct Qty {
    pieces: u64,
}

impl Model for Qty {
    ghost Value = { ℕ };

    ghost view = { λ q. q.pieces };

    ghost invariant = { λ q. q.pieces ≤ MOST };

    ghost inverse = { λ n. record { pieces = n } };
}

impl Qty {
    /// No pieces.
    pub const ZERO: Qty = Qty { pieces: 0 };

    /// The quantity of that many pieces, or `None` above [`MOST`].
    pub fn new(pieces: u64) -> Option<Qty>
        ensures within { IsSome result ↔ (pieces ≤ MOST) }
        ensures value { IfSome result (λ q. q ≡ pieces) }
    {
        if pieces <= MOST {
            Some(Qty::of(pieces))
        } else {
            None
        }
    }

    /// The quantity of that many pieces, which the caller knows to be at most [`MOST`].
    pub fn of(pieces: u64) -> Qty
        requires { pieces ≤ MOST }
        ensures { result ≡ pieces }
    {
        Qty { pieces }
    }

    /// How many pieces it is.
    pub fn get(self) -> u64
        ensures value { result ≡ self }
        ensures within { result ≤ MOST }
    {
        self.pieces
    }
}

impl fmt::Display for Qty {
    ghost output = { λ q. Some (decimal q) };

    fn fmt<W: fmt::Write>(&self, f: &mut fmt::Formatter<W>) -> fmt::Result {
        let pieces = self.get();
        write!(f, "{pieces}")
    }
}
