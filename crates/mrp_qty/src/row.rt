//! Quantities: a row of them, one a period of the horizon.

ghost use Rattle.std.specs.Prelude.{◌≡◌, ℕ, ◌+◌, ◌*◌, ◌≤◌, ◌<◌, List, length, sum, replicate, slice_index, slice_set};
ghost use Rattle.std.specs.Prelude.{IfOk, All};
ghost use Rattle.mrp_qty.specs.declared.quantity.TheConstants.{MOST};
ghost use Rattle.mrp_qty.specs.declared.horizon.TheConstants.{LONGEST};
ghost use Rattle.mrp_qty.specs.Row.{IsRow};

use crate::{Horizon, Memory, Qty, periods};
use std::alloc::Global;
use std::marker::Model;

/// One quantity for each period of a horizon.
#[derive(Debug, Drop)]
pub struct Row {
    amounts: Vec<Qty>,
}

impl Model for Row {
    ghost Value = { List ℕ };

    ghost view = { λ r. r.amounts.items };

    ghost invariant = { λ r. IsRow r.amounts.items };
}

impl Row {
    /// A row of zeros.
    ///
    /// # Errors
    ///
    /// [`Memory`] where the room for it is refused.
    pub fn zero(alloc: Global, horizon: Horizon) -> Result<Row, Memory>
        ensures { IfOk result (λ row. row ≡ replicate horizon 0) }
    {
        let amounts = vec![in alloc; Qty::ZERO; horizon.get() as usize]?;
        Ok(Row { amounts })
    }

    /// How many periods the row has, 1 to 520.
    pub fn len(&self) -> usize
        ensures value { result ≡ length self.now }
        ensures row { IsRow self.now }
    {
        self.amounts.len()
    }

    /// The quantity of period `t`, which is below the row's length.
    pub fn get(&self, t: usize) -> Qty
        requires { t < length self.now }
        ensures { result ≡ slice_index self.now t }
    {
        self.amounts[t]
    }

    /// Makes `quantity` that of period `t`, which is below the row's length.
    pub fn set(&mut self, t: usize, quantity: Qty)
        requires { t < length self.old }
        ensures { self.new ≡ slice_set self.old t quantity }
    {
        self.amounts[t] = quantity;
    }

    /// Adds `quantity` to that of period `t`, which is below the row's length. Their sum is at most
    /// 10^15.
    pub fn add(&mut self, t: usize, quantity: Qty)
        requires period { t < length self.old }
        requires within { slice_index self.old t + quantity ≤ MOST }
        ensures { self.new ≡ slice_set self.old t (slice_index self.old t + quantity) }
    {
        let sum = self.amounts[t].get() + quantity.get();
        self.amounts[t] = Qty::of(sum);
    }

    /// Adds `times` each quantity of `other`, a row that is as long, to that of the same period. Each
    /// sum is at most 10^15.
    pub fn add_times(&mut self, times: u64, other: &Row)
        requires periods { length self.old ≡ length other.now }
        requires within { (t : ℕ) → t < length self.old
            → slice_index self.old t + times * slice_index other.now t ≤ MOST }
        ensures each { (t : ℕ) → t < length self.old →
            slice_index self.new t ≡ slice_index self.old t + times * slice_index other.now t }
        ensures size { length self.new ≡ length self.old }
    {
        periods::add_times(self.amounts.as_mut_slice(), times, other.as_slice());
    }

    /// The sum over all periods, at most 520 times 10^15.
    pub fn total(&self) -> u64
        ensures { result ≡ sum self.now }
    {
        let mut total = 0;
        for quantity in self.amounts.as_slice() {
            total += quantity.get();
        }
        total
    }

    /// The quantities in the order of the periods.
    pub fn as_slice(&self) -> &[Qty]
        ensures value { result.now ≡ self.now }
        ensures row { IsRow self.now }
    {
        self.amounts.as_slice()
    }

    /// Makes every quantity 0.
    pub fn clear(&mut self)
        ensures { self.new ≡ replicate (length self.old) 0 }
    {
        self.amounts.as_mut_slice().fill(Qty::ZERO);
    }

    /// Makes the quantities that many pieces: a number for each period, each at most 10^15.
    pub fn copy_pieces(&mut self, pieces: &[u64])
        requires periods { length self.old ≡ length pieces.now }
        requires within { All (λ quantity. quantity ≤ MOST) pieces.now }
        ensures { self.new ≡ pieces.now }
    {
        periods::copy_pieces(self.amounts.as_mut_slice(), pieces);
    }

    /// Takes over the quantities of a row that is as long.
    pub fn copy_from(&mut self, other: &Row)
        requires { length self.old ≡ length other.now }
        ensures { self.new ≡ other.now }
    {
        self.amounts
            .as_mut_slice()
            .copy_from_slice(other.amounts.as_slice());
    }
}
