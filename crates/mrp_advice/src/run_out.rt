//! Advice: when the open orders of a pair are needed, one after the other.

ghost use Rattle.std.specs.Prelude.{◌≡◌, ◌+◌, ◌≤◌, if◌then◌else◌};
ghost use Rattle.mrp_qty.specs.declared.quantity.TheConstants.{MOST};
ghost use Rattle.mrp_advice.specs.Beyond.{advice_within};
ghost use Rattle.mrp_advice.specs.Lacking.{AreRunOuts, IsRunOut, first_lacking, lacks_of, run_out_of};
ghost use Rattle.mrp_advice.specs.Needed.{may_come_sooner};

use crate::beyond::advice_within;
use crate::lacks::Lacks;
use crate::{Advice, OpenOrder};
use mrp_netting::Policy;
use mrp_qty::{Qty, Row};

/// How long the open orders of a pair last that are of one sort, before the next of them.
#[derive(Clone, Copy)]
pub(crate) struct RunOut {
    /// Pieces of those so far.
    pub(crate) pieces: u64,
    /// The periods before this one lack no more.
    pub(crate) period: usize,
}

impl RunOut {
    /// Before the first of them.
    pub(crate) const START: RunOut = RunOut {
        pieces: 0,
        period: 0,
    };
}

/// How long the receipts last that may be counted sooner than they come, and how long the other open orders do.
#[derive(Clone, Copy)]
pub(crate) struct RunOuts {
    pub(crate) receipts: RunOut,
    pub(crate) others: RunOut,
}

/// The message for the next open order of a pair, where there is something to do. The orders of its sort then last longer
/// by it. Which orders are needed is whole in the first `whole` periods, or in all where there is no such number.
///
/// The pieces of each sort so far, and those of the order whichever its sort, are together at most 10^15.
pub(crate) fn next_advice(
    whole: Option<usize>,
    policy: Policy,
    lacks: &Lacks,
    run_outs: &mut RunOuts,
    order: OpenOrder,
) -> Option<Advice>
    requires run_outs { AreRunOuts lacks.now run_outs.old }
    requires room_of_receipts { run_outs.old.receipts.pieces + order.quantity ≤ MOST }
    requires room_of_others { run_outs.old.others.pieces + order.quantity ≤ MOST }
    ensures advice { result ≡ advice_within whole order (first_lacking (lacks_of lacks.now (may_come_sooner policy order))
        (run_out_of run_outs.old (may_come_sooner policy order)).pieces) }
    ensures run_outs { AreRunOuts lacks.now run_outs.new }
    ensures receipts { run_outs.new.receipts.pieces
        ≡ run_outs.old.receipts.pieces + (if may_come_sooner policy order then order.quantity else 0) }
    ensures others { run_outs.new.others.pieces
        ≡ run_outs.old.others.pieces + (if may_come_sooner policy order then 0 else order.quantity) }
{
    if order.may_come_sooner(policy) {
        let needed = next_needed(&lacks.receipts, &mut run_outs.receipts, order.quantity);
        return advice_within(whole, order, needed);
    }
    let needed = next_needed(&lacks.others, &mut run_outs.others, order.quantity);
    advice_within(whole, order, needed)
}

/// The period in which the next open order of a sort is needed. The orders then last longer by its pieces.
fn next_needed(lacks: &Row, run_out: &mut RunOut, quantity: Qty) -> Option<usize>
    requires run_out { IsRunOut lacks.now run_out.old }
    requires room { run_out.old.pieces + quantity ≤ MOST }
    ensures needed { result ≡ first_lacking lacks.now run_out.old.pieces }
    ensures run_out { IsRunOut lacks.now run_out.new }
    ensures pieces { run_out.new.pieces ≡ run_out.old.pieces + quantity }
{
    let needed = first_lacking(lacks, run_out);
    run_out.pieces += quantity.get();
    needed
}

/// The first period that lacks more than the orders so far, to which they last.
fn first_lacking(lacks: &Row, run_out: &mut RunOut) -> Option<usize>
    requires run_out { IsRunOut lacks.now run_out.old }
    ensures needed { result ≡ first_lacking lacks.now run_out.old.pieces }
    ensures run_out { IsRunOut lacks.now run_out.new }
    ensures pieces { run_out.new.pieces ≡ run_out.old.pieces }
{
    'periods: while run_out.period < lacks.len() {
        if run_out.pieces < lacks.get(run_out.period).get() {
            return Some(run_out.period);
        }
        run_out.period += 1;
    }
    None
}
