//! Tests of runs: firms by lists of events, by `drive` and by events in random order, over
//! tables that were worked by hand.

ghost use Rattle.std.specs.Prelude.{◌≡◌, length};

mod events;
mod random;
mod refusals;
mod trials;

use crate::is_same_plan;
use mrp_book::LaneFigure;
use mrp_net::{Network, PairNo};
use mrp_plan::Plan;
use mrp_world::Firm;
use std::alloc::Global;
use std::test::Fail;

/// An item's figures on a lane: opening, shipped and received.
type Figures = (u64, u64, u64);

/// Whether each pair that is planned has the plan of the whole network.
fn follows(firm: &Firm, network: &Network, plan: &Plan) -> bool
    requires network { firm.now.network ≡ network.now }
    requires pairs { length plan.now ≡ length network.now.pairs }
{
    for x in 0..network.pairs() {
        if let Some(planned) = firm.planned(PairNo(x)) {
            if !is_same_plan(planned, plan.pair(PairNo(x))) {
                return false;
            }
        }
    }
    true
}

/// Whether each pair is planned.
fn is_planned_whole(firm: &Firm, network: &Network) -> bool
    requires network { firm.now.network ≡ network.now }
{
    for x in 0..network.pairs() {
        if firm.planned(PairNo(x)).is_none() {
            return false;
        }
    }
    true
}

/// Whether nothing is left to be done.
fn is_at_the_end(firm: &Firm) -> bool {
    firm.steps_left() == 0 && firm.finished() && firm.enabled().is_none()
}

/// Whether the figures are these, each as opening, shipped and received.
fn are_figures(figures: &[LaneFigure], wanted: &[Figures]) -> bool {
    figures.len() == wanted.len()
        && figures.iter().zip(wanted).all(|(figure, (opening, shipped, received))| {
            figure.opening.get() == *opening
                && figure.shipped.get() == *shipped
                && figure.received.get() == *received
        })
}

/// Whether the firm shows these figures.
fn shows(alloc: Global, firm: &Firm, wanted: &[Figures]) -> Result<bool, Fail> {
    let figures = firm.figures(alloc)?;
    Ok(are_figures(figures.as_slice(), wanted))
}

/// Whether all that was shipped is received.
fn are_received(figures: &[LaneFigure]) -> bool {
    figures
        .iter()
        .all(|figure| figure.shipped.get() == figure.received.get())
}
