//! Tests of runs: what is tried on the network of a table by events, each by its name. A function holds one of the
//! network, its codes and the checked network.

ghost use Rattle.mrp_loops.specs.Codes.{AreCodes};

use super::Figures;
use super::events::{Tried, counts_what_is_enabled, ends_at_each_capacity, goes_so};
use super::random::keep_on;
use super::refusals::answers_or_is_refused;
use crate::Ending;
use crate::tests::network_of;
use mrp_loops::{Levels, SizedNet, bound, check};
use mrp_net::Network;
use std::alloc::Global;
use std::test::Fail;

/// What is tried on a network.
#[derive(Clone, Copy)]
pub(super) enum Trial<'a> {
    /// A firm with mailboxes of that room takes the events so, and shows these figures after them.
    Goes(u64, &'a [Tried], &'a [Figures]),
    /// Lists count the events that are enabled.
    CountsWhatIsEnabled,
    /// Firms that begin with so many steps are driven to this ending.
    Ends(&'a Ending, u64),
    /// Firms keep the laws under so many orders of events.
    KeepsOn(u64),
    /// A firm answers as it has to, or is refused memory.
    AnswersOrIsRefused,
}

/// Whether a trial goes as it says.
fn holds(alloc: Global, net: &SizedNet<'_>, trial: Trial<'_>) -> Result<bool, Fail> {
    match trial {
        Trial::Goes(capacity, tried, figures) => goes_so(alloc, net, capacity, tried, figures),
        Trial::CountsWhatIsEnabled => counts_what_is_enabled(alloc, net),
        Trial::Ends(ending, steps) => ends_at_each_capacity(alloc, net, ending, steps),
        Trial::KeepsOn(lists) => keep_on(alloc, net, lists),
        Trial::AnswersOrIsRefused => answers_or_is_refused(alloc, net),
    }
}

/// The same of a network with these low-level codes.
fn holds_at_levels(
    alloc: Global,
    network: &Network,
    levels: &Levels,
    trial: Trial<'_>,
) -> Result<bool, Fail>
    requires { AreCodes network.now levels.now }
{
    let net = bound(alloc, network, levels)?;
    holds(alloc, &net, trial)
}

/// The same of a network.
fn holds_in_network(alloc: Global, network: &Network, trial: Trial<'_>) -> Result<bool, Fail> {
    let levels = check(alloc, network)?;
    holds_at_levels(alloc, network, &levels, trial)
}

/// The same of the network of a table's text.
pub(super) fn holds_of(alloc: Global, table: &str, trial: Trial<'_>) -> Result<bool, Fail> {
    let network = network_of(alloc, table)?;
    let is_so = holds_in_network(alloc, &network, trial);
    drop(network);
    is_so
}
