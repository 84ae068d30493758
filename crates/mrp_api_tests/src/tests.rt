//! Tests of the library: calls that no command makes. What fits and the texts of records, on cases that were worked by
//! hand, and the text functions at their edges.

mod blocks;
mod endings;
mod fitting;
mod gates;
mod large;
mod memory;
mod outcomes;
mod record_faults;
mod records;
mod reports;
mod requests;
mod streams;
mod vendors;

use mrp_commands::Reading;
use mrp_master_data::LimitSet;
use mrp_net::Network;
use mrp_tables::read_tables_uncounted;
use std::alloc::Global;
use std::process::Abort;
use std::test::Fail;

/// A table within the usual limits, whether it ends with an `end` row or not.
const READ_ALL: Reading = Reading {
    whole: false,
    limits: LimitSet::Usual,
};

/// The network of a table's text.
fn network(alloc: Global, text: &str) -> Result<Network, Fail> {
    let tables = read_tables_uncounted(alloc, READ_ALL, text.as_bytes())?;
    Ok(Network::of(alloc, tables)?)
}

/// The same, where why there is none doesn't matter.
fn network_of(alloc: Global, text: &str) -> Option<Network> {
    let tables = read_tables_uncounted(alloc, READ_ALL, text.as_bytes()).ok()?;
    Network::of(alloc, tables).ok()
}

/// Asserts that this is the report, or the line of the fault. A test calls it, and has no assertion of
/// its own for each report: what an assertion lets go where it fails is proved once.
pub(crate) fn is_report<R: Abort>(rt: &R, written: String, report: &str) {
    assert_eq!(rt; written.as_str(), report);
}
