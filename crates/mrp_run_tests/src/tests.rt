//! Tests of runs: firms event by event, agents alone, crews, lanes between threads and runs by threads; what they come
//! to, and what gates see of them.

mod agents;
mod alone;
mod books;
mod crews;
mod endings;
mod firms;
mod gates;
mod lanes;
mod places;
mod stops;
mod trials;

use mrp_master_data::LimitSet;
use mrp_net::Network;
use mrp_tables::{Reading, read_tables_uncounted};
use std::alloc::Global;
use std::test::Fail;

/// The network of a table's text.
fn network_of(alloc: Global, text: &str) -> Result<Network, Fail> {
    let reading = Reading {
        whole: false,
        limits: LimitSet::Usual,
    };
    let tables = read_tables_uncounted(alloc, reading, text.as_bytes())?;
    Ok(Network::of(alloc, tables)?)
}
