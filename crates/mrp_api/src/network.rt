//! The library: from a table's bytes to its network, for the text functions, with low-level codes and figures within
//! the bound, or the fault that there is.

ghost use Rattle.std.specs.Prelude.{◌≡◌, map, IfOk, IfErr, All};
ghost use Rattle.mrp_loops.specs.Sized.{IsSized};
ghost use Rattle.mrp_master_data.specs.Table.{IsPair};
ghost use Rattle.mrp_loops.specs.Loop.{IsLoopFree};
ghost use Rattle.mrp_loops.specs.Codes.{AreCodes};
ghost use Rattle.mrp_api.specs.Text.{IsTableOf, Suits};
ghost use Rattle.mrp_api.specs.Refusals.{IsPairName, AreCalled};
ghost use Rattle.mrp_api.specs.Checks.{AreLoopPairs, BoundAnswers, IsBoundPair};
ghost use Rattle.mrp_api.specs.Checks.{LoopCheckAnswers, IsOfBound, IsOfLoop};
ghost use Rattle.mrp_api.specs.Checks.{NetworkAnswers};

use crate::fault::{PairName, TextFault};
use mrp_commands::Reading;
use mrp_loops::{BoundFault, Levels, LoopFault, SizedNet, bound, check};
use mrp_master_data::Tables;
use mrp_net::{Network, PairNo};
use mrp_qty::Memory;
use mrp_tables::{read_tables_by_threads, read_tables_uncounted};
use std::alloc::{AllocError, Global};
use std::io::Read;
use std::thread::Threads;

/// The network of a table with fewer bill rows is made by one thread.
const MANY_BILLS: usize = 10_000;

/// The network of the table, which is read as is asked.
pub(crate) fn network_of<R: Read + Drop>(
    alloc: Global,
    reading: Reading,
    reader: R,
) -> Result<Network, TextFault>
    ensures rows { IfOk result (IsTableOf reading.limits (R.remaining reader)) }
    ensures whole { IfOk result (Suits reading) }
    ensures refusal { IfErr result (NetworkAnswers reading (R.remaining reader)) }
{
    let tables = read_tables_uncounted(alloc, reading, reader)?;
    let network = Network::of(alloc, tables)?;
    // Every network is that of a table.
    let _pairs = network.pairs();
    Ok(network)
}

/// The network of the table, which threads read as is asked.
pub(crate) fn network_by_threads<T: Threads + Sync, R: Read + Drop>(
    rt: &T,
    alloc: Global,
    reading: Reading,
    reader: R,
) -> Result<Network, TextFault>
    ensures rows { IfOk result (IsTableOf reading.limits (R.remaining reader)) }
    ensures whole { IfOk result (Suits reading) }
    ensures refusal { IfErr result (NetworkAnswers reading (R.remaining reader)) }
{
    let tables = read_tables_by_threads(rt, alloc, reading, reader)?;
    let network = network_beside(rt, alloc, tables)?;
    // Every network is that of a table.
    let _pairs = network.pairs();
    Ok(network)
}

/// The network of a table: where that has many bill rows a thread makes its edges.
fn network_beside<T: Threads>(rt: &T, alloc: Global, tables: Tables) -> Result<Network, Memory>
    ensures { IfOk result (λ network. network ≡ tables) }
{
    if tables.rows().bills().len() < MANY_BILLS {
        return Network::of(alloc, tables);
    }
    Network::by_threads(rt, alloc, tables)
}

/// The low-level codes of a network without loops.
pub(crate) fn levels_of(alloc: Global, network: &Network) -> Result<Levels, TextFault>
    ensures codes { IfOk result (λ levels. AreCodes network.now levels × IsLoopFree network.now) }
    ensures refusal { IfErr result (LoopCheckAnswers network.now) }
{
    // Every table has what its edges name, so the pairs of a loop have names.
    let _pairs = network.pairs();
    match check(alloc, network) {
        Ok(levels) => Ok(levels),
        Err(fault) => Err(loop_fault(alloc, network, fault)?),
    }
}

/// The fault of a text that a fault of the loop check is; an error where memory for the names is refused.
fn loop_fault(alloc: Global, network: &Network, fault: LoopFault) -> Result<TextFault, AllocError>
    requires pairs { AreLoopPairs network.now fault }
    ensures { IfOk result (IsOfLoop network.now fault) }
{
    match fault {
        LoopFault::Loop(pairs) => {
            Ok(TextFault::Loop(names_of(alloc, network, pairs.as_slice())?))
        }
        LoopFault::Memory => Ok(TextFault::Memory),
    }
}

/// The network, where its figures stay within the bound.
pub(crate) fn sized_of<'a>(
    alloc: Global,
    network: &'a Network,
    levels: &'a Levels,
) -> Result<SizedNet<'a>, TextFault>
    requires codes { AreCodes network.now levels.now }
    requires loop_free { IsLoopFree network.now }
    ensures network { IfOk result (λ net. net.network ≡ network.now) }
    ensures plannable { IfOk result (λ _. IsSized network.now) }
    ensures refusal { IfErr result (BoundAnswers network.now levels.now) }
{
    match bound(alloc, network, levels) {
        Ok(net) => {
            // The figures of every sized network are within the bound.
            let _network = net.network();
            Ok(net)
        }
        Err(fault) => Err(bound_fault(alloc, network, fault)?),
    }
}

/// The fault of a text that a fault of the bound is; an error where memory for the names is refused.
fn bound_fault(alloc: Global, network: &Network, fault: BoundFault) -> Result<TextFault, AllocError>
    requires pair { IsBoundPair network.now fault }
    ensures { IfOk result (IsOfBound network.now fault) }
{
    match fault {
        BoundFault::SupplyTooLarge(x) => {
            Ok(TextFault::SupplyTooLarge(name_of(alloc, network, x)?))
        }
        BoundFault::NeedTooLarge(x) => Ok(TextFault::NeedTooLarge(name_of(alloc, network, x)?)),
        BoundFault::Memory => Ok(TextFault::Memory),
    }
}

/// The names of pairs.
fn names_of(alloc: Global, network: &Network, pairs: &[PairNo]) -> Result<Vec<PairName>, AllocError>
    requires { All (λ x. IsPair network.now x.0) pairs.now }
    ensures { IfOk result (λ names. AreCalled network.now (map (λ x. x.0) pairs.now) names.items) }
{
    let mut names = Vec::with_capacity(alloc, pairs.len())?;
    'pairs: for x in pairs {
        names.push(name_of(alloc, network, *x)?)?;
    }
    Ok(names)
}

/// The names of a pair.
fn name_of(alloc: Global, network: &Network, x: PairNo) -> Result<PairName, AllocError>
    requires { IsPair network.now x.0 }
    ensures { IfOk result (IsPairName network.now x.0) }
{
    let (plant, item) = network.pair_name(x);
    let plant = String::from_str(alloc, plant)?;
    let item = String::from_str(alloc, item)?;
    Ok(PairName { plant, item })
}
