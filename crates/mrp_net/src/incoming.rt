//! The network: what comes in at its time for each pair. Where nothing is on its way, and no receipt may be counted
//! sooner, that is what is received, so only the other pairs have rows of their own.

ghost use Rattle.std.specs.Prelude.{◌≡◌, ℕ, ◌-◌, ◌*◌, ◌<◌, ◌^◌, [], length, replicate, All, IfOk, slice_index};
ghost use Rattle.mrp_master_data.specs.Table.{IsPair, horizon};
ghost use Rattle.mrp_grouping.specs.Added.{AddsAmounts};
ghost use Rattle.mrp_net.specs.Built.{ArePeriods, ArePolicies};
ghost use Rattle.mrp_net.specs.Incoming.{AreCounted, AreRows, IsIncoming};
ghost use Rattle.mrp_net.specs.Sums.{received, received_when_due, row_of};

use crate::policies::first_policy;
use crate::sums::{ByPeriod, Pieces};
use mrp_grouping::{Groups, KeyOf, add_amounts};
use mrp_master_data::{PolicyRow, ShipRow, Tables};
use mrp_qty::{LONGEST, Memory};
use std::alloc::Global;

/// No pieces in each period of the longest horizon.
const NO_PIECES: [u64; LONGEST as usize] = [0; LONGEST as usize];

/// What comes in for each pair to which something is on its way or whose policy has SOONER, row by row: its shipments,
/// and its receipts but where they may be counted sooner. And the place of each pair's row among them, counted from 1:
/// 0 for all other pairs.
#[derive(Drop)]
pub struct Incoming {
    pub rows: Vec<u64>,
    pub places: Vec<usize>,
}

/// The place of a shipment's pair as its key, from 0.
#[derive(Clone, Copy)]
struct ByPlace<'a> {
    places: &'a [usize],
}

impl<'a> KeyOf<ShipRow> for ByPlace<'a> {
    ghost has_key = { λ by s. 0 < slice_index by.places.now s.pair.0 };

    ghost key_of = { λ by s. slice_index by.places.now s.pair.0 - 1 };

    fn key(&self, ship: &ShipRow) -> usize {
        self.places[ship.pair.0] - 1
    }
}

/// Gives each pair of a shipment the next place where it first stands.
fn count_pairs(
    ships: &[ShipRow],
    pairs: &mut Vec<usize>,
    places: &mut [usize],
) -> Result<(), Memory>
    requires counted { AreCounted [] [] pairs.old.items places.old }
    requires within { All (λ s. s.pair.0 < length places.old) ships.now }
    ensures { IfOk result (λ _. AreCounted ships.now [] pairs.new.items places.new) }
{
    for ship in ships {
        let x = ship.pair.0;
        if places[x] == 0 {
            pairs.push(x)?;
            places[x] = pairs.len();
        }
    }
    Ok(())
}

/// Gives each pair whose policy has SOONER the next place where it has none.
fn count_sooner(tables: &Tables, pairs: &mut Vec<usize>, places: &mut [usize]) -> Result<(), Memory>
    requires counted { AreCounted tables.now.ships [] pairs.old.items places.old }
    requires size { length places.old ≡ length tables.now.pairs }
    ensures { IfOk result (λ _. AreCounted tables.now.ships tables.now.policies pairs.new.items places.new) }
{
    for row in tables.rows().policies() {
        let x = row.pair.0;
        if row.policy.sooner > 0 && places[x] == 0 {
            pairs.push(x)?;
            places[x] = pairs.len();
        }
    }
    Ok(())
}

/// The receipts of a pair that count when they come, period by period, out of the receipts of all pairs.
fn row_when_due<'a>(
    tables: &Tables,
    receipts: &'a [u64],
    policies: &Groups<PolicyRow>,
    x: usize,
) -> &'a [u64]
    requires all { ArePeriods tables.now (received tables.now) receipts.now }
    requires policies { ArePolicies tables.now policies.now.rows.items policies.now.starts.items }
    requires pair { IsPair tables.now x }
    ensures { result.now ≡ row_of tables.now (received_when_due tables.now x) }
{
    let periods = tables.horizon().get() as usize;
    if first_policy(policies.get(x)).sooner > 0 {
        &NO_PIECES[..periods]
    } else {
        &receipts[x * periods..(x + 1) * periods]
    }
}

/// The receipts of some pairs that count when they come, row by row, out of the receipts of all pairs.
fn received_of(
    alloc: Global,
    tables: &Tables,
    receipts: &[u64],
    policies: &Groups<PolicyRow>,
    pairs: &[usize],
) -> Result<Vec<u64>, Memory>
    requires all { ArePeriods tables.now (received tables.now) receipts.now }
    requires policies { ArePolicies tables.now policies.now.rows.items policies.now.starts.items }
    requires within { (k : ℕ) → k < length pairs.now → slice_index pairs.now k < length tables.now.pairs }
    requires few { length pairs.now < 2 ^ 32 }
    ensures { IfOk result (λ v. AreRows tables.now (received_when_due tables.now) pairs.now v.items) }
{
    let periods = tables.horizon().get() as usize;
    let mut rows = Vec::with_capacity(alloc, pairs.len() * periods)?;
    for x in pairs {
        rows.extend_from_slice(row_when_due(tables, receipts, policies, *x))?;
    }
    Ok(rows)
}

/// Adds the shipments to the rows of their pairs.
fn add_ships(tables: &Tables, pairs: &[usize], places: &[usize], rows: &mut [u64])
    requires counted { AreCounted tables.now.ships tables.now.policies pairs.now places.now }
    requires room { length rows.old ≡ length pairs.now * horizon tables.now }
    ensures { AddsAmounts (λ s. slice_index places.now s.pair.0 - 1) (λ s. s.period) (λ s. s.quantity)
        (horizon tables.now) tables.now.ships rows.old rows.new }
{
    let periods = tables.horizon().get() as usize;
    let by = ByPlace { places };
    let ships = tables.rows().ships();
    add_amounts(&by, &ByPeriod, &Pieces, ships, periods, rows);
}

/// The pairs that have a row of their own, in the order of their places.
fn counted_pairs(alloc: Global, tables: &Tables, places: &mut [usize]) -> Result<Vec<usize>, Memory>
    requires none { places.old ≡ replicate (length tables.now.pairs) 0 }
    ensures { IfOk result (λ v. AreCounted tables.now.ships tables.now.policies v.items places.new) }
{
    let mut pairs = Vec::new(alloc);
    count_pairs(tables.rows().ships(), &mut pairs, places)?;
    count_sooner(tables, &mut pairs, places)?;
    Ok(pairs)
}

impl Incoming {
    /// What comes in at its time for the pairs of a table, of which these are the receipts and the policies.
    pub fn of(
        alloc: Global,
        tables: &Tables,
        receipts: &[u64],
        policies: &Groups<PolicyRow>,
    ) -> Result<Incoming, Memory>
        requires receipts { ArePeriods tables.now (received tables.now) receipts.now }
        requires policies { ArePolicies tables.now policies.now.rows.items policies.now.starts.items }
        ensures { IfOk result (IsIncoming tables.now) }
    {
        let mut places = vec![in alloc; 0; tables.rows().pairs().len()]?;
        let pairs = counted_pairs(alloc, tables, places.as_mut_slice())?;
        let mut rows = received_of(alloc, tables, receipts, policies, pairs.as_slice())?;
        add_ships(
            tables,
            pairs.as_slice(),
            places.as_slice(),
            rows.as_mut_slice(),
        );
        Ok(Incoming { rows, places })
    }
}
