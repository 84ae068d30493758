//! The network: its lanes, and the items on each.

ghost use Rattle.std.specs.Prelude.{◌≡◌, ◌+◌, ◌*◌, ◌<◌, ◌++◌, true, length, map, replicate, All, IfOk};
ghost use Rattle.mrp_master_data.specs.Table.{is_taken_from};
ghost use Rattle.mrp_grouping.specs.Added.{AddsTotals};
ghost use Rattle.mrp_net.specs.Lanes.{lanes, lanes_of, both_lanes, figure, shipped_from};
ghost use Rattle.mrp_net.specs.Routes.{taken, AreItems, AreLaneLists};
ghost use Rattle.mrp_net.specs.Sources.{source_no};
ghost use Rattle.mrp_net.specs.SourceRows.{sent, AreSourceStarts, AreShipments, AreSent, AreResets, AreResetsOf};

use crate::lane::{Lane, LaneKind, Shipment};
use crate::sums::{OfPair, Pieces};
use mrp_grouping::{AmountOf, Groups, KeyOf, add_totals, group, starts};
use mrp_master_data::{ItemNo, PairNo, PlantNo, Tables};
use mrp_qty::Memory;
use std::alloc::Global;

/// The lanes of a network, the items of each route, where the sources of each pair begin, and what
/// comes by each source: the shipments on their way, what was shipped before them, their sum, and the
/// period from which its figures start anew.
#[derive(Drop)]
pub struct LaneLists {
    pub lanes: Vec<Lane>,
    pub items: Groups<ItemNo>,
    pub sources: Vec<usize>,
    pub shipments: Groups<Shipment>,
    pub figures: Vec<u64>,
    pub shipped: Vec<u64>,
    pub resets: Vec<Option<u64>>,
}

/// An item that is taken over a route. The number of a route is its customer's times the number of
/// plants, plus its supplier's.
#[derive(Clone, Copy)]
struct Taken {
    route: usize,
    item: ItemNo,
}

/// Puts items into groups by their routes.
struct ByRoute;

impl KeyOf<Taken> for ByRoute {
    ghost key_of = { λ _ t. t.route };

    fn key(&self, taken: &Taken) -> usize {
        taken.route
    }
}

/// A shipment and the number of the source by which it comes.
#[derive(Clone, Copy)]
struct Sent {
    source: usize,
    shipment: Shipment,
}

/// Puts shipments into groups by their sources.
struct BySource;

impl KeyOf<Sent> for BySource {
    ghost key_of = { λ _ s. s.source };

    fn key(&self, sent: &Sent) -> usize {
        sent.source
    }
}

impl AmountOf<Sent> for Pieces {
    ghost amount_of = { λ _ s. s.shipment.quantity };

    fn amount(&self, sent: &Sent) -> u64 {
        sent.shipment.quantity.get()
    }
}

/// The items of all sources and their routes.
fn all_taken(alloc: Global, tables: &Tables) -> Result<Vec<Taken>, Memory>
    ensures { IfOk result (λ v. v.items ≡ map (taken tables.now) tables.now.sources) }
{
    let rows = tables.rows();
    let pairs = rows.pairs();
    let plants = rows.plants();
    let sources = rows.sources();
    let mut all = Vec::with_capacity(alloc, sources.len())?;
    for source in sources {
        let pair = pairs[source.pair.0];
        all.push(Taken {
            route: pair.plant.0 * plants + source.plant.0,
            item: pair.item,
        })?;
    }
    Ok(all)
}

/// The items alone.
fn items_of(alloc: Global, all: &[Taken]) -> Result<Vec<ItemNo>, Memory>
    ensures { IfOk result (λ v. v.items ≡ map (λ t. t.item) all.now) }
{
    let items: Vec<ItemNo> = all.iter().map(|taken| taken.item).collect(alloc)?;
    Ok(items)
}

/// The items of each route, in table order of the customer's pairs.
fn items(alloc: Global, tables: &Tables) -> Result<Groups<ItemNo>, Memory>
    ensures { IfOk result (λ g. AreItems tables.now g.rows.items g.starts.items) }
{
    let plants = tables.rows().plants();
    let all = all_taken(alloc, tables)?;
    let Groups { rows, starts } = group(alloc, &ByRoute, all.as_slice(), plants * plants)?;
    let items = items_of(alloc, rows.as_slice())?;
    Ok(Groups {
        rows: items,
        starts,
    })
}

/// The two lanes between a customer and a supplier.
fn add_both(lanes: &mut Vec<Lane>, customer: PlantNo, supplier: PlantNo) -> Result<(), Memory>
    ensures { IfOk result (λ _. lanes.new.items ≡ lanes.old.items ++ both_lanes customer supplier) }
{
    lanes.push(Lane {
        kind: LaneKind::Despatch,
        sender: supplier,
        receiver: customer,
    })?;
    lanes.push(Lane {
        kind: LaneKind::Schedule,
        sender: customer,
        receiver: supplier,
    })?;
    Ok(())
}

/// The lanes of a customer, by supplier.
fn add_lanes(
    lanes: &mut Vec<Lane>,
    tables: &Tables,
    items: &Groups<ItemNo>,
    customer: usize,
) -> Result<(), Memory>
    requires plant { customer < length tables.now.plants }
    requires items { AreItems tables.now items.now.rows.items items.now.starts.items }
    ensures { IfOk result (λ _. lanes.new.items ≡ lanes.old.items ++ lanes_of tables.now customer) }
{
    let plants = tables.rows().plants();
    for supplier in 0..plants {
        let route = customer * plants + supplier;
        if items.starts[route] < items.starts[route + 1] {
            add_both(lanes, PlantNo(customer), PlantNo(supplier))?;
        }
    }
    Ok(())
}

/// All lanes: by customer, then by supplier, the despatch lane before the schedule lane.
fn all_lanes(alloc: Global, tables: &Tables, items: &Groups<ItemNo>) -> Result<Vec<Lane>, Memory>
    requires { AreItems tables.now items.now.rows.items items.now.starts.items }
    ensures { IfOk result (λ v. v.items ≡ lanes tables.now) }
{
    let mut lanes = Vec::new(alloc);
    for customer in 0..tables.rows().plants() {
        add_lanes(&mut lanes, tables, items, customer)?;
    }
    Ok(lanes)
}

/// Where the sources of each pair begin.
fn source_starts(alloc: Global, tables: &Tables) -> Result<Vec<usize>, Memory>
    ensures { IfOk result (λ v. AreSourceStarts tables.now v.items) }
{
    let rows = tables.rows();
    let pairs = rows.pairs().len();
    let begins = starts(alloc, &OfPair, rows.sources(), pairs)?;
    Ok(begins)
}

/// The number of the source by which a pair takes from a plant: one of the few of the pair, which stand together.
pub fn source_of(tables: &Tables, starts: &[usize], pair: PairNo, plant: PlantNo) -> usize
    requires starts { AreSourceStarts tables.now starts.now }
    requires taken { is_taken_from tables.now pair.0 plant.0 ≡ true }
    ensures value { result ≡ source_no tables.now pair.0 plant.0 }
    ensures within { result < length tables.now.sources }
{
    let sources = tables.rows().sources();
    let mut at = starts[pair.0];
    while sources[at].plant.0 != plant.0 {
        at += 1;
    }
    at
}

/// All shipments and their sources.
fn all_sent(alloc: Global, tables: &Tables, starts: &[usize]) -> Result<Vec<Sent>, Memory>
    requires { AreSourceStarts tables.now starts.now }
    ensures { IfOk result (λ v. v.items ≡ map (sent tables.now) tables.now.ships) }
{
    let ships = tables.rows().ships();
    let mut all = Vec::with_capacity(alloc, ships.len())?;
    for ship in ships {
        all.push(Sent {
            source: source_of(tables, starts, ship.pair, ship.from),
            shipment: Shipment {
                period: ship.period,
                quantity: ship.quantity,
            },
        })?;
    }
    Ok(all)
}

/// The shipments alone.
fn shipments_of(alloc: Global, all: &[Sent]) -> Result<Vec<Shipment>, Memory>
    ensures { IfOk result (λ v. v.items ≡ map (λ s. s.shipment) all.now) }
{
    let shipments: Vec<Shipment> = all.iter().map(|sent| sent.shipment).collect(alloc)?;
    Ok(shipments)
}

/// The shipments by each source, in table order.
fn shipments(alloc: Global, tables: &Tables, all: &[Sent]) -> Result<Groups<Shipment>, Memory>
    requires { all.now ≡ map (sent tables.now) tables.now.ships }
    ensures { IfOk result (λ g. AreShipments tables.now g.rows.items g.starts.items) }
{
    let sources = tables.rows().sources().len();
    let Groups { rows, starts } = group(alloc, &BySource, all, sources)?;
    let shipments = shipments_of(alloc, rows.as_slice())?;
    Ok(Groups {
        rows: shipments,
        starts,
    })
}

/// Adds to the figure of each source what its cum rows say.
fn add_figures(tables: &Tables, starts: &[usize], figures: &mut [u64])
    requires starts { AreSourceStarts tables.now starts.now }
    requires room { length figures.old ≡ length tables.now.sources }
    ensures { AddsTotals (λ c. source_no tables.now c.pair.0 c.from.0)
        (λ c. c.figure) tables.now.cums figures.old figures.new }
{
    for cum in tables.rows().cums() {
        let source = source_of(tables, starts, cum.pair, cum.from);
        figures[source] = figures[source].saturating_add(cum.figure.get());
    }
}

/// What had come by each source before the shipments of the table.
fn figures(alloc: Global, tables: &Tables, starts: &[usize]) -> Result<Vec<u64>, Memory>
    requires { AreSourceStarts tables.now starts.now }
    ensures { IfOk result (λ v. AreSent tables.now (figure tables.now) v.items) }
{
    let mut figures = vec![in alloc; 0; tables.rows().sources().len()]?;
    add_figures(tables, starts, figures.as_mut_slice());
    Ok(figures)
}

/// The sum of the shipments by each source.
fn shipped(alloc: Global, tables: &Tables, all: &[Sent]) -> Result<Vec<u64>, Memory>
    requires { all.now ≡ map (sent tables.now) tables.now.ships }
    ensures { IfOk result (λ v. AreSent tables.now (shipped_from tables.now) v.items) }
{
    let mut shipped = vec![in alloc; 0; tables.rows().sources().len()]?;
    add_totals(&BySource, &Pieces, all, shipped.as_mut_slice());
    Ok(shipped)
}

/// Writes at each source the period of its reset row.
fn put_resets(tables: &Tables, starts: &[usize], resets: &mut [Option<u64>])
    requires starts { AreSourceStarts tables.now starts.now }
    requires none { resets.old ≡ replicate (length tables.now.sources) None }
    ensures { AreResetsOf tables.now tables.now.resets resets.new }
{
    for reset in tables.rows().resets() {
        let source = source_of(tables, starts, reset.pair, reset.from);
        resets[source] = Some(reset.period as u64);
    }
}

/// The period of each source from which its figures start anew.
fn resets(alloc: Global, tables: &Tables, starts: &[usize]) -> Result<Vec<Option<u64>>, Memory>
    requires { AreSourceStarts tables.now starts.now }
    ensures { IfOk result (λ v. AreResets tables.now v.items) }
{
    let mut resets = vec![in alloc; None; tables.rows().sources().len()]?;
    put_resets(tables, starts, resets.as_mut_slice());
    Ok(resets)
}

/// What comes by each source, and where the sources of each pair begin.
#[derive(Drop)]
struct Coming {
    sources: Vec<usize>,
    shipments: Groups<Shipment>,
    figures: Vec<u64>,
    shipped: Vec<u64>,
    resets: Vec<Option<u64>>,
}

/// The shipments of each source, and what was shipped before them.
fn ships(
    alloc: Global,
    tables: &Tables,
    starts: &[usize],
) -> Result<(Groups<Shipment>, Vec<u64>), Memory>
    requires { AreSourceStarts tables.now starts.now }
    ensures shipments { IfOk result (λ r. AreShipments tables.now r.0.rows.items r.0.starts.items) }
    ensures shipped { IfOk result (λ r. AreSent tables.now (shipped_from tables.now) r.1.items) }
{
    let all = all_sent(alloc, tables, starts)?;
    let shipments = shipments(alloc, tables, all.as_slice())?;
    let shipped = shipped(alloc, tables, all.as_slice())?;
    Ok((shipments, shipped))
}

impl Coming {
    /// What comes by the sources of a table.
    fn of(alloc: Global, tables: &Tables) -> Result<Coming, Memory>
        ensures sources { IfOk result (λ c. AreSourceStarts tables.now c.sources.items) }
        ensures shipments { IfOk result (λ c. AreShipments tables.now c.shipments.rows.items c.shipments.starts.items) }
        ensures openings { IfOk result (λ c. AreSent tables.now (figure tables.now) c.figures.items) }
        ensures sent { IfOk result (λ c. AreSent tables.now (shipped_from tables.now) c.shipped.items) }
        ensures resets { IfOk result (λ c. AreResets tables.now c.resets.items) }
    {
        let sources = source_starts(alloc, tables)?;
        let figures = figures(alloc, tables, sources.as_slice())?;
        let resets = resets(alloc, tables, sources.as_slice())?;
        let (shipments, shipped) = ships(alloc, tables, sources.as_slice())?;
        Ok(Coming {
            sources,
            shipments,
            figures,
            shipped,
            resets,
        })
    }
}

/// The lanes and what is sent over them.
pub fn lane_lists_of(alloc: Global, tables: &Tables) -> Result<LaneLists, Memory>
    ensures { IfOk result (AreLaneLists tables.now) }
{
    let items = items(alloc, tables)?;
    let lanes = all_lanes(alloc, tables, &items)?;
    let coming = Coming::of(alloc, tables)?;
    Ok(LaneLists {
        lanes,
        items,
        sources: coming.sources,
        shipments: coming.shipments,
        figures: coming.figures,
        shipped: coming.shipped,
        resets: coming.resets,
    })
}
