//! The view of one plant: how it is taken from the network.

ghost use Rattle.std.specs.Prelude.{◌≡◌, ◌<◌, ◌≤◌, ◌++◌, length, map, All, Contains, IfOk};
ghost use Rattle.std.specs.List.{flat_map};
ghost use Rattle.mrp_master_data.specs.Table.{IsPair};
ghost use Rattle.mrp_net.specs.Suppliers.{IsEdge};
ghost use Rattle.mrp_net.specs.Lanes.{lanes, lane_at, lane_items};
ghost use Rattle.mrp_net.specs.EdgeLaws.{is_local};
ghost use Rattle.mrp_net.specs.FirmOrders.{firms_of};
ghost use Rattle.mrp_net.specs.Sums.{received_sooner};
ghost use Rattle.mrp_net.specs.Usages.{usages_to};
ghost use Rattle.mrp_plant_view.specs.Loads.{bare};
ghost use Rattle.mrp_plant_view.specs.View.{plant_pairs, plant_edge, edges_to};
ghost use Rattle.mrp_plant_view.specs.View.{plant_rows, incoming_item, incoming_lanes};
ghost use Rattle.mrp_plant_view.specs.View.{sent_on, called_on, call_on, outgoing_item, outgoing_lanes};

use crate::amounts::{Amounts, plant_amounts};
use crate::frame::PlantFrame;
use crate::lists::Lists;
use crate::view::{
    Call, IncomingItem, IncomingItems, IncomingLane, OutgoingItem, OutgoingItems, OutgoingLane,
    PlantEdge, PlantPair, PlantView,
};
use mrp_net::{
    Edge, FirmRow, ItemNo, LaneKind, LaneNo, Network, PairNo, PlantNo, Shipment, UsageRow,
};
use mrp_qty::Memory;
use std::alloc::Global;
use std::snapshot::Snapshot;

impl PlantView {
    /// What a plant sees of the network. It is made in time linear in the plant's own pairs, rows and lanes (by
    /// construction; no clause says so).
    ///
    /// # Errors
    ///
    /// [`Memory`] where a growth is refused.
    pub fn of(alloc: Global, network: &Network, plant: PlantNo) -> Result<PlantView, Memory>
        ensures { IfOk result (λ v. v ≡ plant_rows network.now plant.0) }
    {
        let pairs = plant_pairs(alloc, network, plant)?;
        let edges = plant_edges(alloc, network, pairs.as_slice())?;
        let demands = plant_amounts(alloc, network, pairs.as_slice(), Amounts::Demands)?;
        let receipts = plant_amounts(alloc, network, pairs.as_slice(), Amounts::Receipts)?;
        let firms = plant_firms(alloc, network, pairs.as_slice())?;
        let sooner = plant_sooner(alloc, network, pairs.as_slice())?;
        let usages = plant_usages(alloc, network, pairs.as_slice())?;
        let incoming = incoming_lanes(alloc, network, plant)?;
        let outgoing = outgoing_lanes(alloc, network, plant)?;
        let frame = PlantFrame {
            horizon: network.horizon(),
            pairs,
            edges,
            demands: Snapshot::of(&demands),
            receipts: Snapshot::of(&receipts),
            firms,
            sooner,
            usages,
            incoming,
            outgoing,
        };
        Ok(PlantView {
            frame,
            demands,
            receipts,
        })
    }
}

/// The pairs of a plant, in table order.
fn plant_pairs(alloc: Global, network: &Network, plant: PlantNo) -> Result<Vec<PlantPair>, Memory>
    ensures value { IfOk result (λ v. v.items ≡ plant_pairs network.now plant.0) }
    ensures pairs { IfOk result (λ v. All (λ p. IsPair network.now p.number.0) v.items) }
    ensures few { IfOk result (λ v. length v.items ≤ length network.now.pairs) }
{
    let numbers = network.pairs_of(plant);
    let mut pairs = Vec::with_capacity(alloc, numbers.len())?;
    for number in numbers {
        let row = network.pair(*number);
        pairs.push(PlantPair {
            number: *number,
            item: row.item,
            params: row.params(),
            policy: network.policy(*number),
        })?;
    }
    Ok(pairs)
}

/// An edge joins two pairs of one plant.
fn is_local(network: &Network, edge: &Edge) -> bool
    requires { IsEdge network.now edge.now }
    ensures { result ≡ is_local network.now edge.now }
{
    network.pair(edge.demander).plant.0 == network.pair(edge.pair).plant.0
}

/// Adds the edges to a pair from its own plant, in table order of the parents.
fn add_edges(edges: &mut Vec<PlantEdge>, network: &Network, x: PairNo) -> Result<(), Memory>
    requires { IsPair network.now x.0 }
    ensures { IfOk result (λ _. edges.new.items ≡ edges.old.items ++ edges_to network.now x.0) }
{
    for edge in network.demanders(x) {
        if is_local(network, edge) {
            edges.push(PlantEdge {
                parent: edge.demander,
                component: edge.pair,
                per: edge.per,
            })?;
        }
    }
    Ok(())
}

/// The edges within the plant to each of its pairs.
fn plant_edges(
    alloc: Global,
    network: &Network,
    pairs: &[PlantPair],
) -> Result<Vec<PlantEdge>, Memory>
    requires { All (λ p. IsPair network.now p.number.0) pairs.now }
    ensures { IfOk result (λ v. v.items ≡ flat_map (λ p. edges_to network.now p.number.0) pairs.now) }
{
    let mut edges = Vec::new(alloc);
    for pair in pairs {
        add_edges(&mut edges, network, pair.number)?;
    }
    Ok(edges)
}

/// The firm planned orders of each of a plant's pairs.
fn plant_firms(
    alloc: Global,
    network: &Network,
    pairs: &[PlantPair],
) -> Result<Lists<FirmRow>, Memory>
    requires { All (λ p. IsPair network.now p.number.0) pairs.now }
    ensures { IfOk result (λ f. f ≡ map (λ p. firms_of network.now p.number.0) pairs.now) }
{
    let mut firms = Lists::new(alloc);
    for pair in pairs {
        firms.push(network.firm_orders(pair.number))?;
    }
    Ok(firms)
}

/// The receipts of each of a plant's pairs that may be counted sooner than they come.
fn plant_sooner(alloc: Global, network: &Network, pairs: &[PlantPair]) -> Result<Lists<u64>, Memory>
    requires { All (λ p. IsPair network.now p.number.0) pairs.now }
    ensures { IfOk result (λ s. s ≡ map (λ p. received_sooner network.now p.number.0) pairs.now) }
{
    let mut sooner = Lists::new(alloc);
    for pair in pairs {
        let terms = network.terms(pair.number);
        sooner.push(terms.receipts)?;
    }
    Ok(sooner)
}

/// The usage rows of each of a plant's pairs as a component.
fn plant_usages(
    alloc: Global,
    network: &Network,
    pairs: &[PlantPair],
) -> Result<Lists<UsageRow>, Memory>
    requires { All (λ p. IsPair network.now p.number.0) pairs.now }
    ensures { IfOk result (λ u. u ≡ map (λ p. usages_to network.now p.number.0) pairs.now) }
{
    let mut usages = Lists::new(alloc);
    for pair in pairs {
        usages.push(network.usages_to(pair.number))?;
    }
    Ok(usages)
}

/// An item of a lane, as its receiver sees it.
fn incoming_item(network: &Network, l: LaneNo, item: ItemNo) -> IncomingItem
    requires lane { l.0 < length (lanes network.now) }
    requires item { Contains (lane_items network.now (lane_at network.now l.0)) item }
    ensures { result ≡ incoming_item network.now (lane_at network.now l.0) item }
{
    IncomingItem {
        item,
        pair: network.receiver_pair(l, item),
        opening: network.opening(l, item),
        reset: network.reset(l, item),
    }
}

/// The items of a lane, as its receiver sees them.
fn incoming_items(alloc: Global, network: &Network, l: LaneNo) -> Result<IncomingItems, Memory>
    requires { l.0 < length (lanes network.now) }
    ensures { IfOk result (λ v. v ≡ map (incoming_item network.now (lane_at network.now l.0))
        (lane_items network.now (lane_at network.now l.0))) }
{
    let mut items = Vec::new(alloc);
    for item in network.lane_items(l) {
        items.push(incoming_item(network, l, *item))?;
    }
    Ok(IncomingItems::of(items))
}

/// The lanes that a plant receives, in lane order.
fn incoming_lanes(
    alloc: Global,
    network: &Network,
    plant: PlantNo,
) -> Result<Vec<IncomingLane>, Memory>
    ensures { IfOk result (λ v. v.items ≡ incoming_lanes network.now plant.0) }
{
    let numbers = network.lanes_to(plant);
    let mut lanes = Vec::with_capacity(alloc, numbers.len())?;
    for number in numbers {
        let items = incoming_items(alloc, network, *number)?;
        lanes.push(IncomingLane {
            number: *number,
            kind: network.lane(*number).kind,
            items,
        })?;
    }
    Ok(lanes)
}

/// An item of a lane, as its sender sees it, without its shipments.
fn outgoing_item(network: &Network, l: LaneNo, item: ItemNo) -> OutgoingItem
    requires lane { l.0 < length (lanes network.now) }
    requires item { Contains (lane_items network.now (lane_at network.now l.0)) item }
    ensures { result ≡ bare (outgoing_item network.now (lane_at network.now l.0) item) }
{
    let call = call_on(network, l, item);
    let reset = network.reset(l, item);
    OutgoingItem {
        item,
        figure: network.figure(l, item),
        call,
        reset,
    }
}

/// What the customer of a lane calls for of an item: the source's share of what its own pair releases.
fn called_on(network: &Network, l: LaneNo, item: ItemNo) -> Call
    requires lane { l.0 < length (lanes network.now) }
    requires item { Contains (lane_items network.now (lane_at network.now l.0)) item }
    ensures { result ≡ called_on network.now (lane_at network.now l.0) item }
{
    let source = network.lane_source(l, item);
    Call {
        customer: source.pair,
        low: source.low,
        high: source.high,
    }
}

/// What the sender of a lane calls for of an item: a supplier calls for nothing.
fn call_on(network: &Network, l: LaneNo, item: ItemNo) -> Option<Call>
    requires lane { l.0 < length (lanes network.now) }
    requires item { Contains (lane_items network.now (lane_at network.now l.0)) item }
    ensures { result ≡ call_on network.now (lane_at network.now l.0) item }
{
    match network.lane(l).kind {
        LaneKind::Despatch => None,
        LaneKind::Schedule => Some(called_on(network, l, item)),
    }
}

/// The shipments that the sender of a lane has on their way: a customer has none.
fn sent_on(network: &Network, l: LaneNo, item: ItemNo) -> &[Shipment]
    requires lane { l.0 < length (lanes network.now) }
    requires item { Contains (lane_items network.now (lane_at network.now l.0)) item }
    ensures { result.now ≡ sent_on network.now (lane_at network.now l.0) item }
{
    match network.lane(l).kind {
        LaneKind::Despatch => network.shipments(l, item),
        LaneKind::Schedule => &[],
    }
}

/// The items of a lane, as its sender sees them.
fn outgoing_items(alloc: Global, network: &Network, l: LaneNo) -> Result<OutgoingItems, Memory>
    requires { l.0 < length (lanes network.now) }
    ensures { IfOk result (λ v. v ≡ map (outgoing_item network.now (lane_at network.now l.0))
        (lane_items network.now (lane_at network.now l.0))) }
{
    let mut items = OutgoingItems::new(alloc);
    for item in network.lane_items(l) {
        let shipments = sent_on(network, l, *item);
        items.push(outgoing_item(network, l, *item), shipments)?;
    }
    Ok(items)
}

/// The lanes that a plant sends, in lane order.
fn outgoing_lanes(
    alloc: Global,
    network: &Network,
    plant: PlantNo,
) -> Result<Vec<OutgoingLane>, Memory>
    ensures { IfOk result (λ v. v.items ≡ outgoing_lanes network.now plant.0) }
{
    let numbers = network.lanes_from(plant);
    let mut lanes = Vec::with_capacity(alloc, numbers.len())?;
    for number in numbers {
        let items = outgoing_items(alloc, network, *number)?;
        lanes.push(OutgoingLane {
            number: *number,
            kind: network.lane(*number).kind,
            items,
        })?;
    }
    Ok(lanes)
}
