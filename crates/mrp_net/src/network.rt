//! The network of a table: its pairs, edges, sums and lanes by their numbers.

ghost use Rattle.std.specs.Prelude.{◌≡◌, ◌<◌, ◌^◌, ◌-◌, ◌+◌, ◌*◌, ℕ, true, min};
ghost use Rattle.std.specs.Prelude.{length, map, slice_get, Option, Some, None, IfSome, IfNone, IfOk, Contains, All};
ghost use Rattle.mrp_master_data.specs.Table.{Table, IsTable, horizon, IsFirmRow, IsUsageRow, IsPair, is_taken_from, pair_no};
ghost use Rattle.mrp_master_data.specs.Rows.{vendor_of};
ghost use Rattle.std.specs.List.Sorted.{IsNonDecreasingBy};
ghost use Rattle.mrp_net.specs.Edges.{demanders, edge_usages};
ghost use Rattle.mrp_net.specs.Suppliers.{suppliers, IsEdge};
ghost use Rattle.mrp_net.specs.Usages.{usages_to};
ghost use Rattle.mrp_net.specs.Sums.{pair_at, params_at, row_of, demand, demand_total, supply};
ghost use Rattle.mrp_net.specs.Sums.{incoming, received, received_sooner, earliest_at};
ghost use Rattle.mrp_net.specs.FirmOrders.{firm_total, firms_of};
ghost use Rattle.mrp_net.specs.Policies.{policy_of};
ghost use Rattle.mrp_net.specs.Names.{IsNamed};
ghost use Rattle.mrp_net.specs.Lanes.{lanes, lane_at, lane_items, figure, opening, shipments, reset, pair_on};
ghost use Rattle.mrp_net.specs.Lanes.{customer_of, shipped_from, supplier_of};
ghost use Rattle.mrp_net.specs.Plants.{pairs_of, lanes_to, lanes_from};
ghost use Rattle.mrp_net.specs.Routes.{route_no, IsLane};
ghost use Rattle.mrp_net.specs.Sources.{source_no, source_on};
ghost use Rattle.mrp_net.specs.Texts.{longest_block, longest_text};

use crate::build::{Amounts, Edges};
use crate::kept::Kept;
use crate::lane::{Lane, LaneKind, LaneNo, Shipment};
use crate::lanes::{LaneLists, source_of};
use crate::plants::{PlantLists, plant_lists_of};
use crate::policies::first_policy;
use crate::terms::PlanningTerms;
use crate::usages::usages_of;
use crate::{Edge, build, lanes};
use mrp_cal::Calendar;
use mrp_master_data::{
    FirmRow, ItemNo, PairNo, PairRow, PlantNo, ReceiptRow, ShipRow, SourceRow, Tables, UsageRow,
    VendorRow,
};
use mrp_netting::Policy;
use mrp_qty::{Horizon, Memory};
use std::alloc::Global;
use std::marker::Model;
use std::mem;
use std::ops::Range;
use std::thread::{Threads, join};

/// The network.
///
/// Contracts see it as its table. Pairs, plants and items are named by their numbers, periods
/// counted from 0, quantities in pieces.
#[derive(Drop)]
pub struct Network {
    tables: Kept,
    edges: Edges,
    amounts: Amounts,
    lanes: LaneLists,
    plants: PlantLists,
}

impl Model for Network {
    ghost use Rattle.mrp_master_data.specs.Table.{Table};
    ghost use Rattle.mrp_net.specs.Built.{IsBuilt};

    ghost Value = { Table };

    ghost view = { λ n. n.tables };

    ghost invariant = { λ n. IsBuilt n.tables n.edges n.amounts n.lanes n.plants };
}

/// What is built of a table.
#[derive(Drop)]
struct Parts {
    edges: Edges,
    amounts: Amounts,
    lanes: LaneLists,
    plants: PlantLists,
}

impl Parts {
    ghost use Rattle.mrp_net.specs.Built.{AreAmounts, AreEdges};
    ghost use Rattle.mrp_net.specs.Routes.{AreLaneLists};
    ghost use Rattle.mrp_net.specs.Plants.{ArePlantLists};

    /// The edges, the sums and the lanes of a table, and what is of each plant.
    fn of(alloc: Global, tables: &Tables) -> Result<Parts, Memory>
        ensures edges { IfOk result (λ p. AreEdges tables.now p.edges) }
        ensures amounts { IfOk result (λ p. AreAmounts tables.now p.amounts) }
        ensures lanes { IfOk result (λ p. AreLaneLists tables.now p.lanes) }
        ensures plants { IfOk result (λ p. ArePlantLists tables.now p.plants) }
    {
        let edges = build::edges_of(alloc, tables)?;
        let amounts = build::amounts_of(alloc, tables)?;
        Parts::of_built(alloc, tables, edges, amounts)
    }

    /// The edges and the sums of a table, its lanes, and what is of each plant.
    fn of_built(
        alloc: Global,
        tables: &Tables,
        edges: Edges,
        amounts: Amounts,
    ) -> Result<Parts, Memory>
        requires edges { AreEdges tables.now edges }
        requires amounts { AreAmounts tables.now amounts }
        ensures edges { IfOk result (λ p. AreEdges tables.now p.edges) }
        ensures amounts { IfOk result (λ p. AreAmounts tables.now p.amounts) }
        ensures lanes { IfOk result (λ p. AreLaneLists tables.now p.lanes) }
        ensures plants { IfOk result (λ p. ArePlantLists tables.now p.plants) }
    {
        let lanes = lanes::lane_lists_of(alloc, tables)?;
        let plants = plant_lists_of(alloc, tables, lanes.lanes.as_slice())?;
        Ok(Parts {
            edges,
            amounts,
            lanes,
            plants,
        })
    }

    /// As [`Parts::of`], edges and sums side by side.
    fn by_threads<T: Threads>(rt: &T, alloc: Global, tables: &Tables) -> Result<Parts, Memory>
        ensures edges { IfOk result (λ p. AreEdges tables.now p.edges) }
        ensures amounts { IfOk result (λ p. AreAmounts tables.now p.amounts) }
        ensures lanes { IfOk result (λ p. AreLaneLists tables.now p.lanes) }
        ensures plants { IfOk result (λ p. ArePlantLists tables.now p.plants) }
    {
        let (edges, amounts) = join(
            rt,
            || -> Result<Edges, Memory>
                ensures { IfOk result (AreEdges tables.entry.now) }
            { build::edges_of(alloc, tables) },
            || -> Result<Amounts, Memory>
                ensures { IfOk result (AreAmounts tables.entry.now) }
            { build::amounts_of(alloc, tables) },
        );
        Parts::of_built(alloc, tables, edges?, amounts?)
    }

    /// The network of the table that they were built of.
    fn join(self, alloc: Global, tables: Tables) -> Network
        requires table { IsTable tables }
        requires edges { AreEdges tables self.edges }
        requires amounts { AreAmounts tables self.amounts }
        requires lanes { AreLaneLists tables self.lanes }
        requires plants { ArePlantLists tables self.plants }
        ensures { result ≡ tables }
    {
        Network {
            tables: Kept::of(alloc, tables),
            edges: self.edges,
            amounts: self.amounts,
            lanes: self.lanes,
            plants: self.plants,
        }
    }
}

impl Network {
    /// The network of a table, of which it keeps what is read later.
    ///
    /// # Errors
    ///
    /// [`Memory`] where a growth is refused.
    pub fn of(alloc: Global, tables: Tables) -> Result<Network, Memory>
        ensures { IfOk result (λ n. n ≡ tables) }
    {
        let _rows = tables.rows();
        match Parts::of(alloc, &tables) {
            Ok(parts) => Ok(parts.join(alloc, tables)),
            Err(memory) => {
                mem::drop(tables);
                Err(memory)
            }
        }
    }

    /// As [`Network::of`], its edges beside its sums: a thread makes the edges, or the calling one where none can be
    /// started. No clause speaks of time.
    ///
    /// # Errors
    ///
    /// [`Memory`] where a growth is refused.
    pub fn by_threads<T: Threads>(rt: &T, alloc: Global, tables: Tables) -> Result<Network, Memory>
        ensures { IfOk result (λ n. n ≡ tables) }
    {
        let _rows = tables.rows();
        match Parts::by_threads(rt, alloc, &tables) {
            Ok(parts) => Ok(parts.join(alloc, tables)),
            Err(memory) => {
                mem::drop(tables);
                Err(memory)
            }
        }
    }

    /// The number of plants.
    pub fn plants(&self) -> usize
        ensures { result ≡ length self.now.plants }
    {
        self.tables.rows().plants()
    }

    /// The number of pairs.
    pub fn pairs(&self) -> usize
        ensures value { result ≡ length self.now.pairs }
        ensures table { IsTable self.now }
    {
        self.tables.rows().pairs().len()
    }

    /// The number of periods.
    pub fn horizon(&self) -> Horizon
        ensures { result ≡ horizon self.now }
    {
        self.tables.horizon()
    }

    /// The dates of the periods.
    pub fn calendar(&self) -> &Calendar
        ensures { result.now ≡ self.now.calendar }
    {
        self.tables.rows().calendar()
    }

    /// The pair of the plant and the item with these names, or `None` where the table has none. The names are
    /// looked through one by one.
    pub fn find(&self, plant: &str, item: &str) -> Option<PairNo>
        ensures found { IfSome result (λ x. IsNamed self.now x.0 plant.now item.now) }
        ensures missing { IfNone result ((x : ℕ) → ¬ (IsNamed self.now x plant.now item.now)) }
    {
        let rows = self.tables.rows();
        let plant = rows.find_plant(plant)?;
        let item = rows.find_item(item)?;
        self.tables.find_pair(plant, item)
    }

    /// The names of a pair's plant and item.
    pub fn pair_name(&self, x: PairNo) -> (&str, &str)
        requires { IsPair self.now x.0 }
        ensures { IsNamed self.now x.0 result.0.now result.1.now }
    {
        let pair = self.pair(x);
        let rows = self.tables.rows();
        (rows.plant_name(pair.plant), rows.item_name(pair.item))
    }

    /// The name of a plant.
    pub fn plant_name(&self, plant: PlantNo) -> &str
        requires { plant.0 < length self.now.plants }
        ensures { slice_get self.now.plants plant.0 ≡ Some result.now }
    {
        self.tables.rows().plant_name(plant)
    }

    /// The name of an item.
    pub fn item_name(&self, item: ItemNo) -> &str
        requires { item.0 < length self.now.items }
        ensures { slice_get self.now.items item.0 ≡ Some result.now }
    {
        self.tables.rows().item_name(item)
    }

    /// The number of items.
    pub fn items(&self) -> usize
        ensures { result ≡ length self.now.items }
    {
        self.tables.rows().items()
    }

    /// The plant of that name, or `None` where the table has none. The names are looked through one by one.
    pub fn find_plant(&self, name: &str) -> Option<PlantNo>
        ensures found { IfSome result (λ p. slice_get self.now.plants p.0 ≡ Some name.now) }
        ensures missing { IfNone result (¬ Contains self.now.plants name.now) }
    {
        self.tables.rows().find_plant(name)
    }

    /// The item of that name, or `None` where the table has none. The names are looked through one by one.
    pub fn find_item(&self, name: &str) -> Option<ItemNo>
        ensures found { IfSome result (λ i. slice_get self.now.items i.0 ≡ Some name.now) }
        ensures missing { IfNone result (¬ Contains self.now.items name.now) }
    {
        self.tables.rows().find_item(name)
    }

    /// The row of a pair.
    pub fn pair(&self, x: PairNo) -> PairRow
        requires { IsPair self.now x.0 }
        ensures { result ≡ pair_at self.now x.0 }
    {
        self.tables.rows().pairs()[x.0]
    }

    /// Where the amounts of a pair stand among those of all pairs.
    fn places_of(&self, x: PairNo) -> Range<usize>
        requires { IsPair self.now x.0 }
        ensures start { result.start ≡ x.0 * horizon self.now }
        ensures end { result.end ≡ (x.0 + 1) * horizon self.now }
    {
        let periods = self.tables.horizon().get() as usize;
        x.0 * periods..(x.0 + 1) * periods
    }

    /// The sum of the pair's demand rows in period `t`, at most 18 * 10^18 pieces.
    pub fn demand(&self, x: PairNo, t: usize) -> u64
        requires pair { IsPair self.now x.0 }
        requires period { t < horizon self.now }
        ensures { result ≡ demand self.now x.0 t }
    {
        self.demand_row(x)[t]
    }

    /// The sums of the pair's demand rows, period by period, each at most 18 * 10^18 pieces.
    pub fn demand_row(&self, x: PairNo) -> &[u64]
        requires { IsPair self.now x.0 }
        ensures { result.now ≡ row_of self.now (demand self.now x.0) }
    {
        &self.amounts.demand[self.places_of(x)]
    }

    /// The sum of the pair's demand rows, at most 18 * 10^18 pieces.
    pub fn demand_total(&self, x: PairNo) -> u64
        requires { IsPair self.now x.0 }
        ensures { result ≡ demand_total self.now x.0 }
    {
        self.amounts.demand_totals[x.0]
    }

    /// What comes in at its time for the pair in period `t`, beside firm planned orders: the shipments to it, and its
    /// receipt rows but where they may be counted sooner, at most 18 * 10^18 pieces.
    pub fn incoming(&self, x: PairNo, t: usize) -> u64
        requires pair { IsPair self.now x.0 }
        requires period { t < horizon self.now }
        ensures { result ≡ incoming self.now x.0 t }
    {
        self.incoming_row(x)[t]
    }

    /// What comes in at its time for the pair, beside firm planned orders, period by period: the shipments to it, and
    /// its receipt rows but where they may be counted sooner, each at most 18 * 10^18 pieces.
    pub fn incoming_row(&self, x: PairNo) -> &[u64]
        requires { IsPair self.now x.0 }
        ensures { result.now ≡ row_of self.now (incoming self.now x.0) }
    {
        let periods = self.tables.horizon().get() as usize;
        match self.amounts.incoming.places[x.0] {
            0 => self.received_row(x),
            place => &self.amounts.incoming.rows[(place - 1) * periods..place * periods],
        }
    }

    /// The sums of the pair's receipt rows, period by period, without shipments, each at most 9 * 10^18 pieces.
    pub fn received_row(&self, x: PairNo) -> &[u64]
        requires { IsPair self.now x.0 }
        ensures { result.now ≡ row_of self.now (received self.now x.0) }
    {
        &self.amounts.received[self.places_of(x)]
    }

    /// The pair's receipt rows that may be counted sooner than they come, period by period, each sum at most
    /// 9 * 10^18 pieces: of a pair whose policy has SOONER all, of others no row.
    fn received_sooner(&self, x: PairNo) -> &[u64]
        requires { IsPair self.now x.0 }
        ensures { result.now ≡ received_sooner self.now x.0 }
    {
        if self.policy(x).sooner > 0 {
            self.received_row(x)
        } else {
            &[]
        }
    }

    /// The receipt rows of all pairs, in table order.
    pub fn receipts(&self) -> &[ReceiptRow]
        ensures { result.now ≡ self.now.receipts }
    {
        self.tables.rows().receipts()
    }

    /// The shipments between plants that are on their way, in table order.
    pub fn ships(&self) -> &[ShipRow]
        ensures { result.now ≡ self.now.ships }
    {
        self.tables.rows().ships()
    }

    /// Who delivers bought pairs by cumulative schedules, in table order.
    pub fn vendors(&self) -> &[VendorRow]
        ensures value { map vendor_of result.now ≡ self.now.vendors }
    {
        self.tables.rows().vendors()
    }

    /// The firm planned orders of the pair, in table order.
    pub fn firm_orders(&self, x: PairNo) -> &[FirmRow]
        requires { IsPair self.now x.0 }
        ensures value { result.now ≡ firms_of self.now x.0 }
        ensures rows { All (IsFirmRow self.now) result.now }
    {
        self.amounts.firms.get(x.0)
    }

    /// The pieces of all firm planned orders of the pair, at most 9 * 10^18.
    pub fn firm_total(&self, x: PairNo) -> u64
        requires { IsPair self.now x.0 }
        ensures { result ≡ firm_total self.now x.0 }
    {
        let _pairs = self.pairs();
        let mut total = 0;
        for order in self.firm_orders(x) {
            total += order.quantity.get();
        }
        total
    }

    /// How the pair is planned beyond its row: what its policy says, and none of each where it has none.
    pub fn policy(&self, x: PairNo) -> Policy
        requires { IsPair self.now x.0 }
        ensures { result ≡ policy_of self.now x.0 }
    {
        first_policy(self.amounts.policies.get(x.0))
    }

    /// What planners say of the pair: its row, its policy, the receipts that may be counted sooner than they come, and
    /// its firm planned orders.
    pub fn terms(&self, x: PairNo) -> PlanningTerms<'_>
        requires { IsPair self.now x.0 }
        ensures params { result.params ≡ params_at self.now x.0 }
        ensures policy { result.policy ≡ policy_of self.now x.0 }
        ensures receipts { result.receipts.now ≡ received_sooner self.now x.0 }
        ensures orders { result.orders.now ≡ firms_of self.now x.0 }
        ensures rows { All (IsFirmRow self.now) result.orders.now }
    {
        PlanningTerms {
            params: self.pair(x).params(),
            policy: self.policy(x),
            receipts: self.received_sooner(x),
            orders: self.firm_orders(x),
        }
    }

    /// The first period for which planned orders of the pair can be released in time: the greater of its lead time and its
    /// planning time fence, 0 to 520.
    pub fn earliest(&self, x: PairNo) -> u64
        requires { IsPair self.now x.0 }
        ensures { result ≡ earliest_at self.now x.0 }
    {
        self.pair(x).lead.max(self.policy(x).fence)
    }

    /// On hand, receipts, shipments, opening figures and firm planned orders of the pair, the figure of its vendor and what
    /// is on its way from it, or 2^64 - 1 where they are more.
    pub fn supply(&self, x: PairNo) -> u64
        requires { IsPair self.now x.0 }
        ensures { result ≡ min (supply self.now x.0) (2 ^ 64 - 1) }
    {
        self.amounts.supplies[x.0]
    }

    /// The edges to a pair, in table order of their demanders.
    pub fn demanders(&self, x: PairNo) -> &[Edge]
        requires { IsPair self.now x.0 }
        ensures value { result.now ≡ demanders self.now x.0 }
        ensures edges { All (IsEdge self.now) result.now }
    {
        self.edges.demanders.get(x.0)
    }

    /// The edges from a pair, in table order of the pairs that it takes from.
    pub fn suppliers(&self, x: PairNo) -> &[Edge]
        requires { IsPair self.now x.0 }
        ensures value { result.now ≡ suppliers self.now x.0 }
        ensures edges { All (IsEdge self.now) result.now }
    {
        self.edges.suppliers.get(x.0)
    }

    /// The usage rows of a component, in order of their parents, and of each parent by rising periods: how many pieces of
    /// the component go into how many of the parent that are released from a period on.
    pub fn usages_to(&self, x: PairNo) -> &[UsageRow]
        requires { IsPair self.now x.0 }
        ensures value { result.now ≡ usages_to self.now x.0 }
        ensures rows { All (IsUsageRow self.now) result.now }
        ensures rises { IsNonDecreasingBy (λ u. u.parent.0) result.now }
    {
        self.amounts.usages.get(x.0)
    }

    /// The usage rows of an edge, by rising periods: what they say comes in place of what the edge says from their periods
    /// on. The edge of a source has none.
    pub fn usages(&self, edge: &Edge) -> &[UsageRow]
        requires { IsEdge self.now edge.now }
        ensures value { result.now ≡ edge_usages self.now edge.now }
        ensures rows { All (IsUsageRow self.now) result.now }
    {
        usages_of(self.usages_to(edge.pair), edge.demander)
    }

    /// The pairs of a plant, in table order: of a number that no plant has, none.
    pub fn pairs_of(&self, plant: PlantNo) -> &[PairNo]
        ensures value { result.now ≡ pairs_of self.now plant.0 }
        ensures pairs { All (λ x. IsPair self.now x.0) result.now }
    {
        let _pairs = self.pairs();
        if plant.0 >= self.plants() {
            return &[];
        }
        self.plants.pairs.get(plant.0)
    }

    /// The lanes that a plant receives, in lane order: of a number that no plant has, none.
    pub fn lanes_to(&self, plant: PlantNo) -> &[LaneNo]
        ensures value { result.now ≡ lanes_to self.now plant.0 }
        ensures lanes { All (λ l. l.0 < length (lanes self.now)) result.now }
    {
        if plant.0 >= self.plants() {
            return &[];
        }
        self.plants.received.get(plant.0)
    }

    /// The lanes that a plant sends, in lane order: of a number that no plant has, none.
    pub fn lanes_from(&self, plant: PlantNo) -> &[LaneNo]
        ensures value { result.now ≡ lanes_from self.now plant.0 }
        ensures lanes { All (λ l. l.0 < length (lanes self.now)) result.now }
    {
        if plant.0 >= self.plants() {
            return &[];
        }
        self.plants.sent.get(plant.0)
    }

    /// The number of lanes: two for each customer plant and supplier plant that it takes items from.
    pub fn lanes(&self) -> usize
        ensures { result ≡ length (lanes self.now) }
    {
        self.lanes.lanes.len()
    }

    /// The lane of that number.
    pub fn lane(&self, l: LaneNo) -> Lane
        requires { l.0 < length (lanes self.now) }
        ensures value { result ≡ lane_at self.now l.0 }
        ensures plants { IsLane self.now result }
    {
        self.lanes.lanes[l.0]
    }

    /// The items of a lane, in table order of the customer's pairs.
    pub fn lane_items(&self, l: LaneNo) -> &[ItemNo]
        requires { l.0 < length (lanes self.now) }
        ensures value { result.now ≡ lane_items self.now (lane_at self.now l.0) }
        ensures items { All (λ item. item.0 < length self.now.items) result.now }
    {
        let route = self.route(self.lane(l));
        self.lanes.items.get(route)
    }

    /// Where the cumulative figures of an item of the lane begin, in pieces: on a despatch lane the
    /// opening figure, at most 10^15, on a schedule lane that and all shipments of the table, at most
    /// 9 * 10^18 more.
    pub fn opening(&self, l: LaneNo, item: ItemNo) -> u64
        requires lane { l.0 < length (lanes self.now) }
        requires item { Contains (lane_items self.now (lane_at self.now l.0)) item }
        ensures { result ≡ opening self.now (lane_at self.now l.0) item }
    {
        let lane = self.lane(l);
        let at = self.source(lane, item);
        match lane.kind {
            LaneKind::Despatch => self.lanes.figures[at],
            LaneKind::Schedule => self.lanes.figures[at] + self.lanes.shipped[at],
        }
    }

    /// The shipments of an item of the lane that are on their way from the supplier to the customer,
    /// in table order.
    pub fn shipments(&self, l: LaneNo, item: ItemNo) -> &[Shipment]
        requires lane { l.0 < length (lanes self.now) }
        requires item { Contains (lane_items self.now (lane_at self.now l.0)) item }
        ensures { result.now ≡ shipments self.now (lane_at self.now l.0) item }
    {
        let at = self.source(self.lane(l), item);
        self.lanes.shipments.get(at)
    }

    /// The pieces of an item of the lane that are on their way from the supplier to the customer, at most
    /// 9 * 10^18: the same for both lanes of the two plants.
    pub fn shipped(&self, l: LaneNo, item: ItemNo) -> u64
        requires lane { l.0 < length (lanes self.now) }
        requires item { Contains (lane_items self.now (lane_at self.now l.0)) item }
        ensures { result ≡ shipped_from self.now (pair_on self.now (lane_at self.now l.0) item)
            (supplier_of (lane_at self.now l.0)) }
    {
        let source = self.source(self.lane(l), item);
        self.lanes.shipped[source]
    }

    /// What the supplier had shipped of an item of the lane before the shipments of the table, in
    /// pieces, at most 10^15: the same for both lanes of the two plants.
    pub fn figure(&self, l: LaneNo, item: ItemNo) -> u64
        requires lane { l.0 < length (lanes self.now) }
        requires item { Contains (lane_items self.now (lane_at self.now l.0)) item }
        ensures { result ≡ figure self.now (pair_on self.now (lane_at self.now l.0) item)
            (supplier_of (lane_at self.now l.0)) }
    {
        let source = self.source(self.lane(l), item);
        self.lanes.figures[source]
    }

    /// The period from which the cumulative figures of an item of the lane start anew, or `None` where
    /// they don't: the same for both lanes of the two plants.
    pub fn reset(&self, l: LaneNo, item: ItemNo) -> Option<u64>
        requires lane { l.0 < length (lanes self.now) }
        requires item { Contains (lane_items self.now (lane_at self.now l.0)) item }
        ensures { result ≡ reset self.now (lane_at self.now l.0) item }
    {
        let at = self.source(self.lane(l), item);
        self.lanes.resets[at]
    }

    /// The source by which the lane's customer takes an item of the lane from its supplier: the
    /// customer's pair, and the share of its releases that the supplier gets.
    pub fn lane_source(&self, l: LaneNo, item: ItemNo) -> SourceRow
        requires lane { l.0 < length (lanes self.now) }
        requires item { Contains (lane_items self.now (lane_at self.now l.0)) item }
        ensures { result ≡ source_on self.now (lane_at self.now l.0) item }
    {
        let at = self.source(self.lane(l), item);
        self.tables.rows().sources()[at]
    }

    /// The pair of an item of the lane at the plant that receives the lane: the pair that takes it on a
    /// despatch lane, the pair that it is taken from on a schedule lane.
    pub fn receiver_pair(&self, l: LaneNo, item: ItemNo) -> PairNo
        requires lane { l.0 < length (lanes self.now) }
        requires item { Contains (lane_items self.now (lane_at self.now l.0)) item }
        ensures { result.0 ≡ pair_no self.now (lane_at self.now l.0).receiver.0 item.0 }
    {
        let receiver = self.lane(l).receiver;
        self.tables.find_pair(receiver, item).unwrap()
    }

    /// The most records that a text of the lane can have: of each item its lines, a new start of its
    /// figures and its end, and the closing record. A despatch lane has a line for each shipment, a
    /// schedule lane at most one a period.
    pub fn longest_text(&self, l: LaneNo) -> u64
        requires { l.0 < length (lanes self.now) }
        ensures { result ≡ longest_text self.now (lane_at self.now l.0) }
    {
        let _pairs = self.pairs();
        let mut records = 1;
        for item in self.lane_items(l) {
            records += self.longest_block(l, *item);
        }
        records
    }

    /// The most records of an item's block on the lane.
    fn longest_block(&self, l: LaneNo, item: ItemNo) -> u64
        requires lane { l.0 < length (lanes self.now) }
        requires item { Contains (lane_items self.now (lane_at self.now l.0)) item }
        ensures { result ≡ longest_block self.now (lane_at self.now l.0) item }
    {
        let lines = match self.lane(l).kind {
            LaneKind::Despatch => self.shipments(l, item).len() as u64,
            LaneKind::Schedule => self.horizon().get(),
        };
        match self.reset(l, item) {
            Some(_) => lines + 2,
            None => lines + 1,
        }
    }

    /// The number of a lane's route.
    fn route(&self, lane: Lane) -> usize
        requires { IsLane self.now lane }
        ensures { result ≡ route_no self.now (customer_of lane) (supplier_of lane) }
    {
        let _rows = self.tables.rows();
        lane.customer().0 * self.plants() + lane.supplier().0
    }

    /// The number of the source by which a lane's customer takes an item from its supplier.
    fn source(&self, lane: Lane, item: ItemNo) -> usize
        requires { Contains (lane_items self.now lane) item }
        ensures value { result ≡ source_no self.now (pair_on self.now lane item) (supplier_of lane) }
        ensures within { result < length self.now.sources }
        ensures taken { is_taken_from self.now (pair_on self.now lane item) (supplier_of lane) ≡ true }
    {
        let x = self.tables.find_pair(lane.customer(), item).unwrap();
        let starts = self.lanes.sources.as_slice();
        source_of(self.tables.as_tables(), starts, x, lane.supplier())
    }
}
