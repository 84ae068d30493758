//! Master data: the lists of rows that a table is, how they grow, row by row, and how they are read.

use crate::names::{name_at, place_of_name, push_name};
use crate::{
    BillRow, CumRow, DemandRow, FirmRow, ItemNo, PairNo, PairRow, PlantNo, PolicyRow, ReceiptRow,
    ResetRow, ShipRow, SourceRow, UsageRow, VendorRow,
};
use mrp_cal::{CalFault, Calendar};
use mrp_qty::{LimitSet, Limits};
use std::alloc::{AllocError, Global};
use std::collections::HashMap;
use std::marker::Model;

/// A pair by its plant and its item.
#[derive(Clone, Copy, PartialEq, Eq, Hash)]
pub(crate) struct PlantItem {
    plant: PlantNo,
    item: ItemNo,
}

/// The rows read so far by their kinds, each in table order, with what finds a pair. Where a growth is refused
/// no call says what the lists hold then: drop them.
#[derive(Drop)]
pub struct RowLists {
    limits: LimitSet,
    calendar: Calendar,
    plants: Vec<String>,
    items: Vec<String>,
    pair_places: HashMap<PlantItem, PairNo>,
    pairs: Vec<PairRow>,
    sources: Vec<SourceRow>,
    pub(crate) bills: Vec<BillRow>,
    pub(crate) demands: Vec<DemandRow>,
    receipts: Vec<ReceiptRow>,
    ships: Vec<ShipRow>,
    cums: Vec<CumRow>,
    resets: Vec<ResetRow>,
    firms: Vec<FirmRow>,
    policies: Vec<PolicyRow>,
    pub(crate) usages: Vec<UsageRow>,
    vendors: Vec<VendorRow>,
    ended: bool,
}

impl Model for RowLists {
    ghost use Rattle.std.specs.HashMap.{get};
    ghost use Rattle.std.specs.Prelude.{map};
    ghost use Rattle.std.specs.String.{string_bytes};
    ghost use Rattle.mrp_master_data.specs.Growing.{table_of};
    ghost use Rattle.mrp_master_data.specs.Places.{is_same_place, FindsPairs};
    ghost use Rattle.mrp_master_data.specs.Rows.{vendor_of};
    ghost use Rattle.mrp_master_data.specs.Table.{IsRead, Table};

    ghost Value = { Table };

    ghost view = { λ r. table_of r.limits r.calendar (map string_bytes r.plants.items)
        (map string_bytes r.items.items) r.pairs.items r.sources.items
        r.bills.items r.demands.items r.receipts.items r.ships.items r.cums.items r.resets.items
        r.firms.items r.policies.items r.usages.items (map vendor_of r.vendors.items) r.ended };

    // the rows are in range, and each pair is found
    ghost invariant = { λ r. IsRead (table_of r.limits r.calendar (map string_bytes r.plants.items)
        (map string_bytes r.items.items) r.pairs.items r.sources.items
        r.bills.items r.demands.items r.receipts.items r.ships.items r.cums.items r.resets.items
        r.firms.items r.policies.items r.usages.items (map vendor_of r.vendors.items) r.ended)
        × FindsPairs (get is_same_place r.pair_places) r.pairs.items };
}

impl RowLists {
    ghost use Rattle.std.specs.Prelude.{◌≡◌, ◌≤◌, ◌<◌, ◌==◌, ◌&&◌, length, map, option_map, position};
    ghost use Rattle.std.specs.Prelude.{Err, Ok, IfErr, IfOk, IfSome, OnErr, OnOk};
    ghost use Rattle.mrp_qty.specs.Limits.{limits_of};
    ghost use Rattle.std.specs.Prelude.{false, slice_get, Some};
    ghost use Rattle.std.specs.List.{list_any};
    ghost use Rattle.std.specs.Str.{bytes_eq};
    ghost use Rattle.mrp_master_data.specs.Names.{plant_no};
    ghost use Rattle.mrp_master_data.specs.Growing.{lacks_pair, with_plant, with_item};
    ghost use Rattle.mrp_master_data.specs.Growing.{with_pair, with_source, with_bill};
    ghost use Rattle.mrp_master_data.specs.Growing.{with_demand, with_receipt, with_ship, with_cum, with_reset};
    ghost use Rattle.mrp_master_data.specs.Growing.{with_calendar, with_end, with_firm, with_policy, with_usage, with_vendor};
    ghost use Rattle.mrp_cal.specs.Begins.{begins, latest_begun};
    ghost use Rattle.mrp_master_data.specs.Rows.{vendor_of};
    ghost use Rattle.mrp_master_data.specs.Table.{item_at, IsName, IsRead, IsPairRow, IsSourceRow, IsBillRow};
    ghost use Rattle.mrp_master_data.specs.Growing.{empty_table};
    ghost use Rattle.mrp_master_data.specs.Table.{IsDemandRow, IsReceiptRow, IsShipRow, IsCumRow, IsResetRow};
    ghost use Rattle.mrp_master_data.specs.Table.{horizon, most, IsFirmRow, IsPolicyRow, IsUsageRow, IsVendorRow};

    /// The lists after the run row, of a calendar that has no more periods than the limits say.
    pub fn new(alloc: Global, limits: LimitSet, calendar: Calendar) -> RowLists
        requires within { calendar.periods ≤ (limits_of limits).periods }
        ensures rows { IsRead result }
        ensures table { result ≡ empty_table limits calendar }
    {
        RowLists {
            limits,
            calendar,
            plants: Vec::new(alloc),
            items: Vec::new(alloc),
            pair_places: HashMap::new(alloc),
            pairs: Vec::new(alloc),
            sources: Vec::new(alloc),
            bills: Vec::new(alloc),
            demands: Vec::new(alloc),
            receipts: Vec::new(alloc),
            ships: Vec::new(alloc),
            cums: Vec::new(alloc),
            resets: Vec::new(alloc),
            firms: Vec::new(alloc),
            policies: Vec::new(alloc),
            usages: Vec::new(alloc),
            vendors: Vec::new(alloc),
            ended: false,
        }
    }

    /// Adds a plant behind the others. That no two have one name is for the reader of a table to see to.
    ///
    /// # Errors
    ///
    /// [`AllocError`] where a growth is refused.
    pub fn add_plant(&mut self, alloc: Global, name: &str) -> Result<(), AllocError>
        requires named { IsName name.now }
        requires room { length self.old.plants < (most self.old).plants }
        ensures rows { OnOk result (IsRead self.new) }
        ensures table { OnOk result (self.new ≡ with_plant self.old name.now) }
    {
        push_name(&mut self.plants, alloc, name)
    }

    /// Adds an item behind the others, whose name isn't there yet.
    ///
    /// # Errors
    ///
    /// [`AllocError`] where a growth is refused.
    pub fn add_item(&mut self, alloc: Global, name: &str) -> Result<(), AllocError>
        requires named { IsName name.now }
        requires fresh { list_any (bytes_eq name.now) self.old.items ≡ false }
        requires room { length self.old.items < (most self.old).pairs }
        ensures rows { OnOk result (IsRead self.new) }
        ensures table { OnOk result (self.new ≡ with_item self.old name.now) }
    {
        push_name(&mut self.items, alloc, name)
    }

    /// Adds a pair, of which there is no row yet.
    ///
    /// # Errors
    ///
    /// [`AllocError`] where a growth is refused.
    pub fn add_pair(&mut self, row: PairRow) -> Result<(), AllocError>
        requires row { IsPairRow self.old row }
        requires fresh { list_any (λ p. (p.plant.0 == row.plant.0) && (p.item.0 == row.item.0)) self.old.pairs ≡ false }
        requires room { length self.old.pairs < (most self.old).pairs }
        ensures rows { OnOk result (IsRead self.new) }
        ensures table { OnOk result (self.new ≡ with_pair self.old row) }
    {
        let place = PairNo(self.pairs.len());
        let key = PlantItem {
            plant: row.plant,
            item: row.item,
        };
        self.pairs.reserve(1)?;
        self.pair_places.insert(key, place)?;
        let Ok(()) = self.pairs.push(row) else {
            unreachable!();
        };
        Ok(())
    }

    /// Adds a source row.
    ///
    /// # Errors
    ///
    /// [`AllocError`] where a growth is refused.
    pub fn add_source(&mut self, row: SourceRow) -> Result<(), AllocError>
        requires row { IsSourceRow self.old row }
        requires room { length self.old.sources < (most self.old).sources }
        ensures rows { OnOk result (IsRead self.new) }
        ensures table { OnOk result (self.new ≡ with_source self.old row) }
    {
        self.sources.push(row)?;
        Ok(())
    }

    /// Adds a bill row.
    ///
    /// # Errors
    ///
    /// [`AllocError`] where a growth is refused.
    pub fn add_bill(&mut self, row: BillRow) -> Result<(), AllocError>
        requires row { IsBillRow self.old row }
        requires room { length self.old.bills < (most self.old).bills }
        ensures rows { OnOk result (IsRead self.new) }
        ensures table { OnOk result (self.new ≡ with_bill self.old row) }
    {
        self.bills.push(row)?;
        Ok(())
    }

    /// Adds a demand row.
    ///
    /// # Errors
    ///
    /// [`AllocError`] where a growth is refused.
    pub fn add_demand(&mut self, row: DemandRow) -> Result<(), AllocError>
        requires row { IsDemandRow self.old row }
        requires room { length self.old.demands < (most self.old).demands }
        ensures rows { OnOk result (IsRead self.new) }
        ensures table { OnOk result (self.new ≡ with_demand self.old row) }
    {
        self.demands.push(row)?;
        Ok(())
    }

    /// Adds a receipt row.
    ///
    /// # Errors
    ///
    /// [`AllocError`] where a growth is refused.
    pub fn add_receipt(&mut self, row: ReceiptRow) -> Result<(), AllocError>
        requires row { IsReceiptRow self.old row }
        requires room { length self.old.receipts < (most self.old).of_a_kind }
        ensures rows { OnOk result (IsRead self.new) }
        ensures table { OnOk result (self.new ≡ with_receipt self.old row) }
    {
        self.receipts.push(row)?;
        Ok(())
    }

    /// Adds a ship row.
    ///
    /// # Errors
    ///
    /// [`AllocError`] where a growth is refused.
    pub fn add_ship(&mut self, row: ShipRow) -> Result<(), AllocError>
        requires row { IsShipRow self.old row }
        requires room { length self.old.ships < (most self.old).of_a_kind }
        ensures rows { OnOk result (IsRead self.new) }
        ensures table { OnOk result (self.new ≡ with_ship self.old row) }
    {
        self.ships.push(row)?;
        Ok(())
    }

    /// Adds a cum row.
    ///
    /// # Errors
    ///
    /// [`AllocError`] where a growth is refused.
    pub fn add_cum(&mut self, row: CumRow) -> Result<(), AllocError>
        requires row { IsCumRow self.old row }
        requires room { length self.old.cums < (most self.old).of_a_kind }
        ensures rows { OnOk result (IsRead self.new) }
        ensures table { OnOk result (self.new ≡ with_cum self.old row) }
    {
        self.cums.push(row)?;
        Ok(())
    }

    /// Adds a reset row.
    ///
    /// # Errors
    ///
    /// [`AllocError`] where a growth is refused.
    pub fn add_reset(&mut self, row: ResetRow) -> Result<(), AllocError>
        requires row { IsResetRow self.old row }
        requires room { length self.old.resets < (most self.old).sources }
        ensures rows { OnOk result (IsRead self.new) }
        ensures table { OnOk result (self.new ≡ with_reset self.old row) }
    {
        self.resets.push(row)?;
        Ok(())
    }

    /// Adds a firm row.
    ///
    /// # Errors
    ///
    /// [`AllocError`] where a growth is refused.
    pub fn add_firm(&mut self, row: FirmRow) -> Result<(), AllocError>
        requires row { IsFirmRow self.old row }
        requires room { length self.old.firms < (most self.old).of_a_kind }
        ensures rows { OnOk result (IsRead self.new) }
        ensures table { OnOk result (self.new ≡ with_firm self.old row) }
    {
        self.firms.push(row)?;
        Ok(())
    }

    /// Adds a policy row.
    ///
    /// # Errors
    ///
    /// [`AllocError`] where a growth is refused.
    pub fn add_policy(&mut self, row: PolicyRow) -> Result<(), AllocError>
        requires row { IsPolicyRow self.old row }
        requires room { length self.old.policies < (most self.old).pairs }
        ensures rows { OnOk result (IsRead self.new) }
        ensures table { OnOk result (self.new ≡ with_policy self.old row) }
    {
        self.policies.push(row)?;
        Ok(())
    }

    /// Adds a usage row.
    ///
    /// # Errors
    ///
    /// [`AllocError`] where a growth is refused.
    pub fn add_usage(&mut self, row: UsageRow) -> Result<(), AllocError>
        requires row { IsUsageRow self.old row }
        requires room { length self.old.usages < (most self.old).bills }
        ensures rows { OnOk result (IsRead self.new) }
        ensures table { OnOk result (self.new ≡ with_usage self.old row) }
    {
        self.usages.push(row)?;
        Ok(())
    }

    /// Adds a vendor row.
    ///
    /// # Errors
    ///
    /// [`AllocError`] where a growth is refused.
    pub fn add_vendor(&mut self, row: VendorRow) -> Result<(), AllocError>
        requires row { IsVendorRow self.old (vendor_of row) }
        requires room { length self.old.vendors < (most self.old).pairs }
        ensures rows { OnOk result (IsRead self.new) }
        ensures table { OnOk result (self.new ≡ with_vendor self.old (vendor_of row)) }
    {
        self.vendors.push(row)?;
        Ok(())
    }

    /// Says on which date, as `yyyy-mm-dd`, a period begins: above those that were said before, and below the number of
    /// periods. The periods after it follow by the days of a period.
    ///
    /// # Errors
    ///
    /// - [`CalFault::BadDate`] where `date` isn't a date from 1970-01-01 on, or isn't later than the first day of the
    ///   period before.
    /// - [`CalFault::PastEnd`] where it is, and the last day of the last period would be after 2199-12-31.
    ///
    /// The lists are as they were then.
    pub fn begin(&mut self, period: usize, date: &str) -> Result<(), CalFault>
        requires later { latest_begun self.old.calendar < period }
        requires within { period < horizon self.old }
        ensures rows { OnOk result (IsRead self.new) }
        ensures begun { OnOk result (begins self.old.calendar period date.now ≡ Ok self.new.calendar) }
        ensures table { OnOk result (self.new ≡ with_calendar self.old self.new.calendar) }
        ensures fault { IfErr result (λ fault. begins self.old.calendar period date.now ≡ Err fault) }
        ensures unchanged { OnErr result (self.new ≡ self.old) }
    {
        self.calendar.begin(period, date)
    }

    /// Says that the table ends here.
    pub fn end(&mut self)
        ensures rows { IsRead self.new }
        ensures table { self.new ≡ with_end self.old }
    {
        self.ended = true;
    }

    /// Whether it was said that the table ends here.
    pub fn is_ended(&self) -> bool
        ensures value { result ≡ self.now.ended }
    {
        self.ended
    }

    /// The pair of a plant and an item.
    pub fn find_pair(&self, plant: PlantNo, item: ItemNo) -> Option<PairNo>
        ensures place { option_map (λ x. x.0) result
            ≡ position (λ p. (p.plant.0 == plant.0) && (p.item.0 == item.0)) self.now.pairs }
        ensures within { IfSome result (λ pair. pair.0 < length self.now.pairs) }
    {
        self.pair_places.get(&PlantItem { plant, item }).copied()
    }

    /// Whether the pair behind a source has no row.
    fn lacks(&self, source: &SourceRow) -> bool
        ensures value { result ≡ lacks_pair self.now source.now }
    {
        self.find_pair(source.plant, self.item_of(source.pair))
            .is_none()
    }

    /// The item of a pair.
    fn item_of(&self, pair: PairNo) -> ItemNo
        ensures value { result.0 ≡ item_at self.now pair.0 }
    {
        match self.pairs.get(pair.0) {
            Some(row) => row.item,
            None => ItemNo(0),
        }
    }

    /// The first source whose pair has no row.
    pub fn first_lacking(&self) -> Option<usize>
        ensures place { result ≡ position (lacks_pair self.now) self.now.sources }
    {
        self.sources.iter().position(|source| self.lacks(source))
    }

    /// How great the table may be.
    pub fn limit_set(&self) -> LimitSet
        ensures value { result ≡ self.now.limits }
    {
        self.limits
    }

    /// The limits of the table as numbers.
    pub fn limits(&self) -> Limits
        ensures value { result ≡ most self.now }
    {
        self.limits.limits()
    }

    /// The days of the periods.
    pub fn calendar(&self) -> &Calendar
        ensures value { result.now ≡ self.now.calendar }
    {
        &self.calendar
    }

    /// How many plants there are.
    pub fn plants(&self) -> usize
        ensures value { result ≡ length self.now.plants }
    {
        self.plants.len()
    }

    /// The pairs in table order.
    pub fn pairs(&self) -> &[PairRow]
        ensures value { result.now ≡ self.now.pairs }
    {
        self.pairs.as_slice()
    }

    /// The sources of all pairs in table order: those of a pair stand together, as its row names them.
    pub fn sources(&self) -> &[SourceRow]
        ensures value { result.now ≡ self.now.sources }
    {
        self.sources.as_slice()
    }

    /// The bill rows in table order.
    pub fn bills(&self) -> &[BillRow]
        ensures value { result.now ≡ self.now.bills }
    {
        self.bills.as_slice()
    }

    /// The demand rows in table order.
    pub fn demands(&self) -> &[DemandRow]
        ensures value { result.now ≡ self.now.demands }
    {
        self.demands.as_slice()
    }

    /// The receipt rows in table order.
    pub fn receipts(&self) -> &[ReceiptRow]
        ensures value { result.now ≡ self.now.receipts }
    {
        self.receipts.as_slice()
    }

    /// The ship rows in table order.
    pub fn ships(&self) -> &[ShipRow]
        ensures value { result.now ≡ self.now.ships }
    {
        self.ships.as_slice()
    }

    /// The cum rows in table order.
    pub fn cums(&self) -> &[CumRow]
        ensures value { result.now ≡ self.now.cums }
    {
        self.cums.as_slice()
    }

    /// The reset rows in table order.
    pub fn resets(&self) -> &[ResetRow]
        ensures value { result.now ≡ self.now.resets }
    {
        self.resets.as_slice()
    }

    /// The firm rows in table order.
    pub fn firms(&self) -> &[FirmRow]
        ensures value { result.now ≡ self.now.firms }
    {
        self.firms.as_slice()
    }

    /// The policy rows in table order.
    pub fn policies(&self) -> &[PolicyRow]
        ensures value { result.now ≡ self.now.policies }
    {
        self.policies.as_slice()
    }

    /// The usage rows in table order.
    pub fn usages(&self) -> &[UsageRow]
        ensures value { result.now ≡ self.now.usages }
    {
        self.usages.as_slice()
    }

    /// The vendor rows in table order.
    pub fn vendors(&self) -> &[VendorRow]
        ensures value { map vendor_of result.now ≡ self.now.vendors }
    {
        self.vendors.as_slice()
    }

    /// How many items there are.
    pub fn items(&self) -> usize
        ensures value { result ≡ length self.now.items }
    {
        self.items.len()
    }

    /// The name of a plant.
    pub fn plant_name(&self, plant: PlantNo) -> &str
        requires known { plant.0 < length self.now.plants }
        ensures value { slice_get self.now.plants plant.0 ≡ Some result.now }
    {
        name_at(self.plants.as_slice(), plant.0)
    }

    /// The name of an item.
    pub fn item_name(&self, item: ItemNo) -> &str
        requires known { item.0 < length self.now.items }
        ensures value { slice_get self.now.items item.0 ≡ Some result.now }
    {
        name_at(self.items.as_slice(), item.0)
    }

    /// The plant of that name, if there is one. The names are looked through one by one.
    pub fn find_plant(&self, name: &str) -> Option<PlantNo>
        ensures place { option_map (λ p. p.0) result ≡ plant_no self.now name.now }
        ensures within { IfSome result (λ p. p.0 < length self.now.plants) }
    {
        place_of_name(self.plants.as_slice(), name).map(PlantNo)
    }

    /// The item of that name, if there is one. The names are looked through one by one.
    pub fn find_item(&self, name: &str) -> Option<ItemNo>
        ensures place { option_map (λ i. i.0) result ≡ position (bytes_eq name.now) self.now.items }
        ensures within { IfSome result (λ i. i.0 < length self.now.items) }
    {
        place_of_name(self.items.as_slice(), name).map(ItemNo)
    }
}
