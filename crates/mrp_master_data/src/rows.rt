//! Master data: the rows of a table, a type for each kind of row, with names as numbers.

ghost use Rattle.std.specs.Prelude.{◌≡◌};

use crate::{ItemNo, PairNo, PlantNo};
use mrp_lot::Rule;
use mrp_netting::{PairParams, Policy};
use mrp_qty::Qty;

/// Where a pair comes from.
#[derive(Clone, Copy, Debug, PartialEq, Eq)]
pub enum Supply {
    /// Made at its plant from its components.
    Make,
    /// Bought from outside the firm.
    Buy,
    /// Taken from other plants of the firm: the pair's source rows say which.
    From,
}

/// An item at a plant, and how it is planned.
#[derive(Clone, Copy, Debug)]
pub struct PairRow {
    /// Where it is kept.
    pub plant: PlantNo,
    /// What it is.
    pub item: ItemNo,
    /// Where it comes from.
    pub supply: Supply,
    /// How its orders are sized.
    pub rule: Rule,
    /// Lead time in periods, from release to receipt, 0 to 520. Of a pair that is taken from a plant it is the transit.
    pub lead: u64,
    /// Pieces on hand before period 0, at most 10^12.
    pub on_hand: Qty,
    /// Safety stock in pieces, at most 10^12.
    pub safety: Qty,
}

impl PairRow {
    ghost use Rattle.mrp_master_data.specs.Rows.{params_of};

    /// What the plan of the pair needs of the row.
    pub fn params(&self) -> PairParams
        ensures { result ≡ params_of self.now }
    {
        PairParams {
            rule: self.rule,
            lead: self.lead,
            on_hand: self.on_hand,
            safety: self.safety,
        }
    }
}

/// One source of a pair that is taken from plants of the firm, and its share of each release.
///
/// Shares are in thousandths and stand in the order of the pair row: the source's share goes from
/// `low` to `high`, the next source begins at this one's `high`, the first at 0, and the last ends
/// at 1000.
#[derive(Clone, Copy, Debug)]
pub struct SourceRow {
    /// The pair that is taken.
    pub pair: PairNo,
    /// The plant that it is taken from.
    pub plant: PlantNo,
    /// Where the share begins, 0 to 999.
    pub low: u64,
    /// Where the share ends, 1 to 1000.
    pub high: u64,
}

/// A component of a made pair; both are at one plant.
#[derive(Clone, Copy, Debug)]
pub struct BillRow {
    /// The pair that is made.
    pub parent: PairNo,
    /// The pair that goes into it.
    pub component: PairNo,
    /// How many pieces of the component go into one of the parent where no usage row is in force, 1 to 10^6.
    pub per: u64,
}

/// A demand from outside the firm.
#[derive(Clone, Copy, Debug)]
pub struct DemandRow {
    /// The pair that is wanted.
    pub pair: PairNo,
    /// The period, below the horizon.
    pub period: usize,
    /// How many pieces, 1 to 10^12.
    pub quantity: Qty,
}

/// A scheduled receipt from outside the firm or from the pair's own shop.
#[derive(Clone, Copy, Debug)]
pub struct ReceiptRow {
    /// The pair that is received.
    pub pair: PairNo,
    /// The period, below the horizon.
    pub period: usize,
    /// How many pieces, 1 to 10^12.
    pub quantity: Qty,
}

/// A shipment between two plants of the firm that is on its way.
#[derive(Clone, Copy, Debug)]
pub struct ShipRow {
    /// The plant that sends it.
    pub from: PlantNo,
    /// The pair that receives it.
    pub pair: PairNo,
    /// The period of its arrival, below the horizon.
    pub period: usize,
    /// How many pieces, 1 to 10^12.
    pub quantity: Qty,
}

/// What a plant has shipped to a pair before the shipments of the table.
#[derive(Clone, Copy, Debug)]
pub struct CumRow {
    /// The plant that has shipped it.
    pub from: PlantNo,
    /// The pair that has received it.
    pub pair: PairNo,
    /// The cumulative figure in pieces, 0 to 10^15.
    pub figure: Qty,
}

/// Where the cumulative figures between a plant and a pair start anew.
#[derive(Clone, Copy, Debug)]
pub struct ResetRow {
    /// The plant that ships.
    pub from: PlantNo,
    /// The pair that receives.
    pub pair: PairNo,
    /// The first period of the new figures, below the horizon.
    pub period: usize,
}

/// A firm planned order: a planned order whose quantity and periods the planner has set, and no plan changes.
#[derive(Clone, Copy, Debug)]
pub struct FirmRow {
    /// The pair that is ordered.
    pub pair: PairNo,
    /// The period of its release, in which components or deliveries are asked for.
    pub start: usize,
    /// The period in which it is due, not before its release, and below the horizon.
    pub due: usize,
    /// How many pieces, 1 to 10^12.
    pub quantity: Qty,
}

/// How a pair is planned beyond its pair row. A pair has at most one.
#[derive(Clone, Copy, Debug)]
pub struct PolicyRow {
    /// The pair that is planned so.
    pub pair: PairNo,
    /// Its planning time fence, how much sooner its receipts may be counted, how many periods are covered ahead, and the
    /// minimum and the multiple of its planned orders. The fence is below the horizon.
    pub policy: Policy,
}

/// How much of a component goes into its parent, as so many pieces for so many parents.
#[derive(Clone, Copy, Debug)]
pub struct Usage {
    /// How many pieces of the component, 0 to 10^6.
    pub per: u64,
    /// Into how many parents they go, 1 to 10^6.
    pub base: u64,
}

/// How much of a component goes into its parent from a period on: by scrap, as a fraction, or after a change of the bill.
/// Parent and component are those of a bill row.
#[derive(Clone, Copy, Debug)]
pub struct UsageRow {
    /// The pair that is made.
    pub parent: PairNo,
    /// The pair that goes into it.
    pub component: PairNo,
    /// The first period of the parents' releases that it speaks of, below the horizon.
    pub period: usize,
    /// How much goes into the parents that are released from then on, until the next row of both begins.
    pub usage: Usage,
}

/// Who delivers a bought pair by cumulative schedules. A pair has at most one.
#[derive(Debug, Drop)]
pub struct VendorRow {
    /// The vendor's name, which no plant has.
    pub name: String,
    /// The pair that is bought.
    pub pair: PairNo,
    /// The cumulative figure of what has been received from the vendor, in pieces, at most 10^15.
    pub figure: Qty,
    /// How many pieces are on their way from the vendor, at most 10^15.
    pub transit: Qty,
    /// The first period from which the figures start anew, below the horizon, if they do.
    pub reset: Option<usize>,
}
