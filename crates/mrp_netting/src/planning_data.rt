//! Netting one pair: what its plan is made from, its rows, and how planners want it planned.

use crate::PairParams;

/// How a pair is planned beyond its lot rule, lead time and stocks. 0 is none of each.
#[derive(Clone, Copy, Debug, PartialEq, Eq)]
pub struct Policy {
    /// The planning time fence: no planned order is released that would come in before this period, 0 to the horizon
    /// less 1.
    pub fence: u64,
    /// By how many periods scheduled receipts may be counted sooner than they come, 0 to 520.
    pub sooner: u64,
    /// How many periods of gross requirements are to be in stock ahead, beside safety stock, 0 to 520.
    pub cover: u64,
    /// The least planned order in pieces, 0 to 10^12.
    pub least: u64,
    /// Planned orders are multiples of so many pieces, 0 to 10^12.
    pub multiple: u64,
}

impl Policy {
    /// None of each.
    pub const NONE: Policy = Policy {
        fence: 0,
        sooner: 0,
        cover: 0,
        least: 0,
        multiple: 0,
    };
}

/// What the plan of one pair is made from beside its gross requirements.
///
/// Each row has the pieces of periods 0, 1, .. and may be shorter than the horizon: the periods that it doesn't reach
/// have none. So a pair without such orders has an empty row.
#[derive(Clone, Copy)]
pub struct PlanningData<'a> {
    /// Lot rule, lead time, stock on hand and safety stock.
    pub params: PairParams,
    /// How the pair is planned beyond that.
    pub policy: Policy,
    /// Scheduled receipts: pieces of open orders, by the period in which they come.
    pub receipts: &'a [u64],
    /// Pieces that come from other plants, by period.
    pub arrivals: &'a [u64],
    /// Firm planned orders in pieces, by the period in which they are released.
    pub firm_start: &'a [u64],
    /// The same firm planned orders, by the period in which they are due.
    pub firm_due: &'a [u64],
}

impl<'a> PlanningData<'a> {
    ghost use Rattle.std.specs.Prelude.{◌≡◌, ℕ, List};
    ghost use Rattle.mrp_netting.specs.PlanningData.{plain};
    ghost use Rattle.mrp_netting.specs.PlanningBound.{data_of};

    /// The data of a pair without a policy and without firm planned orders, all of whose receipts count when they
    /// come: `incoming` has its scheduled receipts and what comes from other plants, by period.
    pub fn plain(params: PairParams, incoming: &'a [u64]) -> PlanningData<'a>
        ensures { (gross : List ℕ) → data_of result gross ≡ plain params incoming.now gross }
    {
        PlanningData {
            params,
            policy: Policy::NONE,
            receipts: &[],
            arrivals: incoming,
            firm_start: &[],
            firm_due: &[],
        }
    }
}
