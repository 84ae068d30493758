//! The plan of the whole network: orders of a pair in it, firm and planned, what is ordered, when it
//! is due and when it is released.

ghost use Rattle.std.specs.Prelude.{◌≡◌, ◌<◌, length, Option};
ghost use Rattle.mrp_plan.specs.Orders.{order_in, is_released_by, firm_order, order_of_plan};

use mrp_master_data::FirmRow;
use mrp_netting::PairPlan;
use mrp_qty::Qty;

/// A planned order: the planned order receipt of a pair in one period, and its planned order release a lead time earlier,
/// or a lead time before the earliest period in which planned orders of the pair can come in, where that is later.
#[derive(Clone, Copy, Debug)]
pub struct PlannedOrder {
    /// How many pieces are ordered, 1 to 10^15.
    pub quantity: Qty,
    /// The period of the order's receipt, 0 to 519 and below the horizon.
    pub due: usize,
    /// The period of its release: due less lead time; of an order that is due before the earliest period in which one
    /// can come in, that period less lead time; of a firm planned order that of its row.
    pub release: usize,
    /// How many periods are missing: the earliest period in which the order can come in less due, at most 520, and 0
    /// where none is or the order is firm.
    pub late: u64,
}

impl PlannedOrder {
    /// Whether the order is released in that period or before it. Without a period every order is.
    pub fn is_released_by(&self, until: Option<u64>) -> bool
        ensures { result ≡ is_released_by until self.now }
    {
        match until {
            None => true,
            Some(period) => self.release as u64 <= period,
        }
    }
}

/// Who sets an order.
#[derive(Clone, Copy, Debug, PartialEq, Eq)]
pub enum OrderSort {
    /// A firm planned order: planners set its quantity and its periods, and no plan moves it.
    Firm,
    /// A planned order of the plan.
    Planned,
}

/// An order of a pair as it is listed: firm planned orders beside the planned ones.
#[derive(Clone, Copy, Debug)]
pub struct ListedOrder {
    /// Who sets it.
    pub sort: OrderSort,
    /// What is ordered, when it is due and when it is released. A firm planned order is never late.
    pub order: PlannedOrder,
}

impl ListedOrder {
    /// A firm planned order of the table, which is released and due in the periods of its row.
    pub fn firm(row: &FirmRow) -> ListedOrder
        ensures { result ≡ firm_order row.now }
    {
        ListedOrder {
            sort: OrderSort::Firm,
            order: PlannedOrder {
                quantity: row.quantity,
                due: row.due,
                release: row.start,
                late: 0,
            },
        }
    }

    /// A planned order of the plan, which comes after the firm planned orders that are due with it.
    pub fn planned(order: PlannedOrder) -> ListedOrder
        ensures { result ≡ order_of_plan order }
    {
        ListedOrder {
            sort: OrderSort::Planned,
            order,
        }
    }
}

/// The order of a pair's plan that is due in period `t`, or `None` where nothing is ordered there.
///
/// `lead` is the pair's lead time, 0 to 520 periods, `earliest` the earliest period in which planned orders of the pair
/// can come in, the greater of its lead time and its planning time fence, 0 to 520, and `t` is below the horizon.
pub fn planned_order(plan: &PairPlan, lead: u64, earliest: u64, t: usize) -> Option<PlannedOrder>
    requires { t < length plan.now.order }
    ensures { result ≡ order_in lead earliest plan.now t }
{
    let quantity = plan.order().get(t);
    if quantity.get() == 0 {
        return None;
    }
    Some(PlannedOrder {
        quantity,
        due: t,
        release: t.max(earliest as usize).saturating_sub(lead as usize),
        late: earliest.saturating_sub(t as u64),
    })
}
