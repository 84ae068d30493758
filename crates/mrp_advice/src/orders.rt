//! Advice: the open orders that exception messages are for, what is to come in, firm planned orders among it.

ghost use Rattle.std.specs.Prelude.{◌≡◌};
ghost use Rattle.mrp_advice.specs.Needed.{may_come_sooner};
ghost use Rattle.mrp_advice.specs.OpenOrders.{comes_by, firm_order, receipt_order, ship_order};

use mrp_master_data::{FirmRow, PairNo, PlantNo, ReceiptRow, ShipRow};
use mrp_netting::Policy;
use mrp_qty::Qty;

/// What kind of open order it is.
#[derive(Clone, Copy, Debug)]
pub enum OrderKind {
    /// A scheduled receipt of the table, whatever it comes from.
    Receipt,
    /// A shipment that is on its way from that plant of the firm.
    Ship(PlantNo),
    /// A firm planned order of the table.
    Firm,
}

/// An open order: a receipt or a shipment of the table, which is still to come in, or a firm planned order of it.
#[derive(Clone, Copy, Debug)]
pub struct OpenOrder {
    /// A receipt, a shipment and its sender, or a firm planned order.
    pub kind: OrderKind,
    /// The pair that it is for.
    pub pair: PairNo,
    /// The period in which it is due, from 0, below the horizon. A firm planned order may be released before.
    pub period: usize,
    /// How many pieces, 1 to 10^12.
    pub quantity: Qty,
}

impl OpenOrder {
    /// A scheduled receipt of the table.
    pub fn receipt(receipt: &ReceiptRow) -> OpenOrder
        ensures { result ≡ receipt_order receipt.now }
    {
        OpenOrder {
            kind: OrderKind::Receipt,
            pair: receipt.pair,
            period: receipt.period,
            quantity: receipt.quantity,
        }
    }

    /// A shipment of the table, with the plant that sends it.
    pub fn ship(ship: &ShipRow) -> OpenOrder
        ensures { result ≡ ship_order ship.now }
    {
        OpenOrder {
            kind: OrderKind::Ship(ship.from),
            pair: ship.pair,
            period: ship.period,
            quantity: ship.quantity,
        }
    }

    /// A firm planned order of the table, which comes in the period in which it is due.
    pub fn firm(firm: &FirmRow) -> OpenOrder
        ensures { result ≡ firm_order firm.now }
    {
        OpenOrder {
            kind: OrderKind::Firm,
            pair: firm.pair,
            period: firm.due,
            quantity: firm.quantity,
        }
    }

    /// Whether the order comes in that period or before it. Without a period every order does.
    pub fn comes_by(&self, until: Option<u64>) -> bool
        ensures { result ≡ comes_by until self.now }
    {
        match until {
            None => true,
            Some(period) => self.period as u64 <= period,
        }
    }

    /// Whether the order is a receipt that may be counted sooner than it comes, by the policy of its pair.
    pub(crate) fn may_come_sooner(&self, policy: Policy) -> bool
        ensures { result ≡ may_come_sooner policy self.now }
    {
        policy.sooner > 0 && matches!(self.kind, OrderKind::Receipt)
    }
}
