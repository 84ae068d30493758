//! The network: a lane between two of its plants, its kind and its shipments.

use mrp_master_data::PlantNo;
use mrp_qty::Qty;

/// A lane, by its place among the lanes of the network, from 0: by customer in table order, then by
/// supplier, the despatch lane before the schedule lane.
#[derive(Clone, Copy, Debug, PartialEq, Eq, PartialOrd, Ord, Hash)]
pub struct LaneNo(pub usize);

/// What a lane's records say.
#[derive(Clone, Copy, Debug, PartialEq, Eq, PartialOrd, Ord, Hash)]
pub enum LaneKind {
    /// What is on its way, from the supplier to the customer.
    Despatch,
    /// What is called for, from the customer to the supplier.
    Schedule,
}

/// A lane between a customer, a plant that takes items, and a supplier, the plant that it takes them
/// from.
#[derive(Clone, Copy, Debug, PartialEq, Eq)]
pub struct Lane {
    /// What its records say.
    pub kind: LaneKind,
    /// The plant that sends them.
    pub sender: PlantNo,
    /// The plant that receives them.
    pub receiver: PlantNo,
}

impl Lane {
    ghost use Rattle.std.specs.Prelude.{◌≡◌};
    ghost use Rattle.mrp_net.specs.Lanes.{customer_of, supplier_of};

    /// The plant that takes the items.
    pub fn customer(&self) -> PlantNo
        ensures { result.0 ≡ customer_of self.now }
    {
        match self.kind {
            LaneKind::Despatch => self.receiver,
            LaneKind::Schedule => self.sender,
        }
    }

    /// The plant that they are taken from.
    pub fn supplier(&self) -> PlantNo
        ensures { result.0 ≡ supplier_of self.now }
    {
        match self.kind {
            LaneKind::Despatch => self.sender,
            LaneKind::Schedule => self.receiver,
        }
    }
}

/// A shipment on its way.
#[derive(Clone, Copy, Debug)]
pub struct Shipment {
    /// The period of its arrival, below the horizon.
    pub period: usize,
    /// How many pieces, 1 to 10^12.
    pub quantity: Qty,
}
