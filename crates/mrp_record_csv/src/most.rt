//! Records as CSV: how many records may be read.

use mrp_net::{LaneNo, Network};
use mrp_qty::MOST_RECORDS;

/// How many records may be read of a text.
#[derive(Clone, Copy)]
pub(crate) enum Most {
    /// [`MOST_RECORDS`], of whatever lanes they are.
    Fixed,
    /// As many as a text of the lane can have.
    OfLane(LaneNo),
}

impl Most {
    ghost use Rattle.std.specs.Prelude.{◌≡◌, ◌≤◌};
    ghost use Rattle.mrp_qty.specs.declared.quantity.TheConstants.{MOST};
    ghost use Rattle.mrp_record_csv.specs.Most.{HasLane, most_records};

    /// How many they are in a network, at most 10^15.
    pub(crate) fn records(self, network: &Network) -> u64
        requires lane { HasLane network.now self }
        ensures value { result ≡ most_records network.now self }
        ensures short { result ≤ MOST }
    {
        let _pairs = network.pairs();
        match self {
            Most::Fixed => MOST_RECORDS,
            Most::OfLane(lane) => network.longest_text(lane),
        }
    }
}
