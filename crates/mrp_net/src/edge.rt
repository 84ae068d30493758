//! The network: one of its edges, by which a pair takes from another one, by a bill or from a source.

use mrp_master_data::PairNo;

/// An edge: the demander takes from the pair, `per` pieces for each piece of its part of a release where no usage row
/// is in force.
///
/// The part is that from the running share `low` to the running share `high`, in thousandths: the
/// whole release, 0 to 1000, for the component of a made parent.
#[derive(Clone, Copy, Debug)]
pub struct Edge {
    /// The pair whose releases ask for pieces.
    pub demander: PairNo,
    /// The pair that they are taken from.
    pub pair: PairNo,
    /// Pieces for each piece of the part where no usage row is in force, 1 to 10^6.
    pub per: u64,
    /// The running share before it, 0 to 999.
    pub low: u64,
    /// The running share with it, 1 to 1000.
    pub high: u64,
}
