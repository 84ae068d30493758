//! The plan of the whole network: in its pegging, a term of a gross requirement, and where it comes from.

use mrp_net::PairNo;

/// Where a requirement comes from.
#[derive(Clone, Copy, Debug, PartialEq, Eq)]
pub enum PegSource {
    /// The demand rows of the pair itself.
    Demand,
    /// A parent at the same plant, by its bill.
    Bill,
    /// The same item at a plant that takes it from the pair.
    Plant,
}

/// One term of a gross requirement.
#[derive(Clone, Copy, Debug)]
pub struct PegTerm {
    /// Where it comes from.
    pub source: PegSource,
    /// The pair that asks: the pair itself for its demand rows, else the demander.
    pub pair: PairNo,
    /// The sum of the demand rows, or the part of the demander's release that the pair has to
    /// serve, in pieces.
    pub release: u64,
    /// Pieces for each `base` pieces of it, 0 to 10^6, by the usage in force in the period: 1 for demand rows and for
    /// what another plant takes.
    pub per: u64,
    /// For so many pieces of it `per` are asked, 1 to 10^6: 1 but where a usage row says more.
    pub base: u64,
    /// The term: `release` times `per` by `base`, rounded up, at most 10^15 pieces, and above 0 in what [`crate::peg`] gives.
    pub quantity: u64,
}
