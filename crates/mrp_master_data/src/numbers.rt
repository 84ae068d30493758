//! Master data: plants, items and pairs by their places in a table.

/// A plant, by its place among the plants of the table, from 0.
#[derive(Clone, Copy, Debug, PartialEq, Eq, PartialOrd, Ord, Hash)]
pub struct PlantNo(pub usize);

/// An item, by its place among the items in the order of their first pair rows, from 0.
#[derive(Clone, Copy, Debug, PartialEq, Eq, PartialOrd, Ord, Hash)]
pub struct ItemNo(pub usize);

/// A pair, an item at a plant, by its place among the pair rows of the table, from 0.
#[derive(Clone, Copy, Debug, PartialEq, Eq, PartialOrd, Ord, Hash)]
pub struct PairNo(pub usize);
