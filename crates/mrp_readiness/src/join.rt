//! Readiness: a join, by which a pair waits for a demander of it to be planned.

/// A bill row at one plant: a component goes into a demander. Both are places among the plant's pairs.
/// A component may stand in several rows of one demander.
#[derive(Clone, Copy, Debug, PartialEq, Eq)]
pub struct Join {
    /// The place of the component, which waits until the demander is planned.
    pub component: usize,
    /// The place of the demander.
    pub demander: usize,
}
