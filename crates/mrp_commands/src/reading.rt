//! Commands: how the table is to be read for one.

use mrp_qty::LimitSet;

/// How a table is to be read.
#[derive(Clone, Copy, Debug, PartialEq, Eq)]
pub struct Reading {
    /// It has to end with an `end` row: one without it was cut off, and is refused.
    pub whole: bool,
    /// How great it may be: within the usual limits, or those of any table.
    pub limits: LimitSet,
}
