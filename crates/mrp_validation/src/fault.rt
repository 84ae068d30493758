//! Why validation refuses a table, and at which row.

ghost use Rattle.mrp_validation.specs.declared.fault.TableFaultKind.TheVariants.{Memory};
ghost use Rattle.std.specs.Prelude.{◌≡◌};

use mrp_cal::CalFault;
use mrp_master_data::SupplyFault;
use std::alloc::{AllocError, AllocFailed};
use thiserror::Error;

/// Why a table is refused: the first fault of the first row that has one.
///
/// A row is tested in the order of the kinds from [`NotUtf8`](TableFaultKind::NotUtf8) to
/// [`TooMany`](TableFaultKind::TooMany), then for [`ResetOrder`](TableFaultKind::ResetOrder). That there is no row,
/// that a pair is missing which a source takes from, and last that the table was cut off, is told behind the last row.
#[derive(Clone, Copy, Debug, PartialEq, Eq, Error)]
pub enum TableFaultKind {
    /// The reader failed while this row was read.
    #[error("the reader failed")]
    ReadFault,
    /// A field isn't UTF-8.
    #[error("a field is not UTF-8")]
    NotUtf8,
    /// There aren't eight fields, or one that the kind doesn't use isn't empty.
    #[error("not the fields of this kind of row")]
    FieldCount,
    /// The first field is no kind of row.
    #[error("no kind of row")]
    UnknownKind,
    /// The first row isn't the run, or another row is, or a kind stands before the kind of the last
    /// row, or a row stands behind the end.
    #[error("the kinds of rows are out of order")]
    KindOrder,
    /// A plant, an item, a parent, a component or a vendor is no name.
    #[error("not a name")]
    BadName,
    /// A number is misspelt or out of its range; the days of a period only where misspelt.
    #[error("not a number in its range")]
    BadNumber,
    /// The lot rule is misspelt, or a number in it is out of its range.
    #[error("not a lot rule")]
    BadRule,
    /// The supply is misspelt, or its shares don't fit.
    #[error("not a supply")]
    BadSupply,
    /// The run's first day, days and periods make no calendar, or a period can't begin on the date of its day row.
    #[error("no calendar: {0}")]
    CalendarFault(CalFault),
    /// A second row of the same plant, of the same pair (a pair, its policy or its vendor), of the same parent and
    /// component (a usage: from the same period), or of the same two plants and item (a cumulative figure, or its reset).
    #[error("a second row of the same")]
    Repeated,
    /// A plant that the row names has no row.
    #[error("an unknown plant")]
    UnknownPlant,
    /// A pair that the row names has no row.
    #[error("an unknown pair")]
    UnknownPair,
    /// The parent of a bill row isn't made, or no bill row joins the parent and the component of a usage row.
    #[error("the parent is not made")]
    NotMade,
    /// The pair that receives isn't taken from the plant that ships, or the pair of a vendor isn't bought.
    #[error("the pair does not come from there")]
    NotSourced,
    /// A pair is taken from its own plant, or a vendor has a plant's name.
    #[error("a pair is taken from its own plant, or a vendor is a plant")]
    SelfSource,
    /// The row is one more of its kind than the limit.
    #[error("too many rows of this kind")]
    TooMany,
    /// There is no row.
    #[error("no rows")]
    Empty,
    /// A growth was refused while this row was read or kept.
    #[error("out of memory")]
    Memory,
    /// The shipments whose figures start anew don't stand in the order of their arrival.
    #[error("the shipments are out of order")]
    ResetOrder,
    /// There is no `end` row, where one was asked for: the table was cut off. The row is the one behind the last.
    #[error("the table was cut off")]
    Cut,
}

impl From<AllocError> for TableFaultKind {
    ghost from_gives = { λ _ fault. fault ≡ Memory };

    fn from(_refusal: AllocError) -> TableFaultKind {
        TableFaultKind::Memory
    }
}

impl<T: Drop> From<AllocFailed<T>> for TableFaultKind {
    ghost from_gives = { λ _ fault. fault ≡ Memory };

    fn from(_refusal: AllocFailed<T>) -> TableFaultKind {
        TableFaultKind::Memory
    }
}

impl From<SupplyFault> for TableFaultKind {
    ghost use Rattle.mrp_validation.specs.Grammar.{fault_of_supply};

    ghost from_gives = { λ refusal fault. fault ≡ fault_of_supply refusal };

    fn from(refusal: SupplyFault) -> TableFaultKind {
        match refusal {
            SupplyFault::NotASupply => TableFaultKind::BadSupply,
            SupplyFault::Memory => TableFaultKind::Memory,
        }
    }
}

/// Why a table is refused, and where.
#[derive(Clone, Copy, Debug, PartialEq, Eq, Error)]
#[error("row {row}: {kind}")]
pub struct TableFault {
    /// The row, counted from 1; 0 where there is no row.
    pub row: u64,
    /// What is wrong with it.
    pub kind: TableFaultKind,
}
