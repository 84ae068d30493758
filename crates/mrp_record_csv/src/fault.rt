//! Records as CSV: why a text of them is refused, and at which row.

ghost use Rattle.mrp_record_csv.specs.declared.fault.RecordFaultKind.TheVariants.{Memory};
ghost use Rattle.std.specs.Prelude.{◌≡◌};

use std::alloc::{AllocError, AllocFailed};
use thiserror::Error;

/// Why records are refused: the first fault of the first row that has one.
///
/// A row is tested in the order of the kinds from [`NotUtf8`](RecordFaultKind::NotUtf8) to
/// [`UnknownItem`](RecordFaultKind::UnknownItem).
#[derive(Clone, Copy, Debug, PartialEq, Eq, Error)]
pub enum RecordFaultKind {
    /// The reader failed while this row was read, or the row is one more than the limit.
    #[error("the reader failed, or there are too many records")]
    ReadFault,
    /// A field isn't UTF-8.
    #[error("a field is not UTF-8")]
    NotUtf8,
    /// There aren't six fields, or one that the kind of record doesn't use isn't empty.
    #[error("not the fields of this kind of record")]
    FieldCount,
    /// The first field is no kind of record.
    #[error("no kind of record")]
    UnknownKind,
    /// A number is misspelt.
    #[error("not a number")]
    BadNumber,
    /// No pair of the network is of this item; the field may be no name at all.
    #[error("an unknown item")]
    UnknownItem,
    /// A growth was refused while this row was read or kept, or before the first.
    #[error("out of memory")]
    Memory,
}

impl From<AllocError> for RecordFaultKind {
    ghost from_gives = { λ _ fault. fault ≡ Memory };

    fn from(_refusal: AllocError) -> RecordFaultKind {
        RecordFaultKind::Memory
    }
}

impl<T: Drop> From<AllocFailed<T>> for RecordFaultKind {
    ghost from_gives = { λ _ fault. fault ≡ Memory };

    fn from(_refusal: AllocFailed<T>) -> RecordFaultKind {
        RecordFaultKind::Memory
    }
}

/// Why records are refused, and where.
#[derive(Clone, Copy, Debug, PartialEq, Eq, Error)]
#[error("row {row}: {kind}")]
pub struct RecordFault {
    /// The row, counted from 1.
    pub row: u64,
    /// What is wrong with it.
    pub kind: RecordFaultKind,
}
