//! The library: why a text function has not written its report whole, and the status that a program ends with then.

ghost use Rattle.std.specs.Prelude.{◌≡◌};
ghost use Rattle.mrp_api.specs.Fault.{status_of, table_status_of, IsOfReport};
ghost use Rattle.mrp_api.specs.declared.fault.TextFault.TheVariants.{Memory};

use mrp_report::ReportFault;
use mrp_validation::{TableFault, TableFaultKind};
use std::alloc::{AllocError, AllocFailed};
use thiserror::Error;

/// A pair by the names of its plant and its item.
#[derive(Debug, Drop)]
pub struct PairName {
    /// Where it is kept.
    pub plant: String,
    /// What it is.
    pub item: String,
}

/// Why a text was not written whole. Of the table, its loops and quantities and the question the first fault
/// that holds, in this order, is answered. What plants that run in threads meet comes behind all of these, and
/// of several such faults any may be answered. A refused growth ends the work where it happens.
#[derive(Debug, Drop, Error)]
pub enum TextFault {
    /// The table is refused: the first fault of the first row that has one. Or reading it failed, or memory was
    /// refused while it was read.
    #[error("the table is refused: {0}")]
    Table(TableFault),
    /// These pairs are a loop: each takes from the next, and the last from the first.
    #[error("a loop")]
    Loop(Vec<PairName>),
    /// On hand, receipts, shipments, firm orders, opening figures and its vendor's figures make more than 10^15 of this
    /// pair: the first such pair in the table.
    #[error("the supply of a pair is too large")]
    SupplyTooLarge(PairName),
    /// Supply and need of this pair are above 10^15: the first such pair by its low-level code, then
    /// in the table.
    #[error("the need of a pair is too large")]
    NeedTooLarge(PairName),
    /// The table has no pair of these names.
    #[error("no such pair")]
    NoPair,
    /// The plan has no such period.
    #[error("no such period")]
    NoPeriod,
    /// A thread could not be started.
    #[error("a thread was refused")]
    ThreadRefused,
    /// The gate was shut for the plant of this name.
    #[error("the gate is shut")]
    GateShut(String),
    /// A plant used all of its turns.
    #[error("stopped")]
    Stopped,
    /// A write failed or took nothing. A prefix of the text is written.
    #[error("the writer failed")]
    WriteFault,
    /// A growth was refused. Nothing is written, or of a plan all plan rows and no late order.
    #[error("out of memory")]
    Memory,
    /// The table has no plant of a name that is given, and of a supplier's name no vendor.
    #[error("no such plant")]
    NoPlant,
}

impl From<AllocError> for TextFault {
    ghost from_gives = { λ _ fault. fault ≡ Memory };

    fn from(_refusal: AllocError) -> TextFault {
        TextFault::Memory
    }
}

impl<T: Drop> From<AllocFailed<T>> for TextFault {
    ghost from_gives = { λ _ fault. fault ≡ Memory };

    fn from(_refusal: AllocFailed<T>) -> TextFault {
        TextFault::Memory
    }
}

impl From<mrp_qty::Memory> for TextFault {
    ghost from_gives = { λ _ fault. fault ≡ Memory };

    fn from(_refusal: mrp_qty::Memory) -> TextFault {
        TextFault::Memory
    }
}

impl From<TableFault> for TextFault {
    ghost use Rattle.mrp_api.specs.declared.fault.TextFault.{TextFault};

    ghost from_gives = { λ table fault. fault ≡ TextFault.Table table };

    fn from(fault: TableFault) -> TextFault {
        TextFault::Table(fault)
    }
}

impl From<ReportFault> for TextFault {
    ghost from_gives = { IsOfReport };

    fn from(fault: ReportFault) -> TextFault {
        match fault {
            ReportFault::WriteFault => TextFault::WriteFault,
            ReportFault::Memory => TextFault::Memory,
        }
    }
}

/// The status with which the program ends after this fault: 1 where the input is refused, 3 where
/// reading, writing, memory or threads failed.
pub fn status(fault: &TextFault) -> u8
    ensures { result ≡ status_of fault.now }
{
    match fault {
        TextFault::Table(table) => table_status(table.kind),
        TextFault::Loop(_)
        | TextFault::SupplyTooLarge(_)
        | TextFault::NeedTooLarge(_)
        | TextFault::NoPair
        | TextFault::NoPeriod
        | TextFault::NoPlant => 1,
        _ => 3,
    }
}

/// The status after a fault of the table.
fn table_status(kind: TableFaultKind) -> u8
    ensures { result ≡ table_status_of kind }
{
    match kind {
        TableFaultKind::ReadFault | TableFaultKind::Memory => 3,
        _ => 1,
    }
}
