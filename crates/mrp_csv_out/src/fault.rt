//! CSV output: why it was not written whole.

ghost use Rattle.mrp_csv_out.specs.declared.fault.ReportFault.TheVariants.{Memory};
ghost use Rattle.std.specs.Prelude.{◌≡◌};

use std::alloc::{AllocError, AllocFailed};
use thiserror::Error;

/// Why a report was not written whole.
#[derive(Clone, Copy, Debug, PartialEq, Eq, Error)]
pub enum ReportFault {
    /// The writer failed or took nothing. It has received a prefix of the report.
    #[error("the writer failed")]
    WriteFault,
    /// A growth was refused. The writer has received nothing of the report.
    #[error("out of memory")]
    Memory,
}

impl From<AllocError> for ReportFault {
    ghost from_gives = { λ _ fault. fault ≡ Memory };

    fn from(_refusal: AllocError) -> ReportFault {
        ReportFault::Memory
    }
}

impl<T: Drop> From<AllocFailed<T>> for ReportFault {
    ghost from_gives = { λ _ fault. fault ≡ Memory };

    fn from(_refusal: AllocFailed<T>) -> ReportFault {
        ReportFault::Memory
    }
}
