//! A plant's crew: why its work ended early.

ghost use Rattle.std.specs.Prelude.{◌≡◌};

use mrp_qty::Memory;
use std::alloc::AllocError;
use thiserror::Error;

/// Why a crew gave up before all was planned.
#[derive(Clone, Copy, Debug, PartialEq, Eq, Error)]
pub enum CrewFault {
    /// A growth was refused.
    #[error("out of memory")]
    Memory,
    /// A worker's thread could not be started.
    #[error("a thread could not be started")]
    ThreadRefused,
    /// The gate answered a worker that it may not begin.
    #[error("the gate is shut")]
    GateShut,
}

impl From<Memory> for CrewFault {
    ghost use Rattle.mrp_crew.specs.declared.fault.CrewFault.{CrewFault};

    ghost from_gives = { λ _ fault. fault ≡ CrewFault.Memory };

    fn from(_refusal: Memory) -> CrewFault {
        CrewFault::Memory
    }
}

impl From<AllocError> for CrewFault {
    ghost use Rattle.mrp_crew.specs.declared.fault.CrewFault.{CrewFault};

    ghost from_gives = { λ _ fault. fault ≡ CrewFault.Memory };

    fn from(_refusal: AllocError) -> CrewFault {
        CrewFault::Memory
    }
}
