//! The run by threads: why it ended early.

ghost use Rattle.std.specs.Prelude.{◌≡◌};

use mrp_net::PlantNo;
use mrp_qty::Memory;
use thiserror::Error;

/// Why a run has no outcome.
#[derive(Clone, Copy, Debug, PartialEq, Eq, Error)]
pub enum RunFault {
    /// A growth was refused.
    #[error("out of memory")]
    Memory,
    /// No thread could be made.
    #[error("no thread could be made")]
    ThreadRefused,
    /// The gate was shut for the plant or one of its workers.
    #[error("the gate was shut for a plant")]
    GateShut(PlantNo),
    /// A plant used all its turns and wasn't done.
    #[error("a plant used all its turns")]
    Stopped,
}

impl From<Memory> for RunFault {
    ghost use Rattle.mrp_run.specs.declared.fault.RunFault.{RunFault};

    ghost from_gives = { λ _ fault. fault ≡ RunFault.Memory };

    fn from(_refusal: Memory) -> RunFault {
        RunFault::Memory
    }
}
