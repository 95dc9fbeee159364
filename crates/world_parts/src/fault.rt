//! Why a line is not carried out.

use std::alloc::AllocError;
use view_model::{Fault, Refusal};

/// Why a line was not carried out, or its text not written.
#[derive(Drop)]
pub enum StepFault {
    Refused(Refusal),
    NoMemory,
    /// A write failed. The line was carried out all the same.
    Sink,
    /// A fetch failed.
    Shelf,
}

impl From<AllocError> for StepFault {
    ghost use Rattle.std.specs.Prelude.{◌≡◌};
    ghost use Rattle.world_parts.specs.declared.fault.StepFault.TheVariants.{NoMemory};

    ghost from_gives = { λ _ fault. fault ≡ NoMemory };

    /// `NoMemory`.
    fn from(_error: AllocError) -> StepFault {
        StepFault::NoMemory
    }
}

impl From<Fault> for StepFault {
    ghost use Rattle.std.specs.Prelude.{◌≡◌};
    ghost use Rattle.world_parts.specs.Faults.{step_fault_of};

    ghost from_gives = { λ given fault. fault ≡ step_fault_of given };

    /// The refusal or the lack of memory, as a line has it.
    fn from(given: Fault) -> StepFault {
        match given {
            Fault::Refused(refusal) => StepFault::Refused(refusal),
            Fault::NoMemory => StepFault::NoMemory,
        }
    }
}
