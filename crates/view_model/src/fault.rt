//! Why a call that makes or changes views does not.
ghost use Rattle.std.specs.Prelude.{◌≡◌};
ghost use Rattle.view_model.specs.declared.fault.Fault.TheVariants.{NoMemory, Refused};

use crate::refusal::Refusal;
use std::alloc::{AllocError, AllocFailed};

/// Why what a call was asked for is not done.
#[derive(Drop)]
pub enum Fault {
    Refused(Refusal),
    NoMemory,
}

impl From<Refusal> for Fault {
    ghost from_gives = { λ refusal fault. fault ≡ Refused refusal };

    /// `Refused` with this refusal.
    fn from(refusal: Refusal) -> Fault {
        Fault::Refused(refusal)
    }
}

impl From<AllocError> for Fault {
    ghost from_gives = { λ _ fault. fault ≡ NoMemory };

    /// `NoMemory`.
    fn from(_error: AllocError) -> Fault {
        Fault::NoMemory
    }
}

impl<T: Drop> From<AllocFailed<T>> for Fault {
    ghost from_gives = { λ _ fault. fault ≡ NoMemory };

    /// `NoMemory`; what could not be stored is dropped.
    fn from(_error: AllocFailed<T>) -> Fault {
        Fault::NoMemory
    }
}
