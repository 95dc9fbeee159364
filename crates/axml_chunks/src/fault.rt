//! What is wrong with a file, and where.
ghost use Rattle.std.specs.Prelude.{◌≡◌};

use crate::cause::Cause;
use std::alloc::{AllocError, AllocFailed};

/// What is wrong with a file, and the offset from the file's start at which it is reported.
#[derive(Clone, Copy, Debug, PartialEq, Eq)]
pub struct Fault {
    pub cause: Cause,
    pub at: usize,
}

/// Why a file is not read.
#[derive(Debug, Drop)]
pub enum ReadFault {
    Bad(Fault),
    NoMemory,
}

impl From<Fault> for ReadFault {
    ghost use Rattle.axml_chunks.specs.declared.fault.ReadFault.TheVariants.{Bad};

    ghost from_gives = { λ f e. e ≡ Bad f };

    /// `Bad` with this fault.
    fn from(fault: Fault) -> ReadFault {
        ReadFault::Bad(fault)
    }
}

impl From<AllocError> for ReadFault {
    ghost use Rattle.axml_chunks.specs.declared.fault.ReadFault.TheVariants.{NoMemory};

    ghost from_gives = { λ _ e. e ≡ NoMemory };

    /// `NoMemory`.
    fn from(_error: AllocError) -> ReadFault {
        ReadFault::NoMemory
    }
}

impl<T: Drop> From<AllocFailed<T>> for ReadFault {
    ghost use Rattle.axml_chunks.specs.declared.fault.ReadFault.TheVariants.{NoMemory};

    ghost from_gives = { λ _ e. e ≡ NoMemory };

    /// `NoMemory`; what could not be stored is dropped.
    fn from(_error: AllocFailed<T>) -> ReadFault {
        ReadFault::NoMemory
    }
}
