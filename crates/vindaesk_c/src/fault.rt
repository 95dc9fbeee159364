//! Why there is no page.

use std::alloc::{AllocError, AllocFailed};

/// Why there is no page.
#[derive(Clone, Copy)]
pub enum Fault {
    /// There is no memory.
    NoMemory,
    /// The buffer of the files does not have its form.
    BrokenFiles,
}

impl From<AllocError> for Fault {
    ghost use Rattle.std.specs.Prelude.{◌≡◌};
    ghost use Rattle.vindaesk_c.specs.declared.fault.Fault.TheVariants.{NoMemory};

    ghost from_gives = { λ _ fault. fault ≡ NoMemory };

    /// `NoMemory`.
    fn from(_: AllocError) -> Fault {
        Fault::NoMemory
    }
}

impl<T: Drop> From<AllocFailed<T>> for Fault {
    ghost use Rattle.std.specs.Prelude.{◌≡◌};
    ghost use Rattle.vindaesk_c.specs.declared.fault.Fault.TheVariants.{NoMemory};

    ghost from_gives = { λ _ fault. fault ≡ NoMemory };

    /// `NoMemory`; what could not be stored is dropped.
    fn from(_: AllocFailed<T>) -> Fault {
        Fault::NoMemory
    }
}
