//! A failed allocation is a fault.
ghost use Rattle.std.specs.Prelude.{◌≡◌};
ghost use Rattle.shore_types.specs.declared.faults.Fault.TheVariants.{Memory};

use crate::Fault;
use std::alloc::{AllocError, AllocFailed};

impl From<AllocError> for Fault {
    ghost from_gives = { λ _ fault. fault ≡ Memory };

    fn from(_: AllocError) -> Fault {
        Fault::Memory
    }
}

impl<T: Drop> From<AllocFailed<T>> for Fault {
    ghost from_gives = { λ _ fault. fault ≡ Memory };

    fn from(_: AllocFailed<T>) -> Fault {
        Fault::Memory
    }
}
