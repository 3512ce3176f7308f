//! Why a case is given up.
use std::alloc::{AllocError, AllocFailed};

/// What is not as it has to be.
#[derive(Clone, Copy, Debug)]
pub(super) struct Trouble(pub(super) &'static str);

const NO_MEMORY: Trouble = Trouble("memory was refused");

impl From<AllocError> for Trouble {
    fn from(_: AllocError) -> Trouble {
        NO_MEMORY
    }
}

impl<T: Drop> From<AllocFailed<T>> for Trouble {
    fn from(_: AllocFailed<T>) -> Trouble {
        NO_MEMORY
    }
}

/// What has to hold is so, or it is said what is not.
pub(super) fn require(holds: bool, otherwise: &'static str) -> Result<(), Trouble> {
    if holds {
        Ok(())
    } else {
        Err(Trouble(otherwise))
    }
}

/// Each of these has to hold; the first that does not is said.
pub(super) fn require_all(rows: &[(bool, &'static str)]) -> Result<(), Trouble> {
    for row in rows {
        let (holds, otherwise) = *row;
        require(holds, otherwise)?;
    }
    Ok(())
}
