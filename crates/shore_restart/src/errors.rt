//! Why a restart gives no core.
ghost use Rattle.std.specs.Prelude.{◌≡◌};
ghost use Rattle.shore_restart.specs.declared.errors.RestartError.TheVariants.{Memory};
ghost use Rattle.shore_restart.specs.Errors.{IsLogError, IsPageError};

use shore_types::{Fault, Lsn};
use std::alloc::{AllocError, AllocFailed};

/// Why a restart gives no core. What it has made durable until then stays, and the next restart goes on with it.
#[derive(Drop)]
pub enum RestartError {
    /// An allocation failed.
    Memory,
    /// The log's records leave no room for the longest frame beside what those in doubt have reserved, or its numbers none for a record more: those that were
    /// found, or they and the records of undo.
    NoRoom,
    /// The log does not have the checkpoint that its anchor names: the begin or the End.
    BadAnchor,
    /// The record of this number does not mean what a record has to (analysis); or it is the Prepare of one in doubt that cannot hold what is its beside those
    /// before it; or its page has no room for it, or for what its undo brings back or may bring back.
    BadRecord(Lsn),
    /// A page of the volume could not be read or written back: its device failed (`Device`), or the page is damaged (`Damaged`).
    Page(Fault),
    /// The records of undo could not be forced: the log device failed (`Device`).
    Log(Fault),
}

impl From<AllocError> for RestartError {
    ghost from_gives = { λ _ error. error ≡ Memory };

    fn from(_: AllocError) -> RestartError {
        RestartError::Memory
    }
}

impl<T: Drop> From<AllocFailed<T>> for RestartError {
    ghost from_gives = { λ _ error. error ≡ Memory };

    fn from(_: AllocFailed<T>) -> RestartError {
        RestartError::Memory
    }
}

/// The error that a fault of the volume is.
pub fn page_error(fault: Fault) -> RestartError
    ensures { IsPageError fault result }
{
    match fault {
        Fault::Memory => RestartError::Memory,
        other => RestartError::Page(other),
    }
}

/// The error that a fault of the log device is.
pub fn log_error(fault: Fault) -> RestartError
    ensures { IsLogError fault result }
{
    match fault {
        Fault::Memory => RestartError::Memory,
        other => RestartError::Log(other),
    }
}
