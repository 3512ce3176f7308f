//! The records of the log of an open.
ghost use Rattle.std.specs.Prelude.{◌≡◌, All, IfErr, IfOk};
ghost use Rattle.shore_logrec.specs.Text.{Fits};
ghost use Rattle.shore_log.specs.Settled.{records_of_log};
ghost use Rattle.shore_restart.specs.declared.errors.RestartError.TheVariants as RestartError;

use crate::errors::RestartError;
use shore_disk::Disk;
use shore_log::LogDev;
use shore_logrec::LogRecord;

/// All records of the log. A log device has the list of them in memory until a log buffer hands some over, which no open does before its restart has ended; one
/// that has none any more is refused by `Memory`.
pub fn found_in<L: Disk>(log: &LogDev<L>) -> Result<&[LogRecord], RestartError>
    ensures found { IfOk result (λ records. records.now ≡ records_of_log log.now) }
    ensures fit { IfOk result (λ records. All Fits records.now) }
    ensures refused { IfErr result (λ error. error ≡ RestartError.Memory) }
{
    match log.records() {
        Some(records) => Ok(records),
        None => Err(RestartError::Memory),
    }
}
