//! The force of the records of undo.
ghost use Rattle.std.specs.Prelude.{◌≡◌, ◌⊎◌, ◌<◌, [], ℕ, List, IfErr, IfOk, IsFalse, IsTrue, None, OnOk, length};
ghost use Rattle.shore_disk.specs.Cause.{HasCause};
ghost use Rattle.shore_gate.specs.declared.anchors.Anchor.{Anchor};
ghost use Rattle.shore_disk.specs.Device.{DeviceHistory, may_leave};
ghost use Rattle.shore_types.specs.declared.faults.Fault.{Fault};
ghost use Rattle.shore_types.specs.declared.faults.Fault.TheVariants as Fault;
ghost use Rattle.shore_types.specs.declared.layout.Geometry.{Geometry};
ghost use Rattle.shore_log.specs.Settled.{cut_of_log, records_of_log, waiting};
ghost use Rattle.laws_lives.specs.Recovery.{RecoveryState};
ghost use Rattle.shore_restart.specs.declared.errors.RestartError.TheVariants as RestartError;
ghost use Rattle.shore_restart.specs.Errors.{log_answer};
ghost use Rattle.laws_images.specs.Moments.{ShowsLeft};
ghost use Rattle.shore_restart.specs.Quiet.{IsQuiet, StaysQuiet};
ghost use Rattle.shore_restart.specs.Room.{LeavesRoom};
ghost use Rattle.shore_restart.specs.Standing.{Forces, ForcesFrame, IsAtRest, SameLog, log_faults, stream_bytes_of};

use crate::errors::{RestartError, log_error};
use shore_disk::Disk;
use shore_log::LogDev;
use std::alloc::Global;

/// Forces all records that wait, frame by frame. `Memory` if an allocation failed, `Log` if the device failed (`Device`) or has no room for a frame
/// (`LogFull`, which a settled log with this room never has); the frames that were forced until then stay.
pub fn force<L: Disk>(alloc: Global, log: &mut LogDev<L>) -> Result<(), RestartError>
    requires room { LeavesRoom (cut_of_log log.old) (records_of_log log.old) (stream_bytes_of log.old) }
    ensures forces { (log_front : List ℕ) (anchor : Anchor) (s : RecoveryState) → IsAtRest log_front anchor log.old s → s.redone ≡ length s.log
        → (g : Geometry) (front : List ℕ) (h : DeviceHistory) → ((c : List ℕ) → may_leave h c → ShowsLeft g front s c)
        → Forces result g log_front front anchor h log.old log.new s }
    ensures refused { IfErr result (λ error. (error ≡ RestartError.Memory) ⊎ (error ≡ RestartError.Log Fault.Device) ⊎ (error ≡ RestartError.Log Fault.LogFull)) }
    ensures log_device { (log_front : List ℕ) → IsQuiet log_front log.old → StaysQuiet result log_front log.old log.new }
    ensures same { records_of_log log.new ≡ records_of_log log.old }
    ensures log { SameLog log.old log.new }
    ensures forced { OnOk result (log.old.staged ≡ None → (log.new.staged ≡ None) × (waiting log.new ≡ [])) }
    ensures cause { HasCause (log_answer result) (log_faults log.old) (log_faults log.new) }
{
    while force_frame(alloc, log)? {}
    Ok(())
}

// Forces one frame, and answers whether a record waited for it.
fn force_frame<L: Disk>(alloc: Global, log: &mut LogDev<L>) -> Result<bool, RestartError>
    requires room { LeavesRoom (cut_of_log log.old) (records_of_log log.old) (stream_bytes_of log.old) }
    ensures forces { (log_front : List ℕ) (anchor : Anchor) (s : RecoveryState) → IsAtRest log_front anchor log.old s
        → (g : Geometry) (front : List ℕ) (h : DeviceHistory) → ((c : List ℕ) → may_leave h c → ShowsLeft g front s c)
        → ForcesFrame result g log_front front anchor h log.old log.new s }
    ensures fewer { IfOk result (λ more. IsTrue more → length (waiting log.new) < length (waiting log.old)) }
    ensures none { IfOk result (λ more. IsFalse more → log.old.staged ≡ None → log.new ≡ log.old × (waiting log.old ≡ [])) }
    ensures refused { IfErr result (λ error. (error ≡ RestartError.Memory) ⊎ (error ≡ RestartError.Log Fault.Device) ⊎ (error ≡ RestartError.Log Fault.LogFull)) }
    ensures log_device { (log_front : List ℕ) → IsQuiet log_front log.old → StaysQuiet result log_front log.old log.new }
    ensures same { records_of_log log.new ≡ records_of_log log.old }
    ensures log { SameLog log.old log.new }
    ensures unstaged { OnOk result (log.old.staged ≡ None → log.new.staged ≡ None) }
    ensures cause { HasCause (log_answer result) (log_faults log.old) (log_faults log.new) }
{
    match log.append_frame(alloc) {
        Ok(forced) => Ok(forced.is_some()),
        Err(fault) => Err(log_error(fault)),
    }
}
