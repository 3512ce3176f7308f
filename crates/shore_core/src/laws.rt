//! What a core says of its calls that wait, over plain data. The law is stated as the contract of an empty function.
ghost use Rattle.std.specs.Prelude.{◌≡◌, ◌↔◌, ℕ, List, Some, slice_get};
ghost use Rattle.laws_calls.specs.States.{State};
ghost use Rattle.laws_lives.specs.Views.{IsAmong};
ghost use Rattle.shore_model.specs.declared.log_records.LogRecord.{LogRecord};
ghost use Rattle.shore_sessions.specs.Calls.{as_waiting};
ghost use Rattle.shore_sessions.specs.declared.waits.WaitingCall.{WaitingCall};
ghost use Rattle.shore_core.specs.declared.core_calls.Core.{Core};
ghost use Rattle.shore_core.specs.Cores.{IsBeside, waits_of};
ghost use Rattle.shore_core.specs.Waking.{IsLetThrough, MayGoOnIn};

use shore_disk::Disk;
use shore_log::Tail;

/// The calls that wait, of which the core tells who is let through, are those of its state: and just those are let through which a resume would not leave waiting as
/// they are.
pub fn who_is_let_through_may_go_on<T: Tail, V: Disk>()
    ensures { (core : Core T V T.Tail V.Disk) (before : List LogRecord) (s : State) → IsBeside before core s → (n : ℕ) (w : WaitingCall) → slice_get (waits_of core) n ≡ Some w
        → IsAmong (as_waiting w) s.waiting × (IsLetThrough core w ↔ MayGoOnIn s (as_waiting w)) }
{}
