//! Rollbacks as calls as a whole: undo is never refused for want of room.
ghost use Rattle.std.specs.Prelude.{◌≡◌, ℕ, List, None, Some};
ghost use Rattle.shore_types.specs.declared.faults.Fault.{Fault};
ghost use Rattle.shore_types.specs.declared.layout.Geometry.{Geometry};
ghost use Rattle.shore_model.specs.declared.calls.Call.{Call};
ghost use Rattle.shore_model.specs.declared.calls.Call.TheVariants.{Abort};
ghost use Rattle.shore_model.specs.declared.histories.Entry.{Entry};
ghost use Rattle.shore_model.specs.declared.histories.Opening.{Opening};
ghost use Rattle.shore_model.specs.declared.log_records.LogRecord.{LogRecord};
ghost use Rattle.shore_model.specs.declared.rollbacks.Rollback.{Rollback};
ghost use Rattle.shore_model.specs.declared.step.Step.TheVariants.{Refused};
ghost use Rattle.laws_lives.specs.Views.{IsAmong};
ghost use Rattle.laws_calls.specs.Events.{IsStateAfter};
ghost use Rattle.laws_calls.specs.Settling.{SettledCall};
ghost use Rattle.laws_calls.specs.Shapes.{IsLackOfRoom, StopsAborts, rollback_of};
ghost use Rattle.laws_calls.specs.States.{State, Waiting};
ghost use Rattle.shore_types.specs.declared.locking.Granule.{Granule};
ghost use Rattle.shore_model.specs.declared.step.Wait.TheVariants.{Lock};

/// Neither an abort, nor a way back, nor a resolve to abort is refused for lack of room on a page or in the log, by the lock table, or as a victim, and an abort by
/// nothing of its transaction but what interrupts it. No rollback waits for a lock.
pub fn settled_undo_is_never_refused()
    ensures room { (g : Geometry) (s new : State) (session : ℕ) (c : Call) (r : Rollback) (f : Fault) →
        rollback_of c ≡ Some r → IsLackOfRoom f → SettledCall g s session c (Refused f) new → ⊥ }
    ensures abort { (g : Geometry) (s new : State) (session : ℕ) (f : Fault) → SettledCall g s session Abort (Refused f) new → StopsAborts f }
    ensures never_waits { (o : Opening) (found : List LogRecord) (es : List Entry) (s : State) (w : Waiting) (at : Granule) → IsStateAfter o found es s → IsAmong w s.waiting → w.wait ≡ Lock at →
        rollback_of w.call ≡ None }
{}
