//! Victims of cycles of waits: who they are, what they keep, what they are told, and what is left to them.
ghost use Rattle.std.specs.Prelude.{◌≡◌, ◌≢◌, ◌⊎◌, ◌≤◌, ℕ, All, Contains, List, Some, false};
ghost use Rattle.shore_types.specs.declared.faults.Fault.TheVariants.{Deadlock, Memory, MustAbort};
ghost use Rattle.shore_types.specs.declared.layout.Geometry.{Geometry};
ghost use Rattle.shore_model.specs.declared.calls.Call.{Call};
ghost use Rattle.shore_model.specs.declared.calls.Call.TheVariants.{Abort};
ghost use Rattle.shore_model.specs.declared.histories.Entry.{Entry};
ghost use Rattle.shore_model.specs.declared.histories.Opening.{Opening};
ghost use Rattle.shore_model.specs.declared.log_records.LogRecord.{LogRecord};
ghost use Rattle.shore_model.specs.Requests.{IsCycle};
ghost use Rattle.shore_locks.specs.Tables.{is_waiting};
ghost use Rattle.shore_cycles.specs.declared.victims.Victim.{Victim};
ghost use Rattle.shore_model.specs.declared.rollbacks.Rollback.TheVariants.{Whole};
ghost use Rattle.laws_lives.specs.SessionSteps.{KeepsLocks};
ghost use Rattle.laws_lives.specs.Sessions.{SessionTxn};
ghost use Rattle.laws_lives.specs.Views.{IsAmong};
ghost use Rattle.shore_model.specs.declared.step.Step.{Step};
ghost use Rattle.shore_model.specs.declared.step.Step.TheVariants.{Refused};
ghost use Rattle.laws_calls.specs.CallSteps.{CallStep, NeedsTxn};
ghost use Rattle.laws_calls.specs.Events.{IsStateAfter};
ghost use Rattle.laws_calls.specs.Settling.{SettledResume};
ghost use Rattle.laws_calls.specs.StateChanges.{wait_refused};
ghost use Rattle.laws_calls.specs.States.{State, Waiting};
ghost use Rattle.laws_calls.specs.Victims.{TakesVictim, TellsVictim};

/// A victim is on a cycle of waits that passes the transaction whose call is settled, with the greatest number of it: so nobody is rolled back but
/// to break a cycle.
pub fn victims_are_on_cycles()
    ensures on_a_cycle { (s new : State) (t : ℕ) (v : Victim) → TakesVictim s t v new →
        IsCycle s.locks.requests v.cycle × Contains v.cycle t × Contains v.cycle v.txn × All (λ u. u ≤ v.txn) v.cycle }
{}

/// A victim waits no more, and nobody's locks become weaker, a victim's neither: what it has changed stays in place, in the log, and in its undo list, until
/// it is aborted.
pub fn victims_keep_what_they_hold()
    ensures locks { (o : Opening) (found : List LogRecord) (es : List Entry) (s new : State) (t : ℕ) (v : Victim) (u : ℕ) →
        IsStateAfter o found es s → TakesVictim s t v new → KeepsLocks s.sessions.held new.sessions.held u }
    ensures quiet { (o : Opening) (found : List LogRecord) (es : List Entry) (s new : State) (t : ℕ) (v : Victim) →
        IsStateAfter o found es s → TakesVictim s t v new → is_waiting v.txn new.locks.requests ≡ false }
    ensures changes { (s new : State) (t : ℕ) (v : Victim) → TakesVictim s t v new → (new.sessions.records ≡ s.sessions.records) × (new.log ≡ s.log) }
    ensures images { (o : Opening) (found : List LogRecord) (es : List Entry) (s new : State) (t : ℕ) (v : Victim) (a b : SessionTxn) → IsStateAfter o found es s → TakesVictim s t v new →
        IsAmong a s.sessions.active → IsAmong b new.sessions.active → b.txn ≡ a.txn → b.undo.images ≡ a.undo.images }
{}

/// A victim has a call that waits to be told its cycle, and a resume of its session tells it, and does nothing else.
pub fn victims_are_told()
    ensures waits { (o : Opening) (found : List LogRecord) (es : List Entry) (s new : State) (t : ℕ) (v : Victim) (b : SessionTxn) → IsStateAfter o found es s → s.failed ≡ false →
        TakesVictim s t v new → IsAmong b new.sessions.active → b.txn ≡ v.txn →
        (w : Waiting) × IsAmong w new.waiting × (w.session ≡ b.session) × (w.cycle ≡ Some v.cycle) }
    ensures only { (g : Geometry) (o : Opening) (found : List LogRecord) (es : List Entry) (s new : State) (session : ℕ) (step : Step) (w : Waiting) (cycle : List ℕ) →
        IsStateAfter o found es s → s.failed ≡ false → IsAmong w s.waiting → w.session ≡ session → w.cycle ≡ Some cycle → SettledResume g s session step new →
        (step ≡ Refused (Deadlock cycle)) × (new ≡ wait_refused s session) }
{}

/// A victim can only be rolled back, and once its session is told so, each call of its transaction but an abort is refused by `MustAbort`, or lacks memory.
pub fn victims_only_abort()
    ensures doomed { (s new : State) (t : ℕ) (v : Victim) (b : SessionTxn) →
        TakesVictim s t v new → IsAmong b new.sessions.active → b.txn ≡ v.txn → b.undo.rolling ≡ Some Whole }
    ensures refused { (g : Geometry) (o : Opening) (found : List LogRecord) (es : List Entry) (s mid told new : State) (t session : ℕ) (v : Victim) (b : SessionTxn) (first step : Step)
        (c : Call) → IsStateAfter o found es s → TakesVictim s t v mid → IsAmong b mid.sessions.active → b.txn ≡ v.txn → b.session ≡ session →
        TellsVictim mid session first told → NeedsTxn c → c ≢ Abort → CallStep g told session c step new →
        ((step ≡ Refused MustAbort) ⊎ (step ≡ Refused Memory)) × (new ≡ told) }
{}
