//! Which locks calls take and keep, what others then cannot do, and when locks go.
ghost use Rattle.std.specs.Prelude.{◌≡◌, ◌≢◌, ℕ, All, List};
ghost use Rattle.std.specs.FinMap.{get};
ghost use Rattle.shore_types.specs.declared.ids.Rid.{Rid};
ghost use Rattle.shore_types.specs.declared.layout.Geometry.{Geometry};
ghost use Rattle.shore_model.specs.declared.calls.Answer.{Answer};
ghost use Rattle.shore_model.specs.declared.calls.Answer.TheVariants.{Aborted, Inserted};
ghost use Rattle.shore_model.specs.declared.calls.Call.{Call};
ghost use Rattle.shore_model.specs.declared.calls.Call.TheVariants.{Commit, Delete, Get, GetForUpdate, Insert, Scan, Update, Resolve};
ghost use Rattle.shore_model.specs.declared.histories.Entry.{Entry};
ghost use Rattle.shore_model.specs.declared.histories.Opening.{Opening};
ghost use Rattle.shore_model.specs.declared.log_records.LogRecord.{LogRecord};
ghost use Rattle.shore_model.specs.Locks.{MayRead, MayWrite};
ghost use Rattle.laws_lives.specs.Sessions.{SessionTxn};
ghost use Rattle.shore_model.specs.declared.step.Step.{Step};
ghost use Rattle.shore_model.specs.declared.step.Step.TheVariants.{Done, Refused};
ghost use Rattle.laws_calls.specs.CallSteps.{CallStep};
ghost use Rattle.laws_calls.specs.LockedStates.{IsSessionsState};
ghost use Rattle.laws_calls.specs.States.{IsOfSession, State};
ghost use Rattle.laws_lives.specs.GranuleLocks.{HasLocksFor};
ghost use Rattle.laws_lives.specs.SessionSteps.{KeepsLocks};
ghost use Rattle.laws_calls.specs.Events.{IsStateAfter};
ghost use Rattle.laws_calls.specs.Shapes.{ResolvesNone};
ghost use Rattle.shore_model.specs.declared.calls.Outcome.{Outcome};
ghost use Rattle.shore_types.specs.declared.faults.Fault.{Fault};
ghost use Rattle.laws_calls.specs.CallHistories.{txn_under};

/// An answer has the locks that it needs, and no call makes a lock of another transaction weaker, whatever it comes to, nor one of its own, unless it is a
/// commit or an abort that is answered, or a resolve of it that is not refused: so neither a refusal, nor a way back, nor an abort or a resolve that is interrupted
/// gives a lock back.
pub fn calls_take_and_keep_locks()
    ensures has { (g : Geometry) (o : Opening) (found : List LogRecord) (es : List Entry) (s new : State) (session : ℕ) (c : Call) (answer : Answer) (a : SessionTxn) →
        IsSessionsState o found es s → IsOfSession s session a → CallStep g s session c (Done answer) new → HasLocksFor new.sessions.held a.txn c answer }
    ensures keeps { (g : Geometry) (o : Opening) (found : List LogRecord) (es : List Entry) (s new : State) (session : ℕ) (c : Call) (step : Step) (u : ℕ) →
        IsSessionsState o found es s → step ≢ Done Aborted → (c ≡ Commit → (answer : Answer) → step ≢ Done answer) → ResolvesNone c → CallStep g s session c step new → KeepsLocks s.sessions.held new.sessions.held u }
    ensures refused_resolve_keeps { (g : Geometry) (s new : State) (session : ℕ) (global : List ℕ) (asked : Outcome) (f : Fault) →
        CallStep g s session (Resolve global asked) (Refused f) new → (new.locks ≡ s.locks) × (new.sessions.held ≡ s.sessions.held) }
    ensures resolve_keeps_others { (g : Geometry) (o : Opening) (found : List LogRecord) (es : List Entry) (s new : State) (session : ℕ) (global : List ℕ) (asked : Outcome) (step : Step) (u : ℕ) →
        IsStateAfter o found es s → u ≢ txn_under s.sessions global → CallStep g s session (Resolve global asked) step new → KeepsLocks s.sessions.held new.sessions.held u }
    ensures keeps_others { (g : Geometry) (o : Opening) (found : List LogRecord) (es : List Entry) (s new : State) (session : ℕ) (c : Call) (step : Step)
        (a : SessionTxn) (u : ℕ) → IsSessionsState o found es s → IsOfSession s session a → u ≢ a.txn → CallStep g s session c step new → KeepsLocks s.sessions.held new.sessions.held u }
    ensures refused_commit_keeps { (g : Geometry) (s new : State) (session : ℕ) (f : Fault) →
        CallStep g s session Commit (Refused f) new → (new.locks ≡ s.locks) × (new.sessions.held ≡ s.sessions.held) }
{}

/// No read is answered of a record that another transaction may write, and no change of one that another may read or write.
pub fn nobody_reads_what_another_may_write()
    ensures get { (g : Geometry) (o : Opening) (found : List LogRecord) (es : List Entry) (s new : State) (session : ℕ) (answer : Answer) (a : SessionTxn) (u : ℕ) (id : Rid) →
        IsSessionsState o found es s → IsOfSession s session a → u ≢ a.txn → MayWrite s.sessions.held u id →
        CallStep g s session (Get id) (Done answer) new → ⊥ }
    ensures get_for_update { (g : Geometry) (o : Opening) (found : List LogRecord) (es : List Entry) (s new : State) (session : ℕ) (answer : Answer) (a : SessionTxn) (u : ℕ) (id : Rid) →
        IsSessionsState o found es s → IsOfSession s session a → u ≢ a.txn → MayWrite s.sessions.held u id →
        CallStep g s session (GetForUpdate id) (Done answer) new → ⊥ }
    ensures scan { (g : Geometry) (o : Opening) (found : List LogRecord) (es : List Entry) (s new : State) (session : ℕ) (answer : Answer) (a : SessionTxn) (u : ℕ) (id : Rid) →
        IsSessionsState o found es s → IsOfSession s session a → u ≢ a.txn → MayWrite s.sessions.held u id →
        CallStep g s session (Scan id.page.store) (Done answer) new → ⊥ }
    ensures update { (g : Geometry) (o : Opening) (found : List LogRecord) (es : List Entry) (s new : State) (session : ℕ) (bytes : List ℕ) (answer : Answer) (a : SessionTxn) (u : ℕ) (id : Rid) →
        IsSessionsState o found es s → IsOfSession s session a → u ≢ a.txn → MayRead s.sessions.held u id →
        CallStep g s session (Update id bytes) (Done answer) new → ⊥ }
    ensures delete { (g : Geometry) (o : Opening) (found : List LogRecord) (es : List Entry) (s new : State) (session : ℕ) (answer : Answer) (a : SessionTxn) (u : ℕ) (id : Rid) →
        IsSessionsState o found es s → IsOfSession s session a → u ≢ a.txn → MayRead s.sessions.held u id →
        CallStep g s session (Delete id) (Done answer) new → ⊥ }
    ensures insert { (g : Geometry) (o : Opening) (found : List LogRecord) (es : List Entry) (s new : State) (session store : ℕ) (bytes : List ℕ) (a : SessionTxn) (u : ℕ) (id : Rid) →
        IsSessionsState o found es s → IsOfSession s session a → u ≢ a.txn → MayRead s.sessions.held u id →
        CallStep g s session (Insert store bytes) (Done (Inserted id)) new → ⊥ }
{}

/// A commit that is answered leaves none of its transaction's locks and requests, and others theirs.
pub fn answered_commits_give_locks_back()
    ensures locks { (g : Geometry) (o : Opening) (found : List LogRecord) (es : List Entry) (s new : State) (session : ℕ) (a : SessionTxn) (answer : Answer) →
        IsSessionsState o found es s → IsOfSession s session a → CallStep g s session Commit (Done answer) new → All (λ h. h.txn ≢ a.txn) new.sessions.held }
    ensures requests { (g : Geometry) (o : Opening) (found : List LogRecord) (es : List Entry) (s new : State) (session : ℕ) (a : SessionTxn) (answer : Answer) →
        IsSessionsState o found es s → IsOfSession s session a → CallStep g s session Commit (Done answer) new → All (λ r. r.txn ≢ a.txn) new.locks.requests }
    ensures others { (g : Geometry) (o : Opening) (found : List LogRecord) (es : List Entry) (s new : State) (session : ℕ) (a : SessionTxn) (answer : Answer) (u : ℕ) →
        IsSessionsState o found es s → IsOfSession s session a → CallStep g s session Commit (Done answer) new → u ≢ a.txn →
        KeepsLocks s.sessions.held new.sessions.held u }
{}
