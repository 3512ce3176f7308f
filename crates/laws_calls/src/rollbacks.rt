//! Savepoints, ways back to them and aborts: that undo is never refused, and which steps of them must not come.
ghost use Rattle.std.specs.Prelude.{◌+◌, ◌≡◌, ◌≢◌, ◌⊎◌, ◌++◌, ◌<◌, ◌≤◌, ◌∷◌, ℕ, All, List, [], None, Some, length};
ghost use Rattle.std.specs.FinMap.{empty, get};
ghost use Rattle.shore_types.specs.Images.{Image};
ghost use Rattle.shore_types.specs.Layout.{HasPage, HasStore};
ghost use Rattle.shore_types.specs.declared.faults.Fault.{Fault};
ghost use Rattle.shore_types.specs.declared.faults.Fault.TheVariants.{MustAbort, NoSavepoint, TooManySavepoints};
ghost use Rattle.shore_types.specs.declared.ids.Rid.{Rid};
ghost use Rattle.shore_types.specs.declared.layout.Geometry.{Geometry};
ghost use Rattle.shore_types.specs.declared.layout.TheConstants.{MAX_SAVEPOINTS};
ghost use Rattle.shore_model.specs.declared.calls.Answer.{Answer};
ghost use Rattle.shore_model.specs.declared.calls.Answer.TheVariants.{Aborted, Saved, WentBack};
ghost use Rattle.shore_model.specs.declared.calls.Call.{Call};
ghost use Rattle.shore_model.specs.declared.calls.Call.TheVariants.{Abort, BackTo, Savepoint, Resolve};
ghost use Rattle.shore_model.specs.declared.histories.Decision.TheVariants as decision;
ghost use Rattle.shore_model.specs.declared.histories.Entry.{Entry};
ghost use Rattle.shore_model.specs.declared.histories.Opening.{Opening};
ghost use Rattle.shore_model.specs.Histories.{acknowledged};
ghost use Rattle.shore_model.specs.declared.log_records.LogRecord.{LogRecord};
ghost use Rattle.shore_model.specs.declared.log_records.Payload.TheVariants.{End};
ghost use Rattle.shore_model.specs.Logs.{previous_of};
ghost use Rattle.shore_model.specs.declared.rollbacks.Rollback.{Rollback};
ghost use Rattle.shore_model.specs.declared.rollbacks.Rollback.TheVariants.{To, Whole};
ghost use Rattle.laws_lives.specs.Logged.{and_compensations, and_record};
ghost use Rattle.laws_lives.specs.SessionSteps.{KeepsLocks};
ghost use Rattle.laws_lives.specs.Sessions.{SessionTxn};
ghost use Rattle.laws_lives.specs.UndoLists.{images_since, mark_of, rolled_back};
ghost use Rattle.laws_lives.specs.Views.{IsAmong};
ghost use Rattle.shore_model.specs.declared.step.Step.TheVariants.{Done, Refused, Waits};
ghost use Rattle.shore_model.specs.declared.step.Wait.{Wait};
ghost use Rattle.laws_calls.specs.CallHistories.{IsOpened};
ghost use Rattle.laws_calls.specs.CallSteps.{CallStep, NeedsTxn, aborted};
ghost use Rattle.laws_calls.specs.Events.{MovesMaking};
ghost use Rattle.laws_calls.specs.LockedStates.{IsSessionsState};
ghost use Rattle.laws_calls.specs.Rollbacks.{Interrupts, IsUnwound, put_back, rolled, IsInterrupted};
ghost use Rattle.laws_calls.specs.Shapes.{ForItsTxn, IsLackOfRoom, StopsAborts, rollback_of};
ghost use Rattle.laws_calls.specs.StateChanges.{after_refusal, answered};
ghost use Rattle.laws_calls.specs.States.{HasNoTxn, IsOfSession, State};
ghost use Rattle.laws_calls.specs.WorkedRollbacks.{abort_twice, back_and_commit};
ghost use Rattle.laws_calls.specs.WorkedRun.{first_id, first_page, opened_empty};
ghost use Rattle.laws_lives.specs.Soundness.{opening_with};
ghost use Rattle.shore_model.specs.declared.calls.Outcome.{Outcome};
ghost use Rattle.laws_calls.specs.Resolves.{DecidesRollback, rollback_done};
ghost use Rattle.shore_types.specs.Versions.{record_limit, slot_limit};

/// Undo is never refused: neither an abort, nor a way back, nor a resolve, either way, for lack of room on a page or in the log, or by the lock table. An abort is refused by nothing of
/// its transaction, only by what interrupts it.
pub fn undo_is_never_refused()
    ensures room { (g : Geometry) (s new : State) (session : ℕ) (c : Call) (r : Rollback) (f : Fault) →
        rollback_of c ≡ Some r → IsLackOfRoom f → CallStep g s session c (Refused f) new → ⊥ }
    ensures resolve { (g : Geometry) (s new : State) (session : ℕ) (global : List ℕ) (asked : Outcome) (f : Fault) →
        IsLackOfRoom f → CallStep g s session (Resolve global asked) (Refused f) new → ⊥ }
    ensures abort { (g : Geometry) (s new : State) (session : ℕ) (f : Fault) → CallStep g s session Abort (Refused f) new → StopsAborts f }
    ensures must_abort { (g : Geometry) (s new : State) (session : ℕ) → CallStep g s session Abort (Refused MustAbort) new → ⊥ }
    ensures no_savepoint { (g : Geometry) (s new : State) (session : ℕ) → CallStep g s session Abort (Refused NoSavepoint) new → ⊥ }
{}

/// Refusals by savepoints and by rollbacks that must not come: of a transaction with no rollback under way, of the way back that is under way, below the most
/// savepoints, or of a savepoint that is there.
pub fn refusals_of_rollbacks_have_their_causes()
    ensures must_abort_though_whole { (g : Geometry) (s new : State) (session : ℕ) (c : Call) →
        NeedsTxn c → ForItsTxn s session (λ a. a.undo.rolling ≡ None) → CallStep g s session c (Refused MustAbort) new → ⊥ }
    ensures must_abort_though_same_way { (g : Geometry) (s new : State) (session n : ℕ) →
        ForItsTxn s session (λ a. a.undo.rolling ≡ Some (To n)) → CallStep g s session (BackTo n) (Refused MustAbort) new → ⊥ }
    ensures too_many_below { (g : Geometry) (s new : State) (session : ℕ) (c : Call) →
        ForItsTxn s session (λ a. length a.undo.marks < MAX_SAVEPOINTS) → CallStep g s session c (Refused TooManySavepoints) new → ⊥ }
    ensures none_though_there { (g : Geometry) (s new : State) (session n : ℕ) →
        ForItsTxn s session (λ a. n < length a.undo.marks) → CallStep g s session (BackTo n) (Refused NoSavepoint) new → ⊥ }
{}

/// A transaction that rolls back only goes on with that: no other call of it is answered or waits, a commit neither, and no way back to another savepoint.
pub fn rollbacks_go_on_alone()
    ensures answered { (g : Geometry) (s new : State) (session : ℕ) (c : Call) (answer : Answer) → NeedsTxn c → rollback_of c ≡ None →
        ForItsTxn s session (λ a. a.undo.rolling ≢ None) → CallStep g s session c (Done answer) new → ⊥ }
    ensures waits { (g : Geometry) (s new : State) (session : ℕ) (c : Call) (wait : Wait) → NeedsTxn c →
        ForItsTxn s session (λ a. a.undo.rolling ≢ None) → CallStep g s session c (Waits wait) new → ⊥ }
    ensures other_way { (g : Geometry) (s new : State) (session n : ℕ) (r : Rollback) (answer : Answer) → r ≢ To n →
        ForItsTxn s session (λ a. a.undo.rolling ≡ Some r) → CallStep g s session (BackTo n) (Done answer) new → ⊥ }
{}

/// Answers of savepoints and rollbacks that must not come: of an abort that leaves an image in place that is to be put back, or leaves out its End, or logs one
/// with nothing logged; of a way back that forgets an image, a new record's too, or to no savepoint; of a savepoint beyond the most, or by another number.
pub fn wrong_rollbacks_do_not_come()
    ensures abort_forgets { (g : Geometry) (s new : State) (session : ℕ) (id : Rid) (answer : Answer) →
        ForItsTxn s session (λ a. get new.sessions.records id ≢ get (rolled_back s.sessions.records a.undo.images) id) →
        CallStep g s session Abort (Done answer) new → ⊥ }
    ensures abort_unended { (g : Geometry) (s new : State) (session : ℕ) (answer : Answer) → ForItsTxn s session (λ a. previous_of a.txn s.log ≢ 0) →
        ForItsTxn s session (λ a. new.log ≢ and_record a.txn (and_compensations a.txn s.log a.undo.images) End) →
        CallStep g s session Abort (Done answer) new → ⊥ }
    ensures abort_logged { (g : Geometry) (s new : State) (session : ℕ) (answer : Answer) → ForItsTxn s session (λ a. previous_of a.txn s.log ≡ 0) →
        new.log ≢ s.log → CallStep g s session Abort (Done answer) new → ⊥ }
    ensures abort_answered_other { (g : Geometry) (s new : State) (session : ℕ) (answer : Answer) →
        answer ≢ Aborted → CallStep g s session Abort (Done answer) new → ⊥ }
    ensures back_to_forgets { (g : Geometry) (s new : State) (session n : ℕ) (id : Rid) (answer : Answer) →
        ForItsTxn s session (λ a. get new.sessions.records id ≢ get (rolled_back s.sessions.records (images_since a.undo n)) id) →
        CallStep g s session (BackTo n) (Done answer) new → ⊥ }
    ensures back_to_unlogged { (g : Geometry) (s new : State) (session n : ℕ) (answer : Answer) →
        ForItsTxn s session (λ a. new.log ≢ and_compensations a.txn s.log (images_since a.undo n)) → CallStep g s session (BackTo n) (Done answer) new → ⊥ }
    ensures back_to_none { (g : Geometry) (s new : State) (session n : ℕ) (answer : Answer) →
        ForItsTxn s session (λ a. length a.undo.marks ≤ n) → CallStep g s session (BackTo n) (Done answer) new → ⊥ }
    ensures back_answered_other { (g : Geometry) (s new : State) (session n : ℕ) (answer : Answer) →
        answer ≢ WentBack → CallStep g s session (BackTo n) (Done answer) new → ⊥ }
    ensures saved_other { (g : Geometry) (s new : State) (session : ℕ) (answer : Answer) →
        ForItsTxn s session (λ a. answer ≢ Saved (length a.undo.marks)) → CallStep g s session Savepoint (Done answer) new → ⊥ }
    ensures saved_beyond { (g : Geometry) (s new : State) (session : ℕ) (answer : Answer) →
        ForItsTxn s session (λ a. MAX_SAVEPOINTS ≤ length a.undo.marks) → CallStep g s session Savepoint (Done answer) new → ⊥ }
    ensures savepoint_that_changes { (g : Geometry) (s new : State) (session : ℕ) (answer : Answer) →
        (new.sessions.records ≢ s.sessions.records) ⊎ (new.log ≢ s.log) → CallStep g s session Savepoint (Done answer) new → ⊥ }
{}

/// A rollback that is refused was refused before it began, and left all as it was; or it was interrupted, and has put back the newest of its images, or none,
/// and logged them; a resolve has logged its decision before.
pub fn interrupted_rollbacks_keep_their_steps()
    ensures call { (g : Geometry) (s new : State) (session : ℕ) (c : Call) (r : Rollback) (f : Fault) →
        NeedsTxn c → rollback_of c ≡ Some r → CallStep g s session c (Refused f) new →
        (new ≡ s) ⊎ ((a : SessionTxn) × IsOfSession s session a × ((mid : State) × IsUnwound s a r mid × Interrupts mid f × (new ≡ after_refusal f mid))) }
    ensures resolve { (g : Geometry) (s new : State) (session : ℕ) (global : List ℕ) (asked : Outcome) (f : Fault) → CallStep g s session (Resolve global asked) (Refused f) new →
        (new ≡ s) ⊎ ((b : SessionTxn) × (decided : State) × DecidesRollback s global b decided × IsInterrupted decided b Whole f new) }
{}

/// A rollback that was interrupted ends as one that was not: its abort leaves the same state, whatever was put back before, and so does its way back.
pub fn interrupted_rollbacks_end_alike()
    ensures abort { (o : Opening) (found : List LogRecord) (es : List Entry) (s : State) (a : SessionTxn) (kept undone : List (Rid × Image)) → IsSessionsState o found es s →
        IsAmong a s.sessions.active → undone ≢ [] → a.undo.images ≡ kept ++ undone →
        aborted (put_back s a kept undone Whole) (rolled a kept Whole) ≡ aborted s a }
    ensures back_to { (s : State) (a : SessionTxn) (kept undone : List (Rid × Image)) (n : ℕ) → a.undo.images ≡ kept ++ undone → n < length a.undo.marks →
        mark_of a.undo n ≤ length kept →
        answered (put_back s a kept undone (To n)) (rolled a kept (To n)) (BackTo n) WentBack s.counts ≡ answered s a (BackTo n) WentBack s.counts }
    ensures resolve { (s : State) (a : SessionTxn) (kept undone : List (Rid × Image)) → a.undo.images ≡ kept ++ undone →
        rollback_done (put_back s a kept undone Whole) (rolled a kept Whole) ≡ rollback_done s a }
{}

/// An abort that is answered leaves none of its transaction's locks and requests, and others theirs; and its session is in no transaction.
pub fn answered_aborts_give_locks_back()
    ensures locks { (g : Geometry) (o : Opening) (found : List LogRecord) (es : List Entry) (s new : State) (session : ℕ) (a : SessionTxn) (answer : Answer) →
        IsSessionsState o found es s → IsOfSession s session a → CallStep g s session Abort (Done answer) new → All (λ h. h.txn ≢ a.txn) new.sessions.held }
    ensures requests { (g : Geometry) (o : Opening) (found : List LogRecord) (es : List Entry) (s new : State) (session : ℕ) (a : SessionTxn) (answer : Answer) →
        IsSessionsState o found es s → IsOfSession s session a → CallStep g s session Abort (Done answer) new → All (λ r. r.txn ≢ a.txn) new.locks.requests }
    ensures others { (g : Geometry) (o : Opening) (found : List LogRecord) (es : List Entry) (s new : State) (session : ℕ) (a : SessionTxn) (answer : Answer) (u : ℕ) →
        IsSessionsState o found es s → IsOfSession s session a → CallStep g s session Abort (Done answer) new → u ≢ a.txn →
        KeepsLocks s.sessions.held new.sessions.held u }
    ensures ended { (g : Geometry) (o : Opening) (found : List LogRecord) (es : List Entry) (s new : State) (session : ℕ) (answer : Answer) →
        IsSessionsState o found es s → CallStep g s session Abort (Done answer) new → HasNoTxn new session }
{}

/// The conditions can be met: over an empty volume a transaction inserts a record, sets a savepoint, updates the record, goes back and commits, and the record
/// is as it was at the savepoint.
pub fn rollback_to_a_savepoint()
    ensures { (g : Geometry) (stream_bytes : ℕ) (bytes more : List ℕ) → HasStore g 0 → HasPage g first_page → length bytes ≤ record_limit g.version →
        length more ≤ record_limit g.version → 200000 ≤ stream_bytes →
        (last : State) × (made : List Entry) × IsOpened (opening_with (slot_limit g.version) empty) [] (opened_empty (slot_limit g.version) stream_bytes)
        × MovesMaking g (opened_empty (slot_limit g.version) stream_bytes) (back_and_commit bytes more) last made
        × (get last.sessions.records first_id ≡ Some bytes) × (acknowledged made ≡ decision.Commit 1 ∷ []) }
{}

/// And one whose abort lacks memory in between goes on with it, and with nothing else, and leaves nothing.
pub fn an_interrupted_abort_comes_through()
    ensures { (g : Geometry) (stream_bytes : ℕ) (bytes : List ℕ) → HasStore g 0 → HasPage g first_page → length bytes ≤ record_limit g.version →
        96000 + record_limit g.version ≤ stream_bytes →
        (last : State) × (made : List Entry) × IsOpened (opening_with (slot_limit g.version) empty) [] (opened_empty (slot_limit g.version) stream_bytes) × MovesMaking g (opened_empty (slot_limit g.version) stream_bytes) (abort_twice bytes) last made
        × (get last.sessions.records first_id ≡ None) × (last.sessions.active ≡ []) × (last.locks.requests ≡ []) × (acknowledged made ≡ []) }
{}
