//! Waits, resumes, forces and opens that must not come, and what ends a wait and a transaction.
ghost use Rattle.std.specs.Prelude.{◌∷◌, ◌≡◌, ◌≢◌, ◌≤◌, ℕ, Bool, IsTrue, List, Some, length, ◌<◌, true, false, Ok};
ghost use Rattle.std.specs.List.{AllByRecursion};
ghost use Rattle.shore_types.specs.declared.faults.Fault.{Fault};
ghost use Rattle.shore_types.specs.declared.layout.Geometry.{Geometry};
ghost use Rattle.shore_types.specs.declared.locking.Granule.{Granule};
ghost use Rattle.shore_model.specs.declared.calls.Answer.{Answer};
ghost use Rattle.shore_model.specs.declared.calls.Call.{Call};
ghost use Rattle.shore_model.specs.declared.calls.Call.TheVariants.{Commit, Begin, Prepare, TryLock, Resolve};
ghost use Rattle.shore_model.specs.Histories.{decision_asked_by};
ghost use Rattle.shore_model.specs.declared.histories.Entry.{Entry};
ghost use Rattle.shore_model.specs.declared.histories.Opening.{Opening};
ghost use Rattle.shore_model.specs.declared.log_records.LogRecord.{LogRecord};
ghost use Rattle.laws_lives.specs.Sessions.{SessionTxn, txns_of};
ghost use Rattle.laws_lives.specs.Views.{IsAmong};
ghost use Rattle.shore_model.specs.declared.step.Step.{Step};
ghost use Rattle.shore_model.specs.declared.step.Step.TheVariants.{Done, Refused, Waits, Nothing};
ghost use Rattle.shore_model.specs.declared.step.Wait.{Wait};
ghost use Rattle.shore_model.specs.declared.step.Wait.TheVariants.{Durable, Lock};
ghost use Rattle.laws_calls.specs.CallHistories.{IsOpened};
ghost use Rattle.laws_calls.specs.Events.{EventMoves, Forced, TicketAsked};
ghost use Rattle.laws_calls.specs.CallSteps.{CallStep, NeedsTxn, ResumeStep, lock_outcome};
ghost use Rattle.laws_calls.specs.LockedStates.{IsSessionsState};
ghost use Rattle.laws_calls.specs.States.{DoesNotWait, IsOfSession, State, Waiting, next_number, HasNoTxn};
ghost use Rattle.shore_types.specs.declared.faults.Fault.TheVariants.{Failed};
ghost use Rattle.shore_types.specs.declared.locking.Mode.{Mode};
ghost use Rattle.shore_locks.specs.Tables.{is_waiting};
ghost use Rattle.shore_path.specs.declared.answers.Acquired.TheVariants as acquire;
ghost use Rattle.laws_locks.specs.CallLocks.{Asked, lock_asked_by};
ghost use Rattle.laws_calls.specs.Shapes.{ForItsTxn, WaitsOnLocks, WaitsOnRecords};
ghost use Rattle.shore_model.specs.declared.calls.Outcome.{Outcome};
ghost use Rattle.shore_model.specs.declared.calls.Outcome.TheVariants as outcome;

/// Waits that must not come: of a commit; of a prepare or a resolve for another record, or unlogged; of a call for a record that decides nothing, or for a granule at which its
/// acquire does not wait; of a try, of a begin, of a session in no transaction or that waits, and after a failure. What waits is among the calls that wait.
pub fn wrong_waits_do_not_come()
    ensures of_a_commit { (g : Geometry) (s new : State) (session : ℕ) (wait : Wait) → CallStep g s session Commit (Waits wait) new → ⊥ }
    ensures prepare_for_other_record { (g : Geometry) (s new : State) (session : ℕ) (global : List ℕ) (wait : Wait) →
        wait ≢ Durable (next_number s) → CallStep g s session (Prepare global) (Waits wait) new → ⊥ }
    ensures prepare_unlogged { (g : Geometry) (s new : State) (session : ℕ) (global : List ℕ) (wait : Wait) →
        new.log ≡ s.log → CallStep g s session (Prepare global) (Waits wait) new → ⊥ }
    ensures resolve_for_other_record { (g : Geometry) (s new : State) (session : ℕ) (global : List ℕ) (wait : Wait) →
        wait ≢ Durable (next_number s) → CallStep g s session (Resolve global outcome.Commit) (Waits wait) new → ⊥ }
    ensures resolve_unlogged { (g : Geometry) (s new : State) (session : ℕ) (global : List ℕ) (asked : Outcome) (wait : Wait) →
        new.log ≡ s.log → CallStep g s session (Resolve global asked) (Waits wait) new → ⊥ }
    ensures for_no_decision { (g : Geometry) (s new : State) (session t : ℕ) (c : Call) (n : ℕ) →
        decision_asked_by t c ≡ None → CallStep g s session c (Waits (Durable n)) new → ⊥ }
    ensures though_free { (g : Geometry) (s new : State) (session : ℕ) (c : Call) (at : Granule) →
        ForItsTxn s session (λ a. (lock : Asked) → lock_asked_by c ≡ Some lock → (lock_outcome s a c lock).answer ≢ Ok (acquire.Waiting at)) →
        CallStep g s session c (Waits (Lock at)) new → ⊥ }
    ensures of_a_try { (g : Geometry) (s new : State) (session : ℕ) (at : Granule) (mode : Mode) (wait : Wait) →
        CallStep g s session (TryLock at mode) (Waits wait) new → ⊥ }
    ensures of_a_begin { (g : Geometry) (s new : State) (session : ℕ) (wait : Wait) → CallStep g s session Begin (Waits wait) new → ⊥ }
    ensures in_no_txn { (g : Geometry) (s new : State) (session : ℕ) (c : Call) (wait : Wait) →
        NeedsTxn c → HasNoTxn s session → CallStep g s session c (Waits wait) new → ⊥ }
    ensures after_failure { (g : Geometry) (s new : State) (session : ℕ) (c : Call) (wait : Wait) →
        IsTrue s.failed → CallStep g s session c (Waits wait) new → ⊥ }
    ensures twice { (g : Geometry) (s new : State) (session : ℕ) (c : Call) (wait : Wait) (w : Waiting) →
        IsAmong w s.waiting → w.session ≡ session → CallStep g s session c (Waits wait) new → ⊥ }
    ensures there { (g : Geometry) (s new : State) (session : ℕ) (c : Call) (wait : Wait) →
        CallStep g s session c (Waits wait) new → IsAmong (record { session = session; call = c; wait = wait; cycle = None }) new.waiting }
{}

/// Resumes that must not come: to a session of which nothing waits, or after a failure; of a prepare or a resolve before its record is durable, or for another's, or
/// refused; of a call that waits for a lock, answered, refused or changed while its request waits, or not gone on with once it does not.
pub fn wrong_resumes_do_not_come()
    ensures of_none { (g : Geometry) (s new : State) (session : ℕ) (step : Step) → DoesNotWait s session → step ≢ Nothing →
        ResumeStep g s session step new → ⊥ }
    ensures after_failure { (g : Geometry) (s new : State) (session : ℕ) (step : Step) →
        IsTrue s.failed → step ≢ Nothing → step ≢ Refused Failed → ResumeStep g s session step new → ⊥ }
    ensures nothing_though_waiting { (g : Geometry) (s new : State) (session : ℕ) (w : Waiting) →
        IsAmong w s.waiting → w.session ≡ session → ResumeStep g s session Nothing new → ⊥ }
    ensures done_though_not_durable { (g : Geometry) (s new : State) (session : ℕ) (answer : Answer) →
        WaitsOnRecords s session (λ n. s.durable < n) → ResumeStep g s session (Done answer) new → ⊥ }
    ensures waits_though_durable { (g : Geometry) (s new : State) (session : ℕ) (wait : Wait) →
        WaitsOnRecords s session (λ n. n ≤ s.durable) → ResumeStep g s session (Waits wait) new → ⊥ }
    ensures decision_refused { (g : Geometry) (s new : State) (session : ℕ) (f : Fault) →
        s.failed ≡ false → WaitsOnRecords s session (λ n. Unit {0}) → ResumeStep g s session (Refused f) new → ⊥ }
    ensures waits_for_other { (g : Geometry) (s new : State) (session n : ℕ) →
        ((w : Waiting) → IsAmong w s.waiting → w.session ≡ session → w.wait ≢ Durable n) → ResumeStep g s session (Waits (Durable n)) new → ⊥ }
    ensures done_though_waiting { (g : Geometry) (s new : State) (session : ℕ) (answer : Answer) → WaitsOnLocks s session →
        ForItsTxn s session (λ a. is_waiting a.txn s.locks.requests ≡ true) → ResumeStep g s session (Done answer) new → ⊥ }
    ensures refused_though_waiting { (g : Geometry) (s new : State) (session : ℕ) (f : Fault) → s.failed ≡ false → WaitsOnLocks s session →
        ForItsTxn s session (λ a. is_waiting a.txn s.locks.requests ≡ true) → ResumeStep g s session (Refused f) new → ⊥ }
    ensures changed_though_waiting { (g : Geometry) (s new : State) (session : ℕ) (wait : Wait) → new ≢ s → WaitsOnLocks s session →
        ForItsTxn s session (λ a. is_waiting a.txn s.locks.requests ≡ true) → ResumeStep g s session (Waits wait) new → ⊥ }
    ensures waits_though_granted { (g : Geometry) (o : Opening) (found : List LogRecord) (es : List Entry) (s : State) (session : ℕ) (wait : Wait) → IsSessionsState o found es s →
        WaitsOnLocks s session → ForItsTxn s session (λ a. is_waiting a.txn s.locks.requests ≡ false) → ResumeStep g s session (Waits wait) s → ⊥ }
{}

/// A session whose call is answered or refused behind its wait waits no more.
pub fn resumed_sessions_wait_no_more()
    ensures answered { (g : Geometry) (s new : State) (session : ℕ) (answer : Answer) → ResumeStep g s session (Done answer) new → DoesNotWait new session }
    ensures refused { (g : Geometry) (s new : State) (session : ℕ) (f : Fault) → ResumeStep g s session (Refused f) new → DoesNotWait new session }
{}

/// A transaction whose commit is answered is under way no more, and its session is in none.
pub fn commits_end_transactions()
    ensures gone { (g : Geometry) (o : Opening) (found : List LogRecord) (es : List Entry) (s new : State) (session : ℕ) (a : SessionTxn) (answer : Answer) →
        IsSessionsState o found es s → IsOfSession s session a → CallStep g s session Commit (Done answer) new → IsAmong a.txn (txns_of new.sessions.active) → ⊥ }
    ensures answered { (g : Geometry) (o : Opening) (found : List LogRecord) (es : List Entry) (s new : State) (session : ℕ) (answer : Answer) →
        IsSessionsState o found es s → CallStep g s session Commit (Done answer) new → HasNoTxn new session }
{}

/// It may be asked at any time whether a ticket is durable, after a failure too: the answer is yes exactly if as many records are, and nothing changes.
pub fn tickets_can_be_asked()
    ensures always { (g : Geometry) (s : State) (ticket : ℕ) → (answer : Bool) × EventMoves g s (TicketAsked ticket answer) s }
    ensures too_early { (g : Geometry) (s new : State) (ticket : ℕ) → s.durable < ticket → EventMoves g s (TicketAsked ticket true) new → ⊥ }
    ensures denied { (g : Geometry) (s new : State) (ticket : ℕ) → ticket ≤ s.durable → EventMoves g s (TicketAsked ticket false) new → ⊥ }
    ensures changes_nothing { (g : Geometry) (s new : State) (ticket : ℕ) (answer : Bool) → EventMoves g s (TicketAsked ticket answer) new → new ≡ s }
{}

/// Forces that must not come: back, or beyond the log. And opens: that leave something undurable, or a number that is taken or too high.
pub fn wrong_forces_and_opens_do_not_come()
    ensures back { (g : Geometry) (s new : State) (n : ℕ) → n < s.durable → EventMoves g s (Forced n) new → ⊥ }
    ensures beyond { (g : Geometry) (s new : State) (n : ℕ) → length s.log < n → EventMoves g s (Forced n) new → ⊥ }
    ensures opened_undurable { (o : Opening) (found : List LogRecord) (s : State) → s.durable ≢ length found → IsOpened o found s → ⊥ }
    ensures opened_too_high { (o : Opening) (found : List LogRecord) (s : State) (n : ℕ) →
        0 < n → AllByRecursion (λ r. r.txn < n) found → n < s.sessions.next_txn → IsOpened o found s → ⊥ }
    ensures opened_too_low { (r : LogRecord) (o : Opening) (found : List LogRecord) (s : State) → s.sessions.next_txn ≤ r.txn → IsOpened o (r ∷ found) s → ⊥ }
{}
