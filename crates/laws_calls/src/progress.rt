//! Steps leave no gap and no overlap, and can be made: each call comes to something, to one thing, and a call that waited goes on.
ghost use Rattle.std.specs.Prelude.{◌+◌, ◌≡◌, ◌≢◌, ◌⊎◌, ◌≤◌, ℕ, List, [], None, length, false};
ghost use Rattle.std.specs.FinMap.{empty};
ghost use Rattle.shore_types.specs.Layout.{HasPage, HasStore};
ghost use Rattle.shore_types.specs.declared.layout.Geometry.{Geometry};
ghost use Rattle.shore_types.specs.declared.locking.Granule.{Granule};
ghost use Rattle.shore_model.specs.declared.calls.Call.{Call};
ghost use Rattle.shore_model.specs.declared.histories.Entry.{Entry};
ghost use Rattle.shore_model.specs.declared.histories.Opening.{Opening};
ghost use Rattle.shore_model.specs.declared.log_records.LogRecord.{LogRecord};
ghost use Rattle.laws_lives.specs.Views.{IsAmong};
ghost use Rattle.shore_model.specs.declared.step.Step.{Step};
ghost use Rattle.shore_model.specs.declared.step.Step.TheVariants.{Refused};
ghost use Rattle.shore_model.specs.declared.step.Wait.TheVariants.{Lock};
ghost use Rattle.laws_calls.specs.CallHistories.{IsOpened, IsRoomyState};
ghost use Rattle.laws_calls.specs.Events.{IsStateAfter, ManagerEvent, EventsMove, MovesMaking};
ghost use Rattle.laws_calls.specs.StateChanges.{ComesOfState, wait_refused};
ghost use Rattle.laws_calls.specs.CallSteps.{CallStep, ResumeStep, MayAsk};
ghost use Rattle.laws_calls.specs.States.{State, Waiting};
ghost use Rattle.laws_calls.specs.WorkedRun.{first_page, opened_empty};
ghost use Rattle.shore_types.specs.declared.faults.Fault.TheVariants.{Memory};
ghost use Rattle.shore_locks.specs.Tables.{is_waiting};
ghost use Rattle.laws_calls.specs.WorkedSessions.{told_to_two, two_sessions};
ghost use Rattle.laws_calls.specs.Shapes.{ForItsTxn, LockWaitsMayAsk, rollback_of};
ghost use Rattle.laws_calls.specs.Victims.{TellsVictim};
ghost use Rattle.laws_lives.specs.Soundness.{opening_with};
ghost use Rattle.shore_types.specs.Versions.{record_limit, slot_limit};

/// The refusals and their order leave no gap: each call comes to an answer, a wait, or a refusal that comes of the state alone.
pub fn calls_come_to_something()
    ensures { (g : Geometry) (o : Opening) (found : List LogRecord) (es : List Entry) (s : State) (session : ℕ) (c : Call) →
        IsStateAfter o found es s → IsRoomyState g.version s → (step : Step) × (new : State) × CallStep g s session c step new × ComesOfState step }
{}

/// So does each resume, of a prepare, of a resolve, of a call that waits for a lock, or of a victim's.
pub fn resumes_come_to_something()
    ensures { (g : Geometry) (o : Opening) (found : List LogRecord) (es : List Entry) (s : State) (session : ℕ) → IsStateAfter o found es s → IsRoomyState g.version s
        → (step : Step) × (new : State) × (ResumeStep g s session step new ⊎ TellsVictim s session step new) × ComesOfState step }
{}

/// A call that waited for a lock, and waits no more, goes on as if it were made now.
pub fn resumed_calls_go_on_as_calls()
    ensures { (g : Geometry) (o : Opening) (found : List LogRecord) (es : List Entry) (s new : State) (session : ℕ) (w : Waiting) (at : Granule) (step : Step) →
        IsStateAfter o found es s →
        IsAmong w s.waiting → w.session ≡ session → w.wait ≡ Lock at → MayAsk g w.call → s.failed ≡ false →
        ForItsTxn s session (λ a. is_waiting a.txn s.locks.requests ≡ false) → ResumeStep g s session step new →
        CallStep g (wait_refused s session) session w.call step new }
{}

/// A call that waits for a lock was not to be refused before it asked: so it is after an open, and after any events.
pub fn calls_that_wait_may_ask()
    ensures open { (g : Geometry) (o : Opening) (found : List LogRecord) (s : State) → IsOpened o found s → LockWaitsMayAsk g s }
    ensures events { (g : Geometry) (s last : State) (events : List ManagerEvent) → EventsMove g s events last → LockWaitsMayAsk g s →
        LockWaitsMayAsk g last }
{}

/// The conditions of steps can be met: over an empty volume, one session inserts a record, another waits for its lock, and has the bytes once the first
/// has committed, before that is durable.
pub fn two_sessions_come_through()
    ensures { (g : Geometry) (stream_bytes : ℕ) (bytes : List ℕ) → HasStore g 0 → HasPage g first_page → length bytes ≤ record_limit g.version → 96000 + record_limit g.version ≤ stream_bytes →
        (last : State) × (made : List Entry) × IsOpened (opening_with (slot_limit g.version) empty) [] (opened_empty (slot_limit g.version) stream_bytes)
        × MovesMaking g (opened_empty (slot_limit g.version) stream_bytes) (two_sessions bytes) last made × (made ≡ told_to_two bytes) }
{}

/// A state decides what a call and a resume come to, as far as it comes of the state alone, and what each step leaves but for a lack of memory and a rollback
/// that is interrupted. So no refusal can come before its turn. After a lack of memory the locks that were taken till then stay, and after an interrupted
/// rollback what was put back till then.
pub fn calls_come_to_one_thing()
    ensures call_step { (g : Geometry) (o : Opening) (found : List LogRecord) (es : List Entry) (s new later : State) (session : ℕ) (c : Call) (step other : Step) →
        IsStateAfter o found es s →
        CallStep g s session c step new → CallStep g s session c other later → ComesOfState step → ComesOfState other → step ≡ other }
    ensures call_state { (g : Geometry) (o : Opening) (found : List LogRecord) (es : List Entry) (s new later : State) (session : ℕ) (c : Call) (step : Step) →
        IsStateAfter o found es s →
        step ≢ Refused Memory → ComesOfState step ⊎ (rollback_of c ≡ None) →
        CallStep g s session c step new → CallStep g s session c step later → new ≡ later }
    ensures resume_step { (g : Geometry) (o : Opening) (found : List LogRecord) (es : List Entry) (s new later : State) (session : ℕ) (step other : Step) →
        IsStateAfter o found es s →
        ResumeStep g s session step new → ResumeStep g s session other later → ComesOfState step → ComesOfState other → step ≡ other }
    ensures resume_state { (g : Geometry) (o : Opening) (found : List LogRecord) (es : List Entry) (s new later : State) (session : ℕ) (step : Step) → IsStateAfter o found es s →
        step ≢ Refused Memory → ResumeStep g s session step new → ResumeStep g s session step later → new ≡ later }
{}
