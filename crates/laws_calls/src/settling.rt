//! What calls and resumes come to as a whole, with the victims that break the cycles of waits: what they keep, how waits begin and end, and that no cycle is left.
ghost use Rattle.std.specs.Prelude.{◌≡◌, ◌≤◌, ◌++◌, ◌∷◌, ℕ, List, [], None, IsTrue, ◌⊎◌};
ghost use Rattle.std.specs.FinMap.{empty};
ghost use Rattle.shore_types.specs.declared.faults.Device.{Device};
ghost use Rattle.shore_types.specs.declared.faults.Fault.{Fault};
ghost use Rattle.shore_types.specs.declared.faults.Fault.TheVariants as fault;
ghost use Rattle.shore_types.specs.declared.layout.Geometry.{Geometry};
ghost use Rattle.shore_types.specs.declared.locking.Granule.TheVariants.{Volume};
ghost use Rattle.shore_types.specs.declared.locking.Mode.TheVariants.{EX};
ghost use Rattle.shore_types.specs.Versions.{slot_limit};
ghost use Rattle.shore_model.specs.declared.calls.Answer.{Answer};
ghost use Rattle.shore_model.specs.declared.calls.Call.{Call};
ghost use Rattle.shore_model.specs.declared.histories.Entry.{Entry};
ghost use Rattle.shore_model.specs.declared.histories.Opening.{Opening};
ghost use Rattle.shore_model.specs.declared.log_records.LogRecord.{LogRecord};
ghost use Rattle.shore_model.specs.Requests.{HasNoCycle};
ghost use Rattle.laws_lives.specs.Views.{IsAmong};
ghost use Rattle.shore_model.specs.declared.step.Step.{Step};
ghost use Rattle.shore_model.specs.declared.step.Step.TheVariants.{Done, Refused, Waits};
ghost use Rattle.shore_model.specs.declared.step.Wait.{Wait};
ghost use Rattle.shore_model.specs.declared.step.Wait.TheVariants.{Durable};
ghost use Rattle.laws_calls.specs.CallHistories.{IsOpened, IsRoomyState};
ghost use Rattle.laws_calls.specs.Events.{IsStateAfter, ManagerEvent, EventsMove, MovesMaking, entries_of_resume};
ghost use Rattle.laws_calls.specs.LockedStates.{entries_of_call};
ghost use Rattle.laws_calls.specs.Settling.{SettledCall, SettledResume};
ghost use Rattle.laws_calls.specs.States.{DoesNotWait, State, Waiting, next_number};
ghost use Rattle.laws_calls.specs.WorkedDeadlock.{a_deadlock, told_in_a_deadlock};
ghost use Rattle.laws_calls.specs.WorkedRun.{opened_empty};
ghost use Rattle.laws_lives.specs.Soundness.{opening_with};
ghost use Rattle.shore_model.specs.declared.calls.Call.TheVariants.{Resolve};
ghost use Rattle.shore_model.specs.declared.calls.Outcome.TheVariants as outcome;
ghost use Rattle.laws_calls.specs.Resolves.{IsRollingBack, rollback_number};
ghost use Rattle.laws_lives.specs.Sessions.{SessionTxn};

/// What each call and each resume come to, victims or not, goes on with the history, by the entry of the call that was made or went on.
pub fn settled_calls_keep_state()
    ensures call { (g : Geometry) (o : Opening) (found : List LogRecord) (es : List Entry) (old new : State) (session : ℕ) (c : Call) (step : Step) → IsStateAfter o found es old →
        SettledCall g old session c step new → IsStateAfter o found (es ++ entries_of_call old session c step new) new }
    ensures resume { (g : Geometry) (o : Opening) (found : List LogRecord) (es : List Entry) (old new : State) (session : ℕ) (step : Step) → IsStateAfter o found es old →
        SettledResume g old session step new → IsStateAfter o found (es ++ entries_of_resume old session step) new }
{}

/// It leaves room on pages and in the log, for the rollbacks of the victims too.
pub fn settled_calls_keep_room()
    ensures call { (g : Geometry) (o : Opening) (found : List LogRecord) (es : List Entry) (old new : State) (session : ℕ) (c : Call) (step : Step) →
        IsStateAfter o found es old → IsRoomyState g.version old → SettledCall g old session c step new → IsRoomyState g.version new }
    ensures resume { (g : Geometry) (o : Opening) (found : List LogRecord) (es : List Entry) (old new : State) (session : ℕ) (step : Step) →
        IsStateAfter o found es old → IsRoomyState g.version old → SettledResume g old session step new → IsRoomyState g.version new }
{}

/// A call that comes to a wait waits, a prepare for its own record, and its transaction is no victim then. It waits no more once it is answered or
/// refused, as a victim too, unless it was refused as an earlier call of its session waits. A device that fails, and a page that is damaged, fail the state.
pub fn settled_calls_end_waits()
    ensures begin { (g : Geometry) (o : Opening) (found : List LogRecord) (es : List Entry) (s new : State) (session : ℕ) (c : Call) (wait : Wait) → IsStateAfter o found es s →
        SettledCall g s session c (Waits wait) new →
        IsAmong (record { session = session; call = c; wait = wait; cycle = None }) new.waiting }
    ensures number { (g : Geometry) (o : Opening) (found : List LogRecord) (es : List Entry) (s new : State) (session n : ℕ) (c : Call) → IsStateAfter o found es s →
        SettledCall g s session c (Waits (Durable n)) new →
        (n ≡ next_number s) ⊎ ((a : SessionTxn) × (global : List ℕ) × (c ≡ Resolve global outcome.Abort) × IsRollingBack s a global × (n ≡ rollback_number a.txn s.log)) }
    ensures still { (g : Geometry) (o : Opening) (found : List LogRecord) (es : List Entry) (s new : State) (session : ℕ) (wait : Wait) → IsStateAfter o found es s →
        SettledResume g s session (Waits wait) new → (w : Waiting) × IsAmong w new.waiting × (w.session ≡ session) × (w.wait ≡ wait) × (w.cycle ≡ None) }
    ensures answered { (g : Geometry) (o : Opening) (found : List LogRecord) (es : List Entry) (s new : State) (session : ℕ) (c : Call) (answer : Answer) →
        IsStateAfter o found es s → SettledCall g s session c (Done answer) new → DoesNotWait new session }
    ensures refused { (g : Geometry) (o : Opening) (found : List LogRecord) (es : List Entry) (s new : State) (session : ℕ) (c : Call) (f : Fault) →
        IsStateAfter o found es s → DoesNotWait s session → SettledCall g s session c (Refused f) new → DoesNotWait new session }
    ensures resumed_answered { (g : Geometry) (o : Opening) (found : List LogRecord) (es : List Entry) (s new : State) (session : ℕ) (answer : Answer) →
        IsStateAfter o found es s → SettledResume g s session (Done answer) new → DoesNotWait new session }
    ensures resumed_refused { (g : Geometry) (o : Opening) (found : List LogRecord) (es : List Entry) (s new : State) (session : ℕ) (f : Fault) →
        IsStateAfter o found es s → SettledResume g s session (Refused f) new → DoesNotWait new session }
    ensures device { (g : Geometry) (o : Opening) (found : List LogRecord) (es : List Entry) (s new : State) (session : ℕ) (c : Call) → IsStateAfter o found es s →
        SettledCall g s session c (Refused fault.Device) new → IsTrue new.failed }
    ensures damage { (g : Geometry) (o : Opening) (found : List LogRecord) (es : List Entry) (s new : State) (session : ℕ) (c : Call) (device : Device) (offset : ℕ) →
        IsStateAfter o found es s → SettledCall g s session c (Refused (fault.Damaged device offset)) new → IsTrue new.failed }
    ensures resumed_device { (g : Geometry) (o : Opening) (found : List LogRecord) (es : List Entry) (s new : State) (session : ℕ) → IsStateAfter o found es s →
        SettledResume g s session (Refused fault.Device) new → IsTrue new.failed }
    ensures resumed_damage { (g : Geometry) (o : Opening) (found : List LogRecord) (es : List Entry) (s new : State) (session : ℕ) (device : Device) (offset : ℕ) →
        IsStateAfter o found es s → SettledResume g s session (Refused (fault.Damaged device offset)) new → IsTrue new.failed }
{}

/// No cycle of waits is left, if there was none before: so none stands after any events from an open on.
pub fn settled_calls_leave_no_cycle()
    ensures call { (g : Geometry) (o : Opening) (found : List LogRecord) (es : List Entry) (old new : State) (session : ℕ) (c : Call) (step : Step) → IsStateAfter o found es old →
        HasNoCycle old.locks.requests → SettledCall g old session c step new → HasNoCycle new.locks.requests }
    ensures resume { (g : Geometry) (o : Opening) (found : List LogRecord) (es : List Entry) (old new : State) (session : ℕ) (step : Step) → IsStateAfter o found es old →
        HasNoCycle old.locks.requests → SettledResume g old session step new → HasNoCycle new.locks.requests }
    ensures events { (g : Geometry) (o : Opening) (found : List LogRecord) (first last : State) (events : List ManagerEvent) →
        IsOpened o found first → EventsMove g first events last → HasNoCycle last.locks.requests }
{}

/// The conditions of victims can be met: two sessions share the volume, and each asks for all of it. The second to ask closes a cycle, and the younger transaction
/// is its victim: its session is told so as it is resumed, and aborts, and the other one has its lock.
pub fn a_deadlock_comes_through()
    ensures { (g : Geometry) (stream_bytes : ℕ) → 100000 ≤ stream_bytes → (last : State) × (made : List Entry) × IsOpened (opening_with (slot_limit g.version) empty) [] (opened_empty (slot_limit g.version) stream_bytes)
        × MovesMaking g (opened_empty (slot_limit g.version) stream_bytes) a_deadlock last made × (made ≡ told_in_a_deadlock)
        × (last.sessions.held ≡ record { txn = 1; granule = Volume; mode = EX } ∷ []) }
{}
