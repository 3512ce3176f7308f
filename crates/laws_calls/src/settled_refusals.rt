//! Refusals of calls and resumes as a whole, with the victims that break cycles: each has its cause, in the state in which the call asked last.
ghost use Rattle.std.specs.Prelude.{◌≡◌, ◌≢◌, ◌⊎◌, ℕ, IsTrue, List, [], None, Some};
ghost use Rattle.shore_types.specs.declared.faults.Device.{Device};
ghost use Rattle.shore_types.specs.declared.faults.Fault.{Fault};
ghost use Rattle.shore_types.specs.declared.faults.Fault.TheVariants as fault;
ghost use Rattle.shore_types.specs.declared.layout.Geometry.{Geometry};
ghost use Rattle.shore_model.specs.declared.calls.Call.{Call};
ghost use Rattle.shore_model.specs.declared.histories.Entry.{Entry};
ghost use Rattle.shore_model.specs.declared.histories.Opening.{Opening};
ghost use Rattle.shore_model.specs.declared.log_records.LogRecord.{LogRecord};
ghost use Rattle.shore_model.specs.declared.step.Step.TheVariants.{Refused};
ghost use Rattle.laws_lives.specs.Views.{IsAmong};
ghost use Rattle.laws_calls.specs.CallSteps.{CallStep};
ghost use Rattle.laws_calls.specs.Causes.{EarnsRefusal};
ghost use Rattle.laws_calls.specs.CallHistories.{IsOpened};
ghost use Rattle.laws_calls.specs.Events.{EventsMove, IsStateAfter, ManagerEvent};
ghost use Rattle.laws_calls.specs.Midway.{AsksAgainIn, AsksIn, Interlude, Intervene, IsItsCycle, IsMidway, but_doomed, victims_among};
ghost use Rattle.laws_calls.specs.Settling.{SettledCall, SettledResume};
ghost use Rattle.laws_calls.specs.Shapes.{LockWaitsMayAsk, rollback_of};
ghost use Rattle.laws_calls.specs.States.{State, Waiting};
ghost use Rattle.laws_calls.specs.SessionWaits.{AllBeginWithTheirs, HasTheFirst};
ghost use Rattle.laws_calls.specs.StoodCycles.{StoodAmong};
ghost use Rattle.laws_calls.specs.Victims.{TellsVictim};

/// A refused call has the cause of its fault (`EarnsRefusal` has a line for each) in the state in which it asked last, and came from there to what is left: that
/// in which it was made, or the one that its victims left as it went on. So has a refused resume, for the call that waited, unless a device had failed. That its
/// transaction is a victim is told below; `Memory` has its cause outside of the state.
pub fn settled_refusals_are_earned()
    ensures call { (g : Geometry) (o : Opening) (found : List LogRecord) (es : List Entry) (s new : State) (session : ℕ) (c : Call) (f : Fault) → IsStateAfter o found es s →
        ((cycle : List ℕ) → f ≢ fault.Deadlock cycle) → f ≢ fault.Memory → SettledCall g s session c (Refused f) new →
        (last : State) × AsksIn g s session c last × CallStep g last session c (Refused f) new × EarnsRefusal g last session c f }
    ensures resume { (g : Geometry) (o : Opening) (found : List LogRecord) (es : List Entry) (s new : State) (session : ℕ) (f : Fault) → IsStateAfter o found es s → LockWaitsMayAsk g s →
        ((cycle : List ℕ) → f ≢ fault.Deadlock cycle) → f ≢ fault.Memory → SettledResume g s session (Refused f) new →
        (w : Waiting) × IsAmong w s.waiting × (w.session ≡ session) × ((IsTrue s.failed × (f ≡ fault.Failed))
        ⊎ ((last : State) × AsksAgainIn g s session last × CallStep g last session w.call (Refused f) new × EarnsRefusal g last session w.call f)) }
{}

/// A call that is refused as a victim's is told a cycle of waits that stood in the midst of that very call, from its transaction on, the greatest of it. A
/// resume is told one that stood in its midst, or that its session was to be told already.
pub fn told_cycles_stood()
    ensures call { (g : Geometry) (o : Opening) (found : List LogRecord) (es : List Entry) (s new : State) (session : ℕ) (c : Call) (cycle : List ℕ) → IsStateAfter o found es s →
        SettledCall g s session c (Refused (fault.Deadlock cycle)) new →
        (between : List Interlude) × (x : State) × IsMidway g s session c between x × IsItsCycle x session cycle
        × ((later : List Interlude) × (from : State) × Intervene g session x later from × TellsVictim from session (Refused (fault.Deadlock cycle)) new) }
    ensures resume { (g : Geometry) (o : Opening) (found : List LogRecord) (es : List Entry) (s new : State) (session : ℕ) (cycle : List ℕ) → IsStateAfter o found es s → LockWaitsMayAsk g s →
        SettledResume g s session (Refused (fault.Deadlock cycle)) new →
        ((w : Waiting) × IsAmong w s.waiting × (w.session ≡ session) × (w.cycle ≡ Some cycle))
        ⊎ ((between : List Interlude) × (x : State) × Intervene g session s between x × IsItsCycle x session cycle
        × ((later : List Interlude) × (from : State) × Intervene g session x later from × TellsVictim from session (Refused (fault.Deadlock cycle)) new)) }
{}

/// A cycle that a session is to be told, after any events from an open on, stood within one of them: it was a cycle of waits then, of which the session's
/// transaction was the greatest. So a `Deadlock` that is told later by a resume once stood.
pub fn cycles_to_be_told_stood()
    ensures { (g : Geometry) (o : Opening) (found : List LogRecord) (first last : State) (events : List ManagerEvent) (w : Waiting) (cycle : List ℕ) → IsOpened o found first →
        EventsMove g first events last → IsAmong w last.waiting → w.cycle ≡ Some cycle → StoodAmong g first events last w.session cycle }
{}

/// A cycle that a session is to be told begins with the transaction under way of the session, which is the one that was taken as its victim: no call waits behind
/// an open, and events keep that. So a `Deadlock` is told in the transaction that the cycle begins with.
pub fn cycles_begin_with_who_is_told()
    ensures open { (o : Opening) (found : List LogRecord) (s : State) → IsOpened o found s → AllBeginWithTheirs s }
    ensures events { (g : Geometry) (o : Opening) (found : List LogRecord) (es : List Entry) (s last : State) (events : List ManagerEvent) → IsStateAfter o found es s →
        AllBeginWithTheirs s → EventsMove g s events last → AllBeginWithTheirs last }
    ensures call { (g : Geometry) (o : Opening) (found : List LogRecord) (es : List Entry) (s new : State) (session : ℕ) (c : Call) (cycle : List ℕ) → IsStateAfter o found es s →
        AllBeginWithTheirs s → SettledCall g s session c (Refused (fault.Deadlock cycle)) new → HasTheFirst new session cycle }
    ensures resume { (g : Geometry) (o : Opening) (found : List LogRecord) (es : List Entry) (s new : State) (session : ℕ) (cycle : List ℕ) → IsStateAfter o found es s → LockWaitsMayAsk g s →
        AllBeginWithTheirs s → SettledResume g s session (Refused (fault.Deadlock cycle)) new → HasTheFirst new session cycle }
{}

/// A refused call, but for a rollback, and a refused resume leave the records in place, the log, the slots of the pages, what is durable and each undo list as they
/// were, but for those of the transactions that were taken as victims on the way: these are doomed. Locks may have been taken, and requests taken back. Unless a
/// device failed or a page was damaged, the manager runs on if it ran.
pub fn settled_refusals_leave_all_but_locks_and_victims()
    ensures call { (g : Geometry) (s new : State) (session : ℕ) (c : Call) (f : Fault) → rollback_of c ≡ None → SettledCall g s session c (Refused f) new →
        (between : List Interlude) × ((between ≡ []) ⊎ ((x : State) × IsMidway g s session c between x)) × (new ≡ but_doomed s (victims_among between) new) }
    ensures resume { (g : Geometry) (s new : State) (session : ℕ) (f : Fault) → SettledResume g s session (Refused f) new →
        (between : List Interlude) × ((x : State) × Intervene g session s between x) × (new ≡ but_doomed s (victims_among between) new) }
    ensures call_runs { (g : Geometry) (s new : State) (session : ℕ) (c : Call) (f : Fault) → f ≢ fault.Device → ((device : Device) (offset : ℕ) → f ≢ fault.Damaged device offset) →
        SettledCall g s session c (Refused f) new → new.failed ≡ s.failed }
    ensures resume_runs { (g : Geometry) (s new : State) (session : ℕ) (f : Fault) → f ≢ fault.Device → ((device : Device) (offset : ℕ) → f ≢ fault.Damaged device offset) →
        SettledResume g s session (Refused f) new → new.failed ≡ s.failed }
{}
