//! Waits of calls and resumes as a whole: each is for what it says.
ghost use Rattle.std.specs.Prelude.{◌≡◌, ◌<◌, ℕ, List, length, ◌≤◌};
ghost use Rattle.shore_types.specs.declared.layout.Geometry.{Geometry};
ghost use Rattle.shore_types.specs.declared.locking.Granule.{Granule};
ghost use Rattle.shore_model.specs.declared.calls.Call.{Call};
ghost use Rattle.shore_model.specs.declared.histories.Entry.{Entry};
ghost use Rattle.shore_model.specs.declared.histories.Opening.{Opening};
ghost use Rattle.shore_model.specs.declared.log_records.LogRecord.{LogRecord};
ghost use Rattle.shore_model.specs.declared.step.Step.{Step};
ghost use Rattle.shore_model.specs.declared.step.Step.TheVariants.{Waits};
ghost use Rattle.shore_model.specs.declared.step.Wait.TheVariants.{Durable, Lock};
ghost use Rattle.laws_lives.specs.Views.{IsAmong};
ghost use Rattle.laws_calls.specs.CallHistories.{IsOpened};
ghost use Rattle.laws_calls.specs.Events.{EventsMove, IsStateAfter, ManagerEvent};
ghost use Rattle.laws_calls.specs.Midway.{HasItsWait};
ghost use Rattle.laws_calls.specs.SessionWaits.{AllWaitThere, IsDecisionWait};
ghost use Rattle.laws_calls.specs.Settling.{SettledCall, SettledResume};
ghost use Rattle.laws_calls.specs.Shapes.{WaitsForItsRecord};
ghost use Rattle.laws_calls.specs.States.{State, Waiting};

/// A request with which a transaction waits is its session's call's, at the granule for which that waits: so it is after an open, and after any events.
pub fn requests_wait_where_calls_say()
    ensures call { (g : Geometry) (o : Opening) (found : List LogRecord) (es : List Entry) (s new : State) (session : ℕ) (c : Call) (step : Step) → IsStateAfter o found es s →
        AllWaitThere s → SettledCall g s session c step new → AllWaitThere new }
    ensures resume { (g : Geometry) (o : Opening) (found : List LogRecord) (es : List Entry) (s new : State) (session : ℕ) (step : Step) → IsStateAfter o found es s →
        AllWaitThere s → SettledResume g s session step new → AllWaitThere new }
    ensures events { (g : Geometry) (o : Opening) (found : List LogRecord) (es : List Entry) (s last : State) (events : List ManagerEvent) → IsStateAfter o found es s → AllWaitThere s →
        EventsMove g s events last → AllWaitThere last }
    ensures open { (o : Opening) (found : List LogRecord) (s : State) → IsOpened o found s → AllWaitThere s }
{}

/// Whose call or resume is answered that it waits for a lock has a request that waits at that very granule, above the path's end or at it.
pub fn waits_for_locks_are_true()
    ensures call { (g : Geometry) (o : Opening) (found : List LogRecord) (es : List Entry) (s new : State) (session : ℕ) (c : Call) (at : Granule) → IsStateAfter o found es s →
        AllWaitThere s → SettledCall g s session c (Waits (Lock at)) new → HasItsWait new session at }
    ensures resume { (g : Geometry) (o : Opening) (found : List LogRecord) (es : List Entry) (s new : State) (session : ℕ) (at : Granule) → IsStateAfter o found es s →
        AllWaitThere s → SettledResume g s session (Waits (Lock at)) new → HasItsWait new session at }
{}

/// Only a prepare and a resolve wait for a record: for that of their decision, which the log has, and which is not durable then. As it is resumed it
/// waits on for that record as long as that is not durable, and nothing changes.
pub fn waits_for_records_are_true()
    ensures call { (g : Geometry) (o : Opening) (found : List LogRecord) (es : List Entry) (s new : State) (session n : ℕ) (c : Call) → IsStateAfter o found es s →
        SettledCall g s session c (Waits (Durable n)) new →
        WaitsForItsRecord s session c n new × (new.durable < n) × (n ≤ length new.log) }
    ensures resume { (g : Geometry) (o : Opening) (found : List LogRecord) (es : List Entry) (s new : State) (session n : ℕ) → IsStateAfter o found es s →
        SettledResume g s session (Waits (Durable n)) new →
        (w : Waiting) × IsAmong w s.waiting × (w.session ≡ session) × (w.wait ≡ Durable n) × IsDecisionWait (length found) s w × (s.durable < n) × (new ≡ s) }
{}
