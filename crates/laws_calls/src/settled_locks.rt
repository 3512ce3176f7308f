//! Locks of calls and resumes as a whole: they change only as calls ask.
ghost use Rattle.std.specs.Prelude.{◌≡◌, ◌⊎◌, ℕ, List, []};
ghost use Rattle.shore_types.specs.declared.layout.Geometry.{Geometry};
ghost use Rattle.shore_model.specs.declared.calls.Call.{Call};
ghost use Rattle.shore_model.specs.declared.histories.Entry.{Entry};
ghost use Rattle.shore_model.specs.declared.histories.Opening.{Opening};
ghost use Rattle.shore_model.specs.declared.log_records.LogRecord.{LogRecord};
ghost use Rattle.shore_model.specs.declared.step.Step.{Step};
ghost use Rattle.shore_locks.specs.Grants.{released};
ghost use Rattle.laws_lives.specs.Sessions.{SessionTxn};
ghost use Rattle.laws_lives.specs.Views.{IsAmong};
ghost use Rattle.laws_calls.specs.Events.{IsStateAfter};
ghost use Rattle.laws_calls.specs.LockChanges.{ChangesLocks};
ghost use Rattle.laws_calls.specs.Midway.{Interlude, Intervene, IsMidway, cycles_among};
ghost use Rattle.laws_calls.specs.SessionWaits.{AllWaitThere};
ghost use Rattle.laws_calls.specs.Settling.{SettledCall, SettledResume};
ghost use Rattle.laws_calls.specs.States.{IsOfSession, State, Waiting};
ghost use Rattle.laws_calls.specs.Shapes.{EndsAtOnce, ResolvesTxn, IsNoRefusal};

/// By a call as a whole the requests stay; or a commit or an abort is answered, and all of its transaction's go; or they change as the call asks, whatever victims were taken
/// on the way: its own grow along the path to its lock alone, those of others are only granted, but those of victims, which wait no more, and nobody's become
/// weaker. So it is by a resume, for the call that waited.
pub fn settled_locks_change_as_asked()
    ensures call { (g : Geometry) (o : Opening) (found : List LogRecord) (es : List Entry) (s new : State) (session : ℕ) (c : Call) (step : Step) → IsStateAfter o found es s →
        SettledCall g s session c step new →
        (new.locks.requests ≡ s.locks.requests)
        ⊎ (((EndsAtOnce s c step × ((a : SessionTxn) × IsOfSession s session a × (new.locks.requests ≡ released a.txn s.locks.requests)))
        ⊎ ((a : SessionTxn) × ResolvesTxn s c a × IsNoRefusal step × (new.locks.requests ≡ released a.txn s.locks.requests)))
        ⊎ ((a : SessionTxn) × IsOfSession s session a
        × ((between : List Interlude) × ((between ≡ []) ⊎ ((x : State) × IsMidway g s session c between x)) × ChangesLocks s.locks.requests a.txn c (cycles_among between) new.locks.requests))) }
    ensures resume { (g : Geometry) (o : Opening) (found : List LogRecord) (es : List Entry) (s new : State) (session : ℕ) (step : Step) → IsStateAfter o found es s →
        AllWaitThere s → SettledResume g s session step new →
        (new.locks.requests ≡ s.locks.requests)
        ⊎ ((w : Waiting) × IsAmong w s.waiting × (w.session ≡ session) × ((a : SessionTxn) × IsOfSession s session a
        × ((between : List Interlude) × ((x : State) × Intervene g session s between x) × ChangesLocks s.locks.requests a.txn w.call (cycles_among between) new.locks.requests))) }
{}
