//! The laws of managers with their stores, each stated as the contract of an empty function.
ghost use Rattle.std.specs.Prelude.{◌≡◌, ℕ, List, length};
ghost use Rattle.std.specs.FinMap.{get};
ghost use Rattle.shore_types.specs.declared.ids.Rid.{Rid};
ghost use Rattle.shore_types.specs.declared.layout.Geometry.{Geometry};
ghost use Rattle.shore_model.specs.declared.histories.Opening.{Opening};
ghost use Rattle.shore_model.specs.Lives.{IsLife};
ghost use Rattle.shore_model.specs.Logs.{Lawful};
ghost use Rattle.laws_lives.specs.Doubts.{IsOpeningOf};
ghost use Rattle.laws_lives.specs.Recovery.{IsRecoverable, RecoveryEvent, RecoveryState};
ghost use Rattle.laws_lives.specs.Stretches.{MayBeFound, opening_after};
ghost use Rattle.laws_calls.specs.Events.{IsStateAfter, ManagerEvent, EventMoves};
ghost use Rattle.laws_calls.specs.States.{State};
ghost use Rattle.laws_runs.specs.StoredRuns.{AreFixed, AreStoredRuns, IsStored, IsStoredRun, Manage, RunsShow, StoredRun, StoredState, StoredSteps, lists_found, spans_of_runs};

/// A manager that opens over a restart is in a state after its calls, as one is that opens over a log alone: its history is sound, and whatever
/// the laws of calls say holds of it. Its log is lawful, its store recoverable, and the pages have the records in place.
pub fn managers_work_over_their_stores()
    ensures state { (g : Geometry) (o : Opening) (s : RecoveryState) (r : StoredRun) → MayBeFound s → IsOpeningOf s.log o → IsStoredRun g o s r → IsStateAfter o s.log r.made r.last.state }
    ensures lawful { (g : Geometry) (o : Opening) (s : RecoveryState) (r : StoredRun) → MayBeFound s → IsOpeningOf s.log o → IsStoredRun g o s r → Lawful r.last.store.log }
    ensures recoverable { (g : Geometry) (o : Opening) (s : RecoveryState) (r : StoredRun) → MayBeFound s → IsOpeningOf s.log o → IsStoredRun g o s r → IsRecoverable r.last.store }
    ensures pages { (g : Geometry) (o : Opening) (s : RecoveryState) (r : StoredRun) (id : Rid) → MayBeFound s → IsOpeningOf s.log o → IsStoredRun g o s r →
        (r.last.store.in_place id.page).slots id.slot ≡ get r.last.state.sessions.records id }
{}

/// Any number of managers one after another, each over what the crash before it left, are a life: each history is sound, each crash keeps what
/// was acknowledged, and the kept decisions make the next opening, which each open shows. What the last crash leaves may be found again, and opens as the
/// kept decisions say. The log that a restart has found is a prefix of what every later one finds. Pages are written back whenever the write-ahead rule lets them be, with undecided changes in them, and power may be
/// lost in a restart as well.
pub fn committed_work_survives_stolen_pages()
    ensures life { (g : Geometry) (o : Opening) (s : RecoveryState) (runs : List StoredRun) (last : RecoveryState) → MayBeFound s → IsOpeningOf s.log o → AreStoredRuns g o s runs last →
        IsLife o (spans_of_runs s runs) (opening_after o (spans_of_runs s runs)) }
    ensures shown { (g : Geometry) (o : Opening) (s : RecoveryState) (runs : List StoredRun) (last : RecoveryState) → MayBeFound s → IsOpeningOf s.log o → AreStoredRuns g o s runs last →
        RunsShow o s runs }
    ensures fixed { (g : Geometry) (o : Opening) (s : RecoveryState) (runs : List StoredRun) (last : RecoveryState) → MayBeFound s → IsOpeningOf s.log o → AreStoredRuns g o s runs last →
        AreFixed (lists_found s runs) last.log }
    ensures left { (g : Geometry) (o : Opening) (s : RecoveryState) (runs : List StoredRun) (last : RecoveryState) → MayBeFound s → IsOpeningOf s.log o → AreStoredRuns g o s runs last →
        MayBeFound last × IsOpeningOf last.log (opening_after o (spans_of_runs s runs)) }
{}

/// Nothing that calls may do is lost by the join: whatever event a manager may make, some work of its store goes with it, after which each record
/// of the log is done on its page again.
pub fn events_can_be_stored()
    ensures { (g : Geometry) (m : StoredState) (e : ManagerEvent) (new : State) → IsStored m.state m.store → m.store.redone ≡ length m.store.log →
        EventMoves g m.state e new → (works : List RecoveryEvent) × (store : RecoveryState)
        × StoredSteps g m (Manage e works) (record { state = new; store = store }) × (store.redone ≡ length store.log) }
{}
