//! Every manager's history is in order. Each law is the contract of an empty function.
ghost use Rattle.std.specs.Prelude.{◌≡◌, ℕ, List, [], ◌++◌};
ghost use Rattle.shore_types.specs.declared.layout.Geometry.{Geometry};
ghost use Rattle.shore_model.specs.declared.histories.Entry.{Entry};
ghost use Rattle.shore_model.specs.declared.histories.Opening.{Opening};
ghost use Rattle.shore_model.specs.declared.log_records.LogRecord.{LogRecord};
ghost use Rattle.shore_model.specs.Histories.{decisions, in_doubt, shown};
ghost use Rattle.shore_model.specs.Logs.{Lawful};
ghost use Rattle.laws_lives.specs.Doubts.{IsOpeningOf};
ghost use Rattle.laws_lives.specs.Pages.{LoggedPages};
ghost use Rattle.laws_lives.specs.SessionSteps.{SessionEvent, StepsTo, entries_by};
ghost use Rattle.laws_lives.specs.Sessions.{Sessions, txns_of};
ghost use Rattle.laws_lives.specs.Soundness.{IsSoundAfter, SessionsAgree, history_from};
ghost use Rattle.laws_lives.specs.Views.{IsAmong};
ghost use Rattle.laws_calls.specs.Events.{EventMoves, IsStateAfter, ManagerEvent, entries_of};
ghost use Rattle.laws_calls.specs.States.{State};
ghost use Rattle.laws_checkpoints.specs.Checkpoints.{Anchored};
ghost use Rattle.laws_runs.specs.CheckpointSteps.{CheckpointedMove, CheckpointedMoves, CheckpointedState};
ghost use Rattle.laws_runs.specs.CheckpointedStates.{IsAtCheckpoints, MayBeOpenedBehind};
ghost use Rattle.laws_runs.specs.CheckpointedStays.{AreCheckpointedStays, CheckpointedStay, spans_of_stays};
ghost use Rattle.laws_orders.specs.InTurns.{IsInOrder};
ghost use Rattle.laws_orders.specs.Lives.{AreInOrder};

/// The order of turns is a serial order of what was called and answered, at once behind an open of a lawful log and behind each event of the sessions, each event of a manager, and each of its moves with its store. Nobody who
/// takes a turn while another is in doubt may read what that one has written, whose locks stay until it is decided: so what was answered is right whether it counts or not, and the write sets lie apart.
pub fn managers_keep_the_order_of_turns()
    ensures open { (found : List LogRecord) (o : Opening) → Lawful found → IsOpeningOf found o → IsInOrder (history_from o []) }
    ensures sessions { (o : Opening) (es : List Entry) (old new : Sessions) (e : SessionEvent) → IsSoundAfter o es old → SessionsAgree o es old → StepsTo old e new →
        IsInOrder (history_from o es) → IsInOrder (history_from o (es ++ entries_by old e)) }
    ensures event { (g : Geometry) (o : Opening) (found : List LogRecord) (es : List Entry) (old new : State) (e : ManagerEvent) → IsStateAfter o found es old → EventMoves g old e new →
        IsInOrder (history_from o es) → IsInOrder (history_from o (es ++ entries_of old e new)) }
    ensures moves { (g : Geometry) (ring_bytes : ℕ) (o : Opening) (found : List LogRecord) (es : List Entry) (m last : CheckpointedState) (moves : List CheckpointedMove) (made : List Entry) →
        IsAtCheckpoints g ring_bytes o found es m → CheckpointedMoves g m moves last made → IsInOrder (history_from o es) → IsInOrder (history_from o (es ++ made)) }
{}

/// If nobody is under way but those in doubt, what is in place is what is shown: what the transactions leave that run one by one in the order of their turns (`transactions_run_one_by_one`).
pub fn records_in_place_are_left_by_turns()
    ensures { (o : Opening) (found : List LogRecord) (es : List Entry) (s : State) → IsStateAfter o found es s →
        ((t : ℕ) → IsAmong t (txns_of s.sessions.active) → (global : List ℕ) × IsAmong (t, global) (in_doubt o.in_doubt (decisions es))) →
        s.sessions.records ≡ shown (history_from o es) (decisions es) }
{}

/// The order of turns is one of each manager of any number of stays, whatever the crashes between them have kept.
pub fn stays_are_in_order()
    ensures { (g : Geometry) (ring_bytes : ℕ) (o : Opening) (a b : Anchored) (rs last : List LogRecord) (pages last_pages : LoggedPages) (stays : List CheckpointedStay) →
        MayBeOpenedBehind g ring_bytes a rs pages → IsOpeningOf rs o → AreCheckpointedStays g ring_bytes o a rs pages stays b last last_pages → AreInOrder o (spans_of_stays rs stays) }
{}
