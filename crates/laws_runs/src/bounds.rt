//! The laws of the room that restart needs, each stated as the contract of an empty function.
ghost use Rattle.std.specs.Prelude.{◌≡◌, ◌⊎◌, ◌≤◌, ◌<◌, ◌+◌, ◌*◌, ◌++◌, ◌∷◌, ℕ, List, [], Some, drop, length, slice_get, take};
ghost use Rattle.std.specs.FinMap.{get};
ghost use Rattle.std.specs.List.{AllByRecursion};
ghost use Rattle.shore_types.specs.Layout.{HasPage, HasStore, LocksInLimits};
ghost use Rattle.shore_types.specs.declared.ids.PageId.{PageId};
ghost use Rattle.shore_types.specs.declared.layout.Geometry.{Geometry};
ghost use Rattle.shore_types.specs.declared.layout.TheConstants.{ENDING_COST, LAST_OPENED, LAST_TXN, LONGEST_FRAME, MAX_LOG_BYTES, SLOT_ENTRY_BYTES};
ghost use Rattle.shore_model.specs.declared.histories.Entry.{Entry};
ghost use Rattle.shore_model.specs.declared.histories.Opening.{Opening};
ghost use Rattle.shore_model.specs.declared.log_records.DirtyPage.{DirtyPage};
ghost use Rattle.shore_model.specs.declared.log_records.LogRecord.{LogRecord};
ghost use Rattle.shore_model.specs.declared.log_records.LogTxn.{LogTxn};
ghost use Rattle.shore_model.specs.declared.log_records.Payload.TheVariants.{CheckpointEnd};
ghost use Rattle.shore_model.specs.Logs.{Lawful};
ghost use Rattle.shore_model.specs.Records.{AreRecords};
ghost use Rattle.shore_logrec.specs.Text.{cost_of};
ghost use Rattle.shore_page.specs.Room.{HasRoom};
ghost use Rattle.laws_lives.specs.Doubts.{IsOpeningOf, NeedMore, doubts_in};
ghost use Rattle.laws_lives.specs.Recovery.{IsRecoverable, RecoveryEvent, RecoveryState};
ghost use Rattle.laws_lives.specs.Restarts.{IsRestartOf, RestartsTo};
ghost use Rattle.laws_lives.specs.LogTells.{MatchesUndo};
ghost use Rattle.laws_lives.specs.Sessions.{EachOnce, SessionTxn, txns_of};
ghost use Rattle.laws_lives.specs.Pages.{LoggedPages};
ghost use Rattle.laws_lives.specs.Views.{IsAmong};
ghost use Rattle.laws_room.specs.Claims.{Claimed};
ghost use Rattle.laws_room.specs.LogRooms.{owed_by_all};
ghost use Rattle.laws_lives.specs.Undo.{HasNoLosers, IsLoser, IsUndoneTo, undo_record};
ghost use Rattle.shore_analysis.specs.AnchoredMeant.{AreMeantAnchored};
ghost use Rattle.shore_analysis.specs.KeptMeant.{AreMeantKept};
ghost use Rattle.shore_analysis.specs.Meant.{IsPageListed};
ghost use Rattle.shore_analysis.specs.Tables.{IsNext};
ghost use Rattle.laws_lives.specs.Stretches.{MayBeFound};
ghost use Rattle.laws_calls.specs.CallHistories.{IsRoomyState, KeepsDurable};
ghost use Rattle.laws_calls.specs.Events.{IsStateAfter, ManagerEvent, EventMoves, MovesMaking};
ghost use Rattle.laws_calls.specs.Shapes.{LockWaitsMayAsk};
ghost use Rattle.laws_calls.specs.States.{State, cost_of_log};
ghost use Rattle.laws_calls.specs.WorkedRun.{first_id, first_page, one_insert, opened_empty};
ghost use Rattle.laws_checkpoints.specs.KeptLogs.{MayBeCut};
ghost use Rattle.laws_checkpoints.specs.RecoveryNumbers.{EndsListChanges};
ghost use Rattle.laws_runs.specs.StoredRuns.{AreStoredRuns, IsOpenedOver, IsStoredRun, StoredEvent, StoredMoves, StoredRun, StoredState};
ghost use Rattle.laws_runs.specs.RoomyLogs.{AreRoomy, IsPlacedLog, IsRoomyLog, IsUndecided};
ghost use Rattle.laws_runs.specs.RoomyRuns.{AreOpenedFrom};
ghost use Rattle.laws_runs.specs.RoomyStates.{IsOpenedFrom, HasLocksInBounds, LeavesRoomyLogs};
ghost use Rattle.laws_runs.specs.SlotCounts.{EachFits, FitsBehind, slot_count, slots_left};
ghost use Rattle.laws_runs.specs.WorkedLogs.{committed, inserted, room_taken};
ghost use Rattle.shore_types.specs.declared.versions.Version.{Version};
ghost use Rattle.shore_types.specs.Versions.{page_room, record_limit, slot_limit};

/// What a format leaves, the empty log, is roomy over each stream that a log device may have.
pub fn formats_are_roomy()
    ensures { (g : Geometry) (stream_bytes : ℕ) → LONGEST_FRAME ≤ stream_bytes → stream_bytes ≤ MAX_LOG_BYTES → AreRoomy g stream_bytes 0 [] }
{}

/// What a crash leaves of a log of which the prefixes that may be left are roomy is such a log, all of it durable; and so is a log of which more is
/// durable. The whole log is roomy in any case.
pub fn prefixes_stay_roomy()
    ensures prefix { (g : Geometry) (stream_bytes least n : ℕ) (log : List LogRecord) → least ≤ n → AreRoomy g stream_bytes least log →
        AreRoomy g stream_bytes n (take n log) }
    ensures later { (g : Geometry) (stream_bytes least more : ℕ) (log : List LogRecord) → least ≤ more → AreRoomy g stream_bytes least log →
        AreRoomy g stream_bytes more log }
    ensures whole { (g : Geometry) (stream_bytes least : ℕ) (log : List LogRecord) → AreRoomy g stream_bytes least log → IsRoomyLog g stream_bytes log }
{}

/// A roomy log fits its stream, with the longest frame besides, and has numbers left.
pub fn roomy_logs_fit_their_stream()
    ensures stream { (g : Geometry) (stream_bytes : ℕ) (log : List LogRecord) → IsRoomyLog g stream_bytes log → cost_of_log log + LONGEST_FRAME ≤ stream_bytes }
    ensures number { (g : Geometry) (stream_bytes : ℕ) (log : List LogRecord) → IsRoomyLog g stream_bytes log → length log < LAST_OPENED }
{}

/// Redo of each record fits its page, on slots that take what the records before it left, and keep nothing besides.
pub fn redo_fits_pages()
    ensures { (g : Geometry) (stream_bytes least : ℕ) (log : List LogRecord) → AreRoomy g stream_bytes least log → EachFits g.version log }
{}

/// Each event of a manager leaves a log that a restart takes, whatever a crash leaves of it, if the state before did and its calls that wait may ask for
/// their locks; and so do any events. The records in place lie in the geometry then. That the state before did so is known of each open (`opens_have_room`).
pub fn events_leave_roomy_logs()
    ensures each { (g : Geometry) (stream_bytes : ℕ) (o : Opening) (found : List LogRecord) (es : List Entry) (old new : State) (e : ManagerEvent) →
        IsStateAfter o found es old → LockWaitsMayAsk g old → IsRoomyState g.version old → LeavesRoomyLogs g stream_bytes old → EventMoves g old e new → LeavesRoomyLogs g stream_bytes new }
    ensures run { (g : Geometry) (stream_bytes : ℕ) (o : Opening) (found : List LogRecord) (es : List Entry) (first last : State) (events : List ManagerEvent) (made : List Entry) →
        IsStateAfter o found es first → LockWaitsMayAsk g first → IsRoomyState g.version first → LeavesRoomyLogs g stream_bytes first → MovesMaking g first events last made →
        IsRoomyState g.version last × LeavesRoomyLogs g stream_bytes last }
    ensures crash { (g : Geometry) (stream_bytes : ℕ) (s : State) (n : ℕ) → LeavesRoomyLogs g stream_bytes s → KeepsDurable s n →
        AreRoomy g stream_bytes n (take n s.log) }
    ensures inside { (g : Geometry) (stream_bytes : ℕ) (o : Opening) (found : List LogRecord) (es : List Entry) (s : State) → IsStateAfter o found es s →
        LeavesRoomyLogs g stream_bytes s → AreRecords g s.sessions.records }
{}

/// A manager that restarts and opens over its store, from a log of which the prefixes that a crash may leave are roomy, has room in its last state,
/// and its crash leaves such a log again; so do any number of managers one after another, with power lost in restarts too. That a manager opens from
/// the log of its restart (`IsOpenedFrom`) is what its open has to promise.
pub fn managers_leave_roomy_logs()
    ensures restart { (g : Geometry) (stream_bytes : ℕ) (s ready : RecoveryState) (events : List RecoveryEvent) → AreRoomy g stream_bytes s.durable s.log →
        RestartsTo s events ready → AreRoomy g stream_bytes ready.durable ready.log }
    ensures moves { (g : Geometry) (stream_bytes : ℕ) (o : Opening) (found : List LogRecord) (es : List Entry) (m last : StoredState) (events : List StoredEvent) (made : List Entry) →
        IsStateAfter o found es m.state → LockWaitsMayAsk g m.state → IsRoomyState g.version m.state → LeavesRoomyLogs g stream_bytes m.state → StoredMoves g m events last made →
        IsRoomyState g.version last.state × LeavesRoomyLogs g stream_bytes last.state }
    ensures last { (g : Geometry) (stream_bytes : ℕ) (o : Opening) (s : RecoveryState) (r : StoredRun) → MayBeFound s → IsOpeningOf s.log o → AreRoomy g stream_bytes s.durable s.log → IsStoredRun g o s r →
        IsOpenedFrom g stream_bytes r.ready.log r.first → IsRoomyState g.version r.last.state × LeavesRoomyLogs g stream_bytes r.last.state }
    ensures runs { (g : Geometry) (stream_bytes : ℕ) (o : Opening) (s last : RecoveryState) (runs : List StoredRun) → MayBeFound s → IsOpeningOf s.log o → AreRoomy g stream_bytes s.durable s.log →
        AreStoredRuns g o s runs last → AreOpenedFrom g stream_bytes runs → AreRoomy g stream_bytes last.durable last.log }
{}

/// A record of undo keeps a log roomy, whichever loser takes its turn, and so do any turns. So a restart may lose power at any time.
pub fn undo_keeps_logs_roomy()
    ensures log { (g : Geometry) (stream_bytes t : ℕ) (log : List LogRecord) → IsRoomyLog g stream_bytes log → IsLoser log t →
        IsRoomyLog g stream_bytes (log ++ undo_record log t ∷ []) }
    ensures one { (g : Geometry) (stream_bytes least t : ℕ) (log : List LogRecord) → AreRoomy g stream_bytes least log → IsLoser log t →
        AreRoomy g stream_bytes least (log ++ undo_record log t ∷ []) }
    ensures turns { (g : Geometry) (stream_bytes least : ℕ) (log last : List LogRecord) (turns : List ℕ) → AreRoomy g stream_bytes least log →
        IsUndoneTo log turns last → AreRoomy g stream_bytes least last }
{}

/// Transactions that the log has not decided, some or all of them, in any order and with the undo lists that the log gives them, have their room: on the pages
/// of a placed log, whatever else stands there, and in the stream of a roomy one, where each in doubt has an ending more. So those in doubt get back what is
/// theirs once the losers are undone.
pub fn undecided_have_their_room()
    ensures pages { (g : Geometry) (log : List LogRecord) (k : IsPlacedLog g log) (some : List SessionTxn) → EachOnce (txns_of some) →
        ((a : SessionTxn) → IsAmong a some → IsUndecided log a.txn × MatchesUndo log a.txn a.undo.images) → Claimed g.version k.records some (slot_count log) }
    ensures stream { (g : Geometry) (stream_bytes : ℕ) (log : List LogRecord) (some : List SessionTxn) → IsRoomyLog g stream_bytes log → EachOnce (txns_of some) →
        ((a : SessionTxn) → IsAmong a some → IsUndecided log a.txn × MatchesUndo log a.txn a.undo.images) →
        cost_of_log log + (owed_by_all some + ENDING_COST * length (doubts_in log)) + LONGEST_FRAME ≤ stream_bytes }
    ensures number { (g : Geometry) (stream_bytes : ℕ) (log : List LogRecord) (some : List SessionTxn) → IsRoomyLog g stream_bytes log → EachOnce (txns_of some) →
        ((a : SessionTxn) → IsAmong a some → IsUndecided log a.txn × MatchesUndo log a.txn a.undo.images) →
        length log + (owed_by_all some + ENDING_COST * length (doubts_in log)) < LAST_OPENED }
{}

/// Locks of those in doubt have their places in the lock table, whatever prefix a crash leaves. A log is not roomy in which they need more.
pub fn doubts_have_places_for_their_locks()
    ensures left { (g : Geometry) (stream_bytes least n : ℕ) (log : List LogRecord) → least ≤ n → AreRoomy g stream_bytes least log →
        NeedMore g.max_locks (doubts_in (take n log)) → ⊥ }
    ensures crash { (g : Geometry) (stream_bytes n : ℕ) (s : State) → LeavesRoomyLogs g stream_bytes s → KeepsDurable s n →
        NeedMore g.max_locks (doubts_in (take n s.log)) → ⊥ }
{}

/// Undo of a roomy log fits: the next record of any loser fits its page, on slots that keep nothing for others, and has its room in the stream
/// and its number.
pub fn undo_fits_pages_and_log()
    ensures page { (g : Geometry) (stream_bytes t : ℕ) (log : List LogRecord) → IsRoomyLog g stream_bytes log → IsLoser log t →
        FitsBehind g.version log (undo_record log t).payload }
    ensures stream { (g : Geometry) (stream_bytes t : ℕ) (log : List LogRecord) → IsRoomyLog g stream_bytes log → IsLoser log t →
        cost_of_log log + cost_of (undo_record log t).payload + LONGEST_FRAME ≤ stream_bytes }
    ensures number { (g : Geometry) (stream_bytes t : ℕ) (log : List LogRecord) → IsRoomyLog g stream_bytes log → IsLoser log t →
        length log + 1 < LAST_OPENED }
{}

/// The state that an open makes of a roomy log has room on its pages and in its log, also for the rollback of those in doubt, and its records lie in the
/// geometry. Whatever a later crash leaves of it is roomy if no loser is left, as when the restart has come through. The open over a restart makes such a state
/// with the slots that the log gave the pages, if its next number is the one that analysis of the found log gives and its lock table is in bounds.
pub fn opens_have_room()
    ensures roomy { (g : Geometry) (stream_bytes : ℕ) (log : List LogRecord) (s : State) → IsRoomyLog g stream_bytes log → Lawful log → IsOpenedFrom g stream_bytes log s →
        IsRoomyState g.version s }
    ensures inside { (g : Geometry) (stream_bytes : ℕ) (log : List LogRecord) (s : State) → IsRoomyLog g stream_bytes log → IsOpenedFrom g stream_bytes log s →
        AreRecords g s.sessions.records }
    ensures leaves { (g : Geometry) (stream_bytes : ℕ) (log : List LogRecord) (s : State) → AreRoomy g stream_bytes s.durable log → Lawful log → HasNoLosers log →
        IsOpenedFrom g stream_bytes log s → LeavesRoomyLogs g stream_bytes s }
    ensures over { (g : Geometry) (stream_bytes : ℕ) (o : Opening) (found : List LogRecord) (ready : RecoveryState) (s : State) → IsRecoverable ready → ready.redone ≡ length ready.log →
        IsRestartOf found ready → IsOpeningOf found o → IsOpenedOver o ready s → s.stream_bytes ≡ stream_bytes → ((p : PageId) → s.counts p ≡ slot_count ready.log p) →
        IsNext found s.sessions.next_txn → HasLocksInBounds g s → o.slots ≡ slot_limit g.version → IsOpenedFrom g stream_bytes ready.log s }
{}

/// Analysis refuses no record of a lawful log that may be left, whatever of its front may be cut off, and whichever checkpoint is anchored whose begin is kept.
pub fn roomy_logs_are_meant()
    ensures whole { (g : Geometry) (stream_bytes least : ℕ) (log : List LogRecord) → AreRoomy g stream_bytes least log → Lawful log → AreMeantKept g 0 log }
    ensures kept { (g : Geometry) (stream_bytes least : ℕ) (log : List LogRecord) (volume : LoggedPages) (cut : ℕ) → AreRoomy g stream_bytes least log → Lawful log →
        MayBeCut log volume cut → AreMeantKept g cut (drop cut log) }
    ensures anchored { (g : Geometry) (stream_bytes least : ℕ) (log : List LogRecord) (volume : LoggedPages) (cut checkpoint : ℕ) → AreRoomy g stream_bytes least log → Lawful log →
        MayBeCut log volume cut → (checkpoint ≡ 0) ⊎ (cut < checkpoint) → AreMeantAnchored g cut checkpoint (drop cut log) }
{}

/// The conditions can be met: over an empty volume and an empty log, a transaction inserts a record and commits, and each prefix of the log
/// is roomy, also that which has the insert alone.
pub fn one_insert_leaves_roomy_logs()
    ensures { (g : Geometry) (stream_bytes : ℕ) (bytes : List ℕ) → HasStore g 0 → HasPage g first_page → LocksInLimits g → length bytes ≤ record_limit g.version →
        96000 + record_limit g.version ≤ stream_bytes → stream_bytes ≤ MAX_LOG_BYTES →
        (last : State) × (made : List Entry) × MovesMaking g (opened_empty (slot_limit g.version) stream_bytes) (one_insert bytes) last made
        × (get last.sessions.records first_id ≡ Some bytes) × (last.log ≡ committed bytes) × AreRoomy g stream_bytes 0 last.log }
{}

/// Logs that a restart could not undo are not roomy: one whose stream has room for its record, and none for the undo; and one that leaves a page
/// with room for what stands on it, and with none for that and what an undo brings back.
pub fn logs_without_room_are_not_roomy()
    ensures stream { (g : Geometry) (stream_bytes t : ℕ) (log : List LogRecord) → IsLoser log t →
        stream_bytes < cost_of_log log + cost_of (undo_record log t).payload + LONGEST_FRAME → IsRoomyLog g stream_bytes log → ⊥ }
    ensures inserted { (g : Geometry) (bytes : List ℕ) → IsRoomyLog g (cost_of_log (inserted bytes) + LONGEST_FRAME) (inserted bytes) → ⊥ }
    ensures standing { (v : Version) (old new other : List ℕ) → length new ≤ record_limit v → length other ≤ record_limit v →
        3 * SLOT_ENTRY_BYTES + length new + length other ≤ page_room v → HasRoom v (slots_left (room_taken old new other) first_page) }
    ensures room_taken { (g : Geometry) (stream_bytes : ℕ) (old new other : List ℕ) →
        page_room g.version < 3 * SLOT_ENTRY_BYTES + length old + length new + length other → IsRoomyLog g stream_bytes (room_taken old new other) → ⊥ }
{}

/// What an End of a roomy log lists lies in bounds, if it lists pages with records from before its begin, as each does that a manager logs: its next number is
/// one that an open may go on from, and its pages lie in the geometry.
pub fn ends_of_roomy_logs_are_in_bounds()
    ensures { (g : Geometry) (stream_bytes least : ℕ) (log : List LogRecord) (n : ℕ) (r : LogRecord) (begin next : ℕ) (txns : List LogTxn) (dirty : List DirtyPage) →
        AreRoomy g stream_bytes least log → EndsListChanges log → slice_get log n ≡ Some r → r.payload ≡ CheckpointEnd begin next txns dirty →
        (next ≤ LAST_TXN) × AllByRecursion (IsPageListed g begin) dirty }
{}
