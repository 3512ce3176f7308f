//! The laws of sessions under locks, each stated as the contract of an empty function.
ghost use Rattle.std.specs.Prelude.{◌≡◌, ◌≢◌, ◌<◌, ◌≤◌, ◌∷◌, ◌++◌, ℕ, List, [], true, All, Contains, Err, IsSome, IsTrue, None, Ok, Some, Result, length, map, take};
ghost use Rattle.std.specs.FinMap.{empty, get, insert};
ghost use Rattle.std.specs.List.{AllByRecursion};
ghost use Rattle.shore_types.specs.Images.{Image};
ghost use Rattle.shore_types.specs.declared.faults.Fault.{Fault};
ghost use Rattle.shore_types.specs.declared.faults.Fault.TheVariants.{NoRecord};
ghost use Rattle.shore_types.specs.declared.ids.Rid.{Rid};
ghost use Rattle.shore_types.specs.declared.locking.Granule.{Granule};
ghost use Rattle.shore_types.specs.declared.locking.Granule.TheVariants.{Page, Record, Store, Volume};
ghost use Rattle.shore_types.specs.declared.locking.Mode.{Mode};
ghost use Rattle.shore_model.specs.declared.calls.Answer.{Answer};
ghost use Rattle.shore_model.specs.declared.calls.Answer.TheVariants.{Inserted};
ghost use Rattle.shore_model.specs.declared.calls.Call.{Call};
ghost use Rattle.shore_model.specs.declared.calls.Call.TheVariants.{BackTo, Get, Insert, Scan};
ghost use Rattle.shore_model.specs.declared.calls.Exchange.{Exchange};
ghost use Rattle.shore_model.specs.declared.histories.Decision.{Decision};
ghost use Rattle.shore_model.specs.declared.histories.Decision.TheVariants.{Commit, Prepare};
ghost use Rattle.shore_model.specs.declared.histories.Entry.{Entry};
ghost use Rattle.laws_lives.specs.WorkedDoubts.{changed_once, doubtful_log, doubtful_open, intention, late_answer, prepared_once, resolved_after_open, resolved_first, resolved_to_abort, resolved_to_commit};
ghost use Rattle.shore_model.specs.declared.histories.Opening.{Opening};
ghost use Rattle.shore_model.specs.declared.holds.Hold.{Hold};
ghost use Rattle.shore_model.specs.declared.log_records.LogRecord.{LogRecord};
ghost use Rattle.shore_model.specs.declared.log_records.Payload.TheVariants.{Change, Compensation};
ghost use Rattle.shore_model.specs.declared.progress.Progress.{Progress};
ghost use Rattle.shore_model.specs.Alone.{after, start, writes_of};
ghost use Rattle.shore_model.specs.Histories.{IsHistory, Kept, Sound, decisions, in_doubt, shown};
ghost use Rattle.shore_model.specs.Lives.{next_opening};
ghost use Rattle.shore_model.specs.Locks.{Harmony, HoldsAtLeast, MayRead, MayWrite, WellRooted};
ghost use Rattle.shore_model.specs.Logs.{Answers, Lawful, LiesUnder, has, logged_writes, records_told, unanswered};
ghost use Rattle.shore_model.specs.Modes.{is_write};
ghost use Rattle.laws_lives.specs.Doubts.{AreRestored, DoubtsStand, IsOpeningOf, LoggedDoubt, TracksDoubts, doubts_in, node_of, pair_logged, restored_locks, undo_in};
ghost use Rattle.laws_lives.specs.WholeLogs.{IsOpenOn};
ghost use Rattle.laws_lives.specs.Writers.{changes_id};
ghost use Rattle.shore_model.specs.Records.{Records, WriteSet, overlays, put_image};
ghost use Rattle.shore_model.specs.declared.rollbacks.Rollback.{Rollback};
ghost use Rattle.shore_model.specs.declared.rollbacks.Rollback.TheVariants.{To, Whole};
ghost use Rattle.laws_lives.specs.GranuleLocks.{HasLocksFor};
ghost use Rattle.laws_lives.specs.OwnSeats.{HasOwnSeats};
ghost use Rattle.laws_lives.specs.LogPrefixes.{DecidesNothing, LogDecides, TellsItsDecisions, decisions_in};
ghost use Rattle.laws_lives.specs.LogTells.{HasLogged, IsLogAfter, MatchesUndo};
ghost use Rattle.laws_lives.specs.Logged.{and_compensations, and_record, log_after, next_to_undo};
ghost use Rattle.laws_lives.specs.RepliesInPlace.{MayReplyInPlace, Permit};
ghost use Rattle.laws_lives.specs.SessionSteps.{AnswerAbort, AppendCommit, AppendPrepare, AppendResolve, AppendRollback, BeginTxn, Doom, EndRollback, GiveReply, MoveLocks, PutBack, SessionEvent, StepsTo, entries_by, exchange};
ghost use Rattle.laws_lives.specs.Sessions.{EachOnce, PreparedTxn, SessionTxn, Sessions, in_doubt_of, in_use, resolved_of, txns_of};
ghost use Rattle.laws_lives.specs.Soundness.{IsJustOpened, IsSoundAfter, RunsTo, SessionsAgree, history_from, opening_with, serial_after, written_by};
ghost use Rattle.laws_lives.specs.UndoLists.{CanUndo, MayGiveReply, MayRoll, UndoList, images_since, in_place_after, in_place_after_answer, least_kept, mark_of, rolled_back, undo_after, undo_after_answer, undo_rolled};
ghost use Rattle.laws_lives.specs.WorkedRun.{abort_interrupted, interleaved, just_opened, read_lock, way_back_interrupted, write_lock};
ghost use Rattle.laws_lives.specs.Views.{IsAmong, Sees, Stand, StayRight};

/// New locks never harm what transactions under way see, nor does it if others lose theirs.
pub fn moved_locks_keep_views()
    ensures { (held new : List Hold) (now R : Records) (ts : List ℕ) (writes : ℕ → WriteSet) →
        Stand held now R ts writes → Harmony new
        → ((t : ℕ) (id : Rid) → IsAmong t ts → MayRead held t id → MayRead new t id)
        → ((t : ℕ) (id : Rid) → IsAmong t ts → MayWrite held t id → MayWrite new t id)
        → Stand new now R ts writes }
{}

/// A reply that its locks permit, and that is right on the records in place, leaves what every transaction sees as it must be. It stays
/// right for its own transaction, which can still be undone. A reply that completes a rollback, which has begun, does so too, whatever stands
/// in place for its transaction before it.
pub fn replies_keep_views()
    ensures { (most : ℕ) (held : List Hold) (now R : Records) (ts : List ℕ) (before later : ℕ → WriteSet) (t : ℕ) (es : List Exchange) (undo : UndoList) (c : Call) (reply : Result Answer Fault) →
        Stand held now R ts before → IsAmong t ts → (undo.rolling ≡ None → before t ≡ writes_of es) → StayRight most held t now es
        → CanUndo held now R t undo (after start es) → MayGiveReply undo c reply → MayReplyInPlace most held t R (length undo.marks) c reply
        → ((u : ℕ) → u ≢ t → later u ≡ before u) → later t ≡ writes_of (es ++ exchange c reply ∷ [])
        → Stand held now (in_place_after R undo c reply) ts later × StayRight most held t now (es ++ exchange c reply ∷ [])
        × CanUndo held now (in_place_after R undo c reply) t (undo_after R undo c reply) (after start (es ++ exchange c reply ∷ [])) }
{}

/// Each event keeps both invariants, with what it adds to the history.
pub fn session_events_keep_history_sound()
    ensures sound { (o : Opening) (es : List Entry) (old new : Sessions) (e : SessionEvent) →
        IsSoundAfter o es old → SessionsAgree o es old → StepsTo old e new → IsSoundAfter o (es ++ entries_by old e) new }
    ensures agree { (o : Opening) (es : List Entry) (old new : Sessions) (e : SessionEvent) →
        IsSoundAfter o es old → SessionsAgree o es old → StepsTo old e new → SessionsAgree o (es ++ entries_by old e) new }
{}

/// Whatever events come after an open, of however many sessions: what they make is a history, and it is sound.
pub fn sessions_make_sound_histories()
    ensures history { (o : Opening) (first last : Sessions) (events : List SessionEvent) (made : List Entry) →
        IsJustOpened o first → RunsTo first events [] last made → IsHistory (history_from o made) }
    ensures sound { (o : Opening) (first last : Sessions) (events : List SessionEvent) (made : List Entry) →
        IsJustOpened o first → RunsTo first events [] last made → Sound (history_from o made) }
    ensures last { (o : Opening) (first last : Sessions) (events : List SessionEvent) (made : List Entry) →
        IsJustOpened o first → RunsTo first events [] last made → IsSoundAfter o made last × SessionsAgree o made last }
{}

/// In place are the serial records, overlaid with what stands for each transaction under way: what it has written, if no rollback of it is
/// under way. With the log beside them, they are overlaid with the last images that each has logged, in the midst of a rollback too, and
/// each of these images is in place.
pub fn records_in_place_are_overlaid()
    ensures overlaid { (o : Opening) (es : List Entry) (s : Sessions) (k : IsSoundAfter o es s) →
        s.records ≡ overlays (serial_after o es) (map k.standing (txns_of s.active)) }
    ensures written { (o : Opening) (es : List Entry) (s : Sessions) (a : SessionTxn) (k : IsSoundAfter o es s) →
        IsAmong a s.active → a.undo.rolling ≡ None → k.standing a.txn ≡ written_by o es a.txn }
    ensures logged { (o : Opening) (es : List Entry) (s : Sessions) (log : List LogRecord) → IsSoundAfter o es s → IsLogAfter o es s log →
        s.records ≡ overlays (serial_after o es) (map (logged_writes log) (txns_of s.active)) }
    ensures last_images { (o : Opening) (es : List Entry) (s : Sessions) (log : List LogRecord) (t : ℕ) (id : Rid) (image : Image) → IsLogAfter o es s log →
        IsAmong t (txns_of s.active) → get (logged_writes log t) id ≡ Some image → get s.records id ≡ image }
{}

/// What a transaction under way has written no other may read, or write over, nor what stands for it while it rolls back, nor what it has
/// logged; and what one may read, no reply to another and no rollback of another changes in place, whole or image by image.
pub fn transactions_are_isolated()
    ensures written { (o : Opening) (es : List Entry) (s : Sessions) (t : ℕ) (a : SessionTxn) (id : Rid) → IsSoundAfter o es s →
        t ≢ a.txn → IsAmong a s.active → a.undo.rolling ≡ None → IsSome (get (written_by o es a.txn) id) → MayRead s.held t id → ⊥ }
    ensures standing { (o : Opening) (es : List Entry) (s : Sessions) (t u : ℕ) (id : Rid) (k : IsSoundAfter o es s) →
        t ≢ u → IsAmong u (txns_of s.active) → IsSome (get (k.standing u) id) → MayRead s.held t id → ⊥ }
    ensures logged { (o : Opening) (es : List Entry) (s : Sessions) (log : List LogRecord) (t u : ℕ) (id : Rid) → IsSoundAfter o es s →
        IsLogAfter o es s log → t ≢ u → IsAmong u (txns_of s.active) → IsSome (get (logged_writes log u) id) → MayRead s.held t id → ⊥ }
    ensures reply { (o : Opening) (es : List Entry) (old new : Sessions) (a : SessionTxn) (c : Call) (reply : Result Answer Fault) (t : ℕ) (id : Rid) →
        IsSoundAfter o es old → StepsTo old (GiveReply a c reply) new → t ≢ a.txn → MayRead old.held t id → get new.records id ≡ get old.records id }
    ensures rollback { (o : Opening) (es : List Entry) (old new : Sessions) (a : SessionTxn) (t : ℕ) (id : Rid) →
        IsSoundAfter o es old → StepsTo old (AnswerAbort a) new → t ≢ a.txn → MayRead old.held t id → get new.records id ≡ get old.records id }
    ensures put_back { (o : Opening) (es : List Entry) (old new : Sessions) (a : SessionTxn) (kept : List (Rid × Image)) (e : Rid × Image) (r : Rollback) (t : ℕ) (id : Rid) →
        IsSoundAfter o es old → StepsTo old (PutBack a kept e r) new → t ≢ a.txn → MayRead old.held t id → get new.records id ≡ get old.records id }
{}

/// The granules and modes that calls are answered under permit the answers.
pub fn granule_locks_permit_answers()
    ensures { (held : List Hold) (t : ℕ) (c : Call) (answer : Answer) → HasLocksFor held t c answer → Permit held t c answer }
{}

/// Each event keeps the log beside the history, rollbacks too, and those in doubt in it. It tells what the history's decisions show: the serial records,
/// overlaid with what those in doubt have written; and those have it in doubt whom the state has so.
pub fn log_tells_what_is_shown()
    ensures open { (o : Opening) (s : Sessions) (log : List LogRecord) → IsOpenOn o log s → IsJustOpened o s × IsLogAfter o [] s log × TracksDoubts log s }
    ensures each { (o : Opening) (es : List Entry) (old new : Sessions) (e : SessionEvent) (log : List LogRecord) →
        IsSoundAfter o es old → IsLogAfter o es old log → StepsTo old e new → IsLogAfter o (es ++ entries_by old e) new (log_after log old e) }
    ensures doubts { (o : Opening) (es : List Entry) (old new : Sessions) (e : SessionEvent) (log : List LogRecord) →
        IsSoundAfter o es old → SessionsAgree o es old → IsLogAfter o es old log → TracksDoubts log old → StepsTo old e new → TracksDoubts (log_after log old e) new }
    ensures tells { (base : ℕ) (o : Opening) (es : List Entry) (s : Sessions) (log : List LogRecord) → Lawful log → IsSoundAfter o es s → SessionsAgree o es s →
        IsLogAfter o es s log → TracksDoubts log s → LogDecides base o es log →
        (records_told log ≡ shown (history_from o es) (decisions es)) × (in_doubt o.in_doubt (decisions es) ≡ map pair_logged (doubts_in log)) }
{}

/// A prefix of the log, as a crash may keep it, tells what a prefix of the decisions shows: of those whose records it has; and it opens as these
/// say. It is so in the midst of an event too, while its records are appended and its entry is not made.
pub fn log_prefixes_tell_decision_prefixes()
    ensures open { (o : Opening) (log : List LogRecord) → IsOpeningOf log o → DoubtsStand log → LogDecides (length log) o [] log }
    ensures each { (base : ℕ) (o : Opening) (es : List Entry) (old new : Sessions) (e : SessionEvent) (log : List LogRecord) →
        IsSoundAfter o es old → SessionsAgree o es old → IsLogAfter o es old log → TracksDoubts log old → LogDecides base o es log → StepsTo old e new → LogDecides base o (es ++ entries_by old e) (log_after log old e) }
    ensures midst { (base : ℕ) (o : Opening) (es : List Entry) (old new : Sessions) (e : SessionEvent) (log : List LogRecord) →
        IsSoundAfter o es old → SessionsAgree o es old → IsLogAfter o es old log → TracksDoubts log old → LogDecides base o es log → StepsTo old e new → DecidesNothing e → LogDecides base o es (log_after log old e) }
    ensures prefix { (base : ℕ) (o : Opening) (es : List Entry) (log : List LogRecord) (n : ℕ) → LogDecides base o es log → base ≤ n → n ≤ length log →
        (m : ℕ) × (decisions_in base (take n log) ≡ take m (decisions es)) × TellsItsDecisions base o (written_by o es) (take n log)
        × IsOpeningOf (take n log) (next_opening o (record { entries = es; kept = decisions_in base (take n log) })) }
    ensures shown { (base : ℕ) (o : Opening) (es : List Entry) (log : List LogRecord) → Lawful log → TellsItsDecisions base o (written_by o es) log →
        records_told log ≡ shown (history_from o es) (decisions_in base log) }
{}

/// The locks that an open gives back to those in doubt are a function of the log. They are in harmony if the granules of no two Prepares in doubt lie on one
/// path, and let each read and write just what lies under its granules. They are well rooted, and each was held before, so they are no more than there were.
pub fn doubts_get_their_locks()
    ensures made { (log : List LogRecord) → AreRestored log (restored_locks (doubts_in log)) }
    ensures harmony { (log : List LogRecord) (held : List Hold) → DoubtsStand log → AreRestored log held → Harmony held }
    ensures under { (log : List LogRecord) (held : List Hold) (t : ℕ) (id : Rid) → DoubtsStand log → AreRestored log held → MayRead held t id →
        (d : LoggedDoubt) × IsAmong d (doubts_in log) × (t ≡ d.txn) × LiesUnder d.granules id }
    ensures rooted { (log : List LogRecord) (held : List Hold) → AreRestored log held → WellRooted held }
    ensures before { (log : List LogRecord) (s : Sessions) (held : List Hold) → TracksDoubts log s → WellRooted s.held → AreRestored log held →
        All (λ h. HoldsAtLeast s.held h.txn h.mode h.granule) held }
    ensures no_more { (log : List LogRecord) (s : Sessions) (held : List Hold) → TracksDoubts log s → WellRooted s.held → AreRestored log held → EachOnce (map node_of held) →
        length held ≤ length s.held }
    ensures changed { (log : List LogRecord) (d : LoggedDoubt) (id : Rid) → Lawful log → IsAmong d (doubts_in log) → has (changes_id id) d.txn log ≡ true → LiesUnder d.granules id }
{}

/// A resolve is never refused by the state: one in doubt whose prepare is answered may be decided either way, by any session, and its rollback ended, whatever
/// has come between.
pub fn doubts_can_be_resolved()
    ensures commit { (o : Opening) (es : List Entry) (s : Sessions) (p : PreparedTxn) → SessionsAgree o es s → IsAmong p s.prepared → p.answered ≡ true →
        (a : SessionTxn) × (new : Sessions) × (a.txn ≡ p.txn) × StepsTo s (AppendResolve a p.global) new }
    ensures abort { (o : Opening) (es : List Entry) (s : Sessions) (p : PreparedTxn) → SessionsAgree o es s → IsAmong p s.prepared → p.answered ≡ true →
        (a : SessionTxn) × (new : Sessions) × (a.txn ≡ p.txn) × StepsTo s (AppendRollback a p.global) new }
    ensures end { (log : List LogRecord) (s : Sessions) (a : SessionTxn) → TracksDoubts log s → IsAmong a s.active → IsAmong a.txn (resolved_of s) →
        (new : Sessions) × StepsTo s (EndRollback a) new }
{}

/// A rollback may be made of steps, with other events between them. What its transaction has logged stands for its write set: each
/// image that is put back and logged leaves what it sees as it must be, and the rest of the undo list undoes the rest, whole or down to the
/// savepoint.
pub fn rollback_steps_keep_views()
    ensures begin { (held : List Hold) (now R : Records) (t : ℕ) (p : Progress) (L : WriteSet) →
        Sees held now R t p.writes → HasLogged held R t p L → Sees held now R t L }
    ensures step { (held : List Hold) (now R : Records) (t : ℕ) (L : WriteSet) (id : Rid) (image : Image) →
        MayWrite held t id → Sees held now R t L → Sees held now (put_image R id image) t (insert L id image) }
    ensures rest { (held : List Hold) (now R : Records) (t : ℕ) (p : Progress) (undo : UndoList) (kept : List (Rid × Image)) (e : Rid × Image) (r : Rollback) →
        CanUndo held now R t undo p → undo.images ≡ kept ++ e ∷ [] → MayRoll undo r → least_kept undo r ≤ length kept
        → CanUndo held now (put_image R e.0 e.1) t (undo_rolled undo kept r) p }
{}

/// A rollback whose first image was put back in a step of its own ends as one that was made at once: with the same records in place, the same
/// undo list, and the same log.
pub fn rollbacks_in_steps_end_alike()
    ensures abort { (t : ℕ) (R : Records) (log : List LogRecord) (undo : UndoList) (kept : List (Rid × Image)) (e : Rid × Image) → undo.images ≡ kept ++ e ∷ [] →
        (rolled_back (put_image R e.0 e.1) kept ≡ rolled_back R undo.images)
        × (and_compensations t (and_record t log (Compensation e.0 e.1 (next_to_undo t log))) kept ≡ and_compensations t log undo.images) }
    ensures back_to { (t : ℕ) (R : Records) (log : List LogRecord) (undo : UndoList) (kept : List (Rid × Image)) (e : Rid × Image) (n : ℕ) (answer : Answer) →
        undo.images ≡ kept ++ e ∷ [] → n < length undo.marks → mark_of undo n ≤ length kept →
        (in_place_after_answer (put_image R e.0 e.1) (undo_rolled undo kept (To n)) (BackTo n) answer ≡ in_place_after_answer R undo (BackTo n) answer)
        × (undo_after_answer (put_image R e.0 e.1) (undo_rolled undo kept (To n)) (BackTo n) answer ≡ undo_after_answer R undo (BackTo n) answer)
        × (and_compensations t (and_record t log (Compensation e.0 e.1 (next_to_undo t log))) (images_since (undo_rolled undo kept (To n)) n)
        ≡ and_compensations t log (images_since undo n)) }
{}

/// The undo list and the unanswered Changes of the log stay the same: a Change goes to the end of both, a rollback takes its
/// images off both, and each of its Compensations answers the newest Change that is left.
pub fn unanswered_changes_match_undo()
    ensures change { (t : ℕ) (log : List LogRecord) (images : List (Rid × Image)) (id : Rid) (before image : Image) →
        MatchesUndo log t images → MatchesUndo (and_record t log (Change id before image)) t (images ++ (id, before) ∷ []) }
    ensures rollback { (t : ℕ) (log : List LogRecord) (kept es : List (Rid × Image)) →
        MatchesUndo log t (kept ++ es) → MatchesUndo (and_compensations t log es) t kept }
    ensures answers { (t : ℕ) (log : List LogRecord) (kept es : List (Rid × Image)) (e : Rid × Image) → MatchesUndo log t (kept ++ e ∷ es)
        → Answers (unanswered t (and_compensations t log es)) e.0 e.1 (next_to_undo t (and_compensations t log es)) }
{}

/// The events of two sessions may come between each other: a worked run with all kinds of events, in which one commits while the other
/// reads, and what it has committed is in place.
pub fn two_sessions_interleave()
    ensures { (o : Records) (a b : Rid) (x y z : List ℕ) (ticket : ℕ) → a ≢ b → get o a ≡ Some x → get o b ≡ Some y →
        (last : Sessions) × (made : List Entry) × RunsTo (just_opened 2042 o) (interleaved o a b x z ticket) [] last made × (get last.records b ≡ Some z) }
{}

/// So may they in the midst of a rollback: one session changes a record twice, and its abort, or its way back to a savepoint, puts one image
/// back; the other reads; then the rollback puts back what is left, and in place is what was there before.
pub fn rollbacks_are_interrupted()
    ensures abort { (o : Records) (a b : Rid) (x y z : List ℕ) → a ≢ b → get o a ≡ Some x → get o b ≡ Some y →
        (last : Sessions) × (made : List Entry) × RunsTo (just_opened 2042 o) (abort_interrupted o a b x z) [] last made × (get last.records b ≡ Some y) }
    ensures back_to { (o : Records) (a b : Rid) (x y z : List ℕ) (ticket : ℕ) → a ≢ b → get o a ≡ Some x → get o b ≡ Some y →
        (last : Sessions) × (made : List Entry) × RunsTo (just_opened 2042 o) (way_back_interrupted o a b x z ticket) [] last made × (get last.records b ≡ Some y) }
{}

/// A session changes a record and prepares; its transaction is in doubt. Resolved to abort by another session, it leaves what was there before, though the
/// first session begins anew before that; resolved to commit, its locks may go before the answer, and another session reads what it wrote.
pub fn prepared_transactions_are_resolved()
    ensures prepare { (o : Records) (a : Rid) (x z global : List ℕ) → get o a ≡ Some x →
        (last : Sessions) × (made : List Entry) × RunsTo (just_opened 2042 o) (prepared_once o a z global) [] last made
        × (decisions made ≡ Prepare 1 global ∷ []) × (in_doubt [] (decisions made) ≡ (1, global) ∷ []) }
    ensures abort { (o : Records) (a : Rid) (x z global : List ℕ) → get o a ≡ Some x →
        (last : Sessions) × (made : List Entry) × RunsTo (just_opened 2042 o) (resolved_to_abort o a z global) [] last made
        × (get last.records a ≡ Some x) × (in_doubt [] (decisions made) ≡ []) }
    ensures commit { (o : Records) (a : Rid) (x z global : List ℕ) → get o a ≡ Some x →
        (last : Sessions) × (made : List Entry) × RunsTo (just_opened 2042 o) (resolved_to_commit o a z global) [] last made
        × (get last.records a ≡ Some z) × (decisions made ≡ Prepare 1 global ∷ Commit 1 ∷ []) × (in_doubt [] (decisions made) ≡ []) }
    ensures returned { (o : Records) (a : Rid) (x z global : List ℕ) → get o a ≡ Some x →
        (last : Sessions) × (made : List Entry) × RunsTo (doubtful_open o a z global) (resolved_after_open o a global) [] last made
        × (get last.records a ≡ Some x) × (in_doubt (record { txn = 1; global = global; writes = insert empty a (Some z) } ∷ []) (decisions made) ≡ []) }
    ensures from_log { (o : Records) (a : Rid) (z global : List ℕ) →
        (doubts_in (doubtful_log o a z global) ≡ record { txn = 1; global = global; granules = Record a ∷ [] } ∷ []) × (undo_in (doubtful_log o a z global) 1 ≡ changed_once o a)
        × (restored_locks (doubts_in (doubtful_log o a z global)) ≡ write_lock 1 a ∷ intention (Page a.page) ∷ intention (Store a.page.store) ∷ intention Volume ∷ []) }
{}

/// A transaction under way that is neither in doubt nor resolved, and one that is being committed, is its session's; and a session that is in a transaction is in
/// such a one, or in one that is in doubt. No two sessions are in one.
pub fn sessions_are_in_their_transactions()
    ensures open { (o : Opening) (s : Sessions) → IsJustOpened o s → HasOwnSeats s }
    ensures each { (o : Opening) (es : List Entry) (old new : Sessions) (e : SessionEvent) → SessionsAgree o es old → HasOwnSeats old → StepsTo old e new → HasOwnSeats new }
{}

/// A prepare cannot be answered any more once a resolve has decided its transaction: the answer would be of a session in no transaction, and acknowledge a
/// decision that is not among those made. So a resolve has to wait for the answer.
pub fn prepares_are_answered_before_resolves()
    ensures nobodys { (R : Records) (n : ℕ) (global : List ℕ) → IsHistory (history_from (opening_with 2042 R) (resolved_first global ++ late_answer n global ∷ [])) → n ≡ 0 }
    ensures not_kept { (global : List ℕ) (ds : List Decision) → Kept (resolved_first global ++ late_answer 0 global ∷ []) ds → ⊥ }
{}

/// A doomed transaction can only be rolled back, whole. Nothing of it is put back at once. From then on, whatever else comes, it gets no reply and
/// goes back to no savepoint; nor is it committed, as `wrong_events_do_not_come` says of each one that rolls back.
pub fn doomed_transactions_can_only_roll_back()
    ensures left { (s new : Sessions) (a b : SessionTxn) → StepsTo s (Doom a) new → IsAmong b new.active → b.txn ≡ a.txn →
        (b.undo.images ≡ a.undo.images) × (b.undo.rolling ≡ Some Whole) × (new.records ≡ s.records) }
    ensures reply { (s new : Sessions) (a : SessionTxn) (c : Call) (reply : Result Answer Fault) →
        a.undo.rolling ≡ Some Whole → StepsTo s (GiveReply a c reply) new → ⊥ }
    ensures savepoint { (s new : Sessions) (a : SessionTxn) (kept : List (Rid × Image)) (e : Rid × Image) (n : ℕ) →
        a.undo.rolling ≡ Some Whole → StepsTo s (PutBack a kept e (To n)) new → ⊥ }
    ensures stays { (o : Opening) (es : List Entry) (s new : Sessions) (e : SessionEvent) (a b : SessionTxn) → IsSoundAfter o es s → SessionsAgree o es s → IsAmong a s.active →
        a.undo.rolling ≡ Some Whole → StepsTo s e new → IsAmong b new.active → b.txn ≡ a.txn → b.undo.rolling ≡ Some Whole }
{}

/// What must not come, though each other condition of it may hold: a get and its refusal without a lock, an insert if only a read lock
/// is held, a scan under a lock of a record; a second transaction of a session; locks that a transaction under way loses, that clash, or
/// that are of no transaction yet; a commit or a get of one that rolls back; a way back, or an image put back, to another savepoint
/// than that of the rollback under way; an image put back out of turn, or from before the savepoint; a commit of one that is doomed; the doom
/// of one that is not under way.
pub fn wrong_events_do_not_come()
    ensures get_unlocked { (most : ℕ) (t n : ℕ) (R : Records) (id : Rid) (answer : Answer) → MayReplyInPlace most [] t R n (Get id) (Ok answer) → ⊥ }
    ensures absent_unlocked { (most : ℕ) (t n : ℕ) (R : Records) (id : Rid) → id.slot < most → MayReplyInPlace most [] t R n (Get id) (Err NoRecord) → ⊥ }
    ensures insert_under_read_lock { (most : ℕ) (t n : ℕ) (R : Records) (id : Rid) (s : ℕ) (bytes : List ℕ) →
        MayReplyInPlace most (read_lock t id ∷ []) t R n (Insert s bytes) (Ok (Inserted id)) → ⊥ }
    ensures scan_under_record_lock { (most : ℕ) (t n : ℕ) (R : Records) (a b : Rid) (answer : Answer) → a ≢ b →
        MayReplyInPlace most (read_lock t a ∷ []) t R n (Scan b.page.store) (Ok answer) → ⊥ }
    ensures second_txn { (s new : Sessions) (session : ℕ) → 0 < (s.seats session).txn → StepsTo s (BeginTxn session) new → ⊥ }
    ensures lock_lost { (s new : Sessions) (t : ℕ) (m : Mode) (g : Granule) →
        IsAmong t (txns_of s.active) → HoldsAtLeast s.held t m g → StepsTo s (MoveLocks []) new → ⊥ }
    ensures locks_clash { (s new : Sessions) (held : List Hold) (t u : ℕ) (id : Rid) →
        t ≢ u → MayWrite held t id → MayRead held u id → StepsTo s (MoveLocks held) new → ⊥ }
    ensures lock_of_nobody { (s new : Sessions) (h : Hold) (held : List Hold) → Contains held h → s.next_txn ≤ h.txn → StepsTo s (MoveLocks held) new → ⊥ }
    ensures commit_in_rollback { (s new : Sessions) (a : SessionTxn) (ticket : ℕ) → a.undo.rolling ≢ None → StepsTo s (AppendCommit a ticket) new → ⊥ }
    ensures get_in_rollback { (s new : Sessions) (a : SessionTxn) (id : Rid) (reply : Result Answer Fault) →
        a.undo.rolling ≢ None → StepsTo s (GiveReply a (Get id) reply) new → ⊥ }
    ensures other_savepoint { (s new : Sessions) (a : SessionTxn) (kept : List (Rid × Image)) (e : Rid × Image) (n m : ℕ) →
        a.undo.rolling ≡ Some (To n) → n ≢ m → StepsTo s (PutBack a kept e (To m)) new → ⊥ }
    ensures other_back_to { (s new : Sessions) (a : SessionTxn) (n m : ℕ) (reply : Result Answer Fault) →
        a.undo.rolling ≡ Some (To n) → n ≢ m → StepsTo s (GiveReply a (BackTo m) reply) new → ⊥ }
    ensures not_the_newest { (s new : Sessions) (a : SessionTxn) (older kept : List (Rid × Image)) (newest e : Rid × Image) (r : Rollback) →
        a.undo.images ≡ older ++ newest ∷ [] → newest ≢ e → StepsTo s (PutBack a kept e r) new → ⊥ }
    ensures before_savepoint { (s new : Sessions) (a : SessionTxn) (kept : List (Rid × Image)) (e : Rid × Image) (n : ℕ) →
        length kept < mark_of a.undo n → StepsTo s (PutBack a kept e (To n)) new → ⊥ }
    ensures commit_of_doomed { (s mid new : Sessions) (a b : SessionTxn) (ticket : ℕ) →
        StepsTo s (Doom a) mid → b.txn ≡ a.txn → StepsTo mid (AppendCommit b ticket) new → ⊥ }
    ensures commit_of_doubtful { (s new : Sessions) (a : SessionTxn) (ticket : ℕ) → IsAmong a.txn (in_doubt_of s) → StepsTo s (AppendCommit a ticket) new → ⊥ }
    ensures undo_of_doubtful { (s new : Sessions) (a : SessionTxn) (kept : List (Rid × Image)) (e : Rid × Image) (r : Rollback) →
        IsAmong a.txn (in_doubt_of s) → StepsTo s (PutBack a kept e r) new → ⊥ }
    ensures resolve_of_unanswered { (s new : Sessions) (a : SessionTxn) (global : List ℕ) →
        (IsAmong (record { txn = a.txn; global = global; answered = true }) s.prepared → ⊥) → StepsTo s (AppendResolve a global) new → ⊥ }
    ensures same_global_id { (s new : Sessions) (a : SessionTxn) (global : List ℕ) (granules : List Granule) (p : ℕ × List ℕ) →
        IsAmong p (in_use s) → p.1 ≡ global → StepsTo s (AppendPrepare a global granules) new → ⊥ }
    ensures too_few_granules { (s new : Sessions) (a : SessionTxn) (global : List ℕ) (granules : List Granule) (h : Hold) →
        Contains s.held h → h.txn ≡ a.txn → IsTrue (is_write h.mode) → (Contains granules h.granule → ⊥) → StepsTo s (AppendPrepare a global granules) new → ⊥ }
    ensures doom_of_another { (s new : Sessions) (a : SessionTxn) → (IsAmong a s.active → ⊥) → StepsTo s (Doom a) new → ⊥ }
{}
