//! The laws of calls: what each event keeps, and what a history and a crash then have. Each is the contract of an empty function.
ghost use Rattle.std.specs.Prelude.{◌≡◌, ◌≢◌, ◌⊎◌, ◌<◌, ◌≤◌, ◌∷◌, ◌++◌, ℕ, All, IsSome, IsTrue, List, [], None, Some, length, take, ◌+◌};
ghost use Rattle.std.specs.FinMap.{empty, get};
ghost use Rattle.std.specs.List.{AllByRecursion};
ghost use Rattle.shore_types.specs.Layout.{HasPage, HasStore};
ghost use Rattle.shore_types.specs.declared.faults.Device.{Device};
ghost use Rattle.shore_types.specs.declared.faults.Fault.{Fault};
ghost use Rattle.shore_types.specs.declared.faults.Fault.TheVariants as fault;
ghost use Rattle.shore_types.specs.declared.ids.PageId.{PageId};
ghost use Rattle.shore_types.specs.declared.ids.Rid.{Rid};
ghost use Rattle.shore_types.specs.declared.layout.Geometry.{Geometry};
ghost use Rattle.shore_types.specs.declared.layout.TheConstants.{LAST_OPENED, LONGEST_FRAME, MAX_LOG_BYTES};
ghost use Rattle.shore_model.specs.declared.calls.Answer.{Answer};
ghost use Rattle.shore_model.specs.declared.calls.Answer.TheVariants.{Prepared, Resolved};
ghost use Rattle.shore_model.specs.declared.calls.Call.{Call};
ghost use Rattle.shore_model.specs.declared.calls.Call.TheVariants.{Abort, Commit, Prepare, Resolve};
ghost use Rattle.shore_model.specs.declared.histories.Decision.TheVariants as decision;
ghost use Rattle.shore_model.specs.declared.histories.Entry.{Entry};
ghost use Rattle.shore_model.specs.declared.histories.Opening.{Opening};
ghost use Rattle.shore_model.specs.declared.log_records.LogRecord.{LogRecord};
ghost use Rattle.shore_model.specs.Histories.{IsHistory, Kept, RunsAloneAfter, Sound, acknowledged, decision_asked_by, decisions, in_doubt, serial, shown};
ghost use Rattle.shore_model.specs.Lives.{next_opening};
ghost use Rattle.shore_model.specs.Logs.{records_told};
ghost use Rattle.shore_model.specs.Locks.{Harmony, WellRooted};
ghost use Rattle.shore_model.specs.Records.{overlay};
ghost use Rattle.shore_model.specs.Requests.{held_by_all};
ghost use Rattle.shore_locks.specs.Grants.{released};
ghost use Rattle.shore_page.specs.Room.{HasRoom};
ghost use Rattle.laws_room.specs.Claims.{slots_of};
ghost use Rattle.laws_lives.specs.Doubts.{DoubtsStand, IsOpeningOf};
ghost use Rattle.laws_lives.specs.LogPrefixes.{decisions_in};
ghost use Rattle.laws_lives.specs.LogTells.{records_committed};
ghost use Rattle.laws_lives.specs.Sessions.{SessionTxn, pairs_of};
ghost use Rattle.laws_lives.specs.Soundness.{history_from, opening_with, serial_after, written_by};
ghost use Rattle.laws_lives.specs.Views.{IsAmong};
ghost use Rattle.shore_model.specs.declared.step.Step.{Step};
ghost use Rattle.shore_model.specs.declared.step.Step.TheVariants.{Done, Refused, Waits};
ghost use Rattle.shore_model.specs.declared.step.Wait.{Wait};
ghost use Rattle.shore_model.specs.declared.step.Wait.TheVariants.{Durable};
ghost use Rattle.laws_calls.specs.CallHistories.{IsOpened, IsPrefix, IsRoomyState, KeepsDurable, txn_of, txn_under};
ghost use Rattle.laws_calls.specs.Events.{IsStateAfter, ManagerEvent, EventMoves, EventsMove, MovesMaking, entries_of_resume};
ghost use Rattle.laws_calls.specs.StateChanges.{with_durable, with_failure};
ghost use Rattle.laws_calls.specs.LockChanges.{TakesAsAsked};
ghost use Rattle.laws_calls.specs.CallSteps.{ResumesCall, CallStep, ResumeStep};
ghost use Rattle.laws_calls.specs.LockedStates.{entries_of_call};
ghost use Rattle.laws_calls.specs.States.{DoesNotWait, HasSeat, IsOfSession, State, Waiting, cost_of_log, log_room, next_number};
ghost use Rattle.laws_calls.specs.WorkedRun.{first_id, first_page, one_insert, opened_empty};
ghost use Rattle.shore_model.specs.declared.calls.Outcome.TheVariants as outcome;
ghost use Rattle.laws_calls.specs.Resolves.{IsRollingBack, rollback_number};
ghost use Rattle.laws_calls.specs.Shapes.{EndsAtOnce, ResolvesTxn, IsNoRefusal};
ghost use Rattle.shore_model.specs.declared.calls.Outcome.{Outcome};
ghost use Rattle.shore_types.specs.declared.versions.Version.{Version};
ghost use Rattle.shore_types.specs.Versions.{record_limit, slot_limit};

/// What an open leaves is a state after no entries.
pub fn open_begins_a_state()
    ensures { (o : Opening) (found : List LogRecord) (s : State) → IsOpened o found s → IsStateAfter o found [] s }
{}

/// Each call of each session, whatever it comes to, goes on with the history: what waits and what is forced stay true as well.
pub fn calls_keep_state()
    ensures { (g : Geometry) (o : Opening) (found : List LogRecord) (es : List Entry) (old new : State) (session : ℕ) (c : Call) (step : Step) → IsStateAfter o found es old →
        CallStep g old session c step new → IsStateAfter o found (es ++ entries_of_call old session c step new) new }
{}

/// So does each resume.
pub fn resumes_keep_state()
    ensures { (g : Geometry) (o : Opening) (found : List LogRecord) (es : List Entry) (old new : State) (session : ℕ) (step : Step) → IsStateAfter o found es old →
        ResumeStep g old session step new → IsStateAfter o found (es ++ entries_of_resume old session step) new }
{}

/// A force that is told, and a failure, leave the history as it is.
pub fn forces_and_failures_keep_state()
    ensures durable { (o : Opening) (found : List LogRecord) (es : List Entry) (s : State) (n : ℕ) →
        IsStateAfter o found es s → s.durable ≤ n → n ≤ length s.log → IsStateAfter o found es (with_durable n s) }
    ensures failed { (o : Opening) (found : List LogRecord) (es : List Entry) (s : State) → IsStateAfter o found es s → IsStateAfter o found es (with_failure s) }
{}

/// After any events from an open on, the state is what they have come to. Any events make entries.
pub fn events_keep_state()
    ensures entries { (g : Geometry) (s last : State) (events : List ManagerEvent) →
        EventsMove g s events last → (made : List Entry) × MovesMaking g s events last made }
    ensures events { (g : Geometry) (s last : State) (events : List ManagerEvent) (made : List Entry) →
        MovesMaking g s events last made → EventsMove g s events last }
    ensures keep { (g : Geometry) (o : Opening) (found : List LogRecord) (first last : State) (events : List ManagerEvent) (made : List Entry) →
        IsOpened o found first → MovesMaking g first events last made → IsStateAfter o found made last }
{}

/// What was called and answered since an open is a history, and a sound one.
pub fn states_have_sound_histories()
    ensures history { (o : Opening) (found : List LogRecord) (es : List Entry) (s : State) → IsStateAfter o found es s → IsHistory (history_from o es) }
    ensures sound { (o : Opening) (found : List LogRecord) (es : List Entry) (s : State) → IsStateAfter o found es s → Sound (history_from o es) }
{}

/// What a crash keeps of the log tells the serial records of a prefix of the decisions that holds every acknowledged one. It opens as these decisions say:
/// with the transactions that they leave in doubt, who stand beside each other, and with their changes in place.
pub fn crash_keeps_acknowledged_commits()
    ensures kept { (o : Opening) (found : List LogRecord) (es : List Entry) (s : State) (n : ℕ) → IsStateAfter o found es s → KeepsDurable s n →
        Kept es (decisions_in (length found) (take n s.log))
        × (records_committed (take n s.log) ≡ serial (written_by o es) o.records (decisions_in (length found) (take n s.log))) }
    ensures opens { (o : Opening) (found : List LogRecord) (es : List Entry) (s : State) (n : ℕ) → IsStateAfter o found es s → KeepsDurable s n →
        IsOpeningOf (take n s.log) (next_opening o (record { entries = es; kept = decisions_in (length found) (take n s.log) })) × DoubtsStand (take n s.log)
        × (records_told (take n s.log) ≡ shown (history_from o es) (decisions_in (length found) (take n s.log))) }
{}

/// The log tells the serial records of all decisions, and with the changes of those in doubt what the decisions show. Those are in doubt whom the decisions
/// leave so. A call that is answered, but for a commit, that is refused or waits for a lock adds nothing to what it tells, nor does one that asks for no commit, and a
/// Commit, a resolve's too, what its transaction has written, which is what stands at those ids while no rollback of it is under way. If nobody is under way, all that is
/// in place is told.
pub fn log_tells_what_is_decided()
    ensures decided { (o : Opening) (found : List LogRecord) (es : List Entry) (s : State) →
        IsStateAfter o found es s → records_committed s.log ≡ serial_after o es }
    ensures shown { (o : Opening) (found : List LogRecord) (es : List Entry) (s : State) →
        IsStateAfter o found es s → records_told s.log ≡ shown (history_from o es) (decisions es) }
    ensures doubts { (o : Opening) (found : List LogRecord) (es : List Entry) (s : State) →
        IsStateAfter o found es s → pairs_of s.sessions.prepared ≡ in_doubt o.in_doubt (decisions es) }
    ensures in_place { (o : Opening) (found : List LogRecord) (es : List Entry) (s : State) →
        IsStateAfter o found es s → s.sessions.active ≡ [] → s.sessions.records ≡ records_committed s.log }
    ensures call { (g : Geometry) (o : Opening) (found : List LogRecord) (es : List Entry) (old new : State) (session : ℕ) (c : Call) (step : Step) → IsStateAfter o found es old
        → CallStep g old session c step new → (c ≡ Commit → (answer : Answer) → step ≢ Done answer)
        → ((n : ℕ) → step ≢ Waits (Durable n)) ⊎ ((t : ℕ) → decision_asked_by t c ≢ Some (decision.Commit t))
        → records_committed new.log ≡ records_committed old.log }
    ensures resume { (g : Geometry) (o : Opening) (found : List LogRecord) (es : List Entry) (old new : State) (session : ℕ) (step : Step) → IsStateAfter o found es old
        → ResumeStep g old session step new → records_committed new.log ≡ records_committed old.log }
    ensures commit { (g : Geometry) (o : Opening) (found : List LogRecord) (es : List Entry) (old new : State) (session : ℕ) (answer : Answer) → IsStateAfter o found es old
        → CallStep g old session Commit (Done answer) new
        → records_committed new.log ≡ overlay (records_committed old.log) (written_by o es (txn_of old.sessions session)) }
    ensures resolve { (g : Geometry) (o : Opening) (found : List LogRecord) (es : List Entry) (old new : State) (session n : ℕ) (global : List ℕ) → IsStateAfter o found es old
        → CallStep g old session (Resolve global outcome.Commit) (Waits (Durable n)) new
        → records_committed new.log ≡ overlay (records_committed old.log) (written_by o es (txn_under old.sessions global)) }
    ensures own { (o : Opening) (found : List LogRecord) (es : List Entry) (s : State) (a : SessionTxn) (id : Rid) → IsStateAfter o found es s → IsAmong a s.sessions.active
        → a.undo.rolling ≡ None → IsSome (get (written_by o es a.txn) id)
        → get s.sessions.records id ≡ get (overlay (records_committed s.log) (written_by o es a.txn)) id }
{}

/// A transaction whose session is in it runs alone on the serial records of now.
pub fn undecided_transactions_run_alone()
    ensures { (o : Opening) (found : List LogRecord) (es : List Entry) (s : State) (a : SessionTxn) → IsStateAfter o found es s → HasSeat s.sessions a →
        RunsAloneAfter (history_from o es) (decisions es) a.txn }
{}

/// Each call and each resume leaves room on pages and in the log for all that stands and all that may come back, a rollback too, which no lack of room
/// refuses: so undo is never refused. So does an open whose pages and log have place for what they hold.
pub fn calls_keep_room()
    ensures calls { (g : Geometry) (o : Opening) (found : List LogRecord) (es : List Entry) (old new : State) (session : ℕ) (c : Call) (step : Step) →
        IsStateAfter o found es old → IsRoomyState g.version old → CallStep g old session c step new → IsRoomyState g.version new }
    ensures resumes { (g : Geometry) (o : Opening) (found : List LogRecord) (es : List Entry) (old new : State) (session : ℕ) (step : Step) →
        IsStateAfter o found es old → IsRoomyState g.version old → ResumeStep g old session step new → IsRoomyState g.version new }
    ensures open { (v : Version) (o : Opening) (found : List LogRecord) (s : State) → IsOpened o found s → s.sessions.slots ≡ slot_limit v
        → ((p : PageId) → HasRoom v (slots_of s.sessions.records s.sessions.active p (s.counts p)))
        → ((id : Rid) → s.counts id.page ≤ id.slot → get s.sessions.records id ≡ None)
        → ((a : SessionTxn) → IsAmong a s.sessions.active → AllByRecursion (λ e. e.0.slot < s.counts e.0.page) a.undo.images)
        → cost_of_log found + (log_room s).reserved + LONGEST_FRAME ≤ s.stream_bytes
        → length found + (log_room s).reserved < LAST_OPENED → s.stream_bytes ≤ MAX_LOG_BYTES → IsRoomyState v s }
{}

/// A call that comes to a wait waits: a prepare or a resolve for its own record, which an interrupted resolve may have appended before. It waits no more once it is answered or refused. A device that fails, and a page that
/// is damaged, fail the state, and then all is refused.
pub fn waits_end_and_faults_fail()
    ensures begin { (g : Geometry) (s new : State) (session : ℕ) (c : Call) (wait : Wait) →
        CallStep g s session c (Waits wait) new → IsAmong (record { session = session; call = c; wait = wait; cycle = None }) new.waiting }
    ensures number { (g : Geometry) (s new : State) (session n : ℕ) (c : Call) → CallStep g s session c (Waits (Durable n)) new →
        (n ≡ next_number s) ⊎ ((a : SessionTxn) × (global : List ℕ) × (c ≡ Resolve global outcome.Abort) × IsRollingBack s a global × (n ≡ rollback_number a.txn s.log)) }
    ensures still { (g : Geometry) (s new : State) (session : ℕ) (wait : Wait) → ResumeStep g s session (Waits wait) new →
        (w : Waiting) × IsAmong w new.waiting × (w.session ≡ session) × (w.wait ≡ wait) }
    ensures told { (g : Geometry) (s new : State) (session : ℕ) (answer : Answer) → ResumeStep g s session (Done answer) new → DoesNotWait new session }
    ensures refused { (g : Geometry) (s new : State) (session : ℕ) (f : Fault) → ResumeStep g s session (Refused f) new → DoesNotWait new session }
    ensures device { (g : Geometry) (o : Opening) (found : List LogRecord) (es : List Entry) (s new : State) (session : ℕ) (c : Call) → IsStateAfter o found es s →
        CallStep g s session c (Refused fault.Device) new → IsTrue new.failed }
    ensures damage { (g : Geometry) (o : Opening) (found : List LogRecord) (es : List Entry) (s new : State) (session : ℕ) (c : Call) (device : Device) (offset : ℕ) →
        IsStateAfter o found es s → CallStep g s session c (Refused (fault.Damaged device offset)) new → IsTrue new.failed }
    ensures resumed_device { (g : Geometry) (o : Opening) (found : List LogRecord) (es : List Entry) (s new : State) (session : ℕ) → IsStateAfter o found es s →
        ResumeStep g s session (Refused fault.Device) new → IsTrue new.failed }
    ensures resumed_damage { (g : Geometry) (o : Opening) (found : List LogRecord) (es : List Entry) (s new : State) (session : ℕ) (device : Device) (offset : ℕ) →
        IsStateAfter o found es s → ResumeStep g s session (Refused (fault.Damaged device offset)) new → IsTrue new.failed }
{}

/// The log of each event begins by the log before.
pub fn logs_go_on()
    ensures { (g : Geometry) (s new : State) (e : ManagerEvent) → EventMoves g s e new → IsPrefix s.log new.log }
{}

/// The locks of the sessions are those of the lock table. They are in harmony, and have their intentions.
pub fn locks_stay_in_harmony()
    ensures held { (o : Opening) (found : List LogRecord) (es : List Entry) (s : State) → IsStateAfter o found es s → s.sessions.held ≡ held_by_all s.locks.requests }
    ensures rooted { (o : Opening) (found : List LogRecord) (es : List Entry) (s : State) → IsStateAfter o found es s → WellRooted s.sessions.held }
    ensures harmony { (o : Opening) (found : List LogRecord) (es : List Entry) (s : State) → IsStateAfter o found es s → Harmony s.sessions.held }
{}

/// Locks are taken only as calls ask: by a call of a session, and going on with it, the requests of every other transaction stay or are granted, the own ones
/// grow along the path to the granule that is asked for, an insert's to its place too, and nobody's become weaker. A commit gives all
/// of its locks back as its record is logged, with its answer; so does an abort, however often it is interrupted. A prepare and its answer leave all locks. A resolve gives
/// those of its transaction back as its decision to commit is logged, or its rollback has ended, and its answer leaves all.
pub fn locks_change_as_asked()
    ensures calls { (g : Geometry) (o : Opening) (found : List LogRecord) (es : List Entry) (old new : State) (session : ℕ) (c : Call) (step : Step) → IsStateAfter o found es old
        → CallStep g old session c step new → ((new.locks.requests ≡ old.locks.requests)
        ⊎ ((a : SessionTxn) × IsOfSession old session a × TakesAsAsked old.locks.requests a.txn c new.locks.requests))
        ⊎ ((EndsAtOnce old c step × ((a : SessionTxn) × IsOfSession old session a × (new.locks.requests ≡ released a.txn old.locks.requests)))
        ⊎ ((a : SessionTxn) × ResolvesTxn old c a × IsNoRefusal step × (new.locks.requests ≡ released a.txn old.locks.requests))) }
    ensures resumes { (g : Geometry) (o : Opening) (found : List LogRecord) (es : List Entry) (old new : State) (w : Waiting) (step : Step) → IsStateAfter o found es old
        → ResumesCall g old w step new → (new.locks.requests ≡ old.locks.requests)
        ⊎ ((a : SessionTxn) × IsOfSession old w.session a × TakesAsAsked old.locks.requests a.txn w.call new.locks.requests) }
    ensures commit { (g : Geometry) (o : Opening) (found : List LogRecord) (es : List Entry) (old new : State) (session : ℕ) (f : Fault) → IsStateAfter o found es old
        → CallStep g old session Commit (Refused f) new → new.locks.requests ≡ old.locks.requests }
    ensures told_commit { (g : Geometry) (o : Opening) (found : List LogRecord) (es : List Entry) (old new : State) (session : ℕ) (answer : Answer) → IsStateAfter o found es old
        → CallStep g old session Commit (Done answer) new → (new.locks.requests ≡ released (txn_of old.sessions session) old.locks.requests)
        × All (λ h. h.txn ≢ txn_of old.sessions session) new.sessions.held }
    ensures told_prepare { (g : Geometry) (old new : State) (w : Waiting) (n : ℕ) → w.wait ≡ Durable n → ResumesCall g old w (Done Prepared) new
        → (new.locks.requests ≡ old.locks.requests) × (new.sessions.held ≡ old.sessions.held) }
    ensures prepare { (g : Geometry) (old new : State) (session : ℕ) (global : List ℕ) (step : Step) → CallStep g old session (Prepare global) step new → new.locks ≡ old.locks }
    ensures told_resolve { (g : Geometry) (old new : State) (w : Waiting) (n : ℕ) → w.wait ≡ Durable n → ResumesCall g old w (Done Resolved) new
        → (new.locks.requests ≡ old.locks.requests) × (new.sessions.held ≡ old.sessions.held) }
    ensures resolve { (g : Geometry) (o : Opening) (found : List LogRecord) (es : List Entry) (old new : State) (session : ℕ) (global : List ℕ) (asked : Outcome) (step : Step) → IsStateAfter o found es old
        → IsNoRefusal step → CallStep g old session (Resolve global asked) step new → (new.locks.requests ≡ released (txn_under old.sessions global) old.locks.requests)
        × All (λ h. h.txn ≢ txn_under old.sessions global) new.sessions.held }
    ensures told_abort { (g : Geometry) (o : Opening) (found : List LogRecord) (es : List Entry) (old new : State) (session : ℕ) (answer : Answer) → IsStateAfter o found es old
        → CallStep g old session Abort (Done answer) new → (new.locks.requests ≡ released (txn_of old.sessions session) old.locks.requests)
        × All (λ h. h.txn ≢ txn_of old.sessions session) new.sessions.held }
{}

/// The conditions can be met: over an empty volume, a transaction locks a store and a place, inserts a record and commits. The commit is answered at once with a ticket,
/// which is not durable, and acknowledged once it is.
pub fn one_insert_comes_through()
    ensures { (g : Geometry) (stream_bytes : ℕ) (bytes : List ℕ) → HasStore g 0 → HasPage g first_page → length bytes ≤ record_limit g.version → 96000 + record_limit g.version ≤ stream_bytes →
        (last : State) × (made : List Entry) × IsOpened (opening_with (slot_limit g.version) empty) [] (opened_empty (slot_limit g.version) stream_bytes) × MovesMaking g (opened_empty (slot_limit g.version) stream_bytes) (one_insert bytes) last made
        × (get last.sessions.records first_id ≡ Some bytes) × (acknowledged made ≡ decision.Commit 1 ∷ []) }
{}
