//! The laws of stays of the power, each stated as the contract of an empty function.
ghost use Rattle.std.specs.Prelude.{◌≡◌, ◌+◌, ◌≤◌, ◌++◌, ◌∷◌, ℕ, List, [], None, Some, length, take};
ghost use Rattle.std.specs.FinMap.{empty, get};
ghost use Rattle.shore_types.specs.Layout.{HasPage, HasStore, LocksInLimits};
ghost use Rattle.shore_types.specs.declared.ids.Rid.{Rid};
ghost use Rattle.shore_types.specs.declared.layout.Geometry.{Geometry};
ghost use Rattle.shore_types.specs.declared.layout.TheConstants.{LONGEST_FRAME, MAX_LOG_BYTES};
ghost use Rattle.shore_model.specs.declared.histories.Entry.{Entry};
ghost use Rattle.shore_model.specs.declared.histories.Opening.{Opening};
ghost use Rattle.shore_model.specs.declared.log_records.LogRecord.{LogRecord};
ghost use Rattle.shore_model.specs.Lives.{IsLife};
ghost use Rattle.shore_model.specs.Records.{AreRecords};
ghost use Rattle.laws_lives.specs.Doubts.{IsOpeningOf};
ghost use Rattle.laws_lives.specs.Pages.{LoggedPages, empty_page};
ghost use Rattle.laws_lives.specs.Recovery.{MayCrash, RecoveryEvent, RecoveryState, after_crash};
ghost use Rattle.laws_lives.specs.Restarts.{RestartsTo};
ghost use Rattle.laws_lives.specs.Undo.{HasNoLosers};
ghost use Rattle.laws_lives.specs.Soundness.{opening_with};
ghost use Rattle.laws_lives.specs.Stretches.{MayBeFound, opening_after};
ghost use Rattle.laws_calls.specs.CallHistories.{IsRoomyState};
ghost use Rattle.laws_calls.specs.States.{State, cost_of_log};
ghost use Rattle.laws_calls.specs.WorkedRun.{first_page};
ghost use Rattle.laws_runs.specs.StoredRuns.{AreFixed, AreStoredRuns, IsOpenedOver, RunsShow, StoredEvent, StoredMoves, StoredRun, StoredState, StoredSteps, entries_made, lists_found, spans_of_runs};
ghost use Rattle.laws_runs.specs.RoomyLogs.{AreRoomy, IsRoomyLog};
ghost use Rattle.laws_runs.specs.RoomyStates.{IsOpenedFrom};
ghost use Rattle.laws_runs.specs.SoundStores.{IsLost, IsSoundStore, IsUnderWay, MayBeOpened, found_state, managed};
ghost use Rattle.laws_runs.specs.WorkedLogs.{committed, inserted, taken_back};
ghost use Rattle.laws_runs.specs.Stays.{AreStoredStays, StoredStay, Up, runs_of};
ghost use Rattle.shore_types.specs.Versions.{record_limit, slot_limit};

/// What a format leaves may be opened: no record, and empty pages.
pub fn formats_may_be_opened()
    ensures { (g : Geometry) (stream_bytes : ℕ) → LONGEST_FRAME ≤ stream_bytes → stream_bytes ≤ MAX_LOG_BYTES → MayBeOpened g stream_bytes [] (λ p. empty_page) }
{}

/// A log in bounds may be opened, though an earlier prefix of it left no room for its undo: a Commit gives away what was reserved before it. Here a
/// record was inserted and committed, and the stream has room for both records and the longest frame, and for nothing besides.
pub fn logs_in_bounds_may_be_opened()
    ensures opened { (g : Geometry) (bytes : List ℕ) → HasStore g 0 → HasPage g first_page → LocksInLimits g → length bytes ≤ record_limit g.version →
        MayBeOpened g (cost_of_log (committed bytes) + LONGEST_FRAME) (committed bytes) (λ p. empty_page) }
    ensures before { (g : Geometry) (bytes : List ℕ) → IsRoomyLog g (cost_of_log (committed bytes) + LONGEST_FRAME) (take 1 (committed bytes)) → ⊥ }
{}

/// A restart begins with a sound store, and each step of it leaves one, also a loss of power. Whatever a loss of power leaves of a sound store may be
/// opened, and is the store that the next restart finds: redo may begin with the first record.
pub fn crashes_leave_what_may_be_opened()
    ensures begins { (g : Geometry) (stream_bytes : ℕ) (rs : List LogRecord) (pages : LoggedPages) → MayBeOpened g stream_bytes rs pages →
        IsSoundStore g stream_bytes (found_state rs pages) × MayBeFound (found_state rs pages) }
    ensures restarts { (g : Geometry) (stream_bytes : ℕ) (s last : RecoveryState) (works : List RecoveryEvent) → IsSoundStore g stream_bytes s →
        RestartsTo s works last → IsSoundStore g stream_bytes last }
    ensures left { (g : Geometry) (stream_bytes : ℕ) (s : RecoveryState) (n : ℕ) (pages : LoggedPages) → IsSoundStore g stream_bytes s → IsLost s n pages →
        MayBeOpened g stream_bytes (take n s.log) pages }
    ensures crash { (g : Geometry) (stream_bytes : ℕ) (s : RecoveryState) (n : ℕ) (pages : LoggedPages) → IsSoundStore g stream_bytes s → IsLost s n pages →
        MayCrash s n pages 0 × (found_state (take n s.log) pages ≡ after_crash s n pages 0) }
{}

/// A manager that opens over a restart is under way, and stays so with each event. Then pages and log have room, its records lie in the geometry, and
/// its store is sound.
pub fn managers_stay_under_way()
    ensures opens { (g : Geometry) (stream_bytes : ℕ) (o : Opening) (s ready : RecoveryState) (works : List RecoveryEvent) (first : State) → MayBeFound s →
        IsOpeningOf s.log o → AreRoomy g stream_bytes s.durable s.log → RestartsTo s works ready → ready.redone ≡ length ready.log → HasNoLosers ready.log → IsOpenedOver o ready first →
        IsOpenedFrom g stream_bytes ready.log first → IsUnderWay g stream_bytes o s.log [] (record { state = first; store = ready }) }
    ensures each { (g : Geometry) (stream_bytes : ℕ) (o : Opening) (found : List LogRecord) (es : List Entry) (m new : StoredState) (e : StoredEvent) →
        IsUnderWay g stream_bytes o found es m → StoredSteps g m e new → IsUnderWay g stream_bytes o found (es ++ entries_made m e new) new }
    ensures moves { (g : Geometry) (stream_bytes : ℕ) (o : Opening) (found : List LogRecord) (es : List Entry) (m last : StoredState) (events : List StoredEvent) (made : List Entry) →
        IsUnderWay g stream_bytes o found es m → StoredMoves g m events last made → IsUnderWay g stream_bytes o found (es ++ made) last }
    ensures safe { (g : Geometry) (stream_bytes : ℕ) (o : Opening) (found : List LogRecord) (es : List Entry) (m : StoredState) → IsUnderWay g stream_bytes o found es m →
        IsRoomyState g.version m.state × AreRecords g m.state.sessions.records }
    ensures sound { (g : Geometry) (stream_bytes : ℕ) (o : Opening) (found : List LogRecord) (es : List Entry) (m : StoredState) → IsUnderWay g stream_bytes o found es m →
        IsSoundStore g stream_bytes m.store }
{}

/// Events join: those of a manager with its store, and of them those of the manager; and so do steps of a restart.
pub fn events_join()
    ensures moves { (g : Geometry) (m mid last : StoredState) (events later : List StoredEvent) (made more : List Entry) → StoredMoves g m events mid made →
        StoredMoves g mid later last more → StoredMoves g m (events ++ later) last (made ++ more) }
    ensures managed { (events later : List StoredEvent) → managed (events ++ later) ≡ managed events ++ managed later }
    ensures restarts { (s mid last : RecoveryState) (works later : List RecoveryEvent) → RestartsTo s works mid → RestartsTo mid later last →
        RestartsTo s (works ++ later) last }
{}

/// Any number of stays of the power, opens that lose power among them, from a log and pages that may be opened: what is left may be opened, and opens as
/// the kept decisions say. The stays
/// are runs of managers, and then restarts that lost power. They are a life: each history is sound, each crash keeps what was
/// acknowledged, and the kept decisions make the records of the next opening, which each open shows. The log that a restart has found is a prefix of
/// what every later one finds.
pub fn committed_work_survives_every_stay()
    ensures left { (g : Geometry) (stream_bytes : ℕ) (o : Opening) (rs last : List LogRecord) (pages last_pages : LoggedPages) (stays : List StoredStay) →
        MayBeOpened g stream_bytes rs pages → IsOpeningOf rs o → AreStoredStays g stream_bytes o rs pages stays last last_pages → MayBeOpened g stream_bytes last last_pages
        × IsOpeningOf last (opening_after o (spans_of_runs (found_state rs pages) (runs_of [] stays))) }
    ensures runs { (g : Geometry) (stream_bytes : ℕ) (o : Opening) (rs last : List LogRecord) (pages last_pages : LoggedPages) (stays : List StoredStay) →
        MayBeOpened g stream_bytes rs pages → IsOpeningOf rs o → AreStoredStays g stream_bytes o rs pages stays last last_pages →
        (end : RecoveryState) × AreStoredRuns g o (found_state rs pages) (runs_of [] stays) end
        × ((works : List RecoveryEvent) × RestartsTo end works (found_state last last_pages)) }
    ensures life { (g : Geometry) (stream_bytes : ℕ) (o : Opening) (rs last : List LogRecord) (pages last_pages : LoggedPages) (stays : List StoredStay) →
        MayBeOpened g stream_bytes rs pages → IsOpeningOf rs o → AreStoredStays g stream_bytes o rs pages stays last last_pages →
        IsLife o (spans_of_runs (found_state rs pages) (runs_of [] stays)) (opening_after o (spans_of_runs (found_state rs pages) (runs_of [] stays))) }
    ensures shown { (g : Geometry) (stream_bytes : ℕ) (o : Opening) (rs last : List LogRecord) (pages last_pages : LoggedPages) (stays : List StoredStay) →
        MayBeOpened g stream_bytes rs pages → IsOpeningOf rs o → AreStoredStays g stream_bytes o rs pages stays last last_pages →
        RunsShow o (found_state rs pages) (runs_of [] stays) }
    ensures fixed { (g : Geometry) (stream_bytes : ℕ) (o : Opening) (rs last : List LogRecord) (pages last_pages : LoggedPages) (stays : List StoredStay) →
        MayBeOpened g stream_bytes rs pages → IsOpeningOf rs o → AreStoredStays g stream_bytes o rs pages stays last last_pages → AreFixed (lists_found (found_state rs pages) (runs_of [] stays)) last }
{}

/// Stays can be such: over an empty store a manager inserts a record and is not asked to commit, the log is forced, its page is written back, and the
/// power is lost with the record on the volume. The next restart takes it back by records of its own, and the manager behind it shows no record.
pub fn flushed_losers_are_undone()
    ensures { (g : Geometry) (stream_bytes : ℕ) (bytes : List ℕ) → HasStore g 0 → HasPage g first_page → LocksInLimits g → length bytes ≤ record_limit g.version →
        96000 + record_limit g.version ≤ stream_bytes → stream_bytes ≤ MAX_LOG_BYTES →
        (stolen : StoredRun) × (opened : StoredRun) × (pages : LoggedPages)
        × AreStoredStays g stream_bytes (opening_with (slot_limit g.version) empty) [] (λ p. empty_page) (Up stolen ∷ Up opened ∷ []) (taken_back bytes) pages
        × (take stolen.survive stolen.last.store.log ≡ inserted bytes) × ((stolen.pages first_page).slots 0 ≡ Some bytes)
        × ((id : Rid) → get opened.first.sessions.records id ≡ None) }
{}
