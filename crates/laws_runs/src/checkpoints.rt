//! The laws of managers with checkpoints, each stated as the contract of an empty function.
ghost use Rattle.std.specs.Prelude.{◌≡◌, ◌+◌, ◌++◌, ◌≤◌, ◌<◌, ◌↔◌, ℕ, IsTrue, List, [], Some, drop, false, length, take};
ghost use Rattle.std.specs.List.{AllByRecursion};
ghost use Rattle.shore_types.specs.declared.faults.Fault.TheVariants as fault;
ghost use Rattle.shore_types.specs.declared.layout.Geometry.{Geometry};
ghost use Rattle.shore_types.specs.declared.layout.TheConstants.{GREATEST_CHECKPOINT, LAST_LSN, LONGEST_FRAME, MAX_LOG_BYTES};
ghost use Rattle.shore_types.specs.Versions.{slot_limit};
ghost use Rattle.shore_model.specs.declared.calls.Answer.{Answer};
ghost use Rattle.shore_model.specs.declared.calls.Answer.TheVariants as calls;
ghost use Rattle.shore_model.specs.declared.calls.Answer.TheVariants.{Begun, Ended, Moved};
ghost use Rattle.shore_model.specs.declared.histories.Entry.{Entry};
ghost use Rattle.shore_model.specs.declared.histories.Opening.{Opening};
ghost use Rattle.shore_model.specs.declared.log_records.LogRecord.{LogRecord};
ghost use Rattle.shore_model.specs.declared.log_records.Payload.TheVariants as payload;
ghost use Rattle.shore_model.specs.declared.step.Step.{Step};
ghost use Rattle.shore_model.specs.declared.step.Step.TheVariants.{Done, Nothing, Refused};
ghost use Rattle.shore_model.specs.Lives.{IsLife};
ghost use Rattle.shore_logrec.specs.Text.{CheckpointFits};
ghost use Rattle.laws_lives.specs.Doubts.{IsOpeningOf};
ghost use Rattle.laws_lives.specs.Pages.{LoggedPages, empty_page};
ghost use Rattle.laws_lives.specs.Recovery.{RecoveryEvent, RecoveryState};
ghost use Rattle.laws_lives.specs.Restarts.{RestartsTo};
ghost use Rattle.laws_lives.specs.Stretches.{opening_after};
ghost use Rattle.laws_lives.specs.Undo.{HasNoLosers};
ghost use Rattle.laws_calls.specs.StateChanges.{with_failure};
ghost use Rattle.laws_calls.specs.States.{HasRoomFor, State, cost_of_log, log_room, next_number};
ghost use Rattle.laws_calls.specs.WorkedRun.{opened_empty};
ghost use Rattle.laws_checkpoints.specs.Checkpoints.{Anchored, Checkpoint, cut_of, cut_point, end_among, end_payload, not_anchored, of_checkpoint};
ghost use Rattle.laws_checkpoints.specs.CheckpointedStores.{AnchorLogged, BeginLogged, CheckpointedStore, EndLogged, NoCheckpoint, formatted_store};
ghost use Rattle.laws_checkpoints.specs.KeptLogs.{KeepsNoLosers};
ghost use Rattle.laws_checkpoints.specs.KeptRestarts.{KeptLeadTo, KeptStore, seen_behind};
ghost use Rattle.laws_checkpoints.specs.RingRooms.{checkpoint_cost};
ghost use Rattle.laws_checkpoints.specs.StoresInOrder.{IsInOrder, IsLeftByCrash};
ghost use Rattle.laws_runs.specs.CheckpointSteps.{CheckpointMoves, CheckpointedMove, CheckpointedMoves, CheckpointedState, CheckpointedSteps, IsAdmitted, IsCheckpointNow, IsNextAnchor, awaited, entries_of_move, freed_to, log_limit, moved_to, noted, owed_to};
ghost use Rattle.laws_runs.specs.CheckpointedStates.{IsAtCheckpoints, IsOpenedBehind, MayBeAnchored, MayBeOpenedBehind, found_behind};
ghost use Rattle.laws_runs.specs.CheckpointedStays.{AreCheckpointedStays, CheckpointedStay, LosesNoPower, RestartsBehind, StaysShow, logs_found, spans_of_stays};
ghost use Rattle.laws_runs.specs.SoundStores.{IsLost};
ghost use Rattle.laws_runs.specs.WorkedCheckpoints.{two_checkpoints};
ghost use Rattle.laws_runs.specs.StoredRuns.{AreFixed, IsOpenedOver};

/// A manager under way with its checkpoints stays so with each event and with each step of a checkpoint, whatever that comes to: it is under way, its store is
/// in order, and what is reserved and what is owed to the checkpoint have their room.
pub fn managers_stay_at_checkpoints()
    ensures each { (g : Geometry) (ring_bytes : ℕ) (o : Opening) (found : List LogRecord) (es : List Entry) (m new : CheckpointedState) (e : CheckpointedMove) →
        IsAtCheckpoints g ring_bytes o found es m → CheckpointedSteps g m e new → IsAtCheckpoints g ring_bytes o found (es ++ entries_of_move m e new) new }
    ensures moves { (g : Geometry) (ring_bytes : ℕ) (o : Opening) (found : List LogRecord) (es : List Entry) (m last : CheckpointedState) (events : List CheckpointedMove) (made : List Entry) →
        IsAtCheckpoints g ring_bytes o found es m → CheckpointedMoves g m events last made → IsAtCheckpoints g ring_bytes o found (es ++ made) last }
{}

/// A manager that opens over a restart behind an anchor is under way with its checkpoints. The number that it gives next is above all that are in what was found,
/// what is cut off with it, and not below the one that the anchored End names: so no transaction gets a number that one had when that checkpoint began, though all
/// its records are cut off, or it has none.
pub fn managers_open_behind_anchors()
    ensures goes { (g : Geometry) (ring_bytes : ℕ) (a : Anchored) (rs : List LogRecord) (pages : LoggedPages) (o : Opening) (works : List RecoveryEvent) (ready : CheckpointedStore) (first : State) →
        MayBeOpenedBehind g ring_bytes a rs pages → IsOpeningOf rs o → RestartsBehind (found_behind a rs pages) works ready → ready.store.redone ≡ length ready.store.log →
        HasNoLosers ready.store.log → IsOpenedOver o ready.store first → IsOpenedBehind g (log_limit ring_bytes (cut_of a) ready.store.log) a ready.store.log first →
        IsAtCheckpoints g ring_bytes o rs [] record { state = first; store = ready } }
    ensures numbers { (g : Geometry) (ring_bytes : ℕ) (a : Anchored) (rs : List LogRecord) (pages : LoggedPages) (o : Opening) (works : List RecoveryEvent) (ready : CheckpointedStore) (first : State) →
        MayBeOpenedBehind g ring_bytes a rs pages → RestartsBehind (found_behind a rs pages) works ready → IsOpenedOver o ready.store first →
        IsOpenedBehind g (log_limit ring_bytes (cut_of a) ready.store.log) a ready.store.log first →
        AllByRecursion (λ r. r.txn < first.sessions.next_txn) rs × ((c : Checkpoint) → end_among a.checkpoint rs ≡ Some c → c.next ≤ first.sessions.next_txn) }
{}

/// Whenever power is lost over a manager with its checkpoints, what is left may be opened behind the anchor that is left: the one that counts, or the one that
/// a move makes.
pub fn crashes_leave_what_may_be_opened_behind_anchors()
    ensures { (g : Geometry) (ring_bytes : ℕ) (o : Opening) (found : List LogRecord) (es : List Entry) (m : CheckpointedState) (n : ℕ) (left : LoggedPages) (a : Anchored) →
        IsAtCheckpoints g ring_bytes o found es m → IsLost m.store.store n left → MayBeAnchored m.store a → MayBeOpenedBehind g ring_bytes a (take n m.store.store.log) left }
{}

/// Any number of stays of the power in which managers make checkpoints, opens that lose power among them, are a life: each history is sound, each crash keeps
/// what was acknowledged, and the kept decisions make the records of the next opening, which each open shows. What is left may be opened behind its anchor. The
/// log that a restart has found, what is cut off with it, is a prefix of what every later one finds.
pub fn committed_work_survives_checkpoints()
    ensures left { (g : Geometry) (ring_bytes : ℕ) (o : Opening) (a last_anchor : Anchored) (rs last : List LogRecord) (pages last_pages : LoggedPages) (stays : List CheckpointedStay) →
        MayBeOpenedBehind g ring_bytes a rs pages → IsOpeningOf rs o → AreCheckpointedStays g ring_bytes o a rs pages stays last_anchor last last_pages →
        MayBeOpenedBehind g ring_bytes last_anchor last last_pages × IsOpeningOf last (opening_after o (spans_of_stays rs stays)) }
    ensures life { (g : Geometry) (ring_bytes : ℕ) (o : Opening) (a last_anchor : Anchored) (rs last : List LogRecord) (pages last_pages : LoggedPages) (stays : List CheckpointedStay) →
        MayBeOpenedBehind g ring_bytes a rs pages → IsOpeningOf rs o → AreCheckpointedStays g ring_bytes o a rs pages stays last_anchor last last_pages →
        IsLife o (spans_of_stays rs stays) (opening_after o (spans_of_stays rs stays)) }
    ensures shown { (g : Geometry) (ring_bytes : ℕ) (o : Opening) (a last_anchor : Anchored) (rs last : List LogRecord) (pages last_pages : LoggedPages) (stays : List CheckpointedStay) →
        MayBeOpenedBehind g ring_bytes a rs pages → IsOpeningOf rs o → AreCheckpointedStays g ring_bytes o a rs pages stays last_anchor last last_pages → StaysShow o rs stays }
    ensures fixed { (g : Geometry) (ring_bytes : ℕ) (o : Opening) (a last_anchor : Anchored) (rs last : List LogRecord) (pages last_pages : LoggedPages) (stays : List CheckpointedStay) →
        MayBeOpenedBehind g ring_bytes a rs pages → IsOpeningOf rs o → AreCheckpointedStays g ring_bytes o a rs pages stays last_anchor last last_pages → AreFixed (logs_found rs stays) last }
{}

/// A restart that knows the kept records alone is one behind the anchor, over the whole log; and once it has redone all that is kept, and no loser is left there,
/// the whole log is redone and has no loser. So an open may work on what is kept: there is the anchored checkpoint, whose table is right, and redo may begin where
/// that says. A restart of the whole log that loses no power is one behind the anchor, too; and it
/// keeps the store in order.
pub fn kept_records_lead_restarts()
    ensures restarts { (g : Geometry) (ring_bytes : ℕ) (a : Anchored) (rs : List LogRecord) (pages : LoggedPages) (events : List RecoveryEvent) (last : KeptStore) →
        MayBeOpenedBehind g ring_bytes a rs pages → KeptLeadTo (seen_behind (cut_of a) (found_behind a rs pages).store) events last →
        (ready : CheckpointedStore) × RestartsBehind (found_behind a rs pages) events ready × (last ≡ seen_behind (cut_of a) ready.store)
        × (last.redone ≡ last.cut + length last.kept → ready.store.redone ≡ length ready.store.log)
        × (KeepsNoLosers last.cut last.kept → HasNoLosers ready.store.log) }
    ensures whole { (s : CheckpointedStore) (events : List RecoveryEvent) (last : RecoveryState) → RestartsTo s.store events last → AllByRecursion LosesNoPower events →
        (ready : CheckpointedStore) × RestartsBehind s events ready × (ready.store ≡ last) }
    ensures in_order { (s : CheckpointedStore) (events : List RecoveryEvent) (last : CheckpointedStore) → IsInOrder s → RestartsBehind s events last →
        IsInOrder last × RestartsTo s.store events last.store × (last.anchored ≡ s.anchored) }
    ensures left { (g : Geometry) (ring_bytes : ℕ) (a : Anchored) (rs : List LogRecord) (pages : LoggedPages) → MayBeOpenedBehind g ring_bytes a rs pages → IsLeftByCrash a rs pages }
{}

/// By what is kept, and by the ring's own bytes: what is kept and reserved fits with the longest frame, a call is admitted by its sum, and a checkpoint by
/// its two. What a checkpoint that has begun still has to log is never refused for room.
pub fn sums_count_what_is_kept()
    ensures fits { (g : Geometry) (ring_bytes : ℕ) (o : Opening) (found : List LogRecord) (es : List Entry) (m : CheckpointedState) → IsAtCheckpoints g ring_bytes o found es m →
        cost_of_log (drop (cut_of m.store.anchored) m.state.log) + (log_room m.state).reserved + owed_to m.store.stage + LONGEST_FRAME ≤ ring_bytes }
    ensures calls { (g : Geometry) (ring_bytes : ℕ) (o : Opening) (found : List LogRecord) (es : List Entry) (m : CheckpointedState) (need : ℕ) → IsAtCheckpoints g ring_bytes o found es m →
        HasRoomFor m.state need ↔ ((length m.state.log < LAST_LSN)
        × (cost_of_log (drop (cut_of m.store.anchored) m.state.log) + (log_room m.state).reserved + need + LONGEST_FRAME + GREATEST_CHECKPOINT ≤ ring_bytes)) }
    ensures begins { (g : Geometry) (ring_bytes : ℕ) (o : Opening) (found : List LogRecord) (es : List Entry) (m : CheckpointedState) (c : Checkpoint) (kept_from : ℕ) →
        IsAtCheckpoints g ring_bytes o found es m → IsAdmitted m c kept_from ↔ ((length m.state.log < LAST_LSN)
        × (cost_of_log (drop (cut_of m.store.anchored) m.state.log) + (log_room m.state).reserved + checkpoint_cost (length c.txns) (length c.dirty) + LONGEST_FRAME ≤ ring_bytes)
        × (cost_of_log (drop (cut_of m.store.anchored) m.state.log) + (log_room m.state).reserved + checkpoint_cost (length c.txns) (length c.dirty) + LONGEST_FRAME + GREATEST_CHECKPOINT
        ≤ ring_bytes + freed_to m kept_from)) }
{}

/// What a format leaves may be opened behind no anchor; and where nothing is cut off, the log may cost what the stream has.
pub fn formats_may_be_opened_behind_no_anchor()
    ensures opened { (g : Geometry) (ring_bytes : ℕ) → LONGEST_FRAME ≤ ring_bytes → ring_bytes ≤ MAX_LOG_BYTES → MayBeOpenedBehind g ring_bytes not_anchored [] (λ p. empty_page) }
    ensures nothing_cut { (ring_bytes : ℕ) (log : List LogRecord) → log_limit ring_bytes (cut_of not_anchored) log ≡ ring_bytes }
{}

/// The stage settles what a step comes to. A failed manager is refused, one whose next step waits for a force does nothing, and no other does nothing. With no
/// checkpoint under way the step is a begin, then it is the End, the Anchor record and the move, of a later checkpoint than the one that counts; each answer says what is
/// logged, and the End of one that has begun has a text. The log is full for a begin alone, and the device fails in a move alone.
pub fn stages_settle_steps()
    ensures failed { (m new : CheckpointedState) (step : Step) → IsTrue m.state.failed → CheckpointMoves m step new → (step ≡ Refused fault.Failed) × (new ≡ m) }
    ensures waits { (m new : CheckpointedState) (step : Step) → m.state.failed ≡ false → m.store.store.durable ≡ m.state.durable → m.state.durable < awaited m.store.stage →
        CheckpointMoves m step new → (step ≡ Nothing) × (new ≡ m) }
    ensures waits_for_its_end { (m new : CheckpointedState) (step : Step) (c : Checkpoint) (n : ℕ) → m.state.failed ≡ false → m.store.store.durable ≡ m.state.durable →
        m.store.stage ≡ EndLogged c n → m.state.durable < n → CheckpointMoves m step new → (step ≡ Nothing) × (new ≡ m) }
    ensures waits_for_its_anchor_record { (m new : CheckpointedState) (step : Step) (c : Checkpoint) (n : ℕ) → m.state.failed ≡ false → m.store.store.durable ≡ m.state.durable →
        m.store.stage ≡ AnchorLogged c n → m.state.durable < n → CheckpointMoves m step new → (step ≡ Nothing) × (new ≡ m) }
    ensures goes_on { (m new : CheckpointedState) → awaited m.store.stage ≤ m.state.durable → CheckpointMoves m Nothing new → ⊥ }
    ensures begins { (m new : CheckpointedState) (answer : Answer) → m.store.stage ≡ NoCheckpoint → CheckpointMoves m (Done answer) new → (c : Checkpoint)
        × (answer ≡ Begun (next_number m.state)) × (c.begin ≡ next_number m.state) × CheckpointFits c.begin c.next c.txns c.dirty × (new ≡ noted m (of_checkpoint payload.CheckpointBegin) (BeginLogged c)) }
    ensures ends { (m new : CheckpointedState) (answer : Answer) (c : Checkpoint) → m.store.stage ≡ BeginLogged c → CheckpointMoves m (Done answer) new →
        (answer ≡ Ended (next_number m.state)) × (new ≡ noted m (of_checkpoint (end_payload c)) (EndLogged c (next_number m.state))) }
    ensures names { (m new : CheckpointedState) (answer : Answer) (c : Checkpoint) (n : ℕ) → m.store.stage ≡ EndLogged c n → CheckpointMoves m (Done answer) new →
        (answer ≡ calls.Anchored c.begin (cut_point c)) × (new ≡ noted m (of_checkpoint (payload.Anchor c.begin (cut_point c))) (AnchorLogged c (next_number m.state))) }
    ensures moves { (m new : CheckpointedState) (answer : Answer) (c : Checkpoint) (n : ℕ) → m.store.stage ≡ AnchorLogged c n → CheckpointMoves m (Done answer) new →
        (answer ≡ Moved) × (new.store.anchored.checkpoint ≡ c.begin) × (new.store.anchored.tail ≤ cut_point c) × (new ≡ moved_to m new.store.anchored) }
    ensures later { (g : Geometry) (ring_bytes : ℕ) (o : Opening) (found : List LogRecord) (es : List Entry) (m : CheckpointedState) (a : Anchored) →
        IsAtCheckpoints g ring_bytes o found es m → IsNextAnchor m.store a → (m.store.anchored.checkpoint < a.checkpoint) × (m.store.anchored.tail ≤ a.tail) }
    ensures full { (m new : CheckpointedState) → CheckpointMoves m (Refused fault.LogFull) new → (m.store.stage ≡ NoCheckpoint) × (new ≡ m)
        × (c : Checkpoint) × (kept_from : ℕ) × IsCheckpointNow m c kept_from × ¬ IsAdmitted m c kept_from }
    ensures fails { (m new : CheckpointedState) → CheckpointMoves m (Refused fault.Device) new → (a : Anchored) × IsNextAnchor m.store a × (new ≡ record m { state = with_failure m.state }) }
{}

/// What a begin counts on is freed by its cut point, and is durable.
pub fn begins_count_on_what_is_freed()
    ensures freed { (m : CheckpointedState) (c : Checkpoint) (kept_from : ℕ) → IsCheckpointNow m c kept_from → freed_to m kept_from ≤ freed_to m (cut_point c) }
    ensures durable { (m : CheckpointedState) (c : Checkpoint) (kept_from : ℕ) → IsCheckpointNow m c kept_from →
        cost_of_log (take (cut_of m.store.anchored) m.state.log) + freed_to m kept_from ≤ cost_of_log (take m.state.durable m.state.log) }
{}

/// Two checkpoints can be made, one behind the other, over an empty store: the log is cut behind the first, whose records cost 138 bytes, and as much more may
/// be logged.
pub fn checkpoints_free_the_log()
    ensures { (g : Geometry) (stream_bytes : ℕ) → 100000 ≤ stream_bytes →
        (last : CheckpointedState) × CheckpointedMoves g (record { state = opened_empty (slot_limit g.version) stream_bytes; store = formatted_store }) two_checkpoints last []
        × (last.store.anchored ≡ record { checkpoint = 4; tail = 4 }) × (last.state.stream_bytes ≡ stream_bytes + 138) }
{}
