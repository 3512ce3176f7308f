//! What a loss of power leaves of both devices at any moment, while each lies under a lock of its own and is perhaps in the midst of a call: laws, each stated as the contract of an empty function.
ghost use Rattle.std.specs.Prelude.{◌≡◌, ◌⊎◌, ◌≤◌, ◌+◌, ◌-◌, ◌∷◌, ◌++◌, All, List, [], ℕ, IsTrue, length, take, true};
ghost use Rattle.shore_types.specs.declared.layout.TheConstants.{LOG_FRONT_BYTES};
ghost use Rattle.shore_check.specs.declared.stage.Stage.{Stage};
ghost use Rattle.shore_gate.specs.declared.anchors.Anchor.{Anchor};
ghost use Rattle.shore_disk.specs.Device.{DeviceHistory, left_since, may_leave, moment};
ghost use Rattle.shore_fronts.specs.Volumes.{volume_bytes};
ghost use Rattle.shore_log.specs.Settled.{stable};
ghost use Rattle.shore_model.specs.Calls.{IsServed};
ghost use Rattle.shore_model.specs.declared.calls.Call.{Call};
ghost use Rattle.shore_model.specs.declared.log_records.LogRecord.{LogRecord};
ghost use Rattle.shore_model.specs.declared.step.Step.{Step};
ghost use Rattle.laws_calls.specs.Events.{Called, GaveUp, HasFailed, Resumed};
ghost use Rattle.laws_checkpoints.specs.Checkpoints.{Anchored};
ghost use Rattle.laws_images.specs.StandsBehind.{StandsForBehind, anchored_by};
ghost use Rattle.laws_lives.specs.Pages.{LoggedPages};
ghost use Rattle.laws_runs.specs.CheckpointSteps.{CheckpointedMove, CheckpointedState, Goes, entries_of_move};
ghost use Rattle.laws_runs.specs.CheckpointedStates.{MayBeAnchored};
ghost use Rattle.laws_runs.specs.SoundStores.{IsLost};
ghost use Rattle.laws_runs.specs.StoredRuns.{Tend};
ghost use Rattle.laws_threads.specs.Amid.{RunsOn, entries_of_asks};
ghost use Rattle.shore_core.specs.declared.core_calls.Core.{Core};
ghost use Rattle.shore_txn.specs.Transactions.{room_in};
ghost use Rattle.shore_core.specs.Cores.{durable_of, geometry_of, has_failed, heap_of, history_of, txns_of, waiting_of};
ghost use Rattle.shore_core.specs.Flushing.{FlushSteps};
ghost use Rattle.shore_core.specs.Replies.{InEach, MayLeave, Stepped};
ghost use Rattle.shore_core.specs.Replies as replies;
ghost use Rattle.shore_world.specs.EventMoves.{OfManager, PlainMove, moves_among};
ghost use mathlib.Core.Option.{some};
ghost use lib.ListN.{get_elem?};
ghost use Rattle.atomic_table.specs.Table.{State};
ghost use Rattle.shore_words.specs.Words.{IsTold};
ghost use Rattle.shore_words.specs.declared.rule.View.{View};
ghost use Rattle.shore_log.specs.declared.tail.PlainTail.{PlainTail};
ghost use Rattle.shore_queue.specs.Queues.{Relays};
ghost use Rattle.shore_queue.specs.declared.queue.Ends.{Ends};
ghost use Rattle.shore_held.specs.Comings.{Beginning, HasAim, HasComeBy, IsAimOf, anchored_at};
ghost use Rattle.shore_held.specs.Logs.{Follows, LeavesByMove, LeavesHeld, LogState, known_in};
ghost use Rattle.shore_held.specs.Moments.{AreAtOnce, IsMakingStep};

use shore_disk::Disk;
use shore_log::Tail;

/// Power is lost at any moment: the core may be in the midst of a step, and the log device of a force. Whatever pair of images is left, each device by itself, it stands, behind the anchor that counts
/// in it (the next one only if a move of it has failed), for a prefix of the log with all that the log device knew to be forced, and so with all that any session has seen to be durable. That is a loss of power behind moves of the manager over plain
/// data. What is asked of each device is what its lock says (`call`, `resume`, `flush` and `force`, or `has_failed` where no call of it is under way); of both together no more is asked than what holds at each moment by
/// the rules of the queue and of the words.
pub fn pairs_stand_at_each_moment<T: Tail, V: Disk>()
    ensures { (start : Beginning) (cut : ℕ) (kept : List LogRecord) (old later : Core T V T.Tail V.Disk) (stage : Stage) (anchored : Anchored) (trail : List PlainMove) (h : HasComeBy start cut kept old stage anchored trail)
        (plain : CheckpointedMove) (last : CheckpointedState) (held : LogState) (log_later : DeviceHistory) (log_bytes : ℕ) (seen : List ℕ) (log_left volume_left : List ℕ) →
        h.ring_bytes ≡ log_bytes - LOG_FRONT_BYTES → IsMakingStep h later plain last → AreAtOnce cut kept (waiting_of later) (durable_of old) anchored held →
        All (λ n. n ≤ held.cut + length held.stable) seen → (HasAim held.aim → IsAimOf stage (durable_of old) held.aim) → LeavesHeld h.geometry log_bytes held log_later →
        left_since log_later (moment held.history) log_left → left_since (history_of later) (moment (history_of old)) volume_left →
        (anchor : Anchor) × ((anchor ≡ held.anchors.anchor) ⊎ HasAim held.aim) × (moves : List CheckpointedMove) × (end : CheckpointedState)
        × RunsOn h.geometry h.last plain (held.cut + length held.stable) seen moves end (entries_of_move h.last plain last ++ entries_of_asks seen)
        × MayBeAnchored end.store (anchored_by anchor)
        × ((n : ℕ) × (left : LoggedPages) × (held.cut + length held.stable ≤ n) × IsLost end.store.store n left
        × StandsForBehind h.geometry log_bytes (volume_bytes h.geometry) anchor (take n end.store.store.log) left log_left volume_left) }
{}

/// So it does amid a move of the anchor, which is made with both locks, while the core makes no step: to where its checkpoint has come (`checkpoint`, `any_moment`).
pub fn pairs_stand_amid_a_move<T: Tail, V: Disk>()
    ensures { (start : Beginning) (cut : ℕ) (kept : List LogRecord) (core : Core T V T.Tail V.Disk) (stage : Stage) (anchored : Anchored) (trail : List PlainMove) (h : HasComeBy start cut kept core stage anchored trail)
        (held : LogState) (aim : ℕ × ℕ) (log_later : DeviceHistory) (log_bytes : ℕ) (seen : List ℕ) (log_left volume_left : List ℕ) →
        h.ring_bytes ≡ log_bytes - LOG_FRONT_BYTES → AreAtOnce cut kept (waiting_of core) (durable_of core) anchored held →
        All (λ n. n ≤ held.cut + length held.stable) seen → IsAimOf stage (durable_of core) aim → LeavesByMove h.geometry log_bytes held.anchors held.stable aim held.history log_later →
        left_since log_later (moment held.history) log_left → may_leave (history_of core) volume_left →
        (anchor : Anchor) × (moves : List CheckpointedMove) × (end : CheckpointedState)
        × RunsOn h.geometry h.last (Goes (Tend [])) (held.cut + length held.stable) seen moves end (entries_of_asks seen)
        × MayBeAnchored end.store (anchored_by anchor)
        × ((n : ℕ) × (left : LoggedPages) × (held.cut + length held.stable ≤ n) × IsLost end.store.store n left
        × StandsForBehind h.geometry log_bytes (volume_bytes h.geometry) anchor (take n end.store.store.log) left log_left volume_left) }
{}

/// What the contracts of the core's calls say is such a step: of a call (`call`), of a resume (`resume`), of a wait that is taken back (`give_up`), of a step of the flush, which is work between two events or notes that the volume has failed
/// (`flush`), and of a core that makes none (`none`).
pub fn calls_are_steps_under_way<T: Tail, V: Disk>()
    ensures none { (start : Beginning) (cut : ℕ) (kept : List LogRecord) (old : Core T V T.Tail V.Disk) (stage : Stage) (anchored : Anchored) (trail : List PlainMove) (h : HasComeBy start cut kept old stage anchored trail) →
        IsMakingStep h old (Goes (Tend [])) h.last }
    ensures call { (start : Beginning) (cut : ℕ) (kept : List LogRecord) (old new : Core T V T.Tail V.Disk) (stage : Stage) (anchored : Anchored) (trail : List PlainMove) (h : HasComeBy start cut kept old stage anchored trail)
        (session : ℕ) (c : Call) (step : Step) → IsServed c → InEach (λ front disk before s store. Stepped session c step old new front before s store) old → MayLeave old new →
        durable_of new ≡ durable_of old → (IsTrue (has_failed old) → heap_of new ≡ heap_of old) → geometry_of new ≡ geometry_of old →
        (plain : CheckpointedMove) × (last : CheckpointedState) × IsMakingStep h new plain last × (moves_among (plain ∷ []) ≡ OfManager (Called session c step) ∷ []) }
    ensures resume { (start : Beginning) (cut : ℕ) (kept : List LogRecord) (old new : Core T V T.Tail V.Disk) (stage : Stage) (anchored : Anchored) (trail : List PlainMove) (h : HasComeBy start cut kept old stage anchored trail)
        (session : ℕ) (step : Step) → InEach (λ front disk before s store. replies.Resumed session step old new front before s store) old → MayLeave old new →
        durable_of new ≡ durable_of old → (IsTrue (has_failed old) → heap_of new ≡ heap_of old) → geometry_of new ≡ geometry_of old →
        (plain : CheckpointedMove) × (last : CheckpointedState) × IsMakingStep h new plain last × (moves_among (plain ∷ []) ≡ OfManager (Resumed session step) ∷ []) }
    ensures give_up { (start : Beginning) (cut : ℕ) (kept : List LogRecord) (old new : Core T V T.Tail V.Disk) (stage : Stage) (anchored : Anchored) (trail : List PlainMove) (h : HasComeBy start cut kept old stage anchored trail)
        (session : ℕ) (step : Step) → InEach (λ front disk before s store. replies.GaveUp session step old new front before s store) old → MayLeave old new →
        durable_of new ≡ durable_of old → (IsTrue (has_failed old) → heap_of new ≡ heap_of old) → geometry_of new ≡ geometry_of old →
        (plain : CheckpointedMove) × (last : CheckpointedState) × IsMakingStep h new plain last × (moves_among (plain ∷ []) ≡ OfManager (GaveUp session step) ∷ []) }
    ensures flush { (start : Beginning) (cut : ℕ) (kept : List LogRecord) (old new : Core T V T.Tail V.Disk) (stage : Stage) (anchored : Anchored) (trail : List PlainMove) (h : HasComeBy start cut kept old stage anchored trail)
        (step : Step) → InEach (λ front disk before s store. FlushSteps step new front before s store) old → MayLeave old new → durable_of new ≡ durable_of old → (IsTrue (has_failed old) → heap_of new ≡ heap_of old) →
        geometry_of new ≡ geometry_of old → (room_in (txns_of new)).stream_bytes ≡ (room_in (txns_of old)).stream_bytes →
        (plain : CheckpointedMove) × (last : CheckpointedState) × IsMakingStep h new plain last
        × ((moves_among (plain ∷ []) ≡ []) ⊎ (moves_among (plain ∷ []) ≡ OfManager HasFailed ∷ [])) }
{}

/// .. and that is so at each moment, by the rules alone: whatever state words and queue are in, with the views that the four ends have then. What the core's end has sent is the first of what it has sent behind
/// the step that it is in; all else is what each value keeps of its own. No session has seen more than is forced.
pub fn values_meet_at_each_moment<T: Tail, V: Disk>()
    ensures { (words : State ℕ View) (teller keeper : ℕ) (t k : View) (first : ℕ) (items : List PlainTail) (passes : List Ends) (sender receiver : ℕ) (v w : Ends) (cut : ℕ) (kept : List LogRecord)
        (old later : Core T V T.Tail V.Disk) (anchored : Anchored) (held : LogState) (more : List LogRecord) →
        IsTold words → get_elem? words.views teller ≡ some t → get_elem? words.views keeper ≡ some k → t.tells ≡ true → k.keeps ≡ true →
        Relays first items passes → get_elem? passes sender ≡ some v → get_elem? passes receiver ≡ some w → v.sends ≡ true → w.receives ≡ true →
        waiting_of later ≡ v.sent ++ more → durable_of old ≤ k.seen → anchored ≡ anchored_at k.kept →
        Follows cut kept w.got held.cut held.list → held.anchors.anchor.tail ≡ held.cut + 1 → held.stable ≡ take (length held.stable) held.list →
        t.told ≤ held.cut + length held.stable → t.anchor ≡ known_in held →
        AreAtOnce cut kept (waiting_of later) (durable_of old) anchored held
        × ((seat : ℕ) (s : View) → get_elem? words.views seat ≡ some s → s.seen ≤ held.cut + length held.stable) }
{}
