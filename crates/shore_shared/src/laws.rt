//! What the first threads begin with, and what is known whenever the core's lock is free, as laws, each stated as the contract of an empty function.
ghost use Rattle.std.specs.Prelude.{◌≡◌, ◌≤◌, ◌+◌, ◌++◌, ◌∷◌, All, ℕ, List, [], false, length, map};
ghost use Rattle.shore_disk.specs.Device.{may_leave, size};
ghost use Rattle.laws_runs.specs.CheckpointSteps.{CheckpointedMove, CheckpointedState};
ghost use Rattle.shore_gate.specs.Anchor.{Counts};
ghost use Rattle.shore_check.specs.declared.stage.Stage.{Stage};
ghost use Rattle.shore_model.specs.declared.calls.Call.{Call};
ghost use Rattle.shore_model.specs.declared.histories.Entry.{Entry};
ghost use Rattle.shore_model.specs.declared.histories.Opening.{Opening};
ghost use Rattle.shore_model.specs.declared.log_records.LogRecord.{LogRecord};
ghost use Rattle.shore_model.specs.Histories.{IsHistory, Sound};
ghost use Rattle.shore_model.specs.Locks.{Harmony, WellRooted};
ghost use Rattle.shore_model.specs.Logs.{logged_writes};
ghost use Rattle.shore_model.specs.Records.{overlays};
ghost use Rattle.shore_model.specs.Requests.{HasNoCycle, held_by_all};
ghost use Rattle.laws_lives.specs.Sessions.{txns_of};
ghost use Rattle.laws_lives.specs.Soundness.{history_from, serial_after};
ghost use Rattle.laws_checkpoints.specs.Checkpoints.{Anchored};
ghost use Rattle.shore_core.specs.declared.core_calls.Core.{Core};
ghost use Rattle.shore_core.specs.Cores.{durable_of, geometry_of, history_of, locks_of, waiting_of};
ghost use Rattle.shore_world.specs.declared.world.World.{World};
ghost use Rattle.shore_world.specs.EventMoves.{PlainMove, moves_among};
ghost use Rattle.shore_world.specs.Managers.{LeadsToMoment, Threads};
ghost use Rattle.shore_world.specs.Worlds.{IsUnchanged, anchor_in, anchors_in, failed_in, geometry_in, history_in};
ghost use Rattle.shore_held.specs.Logs.{LeavesByMove, LeavesHeld, LogState};
ghost use Rattle.shore_held.specs.Moments.{AreAtOnce, IsMakingStep};
ghost use Rattle.shore_shared.specs.HandedBack.{AreHandedBack};
ghost use Rattle.shore_shared.specs.Lives.{HasEnded, StandAll};
ghost use Rattle.shore_held.specs.Trails.{moves_of};
ghost use Rattle.shore_world.specs.Promises.{IsManagerOf};
ghost use Rattle.shore_held.specs.Comings.{Beginning, HasAim, HasComeBy, IsAimOf};
ghost use Rattle.shore_world.specs.Legs.{IsUpIn, ThreadsLead};
ghost use Rattle.shore_held.specs.Worlds.{begins_with};
ghost use Rattle.shore_held.specs.declared.asked.Asked.{Asked};
ghost use Rattle.shore_model.specs.declared.step.Step.{Step};

use shore_disk::Disk;
use shore_log::Tail;

/// A world that is a manager is up: an open makes one (`opened_worlds_are_managers` of shore_world), and so does each run of one (`runs_are_histories`). So threads may begin behind events, too.
pub fn managers_are_up<L: Disk, V: Disk>()
    ensures { (w : World L V L.Disk V.Disk) (o : Opening) (es : List Entry) (ws : List (ℕ × Call)) → (k : IsManagerOf w o es ws) → IsUpIn w o k.found es }
{}

/// What the core has come by whenever its lock is free (`CoreHeld`, `come_by`) is a manager's. What its sessions asked together and were answered, behind the entries from before the
/// threads, is a sound history. No lock that is held conflicts with another along any path, each has its intentions, and no cycle of waits stands. The records in
/// place are those that the history says, with what each transaction under way has logged last over them.
pub fn what_is_held_is_a_manager<T: Tail, V: Disk>()
    ensures history { (start : Beginning) (cut : ℕ) (kept : List LogRecord) (core : Core T V T.Tail V.Disk) (stage : Stage) (anchored : Anchored) (trail : List PlainMove) →
        (h : HasComeBy start cut kept core stage anchored trail) → IsHistory (history_from start.opening (start.earlier ++ h.made)) × Sound (history_from start.opening (start.earlier ++ h.made)) }
    ensures locks { (start : Beginning) (cut : ℕ) (kept : List LogRecord) (core : Core T V T.Tail V.Disk) (stage : Stage) (anchored : Anchored) (trail : List PlainMove) →
        HasComeBy start cut kept core stage anchored trail → Harmony (held_by_all (locks_of core).requests) × WellRooted (held_by_all (locks_of core).requests) × HasNoCycle (locks_of core).requests }
    ensures records { (start : Beginning) (cut : ℕ) (kept : List LogRecord) (core : Core T V T.Tail V.Disk) (stage : Stage) (anchored : Anchored) (trail : List PlainMove) →
        (h : HasComeBy start cut kept core stage anchored trail) → h.last.state.sessions.records
        ≡ overlays (serial_after start.opening (start.earlier ++ h.made)) (map (logged_writes h.last.state.log) (txns_of h.last.state.sessions.active)) }
{}

/// So a core that has come by its trail from the state at which its world was handed over, in the midst of a step, and a log device in the midst of a force, are a manager in threads as the theorem of
/// shore_world has it, from that state on.
pub fn what_is_held_leads_to_a_moment<T: Tail, L: Disk, V: Disk>()
    ensures { (t : Threads L V L.Disk V.Disk) (start : Beginning) (cut : ℕ) (kept : List LogRecord) (old later : Core T V T.Tail V.Disk) (stage : Stage) (anchored : Anchored) (trail : List PlainMove)
        (h : HasComeBy start cut kept old stage anchored trail) (plain : CheckpointedMove) (last : CheckpointedState) (held : LogState) →
        geometry_in t.handed ≡ h.geometry → t.trail ≡ trail → moves_among (plain ∷ []) ≡ t.step → t.stable ≡ held.cut + length held.stable → All (λ n. n ≤ held.cut + length held.stable) t.seen →
        IsMakingStep h later plain last → AreAtOnce cut kept (waiting_of later) (durable_of old) anchored held → (HasAim held.aim → IsAimOf stage (durable_of old) held.aim) → LeavesHeld h.geometry (size (history_in t.handed)) held t.log_later →
        t.log_now ≡ held.history → t.volume_now ≡ history_of old → t.volume_later ≡ history_of later → LeadsToMoment t h.front start.first }
{}

/// .. and at each moment but those amid a move of the anchor they are one, from each state that the world was at as it was handed over. What is asked of the values is what each lock keeps (`come_by` and `aims` of the core's; `any_moment` or `left` of the log
/// device's), what the call of the core does that is under way (`calls_are_steps_under_way` of shore_held), and what holds of both at each moment (`values_meet_at_each_moment`).
pub fn moments_are_stays<T: Tail, L: Disk, V: Disk>()
    ensures { (t : Threads L V L.Disk V.Disk) (cut : ℕ) (kept : List LogRecord) (old later : Core T V T.Tail V.Disk) (stage : Stage) (anchored : Anchored) (held : LogState) →
        ((o : Opening) (found : List LogRecord) (es : List Entry) (up : IsUpIn t.handed o found es) → ∥ ((h : HasComeBy (begins_with up) cut kept old stage anchored t.trail) × (plain : CheckpointedMove)
        × (last : CheckpointedState) × IsMakingStep h later plain last × (moves_among (plain ∷ []) ≡ t.step)) ∥₁) →
        ((o : Opening) (found : List LogRecord) (es : List Entry) → IsUpIn t.handed o found es → ∥ LeavesHeld (geometry_in t.handed) (size (history_in t.handed)) held t.log_later ∥₁) →
        (HasAim held.aim → ∥ IsAimOf stage (durable_of old) held.aim ∥₁) → geometry_of old ≡ geometry_in t.handed → AreAtOnce cut kept (waiting_of later) (durable_of old) anchored held → t.stable ≡ held.cut + length held.stable →
        All (λ n. n ≤ held.cut + length held.stable) t.seen → t.log_now ≡ held.history → t.volume_now ≡ history_of old → t.volume_later ≡ history_of later →
        (o : Opening) (found : List LogRecord) (es : List Entry) (up : IsUpIn t.handed o found es) → ∥ LeadsToMoment t up.front up.last ∥₁ }
{}

/// Devices that were handed back are those of a manager in threads at a moment at which nothing is under way: what a loss of power leaves of them is what one leaves then.
pub fn devices_handed_back_are_stays<L: Disk, V: Disk>()
    ensures { (t : Threads L V L.Disk V.Disk) (asked : List (Asked × ℕ)) (stepped : List (Step × ℕ)) →
        ((o : Opening) (found : List LogRecord) (es : List Entry) (up : IsUpIn t.handed o found es) →
        ∥ AreHandedBack (begins_with up) asked stepped (geometry_in t.handed) (size (history_in t.handed)) t.stable t.seen t.log_now t.volume_now ∥₁) →
        t.trail ≡ moves_of asked stepped → t.step ≡ [] → t.log_later ≡ t.log_now → t.volume_later ≡ t.volume_now →
        (o : Opening) (found : List LogRecord) (es : List Entry) (up : IsUpIn t.handed o found es) → ∥ LeadsToMoment t up.front up.last ∥₁ }
{}

/// .. and amid a move of the anchor, which is made with both locks, while the core makes no step: from each state that the world was at. What is asked of the values is what `checkpoint` says of its last step (`any_moment`):
/// the move is to where the core's own checkpoint has come, and the Anchor record of that is durable.
pub fn moves_of_the_anchor_are_stays<T: Tail, L: Disk, V: Disk>()
    ensures { (t : Threads L V L.Disk V.Disk) (cut : ℕ) (kept : List LogRecord) (core : Core T V T.Tail V.Disk) (stage : Stage) (anchored : Anchored) (held : LogState) (aim : ℕ × ℕ) →
        ((o : Opening) (found : List LogRecord) (es : List Entry) (up : IsUpIn t.handed o found es) → ∥ HasComeBy (begins_with up) cut kept core stage anchored t.trail ∥₁) →
        ((o : Opening) (found : List LogRecord) (es : List Entry) → IsUpIn t.handed o found es →
        ∥ LeavesByMove (geometry_in t.handed) (size (history_in t.handed)) held.anchors held.stable aim held.history t.log_later ∥₁) →
        geometry_of core ≡ geometry_in t.handed → t.step ≡ [] → AreAtOnce cut kept (waiting_of core) (durable_of core) anchored held → IsAimOf stage (durable_of core) aim →
        t.stable ≡ held.cut + length held.stable → All (λ n. n ≤ held.cut + length held.stable) t.seen → t.log_now ≡ held.history → t.volume_now ≡ history_of core → t.volume_later ≡ history_of core →
        (o : Opening) (found : List LogRecord) (es : List Entry) (up : IsUpIn t.handed o found es) → ∥ LeadsToMoment t up.front up.last ∥₁ }
{}

/// A world behind its threads is up again: that very manager, gone on by the entries of its threads.
pub fn worlds_behind_threads_are_up<L: Disk, V: Disk>()
    ensures { (start : Beginning) (cut : ℕ) (kept : List LogRecord) (asked : List (Asked × ℕ)) (stepped : List (Step × ℕ)) (w : World L V L.Disk V.Disk) (ended : HasEnded start cut kept asked stepped w) →
        IsUpIn w start.opening start.found (start.earlier ++ ended.come_by.made) }
{}

/// Behind threads whatever pair of images a loss of power leaves stands for a prefix of the log with all that is durable, behind the anchor that counts in it: the world's own, or the next one, once a move of it has failed.
pub fn worlds_behind_threads_stand<L: Disk, V: Disk>()
    ensures { (start : Beginning) (cut : ℕ) (kept : List LogRecord) (asked : List (Asked × ℕ)) (stepped : List (Step × ℕ)) (w : World L V L.Disk V.Disk) (ended : HasEnded start cut kept asked stepped w) → StandAll w ended.come_by.last }
{}

/// As long as no device has failed the world's own anchor counts in each image that a loss of power leaves of its log device, behind threads as before them.
pub fn anchors_count_while_nothing_fails<L: Disk, V: Disk>()
    ensures { (start : Beginning) (cut : ℕ) (kept : List LogRecord) (asked : List (Asked × ℕ)) (stepped : List (Step × ℕ)) (w : World L V L.Disk V.Disk) → HasEnded start cut kept asked stepped w → failed_in w ≡ false →
        (image : List ℕ) → may_leave (history_in w) image → Counts image (anchors_in w).slot (anchor_in w) }
{}

/// A world that `serve` gives back where it was refused before its threads (`IsUnchanged`) is the very manager that it was, at the same state, with its history and its waits (`manager`); it is up if it was (`up`); and it is a
/// leg of threads of which nobody asked anything (`leg`). So its promises hold, and its life goes on.
pub fn refused_serves_leave_the_manager<L: Disk, V: Disk>()
    ensures manager { (old w : World L V L.Disk V.Disk) (o : Opening) (es : List Entry) (ws : List (ℕ × Call)) (k : IsManagerOf old o es ws) → IsUnchanged old w → (on : IsManagerOf w o es ws) × (on.now ≡ k.now) }
    ensures up { (old w : World L V L.Disk V.Disk) (o : Opening) (found : List LogRecord) (es : List Entry) (up : IsUpIn old o found es) → IsUnchanged old w → (on : IsUpIn w o found es) × (on.last ≡ up.last) }
    ensures leg { (old w : World L V L.Disk V.Disk) → IsUnchanged old w → ThreadsLead old [] w }
{}
