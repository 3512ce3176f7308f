//! What is promised of a world without a loss of power, event by event, in the words of a history, its records and its locks. Each law is stated as the
//! contract of an empty function. `IsManagerOf` has all that is hidden: an open makes such a world (`committed_work_survives_every_crash`), and each run
//! of one makes another (`runs_are_histories`).
ghost use Rattle.std.specs.Prelude.{◌≡◌, ◌≢◌, ◌↔◌, ◌⊎◌, ◌<◌, ◌++◌, ℕ, List, [], All, IsTrue, false, length};
ghost use Rattle.shore_types.specs.declared.faults.Fault.TheVariants as fault;
ghost use Rattle.shore_model.specs.Calls.{IsServed};
ghost use Rattle.shore_model.specs.Histories.{IsHistory, Sound, decisions, free};
ghost use Rattle.shore_model.specs.declared.calls.Call.{Call};
ghost use Rattle.shore_model.specs.declared.histories.Entry.{Entry};
ghost use Rattle.shore_model.specs.declared.histories.Opening.{Opening};
ghost use Rattle.shore_model.specs.declared.step.Step.TheVariants.{Nothing, Refused};
ghost use Rattle.shore_model.specs.declared.step.Step.{Step};
ghost use Rattle.shore_locks.specs.Tables.{is_waiting};
ghost use Rattle.laws_lives.specs.LogPrefixes.{decisions_in};
ghost use Rattle.laws_lives.specs.Sessions.{SessionTxn};
ghost use Rattle.laws_lives.specs.Soundness.{history_from};
ghost use Rattle.laws_calls.specs.StateChanges.{answered};
ghost use Rattle.laws_calls.specs.States.{DoesNotWait, IsOfSession};
ghost use Rattle.shore_world.specs.declared.event.Event.TheVariants as event;
ghost use Rattle.shore_world.specs.declared.event.Event.{Event};
ghost use Rattle.shore_world.specs.declared.world.World.{World};
ghost use Rattle.shore_world.specs.Events.{IsOfForce, IsServedEvent};
ghost use Rattle.shore_world.specs.EventMoves.{PlainMove};
ghost use Rattle.shore_world.specs.Exchanges.{tellings_in, tellings_of, waited_after};
ghost use Rattle.laws_runs.specs.CheckpointSteps.{CheckpointMoves};
ghost use Rattle.shore_check.specs.declared.stage.Stage.TheVariants as stage;
ghost use Rattle.shore_world.specs.Promises.{ChecksIfAny, FlushesIfAny, GoesOnAs, HasFailedStep, IsManagerOf, IsRefusedStep, IsStateOf, OpensIfAny, StagesIfAny, gained};
ghost use Rattle.shore_world.specs.Worlds.{IsFullIn, IsRoomyIn, IsUnchanged, Runs, Steps, failed_in, requests_in};

mod calls;
mod devices;
mod locks;

pub use calls::{
    decisions_come_by_the_calls_that_ask_for_them, interrupted_rollbacks_end_alike,
    interrupted_rollbacks_keep_their_steps, prepares_list_what_is_held, refusals_are_earned,
    refused_calls_change_locks_and_victims_alone, resolves_are_never_refused_for_room,
    those_in_doubt_are_listed, tickets_are_true, undo_is_never_refused,
};
pub use devices::{
    checkpoints_change_nothing_shown, logs_go_on, records_are_in_place, the_log_tells_what_is_shown,
};
pub use locks::{
    answered_calls_have_locks, cycles_that_are_told_stood, locks_are_in_harmony,
    locks_change_only_as_asked, locks_go_with_decisions, readers_are_not_kept_alone,
    waits_are_true,
};
use shore_disk::Disk;

/// A run goes on with the history of its manager: what it adds are the calls of its events with the very answers and refusals of their steps, and the tickets that were
/// asked for with what was said of them, in their order.
pub fn runs_are_histories<L: Disk, V: Disk>()
    ensures { (w new : World L V L.Disk V.Disk) (o : Opening) (es : List Entry) (ws : List (ℕ × Call)) (events : List Event) (steps : List Step) (moves : List PlainMove) →
        IsManagerOf w o es ws → All IsServedEvent events → Runs w events steps moves new →
        (made : List Entry) × IsManagerOf new o (es ++ made) (waited_after ws events steps) × (tellings_in made ≡ tellings_of ws events steps) }
{}

/// Sound history: what was called and answered is a history, and each transaction that has committed or prepared was answered as it might have been alone, on the
/// serial records before its turn. Its decisions are those of the records that the log has gained since the open, in their order: commits, prepares, and rollbacks
/// of prepared ones.
pub fn histories_are_sound<L: Disk, V: Disk>()
    ensures sound { (w : World L V L.Disk V.Disk) (o : Opening) (es : List Entry) (ws : List (ℕ × Call)) → IsManagerOf w o es ws →
        IsHistory (history_from o es) × Sound (history_from o es) }
    ensures decided { (w : World L V L.Disk V.Disk) (o : Opening) (es : List Entry) (ws : List (ℕ × Call)) → (k : IsManagerOf w o es ws) →
        decisions es ≡ decisions_in (length k.found) k.now.state.log }
{}

/// Steps do their work, unless a device has failed or, but for a force, a flush and a checkpoint that has begun, memory is short. A `ForceStage` stages the longest list of the records not yet durable that one frame holds, and
/// nothing if there is none of them or a frame is under way. A `ForceOpen` makes durable just the frame that is under way, up to its last record, and nothing if
/// none is. A step of the flush writes back as many pages as it answers, the first of the volume that are due, and nothing if none is. A step of a checkpoint makes the next of its
/// four, and nothing exactly if the number that this needs is not durable; it is LogFull at the begin alone, just if a checkpoint as it would be now has no room, though all frames are counted as free that end before its cut point. A resume has nothing to do if no
/// call of its session waits, and only then; a wait cannot be taken back just where no request of the session's transaction waits, or after a failure; a call always comes to something. Whatever comes to nothing has changed nothing: the world is a manager of the
/// same state, no call of a device was made, and each page is in its frame.
pub fn steps_do_their_work<L: Disk, V: Disk>()
    ensures stage { (w new : World L V L.Disk V.Disk) (o : Opening) (es : List Entry) (ws : List (ℕ × Call)) (step : Step) →
        IsManagerOf w o es ws → Steps w event.ForceStage step new → HasFailedStep w step ⊎ StagesIfAny w step new }
    ensures opens { (w new : World L V L.Disk V.Disk) (o : Opening) (es : List Entry) (ws : List (ℕ × Call)) (step : Step) →
        IsManagerOf w o es ws → Steps w event.ForceOpen step new → HasFailedStep w step ⊎ OpensIfAny w step new }
    ensures flush { (w new : World L V L.Disk V.Disk) (o : Opening) (es : List Entry) (ws : List (ℕ × Call)) (step : Step) →
        IsManagerOf w o es ws → Steps w event.FlushStep step new → HasFailedStep w step ⊎ FlushesIfAny w step new }
    ensures checkpoint { (w new : World L V L.Disk V.Disk) (o : Opening) (es : List Entry) (ws : List (ℕ × Call)) (step : Step) →
        (k : IsManagerOf w o es ws) → Steps w event.CheckpointStep step new →
        IsRefusedStep w step ⊎ ((w.stage ≡ stage.Resting) × (step ≡ Refused fault.LogFull) × IsFullIn w k.now)
        ⊎ (ChecksIfAny w step new × (w.stage ≡ stage.Resting → IsRoomyIn w k.now)) }
    ensures begun_checkpoints_take_no_memory { (w new : World L V L.Disk V.Disk) (step : Step) → Steps w event.CheckpointStep step new → w.stage ≢ stage.Resting → step ≢ Refused fault.Memory }
    ensures forces_take_no_memory { (w new : World L V L.Disk V.Disk) (e : Event) (step : Step) → Steps w e step new → IsOfForce e → step ≢ Refused fault.Memory }
    ensures flushes_take_no_memory { (w new : World L V L.Disk V.Disk) (step : Step) → Steps w event.FlushStep step new → step ≢ Refused fault.Memory }
    ensures as_plain { (w new : World L V L.Disk V.Disk) (o : Opening) (es : List Entry) (ws : List (ℕ × Call)) (step : Step) →
        (k : IsManagerOf w o es ws) → Steps w event.CheckpointStep step new →
        (on : GoesOnAs new o es ws event.CheckpointStep step) × (on.made ≡ []) × CheckpointMoves k.now step on.manager.now }
    ensures resume { (w new : World L V L.Disk V.Disk) (o : Opening) (es : List Entry) (ws : List (ℕ × Call)) (session : ℕ) (step : Step) →
        (k : IsManagerOf w o es ws) → Steps w (event.Resume session) step new → (step ≡ Nothing) ↔ DoesNotWait k.now.state session }
    ensures give_up { (w new : World L V L.Disk V.Disk) (o : Opening) (es : List Entry) (ws : List (ℕ × Call)) (session : ℕ) (step : Step) →
        (k : IsManagerOf w o es ws) → Steps w (event.GiveUp session) step new →
        (step ≡ Nothing) ↔ (IsTrue (failed_in w) ⊎ ((a : SessionTxn) → IsOfSession k.now.state session a → is_waiting a.txn (requests_in w) ≡ false)) }
    ensures call { (w new : World L V L.Disk V.Disk) (o : Opening) (es : List Entry) (ws : List (ℕ × Call)) (session : ℕ) (c : Call) →
        IsManagerOf w o es ws → IsServed c → Steps w (event.Call session c) Nothing new → ⊥ }
    ensures unchanged { (w new : World L V L.Disk V.Disk) (o : Opening) (es : List Entry) (ws : List (ℕ × Call)) (e : Event) →
        (k : IsManagerOf w o es ws) → IsServedEvent e → Steps w e Nothing new → IsUnchanged w new × ((on : IsManagerOf new o es ws) × (on.now ≡ k.now)) }
{}

/// What can be seen of the state of a manager, of which the promises speak: its lock requests, what is kept of its log, what of it is durable, whether a device has failed, and
/// what dumps show.
pub fn states_are_seen<L: Disk, V: Disk>()
    ensures { (w : World L V L.Disk V.Disk) (o : Opening) (es : List Entry) (ws : List (ℕ × Call)) → (k : IsManagerOf w o es ws) → IsStateOf w k.now.state }
{}
