//! What is promised of pages and of the log.
ghost use Rattle.std.specs.List.{AllByRecursion};
ghost use Rattle.std.specs.Prelude.{◌≡◌, ◌⊎◌, ◌<◌, ◌≤◌, ◌++◌, ◌-◌, ℕ, List, [], drop, false, map};
ghost use Rattle.shore_model.specs.Histories.{decisions, free, in_doubt, session_state, shown};
ghost use Rattle.shore_model.specs.Logs.{is_over, logged_writes, records_told};
ghost use Rattle.shore_model.specs.Records.{overlays};
ghost use Rattle.shore_model.specs.declared.calls.Answer.TheVariants.{Moved};
ghost use Rattle.shore_model.specs.declared.calls.Call.{Call};
ghost use Rattle.shore_model.specs.declared.histories.Entry.{Entry};
ghost use Rattle.shore_model.specs.declared.histories.Opening.{Opening};
ghost use Rattle.shore_model.specs.declared.step.Step.TheVariants.{Done};
ghost use Rattle.shore_model.specs.declared.step.Step.{Step};
ghost use Rattle.laws_lives.specs.Sessions.{in_txn, txns_of};
ghost use Rattle.laws_lives.specs.Soundness.{history_from, serial_after};
ghost use Rattle.laws_lives.specs.Undo.{IsLoser};
ghost use Rattle.laws_lives.specs.Views.{IsAmong};
ghost use Rattle.laws_calls.specs.StateChanges.{answered};
ghost use Rattle.shore_world.specs.declared.event.Event.TheVariants as event;
ghost use Rattle.shore_world.specs.declared.event.Event.{Event};
ghost use Rattle.shore_world.specs.declared.world.World.{World};
ghost use Rattle.shore_world.specs.Events.{IsServedEvent};
ghost use Rattle.shore_world.specs.Lives.{DumpsShow};
ghost use Rattle.shore_core.specs.Cores.{heap_of};
ghost use Rattle.shore_world.specs.Promises.{AreUnended, GoesOnAs, IsManagerOf, IsSameButForLog, gained, standing_for};
ghost use Rattle.shore_world.specs.Worlds.{Steps, cut_in, durable_in, list_in, requests_in};

use shore_disk::Disk;

/// The log tells what is shown: the serial records of all decisions, with what those in doubt have written over them. That is the whole log, of which the world keeps what
/// `states_are_seen` says: what is cut off has done its part.
pub fn the_log_tells_what_is_shown<L: Disk, V: Disk>()
    ensures { (w : World L V L.Disk V.Disk) (o : Opening) (es : List Entry) (ws : List (ℕ × Call)) → (k : IsManagerOf w o es ws) →
        records_told k.now.state.log ≡ shown (history_from o es) (decisions es) }
{}

/// Records in place: a dump shows the serial records, overlaid with what each transaction under way has logged last at each id. They are overlaid as well with what each has written by the history,
/// as long as no rollback of it is under way (`standing`): so a way back that was answered leaves in place what its savepoint had. Each of these is undecided, in doubt, or one whose rollback a resolve has decided. Whoever is in a transaction by the
/// history is in one of these, and all in doubt are among them. By the log none of these is over, and each loser is among them.
pub fn records_are_in_place<L: Disk, V: Disk>()
    ensures shown { (w : World L V L.Disk V.Disk) (o : Opening) (es : List Entry) (ws : List (ℕ × Call)) → (k : IsManagerOf w o es ws) →
        DumpsShow w (overlays (serial_after o es) (map (logged_writes k.now.state.log) (txns_of k.now.state.sessions.active))) }
    ensures standing { (w : World L V L.Disk V.Disk) (o : Opening) (es : List Entry) (ws : List (ℕ × Call)) → (k : IsManagerOf w o es ws) →
        DumpsShow w (overlays (serial_after o es) (map (standing_for o es k.now.state.log) k.now.state.sessions.active)) }
    ensures unended { (w : World L V L.Disk V.Disk) (o : Opening) (es : List Entry) (ws : List (ℕ × Call)) → (k : IsManagerOf w o es ws) →
        AreUnended o es (txns_of k.now.state.sessions.active) }
    ensures all { (w : World L V L.Disk V.Disk) (o : Opening) (es : List Entry) (ws : List (ℕ × Call)) (session t : ℕ) → (k : IsManagerOf w o es ws) →
        session_state session free es ≡ in_txn t → 0 < t →
        IsAmong t (txns_of k.now.state.sessions.active) }
    ensures doubts { (w : World L V L.Disk V.Disk) (o : Opening) (es : List Entry) (ws : List (ℕ × Call)) (t : ℕ) (global : List ℕ) → (k : IsManagerOf w o es ws) →
        IsAmong (t, global) (in_doubt o.in_doubt (decisions es)) → IsAmong t (txns_of k.now.state.sessions.active) }
    ensures not_over { (w : World L V L.Disk V.Disk) (o : Opening) (es : List Entry) (ws : List (ℕ × Call)) (t : ℕ) → (k : IsManagerOf w o es ws) →
        IsAmong t (txns_of k.now.state.sessions.active) → is_over t k.now.state.log ≡ false }
    ensures losers { (w : World L V L.Disk V.Disk) (o : Opening) (es : List Entry) (ws : List (ℕ × Call)) (t : ℕ) → (k : IsManagerOf w o es ws) →
        IsLoser k.now.state.log t → IsAmong t (txns_of k.now.state.sessions.active) }
{}

/// A checkpoint changes nothing that is shown, and no lock. A step of it is no entry of the history; the state is as before, but for its log, and for a failure of the device: so its
/// sessions, those in doubt and the calls that wait. Dumps show the same records, as does the whole log, the same requests hold and wait for locks, the same records are durable,
/// and no page is written. What the log gains are records of checkpoints: of no transaction.
pub fn checkpoints_change_nothing_shown<L: Disk, V: Disk>()
    ensures state { (w new : World L V L.Disk V.Disk) (o : Opening) (es : List Entry) (ws : List (ℕ × Call)) (step : Step) → (k : IsManagerOf w o es ws) →
        Steps w event.CheckpointStep step new → (on : GoesOnAs new o es ws event.CheckpointStep step) × (on.made ≡ [])
        × IsSameButForLog k.now.state on.manager.now.state × (records_told on.manager.now.state.log ≡ records_told k.now.state.log) }
    ensures records { (w new : World L V L.Disk V.Disk) (o : Opening) (es : List Entry) (ws : List (ℕ × Call)) (step : Step) → (k : IsManagerOf w o es ws) →
        Steps w event.CheckpointStep step new → DumpsShow w k.now.state.sessions.records × DumpsShow new k.now.state.sessions.records }
    ensures locks { (w new : World L V L.Disk V.Disk) (o : Opening) (es : List Entry) (ws : List (ℕ × Call)) (step : Step) → IsManagerOf w o es ws →
        Steps w event.CheckpointStep step new → requests_in new ≡ requests_in w }
    ensures durable { (w new : World L V L.Disk V.Disk) (o : Opening) (es : List Entry) (ws : List (ℕ × Call)) (step : Step) → IsManagerOf w o es ws →
        Steps w event.CheckpointStep step new → durable_in new ≡ durable_in w }
    ensures pages { (w new : World L V L.Disk V.Disk) (step : Step) → Steps w event.CheckpointStep step new → heap_of new.core ≡ heap_of w.core }
    ensures gained { (w new : World L V L.Disk V.Disk) (o : Opening) (es : List Entry) (ws : List (ℕ × Call)) (step : Step) → IsManagerOf w o es ws →
        Steps w event.CheckpointStep step new → AllByRecursion (λ r. r.txn ≡ 0) (gained w new) }
{}

/// Logs go on: what an event adds stands behind all records that are kept, and it lets go of none of them but by the last step of a checkpoint, the move of the anchor: then of the
/// first ones, below the anchor's tail.
pub fn logs_go_on<L: Disk, V: Disk>()
    ensures kept { (w new : World L V L.Disk V.Disk) (o : Opening) (es : List Entry) (ws : List (ℕ × Call)) (e : Event) (step : Step) → IsManagerOf w o es ws → IsServedEvent e →
        Steps w e step new → (cut_in w ≤ cut_in new) × (list_in new ≡ drop (cut_in new - cut_in w) (list_in w) ++ gained w new) }
    ensures cut { (w new : World L V L.Disk V.Disk) (o : Opening) (es : List Entry) (ws : List (ℕ × Call)) (e : Event) (step : Step) → IsManagerOf w o es ws → IsServedEvent e →
        Steps w e step new → (cut_in new ≡ cut_in w) ⊎ ((e ≡ event.CheckpointStep) × (step ≡ Done Moved)) }
{}
