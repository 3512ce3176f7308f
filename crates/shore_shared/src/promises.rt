//! What holds of a manager before its threads holds behind them: the theorem of shore_world goes on, and so do the promises. Laws, each stated as the contract of an empty function.
ghost use Rattle.std.specs.Prelude.{◌≡◌, ◌≤◌, ◌++◌, ◌∷◌, [], All, ℕ, List};
ghost use Rattle.shore_types.specs.declared.layout.Geometry.{Geometry};
ghost use Rattle.shore_disk.specs.Device.{DeviceHistory, Stands, size};
ghost use Rattle.shore_disk.specs.Device as devices;
ghost use Rattle.shore_format.specs.Pairs.{AreFormatted};
ghost use Rattle.shore_gate.specs.declared.anchors.Anchor.{Anchor};
ghost use Rattle.laws_images.specs.StandsBehind.{StandsForBehind};
ghost use Rattle.laws_lives.specs.Pages.{LoggedPages};
ghost use Rattle.shore_model.specs.declared.calls.Call.{Call};
ghost use Rattle.shore_model.specs.declared.histories.Entry.{Entry};
ghost use Rattle.shore_model.specs.declared.histories.Opening.{Opening};
ghost use Rattle.shore_model.specs.declared.log_records.LogRecord.{LogRecord};
ghost use Rattle.shore_model.specs.declared.step.Step.{Step};
ghost use Rattle.shore_world.specs.declared.world.World.{World};
ghost use Rattle.shore_world.specs.Exchanges.{tellings_in, told_in, waited_in};
ghost use Rattle.shore_world.specs.Legs.{ByThreads, IsUpIn, ThreadsLead};
ghost use Rattle.shore_world.specs.Managers.{AreFound, AreLeftInThreads, AreStays, IsInThreads, Shared, Threads, Up};
ghost use Rattle.shore_world.specs.Opens.{HasOpened};
ghost use Rattle.shore_world.specs.Promises.{IsManagerOf, as_up};
ghost use Rattle.shore_world.specs.Worlds.{durable_in, geometry_in, history_in, volume_history_in};
ghost use Rattle.shore_held.specs.Trails.{moves_of};
ghost use Rattle.shore_held.specs.Worlds.{begins_with};
ghost use Rattle.shore_held.specs.declared.asked.Asked.{Asked};
ghost use Rattle.shore_shared.specs.Lives.{HasEnded};

use shore_disk::Disk;

/// Threads lead a manager on, as the theorem of shore_world has it: what `serve` says of the world that comes back makes these threads a leg of that manager, between events and events or threads and
/// threads. So a stay goes on behind threads, by what was asked of the core in them and what that came to.
pub fn threads_are_legs<L: Disk, V: Disk>()
    ensures { (old w : World L V L.Disk V.Disk) (cut : ℕ) (kept : List LogRecord) (asked : List (Asked × ℕ)) (stepped : List (Step × ℕ)) → geometry_in w ≡ geometry_in old →
        size (history_in w) ≡ size (history_in old) →
        ((opening : Opening) (found : List LogRecord) (entries : List Entry) (up : IsUpIn old opening found entries) → ∥ HasEnded (begins_with up) cut kept asked stepped w ∥₁) →
        ThreadsLead old (moves_of asked stepped) w }
{}

/// All promises hold behind threads of which held before them, and of the same history gone on: the world is a manager of it again, each call that waited before or began to wait in threads waits still or was
/// told, and what the history gained tells just what the sessions were told in threads.
pub fn promises_go_on_behind_threads<L: Disk, V: Disk>()
    ensures manager { (old w : World L V L.Disk V.Disk) (o : Opening) (es : List Entry) (ws : List (ℕ × Call)) (k : IsManagerOf old o es ws) (cut : ℕ) (kept : List LogRecord) (asked : List (Asked × ℕ))
        (stepped : List (Step × ℕ)) → geometry_in w ≡ geometry_in old → size (history_in w) ≡ size (history_in old) →
        (ended : HasEnded (begins_with (as_up k)) cut kept asked stepped w) → IsManagerOf w o (es ++ ended.come_by.made) (waited_in ws (moves_of asked stepped)) }
    ensures told { (old w : World L V L.Disk V.Disk) (o : Opening) (es : List Entry) (ws : List (ℕ × Call)) (k : IsManagerOf old o es ws) (cut : ℕ) (kept : List LogRecord) (asked : List (Asked × ℕ))
        (stepped : List (Step × ℕ)) → geometry_in w ≡ geometry_in old → size (history_in w) ≡ size (history_in old) →
        (ended : HasEnded (begins_with (as_up k)) cut kept asked stepped w) → tellings_in ended.come_by.made ≡ told_in ws (moves_of asked stepped) }
{}

/// A life of two uses of threads: a formatted pair is opened and handed to threads, and the power is lost amid them, the core and the log device each perhaps in the midst of a call. What is left is opened and handed to
/// threads again, from which `serve` gives the world back, and its devices are closed. That is a life of the theorem of shore_world (`committed_work_survives_every_crash`), so an open then shows what it says: all that a
/// session has found durable in the first threads, or in the second (`seen`), is in the prefix. Each condition is a clause of `format`, `World::open`, `serve` and, of `seen`, of `into_world`; that the
/// first threads are such a stay (`IsInThreads`) is what `moments_are_stays` says of the values under both locks; or it is what a loss of power means.
pub fn two_uses_of_threads_are_a_life<L: Disk, V: Disk>()
    ensures { (g : Geometry) (log_bytes volume_bytes : ℕ) (t : Threads L V L.Disk V.Disk) (log_left volume_left : List ℕ) (log volume : DeviceHistory) (opened w : World L V L.Disk V.Disk) (cut : ℕ) (kept : List LogRecord)
        (asked : List (Asked × ℕ)) (stepped : List (Step × ℕ)) (seen : List ℕ) →
        AreFound log_bytes volume_bytes (AreFormatted g log_bytes volume_bytes) t.log t.volume → IsInThreads t →
        AreLeftInThreads t log_left volume_left → Stands log log_left → Stands volume volume_left → size log ≡ log_bytes → size volume ≡ volume_bytes →
        ((of : Geometry) (anchor : Anchor) (rs : List LogRecord) (pages : LoggedPages) → StandsForBehind of (size log) (size volume) anchor rs pages (devices.seen log) (devices.seen volume) →
        HasOpened opened of anchor log volume rs pages) →
        geometry_in w ≡ geometry_in opened → size (history_in w) ≡ size (history_in opened) →
        ((o : Opening) (found : List LogRecord) (entries : List Entry) (up : IsUpIn opened o found entries) → ∥ HasEnded (begins_with up) cut kept asked stepped w ∥₁) →
        All (λ n. n ≤ durable_in w) seen → size (history_in w) ≡ log_bytes → size (volume_history_in w) ≡ volume_bytes →
        AreStays log_bytes volume_bytes (AreFormatted g log_bytes volume_bytes)
        (Shared t ∷ Up (record { log = log; volume = volume; opened = opened; legs = ByThreads (moves_of asked stepped) seen w ∷ []; ended = w }) ∷ []) (history_in w) (volume_history_in w) }
{}
