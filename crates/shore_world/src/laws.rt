//! What the contracts of the calls come to over whole lives of a pair of devices. Each law is stated as the contract of an empty function.
ghost use Rattle.std.specs.Prelude.{◌≡◌, ◌≤◌, ◌-◌, ◌++◌, ℕ, List, [], All, Err, None, flat_map, take};
ghost use Rattle.shore_types.specs.declared.faults.Fault.{Fault};
ghost use Rattle.shore_types.specs.declared.ids.Rid.{Rid};
ghost use Rattle.shore_types.specs.declared.layout.Geometry.{Geometry};
ghost use Rattle.shore_types.specs.declared.layout.TheConstants.{LOG_FRONT_BYTES};
ghost use Rattle.shore_types.specs.Versions.{slot_limit};
ghost use Rattle.shore_disk.specs.Device.{DeviceHistory, Stands, may_leave, seen, size};
ghost use Rattle.shore_gate.specs.declared.anchors.Anchor.{Anchor};
ghost use Rattle.shore_model.specs.declared.histories.Entry.{Entry};
ghost use Rattle.shore_model.specs.declared.histories.Opening.{Opening};
ghost use Rattle.shore_model.specs.declared.log_records.LogRecord.{LogRecord};
ghost use Rattle.shore_model.specs.declared.step.Step.{Step};
ghost use Rattle.shore_model.specs.Histories.{shown};
ghost use Rattle.shore_model.specs.Locks.{Harmony, WellRooted};
ghost use Rattle.shore_model.specs.Logs.{records_told};
ghost use Rattle.shore_model.specs.Records.{Records, part_of, scan_of};
ghost use Rattle.shore_model.specs.Requests.{held_by_all};
ghost use Rattle.shore_heap.specs.Scans.{part_end};
ghost use Rattle.laws_calls.specs.States.{State};
ghost use Rattle.laws_checkpoints.specs.CheckpointedStores.{CheckpointedStore};
ghost use Rattle.laws_lives.specs.Doubts.{IsOpeningOf};
ghost use Rattle.laws_lives.specs.Pages.{LoggedPages};
ghost use Rattle.laws_lives.specs.Soundness.{history_from};
ghost use Rattle.laws_runs.specs.CheckpointSteps.{CheckpointedMove, CheckpointedMoves, CheckpointedState};
ghost use Rattle.laws_runs.specs.CheckpointedStates.{IsAtCheckpoints};
ghost use Rattle.laws_runs.specs.CheckpointedStays.{CheckpointedRun, IsCheckpointedUp};
ghost use Rattle.shore_format.specs.Pairs.{AreFormatted};
ghost use Rattle.laws_images.specs.StandsBehind.{StandsForBehind, anchored_by};
ghost use Rattle.shore_core.specs.Cores.{IsSafe};
ghost use Rattle.shore_world.specs.declared.event.Event.{Event};
ghost use Rattle.shore_world.specs.declared.world.World.{World};
ghost use Rattle.shore_world.specs.Crashes.{AreEnded, AreLeft, IsEndedBetween};
ghost use Rattle.shore_world.specs.Events.{IsServedEvent};
ghost use Rattle.shore_world.specs.EventMoves.{PlainMove, moves_among};
ghost use Rattle.shore_world.specs.Lives.{DumpsShow, HaveLived};
ghost use Rattle.shore_world.specs.Managers.{AreFound, AreLeftInThreads, AreStays, IsManager, IsRunOf, Manager, Stay, Threads};
ghost use Rattle.shore_world.specs.Legs.{NoForceIsFullIn};
ghost use Rattle.shore_world.specs.Opens.{AreEndedInOpen, HasOpened, LeftByOpen, OpensAlong};
ghost use Rattle.shore_world.specs.Parts.{ArePartsFrom};
ghost use Rattle.shore_world.specs.Promises.{HasInDoubt, IsManagerOf};
ghost use Rattle.shore_world.specs.Worlds.{IsAt, IsDumpOf, IsPartOf, Runs, geometry_in, history_in, requests_in, stream_bytes_in, volume_history_in};

use shore_disk::Disk;

/// A run of the world, from the state and the store of a manager under way with its checkpoints, is a run of such a manager over plain data: calls with their
/// work, a failure for each read of a dump that failed, work between them, and steps of checkpoints. The manager stays under way, so that pages and log have room for what
/// stands, for each undo and for the checkpoint under way, and its store may lose power at any moment. The front of the log keeps its label, and its anchor may move.
pub fn runs_are_stored_runs<L: Disk, V: Disk>()
    ensures { (old new : World L V L.Disk V.Disk) (events : List Event) (steps : List Step) (moves : List PlainMove) (log_front front : List ℕ) (disk : ℕ → List ℕ)
        (o : Opening) (found : List LogRecord) (es : List Entry) (m : CheckpointedState) →
        All IsServedEvent events → Runs old events steps moves new → IsAt old log_front front disk m.state m.store → IsAtCheckpoints (geometry_in old) (stream_bytes_in old) o found es m →
        (plain : List CheckpointedMove) × (last : CheckpointedState) × (made : List Entry) × (left : ℕ → List ℕ) × (last_front : List ℕ)
        × CheckpointedMoves (geometry_in old) m plain last made × (moves_among plain ≡ moves) × IsAt new last_front front left last.state last.store
        × IsAtCheckpoints (geometry_in old) (stream_bytes_in old) o found (es ++ made) last × (take 512 last_front ≡ take 512 log_front) }
{}

/// Format, and then any number of stays: managers, managers whose sessions run in threads as they end, and opens that came to none. Each ends at any moment, in opens too: both devices lose power at once, or the
/// process ends, or the devices are handed back; and then they are opened again. Among the events of a manager are the steps of checkpoints, which cut the log off below the tail that
/// its anchor names. Whatever pair of images may be left in the end, it stands, behind the anchor that counts there, for a log, and for
/// pages with whatever of undecided transactions was written back (`left`): so its open answers unless a device or an allocation fails. What that log
/// tells is the empty store with the committed transactions of each manager applied in turn, those of a prefix of its decisions that holds every acknowledged
/// one, each transaction alone, in the order of the commits; and in doubt are those that these decisions have prepared and not decided further. Each open on the
/// way showed the records of its life so far, on which what came behind it goes on, and gave those in doubt back; and the log that it found is a prefix of
/// every later one: nothing that an open has shown is taken back.
/// If the pair is opened then (`shown`), the world is a manager that begins with what this log tells: dumps of it, store by store, are these records, with the
/// changes of those in doubt in place. Those are in doubt, and nobody else, each under its name and to be resolved. They hold EX on the granules that their Prepares
/// name in this log, and IX above these, and nobody holds anything else or waits. The locks that are held are in harmony and well rooted.
pub fn committed_work_survives_every_crash<L: Disk, V: Disk>()
    ensures left { (g : Geometry) (log_bytes volume_bytes : ℕ) (stays : List (Stay L V L.Disk V.Disk)) (log volume : DeviceHistory) (log_image volume_image : List ℕ) →
        AreStays log_bytes volume_bytes (AreFormatted g log_bytes volume_bytes) stays log volume → may_leave log log_image → may_leave volume volume_image →
        ∥ ((anchor : Anchor) × (rs : List LogRecord) × (pages : LoggedPages) × (o : Opening) × StandsForBehind g log_bytes volume_bytes anchor rs pages log_image volume_image
        × HaveLived g (log_bytes - LOG_FRONT_BYTES) stays o (anchored_by anchor) rs pages) ∥₁ }
    ensures shown { (g : Geometry) (log_bytes volume_bytes : ℕ) (stays : List (Stay L V L.Disk V.Disk)) (log volume : DeviceHistory) (w : World L V L.Disk V.Disk) →
        AreStays log_bytes volume_bytes (AreFormatted g log_bytes volume_bytes) stays log volume →
        ((anchor : Anchor) (rs : List LogRecord) (pages : LoggedPages) → StandsForBehind g (size log) (size volume) anchor rs pages (seen log) (seen volume) → HasOpened w g anchor log volume rs pages) →
        ∥ ((anchor : Anchor) × (rs : List LogRecord) × (pages : LoggedPages) × (o : Opening) × HaveLived g (log_bytes - LOG_FRONT_BYTES) stays o (anchored_by anchor) rs pages
        × ((k : IsManagerOf w o [] []) × HasInDoubt w o rs k.now.state)
        × DumpsShow w (records_told rs) × (records_told rs ≡ shown (history_from o []) []) × Harmony (held_by_all (requests_in w)) × WellRooted (held_by_all (requests_in w))) ∥₁ }
{}

/// A world that was opened is a manager that has made no entry, whatever its pair has been through: it need only stand for a log and pages. So the laws of `promises` speak of what is opened behind
/// threads, too. It begins with what that log tells, dumps show it, and those in doubt by it are in doubt.
pub fn opened_worlds_are_managers<L: Disk, V: Disk>()
    ensures { (g : Geometry) (anchor : Anchor) (rs : List LogRecord) (pages : LoggedPages) (o : Opening) (log volume : DeviceHistory) (w : World L V L.Disk V.Disk) → IsOpeningOf rs o → o.slots ≡ slot_limit g.version →
        StandsForBehind g (size log) (size volume) anchor rs pages (seen log) (seen volume) → HasOpened w g anchor log volume rs pages →
        ((k : IsManagerOf w o [] []) × HasInDoubt w o rs k.now.state) × DumpsShow w (records_told rs) × (records_told rs ≡ shown (history_from o []) [])
        × Harmony (held_by_all (requests_in w)) × WellRooted (held_by_all (requests_in w)) }
{}

/// Each way to come from one open to the next is among those of `AreStays`. Behind a loss of power the devices hold one pair of images that was left, all of
/// it stable: of a manager (`crash`), or of an open that it cut off (`cut`). With no loss of power a manager may hand its devices back (`closed`), and so does an
/// open that is refused (`refused`); or the process ends, in the midst of an event, of a dump (`ended`) or of an open (`ended_in_open`): then writes that no sync
/// has covered are still there, and one may be there in part. So it is of a manager whose sessions run in threads (`lost_in_threads`, `ended_in_threads`), each device at a moment of its own calls.
pub fn pairs_are_found_again<L: Disk, V: Disk>()
    ensures crash { (w : World L V L.Disk V.Disk) (log volume : DeviceHistory) (log_image volume_image : List ℕ) → AreLeft w log_image volume_image → Stands log log_image →
        Stands volume volume_image → AreFound (size log) (size volume) (AreLeft w) log volume }
    ensures cut { (log volume log_now volume_now : DeviceHistory) (log_image volume_image : List ℕ) → LeftByOpen log volume log_image volume_image → Stands log_now log_image →
        Stands volume_now volume_image → AreFound (size log_now) (size volume_now) (LeftByOpen log volume) log_now volume_now }
    ensures closed { (w : World L V L.Disk V.Disk) → AreFound (size (history_in w)) (size (volume_history_in w)) (AreLeft w) (history_in w) (volume_history_in w) }
    ensures refused { (log volume log_now volume_now : DeviceHistory) (fault : Fault) (l : L) (v : V) → L.Disk.history l ≡ log_now → V.Disk.history v ≡ volume_now →
        ((g : Geometry) (anchor : Anchor) (rs : List LogRecord) (pages : LoggedPages) → StandsForBehind g (size log) (size volume) anchor rs pages (seen log) (seen volume) →
        OpensAlong {G = L.Disk} {H = V.Disk} (Err (fault, l, v)) g anchor log volume rs pages) →
        (log_image volume_image : List ℕ) → may_leave log_now log_image → may_leave volume_now volume_image → LeftByOpen log volume log_image volume_image }
    ensures ended { (w : World L V L.Disk V.Disk) (log volume : DeviceHistory) → AreEnded w log volume →
        AreFound (size (history_in w)) (size (volume_history_in w)) (AreLeft w) log volume }
    ensures ended_in_open { (log volume log_now volume_now : DeviceHistory) → AreEndedInOpen log volume log_now volume_now →
        AreFound (size log_now) (size volume_now) (LeftByOpen log volume) log_now volume_now }
    ensures lost_in_threads { (t : Threads L V L.Disk V.Disk) (log volume : DeviceHistory) (log_image volume_image : List ℕ) → AreLeftInThreads t log_image volume_image → Stands log log_image →
        Stands volume volume_image → AreFound (size log) (size volume) (AreLeftInThreads t) log volume }
    ensures ended_in_threads { (t : Threads L V L.Disk V.Disk) (log volume : DeviceHistory) → IsEndedBetween t.log_now t.log_later log → IsEndedBetween t.volume_now t.volume_later volume →
        AreFound (size t.log_now) (size t.volume_now) (AreLeftInThreads t) log volume }
{}

/// A manager on a pair that stands for a log and pages is a stay of the power over plain data, and no force of it is refused by `LogFull`.
pub fn runs_stay_in_bounds<L: Disk, V: Disk>()
    ensures { (g : Geometry) (o : Opening) (anchor : Anchor) (rs : List LogRecord) (pages : LoggedPages) (manager : Manager L V L.Disk V.Disk) →
        StandsForBehind g (size manager.log) (size manager.volume) anchor rs pages (seen manager.log) (seen manager.volume) → IsOpeningOf rs o → o.slots ≡ slot_limit g.version → IsManager manager →
        ∥ ((run : CheckpointedRun) × IsRunOf manager run × IsCheckpointedUp g (size manager.log - LOG_FRONT_BYTES) o (anchored_by anchor) rs pages run)
        × NoForceIsFullIn manager.legs ∥₁ }
{}

/// The parts of a store make its dump. Two of one world that lie behind one another are one part (`join`), and that from the first page to the end of the store
/// is a dump of it (`whole`): so what is said of dumps, `DumpsShow` too, holds of parts that were put together. A call may leave another world, with other pages
/// in its frames: parts that were answered behind one another, each of the world that the call before it has left, are the scan of the store (`in_turn`). And if other
/// calls came between two parts, which left the scan of the store as it was, as they do while a transaction holds it in SH, the parts are still one (`held`).
pub fn parts_make_the_dump<L: Disk, V: Disk>()
    ensures join { (w : World L V L.Disk V.Disk) (store a b c : ℕ) (p q : List (Rid × List ℕ)) → a ≤ b → b ≤ c → IsPartOf w store a b p → IsPartOf w store b c q →
        IsPartOf w store a c (p ++ q) }
    ensures whole { (w : World L V L.Disk V.Disk) (store : ℕ) (part : List (Rid × List ℕ)) → IsPartOf w store 0 (part_end (geometry_in w) store None) part → IsDumpOf w store part }
    ensures in_turn { (w : World L V L.Disk V.Disk) (log_front front : List ℕ) (disk : ℕ → List ℕ) (s : State) (kept : CheckpointedStore) (store : ℕ)
        (parts : List (List (Rid × List ℕ))) → IsAt w log_front front disk s kept → IsSafe (geometry_in w) s → ArePartsFrom w store 0 parts →
        flat_map (λ (part : List (Rid × List ℕ)). part) parts ≡ scan_of store s.sessions.records }
    ensures held { (store a b c : ℕ) (R S : Records) → a ≤ b → b ≤ c → scan_of store R ≡ scan_of store S → part_of store a b R ++ part_of store b c S ≡ part_of store a c S }
{}
