//! The laws of what a pair of devices stands for, each stated as the contract of an empty function.
ghost use Rattle.std.specs.Prelude.{◌≡◌, ◌-◌, ℕ, List, [], drop, take};
ghost use Rattle.std.specs.List.{AllByRecursion};
ghost use Rattle.shore_types.specs.declared.faults.Device.TheVariants.{Volume};
ghost use Rattle.shore_types.specs.declared.layout.Geometry.{Geometry};
ghost use Rattle.shore_types.specs.declared.layout.TheConstants.{LOG_FRONT_BYTES};
ghost use Rattle.shore_disk.specs.Device.{DeviceHistory};
ghost use Rattle.shore_gate.specs.Label.{HoldsLabel};
ghost use Rattle.shore_gate.specs.declared.anchors.Anchor.{Anchor};
ghost use Rattle.shore_model.specs.declared.histories.Entry.{Entry};
ghost use Rattle.shore_model.specs.declared.histories.Opening.{Opening};
ghost use Rattle.shore_model.specs.declared.log_records.LogRecord.{LogRecord};
ghost use Rattle.shore_dwrite.specs.declared.places.TheConstants.{GATE_AT};
ghost use Rattle.laws_lives.specs.Pages.{LoggedPages, empty_page};
ghost use Rattle.laws_lives.specs.Recovery.{RecoveryEvent, RecoveryState};
ghost use Rattle.laws_lives.specs.Restarts.{RestartsTo};
ghost use Rattle.laws_checkpoints.specs.StoresInOrder.{IsLeftByCrash};
ghost use Rattle.laws_runs.specs.SoundStores.{IsLost, IsSoundStore, found_state};
ghost use Rattle.laws_runs.specs.Stays.{IsStoredCut, StoredCut};
ghost use Rattle.laws_runs.specs.CheckpointSteps.{CheckpointedState};
ghost use Rattle.laws_runs.specs.CheckpointedStates.{IsAtCheckpoints, MayBeAnchored};
ghost use Rattle.laws_runs.specs.CheckpointedStays.{CheckpointedCut, IsCheckpointedCut, LosesNoPower, left_by_cut};
ghost use Rattle.shore_format.specs.Pairs.{AreFormatted};
ghost use Rattle.shore_frames.specs.Frames.{GivesFrom};
ghost use Rattle.shore_fronts.specs.Fronts.{first_anchor};
ghost use Rattle.shore_fronts.specs.Volumes.{volume_label};
ghost use Rattle.laws_images.specs.Moments.{GivesPrefix, IsLostAlong, Moment, Path, ShowsLeft};
ghost use Rattle.laws_images.specs.MomentsBehind.{PathBehind, begun_behind};
ghost use Rattle.laws_images.specs.StandsBehind.{GivesKept, HasAnchor, StandsForBehind, anchored_by};
ghost use Rattle.laws_images.specs.StandsFor.{HaveFrontsOf, StandsFor, begun_on};

/// What a format leaves stands for no record and empty pages, behind the first anchor, too.
pub fn formatted_pairs_stand()
    ensures whole { (g : Geometry) (log_bytes volume_bytes : ℕ) (log volume : List ℕ) → AreFormatted g log_bytes volume_bytes log volume →
        StandsFor g log_bytes volume_bytes [] (λ p. empty_page) log volume }
    ensures behind { (g : Geometry) (log_bytes volume_bytes : ℕ) (log volume : List ℕ) → AreFormatted g log_bytes volume_bytes log volume →
        StandsForBehind g log_bytes volume_bytes first_anchor [] (λ p. empty_page) log volume }
{}

/// Power is lost over a sound store, on devices that stood for a log and pages when they were opened: whatever pair of images is left then, it stands
/// for a prefix of the store's log, all that is durable in it, and for pages that the write-ahead rule lets be. The fronts stay.
pub fn crashes_leave_what_stands()
    ensures { (g : Geometry) (log_bytes volume_bytes : ℕ) (rs : List LogRecord) (pages : LoggedPages) (log_image volume_image : List ℕ) (s : RecoveryState)
        (log_left volume_left : List ℕ) → StandsFor g log_bytes volume_bytes rs pages log_image volume_image → IsSoundStore g (log_bytes - LOG_FRONT_BYTES) s →
        GivesPrefix (take LOG_FRONT_BYTES log_image) s log_left → ShowsLeft g (take GATE_AT volume_image) s volume_left →
        (n : ℕ) × (left : LoggedPages) × IsLost s n left × StandsFor g log_bytes volume_bytes (take n s.log) left log_left volume_left
        × HaveFrontsOf log_image volume_image log_left volume_left }
{}

/// The way of a restart is steps of it over plain data. Power that is lost at any moment of the way of an open leaves a pair that stands for what a
/// stay of the power leaves that lost power in its restart.
pub fn opens_leave_what_stands()
    ensures way { (g : Geometry) (log_front front : List ℕ) (first last : Moment) (moments : List Moment) → Path g log_front front first moments last →
        (works : List RecoveryEvent) × RestartsTo first.store works last.store }
    ensures lost { (g : Geometry) (log_bytes volume_bytes : ℕ) (rs : List LogRecord) (pages : LoggedPages) (log_image volume_image : List ℕ) (log volume : DeviceHistory)
        (moments : List Moment) (last : Moment) (log_left volume_left : List ℕ) → StandsFor g log_bytes volume_bytes rs pages log_image volume_image →
        Path g (take LOG_FRONT_BYTES log_image) (take GATE_AT volume_image) (begun_on log volume rs pages) moments last →
        IsLostAlong (begun_on log volume rs pages) moments log_left volume_left →
        (c : StoredCut) × IsStoredCut (found_state rs pages) c × StandsFor g log_bytes volume_bytes (take c.survive c.reached.log) c.pages log_left volume_left
        × HaveFrontsOf log_image volume_image log_left volume_left }
{}

/// Power is lost over a manager with its checkpoints: whatever pair of images is left then, with an anchor that counts at the front of the log, the old one or
/// the one that a move makes, it stands behind that anchor for a prefix of the manager's log with all that is durable in it, and for pages that the
/// write-ahead rule lets be.
pub fn crashes_leave_what_stands_behind_anchors()
    ensures { (g : Geometry) (log_bytes volume_bytes : ℕ) (o : Opening) (found : List LogRecord) (es : List Entry) (m : CheckpointedState) (volume_image : List ℕ) (anchor : Anchor)
        (log_left volume_left : List ℕ) → IsAtCheckpoints g (log_bytes - LOG_FRONT_BYTES) o found es m → HoldsLabel Volume volume_bytes (take 512 volume_image) (volume_label g) →
        MayBeAnchored m.store (anchored_by anchor) → HasAnchor g log_bytes anchor log_left → GivesKept anchor m.store.store.durable m.store.store.log log_left →
        ShowsLeft g (take GATE_AT volume_image) m.store.store volume_left →
        (n : ℕ) × (left : LoggedPages) × IsLost m.store.store n left × StandsForBehind g log_bytes volume_bytes anchor (take n m.store.store.log) left log_left volume_left }
{}

/// What stands behind an anchor for a whole log gives the records from the tail on, and these tell, with the anchored checkpoint among them, what the whole log does.
pub fn kept_records_stand_for_the_log()
    ensures { (g : Geometry) (log_bytes volume_bytes : ℕ) (anchor : Anchor) (rs : List LogRecord) (pages : LoggedPages) (log_image volume_image : List ℕ) →
        StandsForBehind g log_bytes volume_bytes anchor rs pages log_image volume_image →
        GivesFrom anchor.tail anchor.tail_place (drop (anchor.tail - 1) rs) log_image × IsLeftByCrash (anchored_by anchor) rs pages }
{}

/// Behind the first anchor, where nothing is cut off, it stands for just what a pair stands for without checkpoints.
pub fn first_anchors_cut_nothing()
    ensures { (g : Geometry) (log_bytes volume_bytes : ℕ) (rs : List LogRecord) (pages : LoggedPages) (log_image volume_image : List ℕ) →
        StandsForBehind g log_bytes volume_bytes first_anchor rs pages log_image volume_image → StandsFor g log_bytes volume_bytes rs pages log_image volume_image }
{}

/// The way of a restart behind an anchor is steps of it over plain data, of the whole log. Power that is lost at any moment of it leaves a pair that stands behind
/// the same anchor for what a stay of the power leaves that lost power in its restart.
pub fn opens_behind_anchors_leave_what_stands()
    ensures way { (g : Geometry) (log_front front : List ℕ) (anchor : Anchor) (first last : Moment) (moments : List Moment) → PathBehind g log_front front anchor first moments last →
        (works : List RecoveryEvent) × RestartsTo first.store works last.store × AllByRecursion LosesNoPower works }
    ensures lost { (g : Geometry) (log_bytes volume_bytes : ℕ) (anchor : Anchor) (rs : List LogRecord) (pages : LoggedPages) (log_image volume_image : List ℕ) (log volume : DeviceHistory)
        (moments : List Moment) (last : Moment) (log_left volume_left : List ℕ) → StandsForBehind g log_bytes volume_bytes anchor rs pages log_image volume_image →
        PathBehind g (take LOG_FRONT_BYTES log_image) (take GATE_AT volume_image) anchor (begun_behind log volume anchor rs pages) moments last →
        IsLostAlong (begun_behind log volume anchor rs pages) moments log_left volume_left →
        (c : CheckpointedCut) × IsCheckpointedCut (anchored_by anchor) rs pages c
        × StandsForBehind g log_bytes volume_bytes anchor (left_by_cut c) c.pages log_left volume_left × HaveFrontsOf log_image volume_image log_left volume_left }
{}
