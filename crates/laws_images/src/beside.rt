//! The laws of a log and a volume that are known each by itself, as under locks of their own, each stated as the contract of an empty function.
ghost use Rattle.std.specs.Prelude.{◌≤◌, ◌<◌, ◌-◌, ◌++◌, ◌≡◌, ℕ, List, length, take};
ghost use Rattle.shore_types.specs.declared.faults.Device.TheVariants.{Volume};
ghost use Rattle.shore_types.specs.declared.ids.PageId.{PageId};
ghost use Rattle.shore_types.specs.declared.layout.Geometry.{Geometry};
ghost use Rattle.shore_types.specs.declared.layout.TheConstants.{LOG_FRONT_BYTES};
ghost use Rattle.shore_gate.specs.Label.{HoldsLabel};
ghost use Rattle.shore_gate.specs.declared.anchors.Anchor.{Anchor};
ghost use Rattle.shore_model.specs.declared.histories.Entry.{Entry};
ghost use Rattle.shore_model.specs.declared.histories.Opening.{Opening};
ghost use Rattle.shore_model.specs.declared.log_records.LogRecord.{LogRecord};
ghost use Rattle.shore_dwrite.specs.declared.places.TheConstants.{GATE_AT};
ghost use Rattle.laws_lives.specs.Pages.{LoggedPages};
ghost use Rattle.laws_lives.specs.Recovery.{CrashMayLeave};
ghost use Rattle.laws_checkpoints.specs.Checkpoints.{Checkpoint, IsAnchoredAt};
ghost use Rattle.laws_runs.specs.CheckpointSteps.{CheckpointedState};
ghost use Rattle.laws_runs.specs.CheckpointedStates.{IsAtCheckpoints, MayBeAnchored};
ghost use Rattle.shore_frames.specs.Frames.{GivesFrom};
ghost use Rattle.shore_fronts.specs.Volumes.{volume_label};
ghost use Rattle.laws_images.specs.Moments.{ShowsLeft};
ghost use Rattle.laws_images.specs.StandsBehind.{GivesKept, HasAnchor, StandsForBehind, anchored_by, kept_behind};
ghost use Rattle.laws_images.specs.StandsBeside.{LogStandsBehind, VolumeStandsBehind};

/// A volume that stands behind an anchor for a list stands beside each image of the log in which this anchor counts and which gives what is kept of that list or of a longer one.
/// So it does if it stood beside some other image of the log; and where the anchor has moved, if the next one is right of the same pages. For both parts no more is asked than a
/// pair has that stands; and a volume stands beside no shorter list than its pages speak of.
pub fn volumes_stand_beside_longer_logs()
    ensures joined { (g : Geometry) (log_bytes volume_bytes : ℕ) (anchor : Anchor) (first more : List LogRecord) (pages : LoggedPages) (log_image volume_image : List ℕ) →
        VolumeStandsBehind g volume_bytes anchor first pages volume_image → LogStandsBehind g log_bytes anchor (first ++ more) log_image →
        StandsForBehind g log_bytes volume_bytes anchor (first ++ more) pages log_image volume_image }
    ensures beside { (g : Geometry) (log_bytes volume_bytes m n : ℕ) (anchor : Anchor) (rs : List LogRecord) (pages : LoggedPages) (log_image log_left volume_image : List ℕ) →
        StandsForBehind g log_bytes volume_bytes anchor (take m rs) pages log_image volume_image → m ≤ n → LogStandsBehind g log_bytes anchor (take n rs) log_left →
        StandsForBehind g log_bytes volume_bytes anchor (take n rs) pages log_left volume_image }
    ensures moved { (g : Geometry) (log_bytes volume_bytes : ℕ) (anchor next : Anchor) (c : Checkpoint) (first more : List LogRecord) (pages : LoggedPages) (log_image log_left volume_image : List ℕ) →
        VolumeStandsBehind g volume_bytes anchor first pages volume_image → LogStandsBehind g log_bytes anchor (first ++ more) log_image →
        anchor.tail ≤ next.tail → IsAnchoredAt first (length first) pages pages (anchored_by next) c →
        HasAnchor g log_bytes next log_left → GivesFrom next.tail next.tail_place (kept_behind next (first ++ more)) log_left →
        StandsForBehind g log_bytes volume_bytes next (first ++ more) pages log_left volume_image }
    ensures parts { (g : Geometry) (log_bytes volume_bytes : ℕ) (anchor : Anchor) (rs : List LogRecord) (pages : LoggedPages) (log_image volume_image : List ℕ) →
        StandsForBehind g log_bytes volume_bytes anchor rs pages log_image volume_image →
        VolumeStandsBehind g volume_bytes anchor rs pages volume_image × LogStandsBehind g log_bytes anchor rs log_image }
    ensures ahead { (g : Geometry) (log_bytes volume_bytes : ℕ) (anchor : Anchor) (rs : List LogRecord) (pages : LoggedPages) (log_image volume_image : List ℕ) (p : PageId) →
        length rs < (pages p).number → StandsForBehind g log_bytes volume_bytes anchor rs pages log_image volume_image → ⊥ }
{}

/// What a manager gives of both parts. A loss of power leaves of its volume pages that stand for each prefix of its log with all that is durable, behind whichever anchor is left,
/// the old one or the one that a move makes: the same pages, so the anchor may move while the volume is still. And each image of the log that gives what is kept of
/// such a prefix, behind the anchor that counts in it, has the log's part.
pub fn managers_leave_both_parts()
    ensures volume { (g : Geometry) (ring_bytes volume_bytes : ℕ) (o : Opening) (found : List LogRecord) (es : List Entry) (m : CheckpointedState) (volume_image volume_left : List ℕ) →
        IsAtCheckpoints g ring_bytes o found es m → HoldsLabel Volume volume_bytes (take 512 volume_image) (volume_label g) → ShowsLeft g (take GATE_AT volume_image) m.store.store volume_left →
        (left : LoggedPages) × CrashMayLeave m.store.store left × ((anchor : Anchor) (n : ℕ) → MayBeAnchored m.store (anchored_by anchor) → m.store.store.durable ≤ n →
        n ≤ length m.store.store.log → VolumeStandsBehind g volume_bytes anchor (take n m.store.store.log) left volume_left) }
    ensures log { (g : Geometry) (log_bytes : ℕ) (o : Opening) (found : List LogRecord) (es : List Entry) (m : CheckpointedState) (anchor : Anchor) (n : ℕ) (log_left : List ℕ) →
        IsAtCheckpoints g (log_bytes - LOG_FRONT_BYTES) o found es m → MayBeAnchored m.store (anchored_by anchor) → m.store.store.durable ≤ n → n ≤ length m.store.store.log →
        HasAnchor g log_bytes anchor log_left → GivesFrom anchor.tail anchor.tail_place (kept_behind anchor (take n m.store.store.log)) log_left →
        LogStandsBehind g log_bytes anchor (take n m.store.store.log) log_left }
{}

/// Power is lost in the midst of a step that logs some records, of which the log device may already have any number, while the volume is as before the step: whatever pair of images
/// is left then, it stands for a prefix of the longer log with all that is durable, behind the anchor that is left.
pub fn crashes_within_steps_leave_what_stands()
    ensures { (g : Geometry) (log_bytes volume_bytes : ℕ) (o : Opening) (found : List LogRecord) (es later : List Entry) (m new : CheckpointedState) (more : List LogRecord)
        (volume_image : List ℕ) (anchor : Anchor) (log_left volume_left : List ℕ) →
        IsAtCheckpoints g (log_bytes - LOG_FRONT_BYTES) o found es m → IsAtCheckpoints g (log_bytes - LOG_FRONT_BYTES) o found later new →
        new.store.store.log ≡ m.store.store.log ++ more → m.store.store.durable ≤ new.store.store.durable →
        MayBeAnchored m.store (anchored_by anchor) → MayBeAnchored new.store (anchored_by anchor) →
        HoldsLabel Volume volume_bytes (take 512 volume_image) (volume_label g) → HasAnchor g log_bytes anchor log_left →
        GivesKept anchor new.store.store.durable new.store.store.log log_left → ShowsLeft g (take GATE_AT volume_image) m.store.store volume_left →
        (n : ℕ) × (left : LoggedPages) × (new.store.store.durable ≤ n) × CrashMayLeave m.store.store left
        × StandsForBehind g log_bytes volume_bytes anchor (take n new.store.store.log) left log_left volume_left }
{}
