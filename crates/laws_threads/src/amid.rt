//! Losses of power amid steps of the core, whose records the log device may have already.
ghost use Rattle.std.specs.Prelude.{◌≡◌, ◌≤◌, ◌-◌, ◌++◌, ℕ, List, take};
ghost use Rattle.shore_types.specs.declared.faults.Device.TheVariants.{Volume};
ghost use Rattle.shore_types.specs.declared.layout.Geometry.{Geometry};
ghost use Rattle.shore_types.specs.declared.layout.TheConstants.{LOG_FRONT_BYTES};
ghost use Rattle.shore_dwrite.specs.declared.places.TheConstants.{GATE_AT};
ghost use Rattle.shore_fronts.specs.Volumes.{volume_label};
ghost use Rattle.shore_gate.specs.Label.{HoldsLabel};
ghost use Rattle.shore_gate.specs.declared.anchors.Anchor.{Anchor};
ghost use Rattle.shore_model.specs.declared.histories.Entry.{Entry};
ghost use Rattle.shore_model.specs.declared.histories.Opening.{Opening};
ghost use Rattle.shore_model.specs.declared.log_records.LogRecord.{LogRecord};
ghost use Rattle.laws_lives.specs.Pages.{LoggedPages};
ghost use Rattle.laws_images.specs.StandsBehind.{StandsForBehind, anchored_by};
ghost use Rattle.laws_runs.specs.CheckpointSteps.{CheckpointedMove, CheckpointedState, CheckpointedSteps, entries_of_move};
ghost use Rattle.laws_runs.specs.CheckpointedStates.{IsAtCheckpoints, MayBeAnchored};
ghost use Rattle.laws_runs.specs.SoundStores.{IsLost};
ghost use Rattle.laws_checkpoints.specs.Checkpoints.{Anchored};
ghost use Rattle.laws_lives.specs.Doubts.{IsOpeningOf};
ghost use Rattle.laws_runs.specs.CheckpointedStates.{MayBeOpenedBehind};
ghost use Rattle.laws_runs.specs.CheckpointedStays.{CheckpointedRun, IsCheckpointedUp, left_by_up};
ghost use Rattle.laws_threads.specs.Amid.{IsLeftThen, IsLostAmid, IsMadeOtherwise, IsMoment, IsUpInThreads, RunsOn, ThreadedRun, entries_of_asks, entries_of_threads};

/// A loss of power amid a step, which leaves the volume as before it while the log device has records of the step already, is one behind the step: the pages that are left
/// in place were written back before the step began, and the step has written none.
pub fn crashes_amid_steps_are_crashes_behind_them()
    ensures { (g : Geometry) (m new : CheckpointedState) (e : CheckpointedMove) (n : ℕ) (left : LoggedPages) → CheckpointedSteps g m e new → IsLostAmid m new n left →
        (other : CheckpointedMove) × (last : CheckpointedState) × IsMadeOtherwise g m e new other last × IsLost last.store.store n left }
{}

/// Power is lost at a moment of a manager in threads, and the log device is left with so many records, all that it had told among them, and the volume with these pages. That is a loss of power behind
/// moves of the manager over plain data: the step that was under way, what was told, and the asks of tickets that sessions have found durable, each with the answer that it is. So the
/// log that is left has the commit of each of these tickets, and is one of which the laws of stays speak.
pub fn crashes_in_threads_are_crashes_of_a_manager()
    ensures { (g : Geometry) (ring_bytes : ℕ) (o : Opening) (found : List LogRecord) (es : List Entry) (m new : CheckpointedState) (e : CheckpointedMove) (anchor : Anchor) (stable : ℕ) (seen : List ℕ)
        (n : ℕ) (left : LoggedPages) → IsAtCheckpoints g ring_bytes o found es m → IsMoment g m e new anchor stable seen → stable ≤ n → IsLostAmid m new n left →
        (moves : List CheckpointedMove) × (last : CheckpointedState) × RunsOn g m e stable seen moves last (entries_of_move m e new ++ entries_of_asks seen) × IsLost last.store.store n left
        × MayBeAnchored last.store (anchored_by anchor) × (last.store.store.log ≡ new.store.store.log) }
{}

/// .. and whatever pair of images is left then, each device by itself, it stands for the log and the pages of that loss: no more is asked of both together than that the core knows no more to
/// be durable than the log device has told, that the log device has no more than the core has sent, and that both know one anchor.
pub fn pairs_of_threads_stand()
    ensures { (g : Geometry) (log_bytes volume_bytes : ℕ) (o : Opening) (found : List LogRecord) (es : List Entry) (m new : CheckpointedState) (e : CheckpointedMove) (anchor : Anchor) (stable : ℕ)
        (seen : List ℕ) (volume_image log_left volume_left : List ℕ) → IsAtCheckpoints g (log_bytes - LOG_FRONT_BYTES) o found es m → IsMoment g m e new anchor stable seen →
        HoldsLabel Volume volume_bytes (take 512 volume_image) (volume_label g) → IsLeftThen g log_bytes (take GATE_AT volume_image) m new anchor stable log_left volume_left →
        (moves : List CheckpointedMove) × (last : CheckpointedState) × RunsOn g m e stable seen moves last (entries_of_move m e new ++ entries_of_asks seen) × MayBeAnchored last.store (anchored_by anchor)
        × ((n : ℕ) × (left : LoggedPages) × (stable ≤ n) × IsLost last.store.store n left × StandsForBehind g log_bytes volume_bytes anchor (take n last.store.store.log) left log_left volume_left) }
{}

/// A manager that loses power at a moment of its threads is a stay as any other: so the laws of stays speak of it, in which what was acknowledged is what was said to be durable, to whatever session.
pub fn stays_in_threads_are_stays()
    ensures { (g : Geometry) (ring_bytes : ℕ) (o : Opening) (a : Anchored) (rs : List LogRecord) (pages : LoggedPages) (r : ThreadedRun) → MayBeOpenedBehind g ring_bytes a rs pages → IsOpeningOf rs o →
        IsUpInThreads g ring_bytes o a rs pages r → (run : CheckpointedRun) × IsCheckpointedUp g ring_bytes o a rs pages run × (run.first ≡ r.first) × (run.made ≡ entries_of_threads r)
        × (left_by_up run ≡ take r.survive r.new.store.store.log) × (run.pages ≡ r.pages) × (run.anchor ≡ anchored_by r.anchor) }
{}
