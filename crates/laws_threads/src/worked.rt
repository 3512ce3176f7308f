//! A run worked by hand, so that a moment amid a step is one that comes.
ghost use Rattle.std.specs.Prelude.{◌+◌, ◌≡◌, ◌≤◌, ℕ, List, [], ◌∷◌, length, take};
ghost use Rattle.shore_types.specs.Layout.{HasPage, HasStore};
ghost use Rattle.shore_types.specs.declared.layout.Geometry.{Geometry};
ghost use Rattle.shore_gate.specs.declared.anchors.Anchor.{Anchor};
ghost use Rattle.shore_model.specs.declared.histories.Decision.TheVariants as decision;
ghost use Rattle.shore_model.specs.declared.histories.Entry.{Entry};
ghost use Rattle.laws_calls.specs.WorkedRun.{first_page, opened_empty};
ghost use Rattle.laws_checkpoints.specs.Checkpoints.{not_anchored};
ghost use Rattle.laws_checkpoints.specs.CheckpointedStores.{formatted_store};
ghost use Rattle.laws_images.specs.StandsBehind.{anchored_by};
ghost use Rattle.laws_lives.specs.LogPrefixes.{decisions_in};
ghost use Rattle.laws_lives.specs.Pages.{empty_page};
ghost use Rattle.laws_runs.specs.CheckpointSteps.{CheckpointedMoves, CheckpointedState};
ghost use Rattle.laws_runs.specs.SoundStores.{IsLost};
ghost use Rattle.laws_threads.specs.Amid.{IsLostAmid, IsMoment};
ghost use Rattle.laws_threads.specs.WorkedCommit.{begun_and_inserted, commit_under_way};
ghost use Rattle.shore_types.specs.Versions.{record_limit, slot_limit};

/// A session inserts a record and commits. While its commit is under way the record of it is forced, and a ticket with its number is said to be durable to whoever asks; then power is lost, before the
/// call has an answer, and no page was written. The log that is left has the decision, though the store that the step began with had no such record, and no loss of power over it leaves one.
pub fn commits_may_be_forced_amid_their_calls()
    ensures { (g : Geometry) (stream_bytes : ℕ) (bytes : List ℕ) (anchor : Anchor) → HasStore g 0 → HasPage g first_page → length bytes ≤ record_limit g.version → 96000 + record_limit g.version ≤ stream_bytes →
        anchored_by anchor ≡ not_anchored → (m new : CheckpointedState) × (made : List Entry)
        × CheckpointedMoves g (record { state = opened_empty (slot_limit g.version) stream_bytes; store = formatted_store }) (begun_and_inserted bytes) m made
        × IsMoment g m commit_under_way new anchor 2 (2 ∷ []) × IsLostAmid m new 2 (λ p. empty_page) × (decisions_in 0 (take 2 new.store.store.log) ≡ decision.Commit 1 ∷ [])
        × ¬ IsLost m.store.store 2 (λ p. empty_page) }
{}
