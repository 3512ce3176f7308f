//! Migrations worked by hand: what is read and what is written, and what must not be.
ghost use Rattle.std.specs.Prelude.{◌≡◌, ◌<◌, ◌+◌, ℕ, List, [], ◌∷◌, None, Some};
ghost use Rattle.std.specs.FinMap.{entries};
ghost use Rattle.shore_types.specs.Images.{Image};
ghost use Rattle.shore_types.specs.declared.ids.Rid.{Rid};
ghost use Rattle.shore_types.specs.declared.layout.Geometry.{Geometry};
ghost use Rattle.shore_types.specs.declared.layout.TheConstants.{LONGEST_FRAME, MAX_LOG_BYTES};
ghost use Rattle.shore_types.specs.declared.locking.Granule.{Granule};
ghost use Rattle.shore_types.specs.declared.versions.Version.TheVariants.{One, Two};
ghost use Rattle.shore_model.specs.declared.histories.InDoubt.{InDoubt};
ghost use Rattle.shore_model.specs.declared.histories.Opening.{Opening};
ghost use Rattle.shore_model.specs.declared.log_records.LogTxn.{LogTxn};
ghost use Rattle.shore_model.specs.Records.{Records};
ghost use Rattle.laws_calls.specs.WorkedRun.{first_id};
ghost use Rattle.laws_migrations.specs.Geometries.{MayMoveInto};
ghost use Rattle.laws_migrations.specs.Legs.{OpensAlike};
ghost use Rattle.laws_migrations.specs.MigratedLogs.{EachIdOnce, IsMigratable, IsRead, IsReadOf, MigratedDoubt, TellsTheSame, Written, migrated_anchor, migrated_log};
ghost use Rattle.laws_migrations.specs.Rooms.{FitsRing, owed_for};
ghost use Rattle.laws_migrations.specs.WorkedMigration.{committing_log, doubt_with, read_doubt, read_log, read_table, second_written, written_log};

/// Of a log in which one record is committed and one inserted in doubt a migration reads the one in doubt with its image. It writes the records of both, a checkpoint, and an anchor that
/// keeps what stands behind the Commit; two endings and the undo of the insert are reserved.
pub fn one_committed_and_one_in_doubt_are_migrated()
    ensures read { (a b global : List ℕ) (granules : List Granule) → IsRead (read_log a b global granules) 3 (read_doubt a b global granules ∷ []) }
    ensures written { (a b global : List ℕ) (granules : List Granule) (records : Records) → entries records ≡ (first_id, a) ∷ [] →
        migrated_log 3 records (read_doubt a b global granules ∷ []) (read_table a b global granules) ≡ written_log a b global granules }
    ensures anchored { (a b global : List ℕ) (granules : List Granule) (records : Records) → entries records ≡ (first_id, a) ∷ [] →
        migrated_anchor 3 records (read_doubt a b global granules ∷ []) ≡ record { checkpoint = 5; tail = 3 } }
    ensures owed { (a b global : List ℕ) (granules : List Granule) → owed_for (read_doubt a b global granules ∷ []) ≡ 34 + 34 + (34 + 18 + 1) }
{}

/// What must not be read of that log: under a number that is one's already or under none, without the one in doubt, without what it has inserted, with its id twice, with an image that is
/// not committed or does not stand there, or with an id that it has not changed.
pub fn wrong_readings_are_none()
    ensures number_of_one { (a b global : List ℕ) (granules : List Granule) (doubts : List MigratedDoubt) → IsRead (read_log a b global granules) 2 doubts → ⊥ }
    ensures no_number { (doubts : List MigratedDoubt) → IsRead [] 0 doubts → ⊥ }
    ensures none_in_doubt { (a b global : List ℕ) (granules : List Granule) → IsRead (read_log a b global granules) 3 [] → ⊥ }
    ensures nothing_written { (a b global : List ℕ) (granules : List Granule) → IsReadOf (read_log a b global granules) (doubt_with a b global granules []) → ⊥ }
    ensures twice { (a b global : List ℕ) (granules : List Granule) →
        IsReadOf (read_log a b global granules) (doubt_with a b global granules (second_written a b global granules ∷ second_written a b global granules ∷ [])) → ⊥ }
    ensures before { (a b c global : List ℕ) (granules : List Granule) (w : Written) → w.id ≡ (second_written a b global granules).id → w.before ≡ Some c →
        IsReadOf (read_log a b global granules) (doubt_with a b global granules (w ∷ [])) → ⊥ }
    ensures after { (a b global : List ℕ) (granules : List Granule) (w : Written) → w.id ≡ (second_written a b global granules).id → w.after ≡ None →
        IsReadOf (read_log a b global granules) (doubt_with a b global granules (w ∷ [])) → ⊥ }
    ensures not_changed { (a b global : List ℕ) (granules : List Granule) (before after : Image) →
        IsReadOf (read_log a b global granules) (doubt_with a b global granules (record { id = first_id; before = before; after = after } ∷ [])) → ⊥ }
{}

/// What must not be migrated or written: one in doubt of number 0 or of the new transaction's number or a higher one, one with an id twice, and one whose before image is not committed.
/// A log that commits the one in doubt does not tell the same.
pub fn wrong_migrations_are_none()
    ensures no_number { (committed : Rid → Image) (t : ℕ) (global : List ℕ) (granules : List Granule) (ws : List Written) →
        IsMigratable committed t (record { txn = 0; global = global; granules = granules; writes = ws }) → ⊥ }
    ensures high_number { (committed : Rid → Image) (t more : ℕ) (global : List ℕ) (granules : List Granule) (ws : List Written) →
        IsMigratable committed t (record { txn = t + more; global = global; granules = granules; writes = ws }) → ⊥ }
    ensures twice { (w : Written) (ws : List Written) → EachIdOnce (w ∷ w ∷ ws) → ⊥ }
    ensures before { (committed : Rid → Image) (t u : ℕ) (global bytes : List ℕ) (granules : List Granule) (id : Rid) (after : Image) → committed id ≡ None →
        IsMigratable committed t (record { txn = u; global = global; granules = granules; writes = record { id = id; before = Some bytes; after = after } ∷ [] }) → ⊥ }
    ensures under { (committed : Rid → Image) (t u : ℕ) (global : List ℕ) (w : Written) → IsMigratable committed t (record { txn = u; global = global; granules = []; writes = w ∷ [] }) → ⊥ }
    ensures commits { (a b global : List ℕ) (granules : List Granule) → TellsTheSame (read_log a b global granules) (committing_log a b global granules) → ⊥ }
{}

/// Into which geometry a pair must not move: one of a lower version, one with fewer pages in a store, and one without a store. And a ring that has no byte for the log beside the longest
/// frame, or that is longer than there may be, is none for it.
pub fn wrong_moves_are_none()
    ensures lower { (g h : Geometry) → g.version ≡ Two → h.version ≡ One → MayMoveInto g h → ⊥ }
    ensures fewer { (g h : Geometry) (pages : ℕ) → g.stores ≡ ((pages + 1) ∷ []) → h.stores ≡ pages ∷ [] → MayMoveInto g h → ⊥ }
    ensures no_store { (g h : Geometry) (pages more : ℕ) → g.stores ≡ pages ∷ more ∷ [] → h.stores ≡ pages ∷ [] → MayMoveInto g h → ⊥ }
    ensures higher { (g h : Geometry) (pages more later : ℕ) → g.version ≡ One → h.version ≡ Two → g.stores ≡ pages ∷ [] → h.stores ≡ ((pages + more) ∷ later ∷ []) → MayMoveInto g h }
    ensures short_ring { (t : ℕ) (records : Records) (doubts : List MigratedDoubt) (txns : List LogTxn) → FitsRing LONGEST_FRAME t records doubts txns → 0 < owed_for doubts → ⊥ }
    ensures long_ring { (t : ℕ) (records : Records) (doubts : List MigratedDoubt) (txns : List LogTxn) → FitsRing (MAX_LOG_BYTES + 1) t records doubts txns → ⊥ }
{}

/// What a next leg must not open with: fewer slots of a page, other records, and nobody in doubt where one was.
pub fn wrong_openings_are_none()
    ensures slots { (last next : Opening) → next.slots < last.slots → OpensAlike last next → ⊥ }
    ensures records { (last next : Opening) → (next.records ≡ last.records → ⊥) → OpensAlike last next → ⊥ }
    ensures nobody { (last next : Opening) (d : InDoubt) → last.in_doubt ≡ d ∷ [] → next.in_doubt ≡ [] → OpensAlike last next → ⊥ }
{}
