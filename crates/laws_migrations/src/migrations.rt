//! The laws of migrations, each stated as the contract of an empty function.
ghost use Rattle.std.specs.Prelude.{◌≡◌, ◌<◌, ◌≤◌, ◌-◌, ℕ, List, length, map};
ghost use Rattle.std.specs.FinMap.{get};
ghost use Rattle.std.specs.List.{AllByRecursion};
ghost use Rattle.shore_types.specs.declared.ids.PageId.{PageId};
ghost use Rattle.shore_types.specs.declared.layout.Geometry.{Geometry};
ghost use Rattle.shore_types.specs.declared.layout.TheConstants.{LAST_TXN, LOG_FRONT_BYTES};
ghost use Rattle.shore_types.specs.Versions.{slot_limit};
ghost use Rattle.shore_disk.specs.Device.{may_leave};
ghost use Rattle.shore_model.specs.declared.histories.Opening.{Opening};
ghost use Rattle.shore_model.specs.declared.log_records.LogRecord.{LogRecord};
ghost use Rattle.shore_model.specs.declared.log_records.LogTxn.{LogTxn};
ghost use Rattle.shore_model.specs.Logs.{IsTable, Lawful};
ghost use Rattle.shore_model.specs.Records.{Records};
ghost use Rattle.laws_lives.specs.DirtyPages.{HasAllUpTo};
ghost use Rattle.laws_lives.specs.Doubts.{DoubtsStand, IsOpeningOf, NeedMore, doubts_in};
ghost use Rattle.laws_lives.specs.LogTells.{records_committed};
ghost use Rattle.laws_lives.specs.Pages.{AreAsOfOwnNumbers, LoggedPages};
ghost use Rattle.laws_lives.specs.Undo.{HasNoLosers};
ghost use Rattle.laws_lives.specs.Writers.{image_committed};
ghost use Rattle.laws_checkpoints.specs.Checkpoints.{Anchored, cut_of};
ghost use Rattle.laws_checkpoints.specs.StoresInOrder.{IsInOrder};
ghost use Rattle.laws_runs.specs.CheckpointSteps.{log_limit};
ghost use Rattle.laws_runs.specs.CheckpointedStates.{MayBeOpenedBehind, found_behind};
ghost use Rattle.laws_runs.specs.CheckpointedStays.{CheckpointedStay};
ghost use Rattle.laws_runs.specs.RoomyLogs.{AreRoomy, IsPlacedLog};
ghost use Rattle.laws_migrations.specs.FullPages.{full_pages};
ghost use Rattle.laws_migrations.specs.Geometries.{MayMoveInto};
ghost use Rattle.laws_migrations.specs.Rooms.{FitsRing};
ghost use Rattle.laws_migrations.specs.Legs.{AreLegs, IsLifeInLegs, MigratedLeg, OpensAlike, last_spans, legs_of};
ghost use Rattle.laws_migrations.specs.Moments.{FourDevices, MigrationGoes, NewWhereNotOld, OneStands, ShowsMigrated, StandsForTheSame, Way};
ghost use Rattle.laws_migrations.specs.MigratedLogs.{EachApart, IsMigratable, IsRead, MigratedDoubt, TellsTheSame, as_logged, migrated_anchor, migrated_log, migrated_work};

/// The log of a migration is lawful, it tells the records that were migrated, and in doubt are those who were, in their order, under the same global ids and with the
/// same granules.
pub fn migrated_logs_tell_the_same()
    ensures lawful { (t : ℕ) (records : Records) (doubts : List MigratedDoubt) → 0 < t → AllByRecursion (IsMigratable (λ id. get records id) t) doubts → EachApart doubts →
        Lawful (migrated_work t records doubts) }
    ensures records { (t : ℕ) (records : Records) (doubts : List MigratedDoubt) → 0 < t → AllByRecursion (IsMigratable (λ id. get records id) t) doubts → EachApart doubts →
        records_committed (migrated_work t records doubts) ≡ records }
    ensures doubts { (t : ℕ) (records : Records) (doubts : List MigratedDoubt) → 0 < t → AllByRecursion (IsMigratable (λ id. get records id) t) doubts → EachApart doubts →
        doubts_in (migrated_work t records doubts) ≡ map as_logged doubts }
{}

/// With its checkpoint the log may be opened behind its anchor, over pages that have all of it: what is kept begins behind the Commit, and the store is in order.
pub fn migrated_pairs_are_in_order()
    ensures { (t : ℕ) (records : Records) (doubts : List MigratedDoubt) (txns : List LogTxn) (pages : LoggedPages) → 0 < t →
        AllByRecursion (IsMigratable (λ id. get records id) t) doubts → EachApart doubts → IsTable (migrated_work t records doubts) txns →
        AreAsOfOwnNumbers (migrated_work t records doubts) pages →
        ((p : PageId) → HasAllUpTo (migrated_work t records doubts) p (pages p) (length (migrated_work t records doubts))) →
        IsInOrder (found_behind (migrated_anchor t records doubts) (migrated_log t records doubts txns) pages) }
{}

/// What is read of a lawful log that a restart has left may be migrated: those in doubt are different transactions at different ids, and each before image is what is committed.
/// The new log tells what the old one does.
pub fn migrations_keep_what_is_told()
    ensures may { (old : List LogRecord) (t : ℕ) (doubts : List MigratedDoubt) → Lawful old → IsRead old t doubts →
        AllByRecursion (IsMigratable (image_committed old) t) doubts × EachApart doubts }
    ensures told { (old : List LogRecord) (t : ℕ) (doubts : List MigratedDoubt) (txns : List LogTxn) (pages : LoggedPages) → Lawful old → HasNoLosers old → IsRead old t doubts →
        IsTable (migrated_work t (records_committed old) doubts) txns → AreAsOfOwnNumbers (migrated_work t (records_committed old) doubts) pages →
        ((p : PageId) → HasAllUpTo (migrated_work t (records_committed old) doubts) p (pages p) (length (migrated_work t (records_committed old) doubts))) →
        TellsTheSame old (migrated_log t (records_committed old) doubts txns) }
{}

/// The new pair has room in whatever geometry the old one may move into: no page has more slots than it had, none of them claims more, and the log is roomy where its sum fits the ring.
/// So it may be opened.
pub fn migrated_logs_have_room()
    ensures roomy { (g h : Geometry) (old : List LogRecord) (t : ℕ) (doubts : List MigratedDoubt) (txns : List LogTxn) (pages : LoggedPages) (ring_bytes : ℕ) →
        MayMoveInto g h → Lawful old → HasNoLosers old → IsPlacedLog g old → IsRead old t doubts → t < LAST_TXN → IsTable (migrated_work t (records_committed old) doubts) txns →
        AreAsOfOwnNumbers (migrated_work t (records_committed old) doubts) pages →
        ((p : PageId) → HasAllUpTo (migrated_work t (records_committed old) doubts) p (pages p) (length (migrated_work t (records_committed old) doubts))) →
        FitsRing ring_bytes t (records_committed old) doubts txns → (NeedMore h.max_locks (doubts_in old) → ⊥) →
        AreRoomy h (log_limit ring_bytes (cut_of (migrated_anchor t (records_committed old) doubts)) (migrated_log t (records_committed old) doubts txns))
        (length (migrated_log t (records_committed old) doubts txns)) (migrated_log t (records_committed old) doubts txns) }
    ensures opened { (g h : Geometry) (old : List LogRecord) (t : ℕ) (doubts : List MigratedDoubt) (txns : List LogTxn) (pages : LoggedPages) (ring_bytes : ℕ) →
        MayMoveInto g h → Lawful old → HasNoLosers old → DoubtsStand old → IsPlacedLog g old → IsRead old t doubts → t < LAST_TXN → IsTable (migrated_work t (records_committed old) doubts) txns →
        AreAsOfOwnNumbers (migrated_work t (records_committed old) doubts) pages →
        ((p : PageId) → HasAllUpTo (migrated_work t (records_committed old) doubts) p (pages p) (length (migrated_work t (records_committed old) doubts))) →
        FitsRing ring_bytes t (records_committed old) doubts txns → (NeedMore h.max_locks (doubts_in old) → ⊥) →
        MayBeOpenedBehind h ring_bytes (migrated_anchor t (records_committed old) doubts) (migrated_log t (records_committed old) doubts txns) pages }
{}

/// A life goes on behind a migration: what the new log opens with is like what the old one would, so the next leg begins where the last one ended.
pub fn lives_go_on_behind_migrations()
    ensures { (old new : List LogRecord) (o next : Opening) → Lawful old → Lawful new → DoubtsStand old → TellsTheSame old new → IsOpeningOf old o → IsOpeningOf new next →
        o.slots ≤ next.slots → OpensAlike o next }
{}

/// Any number of legs, each a number of stays of the power over a pair that a migration ends, and stays over the last pair: all together are a life in legs, and the last log says the
/// opening that it comes to.
pub fn committed_work_survives_migrations()
    ensures { (g : Geometry) (ring_bytes : ℕ) (o : Opening) (a last_anchor : Anchored) (rs last : List LogRecord) (pages last_pages : LoggedPages) (legs : List MigratedLeg) (stays : List CheckpointedStay) →
        MayBeOpenedBehind g ring_bytes a rs pages → IsOpeningOf rs o → o.slots ≡ slot_limit g.version → AreLegs g ring_bytes o a rs pages legs stays last_anchor last last_pages →
        (end : Opening) × IsLifeInLegs o (legs_of rs legs) (last_spans rs legs stays) end × IsOpeningOf last end }
{}

/// Pages as redo of a whole log makes them of empty ones have all of it, each as of its own number: so such pages are there for each log, and a migration may write them.
pub fn full_pages_have_all()
    ensures { (log : List LogRecord) → AreAsOfOwnNumbers log (full_pages log) × ((p : PageId) → HasAllUpTo log p (full_pages log p) (length log)) }
{}

/// What a migration has to write stands for a log that tells the same: the anchor of the migrated log at the front, the kept records in the frames, and its pages on the volume.
pub fn written_pairs_stand()
    ensures { (g h : Geometry) (old : List LogRecord) (t : ℕ) (doubts : List MigratedDoubt) (txns : List LogTxn) (pages : LoggedPages) (log_bytes volume_bytes : ℕ) (log_image volume_image : List ℕ) →
        MayMoveInto g h → Lawful old → HasNoLosers old → DoubtsStand old → IsPlacedLog g old → IsRead old t doubts → t < LAST_TXN → IsTable (migrated_work t (records_committed old) doubts) txns →
        AreAsOfOwnNumbers (migrated_work t (records_committed old) doubts) pages →
        ((p : PageId) → HasAllUpTo (migrated_work t (records_committed old) doubts) p (pages p) (length (migrated_work t (records_committed old) doubts))) →
        FitsRing (log_bytes - LOG_FRONT_BYTES) t (records_committed old) doubts txns → (NeedMore h.max_locks (doubts_in old) → ⊥) →
        ShowsMigrated h log_bytes volume_bytes t (records_committed old) doubts txns pages log_image volume_image → StandsForTheSame old h log_bytes volume_bytes log_image volume_image }
{}

/// At whatever moment of a migration power is lost, the old pair or the new one stands for a log that tells what the old one did: the new pair is made while the old one is kept,
/// and the old one's gate is closed while the new one is kept. So where no image of the old pair stands any more, the new one does: the next open is of the old pair, or of the new one
/// where the old one is not formatted. Once it has ended the new one stands.
pub fn one_pair_stands_at_any_moment()
    ensures each { (told : List LogRecord) (g h : Geometry) (log_bytes volume_bytes new_log_bytes new_volume_bytes : ℕ) (first last : FourDevices) →
        MigrationGoes (StandsForTheSame told g log_bytes volume_bytes) (StandsForTheSame told h new_log_bytes new_volume_bytes) first last →
        (steps : List FourDevices)
        × Way (StandsForTheSame told g log_bytes volume_bytes) (StandsForTheSame told h new_log_bytes new_volume_bytes)
        (OneStands (StandsForTheSame told g log_bytes volume_bytes) (StandsForTheSame told h new_log_bytes new_volume_bytes)) first steps last }
    ensures rule { (told : List LogRecord) (g h : Geometry) (log_bytes volume_bytes new_log_bytes new_volume_bytes : ℕ) (first last : FourDevices) →
        MigrationGoes (StandsForTheSame told g log_bytes volume_bytes) (StandsForTheSame told h new_log_bytes new_volume_bytes) first last →
        (steps : List FourDevices)
        × Way (StandsForTheSame told g log_bytes volume_bytes) (StandsForTheSame told h new_log_bytes new_volume_bytes)
        (NewWhereNotOld (StandsForTheSame told g log_bytes volume_bytes) (StandsForTheSame told h new_log_bytes new_volume_bytes)) first steps last }
    ensures now { (told : List LogRecord) (g h : Geometry) (log_bytes volume_bytes new_log_bytes new_volume_bytes : ℕ) (first last : FourDevices) (log_image volume_image : List ℕ) →
        MigrationGoes (StandsForTheSame told g log_bytes volume_bytes) (StandsForTheSame told h new_log_bytes new_volume_bytes) first last →
        may_leave last.new_log log_image → may_leave last.new_volume volume_image → StandsForTheSame told h new_log_bytes new_volume_bytes log_image volume_image }
{}
