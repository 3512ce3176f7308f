//! Laws of lists of log records, and of the records that they tell, each stated as the contract of an empty function.
ghost use Rattle.std.specs.Prelude.{◌≡◌, ◌++◌, ◌∷◌, [], ℕ, List, take, false};
ghost use Rattle.shore_types.specs.declared.locking.Granule.{Granule};
ghost use Rattle.shore_model.specs.declared.log_records.LogRecord.{LogRecord};
ghost use Rattle.shore_model.specs.declared.log_records.Payload.{Payload};
ghost use Rattle.shore_model.specs.Records.{OverlayAnswers, overlay};
ghost use Rattle.shore_model.specs.Logs.{Lawful, MayFollow, records_told, in_doubt_in, has, is_commit, is_decision, is_in_doubt, is_prepare, is_rollback, logged_writes};

/// An overlay answers from the write set first.
pub fn overlay_reads_writes_first()
    ensures { OverlayAnswers }
{}

/// A prefix of a lawful list is lawful.
pub fn prefix_is_lawful()
    ensures { (rs : List LogRecord) (n : ℕ) → Lawful rs → Lawful (take n rs) }
{}

/// A lawful list with a record that may follow it is lawful.
pub fn lawful_log_takes_next()
    ensures { (rs : List LogRecord) (r : LogRecord) → Lawful rs → MayFollow rs r → Lawful (rs ++ r ∷ []) }
{}

/// A Commit lays its transaction's writes over what the list tells, if none is in doubt.
pub fn commit_adds_its_writes()
    ensures { (rs : List LogRecord) (t p : ℕ) → in_doubt_in rs ≡ [] →
        records_told (rs ++ record { txn = t; previous = p; payload = Payload.Commit } ∷ []) ≡ overlay (records_told rs) (logged_writes rs t) }
{}

/// A Prepare lays its transaction's writes over what the list tells.
pub fn prepare_adds_its_writes()
    ensures { (rs : List LogRecord) (t p : ℕ) (global : List ℕ) (granules : List Granule) →
        has is_prepare t rs ≡ false → has is_commit t rs ≡ false → has is_rollback t rs ≡ false →
        records_told (rs ++ record { txn = t; previous = p; payload = Payload.Prepare global granules } ∷ []) ≡ overlay (records_told rs) (logged_writes rs t) }
{}

/// A record that decides nothing, of a transaction that is neither committed nor in doubt, leaves what the list tells, and
/// who is in doubt: so does the undo of a loser.
pub fn undecided_records_add_nothing()
    ensures { (rs : List LogRecord) (r : LogRecord) → is_decision r.payload ≡ false →
        has is_commit r.txn rs ≡ false → is_in_doubt r.txn rs ≡ false →
        (records_told (rs ++ r ∷ []) ≡ records_told rs) × (in_doubt_in (rs ++ r ∷ []) ≡ in_doubt_in rs) }
{}
