//! The laws of a log whose front is cut off, each stated as the contract of an empty function.
ghost use Rattle.std.specs.Prelude.{◌≡◌, ◌≤◌, ◌<◌, ◌+◌, ◌++◌, ◌↔◌, ℕ, List, Bool, true, false, Some, length, take, drop, slice_get};
ghost use Rattle.std.specs.List.{AllByRecursion};
ghost use Rattle.shore_types.specs.declared.ids.PageId.{PageId};
ghost use Rattle.shore_model.specs.declared.holds.Hold.{Hold};
ghost use Rattle.shore_model.specs.declared.log_records.LogRecord.{LogRecord};
ghost use Rattle.shore_model.specs.declared.log_records.LogTxn.{LogTxn};
ghost use Rattle.shore_model.specs.declared.log_records.Payload.{Payload};
ghost use Rattle.shore_model.specs.Logs.{IsTable, Lawful, has, in_doubt_in, is_in_doubt, is_over, last_of, logged_writes, prepare_number, records_of, unanswered};
ghost use Rattle.laws_lives.specs.Doubts.{AreRestored, DoubtsStand, doubts_in, undo_in};
ghost use Rattle.laws_lives.specs.Pages.{LacksNone, LoggedPage, LoggedPages};
ghost use Rattle.laws_lives.specs.Recovery.{IsRecoverable, RecoveryEvent, RecoveryState, with_page_written};
ghost use Rattle.laws_lives.specs.Restarts.{RestartsTo};
ghost use Rattle.laws_lives.specs.Undo.{HasNoLosers, IsLoser, undo_record};
ghost use Rattle.laws_checkpoints.specs.KeptLogs.{IsKeptLoser, IsKeptUnended, KeepsNoLosers, MayBeCut, has_record, kept_last_of, kept_prepare_number, kept_records_of, kept_unanswered, kept_undo_record};
ghost use Rattle.laws_checkpoints.specs.KeptRestarts.{KeptLeadTo, KeptStore, seen_behind};
ghost use Rattle.laws_checkpoints.specs.KeptTables.{IsKeptEntry, IsKeptTable, NamesItsRecords};
ghost use Rattle.laws_checkpoints.specs.MeantBehind.{AreMeantBehind, IsMeantBehind, IsMeantWhole};

/// What is left of a log tells of each transaction that has not ended just what the whole log does: it has all of that one's records, with the
/// numbers that they have. So it has the same losers, with the same records of undo, one after another. A longer log may be cut there too, and so it
/// may with any page written later that has what is cut off.
pub fn cut_logs_tell_the_same()
    ensures record { (log : List LogRecord) (cut k : ℕ) → slice_get (drop cut log) k ≡ slice_get log (cut + k) }
    ensures all { (log : List LogRecord) (volume : LoggedPages) (cut t : ℕ) → MayBeCut log volume cut → 0 < t → is_over t log ≡ false →
        (records_of t log ≡ kept_records_of cut t (drop cut log)) × ((p : Payload → Bool) → has p t log ≡ has p t (drop cut log)) }
    ensures unended { (log : List LogRecord) (volume : LoggedPages) (cut t : ℕ) → Lawful log → MayBeCut log volume cut → 0 < t →
        ((0 < last_of t log) × (is_over t log ≡ false)) ↔ IsKeptUnended cut (drop cut log) t }
    ensures losers { (log : List LogRecord) (volume : LoggedPages) (cut t : ℕ) → Lawful log → MayBeCut log volume cut →
        IsLoser log t ↔ IsKeptLoser cut (drop cut log) t }
    ensures undo { (log : List LogRecord) (volume : LoggedPages) (cut t : ℕ) → MayBeCut log volume cut → IsLoser log t →
        (undo_record log t ≡ kept_undo_record cut (drop cut log) t) × (unanswered t log ≡ kept_unanswered cut t (drop cut log)) }
    ensures longer { (log more : List LogRecord) (volume : LoggedPages) (cut : ℕ) → MayBeCut log volume cut → MayBeCut (log ++ more) volume cut }
    ensures flushed { (log : List LogRecord) (volume : LoggedPages) (cut : ℕ) (p : PageId) (page : LoggedPage) → MayBeCut log volume cut →
        LacksNone log p cut page → MayBeCut log (with_page_written volume p page) cut }
{}

/// Those in doubt by what is left are those in doubt by the whole log, in the order of their Prepares, under the same global ids and with the same
/// granules. One in doubt has not ended, so all of its records are kept: its Prepare, its Changes, and the chain by which it could be undone. So an open
/// gives the same locks back to it, and the same undo list.
pub fn cut_logs_keep_doubts()
    ensures one { (log : List LogRecord) (volume : LoggedPages) (cut t : ℕ) → Lawful log → MayBeCut log volume cut →
        is_in_doubt t (drop cut log) ≡ is_in_doubt t log }
    ensures list { (log : List LogRecord) (volume : LoggedPages) (cut : ℕ) → Lawful log → MayBeCut log volume cut →
        (doubts_in (drop cut log) ≡ doubts_in log) × (in_doubt_in (drop cut log) ≡ in_doubt_in log) }
    ensures whole { (log : List LogRecord) (volume : LoggedPages) (cut t : ℕ) → Lawful log → MayBeCut log volume cut → is_in_doubt t log ≡ true →
        (has_record t (take cut log) ≡ false) × (records_of t log ≡ kept_records_of cut t (drop cut log)) }
    ensures prepare { (log : List LogRecord) (volume : LoggedPages) (cut t : ℕ) → Lawful log → MayBeCut log volume cut → is_in_doubt t log ≡ true →
        (prepare_number t log ≡ kept_prepare_number cut t (drop cut log)) × (cut < prepare_number t log) }
    ensures undo { (log : List LogRecord) (volume : LoggedPages) (cut t : ℕ) → Lawful log → MayBeCut log volume cut → is_in_doubt t log ≡ true →
        (unanswered t log ≡ kept_unanswered cut t (drop cut log)) × (logged_writes (drop cut log) t ≡ logged_writes log t) × (undo_in (drop cut log) t ≡ undo_in log t) }
    ensures stand { (log : List LogRecord) (volume : LoggedPages) (cut : ℕ) → Lawful log → MayBeCut log volume cut →
        DoubtsStand (drop cut log) ↔ DoubtsStand log }
    ensures restored { (log : List LogRecord) (volume : LoggedPages) (cut : ℕ) (held : List Hold) → Lawful log → MayBeCut log volume cut →
        AreRestored (drop cut log) held ↔ AreRestored log held }
{}

/// The table of those that have not ended is the same by what is left as by the whole log: so is what analysis tells of them, their numbers and states.
/// By what is left of any prefix they are no more than by the prefix.
pub fn cut_logs_have_the_same_table()
    ensures table { (log : List LogRecord) (volume : LoggedPages) (cut : ℕ) (txns : List LogTxn) → Lawful log → MayBeCut log volume cut →
        IsKeptTable cut (drop cut log) txns ↔ IsTable log txns }
    ensures no_longer { (log : List LogRecord) (cut n : ℕ) (few all : List LogTxn) → Lawful log → cut ≤ length log → IsKeptTable cut (take n (drop cut log)) few →
        IsTable (take (cut + n) log) all → length few ≤ length all }
{}

/// What is left of a lawful log means what it has to, each record given the kept ones before it: so no such log is refused. Where records of a transaction
/// are cut off, that it has ended stands in what is kept. An entry of a checkpoint is as what is kept from before its begin tells, or of such a
/// transaction. The numbers of an entry that is as the kept records tell are those of its transaction's records. Where nothing is cut off, each record of a
/// transaction is judged as in a whole log.
pub fn cut_logs_are_meant()
    ensures meant { (log : List LogRecord) (volume : LoggedPages) (cut : ℕ) → Lawful log → MayBeCut log volume cut → AreMeantBehind cut (drop cut log) }
    ensures ended { (log : List LogRecord) (volume : LoggedPages) (cut t : ℕ) → Lawful log → MayBeCut log volume cut → 0 < t → has_record t (take cut log) ≡ true →
        IsKeptUnended cut (drop cut log) t → ⊥ }
    ensures names { (cut : ℕ) (kept : List LogRecord) (e : LogTxn) → IsKeptEntry cut kept e → NamesItsRecords cut kept e }
    ensures whole { (kept before : List LogRecord) (r : LogRecord) → IsMeantBehind 0 kept before r → 0 < r.txn → IsMeantWhole 0 before r }
{}

/// A restart that knows the kept records alone, and how many are cut off before them, does what one over the whole log may do: it appends the same records of
/// undo and redoes the same records. Once it has no loser left, the whole log has none; and those in doubt are those that it found.
pub fn kept_records_are_enough()
    ensures steps { (cut : ℕ) (s : RecoveryState) (events : List RecoveryEvent) (last : KeptStore) → IsRecoverable s → Lawful s.log → MayBeCut s.log s.volume cut →
        cut ≤ s.redone → KeptLeadTo (seen_behind cut s) events last →
        (whole : RecoveryState) × RestartsTo s events whole × (last ≡ seen_behind cut whole) × Lawful whole.log × MayBeCut whole.log whole.volume cut }
    ensures ends { (log : List LogRecord) (volume : LoggedPages) (cut : ℕ) → Lawful log → MayBeCut log volume cut → KeepsNoLosers cut (drop cut log) → HasNoLosers log }
    ensures doubts { (cut : ℕ) (s : RecoveryState) (events : List RecoveryEvent) (last : KeptStore) → IsRecoverable s → Lawful s.log → MayBeCut s.log s.volume cut →
        cut ≤ s.redone → KeptLeadTo (seen_behind cut s) events last → doubts_in last.kept ≡ doubts_in s.log }
{}
