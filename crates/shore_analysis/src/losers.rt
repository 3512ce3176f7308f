//! The transactions that undo still has to end, and the record that it appends next.
ghost use Rattle.std.specs.Prelude.{◌≡◌, ◌≢◌, ◌<◌, ◌≤◌, ◌+◌, ◌++◌, ◌∷◌, [], ℕ, List, IfOk, IfNone, IfSome, IsFalse, IsTrue, MatchOption, drop, false, filter, length, map, take};
ghost use Rattle.std.specs.List.{AllByRecursion};
ghost use Rattle.shore_types.specs.Images.{Image};
ghost use Rattle.shore_types.specs.declared.ids.Rid.{Rid};
ghost use Rattle.shore_types.specs.declared.layout.Geometry.{Geometry};
ghost use Rattle.shore_model.specs.declared.log_records.LogRecord.{LogRecord};
ghost use Rattle.shore_model.specs.declared.log_records.Payload.TheVariants.{Change, Compensation};
ghost use Rattle.shore_model.specs.Logs.{IsTable, Lawful, unanswered, undo_next_of};
ghost use Rattle.laws_lives.specs.Views.{IsAmong};
ghost use Rattle.laws_lives.specs.Undo.{HasNoLosers, IsLoser, IsUndoneTo, undo_payload, undo_record};
ghost use Rattle.laws_checkpoints.specs.KeptLogs.{has_record};
ghost use Rattle.shore_analysis.specs.declared.analysis.Tables.{Tables};
ghost use Rattle.shore_analysis.specs.KeptMeant.{AreMeantKept};
ghost use Rattle.shore_analysis.specs.Meant.{AreMeant, AreMeantOf};
ghost use Rattle.shore_analysis.specs.Padded.{padded};
ghost use Rattle.shore_analysis.specs.Tables.{AreTables};
ghost use Rattle.shore_analysis.specs.Losers as losers;
ghost use Rattle.shore_analysis.specs.Losers.{CutsOffEnded, HasLosers, IsNextToUndo, NeedNotWait, is_another, is_of_loser, turns_left};

use crate::chains::{next_behind, record_behind};
use shore_model::{LogRecord, LogTxn, Payload};
use shore_types::images::copy_of;
use shore_types::{Bytes, Lsn, Rid, Sequence, TxnId};
use std::alloc::{AllocError, Global};

/// The losers, each with the numbers of its last record and of its Change to be undone next.
#[derive(Drop)]
pub struct Losers {
    // An entry of the transaction table for each loser that is left, with its numbers as after the records of undo so far.
    entries: Vec<LogTxn>,
}

impl Losers {
    /// The losers of a log, by its table of transactions: all but those in doubt.
    pub fn of(txns: Sequence<LogTxn>) -> Losers
        ensures losers { (g : Geometry) (found : List LogRecord) (tables : Tables) → AreMeant g found → AreTables found tables → tables.txns ≡ txns
            → HasLosers found result }
        ensures table { (log : List LogRecord) → IsTable log txns → HasLosers log result }
        ensures entries { result.entries.items ≡ filter is_of_loser txns }
    {
        let mut entries = txns.into_vec();
        leave_doubts(&mut entries);
        Losers { entries }
    }

    /// How many are left.
    pub fn count(&self) -> usize
        ensures { result ≡ length self.now.entries.items }
    {
        self.entries.len()
    }

    /// The next record of undo: the End of a loser with nothing left to be undone, or, if there is none, a Compensation of the loser with the
    /// greatest number to be undone next; None if nobody is left. The records are those that the restart found: what undo has appended behind
    /// them is not needed.
    pub fn next_record(
        &self,
        alloc: Global,
        found: &[LogRecord],
    ) -> Result<Option<LogRecord>, AllocError>
        ensures none { (log : List LogRecord) → HasLosers log self.now → IfOk result (λ next. IfNone next (HasNoLosers log)) }
        ensures loser { (log : List LogRecord) → HasLosers log self.now → IfOk result (λ next. IfSome next (λ r. IsLoser log r.txn)) }
        ensures turn { (log : List LogRecord) → HasLosers log self.now → IfOk result (λ next. IfSome next (λ r. IsNextToUndo log r.txn)) }
        ensures undoes { (g : Geometry) (turns : List ℕ) (log : List LogRecord) → AreMeant g found.now → IsUndoneTo found.now turns log
            → HasLosers log self.now → IfOk result (λ next. IfSome next (λ r. r ≡ undo_record log r.txn)) }
    {
        self.next_record_behind(alloc, 0, found)
    }

    /// The next record of undo, as above, where the records that the restart found are those of the log behind the first `cut`. All records of a loser are
    /// among them.
    pub fn next_record_behind(
        &self,
        alloc: Global,
        cut: u64,
        found: &[LogRecord],
    ) -> Result<Option<LogRecord>, AllocError>
        ensures none { (log : List LogRecord) → HasLosers log self.now → IfOk result (λ next. IfNone next (HasNoLosers log)) }
        ensures loser { (log : List LogRecord) → HasLosers log self.now → IfOk result (λ next. IfSome next (λ r. IsLoser log r.txn)) }
        ensures turn { (log : List LogRecord) → HasLosers log self.now → IfOk result (λ next. IfSome next (λ r. IsNextToUndo log r.txn)) }
        ensures undoes { (g : Geometry) (whole : List LogRecord) (turns : List ℕ) (log : List LogRecord) → CutsOffEnded cut whole → found.now ≡ drop cut whole
            → AreMeantKept g cut found.now → IsUndoneTo whole turns log → HasLosers log self.now → IfOk result (λ next. IfSome next (λ r. r ≡ undo_record log r.txn)) }
    {
        let Some(loser) = next_in_turn(self.entries.as_slice()) else {
            return Ok(None);
        };
        let payload = undo_of(alloc, cut, found, loser.undo_next)?;
        Ok(Some(LogRecord {
            txn: loser.txn,
            previous: loser.last,
            payload,
        }))
    }

    /// The number of the Change that the next record of undo undoes; 0 if that is an End, or nobody is left.
    pub fn next_change(&self) -> Lsn
        ensures { (log : List LogRecord) (t : ℕ) → HasLosers log self.now → IsLoser log t → IsNextToUndo log t → result ≡ undo_next_of (unanswered t log) }
    {
        match next_in_turn(self.entries.as_slice()) {
            Some(loser) => loser.undo_next,
            None => Lsn(0),
        }
    }

    /// The next record of undo was logged, under this number.
    pub fn note_logged(&mut self, logged: &LogRecord, number: Lsn)
        ensures losers { (log : List LogRecord) → HasLosers log self.old → IsLoser log logged.now.txn → logged.now ≡ undo_record log logged.now.txn
            → number ≡ length log + 1 → HasLosers (log ++ logged.now ∷ []) self.new }
        ensures fewer { (log : List LogRecord) → HasLosers log self.old → IsLoser log logged.now.txn → logged.now ≡ undo_record log logged.now.txn
            → turns_left (log ++ logged.now ∷ []) self.new < turns_left log self.old }
    {
        match next_after(&logged.payload) {
            Some(undo_next) => renumber(&mut self.entries, logged.txn, number, undo_next),
            None => leave(&mut self.entries, logged.txn),
        }
    }
}

// The number of the Change to be undone after this record of undo, which a Compensation names.
fn next_after(payload: &Payload) -> Option<Lsn>
    ensures { MatchOption result ((id : Rid) (image : Image) (undo_next : ℕ) → payload.now ≢ Compensation id image undo_next)
        (λ undo_next. (id : Rid) × (image : Image) × (payload.now ≡ Compensation id image undo_next)) }
{
    match payload {
        Payload::Compensation { undo_next, .. } => Some(*undo_next),
        Payload::Change { .. } => None,
        Payload::Commit => None,
        Payload::End => None,
        Payload::Prepare { .. } => None,
        Payload::RollbackDecided => None,
        Payload::CheckpointBegin => None,
        Payload::CheckpointEnd { .. } => None,
        Payload::Anchor { .. } => None,
    }
}

// An entry whose turn it may be.
fn next_in_turn(entries: &[LogTxn]) -> Option<LogTxn>
    ensures none { IfNone result (entries.now ≡ []) }
    ensures some { IfSome result (λ e. IsAmong e entries.now) }
    ensures first { IfSome result (λ e. AllByRecursion (λ x. NeedNotWait e.undo_next x.undo_next) entries.now) }
{
    let (first, rest) = entries.split_first()?;
    match next_in_turn(rest) {
        Some(other) if has_to_wait(first.undo_next, other.undo_next) => Some(other),
        _ => Some(*first),
    }
}

// Whether a loser with this number to be undone next has to wait for one with the other number.
fn has_to_wait(one: Lsn, other: Lsn) -> bool
    ensures wait { IsTrue result → NeedNotWait other one }
    ensures not { IsFalse result → NeedNotWait one other }
{
    one.0 != 0 && (other.0 == 0 || one.0 < other.0)
}

// What undo of the Change with this number says; at 0 nothing is left to be undone. The records are those of a whole log behind the first `cut`, among them
// all of the transaction.
fn undo_of(alloc: Global, cut: u64, found: &[LogRecord], change: Lsn) -> Result<Payload, AllocError>
    ensures { (g : Geometry) (whole : List LogRecord) (turns : List ℕ) (log : List LogRecord) (t : ℕ) → 0 < t → cut ≤ length whole → has_record t (take cut whole) ≡ false
        → found.now ≡ drop cut whole → AreMeantOf g t (padded cut found.now) → IsUndoneTo whole turns log → change ≡ undo_next_of (unanswered t log)
        → IfOk result (λ payload. payload ≡ undo_payload (unanswered t log)) }
{
    let Some(logged) = record_behind(cut, found, change) else {
        return Ok(Payload::End);
    };
    match change_in(&logged.payload) {
        Some((id, before)) => Ok(Payload::Compensation {
            id,
            after: copy_of(alloc, before)?,
            undo_next: next_behind(cut, found, logged),
        }),
        None => Ok(Payload::End),
    }
}

// The id that a Change is of, and the image before it.
fn change_in(payload: &Payload) -> Option<(Rid, &Option<Bytes>)>
    ensures { MatchOption result ((id : Rid) (before after : Image) → payload.now ≢ Change id before after)
        (λ change. (after : Image) × (payload.now ≡ Change change.0 change.1.now after)) }
{
    match payload {
        Payload::Change { id, before, .. } => Some((*id, before)),
        Payload::Compensation { .. } => None,
        Payload::Commit => None,
        Payload::End => None,
        Payload::Prepare { .. } => None,
        Payload::RollbackDecided => None,
        Payload::CheckpointBegin => None,
        Payload::CheckpointEnd { .. } => None,
        Payload::Anchor { .. } => None,
    }
}

// Puts these numbers into the transaction's entry.
fn renumber(entries: &mut Vec<LogTxn>, txn: TxnId, last: Lsn, undo_next: Lsn)
    ensures { entries.new.items ≡ map (losers.with_numbers txn last undo_next) entries.old.items }
{
    for entry in entries.iter_mut() {
        *entry = with_numbers(*entry, txn, last, undo_next);
    }
}

// The entry, with these numbers if it is the transaction's.
fn with_numbers(entry: LogTxn, txn: TxnId, last: Lsn, undo_next: Lsn) -> LogTxn
    ensures { result ≡ losers.with_numbers txn last undo_next entry }
{
    if entry.txn != txn {
        return entry;
    }
    LogTxn {
        last,
        undo_next,
        ..entry
    }
}

// Takes the transaction's entry out.
fn leave(entries: &mut Vec<LogTxn>, txn: TxnId)
    ensures { entries.new.items ≡ filter (is_another txn) entries.old.items }
{
    entries.retain(|entry| entry.txn != txn);
}

// Takes the entries of those in doubt out.
fn leave_doubts(entries: &mut Vec<LogTxn>)
    ensures { entries.new.items ≡ filter is_of_loser entries.old.items }
{
    entries.retain(|entry| !entry.state.is_prepared());
}
