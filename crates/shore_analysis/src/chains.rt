//! The Change that a Compensation answers, and the one below it, found by the numbers that records name.
ghost use Rattle.std.specs.Prelude.{◌≡◌, ◌↔◌, ◌<◌, ◌≤◌, ◌+◌, ◌-◌, ℕ, IsTrue, None, Some, option_copied, slice_get, take};
ghost use Rattle.shore_types.specs.declared.layout.Geometry.{Geometry};
ghost use Rattle.shore_model.specs.Logs.{Answers, unanswered, undo_next_of};
ghost use Rattle.laws_lives.specs.UndoChains.{next_named_by};
ghost use Rattle.shore_analysis.specs.Meant.{AreMeantOf, IsChange, IsChangeFrom};
ghost use Rattle.shore_analysis.specs.Padded.{padded};

use shore_model::{LogRecord, Payload};
use shore_types::{Bytes, Lsn, Rid};

/// The number of the Change to be undone next after a record with this number.
pub(crate) fn next_named(number: Lsn, payload: &Payload) -> Lsn
    ensures { result ≡ next_named_by number payload.now }
{
    match payload {
        Payload::Change { .. } => number,
        Payload::Compensation { undo_next, .. } => *undo_next,
        Payload::Commit
        | Payload::End
        | Payload::Prepare { .. }
        | Payload::RollbackDecided
        | Payload::CheckpointBegin
        | Payload::CheckpointEnd { .. }
        | Payload::Anchor { .. } => Lsn(0),
    }
}

/// The record of this number.
pub fn record_at(log: &[LogRecord], number: Lsn) -> Option<&LogRecord>
    ensures some { 0 < number → option_copied result ≡ slice_get log.now (number - 1) }
    ensures none { number ≡ 0 → result ≡ None }
{
    record_behind(0, log, number)
}

/// The record of this number in a log whose first `cut` records are cut off; None if that one is.
pub fn record_behind(cut: u64, kept: &[LogRecord], number: Lsn) -> Option<&LogRecord>
    ensures some { cut < number → option_copied result ≡ slice_get kept.now (number - (cut + 1)) }
    ensures none { number ≤ cut → result ≡ None }
{
    if number.0 <= cut {
        return None;
    }
    kept.get((number.0 - cut - 1) as usize)
}

/// The number of the Change that is left to be undone next once this one is, 0 if none is: its transaction's record before it says so.
pub(crate) fn next_behind(cut: u64, kept: &[LogRecord], change: &LogRecord) -> Lsn
    ensures { (g : Geometry) (n : ℕ) → 0 < change.now.txn → AreMeantOf g change.now.txn (padded cut kept.now) → slice_get (padded cut kept.now) n ≡ Some change.now
        → IsChange change.now.payload → result ≡ undo_next_of (unanswered change.now.txn (take n (padded cut kept.now))) }
{
    match record_behind(cut, kept, change.previous) {
        Some(last) => next_named(change.previous, &last.payload),
        None => Lsn(0),
    }
}

/// Whether a Compensation answers the Change of this number, its transaction's newest unanswered one. Numbers lead to the one below
/// (ARIES: PrevLSN and UndoNxtLSN).
pub(crate) fn is_answer(
    cut: u64,
    kept: &[LogRecord],
    newest: Lsn,
    id: &Rid,
    image: &Option<Bytes>,
    undo_next: Lsn,
) -> bool
    ensures { (g : Geometry) (t : ℕ) → 0 < t → AreMeantOf g t (padded cut kept.now) → newest ≡ undo_next_of (unanswered t (padded cut kept.now))
        → (IsTrue result ↔ Answers (unanswered t (padded cut kept.now)) id.now image.now undo_next) }
{
    match record_behind(cut, kept, newest) {
        Some(change) => undo_next == next_behind(cut, kept, change)
            && puts_back(&change.payload, id, image),
        None => false,
    }
}

// Whether the record is a Change of the id from this image.
fn puts_back(payload: &Payload, id: &Rid, image: &Option<Bytes>) -> bool
    ensures { IsTrue result ↔ IsChangeFrom id.now image.now payload.now }
{
    match payload {
        Payload::Change {
            id: changed,
            before,
            ..
        } => *changed == *id && *before == *image,
        Payload::Compensation { .. }
        | Payload::Commit
        | Payload::End
        | Payload::Prepare { .. }
        | Payload::RollbackDecided
        | Payload::CheckpointBegin
        | Payload::CheckpointEnd { .. }
        | Payload::Anchor { .. } => false,
    }
}
