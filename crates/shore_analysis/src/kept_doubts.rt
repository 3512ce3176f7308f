//! What the kept records of a log whose front may be cut off say of those in doubt. Who is in doubt has not ended, so all of its records are kept.
ghost use Rattle.std.specs.Prelude.{◌≡◌, ◌<◌, ◌≤◌, ◌+◌, ◌-◌, [], ℕ, IfOk, map, option_map, reverse};
ghost use Rattle.shore_types.specs.declared.layout.Geometry.{Geometry};
ghost use Rattle.shore_model.specs.Logs.{unanswered, undo_next_of};
ghost use Rattle.laws_checkpoints.specs.KeptLogs.{kept_unanswered};
ghost use Rattle.shore_analysis.specs.Doubts.{kept_said_at};
ghost use Rattle.shore_analysis.specs.KeptMeant.{AreMeantKept, IsWholeIn};
ghost use Rattle.shore_analysis.specs.Meant.{AreMeantOf};
ghost use Rattle.shore_analysis.specs.Padded.{padded};

use crate::chains::{next_behind, record_behind};
use shore_model::{LogRecord, Payload};
use shore_types::{GlobalId, Granule, Lsn};
use std::alloc::{AllocError, Global};

/// What the Prepare of this number says.
pub fn prepare_behind(cut: u64, kept: &[LogRecord], number: Lsn) -> Option<(&GlobalId, &[Granule])>
    ensures { option_map (λ found. (found.0.now, found.1.now)) result ≡ kept_said_at cut kept.now number }
{
    match &record_behind(cut, kept, number)?.payload {
        Payload::Prepare { global, granules } => Some((global, granules.as_slice())),
        Payload::Change { .. }
        | Payload::Compensation { .. }
        | Payload::Commit
        | Payload::End
        | Payload::RollbackDecided
        | Payload::CheckpointBegin
        | Payload::CheckpointEnd { .. }
        | Payload::Anchor { .. } => None,
    }
}

/// The numbers of a transaction's Changes that are still to be undone, the oldest first, if the newest has this number, 0 for none. It is whole in what is
/// kept.
pub fn to_be_undone_behind(
    alloc: Global,
    cut: u64,
    kept: &[LogRecord],
    newest: Lsn,
) -> Result<Vec<Lsn>, AllocError>
    ensures all { IfOk result (λ numbers. (g : Geometry) (t : ℕ) → 0 < t → AreMeantKept g cut kept.now → IsWholeIn cut kept.now t
        → newest ≡ undo_next_of (kept_unanswered cut t kept.now) → numbers.items ≡ reverse (map (λ c. c.number) (kept_unanswered cut t kept.now))) }
    ensures none { newest ≡ 0 → IfOk result (λ numbers. numbers.items ≡ []) }
{
    let mut numbers = newest_first(alloc, cut, kept, newest)?;
    numbers.reverse();
    Ok(numbers)
}

fn newest_first(
    alloc: Global,
    cut: u64,
    kept: &[LogRecord],
    newest: Lsn,
) -> Result<Vec<Lsn>, AllocError>
    ensures all { IfOk result (λ numbers. (g : Geometry) (t : ℕ) → 0 < t → AreMeantOf g t (padded cut kept.now) → newest ≡ undo_next_of (unanswered t (padded cut kept.now))
        → numbers.items ≡ map (λ c. c.number) (unanswered t (padded cut kept.now))) }
    ensures none { newest ≡ 0 → IfOk result (λ numbers. numbers.items ≡ []) }
{
    let mut numbers = Vec::new(alloc);
    let mut next = newest;
    for _ in 0..kept.len() {
        let Some(change) = record_behind(cut, kept, next) else {
            return Ok(numbers);
        };
        numbers.push(next)?;
        next = next_behind(cut, kept, change);
    }
    Ok(numbers)
}
