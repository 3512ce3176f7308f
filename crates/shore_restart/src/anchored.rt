//! The checkpoint that a log's anchor names.
ghost use Rattle.std.specs.Prelude.{◌≡◌, ◌↔◌, ◌<◌, ◌≤◌, ◌-◌, ◌+◌, Any, IsSomeAnd, IsTrue, is_some, slice_get};
ghost use Rattle.shore_model.specs.declared.log_records.Payload.TheVariants.{CheckpointBegin};
ghost use Rattle.laws_checkpoints.specs.Checkpoints.{end_in};
ghost use Rattle.shore_restart.specs.Anchors.{HasCheckpoint};

use shore_analysis::record_behind;
use shore_logrec::{LogRecord, Payload};
use shore_types::Lsn;

/// Whether these records, the first `cut` of the log being cut off, have the checkpoint that begins with the record of this number: that one and its End. So
/// they do if the number is 0, and there is none.
pub fn is_whole(cut: u64, kept: &[LogRecord], checkpoint: Lsn) -> bool
    ensures { IsTrue result ↔ HasCheckpoint cut checkpoint kept.now }
{
    checkpoint.0 == 0 || (has_begin(cut, kept, checkpoint) && has_end(kept, checkpoint))
}

fn has_begin(cut: u64, kept: &[LogRecord], checkpoint: Lsn) -> bool
    ensures { IsTrue result ↔ ((cut < checkpoint) × IsSomeAnd (slice_get kept.now (checkpoint - (cut + 1))) (λ r. r.payload ≡ CheckpointBegin)) }
{
    match record_behind(cut, kept, checkpoint) {
        Some(logged) => is_begin(&logged.payload),
        None => false,
    }
}

fn is_begin(payload: &Payload) -> bool
    ensures { IsTrue result ↔ (payload.now ≡ CheckpointBegin) }
{
    match payload {
        Payload::CheckpointBegin => true,
        Payload::Change { .. }
        | Payload::Compensation { .. }
        | Payload::Commit
        | Payload::End
        | Payload::Prepare { .. }
        | Payload::RollbackDecided
        | Payload::CheckpointEnd { .. }
        | Payload::Anchor { .. } => false,
    }
}

fn has_end(kept: &[LogRecord], checkpoint: Lsn) -> bool
    ensures { IsTrue result ↔ Any (λ r. IsTrue (is_some (end_in checkpoint r.payload))) kept.now }
{
    kept.iter()
        .any(|logged| is_end_of(&logged.payload, checkpoint))
}

// Whether it is the End of the checkpoint that begins with the record of this number.
fn is_end_of(payload: &Payload, checkpoint: Lsn) -> bool
    ensures { result ≡ is_some (end_in checkpoint payload.now) }
{
    match payload {
        Payload::CheckpointEnd { begin, .. } => *begin == checkpoint,
        Payload::Change { .. }
        | Payload::Compensation { .. }
        | Payload::Commit
        | Payload::End
        | Payload::Prepare { .. }
        | Payload::RollbackDecided
        | Payload::CheckpointBegin
        | Payload::Anchor { .. } => false,
    }
}
