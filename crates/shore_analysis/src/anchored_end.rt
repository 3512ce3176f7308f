//! The End of the anchored checkpoint among the kept records, and who has ended of those that it lists.
ghost use Rattle.std.specs.Prelude.{◌≡◌, ◌<◌, ◌↔◌, ℕ, All, None, Some, IfNone, IfSome, IsSomeAnd, IsTrue, is_some, length, slice_get, true};
ghost use Rattle.std.specs.Ordering.{nat_cmp};
ghost use Rattle.std.specs.BTreeSet as set;
ghost use Rattle.shore_types.specs.declared.layout.TheConstants.{LAST_OPENED};
ghost use Rattle.shore_model.specs.declared.log_records.LogRecord.{LogRecord};
ghost use Rattle.shore_model.specs.declared.log_records.LogTxn.{LogTxn};
ghost use Rattle.laws_checkpoints.specs.Checkpoints.{Checkpoint, end_among, end_in};
ghost use Rattle.shore_analysis.specs.AnchoredMeant.{IsAnchoredEnd};
ghost use Rattle.shore_analysis.specs.KeptMeant as kept_meant;
ghost use Rattle.shore_analysis.specs.KeptPasses.{KnowsEnds, ListsEnded, ListsUnended};

use crate::kept_meaning::names_cut_off;
use crate::kept_passes::KeptPass;
use shore_model::{LogRecord, LogTxn, Payload};
use shore_types::Lsn;
use std::collections::BTreeSet;

/// The place of the first End of the checkpoint that begins with the record of this number.
pub(crate) fn place_of_end(checkpoint: Lsn, kept: &[LogRecord]) -> Option<usize>
    ensures within { IfSome result (λ n. n < length kept.now) }
    ensures none { IfNone result (end_among checkpoint kept.now ≡ None) }
    ensures some { IfSome result (λ n. IsSomeAnd (slice_get kept.now n) (λ r. (c : Checkpoint) × IsAnchoredEnd checkpoint kept.now n r c)) }
{
    for index in 0..kept.len() {
        let logged = &kept[index];
        if is_end_of(&logged.payload, checkpoint) {
            return Some(index);
        }
    }
    None
}

/// The number of that End, if it lists one by a record that is cut off which has not ended since.
pub(crate) fn unended_end(
    pass: &KeptPass,
    cut: u64,
    checkpoint: Lsn,
    kept: &[LogRecord],
) -> Option<Lsn>
    requires cut { cut < LAST_OPENED }
    requires ends { KnowsEnds cut kept.now pass.now }
    ensures none { IfNone result (ListsEnded cut checkpoint kept.now) }
    ensures some { IfSome result (ListsUnended cut checkpoint kept.now) }
{
    let Some(index) = place_of_end(checkpoint, kept) else {
        return None;
    };
    let logged = &kept[index];
    if have_listed_ended(cut, &logged.payload, &pass.over) {
        return None;
    }
    Some(Lsn(cut + 1 + index as u64))
}

// Whether it is the End of the checkpoint that begins with the record of this number.
fn is_end_of(payload: &Payload, checkpoint: Lsn) -> bool
    ensures { result ≡ is_some (end_in checkpoint payload.now) }
{
    match payload {
        Payload::CheckpointEnd { begin, .. } => *begin == checkpoint,
        Payload::Change { .. } => false,
        Payload::Compensation { .. } => false,
        Payload::Commit => false,
        Payload::End => false,
        Payload::Prepare { .. } => false,
        Payload::RollbackDecided => false,
        Payload::CheckpointBegin => false,
        Payload::Anchor { .. } => false,
    }
}

// Whether all have ended whom it lists by a record that is cut off, if it is an End.
fn have_listed_ended(cut: u64, payload: &Payload, over: &BTreeSet<u64>) -> bool
    ensures { (checkpoint : ℕ) (c : Checkpoint) → end_in checkpoint payload.now ≡ Some c
        → (IsTrue result ↔ All (λ e. kept_meant.names_cut_off cut e ≡ true → set.contains nat_cmp over.now e.txn ≡ true) c.txns) }
{
    match payload {
        Payload::CheckpointEnd { txns, .. } => have_ended(cut, txns.as_slice(), over),
        Payload::Change { .. } => true,
        Payload::Compensation { .. } => true,
        Payload::Commit => true,
        Payload::End => true,
        Payload::Prepare { .. } => true,
        Payload::RollbackDecided => true,
        Payload::CheckpointBegin => true,
        Payload::Anchor { .. } => true,
    }
}

fn have_ended(cut: u64, entries: &[LogTxn], over: &BTreeSet<u64>) -> bool
    ensures { IsTrue result ↔ All (λ e. kept_meant.names_cut_off cut e ≡ true → set.contains nat_cmp over.now e.txn ≡ true) entries.now }
{
    for entry in entries {
        if !has_ended(cut, entry, over) {
            return false;
        }
    }
    true
}

fn has_ended(cut: u64, entry: &LogTxn, over: &BTreeSet<u64>) -> bool
    ensures { IsTrue result ↔ (kept_meant.names_cut_off cut entry.now ≡ true → set.contains nat_cmp over.now entry.now.txn ≡ true) }
{
    !names_cut_off(cut, entry) || over.contains(&entry.txn.0)
}
