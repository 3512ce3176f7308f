//! How many bytes the texts of records and of their parts have.
ghost use Rattle.std.specs.Prelude.{◌≡◌, ◌≤◌, ◌+◌, ◌*◌, length};
ghost use Rattle.std.specs.Option.{ForSome};
ghost use Rattle.shore_types.specs.declared.layout.TheConstants.{FRAME_SHARE, MAX_GLOBAL_ID_BYTES, MAX_POOL_FRAMES, MAX_RECORD_BYTES, MAX_TRANSACTIONS, MOST_MAX_LOCKS};
ghost use Rattle.shore_logrec.specs.Text as spec;
ghost use Rattle.shore_logrec.specs.Text.{Fits, PayloadFits, payload_text, text, cost_of};

use shore_model::{LogRecord, Payload};
use shore_types::images;

/// The longest text, that of a Prepare with a global id and a list of granules that are as long as may be.
pub const MAX_TEXT_BYTES: usize = 45_337;
/// The bytes of a head.
pub(crate) const HEAD_BYTES: usize = 21;
/// The bytes of a record id.
pub(crate) const RID_BYTES: usize = 10;
/// The bytes of a granule: its level and its ids.
pub(crate) const GRANULE_BYTES: usize = 11;
/// The bytes of an entry of a checkpoint's table of transactions.
pub(crate) const TXN_BYTES: usize = 41;
/// The bytes of an entry of its table of dirty pages.
pub(crate) const DIRTY_BYTES: usize = 16;
/// The bytes of the number of a record.
pub(crate) const LSN_BYTES: usize = 8;
/// The bytes of an Anchor's payload: two numbers of records.
pub(crate) const ANCHOR_TEXT_BYTES: usize = 2 * LSN_BYTES;

// The bytes of an image's text, by the image's length.
pub(crate) fn image_text_len(length: Option<usize>) -> usize
    requires { ForSome length (λ n. n ≤ MAX_RECORD_BYTES) }
    ensures len { result ≡ spec.image_text_len length }
    ensures most { result ≤ 12003 }
{
    match length {
        None => 1,
        Some(length) => 3 + length,
    }
}

// The bytes of a Prepare's payload, by the length of its global id and the number of its granules.
pub(crate) fn prepare_text_len(global: usize, granules: usize) -> usize
    requires global { global ≤ MAX_GLOBAL_ID_BYTES }
    requires granules { granules ≤ MOST_MAX_LOCKS }
    ensures len { result ≡ 5 + global + 11 * granules }
    ensures most { result ≤ 45316 }
{
    1 + global + 4 + GRANULE_BYTES * granules
}

// The bytes of a CheckpointEnd's payload, by the numbers of the entries of its tables.
pub(crate) fn end_text_len(txns: usize, pages: usize) -> usize
    requires txns { txns ≤ MAX_TRANSACTIONS }
    requires pages { pages ≤ MAX_POOL_FRAMES }
    ensures len { result ≡ 20 + 41 * txns + 16 * pages }
    ensures most { result ≤ 45316 }
{
    8 + 8 + 2 + TXN_BYTES * txns + 2 + DIRTY_BYTES * pages
}

#[tactic(auto, using(crate::proofs::TextLengths::lengths))]
pub(crate) fn payload_len(payload: &Payload) -> usize
    requires { PayloadFits payload.now }
    ensures len { result ≡ length (payload_text payload.now) }
    ensures most { result ≤ 45316 }
{
    match payload {
        Payload::Change { before, after, .. } => {
            RID_BYTES
                + image_text_len(images::len_of(before))
                + image_text_len(images::len_of(after))
        }
        Payload::Compensation { after, .. } => {
            RID_BYTES + image_text_len(images::len_of(after)) + LSN_BYTES
        }
        Payload::Prepare { global, granules } => {
            prepare_text_len(global.as_slice().len(), granules.as_slice().len())
        }
        Payload::CheckpointEnd { txns, dirty, .. } => {
            end_text_len(txns.as_slice().len(), dirty.as_slice().len())
        }
        Payload::Anchor { .. } => ANCHOR_TEXT_BYTES,
        Payload::Commit | Payload::End | Payload::RollbackDecided | Payload::CheckpointBegin => 0,
    }
}

/// The bytes of the record's text.
#[tactic(auto, using(crate::proofs::TextLengths::lengths))]
pub fn encoded_len(logged: &LogRecord) -> usize
    requires { Fits logged.now }
    ensures len { result ≡ length (text logged.now) }
    ensures most { result ≤ MAX_TEXT_BYTES }
    ensures cost { cost_of logged.now.payload ≡ FRAME_SHARE + result }
{
    HEAD_BYTES + payload_len(&logged.payload)
}
