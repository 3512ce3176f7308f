//! What records take of the log's room, in bytes, by the lengths of their images.
ghost use Rattle.std.specs.Prelude.{◌≡◌, ◌≤◌, ◌+◌, ◌*◌, ℕ, List, length, option_map};
ghost use Rattle.std.specs.Option.{ForSome};
ghost use Rattle.shore_types.specs.declared.ids.Rid.{Rid};
ghost use Rattle.shore_types.specs.declared.layout.TheConstants.{GREATEST_CHECKPOINT, MAX_GLOBAL_ID_BYTES, MAX_POOL_FRAMES, MAX_RECORD_BYTES, MAX_TRANSACTIONS, MOST_MAX_LOCKS};
ghost use Rattle.shore_types.specs.declared.locking.Granule.{Granule};
ghost use Rattle.shore_types.specs.Images.{Image};
ghost use Rattle.shore_model.specs.declared.log_records.Payload.TheVariants.{Anchor, Change, CheckpointBegin, CheckpointEnd, Compensation, Prepare};
ghost use Rattle.shore_model.specs.declared.log_records.DirtyPage.{DirtyPage};
ghost use Rattle.shore_model.specs.declared.log_records.LogTxn.{LogTxn};
ghost use Rattle.shore_logrec.specs.Text as spec;
ghost use Rattle.shore_logrec.specs.Text.{cost_of};

use crate::lengths::{
    ANCHOR_TEXT_BYTES, LSN_BYTES, RID_BYTES, end_text_len, image_text_len, prepare_text_len,
};
use shore_types::layout::ENDING_COST;

/// The cost of a Change whose images have these lengths, None for an absent one.
#[tactic(auto, using(crate::proofs::TextLengths::lengths))]
pub fn change_cost(before: Option<usize>, after: Option<usize>) -> u64
    requires before { ForSome before (λ n. n ≤ MAX_RECORD_BYTES) }
    requires after { ForSome after (λ n. n ≤ MAX_RECORD_BYTES) }
    ensures sum { result ≡ 44 + spec.image_text_len before + spec.image_text_len after }
    ensures cost { (id : Rid) (b a : Image) → option_map length b ≡ before → option_map length a ≡ after
        → result ≡ cost_of (Change id b a) }
{
    ENDING_COST + (RID_BYTES + image_text_len(before) + image_text_len(after)) as u64
}

/// The cost of a Compensation whose image has this length, None for an absent one.
#[tactic(auto, using(crate::proofs::TextLengths::lengths))]
pub fn compensation_cost(image: Option<usize>) -> u64
    requires { ForSome image (λ n. n ≤ MAX_RECORD_BYTES) }
    ensures sum { result ≡ 52 + spec.image_text_len image }
    ensures cost { (id : Rid) (i : Image) (undo_next : ℕ) → option_map length i ≡ image → result ≡ cost_of (Compensation id i undo_next) }
{
    ENDING_COST + (RID_BYTES + image_text_len(image) + LSN_BYTES) as u64
}

/// The cost of a Prepare with a global id of so many bytes and so many granules.
#[tactic(auto, using(crate::proofs::TextLengths::lengths))]
pub fn prepare_cost(global: usize, granules: usize) -> u64
    requires global { global ≤ MAX_GLOBAL_ID_BYTES }
    requires granules { granules ≤ MOST_MAX_LOCKS }
    ensures sum { result ≡ 39 + global + 11 * granules }
    ensures cost { (name : List ℕ) (gs : List Granule) → length name ≡ global → length gs ≡ granules
        → result ≡ cost_of (Prepare name gs) }
{
    ENDING_COST + prepare_text_len(global, granules) as u64
}

/// The cost of a whole checkpoint with so many transactions and dirty pages in its tables: its CheckpointBegin, its
/// CheckpointEnd and its Anchor.
#[tactic(auto, using(crate::proofs::TextLengths::lengths))]
pub fn checkpoint_cost(txns: usize, pages: usize) -> u64
    requires txns { txns ≤ MAX_TRANSACTIONS }
    requires pages { pages ≤ MAX_POOL_FRAMES }
    ensures most { result ≤ GREATEST_CHECKPOINT }
    ensures cost { (begin next tail : ℕ) (entries : List LogTxn) (dirty : List DirtyPage) → length entries ≡ txns → length dirty ≡ pages
        → result ≡ cost_of CheckpointBegin + cost_of (CheckpointEnd begin next entries dirty) + cost_of (Anchor begin tail) }
{
    let texts = end_text_len(txns, pages) + ANCHOR_TEXT_BYTES;
    3 * ENDING_COST + texts as u64
}
