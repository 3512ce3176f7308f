//! Records from their texts.
ghost use Rattle.std.specs.Prelude.{◌≡◌, ◌≤◌, ◌*◌, ◌++◌, List, ℕ, length, take, option_map, IfOk, IfSome, IsSomeAnd};
ghost use Rattle.shore_model.specs.declared.log_records.LogRecord.{LogRecord};
ghost use Rattle.shore_logrec.specs.Text.{Fits, text};
ghost use Rattle.shore_logrec.specs.Reading as spec;

use crate::tables::{entries_at, short_table_at};
use byteorder::{ByteOrder, LittleEndian};
use shore_model::{DirtyPage, LogRecord, LogTxn, Payload, TxnState};
use shore_types::images::copied;
use shore_types::layout::{
    MAX_GLOBAL_ID_BYTES, MAX_POOL_FRAMES, MAX_RECORD_BYTES, MAX_TRANSACTIONS, MOST_MAX_LOCKS,
};
use shore_types::{Granule, Lsn, PageId, Rid, StoreId, TxnId, images};
use std::alloc::{AllocError, Global};

// Two bytes as a number, and the bytes behind them; None if there are fewer.
#[tactic(auto, unfolding(crate::specs::Reading::number_at))]
pub(crate) fn u16_at(bytes: &[u8]) -> Option<(u16, &[u8])>
    ensures { option_map (λ x. (x.0, x.1.now)) result ≡ spec.number_at 2 bytes.now }
{
    if bytes.len() < 2 {
        return None;
    }
    Some((LittleEndian::read_u16(bytes), &bytes[2..]))
}

/// Four bytes as a number, and the bytes behind them; None if there are fewer.
#[tactic(auto, unfolding(crate::specs::Reading::number_at))]
pub fn u32_at(bytes: &[u8]) -> Option<(u32, &[u8])>
    ensures { option_map (λ x. (x.0, x.1.now)) result ≡ spec.number_at 4 bytes.now }
{
    if bytes.len() < 4 {
        return None;
    }
    Some((LittleEndian::read_u32(bytes), &bytes[4..]))
}

/// Eight bytes as a number, and the bytes behind them; None if there are fewer.
#[tactic(auto, unfolding(crate::specs::Reading::number_at))]
pub fn u64_at(bytes: &[u8]) -> Option<(u64, &[u8])>
    ensures { option_map (λ x. (x.0, x.1.now)) result ≡ spec.number_at 8 bytes.now }
{
    if bytes.len() < 8 {
        return None;
    }
    Some((LittleEndian::read_u64(bytes), &bytes[8..]))
}

// A number of two bytes, and as many bytes as it says.
#[tactic(auto, unfolding(crate::specs::Reading::string_at))]
fn short_string_at(bytes: &[u8]) -> Option<(&[u8], &[u8])>
    ensures { option_map (λ x. (x.0.now, x.1.now)) result ≡ spec.string_at 2 bytes.now }
{
    let (len, rest) = u16_at(bytes)?;
    rest.split_at_checked(len as usize)
}

// A number of four bytes, and as many bytes as it says.
#[tactic(auto, unfolding(crate::specs::Reading::string_at))]
fn long_string_at(bytes: &[u8]) -> Option<(&[u8], &[u8])>
    ensures { option_map (λ x. (x.0.now, x.1.now)) result ≡ spec.string_at 4 bytes.now }
{
    let (len, rest) = u32_at(bytes)?;
    rest.split_at_checked(len as usize)
}

#[tactic(auto, unfolding(crate::specs::Reading::image_at))]
fn image_at(bytes: &[u8]) -> Option<(Option<&[u8]>, &[u8])>
    ensures { option_map (λ x. (option_map (λ image. image.now) x.0, x.1.now)) result
        ≡ spec.image_at bytes.now }
{
    match bytes {
        [0, rest @ ..] => Some((None, rest)),
        [1, rest @ ..] => {
            let (image, rest) = short_string_at(rest)?;
            if image.len() > MAX_RECORD_BYTES {
                return None;
            }
            Some((Some(image), rest))
        }
        _ => None,
    }
}

#[tactic(auto, unfolding(crate::specs::Reading::rid_at))]
fn rid_at(bytes: &[u8]) -> Option<(Rid, &[u8])>
    ensures { option_map (λ x. (x.0, x.1.now)) result ≡ spec.rid_at bytes.now }
{
    let (store, rest) = u32_at(bytes)?;
    let (page, rest) = u32_at(rest)?;
    let (slot, rest) = u16_at(rest)?;
    let page = PageId {
        store: StoreId(store),
        page,
    };
    Some((Rid { page, slot }, rest))
}

// What the head says of the record itself.
#[derive(Clone, Copy)]
struct Head {
    // The kind of the record, from 1 to 9.
    kind: u8,
    // Its transaction.
    txn: TxnId,
    // The number of that transaction's record before it.
    previous: Lsn,
}

// The head, the bytes of the payload, and the bytes behind them.
#[tactic(auto, unfolding(crate::specs::Reading::front_at))]
fn front_at(bytes: &[u8]) -> Option<(Head, &[u8], &[u8])>
    ensures { option_map (λ x. ((x.0, x.1.now), x.2.now)) result ≡ spec.front_at bytes.now }
{
    let (kind, rest) = bytes.split_first()?;
    let (txn, rest) = u64_at(rest)?;
    let (previous, rest) = u64_at(rest)?;
    let (payload, rest) = long_string_at(rest)?;
    let head = Head {
        kind: *kind,
        txn: TxnId(txn),
        previous: Lsn(previous),
    };
    Some((head, payload, rest))
}

#[tactic(auto, unfolding(crate::specs::Reading::change_at, crate::specs::Reading::change_fields_at))]
fn read_change(alloc: Global, bytes: &[u8]) -> Result<Option<Payload>, AllocError>
    ensures { IfOk result (λ found. found ≡ spec.change_at bytes.now) }
{
    let Some((id, rest)) = rid_at(bytes) else {
        return Ok(None);
    };
    let Some((before, rest)) = image_at(rest) else {
        return Ok(None);
    };
    let Some((after, rest)) = image_at(rest) else {
        return Ok(None);
    };
    if !rest.is_empty() || (before.is_none() && after.is_none()) {
        return Ok(None);
    }
    let before = images::owned(alloc, before)?;
    let after = images::owned(alloc, after)?;
    Ok(Some(Payload::Change { id, before, after }))
}

#[tactic(auto, unfolding(crate::specs::Reading::compensation_at, crate::specs::Reading::compensation_fields_at))]
fn read_compensation(alloc: Global, bytes: &[u8]) -> Result<Option<Payload>, AllocError>
    ensures { IfOk result (λ found. found ≡ spec.compensation_at bytes.now) }
{
    let Some((id, rest)) = rid_at(bytes) else {
        return Ok(None);
    };
    let Some((after, rest)) = image_at(rest) else {
        return Ok(None);
    };
    let Some((undo_next, rest)) = u64_at(rest) else {
        return Ok(None);
    };
    if !rest.is_empty() {
        return Ok(None);
    }
    let after = images::owned(alloc, after)?;
    let undo_next = Lsn(undo_next);
    Ok(Some(Payload::Compensation {
        id,
        after,
        undo_next,
    }))
}

// The granule of a level with these ids, of which those below the level are 0.
fn granule_of(level: u8, ids: Rid) -> Option<Granule>
    ensures { result ≡ spec.granule_of level ids }
{
    let Rid { page, slot } = ids;
    let PageId { store, page } = page;
    match level {
        0 if store.0 == 0 && page == 0 && slot == 0 => Some(Granule::Volume),
        1 if page == 0 && slot == 0 => Some(Granule::Store(store)),
        2 if slot == 0 => Some(Granule::Page(PageId { store, page })),
        3 => {
            let page = PageId { store, page };
            Some(Granule::Record(Rid { page, slot }))
        }
        _ => None,
    }
}

#[tactic(auto, unfolding(crate::specs::Reading::granule_at))]
pub(crate) fn granule_at(bytes: &[u8]) -> Option<(Granule, &[u8])>
    ensures { option_map (λ x. (x.0, x.1.now)) result ≡ spec.granule_at bytes.now }
{
    let (level, rest) = bytes.split_first()?;
    let Some((ids, rest)) = rid_at(rest) else {
        return None;
    };
    let granule = granule_of(*level, ids)?;
    Some((granule, rest))
}

// A global id: its length, and as many bytes, neither too few nor too many.
#[tactic(auto, unfolding(crate::specs::Reading::global_at))]
fn global_at(bytes: &[u8]) -> Option<(&[u8], &[u8])>
    ensures { option_map (λ x. (x.0.now, x.1.now)) result ≡ spec.global_at bytes.now }
{
    let (len, rest) = bytes.split_first()?;
    let len = *len as usize;
    if len == 0 || len > MAX_GLOBAL_ID_BYTES {
        return None;
    }
    rest.split_at_checked(len)
}

#[tactic(auto, unfolding(crate::specs::Reading::prepare_at, crate::specs::Reading::prepare_fields_at, crate::specs::Reading::table_at))]
fn read_prepare(alloc: Global, bytes: &[u8]) -> Result<Option<Payload>, AllocError>
    ensures { IfOk result (λ found. found ≡ spec.prepare_at bytes.now) }
{
    let Some((global, rest)) = global_at(bytes) else {
        return Ok(None);
    };
    let Some((count, rest)) = u32_at(rest) else {
        return Ok(None);
    };
    if count > MOST_MAX_LOCKS {
        return Ok(None);
    }
    let Some((granules, rest)) = entries_at(alloc, rest, count as usize)? else {
        return Ok(None);
    };
    if !rest.is_empty() {
        return Ok(None);
    }
    let global = copied(alloc, global)?;
    Ok(Some(Payload::Prepare { global, granules }))
}

fn state_of(number: u8) -> Option<TxnState>
    ensures { result ≡ spec.state_of number }
{
    match number {
        1 => Some(TxnState::Active),
        2 => Some(TxnState::Prepared),
        3 => Some(TxnState::RollingBack),
        _ => None,
    }
}

// An entry of a checkpoint's table of transactions.
#[tactic(auto, unfolding(crate::specs::Reading::txn_at, crate::specs::Reading::txn_fields_at))]
pub(crate) fn txn_at(bytes: &[u8]) -> Option<(LogTxn, &[u8])>
    ensures { option_map (λ x. (x.0, x.1.now)) result ≡ spec.txn_at bytes.now }
{
    let (txn, rest) = u64_at(bytes)?;
    let (state, rest) = rest.split_first()?;
    let (first, rest) = u64_at(rest)?;
    let (last, rest) = u64_at(rest)?;
    let (undo_next, rest) = u64_at(rest)?;
    let (prepare, rest) = u64_at(rest)?;
    let state = state_of(*state)?;
    if txn == 0 {
        return None;
    }
    let entry = LogTxn {
        txn: TxnId(txn),
        state,
        first: Lsn(first),
        last: Lsn(last),
        undo_next: Lsn(undo_next),
        prepare: Lsn(prepare),
    };
    Some((entry, rest))
}

// An entry of a checkpoint's table of dirty pages.
#[tactic(auto, unfolding(crate::specs::Reading::dirty_at))]
pub(crate) fn dirty_at(bytes: &[u8]) -> Option<(DirtyPage, &[u8])>
    ensures { option_map (λ x. (x.0, x.1.now)) result ≡ spec.dirty_at bytes.now }
{
    let (store, rest) = u32_at(bytes)?;
    let (page, rest) = u32_at(rest)?;
    let (recovery, rest) = u64_at(rest)?;
    let page = PageId {
        store: StoreId(store),
        page,
    };
    let recovery = Lsn(recovery);
    Some((DirtyPage { page, recovery }, rest))
}

#[tactic(auto, unfolding(crate::specs::Reading::end_at, crate::specs::Reading::end_fields_at))]
fn read_end(alloc: Global, bytes: &[u8]) -> Result<Option<Payload>, AllocError>
    ensures { IfOk result (λ found. found ≡ spec.end_at bytes.now) }
{
    let Some((begin, rest)) = u64_at(bytes) else {
        return Ok(None);
    };
    let Some((next, rest)) = u64_at(rest) else {
        return Ok(None);
    };
    let Some((txns, rest)) = short_table_at(alloc, rest, MAX_TRANSACTIONS as u16)? else {
        return Ok(None);
    };
    let Some((dirty, rest)) = short_table_at(alloc, rest, MAX_POOL_FRAMES as u16)? else {
        return Ok(None);
    };
    if !rest.is_empty() {
        return Ok(None);
    }
    Ok(Some(Payload::CheckpointEnd {
        begin: Lsn(begin),
        next: TxnId(next),
        txns,
        dirty,
    }))
}

#[tactic(auto, unfolding(crate::specs::Reading::anchor_at))]
fn read_anchor(bytes: &[u8]) -> Option<Payload>
    ensures { result ≡ spec.anchor_at bytes.now }
{
    let (checkpoint, rest) = u64_at(bytes)?;
    let (tail, rest) = u64_at(rest)?;
    if !rest.is_empty() {
        return None;
    }
    Some(Payload::Anchor {
        checkpoint: Lsn(checkpoint),
        tail: Lsn(tail),
    })
}

#[tactic(auto, unfolding(crate::specs::Reading::payload_at))]
fn read_payload(alloc: Global, kind: u8, bytes: &[u8]) -> Result<Option<Payload>, AllocError>
    ensures { IfOk result (λ found. found ≡ spec.payload_at kind bytes.now) }
{
    match kind {
        1 => read_change(alloc, bytes),
        2 => read_compensation(alloc, bytes),
        3 if bytes.is_empty() => Ok(Some(Payload::Commit)),
        4 if bytes.is_empty() => Ok(Some(Payload::End)),
        5 => read_prepare(alloc, bytes),
        6 if bytes.is_empty() => Ok(Some(Payload::RollbackDecided)),
        7 if bytes.is_empty() => Ok(Some(Payload::CheckpointBegin)),
        8 => read_end(alloc, bytes),
        9 => Ok(read_anchor(bytes)),
        _ => Ok(None),
    }
}

// The records of a checkpoint, of the kinds 7 to 9, are of no transaction.
fn has_owner(head: &Head) -> bool
    ensures { result ≡ spec.has_owner head.now }
{
    if head.kind < 7 {
        return head.txn != TxnId(0);
    }
    head.txn == TxnId(0) && head.previous == Lsn(0)
}

#[tactic(auto, unfolding(crate::specs::Reading::record_at))]
fn read_record(alloc: Global, bytes: &[u8]) -> Result<Option<(LogRecord, &[u8])>, AllocError>
    ensures { IfOk result (λ found.
        option_map (λ x. (x.0, x.1.now)) found ≡ spec.record_at bytes.now) }
{
    let Some((head, payload, rest)) = front_at(bytes) else {
        return Ok(None);
    };
    if !has_owner(&head) {
        return Ok(None);
    }
    let Some(payload) = read_payload(alloc, head.kind, payload)? else {
        return Ok(None);
    };
    let record = LogRecord {
        txn: head.txn,
        previous: head.previous,
        payload,
    };
    Ok(Some((record, rest)))
}

/// The record that some front of the bytes is the text of, and how many bytes that front has; None where no front is a
/// record's text. It takes memory for what the record owns alone.
pub fn decode(alloc: Global, bytes: &[u8]) -> Result<Option<(LogRecord, usize)>, AllocError>
    // What is found is the text of a front.
    ensures found { IfOk result (λ found. IfSome found (λ x.
        Fits x.0 × (x.1 ≤ length bytes.now) × (take x.1 bytes.now ≡ text x.0))) }
    // If a front is a record's text, it is found.
    ensures only { (r : LogRecord) (rest : List ℕ) → Fits r → bytes.now ≡ text r ++ rest
        → IfOk result (λ found. IsSomeAnd found (λ x. (x.0 ≡ r) × (x.1 ≡ length (text r)))) }
{
    let Some((record, rest)) = read_record(alloc, bytes)? else {
        return Ok(None);
    };
    Ok(Some((record, bytes.len() - rest.len())))
}
