//! Texts from their records.
ghost use Rattle.std.specs.Prelude.{◌≡◌, ◌≤◌, ◌+◌, ◌++◌, All, length, IsOk, OnOk, OnErr, vec_capacity, vec_len};
ghost use Rattle.byteorder.specs.Endian.{little_bytes};
ghost use Rattle.shore_logrec.specs.Text.{Fits, GranuleFits, ImageFits, ChangeFits, CheckpointFits, CompensationFits, PrepareFits, PayloadFits, kind_of, state_number};
ghost use Rattle.shore_logrec.specs.Text.{anchor_text, checkpoint_text, dirty_text, granule_text, prepare_text, rid_text, image_text, change_text, compensation_text, payload_text, head_text, text, txn_text};
ghost use Rattle.shore_logrec.specs.Room.{HasRoom, Puts};

use crate::lengths::{encoded_len, payload_len};
use crate::tables::put_entries;
use byteorder::{ByteOrder, LittleEndian};
use shore_model::{DirtyPage, LogRecord, LogTxn, Payload, TxnState};
use shore_types::{Bytes, GlobalId, Granule, Lsn, Rid, TxnId};
use std::alloc::AllocError;

// Puts the bytes into room that is there.
fn put(out: &mut Vec<u8>, bytes: &[u8])
    requires { HasRoom out.old (length bytes.now) }
    ensures { Puts out.old out.new bytes.now }
{
    // There is room, so it cannot fail.
    let _ = out.extend_from_slice(bytes);
}

fn put_u16(out: &mut Vec<u8>, number: u16)
    requires { HasRoom out.old 2 }
    ensures { Puts out.old out.new (little_bytes 2 number) }
{
    let mut word = [0u8; 2];
    LittleEndian::write_u16(&mut word, number);
    put(out, &word);
}

fn put_u32(out: &mut Vec<u8>, number: u32)
    requires { HasRoom out.old 4 }
    ensures { Puts out.old out.new (little_bytes 4 number) }
{
    let mut word = [0u8; 4];
    LittleEndian::write_u32(&mut word, number);
    put(out, &word);
}

fn put_u64(out: &mut Vec<u8>, number: u64)
    requires { HasRoom out.old 8 }
    ensures { Puts out.old out.new (little_bytes 8 number) }
{
    let mut word = [0u8; 8];
    LittleEndian::write_u64(&mut word, number);
    put(out, &word);
}

#[tactic(auto, using(crate::proofs::TextLengths::lengths), unfolding(crate::specs::Text::rid_text))]
fn put_rid(out: &mut Vec<u8>, id: Rid)
    requires { HasRoom out.old 10 }
    ensures { Puts out.old out.new (rid_text id) }
{
    let mut ids = [0u8; 10];
    LittleEndian::write_u32(&mut ids[0..4], id.page.store.0);
    LittleEndian::write_u32(&mut ids[4..8], id.page.page);
    LittleEndian::write_u16(&mut ids[8..10], id.slot);
    put(out, &ids);
}

#[tactic(auto, using(crate::proofs::TextLengths::lengths), unfolding(crate::specs::Text::string_text))]
fn put_image(out: &mut Vec<u8>, image: &Option<Bytes>)
    requires fits { ImageFits image.now }
    requires room { HasRoom out.old (length (image_text image.now)) }
    ensures { Puts out.old out.new (image_text image.now) }
{
    match image {
        None => put(out, &[0]),
        Some(bytes) => {
            let mut head = [1u8; 3];
            LittleEndian::write_u16(&mut head[1..3], bytes.as_slice().len() as u16);
            put(out, &head);
            put(out, bytes.as_slice());
        }
    }
}

#[tactic(auto, using(crate::proofs::TextLengths::lengths))]
fn put_change(out: &mut Vec<u8>, id: Rid, before: &Option<Bytes>, after: &Option<Bytes>)
    requires fits { ChangeFits id before.now after.now }
    requires room { HasRoom out.old (length (change_text id before.now after.now)) }
    ensures { Puts out.old out.new (change_text id before.now after.now) }
{
    put_rid(out, id);
    put_image(out, before);
    put_image(out, after);
}

#[tactic(auto, using(crate::proofs::TextLengths::lengths))]
fn put_compensation(out: &mut Vec<u8>, id: Rid, after: &Option<Bytes>, undo_next: Lsn)
    requires fits { CompensationFits id after.now undo_next }
    requires room { HasRoom out.old (length (compensation_text id after.now undo_next)) }
    ensures { Puts out.old out.new (compensation_text id after.now undo_next) }
{
    put_rid(out, id);
    put_image(out, after);
    put_u64(out, undo_next.0);
}

// A level is its depth, and the ids below it are 0.
#[tactic(auto, using(crate::proofs::TextLengths::lengths))]
pub(crate) fn put_granule(out: &mut Vec<u8>, granule: &Granule)
    requires { HasRoom out.old (length (granule_text granule.now)) }
    ensures { Puts out.old out.new (granule_text granule.now) }
{
    put(out, &[granule.depth()]);
    put_rid(out, granule.ids());
}

/// Granules have ids that fit their texts. Each of them shows it, and a list of them does not, so they are read one by one.
pub fn granules_fit(granules: &[Granule])
    ensures { All GranuleFits granules.now }
{
    for granule in granules {
        let _ids = granule.ids();
    }
}

#[tactic(auto, using(crate::proofs::TextLengths::lengths), unfolding(crate::specs::Text::string_text))]
fn put_prepare(out: &mut Vec<u8>, global: &GlobalId, granules: &[Granule])
    requires fits { PrepareFits global.now granules.now }
    requires room { HasRoom out.old (length (prepare_text global.now granules.now)) }
    ensures { Puts out.old out.new (prepare_text global.now granules.now) }
{
    put(out, &[global.as_slice().len() as u8]);
    put(out, global.as_slice());
    put_u32(out, granules.len() as u32);
    put_entries(out, granules);
}

fn state_number(state: TxnState) -> u8
    ensures { result ≡ state_number state }
{
    match state {
        TxnState::Active => 1,
        TxnState::Prepared => 2,
        TxnState::RollingBack => 3,
    }
}

#[tactic(auto, using(crate::proofs::TextLengths::lengths))]
pub(crate) fn put_txn(out: &mut Vec<u8>, entry: &LogTxn)
    requires { HasRoom out.old (length (txn_text entry.now)) }
    ensures { Puts out.old out.new (txn_text entry.now) }
{
    put_u64(out, entry.txn.0);
    put(out, &[state_number(entry.state)]);
    put_u64(out, entry.first.0);
    put_u64(out, entry.last.0);
    put_u64(out, entry.undo_next.0);
    put_u64(out, entry.prepare.0);
}

#[tactic(auto, using(crate::proofs::TextLengths::lengths))]
pub(crate) fn put_dirty(out: &mut Vec<u8>, entry: &DirtyPage)
    requires { HasRoom out.old (length (dirty_text entry.now)) }
    ensures { Puts out.old out.new (dirty_text entry.now) }
{
    put_u32(out, entry.page.store.0);
    put_u32(out, entry.page.page);
    put_u64(out, entry.recovery.0);
}

#[tactic(auto, using(crate::proofs::TextLengths::lengths))]
fn put_end(out: &mut Vec<u8>, begin: Lsn, next: TxnId, txns: &[LogTxn], dirty: &[DirtyPage])
    requires fits { CheckpointFits begin next txns.now dirty.now }
    requires room { HasRoom out.old (length (checkpoint_text begin next txns.now dirty.now)) }
    ensures { Puts out.old out.new (checkpoint_text begin next txns.now dirty.now) }
{
    put_u64(out, begin.0);
    put_u64(out, next.0);
    put_u16(out, txns.len() as u16);
    put_entries(out, txns);
    put_u16(out, dirty.len() as u16);
    put_entries(out, dirty);
}

#[tactic(auto, using(crate::proofs::TextLengths::lengths))]
fn put_anchor(out: &mut Vec<u8>, checkpoint: Lsn, tail: Lsn)
    requires { HasRoom out.old 16 }
    ensures { Puts out.old out.new (anchor_text checkpoint tail) }
{
    put_u64(out, checkpoint.0);
    put_u64(out, tail.0);
}

#[tactic(auto, using(crate::proofs::TextLengths::lengths))]
fn put_payload(out: &mut Vec<u8>, payload: &Payload)
    requires fits { PayloadFits payload.now }
    requires room { HasRoom out.old (length (payload_text payload.now)) }
    ensures { Puts out.old out.new (payload_text payload.now) }
{
    match payload {
        Payload::Change { id, before, after } => put_change(out, *id, before, after),
        Payload::Compensation {
            id,
            after,
            undo_next,
        } => put_compensation(out, *id, after, *undo_next),
        Payload::Prepare { global, granules } => put_prepare(out, global, granules.as_slice()),
        Payload::CheckpointEnd {
            begin,
            next,
            txns,
            dirty,
        } => put_end(out, *begin, *next, txns.as_slice(), dirty.as_slice()),
        Payload::Anchor { checkpoint, tail } => put_anchor(out, *checkpoint, *tail),
        Payload::Commit | Payload::End | Payload::RollbackDecided | Payload::CheckpointBegin => {}
    }
}

fn kind_of(payload: &Payload) -> u8
    ensures { result ≡ kind_of payload.now }
{
    match payload {
        Payload::Change { .. } => 1,
        Payload::Compensation { .. } => 2,
        Payload::Commit => 3,
        Payload::End => 4,
        Payload::Prepare { .. } => 5,
        Payload::RollbackDecided => 6,
        Payload::CheckpointBegin => 7,
        Payload::CheckpointEnd { .. } => 8,
        Payload::Anchor { .. } => 9,
    }
}

#[tactic(auto, using(crate::proofs::TextLengths::lengths), unfolding(crate::specs::Text::head_text))]
fn put_head(out: &mut Vec<u8>, logged: &LogRecord)
    requires fits { Fits logged.now }
    requires room { HasRoom out.old 21 }
    ensures { Puts out.old out.new (head_text logged.now) }
{
    let mut head = [0u8; 21];
    head[0] = kind_of(&logged.payload);
    LittleEndian::write_u64(&mut head[1..9], logged.txn.0);
    LittleEndian::write_u64(&mut head[9..17], logged.previous.0);
    LittleEndian::write_u32(&mut head[17..21], payload_len(&logged.payload) as u32);
    put(out, &head);
}

/// Appends the record's text. If an allocation failed nothing is appended; none is made while there is room.
#[tactic(auto, using(crate::proofs::TextLengths::lengths), unfolding(crate::specs::Text::text))]
pub fn encode(logged: &LogRecord, out: &mut Vec<u8>) -> Result<(), AllocError>
    requires { Fits logged.now }
    ensures ok { OnOk result (out.new.items ≡ out.old.items ++ text logged.now) }
    ensures idle { vec_len out.old + length (text logged.now) ≤ vec_capacity out.old → IsOk result }
    ensures err { OnErr result (out.new.items ≡ out.old.items) }
    ensures capacity { vec_capacity out.old ≤ vec_capacity out.new }
{
    out.reserve(encoded_len(logged))?;
    put_head(out, logged);
    put_payload(out, &logged.payload);
    Ok(())
}
