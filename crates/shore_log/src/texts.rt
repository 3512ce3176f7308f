//! The texts of records, one behind another: they are counted, and read again.
ghost use Rattle.std.specs.Prelude.{◌≡◌, ◌⊎◌, ◌+◌, ◌≤◌, ◌<◌, ◌^◌, [], ◌∷◌, ◌++◌, All, List, ℕ, IfOk, IsOk, OnErr, OnOk, drop, length, take, vec_capacity, vec_len};
ghost use Rattle.shore_model.specs.declared.log_records.LogRecord.{LogRecord};
ghost use Rattle.shore_logrec.specs.Text.{Fits, text, texts};
ghost use Rattle.shore_frames.specs.Frames.{IsLongest};

use shore_frames::FrameAt;
use shore_logrec::{LogRecord, decode, encode, u32_at};
use shore_types::layout::MAX_FRAME_BYTES;
use std::alloc::{AllocError, Global};
use std::mem;

// Where a text says how many bytes its payload has, and how many bytes stand before that.
const PAYLOAD_LEN_AT: usize = 17;

const TEXT_HEAD_BYTES: usize = 21;

/// Appends the texts of records.
pub fn encode_all(records: &[LogRecord], out: &mut Vec<u8>) -> Result<(), AllocError>
    requires { All Fits records.now }
    ensures { OnOk result (out.new.items ≡ out.old.items ++ texts records.now) }
{
    for record in records {
        encode(record, out)?;
    }
    Ok(())
}

/// Moves bytes to the end of others; where there are no others the two change places. It takes no memory if one of both has the room.
pub fn move_behind(out: &mut Vec<u8>, more: &mut Vec<u8>) -> Result<(), AllocError>
    ensures ok { OnOk result ((out.new.items ≡ out.old.items ++ more.old.items) × (more.new.items ≡ [])) }
    ensures idle { vec_len out.old + vec_len more.old ≤ vec_capacity out.old → IsOk result }
    ensures brought { vec_len out.old + vec_len more.old ≤ vec_capacity more.old → IsOk result }
    ensures empty { vec_len out.old ≡ 0 → IsOk result }
    ensures err { OnErr result ((out.new.items ≡ out.old.items) × (more.new.items ≡ more.old.items)) }
    ensures left { OnErr result (vec_capacity more.old ≤ vec_capacity more.new) }
    // Each has its room still, or they have changed places.
    ensures room { OnOk result (((vec_capacity out.old ≤ vec_capacity out.new) × (vec_capacity more.old ≤ vec_capacity more.new))
        ⊎ ((vec_capacity more.old ≤ vec_capacity out.new) × (vec_capacity out.old ≤ vec_capacity more.new))) }
{
    if out.is_empty() {
        mem::swap(out, more);
        return Ok(());
    }
    let out_len = out.len();
    let more_len = more.len();
    if out_len + more_len > out.capacity() && out_len + more_len <= more.capacity() {
        more.append(out)?;
        more.rotate_left(more_len);
        mem::swap(out, more);
        return Ok(());
    }
    out.append(more)
}

/// Sees that an index has room for so many entries more: by the room that was brought, which has no entry, if it has none.
pub fn take_entries(
    frames: &mut Vec<FrameAt>,
    brought: &mut Vec<FrameAt>,
    more: usize,
) -> Result<(), AllocError>
    requires empty { vec_len brought.old ≡ 0 }
    ensures items { frames.new.items ≡ frames.old.items }
    ensures empty { vec_len brought.new ≡ 0 }
    ensures room { OnOk result (vec_len frames.new + more ≤ vec_capacity frames.new) }
    ensures kept { vec_capacity frames.old ≤ vec_capacity frames.new }
    ensures idle { vec_len frames.old + more ≤ vec_capacity frames.old → IsOk result }
    ensures brought { vec_len frames.old + more ≤ vec_capacity brought.old → IsOk result }
    ensures err { OnErr result (vec_capacity brought.new ≡ vec_capacity brought.old) }
{
    let len = frames.len();
    if more <= frames.capacity() - len {
        return Ok(());
    }
    if more <= brought.capacity() - brought.len() && len <= brought.capacity() - more {
        brought.append(frames)?;
        mem::swap(frames, brought);
        return Ok(());
    }
    frames.reserve(more)
}

/// The records of some texts.
pub fn decode_all(alloc: Global, bytes: &[u8]) -> Result<Vec<LogRecord>, AllocError>
    ensures { (rs : List LogRecord) → All Fits rs → bytes.now ≡ texts rs → IfOk result (λ records. records.items ≡ rs) }
{
    let mut records = Vec::new(alloc);
    let mut at = 0;
    while at < bytes.len() {
        let Some((record, len)) = decode(alloc, &bytes[at..])? else {
            return Ok(records);
        };
        records.push(record)?;
        at += len;
    }
    Ok(records)
}

/// How many of the records with these texts, the first on, one frame may hold at most, and the length of their texts.
pub fn longest_texts(bytes: &[u8]) -> (usize, usize)
    ensures within { result.1 ≤ length bytes.now }
    ensures longest { (rs : List LogRecord) → All Fits rs → bytes.now ≡ texts rs → IsLongest rs result.0 }
    ensures len { (rs : List LogRecord) → All Fits rs → bytes.now ≡ texts rs → result.1 ≡ length (texts (take result.0 rs)) }
{
    let mut count = 0;
    let mut len = 0;
    let end = bytes.len();
    while len < end {
        let with_it = len + text_len(&bytes[len..]);
        if with_it > end {
            return (count, len);
        }
        if with_it > MAX_FRAME_BYTES {
            return (count, len);
        }
        len = with_it;
        count += 1;
    }
    (count, len)
}

/// Lets the first so many bytes go, or some of them: answers how many stand before the others then. They go once they are more than the others, so bytes
/// are moved no more often than they come.
pub fn let_go(bytes: &mut Vec<u8>, gone: usize) -> usize
    requires { gone ≤ length bytes.old.items }
    ensures left { drop result bytes.new.items ≡ drop gone bytes.old.items }
    ensures few { result + result ≤ length bytes.new.items }
    ensures none_more { length bytes.new.items ≤ length bytes.old.items }
    ensures room { vec_capacity bytes.new ≡ vec_capacity bytes.old }
{
    let left = bytes.len() - gone;
    if left == 0 {
        bytes.clear();
        return 0;
    }
    if gone <= left {
        return gone;
    }
    bytes.rotate_left(gone);
    bytes.truncate(left);
    0
}

// How many bytes the text has that stands at the front.
fn text_len(bytes: &[u8]) -> usize
    ensures some { 21 ≤ result }
    ensures most { result < 2 ^ 33 }
    ensures len { (r : LogRecord) (rest : List ℕ) → Fits r → bytes.now ≡ text r ++ rest → result ≡ length (text r) }
{
    if bytes.len() < TEXT_HEAD_BYTES {
        return TEXT_HEAD_BYTES;
    }
    match u32_at(&bytes[PAYLOAD_LEN_AT..]) {
        Some((payload, _)) => TEXT_HEAD_BYTES + payload as usize,
        None => TEXT_HEAD_BYTES,
    }
}
