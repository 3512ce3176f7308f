//! Texts of nodes, as they are written.
ghost use Rattle.std.specs.Prelude.{◌≡◌, ◌++◌, ◌<◌, ◌-◌, IfOk, List, OnOk, Some, ℕ, drop, length, take};
ghost use Rattle.byteorder.specs.Endian.{little_bytes};
ghost use Rattle.shore_keys.specs.Cuts.{IsWithEntry, IsWithout, parts};
ghost use Rattle.shore_keys.specs.Nodes.{Node, entry_text, node_at};

use crate::cuts::{behind_all, cut_at, found_at};
use crate::nodes::front_at;
use crate::refusals::Refusal;
use crate::texts::padded;
use byteorder::{ByteOrder, LittleEndian};
use shore_types::Bytes;
use std::alloc::{AllocError, Global};

/// How many bytes an entry has beside its key.
pub const ENTRY_BYTES: usize = 7;

/// What stands before the rest of some bytes.
pub fn before<'a>(bytes: &'a [u8], rest: &[u8]) -> &'a [u8]
    ensures { (front : List ℕ) → bytes.now ≡ front ++ rest.now → result.now ≡ front }
{
    let len = bytes.len().saturating_sub(rest.len());
    &bytes[..len]
}

/// The front of a node, with another number of entries.
pub fn put_front(text: &mut Vec<u8>, front: &[u8], count: u16) -> Result<(), AllocError>
    ensures { OnOk result (text.new.items ≡ text.old.items ++ (take 2 front.now ++ (little_bytes 2 count ++ drop 4 front.now))) }
{
    let mut number = [0u8; 2];
    LittleEndian::write_u16(&mut number, count);
    text.extend_from_slice(&front[..front.len().min(2)])?;
    text.extend_from_slice(&number)?;
    text.extend_from_slice(&front[front.len().min(4)..])
}

/// One entry.
#[tactic(auto, unfolding(crate::specs::Nodes::entry_text))]
pub fn put_entry(text: &mut Vec<u8>, key: &[u8], spot: (u32, u16)) -> Result<(), AllocError>
    requires { length key.now < 256 }
    ensures { OnOk result (text.new.items ≡ text.old.items ++ entry_text (key.now, spot.0, spot.1)) }
{
    let mut page = [0u8; 4];
    LittleEndian::write_u32(&mut page, spot.0);
    let mut slot = [0u8; 2];
    LittleEndian::write_u16(&mut slot, spot.1);
    text.push(key.len() as u8)?;
    text.extend_from_slice(key)?;
    text.extend_from_slice(&page)?;
    text.extend_from_slice(&slot)
}

// A node's text: its front, some entries, one more, others, and what fills it up.
fn assembled(
    alloc: Global,
    front: (&[u8], u16),
    first: &[u8],
    more: (&[u8], (u32, u16)),
    others: &[u8],
    rest: &[u8],
) -> Result<Vec<u8>, AllocError>
    requires { length more.0.now < 256 }
    ensures { IfOk result (λ text. text.items ≡ parts front.entry.0.now front.entry.1 first.now more.entry.0.now more.entry.1 others.now rest.now) }
{
    let mut text = Vec::new(alloc);
    put_front(&mut text, front.0, front.1)?;
    text.extend_from_slice(first)?;
    put_entry(&mut text, more.0, more.1)?;
    text.extend_from_slice(others)?;
    text.extend_from_slice(rest)?;
    Ok(text)
}

/// The text of a node with a key more, as long as it was; None if it would be longer. The key has at most `MAX_KEY_BYTES`.
pub fn with_entry(
    alloc: Global,
    bytes: &[u8],
    key: &[u8],
    spot: (u32, u16),
) -> Result<Option<Bytes>, Refusal>
    requires { length key.now < 256 }
    ensures { (node : Node) → node_at bytes.now ≡ Some node → IsWithEntry bytes.now node key.now spot result }
{
    let Some(front) = front_at(bytes) else {
        return Err(Refusal::Damaged);
    };
    let Some((at, rest)) = cut_at(front.count, front.body, key) else {
        return Err(Refusal::Damaged);
    };
    let Some(tail) = behind_all(front.count.saturating_sub(at), rest) else {
        return Err(Refusal::Damaged);
    };
    let more = key.len() + ENTRY_BYTES;
    if tail.len() < more || front.count == u16::MAX {
        return Ok(None);
    }
    let head = before(bytes, front.body);
    let text = assembled(
        alloc,
        (head, front.count + 1),
        before(front.body, rest),
        (key, spot),
        before(rest, tail),
        &tail[more..],
    )?;
    Ok(Some(Bytes::from_vec(text)))
}

// A node's text without an entry: its front, the entries before it, and those behind it, filled up.
fn without(
    alloc: Global,
    front: (&[u8], u16),
    first: &[u8],
    behind: &[u8],
    len: usize,
) -> Result<Bytes, AllocError>
    ensures { IfOk result (λ text. (more : List ℕ) × (text ≡ (((take 2 front.entry.0.now ++ (little_bytes 2 front.entry.1 ++ drop 4 front.entry.0.now)) ++ first.now) ++ behind.now) ++ more)
        × (length more ≡ len - length (((take 2 front.entry.0.now ++ (little_bytes 2 front.entry.1 ++ drop 4 front.entry.0.now)) ++ first.now) ++ behind.now))) }
{
    let mut text = Vec::new(alloc);
    put_front(&mut text, front.0, front.1)?;
    text.extend_from_slice(first)?;
    text.extend_from_slice(behind)?;
    Ok(Bytes::from_vec(padded(text, len)?))
}

/// The text of a node without a key, filled up to its length. `Damaged` if it has not the key.
pub fn without_entry(alloc: Global, bytes: &[u8], key: &[u8]) -> Result<Bytes, Refusal>
    ensures { (node : Node) → node_at bytes.now ≡ Some node → IsWithout bytes.now node key.now result }
{
    let Some(front) = front_at(bytes) else {
        return Err(Refusal::Damaged);
    };
    let Some((_at, rest, behind)) = found_at(front.count, front.body, key) else {
        return Err(Refusal::Damaged);
    };
    let text = without(
        alloc,
        (before(bytes, front.body), front.count.saturating_sub(1)),
        before(front.body, rest),
        behind,
        bytes.len(),
    )?;
    Ok(text)
}
