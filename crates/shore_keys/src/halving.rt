//! The texts of the two halves of a node.
ghost use Rattle.std.specs.Prelude.{◌≡◌, ◌++◌, ◌<◌, IfOk, List, Some, ℕ, drop, length, option_map, take};
ghost use Rattle.byteorder.specs.Endian.{little_bytes};
ghost use Rattle.shore_keys.specs.Halves.{IsHalved, IsMiddle, IsMiddleKey};
ghost use Rattle.shore_keys.specs.Cuts.{Spells};
ghost use Rattle.shore_keys.specs.Nodes.{Entry as Pair, Node, entries_at, node_at};

use crate::cuts::behind_all;
use crate::nodes::{Entry, Front, entry_at, front_at};
use crate::refusals::Refusal;
use crate::texts::padded;
use crate::writing::{before, put_entry, put_front};
use byteorder::{ByteOrder, LittleEndian};
use shore_types::{Bytes, images};
use std::alloc::{AllocError, Global};

/// A node that is cut in two.
#[derive(Drop)]
pub struct Halves {
    /// The first key of the right half.
    pub key: Bytes,
    /// The text of the right half.
    pub right: Bytes,
    /// How many entries the left half has.
    pub count: u16,
    /// Their bytes.
    pub first: Bytes,
}

// Half of the entries of a node that has two at least; the bytes behind these; and the first of the others.
fn middle<'a>(front: &Front<'a>) -> Option<(u16, &'a [u8], Entry<'a>)>
    ensures { (es : List Pair) → entries_at front.now.count front.now.body.now ≡ Some es
        → IsMiddle front.now.count front.now.body.now es (option_map (λ x. (x.0, x.1.now, (x.2.key.now, x.2.page, x.2.slot))) result) }
{
    if front.count < 2 {
        return None;
    }
    let half = front.count / 2;
    let rest = behind_all(half, front.body)?;
    let (entry, _behind) = entry_at(rest)?;
    Some((half, rest, entry))
}

/// The first key of the right half of a node that is cut in two. None if it has fewer than two entries.
pub fn middle_key(bytes: &[u8]) -> Option<&[u8]>
    ensures { (node : Node) → node_at bytes.now ≡ Some node → IsMiddleKey node.entries (option_map (λ k. k.now) result) }
{
    let front = front_at(bytes)?;
    let (_half, _rest, entry) = middle(&front)?;
    Some(entry.key)
}

// The text of the right half: the front of the whole with another number of entries, the bytes of these, and zeros.
fn right_text(
    alloc: Global,
    front: &[u8],
    count: u16,
    rest: &[u8],
    len: usize,
) -> Result<Bytes, AllocError>
    ensures { IfOk result (λ text. (more : List ℕ) × (text ≡ ((take 2 front.now ++ (little_bytes 2 count ++ drop 4 front.now)) ++ rest.now) ++ more)) }
{
    let mut text = Vec::new(alloc);
    put_front(&mut text, front, count)?;
    text.extend_from_slice(rest)?;
    Ok(Bytes::from_vec(padded(text, len)?))
}

/// Cuts a node in two. None if it has fewer than two entries.
pub fn halved(alloc: Global, bytes: &[u8]) -> Result<Option<Halves>, Refusal>
    ensures { (node : Node) → node_at bytes.now ≡ Some node → IsHalved node result }
{
    let Some(front) = front_at(bytes) else {
        return Err(Refusal::Damaged);
    };
    let Some((half, rest, entry)) = middle(&front) else {
        return Ok(None);
    };
    Ok(Some(Halves {
        key: images::copied(alloc, entry.key)?,
        right: right_text(
            alloc,
            before(bytes, front.body),
            front.count.saturating_sub(half),
            rest,
            bytes.len(),
        )?,
        count: half,
        first: images::copied(alloc, before(front.body, rest))?,
    }))
}

/// The text of the left half, whose right neighbour is the other one.
pub fn left_text(
    alloc: Global,
    level: u8,
    halves: &Halves,
    spot: (u32, u16),
    len: usize,
) -> Result<Bytes, AllocError>
    requires { length halves.now.key < 256 }
    ensures { IfOk result (λ text. (xs : List Pair) → Spells halves.now.first xs → length xs ≡ halves.now.count
        → node_at text ≡ Some (record { level = level; right = Some (halves.now.key, spot.0, spot.1); entries = xs })) }
{
    let number = halves.count;
    let mut count = [0u8; 2];
    LittleEndian::write_u16(&mut count, number);
    let mut text = Vec::from_slice(alloc, &[level, 1])?;
    text.extend_from_slice(&count)?;
    put_entry(&mut text, halves.key.as_slice(), spot)?;
    text.extend_from_slice(halves.first.as_slice())?;
    Ok(Bytes::from_vec(padded(text, len)?))
}
