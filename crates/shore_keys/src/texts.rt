//! Texts of new nodes.
ghost use Rattle.std.specs.Prelude.{◌≡◌, ◌++◌, ◌∷◌, ◌<◌, ◌≤◌, ◌+◌, ◌-◌, [], IfOk, List, None, ℕ, Some, length};
ghost use Rattle.shore_keys.specs.Nodes.{node_at};

use crate::writing::put_entry;
use shore_types::Bytes;
use std::alloc::{AllocError, Global};

/// Zeros after some bytes, until they are so long.
pub fn padded(text: Vec<u8>, len: usize) -> Result<Vec<u8>, AllocError>
    ensures { IfOk result (λ long. (rest : List ℕ) × (long.items ≡ text.items ++ rest) × (length rest ≡ len - length text.items)) }
{
    let mut long = text;
    let more = len.saturating_sub(long.len());
    for _at in 0..more {
        long.push(0)?;
    }
    Ok(long)
}

/// A leaf with no entry and no right neighbour, so long, if it may be.
pub fn empty_leaf(alloc: Global, len: usize) -> Result<Bytes, AllocError>
    ensures { IfOk result (λ text. (node_at text ≡ Some (record { level = 0; right = None; entries = [] })) × (4 ≤ len → length text ≡ len)) }
{
    let text = Vec::from_slice(alloc, &[0, 0, 0, 0])?;
    Ok(Bytes::from_vec(padded(text, len)?))
}

/// A node with one entry, and no right neighbour, so long, if it may be.
pub fn one_entry(
    alloc: Global,
    len: usize,
    level: u8,
    key: &[u8],
    spot: (u32, u16),
) -> Result<Bytes, AllocError>
    requires { length key.now < 256 }
    ensures { IfOk result (λ text. (node_at text ≡ Some (record { level = level; right = None; entries = (key.now, spot.0, spot.1) ∷ [] })) × (length key.now + 11 ≤ len → length text ≡ len)) }
{
    let mut text = Vec::from_slice(alloc, &[level, 0, 1, 0])?;
    put_entry(&mut text, key, spot)?;
    Ok(Bytes::from_vec(padded(text, len)?))
}
