//! An inner node that has no room is divided.
ghost use Rattle.std.specs.Prelude.{◌≡◌, Some, option_map};
ghost use Rattle.shore_keys.specs.Edges.{Divides};
ghost use Rattle.shore_keys.specs.Exchanges.{GoesOn};
ghost use Rattle.shore_keys.specs.Nodes.{Node, node_at};
ghost use Rattle.shore_keys.specs.Steps.{IsFirstKey};

use crate::caller::Caller;
use crate::calls::{inserted, updated};
use crate::halving::{halved, left_text};
use crate::maps::{KeyMap, MAX_KEY_BYTES};
use crate::nodes::{entry_at, front_at};
use crate::refusals::Refusal;
use crate::texts::one_entry;
use shore_types::{Rid, images};
use std::alloc::Global;

// The first key of a node, if it has one.
fn first_key(bytes: &[u8]) -> Option<&[u8]>
    ensures { (node : Node) → node_at bytes.now ≡ Some node → IsFirstKey node.entries (option_map (λ k. k.now) result) }
{
    let front = front_at(bytes)?;
    if front.count == 0 {
        return None;
    }
    let (entry, _behind) = entry_at(front.body)?;
    Some(entry.key)
}

// The node moves to another place, and where it was is one that leads there: so the root grows.
fn grow<C: Caller>(
    alloc: Global,
    client: &mut C,
    map: &KeyMap,
    at: &Rid,
    bytes: &[u8],
    level: u8,
) -> Result<(), Refusal>
    ensures { GoesOn (Divides map.now at.now bytes.now level result) (C.trail client.old) (C.trail client.new) }
{
    let Some(first) = first_key(bytes) else {
        return Err(Refusal::Full);
    };
    if first.len() > MAX_KEY_BYTES {
        return Err(Refusal::TooLong);
    }
    if level == u8::MAX {
        return Err(Refusal::Full);
    }
    let copy = images::copied(alloc, bytes)?;
    let moved = inserted(client, map.root.page.store, copy)?;
    let spot = (moved.page.page, moved.slot);
    let text = one_entry(alloc, bytes.len(), level + 1, first, spot)?;
    updated(client, at, text)
}

// The right half is inserted, and then the left half names it.
fn halve<C: Caller>(
    alloc: Global,
    client: &mut C,
    map: &KeyMap,
    at: &Rid,
    bytes: &[u8],
    level: u8,
) -> Result<(), Refusal>
    ensures { GoesOn (Divides map.now at.now bytes.now level result) (C.trail client.old) (C.trail client.new) }
{
    let Some(halves) = halved(alloc, bytes)? else {
        return Err(Refusal::Full);
    };
    if halves.key.as_slice().len() > MAX_KEY_BYTES {
        return Err(Refusal::TooLong);
    }
    let copy = halves.right.try_clone(alloc)?;
    let right = inserted(client, map.root.page.store, copy)?;
    let spot = (right.page.page, right.slot);
    let left = left_text(alloc, level, &halves, spot, bytes.len())?;
    updated(client, at, left)
}

/// Divides an inner node of that level: the root grows, and another one is split, as leaves are. The map stays as it was, refused or not. `Full` if the node has fewer than two entries, or if the tree has 255 levels.
pub fn divide<C: Caller>(
    alloc: Global,
    client: &mut C,
    map: &KeyMap,
    at: &Rid,
    bytes: &[u8],
    level: u8,
) -> Result<(), Refusal>
    ensures { GoesOn (Divides map.now at.now bytes.now level result) (C.trail client.old) (C.trail client.new) }
{
    if *at == map.root {
        return grow(alloc, client, map, at, bytes, level);
    }
    halve(alloc, client, map, at, bytes, level)
}
