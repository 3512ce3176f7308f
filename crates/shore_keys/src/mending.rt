//! Inner nodes come to name the nodes below them.
ghost use Rattle.std.specs.Prelude.{◌≡◌, Some};
ghost use Rattle.shore_keys.specs.Edges.{Names};
ghost use Rattle.shore_keys.specs.Exchanges.{GoesOn};
ghost use Rattle.shore_keys.specs.Maps.{Mends};
ghost use Rattle.shore_keys.specs.Nodes.{Node, node_at};

use crate::caller::Caller;
use crate::calls::{got, tried, updated};
use crate::dividing::divide;
use crate::edges::{Edge, edge_of};
use crate::maps::{KeyMap, MAX_KEY_BYTES};
use crate::nodes::front_at;
use crate::refusals::Refusal;
use crate::writing::with_entry;
use std::alloc::Global;

/// No mend names more nodes, or divides more.
pub const MOST_MENDS: u32 = 16;

// The level of a node.
fn level_of(bytes: &[u8]) -> u8
    ensures { (node : Node) → node_at bytes.now ≡ Some node → node.level ≡ result }
{
    match front_at(bytes) {
        Some(front) => front.level,
        None => 0,
    }
}

// Names a right neighbour to the inner node that a search had come from, or divides that, if it has no room. Answers whether it did: not if it would have to wait for the node.
fn name<C: Caller>(
    alloc: Global,
    client: &mut C,
    map: &KeyMap,
    edge: &Edge,
) -> Result<bool, Refusal>
    ensures { GoesOn (Names map.now edge.now result) (C.trail client.old) (C.trail client.new) }
{
    if edge.key.as_slice().len() > MAX_KEY_BYTES {
        return Err(Refusal::TooLong);
    }
    if !tried(client, &edge.parent) {
        return Ok(false);
    }
    let bytes = got(client, &edge.parent)?;
    let level = level_of(bytes.as_slice());
    if level == 0 {
        return Ok(false);
    }
    match with_entry(alloc, bytes.as_slice(), edge.key.as_slice(), edge.spot)? {
        Some(text) => {
            updated(client, &edge.parent, text)?;
            Ok(true)
        }
        None => {
            divide(alloc, client, map, &edge.parent, bytes.as_slice(), level)?;
            Ok(true)
        }
    }
}

/// Names to inner nodes what a search of the key goes to by right neighbours, so that later ones go down alone: a half that was split off, and what searches before it have left. An inner node with no room is divided. It may wait to read nodes; what it
/// changes it only tries, and leaves off where it would have to wait, or after `MOST_MENDS` changes. The map stays as it was, refused or not.
pub fn mend<C: Caller>(
    alloc: Global,
    client: &mut C,
    map: &KeyMap,
    key: &[u8],
) -> Result<(), Refusal>
    ensures { GoesOn (Mends map.now result) (C.trail client.old) (C.trail client.new) }
{
    for _mend in 0..MOST_MENDS {
        let Some(edge) = edge_of(alloc, client, &map.root, key)? else {
            return Ok(());
        };
        if !name(alloc, client, map, &edge)? {
            return Ok(());
        }
    }
    Ok(())
}
