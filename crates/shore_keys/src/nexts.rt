//! The keys of a map, one after another.
ghost use Rattle.std.specs.Prelude.{◌≡◌, Some, option_map};
ghost use Rattle.shore_keys.specs.Exchanges.{GoesOn};
ghost use Rattle.shore_keys.specs.Maps.{Nexts};
ghost use Rattle.shore_keys.specs.Nexts.{IsFirstAbove};
ghost use Rattle.shore_keys.specs.Nodes.{Node, node_at};
ghost use Rattle.shore_keys.specs.Trees.{child};

use crate::caller::Caller;
use crate::calls::got;
use crate::cuts::cut_at;
use crate::maps::KeyMap;
use crate::nodes::{entry_at, front_at};
use crate::refusals::Refusal;
use crate::searching::{MOST_STEPS, home_of, id_of};
use shore_types::{Bytes, Rid, StoreId, images};
use std::alloc::Global;

// The first key of a leaf above this one, with page and slot of its value.
fn first_above(
    alloc: Global,
    bytes: &[u8],
    key: &[u8],
) -> Result<Option<(Bytes, (u32, u16))>, Refusal>
    ensures { (node : Node) → node_at bytes.now ≡ Some node → IsFirstAbove node.entries key.now result }
{
    let Some(front) = front_at(bytes) else {
        return Err(Refusal::Damaged);
    };
    let Some((at, rest)) = cut_at(front.count, front.body, key) else {
        return Err(Refusal::Damaged);
    };
    if at == front.count {
        return Ok(None);
    }
    let Some((entry, _behind)) = entry_at(rest) else {
        return Err(Refusal::Damaged);
    };
    let found = images::copied(alloc, entry.key)?;
    Ok(Some((found, (entry.page, entry.slot))))
}

// Where the right neighbour is, if there is one.
fn right_of(store: StoreId, bytes: &[u8]) -> Option<Rid>
    ensures { (node : Node) → node_at bytes.now ≡ Some node → result ≡ option_map (child store) node.right }
{
    let front = front_at(bytes)?;
    let right = front.right?;
    Some(id_of(store, (right.page, right.slot)))
}

/// The first key of the map above this one, with its value; None if none is above it. So a range of keys is gone through: from a find of its lowest key on. It is refused if a call is, or after `MOST_STEPS` leaves.
pub fn next<C: Caller>(
    alloc: Global,
    client: &mut C,
    map: &KeyMap,
    key: &[u8],
) -> Result<Option<(Bytes, Bytes)>, Refusal>
    ensures { GoesOn (Nexts map.now key.now result) (C.trail client.old) (C.trail client.new) }
{
    let home = home_of(client, &map.root, key)?;
    let mut bytes = home.bytes;
    for _step in 0..MOST_STEPS {
        if let Some((found, spot)) = first_above(alloc, bytes.as_slice(), key)? {
            let value = got(client, &id_of(map.values, spot))?;
            return Ok(Some((found, value)));
        }
        let Some(right) = right_of(map.root.page.store, bytes.as_slice()) else {
            return Ok(None);
        };
        bytes = got(client, &right)?;
    }
    Err(Refusal::TooFar)
}
