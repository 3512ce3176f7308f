//! A map's put.
ghost use Rattle.std.specs.Prelude.{◌≡◌, ◌<◌, Some, length};
ghost use Rattle.shore_keys.specs.Cuts.{IsRoom};
ghost use Rattle.shore_keys.specs.Exchanges.{GoesOn};
ghost use Rattle.shore_keys.specs.Homes.{PutsAtHome};
ghost use Rattle.shore_keys.specs.Maps.{Puts};
ghost use Rattle.shore_keys.specs.Splits.{Splits};
ghost use Rattle.shore_keys.specs.Nodes.{Node, node_at};

use crate::caller::Caller;
use crate::calls::{inserted, updated};
use crate::cuts::behind_all;
use crate::halving::middle_key;
use crate::maps::{KeyMap, MAX_KEY_BYTES, spot_in};
use crate::mending::mend;
use crate::nodes::front_at;
use crate::refusals::Refusal;
use crate::searching::{Home, home_of, id_of};
use crate::splits::split;
use crate::writing::{ENTRY_BYTES, with_entry};
use shore_types::Bytes;
use std::alloc::Global;

/// No put cuts leaves in two more often than once more than this.
const MOST_SPLITS: u32 = 16;

/// From now on the map has this value at the key. Refused, it is as it was, and at most records are left over that nothing leads to. `TooLong` of a key that is longer than `MAX_KEY_BYTES`; else it is refused only if a call was,
/// if memory was short, or by `Full` of a leaf that has no room for two keys. Once a leaf was split, inner nodes come to name its half, and a refusal of that is passed over: if the transaction became a victim there, its next call says so.
pub fn put<C: Caller>(
    alloc: Global,
    client: &mut C,
    map: &KeyMap,
    key: &[u8],
    value: Bytes,
) -> Result<(), Refusal>
    ensures { GoesOn (Puts map.now key.now value result) (C.trail client.old) (C.trail client.new) }
{
    if key.len() > MAX_KEY_BYTES {
        return Err(Refusal::TooLong);
    }
    let home = home_of(client, &map.root, key)?;
    match spot_in(home.bytes.as_slice(), key)? {
        Some(spot) => updated(client, &id_of(map.values, spot), value),
        None => put_new(alloc, client, map, &home, key, value),
    }
}

// Whether the leaf has room for the key.
fn has_room(bytes: &[u8], key: &[u8]) -> bool
    requires { length key.now < 256 }
    ensures { (node : Node) → node_at bytes.now ≡ Some node → IsRoom bytes.now node key.now result }
{
    match front_at(bytes) {
        Some(front) => match behind_all(front.count, front.body) {
            Some(tail) => tail.len() >= key.len() + ENTRY_BYTES,
            None => false,
        },
        None => false,
    }
}

// The half of a leaf that has room for the key, of which the leaf is the home: it is cut in two again, as long as it has none.
fn roomy<C: Caller>(
    alloc: Global,
    client: &mut C,
    map: &KeyMap,
    home: Home,
    key: &[u8],
) -> Result<Home, Refusal>
    requires { length key.now < 256 }
    ensures { GoesOn (Splits map.now home key.now result) (C.trail client.old) (C.trail client.new) }
{
    let mut at = home;
    for _split in 0..MOST_SPLITS {
        if has_room(at.bytes.as_slice(), key) {
            return Ok(at);
        }
        at = split(alloc, client, map, &at, key)?;
    }
    Err(Refusal::Full)
}

// A key more, of which this leaf is the home. If it has no room it is split, and the key goes into its half.
fn put_new<C: Caller>(
    alloc: Global,
    client: &mut C,
    map: &KeyMap,
    home: &Home,
    key: &[u8],
    value: Bytes,
) -> Result<(), Refusal>
    requires { length key.now < 256 }
    ensures { GoesOn (PutsAtHome map.now home.now key.now value result) (C.trail client.old) (C.trail client.new) }
{
    if has_room(home.bytes.as_slice(), key) {
        return put_at(alloc, client, map, home, key, value);
    }
    let half = split(alloc, client, map, home, key)?;
    let leaf = roomy(alloc, client, map, half, key)?;
    put_at(alloc, client, map, &leaf, key, value)?;
    // Inner nodes are hints: whether they come to name the right half counts for nothing.
    let Some(first) = middle_key(home.bytes.as_slice()) else {
        return Ok(());
    };
    let _ = mend(alloc, client, map, first);
    Ok(())
}

// A key more in this leaf: its value is inserted, to which nothing leads yet, and then the leaf names it.
fn put_at<C: Caller>(
    alloc: Global,
    client: &mut C,
    map: &KeyMap,
    home: &Home,
    key: &[u8],
    value: Bytes,
) -> Result<(), Refusal>
    requires { length key.now < 256 }
    ensures { GoesOn (PutsAtHome map.now home.now key.now value result) (C.trail client.old) (C.trail client.new) }
{
    let id = inserted(client, map.values, value)?;
    let spot = (id.page.page, id.slot);
    match with_entry(alloc, home.bytes.as_slice(), key, spot)? {
        Some(text) => updated(client, &home.id, text),
        None => Err(Refusal::Full),
    }
}
