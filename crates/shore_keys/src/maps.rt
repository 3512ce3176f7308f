//! A map of byte strings.
ghost use Rattle.std.specs.Prelude.{◌≡◌, List, Ok, Some};
ghost use Rattle.shore_keys.specs.Exchanges.{GoesOn};
ghost use Rattle.shore_keys.specs.Maps.{Finds};
ghost use Rattle.shore_keys.specs.Nodes.{Node, node_at};
ghost use Rattle.shore_keys.specs.Trees.{look_in};

use crate::caller::Caller;
use crate::calls::got;
use crate::entries::found_in;
use crate::nodes::front_at;
use crate::refusals::Refusal;
use crate::searching::{home_of, id_of};
use shore_types::{Bytes, Rid, StoreId};

/// No key is longer.
pub const MAX_KEY_BYTES: usize = 255;

/// Where a map is.
#[derive(Clone, Copy)]
pub struct KeyMap {
    /// The record from which all searches begin. Its store has the nodes, and nothing else.
    pub root: Rid,
    /// The store with the values.
    pub values: StoreId,
}

/// Page and slot of the record with the value of the key, if the leaf has the key.
pub fn spot_in(bytes: &[u8], key: &[u8]) -> Result<Option<(u32, u16)>, Refusal>
    ensures { (node : Node) → node_at bytes.now ≡ Some node → result ≡ Ok (look_in node.entries key.now) }
{
    let Some(front) = front_at(bytes) else {
        return Err(Refusal::Damaged);
    };
    found_in(front.count, front.body, key)
}

/// What the map has of the key.
pub fn find<C: Caller>(client: &mut C, map: &KeyMap, key: &[u8]) -> Result<Option<Bytes>, Refusal>
    ensures { GoesOn (Finds map.now key.now result) (C.trail client.old) (C.trail client.new) }
{
    let home = home_of(client, &map.root, key)?;
    let Some(spot) = spot_in(home.bytes.as_slice(), key)? else {
        return Ok(None);
    };
    let bytes = got(client, &id_of(map.values, spot))?;
    Ok(Some(bytes))
}
