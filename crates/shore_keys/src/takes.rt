//! A map's take.
ghost use Rattle.std.specs.Prelude.{◌≡◌};
ghost use Rattle.shore_keys.specs.Exchanges.{GoesOn};
ghost use Rattle.shore_keys.specs.Maps.{Takes};

use crate::caller::Caller;
use crate::calls::{deleted, updated};
use crate::maps::{KeyMap, spot_in};
use crate::refusals::Refusal;
use crate::searching::{home_of, id_of};
use crate::writing::without_entry;
use std::alloc::Global;

/// From now on the map has nothing at the key. Answers whether it had something. Refused, it is as it was. The leaf lets the key go first, and then the value's record is deleted: if that is refused, the record is left over, and nothing leads to it.
pub fn take<C: Caller>(
    alloc: Global,
    client: &mut C,
    map: &KeyMap,
    key: &[u8],
) -> Result<bool, Refusal>
    ensures { GoesOn (Takes map.now key.now result) (C.trail client.old) (C.trail client.new) }
{
    let home = home_of(client, &map.root, key)?;
    let Some(spot) = spot_in(home.bytes.as_slice(), key)? else {
        return Ok(false);
    };
    let text = without_entry(alloc, home.bytes.as_slice(), key)?;
    updated(client, &home.id, text)?;
    let _ = deleted(client, &id_of(map.values, spot));
    Ok(true)
}
