//! A leaf is split: the right half is inserted, to which nothing leads yet, and then the left half names it.
ghost use Rattle.std.specs.Prelude.{◌≡◌};
ghost use Rattle.shore_keys.specs.Exchanges.{GoesOn};
ghost use Rattle.shore_keys.specs.Splits.{Splits};

use crate::caller::Caller;
use crate::calls::{inserted, updated};
use crate::entries::is_before;
use crate::halving::{halved, left_text};
use crate::maps::{KeyMap, MAX_KEY_BYTES};
use crate::refusals::Refusal;
use crate::searching::Home;
use std::alloc::Global;

/// Splits the home of a key that the map has not, and answers the half that is its home then. The map stays as it was, refused or not. `Full` if the leaf has fewer than two entries.
pub fn split<C: Caller>(
    alloc: Global,
    client: &mut C,
    map: &KeyMap,
    home: &Home,
    key: &[u8],
) -> Result<Home, Refusal>
    ensures { GoesOn (Splits map.now home.now key.now result) (C.trail client.old) (C.trail client.new) }
{
    let Some(halves) = halved(alloc, home.bytes.as_slice())? else {
        return Err(Refusal::Full);
    };
    if halves.key.as_slice().len() > MAX_KEY_BYTES {
        return Err(Refusal::TooLong);
    }
    let copy = halves.right.try_clone(alloc)?;
    let right = inserted(client, map.root.page.store, copy)?;
    let spot = (right.page.page, right.slot);
    let left = left_text(alloc, 0, &halves, spot, home.bytes.as_slice().len())?;
    updated(client, &home.id, left.try_clone(alloc)?)?;
    if is_before(key, halves.key.as_slice()) {
        return Ok(Home {
            id: home.id,
            bytes: left,
        });
    }
    Ok(Home {
        id: right,
        bytes: halves.right,
    })
}
