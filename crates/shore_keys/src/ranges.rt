//! A range of a map's keys.
ghost use Rattle.shore_keys.specs.Exchanges.{GoesOn};
ghost use Rattle.shore_keys.specs.Ranges.{Ranges};

use crate::caller::Caller;
use crate::entries::is_before;
use crate::maps::KeyMap;
use crate::nexts::next;
use crate::refusals::Refusal;
use shore_types::{Bytes, Sequence, images};
use std::alloc::Global;

/// The keys of the map above one and below another, with their values, rising, and at most so many of them: if there are as many, the range goes on above the last. It is refused if a call is, after `MOST_STEPS` leaves with no key,
/// or if memory is short.
pub fn range<C: Caller>(
    alloc: Global,
    client: &mut C,
    map: &KeyMap,
    above: &[u8],
    below: &[u8],
    most: usize,
) -> Result<Sequence<(Bytes, Bytes)>, Refusal>
    ensures { GoesOn (Ranges map.now above.now below.now most result) (C.trail client.old) (C.trail client.new) }
{
    let mut items = Vec::new(alloc);
    let mut at = images::copied(alloc, above)?;
    for _item in 0..most {
        let Some((key, value)) = next(alloc, client, map, at.as_slice())? else {
            return Ok(Sequence::from_vec(items));
        };
        if !is_before(key.as_slice(), below) {
            return Ok(Sequence::from_vec(items));
        }
        at = key.try_clone(alloc)?;
        if let Err(_failed) = items.push((key, value)) {
            return Err(Refusal::Memory);
        }
    }
    Ok(Sequence::from_vec(items))
}
