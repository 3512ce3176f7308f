//! The way to the leaf of a key.
ghost use Rattle.std.specs.Prelude.{◌≡◌, List, Some, option_map};
ghost use Rattle.shore_keys.specs.Exchanges.{GoesOn};
ghost use Rattle.shore_keys.specs.Nodes.{Node, node_at};
ghost use Rattle.shore_keys.specs.Steps.{Arrives, IsNext, IsPast};

use crate::caller::Caller;
use crate::calls::got;
use crate::entries::{is_before, last_up_to};
use crate::nodes::{Entry, front_at};
use crate::refusals::Refusal;
use shore_types::{Bytes, PageId, Rid, StoreId};

/// No search takes more steps, down or to the right.
pub const MOST_STEPS: u32 = 10_000_000;

/// A leaf that was got.
#[derive(Drop)]
pub struct Home {
    /// Where it is.
    pub id: Rid,
    /// Its record.
    pub bytes: Bytes,
}

/// The id of a record in a store.
pub fn id_of(store: StoreId, spot: (u32, u16)) -> Rid
    ensures { result ≡ record { page = record { store = store; page = spot.0 }; slot = spot.1 } }
{
    let page = PageId {
        store,
        page: spot.0,
    };
    Rid { page, slot: spot.1 }
}

// Where the right neighbour is, if the key is found there or behind it.
fn past(right: &Option<Entry<'_>>, key: &[u8]) -> Option<(u32, u16)>
    ensures { IsPast (option_map (λ e. (e.key.now, e.page, e.slot)) right.now) key.now result }
{
    match right {
        Some(right) => {
            if is_before(key, right.key) {
                return None;
            }
            Some((right.page, right.slot))
        }
        None => None,
    }
}

/// Where a search goes on from a node; None if it is the leaf of the key.
pub fn next_of(store: StoreId, bytes: &[u8], key: &[u8]) -> Result<Option<Rid>, Refusal>
    ensures { (node : Node) → node_at bytes.now ≡ Some node → IsNext store node key.now result }
{
    let Some(front) = front_at(bytes) else {
        return Err(Refusal::Damaged);
    };
    if let Some(spot) = past(&front.right, key) {
        return Ok(Some(id_of(store, spot)));
    }
    if front.level == 0 {
        return Ok(None);
    }
    match last_up_to(front.count, front.body, key) {
        Some(spot) => Ok(Some(id_of(store, spot))),
        None => Err(Refusal::Damaged),
    }
}

/// The leaf that has the key, if any has, got by way of inner nodes and right neighbours. It is refused if a call is, or after `MOST_STEPS` steps.
pub fn home_of<C: Caller>(client: &mut C, root: &Rid, key: &[u8]) -> Result<Home, Refusal>
    ensures { GoesOn (Arrives root.now key.now result) (C.trail client.old) (C.trail client.new) }
{
    let mut at = *root;
    for _step in 0..MOST_STEPS {
        let bytes = got(client, &at)?;
        match next_of(root.page.store, bytes.as_slice(), key)? {
            Some(next) => at = next,
            None => return Ok(Home { id: at, bytes }),
        }
    }
    Err(Refusal::TooFar)
}
