//! A map is made.
ghost use Rattle.std.specs.Prelude.{◌≡◌};
ghost use Rattle.shore_keys.specs.Exchanges.{GoesOn};
ghost use Rattle.shore_keys.specs.Makes.{Makes};

use crate::caller::Caller;
use crate::calls::{inserted, updated};
use crate::maps::KeyMap;
use crate::refusals::Refusal;
use crate::texts::{empty_leaf, one_entry};
use shore_types::StoreId;
use std::alloc::Global;

/// How long a leaf is: eight of them have room on a page.
pub const LEAF_BYTES: usize = 1_017;

/// How long an inner node is.
pub const INNER_BYTES: usize = 4_000;

/// An empty map, of a store for its nodes, in which no record is, and another one for its values. The root is the first record that is inserted, so where nobody else inserts into the store meanwhile it is the first of the store.
/// Refused, there is no map, and at most two records that nothing leads to.
pub fn make<C: Caller>(
    alloc: Global,
    client: &mut C,
    nodes: StoreId,
    values: StoreId,
) -> Result<KeyMap, Refusal>
    ensures { GoesOn (Makes nodes values result) (C.trail client.old) (C.trail client.new) }
{
    if nodes == values {
        return Err(Refusal::OneStore);
    }
    // It is read as an empty leaf until it names the first leaf.
    let root = inserted(client, nodes, empty_leaf(alloc, INNER_BYTES)?)?;
    let leaf = inserted(client, nodes, empty_leaf(alloc, LEAF_BYTES)?)?;
    let text = one_entry(alloc, INNER_BYTES, 1, &[], (leaf.page.page, leaf.slot))?;
    updated(client, &root, text)?;
    Ok(KeyMap { root, values })
}
