//! Where a search goes to a right neighbour, which no inner node above names yet.
ghost use Rattle.std.specs.Prelude.{◌≡◌, IfOk, List, Some, ℕ};
ghost use Rattle.shore_keys.specs.Edges.{Crosses, IsCrossed};
ghost use Rattle.shore_keys.specs.Exchanges.{GoesOn};
ghost use Rattle.shore_keys.specs.Nodes.{Node, node_at};

use crate::caller::Caller;
use crate::calls::got;
use crate::entries::is_before;
use crate::nodes::front_at;
use crate::refusals::Refusal;
use crate::searching::{MOST_STEPS, next_of};
use shore_types::{Bytes, Rid, images};
use std::alloc::{AllocError, Global};

/// A right neighbour that a search went to.
#[derive(Drop)]
pub struct Edge {
    /// The node that the search had come from before.
    pub parent: Rid,
    /// The first key that is found at the neighbour.
    pub key: Bytes,
    /// Page and slot of the neighbour.
    pub spot: (u32, u16),
}

// The right neighbour, with the first key that is found there, if this key is found there or behind it.
fn crossed(
    alloc: Global,
    bytes: &[u8],
    key: &[u8],
) -> Result<Option<(Bytes, (u32, u16))>, AllocError>
    ensures { (node : Node) → node_at bytes.now ≡ Some node → IfOk result (IsCrossed node.right key.now) }
{
    let Some(front) = front_at(bytes) else {
        return Ok(None);
    };
    let Some(right) = front.right else {
        return Ok(None);
    };
    if is_before(key, right.key) {
        return Ok(None);
    }
    let first = images::copied(alloc, right.key)?;
    Ok(Some((first, (right.page, right.slot))))
}

/// The first right neighbour that a search of the key goes to, if it goes to any. It is refused if a call is, or after `MOST_STEPS` steps.
pub fn edge_of<C: Caller>(
    alloc: Global,
    client: &mut C,
    root: &Rid,
    key: &[u8],
) -> Result<Option<Edge>, Refusal>
    ensures { GoesOn (Crosses root.now result) (C.trail client.old) (C.trail client.new) }
{
    let (mut at, mut parent) = (*root, *root);
    for _step in 0..MOST_STEPS {
        let bytes = got(client, &at)?;
        if let Some((key, spot)) = crossed(alloc, bytes.as_slice(), key)? {
            return Ok(Some(Edge { parent, key, spot }));
        }
        match next_of(root.page.store, bytes.as_slice(), key)? {
            Some(next) => {
                parent = at;
                at = next;
            }
            None => return Ok(None),
        }
    }
    Err(Refusal::TooFar)
}
