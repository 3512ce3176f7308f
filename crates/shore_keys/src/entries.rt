//! Entries of a node, looked through one by one.
ghost use Rattle.std.specs.Prelude.{◌≡◌, List, Ok, Some};
ghost use Rattle.shore_keys.specs.Nodes.{Entry as Pair, entries_at};
ghost use Rattle.shore_keys.specs.Orders as orders;
ghost use Rattle.shore_keys.specs.Trees.{look_in};
ghost use Rattle.shore_keys.specs.Steps.{IsEntryUpTo};

use crate::nodes::entry_at;
use crate::refusals::Refusal;

/// Whether a key comes before another one: byte by byte, and the shorter one first if it is the front of the other.
#[tactic(auto, unfolding(crate::specs::Orders::is_before))]
pub fn is_before(key: &[u8], other: &[u8]) -> bool
    ensures { result ≡ orders.is_before key.now other.now }
{
    key.cmp(other).is_lt()
}

/// Page and slot of what has the key, if any of so many entries has. `Damaged` if the bytes are not so many entries.
pub fn found_in(count: u16, body: &[u8], key: &[u8]) -> Result<Option<(u32, u16)>, Refusal>
    ensures { (es : List Pair) → entries_at count body.now ≡ Some es → result ≡ Ok (look_in es key.now) }
{
    let mut rest = body;
    for _ in 0..count {
        let Some((entry, behind)) = entry_at(rest) else {
            return Err(Refusal::Damaged);
        };
        if entry.key == key {
            return Ok(Some((entry.page, entry.slot)));
        }
        rest = behind;
    }
    Ok(None)
}

/// Page and slot of the last of so many entries before one that is above the key. None if the first is above it, or if the bytes are not so many entries.
pub fn last_up_to(count: u16, body: &[u8], key: &[u8]) -> Option<(u32, u16)>
    ensures { (es : List Pair) → entries_at count body.now ≡ Some es → IsEntryUpTo es key.now result }
{
    let (mut rest, mut last) = (body, None);
    for _ in 0..count {
        let (entry, behind) = entry_at(rest)?;
        if is_before(key, entry.key) {
            return last;
        }
        last = Some((entry.page, entry.slot));
        rest = behind;
    }
    last
}
