//! Where the text of a node's entries is cut.
ghost use Rattle.std.specs.Prelude.{◌≡◌, List, Some, option_map};
ghost use Rattle.shore_keys.specs.Nodes.{Entry as Pair, entries_at};
ghost use Rattle.shore_keys.specs.Cuts.{IsBehind, IsCut, IsFoundIn};

use crate::entries::is_before;
use crate::nodes::entry_at;

/// How many of so many entries come before the place of a key, and the bytes behind these. None if the bytes are not so many entries.
pub fn cut_at<'a>(count: u16, body: &'a [u8], key: &[u8]) -> Option<(u16, &'a [u8])>
    ensures { (es : List Pair) → entries_at count body.now ≡ Some es → IsCut count body.now key.now es (option_map (λ x. (x.0, x.1.now)) result) }
{
    let mut rest = body;
    for at in 0..count {
        let (entry, behind) = entry_at(rest)?;
        if is_before(key, entry.key) {
            return Some((at, rest));
        }
        rest = behind;
    }
    Some((count, rest))
}

/// The bytes behind so many entries. None if the bytes are not so many.
pub fn behind_all(count: u16, body: &[u8]) -> Option<&[u8]>
    ensures { (es : List Pair) → entries_at count body.now ≡ Some es → IsBehind es body.now (option_map (λ x. x.now) result) }
{
    let mut rest = body;
    for _ in 0..count {
        let (_entry, behind) = entry_at(rest)?;
        rest = behind;
    }
    Some(rest)
}

/// How many of so many entries come before that of a key; the bytes from this on; and those behind it. None if none has the key, or if the bytes are not so many entries.
pub fn found_at<'a>(count: u16, body: &'a [u8], key: &[u8]) -> Option<(u16, &'a [u8], &'a [u8])>
    ensures { (es : List Pair) → entries_at count body.now ≡ Some es → IsFoundIn count body.now key.now es (option_map (λ x. (x.0, x.1.now, x.2.now)) result) }
{
    let mut rest = body;
    for at in 0..count {
        let (entry, behind) = entry_at(rest)?;
        if entry.key == key {
            return Some((at, rest, behind));
        }
        rest = behind;
    }
    None
}
