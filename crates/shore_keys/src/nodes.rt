//! The text of a node, as it is read.
ghost use Rattle.std.specs.Prelude.{◌≡◌, option_map};
ghost use Rattle.shore_keys.specs.Nodes as spec;
ghost use Rattle.shore_keys.specs.Nodes.{Entry as Pair};

use byteorder::{ByteOrder, LittleEndian};

/// A key, and where it leads to.
#[derive(Clone, Copy)]
pub struct Entry<'a> {
    /// The key.
    pub key: &'a [u8],
    /// The page of the record that it leads to.
    pub page: u32,
    /// The slot of it.
    pub slot: u16,
}

/// The front of a node.
#[derive(Clone, Copy)]
pub struct Front<'a> {
    /// 0 of a leaf, and of an inner node one more than that of its children.
    pub level: u8,
    /// The right neighbour, with the first key that is found from there on.
    pub right: Option<Entry<'a>>,
    /// How many entries it has.
    pub count: u16,
    /// Their bytes, and what fills the record up.
    pub body: &'a [u8],
}

#[tactic(auto, unfolding(crate::specs::Nodes::number_at))]
fn u16_at(bytes: &[u8]) -> Option<(u16, &[u8])>
    ensures { option_map (λ x. (x.0, x.1.now)) result ≡ spec.number_at 2 bytes.now }
{
    if bytes.len() < 2 {
        return None;
    }
    Some((LittleEndian::read_u16(bytes), &bytes[2..]))
}

#[tactic(auto, unfolding(crate::specs::Nodes::number_at))]
fn u32_at(bytes: &[u8]) -> Option<(u32, &[u8])>
    ensures { option_map (λ x. (x.0, x.1.now)) result ≡ spec.number_at 4 bytes.now }
{
    if bytes.len() < 4 {
        return None;
    }
    Some((LittleEndian::read_u32(bytes), &bytes[4..]))
}

#[tactic(auto, unfolding(crate::specs::Nodes::key_at))]
fn key_at(bytes: &[u8]) -> Option<(&[u8], &[u8])>
    ensures { option_map (λ x. (x.0.now, x.1.now)) result ≡ spec.key_at bytes.now }
{
    let (len, rest) = bytes.split_first()?;
    rest.split_at_checked(*len as usize)
}

/// The first entry, and the bytes behind it; None if the bytes begin with none.
#[tactic(auto, unfolding(crate::specs::Nodes::entry_at))]
pub fn entry_at(bytes: &[u8]) -> Option<(Entry<'_>, &[u8])>
    ensures { option_map (λ x. ((x.0.key.now, x.0.page, x.0.slot), x.1.now)) result ≡ spec.entry_at bytes.now }
{
    let (key, rest) = key_at(bytes)?;
    let (page, rest) = u32_at(rest)?;
    let (slot, rest) = u16_at(rest)?;
    Some((Entry { key, page, slot }, rest))
}

#[tactic(auto, unfolding(crate::specs::Nodes::right_at))]
fn right_at(has: u8, bytes: &[u8]) -> Option<(Option<Entry<'_>>, &[u8])>
    ensures { option_map (λ x. (option_map (λ e. (e.key.now, e.page, e.slot)) x.0, x.1.now)) result ≡ spec.right_at has bytes.now }
{
    if has == 0 {
        return Some((None, bytes));
    }
    let (right, rest) = entry_at(bytes)?;
    Some((Some(right), rest))
}

/// The front of the node; None if the bytes begin with none.
#[tactic(auto, unfolding(crate::specs::Nodes::front_at))]
pub fn front_at(bytes: &[u8]) -> Option<Front<'_>>
    ensures { option_map (λ f. record { level = f.level; right = option_map (λ e. (e.key.now, e.page, e.slot)) f.right; count = f.count; body = f.body.now }) result ≡ spec.front_at bytes.now }
{
    let (level, rest) = bytes.split_first()?;
    let (has, rest) = rest.split_first()?;
    let (count, rest) = u16_at(rest)?;
    let (right, body) = right_at(*has, rest)?;
    Some(Front {
        level: *level,
        right,
        count,
        body,
    })
}
