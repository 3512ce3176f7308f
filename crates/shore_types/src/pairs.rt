//! Ids with the bytes of their records, in few allocations.
ghost use Rattle.std.specs.Prelude.{◌≡◌, ◌+◌, ◌^◌, ◌<◌, ◌≤◌, ◌↔◌, ◌++◌, ◌∷◌, [], length, slice_get, option_map, IsTrue, IfOk, OnOk, OnErr, vec_capacity};
ghost use Rattle.std.specs.List.{between, sum_by};
ghost use Rattle.shore_types.specs.Images.{image_len};
ghost use Rattle.shore_types.specs.Pairs.{begin_in};
ghost use Rattle.shore_types.specs.Runs.{IsRun, ends_from, records_from, slotted_images};

use crate::{PageId, Rid, Slotted};
use std::alloc::{AllocError, Global};
use std::marker::Model;

/// Ids with the bytes of their records, in two allocations however many there are.
#[derive(Drop)]
pub struct Pairs {
    // The bytes of all records, behind each other.
    bytes: Vec<u8>,
    // Of each pair its id, and where its bytes end.
    ends: Vec<(Rid, usize)>,
}

impl Model for Pairs {
    ghost use Rattle.std.specs.Prelude.{ℕ, List, length};
    ghost use Rattle.shore_types.specs.declared.ids.Rid.{Rid};
    ghost use Rattle.shore_types.specs.Pairs.{AreEnds, pairs_in};

    ghost Value = { List (Rid × List ℕ) };

    ghost view = { λ p. pairs_in p.bytes.items 0 p.ends.items };

    ghost invariant = { λ p. AreEnds 0 p.ends.items (length p.bytes.items) };
}

impl Pairs {
    pub fn new(alloc: Global) -> Pairs
        ensures { result ≡ [] }
    {
        Pairs {
            bytes: Vec::new(alloc),
            ends: Vec::new(alloc),
        }
    }

    /// No pairs, with room for so many that have so many bytes.
    pub fn with_capacity(alloc: Global, pairs: usize, bytes: usize) -> Result<Pairs, AllocError>
        ensures { IfOk result (λ list. list ≡ []) }
    {
        Ok(Pairs {
            bytes: Vec::with_capacity(alloc, bytes)?,
            ends: Vec::with_capacity(alloc, pairs)?,
        })
    }

    /// Drops all pairs, and keeps the memory.
    pub fn clear(&mut self)
        ensures { self.new ≡ [] }
    {
        self.bytes.clear();
        self.ends.clear();
    }

    pub fn len(&self) -> usize
        ensures { result ≡ length self.now }
    {
        self.ends.len()
    }

    /// Adds a pair. Nothing is changed if an allocation fails.
    pub fn push(&mut self, id: Rid, bytes: &[u8]) -> Result<(), AllocError>
        ensures ok { OnOk result (self.new ≡ self.old ++ (id, bytes.now) ∷ []) }
        ensures err { OnErr result (self.new ≡ self.old) }
    {
        self.ends.reserve(1)?;
        self.bytes.extend_from_slice(bytes)?;
        self.ends.push_reserved((id, self.bytes.len()));
        Ok(())
    }

    /// Adds the records of a page, of which these are the bytes: they are copied at once. Nothing is changed if an allocation fails.
    pub fn push_run<S: Slotted>(
        &mut self,
        id: &PageId,
        slots: &S,
        bytes: &[u8],
    ) -> Result<(), AllocError>
        requires { IsRun bytes.now (slotted_images S.Slotted slots.now) }
        ensures ok { OnOk result (self.new ≡ self.old ++ records_from id.now 0 (slotted_images S.Slotted slots.now)) }
        ensures err { OnErr result (self.new ≡ self.old) }
    {
        let from = self.bytes.len();
        self.ends.reserve(slots.slots() as usize)?;
        self.bytes.extend_from_slice(bytes)?;
        push_ends(&mut self.ends, id, slots, from);
        Ok(())
    }

    /// The pair at an index; None behind the last.
    pub fn get(&self, index: usize) -> Option<(Rid, &[u8])>
        ensures { option_map (λ pair. (pair.0, pair.1.now)) result ≡ slice_get self.now index }
    {
        if index >= self.ends.len() {
            return None;
        }
        let from = begin(&self.ends, index);
        let (id, end) = self.ends[index];
        Some((id, part(&self.bytes, from, end)))
    }

    /// Whether two lists have the same pairs in the same order.
    pub fn equals(&self, other: &Pairs) -> bool
        ensures { IsTrue result ↔ (self.now ≡ other.now) }
    {
        self.ends.as_slice() == other.ends.as_slice()
            && self.bytes.as_slice() == other.bytes.as_slice()
    }
}

// The ids of a page's records, each with the end of its bytes: these lie one behind another from a place on.
fn push_ends<S: Slotted>(ends: &mut Vec<(Rid, usize)>, id: &PageId, slots: &S, from: usize)
    requires capacity { length ends.old.items + length (slotted_images S.Slotted slots.now) ≤ vec_capacity ends.old }
    requires room { from + sum_by image_len (slotted_images S.Slotted slots.now) < 2 ^ 64 }
    ensures { ends.new.items ≡ ends.old.items ++ ends_from id.now 0 from (slotted_images S.Slotted slots.now) }
{
    let mut end = from;
    for slot in 0..slots.slots() {
        end += slots.len_at(slot);
        let page = PageId {
            store: id.store,
            page: id.page,
        };
        ends.push_reserved((Rid { page, slot }, end));
    }
}

// Where the bytes of the pair at an index begin.
fn begin(ends: &[(Rid, usize)], index: usize) -> usize
    requires { index < length ends.now }
    ensures { result ≡ begin_in 0 ends.now index }
{
    if index == 0 {
        return 0;
    }
    ends[index - 1].1
}

fn part(bytes: &[u8], from: usize, end: usize) -> &[u8]
    requires order { from ≤ end }
    requires within { end ≤ length bytes.now }
    ensures { result.now ≡ between from end bytes.now }
{
    &bytes[from..end]
}
