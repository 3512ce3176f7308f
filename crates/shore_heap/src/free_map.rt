//! The free space map of one store.
ghost use Rattle.std.specs.Prelude.{◌≡◌, ◌+◌, ◌<◌, ◌≤◌, ℕ, min, set, replicate, length, None, IfOk, IfSome};
ghost use Rattle.shore_types.specs.declared.layout.TheConstants.{MAX_PAGES, MAX_RECORD_BYTES};
ghost use Rattle.shore_heap.specs.Bounds.{bound_at, IsFirst};

use crate::maxima::{first_above, put};
use shore_types::layout::MAX_RECORD_BYTES;
use std::alloc::{AllocError, Global};
use std::marker::Model;

// The bound of a page of which nothing is known: any record may find room there.
const UNKNOWN: u16 = MAX_RECORD_BYTES as u16 + 1;
// In the leaf behind the last page: no search goes past it.
const GUARD: u16 = u16::MAX;

/// For each page of a store a bound: no record of so many bytes, or more, finds room there, as far as is known. That this is so is the
/// caller's to keep. Only `new` takes memory; each call looks at a few nodes of a tree of maxima over the bounds.
#[derive(Drop)]
pub struct FreeMap {
    // A tree of maxima. The bounds are in the leaves, with a guard behind them; `put` keeps it so.
    tree: Vec<u16>,
    // How many pages the store has, and so how many leaves come before the guard. It is not changed.
    pages: usize,
}

impl Model for FreeMap {
    ghost use Rattle.std.specs.Prelude.{ℕ, List};
    ghost use Rattle.shore_heap.specs.Maxima.{IsGuarded, leaves_of};

    ghost Value = { List ℕ };

    ghost view = { λ m. leaves_of m.tree.items m.pages };

    ghost invariant = { λ m. IsGuarded m.tree.items m.pages };
}

impl FreeMap {
    /// The map of a store with so many pages, of which nothing is known.
    pub fn new(alloc: Global, pages: usize) -> Result<FreeMap, AllocError>
        requires { pages ≤ MAX_PAGES }
        ensures { IfOk result (λ map. map ≡ replicate pages (MAX_RECORD_BYTES + 1)) }
    {
        let leaves = pages + 1;
        let mut tree = Vec::from_elem(alloc, UNKNOWN, 2 * leaves)?;
        put(&mut tree, leaves, pages, GUARD);
        Ok(FreeMap { tree, pages })
    }

    /// The lowest page from one on that may have room for a record of so many bytes.
    pub fn first_from(&self, page: u32, bytes: usize) -> Option<u32>
        ensures found { IfSome result (IsFirst self.now page bytes) }
        ensures none { result ≡ None → (other : ℕ) → page ≤ other → bound_at self.now other ≤ bytes }
    {
        let page = page as usize;
        if page >= self.pages || bytes > MAX_RECORD_BYTES {
            return None;
        }
        let found = first_above(&self.tree, self.pages + 1, page, bytes as u16);
        if found == self.pages {
            return None;
        }
        Some(found as u32)
    }

    /// A record of so many bytes found no room in a page, so a longer one finds none either.
    pub fn refuse(&mut self, page: u32, bytes: usize)
        requires { page < length self.old }
        ensures { self.new ≡ set self.old page (min (bound_at self.old page) bytes) }
    {
        let leaves = self.pages + 1;
        let page = page as usize;
        if bytes < self.tree[leaves + page] as usize {
            put(&mut self.tree, leaves, page, bytes as u16);
        }
    }

    /// Nothing is known of a page any more: its records or its claims are fewer.
    pub fn forget(&mut self, page: u32)
        requires { page < length self.old }
        ensures { self.new ≡ set self.old page (MAX_RECORD_BYTES + 1) }
    {
        put(&mut self.tree, self.pages + 1, page as usize, UNKNOWN);
    }
}
