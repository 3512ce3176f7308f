//! The dirty pages, as a checkpoint takes them.
ghost use Rattle.std.specs.Prelude.{◌≡◌, ◌≤◌, All, IfNone, IfOk, IfSome, length, map};
ghost use Rattle.std.specs.List.Sorted.{IsStrictlySortedBy};
ghost use Rattle.shore_types.specs.Ids.{page_cmp};
ghost use Rattle.shore_types.specs.declared.layout.TheConstants.{MAX_POOL_FRAMES};

use crate::heap::Heap;
use shore_disk::Disk;
use shore_model::DirtyPage;
use std::alloc::{AllocError, Global};

impl<D: Disk> Heap<D> {
    ghost use Rattle.shore_heap.specs.Dirty.{HasAllDirty, IsDirtyFirst, IsDirtyIn, NoneDirty};

    /// The dirty pages, each with its recovery number, rising by store and page: the dirty page table of a checkpoint that begins now.
    pub fn dirty_pages(&self, alloc: Global) -> Result<Vec<DirtyPage>, AllocError>
        ensures listed { IfOk result (λ list. All (IsDirtyIn self.now) list.items) }
        ensures all { IfOk result (λ list. HasAllDirty self.now list.items) }
        ensures rising { IfOk result (λ list. IsStrictlySortedBy page_cmp (map (λ d. d.page) list.items)) }
        ensures few { IfOk result (λ list. length list.items ≤ MAX_POOL_FRAMES) }
    {
        self.pool.dirty_pages(alloc)
    }

    /// The dirty page with the least recovery number, with that number. None if no page is dirty.
    pub fn oldest_dirty(&self) -> Option<DirtyPage>
        ensures some { IfSome result (IsDirtyIn self.now) }
        ensures least { IfSome result (IsDirtyFirst self.now) }
        ensures none { IfNone result (NoneDirty self.now) }
    {
        self.pool.oldest_dirty()
    }
}
