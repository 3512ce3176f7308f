//! The records of a store in parts, in place order.
ghost use Rattle.std.specs.Prelude.{◌≡◌, ◌⊎◌, ◌↔◌, ◌<◌, ◌≤◌, ℕ, List, IfErr, IfOk, IfSome, IsTrue, length};
ghost use Rattle.shore_page.specs.Slots.{Slot};
ghost use Rattle.shore_pool.specs.Pools.{PoolHolds};
ghost use Rattle.shore_types.specs.Layout.{HasPage};
ghost use Rattle.shore_types.specs.declared.ids.PageId.{PageId};
ghost use Rattle.shore_types.specs.declared.ids.Rid.{Rid};
ghost use Rattle.shore_heap.specs.Contents.{AreKept};
ghost use Rattle.shore_heap.specs.Places.{IsRefusedAmong};
ghost use Rattle.shore_heap.specs.Scans.{IsFrom, IsPart, IsReadFor, part_end};

use crate::heap::Heap;
use shore_disk::Disk;
use shore_page::Claims;
use shore_types::{Fault, LogEnds, PageId, Pairs};
use std::alloc::Global;

impl<D: Disk> Heap<D> {
    ghost use Rattle.shore_heap.specs.Heaps.{AsksForForce, ReadsPages, Shows, claims_in, geometry_of, pool_of};

    /// The records of a store by page and slot, each copied, from a page on: that page's, and those of more pages until there are so many or the store
    /// ends. They replace what the list had, in its memory. Answers the page that comes next, none behind the last. Behind a refusal the list may have what it had,
    /// or some of the records.
    pub fn scan_part<C: Claims>(
        &mut self,
        alloc: Global,
        first: PageId,
        most: usize,
        list: &mut Pairs,
        claims: &C,
        ends: &LogEnds,
    ) -> Result<Option<PageId>, Fault>
        requires { HasPage (geometry_of self.old) first }
        ensures scanned { (front : List ℕ) (disk : ℕ → List ℕ) (S : PageId → List Slot) → Shows (claims_in C.Claims claims.now) self.old front disk S
            → AreKept (geometry_of self.old) (claims_in C.Claims claims.now) S → IfOk result (λ next. IsPart S first.store first.page (part_end (geometry_of self.old) first.store next) list.new) }

        // It goes on behind its first page, on a page that is there, if it has as many as were asked for, and only then: without its last page it has fewer.
        ensures next { IfOk result (λ next. IfSome next (λ id. (id.store ≡ first.store) × HasPage (geometry_of self.old) id × (first.page < id.page) × (most ≤ length list.new))) }
        ensures short { (front : List ℕ) (disk : ℕ → List ℕ) (S : PageId → List Slot) → Shows (claims_in C.Claims claims.now) self.old front disk S
            → AreKept (geometry_of self.old) (claims_in C.Claims claims.now) S → IfOk result (λ next. (to : ℕ) (part : List (Rid × List ℕ)) → first.page < to
            → to < part_end (geometry_of self.old) first.store next → IsPart S first.store first.page to part → length part < most) }

        ensures reads { ReadsPages (claims_in C.Claims claims.now) self.old self.new ends.now.durable result }
        ensures refused { (front : List ℕ) (disk : ℕ → List ℕ) → PoolHolds (pool_of self.old) front disk
            → ends.now.durable ≤ ends.now.last → IfErr result (λ fault. IsRefusedAmong (geometry_of self.old) disk (IsFrom first) ends.now.last fault ⊎ AsksForForce self.old ends.now.durable fault) }

        // A page behind the first is read only while there are fewer records than were asked for: no other refuses a part by its damage.
        ensures stops { (front : List ℕ) (disk : ℕ → List ℕ) (S : PageId → List Slot) → Shows (claims_in C.Claims claims.now) self.old front disk S
            → AreKept (geometry_of self.old) (claims_in C.Claims claims.now) S → ends.now.durable ≤ ends.now.last
            → IfErr result (λ fault. IsRefusedAmong (geometry_of self.old) disk (IsReadFor S first most) ends.now.last fault ⊎ AsksForForce self.old ends.now.durable fault) }
    {
        list.clear();
        let PageId { store, page: from } = first;
        for page in from..self.pages_in(store) {
            if is_enough(from, page, list.len(), most) {
                return Ok(Some(PageId { store, page }));
            }
            let id = PageId { store, page };
            self.scan_page(alloc, id, list, claims, ends)?;
        }
        Ok(None)
    }
}

// Whether a part has as many records as were asked for, behind its first page.
fn is_enough(from: u32, page: u32, found: usize, most: usize) -> bool
    ensures { IsTrue result ↔ ((from < page) × (most ≤ found)) }
{
    page > from && found >= most
}
