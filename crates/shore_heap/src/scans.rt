//! The records of a store, in place order.
ghost use Rattle.std.specs.Prelude.{◌≡◌, ◌⊎◌, ◌≤◌, ◌++◌, ◌+◌, ◌∷◌, [], ℕ, List, IfErr, IfOk, IsTrue, OnOk, is_some};
ghost use Rattle.shore_page.specs.Slots.{Slot};
ghost use Rattle.shore_pool.specs.Pools.{PoolHolds};
ghost use Rattle.shore_types.specs.Layout.{HasPage, HasStore};
ghost use Rattle.shore_types.specs.declared.ids.PageId.{PageId};
ghost use Rattle.shore_heap.specs.Contents.{AreKept, ClaimsOfPages};
ghost use Rattle.shore_heap.specs.Places.{IsRefused};
ghost use Rattle.shore_heap.specs.Scans.{HasBefore, IsScan};

use crate::heap::Heap;
use shore_disk::Disk;
use shore_page::{Claims, Page};
use shore_types::layout::PAGE_HEADER_BYTES;
use shore_types::{Fault, LogEnds, PageId, Pairs, Rid, StoreId};
use std::alloc::{AllocError, Global};

impl<D: Disk> Heap<D> {
    ghost use Rattle.shore_heap.specs.Heaps.{AsksForForce, ReadsPages, RefusesPage, Shows, claims_in, frame_of, geometry_of, pool_of};

    /// The records of a store by page and slot, each copied.
    pub fn scan<C: Claims>(
        &mut self,
        alloc: Global,
        store: StoreId,
        claims: &C,
        ends: &LogEnds,
    ) -> Result<Pairs, Fault>
        requires { HasStore (geometry_of self.old) store }
        ensures scanned { (front : List ℕ) (disk : ℕ → List ℕ) (S : PageId → List Slot) → Shows (claims_in C.Claims claims.now) self.old front disk S
            → AreKept (geometry_of self.old) (claims_in C.Claims claims.now) S → IfOk result (IsScan S (geometry_of self.old) store) }
        ensures reads { ReadsPages (claims_in C.Claims claims.now) self.old self.new ends.now.durable result }
        ensures refused { (front : List ℕ) (disk : ℕ → List ℕ) → PoolHolds (pool_of self.old) front disk
            → ends.now.durable ≤ ends.now.last → IfErr result (λ fault. IsRefused (geometry_of self.old) disk store ends.now.last fault ⊎ AsksForForce self.old ends.now.durable fault) }
    {
        let mut list = self.new_list(alloc, store);
        self.scan_pages(alloc, store, &mut list, claims, ends)?;
        Ok(list)
    }

    // An empty list, with room for what the pages in frames have if that is to be had: one that grows is copied.
    fn new_list(&self, alloc: Global, store: StoreId) -> Pairs
        requires { HasStore (geometry_of self.now) store }
        ensures { result ≡ [] }
    {
        let pages = self.pages_in(store);
        let room = self.pool.geometry().version.page_bytes() - PAGE_HEADER_BYTES;
        let mut slots = 0usize;
        let mut bytes = 0usize;
        for page in 0..pages {
            if let Some(page) = self.pool.page(PageId { store, page }) {
                slots = slots.saturating_add(page.slot_count() as usize);
                bytes = bytes.saturating_add(room.saturating_sub(page.free_bytes()));
            }
        }
        match Pairs::with_capacity(alloc, slots, bytes) {
            Ok(list) => list,
            Err(_) => Pairs::new(alloc),
        }
    }

    // The records of all pages of a store go on a list.
    fn scan_pages<C: Claims>(
        &mut self,
        alloc: Global,
        store: StoreId,
        list: &mut Pairs,
        claims: &C,
        ends: &LogEnds,
    ) -> Result<(), Fault>
        requires store { HasStore (geometry_of self.old) store }
        requires none { list.old ≡ [] }
        ensures scanned { (front : List ℕ) (disk : ℕ → List ℕ) (S : PageId → List Slot) → Shows (claims_in C.Claims claims.now) self.old front disk S
            → AreKept (geometry_of self.old) (claims_in C.Claims claims.now) S → OnOk result (IsScan S (geometry_of self.old) store list.new) }
        ensures reads { ReadsPages (claims_in C.Claims claims.now) self.old self.new ends.now.durable result }
        ensures refused { (front : List ℕ) (disk : ℕ → List ℕ) → PoolHolds (pool_of self.old) front disk
            → ends.now.durable ≤ ends.now.last → IfErr result (λ fault. IsRefused (geometry_of self.old) disk store ends.now.last fault ⊎ AsksForForce self.old ends.now.durable fault) }
    {
        for page in 0..self.pages_in(store) {
            let id = PageId { store, page };
            self.scan_page(alloc, id, list, claims, ends)?;
        }
        Ok(())
    }

    // The records of a page go on a list. What the list has of other pages may be all that they have, or less.
    pub(crate) fn scan_page<C: Claims>(
        &mut self,
        alloc: Global,
        id: PageId,
        list: &mut Pairs,
        claims: &C,
        ends: &LogEnds,
    ) -> Result<(), Fault>
        requires { HasPage (geometry_of self.old) id }
        ensures scanned { (front : List ℕ) (disk : ℕ → List ℕ) (S : PageId → List Slot) → Shows (claims_in C.Claims claims.now) self.old front disk S
            → AreKept (geometry_of self.old) (claims_in C.Claims claims.now) S → (P : PageId → List Slot) → P id ≡ S id
            → HasBefore P id.store id.page 0 list.old → OnOk result (HasBefore P id.store (id.page + 1) 0 list.new) }
        ensures reads { ReadsPages (claims_in C.Claims claims.now) self.old self.new ends.now.durable result }
        ensures refused { (front : List ℕ) (disk : ℕ → List ℕ) → PoolHolds (pool_of self.old) front disk
            → IfErr result (RefusesPage self.old disk id ends.now) }
    {
        self.fetch(alloc, id, claims, ends)?;
        self.copy_page(&id, list)?;
        Ok(())
    }

    // The records of a page in a frame go on a list.
    fn copy_page(&self, id: &PageId, list: &mut Pairs) -> Result<(), AllocError>
        requires there { HasPage (geometry_of self.now) id.now }
        requires held { IsTrue (is_some (frame_of self.now id.now)) }
        ensures { (K : ClaimsOfPages) (front : List ℕ) (disk : ℕ → List ℕ) (S : PageId → List Slot) → Shows K self.now front disk S → (P : PageId → List Slot) → P id.now ≡ S id.now
            → HasBefore P id.now.store id.now.page 0 list.old → OnOk result (HasBefore P id.now.store (id.now.page + 1) 0 list.new) }
    {
        match self.pool.page(*id) {
            Some(page) => copy_records(page, id, list),
            None => Ok(()),
        }
    }
}

// The records of a page go on a list, by their slots.
fn copy_records(page: &Page, id: &PageId, list: &mut Pairs) -> Result<(), AllocError>
    ensures { (S : PageId → List Slot) → S id.now ≡ page.now.slots
        → HasBefore S id.now.store id.now.page 0 list.old → OnOk result (HasBefore S id.now.store (id.now.page + 1) 0 list.new) }
{
    // Mostly the records lie one behind another.
    if let Some(bytes) = page.run() {
        return list.push_run(id, page, bytes);
    }
    for slot in 0..page.slot_count() {
        copy_slot(page, id, slot, list)?;
    }
    Ok(())
}

// The record of a slot goes on a list, if there is one.
fn copy_slot(page: &Page, id: &PageId, slot: u16, list: &mut Pairs) -> Result<(), AllocError>
    ensures { (S : PageId → List Slot) → S id.now ≡ page.now.slots
        → HasBefore S id.now.store id.now.page slot list.old → OnOk result (HasBefore S id.now.store id.now.page (slot + 1) list.new) }
{
    match page.get(slot) {
        Some(bytes) => push_copy(id, slot, bytes, list),
        None => Ok(()),
    }
}

// A copy of a record goes on a list.
fn push_copy(id: &PageId, slot: u16, bytes: &[u8], list: &mut Pairs) -> Result<(), AllocError>
    ensures { OnOk result (list.new ≡ list.old ++ (record { page = id.now; slot = slot }, bytes.now) ∷ []) }
{
    let page = PageId {
        store: id.store,
        page: id.page,
    };
    list.push(Rid { page, slot }, bytes)
}
