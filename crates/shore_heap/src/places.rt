//! Where a new record of a store goes.
ghost use Rattle.std.specs.Prelude.{◌≡◌, ◌≢◌, ◌⊎◌, ◌<◌, ◌≤◌, ℕ, List, IfErr, IfNone, IfOk, IfSome, IsSomeAnd, IsTrue, MatchOption, None, Some, is_some, min, slice_get};
ghost use Rattle.shore_page.specs.Room.{IsCandidate};
ghost use Rattle.shore_page.specs.Slots.{Slot};
ghost use Rattle.shore_pool.specs.Pools.{PoolHolds};
ghost use Rattle.shore_types.specs.Layout.{HasPage, HasSlot, HasStore};
ghost use Rattle.shore_types.specs.declared.ids.PageId.{PageId};
ghost use Rattle.shore_heap.specs.Contents.{AreBounds, AreKept, ClaimsOfPages, TakesNone, bound_of};
ghost use Rattle.shore_heap.specs.Places.{HasNoPlace, HasNoSlot, IsFirstSlot, IsPlace, IsRefused, slots_of};

use crate::choices::Places;
use crate::heap::Heap;
use crate::slots::first_allowed;
use shore_disk::Disk;
use shore_page::Claims;
use shore_types::{Fault, LogEnds, PageId, Rid, StoreId};
use std::alloc::Global;

impl<D: Disk> Heap<D> {
    ghost use Rattle.shore_heap.specs.Heaps.{AsksForForce, ReadsPages, RefusesPage, Shows, allowed_by, claims_in, frame_of, geometry_of, pool_of};

    /// Of all slots of a store that a record of so many bytes may go into, empty ones and the one behind the last of each page, the first that may be taken, by page
    /// and slot, with its page in a frame.
    /// A page that is known to refuse as many bytes is not looked at, and one of which no place may be taken is not fetched.
    pub fn place_for<C: Claims, P: Places>(
        &mut self,
        alloc: Global,
        store: StoreId,
        bytes: usize,
        places: &P,
        claims: &C,
        ends: &LogEnds,
    ) -> Result<Option<Rid>, Fault>
        requires { HasStore (geometry_of self.old) store }
        ensures found { (front : List ℕ) (disk : ℕ → List ℕ) (S : PageId → List Slot) → Shows (claims_in C.Claims claims.now) self.old front disk S
            → AreKept (geometry_of self.old) (claims_in C.Claims claims.now) S → IfOk result (λ found. IfSome found (IsPlace (geometry_of self.old) S store bytes (allowed_by P.Places places.now))) }
        ensures none { (front : List ℕ) (disk : ℕ → List ℕ) (S : PageId → List Slot) → Shows (claims_in C.Claims claims.now) self.old front disk S
            → AreKept (geometry_of self.old) (claims_in C.Claims claims.now) S → IfOk result (λ found. IfNone found (HasNoPlace (geometry_of self.old) S store bytes (allowed_by P.Places places.now))) }
        ensures there { IfOk result (λ found. IfSome found (HasSlot (geometry_of self.old))) }
        ensures of_store { IfOk result (λ found. IfSome found (λ id. id.page.store ≡ store)) }
        ensures held { IfOk result (λ found. IfSome found (λ id. IsTrue (is_some (frame_of self.new id.page)))) }
        ensures framed { IfOk result (λ found. IfSome found (λ id. IsSomeAnd (frame_of self.new id.page) (λ f. IsCandidate (geometry_of self.old).version f.page.slots id.slot bytes))) }
        ensures allowed { IfOk result (λ found. IfSome found (allowed_by P.Places places.now)) }
        ensures reads { ReadsPages (claims_in C.Claims claims.now) self.old self.new ends.now.durable result }
        ensures refused { (front : List ℕ) (disk : ℕ → List ℕ) → PoolHolds (pool_of self.old) front disk
            → ends.now.durable ≤ ends.now.last → IfErr result (λ fault. IsRefused (geometry_of self.old) disk store ends.now.last fault ⊎ AsksForForce self.old ends.now.durable fault) }
    {
        let end = self.pages_in(store);
        let mut from = 0;
        while from < end {
            let Some(page) = self.next_page(store, from, bytes) else {
                return Ok(None);
            };
            let id = PageId { store, page };
            if places.may_use(&id) {
                let tried = self.try_page(alloc, id, bytes, places, claims, ends)?;
                if let Some(slot) = tried {
                    let page = PageId { store, page };
                    return Ok(Some(Rid { page, slot }));
                }
            }
            from = page + 1;
        }
        Ok(None)
    }

    // How many pages a store has.
    pub(crate) fn pages_in(&self, store: StoreId) -> u32
        requires { HasStore (geometry_of self.now) store }
        ensures { slice_get (geometry_of self.now).stores store ≡ Some result }
    {
        self.pool.geometry().stores.as_slice()[store.0 as usize]
    }

    // The lowest page of a store from one on that is not known to refuse so many bytes.
    fn next_page(&self, store: StoreId, from: u32, bytes: usize) -> Option<u32>
        requires { HasStore (geometry_of self.now) store }
        ensures from { IfSome result (λ page. from ≤ page) }
        ensures there { IfSome result (λ page. HasPage (geometry_of self.now) record { store = store; page = page }) }
        ensures passed { IfSome result (λ page. (j : ℕ) → from ≤ j → j < page → bound_of self.now.free.items record { store = store; page = j } ≤ bytes) }
        ensures none { result ≡ None → (j : ℕ) → from ≤ j → bound_of self.now.free.items record { store = store; page = j } ≤ bytes }
    {
        self.free[store.0 as usize].first_from(from, bytes)
    }

    // The first slot of a page that takes so many bytes and may be taken. If none has room, the free space map learns it.
    fn try_page<C: Claims, P: Places>(
        &mut self,
        alloc: Global,
        id: PageId,
        bytes: usize,
        places: &P,
        claims: &C,
        ends: &LogEnds,
    ) -> Result<Option<u16>, Fault>
        requires there { HasPage (geometry_of self.old) id }
        requires usable { P.Places.MayUse places.now id }
        ensures found { (front : List ℕ) (disk : ℕ → List ℕ) (S : PageId → List Slot) → Shows (claims_in C.Claims claims.now) self.old front disk S
            → AreKept (geometry_of self.old) (claims_in C.Claims claims.now) S → IfOk result (λ found. IfSome found (IsFirstSlot (geometry_of self.old).version (S id) bytes (slots_of (allowed_by P.Places places.now) id))) }
        ensures none { (front : List ℕ) (disk : ℕ → List ℕ) (S : PageId → List Slot) → Shows (claims_in C.Claims claims.now) self.old front disk S
            → AreKept (geometry_of self.old) (claims_in C.Claims claims.now) S → IfOk result (λ found. IfNone found (HasNoSlot (geometry_of self.old).version (S id) bytes (slots_of (allowed_by P.Places places.now) id))) }
        ensures held { IfOk result (λ found. IsTrue (is_some (frame_of self.new id))) }
        ensures framed { IfOk result (λ found. IfSome found (λ slot. IsSomeAnd (frame_of self.new id) (λ f. IsCandidate (geometry_of self.old).version f.page.slots slot bytes))) }
        ensures allowed { IfOk result (λ found. IfSome found (slots_of (allowed_by P.Places places.now) id)) }
        ensures reads { ReadsPages (claims_in C.Claims claims.now) self.old self.new ends.now.durable result }
        ensures refused { (front : List ℕ) (disk : ℕ → List ℕ) → PoolHolds (pool_of self.old) front disk
            → IfErr result (RefusesPage self.old disk id ends.now) }
    {
        self.fetch(alloc, id, claims, ends)?;
        match self.allowed_on(&id, bytes, places) {
            Some(slot) => Ok(Some(slot)),
            None => {
                self.refuse_if_full(id, bytes);
                Ok(None)
            }
        }
    }

    // The first slot of a page in a frame that takes so many bytes and may be taken.
    fn allowed_on<P: Places>(&self, id: &PageId, bytes: usize, places: &P) -> Option<u16>
        requires there { HasPage (geometry_of self.now) id.now }
        requires held { IsTrue (is_some (frame_of self.now id.now)) }
        requires usable { P.Places.MayUse places.now id.now }
        ensures { IsSomeAnd (frame_of self.now id.now) (λ f. MatchOption result (HasNoSlot (geometry_of self.now).version f.page.slots bytes (slots_of (allowed_by P.Places places.now) id.now))
            (IsFirstSlot (geometry_of self.now).version f.page.slots bytes (slots_of (allowed_by P.Places places.now) id.now))) }
    {
        match self.pool.page(*id) {
            Some(page) => first_allowed(page, id, bytes, places),
            None => None,
        }
    }

    // Whether no slot of a page in a frame takes so many bytes.
    fn takes_none(&self, id: &PageId, bytes: usize) -> bool
        requires { HasPage (geometry_of self.now) id.now }
        ensures { IsTrue result → IsSomeAnd (frame_of self.now id.now) (λ f. TakesNone (geometry_of self.now).version f.page.slots bytes) }
    {
        match self.pool.page(*id) {
            Some(page) => page.candidate(0, bytes).is_none(),
            None => false,
        }
    }

    // If no slot of a page in a frame has room for so many bytes, be they locked or not, the free space map learns it.
    fn refuse_if_full(&mut self, id: PageId, bytes: usize)
        requires { HasPage (geometry_of self.old) id }
        ensures pool { self.new.pool ≡ self.old.pool }
        ensures bounds { (K : ClaimsOfPages) (front : List ℕ) (disk : ℕ → List ℕ) (S : PageId → List Slot) → Shows K self.old front disk S
            → AreBounds (geometry_of self.old) self.new.free.items S }
    {
        if self.takes_none(&id, bytes) {
            self.refuse(id, bytes);
        }
    }

    // The free space map learns that a page has no room for so many bytes.
    fn refuse(&mut self, id: PageId, bytes: usize)
        requires { HasPage (geometry_of self.old) id }
        ensures pool { self.new.pool ≡ self.old.pool }
        ensures here { bound_of self.new.free.items id ≡ min (bound_of self.old.free.items id) bytes }
        ensures others { (p : PageId) → p ≢ id → bound_of self.new.free.items p ≡ bound_of self.old.free.items p }
    {
        self.free[id.store.0 as usize].refuse(id.page, bytes);
    }
}
