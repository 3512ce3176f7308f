//! Pages as they come into frames, and out of them.
ghost use Rattle.std.specs.Prelude.{◌≡◌, ◌≢◌, ◌⊎◌, ◌<◌, ◌↔◌, ℕ, List, IfErr, IsFalse, IsSomeAnd, IsTrue, None, OnOk, Some, is_some, length, option_map};
ghost use Rattle.shore_dwrite.specs.Volumes.{page_number};
ghost use Rattle.shore_page.specs.Room.{Fits, raised};
ghost use Rattle.shore_page.specs.Slots.{Slot, with_change};
ghost use Rattle.shore_pool.specs.Changes.{reclaimed};
ghost use Rattle.shore_pool.specs.Pages.{SamePages};
ghost use Rattle.shore_pool.specs.Pools.{PoolHolds};
ghost use Rattle.shore_types.specs.Layout.{HasPage};
ghost use Rattle.shore_types.specs.declared.faults.Fault.TheVariants as Fault;
ghost use Rattle.shore_types.specs.declared.ids.PageId.{PageId};
ghost use Rattle.shore_heap.specs.Contents.{CanKeep, ClaimsOfPages, FitIn, KeepWhatFits, claimed_frame, with_page_slots, with_slots};
ghost use Rattle.shore_types.specs.declared.versions.Version.{Version};

use crate::heap::Heap;
use shore_disk::Disk;
use shore_page::{ChainPlace, Claims, Page};
use shore_pool::Fetched;
use shore_types::{Fault, LogEnds, PageId, Rid};
use std::alloc::Global;

impl<D: Disk> Heap<D> {
    ghost use Rattle.shore_pool.specs.declared.frame.Frame.{Frame};
    ghost use Rattle.shore_heap.specs.Dirty.{SameDirt};
    ghost use Rattle.shore_heap.specs.Heaps.{FramesWere, KeepsVolume, ReadsPages, RefusesPage, Shows, bounds_of, claims_in, device_of, frame_at, frame_of, geometry_of, limit_of, pool_of};

    /// Brings a page into a frame, if it is in none. Another may be written back and leave its own for it.
    pub fn fetch<C: Claims>(
        &mut self,
        alloc: Global,
        page: PageId,
        claims: &C,
        ends: &LogEnds,
    ) -> Result<(), Fault>
        requires { HasPage (geometry_of self.old) page }
        ensures held { OnOk result (IsTrue (is_some (frame_of self.new page))) }
        ensures reads { ReadsPages (claims_in C.Claims claims.now) self.old self.new ends.now.durable result }
        ensures refused { (front : List ℕ) (disk : ℕ → List ℕ) → PoolHolds (pool_of self.old) front disk
            → IfErr result (RefusesPage self.old disk page ends.now) }

        // The page that is asked for was in its frame, or is there as it was read; a frame of another has what it had, though it may have become clean.
        ensures framed { (front : List ℕ) (disk : ℕ → List ℕ) → PoolHolds (pool_of self.old) front disk → FramesWere (claims_in C.Claims claims.now) self.old self.new page ends.now.last }

        // Where a force is needed nothing has changed: each frame is as it was.
        ensures unmoved { (front : List ℕ) (disk : ℕ → List ℕ) → PoolHolds (pool_of self.old) front disk
            → IfErr result (λ fault. (number : ℕ) → fault ≡ Fault.NeedForce number → (k : ℕ) → frame_at self.new k ≡ frame_at self.old k) }
        ensures bounds { bounds_of self.new ≡ bounds_of self.old }
    {
        match self.pool.fetch(alloc, page, ends)? {
            Fetched::Held => Ok(()),
            Fetched::Read => {
                self.keep_claims(&page, claims);
                Ok(())
            }
        }
    }

    /// A slot of a page in a frame keeps at least so many bytes from now on. Answers whether it does: it does not if its page is in no frame, if it is not
    /// there, or if it has no room; then nothing has changed.
    pub fn keep_claim(&mut self, id: &Rid, bytes: usize) -> bool
        requires there { HasPage (geometry_of self.old) id.now.page }
        ensures kept { IsTrue result ↔ IsSomeAnd (frame_of self.old id.now.page) (λ f. CanKeep (geometry_of self.old).version f.page.slots id.now.slot bytes) }
        ensures shows { IsTrue result → (K : ClaimsOfPages) (front : List ℕ) (disk : ℕ → List ℕ) (S : PageId → List Slot) → Shows K self.old front disk S
            → Shows K self.new front disk (with_slots S id.now.page (λ slots. with_change (raised bytes) slots id.now.slot)) }
        ensures here { IsTrue result → frame_of self.new id.now.page ≡ option_map (reclaimed (raised bytes) id.now.slot) (frame_of self.old id.now.page) }
        ensures others { (k : ℕ) → k ≢ page_number (geometry_of self.old) id.now.page → frame_at self.new k ≡ frame_at self.old k }
        ensures unchanged { IsFalse result → self.new ≡ self.old }
        ensures same { (disk : ℕ → List ℕ) → SamePages (geometry_of self.old).version (frame_at self.old) disk (frame_at self.new) disk }
        ensures dirt { SameDirt self.old self.new }
        ensures untouched { KeepsVolume self.old self.new }
        ensures bounds { bounds_of self.new ≡ bounds_of self.old }
        ensures limit { limit_of self.new ≡ limit_of self.old }
        ensures device { device_of self.new ≡ device_of self.old }
    {
        if !self.has_room(&id.page, id.slot, bytes) {
            return false;
        }
        self.pool.reserve(id.page, id.slot, bytes);
        true
    }

    // The slots of a page that was just read keep what undecided changes may put back, the newest first. One that finds no room is passed over.
    fn keep_claims<C: Claims>(&mut self, id: &PageId, claims: &C)
        requires there { HasPage (geometry_of self.old) id.now }
        ensures fitting { (f : Frame) → frame_of self.old id.now ≡ Some f
            → (slots : List Slot) × KeepWhatFits (geometry_of self.old).version (claims_in C.Claims claims.now id.now) f.page.slots slots × (frame_of self.new id.now ≡ Some (with_page_slots slots f)) }
        ensures here { (f : Frame) → frame_of self.old id.now ≡ Some f → FitIn (geometry_of self.old).version (claims_in C.Claims claims.now id.now) f.page.slots
            → frame_of self.new id.now ≡ Some (claimed_frame (claims_in C.Claims claims.now id.now) f) }
        ensures dirt { SameDirt self.old self.new }
        ensures others { (k : ℕ) → k ≢ page_number (geometry_of self.old) id.now → frame_at self.new k ≡ frame_at self.old k }
        ensures kept { (front : List ℕ) (disk : ℕ → List ℕ) → PoolHolds (pool_of self.old) front disk
            → PoolHolds (pool_of self.new) front disk × SamePages (geometry_of self.old).version (frame_at self.old) disk (frame_at self.new) disk }
        ensures bounds { bounds_of self.new ≡ bounds_of self.old }
        ensures limit { limit_of self.new ≡ limit_of self.old }
        ensures device { device_of self.new ≡ device_of self.old }
    {
        let mut place = claims.newest(id);
        while place > 0 {
            let ChainPlace { claim, older } = claims.place(id, place);
            if let Some((slot, bytes)) = claim {
                self.keep(id, slot, bytes as usize);
            }
            place = older;
        }
    }

    // A slot keeps so many bytes, if it is there and has room.
    fn keep(&mut self, id: &PageId, slot: u16, bytes: usize)
        requires there { HasPage (geometry_of self.old) id.now }
        ensures here { (f : Frame) → frame_of self.old id.now ≡ Some f → slot < length f.page.slots → Fits (geometry_of self.old).version f.page.slots slot bytes
            → frame_of self.new id.now ≡ Some (reclaimed (raised bytes) slot f) }
        ensures either { (f : Frame) → frame_of self.old id.now ≡ Some f → (CanKeep (geometry_of self.old).version f.page.slots slot bytes × (frame_of self.new id.now ≡ Some (reclaimed (raised bytes) slot f)))
            ⊎ ((CanKeep (geometry_of self.old).version f.page.slots slot bytes → ⊥) × (frame_of self.new id.now ≡ Some f)) }
        ensures dirt { SameDirt self.old self.new }
        ensures others { (k : ℕ) → k ≢ page_number (geometry_of self.old) id.now → frame_at self.new k ≡ frame_at self.old k }
        ensures kept { (front : List ℕ) (disk : ℕ → List ℕ) → PoolHolds (pool_of self.old) front disk
            → PoolHolds (pool_of self.new) front disk × SamePages (geometry_of self.old).version (frame_at self.old) disk (frame_at self.new) disk }
        ensures bounds { bounds_of self.new ≡ bounds_of self.old }
        ensures limit { limit_of self.new ≡ limit_of self.old }
        ensures device { device_of self.new ≡ device_of self.old }
    {
        if self.has_room(id, slot, bytes) {
            self.pool.reserve(*id, slot, bytes);
        }
    }

    // Whether a page is in a frame, with such a slot and room for so many bytes there.
    fn has_room(&self, id: &PageId, slot: u16, bytes: usize) -> bool
        requires { HasPage (geometry_of self.now) id.now }
        ensures { IsTrue result ↔ IsSomeAnd (frame_of self.now id.now) (λ f. CanKeep (geometry_of self.now).version f.page.slots slot bytes) }
    {
        match self.pool.page(*id) {
            Some(page) => can_keep(page, slot, bytes),
            None => false,
        }
    }
}

// Whether a slot of a page is there, and has room for so many bytes.
fn can_keep(page: &Page, slot: u16, bytes: usize) -> bool
    ensures { IsTrue result ↔ CanKeep page.now.version page.now.slots slot bytes }
{
    slot < page.slot_count() && page.fits(slot, bytes)
}
