//! The heap: records in the pages of a pool.
ghost use Rattle.std.specs.Prelude.{[], ◌≡◌, ◌≢◌, ◌↔◌, ◌+◌, ◌<◌, ◌≤◌, ℕ, List, IfErr, IfOk, IfSome, IsFalse, IsSomeAnd, IsTrue, None, Some, is_some, length, map, option_map};
ghost use Rattle.shore_dwrite.specs.Settled as settled_device;
ghost use Rattle.shore_dwrite.specs.Volumes.{page_number};
ghost use Rattle.shore_page.specs.Room.{Fits, claim_at, lowered};
ghost use Rattle.shore_page.specs.Slots.{Slot, image_at_slot, settled, with_change, with_image};
ghost use Rattle.shore_types.specs.Images.{image_len, Image};
ghost use Rattle.shore_page.specs.Text.{IsPageText, images_of};
ghost use Rattle.shore_pool.specs.declared.amid.Amid.TheVariants as Amid;
ghost use Rattle.shore_pool.specs.Changes.{changed, reclaimed};
ghost use Rattle.shore_pool.specs.Pages.{SamePages};
ghost use Rattle.shore_pool.specs.Pools as pools;
ghost use Rattle.shore_types.specs.Layout.{HasPage};
ghost use Rattle.shore_types.specs.declared.ids.PageId.{PageId};
ghost use Rattle.shore_types.specs.declared.layout.TheConstants.{MAX_POOL_FRAMES, MAX_RECORD_BYTES, MIN_POOL_FRAMES};
ghost use Rattle.shore_heap.specs.Contents.{FitIn, ClaimsOfPages, bound_of, claimed_by, unclaimed, with_slots};
ghost use Rattle.shore_types.specs.declared.versions.Version.{Version};

use crate::free_map::FreeMap;
use crate::maps::unknown_maps;
use shore_disk::{Disk, FuseDisk};
use shore_dwrite::PageDev;
use shore_page::Page;
use shore_pool::Pool;
use shore_types::{Fault, Geometry, Lsn, PageId, Rid};
use std::alloc::Global;

/// The records of a volume's stores, in the slots of their pages.
#[derive(Drop)]
pub struct Heap<D: Disk> {
    // The pages, in frames and on the volume.
    pub(crate) pool: Pool<D>,
    // For each store its free space map: which lengths find no room in its pages. `maps` says that each page has a bound; that the bounds are right is
    // part of `Shows`, and `forget` and `refuse` keep it so.
    pub(crate) free: Vec<FreeMap>,
    ghost maps: { map length free.items ≡ (pools.geometry_of pool).stores },
}

impl<D: Disk> Heap<D> {
    ghost use Rattle.shore_heap.specs.Dirty.{SameDirt};
    ghost use Rattle.shore_heap.specs.Heaps.{KeepsVolume, Shows, amid_of, device_of, frame_at, frame_of, geometry_of, limit_of};

    /// The heap of a volume, with no page in a frame, over a pool of so many frames. All memory is taken but that of pages. The device is handed
    /// back if an allocation failed.
    pub fn new(alloc: Global, device: PageDev<D>, frames: usize) -> Result<Heap<D>, PageDev<D>>
        requires some { MIN_POOL_FRAMES ≤ frames }
        requires most { frames ≤ MAX_POOL_FRAMES }
        ensures device { IfOk result (λ heap. device_of heap ≡ device) }
        ensures none { IfOk result (λ heap. (k : ℕ) → frame_at heap k ≡ None) }
        ensures shows { (front : List ℕ) (disk : ℕ → List ℕ) (number : PageId → ℕ) (images : PageId → List Image) → settled_device.IsSettled device front disk
            → ((id : PageId) → HasPage (settled_device.geometry_of device) id
            → IsPageText (settled_device.geometry_of device).version (disk (page_number (settled_device.geometry_of device) id)) id (number id) (images id))
            → IfOk result (λ heap. Shows unclaimed heap front disk (λ id. map settled (images id))) }
        ensures limit { IfOk result (λ heap. limit_of heap ≡ frames) }
        ensures rests { IfOk result (λ heap. amid_of heap ≡ Amid.Rest) }
        ensures refused { IfErr result (λ back. back ≡ device) }
    {
        let Ok(free) = unknown_maps(alloc, device.geometry()) else {
            return Err(device);
        };
        let pool = Pool::new(alloc, device, frames)?;
        Ok(Heap { pool, free })
    }

    /// The device, as it is. What was changed is forgotten.
    pub fn into_device(self) -> PageDev<D>
        ensures { result ≡ device_of self }
    {
        self.pool.into_device()
    }

    /// How the stores of the volume are laid out.
    pub fn geometry(&self) -> &Geometry
        ensures { result.now ≡ geometry_of self.now }
    {
        self.pool.geometry()
    }

    /// The record of an id whose page is in a frame.
    #[tactic(auto, using(shore_types::specs::Versions::sizes))]
    pub fn record(&self, id: Rid) -> Option<&[u8]>
        requires there { HasPage (geometry_of self.now) id.page }
        requires held { IsTrue (is_some (frame_of self.now id.page)) }
        ensures shown { (K : ClaimsOfPages) (front : List ℕ) (disk : ℕ → List ℕ) (S : PageId → List Slot) → Shows K self.now front disk S
            → option_map (λ bytes. bytes.now) result ≡ image_at_slot (S id.page) id.slot }
        ensures framed { IsSomeAnd (frame_of self.now id.page) (λ f. option_map (λ bytes. bytes.now) result ≡ image_at_slot f.page.slots id.slot) }
        ensures short { IfSome result (λ bytes. length bytes.now ≤ MAX_RECORD_BYTES) }
    {
        match self.pool.page(id.page) {
            Some(page) => page.get(id.slot),
            None => None,
        }
    }

    /// The number of the last change of a page that is in a frame, 0 for none.
    pub fn number(&self, page: PageId) -> Lsn
        requires there { HasPage (geometry_of self.now) page }
        requires held { IsTrue (is_some (frame_of self.now page)) }
        ensures { IsSomeAnd (frame_of self.now page) (λ f. result ≡ f.page.number) }
    {
        match self.pool.page(page) {
            Some(found) => found.number(),
            None => Lsn(0),
        }
    }

    /// Whether a record of so many bytes can have this id, whose page is in a frame.
    pub fn fits(&self, id: Rid, bytes: usize) -> bool
        requires there { HasPage (geometry_of self.now) id.page }
        requires held { IsTrue (is_some (frame_of self.now id.page)) }
        ensures shown { (K : ClaimsOfPages) (front : List ℕ) (disk : ℕ → List ℕ) (S : PageId → List Slot) → Shows K self.now front disk S → IsTrue result ↔ Fits (geometry_of self.now).version (S id.page) id.slot bytes }
        ensures framed { IsTrue result ↔ IsSomeAnd (frame_of self.now id.page) (λ f. Fits (geometry_of self.now).version f.page.slots id.slot bytes) }
    {
        match self.pool.page(id.page) {
            Some(page) => page.fits(id.slot, bytes),
            None => false,
        }
    }

    /// The bytes that are kept for an id whose page is in a frame.
    pub fn claim(&self, id: Rid) -> u16
        requires there { HasPage (geometry_of self.now) id.page }
        requires held { IsTrue (is_some (frame_of self.now id.page)) }
        ensures { (K : ClaimsOfPages) (front : List ℕ) (disk : ℕ → List ℕ) (S : PageId → List Slot) → Shows K self.now front disk S → result ≡ claim_at (S id.page) id.slot }
    {
        match self.pool.page(id.page) {
            Some(page) => page.claim(id.slot),
            None => 0,
        }
    }

    /// Makes a change that was logged under this number, on a page in a frame. What was kept for the slot stays so.
    pub fn change(&mut self, id: Rid, lsn: Lsn, after: Option<&[u8]>)
        requires there { HasPage (geometry_of self.old) id.page }
        requires fits { IsSomeAnd (frame_of self.old id.page) (λ f. Fits (geometry_of self.old).version f.page.slots id.slot (image_len (option_map (λ bytes. bytes.now) after))) }
        ensures shows { (K : ClaimsOfPages) (front : List ℕ) (disk : ℕ → List ℕ) (S : PageId → List Slot) → Shows K self.old front disk S
            → Shows K self.new front disk (with_slots S id.page (λ slots. with_image slots id.slot (option_map (λ bytes. bytes.now) after.entry))) }
        ensures frames { (frame_at self.new (page_number (geometry_of self.old) id.page) ≡ option_map (changed lsn id.slot (option_map (λ bytes. bytes.now) after.entry)) (frame_of self.old id.page))
            × ((k : ℕ) → k ≢ page_number (geometry_of self.old) id.page → frame_at self.new k ≡ frame_at self.old k) }
        ensures held { (k : ℕ) → is_some (frame_at self.new k) ≡ is_some (frame_at self.old k) }
        ensures untouched { KeepsVolume self.old self.new }
        ensures limit { limit_of self.new ≡ limit_of self.old }
        ensures device { device_of self.new ≡ device_of self.old }
    {
        let gone = after.is_none();
        self.pool.change(id.page, lsn, id.slot, after);
        if gone {
            self.forget(id.page);
        }
    }

    /// Nothing comes back any more to an id: its slot keeps what its record takes. For a page not in the pool the caller no longer reports the claim.
    pub fn release(&mut self, id: Rid)
        ensures shows { (K : ClaimsOfPages) (front : List ℕ) (disk : ℕ → List ℕ) (S : PageId → List Slot) → Shows K self.old front disk S
            → (frame_of self.old id.page ≡ None → K id.page ≡ []) → Shows K self.new front disk (with_slots S id.page (λ slots. with_change (lowered 0) slots id.slot)) }
        ensures told { (K L : ClaimsOfPages) (front : List ℕ) (disk : ℕ → List ℕ) (S : PageId → List Slot) → Shows K self.old front disk S
            → frame_of self.old id.page ≡ None → ((p : PageId) → p ≢ id.page → L p ≡ K p) → FitIn (geometry_of self.old).version (L id.page) (map settled (images_of (S id.page)))
            → Shows L self.new front disk (with_slots S id.page (λ slots. claimed_by (L id.page) (map settled (images_of slots)))) }
        ensures same { (disk : ℕ → List ℕ) → SamePages (geometry_of self.old).version (frame_at self.old) disk (frame_at self.new) disk }
        ensures dirt { SameDirt self.old self.new }
        ensures untouched { KeepsVolume self.old self.new }
        ensures held { (k : ℕ) → is_some (frame_at self.new k) ≡ is_some (frame_at self.old k) }
        ensures limit { limit_of self.new ≡ limit_of self.old }
        ensures device { device_of self.new ≡ device_of self.old }
    {
        if !self.geometry().has_page(id.page) {
            return;
        }
        if self.has_slot(id.page, id.slot) {
            self.release_to(id, 0);
        } else {
            self.forget(id.page);
        }
    }

    /// No more than so many bytes may come back to an id whose page is in a frame: its slot keeps no more than these, and what its record takes.
    pub fn release_to(&mut self, id: Rid, bytes: usize)
        requires there { HasPage (geometry_of self.old) id.page }
        requires slot { IsSomeAnd (frame_of self.old id.page) (λ f. id.slot < length f.page.slots) }
        ensures shows { (K : ClaimsOfPages) (front : List ℕ) (disk : ℕ → List ℕ) (S : PageId → List Slot) → Shows K self.old front disk S
            → Shows K self.new front disk (with_slots S id.page (λ slots. with_change (lowered bytes) slots id.slot)) }
        ensures frames { (frame_at self.new (page_number (geometry_of self.old) id.page) ≡ option_map (reclaimed (lowered bytes) id.slot) (frame_of self.old id.page))
            × ((k : ℕ) → k ≢ page_number (geometry_of self.old) id.page → frame_at self.new k ≡ frame_at self.old k) }
        ensures same { (disk : ℕ → List ℕ) → SamePages (geometry_of self.old).version (frame_at self.old) disk (frame_at self.new) disk }
        ensures dirt { SameDirt self.old self.new }
        ensures untouched { KeepsVolume self.old self.new }
        ensures held { (k : ℕ) → is_some (frame_at self.new k) ≡ is_some (frame_at self.old k) }
        ensures limit { limit_of self.new ≡ limit_of self.old }
        ensures device { device_of self.new ≡ device_of self.old }
    {
        self.pool.unreserve(id.page, id.slot, bytes);
        self.forget(id.page);
    }

    // Whether a page is in a frame, with such a slot.
    fn has_slot(&self, id: PageId, slot: u16) -> bool
        requires { HasPage (geometry_of self.now) id }
        ensures there { IsTrue result → IsSomeAnd (frame_of self.now id) (λ f. slot < length f.page.slots) }
        ensures none { IsFalse result → IfSome (frame_of self.now id) (λ f. length f.page.slots ≤ slot) }
    {
        match self.pool.page(id) {
            Some(found) => slot < found.slot_count(),
            None => false,
        }
    }

    // Nothing is known any more of what a page refuses.
    fn forget(&mut self, id: PageId)
        requires { HasPage (geometry_of self.old) id }
        ensures pool { self.new.pool ≡ self.old.pool }
        ensures here { bound_of self.new.free.items id ≡ MAX_RECORD_BYTES + 1 }
        ensures others { (p : PageId) → p ≢ id → bound_of self.new.free.items p ≡ bound_of self.old.free.items p }
    {
        self.free[id.store.0 as usize].forget(id.page);
    }
}

impl<D: Disk> Heap<FuseDisk<D>> {
    ghost use Rattle.shore_disk.specs.Fuse.{fuse_calls, fuse_inner};
    ghost use Rattle.shore_heap.specs.Heaps.{KeepsVolume, Shows, device_of, faults_of, frame_at, geometry_of, history_of, limit_of};

    /// Lets so many more writes and syncs of the device pass; then every call of it fails.
    pub fn set_fuse(&mut self, calls: u64)
        ensures inner { fuse_inner (settled_device.device_of (device_of self.new)) ≡ fuse_inner (settled_device.device_of (device_of self.old)) }
        ensures calls { fuse_calls (settled_device.device_of (device_of self.new)) ≡ calls }
        ensures frames { (k : ℕ) → frame_at self.new k ≡ frame_at self.old k }
        ensures shows { (K : ClaimsOfPages) (front : List ℕ) (disk : ℕ → List ℕ) (S : PageId → List Slot) → Shows K self.old front disk S → Shows K self.new front disk S }
        ensures untouched { KeepsVolume self.old self.new }
        ensures limit { limit_of self.new ≡ limit_of self.old }
        ensures geometry { geometry_of self.new ≡ geometry_of self.old }
        ensures history { history_of self.new ≡ history_of self.old }
        ensures faults { faults_of self.new ≡ faults_of self.old }
    {
        self.pool.set_fuse(calls);
    }
}
