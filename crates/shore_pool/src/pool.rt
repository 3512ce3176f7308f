//! The pool: pages of a volume, of which as many as there are frames are in memory.
ghost use Rattle.std.specs.Prelude.{◌≡◌, ◌≢◌, ◌⊎◌, ◌+◌, ◌-◌, ◌*◌, ◌<◌, ◌≤◌, ℕ, [], List, All, Contains, IfErr, IfNone, IfOk, IfSome, IsErrAnd, IsSomeAnd, IsTrue, MatchResult, None, OnErr, OnOk, Some, is_some, length, map, option_copied, option_map, IsFalse};
ghost use Rattle.std.proofs.Props.{props};
ghost use Rattle.std.specs.List.Sorted.{IsStrictlySortedBy};
ghost use Rattle.shore_types.specs.Ids.{page_cmp};
ghost use Rattle.shore_disk.specs.Cause.{HasCause};
ghost use Rattle.shore_disk.specs.Device.{CountsFault, LeavesOnly, size};
ghost use Rattle.shore_dwrite.specs.Settled as settled_device;
ghost use Rattle.shore_dwrite.specs.Images.{HasRoomFor, numbers_of, version_of};
ghost use Rattle.shore_dwrite.specs.Shown.{AreBatchNumbers, RiseFrom, RiseFrom-prop, ShowsBehind};
ghost use Rattle.shore_dwrite.specs.Volumes.{HasNoPage, page_count, page_number, page_offset};
ghost use Rattle.shore_page.specs.Room.{Fits, lowered, raised};
ghost use Rattle.shore_page.specs.Slots.{with_change};
ghost use Rattle.shore_types.specs.Images.{image_len, Image};
ghost use Rattle.shore_page.specs.Text.{images_of, settled_page};
ghost use Rattle.shore_types.specs.Layout.{HasPage};
ghost use Rattle.shore_types.specs.declared.faults.Device.TheVariants as Device;
ghost use Rattle.shore_types.specs.declared.faults.Fault.TheVariants as Fault;
ghost use Rattle.shore_types.specs.declared.layout.TheConstants.{MAX_BATCH_PAGES, MAX_PAGES, MAX_POOL_FRAMES, MIN_POOL_FRAMES};
ghost use Rattle.shore_pool.specs.Changes.{changed, reclaimed, settled};
ghost use Rattle.shore_pool.specs.FrameMaps as maps;
ghost use Rattle.shore_pool.specs.FrameMaps.{IsDue};
ghost use Rattle.shore_pool.specs.declared.amid.Amid.TheVariants as Amid;
ghost use Rattle.shore_pool.specs.declared.frame.Frame.{Frame};
ghost use Rattle.shore_pool.specs.Pages.{AreInOrder, AreUpTo, SamePages, WereDirty};
ghost use Rattle.shore_pool.specs.declared.pool.Fetched.TheVariants as Fetched;

mod batches;

use crate::amid::Amid;
use crate::frame::Frame;
use crate::frames::Frames;
use crate::gathering::gather;
use arrayvec::ArrayVec;
use shore_disk::{Disk, FuseDisk};
use shore_dwrite::{PageDev, PageImages};
use shore_model::DirtyPage;
use shore_page::Page;
use shore_types::layout::MAX_BATCH_PAGES;
use shore_types::{Fault, Geometry, LogEnds, Lsn, PageId};
use std::alloc::{AllocError, Global};

/// Numbers of pages on the volume, as many as a batch may have, which lie in the value itself.
pub type BatchPages = ArrayVec<u32, MAX_BATCH_PAGES>;

/// How a page came into its frame.
#[derive(Clone, Copy, PartialEq)]
pub enum Fetched {
    /// It was there.
    Held,
    /// It was read: its slots claim what their records take, and no more. Who keeps undo lists has to reserve what may come back.
    Read,
}

/// A volume's pages, some of them in frames. Seen as a map from ids to pages: a page in a frame is the frame's, any other is what the volume
/// has.
#[derive(Drop)]
pub struct Pool<D: Disk> {
    // The volume. `fetch` reads from it; `write` alone writes to it.
    device: PageDev<D>,
    // The pages in memory. `in_order` says that each is the page of its number, `pages` that the table has a place for each page of the volume.
    frames: Frames,
    // Room for a batch, taken once. `gather` fills it anew for each batch; where none is under way it says nothing.
    batch: PageImages,
    // How far the batch is that it has.
    amid: Amid,
    ghost in_order: { AreInOrder (maps.frame_at frames) (settled_device.geometry_of device) } by { Prim.hlevel props },
    ghost some: { MIN_POOL_FRAMES ≤ maps.limit_of frames },
    ghost few: { maps.limit_of frames ≤ MAX_POOL_FRAMES },
    ghost pages: { maps.pages_of frames ≡ page_count (settled_device.geometry_of device) },
    ghost batch_version: { version_of batch ≡ (settled_device.geometry_of device).version },
    ghost batch_room: { HasRoomFor batch MAX_BATCH_PAGES },
    ghost batch_is: { amid ≢ Amid.Rest → AreBatchNumbers (settled_device.geometry_of device) (numbers_of batch) } by { Prim.hlevel (RiseFrom-prop, props) },
}

impl<D: Disk> Pool<D> {
    ghost use Rattle.shore_pool.specs.Batches.{AreDue, AreFirstFrom};
    ghost use Rattle.shore_pool.specs.Pools.{FreesInOrder, HasInPlace, KeepsBatch, KeepsBatchOrGivesUp, amid_of, batch_of, PoolHolds, LeavesPages, NeedsForce, StayOrGo, StaysOrGoes, WritesIfAllDirty, WroteBack, count_of, device_of, faults_of, frame_at, frame_of, geometry_of, history_of, honesty_of, limit_of};

    /// A pool of so many frames, with all its memory but that of pages. The device is handed back if an allocation failed.
    pub fn new(alloc: Global, device: PageDev<D>, frames: usize) -> Result<Pool<D>, PageDev<D>>
        requires few { frames ≤ MAX_POOL_FRAMES }
        requires some { MIN_POOL_FRAMES ≤ frames }
        ensures device { IfOk result (λ pool. device_of pool ≡ device) }
        ensures empty { IfOk result (λ pool. (k : ℕ) → frame_at pool k ≡ None) }
        ensures count { IfOk result (λ pool. count_of pool ≡ 0) }
        ensures limit { IfOk result (λ pool. limit_of pool ≡ frames) }
        ensures rests { IfOk result (λ pool. amid_of pool ≡ Amid.Rest) }
        ensures refused { IfErr result (λ back. back ≡ device) }
    {
        let pages = device.pages() as usize;
        let Ok(frames) = Frames::new(alloc, pages, frames) else {
            return Err(device);
        };
        let version = device.geometry().version;
        let Ok(batch) = PageImages::new(alloc, version) else {
            return Err(device);
        };
        Ok(Pool {
            device,
            frames,
            batch,
            amid: Amid::Rest,
        })
    }

    /// The device, as it is. What is dirty is forgotten.
    pub fn into_device(self) -> PageDev<D>
        ensures { result ≡ device_of self }
    {
        self.device
    }

    /// How the stores of the volume are laid out.
    pub fn geometry(&self) -> &Geometry
        ensures { result.now ≡ geometry_of self.now }
    {
        self.device.geometry()
    }

    /// The page of an id, if it is in a frame.
    pub fn page(&self, id: PageId) -> Option<&Page>
        requires { HasPage (geometry_of self.now) id }
        ensures { option_copied result ≡ option_map (λ f. f.page) (frame_of self.now id) }
    {
        let frame = self.frames.find(self.device.number(id))?;
        Some(&frame.page)
    }

    /// Brings a page into a frame, if it is in none. A refused fetch leaves all pages as they were, though some may have been written back to make
    /// room.
    pub fn fetch(&mut self, alloc: Global, id: PageId, ends: &LogEnds) -> Result<Fetched, Fault>
        requires { HasPage (geometry_of self.old) id }
        ensures there { OnOk result (IsTrue (is_some (frame_of self.new id))) }
        ensures held { IfOk result (λ how. how ≡ Fetched.Held → (frame_of self.new id ≡ frame_of self.old id) × IsTrue (is_some (frame_of self.old id))) }
        ensures read { (front : List ℕ) (disk : ℕ → List ℕ) → PoolHolds self.old front disk → IfOk result (λ how. how ≡ Fetched.Read → (frame_of self.old id ≡ None)
            × IsSomeAnd (frame_of self.new id) (λ f. (f.page ≡ settled_page (geometry_of self.old).version id f.page.number (images_of f.page.slots)) × (f.page.number ≤ ends.now.last) × (f.recovery ≡ None))) }
        ensures others { (k : ℕ) → k ≢ page_number (geometry_of self.old) id → StaysOrGoes (frame_at self.old k) (frame_at self.new k) }
        ensures all { IfOk result (λ how. how ≡ Fetched.Held → (k : ℕ) → frame_at self.new k ≡ frame_at self.old k) }
        ensures stay { OnErr result (StayOrGo self.old self.new) }
        ensures kept { (front : List ℕ) (disk : ℕ → List ℕ) → PoolHolds self.old front disk
            → MatchResult result (λ _. WroteBack self.old self.new ends.now.durable front disk) (λ fault. (fault ≡ Fault.Device) ⊎ WroteBack self.old self.new ends.now.durable front disk) }

        // What it is refused with.
        ensures refused { (front : List ℕ) (disk : ℕ → List ℕ) → PoolHolds self.old front disk → IfErr result (λ fault. (fault ≡ Fault.Device) ⊎ (fault ≡ Fault.Memory)
            ⊎ ((fault ≡ Fault.Damaged Device.Volume (page_offset (geometry_of self.old).version (page_number (geometry_of self.old) id)))
            × HasNoPage (geometry_of self.old).version (disk (page_number (geometry_of self.old) id)) id ends.now.last × (frame_of self.old id ≡ None))
            ⊎ ((number : ℕ) × (fault ≡ Fault.NeedForce number) × NeedsForce self.old ends.now.durable number)) }
        // Room is made before any memory is asked for.
        ensures roomy { IfErr result (λ fault. fault ≡ Fault.Memory → count_of self.new < limit_of self.new) }

        // Where a force is needed nothing has changed: each frame is as it was.
        ensures unmoved { (front : List ℕ) (disk : ℕ → List ℕ) → PoolHolds self.old front disk
            → IfErr result (λ fault. (number : ℕ) → fault ≡ Fault.NeedForce number → (k : ℕ) → frame_at self.new k ≡ frame_at self.old k) }

        // A frame goes, or changes, only if all are taken: a clean one before a dirty one, and the page that was changed first before other dirty ones.
        ensures needed { count_of self.old < limit_of self.old → (k : ℕ) (f : Frame) → frame_at self.old k ≡ Some f → frame_at self.new k ≡ Some f }
        ensures in_order { FreesInOrder self.old self.new ends.now.durable }
        ensures writes { (front : List ℕ) (disk : ℕ → List ℕ) → PoolHolds self.old front disk → amid_of self.old ≡ Amid.Rest → WritesIfAllDirty self.old self.new }

        // A crash at any moment of the call leaves pages that are old, or those of their frames with durable numbers.
        ensures any_moment { (front : List ℕ) (disk : ℕ → List ℕ) → PoolHolds self.old front disk
            → LeavesOnly (history_of self.old) (history_of self.new) (LeavesPages self.old ends.now.durable front disk) }

        ensures honest { honesty_of self.new ≡ honesty_of self.old }
        ensures size { size (history_of self.new) ≡ size (history_of self.old) }
        ensures geometry { geometry_of self.new ≡ geometry_of self.old }
        ensures few { count_of self.new ≤ limit_of self.new }
        ensures limit { limit_of self.new ≡ limit_of self.old }
        ensures cause { HasCause result (faults_of self.old) (faults_of self.new) }
    {
        let number = self.device.number(PageId {
            store: id.store,
            page: id.page,
        });
        if self.frames.touch(number) {
            return Ok(Fetched::Held);
        }
        self.make_room(ends.durable)?;
        self.read(alloc, id, ends.last)?;
        Ok(Fetched::Read)
    }

    // Sees to it that a frame is free.
    fn make_room(&mut self, durable: Lsn) -> Result<(), Fault>
        ensures room { OnOk result (count_of self.new < limit_of self.new) }
        ensures frames { StayOrGo self.old self.new }
        ensures kept { (front : List ℕ) (disk : ℕ → List ℕ) → PoolHolds self.old front disk
            → MatchResult result (λ _. WroteBack self.old self.new durable front disk) (λ fault. (fault ≡ Fault.Device) ⊎ WroteBack self.old self.new durable front disk) }
        ensures refused { IfErr result (λ fault. (fault ≡ Fault.Device)
            ⊎ ((number : ℕ) × (fault ≡ Fault.NeedForce number) × NeedsForce self.old durable number)) }
        ensures unmoved { IfErr result (λ fault. (number : ℕ) → fault ≡ Fault.NeedForce number → (k : ℕ) → frame_at self.new k ≡ frame_at self.old k) }
        ensures in_order { FreesInOrder self.old self.new durable }
        ensures writes { amid_of self.old ≡ Amid.Rest → WritesIfAllDirty self.old self.new }
        ensures needed { count_of self.old < limit_of self.old → (k : ℕ) → frame_at self.new k ≡ frame_at self.old k }
        ensures any_moment { (front : List ℕ) (disk : ℕ → List ℕ) → PoolHolds self.old front disk
            → LeavesOnly (history_of self.old) (history_of self.new) (LeavesPages self.old durable front disk) }
        ensures honest { honesty_of self.new ≡ honesty_of self.old }
        ensures size { size (history_of self.new) ≡ size (history_of self.old) }
        ensures geometry { geometry_of self.new ≡ geometry_of self.old }
        ensures limit { limit_of self.new ≡ limit_of self.old }
        ensures cause { HasCause result (faults_of self.old) (faults_of self.new) }
    {
        if self.frames.is_full() {
            return self.evict(durable);
        }
        Ok(())
    }

    // Reads a page into a free frame.
    fn read(&mut self, alloc: Global, id: PageId, last: Lsn) -> Result<(), Fault>
        requires there { HasPage (geometry_of self.old) id }
        requires none { frame_of self.old id ≡ None }
        requires room { count_of self.old < limit_of self.old }
        ensures there { OnOk result (IsTrue (is_some (frame_of self.new id))) }
        ensures read { (front : List ℕ) (disk : ℕ → List ℕ) → PoolHolds self.old front disk → OnOk result (IsSomeAnd (frame_of self.new id)
            (λ f. (f.page ≡ settled_page (geometry_of self.old).version id f.page.number (images_of f.page.slots)) × (f.page.number ≤ last) × (f.recovery ≡ None))) }
        ensures others { (k : ℕ) → k ≢ page_number (geometry_of self.old) id → frame_at self.new k ≡ frame_at self.old k }
        ensures dirty { WereDirty (frame_at self.old) (frame_at self.new) }
        ensures kept { (front : List ℕ) (disk : ℕ → List ℕ) → PoolHolds self.old front disk → PoolHolds self.new front disk × SamePages (geometry_of self.old).version (frame_at self.old) disk (frame_at self.new) disk }
        ensures refused { (front : List ℕ) (disk : ℕ → List ℕ) → PoolHolds self.old front disk → IfErr result (λ fault. (fault ≡ Fault.Device) ⊎ (fault ≡ Fault.Memory)
            ⊎ ((fault ≡ Fault.Damaged Device.Volume (page_offset (geometry_of self.old).version (page_number (geometry_of self.old) id))) × HasNoPage (geometry_of self.old).version (disk (page_number (geometry_of self.old) id)) id last)) }
        ensures none_came { OnErr result ((k : ℕ) → frame_at self.new k ≡ frame_at self.old k) }
        ensures count { OnErr result (count_of self.new ≡ count_of self.old) }
        ensures history { (front : List ℕ) (disk : ℕ → List ℕ) → PoolHolds self.old front disk → history_of self.new ≡ history_of self.old }
        ensures honest { honesty_of self.new ≡ honesty_of self.old }
        ensures size { size (history_of self.new) ≡ size (history_of self.old) }
        ensures geometry { geometry_of self.new ≡ geometry_of self.old }
        ensures limit { limit_of self.new ≡ limit_of self.old }
        ensures cause { HasCause result (faults_of self.old) (faults_of self.new) }
    {
        let number = self.device.number(PageId {
            store: id.store,
            page: id.page,
        });
        let page = self.device.read_page(alloc, id, last)?;
        self.frames.add(number, page);
        Ok(())
    }

    /// Makes a change that was logged under this number on a page in a frame, which is dirty then.
    pub fn change(&mut self, id: PageId, lsn: Lsn, slot: u16, after: Option<&[u8]>)
        requires there { HasPage (geometry_of self.old) id }
        requires fits { IsSomeAnd (frame_of self.old id) (λ f. Fits f.page.version f.page.slots slot (image_len (option_map (λ bytes. bytes.now) after))) }
        ensures here { frame_of self.new id ≡ option_map (changed lsn slot (option_map (λ bytes. bytes.now) after.entry)) (frame_of self.old id) }
        ensures others { (k : ℕ) → k ≢ page_number (geometry_of self.old) id → frame_at self.new k ≡ frame_at self.old k }
        ensures kept { (front : List ℕ) (disk : ℕ → List ℕ) → PoolHolds self.old front disk → PoolHolds self.new front disk }
        ensures count { count_of self.new ≡ count_of self.old }
        ensures limit { limit_of self.new ≡ limit_of self.old }
        ensures device { device_of self.new ≡ device_of self.old }
        ensures batch { KeepsBatchOrGivesUp self.old self.new }
        // A batch that the page is not of goes on.
        ensures apart { (Contains (batch_of self.old) (page_number (geometry_of self.old) id) → ⊥) → amid_of self.new ≡ amid_of self.old }
    {
        let number = self.device.number(id);
        self.give_up_with(number);
        self.frames.change(number, lsn, slot, after);
    }

    /// Keeps at least this many bytes for a slot of a page in a frame: for an image that may come back to it. After a fetch that read
    /// a page its undecided changes are told so; no page is another by it.
    pub fn reserve(&mut self, id: PageId, slot: u16, bytes: usize)
        requires there { HasPage (geometry_of self.old) id }
        requires fits { IsSomeAnd (frame_of self.old id) (λ f. (slot < length f.page.slots) × Fits f.page.version f.page.slots slot bytes) }
        ensures here { frame_of self.new id ≡ option_map (reclaimed (raised bytes) slot) (frame_of self.old id) }
        ensures others { (k : ℕ) → k ≢ page_number (geometry_of self.old) id → frame_at self.new k ≡ frame_at self.old k }
        ensures kept { (front : List ℕ) (disk : ℕ → List ℕ) → PoolHolds self.old front disk
            → PoolHolds self.new front disk × SamePages (geometry_of self.old).version (frame_at self.old) disk (frame_at self.new) disk }
        ensures count { count_of self.new ≡ count_of self.old }
        ensures limit { limit_of self.new ≡ limit_of self.old }
        ensures device { device_of self.new ≡ device_of self.old }
    {
        let number = self.device.number(id);
        self.frames.reserve(number, slot, bytes);
    }

    /// Keeps no more than this many bytes for a slot of a page in a frame, and what its record has: the images that may still come back
    /// to it are no longer. No page is another by it.
    pub fn unreserve(&mut self, id: PageId, slot: u16, bytes: usize)
        requires there { HasPage (geometry_of self.old) id }
        requires slot { IsSomeAnd (frame_of self.old id) (λ f. slot < length f.page.slots) }
        ensures here { frame_of self.new id ≡ option_map (reclaimed (lowered bytes) slot) (frame_of self.old id) }
        ensures others { (k : ℕ) → k ≢ page_number (geometry_of self.old) id → frame_at self.new k ≡ frame_at self.old k }
        ensures kept { (front : List ℕ) (disk : ℕ → List ℕ) → PoolHolds self.old front disk
            → PoolHolds self.new front disk × SamePages (geometry_of self.old).version (frame_at self.old) disk (frame_at self.new) disk }
        ensures count { count_of self.new ≡ count_of self.old }
        ensures limit { limit_of self.new ≡ limit_of self.old }
        ensures device { device_of self.new ≡ device_of self.old }
    {
        let number = self.device.number(id);
        self.frames.unreserve(number, slot, bytes);
    }

    /// The dirty pages, each with its recovery number, rising by store and page: the dirty page table of a checkpoint that begins now.
    pub fn dirty_pages(&self, alloc: Global) -> Result<Vec<DirtyPage>, AllocError>
        ensures listed { IfOk result (λ list. All (maps.IsDirtyPage self.now.frames) list.items) }
        ensures all { IfOk result (λ list. maps.HasDirty self.now.frames list.items) }
        ensures rising { IfOk result (λ list. IsStrictlySortedBy page_cmp (map (λ d. d.page) list.items)) }
        ensures few { IfOk result (λ list. length list.items ≤ MAX_POOL_FRAMES) }
    {
        self.frames.dirty_pages(alloc)
    }

    /// The dirty page with the least recovery number, with that number: of no other dirty page does the log have to be kept from further back on. None if no page is dirty.
    pub fn oldest_dirty(&self) -> Option<DirtyPage>
        ensures some { IfSome result (maps.IsDirtyPage self.now.frames) }
        ensures least { IfSome result (maps.IsDirtyFirst self.now.frames) }
        ensures none { IfNone result (maps.NoneDirty self.now.frames) }
    {
        self.frames.oldest_dirty()
    }

    /// The dirty page that comes next on the volume from a number on, of those with numbers up to the durable one.
    pub fn next_due(&self, from: u32, durable: Lsn) -> Option<u32>
        ensures due { IfSome result (λ k. IsSomeAnd (frame_at self.now k) (IsDue durable)) }
        ensures rises { IfSome result (λ k. from ≤ k) }
        ensures least { IfSome result (λ k. (j : ℕ) (f : Frame) → frame_at self.now j ≡ Some f → from ≤ j → j < k → IsDue durable f → ⊥) }
        ensures within { IfSome result (λ k. k < MAX_PAGES) }
        ensures none { IfNone result ((k : ℕ) (f : Frame) → frame_at self.now k ≡ Some f → from ≤ k → IsDue durable f → ⊥) }
    {
        self.frames.next_due(from, durable)
    }

    /// The first dirty pages of the volume from one on, of those with numbers up to this one: all of them, or as many as a batch may have.
    pub fn due(&self, from: u32, durable: Lsn) -> BatchPages
        ensures rise { RiseFrom 0 result.items }
        ensures most { length result.items ≤ MAX_BATCH_PAGES }
        ensures least { All (λ k. from ≤ k) result.items }
        ensures due { AreDue self.now durable result.items }
        ensures first { AreFirstFrom self.now from durable result.items }
    {
        let mut pages = BatchPages::new();
        let mut next = from;
        for _ in 0..MAX_BATCH_PAGES {
            let Some(number) = self.next_due(next, durable) else {
                return pages;
            };
            pages.push(number);
            next = number + 1;
        }
        pages
    }

    /// Frees a frame: one of a clean page that was not used for a while, if there is a clean page; else that of the page whose changes are
    /// oldest among those with numbers up to the durable one. That page is written first, and with it, for a batch costs as many syncs as a page, those
    /// behind it on the volume that may be; or the batch under way is gone on with, if it has the page and its gate is shut. `NeedForce` with the number of a page if none has such a number. A pool with no page in a frame stays as it is.
    pub fn evict(&mut self, durable: Lsn) -> Result<(), Fault>
        ensures freed { OnOk result (count_of self.new ≡ count_of self.old - 1) }
        ensures frames { StayOrGo self.old self.new }
        ensures kept { (front : List ℕ) (disk : ℕ → List ℕ) → PoolHolds self.old front disk
            → MatchResult result (λ _. WroteBack self.old self.new durable front disk) (λ fault. (fault ≡ Fault.Device) ⊎ WroteBack self.old self.new durable front disk) }
        ensures refused { IfErr result (λ fault. (fault ≡ Fault.Device)
            ⊎ ((number : ℕ) × (fault ≡ Fault.NeedForce number) × NeedsForce self.old durable number)) }
        ensures unmoved { IfErr result (λ fault. (number : ℕ) → fault ≡ Fault.NeedForce number → (k : ℕ) → frame_at self.new k ≡ frame_at self.old k) }

        // A clean frame goes before a dirty one, and the page that was changed first before other dirty ones.
        ensures in_order { FreesInOrder self.old self.new durable }
        ensures writes { amid_of self.old ≡ Amid.Rest → WritesIfAllDirty self.old self.new }

        // A crash at any moment of the call leaves pages that are old, or those of their frames with durable numbers.
        ensures any_moment { (front : List ℕ) (disk : ℕ → List ℕ) → PoolHolds self.old front disk
            → LeavesOnly (history_of self.old) (history_of self.new) (LeavesPages self.old durable front disk) }

        ensures honest { honesty_of self.new ≡ honesty_of self.old }
        ensures size { size (history_of self.new) ≡ size (history_of self.old) }
        ensures geometry { geometry_of self.new ≡ geometry_of self.old }
        ensures limit { limit_of self.new ≡ limit_of self.old }
        ensures cause { HasCause result (faults_of self.old) (faults_of self.new) }
    {
        if let Some(number) = self.frames.cold() {
            self.let_go(number)?;
            self.free(number);
            return Ok(());
        }
        self.steal(durable)
    }

    // Frees the frame of the page whose changes are oldest among those with numbers up to this one. The page is written first, and others with it.
    fn steal(&mut self, durable: Lsn) -> Result<(), Fault>
        ensures freed { OnOk result (count_of self.new ≡ count_of self.old - 1) }
        ensures frames { StayOrGo self.old self.new }
        ensures kept { (front : List ℕ) (disk : ℕ → List ℕ) → PoolHolds self.old front disk
            → MatchResult result (λ _. WroteBack self.old self.new durable front disk) (λ fault. (fault ≡ Fault.Device) ⊎ WroteBack self.old self.new durable front disk) }
        ensures refused { maps.AllDirty self.old.frames → IfErr result (λ fault. (fault ≡ Fault.Device)
            ⊎ ((number : ℕ) × (fault ≡ Fault.NeedForce number) × NeedsForce self.old durable number)) }
        ensures unmoved { IfErr result (λ fault. (number : ℕ) → fault ≡ Fault.NeedForce number → (k : ℕ) → frame_at self.new k ≡ frame_at self.old k) }
        ensures oldest { maps.AllDirty self.old.frames → FreesInOrder self.old self.new durable }
        ensures any_moment { (front : List ℕ) (disk : ℕ → List ℕ) → PoolHolds self.old front disk
            → LeavesOnly (history_of self.old) (history_of self.new) (LeavesPages self.old durable front disk) }
        ensures honest { honesty_of self.new ≡ honesty_of self.old }
        ensures size { size (history_of self.new) ≡ size (history_of self.old) }
        ensures geometry { geometry_of self.new ≡ geometry_of self.old }
        ensures limit { limit_of self.new ≡ limit_of self.old }
        ensures cause { HasCause result (faults_of self.old) (faults_of self.new) }
    {
        if let Some(number) = self.frames.oldest_due(durable) {
            self.write_with(number, durable)?;
            self.free(number);
            return Ok(());
        }
        match self.frames.any_number() {
            Some(number) => Err(Fault::NeedForce { number }),
            None => Ok(()),
        }
    }

    // Frees the frame of a clean page.
    fn free(&mut self, number: u32)
        requires clean { IsSomeAnd (frame_at self.old number) (λ f. f.recovery ≡ None) }
        requires apart { amid_of self.old ≡ Amid.Opened → Contains (batch_of self.old) number → ⊥ }
        ensures gone { frame_at self.new number ≡ None }
        ensures others { (k : ℕ) → k ≢ number → frame_at self.new k ≡ frame_at self.old k }
        ensures kept { (front : List ℕ) (disk : ℕ → List ℕ) → PoolHolds self.old front disk
            → PoolHolds self.new front disk × SamePages (geometry_of self.old).version (frame_at self.old) disk (frame_at self.new) disk }
        ensures count { count_of self.new + 1 ≡ count_of self.old }
        ensures limit { limit_of self.new ≡ limit_of self.old }
        ensures device { device_of self.new ≡ device_of self.old }
    {
        self.give_up_with(number);
        self.frames.remove(number);
    }

    /// Writes pages that are in frames, as one batch; they are clean then. At an error all stay dirty that were.
    pub fn write(&mut self, numbers: &[u32]) -> Result<(), Fault>
        requires rests { amid_of self.old ≡ Amid.Rest }
        requires some { 1 ≤ length numbers.now }
        requires most { length numbers.now ≤ MAX_BATCH_PAGES }
        requires rise { RiseFrom 0 numbers.now }
        requires there { All (λ k. IsTrue (is_some (frame_at self.old k))) numbers.now }
        ensures clean { OnOk result ((k : ℕ) → Contains numbers.now k → frame_at self.new k ≡ option_map settled (frame_at self.old k)) }
        ensures others { OnOk result ((k : ℕ) → (Contains numbers.now k → ⊥) → frame_at self.new k ≡ frame_at self.old k) }
        ensures refused { IfErr result (λ fault. (fault ≡ Fault.Device) × ((k : ℕ) → frame_at self.new k ≡ frame_at self.old k)) }
        ensures kept { (front : List ℕ) (disk : ℕ → List ℕ) (durable : ℕ) → PoolHolds self.old front disk → AreUpTo (frame_at self.old) durable numbers.now
            → MatchResult result (λ _. WroteBack self.old self.new durable front disk) (λ fault. (fault ≡ Fault.Device) ⊎ WroteBack self.old self.new durable front disk) }
        ensures any_moment { (front : List ℕ) (disk : ℕ → List ℕ) (durable : ℕ) → PoolHolds self.old front disk → AreUpTo (frame_at self.old) durable numbers.now
            → LeavesOnly (history_of self.old) (history_of self.new) (LeavesPages self.old durable front disk) }
        ensures amid { amid_of self.new ≡ amid_of self.old }
        ensures count { count_of self.new ≡ count_of self.old }
        ensures honest { honesty_of self.new ≡ honesty_of self.old }
        ensures size { size (history_of self.new) ≡ size (history_of self.old) }
        ensures geometry { geometry_of self.new ≡ geometry_of self.old }
        ensures limit { limit_of self.new ≡ limit_of self.old }
        ensures cause { HasCause result (faults_of self.old) (faults_of self.new) }
    {
        gather(&mut self.batch, &self.frames, numbers);
        self.device.write_batch(&self.batch)?;
        self.frames.settle_all(numbers);
        Ok(())
    }
}

impl<D: Disk> Pool<FuseDisk<D>> {
    ghost use Rattle.shore_disk.specs.Fuse.{fuse_calls, fuse_inner};
    ghost use Rattle.shore_pool.specs.Pools.{PoolHolds, device_of, faults_of, frame_at, geometry_of, history_of, limit_of};

    /// Lets so many more writes and syncs of the device pass; then every call of it fails.
    pub fn set_fuse(&mut self, calls: u64)
        ensures inner { fuse_inner (settled_device.device_of (device_of self.new)) ≡ fuse_inner (settled_device.device_of (device_of self.old)) }
        ensures calls { fuse_calls (settled_device.device_of (device_of self.new)) ≡ calls }
        ensures holds { (front : List ℕ) (disk : ℕ → List ℕ) → PoolHolds self.old front disk → PoolHolds self.new front disk }
        ensures frames { (k : ℕ) → frame_at self.new k ≡ frame_at self.old k }
        ensures limit { limit_of self.new ≡ limit_of self.old }
        ensures geometry { geometry_of self.new ≡ geometry_of self.old }
        ensures history { history_of self.new ≡ history_of self.old }
        ensures faults { faults_of self.new ≡ faults_of self.old }
    {
        self.device.set_fuse(calls);
    }
}
