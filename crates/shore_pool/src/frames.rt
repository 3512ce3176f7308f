//! The frames of a pool, each found by its page's number on the volume, in one step: the volume has at most 65,536 pages, so the table has
//! four bytes for each of them, where the page itself has 8,192.
ghost use Rattle.std.specs.Prelude.{◌≡◌, ◌≢◌, ◌⊎◌, ◌+◌, ◌^◌, ◌<◌, ◌≤◌, ◌↔◌, ℕ, None, Some, All, Contains, IfOk, OnOk, IfSome, IfNone, IsSomeAnd, IsTrue, length, nat_le, count_by, is_some, option_copied, option_map, IsFalse};
ghost use Rattle.slab.specs.Slab.{slab_len};
ghost use Rattle.shore_types.specs.Images.{Image, image_len};
ghost use Rattle.shore_page.specs.Room.{Fits, lowered, raised};
ghost use Rattle.shore_page.specs.Slots.{PageState};
ghost use Rattle.shore_pool.specs.Changes.{changed, reclaimed, settled, settled_at};
ghost use Rattle.shore_pool.specs.Clocks.{places_of};
ghost use Rattle.shore_pool.specs.Frames.{IsIndexed};

use crate::clock::Clock;
use crate::frame::Frame;
use shore_model::DirtyPage;
use shore_page::Page;
use shore_types::Lsn;
use slab::Slab;
use std::alloc::{AllocError, Global};

/// Frames for pages of a volume, up to a limit.
#[derive(Drop)]
pub struct Frames {
    // The frames, each under a key. `new` takes room for as many as the limit, so that no other call allocates.
    slots: Slab<Frame>,
    // The key of each page's frame, by the page's number. `indexed` ties the two.
    table: Vec<Option<u16>>,
    // How many frames there may be. It is not changed; `add` is called only below it.
    limit: usize,
    // A place for each key that the limit leaves: which frames were used of late.
    clock: Clock,
    ghost indexed: { IsIndexed slots table.items },
    ghost room: { limit ≤ slots.capacity },
    ghost few: { slots.capacity ≤ 2 ^ 16 },
    ghost within: { slab_len slots ≤ limit },
}

// A page that may be written, with its recovery number.
#[derive(Clone, Copy)]
struct Due {
    // The page's number on the volume.
    number: u32,
    // That of its first change since it was clean.
    recovery: Lsn,
}

fn older(oldest: Option<Due>, due: Due) -> Due
    ensures one { (result ≡ due) ⊎ (oldest ≡ Some result) }
    ensures first { result.recovery ≤ due.recovery }
    ensures still { IfSome oldest (λ other. result.recovery ≤ other.recovery) }
{
    match oldest {
        Some(other) => {
            if other.recovery.0 <= due.recovery.0 {
                other
            } else {
                due
            }
        }
        None => due,
    }
}

fn earlier(oldest: Option<DirtyPage>, entry: DirtyPage) -> DirtyPage
    ensures one { (result ≡ entry) ⊎ (oldest ≡ Some result) }
    ensures first { result.recovery ≤ entry.recovery }
    ensures still { IfSome oldest (λ other. result.recovery ≤ other.recovery) }
{
    match oldest {
        Some(other) => {
            if other.recovery.0 <= entry.recovery.0 {
                other
            } else {
                entry
            }
        }
        None => entry,
    }
}

impl Frames {
    ghost use Rattle.slab.specs.Slab.{get};
    ghost use Rattle.shore_pool.specs.FrameMaps.{IsDirtyFirst, IsDirtyPage, NoneDirty, dirty_below, dirty_entry, frame_at, count_of, limit_of, pages_of, key_of, AllDirty, HasRecovery, IsChangedFirst, IsDue, IsNotClean, IsNotDue, IsOfNumber, KeepsShape, NoneDue, NoneDueIn, SameFrames};

    /// No frames, with the memory for as many as the limit, of a volume of so many pages.
    pub fn new(alloc: Global, pages: usize, limit: usize) -> Result<Frames, AllocError>
        ensures none { IfOk result (λ frames. (k : ℕ) → frame_at frames k ≡ None) }
        ensures limit { IfOk result (λ frames. limit_of frames ≡ limit) }
        ensures pages { IfOk result (λ frames. pages_of frames ≡ pages) }
        ensures count { IfOk result (λ frames. count_of frames ≡ 0) }
    {
        let slots = Slab::with_capacity(alloc, limit)?;
        if slots.capacity() > u16::MAX as usize + 1 {
            return Err(AllocError);
        }
        Ok(Frames {
            slots,
            table: Vec::from_elem(alloc, None, pages)?,
            limit,
            clock: Clock::new(alloc, limit)?,
        })
    }

    /// Whether there are as many frames as the limit.
    pub fn is_full(&self) -> bool
        ensures { IsTrue result ↔ (limit_of self.now ≤ count_of self.now) }
    {
        self.slots.len() >= self.limit
    }

    /// The frame of a page.
    pub fn find(&self, number: u32) -> Option<&Frame>
        ensures { option_copied result ≡ frame_at self.now number }
    {
        match self.key(number) {
            Some(key) => self.slots.get(key),
            None => None,
        }
    }

    /// Whether a page has a frame, with a number up to this one.
    pub fn is_up_to(&self, number: u32, durable: Lsn) -> bool
        ensures yes { IsTrue result → IsSomeAnd (frame_at self.now number) (λ f. f.page.number ≤ durable) }
        ensures no { IsFalse result → IsSomeAnd (frame_at self.now number) (λ f. f.page.number ≤ durable) → ⊥ }
    {
        match self.find(number) {
            Some(frame) => frame.page.number().0 <= durable.0,
            None => false,
        }
    }

    /// Whether a page has a frame, which is marked as used.
    pub fn touch(&mut self, number: u32) -> bool
        ensures there { result ≡ is_some (frame_at self.old number) }
        ensures same { SameFrames self.old self.new }
        ensures shape { KeepsShape self.old self.new }
    {
        match self.key(number) {
            Some(key) => {
                self.clock.touch(key);
                true
            }
            None => false,
        }
    }

    /// A page that has just been read gets a frame.
    pub fn add(&mut self, number: u32, page: Page)
        requires on_volume { number < pages_of self.old }
        requires none { frame_at self.old number ≡ None }
        requires room { count_of self.old < limit_of self.old }
        ensures here { frame_at self.new number ≡ Some record { number = number; page = page; recovery = None } }
        ensures others { (k : ℕ) → k ≢ number → frame_at self.new k ≡ frame_at self.old k }
        ensures count { count_of self.new ≡ count_of self.old + 1 }
        ensures limit { limit_of self.new ≡ limit_of self.old }
        ensures pages { pages_of self.new ≡ pages_of self.old }
    {
        let key = self.slots.insert_reserved(Frame {
            number,
            page,
            recovery: None,
        });
        self.table[number as usize] = Some(key as u16);
        self.clock.touch(key);
    }

    /// The frame of a page is free again.
    pub fn remove(&mut self, number: u32)
        requires { IsTrue (is_some (frame_at self.old number)) }
        ensures here { frame_at self.new number ≡ None }
        ensures others { (k : ℕ) → k ≢ number → frame_at self.new k ≡ frame_at self.old k }
        ensures count { count_of self.new + 1 ≡ count_of self.old }
        ensures limit { limit_of self.new ≡ limit_of self.old }
        ensures pages { pages_of self.new ≡ pages_of self.old }
    {
        if let Some(key) = self.key(number) {
            self.slots.try_remove(key);
            self.table[number as usize] = None;
        }
    }

    /// Makes a change that was logged under this number on a page in a frame.
    pub fn change(&mut self, number: u32, lsn: Lsn, slot: u16, after: Option<&[u8]>)
        requires { IsSomeAnd (frame_at self.old number) (λ f. Fits f.page.version f.page.slots slot (image_len (option_map (λ bytes. bytes.now) after))) }
        ensures here { frame_at self.new number ≡ option_map (changed lsn slot (option_map (λ bytes. bytes.now) after.entry)) (frame_at self.old number) }
        ensures others { (k : ℕ) → k ≢ number → frame_at self.new k ≡ frame_at self.old k }
        ensures shape { KeepsShape self.old self.new }
    {
        if let Some(key) = self.key(number) {
            if let Some(frame) = self.slots.get_mut(key) {
                frame.change(lsn, slot, after);
            }
        }
    }

    /// Keeps at least this many bytes for a slot of a page in a frame, as `Page::reserve`.
    pub fn reserve(&mut self, number: u32, slot: u16, bytes: usize)
        requires { IsSomeAnd (frame_at self.old number) (λ f. (slot < length f.page.slots) × Fits f.page.version f.page.slots slot bytes) }
        ensures here { frame_at self.new number ≡ option_map (reclaimed (raised bytes) slot) (frame_at self.old number) }
        ensures others { (k : ℕ) → k ≢ number → frame_at self.new k ≡ frame_at self.old k }
        ensures shape { KeepsShape self.old self.new }
    {
        if let Some(key) = self.key(number) {
            if let Some(frame) = self.slots.get_mut(key) {
                frame.reserve(slot, bytes);
            }
        }
    }

    /// Keeps no more than this many bytes for a slot of a page in a frame, as `Page::unreserve`.
    pub fn unreserve(&mut self, number: u32, slot: u16, bytes: usize)
        requires { IsSomeAnd (frame_at self.old number) (λ f. slot < length f.page.slots) }
        ensures here { frame_at self.new number ≡ option_map (reclaimed (lowered bytes) slot) (frame_at self.old number) }
        ensures others { (k : ℕ) → k ≢ number → frame_at self.new k ≡ frame_at self.old k }
        ensures shape { KeepsShape self.old self.new }
    {
        if let Some(key) = self.key(number) {
            if let Some(frame) = self.slots.get_mut(key) {
                frame.unreserve(slot, bytes);
            }
        }
    }

    /// The page of a frame was written: it is clean.
    pub fn settle(&mut self, number: u32)
        ensures here { frame_at self.new number ≡ option_map settled (frame_at self.old number) }
        ensures others { (k : ℕ) → k ≢ number → frame_at self.new k ≡ frame_at self.old k }
        ensures shape { KeepsShape self.old self.new }
    {
        if let Some(key) = self.key(number) {
            if let Some(frame) = self.slots.get_mut(key) {
                frame.settle();
            }
        }
    }

    /// The page of a clean frame, one that was not used for a while if there is such a one; None if none is clean.
    pub fn cold(&mut self) -> Option<u32>
        ensures clean { IfSome result (λ k. IsSomeAnd (frame_at self.old k) (λ f. f.recovery ≡ None)) }
        ensures none { IfNone result (AllDirty self.old) }
        ensures same { SameFrames self.old self.new }
        ensures shape { KeepsShape self.old self.new }
    {
        let first = self.first_clean()?;
        for _ in 0..2 * self.limit {
            if let Some(key) = self.clock.pass() {
                if let Some(number) = self.clean_at(key) {
                    return Some(number);
                }
            }
        }
        Some(first)
    }

    // The page of the first clean frame.
    fn first_clean(&self) -> Option<u32>
        ensures clean { IfSome result (λ k. IsSomeAnd (frame_at self.now k) (λ f. f.recovery ≡ None)) }
        ensures none { IfNone result (AllDirty self.now) }
    {
        for key in 0..self.slots.capacity() {
            let clean = self.clean_at(key);
            if clean.is_some() {
                return clean;
            }
        }
        None
    }

    // The page of the frame of a key, if it is clean.
    fn clean_at(&self, key: usize) -> Option<u32>
        ensures clean { IfSome result (λ k. IsSomeAnd (frame_at self.now k) (λ f. f.recovery ≡ None)) }
        ensures none { IfNone result (IsNotClean self.now key) }
    {
        let frame = self.slots.get(key)?;
        if frame.recovery.is_some() {
            return None;
        }
        Some(frame.number)
    }

    /// The pages of these frames were written: they are clean.
    pub fn settle_all(&mut self, numbers: &[u32])
        ensures settled { (k : ℕ) → frame_at self.new k ≡ settled_at numbers.now (frame_at self.old) k }
        ensures shape { KeepsShape self.old self.new }
    {
        for i in 0..numbers.len() {
            self.settle(numbers[i]);
        }
    }

    /// The dirty page that was changed first since it was clean, of those with numbers up to this one.
    pub fn oldest_due(&self, durable: Lsn) -> Option<u32>
        ensures due { IfSome result (λ k. IsSomeAnd (frame_at self.now k) (IsDue durable)) }
        ensures first { IfSome result (λ k. IsSomeAnd (frame_at self.now k) (IsChangedFirst self.now durable)) }
        ensures none { IfNone result (NoneDue self.now durable) }
    {
        let mut oldest = None;
        for key in 0..self.slots.capacity() {
            if let Some(due) = self.due_at(key, durable) {
                oldest = Some(older(oldest, due));
            }
        }
        match oldest {
            Some(due) => Some(due.number),
            None => None,
        }
    }

    /// The dirty page with the least number on the volume from one on, of those with numbers up to this one.
    pub fn next_due(&self, from: u32, durable: Lsn) -> Option<u32>
        ensures due { IfSome result (λ k. IsSomeAnd (frame_at self.now k) (IsDue durable)) }
        ensures rises { IfSome result (λ k. from ≤ k) }
        ensures least { IfSome result (λ k. NoneDueIn self.now durable from k) }
        ensures none { IfNone result ((k : ℕ) (f : Frame) → frame_at self.now k ≡ Some f → from ≤ k → IsDue durable f → ⊥) }
    {
        for place in from as usize..self.table.len() {
            let due = self.due_in(place, durable);
            if due.is_some() {
                return due;
            }
        }
        None
    }

    // The page at a place of the table, if it is due.
    fn due_in(&self, place: usize, durable: Lsn) -> Option<u32>
        ensures due { IfSome result (λ k. (k ≡ place) × IsSomeAnd (frame_at self.now k) (IsDue durable)) }
        ensures none { IfNone result ((f : Frame) → frame_at self.now place ≡ Some f → IsDue durable f → ⊥) }
    {
        let key = self.key_in(place)?;
        let due = self.due_at(key, durable)?;
        Some(due.number)
    }

    // The page of the frame of a key, if it is dirty and has a number up to this one.
    fn due_at(&self, key: usize, durable: Lsn) -> Option<Due>
        ensures due { IfSome result (λ due. IsSomeAnd (frame_at self.now due.number) (IsDue durable)) }
        ensures number { IfSome result (λ due. IsOfNumber self.now key due.number) }
        ensures there { IfSome result (λ due. IsSomeAnd (frame_at self.now due.number) (λ f. f.recovery ≡ Some due.recovery)) }
        ensures recovery { IfSome result (λ due. HasRecovery self.now key due.recovery) }
        ensures none { IfNone result (IsNotDue self.now durable key) }
    {
        let frame = self.slots.get(key)?;
        let recovery = frame.recovery?;
        if frame.page.number().0 > durable.0 {
            return None;
        }
        Some(Due {
            number: frame.number,
            recovery,
        })
    }

    /// The dirty pages, each with its recovery number, rising by their numbers on the volume.
    pub fn dirty_pages(&self, alloc: Global) -> Result<Vec<DirtyPage>, AllocError>
        ensures { IfOk result (λ list. list.items ≡ dirty_below (frame_at self.now) (pages_of self.now)) }
    {
        let mut list = Vec::new(alloc);
        for place in 0..self.table.len() {
            if let Some(entry) = self.dirty_in(place) {
                list.push(entry)?;
            }
        }
        Ok(list)
    }

    // The entry of the page at a place of the table, if it is dirty.
    fn dirty_in(&self, place: usize) -> Option<DirtyPage>
        ensures { result ≡ dirty_entry (frame_at self.now place) }
    {
        let frame = self.slots.get(self.key_in(place)?)?;
        let recovery = frame.recovery?;
        Some(DirtyPage {
            page: frame.page.id(),
            recovery,
        })
    }

    /// The dirty page with the least recovery number: that of the record that changed it first since it was clean.
    pub fn oldest_dirty(&self) -> Option<DirtyPage>
        ensures some { IfSome result (IsDirtyPage self.now) }
        ensures least { IfSome result (IsDirtyFirst self.now) }
        ensures none { IfNone result (NoneDirty self.now) }
    {
        let mut oldest = None;
        for place in 0..self.table.len() {
            if let Some(entry) = self.dirty_in(place) {
                oldest = Some(earlier(oldest, entry));
            }
        }
        oldest
    }

    /// The number of the last change of a page that has a frame; None if none has one.
    pub fn any_number(&self) -> Option<Lsn>
        ensures some { IfSome result (λ number. (k : ℕ) × IsSomeAnd (frame_at self.now k) (λ f. f.page.number ≡ number)) }
        ensures none { IfNone result (count_of self.now ≡ 0) }
    {
        for key in 0..self.slots.capacity() {
            if let Some(frame) = self.slots.get(key) {
                return Some(frame.page.number());
            }
        }
        None
    }

    // The key of a page's frame.
    fn key(&self, number: u32) -> Option<usize>
        ensures key { result ≡ key_of self.now number }
        ensures within { IfSome result (λ key. number < pages_of self.now) }
    {
        self.key_in(number as usize)
    }

    // The key at a place of the table.
    fn key_in(&self, place: usize) -> Option<usize>
        ensures key { result ≡ key_of self.now place }
        ensures within { IfSome result (λ key. place < pages_of self.now) }
    {
        match self.table.get(place) {
            Some(Some(key)) => Some(usize::from(*key)),
            _ => None,
        }
    }
}
