//! A page as a map of its slots.
ghost use Rattle.std.specs.Prelude.{◌≡◌, ◌≢◌, ◌+◌, ◌-◌, ◌*◌, ◌<◌, ◌≤◌, ◌++◌, ◌∷◌, ◌↔◌, ℕ, [], length, replicate, slice_get, Some, None, option_map, IsTrue, IfOk, IfSome, List, vec_capacity};
ghost use Rattle.shore_page.specs.Slots.{image_at_slot, with_change, with_slot, with_image};
ghost use Rattle.shore_types.specs.Images.{image_len, Image};
ghost use Rattle.shore_types.specs.Runs.{IsRun};
ghost use Rattle.shore_page.specs.Room.{claim_at, free_bytes, need, Fits, HasRoom, IsCandidate, IsFirstCandidate, ChangesOne, raised, lowered};
ghost use Rattle.shore_types.specs.Versions.{page_bytes, record_limit, slot_limit};
ghost use Rattle.shore_page.specs.Text.{IsPageText, images_of, settled_page};

use crate::claims::{add_claims, claim_records};
use crate::text::PageBytes;
use shore_types::layout::{PAGE_HEADER_BYTES, SLOT_ENTRY_BYTES};
use shore_types::{Lsn, PageId, Slotted, Version};
use std::alloc::{AllocError, Global};
use std::marker::Model;

/// A page: its id, the number of the last change that was logged for it, and its slots. A slot has a record or none, and
/// a claim, the bytes of the page that are kept for it: never fewer than its record has, and more if a change that is not
/// decided yet may be undone. A slot number never goes away.
#[derive(Drop)]
pub struct Page {
    // The bytes of the page as the volume gets them, with its id, its number and its records.
    text: PageBytes,
    // The claim of each slot.
    claims: Vec<u16>,
    // The sum of the claims, so that no call walks over the slots.
    claimed: usize,
}

impl Model for Page {
    ghost use Rattle.std.specs.Prelude.{◌≡◌, vec_capacity};
    ghost use Rattle.shore_page.specs.Slots.{PageState};
    ghost use Rattle.shore_page.specs.Layout.{slots_of, HasClaims};

    ghost Value = { PageState };

    ghost view = { λ p. record { version = p.text.version; id = p.text.id; number = p.text.number; slots = slots_of p.text.images p.claims.items } };

    ghost invariant = { λ p. HasClaims p.text.version p.text.images p.claims.items (vec_capacity p.claims) p.claimed };
}

impl Page {
    /// A page with no slot, which no change has reached. Only this call and `from_bytes` take memory.
    pub fn new(alloc: Global, version: Version, id: PageId) -> Result<Page, AllocError>
        ensures { IfOk result (λ page. page ≡ record { version = version; id = id; number = 0; slots = [] }) }
    {
        Ok(Page {
            text: PageBytes::new(alloc, version, id)?,
            claims: Vec::with_capacity(alloc, version.slot_limit() as usize)?,
            claimed: 0,
        })
    }

    /// The version of its text.
    pub fn version(&self) -> Version
        ensures { result ≡ self.now.version }
    {
        self.text.version()
    }

    pub fn id(&self) -> PageId
        ensures { result ≡ self.now.id }
    {
        self.text.id()
    }

    /// The number of the last change that was applied, 0 for none.
    pub fn number(&self) -> Lsn
        ensures { result ≡ self.now.number }
    {
        self.text.number()
    }

    /// How many slots there are, empty ones too.
    #[tactic(auto, using(shore_types::specs::Versions::sizes))]
    pub fn slot_count(&self) -> u16
        ensures count { result ≡ length self.now.slots }
        ensures most { result ≤ slot_limit self.now.version }
    {
        self.text.slot_count() as u16
    }

    /// The record in a slot; None in an empty slot, and if there is no such slot.
    pub fn get(&self, slot: u16) -> Option<&[u8]>
        ensures image { option_map (λ bytes. bytes.now) result ≡ image_at_slot self.now.slots slot }
        ensures short { IfSome result (λ bytes. length bytes.now ≤ record_limit self.now.version) }
    {
        if slot >= self.slot_count() {
            return None;
        }
        self.text.image(slot as usize)
    }

    /// The bytes of all records, if they lie one behind another in the order of their slots, and each slot has one. None only says that they are
    /// to be read one by one.
    pub fn run(&self) -> Option<&[u8]>
        ensures { IfSome result (λ bytes. IsRun bytes.now (images_of self.now.slots)) }
    {
        self.text.run()
    }

    /// The bytes that are kept for a slot, none for one that is not there.
    pub fn claim(&self, slot: u16) -> u16
        ensures { result ≡ claim_at self.now.slots slot }
    {
        if slot >= self.slot_count() {
            return 0;
        }
        self.claims[slot as usize]
    }

    /// The bytes that are neither in the slot table nor claimed by a slot.
    #[tactic(auto, using(shore_types::specs::Versions::sizes))]
    pub fn free_bytes(&self) -> usize
        ensures free { result ≡ free_bytes self.now.version self.now.slots }
        ensures room { HasRoom self.now.version self.now.slots }
    {
        let room = self.text.version().page_bytes() - PAGE_HEADER_BYTES;
        room - SLOT_ENTRY_BYTES * self.text.slot_count() - self.claimed
    }

    /// Whether a slot can have a record of this length, with entries for it and the slots before it if it is new.
    pub fn fits(&self, slot: u16, bytes: usize) -> bool
        ensures { IsTrue result ↔ Fits self.now.version self.now.slots slot bytes }
    {
        let version = self.text.version();
        if slot >= version.slot_limit() || bytes > version.record_limit() {
            return false;
        }
        let slot = slot as usize;
        let slots = self.text.slot_count();
        let need = if slot < slots {
            bytes.saturating_sub(self.claims[slot] as usize)
        } else {
            bytes + SLOT_ENTRY_BYTES * (slot + 1 - slots)
        };
        need <= self.free_bytes()
    }

    /// The lowest slot from one on that a new record of this length can go into: one that is empty, or the one behind the last.
    #[tactic(auto, using(shore_types::specs::Versions::sizes))]
    pub fn candidate(&self, from: u16, bytes: usize) -> Option<u16>
        ensures found { IfSome result (IsFirstCandidate self.now.version self.now.slots from bytes) }
        ensures none { result ≡ None → (other : ℕ) → from ≤ other → IsCandidate self.now.version self.now.slots other bytes → ⊥ }
    {
        let version = self.text.version();
        if bytes > version.record_limit() {
            return None;
        }
        let slots = self.slot_count();
        if from > slots {
            return None;
        }
        let free = self.free_bytes();
        for slot in self.text.full_until(from as usize) as u16..slots {
            if self.takes(slot, bytes, free) {
                return Some(slot);
            }
        }
        if slots >= version.slot_limit() || bytes + SLOT_ENTRY_BYTES > free {
            return None;
        }
        Some(slots)
    }

    /// Puts a record into a slot. What was kept for the slot stays so. If the slot is new, so are those between the last one and it,
    /// and they are empty.
    #[inline]
    pub fn put(&mut self, slot: u16, bytes: &[u8])
        requires { Fits self.old.version self.old.slots slot (length bytes.now) }
        ensures put { self.new ≡ record self.old { slots = with_image self.old.slots slot (Some bytes.now) } }
        ensures one { ChangesOne self.old.version self.old.slots self.new.slots slot (Some bytes.now) }
    {
        if slot == self.slot_count() {
            self.append(bytes);
        } else {
            self.replace(slot, bytes);
        }
    }

    /// Takes the record of a slot away. What it claimed stays kept for the slot.
    pub fn remove(&mut self, slot: u16)
        requires { slot < length self.old.slots }
        ensures removed { self.new ≡ record self.old { slots = with_image self.old.slots slot None } }
        ensures one { ChangesOne self.old.version self.old.slots self.new.slots slot None }
    {
        self.text.clear(slot as usize);
    }

    /// Makes a change that was logged under this number: puts the image after it into its slot, as `put` and `remove` do.
    pub fn apply(&mut self, lsn: Lsn, slot: u16, after: Option<&[u8]>)
        requires { Fits self.old.version self.old.slots slot (image_len (option_map (λ bytes. bytes.now) after)) }
        ensures applied { let after = option_map (λ bytes. bytes.now) after.entry in
            self.new ≡ record self.old { number = lsn; slots = with_image self.old.slots slot after } }
        ensures one { let after = option_map (λ bytes. bytes.now) after.entry in
            ChangesOne self.old.version self.old.slots self.new.slots slot after }
    {
        match after {
            None => self.empty(slot),
            Some(bytes) => self.put(slot, bytes),
        }
        self.text.set_number(lsn);
    }

    /// Keeps at least this many bytes for a slot: for an image that may come back to it.
    pub fn reserve(&mut self, slot: u16, bytes: usize)
        requires there { slot < length self.old.slots }
        requires fits { Fits self.old.version self.old.slots slot bytes }
        ensures { self.new ≡ record self.old { slots = with_change (raised bytes) self.old.slots slot } }
    {
        self.raise(slot as usize, bytes);
    }

    /// Keeps no more than this many bytes for a slot, and what its record has: the images that may still come back to it
    /// are no longer.
    pub fn unreserve(&mut self, slot: u16, bytes: usize)
        requires { slot < length self.old.slots }
        ensures { self.new ≡ record self.old { slots = with_change (lowered bytes) self.old.slots slot } }
    {
        let slot = slot as usize;
        let kept = bytes.max(self.text.record_len(slot));
        let claim = self.claims[slot] as usize;
        let lowered = claim.min(kept);
        self.claims[slot] = lowered as u16;
        self.claimed -= claim - lowered;
    }

    /// The page's text, lent: it is kept at all times, so nothing is copied.
    pub fn text(&self) -> &[u8]
        ensures { IsPageText self.now.version result.now self.now.id self.now.number (images_of self.now.slots) }
    {
        self.text.text()
    }

    /// Fills bytes with the page's text.
    pub fn to_bytes(&self, out: &mut [u8])
        requires { length out.old ≡ page_bytes self.now.version }
        ensures { IsPageText self.now.version out.new self.now.id self.now.number (images_of self.now.slots) }
    {
        self.text.to_bytes(out);
    }

    /// The page of this id whose text the bytes are; None if they are no text of it. Each slot claims what its record takes.
    pub fn from_bytes(
        alloc: Global,
        version: Version,
        id: PageId,
        bytes: &[u8],
    ) -> Result<Option<Page>, AllocError>
        // What is answered is a page whose text the bytes are.
        ensures found { IfOk result (λ found. IfSome found (λ page.
            (page.version ≡ version) × IsPageText version bytes.now id page.number (images_of page.slots))) }
        // If they are a text of the page, it is found.
        ensures only { (number : ℕ) (images : List Image) → IsPageText version bytes.now id number images
            → IfOk result (λ found. found ≡ Some (settled_page version id number images)) }
    {
        let Some(text) = PageBytes::from_bytes(alloc, version, id, bytes)? else {
            return Ok(None);
        };
        let mut claims = Vec::with_capacity(alloc, version.slot_limit() as usize)?;
        let claimed = claim_records(&text, &mut claims);
        Ok(Some(Page {
            text,
            claims,
            claimed,
        }))
    }

    // Whether a slot that is there is empty, and can have a record of this length: the free bytes are known.
    #[tactic(auto, using(shore_types::specs::Versions::sizes))]
    #[inline]
    fn takes(&self, slot: u16, bytes: usize, free: usize) -> bool
        requires there { slot < length self.now.slots }
        requires most { bytes ≤ record_limit self.now.version }
        requires free { free ≡ free_bytes self.now.version self.now.slots }
        ensures { IsTrue result ↔ IsCandidate self.now.version self.now.slots slot bytes }
    {
        let slot = slot as usize;
        self.text.is_empty(slot) && bytes <= free + self.claims[slot] as usize
    }

    // Puts a record into the slot behind the last one.
    #[tactic(auto, using(shore_types::specs::Versions::sizes))]
    fn append(&mut self, bytes: &[u8])
        requires { Fits self.old.version self.old.slots (length self.old.slots) (length bytes.now) }
        ensures put { self.new ≡ record self.old { slots = with_image self.old.slots (length self.old.slots) (Some bytes.now) } }
        ensures one { ChangesOne self.old.version self.old.slots self.new.slots (length self.old.slots) (Some bytes.now) }
    {
        self.claims.push_reserved(bytes.len() as u16);
        self.claimed += bytes.len();
        self.text.append(bytes);
    }

    // Puts a record into any slot.
    #[inline(never)]
    fn replace(&mut self, slot: u16, bytes: &[u8])
        requires { Fits self.old.version self.old.slots slot (length bytes.now) }
        ensures put { self.new ≡ record self.old { slots = with_image self.old.slots slot (Some bytes.now) } }
        ensures one { ChangesOne self.old.version self.old.slots self.new.slots slot (Some bytes.now) }
    {
        self.raise(slot as usize, bytes.len());
        self.text.put(slot as usize, bytes);
    }

    // The slots up to this one are there, and this one claims at least so many bytes.
    #[tactic(auto, using(shore_types::specs::Versions::sizes))]
    fn raise(&mut self, slot: usize, bytes: usize)
        requires { Fits self.old.version self.old.slots slot bytes }
        ensures raised { self.new ≡ record self.old { slots = with_change (raised bytes) (with_slot self.old.slots slot) slot } }
        ensures room { HasRoom self.old.version self.old.slots }
    {
        self.reach(slot);
        let claim = self.claims[slot] as usize;
        let raised = claim.max(bytes);
        self.claims[slot] = raised as u16;
        self.claimed += raised - claim;
    }

    // The slots up to this one are there.
    #[tactic(auto, using(shore_types::specs::Versions::sizes))]
    fn reach(&mut self, slot: usize)
        requires { 4 * (slot + 1 - length self.old.slots) ≤ free_bytes self.old.version self.old.slots }
        ensures reached { self.new ≡ record self.old { slots = with_slot self.old.slots slot } }
        ensures room { HasRoom self.old.version self.old.slots }
    {
        if slot >= self.text.slot_count() {
            self.text.grow(slot + 1);
            add_claims(&mut self.claims, slot + 1);
        }
    }

    // No record is in a slot, which may be new.
    fn empty(&mut self, slot: u16)
        requires { Fits self.old.version self.old.slots slot 0 }
        ensures emptied { self.new ≡ record self.old { slots = with_image self.old.slots slot None } }
        ensures one { ChangesOne self.old.version self.old.slots self.new.slots slot None }
    {
        let slot = slot as usize;
        self.raise(slot, 0);
        self.text.clear(slot);
    }
}

impl Slotted for Page {
    ghost use Rattle.shore_page.specs.Text.{images_of};

    ghost images = { λ p. images_of p.slots };

    #[tactic(auto, using(shore_types::specs::Versions::sizes))]
    fn slots(&self) -> u16 {
        self.text.slot_count() as u16
    }

    fn len_at(&self, slot: u16) -> usize {
        self.text.record_len(slot as usize)
    }
}
