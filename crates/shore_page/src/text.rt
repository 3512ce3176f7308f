//! A page's text with its records: the bytes are a text at all times, and only they are kept.
ghost use Rattle.std.specs.Prelude.{◌≡◌, ◌≢◌, ◌↔◌, ◌⊎◌, ◌+◌, ◌-◌, ◌*◌, ◌<◌, ◌≤◌, ◌++◌, ◌∷◌, ℕ, [], length, replicate, set, slice_get, slice_index_or, Some, None, option_map, IsTrue, IfOk, IfSome, List};
ghost use Rattle.std.specs.Option.{option_and_then};
ghost use Rattle.shore_types.specs.Images.{Image, image_len};
ghost use Rattle.shore_types.specs.Runs.{IsRun};
ghost use Rattle.shore_types.specs.declared.layout.TheConstants.{MAX_SLOTS};
ghost use Rattle.shore_types.specs.Versions.{page_bytes, page_room, record_limit};
ghost use Rattle.shore_page.specs.Text.{IsPageText};
ghost use Rattle.shore_page.specs.Layout.{record_bytes};

use crate::entries::{entry_at, image_at};
use crate::placing::{append_image, clear_slot, grow_table, put_image};
use crate::reading::{check_slots, full_slots, read_header};
use crate::writing::{put_header, put_number};
use shore_types::layout::PAGE_HEADER_BYTES;
use shore_types::{Lsn, PageId, Version};
use std::alloc::{AllocError, Global};
use std::marker::Model;

/// The text of a page.
#[derive(Drop)]
pub struct PageBytes {
    // The version that says how long the page is.
    version: Version,
    // The id, as the header has it.
    id: PageId,
    // The number of the last logged change (page_LSN), as the header has it.
    number: Lsn,
    // The page, byte by byte: the header, records from the front on, and the slot table at the back.
    bytes: Vec<u8>,
    // How many entries the slot table has, as the header says; a slot is never given up.
    slots: usize,
    // No record ends behind it. What is between it and the slot table is free; so are holes below it.
    end: usize,
    // All slots below it have a record, so that no search for an empty one looks at them. It may be lower than need be.
    full: usize,
}

impl Model for PageBytes {
    ghost use Rattle.shore_page.specs.Layout.{PageImages};
    ghost use Rattle.shore_page.specs.Reading.{images_in};
    ghost use Rattle.shore_page.specs.Layout.{IsPageBytes};

    ghost Value = { PageImages };

    ghost view = { λ p. record { version = p.version; id = p.id; number = p.number; images = images_in p.version p.bytes.items p.slots } };

    ghost invariant = { λ p. IsPageBytes p.version p.bytes.items p.id p.number p.slots p.end p.full };
}

impl PageBytes {
    /// The text of a page with no slot, which no change has reached.
    pub fn new(alloc: Global, version: Version, id: PageId) -> Result<PageBytes, AllocError>
        ensures { IfOk result (λ text. text ≡ record { version = version; id = id; number = 0; images = [] }) }
    {
        let mut bytes = Vec::from_elem(alloc, 0u8, version.page_bytes())?;
        put_header(&mut bytes, version, &id);
        Ok(PageBytes {
            version,
            id,
            number: Lsn(0),
            bytes,
            slots: 0,
            end: PAGE_HEADER_BYTES,
            full: 0,
        })
    }

    /// The version of the text.
    pub fn version(&self) -> Version
        ensures { result ≡ self.now.version }
    {
        self.version
    }

    pub fn id(&self) -> PageId
        ensures { result ≡ self.now.id }
    {
        self.id
    }

    /// The number of the last change, 0 for none.
    pub fn number(&self) -> Lsn
        ensures { result ≡ self.now.number }
    {
        self.number
    }

    pub fn set_number(&mut self, number: Lsn)
        ensures { self.new ≡ record self.old { number = number } }
    {
        put_number(&mut self.bytes, self.version, number);
        self.number = number;
    }

    pub fn slot_count(&self) -> usize
        ensures count { result ≡ length self.now.images }
        ensures most { 24 + 4 * result ≤ page_bytes self.now.version }
    {
        self.slots
    }

    /// The record in a slot that is there.
    pub fn image(&self, slot: usize) -> Option<&[u8]>
        requires { slot < length self.now.images }
        ensures { option_map (λ bytes. bytes.now) result ≡ slice_index_or self.now.images slot None }
    {
        image_at(&self.bytes, self.version, slot)
    }

    /// The bytes of all records, if they lie one behind another from the header on, in the order of their slots, and each slot has one. None only
    /// says that they are to be read one by one.
    pub fn run(&self) -> Option<&[u8]>
        ensures { IfSome result (λ bytes. IsRun bytes.now self.now.images) }
    {
        let mut end = PAGE_HEADER_BYTES;
        for slot in 0..self.slots {
            let entry = entry_at(&self.bytes, self.version, slot);
            if entry.offset != end {
                return None;
            }
            end += entry.bytes;
        }
        Some(&self.bytes[PAGE_HEADER_BYTES..end])
    }

    /// Whether a slot that is there has no record.
    pub fn is_empty(&self, slot: usize) -> bool
        requires { slot < length self.now.images }
        ensures { IsTrue result ↔ (slice_index_or self.now.images slot None ≡ None) }
    {
        entry_at(&self.bytes, self.version, slot).offset == 0
    }

    /// A slot so that all from one on up to it have a record: the first that has none, or one shortly before it. Slots are looked at
    /// four at a time, since a page may have many, and mostly each of them has a record.
    pub fn full_until(&self, from: usize) -> usize
        requires { from ≤ length self.now.images }
        ensures from { from ≤ result }
        ensures there { result ≤ length self.now.images }
        ensures full { (slot : ℕ) → from ≤ slot → slot < result → slice_index_or self.now.images slot None ≢ None }
    {
        let slots = self.slot_count();
        let mut slot = from.max(self.full);
        while slot + 4 <= slots && self.are_full(slot) {
            slot += 4;
        }
        slot
    }

    // Whether four slots have a record.
    #[tactic(auto, using(shore_types::specs::Versions::sizes))]
    fn are_full(&self, first: usize) -> bool
        requires there { first + 4 ≤ length self.now.images }
        requires few { 28 + 4 * first ≤ page_bytes self.now.version }
        ensures { IsTrue result → (slot : ℕ) → first ≤ slot → slot < first + 4 → slice_index_or self.now.images slot None ≢ None }
    {
        if self.is_empty(first) || self.is_empty(first + 1) {
            return false;
        }
        !self.is_empty(first + 2) && !self.is_empty(first + 3)
    }

    /// How many bytes the record in a slot has, 0 in an empty one.
    pub fn record_len(&self, slot: usize) -> usize
        requires { slot < length self.now.images }
        ensures len { result ≡ image_len (slice_index_or self.now.images slot None) }
        ensures most { result ≤ record_limit self.now.version }
    {
        entry_at(&self.bytes, self.version, slot).bytes
    }

    /// Makes so many slots, of which those that are new are empty.
    pub fn grow(&mut self, slots: usize)
        requires order { length self.old.images ≤ slots }
        requires room { 4 * slots + record_bytes self.old.images ≤ page_room self.old.version }
        ensures { self.new ≡ record self.old { images = self.old.images ++ replicate (slots - length self.old.images) None } }
    {
        self.end = grow_table(&mut self.bytes, self.version, self.slots, self.end, slots);
        self.slots = slots;
    }

    /// Puts a record into a slot that is there.
    pub fn put(&mut self, slot: usize, bytes: &[u8])
        requires there { slot < length self.old.images }
        requires most { length bytes.now ≤ record_limit self.old.version }
        requires room { 4 * length self.old.images + record_bytes (set self.old.images slot None) + length bytes.now ≤ page_room self.old.version }
        ensures { self.new ≡ record self.old { images = set self.old.images slot (Some bytes.now) } }
    {
        self.end = put_image(
            &mut self.bytes,
            self.version,
            self.slots,
            self.end,
            slot,
            bytes,
        );
        // Those behind it may have been full all the while.
        if slot == self.full {
            self.full = full_slots(&self.bytes, self.version, self.slots);
        }
    }

    /// Puts a record into the slot behind the last one.
    pub fn append(&mut self, bytes: &[u8])
        requires few { 28 + 4 * length self.old.images ≤ page_bytes self.old.version }
        requires most { length bytes.now ≤ record_limit self.old.version }
        requires room { 4 * (length self.old.images + 1) + record_bytes self.old.images + length bytes.now ≤ page_room self.old.version }
        ensures { self.new ≡ record self.old { images = self.old.images ++ Some bytes.now ∷ [] } }
    {
        self.end = append_image(&mut self.bytes, self.version, self.slots, self.end, bytes);
        self.full = full_with(self.full, self.slots);
        self.slots += 1;
    }

    /// Takes the record of a slot away.
    pub fn clear(&mut self, slot: usize)
        requires { slot < length self.old.images }
        ensures { self.new ≡ record self.old { images = set self.old.images slot None } }
    {
        clear_slot(&mut self.bytes, self.version, self.slots, slot);
        self.full = self.full.min(slot);
    }

    /// The text itself.
    pub fn text(&self) -> &[u8]
        ensures { IsPageText self.now.version result.now self.now.id self.now.number self.now.images }
    {
        &self.bytes
    }

    /// Fills bytes with the text.
    pub fn to_bytes(&self, out: &mut [u8])
        requires { length out.old ≡ page_bytes self.now.version }
        ensures { IsPageText self.now.version out.new self.now.id self.now.number self.now.images }
    {
        out.copy_from_slice(&self.bytes);
    }

    /// The page of this id whose text the bytes are; None if they are no text of it.
    pub fn from_bytes(
        alloc: Global,
        version: Version,
        id: PageId,
        bytes: &[u8],
    ) -> Result<Option<PageBytes>, AllocError>
        ensures found { IfOk result (λ found. IfSome found (λ page.
            (page.version ≡ version) × (page.id ≡ id) × IsPageText version bytes.now id page.number page.images)) }
        ensures room { IfOk result (λ found. IfSome found (λ page. 4 * length page.images + record_bytes page.images ≤ page_room version)) }
        ensures only { (number : ℕ) (images : List Image) → IsPageText version bytes.now id number images
            → IfOk result (λ found. found ≡ Some record { version = version; id = id; number = number; images = images }) }
    {
        if bytes.len() != version.page_bytes() {
            return Ok(None);
        }
        let Some(header) = read_header(version, &id, bytes) else {
            return Ok(None);
        };
        let Some(end) = check_slots(bytes, version, header.slots) else {
            return Ok(None);
        };
        let full = full_slots(bytes, version, header.slots);
        let bytes = Vec::from_slice(alloc, bytes)?;
        Ok(Some(PageBytes {
            version,
            id,
            number: header.number,
            bytes,
            slots: header.slots,
            end,
            full,
        }))
    }
}

// Below which slot all are known to be full once one more slot has a record.
fn full_with(full: usize, slot: usize) -> usize
    requires { full ≤ MAX_SLOTS }
    ensures { (result ≡ full) ⊎ ((full ≡ slot) × (result ≡ full + 1)) }
{
    if full == slot {
        return full + 1;
    }
    full
}
