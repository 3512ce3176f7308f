//! Which bytes are a page's: the check of a header, and of a slot table.
ghost use Rattle.std.specs.Prelude.{◌≡◌, ◌+◌, ◌-◌, ◌*◌, ◌<◌, ◌≤◌, ◌↔◌, ℕ, false, length, Some, None, IsTrue, IsSome, IfSome};
ghost use Rattle.shore_types.specs.Versions.{page_bytes, page_room};
ghost use Rattle.shore_page.specs.Layout.{AreFull, IsLaidOut, record_bytes};
ghost use Rattle.shore_page.specs.Text.{HasHeader};
ghost use Rattle.shore_page.specs.Reading.{Lies, Follows, IsEntry, IsTable, images_in, marks_of, Marks, IsTaken};

use crate::entries::{Entry, entry_at, u16_at, u32_at, u64_at};
use crate::marks::{MARK_WORDS, mark};
use shore_types::layout::{PAGE_HEADER_BYTES, SLOT_ENTRY_BYTES};
use shore_types::{Lsn, PageId, Version};

/// What the front of a page says.
#[derive(Clone, Copy)]
pub struct Header {
    /// The number of the last change.
    pub number: Lsn,
    /// How many slots there are.
    pub slots: usize,
}

/// The header of a page of this id; None if the front of the bytes is none.
#[tactic(auto, using(shore_types::specs::Versions::sizes))]
pub fn read_header(version: Version, id: &PageId, bytes: &[u8]) -> Option<Header>
    requires { length bytes.now ≡ page_bytes version }
    ensures found { IfSome result (λ header. HasHeader version bytes.now id.now header.number header.slots) }
    ensures only { (number slots : ℕ) → HasHeader version bytes.now id.now number slots
        → result ≡ Some record { number = number; slots = slots } }
{
    if u32_at(bytes, 0) != id.store.0 || u32_at(bytes, 4) != id.page || u32_at(bytes, 20) != 0 {
        return None;
    }
    let slots = u16_at(bytes, 16);
    if slots > version.slot_limit() {
        return None;
    }
    let slots = slots as usize;
    if u16_at(bytes, 18) as usize != version.page_bytes() - SLOT_ENTRY_BYTES * slots {
        return None;
    }
    let number = Lsn(u64_at(bytes, 8));
    Some(Header { number, slots })
}

// Whether a record may be where an entry says.
fn lies(version: Version, entry: Entry, table: usize) -> bool
    requires { (entry.offset < 65536) × (entry.bytes < 65536) }
    ensures { IsTrue result ↔ Lies version table entry.offset entry.bytes }
{
    entry.offset >= PAGE_HEADER_BYTES
        && entry.offset + entry.bytes <= table
        && entry.bytes <= version.record_limit()
}

// Marks the bytes of a slot's record, counted from behind the header. False if its entry is none, or if a byte belongs
// to another record.
fn take_entry(version: Version, entry: Entry, table: usize, marks: &mut [u64]) -> bool
    requires small { (entry.offset < 65536) × (entry.bytes < 65536) }
    requires words { length marks.old ≡ 256 }
    requires table { (24 ≤ table) × (table ≤ 16384) }
    ensures entry { IsTrue result → IsEntry version table entry.offset entry.bytes }
    ensures free { let from = entry.offset - 24 in
        IsTrue result → Marks (marks_of marks.old (table - 24)) (marks_of marks.new (table - 24)) from (from + entry.bytes) }
    ensures taken { let from = entry.offset - 24 in result ≡ false
        → IsEntry version table entry.offset entry.bytes → IsTaken (marks_of marks.old (table - 24)) from (from + entry.bytes) }
    ensures len { length marks.new ≡ 256 }
{
    if entry.offset == 0 && entry.bytes == 0 {
        return true;
    }
    if !lies(version, entry, table) {
        return false;
    }
    let from = entry.offset - PAGE_HEADER_BYTES;
    mark(marks, from, from + entry.bytes)
}

// Where the records end with that of an entry, if it begins where they end or behind; None if it does not, or if the entry is none.
fn end_behind(version: Version, entry: Entry, table: usize, end: usize) -> Option<usize>
    requires { (entry.offset < 65536) × (entry.bytes < 65536) }
    ensures { IfSome result (λ new. Follows version table end entry.offset entry.bytes new) }
{
    if entry.offset == 0 && entry.bytes == 0 {
        return Some(end);
    }
    if entry.offset < end || !lies(version, entry, table) {
        return None;
    }
    Some(entry.offset + entry.bytes)
}

// Where the last record ends, if the records lie in the order of their slots, as they do in a page that was filled or compacted; None if they
// do not. No byte needs a mark then.
fn rising_end(bytes: &[u8], version: Version, slots: usize) -> Option<usize>
    requires whole { length bytes.now ≡ page_bytes version }
    requires few { 24 + 4 * slots ≤ page_bytes version }
    ensures laid_out { IfSome result (λ end. IsLaidOut version bytes.now slots end) }
    ensures room { IfSome result (λ _. 4 * slots + record_bytes (images_in version bytes.now slots) ≤ page_room version) }
{
    let table = version.page_bytes() - SLOT_ENTRY_BYTES * slots;
    let mut end = PAGE_HEADER_BYTES;
    for slot in 0..slots {
        let Some(behind) = end_behind(version, entry_at(bytes, version, slot), table, end) else {
            return None;
        };
        end = behind;
    }
    Some(end)
}

// Where the last record ends, if no two records overlap: a byte that belongs to a record is marked by a bit.
fn marked_end(bytes: &[u8], version: Version, slots: usize) -> Option<usize>
    requires whole { length bytes.now ≡ page_bytes version }
    requires few { 24 + 4 * slots ≤ page_bytes version }
    ensures laid_out { IfSome result (λ end. IsLaidOut version bytes.now slots end) }
    ensures room { IfSome result (λ _. 4 * slots + record_bytes (images_in version bytes.now slots) ≤ page_room version) }
    ensures only { IsTable version bytes.now slots → IsSome result }
{
    let table = version.page_bytes() - SLOT_ENTRY_BYTES * slots;
    let mut marks = [0u64; MARK_WORDS];
    let mut end = PAGE_HEADER_BYTES;
    for slot in 0..slots {
        let entry = entry_at(bytes, version, slot);
        if !take_entry(version, entry, table, &mut marks) {
            return None;
        }
        end = end.max(entry.offset + entry.bytes);
    }
    Some(end)
}

/// Where the last record ends; None if the slot table has an entry that is none, or if two records overlap.
pub fn check_slots(bytes: &[u8], version: Version, slots: usize) -> Option<usize>
    requires whole { length bytes.now ≡ page_bytes version }
    requires few { 24 + 4 * slots ≤ page_bytes version }
    ensures laid_out { IfSome result (λ end. IsLaidOut version bytes.now slots end) }
    ensures room { IfSome result (λ _. 4 * slots + record_bytes (images_in version bytes.now slots) ≤ page_room version) }
    ensures only { IsTable version bytes.now slots → IsSome result }
{
    let rising = rising_end(bytes, version, slots);
    if rising.is_some() {
        return rising;
    }
    marked_end(bytes, version, slots)
}

/// So many slots have a record, from the first on.
pub fn full_slots(bytes: &[u8], version: Version, slots: usize) -> usize
    requires whole { length bytes.now ≡ page_bytes version }
    requires few { 24 + 4 * slots ≤ page_bytes version }
    ensures { AreFull (images_in version bytes.now slots) result }
{
    for slot in 0..slots {
        if entry_at(bytes, version, slot).offset == 0 {
            return slot;
        }
    }
    slots
}
