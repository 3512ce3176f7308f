//! Numbers, entries and records, put into the bytes of a page.
ghost use Rattle.std.specs.Prelude.{◌≡◌, ◌+◌, ◌*◌, ◌<◌, ◌≤◌, ℕ, length, slice_index};
ghost use Rattle.shore_types.specs.Versions.{page_bytes};
ghost use Rattle.shore_page.specs.Text.{number_at, table_of, offset_at, length_at, HasHeader};
ghost use Rattle.shore_page.specs.Writing.{KeepsBeside, Writes, PutsRecord};

use byteorder::{ByteOrder, LittleEndian};
use shore_types::layout::SLOT_ENTRY_BYTES;
use shore_types::{Lsn, PageId, Version};

fn put(out: &mut [u8], position: usize, bytes: &[u8])
    requires { position + length bytes.now ≤ length out.old }
    ensures { Writes out.old out.new position bytes.now }
{
    out[position..position + bytes.len()].copy_from_slice(bytes);
}

fn put_u16(out: &mut [u8], position: usize, number: u16)
    requires { position + 2 ≤ length out.old }
    ensures here { number_at out.new position 2 ≡ number }
    ensures beside { KeepsBeside out.old out.new position (position + 2) }
{
    let mut word = [0u8; 2];
    LittleEndian::write_u16(&mut word, number);
    put(out, position, &word);
}

fn put_u32(out: &mut [u8], position: usize, number: u32)
    requires { position + 4 ≤ length out.old }
    ensures here { number_at out.new position 4 ≡ number }
    ensures beside { KeepsBeside out.old out.new position (position + 4) }
{
    let mut word = [0u8; 4];
    LittleEndian::write_u32(&mut word, number);
    put(out, position, &word);
}

fn put_u64(out: &mut [u8], position: usize, number: u64)
    requires { position + 8 ≤ length out.old }
    ensures here { number_at out.new position 8 ≡ number }
    ensures beside { KeepsBeside out.old out.new position (position + 8) }
{
    let mut word = [0u8; 8];
    LittleEndian::write_u64(&mut word, number);
    put(out, position, &word);
}

/// The 24 bytes at the front of a page with no slot, which no change has reached.
pub fn put_header(out: &mut [u8], version: Version, id: &PageId)
    requires whole { length out.old ≡ page_bytes version }
    ensures header { HasHeader version out.new id.now 0 0 }
    ensures len { length out.new ≡ page_bytes version }
{
    let size = version.page_bytes();
    put_u32(out, 0, id.store.0);
    put_u32(out, 4, id.page);
    put_u64(out, 8, 0);
    put_u16(out, 16, 0);
    put_u16(out, 18, size as u16);
    put_u32(out, 20, 0);
}

/// The number of the last change, in the header.
#[tactic(auto, using(shore_types::specs::Versions::sizes))]
pub fn put_number(out: &mut [u8], version: Version, number: Lsn)
    requires whole { length out.old ≡ page_bytes version }
    ensures header { (id : PageId) (before slots : ℕ) → HasHeader version out.old id before slots → HasHeader version out.new id number slots }
    ensures beside { KeepsBeside out.old out.new 8 16 }
{
    put_u64(out, 8, number.0);
}

// Zeros for the entries of slots.
fn clear_entries(out: &mut [u8], version: Version, slots: usize, more: usize)
    requires whole { length out.old ≡ page_bytes version }
    requires order { slots ≤ more }
    requires few { 24 + 4 * more ≤ page_bytes version }
    ensures empty { (slot : ℕ) → slots ≤ slot → slot < more → (offset_at version out.new slot ≡ 0) × (length_at version out.new slot ≡ 0) }
    ensures beside { KeepsBeside out.old out.new (table_of version more) (table_of version slots) }
{
    for slot in slots..more {
        put_entry(out, version, slot, 0, 0);
    }
}

/// A longer slot table: the slots that are new are empty.
pub fn put_table(out: &mut [u8], version: Version, slots: usize, more: usize)
    requires whole { length out.old ≡ page_bytes version }
    requires order { slots ≤ more }
    requires few { 24 + 4 * more ≤ page_bytes version }
    ensures header { (id : PageId) (number : ℕ) → HasHeader version out.old id number slots → HasHeader version out.new id number more }
    ensures empty { (slot : ℕ) → slots ≤ slot → slot < more → (offset_at version out.new slot ≡ 0) × (length_at version out.new slot ≡ 0) }
    ensures below { (position : ℕ) → 24 ≤ position → position < table_of version more
        → slice_index out.new position ≡ slice_index out.old position }
    ensures above { (position : ℕ) → table_of version slots ≤ position → slice_index out.new position ≡ slice_index out.old position }
    ensures len { length out.new ≡ page_bytes version }
{
    let table = version.page_bytes() - SLOT_ENTRY_BYTES * more;
    clear_entries(out, version, slots, more);
    put_u16(out, 16, more as u16);
    put_u16(out, 18, table as u16);
}

/// The entry of a slot.
#[tactic(auto, using(shore_types::specs::Versions::sizes))]
pub fn put_entry(out: &mut [u8], version: Version, slot: usize, offset: usize, bytes: usize)
    requires whole { length out.old ≡ page_bytes version }
    requires few { 28 + 4 * slot ≤ page_bytes version }
    requires offset { offset ≤ 16384 }
    requires short { bytes ≤ 16384 }
    ensures offset { offset_at version out.new slot ≡ offset }
    ensures length { length_at version out.new slot ≡ bytes }
    ensures beside { KeepsBeside out.old out.new (table_of version (slot + 1)) (table_of version slot) }
{
    let position = version.page_bytes() - SLOT_ENTRY_BYTES * (slot + 1);
    put_u16(out, position, offset as u16);
    put_u16(out, position + 2, bytes as u16);
}

/// A record at an offset below a slot table, and the entry of its slot.
#[tactic(auto, using(shore_types::specs::Versions::sizes))]
pub fn put_record(
    out: &mut [u8],
    version: Version,
    slots: usize,
    slot: usize,
    offset: usize,
    bytes: &[u8],
)
    requires whole { length out.old ≡ page_bytes version }
    requires few { 24 + 4 * slots ≤ page_bytes version }
    requires there { slot < slots }
    requires room { offset + length bytes.now ≤ table_of version slots }
    ensures { PutsRecord version out.old out.new slots slot offset bytes.now }
{
    put_entry(out, version, slot, offset, bytes.len());
    put(out, offset, bytes);
}
