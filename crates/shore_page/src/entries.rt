//! The slot table of a page's bytes: its entries, and the records that they name.
ghost use Rattle.std.specs.Prelude.{◌≡◌, ◌+◌, ◌*◌, ◌<◌, ◌≤◌, length, option_map};
ghost use Rattle.shore_types.specs.Versions.{page_bytes};
ghost use Rattle.shore_page.specs.Text.{number_at, offset_at, length_at};
ghost use Rattle.shore_page.specs.Reading.{slot_image};

use byteorder::{ByteOrder, LittleEndian};
use shore_types::Version;
use shore_types::layout::SLOT_ENTRY_BYTES;

pub fn u16_at(bytes: &[u8], position: usize) -> u16
    requires { position + 2 ≤ length bytes.now }
    ensures { result ≡ number_at bytes.now position 2 }
{
    LittleEndian::read_u16(&bytes[position..position + 2])
}

pub fn u32_at(bytes: &[u8], position: usize) -> u32
    requires { position + 4 ≤ length bytes.now }
    ensures { result ≡ number_at bytes.now position 4 }
{
    LittleEndian::read_u32(&bytes[position..position + 4])
}

pub fn u64_at(bytes: &[u8], position: usize) -> u64
    requires { position + 8 ≤ length bytes.now }
    ensures { result ≡ number_at bytes.now position 8 }
{
    LittleEndian::read_u64(&bytes[position..position + 8])
}

/// The entry of a slot: where its record begins, and how long it is.
#[derive(Clone, Copy)]
pub struct Entry {
    /// The offset of its first byte in the page.
    pub offset: usize,
    /// How many bytes it has.
    pub bytes: usize,
}

pub fn entry_at(bytes: &[u8], version: Version, slot: usize) -> Entry
    requires whole { length bytes.now ≡ page_bytes version }
    requires few { 28 + 4 * slot ≤ page_bytes version }
    ensures offset { result.offset ≡ offset_at version bytes.now slot }
    ensures bytes { result.bytes ≡ length_at version bytes.now slot }
    ensures small { (result.offset < 65536) × (result.bytes < 65536) }
{
    let position = version.page_bytes() - SLOT_ENTRY_BYTES * (slot + 1);
    Entry {
        offset: u16_at(bytes, position) as usize,
        bytes: u16_at(bytes, position + 2) as usize,
    }
}

/// The record that the entry of a slot names; None if the slot is empty.
#[tactic(auto, unfolding(crate::specs::Reading::slot_image))]
pub fn image_at(bytes: &[u8], version: Version, slot: usize) -> Option<&[u8]>
    requires whole { length bytes.now ≡ page_bytes version }
    requires few { 28 + 4 * slot ≤ page_bytes version }
    requires within { offset_at version bytes.now slot + length_at version bytes.now slot ≤ page_bytes version }
    ensures { option_map (λ image. image.now) result ≡ slot_image version bytes.now slot }
{
    let entry = entry_at(bytes, version, slot);
    if entry.offset == 0 {
        return None;
    }
    Some(&bytes[entry.offset..entry.offset + entry.bytes])
}
