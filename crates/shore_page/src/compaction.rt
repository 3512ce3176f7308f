//! The records of a page moved together, so that the room between them comes to the gap below the slot table.
ghost use Rattle.std.specs.Prelude.{◌≡◌, ◌+◌, ◌*◌, ◌<◌, ◌≤◌, ℕ, length, option_map};
ghost use Rattle.shore_types.specs.Versions.{page_bytes, record_limit};
ghost use Rattle.shore_types.specs.Images.{image_len};
ghost use Rattle.shore_page.specs.Text.{table_of, offset_at, length_at, HasSlot, Covers};
ghost use Rattle.shore_page.specs.Reading.{IsTable, images_in};
ghost use Rattle.shore_page.specs.Layout.{IsLaidOut, record_bytes};
ghost use Rattle.shore_page.specs.Writing.{KeepsHeader, KeepsSlots};

use crate::entries::image_at;
use crate::writing::{put_entry, put_record};
use shore_types::Version;
use shore_types::layout::{MAX_PAGE_BYTES, PAGE_HEADER_BYTES};

// What is in a slot, with its record at an offset; answers where the next record may begin.
fn put_slot(
    out: &mut [u8],
    version: Version,
    slots: usize,
    slot: usize,
    offset: usize,
    image: Option<&[u8]>,
) -> usize
    requires whole { length out.old ≡ page_bytes version }
    requires few { 24 + 4 * slots ≤ page_bytes version }
    requires there { slot < slots }
    requires short { image_len (option_map (λ bytes. bytes.now) image) ≤ record_limit version }
    requires front { 24 ≤ offset }
    requires room { offset + image_len (option_map (λ bytes. bytes.now) image) ≤ table_of version slots }
    ensures end { result ≡ offset + image_len (option_map (λ bytes. bytes.now) image.entry) }
    ensures slot { HasSlot version out.new (table_of version slots) slot (option_map (λ bytes. bytes.now) image.entry) }
    ensures begins { (position : ℕ) → Covers version out.new slot position → offset ≤ position }
    ensures ends { offset_at version out.new slot + length_at version out.new slot ≤ result }
    ensures keeps { KeepsSlots version out.old out.new slots slot offset }
{
    match image {
        None => {
            put_entry(out, version, slot, 0, 0);
            offset
        }
        Some(bytes) => {
            put_record(out, version, slots, slot, offset, bytes);
            offset + bytes.len()
        }
    }
}

/// Puts the records of a page one behind another, in the order of their slots; answers where the last of them ends. They are read
/// from a copy of the page, since a slot's record may lie where one before it goes.
#[tactic(auto, using(shore_types::specs::Versions::sizes))]
#[inline(never)]
pub fn compact(out: &mut [u8], version: Version, slots: usize) -> usize
    requires laid_out { IsTable version out.old slots }
    requires whole { length out.old ≡ page_bytes version }
    requires few { 24 + 4 * slots ≤ page_bytes version }
    requires room { 24 + record_bytes (images_in version out.old slots) ≤ table_of version slots }
    ensures laid_out { IsLaidOut version out.new slots result }
    ensures end { result ≡ 24 + record_bytes (images_in version out.old slots) }
    ensures images { images_in version out.new slots ≡ images_in version out.old slots }
    ensures header { KeepsHeader out.old out.new }
{
    let mut copy = [0u8; MAX_PAGE_BYTES];
    let kept = &mut copy[..version.page_bytes()];
    kept.copy_from_slice(out);
    let mut offset = PAGE_HEADER_BYTES;
    for slot in 0..slots {
        offset = put_slot(
            out,
            version,
            slots,
            slot,
            offset,
            image_at(kept, version, slot),
        );
    }
    offset
}
