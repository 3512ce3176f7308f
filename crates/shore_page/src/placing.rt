//! Changes to the bytes of a page: where a record goes, an empty slot, more slots.
ghost use Rattle.std.specs.Prelude.{◌≡◌, ◌+◌, ◌-◌, ◌*◌, ◌<◌, ◌≤◌, ◌++◌, ◌∷◌, [], ℕ, length, replicate, set, Some, None};
ghost use Rattle.shore_types.specs.declared.ids.PageId.{PageId};
ghost use Rattle.shore_types.specs.Versions.{page_bytes, record_limit};
ghost use Rattle.shore_page.specs.Text.{HasHeader, table_of};
ghost use Rattle.shore_page.specs.Reading.{images_in};
ghost use Rattle.shore_page.specs.Layout.{IsLaidOut, IsFreeSpace, KeepsOthers, record_bytes};
ghost use Rattle.shore_page.specs.Writing.{KeepsHeader};

use crate::compaction::compact;
use crate::entries::entry_at;
use crate::writing::{put_entry, put_record, put_table};
use shore_types::Version;
use shore_types::layout::SLOT_ENTRY_BYTES;

// Where a record goes, and where the last record ends then.
#[derive(Clone, Copy)]
struct Place {
    // The offset of its first byte.
    offset: usize,
    // The offset after the last byte of any record.
    end: usize,
}

// A place for so many bytes of a slot: where its record is, in the gap below the slot table, or in the gap that there is once the
// other records are moved together. The slot's own record is given up.
fn place_for(
    bytes: &mut [u8],
    version: Version,
    slots: usize,
    end: usize,
    slot: usize,
    len: usize,
) -> Place
    requires laid_out { IsLaidOut version bytes.old slots end }
    requires there { slot < slots }
    requires room { 24 + record_bytes (set (images_in version bytes.old slots) slot None) + len ≤ table_of version slots }
    ensures laid_out { IsLaidOut version bytes.new slots result.end }
    ensures free { IsFreeSpace version bytes.new slots slot result.offset len }
    ensures others { KeepsOthers version bytes.old bytes.new slots slot }
    ensures header { KeepsHeader bytes.old bytes.new }
{
    let entry = entry_at(bytes, version, slot);
    if entry.offset != 0 && len <= entry.bytes {
        let offset = entry.offset;
        return Place { offset, end };
    }
    if end + len <= version.page_bytes() - SLOT_ENTRY_BYTES * slots {
        return Place { offset: end, end };
    }
    put_entry(bytes, version, slot, 0, 0);
    let end = compact(bytes, version, slots);
    Place { offset: end, end }
}

/// Puts a record into a slot; answers where the last record ends.
pub fn put_image(
    bytes: &mut [u8],
    version: Version,
    slots: usize,
    end: usize,
    slot: usize,
    image: &[u8],
) -> usize
    requires laid_out { IsLaidOut version bytes.old slots end }
    requires there { slot < slots }
    requires most { length image.now ≤ record_limit version }
    requires room { 24 + record_bytes (set (images_in version bytes.old slots) slot None) + length image.now ≤ table_of version slots }
    ensures laid_out { IsLaidOut version bytes.new slots result }
    ensures images { images_in version bytes.new slots ≡ set (images_in version bytes.old slots) slot (Some image.now) }
    ensures header { KeepsHeader bytes.old bytes.new }
{
    let place = place_for(bytes, version, slots, end, slot, image.len());
    put_record(bytes, version, slots, slot, place.offset, image);
    place.end.max(place.offset + image.len())
}

/// Puts a record into the slot behind the last one; answers where the last record ends. The records are moved together if the gap below the
/// longer slot table is too small.
pub fn append_image(
    bytes: &mut [u8],
    version: Version,
    slots: usize,
    end: usize,
    image: &[u8],
) -> usize
    requires laid_out { IsLaidOut version bytes.old slots end }
    requires few { 28 + 4 * slots ≤ page_bytes version }
    requires most { length image.now ≤ record_limit version }
    requires room { 24 + record_bytes (images_in version bytes.old slots) + length image.now ≤ table_of version (slots + 1) }
    ensures laid_out { IsLaidOut version bytes.new (slots + 1) result }
    ensures images { images_in version bytes.new (slots + 1) ≡ images_in version bytes.old slots ++ Some image.now ∷ [] }
    ensures header { (id : PageId) (number : ℕ) → HasHeader version bytes.old id number slots → HasHeader version bytes.new id number (slots + 1) }
{
    let more = slots + 1;
    let end = make_way(
        bytes,
        version,
        slots,
        end,
        version.page_bytes() - SLOT_ENTRY_BYTES * more - image.len(),
    );
    put_table(bytes, version, slots, more);
    put_record(bytes, version, more, slots, end, image);
    end + image.len()
}

/// Takes the record of a slot away: its entry is zeros, and its bytes are a hole.
pub fn clear_slot(bytes: &mut [u8], version: Version, slots: usize, slot: usize)
    requires whole { length bytes.old ≡ page_bytes version }
    requires few { 24 + 4 * slots ≤ page_bytes version }
    requires there { slot < slots }
    ensures laid_out { (end : ℕ) → IsLaidOut version bytes.old slots end → IsLaidOut version bytes.new slots end }
    ensures images { (end : ℕ) → IsLaidOut version bytes.old slots end
        → images_in version bytes.new slots ≡ set (images_in version bytes.old slots) slot None }
    ensures header { KeepsHeader bytes.old bytes.new }
{
    put_entry(bytes, version, slot, 0, 0);
}

/// A longer slot table, of which the slots that are new are empty; answers where the last record ends. The records are moved
/// together if one of them is in the way.
pub fn grow_table(
    bytes: &mut [u8],
    version: Version,
    slots: usize,
    end: usize,
    more: usize,
) -> usize
    requires laid_out { IsLaidOut version bytes.old slots end }
    requires order { slots ≤ more }
    requires few { 24 + 4 * more ≤ page_bytes version }
    requires room { 24 + record_bytes (images_in version bytes.old slots) ≤ table_of version more }
    ensures laid_out { IsLaidOut version bytes.new more result }
    ensures images { images_in version bytes.new more ≡ images_in version bytes.old slots ++ replicate (more - slots) None }
    ensures header { (id : PageId) (number : ℕ) → HasHeader version bytes.old id number slots → HasHeader version bytes.new id number more }
{
    let end = make_way(
        bytes,
        version,
        slots,
        end,
        version.page_bytes() - SLOT_ENTRY_BYTES * more,
    );
    put_table(bytes, version, slots, more);
    end
}

// No record ends behind a place. Answers where the last one ends.
fn make_way(bytes: &mut [u8], version: Version, slots: usize, end: usize, place: usize) -> usize
    requires laid_out { IsLaidOut version bytes.old slots end }
    requires room { 24 + record_bytes (images_in version bytes.old slots) ≤ place }
    requires order { place ≤ table_of version slots }
    ensures laid_out { IsLaidOut version bytes.new slots result }
    ensures end { result ≤ place }
    ensures images { images_in version bytes.new slots ≡ images_in version bytes.old slots }
    ensures header { KeepsHeader bytes.old bytes.new }
{
    if end <= place {
        return end;
    }
    compact(bytes, version, slots)
}
