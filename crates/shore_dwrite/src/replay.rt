//! The checks of a double-write area, before it is laid into place.
ghost use Rattle.std.specs.Prelude.{◌≡◌, ◌⊎◌, ◌+◌, ◌-◌, ◌*◌, ◌<◌, ◌≤◌, ℕ, All, length, IfErr, IfOk, OnOk, Ok, Err, IsTrue, false};
ghost use Rattle.shore_types.specs.declared.faults.Device.TheVariants as Device;
ghost use Rattle.shore_types.specs.declared.faults.Fault.TheVariants as Fault;
ghost use Rattle.shore_types.specs.declared.layout.TheConstants.{MAX_BATCH_PAGES, MAX_STORES};
ghost use Rattle.shore_types.specs.Versions.{page_bytes};
ghost use Rattle.shore_dwrite.specs.declared.places.TheConstants.{AREA_AT, TABLE_AT, TABLE_BYTES};
ghost use Rattle.shore_dwrite.specs.Checks.{HasEntries, IsFirstBad, page_verdict, zero_verdict, table_verdict};
ghost use Rattle.shore_dwrite.specs.Shown.{AreImages, RiseFrom};
ghost use Rattle.shore_dwrite.specs.Volumes.{IsImageOf, page_count};
ghost use Rattle.shore_dwrite.specs.Tables.{IsTable, cell};

use crate::places::{AREA_AT, TABLE_AT, TABLE_BYTES, page_of};
use byteorder::{ByteOrder, LittleEndian};
use shore_page::Page;
use shore_types::layout::MAX_BATCH_PAGES;
use shore_types::{Device, Fault, Geometry};
use std::alloc::{AllocError, Global};

// The number in a cell of four bytes.
fn cell_at(table: &[u8], i: usize) -> u32
    requires { 4 * i + 4 ≤ length table.now }
    ensures { result ≡ cell i table.now }
{
    LittleEndian::read_u32(&table[4 * i..4 * i + 4])
}

/// The pages that a table names. `Damaged` at the table if it counts none or too many, and at the first entry that does not rise, is not on
/// a volume of so many pages, or is behind the last and not zero. `Memory` if an allocation failed.
#[tactic(auto, unfolding(crate::specs::Checks::table_verdict))]
pub fn read_table(alloc: Global, table: &[u8], pages: u32) -> Result<Vec<u32>, Fault>
    requires { length table.now ≡ TABLE_BYTES }
    ensures passed { IfOk result (λ numbers. IsTable table.now numbers.items) }
    ensures count { IfOk result (λ numbers. (1 ≤ length numbers.items) × (length numbers.items ≤ MAX_BATCH_PAGES)) }
    ensures rise { IfOk result (λ numbers. RiseFrom 0 numbers.items) }
    ensures on_volume { IfOk result (λ numbers. All (λ k. k < pages) numbers.items) }
    ensures verdict { OnOk result (table_verdict pages table.now ≡ Ok tt) }
    ensures refused { IfErr result (λ fault. (fault ≡ Fault.Memory) ⊎ (table_verdict pages table.now ≡ Err fault)) }
    ensures kinds { IfErr result (λ fault. (fault ≡ Fault.Memory) ⊎ ((place : ℕ) × (fault ≡ Fault.Damaged Device.Volume place))) }
{
    let count = cell_at(table, 0) as usize;
    if count == 0 || count > MAX_BATCH_PAGES {
        return Err(Fault::damaged(Device::Volume, TABLE_AT));
    }
    let numbers = read_entries(alloc, table, count, pages)?;
    check_unused(table, count)?;
    Ok(numbers)
}

// The numbers of so many entries.
fn read_entries(alloc: Global, table: &[u8], count: usize, pages: u32) -> Result<Vec<u32>, Fault>
    requires whole { length table.now ≡ TABLE_BYTES }
    requires few { count ≤ MAX_BATCH_PAGES }
    ensures entries { IfOk result (HasEntries table.now pages count) }
    ensures verdict { OnOk result (page_verdict pages table.now 0 0 count ≡ Ok tt) }
    ensures refused { IfErr result (λ fault. (fault ≡ Fault.Memory) ⊎ (page_verdict pages table.now 0 0 count ≡ Err fault)) }
    ensures kinds { IfErr result (λ fault. (fault ≡ Fault.Memory) ⊎ ((place : ℕ) × (fault ≡ Fault.Damaged Device.Volume place))) }
{
    let mut numbers = Vec::with_capacity(alloc, count)?;
    let mut low = 0;
    for i in 0..count {
        let number = cell_at(table, i + 1);
        if u64::from(number) < low || number >= pages {
            return Err(Fault::damaged(Device::Volume, entry_at(i)));
        }
        numbers.push(number)?;
        low = u64::from(number) + 1;
    }
    Ok(numbers)
}

// Whether each entry from an index on is zero.
fn check_unused(table: &[u8], count: usize) -> Result<(), Fault>
    requires whole { length table.now ≡ TABLE_BYTES }
    requires few { count ≤ MAX_BATCH_PAGES }
    ensures verdict { result ≡ zero_verdict table.now count (MAX_BATCH_PAGES - count) }
    ensures kinds { IfErr result (λ fault. (place : ℕ) × (fault ≡ Fault.Damaged Device.Volume place)) }
{
    for i in count..MAX_BATCH_PAGES {
        if cell_at(table, i + 1) != 0 {
            return Err(Fault::damaged(Device::Volume, entry_at(i)));
        }
    }
    Ok(())
}

// The offset of the entry at an index.
fn entry_at(i: usize) -> u64
    requires { i < MAX_BATCH_PAGES }
    ensures { result ≡ TABLE_AT + 4 * (i + 1) }
{
    TABLE_AT + 4 * (i as u64 + 1)
}

/// Checks that the bytes are a text of each of these pages, one behind another. `Damaged` at the first that is none, as it lies in the area;
/// `Memory` if an allocation failed.
pub fn check_images(
    alloc: Global,
    geometry: &Geometry,
    numbers: &[u32],
    bytes: &[u8],
) -> Result<(), Fault>
    requires whole { length bytes.now ≡ page_bytes geometry.now.version * length numbers.now }
    requires most { length numbers.now ≤ MAX_BATCH_PAGES }
    requires on_volume { All (λ k. k < page_count geometry.now) numbers.now }
    requires few { length geometry.now.stores ≤ MAX_STORES }
    ensures passed { OnOk result (AreImages geometry.now numbers.now bytes.now) }
    ensures refused { IfErr result (λ fault. (fault ≡ Fault.Memory)
        ⊎ ((i : ℕ) × IsFirstBad geometry.now numbers.now bytes.now i × (fault ≡ Fault.Damaged Device.Volume (AREA_AT + page_bytes geometry.now.version * i)))) }
{
    let size = geometry.version.page_bytes();
    for i in 0..numbers.len() {
        let text = &bytes[size * i..size * (i + 1)];
        if !is_image(alloc, geometry, numbers[i], text)? {
            return Err(Fault::damaged(Device::Volume, AREA_AT + size as u64 * i as u64));
        }
    }
    Ok(())
}

// Whether the bytes are a text of the page of a number.
fn is_image(
    alloc: Global,
    geometry: &Geometry,
    number: u32,
    bytes: &[u8],
) -> Result<bool, AllocError>
    requires on_volume { number < page_count geometry.now }
    requires few { length geometry.now.stores ≤ MAX_STORES }
    ensures yes { IfOk result (λ is. IsTrue is → IsImageOf geometry.now number bytes.now) }
    ensures no { IfOk result (λ is. is ≡ false → IsImageOf geometry.now number bytes.now → ⊥) }
{
    let id = page_of(geometry, number);
    Ok(Page::from_bytes(alloc, geometry.version, id, bytes)?.is_some())
}
