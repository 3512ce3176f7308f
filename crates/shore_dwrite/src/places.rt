//! Where things are on a volume.
ghost use Rattle.std.specs.Prelude.{◌≡◌, ◌<◌, ◌≤◌, length};
ghost use Rattle.shore_types.specs.Layout.{HasPage};
ghost use Rattle.shore_types.specs.declared.layout.TheConstants.{MAX_PAGES, MAX_STORES};
ghost use Rattle.shore_dwrite.specs.Volumes.{AreFirsts, page_count, page_number, page_offset};

use shore_types::layout::MAX_STORES;
use shore_types::{Geometry, PageId, StoreId, Version};

/// The offset of the gate of the double-write area.
pub const GATE_AT: u64 = 4096;
/// The offset of its table: how many pages it has images of, and their numbers.
pub const TABLE_AT: u64 = 4100;
/// The bytes of the table.
pub const TABLE_BYTES: usize = 132;
/// The offset of the images.
pub const AREA_AT: u64 = 8192;

/// The offset of the page of a number.
pub fn page_offset(version: Version, number: u32) -> u64
    ensures { result ≡ page_offset version number }
{
    version.pages_begin() + version.page_bytes() as u64 * u64::from(number)
}

/// For each store the number of its first page on the volume: the pages of all stores before it come before that.
pub fn first_numbers(geometry: &Geometry) -> [u32; MAX_STORES]
    requires few { page_count geometry.now ≤ MAX_PAGES }
    requires few_stores { length geometry.now.stores ≤ MAX_STORES }
    ensures { AreFirsts geometry.now.stores result }
{
    let stores = geometry.stores.as_slice();
    let mut firsts = [0; MAX_STORES];
    let mut number = 0;
    for store in 0..stores.len() {
        firsts[store] = number;
        number += stores[store];
    }
    firsts
}

/// How many pages a volume has.
pub fn page_count(geometry: &Geometry) -> u32
    requires { page_count geometry.now ≤ MAX_PAGES }
    ensures { result ≡ page_count geometry.now }
{
    let mut count = 0;
    for pages in geometry.stores.as_slice() {
        count += *pages;
    }
    count
}

/// The page of a number on the volume.
pub fn page_of(geometry: &Geometry, number: u32) -> PageId
    requires within { number < page_count geometry.now }
    requires few { length geometry.now.stores ≤ MAX_STORES }
    ensures there { HasPage geometry.now result }
    ensures number { page_number geometry.now result ≡ number }
{
    let stores = geometry.stores.as_slice();
    let mut page = number;
    let mut store = 0;
    while page >= stores[store] {
        page -= stores[store];
        store += 1;
    }
    PageId {
        store: StoreId(store as u32),
        page,
    }
}
