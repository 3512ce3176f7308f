//! What the works share: the ids of pages and records, and volumes with one store.
ghost use Rattle.std.specs.Prelude.{◌≡◌, ◌≤◌, [], ◌∷◌, IfOk};
ghost use Rattle.shore_dwrite.specs.Settled.{geometry_of};
ghost use Rattle.shore_types.specs.declared.layout.TheConstants.{MAX_PAGES};
ghost use Rattle.shore_types.specs.declared.versions.Version.TheVariants as Version;

use shore_disk::MemDisk;
use shore_dwrite::PageDev;
use shore_page::Page;
use shore_types::layout::{MAX_LOG_BYTES, PAGE_HEADER_BYTES, SLOT_ENTRY_BYTES};
use shore_types::{Geometry, PageId, Rid, Sequence, StoreId, Version};
use std::alloc::{AllocError, Global};

/// The one store.
pub const STORE: StoreId = StoreId(0);

/// The bytes of a log that are there for each call beside those of its images: of its record and its undo's, and of a commit.
const BYTES_OF_A_CALL: u64 = 600;

pub fn page_id(page: u32) -> PageId
    ensures { result ≡ record { store = 0; page = page } }
{
    PageId { store: STORE, page }
}

pub fn record_id(page: u32, slot: u16) -> Rid {
    Rid {
        page: page_id(page),
        slot,
    }
}

/// One store of so many pages.
pub fn geometry(alloc: Global, max_locks: u32, pages: u32) -> Result<Geometry, AllocError>
    ensures stores { IfOk result (λ g. g.stores ≡ pages ∷ []) }
    ensures version { IfOk result (λ g. g.version ≡ Version.One) }
{
    Ok(Geometry {
        version: Version::One,
        pair: 1,
        max_locks,
        stores: Sequence::from_vec(vec![in alloc; pages]?),
    })
}

/// How long a volume of so many pages is.
pub fn volume_bytes(pages: u32) -> u64 {
    let version = Version::One;
    version.pages_begin() + version.page_bytes() as u64 * u64::from(pages)
}

/// Enough pages for so many records of a size, and one more for a few of them more.
pub fn pages_for(count: u64, size: usize) -> u32 {
    let room = Version::One.page_bytes() - PAGE_HEADER_BYTES;
    let of_a_page = room / size.saturating_add(SLOT_ENTRY_BYTES).max(1);
    let pages = count / (of_a_page as u64).max(1);
    u32::from(u16::try_from(pages).unwrap_or(u16::MAX)) + 1
}

/// Enough bytes of a log for so many calls, with room for the undo of all, as far as a log may be so long.
pub fn log_bytes_for(count: u64, size: usize) -> u64 {
    let images = (size as u64).saturating_mul(4);
    let bytes = count.saturating_mul(images.saturating_add(BYTES_OF_A_CALL));
    bytes.saturating_add(1 << 20).min(MAX_LOG_BYTES)
}

/// A volume in memory of so many pages, with no record.
pub fn volume(alloc: Global, pages: u32) -> Result<PageDev<MemDisk>, AllocError>
    requires { pages ≤ MAX_PAGES }
    ensures stores { IfOk result (λ dev. (geometry_of dev).stores ≡ pages ∷ []) }
    ensures version { IfOk result (λ dev. (geometry_of dev).version ≡ Version.One) }
{
    let mut bytes = Vec::from_elem(alloc, 0u8, Version::One.pages_begin() as usize)?;
    for page in 0..pages {
        bytes.extend_from_slice(Page::new(alloc, Version::One, page_id(page))?.text())?;
    }
    let disk = MemDisk::new(alloc, bytes)?;
    Ok(PageDev::new(disk, geometry(alloc, 1_024, pages)?))
}
