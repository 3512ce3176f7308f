//! What a batch of pages costs, and the read of a page.
ghost use Rattle.std.specs.Prelude.{◌≡◌, [], ◌∷◌, length, IfOk};
ghost use Rattle.shore_dwrite.specs.Images.{numbers_of, texts_of, version_of};
ghost use Rattle.shore_dwrite.specs.Settled.{geometry_of};
ghost use Rattle.shore_dwrite.specs.Shown.{IsBatch};
ghost use Rattle.shore_types.specs.declared.layout.Geometry.{Geometry};
ghost use Rattle.shore_types.specs.declared.versions.Version.TheVariants as Version;

use crate::host::Host;
use crate::layout::{page_id, volume};
use shore_disk::MemDisk;
use shore_dwrite::{PageDev, PageImages};
use shore_page::Page;
use shore_types::{Lsn, Version};
use std::alloc::{AllocError, Global};

/// The pages of the volume, all of which make one batch.
const PAGES: u32 = 32;

/// What a round does with a volume of 32 pages, on a device in memory.
#[derive(Clone, Copy)]
pub enum Work {
    /// Copies the texts of all pages.
    Copy,
    /// Writes all pages as one batch.
    Batch,
    /// Reads a page.
    Load,
}

fn empty_page(alloc: Global, page: u32) -> Result<Page, AllocError>
    ensures id { IfOk result (λ made. made.id ≡ record { store = 0; page = page }) }
    ensures version { IfOk result (λ made. made.version ≡ Version.One) }
{
    Page::new(alloc, Version::One, page_id(page))
}

/// All pages, with no record.
fn all_pages(alloc: Global) -> Result<PageImages, AllocError>
    ensures batch { (g : Geometry) → g.stores ≡ 32 ∷ [] → g.version ≡ Version.One → IfOk result (λ images. IsBatch g (numbers_of images) (texts_of images)) }
    ensures version { IfOk result (λ images. version_of images ≡ Version.One) }
{
    let mut images = PageImages::new(alloc, Version::One)?;
    for page in 0..PAGES {
        images.push(page, empty_page(alloc, page)?.text())?;
    }
    Ok(images)
}

/// One round, of which the last one's byte or whether it was done is counted.
fn round_of(
    alloc: Global,
    dev: &mut PageDev<MemDisk>,
    images: &PageImages,
    copy: &mut [u8],
    work: Work,
    round: u64,
) -> u64
    requires stores { (geometry_of dev.old).stores ≡ 32 ∷ [] }
    requires version { version_of images.now ≡ (geometry_of dev.old).version }
    requires batch { IsBatch (geometry_of dev.old) (numbers_of images.now) (texts_of images.now) }
    requires whole { length copy.old ≡ length (texts_of images.now) }
    ensures geometry { geometry_of dev.new ≡ geometry_of dev.old }
    ensures whole { length copy.new ≡ length copy.old }
{
    match work {
        Work::Copy => {
            copy.copy_from_slice(images.bytes());
            match copy.get((round % 1024) as usize) {
                Some(byte) => u64::from(*byte),
                None => 0,
            }
        }
        Work::Batch => u64::from(dev.write_batch(images).is_ok()),
        Work::Load => {
            let page = page_id((round % 32) as u32);
            u64::from(dev.read_page(alloc, page, Lsn(0)).is_ok())
        }
    }
}

/// The nanoseconds of a round, and how many were done or a sum of bytes, on a volume that has all pages.
pub fn measured(host: &Host, work: Work, rounds: u64) -> Result<(u64, u64), AllocError> {
    let images = all_pages(host.alloc())?;
    let mut copy = images.bytes().to_vec(host.alloc())?;
    let mut dev = volume(host.alloc(), PAGES)?;
    Ok(timed(host, &mut dev, &images, &mut copy, work, rounds))
}

fn timed(
    host: &Host,
    dev: &mut PageDev<MemDisk>,
    images: &PageImages,
    copy: &mut [u8],
    work: Work,
    rounds: u64,
) -> (u64, u64)
    requires stores { (geometry_of dev.old).stores ≡ 32 ∷ [] }
    requires version { version_of images.now ≡ (geometry_of dev.old).version }
    requires batch { IsBatch (geometry_of dev.old) (numbers_of images.now) (texts_of images.now) }
    requires whole { length copy.old ≡ length (texts_of images.now) }
{
    let start = host.nanos();
    let mut sum = 0u64;
    for round in 0..rounds {
        sum = sum.wrapping_add(round_of(host.alloc(), dev, images, copy, work, round));
    }
    (host.nanos_of_a_round(start, rounds), sum)
}
