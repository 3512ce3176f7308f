//! What a fetch of a page costs, over 1,024 frames: of one that is in its frame, of one that is read into the frame of a clean page, and of one
//! for which a changed page is written back first.
ghost use Rattle.std.specs.Prelude.{◌≡◌, ◌<◌, [], ◌∷◌};
ghost use Rattle.shore_pool.specs.Pools.{geometry_of};

use crate::host::Host;
use crate::layout::{page_id, volume};
use shore_disk::MemDisk;
use shore_pool::Pool;
use shore_types::{LogEnds, Lsn};
use std::alloc::{AllocError, Global};

/// The pages of the volume, twice as many as there are frames.
const PAGES: u32 = 2_048;

const FRAMES: usize = 1_024;

/// What a round does with a pool over a volume of 2,048 pages, on a device in memory.
#[derive(Clone, Copy)]
pub enum Work {
    /// Fetches a page that is in its frame.
    Hit,
    /// Fetches a page that is in none, while all frames are clean.
    Miss,
    /// Fetches such a page and changes it, while all frames are dirty.
    Steal,
}

/// Whether a page is in a frame now.
fn fetch(alloc: Global, pool: &mut Pool<MemDisk>, page: u32) -> bool
    requires stores { (geometry_of pool.old).stores ≡ 2048 ∷ [] }
    requires there { page < 2048 }
    ensures { geometry_of pool.new ≡ geometry_of pool.old }
{
    let ends = LogEnds {
        last: Lsn(u64::MAX),
        durable: Lsn(u64::MAX),
    };
    pool.fetch(alloc, page_id(page), &ends).is_ok()
}

/// Fetches a page and puts eight bytes into its first slot.
fn fetch_and_change(alloc: Global, pool: &mut Pool<MemDisk>, page: u32, lsn: u64) -> bool
    requires stores { (geometry_of pool.old).stores ≡ 2048 ∷ [] }
    requires there { page < 2048 }
    ensures { geometry_of pool.new ≡ geometry_of pool.old }
{
    if !fetch(alloc, pool, page) {
        return false;
    }
    let Some(found) = pool.page(page_id(page)) else {
        return false;
    };
    if !found.fits(0, 8) {
        return false;
    }
    pool.change(page_id(page), Lsn(lsn), 0, Some(&[7; 8]));
    true
}

/// How many of so many rounds were done. Pages are fetched in their order, so that each is long out of its frame when it comes again.
fn rounds_of(alloc: Global, pool: &mut Pool<MemDisk>, work: Work, rounds: u64) -> u64
    requires { (geometry_of pool.old).stores ≡ 2048 ∷ [] }
    ensures { geometry_of pool.new ≡ geometry_of pool.old }
{
    let mut done = 0u64;
    for round in 0..rounds {
        let page = (round % 2048) as u32;
        let is_done = match work {
            Work::Hit => fetch(alloc, pool, 0),
            Work::Miss => fetch(alloc, pool, page),
            Work::Steal => fetch_and_change(alloc, pool, page, round),
        };
        done = done.saturating_add(u64::from(is_done));
    }
    done
}

/// The nanoseconds of a round, and how many were done, once every frame was used.
pub fn measured(host: &Host, work: Work, rounds: u64) -> Result<(u64, u64), AllocError> {
    let alloc = host.alloc();
    let dev = volume(alloc, PAGES)?;
    match Pool::new(alloc, dev, FRAMES) {
        Ok(mut pool) => {
            rounds_of(alloc, &mut pool, work, u64::from(PAGES));
            let start = host.nanos();
            let done = rounds_of(alloc, &mut pool, work, rounds);
            Ok((host.nanos_of_a_round(start, rounds), done))
        }
        Err(_) => Ok((0, 0)),
    }
}
