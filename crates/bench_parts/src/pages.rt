//! What a page costs.
use crate::host::Host;
use shore_page::Page;
use shore_types::{PageId, StoreId, Version};
use std::alloc::{AllocError, Global};

const ID: PageId = PageId {
    store: StoreId(0),
    page: 0,
};

const VERSION: Version = Version::One;

const RECORD: [u8; 100] = [0xaa; 100];

/// What a round does with one page.
#[derive(Clone, Copy)]
pub enum Work {
    /// Makes an empty page, in new memory.
    New,
    /// Makes one, and puts as many records into it as fit.
    Fill,
    /// Gets each record.
    Get,
    /// Writes the page's text.
    Write,
    /// Reads the page from its text.
    Read,
    /// Puts a shorter record in place of the first, and then the first again, for which the others have to be moved together.
    Compact,
}

pub fn filled(alloc: Global) -> Result<Page, AllocError> {
    let mut page = Page::new(alloc, VERSION, ID)?;
    for slot in 0..VERSION.slot_limit() {
        if !put(&mut page, slot, &RECORD) {
            break;
        }
    }
    Ok(page)
}

/// Whether a record fits. If so it is put into a slot.
fn put(page: &mut Page, slot: u16, bytes: &[u8]) -> bool {
    let fits = page.fits(slot, bytes.len());
    if fits {
        page.put(slot, bytes);
    }
    fits
}

/// The bytes of all records of a page.
fn bytes_of(page: &Page) -> usize {
    let mut bytes = 0usize;
    for slot in 0..page.slot_count() {
        if let Some(image) = page.get(slot) {
            bytes = bytes.wrapping_add(image.len());
        }
    }
    bytes
}

/// One round, on a page that is full and on its text. It answers a number that hangs on what was done.
fn round(alloc: Global, work: Work, page: &mut Page, text: &mut [u8]) -> Result<usize, AllocError> {
    match work {
        Work::New => Ok(Page::new(alloc, VERSION, ID)?.free_bytes()),
        Work::Fill => Ok(filled(alloc)?.free_bytes()),
        Work::Get => Ok(bytes_of(page)),
        Work::Write => {
            if text.len() != page.version().page_bytes() {
                return Ok(0);
            }
            page.to_bytes(text);
            Ok(text.get(24).map_or(0, |byte| usize::from(*byte)))
        }
        Work::Read => match Page::from_bytes(alloc, VERSION, ID, text)? {
            Some(page) => Ok(page.free_bytes()),
            None => Ok(0),
        },
        Work::Compact => {
            put(page, 0, &RECORD[..99]);
            put(page, 0, &RECORD);
            Ok(page.free_bytes())
        }
    }
}

/// The nanoseconds of a round, and the sum of them all. A round for which there is no memory counts nothing.
pub fn measured(host: &Host, work: Work, rounds: u64) -> Result<(u64, u64), AllocError> {
    let mut page = filled(host.alloc())?;
    let mut text = page.text().to_vec(host.alloc())?;
    let start = host.nanos();
    let mut sum = 0u64;
    for _ in 0..rounds {
        if let Ok(number) = round(host.alloc(), work, &mut page, &mut text) {
            sum = sum.wrapping_add(number as u64);
        }
    }
    Ok((host.nanos_of_a_round(start, rounds), sum))
}
