//! The records that works with a manager make: of a hundred bytes, or of some size with a number in them.
use crate::layout::record_id;
use shore_types::{Bytes, Rid, Sequence};
use std::alloc::{AllocError, Global};

/// How many records of a hundred bytes a page takes.
const RECORDS_OF_A_PAGE: u64 = 78;

const RECORD: [u8; 100] = [0x5A; 100];

/// One of the first thousand records of a hundred bytes.
pub fn record_of(round: u64) -> Rid {
    let number = round % 1_000;
    let (page, slot) = (number / RECORDS_OF_A_PAGE, number % RECORDS_OF_A_PAGE);
    record_id(page as u32, slot as u16)
}

/// A hundred bytes, copied from a record at hand: filled one by one they would cost more than a call.
pub fn hundred_bytes(alloc: Global) -> Result<Bytes, AllocError> {
    Ok(Sequence::from_vec(Vec::from_slice(alloc, &RECORD)?))
}

/// So many bytes, of which the first eight tell a number.
pub fn numbered(alloc: Global, number: u64, size: usize) -> Result<Bytes, AllocError> {
    let mut bytes = Vec::from_elem(alloc, 0xaau8, size)?;
    let told = number.to_le_bytes();
    let shown = told.len().min(size);
    bytes[..shown].copy_from_slice(&told[..shown]);
    Ok(Sequence::from_vec(bytes))
}
