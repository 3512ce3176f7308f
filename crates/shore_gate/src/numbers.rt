//! Numbers in bytes, the lowest byte first.
ghost use Rattle.std.specs.Prelude.{◌≡◌, ◌+◌, ◌*◌, ◌≤◌, length, IfOk};
ghost use Rattle.shore_gate.specs.Numbers.{number_at, numbers_at, are_zero};

use byteorder::{ByteOrder, LittleEndian};
use std::alloc::{AllocError, Global};

#[tactic(auto, unfolding(crate::specs::Numbers::number_at))]
pub fn u16_at(bytes: &[u8], offset: usize) -> u16
    requires { offset + 2 ≤ length bytes.now }
    ensures { result ≡ number_at bytes.now offset 2 }
{
    LittleEndian::read_u16(&bytes[offset..])
}

#[tactic(auto, unfolding(crate::specs::Numbers::number_at))]
pub fn u32_at(bytes: &[u8], offset: usize) -> u32
    requires { offset + 4 ≤ length bytes.now }
    ensures { result ≡ number_at bytes.now offset 4 }
{
    LittleEndian::read_u32(&bytes[offset..])
}

#[tactic(auto, unfolding(crate::specs::Numbers::number_at))]
pub fn u64_at(bytes: &[u8], offset: usize) -> u64
    requires { offset + 8 ≤ length bytes.now }
    ensures { result ≡ number_at bytes.now offset 8 }
{
    LittleEndian::read_u64(&bytes[offset..])
}

/// So many numbers of four bytes each, one after another.
#[tactic(auto, using(crate::proofs::NumberLemmas::numbers_at_more))]
pub fn u32s_at(
    alloc: Global,
    bytes: &[u8],
    offset: usize,
    count: usize,
) -> Result<Vec<u32>, AllocError>
    requires { offset + 4 * count ≤ length bytes.now }
    ensures { IfOk result (λ numbers. numbers.items ≡ numbers_at bytes.now offset count) }
{
    let mut numbers = Vec::with_capacity(alloc, count)?;
    for i in 0..count {
        numbers.push(u32_at(bytes, offset + 4 * i))?;
    }
    Ok(numbers)
}

#[tactic(auto, unfolding(crate::specs::Numbers::are_zero))]
pub fn are_zero(bytes: &[u8]) -> bool
    ensures { result ≡ are_zero bytes.now }
{
    bytes.iter().all(|byte| *byte == 0)
}
