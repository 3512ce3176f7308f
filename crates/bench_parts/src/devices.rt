//! What a device in memory costs.
use crate::host::Host;
use shore_disk::{Disk, DiskFault, MemDisk, Pick};
use std::alloc::AllocError;

/// The bytes of the device.
const DEVICE_BYTES: u64 = 1 << 24;

/// A frame with two records.
const FRAME: [u8; 71] = [0x39; 71];

/// What a round does with a device of 16 MB.
#[derive(Clone, Copy)]
pub enum Work {
    /// The four calls of a force: a write and a sync, twice.
    Force,
    /// These, and a loss of power.
    Crash,
}

/// The test of what a write asks, and the call.
fn put(disk: &mut MemDisk, at: u64, bytes: &[u8]) -> Result<(), DiskFault> {
    if at > DEVICE_BYTES || bytes.len() > 100 || at + bytes.len() as u64 > disk.len() {
        return Err(DiskFault);
    }
    disk.write_at(at, bytes)
}

/// A frame behind its shut gate, and the gate.
fn force(disk: &mut MemDisk, at: u64) -> Result<(), DiskFault> {
    put(disk, at, &FRAME)?;
    disk.sync()?;
    put(disk, at, &[0xa5])?;
    disk.sync()
}

/// The nanoseconds of a round, and how many were done, at one place after another.
pub fn measured(host: &Host, work: Work, rounds: u64) -> Result<(u64, u64), AllocError> {
    let zeros = Vec::from_elem(host.alloc(), 0u8, DEVICE_BYTES as usize)?;
    let mut disk = MemDisk::new(host.alloc(), zeros)?;
    let start = host.nanos();
    let mut done = 0u64;
    for round in 0..rounds {
        let is_done = force(&mut disk, (round & 0xffff) * 128).is_ok();
        done = done.saturating_add(u64::from(is_done));
        if matches!(work, Work::Crash) {
            disk.crash(Pick::Noise);
        }
    }
    Ok((host.nanos_of_a_round(start, rounds), done))
}
