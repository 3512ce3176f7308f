//! A device, in memory or over a file, that counts what is written to it.
use shore_disk::{AnyDisk, Disk, DiskFault, MemDisk, Pick};
use std::alloc::{AllocError, Global};

/// A device, and how many bytes have been written to it. One type for all works: with two, what a manager calls would be compiled otherwise than in a program that
/// has one.
#[derive(Drop)]
pub struct CountDisk {
    // The device.
    disk: AnyDisk,
    // How many bytes were written to it.
    written: u64,
}

impl CountDisk {
    /// A device of which no write has been counted yet.
    pub fn new(disk: AnyDisk) -> CountDisk {
        CountDisk { disk, written: 0 }
    }

    /// A device in memory of so many zeros.
    pub fn in_memory(alloc: Global, len: u64) -> Result<CountDisk, AllocError> {
        let disk = MemDisk::new(alloc, Vec::from_elem(alloc, 0u8, len as usize)?)?;
        Ok(CountDisk::new(AnyDisk::Memory(disk)))
    }

    /// The same device, of which no write has been counted yet.
    pub fn counted_anew(self) -> CountDisk {
        CountDisk::new(self.disk)
    }

    /// The bytes of all writes.
    pub fn written(&self) -> u64 {
        self.written
    }

    /// A loss of power. Of a file nothing is lost.
    pub fn crash(&mut self, pick: Pick) {
        self.disk.crash(pick);
    }
}

impl Disk for CountDisk {
    ghost use Rattle.std.specs.Prelude.{false};
    ghost use Rattle.std.proofs.lemmas.Bool.{false≢true};
    ghost use Rattle.bench_parts.specs.Devices.{counted_faults, counted_history};

    ghost is_honest = { λ _. false };

    ghost history = { counted_history };

    ghost faults = { counted_faults };

    fn len(&self) -> u64 {
        self.disk.len()
    }

    fn failures(&self) -> u64 {
        self.disk.failures()
    }

    fn read_at(&mut self, at: u64, out: &mut [u8]) -> Result<(), DiskFault> {
        self.disk.read_at(at, out)
    }

    fn write_at(&mut self, at: u64, bytes: &[u8]) -> Result<(), DiskFault> {
        self.written = self.written.saturating_add(bytes.len() as u64);
        self.disk.write_at(at, bytes)
    }

    fn sync(&mut self) -> Result<(), DiskFault> {
        self.disk.sync()
    }

    ghost keeps_length = { λ _ honest. absurd (false≢true honest) };
}
