//! A device in memory or over a file, for one who learns as it runs which it is to be.
ghost use Rattle.std.specs.Prelude.{◌≡◌, []};

use crate::{Disk, DiskFault, FileDisk, MemDisk, Pick};

/// A device in memory or over a file. It is honest if it is in memory.
#[derive(Drop)]
pub enum AnyDisk {
    Memory(MemDisk),
    File(FileDisk),
}

impl AnyDisk {
    ghost use Rattle.std.specs.Prelude.{IsTrue};
    ghost use Rattle.shore_disk.specs.Device.{may_leave, size};
    ghost use Rattle.shore_disk.specs.Memory.{picked_after};
    ghost use Rattle.shore_disk.specs.AnyDisk.{is_in_memory, any_failed_sync, any_history, any_failures};

    /// Whether it is over a file of which a sync has failed, as `FileDisk` tells it.
    pub fn has_failed_sync(&self) -> bool
        ensures { result ≡ any_failed_sync self.now }
    {
        match self {
            AnyDisk::Memory(_) => false,
            AnyDisk::File(disk) => disk.has_failed_sync(),
        }
    }

    /// A loss of power. Of a file nothing is lost.
    pub fn crash(&mut self, pick: Pick)
        ensures picked { IsTrue (is_in_memory self.old)
            → any_history self.new ≡ record { first = picked_after pick (any_history self.old).first (any_history self.old).calls; calls = [] } }
        ensures left { IsTrue (is_in_memory self.old) → may_leave (any_history self.old) (any_history self.new).first }
        ensures kept { ¬ IsTrue (is_in_memory self.old) → self.new ≡ self.old }
        ensures size { size (any_history self.new) ≡ size (any_history self.old) }
        ensures honest { is_in_memory self.new ≡ is_in_memory self.old }
        ensures failures { any_failures self.new ≡ any_failures self.old }
    {
        if let AnyDisk::Memory(disk) = self {
            disk.crash(pick);
        }
    }
}

impl Disk for AnyDisk {
    ghost use Rattle.std.specs.Prelude.{IsTrue, length, refl};
    ghost use Rattle.std.proofs.Common.{ap, sym, ◌∙◌};
    ghost use Rattle.shore_disk.specs.Device.{seen, size};
    ghost use Rattle.shore_disk.specs.AnyDisk.{is_in_memory, any_history, any_failures};
    ghost use Rattle.shore_disk.specs.declared.any.AnyDisk.TheVariants as any;

    ghost is_honest = { is_in_memory };

    ghost history = { any_history };

    ghost faults = { any_failures };

    fn len(&self) -> u64 {
        match self {
            AnyDisk::Memory(disk) => disk.len(),
            AnyDisk::File(disk) => disk.len(),
        }
    }

    fn failures(&self) -> u64 {
        match self {
            AnyDisk::Memory(disk) => disk.failures(),
            AnyDisk::File(disk) => disk.failures(),
        }
    }

    fn read_at(&mut self, at: u64, out: &mut [u8]) -> Result<(), DiskFault> {
        match self {
            AnyDisk::Memory(disk) => disk.read_at(at, out),
            AnyDisk::File(disk) => disk.read_at(at, out),
        }
    }

    fn write_at(&mut self, at: u64, bytes: &[u8]) -> Result<(), DiskFault> {
        match self {
            AnyDisk::Memory(disk) => disk.write_at(at, bytes),
            AnyDisk::File(disk) => disk.write_at(at, bytes),
        }
    }

    fn sync(&mut self) -> Result<(), DiskFault> {
        match self {
            AnyDisk::Memory(disk) => disk.sync(),
            AnyDisk::File(disk) => disk.sync(),
        }
    }

    ghost keeps_length = { λ device. elim device as (λ d. IsTrue (is_in_memory d) → length (seen (any_history d)) ≡ size (any_history d))
        [ any.Memory d ↦ λ _. ap length (sym d.seen) ∙ d.as_long | any.File d ↦ λ _. refl ] };
}
