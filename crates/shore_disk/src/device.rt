//! A device of fixed length, and the model of a disk that the crates above are proved against.
ghost use Rattle.std.specs.Prelude.{◌≡◌, ◌+◌, ◌≤◌, Bool, ℕ, length, take, drop, IsTrue, OnOk};
ghost use Rattle.shore_disk.specs.Device.{DeviceHistory, size, seen, Writes, Syncs, CountsFault};

use shore_types::Fault;
use thiserror::Error;

/// A call of a device failed. A write that failed may have left any bytes in its range; a read or a sync that
/// failed did nothing.
#[derive(Clone, Copy, Debug, PartialEq, Eq, Error)]
#[error("the device failed")]
pub struct DiskFault;

impl From<DiskFault> for Fault {
    ghost use Rattle.shore_types.specs.declared.faults.Fault.TheVariants.{Device};

    ghost from_gives = { λ _ fault. fault ≡ Device };

    fn from(_: DiskFault) -> Self {
        Fault::Device
    }
}

/// A device of fixed length that may lose power. Places and lengths are in bytes.
///
/// Between two successful syncs each range written may hold any bytes after a loss of power, and all other bytes
/// stay. After a successful sync a crash leaves what a read gives. An error tells nothing of later calls.
pub trait Disk {
    /// Whether what is said here of its bytes holds of it.
    ghost is_honest: { Self → Bool };

    /// The bytes at first, and the calls since. Of a device that is not honest it tells the length alone.
    ghost history: { Self → DeviceHistory };

    /// What `failures` answers.
    ghost faults: { Self → ℕ };

    /// The length, which no call changes.
    fn len(&self) -> u64
        ensures { result ≡ size (history self.now) };

    /// How many calls have failed, up to 2^64 - 1.
    fn failures(&self) -> u64
        ensures { result ≡ faults self.now };

    /// Fills `out` with the bytes at an offset.
    fn read_at(&mut self, at: u64, out: &mut [u8]) -> Result<(), DiskFault>
        requires { at + length out.old ≤ size (history self.old) }
        ensures read { IsTrue (is_honest self.old) → OnOk result (out.new ≡ take (length out.old) (drop at (seen (history self.old)))) }
        ensures same { IsTrue (is_honest self.old) → history self.new ≡ history self.old }
        ensures honest { is_honest self.new ≡ is_honest self.old }
        ensures size { size (history self.new) ≡ size (history self.old) }
        ensures cause { CountsFault result (faults self.old) (faults self.new) };

    /// Writes bytes at an offset.
    fn write_at(&mut self, at: u64, bytes: &[u8]) -> Result<(), DiskFault>
        requires { at + length bytes.now ≤ size (history self.old) }
        ensures written { IsTrue (is_honest self.old) → Writes at bytes.now result (history self.old) (history self.new) }
        ensures honest { is_honest self.new ≡ is_honest self.old }
        ensures size { size (history self.new) ≡ size (history self.old) }
        ensures cause { CountsFault result (faults self.old) (faults self.new) };

    /// After it a crash leaves what a read gives.
    fn sync(&mut self) -> Result<(), DiskFault>
        ensures synced { IsTrue (is_honest self.old) → Syncs result (history self.old) (history self.new) }
        ensures honest { is_honest self.new ≡ is_honest self.old }
        ensures size { size (history self.new) ≡ size (history self.old) }
        ensures cause { CountsFault result (faults self.old) (faults self.new) };

    /// An honest device reads as many bytes as it is long.
    ghost keeps_length: { (device : Self) → IsTrue (is_honest device) → length (seen (history device)) ≡ size (history device) };
}
