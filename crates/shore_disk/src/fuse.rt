//! A device that fails from a chosen call on.
ghost use Rattle.std.specs.Prelude.{◌≡◌, ◌+◌, ◌-◌, ◌^◌, ◌<◌, ◌≤◌, min, length, take, drop, IsTrue, IsErr, OnOk};
ghost use Rattle.shore_disk.specs.Device.{size, seen, Writes, Syncs, CountsFault};

use crate::{Disk, DiskFault};

/// A device that passes so many writes and syncs, and of which each call, reads too, fails after them. It is honest as the
/// device inside.
#[derive(Drop)]
pub struct FuseDisk<D: Disk> {
    // The device that the calls are passed on to.
    inner: D,
    // How many writes and syncs still pass.
    calls_left: u64,
    // How many calls were refused here.
    refused: u64,
}

impl<D: Disk> FuseDisk<D> {
    ghost use Rattle.shore_disk.specs.Fuse.{fuse_inner, fuse_refused, fuse_calls};

    pub fn new(inner: D, calls: u64) -> FuseDisk<D>
        ensures inner { fuse_inner result ≡ inner }
        ensures calls { fuse_calls result ≡ calls }
        ensures refused { fuse_refused result ≡ 0 }
    {
        FuseDisk {
            inner,
            calls_left: calls,
            refused: 0,
        }
    }

    /// The device that the calls are passed on to.
    pub fn inner(&self) -> &D
        ensures { result.now ≡ fuse_inner self.now }
    {
        &self.inner
    }

    /// How many more writes and syncs pass.
    pub fn calls_left(&self) -> u64
        ensures { result ≡ fuse_calls self.now }
    {
        self.calls_left
    }

    /// Lets so many more writes and syncs pass, whatever was left before.
    pub fn set_calls(&mut self, calls: u64)
        ensures inner { fuse_inner self.new ≡ fuse_inner self.old }
        ensures calls { fuse_calls self.new ≡ calls }
        ensures refused { fuse_refused self.new ≡ fuse_refused self.old }
    {
        self.calls_left = calls;
    }

    pub fn into_inner(self) -> D
        ensures { result ≡ fuse_inner self }
    {
        self.inner
    }
}

/// Counts a call that is not passed on.
pub fn refuse(refused: &mut u64) -> Result<(), DiskFault>
    ensures fails { IsErr result }
    ensures count { CountsFault result refused.old refused.new }
    ensures one { refused.new ≡ min (refused.old + 1) (2 ^ 64 - 1) }
{
    *refused = refused.saturating_add(1);
    Err(DiskFault)
}

impl<D: Disk> Disk for FuseDisk<D> {
    ghost use Rattle.shore_disk.specs.Fuse.{fuse_inner, fuse_calls, fuse_faults};

    ghost is_honest = { λ f. D.Disk.is_honest (fuse_inner f) };

    ghost history = { λ f. D.Disk.history (fuse_inner f) };

    ghost faults = { fuse_faults D.Disk.faults };

    fn len(&self) -> u64 {
        self.inner.len()
    }

    fn failures(&self) -> u64 {
        self.inner.failures().saturating_add(self.refused)
    }

    fn read_at(&mut self, at: u64, out: &mut [u8]) -> Result<(), DiskFault>
        requires { at + length out.old ≤ size (D.history (fuse_inner self.old)) }
        // After its writes and syncs the fuse fails, and what is behind it is not reached.
        ensures blown { fuse_calls self.old ≡ 0 → IsErr result × (fuse_inner self.new ≡ fuse_inner self.old) }
        ensures passed { 0 < fuse_calls self.old → CountsFault result (D.faults (fuse_inner self.old)) (D.faults (fuse_inner self.new)) }
        ensures calls { fuse_calls self.new ≡ fuse_calls self.old }
        ensures read { IsTrue (D.is_honest (fuse_inner self.old))
            → OnOk result (out.new ≡ take (length out.old) (drop at (seen (D.history (fuse_inner self.old))))) }
        ensures same { IsTrue (D.is_honest (fuse_inner self.old)) → D.history (fuse_inner self.new) ≡ D.history (fuse_inner self.old) }
        ensures honest { D.is_honest (fuse_inner self.new) ≡ D.is_honest (fuse_inner self.old) }
        ensures size { size (D.history (fuse_inner self.new)) ≡ size (D.history (fuse_inner self.old)) }
        ensures cause { CountsFault result (fuse_faults D.faults self.old) (fuse_faults D.faults self.new) }
    {
        if self.calls_left == 0 {
            return refuse(&mut self.refused);
        }
        self.inner.read_at(at, out)
    }

    fn write_at(&mut self, at: u64, bytes: &[u8]) -> Result<(), DiskFault>
        requires { at + length bytes.now ≤ size (D.history (fuse_inner self.old)) }
        ensures blown { fuse_calls self.old ≡ 0 → IsErr result × (fuse_inner self.new ≡ fuse_inner self.old) }
        ensures passed { 0 < fuse_calls self.old → CountsFault result (D.faults (fuse_inner self.old)) (D.faults (fuse_inner self.new)) }
        ensures calls { fuse_calls self.new ≡ fuse_calls self.old - 1 }
        ensures written { IsTrue (D.is_honest (fuse_inner self.old))
            → Writes at bytes.now result (D.history (fuse_inner self.old)) (D.history (fuse_inner self.new)) }
        ensures honest { D.is_honest (fuse_inner self.new) ≡ D.is_honest (fuse_inner self.old) }
        ensures size { size (D.history (fuse_inner self.new)) ≡ size (D.history (fuse_inner self.old)) }
        ensures cause { CountsFault result (fuse_faults D.faults self.old) (fuse_faults D.faults self.new) }
    {
        if self.calls_left == 0 {
            return refuse(&mut self.refused);
        }
        self.calls_left -= 1;
        self.inner.write_at(at, bytes)
    }

    fn sync(&mut self) -> Result<(), DiskFault>
        ensures blown { fuse_calls self.old ≡ 0 → IsErr result × (fuse_inner self.new ≡ fuse_inner self.old) }
        ensures passed { 0 < fuse_calls self.old → CountsFault result (D.faults (fuse_inner self.old)) (D.faults (fuse_inner self.new)) }
        ensures calls { fuse_calls self.new ≡ fuse_calls self.old - 1 }
        ensures synced { IsTrue (D.is_honest (fuse_inner self.old))
            → Syncs result (D.history (fuse_inner self.old)) (D.history (fuse_inner self.new)) }
        ensures honest { D.is_honest (fuse_inner self.new) ≡ D.is_honest (fuse_inner self.old) }
        ensures size { size (D.history (fuse_inner self.new)) ≡ size (D.history (fuse_inner self.old)) }
        ensures cause { CountsFault result (fuse_faults D.faults self.old) (fuse_faults D.faults self.new) }
    {
        if self.calls_left == 0 {
            return refuse(&mut self.refused);
        }
        self.calls_left -= 1;
        self.inner.sync()
    }

    ghost keeps_length = { λ f. D.Disk.keeps_length (fuse_inner f) };
}
