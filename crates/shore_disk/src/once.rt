//! A device of which one chosen call fails.
ghost use Rattle.std.specs.Prelude.{◌≡◌, ◌≢◌, ◌+◌, ◌≤◌, ◌↔◌, Some, length, take, drop, IsTrue, IsErr, OnOk};
ghost use Rattle.shore_disk.specs.Device.{size, seen, Writes, Syncs, CountsFault};
ghost use Rattle.shore_disk.specs.Counting.{one_call_on};

use crate::fuse::refuse;
use crate::{Disk, DiskFault};

/// A device of which one call alone fails, counted from 0, reads too. It is honest as the device inside.
#[derive(Drop)]
pub struct OnceDisk<D: Disk> {
    // The device that the calls are passed on to.
    inner: D,
    /// How many calls pass before the one that fails; none after it.
    calls_before: Option<u64>,
    // How many calls were refused here: one at most.
    refused: u64,
}

impl<D: Disk> OnceDisk<D> {
    ghost use Rattle.shore_disk.specs.Once.{once_inner, once_calls, once_refused};

    pub fn new(inner: D, call: u64) -> OnceDisk<D>
        ensures inner { once_inner result ≡ inner }
        ensures calls { once_calls result ≡ Some call }
        ensures refused { once_refused result ≡ 0 }
    {
        OnceDisk {
            inner,
            calls_before: Some(call),
            refused: 0,
        }
    }

    pub fn into_inner(self) -> D
        ensures { result ≡ once_inner self }
    {
        self.inner
    }
}

// Whether a call is passed on: each is, but the one before which no more pass.
fn pass(calls_before: &mut Option<u64>, refused: &mut u64) -> Result<(), DiskFault>
    ensures fails { IsErr result ↔ (calls_before.old ≡ Some 0) }
    ensures calls { calls_before.new ≡ one_call_on calls_before.old }
    ensures count { CountsFault result refused.old refused.new }
{
    match *calls_before {
        None => Ok(()),
        Some(0) => {
            *calls_before = None;
            refuse(refused)
        }
        Some(calls) => {
            *calls_before = Some(calls - 1);
            Ok(())
        }
    }
}

impl<D: Disk> Disk for OnceDisk<D> {
    ghost use Rattle.shore_disk.specs.Once.{once_inner, once_calls, once_faults};

    ghost is_honest = { λ f. D.Disk.is_honest (once_inner f) };

    ghost history = { λ f. D.Disk.history (once_inner f) };

    ghost faults = { once_faults D.Disk.faults };

    fn len(&self) -> u64 {
        self.inner.len()
    }

    fn failures(&self) -> u64 {
        self.inner.failures().saturating_add(self.refused)
    }

    fn read_at(&mut self, at: u64, out: &mut [u8]) -> Result<(), DiskFault>
        requires { at + length out.old ≤ size (D.history (once_inner self.old)) }
        // The chosen call fails, and what is behind it is not reached.
        ensures chosen { once_calls self.old ≡ Some 0 → IsErr result × (once_inner self.new ≡ once_inner self.old) }
        ensures passed { once_calls self.old ≢ Some 0 → CountsFault result (D.faults (once_inner self.old)) (D.faults (once_inner self.new)) }
        ensures calls { once_calls self.new ≡ one_call_on (once_calls self.old) }
        ensures read { IsTrue (D.is_honest (once_inner self.old))
            → OnOk result (out.new ≡ take (length out.old) (drop at (seen (D.history (once_inner self.old))))) }
        ensures same { IsTrue (D.is_honest (once_inner self.old)) → D.history (once_inner self.new) ≡ D.history (once_inner self.old) }
        ensures honest { D.is_honest (once_inner self.new) ≡ D.is_honest (once_inner self.old) }
        ensures size { size (D.history (once_inner self.new)) ≡ size (D.history (once_inner self.old)) }
        ensures cause { CountsFault result (once_faults D.faults self.old) (once_faults D.faults self.new) }
    {
        pass(&mut self.calls_before, &mut self.refused)?;
        self.inner.read_at(at, out)
    }

    fn write_at(&mut self, at: u64, bytes: &[u8]) -> Result<(), DiskFault>
        requires { at + length bytes.now ≤ size (D.history (once_inner self.old)) }
        ensures chosen { once_calls self.old ≡ Some 0 → IsErr result × (once_inner self.new ≡ once_inner self.old) }
        ensures passed { once_calls self.old ≢ Some 0 → CountsFault result (D.faults (once_inner self.old)) (D.faults (once_inner self.new)) }
        ensures calls { once_calls self.new ≡ one_call_on (once_calls self.old) }
        ensures written { IsTrue (D.is_honest (once_inner self.old))
            → Writes at bytes.now result (D.history (once_inner self.old)) (D.history (once_inner self.new)) }
        ensures honest { D.is_honest (once_inner self.new) ≡ D.is_honest (once_inner self.old) }
        ensures size { size (D.history (once_inner self.new)) ≡ size (D.history (once_inner self.old)) }
        ensures cause { CountsFault result (once_faults D.faults self.old) (once_faults D.faults self.new) }
    {
        pass(&mut self.calls_before, &mut self.refused)?;
        self.inner.write_at(at, bytes)
    }

    fn sync(&mut self) -> Result<(), DiskFault>
        ensures chosen { once_calls self.old ≡ Some 0 → IsErr result × (once_inner self.new ≡ once_inner self.old) }
        ensures passed { once_calls self.old ≢ Some 0 → CountsFault result (D.faults (once_inner self.old)) (D.faults (once_inner self.new)) }
        ensures calls { once_calls self.new ≡ one_call_on (once_calls self.old) }
        ensures synced { IsTrue (D.is_honest (once_inner self.old))
            → Syncs result (D.history (once_inner self.old)) (D.history (once_inner self.new)) }
        ensures honest { D.is_honest (once_inner self.new) ≡ D.is_honest (once_inner self.old) }
        ensures size { size (D.history (once_inner self.new)) ≡ size (D.history (once_inner self.old)) }
        ensures cause { CountsFault result (once_faults D.faults self.old) (once_faults D.faults self.new) }
    {
        pass(&mut self.calls_before, &mut self.refused)?;
        self.inner.sync()
    }

    ghost keeps_length = { λ f. D.Disk.keeps_length (once_inner f) };
}
