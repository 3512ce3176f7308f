//! A stream as it is seen from a place, once around: the row of bytes in which frames are read.
ghost use Rattle.std.specs.Prelude.{◌≡◌, ◌+◌, ◌<◌, ◌≤◌, ◌^◌, IsTrue, OnOk, length, take, drop};
ghost use Rattle.shore_types.specs.declared.layout.TheConstants.{LOG_FRONT_BYTES, MAX_LOG_BYTES};
ghost use Rattle.shore_disk.specs.Device.{CountsFault, size};

use crate::read_ring;
use shore_disk::{Disk, DiskFault};

/// A stream from a place on.
#[derive(Drop)]
pub struct View {
    /// The length of the stream.
    pub stream_bytes: u64,
    /// The place where it begins.
    pub place: u64,
    ghost some: { 0 < stream_bytes },
    ghost short: { stream_bytes ≤ MAX_LOG_BYTES },
    ghost places: { place ≤ 2 ^ 63 },
}

impl View {
    ghost use Rattle.shore_frames.specs.Streams.{view_of};

    /// Fills `out` with the bytes so far behind its begin.
    pub fn read<D: Disk>(&self, device: &mut D, at: u64, out: &mut [u8]) -> Result<(), DiskFault>
        requires size { size (D.history device.old) ≡ LOG_FRONT_BYTES + self.now.stream_bytes }
        requires inside { at + length out.old ≤ self.now.stream_bytes }
        ensures read { IsTrue (D.is_honest device.old) → OnOk result (out.new ≡ take (length out.old) (drop at (view_of self.now (D.history device.old)))) }
        ensures same { IsTrue (D.is_honest device.old) → D.history device.new ≡ D.history device.old }
        ensures honest { D.is_honest device.new ≡ D.is_honest device.old }
        ensures size { size (D.history device.new) ≡ size (D.history device.old) }
        ensures cause { CountsFault result (D.faults device.old) (D.faults device.new) }
    {
        read_ring(device, self.stream_bytes, self.place + at, out)
    }
}
