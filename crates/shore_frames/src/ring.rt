//! Reads and writes at places of a stream that is a ring.
ghost use Rattle.std.specs.Prelude.{◌≡◌, ◌+◌, ◌%◌, ◌≤◌, ◌<◌, ℕ, List, length, take, IsTrue, OnOk};
ghost use Rattle.shore_types.specs.declared.layout.TheConstants.{LOG_FRONT_BYTES, MAX_LOG_BYTES};
ghost use Rattle.shore_disk.specs.Device.{size, seen, CountsFault, LeavesOnly, Stands, Writes, moment};
ghost use Rattle.shore_frames.specs.Places.{byte_of, from_place, stream_of};
ghost use Rattle.shore_frames.specs.Rings.{IsRingWritten, StandsBothWritten, StandsWritten, TornBoth, TornRing};

use shore_disk::{Disk, DiskFault};
use shore_types::layout::LOG_FRONT_BYTES;

/// The byte of the device at which a place stands, where the stream has so many bytes.
pub fn byte_of(stream_bytes: u64, place: u64) -> u64
    requires some { 0 < stream_bytes }
    requires short { stream_bytes ≤ MAX_LOG_BYTES }
    ensures { result ≡ byte_of stream_bytes place }
{
    LOG_FRONT_BYTES + place % stream_bytes
}

/// Fills `out` with the bytes at a place of a stream of so many bytes: by two reads where its end lies between.
pub fn read_ring<D: Disk>(
    device: &mut D,
    stream_bytes: u64,
    place: u64,
    out: &mut [u8],
) -> Result<(), DiskFault>
    requires size { size (D.history device.old) ≡ LOG_FRONT_BYTES + stream_bytes }
    requires some { 0 < stream_bytes }
    requires short { stream_bytes ≤ MAX_LOG_BYTES }
    requires fits { length out.old ≤ stream_bytes }
    ensures read { IsTrue (D.is_honest device.old) → OnOk result (out.new ≡ take (length out.old) (from_place place (stream_of (seen (D.history device.old))))) }
    ensures same { IsTrue (D.is_honest device.old) → D.history device.new ≡ D.history device.old }
    ensures honest { D.is_honest device.new ≡ D.is_honest device.old }
    ensures size { size (D.history device.new) ≡ size (D.history device.old) }
    ensures cause { CountsFault result (D.faults device.old) (D.faults device.new) }
{
    let at = place % stream_bytes;
    let before = (stream_bytes - at) as usize;
    if out.len() <= before {
        return device.read_at(LOG_FRONT_BYTES + at, out);
    }
    let (first, second) = out.split_at_mut(before);
    device.read_at(LOG_FRONT_BYTES + at, first)?;
    device.read_at(LOG_FRONT_BYTES, second)
}

/// Writes bytes at a place of a stream of so many bytes: by two writes where its end lies between.
pub fn write_ring<D: Disk>(
    device: &mut D,
    stream_bytes: u64,
    place: u64,
    bytes: &[u8],
) -> Result<(), DiskFault>
    requires size { size (D.history device.old) ≡ LOG_FRONT_BYTES + stream_bytes }
    requires some { 0 < stream_bytes }
    requires short { stream_bytes ≤ MAX_LOG_BYTES }
    requires fits { length bytes.now ≤ stream_bytes }
    ensures written { IsTrue (D.is_honest device.old) → OnOk result (IsRingWritten place bytes.now (seen (D.history device.old)) (seen (D.history device.new))) }

    // It is two writes of the device at most, and one where the end does not lie between.
    ensures two { IsTrue (D.is_honest device.old) → moment (D.history device.new) ≤ moment (D.history device.old) + 2 }
    ensures one { IsTrue (D.is_honest device.old) → place % stream_bytes + length bytes.now ≤ stream_bytes
        → Writes (byte_of stream_bytes place) bytes.now result (D.history device.old) (D.history device.new) }

    // A crash at any moment of the call leaves what stood before, with any bytes in that range.
    ensures any_moment { IsTrue (D.is_honest device.old) → (image : List ℕ) → Stands (D.history device.old) image
        → LeavesOnly (D.history device.old) (D.history device.new) (TornRing place (length bytes.now) image) }

    ensures honest { D.is_honest device.new ≡ D.is_honest device.old }
    ensures size { size (D.history device.new) ≡ size (D.history device.old) }
    ensures cause { CountsFault result (D.faults device.old) (D.faults device.new) }
{
    let at = place % stream_bytes;
    let before = (stream_bytes - at) as usize;
    if bytes.len() <= before {
        return device.write_at(LOG_FRONT_BYTES + at, bytes);
    }
    let (first, second) = bytes.split_at(before);
    device.write_at(LOG_FRONT_BYTES + at, first)?;
    device.write_at(LOG_FRONT_BYTES, second)
}

/// Writes bytes at a place of a stream of so many bytes, as `write_ring` does, and syncs.
pub fn write_ring_synced<D: Disk>(
    device: &mut D,
    stream_bytes: u64,
    place: u64,
    bytes: &[u8],
) -> Result<(), DiskFault>
    requires size { size (D.history device.old) ≡ LOG_FRONT_BYTES + stream_bytes }
    requires some { 0 < stream_bytes }
    requires short { stream_bytes ≤ MAX_LOG_BYTES }
    requires fits { length bytes.now ≤ stream_bytes }
    ensures stable { IsTrue (D.is_honest device.old) → OnOk result (StandsWritten (D.history device.new) place bytes.now (seen (D.history device.old))) }

    // A crash at any moment of the call leaves what stood before, with any bytes in that range.
    ensures any_moment { IsTrue (D.is_honest device.old) → (image : List ℕ) → Stands (D.history device.old) image
        → LeavesOnly (D.history device.old) (D.history device.new) (TornRing place (length bytes.now) image) }

    ensures honest { D.is_honest device.new ≡ D.is_honest device.old }
    ensures size { size (D.history device.new) ≡ size (D.history device.old) }
    ensures cause { CountsFault result (D.faults device.old) (D.faults device.new) }
{
    write_ring(device, stream_bytes, place, bytes)?;
    device.sync()
}

/// Writes bytes at a place and a byte at another one, and syncs once: both are stable then.
pub fn write_both_synced<D: Disk>(
    device: &mut D,
    stream_bytes: u64,
    place: u64,
    bytes: &[u8],
    gate_place: u64,
    gate: u8,
) -> Result<(), DiskFault>
    requires size { size (D.history device.old) ≡ LOG_FRONT_BYTES + stream_bytes }
    requires some { 0 < stream_bytes }
    requires short { stream_bytes ≤ MAX_LOG_BYTES }
    requires fits { length bytes.now ≤ stream_bytes }
    ensures stable { IsTrue (D.is_honest device.old) → OnOk result (StandsBothWritten (D.history device.new) place bytes.now gate_place gate (seen (D.history device.old))) }

    // A crash at any moment of the call leaves what stood before, with any bytes in that range and any at the other place.
    ensures any_moment { IsTrue (D.is_honest device.old) → (image : List ℕ) → Stands (D.history device.old) image
        → LeavesOnly (D.history device.old) (D.history device.new) (TornBoth place (length bytes.now) gate_place image) }

    ensures honest { D.is_honest device.new ≡ D.is_honest device.old }
    ensures size { size (D.history device.new) ≡ size (D.history device.old) }
    ensures cause { CountsFault result (D.faults device.old) (D.faults device.new) }
{
    write_ring(device, stream_bytes, place, bytes)?;
    device.write_at(byte_of(stream_bytes, gate_place), &[gate])?;
    device.sync()
}
