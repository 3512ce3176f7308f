//! A write that is stable when it has answered.
ghost use Rattle.std.specs.Prelude.{◌≡◌, ◌+◌, ◌≤◌, length, IsTrue, OnOk};
ghost use Rattle.shore_disk.specs.Device.{size, seen, overwritten, CountsFault, TornFrom, Stands, LeavesOnly};

use crate::{Disk, DiskFault};

/// Writes bytes at an offset and syncs. After an error any bytes may stand in that range.
pub fn write_synced<D: Disk>(disk: &mut D, at: u64, bytes: &[u8]) -> Result<(), DiskFault>
    requires { at + length bytes.now ≤ size (D.history disk.old) }
    ensures stable { IsTrue (D.is_honest disk.old) → OnOk result (Stands (D.history disk.new) (overwritten (seen (D.history disk.old)) at bytes.now)) }

    // A crash at any moment of the call leaves what it could have left before, but for that range.
    ensures any_moment { IsTrue (D.is_honest disk.old) → LeavesOnly (D.history disk.old) (D.history disk.new)
        (TornFrom at (length bytes.now) (D.history disk.old)) }

    ensures honest { D.is_honest disk.new ≡ D.is_honest disk.old }
    ensures size { size (D.history disk.new) ≡ size (D.history disk.old) }
    ensures cause { CountsFault result (D.faults disk.old) (D.faults disk.new) }
{
    disk.write_at(at, bytes)?;
    disk.sync()
}
