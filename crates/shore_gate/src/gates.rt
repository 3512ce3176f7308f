//! Gates: one byte that says whether what it guards counts. It is opened by a write of its own after a sync of
//! what it guards, so no checksum is needed.
ghost use Rattle.std.specs.Prelude.{◌≡◌, ◌<◌, ◌↔◌, [], ◌∷◌, IsTrue, OnOk};
ghost use Rattle.shore_disk.specs.Device.{size, seen, overwritten, CountsFault, TornFrom, Stands, LeavesOnly};

use shore_disk::{Disk, DiskFault, write_synced};

/// The one value of an open gate.
pub const OPEN: u8 = 0xA5;

/// The value that a closed gate is written with.
pub const CLOSED: u8 = 0;

/// Every other value than `OPEN` is closed.
pub fn is_open(gate: u8) -> bool
    ensures { IsTrue result ↔ (gate ≡ OPEN) }
{
    gate == OPEN
}

/// Opens the gate at an offset, and syncs.
pub fn open_gate<D: Disk>(disk: &mut D, at: u64) -> Result<(), DiskFault>
    requires { at < size (D.history disk.old) }
    ensures open { IsTrue (D.is_honest disk.old) → OnOk result (Stands (D.history disk.new) (overwritten (seen (D.history disk.old)) at (OPEN ∷ []))) }

    // A crash at any moment of the call leaves what it could have left before, but for the gate.
    ensures any_moment { IsTrue (D.is_honest disk.old) → LeavesOnly (D.history disk.old) (D.history disk.new)
        (TornFrom at 1 (D.history disk.old)) }

    ensures honest { D.is_honest disk.new ≡ D.is_honest disk.old }
    ensures size { size (D.history disk.new) ≡ size (D.history disk.old) }
    ensures cause { CountsFault result (D.faults disk.old) (D.faults disk.new) }
{
    write_synced(disk, at, &[OPEN])
}

/// Closes the gate at an offset, and syncs.
pub fn close_gate<D: Disk>(disk: &mut D, at: u64) -> Result<(), DiskFault>
    requires { at < size (D.history disk.old) }
    ensures closed { IsTrue (D.is_honest disk.old) → OnOk result (Stands (D.history disk.new) (overwritten (seen (D.history disk.old)) at (CLOSED ∷ []))) }

    // A crash at any moment of the call leaves what it could have left before, but for the gate.
    ensures any_moment { IsTrue (D.is_honest disk.old) → LeavesOnly (D.history disk.old) (D.history disk.new)
        (TornFrom at 1 (D.history disk.old)) }

    ensures honest { D.is_honest disk.new ≡ D.is_honest disk.old }
    ensures size { size (D.history disk.new) ≡ size (D.history disk.old) }
    ensures cause { CountsFault result (D.faults disk.old) (D.faults disk.new) }
{
    write_synced(disk, at, &[CLOSED])
}
