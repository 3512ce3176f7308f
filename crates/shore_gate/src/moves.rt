//! The move of the anchor, by which a log is read from a later record on.
ghost use Rattle.std.specs.Prelude.{◌≡◌, ◌≢◌, ◌↔◌, ◌≤◌, ◌<◌, List, ℕ, length, slice_index, IsTrue, IfOk, OnOk, OnErr};
ghost use Rattle.shore_disk.specs.Device.{size, seen, may_leave, overwritten, CountsFault, LeavesOnly, Only, Stands};
ghost use Rattle.shore_gate.specs.declared.gates.TheConstants.{OPEN};
ghost use Rattle.shore_gate.specs.Anchor.{Counts, IsOlder, MayCount, offset_of, other_of, slot_bytes};
ghost use Rattle.shore_gate.specs.Moves.{HasInSlot, HasOlderInSlot, IsAmidMove, moved};

use crate::anchors::read_slot;
use crate::gates::{close_gate, is_open, open_gate};
use crate::{Anchor, Anchors, Slot};
use shore_disk::{Disk, DiskFault, write_synced};

impl Anchors {
    /// Moves the anchor of a log, which is stable: a new one, of a greater sequence, is written in the slot of the older one. Once the call has
    /// answered the new one counts, if the one before it did, whatever a crash leaves. At a fault the old one counts or the new one, and nobody knows which: it is found
    /// by reading the device again.
    pub fn move_to<D: Disk>(&mut self, disk: &mut D, anchor: Anchor) -> Result<(), DiskFault>
        requires fits { 2088 ≤ size (D.history disk.old) }
        requires later { self.old.anchor.sequence < anchor.sequence }
        requires limits { MayCount anchor }

        // The new anchor is on a device that was stable, a crash leaves nothing else, and it counts, if the old one did.
        ensures moved { IsTrue (D.is_honest disk.old) → Only (seen (D.history disk.old)) (may_leave (D.history disk.old)) → OnOk result (Stands (D.history disk.new) (moved self.old anchor (seen (D.history disk.old)))) }
        ensures counts { IsTrue (D.is_honest disk.old) → Only (seen (D.history disk.old)) (may_leave (D.history disk.old))
            → Counts (seen (D.history disk.old)) self.old.slot self.old.anchor → OnOk result (Counts (seen (D.history disk.new)) self.new.slot self.new.anchor) }
        ensures now { OnOk result (self.new ≡ record { slot = other_of self.old.slot; anchor = anchor }) }
        ensures not_moved { OnErr result (self.new ≡ self.old) }

        // A crash at any moment of the call leaves the old anchor as the one that counts, or the new one, and what is beside the slot as it was.
        ensures any_moment { IsTrue (D.is_honest disk.old) → Only (seen (D.history disk.old)) (may_leave (D.history disk.old))
            → Counts (seen (D.history disk.old)) self.old.slot self.old.anchor → LeavesOnly (D.history disk.old) (D.history disk.new)
            (IsAmidMove self.old anchor (seen (D.history disk.old))) }

        ensures honest { D.is_honest disk.new ≡ D.is_honest disk.old }
        ensures size { size (D.history disk.new) ≡ size (D.history disk.old) }
        ensures cause { CountsFault result (D.faults disk.old) (D.faults disk.new) }
    {
        let slot = self.slot.other();
        shut_slot(disk, slot)?;
        let at = slot.offset();
        write_synced(disk, at + 1, &anchor.to_bytes())?;
        open_gate(disk, at)?;
        *self = Anchors { slot, anchor };
        Ok(())
    }
}

// Closes the gate of a slot that does not count. A gate that is shut already is not written: a crash might leave it open, over what a move before
// this one left behind it. In its place the zeros behind it are written, so that a move makes as many calls of the device either way.
fn shut_slot<D: Disk>(disk: &mut D, slot: Slot) -> Result<(), DiskFault>
    requires fits { 2088 ≤ size (D.history disk.old) }
    ensures shut { IsTrue (D.is_honest disk.old) → Only (seen (D.history disk.old)) (may_leave (D.history disk.old)) → OnOk result ((bytes : List ℕ) × (length bytes ≡ 40) × (slice_index bytes 0 ≢ OPEN)
        × Stands (D.history disk.new) (overwritten (seen (D.history disk.old)) (offset_of slot) bytes)) }
    ensures any_moment { IsTrue (D.is_honest disk.old) → Only (seen (D.history disk.old)) (may_leave (D.history disk.old)) → (sequence : ℕ) → IsOlder (slot_bytes slot (seen (D.history disk.old))) sequence
        → LeavesOnly (D.history disk.old) (D.history disk.new) (HasOlderInSlot slot sequence (seen (D.history disk.old))) }
    ensures honest { D.is_honest disk.new ≡ D.is_honest disk.old }
    ensures size { size (D.history disk.new) ≡ size (D.history disk.old) }
    ensures cause { CountsFault result (D.faults disk.old) (D.faults disk.new) }
{
    let was_open = has_open_gate(disk, slot)?;
    let at = slot.offset();
    if was_open {
        return close_gate(disk, at);
    }
    write_synced(disk, at + 1, &[0; 7])
}

fn has_open_gate<D: Disk>(disk: &mut D, slot: Slot) -> Result<bool, DiskFault>
    requires { 2088 ≤ size (D.history disk.old) }
    ensures found { IsTrue (D.is_honest disk.old) → IfOk result (λ was_open. IsTrue was_open ↔ (slice_index (slot_bytes slot (seen (D.history disk.old))) 0 ≡ OPEN)) }
    ensures same { IsTrue (D.is_honest disk.old) → D.history disk.new ≡ D.history disk.old }
    ensures honest { D.is_honest disk.new ≡ D.is_honest disk.old }
    ensures size { size (D.history disk.new) ≡ size (D.history disk.old) }
    ensures cause { CountsFault result (D.faults disk.old) (D.faults disk.new) }
{
    let bytes = read_slot(disk, slot)?;
    Ok(is_open(bytes[0]))
}
