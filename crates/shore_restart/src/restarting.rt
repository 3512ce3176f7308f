//! A restart, from what an open has found to a core.
ghost use Rattle.std.specs.Prelude.{◌≡◌, ◌≢◌, ◌⊎◌, ◌<◌, ◌≤◌, ◌+◌, [], ℕ, List, IfErr, IfOk, None, OnOk, length};
ghost use Rattle.shore_disk.specs.Cause.{HasCause};
ghost use Rattle.shore_gate.specs.declared.anchors.Anchor.{Anchor};
ghost use Rattle.shore_types.specs.Layout.{LocksInLimits};
ghost use Rattle.shore_types.specs.declared.faults.Fault.{Fault};
ghost use Rattle.shore_types.specs.declared.faults.Fault.TheVariants as Fault;
ghost use Rattle.shore_log.specs.Settled.{IsSpelled, cut_of_log, records_of_log, stable};
ghost use Rattle.shore_heap.specs.Heaps.{faults_of, geometry_of};
ghost use Rattle.shore_core.specs.Cores.{control_of, durable_of, first_of, waiting_of};
ghost use Rattle.laws_lives.specs.Recovery.{RecoveryState};
ghost use Rattle.laws_checkpoints.specs.Checkpoints.{end_among};
ghost use Rattle.shore_analysis.specs.KeptTables.{redo_table};
ghost use Rattle.shore_restart.specs.Anchors.{HasCheckpoint};
ghost use Rattle.shore_restart.specs.AnyPages.{IsBadOn, MayRead, NoneMisfitsOn, due_seen};
ghost use Rattle.shore_restart.specs.declared.errors.RestartError.{RestartError};
ghost use Rattle.shore_restart.specs.declared.errors.RestartError.TheVariants as RestartError;
ghost use Rattle.shore_restart.specs.Doubts.{IsRefusedBy, IsTaken};
ghost use Rattle.shore_restart.specs.GivenBack.{HasDoubtsBack};
ghost use Rattle.shore_restart.specs.Held.{IsHeld, IsPageFault};
ghost use Rattle.shore_restart.specs.Opened.{Restarts, answer_of, heap_left, log_fault_left, volume_fault_left};
ghost use Rattle.shore_restart.specs.Missing.{missing_on};
ghost use Rattle.shore_restart.specs.Quiet.{IsQuiet, StaysQuiet};
ghost use Rattle.shore_restart.specs.Reports.{IsReportOf};
ghost use Rattle.shore_restart.specs.Room.{LeavesRoom};
ghost use Rattle.shore_sessions.specs.Controls.{txns_in};
ghost use Rattle.shore_txn.specs.Transactions.{room_in};
ghost use Rattle.shore_restart.specs.Standing.{IsFound, SameLog, SameVolume, log_faults, log_seen, stream_bytes_of};
ghost use Rattle.shore_restart.specs.Turns.{IsBadRecord, IsUndoneSoFar, LacksRoom};

use crate::errors::RestartError;
use crate::passes::{Passed, Report, run_passes};
use shore_core::Core;
use shore_disk::Disk;
use shore_heap::Heap;
use shore_log::{LogDev, PlainTail};
use shore_types::Lsn;
use std::alloc::Global;

/// Restarts on what an open of both devices has found: redoes the records of the log that their pages do not have, undoes the losers and forces the
/// records of that, and makes a core over what is left, in which those in doubt have what is theirs. It may be stopped at any moment; the next restart goes on.
/// If there is no core the heap is handed back, and is of no use but for its device.
pub fn restart<L: Disk, V: Disk>(
    alloc: Global,
    log: &mut LogDev<L>,
    heap: Heap<V>,
    checkpoint: Lsn,
) -> Result<(Core<PlainTail, V>, Report), (RestartError, Heap<V>)>
    requires limits { LocksInLimits (geometry_of heap) }
    // From what was found to what is left, a crash at any moment leaves what a crash may make of a store on the way. Of a lawful log that is
    // one with all records done and no loser, durable and shown by the core.
    ensures restarts { (log_front front : List ℕ) (anchor : Anchor) (disk : ℕ → List ℕ) (s : RecoveryState) → checkpoint ≡ anchor.checkpoint → IsFound log_front front anchor disk log.old heap s
        → Restarts result log_front front anchor log.old log.new heap s }
    // The log has grown by the turns of the losers, in their order.
    ensures undone { OnOk result (IsUndoneSoFar (log_seen log.old) (log_seen log.new)) }
    ensures report { IfOk result (λ done. IsReportOf (cut_of_log log.old) checkpoint (records_of_log log.old) done.1) }
    // .. and of a store that was found, how many of the log's records its pages did not have.
    ensures missing { (log_front front : List ℕ) (anchor : Anchor) (disk : ℕ → List ℕ) (s : RecoveryState) → checkpoint ≡ anchor.checkpoint → IsFound log_front front anchor disk log.old heap s
        → IfOk result (λ done. done.1.redone ≡ missing_on s.log s.in_place) }

    // A refusal names the anchor, if the log does not have its checkpoint; or a record that does not mean what it has to or does not fit, or there is no room, or a device has failed.
    ensures bad { (log_front front : List ℕ) (anchor : Anchor) (disk : ℕ → List ℕ) (s : RecoveryState) → checkpoint ≡ anchor.checkpoint → IsFound log_front front anchor disk log.old heap s
        → IfErr result (λ refused. (n : ℕ) → refused.0 ≡ RestartError.BadRecord n → IsBadRecord (geometry_of heap) (cut_of_log log.old) checkpoint (records_of_log log.old) s.log n) }
    ensures no_room { IfErr result (λ refused. refused.0 ≡ RestartError.NoRoom → LacksRoom (cut_of_log log.old) (records_of_log log.old) (stream_bytes_of log.old)) }
    ensures device { (log_front front : List ℕ) (anchor : Anchor) (disk : ℕ → List ℕ) (s : RecoveryState) → checkpoint ≡ anchor.checkpoint → IsFound log_front front anchor disk log.old heap s
        → IfErr result (λ refused. (f : Fault) → refused.0 ≡ RestartError.Page f → f ≡ Fault.Device) }
    ensures log_device { (log_front : List ℕ) → IsQuiet log_front log.old → StaysQuiet (answer_of result) log_front log.old log.new }
    // .. and whatever the pages hold, what the log says comes first: it is refused by the first record that does not mean what it has to; and if all do, by the
    // Prepare of the first in doubt that cannot hold what is its beside those before it.
    ensures meant { IfErr result (λ refused. refused.0 ≢ RestartError.Memory → ((refused.0 ≡ RestartError.BadAnchor) × (HasCheckpoint (cut_of_log log.old) checkpoint (records_of_log log.old) → ⊥))
        ⊎ (HasCheckpoint (cut_of_log log.old) checkpoint (records_of_log log.old) × (refused.0 ≢ RestartError.BadAnchor) × (IsTaken (geometry_of heap) (cut_of_log log.old) checkpoint (records_of_log log.old)
        ⊎ ((n : ℕ) × (refused.0 ≡ RestartError.BadRecord n) × IsRefusedBy (geometry_of heap) (cut_of_log log.old) checkpoint (records_of_log log.old) n)))) }
    ensures anchored { OnOk result (HasCheckpoint (cut_of_log log.old) checkpoint (records_of_log log.old)) }
    ensures taken { OnOk result (IsTaken (geometry_of heap) (cut_of_log log.old) checkpoint (records_of_log log.old)) }
    // .. of its records, and by the first of them that has no room on its page as the records before it leave that; or, if all have, by the first, turn by turn,
    // whose undo has none; or, if all losers are undone and each record of that has room, by the first Change of one in doubt whose image before has none beside
    // what is kept for those before it.
    ensures bad_number { IfErr result (λ refused. (n : ℕ) → refused.0 ≡ RestartError.BadRecord n → (cut_of_log log.old < n) × (n ≤ length (log_seen log.old))) }
    ensures any_bad { (front : List ℕ) (first disk : ℕ → List ℕ) → IsHeld front first disk heap [] (length (log_seen log.old))
        → IfErr result (λ refused. (n : ℕ) → refused.0 ≡ RestartError.BadRecord n → IsBadOn (geometry_of heap) first (cut_of_log log.old) checkpoint (records_of_log log.old) n) }
    ensures any_fit { (front : List ℕ) (first disk : ℕ → List ℕ) → IsHeld front first disk heap [] (length (log_seen log.old))
        → OnOk result (NoneMisfitsOn (geometry_of heap) first (log_seen log.old) (due_seen (redo_table (end_among checkpoint (records_of_log log.old))) (cut_of_log log.old) (records_of_log log.old)) (log_seen log.new)) }
    // .. and a page is named that has no text of it with a number up to the log's last. Such a page is of a record that is due, or of what undo brings back, or of a
    // Change of one in doubt.
    ensures any_pages { (front : List ℕ) (first disk : ℕ → List ℕ) → IsHeld front first disk heap [] (length (log_seen log.old))
        → IfErr result (λ refused. (f : Fault) → refused.0 ≡ RestartError.Page f → IsPageFault (geometry_of heap) (MayRead (cut_of_log log.old) checkpoint (records_of_log log.old)) disk (length (log_seen log.old)) f) }
    // The core's buffer is empty and begins behind the log, all of which is durable: any core.
    ensures waiting { IfOk result (λ done. waiting_of done.0 ≡ []) }
    ensures spelled { OnOk result (log.old.staged ≡ None → IsSpelled log.new) }
    ensures numbers { IfOk result (λ done. (first_of done.0 ≡ 1 + length (log_seen log.new)) × (durable_of done.0 ≡ cut_of_log log.new + length (stable log.new))) }
    // Its room is that of the log device's stream: any core. The log leaves room in that, and numbers, beside what those in doubt have reserved.
    ensures room { OnOk result (LeavesRoom (cut_of_log log.new) (records_of_log log.new) (stream_bytes_of log.new)) }
    ensures ring { IfOk result (λ done. (room_in (txns_in (control_of done.0))).stream_bytes ≡ stream_bytes_of log.new) }
    // Those in doubt wait for their decisions, each with its undo list, under its name and in no session, and nobody else is under way. They have their locks, and
    // nobody has another or waits for one; there may be as many nodes as the geometry allows.
    ensures doubts { IfOk result (λ done. HasDoubtsBack (geometry_of heap).max_locks (log_seen log.old) (control_of done.0)) }
    ensures volume { SameVolume heap (heap_left result) }
    ensures log { SameLog log.old log.new }
    ensures volume_cause { HasCause (volume_fault_left result) (faults_of heap) (faults_of (heap_left result)) }
    ensures log_cause { HasCause (log_fault_left result) (log_faults log.old) (log_faults log.new) }
{
    let mut heap = heap;
    match run_passes(alloc, log, &mut heap, checkpoint) {
        Ok(Passed { control, report }) => {
            let last = log.last();
            let durable = log.durable().number();
            Ok((Core::over(alloc, heap, control, last, durable), report))
        }
        Err(error) => Err((error, heap)),
    }
}
