//! Pages as redo and undo need them: in a frame, and with an image put back.
ghost use Rattle.std.specs.Prelude.{◌≡◌, ◌≢◌, ◌⊎◌, ◌++◌, ◌+◌, ◌<◌, ◌≤◌, ◌∷◌, [], ℕ, List, Err, IfErr, IsSomeAnd, IsTrue, OnOk, Some, is_some, length, slice_get};
ghost use Rattle.shore_disk.specs.Cause.{HasCause};
ghost use Rattle.shore_types.specs.Layout.{HasPage};
ghost use Rattle.shore_types.specs.declared.faults.Fault.{Fault};
ghost use Rattle.shore_types.specs.declared.faults.Fault.TheVariants as Fault;
ghost use Rattle.shore_types.specs.declared.ids.PageId.{PageId};
ghost use Rattle.shore_model.specs.declared.log_records.LogRecord.{LogRecord};
ghost use Rattle.shore_model.specs.Logs.{image_in};
ghost use Rattle.shore_page.specs.Room.{Fits};
ghost use Rattle.shore_types.specs.Images.{image_len};
ghost use Rattle.shore_pool.specs.Pools.{PoolHolds};
ghost use Rattle.shore_heap.specs.Heaps.{faults_of, frame_of, geometry_of, history_of, pool_of};
ghost use Rattle.laws_checkpoints.specs.RecoveryNumbers.{RecoveryNumbers, recovery_after};
ghost use Rattle.laws_heaps.specs.HeapRecoveries.{HasRecoveries};
ghost use Rattle.laws_lives.specs.Recovery.{AppendRecord, LeadsTo, RecoveryState, RedoRecord, after_append, after_redo};
ghost use Rattle.shore_restart.specs.declared.errors.RestartError.{RestartError};
ghost use Rattle.shore_restart.specs.declared.errors.RestartError.TheVariants as RestartError;
ghost use Rattle.shore_restart.specs.Errors.{IsEarned, volume_answer};
ghost use Rattle.shore_restart.specs.Held.{FetchesHeld, IsHeld};
ghost use Rattle.shore_restart.specs.Standing.{Fetches, SameVolume, Stands};

use crate::errors::{RestartError, page_error};
use shore_disk::Disk;
use shore_heap::{Heap, NoClaims};
use shore_types::images::bytes_of;
use shore_types::{Bytes, LogEnds, Lsn, PageId, Rid};
use std::alloc::Global;

/// Brings a page into a frame, if it is in none; others may be written back for it. `Page(NeedForce)` if each page that could leave its frame has a
/// number above the durable one; nothing has changed then.
pub fn fetch<V: Disk>(
    alloc: Global,
    heap: &mut Heap<V>,
    page: PageId,
    ends: &LogEnds,
) -> Result<(), RestartError>
    requires { HasPage (geometry_of heap.old) page }
    ensures held { OnOk result (IsTrue (is_some (frame_of heap.new page))) }
    ensures fetches { (front : List ℕ) (disk : ℕ → List ℕ) (s : RecoveryState) → Stands front disk heap.old s → ends.now.durable ≤ s.durable → Fetches result front heap.old heap.new s }
    ensures device { (front : List ℕ) (disk : ℕ → List ℕ) (s : RecoveryState) → Stands front disk heap.old s → length s.log ≤ ends.now.last
        → IfErr result (λ error. (f : Fault) → error ≡ RestartError.Page f → (f ≡ Fault.Device) ⊎ ((n : ℕ) × (f ≡ Fault.NeedForce n) × (ends.now.durable < n) × (n ≤ length s.log))) }
    ensures earned { (front : List ℕ) (disk : ℕ → List ℕ) → PoolHolds (pool_of heap.old) front disk → IfErr result (IsEarned (geometry_of heap.old) disk ends.now.last) }
    ensures any_pages { (front : List ℕ) (first disk : ℕ → List ℕ) (done : List LogRecord) → IsHeld front first disk heap.old done ends.now.last → ends.now.durable ≤ ends.now.last
        → FetchesHeld result (λ p. p ≡ page) front first disk heap.old heap.new done ends.now.last ends.now.durable }
    ensures others { IfErr result (λ error. (error ≢ RestartError.NoRoom) × ((n : ℕ) → error ≢ RestartError.BadRecord n) × ((f : Fault) → error ≢ RestartError.Log f) × (error ≢ RestartError.BadAnchor)) }
    ensures volume { SameVolume heap.old heap.new }
    ensures cause { HasCause (volume_answer result) (faults_of heap.old) (faults_of heap.new) }
{
    match heap.fetch(alloc, page, &NoClaims, ends) {
        Ok(()) => Ok(()),
        Err(fault) => Err(page_error(fault)),
    }
}

/// Puts an image into its slot, by the record of this number. Its page is in a frame, and it fits. The slot keeps what the record takes, and no
/// more: with more, the records behind could find no room that was there when they were logged.
pub fn put<V: Disk>(heap: &mut Heap<V>, id: Rid, number: Lsn, image: &Option<Bytes>)
    requires there { HasPage (geometry_of heap.old) id.page }
    requires fits { IsSomeAnd (frame_of heap.old id.page) (λ f. Fits (geometry_of heap.old).version f.page.slots id.slot (image_len image.now)) }
    ensures redone { (front : List ℕ) (disk : ℕ → List ℕ) (s : RecoveryState) (r : LogRecord) → Stands front disk heap.old s → slice_get s.log s.redone ≡ Some r
        → image_in r.payload ≡ Some (id, image.now) → number ≡ s.redone + 1 → (s.in_place id.page).number ≤ s.redone
        → LeadsTo s RedoRecord (after_redo s r) × Stands front disk heap.new (after_redo s r)
        × ((recovery : RecoveryNumbers) → HasRecoveries heap.old recovery → HasRecoveries heap.new (recovery_after s RedoRecord recovery)) }
    ensures appended { (front : List ℕ) (disk : ℕ → List ℕ) (s : RecoveryState) (r : LogRecord) → Stands front disk heap.old s → s.redone ≡ length s.log
        → image_in r.payload ≡ Some (id, image.now) → number ≡ length s.log + 1
        → LeadsTo s (AppendRecord r) (after_append s r) × Stands front disk heap.new (after_append s r)
        × ((recovery : RecoveryNumbers) → HasRecoveries heap.old recovery → HasRecoveries heap.new (recovery_after s (AppendRecord r) recovery)) }
    ensures any_pages { (front : List ℕ) (first disk : ℕ → List ℕ) (done : List LogRecord) (last : ℕ) (r : LogRecord) → IsHeld front first disk heap.old done last
        → image_in r.payload ≡ Some (id, image.now) → number ≡ length done + 1 → IsSomeAnd (frame_of heap.old id.page) (λ f. f.page.number < number) → number ≤ last
        → IsHeld front first disk heap.new (done ++ r ∷ []) last }
    ensures history { history_of heap.new ≡ history_of heap.old }
    ensures faults { faults_of heap.new ≡ faults_of heap.old }
    ensures volume { SameVolume heap.old heap.new }
{
    let Rid { page, slot } = id;
    let PageId { store, page } = page;
    let changed = Rid {
        page: PageId { store, page },
        slot,
    };
    heap.change(changed, number, bytes_of(image));
    let released = Rid {
        page: PageId { store, page },
        slot,
    };
    heap.release_to(released, 0);
}
