//! What an open makes of the volume, and what it is refused with.
ghost use Rattle.std.specs.Prelude.{◌≡◌, ◌≢◌, ◌⊎◌, ◌+◌, ◌≤◌, ℕ, List, [], ◌∷◌, IsTrue, IfOk, IfErr, OnOk, Err, None, length, map, take};
ghost use Rattle.shore_types.specs.Images.{Image};
ghost use Rattle.shore_types.specs.Layout.{HasPage, IsInLimits};
ghost use Rattle.shore_types.specs.declared.faults.Device.TheVariants as Device;
ghost use Rattle.shore_types.specs.declared.ids.PageId.{PageId};
ghost use Rattle.shore_types.specs.declared.layout.TheConstants.{MAX_POOL_FRAMES, MIN_POOL_FRAMES};
ghost use Rattle.shore_disk.specs.Cause.{HasCause};
ghost use Rattle.shore_disk.specs.Device.{LeavesOnly, size, seen, Stands};
ghost use Rattle.shore_gate.specs.Anchor.{offset_of};
ghost use Rattle.shore_gate.specs.Checks.{IsFromOutside};
ghost use Rattle.shore_gate.specs.declared.gates.TheConstants.{OPEN};
ghost use Rattle.shore_page.specs.Slots.{settled};
ghost use Rattle.shore_page.specs.Text.{IsPageText};
ghost use Rattle.shore_dwrite.specs.Checks.{RefusesArea};
ghost use Rattle.shore_dwrite.specs.declared.places.TheConstants.{GATE_AT};
ghost use Rattle.shore_dwrite.specs.Shown.{Shows, ShowsBehind};
ghost use Rattle.shore_dwrite.specs.Volumes.{page_number, part};
ghost use Rattle.shore_fronts.specs.Volumes.{volume_bytes};
ghost use Rattle.shore_heap.specs.Contents.{unclaimed};
ghost use Rattle.shore_heap.specs.Heaps as heaps;
ghost use Rattle.shore_heap.specs.Heaps.{frame_at, limit_of};
ghost use Rattle.shore_frames.specs.Offsets.{IsFrameOf};
ghost use Rattle.shore_log.specs.Settled as logs;
ghost use Rattle.shore_log.specs.Settled.{cut_of_log, stable};
ghost use Rattle.shore_restart.specs.declared.errors.RestartError.TheVariants as RestartError;
ghost use Rattle.shore_restart.specs.Held.{IsHeld};
ghost use Rattle.shore_world.specs.OpenedVolumes.{fault_of_volume, volume_of};

use shore_disk::Disk;
use shore_dwrite::PageDev;
use shore_heap::Heap;
use shore_log::LogDev;
use shore_restart::RestartError;
use shore_types::{Device, Fault, Geometry};
use std::alloc::Global;

/// The heap of a volume, behind the replay of its double-write area, over so many frames and with no page in any. A crash at any moment leaves a
/// volume that shows the same pages. `Damaged` if an open area is not in order, `Device` if the volume failed, `Memory` if an allocation failed: the
/// volume is handed back.
pub fn open_volume<D: Disk>(
    alloc: Global,
    volume: D,
    geometry: Geometry,
    frames: usize,
) -> Result<Heap<D>, (Fault, D)>
    requires long { size (D.history volume) ≡ volume_bytes geometry }
    requires limits { IsInLimits geometry }
    requires some { MIN_POOL_FRAMES ≤ frames }
    requires most { frames ≤ MAX_POOL_FRAMES }
    ensures in_order { IsTrue (D.is_honest volume) → (image : List ℕ) → Stands (D.history volume) image
        → OnOk result ((pages : ℕ → List ℕ) × Shows geometry image pages) }
    ensures shows { IsTrue (D.is_honest volume) → (image : List ℕ) (texts : ℕ → List ℕ) (number : PageId → ℕ) (images : PageId → List Image)
        → Stands (D.history volume) image → Shows geometry image texts
        → ((id : PageId) → HasPage geometry id → IsPageText geometry.version (texts (page_number geometry id)) id (number id) (images id))
        → IfOk result (λ heap. heaps.Shows unclaimed heap (take GATE_AT image) texts (λ id. map settled (images id))) }
    ensures held { IsTrue (D.is_honest volume) → (image : List ℕ) (texts : ℕ → List ℕ) → Stands (D.history volume) image → Shows geometry image texts
        → IfOk result (λ heap. (last : ℕ) → IsHeld (take GATE_AT image) texts texts heap [] last) }
    ensures any_moment { IsTrue (D.is_honest volume) → (image : List ℕ) (texts : ℕ → List ℕ) → Stands (D.history volume) image → Shows geometry image texts
        → LeavesOnly (D.history volume) (D.history (volume_of result)) (ShowsBehind geometry (take GATE_AT image) texts) }
    ensures none { IfOk result (λ heap. (k : ℕ) → frame_at heap k ≡ None) }
    ensures limit { IfOk result (λ heap. limit_of heap ≡ frames) }
    ensures geometry { IfOk result (λ heap. heaps.geometry_of heap ≡ geometry) }
    ensures refused { IsTrue (D.is_honest volume) → (image : List ℕ) → Stands (D.history volume) image
        → IfErr result (λ e. IsFromOutside e.0 ⊎ ((part GATE_AT 1 image ≡ OPEN ∷ []) × RefusesArea geometry image e.0)) }
    ensures honest { D.is_honest (volume_of result) ≡ D.is_honest volume }
    ensures size { size (D.history (volume_of result)) ≡ size (D.history volume) }
    ensures cause { HasCause (fault_of_volume result) (D.faults volume) (D.faults (volume_of result)) }
{
    let mut pages = PageDev::new(volume, geometry);
    if let Err(fault) = pages.replay(alloc) {
        return Err((fault, pages.into_device()));
    }
    match Heap::new(alloc, pages, frames) {
        Ok(heap) => Ok(heap),
        Err(pages) => Err((Fault::Memory, pages.into_device())),
    }
}

/// What an open is refused with, by the place that the error of its restart speaks of.
pub fn fault_of<D: Disk>(error: RestartError, log: &LogDev<D>) -> Fault
    ensures memory { error ≡ RestartError.Memory → result ≡ Fault.Memory }
    ensures anchor { (error ≡ RestartError.NoRoom) ⊎ (error ≡ RestartError.BadAnchor) → result ≡ Fault.Damaged Device.Log (offset_of log.now.anchors.slot) }
    ensures record_of { (n : ℕ) → error ≡ RestartError.BadRecord n → (offset : ℕ) × (result ≡ Fault.Damaged Device.Log offset)
        × ((tail place : ℕ) (front : List ℕ) → logs.IsSettledFrom tail place log.now front → tail ≤ n → n ≤ cut_of_log log.now + length (stable log.now)
        → IsFrameOf tail place (seen (D.history log.now.device)) n offset) }
    ensures page { (fault : Fault) → error ≡ RestartError.Page fault → result ≡ fault }
    ensures force { (fault : Fault) → error ≡ RestartError.Log fault → result ≡ fault }
    ensures others { ((fault : Fault) → error ≢ RestartError.Page fault) → ((fault : Fault) → error ≢ RestartError.Log fault) → result ≢ Fault.Device }
{
    match error {
        RestartError::Page(fault) | RestartError::Log(fault) => fault,
        RestartError::Memory => Fault::Memory,
        RestartError::NoRoom | RestartError::BadAnchor => {
            Fault::damaged(Device::Log, log.anchor_offset())
        }
        RestartError::BadRecord(number) => Fault::damaged(Device::Log, log.frame_of(number)),
    }
}
