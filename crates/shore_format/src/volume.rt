//! An empty volume: its label, the shut gate of its double-write area, and its pages.
ghost use Rattle.std.specs.Prelude.{◌≡◌, ◌≤◌, ◌^◌, ◌<◌, ◌∷◌, ℕ, List, length, IsTrue, IfOk, IfErr, OnOk};
ghost use Rattle.shore_disk.specs.Cause.{HasCause};
ghost use Rattle.shore_disk.specs.Device.{size, seen, may_leave, LeavesOnly, Stands};
ghost use Rattle.shore_types.specs.Layout.{IsInLimits};
ghost use Rattle.shore_gate.specs.declared.gates.TheConstants.{CLOSED};
ghost use Rattle.shore_gate.specs.Checks.{IsFromOutside};
ghost use Rattle.shore_format.specs.Fronts.{IsShut};
ghost use Rattle.shore_fronts.specs.Volumes.{volume_bytes, volume_label};
ghost use Rattle.shore_format.specs.Volumes.{HasEmptyPages, IsEmptyBehind};

use shore_disk::Disk;
use shore_dwrite::{GATE_AT, page_count, page_of, page_offset};
use shore_gate::{CLOSED, Label, write_label};
use shore_page::Page;
use shore_types::{Device, Fault, Geometry};
use std::alloc::{AllocError, Global};

/// How long a volume of this geometry is.
pub fn volume_bytes(geometry: &Geometry) -> u64
    requires { IsInLimits geometry.now }
    ensures { result ≡ volume_bytes geometry.now }
{
    page_offset(geometry.version, page_count(geometry))
}

/// Its label.
pub fn volume_label(alloc: Global, geometry: &Geometry) -> Result<Label, AllocError>
    requires { IsInLimits geometry.now }
    ensures label { IfOk result (λ label. label ≡ volume_label geometry.now) }
    ensures pair { IfOk result (λ label. label.pair < 2 ^ 64) }
{
    let pair = geometry.pair;
    Ok(Label {
        version: geometry.version,
        pair,
        length: volume_bytes(geometry),
        max_locks: geometry.max_locks,
        stores: geometry.stores.try_clone(alloc)?,
    })
}

/// Writes an empty volume behind the closed gate of its label, and syncs.
pub fn write_volume<D: Disk>(
    alloc: Global,
    volume: &mut D,
    geometry: &Geometry,
    label: &Label,
) -> Result<(), Fault>
    requires size { size (D.history volume.old) ≡ volume_bytes geometry.now }
    requires limits { IsInLimits geometry.now }
    requires label { label.now ≡ volume_label geometry.now }
    ensures stands { IsTrue (D.is_honest volume.old) → (rest : List ℕ) → Stands (D.history volume.old) (CLOSED ∷ rest)
        → OnOk result ((behind : List ℕ) × Stands (D.history volume.new) (CLOSED ∷ behind) × IsEmptyBehind geometry.now behind) }
    ensures any_moment { IsTrue (D.is_honest volume.old) → (rest : List ℕ) → Stands (D.history volume.old) (CLOSED ∷ rest)
        → LeavesOnly (D.history volume.old) (D.history volume.new) IsShut }
    ensures outside { IfErr result IsFromOutside }
    ensures honest { D.is_honest volume.new ≡ D.is_honest volume.old }
    ensures size { size (D.history volume.new) ≡ size (D.history volume.old) }
    ensures cause { HasCause result (D.faults volume.old) (D.faults volume.new) }
{
    write_label(alloc, volume, Device::Volume, label)?;
    volume.write_at(GATE_AT, &[CLOSED])?;
    write_pages(alloc, volume, geometry)?;
    volume.sync()?;
    Ok(())
}

// Writes every page of an empty volume, without a sync.
fn write_pages<D: Disk>(alloc: Global, volume: &mut D, geometry: &Geometry) -> Result<(), Fault>
    requires size { size (D.history volume.old) ≡ volume_bytes geometry.now }
    requires limits { IsInLimits geometry.now }
    ensures pages { IsTrue (D.is_honest volume.old) → OnOk result (HasEmptyPages geometry.now (seen (D.history volume.old)) (seen (D.history volume.new))) }
    ensures any_moment { IsTrue (D.is_honest volume.old) → ((c : List ℕ) → may_leave (D.history volume.old) c → IsShut c)
        → LeavesOnly (D.history volume.old) (D.history volume.new) IsShut }
    ensures outside { IfErr result IsFromOutside }
    ensures honest { D.is_honest volume.new ≡ D.is_honest volume.old }
    ensures size { size (D.history volume.new) ≡ size (D.history volume.old) }
    ensures cause { HasCause result (D.faults volume.old) (D.faults volume.new) }
{
    for number in 0..page_count(geometry) {
        let page = Page::new(alloc, geometry.version, page_of(geometry, number))?;
        volume.write_at(page_offset(geometry.version, number), page.text())?;
    }
    Ok(())
}
