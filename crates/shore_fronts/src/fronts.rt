//! Reading what the fronts of a pair say.
ghost use Rattle.std.specs.Prelude.{◌≡◌, ◌⊎◌, ◌↔◌, IsTrue, IfOk, IfErr, OnOk, MatchResult};
ghost use Rattle.shore_types.specs.Layout.{IsInLimits};
ghost use Rattle.shore_types.specs.declared.layout.Geometry.{Geometry};
ghost use Rattle.shore_disk.specs.Cause.{HasCause};
ghost use Rattle.shore_disk.specs.Device.{seen, size};
ghost use Rattle.shore_gate.specs.Checks.{IsFromOutside};
ghost use Rattle.shore_gate.specs.Anchor.{Counts};
ghost use Rattle.shore_gate.specs.declared.anchors.Anchors.{Anchors};
ghost use Rattle.shore_fronts.specs.Barriers.{IsBeforeBarrier, IsBehindBarrier};
ghost use Rattle.shore_fronts.specs.Causes.{HasCauseOfPair};
ghost use Rattle.shore_fronts.specs.Fronts.{IsLogLength};
ghost use Rattle.shore_fronts.specs.Pairs.{AreFronts, ArePaired, HaveFronts, RefusesFronts, RefusesLabels};
ghost use Rattle.shore_fronts.specs.Volumes.{volume_bytes};

use shore_disk::Disk;
use shore_gate::{Anchors, Label, read_label};
use shore_types::{Device, Fault, Geometry};
use std::alloc::Global;

/// What the fronts of a pair say.
#[derive(Drop)]
pub struct Fronts {
    /// The pair's version, number, stores and lock nodes, as both labels have them.
    pub geometry: Geometry,
    /// The same, as the volume's label has it, for those who keep the pages.
    pub of_pages: Geometry,
    /// The anchor that counts, and its slot.
    pub anchors: Anchors,
}

/// Reads the fronts of a pair: a barrier on both devices, the log's first; the labels, the log's first; that they are of one pair; and the
/// anchor that counts. `WrongPair` if the labels are of two versions, or laid out differently.
pub fn read_fronts<L: Disk, V: Disk>(
    alloc: Global,
    log: &mut L,
    volume: &mut V,
) -> Result<Fronts, Fault>
    // The fronts that stand there are answered, and nothing else is taken for one.
    ensures found { IsTrue (L.is_honest log.old) → IsTrue (V.is_honest volume.old) → IfOk result (AreFronts (L.history log.old) (V.history volume.old)) }
    ensures only { IsTrue (L.is_honest log.old) → IsTrue (V.is_honest volume.old) → (g : Geometry) (counting : Anchors) → HaveFronts g counting (L.history log.old) (V.history volume.old)
        → MatchResult result (λ fronts. (fronts.geometry ≡ g) × (fronts.anchors ≡ counting)) IsFromOutside }

    // The anchor is told rightly whatever the volume does.
    ensures counts { IsTrue (L.is_honest log.old) → IfOk result (λ fronts. Counts (seen (L.history log.old)) fronts.anchors.slot fronts.anchors.anchor) }

    // What is refused goes by the checks in their order.
    ensures refused { IsTrue (L.is_honest log.old) → IsTrue (V.is_honest volume.old)
        → IfErr result (λ fault. IsFromOutside fault ⊎ RefusesFronts (L.history log.old) (V.history volume.old) fault) }

    // Then a crash leaves of both what is read, and nothing else; and at each moment of the call, also at an error, what it could have left before.
    ensures log_behind { IsTrue (L.is_honest log.old) → OnOk result (IsBehindBarrier (L.history log.old) (L.history log.new)) }
    ensures volume_behind { IsTrue (V.is_honest volume.old) → OnOk result (IsBehindBarrier (V.history volume.old) (V.history volume.new)) }
    ensures log_before { IsTrue (L.is_honest log.old) → IsBeforeBarrier (L.history log.old) (L.history log.new) }
    ensures volume_before { IsTrue (V.is_honest volume.old) → IsBeforeBarrier (V.history volume.old) (V.history volume.new) }

    ensures long { IfOk result (λ fronts. IsLogLength fronts.geometry.version (size (L.history log.old)) × (size (V.history volume.old) ≡ volume_bytes fronts.geometry)) }
    ensures limits { IfOk result (λ fronts. IsInLimits fronts.geometry × (fronts.of_pages ≡ fronts.geometry)) }
    ensures honest { (L.is_honest log.new ≡ L.is_honest log.old) × (V.is_honest volume.new ≡ V.is_honest volume.old) }
    ensures size { (size (L.history log.new) ≡ size (L.history log.old)) × (size (V.history volume.new) ≡ size (V.history volume.old)) }
    ensures cause { HasCauseOfPair result (L.faults log.old) (L.faults log.new) (V.faults volume.old) (V.faults volume.new) }
{
    log.sync()?;
    volume.sync()?;
    let (geometry, of_pages) = read_labels(alloc, log, volume)?;
    let anchors = Anchors::read(log)?;
    Ok(Fronts {
        geometry,
        of_pages,
        anchors,
    })
}

// The geometry as each label has it: they are the same.
fn read_labels<L: Disk, V: Disk>(
    alloc: Global,
    log: &mut L,
    volume: &mut V,
) -> Result<(Geometry, Geometry), Fault>
    ensures found { IsTrue (L.is_honest log.old) → IsTrue (V.is_honest volume.old) → IfOk result (λ found. ArePaired found.0 (L.history log.old) (V.history volume.old)) }
    ensures only { IsTrue (L.is_honest log.old) → IsTrue (V.is_honest volume.old) → (g : Geometry) → ArePaired g (L.history log.old) (V.history volume.old)
        → MatchResult result (λ found. found.0 ≡ g) IsFromOutside }
    ensures refused { IsTrue (L.is_honest log.old) → IsTrue (V.is_honest volume.old)
        → IfErr result (λ fault. IsFromOutside fault ⊎ RefusesLabels (L.history log.old) (V.history volume.old) fault) }
    ensures long { IfOk result (λ found. IsLogLength found.0.version (size (L.history log.old)) × (size (V.history volume.old) ≡ volume_bytes found.0)) }
    ensures limits { IfOk result (λ found. IsInLimits found.0 × (found.1 ≡ found.0)) }
    ensures log_same { IsTrue (L.is_honest log.old) → L.history log.new ≡ L.history log.old }
    ensures volume_same { IsTrue (V.is_honest volume.old) → V.history volume.new ≡ V.history volume.old }
    ensures honest { (L.is_honest log.new ≡ L.is_honest log.old) × (V.is_honest volume.new ≡ V.is_honest volume.old) }
    ensures size { (size (L.history log.new) ≡ size (L.history log.old)) × (size (V.history volume.new) ≡ size (V.history volume.old)) }
    ensures cause { HasCauseOfPair result (L.faults log.old) (L.faults log.new) (V.faults volume.old) (V.faults volume.new) }
{
    let of_log = read_label(alloc, log, Device::Log)?;
    let of_volume = read_label(alloc, volume, Device::Volume)?;
    let log_geometry = geometry_of(of_log);
    let volume_geometry = geometry_of(of_volume);
    if !are_same(&log_geometry, &volume_geometry) {
        return Err(Fault::WrongPair);
    }
    Ok((log_geometry, volume_geometry))
}

fn geometry_of(label: Label) -> Geometry
    ensures { result ≡ record { version = label.version; pair = label.pair; max_locks = label.max_locks; stores = label.stores } }
{
    Geometry {
        version: label.version,
        pair: label.pair,
        max_locks: label.max_locks,
        stores: label.stores,
    }
}

fn are_same(one: &Geometry, other: &Geometry) -> bool
    ensures { IsTrue result ↔ (other.now ≡ one.now) }
{
    one.version == other.version
        && one.pair == other.pair
        && one.max_locks == other.max_locks
        && one.stores == other.stores
}
