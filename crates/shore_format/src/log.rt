//! The front of a log device: its label, its anchors, and the gate where the stream begins.
ghost use Rattle.std.specs.Prelude.{◌≡◌, ◌≤◌, ◌<◌, ◌^◌, ◌↔◌, ◌∷◌, ◌++◌, ℕ, List, length, drop, IsTrue, IfOk, IfErr, OnOk};
ghost use Rattle.shore_disk.specs.Cause.{HasCause};
ghost use Rattle.shore_disk.specs.Device.{size, LeavesOnly, Stands};
ghost use Rattle.shore_types.specs.declared.layout.TheConstants.{LOG_FRONT_BYTES};
ghost use Rattle.shore_gate.specs.Checks.{IsFromOutside};
ghost use Rattle.shore_gate.specs.Label.{label_bytes};
ghost use Rattle.shore_fronts.specs.Fronts.{IsLogLength, log_label};
ghost use Rattle.shore_format.specs.Fronts.{IsShut, behind_label};

use shore_disk::{Disk, write_synced};
use shore_gate::{Anchor, CLOSED, LABEL_BYTES, Label, OPEN, write_label};
use shore_types::layout::{LOG_FRONT_BYTES, MAX_LOG_BYTES};
use shore_types::{Device, Fault, Geometry, Lsn, Version};
use std::alloc::{AllocError, Global};

// Places of the anchors and of the stream behind the label.
const ANCHOR_A: usize = 1024 - LABEL_BYTES;

const ANCHOR_B: usize = 2048 - LABEL_BYTES;

const STREAM_GATE: usize = LOG_FRONT_BYTES as usize - LABEL_BYTES;

/// The label of a log device of this length.
pub fn log_label(alloc: Global, geometry: &Geometry, length: u64) -> Result<Label, AllocError>
    ensures label { IfOk result (λ label. label ≡ log_label geometry.now length) }
    ensures pair { IfOk result (λ label. label.pair < 2 ^ 64) }
{
    let pair = geometry.pair;
    Ok(Label {
        version: geometry.version,
        pair,
        length,
        max_locks: geometry.max_locks,
        stores: geometry.stores.try_clone(alloc)?,
    })
}

/// Whether a log device of this version may be so long.
pub fn is_log_length(version: Version, length: u64) -> bool
    ensures { IsTrue result ↔ IsLogLength version length }
{
    (version.least_log()..=MAX_LOG_BYTES).contains(&length)
}

/// Writes what stands behind the closed gate of the label, and syncs.
pub fn write_log<D: Disk>(alloc: Global, log: &mut D, label: &Label) -> Result<(), Fault>
    requires size { 4097 ≤ size (D.history log.old) }
    requires stores { length label.now.stores ≤ 64 }
    ensures stands { IsTrue (D.is_honest log.old) → (rest : List ℕ) → Stands (D.history log.old) (CLOSED ∷ rest)
        → OnOk result (Stands (D.history log.new) (CLOSED ∷ (label_bytes Device.Log label.now ++ (behind_label ++ drop LOG_FRONT_BYTES rest)))) }
    ensures any_moment { IsTrue (D.is_honest log.old) → (rest : List ℕ) → Stands (D.history log.old) (CLOSED ∷ rest)
        → LeavesOnly (D.history log.old) (D.history log.new) IsShut }
    ensures outside { IfErr result IsFromOutside }
    ensures honest { D.is_honest log.new ≡ D.is_honest log.old }
    ensures size { size (D.history log.new) ≡ size (D.history log.old) }
    ensures cause { HasCause result (D.faults log.old) (D.faults log.new) }
{
    let rest = bytes_behind_label(alloc)?;
    write_label(alloc, log, Device::Log, label)?;
    write_synced(log, LABEL_BYTES as u64, &rest)?;
    Ok(())
}

// The first anchor counts, and begins the log at its first record; the second is closed.
#[tactic(auto, unfolding(crate::specs::Fronts::behind_label))]
fn bytes_behind_label(alloc: Global) -> Result<Vec<u8>, AllocError>
    ensures text { IfOk result (λ bytes. bytes.items ≡ behind_label) }
    ensures len { IfOk result (λ bytes. length bytes.items ≡ 3585) }
{
    let first = Anchor {
        sequence: 1,
        checkpoint: Lsn(0),
        tail: Lsn(1),
        tail_place: 0,
    };
    let mut bytes = Vec::with_capacity(alloc, STREAM_GATE + 1)?;
    bytes.resize(ANCHOR_A, 0)?;
    bytes.push(OPEN)?;
    bytes.extend_from_slice(&first.to_bytes())?;
    bytes.resize(ANCHOR_B, 0)?;
    bytes.push(CLOSED)?;
    bytes.resize(STREAM_GATE, 0)?;
    bytes.push(CLOSED)?;
    Ok(bytes)
}
