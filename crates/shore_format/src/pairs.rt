//! Formatting a pair of devices.
ghost use Rattle.std.specs.Prelude.{◌≡◌, ◌≢◌, ◌<◌, ◌^◌, ◌↔◌, ℕ, List, [], IsTrue, IfErr, OnOk, Err, Some, None};
ghost use Rattle.shore_disk.specs.Device.{size, may_leave, LeavesOnly};
ghost use Rattle.shore_types.specs.Layout.{IsInLimits, LocksInLimits, StoresInLimits};
ghost use Rattle.shore_gate.specs.Checks.{IsFromOutside};
ghost use Rattle.shore_fronts.specs.Causes.{HasCauseOfPair};
ghost use Rattle.shore_fronts.specs.Fronts.{IsLogLength, log_label};
ghost use Rattle.shore_fronts.specs.Volumes.{volume_bytes, volume_label};
ghost use Rattle.shore_format.specs.Faults.{bad_setting};
ghost use Rattle.shore_format.specs.Fronts.{LeftByFormat, LogStandsFor};
ghost use Rattle.shore_format.specs.Pairs.{AreFormatted, FormatWay};
ghost use Rattle.shore_format.specs.Volumes.{IsEmptyVolume};

use crate::log::{is_log_length, log_label, write_log};
use crate::volume::{volume_bytes, volume_label, write_volume};
use shore_disk::Disk;
use shore_gate::{Label, close_gate, open_gate};
use shore_types::{ConfigPlace, Fault, Geometry, Setting};
use std::alloc::Global;

// The gate of a label.
const GATE: u64 = 0;

/// Formats a pair of devices: closes the gates of both labels; writes the log's front, and an empty volume; opens the volume's gate, and
/// the log's last. Refused by `BadConfig` with the setting if the log device is too short or too long, if the geometry is outside the
/// limits, or if the volume has another length than the geometry asks; nothing is written then. After `Memory` both devices are as they
/// were, or the log's gate is closed; after `Device` each device may have what it had, a closed gate, or all that it was to have.
pub fn format<L: Disk, V: Disk>(
    alloc: Global,
    log: &mut L,
    volume: &mut V,
    geometry: &Geometry,
) -> Result<(), Fault>
    // Devices of other lengths, and a geometry outside the limits, are refused with the setting.
    ensures log_length { ¬ IsLogLength geometry.now.version (size (L.history log.old)) → result ≡ Err (bad_setting Setting.LogBytes) }
    ensures stores { IsLogLength geometry.now.version (size (L.history log.old)) → ¬ StoresInLimits geometry.now → result ≡ Err (bad_setting Setting.Stores) }
    ensures locks { IsLogLength geometry.now.version (size (L.history log.old)) → StoresInLimits geometry.now → ¬ LocksInLimits geometry.now
        → result ≡ Err (bad_setting Setting.MaxLocks) }
    ensures volume_length { IsLogLength geometry.now.version (size (L.history log.old)) → IsInLimits geometry.now → size (V.history volume.old) ≢ volume_bytes geometry.now
        → result ≡ Err (bad_setting Setting.VolumeBytes) }
    ensures others { IsLogLength geometry.now.version (size (L.history log.old)) → IsInLimits geometry.now → size (V.history volume.old) ≡ volume_bytes geometry.now
        → IfErr result IsFromOutside }
    ensures untouched { (setting : Setting) → result ≡ Err (bad_setting setting) → (log.new ≡ log.old) × (volume.new ≡ volume.old) }

    // Each pair of images that a crash now may leave is formatted.
    ensures formatted { IsTrue (L.is_honest log.old) → IsTrue (V.is_honest volume.old)
        → OnOk result ((log_image volume_image : List ℕ) → may_leave (L.history log.new) log_image → may_leave (V.history volume.new) volume_image
        → AreFormatted geometry.now (size (L.history log.old)) (size (V.history volume.old)) log_image volume_image) }

    // A crash at any moment of the call, whatever it answers, leaves a pair that is formatted, or one whose log has a closed gate, or one that it could have
    // left before, but for that gate.
    ensures any_moment { IsTrue (L.is_honest log.old) → IsTrue (V.is_honest volume.old)
        → FormatWay geometry.now (record { log = L.history log.old; volume = V.history volume.old }) (record { log = L.history log.new; volume = V.history volume.new }) }

    // Of each device alone it leaves what it could have left before, a closed gate, or what it has in the end.
    ensures any_log { IsTrue (L.is_honest log.old)
        → LeavesOnly (L.history log.old) (L.history log.new) (LeftByFormat (LogStandsFor geometry.now (size (L.history log.old)) []) (L.history log.old)) }
    ensures any_volume { IsTrue (V.is_honest volume.old)
        → LeavesOnly (V.history volume.old) (V.history volume.new) (LeftByFormat (IsEmptyVolume geometry.now (size (V.history volume.old))) (V.history volume.old)) }

    ensures honest { (L.is_honest log.new ≡ L.is_honest log.old) × (V.is_honest volume.new ≡ V.is_honest volume.old) }
    ensures size { (size (L.history log.new) ≡ size (L.history log.old)) × (size (V.history volume.new) ≡ size (V.history volume.old)) }
    ensures cause { HasCauseOfPair result (L.faults log.old) (L.faults log.new) (V.faults volume.old) (V.faults volume.new) }
{
    if let Some(setting) = refused_setting(log.len(), volume.len(), geometry) {
        return Err(bad(setting));
    }
    let of_log = log_label(alloc, geometry, log.len())?;
    let of_volume = volume_label(alloc, geometry)?;
    write_pair(alloc, log, volume, geometry, &of_log, &of_volume)
}

// The first setting that devices of these lengths may not be formatted with.
fn refused_setting(log_length: u64, volume_length: u64, geometry: &Geometry) -> Option<Setting>
    ensures none { (result ≡ None) ↔ (IsLogLength geometry.now.version log_length × IsInLimits geometry.now × (volume_length ≡ volume_bytes geometry.now)) }
    ensures log_length { ¬ IsLogLength geometry.now.version log_length → result ≡ Some Setting.LogBytes }
    ensures stores { IsLogLength geometry.now.version log_length → ¬ StoresInLimits geometry.now → result ≡ Some Setting.Stores }
    ensures locks { IsLogLength geometry.now.version log_length → StoresInLimits geometry.now → ¬ LocksInLimits geometry.now → result ≡ Some Setting.MaxLocks }
    ensures volume_length { IsLogLength geometry.now.version log_length → IsInLimits geometry.now → volume_length ≢ volume_bytes geometry.now
        → result ≡ Some Setting.VolumeBytes }
{
    if !is_log_length(geometry.version, log_length) {
        return Some(Setting::LogBytes);
    }
    if let Some(setting) = geometry.outside_limits() {
        return Some(setting);
    }
    if volume_length != volume_bytes(geometry) {
        return Some(Setting::VolumeBytes);
    }
    None
}

// Writes both devices behind closed gates, and opens these, the log's last. The labels are lent, so that no way out drops one.
fn write_pair<L: Disk, V: Disk>(
    alloc: Global,
    log: &mut L,
    volume: &mut V,
    geometry: &Geometry,
    of_log: &Label,
    of_volume: &Label,
) -> Result<(), Fault>
    requires log_length { IsLogLength geometry.now.version (size (L.history log.old)) }
    requires limits { IsInLimits geometry.now }
    requires pair { geometry.now.pair < 2 ^ 64 }
    requires volume_length { size (V.history volume.old) ≡ volume_bytes geometry.now }
    requires of_log { of_log.now ≡ log_label geometry.now (size (L.history log.old)) }
    requires of_volume { of_volume.now ≡ volume_label geometry.now }
    ensures formatted { IsTrue (L.is_honest log.old) → IsTrue (V.is_honest volume.old)
        → OnOk result ((log_image volume_image : List ℕ) → may_leave (L.history log.new) log_image → may_leave (V.history volume.new) volume_image
        → AreFormatted geometry.now (size (L.history log.old)) (size (V.history volume.old)) log_image volume_image) }
    ensures any_moment { IsTrue (L.is_honest log.old) → IsTrue (V.is_honest volume.old)
        → FormatWay geometry.now (record { log = L.history log.old; volume = V.history volume.old }) (record { log = L.history log.new; volume = V.history volume.new }) }
    ensures any_log { IsTrue (L.is_honest log.old)
        → LeavesOnly (L.history log.old) (L.history log.new) (LeftByFormat (LogStandsFor geometry.now (size (L.history log.old)) []) (L.history log.old)) }
    ensures any_volume { IsTrue (V.is_honest volume.old)
        → LeavesOnly (V.history volume.old) (V.history volume.new) (LeftByFormat (IsEmptyVolume geometry.now (size (V.history volume.old))) (V.history volume.old)) }
    ensures outside { IfErr result IsFromOutside }
    ensures honest { (L.is_honest log.new ≡ L.is_honest log.old) × (V.is_honest volume.new ≡ V.is_honest volume.old) }
    ensures size { (size (L.history log.new) ≡ size (L.history log.old)) × (size (V.history volume.new) ≡ size (V.history volume.old)) }
    ensures cause { HasCauseOfPair result (L.faults log.old) (L.faults log.new) (V.faults volume.old) (V.faults volume.new) }
{
    close_gate(log, GATE)?;
    close_gate(volume, GATE)?;
    write_log(alloc, log, of_log)?;
    write_volume(alloc, volume, geometry, of_volume)?;
    open_gate(volume, GATE)?;
    open_gate(log, GATE)?;
    Ok(())
}

fn bad(setting: Setting) -> Fault
    ensures { result ≡ bad_setting setting }
{
    Fault::BadConfig(ConfigPlace::Setting(setting))
}
