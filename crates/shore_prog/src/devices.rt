//! The two devices that a script works with, in memory or in files.
ghost use Rattle.std.specs.Prelude.{◌≡◌, ◌⊎◌, IfOk, IfErr, IfSome, IsErrAnd, IsOkAnd, IsSome, None};
ghost use Rattle.shore_disk.specs.AnyDisk.{any_history};
ghost use Rattle.shore_disk.specs.Device.{size};
ghost use Rattle.shore_fronts.specs.Volumes.{volume_bytes};
ghost use Rattle.shore_gate.specs.Checks.{IsFromOutside};
ghost use Rattle.shore_script.specs.Limits.{AreInLimits};
ghost use Rattle.shore_script.specs.declared.settings.Devices.TheVariants.{Memory};
ghost use Rattle.shore_types.specs.declared.faults.Fault.TheVariants as Fault;
ghost use Rattle.shore_prog.specs.Devices.{AreEmpty, AreFused, HaveFailedSync, HaveLengths, WouldLose, WouldLoseFiles};

use crate::causes::{Cause, Refusal, cause_of};
use shore_disk::{AnyDisk, FileCause, FilePlaces, FileRefusal, FuseDisk, MemDisk, open_files};
use shore_script::{Devices, FilePair, Fuses, Settings};
use shore_types::{ConfigPlace, Device, Fault, Setting};
use shore_world::{format, volume_bytes};
use std::alloc::{AllocError, Global};
use std::fs::{File, Files};

/// A device that may be made to fail.
pub type ScriptDisk = FuseDisk<AnyDisk>;

/// The log device and the volume.
pub type ScriptPair = (ScriptDisk, ScriptDisk);

/// The devices of the settings, formatted unless they are files that are to be opened as they are. Files of which the settings do not say what becomes of them
/// are made anew and formatted as long as neither holds a byte.
pub fn first_pair(
    alloc: Global,
    files: &impl Files<File = File>,
    settings: &Settings,
) -> Result<ScriptPair, Refusal>
    requires { AreInLimits settings.now }
    // The settings are at fault only if they would lose what is in a file.
    ensures { IfErr result (λ refusal. IsFromOutside refusal.fault ⊎ WouldLose settings.now.devices refusal.fault) }
{
    if let Devices::Files(paths) = &settings.devices
        && paths.is_made_anew == Some(false)
    {
        return opened(files, paths).map_err(|refusal| of_files(refusal));
    }
    let (mut log, mut volume) = new_pair(alloc, files, settings)?;
    match format(alloc, &mut log, &mut volume, &settings.geometry) {
        Ok(()) => Ok((log, volume)),
        Err(fault) => {
            let cause = cause_of(&fault, &mut log, &mut volume);
            Err(Refusal { fault, cause })
        }
    }
}

// Devices of the lengths that the settings ask for, with zeros.
fn new_pair(
    alloc: Global,
    files: &impl Files<File = File>,
    settings: &Settings,
) -> Result<ScriptPair, Refusal>
    requires { AreInLimits settings.now }
    ensures lengths { IfOk result (HaveLengths settings.now.log_bytes (volume_bytes settings.now.geometry)) }
    ensures refused { IfErr result (λ refusal. IsFromOutside refusal.fault ⊎ WouldLose settings.now.devices refusal.fault) }
{
    let log_bytes = settings.log_bytes;
    let volume_bytes = volume_bytes(&settings.geometry);
    match &settings.devices {
        Devices::Memory => match pair_in_memory(alloc, log_bytes, volume_bytes) {
            Ok(pair) => Ok(pair),
            Err(_) => Err(Refusal::untold(Fault::Memory)),
        },
        Devices::Files(paths) => made_anew(files, paths, log_bytes, volume_bytes),
    }
}

fn pair_in_memory(
    alloc: Global,
    log_bytes: u64,
    volume_bytes: u64,
) -> Result<ScriptPair, AllocError>
    ensures { IfOk result (HaveLengths log_bytes volume_bytes) }
{
    let log = zeroed(alloc, log_bytes)?;
    let volume = zeroed(alloc, volume_bytes)?;
    Ok(behind_fuses(log, volume, Fuses::NONE))
}

/// What a crash has left if no pair is at hand after it.
#[derive(Drop)]
pub struct NotOpened {
    /// Why not.
    pub cause: Cause,
    /// The devices as they were, if a sync of one has failed: neither is opened again.
    pub kept: Option<ScriptPair>,
}

/// The devices after a crash: those in memory as it left them, behind these fuses. Files are closed, and opened as they are, with no fuse, unless a sync of one
/// has failed.
pub fn pair_after_crash(
    files: &impl Files<File = File>,
    devices: &Devices,
    left: Option<(AnyDisk, AnyDisk)>,
    fuses: Fuses,
) -> Result<ScriptPair, NotOpened>
    ensures memory { devices.now ≡ Memory → IfSome left (λ disks. IsOkAnd result (AreFused fuses disks)) }
    ensures failed { ¬ (devices.now ≡ Memory) → IfSome left (λ disks. HaveFailedSync disks → IsErrAnd result (λ refused. IsSome refused.kept)) }
{
    match (devices, left) {
        (Devices::Memory, Some((log, volume))) => Ok(behind_fuses(log, volume, fuses)),
        (Devices::Memory, None) => Err(NotOpened {
            cause: Cause::Untold,
            kept: None,
        }),
        (Devices::Files(paths), left) => reopened(files, paths, left),
    }
}

fn reopened(
    files: &impl Files<File = File>,
    paths: &FilePair,
    left: Option<(AnyDisk, AnyDisk)>,
) -> Result<ScriptPair, NotOpened>
    ensures { IfSome left (λ disks. HaveFailedSync disks → IsErrAnd result (λ refused. IsSome refused.kept)) }
{
    if let Some((log, volume)) = left
        && let Some(device) = failed_sync_of(&log, &volume)
    {
        return Err(NotOpened {
            cause: Cause::FailedSync(device),
            kept: Some(behind_fuses(log, volume, Fuses::NONE)),
        });
    }
    match opened(files, paths) {
        Ok(pair) => Ok(pair),
        Err(refusal) => Err(NotOpened {
            cause: Cause::File(refusal),
            kept: None,
        }),
    }
}

// The file of which a sync has failed.
fn failed_sync_of(log: &AnyDisk, volume: &AnyDisk) -> Option<Device>
    ensures { HaveFailedSync (log.now, volume.now) → IsSome result }
{
    if log.has_failed_sync() {
        return Some(Device::Log);
    }
    if volume.has_failed_sync() {
        return Some(Device::Volume);
    }
    None
}

// Both files are locked and looked at before the first is changed.
fn made_anew(
    files: &impl Files<File = File>,
    paths: &FilePair,
    log_bytes: u64,
    volume_bytes: u64,
) -> Result<ScriptPair, Refusal>
    ensures lengths { IfOk result (HaveLengths log_bytes volume_bytes) }
    ensures refused { IfErr result (λ refusal. IsFromOutside refusal.fault ⊎ WouldLoseFiles paths.now refusal.fault) }
{
    let places = match FilePlaces::look(files, paths.log.as_str(), paths.volume.as_str()) {
        Ok(places) => places,
        Err(refusal) => return Err(of_files(refusal)),
    };
    if let Some(device) = may_stay(paths.is_made_anew, &places) {
        return Err(Refusal {
            fault: Fault::BadConfig(ConfigPlace::Setting(Setting::Format)),
            cause: Cause::MayStay(device),
        });
    }
    anew(files, paths, places, log_bytes, volume_bytes)
}

fn anew(
    files: &impl Files<File = File>,
    paths: &FilePair,
    places: FilePlaces<'_>,
    log_bytes: u64,
    volume_bytes: u64,
) -> Result<ScriptPair, Refusal>
    // What holds a byte goes only by a word.
    requires { paths.now.is_made_anew ≡ None → AreEmpty places }
    ensures lengths { IfOk result (HaveLengths log_bytes volume_bytes) }
    ensures refused { IfErr result (λ refusal. IsFromOutside refusal.fault ⊎ WouldLoseFiles paths.now refusal.fault) }
{
    match places.cleared(files, log_bytes, volume_bytes) {
        Ok((log, volume)) => Ok(behind_fuses(
            AnyDisk::File(log),
            AnyDisk::File(volume),
            Fuses::NONE,
        )),
        Err(refusal) => Err(of_making(paths, refusal)),
    }
}

// The file that holds bytes, if the settings do not say what becomes of them.
fn may_stay(is_made_anew: Option<bool>, places: &FilePlaces<'_>) -> Option<Device>
    ensures stays { result ≡ None → is_made_anew ≡ None → AreEmpty places.now }
    ensures goes { IsSome result → is_made_anew ≡ None }
{
    match is_made_anew {
        None => places.filled(),
        Some(_) => None,
    }
}

fn of_files(refusal: FileRefusal) -> Refusal
    ensures { result.fault ≡ Fault.Device }
{
    Refusal {
        fault: Fault::Device,
        cause: Cause::File(refusal),
    }
}

// A file that holds something else is the setting's fault, and stays as it is.
fn of_making(paths: &FilePair, refusal: FileRefusal) -> Refusal
    ensures { IsFromOutside result.fault ⊎ WouldLoseFiles paths.now result.fault }
{
    let setting = match refusal.device {
        Device::Log => Setting::LogPath,
        Device::Volume => Setting::VolumePath,
    };
    match refusal.cause {
        FileCause::Foreign => Refusal {
            fault: Fault::BadConfig(ConfigPlace::Setting(setting)),
            cause: Cause::File(refusal),
        },
        _ => of_files(refusal),
    }
}

fn opened(files: &impl Files<File = File>, paths: &FilePair) -> Result<ScriptPair, FileRefusal> {
    let (log, volume) = open_files(files, paths.log.as_str(), paths.volume.as_str())?;
    Ok(behind_fuses(AnyDisk::File(log), AnyDisk::File(volume), Fuses::NONE))
}

// A device in memory of so many zeros.
fn zeroed(alloc: Global, len: u64) -> Result<AnyDisk, AllocError>
    ensures { IfOk result (λ disk. size (any_history disk) ≡ len) }
{
    let bytes = Vec::from_elem(alloc, 0, len as usize)?;
    Ok(AnyDisk::Memory(MemDisk::new(alloc, bytes)?))
}

fn behind_fuses(log: AnyDisk, volume: AnyDisk, fuses: Fuses) -> ScriptPair
    ensures { AreFused fuses (log, volume) result }
{
    (
        FuseDisk::new(log, fuses.log),
        FuseDisk::new(volume, fuses.volume),
    )
}
