//! Why the devices of a script could not be opened, in words for whoever can mend it.
ghost use Rattle.std.specs.Prelude.{◌≡◌};

use crate::devices::ScriptDisk;
use shore_disk::{AnyDisk, Disk, FileCause, FileRefusal, device_of_head};
use shore_script::{Devices, FilePair};
use shore_types::{Device, Fault, Setting};
use shore_world::TailHolder;
use std::io::{self, Write};

/// A refusal of the devices, and what can be told of it beyond its fault.
#[derive(Drop)]
pub struct Refusal {
    /// What the script prints.
    pub fault: Fault,
    /// What a person can act on.
    pub cause: Cause,
}

impl Refusal {
    /// A refusal of which there is no more to tell.
    pub fn untold(fault: Fault) -> Refusal
        ensures { result.fault ≡ fault }
    {
        Refusal {
            fault,
            cause: Cause::Untold,
        }
    }
}

/// Why devices were refused.
#[derive(Clone, Copy, PartialEq)]
pub enum Cause {
    /// Nothing more than the fault is known.
    Untold,
    /// This file could not be opened or made, or a call of its device failed.
    File(FileRefusal),
    /// This file holds bytes, and the settings do not say whether they may go.
    MayStay(Device),
    /// The file of this device is that of the other.
    IsTheOther(Device),
    /// A sync of this file has failed.
    FailedSync(Device),
}

/// Writes that a path is not used.
pub fn write_unused<W: Write>(errors: &mut W, setting: Setting) -> io::Result<()> {
    writeln!(
        errors,
        "{setting} is not used: without the line devices = \"files\" all is in memory, and nothing is kept"
    )
}

/// Writes the cause of a refusal of files, if there is one.
pub fn write_cause<W: Write>(errors: &mut W, devices: &Devices, cause: &Cause) -> io::Result<()> {
    match devices {
        Devices::Memory => Ok(()),
        Devices::Files(paths) => write_cause_of_files(errors, paths, cause),
    }
}

/// Writes what a full log is kept for, and what lets go of it.
pub fn write_tail_holder<W: Write>(errors: &mut W, holder: &TailHolder) -> io::Result<()> {
    match holder {
        TailHolder::Transaction {
            txn,
            session: Some(session),
            first,
        } => writeln!(
            errors,
            "the log is full: it is kept from record {} on for transaction {} of session {}: commit or abort it, or resolve it if it is prepared, and make a checkpoint",
            first.0, txn.0, session.0
        ),
        TailHolder::Transaction {
            txn,
            session: None,
            first,
        } => writeln!(
            errors,
            "the log is full: it is kept from record {} on for transaction {}, in which no session is: resolve it, and make a checkpoint",
            first.0, txn.0
        ),
        TailHolder::Page(entry) => writeln!(
            errors,
            "the log is full: it is kept from record {} on for page {}.{}, which is dirty: flush, and make a checkpoint",
            entry.recovery.0, entry.page.store.0, entry.page.page
        ),
        TailHolder::Nobody => errors.write_all(
            b"the log is full: no transaction and no page keeps it; make a checkpoint\n",
        ),
    }
}

fn write_cause_of_files<W: Write>(
    errors: &mut W,
    paths: &FilePair,
    cause: &Cause,
) -> io::Result<()> {
    match cause {
        Cause::Untold => Ok(()),
        Cause::File(refusal) => {
            let path = path_of(paths, refusal.device);
            writeln!(
                errors,
                "{path} ({}_path): {}",
                refusal.device, refusal.cause
            )
        }
        Cause::MayStay(device) => {
            let path = path_of(paths, *device);
            writeln!(
                errors,
                "{path} ({device}_path) holds bytes, and the settings do not say what is to become of them. Write one of two lines into the settings:"
            )?;
            writeln!(errors, "format = false    to open both files as they are")?;
            writeln!(
                errors,
                "format = true     to make both anew: what they hold is gone then"
            )
        }
        Cause::IsTheOther(device) => {
            let path = path_of(paths, *device);
            writeln!(
                errors,
                "{path} ({device}_path) is a {}: are both paths swapped?",
                other(*device)
            )
        }
        Cause::FailedSync(device) => {
            let path = path_of(paths, *device);
            writeln!(
                errors,
                "{path} ({device}_path): a sync of it has failed, and this program opens it no more: what the disk has of it is not known before the system's cache of it is dropped"
            )
        }
    }
}

fn path_of(paths: &FilePair, device: Device) -> &str {
    match device {
        Device::Log => paths.log.as_str(),
        Device::Volume => paths.volume.as_str(),
    }
}

fn other(device: Device) -> Device {
    match device {
        Device::Log => Device::Volume,
        Device::Volume => Device::Log,
    }
}

/// Why a pair that was at hand was refused with this fault: the file whose device failed, or that is the other's.
pub fn cause_of(fault: &Fault, log: &mut ScriptDisk, volume: &mut ScriptDisk) -> Cause {
    match fault {
        Fault::Device => failed_file(log, volume),
        Fault::NotFormatted => turned_file(log, volume),
        _ => Cause::Untold,
    }
}

fn failed_file(log: &ScriptDisk, volume: &ScriptDisk) -> Cause {
    match (file_cause(log), file_cause(volume)) {
        (Some(cause), _) => of_file(Device::Log, cause),
        (None, Some(cause)) => of_file(Device::Volume, cause),
        (None, None) => Cause::Untold,
    }
}

fn of_file(device: Device, cause: FileCause) -> Cause {
    Cause::File(FileRefusal { device, cause })
}

fn file_cause(disk: &ScriptDisk) -> Option<FileCause> {
    match disk.inner() {
        AnyDisk::Memory(_) => None,
        AnyDisk::File(disk) => disk.cause(),
    }
}

fn turned_file(log: &mut ScriptDisk, volume: &mut ScriptDisk) -> Cause {
    if device_named(log) == Some(Device::Volume) {
        return Cause::IsTheOther(Device::Log);
    }
    if device_named(volume) == Some(Device::Log) {
        return Cause::IsTheOther(Device::Volume);
    }
    Cause::Untold
}

// Whose label a device has, if it has one.
fn device_named(disk: &mut ScriptDisk) -> Option<Device> {
    let mut head = [0u8; 7];
    if disk.len() < 8 || disk.read_at(1, &mut head).is_err() {
        return None;
    }
    device_of_head(&head)
}
