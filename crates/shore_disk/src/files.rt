//! The two files of a pair: opened as they are, or made anew.
ghost use Rattle.std.specs.Prelude.{◌≡◌, ◌≢◌, IfOk, MatchOption, MatchResult, Ok, Err};
ghost use Rattle.shore_disk.specs.Device.{size};
ghost use Rattle.shore_disk.specs.FileDisk.{file_history};
ghost use Rattle.shore_disk.specs.Places.{place_bytes, bytes_at};

use crate::{FileCause, FileDisk, FilePlace};
use shore_types::Device;
use std::error::Error;
use std::fmt;
use std::fs::{File, Files};

/// Which file of a pair was refused, and why.
#[derive(Clone, Copy, PartialEq)]
pub struct FileRefusal {
    /// The log or the volume.
    pub device: Device,
    /// Why it was refused.
    pub cause: FileCause,
}

impl fmt::Display for FileRefusal {
    fn fmt<W: fmt::Write>(&self, f: &mut fmt::Formatter<W>) -> fmt::Result {
        write!(f, "the file of the {}: {}", self.device, self.cause)
    }
}

impl fmt::Debug for FileRefusal {
    fn fmt<W: fmt::Write>(&self, f: &mut fmt::Formatter<W>) -> fmt::Result {
        fmt::Display::fmt(self, f)
    }
}

impl Error for FileRefusal {}

fn of<T>(device: Device, answer: Result<T, FileCause>) -> Result<T, FileRefusal>
    ensures { MatchResult result (λ value. answer ≡ Ok value) (λ refusal. (answer ≡ Err refusal.cause) × (refusal.device ≡ device)) }
{
    match answer {
        Ok(value) => Ok(value),
        Err(cause) => Err(FileRefusal { device, cause }),
    }
}

fn foreign(device: Device) -> FileRefusal {
    FileRefusal {
        device,
        cause: FileCause::Foreign,
    }
}

/// Both files as they are, the log's first, each locked.
pub fn open_files(
    files: &impl Files<File = File>,
    log: &str,
    volume: &str,
) -> Result<(FileDisk, FileDisk), FileRefusal> {
    let log = of(Device::Log, FileDisk::open(files, log))?;
    let volume = of(Device::Volume, FileDisk::open(files, volume))?;
    Ok((log, volume))
}

/// Two paths at which a pair is to be made. The files that are there are locked, and as they were.
#[derive(Drop)]
pub struct FilePlaces<'p> {
    /// That of the log.
    pub log: FilePlace<'p>,
    /// That of the volume.
    pub volume: FilePlace<'p>,
}

impl<'p> FilePlaces<'p> {
    /// Looks at both paths, and locks what is there.
    pub fn look(
        files: &impl Files<File = File>,
        log: &'p str,
        volume: &'p str,
    ) -> Result<FilePlaces<'p>, FileRefusal> {
        Ok(FilePlaces {
            log: of(Device::Log, FilePlace::look(files, log))?,
            volume: of(Device::Volume, FilePlace::look(files, volume))?,
        })
    }

    /// Which of them holds a byte, the log first.
    pub fn filled(&self) -> Option<Device>
        ensures { MatchOption result (place_bytes self.now.log ≡ 0 × place_bytes self.now.volume ≡ 0) (λ device. bytes_at device self.now ≢ 0) }
    {
        if !self.log.is_empty() {
            return Some(Device::Log);
        }
        if !self.volume.is_empty() {
            return Some(Device::Volume);
        }
        None
    }

    /// Both devices made anew, with so many zeros each, as `FilePlace::cleared` does it. Neither file is changed unless both may go.
    pub fn cleared(
        mut self,
        files: &impl Files<File = File>,
        log_bytes: u64,
        volume_bytes: u64,
    ) -> Result<(FileDisk, FileDisk), FileRefusal>
        ensures log { IfOk result (λ pair. size (file_history pair.0) ≡ log_bytes) }
        ensures volume { IfOk result (λ pair. size (file_history pair.1) ≡ volume_bytes) }
    {
        if !of(Device::Log, self.log.is_ours())? {
            return Err(foreign(Device::Log));
        }
        if !of(Device::Volume, self.volume.is_ours())? {
            return Err(foreign(Device::Volume));
        }
        let log = of(Device::Log, self.log.cleared(files, log_bytes))?;
        let volume = of(Device::Volume, self.volume.cleared(files, volume_bytes))?;
        Ok((log, volume))
    }
}
