//! A device over a file, of whose bytes nothing is known.
ghost use Rattle.std.specs.Prelude.{◌≡◌, ◌+◌, ◌≤◌, IsTrue, IsErr, OnErr, OnOk, IfOk, length};
ghost use Rattle.shore_disk.specs.Device.{CountsFault, size};

use crate::fuse::refuse;
use crate::{Disk, DiskFault, FileCause};
use std::fs::{File, Files, OpenOptions, TryLockError, metadata};
use std::io::{self, ErrorKind};
use std::os::unix::fs::FileExt;
use std::path::Path;

/// A file with the length that it had as it was opened. It makes each call of a device, and promises nothing of
/// the bytes, since no contract can say what a file keeps. A sync asks for the bytes alone (`fdatasync`), for the length stays.
/// A lock on the file goes as the device is dropped.
///
/// A sync that failed is believed once: the system may drop what it did not write, show it from its cache, and answer the next sync well. So each later
/// call of the device is refused, and whoever opens the file again does so in another process, once the system's cache of it was dropped.
#[derive(Drop)]
pub struct FileDisk {
    // The file, open for reads and writes, and locked.
    file: File,
    // Its length as it was opened; no call of a device changes it.
    len: u64,
    // How many calls have failed.
    failures: u64,
    // A sync has failed.
    sync_failed: bool,
    // Why a call failed, the last that was made.
    cause: Option<FileCause>,
}

impl FileDisk {
    ghost use Rattle.shore_disk.specs.FileDisk.{failures_of, file_history, has_failed_sync, IsFresh};

    /// The device of the file at a path, locked, so that no other device is opened over it meanwhile. It fails if the file cannot be opened
    /// for reading and writing, or is locked by another.
    pub fn open(files: &impl Files<File = File>, path: &str) -> Result<FileDisk, FileCause>
        ensures { IfOk result IsFresh }
    {
        let mut options = OpenOptions::new();
        match options.read(true).write(true).open(files, path) {
            Ok(file) => FileDisk::locked(file),
            Err(error) => Err(cause_of_open(files, path, &error)),
        }
    }

    /// The device of a file that is made at a path, with no byte. It fails if something is there, a link too.
    pub(crate) fn create(files: &impl Files<File = File>, path: &str) -> Result<FileDisk, FileCause>
        ensures { IfOk result IsFresh }
    {
        let mut options = OpenOptions::new();
        match options
            .read(true)
            .write(true)
            .create_new(true)
            .open(files, path)
        {
            Ok(file) => FileDisk::locked(file),
            Err(error) => Err(cause_of_making(files, path, &error)),
        }
    }

    // It is locked before it is changed.
    fn locked(file: File) -> Result<FileDisk, FileCause>
        ensures { IfOk result IsFresh }
    {
        match file.try_lock() {
            Ok(()) => FileDisk::new(file).map_err(|error| FileCause::of(&error)),
            Err(TryLockError::WouldBlock) => Err(FileCause::InUse),
            Err(TryLockError::Error(error)) => Err(FileCause::of(&error)),
        }
    }

    /// The device of a file that is open for reading and writing. It fails if the length of the file cannot be read.
    pub fn new(file: File) -> io::Result<FileDisk>
        ensures { IfOk result IsFresh }
    {
        let len = file.metadata()?.len();
        Ok(FileDisk {
            file,
            len,
            failures: 0,
            sync_failed: false,
            cause: None,
        })
    }

    /// Whether a sync has failed: then every call fails, and the file is to be opened no more by this process.
    pub fn has_failed_sync(&self) -> bool
        ensures { result ≡ has_failed_sync self.now }
    {
        self.sync_failed
    }

    /// Why a call failed, the last that was made; none before one has.
    pub fn cause(&self) -> Option<FileCause> {
        self.cause
    }

    // Counts a call that failed, and keeps why.
    fn fail(&mut self, cause: FileCause) -> Result<(), DiskFault>
        ensures fails { IsErr result }
        ensures counted { CountsFault result (failures_of self.old) (failures_of self.new) }
        ensures length { file_history self.new ≡ file_history self.old }
        ensures sync { has_failed_sync self.new ≡ has_failed_sync self.old }
    {
        self.cause = Some(cause);
        refuse(&mut self.failures)
    }

    // Counts a call if it failed.
    fn count(&mut self, answer: io::Result<()>) -> Result<(), DiskFault>
        ensures counted { CountsFault result (failures_of self.old) (failures_of self.new) }
        ensures length { file_history self.new ≡ file_history self.old }
        ensures sync { has_failed_sync self.new ≡ has_failed_sync self.old }
    {
        match answer {
            Ok(()) => Ok(()),
            Err(error) => self.fail(FileCause::of(&error)),
        }
    }

    // Asks for the bytes, and sees that the file is as long as it was.
    fn synced(&self) -> Result<(), FileCause> {
        if let Err(error) = self.file.sync_data() {
            return Err(FileCause::of(&error));
        }
        match self.file.metadata() {
            Ok(found) if found.len() == self.len => Ok(()),
            Ok(_) => Err(FileCause::OtherLength),
            Err(error) => Err(FileCause::of(&error)),
        }
    }

    /// The bytes of a block that a file is filled with.
    pub(crate) const BLOCK_BYTES: u64 = 65_536;

    // The device with so many zeros in place of what it had, durable. The zeros are written, so that no later write lacks room on its disk. If that fails
    // the device is gone, and the file may have any length.
    pub(crate) fn filled(self, len: u64) -> Result<FileDisk, FileCause>
        ensures size { IfOk result (λ d. size (file_history d) ≡ len) }
        ensures fresh { IfOk result IsFresh }
    {
        if self.sync_failed {
            return Err(self.cause.unwrap_or(FileCause::Unknown));
        }
        if let Err(error) = self.fill(len) {
            return Err(FileCause::of(&error));
        }
        match FileDisk::new(self.file) {
            Ok(disk) if disk.len == len => Ok(disk),
            Ok(_) => Err(FileCause::OtherLength),
            Err(error) => Err(FileCause::of(&error)),
        }
    }

    fn fill(&self, len: u64) -> io::Result<()> {
        let zeros = [0u8; FileDisk::BLOCK_BYTES as usize];
        self.file.set_len(0)?;
        for block in 0..len / FileDisk::BLOCK_BYTES {
            self.file
                .write_all_at(&zeros, block * FileDisk::BLOCK_BYTES)?;
        }
        let rest = len % FileDisk::BLOCK_BYTES;
        self.file.write_all_at(&zeros[..rest as usize], len - rest)?;
        self.file.sync_all()
    }
}

// Why a file could not be opened.
fn cause_of_open(files: &impl Files<File = File>, path: &str, error: &io::Error) -> FileCause {
    if error.kind() != ErrorKind::NotFound {
        return FileCause::of(error);
    }
    match metadata(files, folder_of(path)) {
        Ok(_) => FileCause::Missing,
        Err(_) => FileCause::NoFolder,
    }
}

// Why a file could not be made where there seemed to be none. One that is there now was made meanwhile, by whoever has the same path.
fn cause_of_making(files: &impl Files<File = File>, path: &str, error: &io::Error) -> FileCause {
    match error.kind() {
        ErrorKind::NotFound => FileCause::NoFolder,
        ErrorKind::AlreadyExists => match metadata(files, path) {
            Ok(_) => FileCause::InUse,
            Err(_) => FileCause::DanglingLink,
        },
        _ => FileCause::of(error),
    }
}

/// The folder that a path names a file in.
pub(crate) fn folder_of(path: &str) -> &str {
    match Path::new(path).parent() {
        Some(folder) if !folder.as_str().is_empty() => folder.as_str(),
        _ => ".",
    }
}

impl Disk for FileDisk {
    ghost use Rattle.std.specs.Prelude.{false, refl};
    ghost use Rattle.shore_disk.specs.FileDisk.{failures_of, file_history, has_failed_sync};

    ghost is_honest = { λ _. false };

    ghost history = { file_history };

    ghost faults = { failures_of };

    fn len(&self) -> u64 {
        self.len
    }

    fn failures(&self) -> u64 {
        self.failures
    }

    fn read_at(&mut self, at: u64, out: &mut [u8]) -> Result<(), DiskFault>
        requires { at + length out.old ≤ size (file_history self.old) }
        // After a sync that failed the file is reached no more.
        ensures refused { IsTrue (has_failed_sync self.old) → IsErr result × (out.new ≡ out.old) }
        ensures sync { has_failed_sync self.new ≡ has_failed_sync self.old }
        ensures size { size (file_history self.new) ≡ size (file_history self.old) }
        ensures cause { CountsFault result (failures_of self.old) (failures_of self.new) }
    {
        if self.sync_failed {
            return refuse(&mut self.failures);
        }
        let answer = self.file.read_exact_at(out, at);
        self.count(answer)
    }

    fn write_at(&mut self, at: u64, bytes: &[u8]) -> Result<(), DiskFault>
        requires { at + length bytes.now ≤ size (file_history self.old) }
        ensures refused { IsTrue (has_failed_sync self.old) → IsErr result }
        ensures sync { has_failed_sync self.new ≡ has_failed_sync self.old }
        ensures size { size (file_history self.new) ≡ size (file_history self.old) }
        ensures cause { CountsFault result (failures_of self.old) (failures_of self.new) }
    {
        if self.sync_failed {
            return refuse(&mut self.failures);
        }
        let answer = self.file.write_all_at(bytes, at);
        self.count(answer)
    }

    fn sync(&mut self) -> Result<(), DiskFault>
        ensures refused { IsTrue (has_failed_sync self.old) → IsErr result }
        // Exactly a sync that fails makes it so.
        ensures failed { OnErr result (IsTrue (has_failed_sync self.new)) }
        ensures works { OnOk result (has_failed_sync self.new ≡ has_failed_sync self.old) }
        ensures size { size (file_history self.new) ≡ size (file_history self.old) }
        ensures cause { CountsFault result (failures_of self.old) (failures_of self.new) }
    {
        if self.sync_failed {
            return refuse(&mut self.failures);
        }
        match self.synced() {
            Ok(()) => Ok(()),
            Err(cause) => {
                self.sync_failed = true;
                self.fail(cause)
            }
        }
    }

    ghost keeps_length = { λ _ _. refl };
}
