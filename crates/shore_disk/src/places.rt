//! Where devices over files are made: what is there may be lost, or stays as it is.
ghost use Rattle.std.specs.Prelude.{◌≡◌, ◌↔◌, IsTrue, IfOk, OnOk};
ghost use Rattle.shore_disk.specs.Device.{size};
ghost use Rattle.shore_disk.specs.FileDisk.{file_history, IsFresh};
ghost use Rattle.shore_disk.specs.Fronts.{IsFrontOfOurs};
ghost use Rattle.shore_disk.specs.Places.{place_bytes};

use crate::file::folder_of;
use crate::fronts::{FRONT_BYTES, is_front_of_ours};
use crate::{Disk, FileCause, FileDisk};
use std::fs::{File, Files};

/// A path at which a device is to be made. A file that is there is locked, and as it was.
#[derive(Drop)]
pub struct FilePlace<'p> {
    // Where the file is, or is to be.
    path: &'p str,
    // The file, if there is one.
    found: Option<FileDisk>,
}

impl<'p> FilePlace<'p> {
    /// Looks at a path, and locks the file that is there. It makes none. It fails if there is no folder for it, or the file cannot be opened or locked.
    pub fn look(
        files: &impl Files<File = File>,
        path: &'p str,
    ) -> Result<FilePlace<'p>, FileCause> {
        match FileDisk::open(files, path) {
            Ok(disk) => Ok(FilePlace {
                path,
                found: Some(disk),
            }),
            Err(FileCause::Missing) => Ok(FilePlace { path, found: None }),
            Err(cause) => Err(cause),
        }
    }

    /// Whether there is no file, or one without a byte.
    pub fn is_empty(&self) -> bool
        ensures { IsTrue result ↔ place_bytes self.now ≡ 0 }
    {
        match &self.found {
            None => true,
            Some(disk) => disk.len() == 0,
        }
    }

    /// Whether the file may go: it has no byte, or its first bytes, as many as a label has, are zeros or a label, its gate open or not.
    pub fn is_ours(&mut self) -> Result<bool, FileCause>
        ensures empty { place_bytes self.old ≡ 0 → OnOk result (IfOk result IsTrue) }
        ensures same { place_bytes self.new ≡ place_bytes self.old }
    {
        if self.is_empty() {
            return Ok(true);
        }
        let Some(disk) = &mut self.found else {
            return Ok(true);
        };
        let len = disk.len().min(FRONT_BYTES as u64);
        let mut front = [0u8; FRONT_BYTES];
        match disk.read_at(0, &mut front[..len as usize]) {
            Ok(()) => Ok(is_front_of_ours(&front)),
            Err(_) => Err(disk.cause().unwrap_or(FileCause::Unknown)),
        }
    }

    /// The device of so many zeros in place of what was there, the file made if there is none; bytes, length and name are durable. The zeros are
    /// written, so that no later write lacks room on the disk. A file that may not go (`is_ours`) is refused as `Foreign`, and stays as it is; at another
    /// refusal the file may have any length.
    pub fn cleared(
        mut self,
        files: &impl Files<File = File>,
        len: u64,
    ) -> Result<FileDisk, FileCause>
        ensures size { IfOk result (λ d. size (file_history d) ≡ len) }
        ensures fresh { IfOk result IsFresh }
    {
        if !self.is_ours()? {
            return Err(FileCause::Foreign);
        }
        let disk = match self.found {
            Some(disk) => disk,
            None => FileDisk::create(files, self.path)?,
        };
        let disk = disk.filled(len)?;
        match sync_folder(files, self.path) {
            Ok(()) => Ok(disk),
            Err(cause) => Err(cause),
        }
    }
}

// Makes the name of a file durable, which is kept in its folder.
fn sync_folder(files: &impl Files<File = File>, path: &str) -> Result<(), FileCause> {
    match File::open(files, folder_of(path)) {
        Ok(folder) => folder.sync_all().map_err(|error| FileCause::of(&error)),
        Err(error) => Err(FileCause::of(&error)),
    }
}
