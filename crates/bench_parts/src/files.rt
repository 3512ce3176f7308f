//! Files of a folder, and plain writes to one.
use crate::host::Host;
use shore_disk::{Disk, FileDisk, FilePlace};
use shore_types::Fault;

/// What a file or the output answers. Its error is the fault `Device`.
pub fn of_device<T, E: Drop>(answer: Result<T, E>) -> Result<T, Fault> {
    match answer {
        Ok(value) => Ok(value),
        Err(_) => Err(Fault::Device),
    }
}

/// A file of a folder, as it is, or made anew with so many zeros.
pub fn file_of(
    host: &Host,
    folder: &str,
    name: &str,
    zeros: Option<u64>,
) -> Result<FileDisk, Fault> {
    let path = format!(in host.alloc(); "{folder}/bench.{name}")?;
    match zeros {
        Some(len) => of_device(of_device(FilePlace::look(host.rt, &path))?.cleared(host.rt, len)),
        None => of_device(FileDisk::open(host.rt, &path)),
    }
}

/// A plain write with its sync, one behind another, as a log has it.
pub fn write_and_sync(file: &mut FileDisk, number: u64, text: &[u8]) -> Result<(), Fault> {
    let at = number.saturating_mul(text.len() as u64);
    match at.checked_add(text.len() as u64) {
        Some(end) if end <= file.len() => file.write_at(at, text)?,
        _ => return Err(Fault::Device),
    }
    file.sync()?;
    Ok(())
}
