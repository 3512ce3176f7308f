//! Why a file fails as a device, in the words of whoever can mend it.
use std::fmt;
use std::io::{self, ErrorKind};

/// Why a call of a device over a file failed, or why a file cannot be one.
#[derive(Clone, Copy, PartialEq)]
pub enum FileCause {
    /// There is no file of this name.
    Missing,
    /// There is no folder that the file could lie in.
    NoFolder,
    /// Another device is open over the file, in this program or in another.
    InUse,
    /// The path is a link to a file that is missing. No file is made through a link, since its name would be in a folder that nobody syncs.
    DanglingLink,
    /// The file holds bytes, and was to be made only if it held none.
    Filled,
    /// The file holds neither zeros nor a device, and is not made anew for that.
    Foreign,
    /// The file has another length than it had as it was opened: somebody else changes it.
    OtherLength,
    /// What the system tells by this number.
    System(i32),
    /// The system told no number.
    Unknown,
}

impl FileCause {
    /// The cause of a call on an open file, or of an open, by what the system said of it.
    pub(crate) fn of(error: &io::Error) -> FileCause {
        match error.raw_os_error() {
            Some(number) => FileCause::System(number),
            None => match error.kind() {
                ErrorKind::UnexpectedEof => FileCause::OtherLength,
                _ => FileCause::Unknown,
            },
        }
    }
}

impl fmt::Display for FileCause {
    fn fmt<W: fmt::Write>(&self, f: &mut fmt::Formatter<W>) -> fmt::Result {
        let text = match self {
            FileCause::System(number) => {
                return fmt::Display::fmt(&io::Error::from_raw_os_error(*number), f);
            }
            FileCause::Missing => "there is no such file",
            FileCause::NoFolder => "there is no such folder",
            FileCause::InUse => "it is in use, by this program or by another",
            FileCause::DanglingLink => "it is a link to a file that is missing",
            FileCause::Filled => "it holds bytes",
            FileCause::Foreign => {
                "it holds neither zeros nor a device of this manager's, and stays as it is; remove it by hand if it may go"
            }
            FileCause::OtherLength => "its length has changed while it was in use",
            FileCause::Unknown => "the system does not say why",
        };
        f.write_str(text)
    }
}
