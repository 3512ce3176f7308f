//! Lines that are wrong, and what is said of them.
use shore_script::{render, write_wrong};
use shore_types::{ConfigPlace, Fault};
use std::alloc::Global;
use std::io::{self, Write};

/// Why a line is wrong.
#[derive(Clone, Copy, PartialEq)]
pub enum Wrong {
    /// It is no line of the script.
    Unread,
    /// It is for devices in memory.
    NotForFiles,
    /// A checkpoint begins within another, or ends before it begins.
    NotNow,
    /// The record that threads are to count up has not the bytes of a number.
    NoNumber,
}

/// A line of the script, with its number from 1, and how many lines of the input are before the script.
#[derive(Clone, Copy)]
pub struct LinePlace {
    pub number: u64,
    pub before: u64,
}

impl LinePlace {
    /// The fault of a wrong line.
    pub fn fault(self) -> Fault {
        Fault::BadConfig(ConfigPlace::Line(self.number))
    }
}

/// The longest line that is shown.
const SHOWN_BYTES: usize = 200;

/// Says what is wrong with a line.
pub fn write_wrong_line<E: Write>(
    alloc: Global,
    errors: &mut E,
    place: LinePlace,
    line: &[u8],
    wrong: Wrong,
) -> io::Result<()> {
    let (number, of_input) = (place.number, place.before.saturating_add(place.number));
    write!(
        errors,
        "line {of_input} of the input, {number} of the script: "
    )?;
    if line.len() <= SHOWN_BYTES
        && let Ok(text) = str::from_utf8(line)
    {
        write!(errors, "{text:?}: ")?;
    }
    match wrong {
        Wrong::Unread => write_wrong(alloc, errors, line)?,
        Wrong::NotForFiles => errors.write_all(b"it is for devices in memory")?,
        Wrong::NotNow => errors.write_all(
            b"a checkpoint begins only if none has begun, and ends only if one has",
        )?,
        Wrong::NoNumber => errors.write_all(b"the record has not the 8 bytes of a number")?,
    }
    errors.write_all(b"\n")
}

/// Answers a wrong line by its fault, as any line that is refused.
pub fn refuse_line<W: Write>(out: &mut W, place: LinePlace) -> io::Result<()> {
    render::fault(out, None, &place.fault())
}
