//! How a run of a script ends.
use crate::render;
use shore_types::Fault;
use std::io::{self, ErrorKind, Write};
use std::process::ExitCode;

/// The exit status of a run.
#[derive(Clone, Copy, PartialEq)]
pub enum Status {
    Done,
    /// The settings or a line of the script are bad, input or output failed, or memory ended.
    Bad,
    /// The first format or open was refused, or the last open of the script was.
    Refused,
}

impl Status {
    pub fn exit_code(self) -> ExitCode {
        ExitCode::from(match self {
            Status::Done => 0,
            Status::Bad => 1,
            Status::Refused => 2,
        })
    }
}

/// Why a run ends before its script does.
#[derive(Drop)]
pub enum Stop {
    /// The input could not be read, or the output could not be written.
    Stream,
    /// An allocation of the program's own failed.
    Memory,
    /// A setting or a line is bad.
    Bad(Fault),
    /// The first format or open was refused.
    Refused(Fault),
}

impl Stop {
    /// Ends the output by the line that tells why. Answers the exit status.
    pub fn tell<W: Write>(&self, out: &mut W) -> Status {
        match (self, self.end(out)) {
            (Stop::Refused(_), Ok(())) => Status::Refused,
            _ => Status::Bad,
        }
    }

    fn end<W: Write>(&self, out: &mut W) -> io::Result<()> {
        match self {
            Stop::Stream => {}
            Stop::Memory => render::fault(out, None, &Fault::Memory)?,
            Stop::Bad(fault) => render::fault(out, None, fault)?,
            Stop::Refused(fault) => render::open_fault(out, fault)?,
        }
        out.flush()
    }
}

impl From<io::Error> for Stop {
    fn from(error: io::Error) -> Stop {
        match error.kind() {
            ErrorKind::OutOfMemory => Stop::Memory,
            _ => Stop::Stream,
        }
    }
}
