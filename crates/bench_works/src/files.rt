//! How long a manager takes over two files: one kind of work on records of so many bytes, with a line `NAME.rSIZE VALUE UNIT` for each figure.
//! Exit status 0: done. 1: refused, or a record was not as acknowledged. 2: there is no such work, or it takes no such size or count.
mod plan;
mod rings;
mod store;
mod works;

use bench_parts::host::Host;
use bench_parts::named;
use plan::{Plan, WORKS, Work};
use shore_types::Version;
use std::io;
use std::process::ExitCode;
use works::perform;

// A run that was refused.
const REFUSED: u8 = 1;
// Words that name no work.
const NO_WORK: u8 = 2;

/// Prints how the works over files are called.
pub fn print_usage(rt: &HostRuntime) -> io::Result<()> {
    println!(rt; "bench_works WORK SIZE DIR [N]: bench/store names the works")
}

fn number(word: &str) -> Option<u64> {
    word.parse::<u64>().ok()
}

// The work of a name, the size of its records and how often it is done: as often as its table says if nothing is said.
fn read(name: &str, size: &str, count: Option<&str>) -> Option<(Work, usize, u64)> {
    let (work, by_default) = named(&WORKS, name)?;
    let size = number(size)?;
    let count = match count {
        Some(word) => number(word)?,
        None => by_default,
    };
    if size > Version::One.record_limit() as u64 {
        return None;
    }
    Some((work, size as usize, count))
}

/// Does the work of a name, on records of a size, over files of a folder, so many times or as often as it is done if nothing is said.
pub fn run(
    rt: &HostRuntime,
    name: &str,
    size: &str,
    folder: &str,
    count: Option<&str>,
) -> io::Result<ExitCode> {
    let Some((work, size, count)) = read(name, size, count) else {
        print_usage(rt)?;
        return Ok(ExitCode::from(NO_WORK));
    };
    let host = Host::new(rt)?;
    let plan = Plan {
        host,
        work,
        size,
        count,
        folder,
    };
    match perform(&plan) {
        Ok(()) => Ok(ExitCode::SUCCESS),
        Err(fault) => {
            println!(rt; "fault {fault}")?;
            Ok(ExitCode::from(REFUSED))
        }
    }
}
