//! A run of the program.
ghost use Rattle.std.specs.Prelude.{IfOk};
ghost use Rattle.shore_script.specs.Limits.{AreInLimits};

use crate::causes::write_unused;
use crate::manager::{Manager, Progress};
use crate::streams::Streams;
use crate::wrong_lines::{LinePlace, Wrong, refuse_line, write_wrong_line};
use shore_script::{Command, Lines, Settings, Status, Stop, WrongLines, read_line, read_settings};
use shore_types::{ConfigPlace, Fault};
use std::alloc::Global;
use std::fs::{File, Files};
use std::io::{self, BufWriter, Read, Write};
use std::process::ExitCode;
use std::sync::Wait;
use std::thread::Threads;
use std::time::Clock;

/// Runs the script of the input under its settings, line by line, and writes the answers to the output, at the latest before the input
/// has to be waited for. What a person can do about a refused open or a wrong line goes to `errors`. Exit status 0: done. 1: bad settings, or a bad line at which the
/// run ends, or input or output failed, or memory ended. 2: the first format or open was refused, or the last open of the script was.
pub fn run<
    H: Files<File = File> + Threads + Wait + Clock + Sync + Send + Copy,
    R: Read + Drop,
    W: Write + Drop,
    E: Write + Drop,
>(alloc: Global, host: &H, input: R, mut output: W, mut errors: E) -> ExitCode {
    let status = match run_buffered(alloc, host, input, &mut output, &mut errors) {
        Some(status) => status,
        None => Stop::Memory.tell(&mut output),
    };
    status.exit_code()
}

// `None`: there was no memory for a buffer.
fn run_buffered<
    H: Files<File = File> + Threads + Wait + Clock + Sync + Send + Copy,
    R: Read + Drop,
    W: Write,
    E: Write,
>(alloc: Global, host: &H, input: R, output: &mut W, errors: &mut E) -> Option<Status> {
    let mut output = BufWriter::new(alloc, output).ok()?;
    Some(run_streams(alloc, host, input, &mut output, errors))
}

fn run_streams<
    H: Files<File = File> + Threads + Wait + Clock + Sync + Send + Copy,
    R: Read + Drop,
    W: Write,
    E: Write,
>(alloc: Global, host: &H, input: R, output: &mut W, errors: &mut E) -> Status {
    let mut streams = Streams {
        out: &mut *output,
        errors: &mut *errors,
    };
    match run_input(alloc, host, input, &mut streams) {
        Ok(status) => status,
        Err(stop) => stop.tell(output),
    }
}

fn run_input<
    H: Files<File = File> + Threads + Wait + Clock + Sync + Send + Copy,
    R: Read + Drop,
    W: Write,
    E: Write,
>(alloc: Global, host: &H, input: R, streams: &mut Streams<'_, W, E>) -> Result<Status, Stop> {
    let mut lines = Lines::new(alloc, input)?;
    let settings = first_settings(alloc, &mut lines)?;
    let ways = settings.wrong_lines;
    if let Some(setting) = settings.unused_path {
        // Where nobody reads it, the run goes on all the same.
        let _told = write_unused(&mut *streams.errors, setting);
    }
    match Manager::start(alloc, host, settings, &mut *streams.errors) {
        Ok(mut manager) => run_with(alloc, host, &mut manager, &mut lines, ways, streams),
        Err(fault) => Err(Stop::Refused(fault)),
    }
}

// The manager is lent, for what a function owns makes each of its ways out dear to prove.
fn run_with<
    H: Files<File = File> + Threads + Wait + Clock + Sync + Send + Copy,
    R: Read + Drop,
    W: Write,
    E: Write,
>(
    alloc: Global,
    host: &H,
    manager: &mut Manager,
    lines: &mut Lines<R>,
    ways: WrongLines,
    streams: &mut Streams<'_, W, E>,
) -> Result<Status, Stop> {
    run_script(alloc, host, manager, lines, ways, streams)?;
    streams.out.flush()?;
    Ok(if manager.is_open() {
        Status::Done
    } else {
        Status::Refused
    })
}

fn first_settings<R: Read + Drop>(alloc: Global, lines: &mut Lines<R>) -> Result<Settings, Stop>
    ensures { IfOk result AreInLimits }
{
    match lines.settings(alloc) {
        Ok(Some(text)) => settings_of(alloc, &text),
        Ok(None) => Err(no_toml()),
        Err(error) => Err(Stop::from(error)),
    }
}

fn settings_of(alloc: Global, text: &[u8]) -> Result<Settings, Stop>
    ensures { IfOk result AreInLimits }
{
    let Ok(text) = str::from_utf8(text) else {
        return Err(no_toml());
    };
    match read_settings(alloc, text) {
        Ok(settings) => Ok(settings),
        Err(Fault::Memory) => Err(Stop::Memory),
        Err(fault) => Err(Stop::Bad(fault)),
    }
}

fn no_toml() -> Stop {
    Stop::Bad(Fault::BadConfig(ConfigPlace::Toml))
}

// Runs each line, up to a wrong one that ends the run.
fn run_script<
    H: Files<File = File> + Threads + Wait + Clock + Sync + Send + Copy,
    R: Read + Drop,
    W: Write,
    E: Write,
>(
    alloc: Global,
    host: &H,
    manager: &mut Manager,
    lines: &mut Lines<R>,
    ways: WrongLines,
    streams: &mut Streams<'_, W, E>,
) -> Result<(), Stop> {
    let before = lines.lines_before();
    for number in 1u64..u64::MAX {
        if !lines.has_next_ready() {
            streams.out.flush()?;
        }
        let Some(line) = lines.next_line()? else {
            return Ok(());
        };
        let Some(wrong) = run_line(alloc, host, manager, line, streams)? else {
            continue;
        };
        let place = LinePlace { number, before };
        streams.out.flush()?;
        // Where nobody reads what is wrong, the fault alone is told.
        let _told = write_wrong_line(alloc, &mut *streams.errors, place, line, wrong);
        if ways == WrongLines::End {
            return Err(Stop::Bad(place.fault()));
        }
        refuse_line(&mut *streams.out, place)?;
        lines.pass_rest()?;
    }
    Ok(())
}

// Runs a line of the script, or answers why it is none. One that needed a force is read again behind it, so that no call is copied
// for the sake of a force that may not come.
fn run_line<
    H: Files<File = File> + Threads + Wait + Clock + Sync + Send + Copy,
    W: Write,
    E: Write,
>(
    alloc: Global,
    host: &H,
    manager: &mut Manager,
    line: &[u8],
    streams: &mut Streams<'_, W, E>,
) -> io::Result<Option<Wrong>> {
    for _ in 0..u64::MAX {
        let Some(command) = read_line(alloc, line)? else {
            return Ok(Some(Wrong::Unread));
        };
        if !manager.takes(&command) {
            return Ok(Some(why_not(manager, &command)));
        }
        match manager.execute(alloc, host, command, line, streams)? {
            Progress::Done | Progress::Full => return Ok(None),
            Progress::Bad => return Ok(Some(Wrong::NoNumber)),
            Progress::Again => {}
        }
    }
    Ok(None)
}

fn why_not(manager: &Manager, command: &Command) -> Wrong {
    if manager.has_devices_for(command) {
        Wrong::NotNow
    } else {
        Wrong::NotForFiles
    }
}
