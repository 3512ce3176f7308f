//! The manager that a script works with: a world over two devices in memory or in files, each behind a fuse.
ghost use Rattle.std.specs.Prelude.{◌≤◌, ◌↔◌, IsTrue};
ghost use Rattle.shore_types.specs.declared.layout.TheConstants.{MAX_POOL_FRAMES, MIN_POOL_FRAMES};
ghost use Rattle.shore_script.specs.Commands.{IsServedCommand};
ghost use Rattle.shore_script.specs.Limits.{AreInLimits};
ghost use Rattle.shore_prog.specs.Commands.{IsTaken};
ghost use Rattle.shore_prog.specs.Due.{IsDue, IsDueIn};

use crate::asking::{answer, refuse, tell};
use crate::causes::{Cause, Refusal, cause_of, write_cause, write_tail_holder};
use crate::checkpoints::{Begun, begin_line, checkpoint_line, end_line};
use crate::devices::{NotOpened, ScriptDisk, ScriptPair, first_pair, pair_after_crash};
use crate::rounds::{WaitingLines, go_round};
use crate::streams::Streams;
use crate::threads::{Left, count_up, has_number};
use shore_disk::Pick;
use shore_script::{Command, Counting, Devices, Fuse, Fuses, Settings, render};
use shore_types::{Device, Fault, SessionId};
use shore_world::{World, crashed};
use std::alloc::Global;
use std::fs::{File, Files};
use std::io::{self, Write};
use std::thread::Threads;
use std::time::Clock;
use std::{mem, sync};

/// A world over two devices.
pub type ScriptWorld = World<ScriptDisk, ScriptDisk>;

/// The manager, where its devices are, how many frames for pages an open asks for, and which fuses the next crash sets.
#[derive(Drop)]
pub struct Manager {
    // Where the devices are, so that a crash can open them again.
    devices: Devices,
    // How many frames for pages an open asks for.
    frames: usize,
    // The fuses that the next crash sets.
    next_fuses: Fuses,
    // The manager itself, or the devices that it left.
    access: Access,
    ghost some: { MIN_POOL_FRAMES ≤ frames },
    ghost few: { frames ≤ MAX_POOL_FRAMES },
}

// A manager that is open, or was refused at its last open.
#[derive(Drop)]
enum Access {
    Open(Opened),
    Closed(ScriptDisk, ScriptDisk),
    /// No device is at hand, since a file could not be opened.
    Lost,
}

/// How far a line came.
#[derive(Clone, Copy, PartialEq)]
pub enum Progress {
    /// It is done, and its answers are written.
    Done,
    /// It needed a force, which was made. Nothing else was done, and nothing written: the line is to be made again.
    Again,
    /// It is done, and was answered that the log is full.
    Full,
    /// It is no line for the manager as it is. Nothing was done, and nothing written.
    Bad,
}

/// A world that is open, and the lines whose calls wait. The world is in a box, since each function that moves what is not would be dear to prove.
#[derive(Drop)]
struct Opened {
    // The manager.
    world: Box<ScriptWorld>,
    // The lines whose calls wait, by session.
    waiting: WaitingLines,
    // The checkpoint that a line has begun.
    checkpoint: Option<Begun>,
}

impl Opened {
    // Whether a checkpoint may begin or end now. A manager that has failed refuses both.
    fn takes(&self, command: &Command) -> bool
        ensures { IsTrue result ↔ IsDueIn self.now command.now }
    {
        match command {
            Command::BeginCheckpoint | Command::Checkpoint => {
                self.checkpoint.is_none() || self.world.has_failed()
            }
            Command::EndCheckpoint => self.checkpoint.is_some() || self.world.has_failed(),
            Command::Nothing
            | Command::Ask(..)
            | Command::Lazy(_)
            | Command::GiveUp(_)
            | Command::Durable(_)
            | Command::Force
            | Command::Flush
            | Command::Crash(_)
            | Command::Fuse(_)
            | Command::NextFuse(_)
            | Command::Dump
            | Command::Log
            | Command::Locks
            | Command::Threads(_) => true,
        }
    }
}

impl Manager {
    /// Opens the devices of the settings, which are formatted before unless they are files to be opened as they are. What a person can do about a refusal is written to `errors`.
    pub fn start(
        alloc: Global,
        files: &impl Files<File = File>,
        settings: Settings,
        errors: &mut impl Write,
    ) -> Result<Manager, Fault>
        requires { AreInLimits settings }
    {
        match first_access(alloc, files, &settings) {
            Ok(access) => Ok(Manager {
                devices: settings.devices,
                frames: settings.pool as usize,
                next_fuses: Fuses::NONE,
                access,
            }),
            Err(refusal) => {
                let _told = write_cause(errors, &settings.devices, &refusal.cause);
                Err(refusal.fault)
            }
        }
    }

    pub fn is_open(&self) -> bool {
        matches!(self.access, Access::Open(_))
    }

    /// Whether the line is one for these devices and now: files have no fuse, and a crash of them picks nothing; and no checkpoint begins within another, or ends
    /// before it begins.
    pub fn takes(&self, command: &Command) -> bool
        ensures { IsTrue result ↔ (IsTaken self.now.devices command.now × IsDue self.now.access command.now) }
    {
        is_for(&self.devices, command) && self.is_due(command)
    }

    /// Whether the line is one for these devices: files have no fuse, and a crash of them picks nothing.
    pub fn has_devices_for(&self, command: &Command) -> bool {
        is_for(&self.devices, command)
    }

    // Whether a checkpoint may begin or end now. A manager that was refused answers that it failed.
    fn is_due(&self, command: &Command) -> bool
        ensures { IsTrue result ↔ IsDue self.now.access command.now }
    {
        match &self.access {
            Access::Open(opened) => opened.takes(command),
            Access::Closed(..) | Access::Lost => true,
        }
    }

    /// Does what a line asks for, and writes its answers, or forces the log for it. If its call has to wait for a lock, the line is kept.
    pub fn execute<
        H: Files<File = File> + Threads + sync::Wait + Clock + Sync + Send + Copy,
        W: Write,
        E: Write,
    >(
        &mut self,
        alloc: Global,
        host: &H,
        command: Command,
        line: &[u8],
        streams: &mut Streams<'_, W, E>,
    ) -> io::Result<Progress>
        requires served { IsServedCommand command }
        requires taken { IsTaken self.old.devices command }
    {
        let out = &mut *streams.out;
        match command {
            Command::Nothing => {}
            Command::Crash(pick) => {
                let cause = self.crash(alloc, host, pick.unwrap_or(Pick::Old), out)?;
                out.flush()?;
                // Where nobody reads the cause, the fault alone is told.
                let _told = write_cause(&mut *streams.errors, &self.devices, &cause);
            }
            Command::Fuse(fuse) => self.set_fuse(fuse),
            Command::NextFuse(fuse) => self.next_fuses.set(fuse),
            Command::Threads(counting) => return self.threads_line(*host, alloc, counting, out),
            command => return self.serve_told(alloc, command, line, streams),
        }
        Ok(Progress::Done)
    }

    // A line that an open manager answers. If the log is full, `errors` are told what it is kept for.
    fn serve_told<W: Write, E: Write>(
        &mut self,
        alloc: Global,
        command: Command,
        line: &[u8],
        streams: &mut Streams<'_, W, E>,
    ) -> io::Result<Progress>
        requires { IsServedCommand command }
    {
        let progress = self.serve(alloc, command, line, &mut *streams.out)?;
        if progress != Progress::Full {
            return Ok(progress);
        }
        streams.out.flush()?;
        if let Access::Open(opened) = &self.access {
            // Where nobody reads it, the fault alone is told.
            let _told = write_tail_holder(&mut *streams.errors, &opened.world.tail_holder());
        }
        Ok(Progress::Done)
    }

    // A line that an open manager answers, with all that follows from it; one that is refused answers that it failed.
    fn serve<W: Write>(
        &mut self,
        alloc: Global,
        command: Command,
        line: &[u8],
        out: &mut W,
    ) -> io::Result<Progress>
        requires { IsServedCommand command }
    {
        let Access::Open(opened) = &mut self.access else {
            return tell(out, asker_of(&command), &Fault::Failed);
        };
        let Opened {
            world,
            waiting,
            checkpoint,
        } = opened;
        let progress = match command {
            Command::BeginCheckpoint => begin_line(alloc, world, checkpoint, out)?,
            Command::EndCheckpoint => end_line(alloc, world, checkpoint, out)?,
            Command::Checkpoint => checkpoint_line(alloc, world, checkpoint, out)?,
            command => answer(alloc, world, waiting, command, line, out)?,
        };
        if progress == Progress::Done || progress == Progress::Full {
            go_round(alloc, world, waiting, out)?;
        }
        Ok(progress)
    }

    // Threads count a record up, once it was looked at.
    fn threads_line<R: Threads + sync::Wait + Clock + Sync + Send + Copy, W: Write>(
        &mut self,
        rt: R,
        alloc: Global,
        counting: Counting,
        out: &mut W,
    ) -> io::Result<Progress> {
        let Access::Open(opened) = &mut self.access else {
            return tell(out, None, &Fault::Failed);
        };
        match has_number(alloc, &mut opened.world, &counting.record) {
            Ok(true) => match self.count_up(rt, alloc, counting) {
                Ok(()) => render::threads(out, total_of(&counting))?,
                Err(fault) => render::fault(out, None, &fault)?,
            },
            Ok(false) => return Ok(Progress::Bad),
            Err(fault) => {
                if refuse(alloc, &mut opened.world, None, fault, out)? == Progress::Again {
                    return Ok(Progress::Again);
                }
            }
        }
        self.let_others_on(alloc, out)?;
        Ok(Progress::Done)
    }

    // Calls that wait are tried again, if a manager is open.
    fn let_others_on<W: Write>(&mut self, alloc: Global, out: &mut W) -> io::Result<()> {
        if let Access::Open(opened) = &mut self.access {
            go_round(alloc, &mut opened.world, &mut opened.waiting, out)?;
        }
        Ok(())
    }

    // The world is a manager for threads, and then a world again. No call waits meanwhile: the table has no transaction.
    fn count_up<R: Threads + sync::Wait + Clock + Sync + Send + Copy>(
        &mut self,
        rt: R,
        alloc: Global,
        counting: Counting,
    ) -> Result<(), Fault> {
        let opened = match mem::replace(&mut self.access, Access::Lost) {
            Access::Open(opened) => opened,
            other => {
                self.access = other;
                return Err(Fault::Failed);
            }
        };
        let (world, checkpoint) = (Box::into_inner(opened.world), opened.checkpoint);
        let (left, counted) = count_up(rt, alloc, world, counting);
        let (access, refused) = match left {
            Left::World(world) => boxed(alloc, world, checkpoint),
            Left::Devices(log, volume, fault) => (Access::Closed(log, volume), Some(fault)),
        };
        self.access = access;
        match refused {
            None => counted,
            Some(fault) => Err(fault),
        }
    }

    // Everything in memory is lost, and the fuses go away, but for those that were set for this open. The answer is why no manager is open then, beyond its fault.
    fn crash<F: Files<File = File>, W: Write>(
        &mut self,
        alloc: Global,
        files: &F,
        pick: Pick,
        out: &mut W,
    ) -> io::Result<Cause> {
        let left = match mem::replace(&mut self.access, Access::Lost) {
            Access::Open(opened) => Some(Box::into_inner(opened.world).lose_power(pick)),
            Access::Closed(log, volume) => Some((crashed(log, pick), crashed(volume, pick))),
            Access::Lost => None,
        };
        let fuses = mem::replace(&mut self.next_fuses, Fuses::NONE);
        let refused = match pair_after_crash(files, &self.devices, left, fuses) {
            Ok((log, volume)) => {
                let (access, refused) = open(alloc, log, volume, self.frames);
                self.access = access;
                refused
            }
            Err(NotOpened { cause, kept }) => {
                self.access = access_of(kept);
                Some(Refusal {
                    fault: Fault::Device,
                    cause,
                })
            }
        };
        match refused {
            None => {
                out.write_all(b"opened\n")?;
                Ok(Cause::Untold)
            }
            Some(refusal) => {
                render::open_fault(out, &refusal.fault)?;
                Ok(refusal.cause)
            }
        }
    }

    fn set_fuse(&mut self, fuse: Fuse) {
        match (&mut self.access, fuse.device) {
            (Access::Open(opened), Device::Log) => opened.world.set_log_fuse(fuse.calls),
            (Access::Open(opened), Device::Volume) => opened.world.set_volume_fuse(fuse.calls),
            (Access::Closed(log, _), Device::Log) => log.set_calls(fuse.calls),
            (Access::Closed(_, volume), Device::Volume) => volume.set_calls(fuse.calls),
            (Access::Lost, _) => {}
        }
    }
}

// Files have no fuse, and a crash of them picks nothing.
fn is_for(devices: &Devices, command: &Command) -> bool
    ensures { IsTrue result ↔ IsTaken devices.now command.now }
{
    !matches!(
        (devices, command),
        (
            Devices::Files(_),
            Command::Fuse(_) | Command::NextFuse(_) | Command::Crash(Some(_)),
        ),
    )
}

// Opens the devices of the settings for the first time.
fn first_access(
    alloc: Global,
    files: &impl Files<File = File>,
    settings: &Settings,
) -> Result<Access, Refusal>
    requires { AreInLimits settings.now }
{
    let (log, volume) = first_pair(alloc, files, settings)?;
    let (access, refused) = open(alloc, log, volume, settings.pool as usize);
    match refused {
        None => Ok(access),
        Some(refusal) => Err(refusal),
    }
}

// Devices that are not opened are kept as they are.
fn access_of(kept: Option<ScriptPair>) -> Access {
    match kept {
        Some((log, volume)) => Access::Closed(log, volume),
        None => Access::Lost,
    }
}

// Opens the pair. A refusal is told with its cause.
fn open(
    alloc: Global,
    log: ScriptDisk,
    volume: ScriptDisk,
    frames: usize,
) -> (Access, Option<Refusal>)
    requires some { MIN_POOL_FRAMES ≤ frames }
    requires few { frames ≤ MAX_POOL_FRAMES }
{
    match World::open(alloc, log, volume, frames) {
        Ok(world) => {
            let (access, refused) = boxed(alloc, world, None);
            (access, untold(refused))
        }
        Err((fault, mut log, mut volume)) => {
            let cause = cause_of(&fault, &mut log, &mut volume);
            (Access::Closed(log, volume), Some(Refusal { fault, cause }))
        }
    }
}

fn untold(refused: Option<Fault>) -> Option<Refusal> {
    match refused {
        None => None,
        Some(fault) => Some(Refusal::untold(fault)),
    }
}

// A world with the checkpoint that a line has begun, and no call that waits.
fn boxed(alloc: Global, world: ScriptWorld, checkpoint: Option<Begun>) -> (Access, Option<Fault>) {
    match Box::new(alloc, world) {
        Ok(world) => {
            let opened = Opened {
                world,
                waiting: WaitingLines::new(alloc),
                checkpoint,
            };
            (Access::Open(opened), None)
        }
        Err(refused) => {
            let (log, volume) = refused.value.into_devices();
            (Access::Closed(log, volume), Some(Fault::Memory))
        }
    }
}

// How many transactions all threads make.
fn total_of(counting: &Counting) -> u64 {
    counting.threads as u64 * counting.rounds as u64
}

// Whose call a line is.
fn asker_of(command: &Command) -> Option<SessionId> {
    match command {
        Command::Ask(session, _) | Command::Lazy(session) | Command::GiveUp(session) => {
            Some(*session)
        }
        _ => None,
    }
}
