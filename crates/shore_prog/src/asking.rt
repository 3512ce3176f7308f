//! Lines that an open manager answers at once, or whose calls wait.
ghost use Rattle.std.specs.Prelude.{◌≡◌, ◌≢◌, ℕ, IfOk};
ghost use Rattle.shore_types.specs.declared.faults.Fault.TheVariants.{NeedForce};
ghost use Rattle.shore_model.specs.Calls.{IsServed};
ghost use Rattle.shore_script.specs.Commands.{IsServedCommand};
ghost use Rattle.shore_prog.specs.declared.manager.Progress.TheVariants.{Again};

use crate::forcing::{flush_line, force, force_line};
use crate::manager::{Progress, ScriptWorld};
use crate::rounds::{WaitingLines, go_first};
use crate::shown::{dump, locks, log};
use crate::tickets::{commit, durable, lazy};
use shore_model::{Answer, Call, Wait};
use shore_script::{Command, render};
use shore_types::{Fault, SessionId};
use shore_world::{Event, Step};
use std::alloc::Global;
use std::io::{self, Write};

/// What a line asks of an open manager, with all that is answered at once. One whose call has to wait for a lock is kept.
pub fn answer<W: Write>(
    alloc: Global,
    world: &mut ScriptWorld,
    waiting: &mut WaitingLines,
    command: Command,
    line: &[u8],
    out: &mut W,
) -> io::Result<Progress>
    requires { IsServedCommand command }
{
    match command {
        Command::Ask(session, call) => return ask(alloc, world, waiting, session, call, line, out),
        Command::Lazy(session) => lazy(alloc, world, session, out)?,
        Command::GiveUp(session) => waiting.take_back(alloc, world, session, out)?,
        Command::Durable(ticket) => durable(alloc, world, ticket, out)?,
        Command::Dump => return dump(alloc, world, out),
        Command::Force => force_line(alloc, world, out)?,
        Command::Flush => flush_line(alloc, world, out)?,
        Command::Log | Command::Locks if world.has_failed() => render::fault(
            out,
            None,
            &Fault::Failed,
        )?,
        Command::Log => log(alloc, world, out)?,
        Command::Locks => locks(alloc, world, out)?,
        // These are no lines of this function.
        Command::BeginCheckpoint
        | Command::EndCheckpoint
        | Command::Checkpoint
        | Command::Nothing
        | Command::Crash(_)
        | Command::Fuse(_)
        | Command::NextFuse(_)
        | Command::Threads(_) => {}
    }
    Ok(Progress::Done)
}

// The room for a line that waits is taken before the call is made.
fn ask<W: Write>(
    alloc: Global,
    world: &mut ScriptWorld,
    waiting: &mut WaitingLines,
    session: SessionId,
    call: Call,
    line: &[u8],
    out: &mut W,
) -> io::Result<Progress>
    requires { IsServed call }
{
    waiting.reserve()?;
    let is_resolve = matches!(call, Call::Resolve(..));
    match world.step(alloc, Event::Call(session, call)) {
        Step::Waits(wait) => {
            if let Wait::Lock(granule) = &wait {
                render::waits(out, session, granule)?;
            }
            waiting.add(alloc, session, wait, line)?;
            if is_resolve {
                go_first(alloc, world, waiting, session, out)?;
            }
        }
        Step::Refused(fault) => return refuse(alloc, world, Some(session), fault, out),
        Step::Done(answer) => tell_answer(alloc, world, session, &answer, out)?,
        Step::Nothing => {}
    }
    Ok(Progress::Done)
}

// A commit is forced before it is told.
fn tell_answer<W: Write>(
    alloc: Global,
    world: &mut ScriptWorld,
    session: SessionId,
    answer: &Answer,
    out: &mut W,
) -> io::Result<()> {
    match answer {
        Answer::Committed(ticket) => commit(alloc, world, session, *ticket, out),
        answer => render::answer(out, session, answer),
    }
}

/// A line that is refused, of a session's call or another, answers its fault. If it needs a force, which no line answers, the log is forced for
/// it; then every record is durable, and no page has to stay in its frame. A force that fails is the fault of the line.
pub fn refuse<W: Write>(
    alloc: Global,
    world: &mut ScriptWorld,
    session: Option<SessionId>,
    fault: Fault,
    out: &mut W,
) -> io::Result<Progress>
    // No other line is made again, so none is done twice.
    ensures { IfOk result (λ progress. progress ≡ Again → (number : ℕ) × (fault ≡ NeedForce number)) }
{
    let fault = match fault {
        Fault::NeedForce { .. } => match force(alloc, world) {
            Ok(()) => return Ok(Progress::Again),
            Err(fault) => fault,
        },
        fault => fault,
    };
    tell(out, session, &fault)
}

/// A line that is answered by a fault is done.
pub fn tell<W: Write>(
    out: &mut W,
    session: Option<SessionId>,
    fault: &Fault,
) -> io::Result<Progress>
    ensures { IfOk result (λ progress. progress ≢ Again) }
{
    render::fault(out, session, fault)?;
    Ok(done_by(fault))
}

// A line that this fault answers is done.
fn done_by(fault: &Fault) -> Progress
    ensures { result ≢ Again }
{
    match fault {
        Fault::LogFull => Progress::Full,
        _ => Progress::Done,
    }
}
