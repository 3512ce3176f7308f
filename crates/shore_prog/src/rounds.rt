//! Rounds: after each line the calls that wait go on, session by session, until nothing changes.
ghost use Rattle.std.specs.Prelude.{◌≤◌, vec_len};

use crate::forcing::force;
use crate::manager::ScriptWorld;
use shore_model::Wait;
use shore_script::{Command, read_line, render};
use shore_types::{Fault, Lsn, SessionId};
use shore_world::{Event, Step};
use std::alloc::{AllocError, Global};
use std::io::{self, Write};

/// A session's line whose call waits.
#[derive(Drop)]
struct WaitingLine {
    // The session that waits.
    session: SessionId,
    // What it waits for.
    wait: Wait,
    /// The text of a line that waits for a lock: its call may need a force when it goes on, and is made again then.
    line: Vec<u8>,
}

impl WaitingLine {
    // Whether it waits for a force, since so much is durable.
    fn waits_for_force(&self, durable: Lsn) -> bool {
        match self.wait {
            Wait::Durable(number) => durable < number,
            Wait::Lock(_) => false,
        }
    }
}

/// The lines whose calls wait, by session.
#[derive(Drop)]
pub struct WaitingLines {
    // One line a session at most, in the order of the sessions.
    lines: Vec<WaitingLine>,
}

impl WaitingLines {
    pub fn new(alloc: Global) -> WaitingLines {
        WaitingLines {
            lines: Vec::new(alloc),
        }
    }

    /// Takes the memory for a line more.
    pub fn reserve(&mut self) -> Result<(), AllocError> {
        self.lines.reserve(1)?;
        Ok(())
    }

    /// The call of a line waits from now on.
    pub fn add(
        &mut self,
        alloc: Global,
        session: SessionId,
        wait: Wait,
        text: &[u8],
    ) -> Result<(), AllocError> {
        let mut line = Vec::new(alloc);
        if matches!(wait, Wait::Lock(_)) {
            line.extend_from_slice(text)?;
        }
        let at = self.place_of(session);
        self.lines.insert(
            at,
            WaitingLine {
                session,
                wait,
                line,
            },
        )?;
        Ok(())
    }

    /// The call of a session's line that waits for a lock is refused. If none does, that is said.
    pub fn take_back<W: Write>(
        &mut self,
        alloc: Global,
        world: &mut ScriptWorld,
        session: SessionId,
        out: &mut W,
    ) -> io::Result<()> {
        match world.step(alloc, Event::GiveUp(session)) {
            Step::Refused(fault) => {
                self.lines.retain(|line| line.session != session);
                render::fault(out, Some(session), &fault)
            }
            _ => render::nothing(out, session),
        }
    }

    // Where the line of a session belongs.
    fn place_of(&self, session: SessionId) -> usize
        ensures { result ≤ vec_len self.now.lines }
    {
        for at in 0..self.lines.len() {
            if session.0 < self.lines[at].session.0 {
                return at;
            }
        }
        self.lines.len()
    }

    // The lowest session whose call waits for a number that is not durable.
    fn to_be_forced(&self, world: &ScriptWorld) -> Option<SessionId> {
        let durable = world.durable();
        for line in &self.lines {
            if line.waits_for_force(durable) {
                return Some(line.session);
            }
        }
        None
    }
}

/// Forces the log if a prepare or a resolve waits for it, and goes on with each call that waits, the lowest session first; again and again until a round changes
/// nothing. If the force is refused, and only a device's failure refuses one, that is the answer of the lowest session that waits for it, and all others are refused.
pub fn go_round<W: Write>(
    alloc: Global,
    world: &mut ScriptWorld,
    waiting: &mut WaitingLines,
    out: &mut W,
) -> io::Result<()> {
    for _ in 0..u64::MAX {
        if let Some(session) = waiting.to_be_forced(world) {
            match force(alloc, world) {
                Ok(()) | Err(Fault::Failed) => {}
                Err(fault) => give_up(alloc, world, waiting, session, &fault, out)?,
            }
        }
        if !resume_all(alloc, world, waiting, out)? {
            return Ok(());
        }
    }
    Ok(())
}

/// Forces the log for a resolve, and goes on with it before all others: its locks are free by now, and whoever waits for them is answered after it. A force
/// that is refused is answered as in a round.
pub fn go_first<W: Write>(
    alloc: Global,
    world: &mut ScriptWorld,
    waiting: &mut WaitingLines,
    session: SessionId,
    out: &mut W,
) -> io::Result<()> {
    match force(alloc, world) {
        Ok(()) => resume_one(alloc, world, waiting, session, out),
        Err(Fault::Failed) => Ok(()),
        Err(fault) => give_up(alloc, world, waiting, session, &fault, out),
    }
}

// Goes on with the call of a session that waits.
fn resume_one<W: Write>(
    alloc: Global,
    world: &mut ScriptWorld,
    waiting: &mut WaitingLines,
    session: SessionId,
    out: &mut W,
) -> io::Result<()> {
    let mut ended = false;
    for line in waiting.lines.iter_mut() {
        if line.session == session {
            ended = resume(alloc, world, line, out)? == Resumed::Ended;
        }
    }
    if ended {
        waiting.lines.retain(|line| line.session != session);
    }
    Ok(())
}

// The call of a session that waits is answered by the fault of its force, and waits no more.
fn give_up<W: Write>(
    alloc: Global,
    world: &mut ScriptWorld,
    waiting: &mut WaitingLines,
    session: SessionId,
    fault: &Fault,
    out: &mut W,
) -> io::Result<()> {
    let _refused = world.step(alloc, Event::Resume(session));
    waiting.lines.retain(|line| line.session != session);
    render::fault(out, Some(session), fault)
}

// Whether something has changed.
fn resume_all<W: Write>(
    alloc: Global,
    world: &mut ScriptWorld,
    waiting: &mut WaitingLines,
    out: &mut W,
) -> io::Result<bool> {
    let mut is_changed = false;
    let mut at = 0;
    for _ in 0..waiting.lines.len() {
        let Some(line) = waiting.lines.get_mut(at) else {
            break;
        };
        let resumed = resume(alloc, world, line, out)?;
        is_changed = is_changed || resumed != Resumed::Waits;
        if resumed == Resumed::Ended {
            if at < waiting.lines.len() {
                waiting.lines.remove(at);
            }
        } else {
            at += 1;
        }
    }
    Ok(is_changed)
}

// What became of a call that waited.
#[derive(Clone, Copy, PartialEq)]
enum Resumed {
    /// It waits for what it waited for.
    Waits,
    /// It has gone on, and waits for something else.
    WaitsElsewhere,
    /// It is answered or refused.
    Ended,
}

fn resume<W: Write>(
    alloc: Global,
    world: &mut ScriptWorld,
    line: &mut WaitingLine,
    out: &mut W,
) -> io::Result<Resumed> {
    let mut step = world.step(alloc, Event::Resume(line.session));
    for _ in 0..u64::MAX {
        match step {
            Step::Waits(wait) => return Ok(wait_on(line, wait)),
            Step::Refused(Fault::NeedForce { .. }) => {
                step = match force(alloc, world) {
                    Ok(()) => make_again(alloc, world, line)?,
                    Err(fault) => Step::Refused(fault),
                };
            }
            Step::Refused(fault) => {
                render::fault(out, Some(line.session), &fault)?;
                return Ok(Resumed::Ended);
            }
            Step::Done(answer) => {
                render::answer(out, line.session, &answer)?;
                return Ok(Resumed::Ended);
            }
            Step::Nothing => return Ok(Resumed::Ended),
        }
    }
    Ok(Resumed::Ended)
}

fn wait_on(line: &mut WaitingLine, wait: Wait) -> Resumed {
    let is_same = match (&line.wait, &wait) {
        (Wait::Lock(old), Wait::Lock(new)) => old == new,
        (Wait::Durable(old), Wait::Durable(new)) => old == new,
        _ => false,
    };
    line.wait = wait;
    if is_same {
        Resumed::Waits
    } else {
        Resumed::WaitsElsewhere
    }
}

// The call of the line is made again, behind a force.
fn make_again(alloc: Global, world: &mut ScriptWorld, line: &WaitingLine) -> io::Result<Step> {
    let Some(command) = read_line(alloc, &line.line)? else {
        return Ok(Step::Nothing);
    };
    match command {
        Command::Ask(session, call) => Ok(world.step(alloc, Event::Call(session, call))),
        _ => Ok(Step::Nothing),
    }
}
