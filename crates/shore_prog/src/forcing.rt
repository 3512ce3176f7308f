//! Forces and flushes.
ghost use Rattle.std.specs.Prelude.{◌≤◌, OnOk};
ghost use Rattle.shore_world.specs.Worlds.{durable_in};
ghost use Rattle.shore_prog.specs.Doing.{AreAllDurable, EndsFlush, EndsForce};

use crate::manager::ScriptWorld;
use shore_model::Answer;
use shore_script::render;
use shore_types::{Fault, Ticket};
use shore_world::{Event, Step};
use std::alloc::Global;
use std::io::{self, Write};

/// Forces every waiting record: if it answers Ok each record of the log is durable.
pub fn force(alloc: Global, world: &mut ScriptWorld) -> Result<(), Fault>
    ensures { OnOk result (AreAllDurable world.new) }
{
    force_frames(alloc, world)
}

/// Forces every waiting record for a commit, and asks for its ticket: if it answers Ok the commit is durable. The ticket is one that this manager gave, so
/// a force that was made always reaches it.
pub fn force_up_to(alloc: Global, world: &mut ScriptWorld, ticket: Ticket) -> Result<(), Fault>
    ensures { OnOk result (ticket ≤ durable_in world.new) }
{
    force(alloc, world)?;
    match world.step(alloc, Event::Ask(ticket)) {
        Step::Done(Answer::IsDurable(true)) => Ok(()),
        Step::Refused(fault) => Err(fault),
        Step::Done(_) | Step::Waits(_) | Step::Nothing => Err(Fault::Failed),
    }
}

// One frame after another, until none is left.
fn force_frames(alloc: Global, world: &mut ScriptWorld) -> Result<(), Fault>
    ensures { OnOk result (EndsForce world.new) }
{
    for _ in 0..u64::MAX {
        match world.step(alloc, Event::ForceStage) {
            Step::Refused(fault) => return Err(fault),
            Step::Nothing => match world.step(alloc, Event::ForceOpen) {
                Step::Refused(fault) => return Err(fault),
                Step::Nothing => return Ok(()),
                Step::Done(_) | Step::Waits(_) => {}
            },
            Step::Done(_) | Step::Waits(_) => {
                if let Step::Refused(fault) = world.step(alloc, Event::ForceOpen) {
                    return Err(fault);
                }
            }
        }
    }
    // No log has so many records.
    Err(Fault::LogFull)
}

/// Forces every waiting record, and tells the durable number.
pub fn force_line<W: Write>(alloc: Global, world: &mut ScriptWorld, out: &mut W) -> io::Result<()> {
    match force(alloc, world) {
        Ok(()) => {
            let durable = world.durable();
            writeln!(out, "forced {durable}")
        }
        Err(fault) => render::fault(out, None, &fault),
    }
}

// Writes back every dirty page with a durable number, a batch at each step, and answers how many. One that fails has written some of them.
fn flush(alloc: Global, world: &mut ScriptWorld) -> Result<u64, Fault>
    ensures { OnOk result (EndsFlush world.new) }
{
    let mut count = 0u64;
    for _ in 0..u64::MAX {
        match world.step(alloc, Event::FlushStep) {
            Step::Done(Answer::Flushed(pages)) => count = count.saturating_add(pages as u64),
            Step::Refused(fault) => return Err(fault),
            Step::Nothing => return Ok(count),
            Step::Done(_) | Step::Waits(_) => break,
        }
    }
    // A step of the flush answers nothing else, and no pool has so many pages.
    Err(Fault::Failed)
}

/// Writes back every dirty page with a durable number, and tells how many.
pub fn flush_line<W: Write>(alloc: Global, world: &mut ScriptWorld, out: &mut W) -> io::Result<()> {
    match flush(alloc, world) {
        Ok(count) => writeln!(out, "flushed {count}"),
        Err(fault) => render::fault(out, None, &fault),
    }
}
