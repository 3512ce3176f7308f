//! The script's checkpoints.

use crate::asking::tell;
use crate::forcing::force;
use crate::manager::{Progress, ScriptWorld};
use shore_model::Answer;
use shore_script::render;
use shore_types::{Fault, Lsn};
use shore_world::{Event, Step};
use std::alloc::Global;
use std::io::{self, Write};

// What an Anchor record names: the number of the checkpoint's begin, and the first that is still needed.
#[derive(Clone, Copy)]
struct Named {
    // The number of the begin.
    checkpoint: Lsn,
    // The tail.
    tail: Lsn,
}

/// A checkpoint of the script, from its begin until its anchor has moved. A line that is refused for want of memory leaves it where it is.
#[derive(Clone, Copy)]
pub struct Begun {
    // Its Anchor record, once that is appended.
    named: Option<Named>,
}

// A checkpoint begins. Answers the number of its begin. One that threads have left under way is ended first.
fn begin(alloc: Global, world: &mut ScriptWorld) -> Result<u64, Fault> {
    for _ in 0..u64::MAX {
        match world.step(alloc, Event::CheckpointStep) {
            Step::Done(answer) => {
                if let Some(number) = begun_by(&answer) {
                    return Ok(number);
                }
            }
            Step::Nothing => force(alloc, world)?,
            Step::Refused(fault) => return Err(fault),
            Step::Waits(_) => return Err(Fault::Failed),
        }
    }
    Err(Fault::Failed)
}

// The number of the begin that is answered.
fn begun_by(answer: &Answer) -> Option<u64> {
    match answer {
        Answer::Begun(number) => Some(number.0),
        _ => None,
    }
}

impl Begun {
    // The steps that are left: its end, its Anchor record and the move, each behind a force of what it needs. If threads have made them, or are at the last one of
    // their own, another checkpoint is made, whose Anchor record is told.
    fn end(&mut self, alloc: Global, world: &mut ScriptWorld) -> Result<Named, Fault> {
        for _ in 0..u64::MAX {
            match world.step(alloc, Event::CheckpointStep) {
                Step::Done(Answer::Moved) if self.named.is_some() => break,
                Step::Done(answer) => self.note(&answer),
                Step::Nothing => force(alloc, world)?,
                Step::Refused(fault) => return Err(fault),
                Step::Waits(_) => return Err(Fault::Failed),
            }
        }
        self.named.ok_or(Fault::Failed)
    }

    // What an Anchor record names is kept until the move.
    fn note(&mut self, answer: &Answer) {
        if let Answer::Anchored { checkpoint, tail } = answer {
            self.named = Some(Named {
                checkpoint: *checkpoint,
                tail: *tail,
            });
        }
    }
}

/// A checkpoint begins.
pub fn begin_line<W: Write>(
    alloc: Global,
    world: &mut ScriptWorld,
    checkpoint: &mut Option<Begun>,
    out: &mut W,
) -> io::Result<Progress> {
    match begin(alloc, world) {
        Ok(number) => {
            *checkpoint = Some(Begun { named: None });
            render::checkpoint_begun(out, Lsn(number))?;
            Ok(Progress::Done)
        }
        Err(fault) => tell(out, None, &fault),
    }
}

/// The checkpoint that has begun ends, and the anchor moves.
pub fn end_line<W: Write>(
    alloc: Global,
    world: &mut ScriptWorld,
    checkpoint: &mut Option<Begun>,
    out: &mut W,
) -> io::Result<Progress> {
    match end(alloc, world, checkpoint) {
        Ok(named) => render::checkpoint(out, named.checkpoint, named.tail)?,
        Err(fault) => render::fault(out, None, &fault)?,
    }
    Ok(Progress::Done)
}

/// A checkpoint begins and ends, and the anchor moves.
pub fn checkpoint_line<W: Write>(
    alloc: Global,
    world: &mut ScriptWorld,
    checkpoint: &mut Option<Begun>,
    out: &mut W,
) -> io::Result<Progress> {
    match begin(alloc, world) {
        Ok(_) => {
            *checkpoint = Some(Begun { named: None });
            end_line(alloc, world, checkpoint, out)
        }
        Err(fault) => tell(out, None, &fault),
    }
}

// With none begun the manager has failed.
fn end(
    alloc: Global,
    world: &mut ScriptWorld,
    checkpoint: &mut Option<Begun>,
) -> Result<Named, Fault> {
    let Some(begun) = checkpoint else {
        return Err(Fault::Failed);
    };
    let named = begun.end(alloc, world)?;
    *checkpoint = None;
    Ok(named)
}
