//! Commits and their tickets.

use crate::forcing::force_up_to;
use crate::manager::ScriptWorld;
use shore_model::{Answer, Call};
use shore_script::render;
use shore_types::{SessionId, Ticket};
use shore_world::{Event, Step};
use std::alloc::Global;
use std::io::{self, Write};

/// The session's commit has its ticket. The log is forced up to it, and the session is answered before any that waited for its locks. If the device fails in the
/// force, that is the answer: whether the commit is kept the next open shows.
pub fn commit<W: Write>(
    alloc: Global,
    world: &mut ScriptWorld,
    session: SessionId,
    ticket: Ticket,
    out: &mut W,
) -> io::Result<()> {
    match force_up_to(alloc, world, ticket) {
        Ok(()) => render::committed(out, session),
        Err(fault) => render::fault(out, Some(session), &fault),
    }
}

/// A commit that is not forced: its ticket is the answer. It asks for no page, so it needs no force to begin.
pub fn lazy<W: Write>(
    alloc: Global,
    world: &mut ScriptWorld,
    session: SessionId,
    out: &mut W,
) -> io::Result<()> {
    match world.step(alloc, Event::Call(session, Call::Commit)) {
        Step::Done(answer) => render::answer(out, session, &answer),
        Step::Refused(fault) => render::fault(out, Some(session), &fault),
        Step::Waits(_) | Step::Nothing => Ok(()),
    }
}

/// Whether the commit of a ticket is durable.
pub fn durable<W: Write>(
    alloc: Global,
    world: &mut ScriptWorld,
    ticket: Ticket,
    out: &mut W,
) -> io::Result<()> {
    match world.step(alloc, Event::Ask(ticket)) {
        Step::Done(Answer::IsDurable(is_durable)) => render::durable(out, is_durable),
        // An ask answers nothing else.
        _ => Ok(()),
    }
}
