//! The manager as a library: a pair of files is formatted, unless a run before has left it, and opened, a transaction inserts a record and commits, and a second open shows it.
#![tactic(auto)]

ghost use Rattle.shore_model.specs.Calls.{IsServed};

use anyhow::{Error, Result};
use shore_disk::{FileDisk, FilePlaces, open_files};
use shore_model::{Answer, Call};
use shore_types::{Fault, Geometry, Sequence, SessionId, StoreId, Version};
use shore_world::{Event, Step, World, format, volume_bytes};

const LOG: &str = "embed.log";

const VOLUME: &str = "embed.volume";

const SESSION: SessionId = SessionId(1);

type Manager = World<FileDisk, FileDisk>;

// Makes both files as long as neither holds a byte: a log of a megabyte, and a volume of one store with 16 pages. What is there stays.
fn make(rt: &HostRuntime) -> Result<()> {
    let stores = Vec::from_slice(rt.alloc(), &[16u32])?;
    let geometry = Geometry {
        version: Version::One,
        pair: 1,
        max_locks: 1_024,
        stores: Sequence::from_vec(stores),
    };
    let places = FilePlaces::look(rt, LOG, VOLUME)?;
    if places.filled().is_some() {
        return Ok(());
    }
    let (mut log, mut volume) = places.cleared(rt, 1 << 20, volume_bytes(&geometry))?;
    format(rt.alloc(), &mut log, &mut volume, &geometry)?;
    Ok(())
}

// What a step answers, unless there is nothing to answer yet.
fn answer_of(step: Step) -> Result<Option<Answer>, Fault> {
    match step {
        Step::Done(answer) => Ok(Some(answer)),
        Step::Refused(fault) => Err(fault),
        Step::Waits(_) | Step::Nothing => Ok(None),
    }
}

// Makes every record of the log durable, as many at a time as a frame holds.
fn force(rt: &HostRuntime, manager: &mut Manager) -> Result<(), Fault> {
    for _ in 0..u64::MAX {
        if answer_of(manager.step(rt.alloc(), Event::ForceStage))?.is_none() {
            break;
        }
        answer_of(manager.step(rt.alloc(), Event::ForceOpen))?;
    }
    Ok(())
}

// Makes a call. The log is forced if the call needs that to begin, or waits for it, as a prepare does.
fn ask(rt: &HostRuntime, manager: &mut Manager, call: Call) -> Result<Option<Answer>, Fault>
    requires { IsServed call }
{
    let again = Event::Call(SESSION, call.try_clone(rt.alloc())?);
    let next = match manager.step(rt.alloc(), Event::Call(SESSION, call)) {
        Step::Refused(Fault::NeedForce { .. }) => again,
        Step::Waits(_) => Event::Resume(SESSION),
        step => return answer_of(step),
    };
    force(rt, manager)?;
    answer_of(manager.step(rt.alloc(), next))
}

// Commits. That is answered with a ticket, and the commit is durable once all up to this is forced: a server would force once for the tickets of many.
fn commit(rt: &HostRuntime, manager: &mut Manager) -> Result<(), Fault> {
    let answer = ask(rt, manager, Call::Commit)?;
    let Some(Answer::Committed(ticket)) = &answer else {
        return Err(Fault::Failed);
    };
    force(rt, manager)?;
    match manager.step(rt.alloc(), Event::Ask(*ticket)) {
        Step::Done(Answer::IsDurable(true)) => Ok(()),
        _ => Err(Fault::Failed),
    }
}

// Shows all records, and then inserts one in a transaction that is committed.
fn work(rt: &HostRuntime, manager: &mut Manager) -> Result<()> {
    let records = manager.dump(rt.alloc(), StoreId(0))?;
    for index in 0..records.len() {
        if let Some((id, bytes)) = records.get(index) {
            println!(rt; "{id} {}", str::from_utf8(bytes).unwrap_or("?"))?;
        }
    }
    let record = Sequence::from_vec(Vec::from_slice(rt.alloc(), b"a record")?);
    ask(rt, manager, Call::Begin)?;
    ask(rt, manager, Call::Insert(StoreId(0), record))?;
    commit(rt, manager)?;
    Ok(())
}

// Opens the manager, with 64 frames for pages, works with it, and closes it. Its files are locked meanwhile.
fn run(rt: &HostRuntime) -> Result<()> {
    let (log, volume) = open_files(rt, LOG, VOLUME)?;
    let mut manager = match World::open(rt.alloc(), log, volume, 64) {
        Ok(manager) => manager,
        Err((fault, _, _)) => return Err(Error::from(fault)),
    };
    let worked = work(rt, &mut manager);
    let _files = manager.into_devices();
    worked
}

fn main(rt: HostRuntime) -> Result<()> {
    make(&rt)?;
    run(&rt)?;
    run(&rt)
}
