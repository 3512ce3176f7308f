//! Copies of a manager's log.
use super::devices::Manager;
use super::trouble::Trouble;
use shore_model::{LogRecord, Payload};
use shore_types::images;
use std::alloc::Global;

/// A list of records once more.
pub(super) fn copy_of_log(alloc: Global, records: &[LogRecord]) -> Result<Vec<LogRecord>, Trouble> {
    let mut list = Vec::new(alloc);
    push_copies(alloc, &mut list, records)?;
    Ok(list)
}

/// How many records lie below the tail of a manager's log: its device has them no more.
pub(super) fn cut_off_of(world: &Manager) -> usize {
    world.tail().0.saturating_sub(1) as usize
}

/// All records of a manager that has not failed: those below the tail as they were logged once, and the others as its log device and its log buffer have them.
pub(super) fn log_of(
    alloc: Global,
    world: &mut Manager,
    logged: &[LogRecord],
) -> Result<Vec<LogRecord>, Trouble> {
    let Some(below) = logged.get(..cut_off_of(world)) else {
        return Err(Trouble("more is cut off than was logged"));
    };
    let Ok(mut kept) = world.durable_records(alloc) else {
        return Err(Trouble("the durable records are not read"));
    };
    let mut list = copy_of_log(alloc, below)?;
    list.append(&mut kept)?;
    list.append(&mut world.waiting(alloc)?)?;
    Ok(list)
}

/// Adds copies of records to a list.
pub(super) fn push_copies(
    alloc: Global,
    list: &mut Vec<LogRecord>,
    records: &[LogRecord],
) -> Result<(), Trouble> {
    for logged in records {
        list.push(LogRecord {
            txn: logged.txn,
            previous: logged.previous,
            payload: copy_of(alloc, &logged.payload)?,
        })?;
    }
    Ok(())
}

fn copy_of(alloc: Global, payload: &Payload) -> Result<Payload, Trouble> {
    match payload {
        Payload::Change { id, before, after } => Ok(Payload::Change {
            id: *id,
            before: images::copy_of(alloc, before)?,
            after: images::copy_of(alloc, after)?,
        }),
        Payload::Compensation {
            id,
            after,
            undo_next,
        } => Ok(Payload::Compensation {
            id: *id,
            after: images::copy_of(alloc, after)?,
            undo_next: *undo_next,
        }),
        Payload::Commit => Ok(Payload::Commit),
        Payload::End => Ok(Payload::End),
        Payload::Prepare { global, granules } => Ok(Payload::Prepare {
            global: global.try_clone(alloc)?,
            granules: granules.try_clone(alloc)?,
        }),
        Payload::RollbackDecided => Ok(Payload::RollbackDecided),
        Payload::CheckpointBegin => Ok(Payload::CheckpointBegin),
        Payload::CheckpointEnd {
            begin,
            next,
            txns,
            dirty,
        } => Ok(Payload::CheckpointEnd {
            begin: *begin,
            next: *next,
            txns: txns.try_clone(alloc)?,
            dirty: dirty.try_clone(alloc)?,
        }),
        Payload::Anchor { checkpoint, tail } => Ok(Payload::Anchor {
            checkpoint: *checkpoint,
            tail: *tail,
        }),
    }
}
