//! How long a manager takes over transactions of one update, which end at once or are prepared first; over telling who is in doubt; and over an open that gives many back in
//! doubt.
use crate::manager::{LAST_SESSION, Manager, SESSION};
use bench_parts::host::Host;
use bench_parts::layout::STORE;
use bench_parts::records::record_of;
use shore_model::{Answer, Call, Outcome};
use shore_types::{Fault, GlobalId, Granule, Mode, PageId, Sequence, SessionId};
use shore_world::{Event, Step};
use std::alloc::{AllocError, Global};

/// What is measured of a round.
#[derive(Clone, Copy)]
pub enum Work {
    /// A transaction begins, updates one of a thousand records, and commits or aborts.
    Ended(Outcome),
    /// .. or prepares, and is committed or rolled back then.
    Prepared(Outcome),
    /// A transaction begins, gets one of a thousand records for update and updates it, and commits lazily, with no force.
    Lazy,
    /// .. or begins and commits lazily, with nothing between.
    LazyAlone,
    /// A session is told who is in doubt: so many.
    InDoubt(u32),
}

/// Of an open each of those in doubt has made so many records.
pub const CHANGES_OF_EACH: u64 = 40;

/// Makes a manager ready for the first round, and tells whether it is.
pub fn prepare(manager: &mut Manager, work: Work) -> bool {
    match work {
        Work::Ended(_) | Work::Prepared(_) | Work::Lazy | Work::LazyAlone => true,
        Work::InDoubt(count) => prepare_each(manager, count, 1),
    }
}

/// So many sessions have a page each, insert so many records into it, and prepare. Whether all are prepared.
pub fn prepare_each(manager: &mut Manager, sessions: u32, changes: u64) -> bool {
    let mut is_ready = true;
    for number in 1..=sessions.min(LAST_SESSION) {
        let session = SessionId(number);
        is_ready &= manager.has_answered(session, Call::Begin);
        is_ready &= manager.has_answered(session, Call::Lock(page_of(number), Mode::EX));
        for _ in 0..changes {
            is_ready &= matches!(manager.insert_of(session), Ok(true));
        }
        is_ready &= has_prepared(manager, session);
    }
    is_ready
}

/// The nanoseconds of what is measured of a round, and how many rounds were done.
pub fn measured(host: &Host, manager: &mut Manager, work: Work, rounds: u64) -> (u64, u64) {
    let start = host.nanos();
    let mut done = 0u64;
    for round in 0..rounds {
        let is_done = match work {
            Work::Ended(outcome) => has_updated(manager, round) && has_ended(manager, outcome),
            Work::Prepared(outcome) => {
                has_updated(manager, round)
                    && has_prepared(manager, SESSION)
                    && has_resolved(manager, SESSION, outcome)
            }
            Work::Lazy => {
                manager.has_answered(SESSION, Call::Begin)
                    && has_changed(manager, round)
                    && manager.has_answered(SESSION, Call::Commit)
            }
            Work::LazyAlone => {
                manager.has_answered(SESSION, Call::Begin)
                    && manager.has_answered(SESSION, Call::Commit)
            }
            Work::InDoubt(count) => has_told(manager, count),
        };
        done = done.saturating_add(u64::from(is_done));
    }
    (host.nanos_of_a_round(start, rounds), done)
}

fn has_updated(manager: &mut Manager, round: u64) -> bool {
    manager.has_answered(SESSION, Call::Begin) && matches!(manager.update(SESSION, round), Ok(true))
}

fn has_changed(manager: &mut Manager, round: u64) -> bool {
    manager.has_answered(SESSION, Call::GetForUpdate(record_of(round)))
        && matches!(manager.update(SESSION, round), Ok(true))
}

fn has_ended(manager: &mut Manager, outcome: Outcome) -> bool {
    match outcome {
        Outcome::Commit => manager.commit(SESSION).is_ok(),
        Outcome::Abort => manager.has_answered(SESSION, Call::Abort),
    }
}

// The transaction of a session prepares, by the session's number, with a force.
fn has_prepared(manager: &mut Manager, session: SessionId) -> bool {
    match name_of(manager.alloc(), session) {
        Ok(name) => is_decided(manager, session, Call::Prepare(name)).is_ok(),
        Err(_) => false,
    }
}

// It is decided by its session, with a force.
fn has_resolved(manager: &mut Manager, session: SessionId, outcome: Outcome) -> bool {
    match name_of(manager.alloc(), session) {
        Ok(name) => is_decided(manager, session, Call::Resolve(name, outcome)).is_ok(),
        Err(_) => false,
    }
}

fn is_decided(manager: &mut Manager, session: SessionId, call: Call) -> Result<(), Fault> {
    manager.ask(session, call)?;
    manager.force()?;
    manager.resume(session)
}

/// A session is told that so many are in doubt.
pub fn has_told(manager: &mut Manager, count: u32) -> bool {
    let alloc = manager.alloc();
    match manager
        .world
        .step(alloc, Event::Call(SESSION, Call::InDoubt))
    {
        Step::Done(Answer::AreInDoubt(found)) => found.as_slice().len() as u64 == u64::from(count),
        _ => false,
    }
}

fn page_of(number: u32) -> Granule {
    Granule::Page(PageId {
        store: STORE,
        page: number.saturating_sub(1),
    })
}

// Four bytes.
fn name_of(alloc: Global, session: SessionId) -> Result<GlobalId, AllocError> {
    Ok(Sequence::from_vec(Vec::from_slice(alloc, &session.0.to_be_bytes())?))
}
