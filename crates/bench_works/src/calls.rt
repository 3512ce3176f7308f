//! How long the calls of a manager take, over devices in memory: of one session, alone and beside others.
ghost use Rattle.std.specs.Prelude.{◌≤◌};

use crate::manager::{FRAMES, LAST_SESSION, Manager, Pair, SESSION, new_manager, opened};
use crate::{checkpointing, preparing, waiting};
use bench_parts::host::Host;
use bench_parts::layout::STORE;
use bench_parts::records::record_of;
use shore_disk::Pick;
use shore_model::{Call, Outcome};
use shore_types::{Granule, Mode, SessionId};
use std::io;

/// All works with a manager in memory, by their names.
pub const WORKS: [(&str, Work); 26] = [
    ("call_get", Work::Call(Kind::Get, 1_000, None)),
    (
        "call_get_beside",
        Work::Call(Kind::Get, 1_000, Some(Mode::IX)),
    ),
    ("call_insert", Work::Call(Kind::Insert, 0, None)),
    (
        "call_insert_beside",
        Work::Call(Kind::Insert, 0, Some(Mode::IX)),
    ),
    ("call_insert_far", Work::Call(Kind::Insert, 23_400, None)),
    ("call_update", Work::Call(Kind::Update, 1_000, None)),
    (
        "call_update_beside",
        Work::Call(Kind::Update, 1_000, Some(Mode::IX)),
    ),
    ("call_scan", Work::Call(Kind::Scan, 1_000, None)),
    (
        "call_scan_beside",
        Work::Call(Kind::Scan, 1_000, Some(Mode::IS)),
    ),
    ("call_savepoint", Work::Call(Kind::Savepoint, 1_000, None)),
    ("call_back", Work::Call(Kind::Back, 1_000, None)),
    ("call_commit", Work::Call(Kind::Nothing, 0, None)),
    ("call_abort", Work::Abort),
    ("call_open", Work::Open),
    ("call_open_in_doubt", Work::OpenInDoubt),
    (
        "call_ended",
        Work::Preparing(preparing::Work::Ended(Outcome::Commit)),
    ),
    ("call_lazy", Work::Preparing(preparing::Work::Lazy)),
    (
        "call_lazy_alone",
        Work::Preparing(preparing::Work::LazyAlone),
    ),
    (
        "call_prepared",
        Work::Preparing(preparing::Work::Prepared(Outcome::Commit)),
    ),
    (
        "call_rolled_back",
        Work::Preparing(preparing::Work::Prepared(Outcome::Abort)),
    ),
    (
        "call_in_doubt_64",
        Work::Preparing(preparing::Work::InDoubt(64)),
    ),
    (
        "call_in_doubt_256",
        Work::Preparing(preparing::Work::InDoubt(256)),
    ),
    ("call_checkpoint", Work::Checkpoint),
    ("call_let_through", Work::Waiting(waiting::Work::LetThrough)),
    ("call_wait", Work::Waiting(waiting::Work::Wait)),
    ("call_victims", Work::Waiting(waiting::Work::Victims)),
];

/// A call on records of a hundred bytes, under its locks.
#[derive(Clone, Copy)]
pub enum Kind {
    /// Gets one of a thousand records.
    Get,
    /// Inserts a record, into a store that was empty before the first round or behind a thousand pages that are full.
    Insert,
    /// Updates one of a thousand records.
    Update,
    /// Scans a store of a thousand records, with few pages more than they need: a page that has no record is no record's cost.
    Scan,
    /// Sets a savepoint, and goes back to the one before it, behind which nothing was changed.
    Savepoint,
    /// Updates one of a thousand records, and goes back to the savepoint before it.
    Back,
    /// None: each round begins and commits a transaction that does nothing, with the force of its record.
    Nothing,
}

/// What a round does.
#[derive(Clone, Copy)]
pub enum Work {
    /// Makes a call, behind so many records; alone, or beside 255 transactions that have an intention on the store by which they are in nobody's way. A hundred
    /// rounds are a transaction, with its begin, its commit and its force.
    Call(Kind, u64, Option<Mode>),
    /// The abort of a transaction with so many updates as there are rounds: a round is an update that is put back.
    Abort,
    /// An open of what a crash left of one transaction with so many inserts as there are rounds: a round is a record.
    Open,
    /// An open of what a crash left of as many prepared transactions as there are rounds, and 256 at most: a round is one with forty inserts.
    OpenInDoubt,
    /// What is measured of a round of transactions of one update, or of those in doubt.
    Preparing(preparing::Work),
    /// A checkpoint with full tables: its steps alone.
    Checkpoint,
    /// What is measured of a round of sessions that wait for one another.
    Waiting(waiting::Work),
}

// How many rounds with a call are one transaction.
fn rounds_of_a_transaction(kind: Kind) -> u64
    ensures { 1 ≤ result }
{
    match kind {
        Kind::Nothing => 1,
        _ => 100,
    }
}

/// Prints how many of a hundred rounds of each work are done.
pub fn count(rt: &HostRuntime) -> io::Result<()> {
    let host = Host::new(rt)?;
    for (name, work) in WORKS {
        let (_, done) = measured(&host, work, 100);
        println!(rt; "{name} {done}")?;
    }
    Ok(())
}

// One call. Whether it was answered, and a scan with all records.
fn has_called(manager: &mut Manager, kind: Kind, round: u64) -> bool {
    match kind {
        Kind::Get => manager.has_answered(SESSION, Call::Get(record_of(round))),
        Kind::Insert => matches!(manager.insert(), Ok(true)),
        Kind::Update => matches!(manager.update(SESSION, round), Ok(true)),
        Kind::Scan => match manager.scan() {
            Ok(pairs) => pairs.len() == 1_000,
            Err(_) => false,
        },
        Kind::Savepoint => {
            manager.has_answered(SESSION, Call::Savepoint)
                && manager.has_answered(SESSION, Call::BackTo(0))
        }
        Kind::Back => {
            manager.update(SESSION, round).is_ok() && manager.has_answered(SESSION, Call::BackTo(0))
        }
        Kind::Nothing => true,
    }
}

// The begin of a transaction. One that goes back sets its savepoint first.
fn has_begun(manager: &mut Manager, kind: Kind) -> bool {
    let goes_back = matches!(kind, Kind::Savepoint | Kind::Back);
    manager.has_answered(SESSION, Call::Begin)
        && (!goes_back || manager.has_answered(SESSION, Call::Savepoint))
}

// Makes a manager ready for the first round, and tells whether it is.
fn prepare(manager: &mut Manager, work: Work, rounds: u64) -> bool {
    let mut is_ready = true;
    match work {
        Work::Call(_, _, None) | Work::Open => {}
        Work::Abort => {
            is_ready &= manager.has_answered(SESSION, Call::Begin);
            for round in 0..rounds {
                is_ready &= manager.update(SESSION, round).is_ok();
            }
        }
        Work::Call(_, _, Some(intention)) => {
            for number in 2..=LAST_SESSION {
                let lock = Call::Lock(Granule::Store(STORE), intention);
                is_ready &= manager.has_answered(SessionId(number), Call::Begin);
                is_ready &= manager.has_answered(SessionId(number), lock);
            }
        }
        Work::OpenInDoubt => {
            let sessions = u32::try_from(rounds).unwrap_or(LAST_SESSION);
            is_ready &= preparing::prepare_each(manager, sessions, preparing::CHANGES_OF_EACH);
        }
        Work::Preparing(work) => is_ready &= preparing::prepare(manager, work),
        Work::Checkpoint => is_ready &= checkpointing::prepare(manager),
        Work::Waiting(work) => is_ready &= waiting::prepare(manager, work),
    }
    is_ready
}

/// The nanoseconds of a round, and how many were done; nothing is done if there is no memory.
pub fn measured(host: &Host, work: Work, rounds: u64) -> (u64, u64) {
    // The pages of the store, and how many records are made before the first round.
    let (pages, records) = match work {
        Work::Call(Kind::Scan, records, _) => (16, records),
        Work::Call(_, records, _) => (4_096, records),
        Work::Preparing(preparing::Work::InDoubt(_)) | Work::OpenInDoubt => (4_096, 0),
        Work::Abort | Work::Preparing(_) => (4_096, 1_000),
        Work::Open => (4_096, rounds),
        Work::Waiting(_) => (16, 2),
        Work::Checkpoint => (4_096, checkpointing::RECORDS),
    };
    let mut manager = match new_manager(host.alloc(), pages) {
        Ok(manager) => manager,
        Err(_) => return (0, 0),
    };
    let is_ready = manager.fill(records).is_ok() && prepare(&mut manager, work, rounds);
    let measured = match work {
        _ if !is_ready => (0, 0),
        Work::Call(kind, _, _) => measured_rounds(host, &mut manager, kind, rounds),
        Work::Abort => measured_abort(host, &mut manager, rounds),
        Work::Preparing(work) => preparing::measured(host, &mut manager, work, rounds),
        Work::Waiting(work) => waiting::measured(host, &mut manager, work, rounds),
        Work::Checkpoint => checkpointing::measured(host, &mut manager, rounds),
        Work::Open | Work::OpenInDoubt => (0, 0),
    };
    let pair = manager.into_devices();
    match work {
        Work::Open => measured_open(host, pair, rounds),
        Work::OpenInDoubt => measured_open_in_doubt(host, pair, rounds),
        _ => measured,
    }
}

// A transaction begins with its first round, and commits with its last one.
fn measured_rounds(host: &Host, manager: &mut Manager, kind: Kind, rounds: u64) -> (u64, u64) {
    let of_a_transaction = rounds_of_a_transaction(kind);
    let start = host.nanos();
    let mut done = 0u64;
    for round in 0..rounds {
        let within = round % of_a_transaction;
        let is_begun = within != 0 || has_begun(manager, kind);
        let is_done = is_begun && has_called(manager, kind, round);
        let goes_on = within != of_a_transaction - 1 && round + 1 != rounds;
        let is_ended = goes_on || manager.commit(SESSION).is_ok();
        done = done.saturating_add(u64::from(is_done && is_ended));
    }
    (host.nanos_of_a_round(start, rounds), done)
}

// With how many updates were put back: the log has a record more for each, and one for the end.
fn measured_abort(host: &Host, manager: &mut Manager, updates: u64) -> (u64, u64) {
    let before = manager.logged();
    let start = host.nanos();
    let is_done = manager.ask(SESSION, Call::Abort).is_ok();
    let nanos = host.nanos_of_a_round(start, updates);
    let undone = manager.logged().saturating_sub(before).saturating_sub(1);
    (nanos, if is_done { undone } else { 0 })
}

// Of what a loss of power leaves of the devices. With how many records are shown.
fn measured_open(host: &Host, pair: Pair, rounds: u64) -> (u64, u64) {
    let (mut log, mut volume) = pair;
    log.crash(Pick::Old);
    volume.crash(Pick::Old);
    let start = host.nanos();
    let opened = opened(host.alloc(), (log, volume), FRAMES);
    let nanos = host.nanos_of_a_round(start, rounds);
    let Ok(mut manager) = opened else {
        return (nanos, 0);
    };
    let records = manager.records();
    manager.into_devices();
    match records {
        Ok(records) => (nanos, records.len() as u64),
        Err(_) => (nanos, 0),
    }
}

// The same, with how many are in doubt.
fn measured_open_in_doubt(host: &Host, pair: Pair, rounds: u64) -> (u64, u64) {
    let (mut log, mut volume) = pair;
    log.crash(Pick::Old);
    volume.crash(Pick::Old);
    let start = host.nanos();
    let opened = opened(host.alloc(), (log, volume), FRAMES);
    let nanos = host.nanos_of_a_round(start, rounds);
    let Ok(manager) = opened else {
        return (nanos, 0);
    };
    let in_doubt = manager.world.report().in_doubt;
    manager.into_devices();
    (nanos, in_doubt)
}
