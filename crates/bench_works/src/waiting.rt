//! How long a manager takes over sessions that wait for one another: 256 of them, over devices in memory. Of each round one part is measured, and neither what
//! makes it ready nor what ends it.
use crate::manager::{LAST_SESSION, Manager, SESSION};
use bench_parts::host::Host;
use bench_parts::records::record_of;
use shore_model::Call;
use shore_types::{Fault, SessionId};

/// What is measured of a round.
#[derive(Clone, Copy)]
pub enum Work {
    /// 255 sessions wait for the record that one has updated: its commit, up to the answer of the first of them, which now has the record.
    LetThrough,
    /// A session's update of that record, as it begins to wait behind the 255 others.
    Wait,
    /// A session's update of a record that 255 others have read, while each of them waits for one that it has updated: so each of them closes a cycle, and
    /// is a victim.
    Victims,
}

/// Makes a manager ready for the first round, and tells whether it is.
pub fn prepare(manager: &mut Manager, work: Work) -> bool {
    let mut is_ready = true;
    if !matches!(work, Work::Victims) {
        for number in 1..=LAST_SESSION {
            is_ready &= update_anew(manager, SessionId(number));
        }
    }
    is_ready
}

/// The nanoseconds of what is measured of a round, and how many rounds were done.
pub fn measured(host: &Host, manager: &mut Manager, work: Work, rounds: u64) -> (u64, u64) {
    let (mut nanos, mut done) = (0u64, 0u64);
    for round in 0..rounds {
        let (took, is_done) = match work {
            Work::LetThrough => timed_let_through(host, manager, round),
            Work::Wait => timed_wait(host, manager, round),
            Work::Victims => timed_victims(host, manager),
        };
        nanos = nanos.saturating_add(took);
        done = done.saturating_add(u64::from(is_done));
    }
    (nanos / rounds.max(1), done)
}

fn timed_let_through(host: &Host, manager: &mut Manager, round: u64) -> (u64, bool) {
    let start = host.nanos();
    let is_done = let_through(manager, round);
    let nanos = host.nanos_since(start);
    (nanos, is_done & update_anew(manager, session_of(round)))
}

fn timed_wait(host: &Host, manager: &mut Manager, round: u64) -> (u64, bool) {
    let is_ready = let_through(manager, round)
        && manager.has_answered(session_of(round), Call::Begin);
    let start = host.nanos();
    let is_done = manager.update(session_of(round), 0).is_ok();
    (host.nanos_since(start), is_ready && is_done)
}

// The session that is measured begins first, and has the first record; all others have read the second, and wait for the first.
fn timed_victims(host: &Host, manager: &mut Manager) -> (u64, bool) {
    let mut is_ready = update_anew(manager, SESSION);
    for number in 2..=LAST_SESSION {
        let session = SessionId(number);
        is_ready &= manager.has_answered(session, Call::Begin);
        is_ready &= manager.has_answered(session, Call::Get(record_of(1)));
        is_ready &= manager.update(session, 0).is_ok();
    }
    let start = host.nanos();
    let is_done = manager.update(SESSION, 1).is_ok();
    let nanos = host.nanos_since(start);
    (nanos, end_victims(manager) && is_ready && is_done)
}

// Each of the others is told that it was chosen as a victim, and is rolled back.
fn end_victims(manager: &mut Manager) -> bool {
    let mut is_ended = true;
    for number in 2..=LAST_SESSION {
        let told = manager.resume(SessionId(number));
        is_ended &= matches!(told, Err(Fault::Deadlock { .. }));
        is_ended &= manager.has_answered(SessionId(number), Call::Abort);
    }
    is_ended && manager.resume(SESSION).is_ok() && manager.commit(SESSION).is_ok()
}

// The session whose turn it is.
fn session_of(round: u64) -> SessionId {
    SessionId((round % u64::from(LAST_SESSION)) as u32 + 1)
}

// A session begins and asks for the first record, which it has or waits for.
fn update_anew(manager: &mut Manager, session: SessionId) -> bool {
    manager.has_answered(session, Call::Begin) && manager.update(session, 0).is_ok()
}

// The session whose turn it is commits, and that of the next round has the record then.
fn let_through(manager: &mut Manager, round: u64) -> bool {
    manager.commit(session_of(round)).is_ok()
        && manager.resume(session_of(round.wrapping_add(1))).is_ok()
}
