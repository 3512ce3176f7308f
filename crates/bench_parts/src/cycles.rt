//! How long the search for cycles takes if many transactions wait. The call alone is measured.
use crate::host::Host;
use crate::locks::{ask, record};
use shore_deadlock::{break_cycles, find_cycle};
use shore_locks::LockTable;
use shore_types::{Mode, TxnId};
use std::alloc::{AllocError, Global};

const NODES: usize = 2048;

const ASKER: u64 = 1;

const LAST: u64 = 255;

/// What is measured in a round.
#[derive(Clone, Copy)]
pub enum Work {
    /// 254 transactions hold a record and wait for another, which one holds that now waits for the first: the cycles are broken.
    Victims,
    /// 254 transactions wait in one queue for a record of one that waits for nobody: the search from the last of them.
    Queue,
    /// As for the victims, but what they wait for is held by one that waits for nobody: the search from the asker.
    Waiters,
}

/// Whether all could ask: without that there is nothing to measure.
fn fill(table: &mut LockTable, work: Work) -> bool {
    let holder = match work {
        Work::Victims => ASKER,
        Work::Queue | Work::Waiters => LAST + 1,
    };
    let mut all = ask(table, holder, record(0), Mode::EX);
    for txn in ASKER + 1..LAST + 1 {
        all &= ask(table, txn, record(1), Mode::SH);
        all &= ask(table, txn, record(0), Mode::SH);
    }
    ask(table, ASKER, record(1), Mode::EX) && all
}

/// What the call answers: how many victims, or how long the cycle is. A call that is refused counts nothing.
fn call(alloc: Global, table: &mut LockTable, work: Work) -> usize {
    match work {
        Work::Victims => match break_cycles(alloc, table, TxnId(ASKER)) {
            Ok(victims) => victims.len(),
            Err(_) => 0,
        },
        Work::Queue => searched(alloc, table, LAST),
        Work::Waiters => searched(alloc, table, ASKER),
    }
}

fn searched(alloc: Global, table: &LockTable, txn: u64) -> usize {
    match find_cycle(alloc, table, TxnId(txn)) {
        Ok(Some(cycle)) => cycle.as_slice().len(),
        _ => 0,
    }
}

/// The nanoseconds of the call of a round, and the sum of all answers.
pub fn measured(host: &Host, work: Work, rounds: u64) -> Result<(u64, u64), AllocError> {
    let (mut nanos, mut sum) = (0u64, 0u64);
    for _ in 0..rounds {
        let mut table = LockTable::new(host.alloc(), NODES)?;
        let (took, answer) = timed(host, &mut table, work);
        nanos = nanos.wrapping_add(took);
        sum = sum.wrapping_add(answer);
    }
    Ok((nanos / rounds.max(1), sum))
}

/// One round, of which the call alone is timed, and what it answers; no time is told if it could not be made ready.
fn timed(host: &Host, table: &mut LockTable, work: Work) -> (u64, u64) {
    if !fill(table, work) {
        return (0, 0);
    }
    let start = host.nanos();
    let answer = call(host.alloc(), table, work);
    (host.nanos_since(start), answer as u64)
}
