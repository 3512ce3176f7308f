//! How long a manager takes over the steps of a checkpoint, with as many transactions as there may be and a thousand dirty pages in its tables.
use crate::manager::{LAST_SESSION, Manager};
use bench_parts::host::Host;
use shore_model::{Answer, Call};
use shore_types::{Fault, SessionId};
use shore_world::{Event, Step};

/// So many records of a hundred bytes fill a thousand pages, which no step of a flush writes back.
pub const RECORDS: u64 = 78_000;

/// Each session has a transaction with an update. Whether all have.
pub fn prepare(manager: &mut Manager) -> bool {
    let mut is_ready = true;
    for number in 1..=LAST_SESSION {
        let session = SessionId(number);
        is_ready &= manager.has_answered(session, Call::Begin);
        is_ready &= matches!(manager.update(session, u64::from(number)), Ok(true));
    }
    is_ready
}

/// The nanoseconds of a checkpoint's four steps, without the forces that they wait for, and how many checkpoints were made. The transactions go on, so the log is
/// never cut behind their first records.
pub fn measured(host: &Host, manager: &mut Manager, rounds: u64) -> (u64, u64) {
    let (mut nanos, mut done) = (0u64, 0u64);
    for _ in 0..rounds {
        match timed_steps(host, manager) {
            Ok(took) => {
                nanos = nanos.saturating_add(took);
                done = done.saturating_add(1);
            }
            Err(_) => break,
        }
    }
    (nanos / rounds.max(1), done)
}

fn timed_steps(host: &Host, manager: &mut Manager) -> Result<u64, Fault> {
    let (alloc, mut nanos) = (manager.alloc(), 0u64);
    for _ in 0..u64::MAX {
        let start = host.nanos();
        let step = manager.world.step(alloc, Event::CheckpointStep);
        nanos = nanos.saturating_add(host.nanos_since(start));
        match step {
            Step::Done(Answer::Moved) => break,
            Step::Done(_) => {}
            Step::Nothing => manager.force()?,
            Step::Refused(fault) => return Err(fault),
            Step::Waits(_) => return Err(Fault::Failed),
        }
    }
    Ok(nanos)
}
