//! Nobody is left asleep.
use super::life::{add_one, insert, live, read};
use shore_shared::{Client, Job, Open};
use shore_types::Fault;
use std::alloc::Global;
use std::sync::Wait;
use std::test::Fail;
use std::thread::Threads;
use std::time::Clock;

// What the clients do with the record.
#[derive(Drop)]
enum Task {
    // The first of them makes it.
    Insert,
    // Each has so many rounds, each answered once it is durable.
    Count(u16),
    // The first comes to what it counts.
    Read,
}

impl Job for Task {
    type Done = u64;

    ghost use Rattle.std.specs.Prelude.{⊤};

    // Nothing is claimed of it.
    ghost says = { λ _ _ _ _ _. ⊤ };

    fn work<C: Client>(&self, alloc: Global, number: usize, client: &mut C) -> Result<u64, Fault> {
        match self {
            Task::Insert if number == 0 => insert(alloc, client)?,
            Task::Count(rounds) => {
                for _ in 0..*rounds {
                    add_one(alloc, client)?;
                    client.commit_durable()?;
                }
            }
            Task::Read if number == 0 => return read(client),
            Task::Insert | Task::Read => {}
        }
        Ok(0)
    }
}

// What the record counts in the end.
fn counted<R: Threads + Wait + Clock + Sync + Send + Copy>(
    rt: R,
    alloc: Global,
    sessions: u32,
    rounds: u16,
) -> Result<u64, Fault> {
    let tasks = [Task::Insert, Task::Count(rounds), Task::Read];
    let lived = live(rt, alloc, 1 << 22, sessions, &tasks, &Open)?;
    match lived.done.as_slice() {
        [_, _, read] => read.first().copied().ok_or(Fault::NotQuiet),
        _ => Err(Fault::NotQuiet),
    }
}

fn check<R: Threads + Wait + Clock + Sync + Send + Copy>(
    rt: R,
    alloc: Global,
    sessions: u32,
    rounds: u16,
    wanted: u64,
) -> Result<(), Fail> {
    match counted(rt, alloc, sessions, rounds) {
        Ok(total) if total == wanted => Ok(()),
        Ok(total) => Err(Fail::new(format_args!("{total} and not {wanted}"))),
        Err(fault) => Err(Fail::new(format_args!("{fault}"))),
    }
}

#[test]
fn one_session_counts(rt: HostRuntime) -> Result<(), Fail> {
    check(rt, rt.alloc(), 1, 100, 100)
}

#[test]
fn sessions_that_wait_for_one_record_all_end(rt: HostRuntime) -> Result<(), Fail> {
    check(rt, rt.alloc(), 255, 4, 1_020)
}
