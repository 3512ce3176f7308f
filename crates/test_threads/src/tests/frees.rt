//! The workers free a log that one session fills again and again.
use super::life::{RECORD, bytes_of, devices, insert, manager};
use shore_model::Call;
use shore_shared::{Client, Job, serve};
use shore_types::Fault;
use std::alloc::Global;
use std::sync::Wait;
use std::test::Fail;
use std::thread::{Threads, yield_now};
use std::time::Clock;

const UPDATES: u64 = 20_000;

const MOST_TRIES: u64 = 1_000_000;

// A log as long as the one that a program's settings have if they name no other.
const LOG_BYTES: usize = 1_052_672;

// The updates, each in a transaction of its own that is made again where the log is full.
#[derive(Drop)]
struct Fill;

impl Job for Fill {
    type Done = u64;

    ghost use Rattle.std.specs.Prelude.{⊤};

    // Nothing is claimed of it.
    ghost says = { λ _ _ _ _ _. ⊤ };

    fn work<C: Client>(&self, alloc: Global, _number: usize, client: &mut C) -> Result<u64, Fault> {
        insert(alloc, client)?;
        let mut made = 0u64;
        for _ in 0..MOST_TRIES {
            if made >= UPDATES {
                break;
            }
            match update(alloc, client, made) {
                Ok(()) => made += 1,
                Err(Fault::LogFull) => {
                    // It may have been refused before it began.
                    let _ended = client.call(Call::Abort);
                    yield_now();
                }
                Err(fault) => return Err(fault),
            }
        }
        Ok(made)
    }
}

fn update(alloc: Global, client: &mut impl Client, number: u64) -> Result<(), Fault> {
    client.call(Call::Begin)?;
    client.call(Call::Update(RECORD, bytes_of(alloc, number)?))?;
    client.call(Call::Commit)?;
    Ok(())
}

fn made_by_one<R: Threads + Wait + Clock + Sync + Send + Copy>(
    rt: R,
    alloc: Global,
) -> Result<u64, Fault> {
    let (log, volume) = devices(alloc, LOG_BYTES)?;
    let world = manager(alloc, log, volume)?;
    let (left, served) = serve(rt, alloc, world, 1, &[Fill]);
    let _devices = left.into_devices();
    let mut made = 0u64;
    for done in served? {
        for updates in done {
            made = made.saturating_add(updates);
        }
    }
    Ok(made)
}

#[test]
fn workers_free_the_log(rt: HostRuntime) -> Result<(), Fail> {
    match made_by_one(rt, rt.alloc()) {
        Ok(UPDATES) => Ok(()),
        Ok(made) => Err(Fail::new(format_args!("{made} updates of {UPDATES}"))),
        Err(fault) => Err(Fail::new(format_args!("{fault}"))),
    }
}
