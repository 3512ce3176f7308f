//! Prepares and resolves in threads: each is answered once its record is durable.
use super::life::{bytes_of, devices, manager};
use shore_disk::MemDisk;
use shore_model::{Answer, Call, Outcome};
use shore_shared::{Client, Job, serve};
use shore_types::{Fault, GlobalId, Sequence, StoreId};
use std::alloc::Global;
use std::sync::Wait;
use std::test::Fail;
use std::thread::Threads;
use std::time::Clock;

const CLIENTS: u32 = 4;

// An even number: half of them are decided to commit.
const ROUNDS: u8 = 10;

const LOG_BYTES: usize = 1 << 20;

// Each client makes a record a round, prepares, and is decided by the session that it is of, in turn either way. It comes to the rounds that were answered as they have to be.
#[derive(Drop)]
struct Decide;

impl Job for Decide {
    type Done = u64;

    ghost use Rattle.std.specs.Prelude.{⊤};

    // Nothing is claimed of it.
    ghost says = { λ _ _ _ _ _. ⊤ };

    fn work<C: Client>(&self, alloc: Global, number: usize, client: &mut C) -> Result<u64, Fault> {
        let mut right = 0u64;
        for round in 0..ROUNDS {
            let outcome = if round % 2 == 0 {
                Outcome::Commit
            } else {
                Outcome::Abort
            };
            if prepare_and_resolve(alloc, number, round, outcome, client)? {
                right = right.saturating_add(1);
            }
        }
        Ok(right)
    }
}

fn prepare_and_resolve(
    alloc: Global,
    number: usize,
    round: u8,
    outcome: Outcome,
    client: &mut impl Client,
) -> Result<bool, Fault> {
    client.call(Call::Begin)?;
    client.call(Call::Insert(StoreId(0), bytes_of(alloc, round as u64)?))?;
    let prepared = client.call(Call::Prepare(global_id(alloc, number, round)?))?;
    let resolved = client.call(Call::Resolve(global_id(alloc, number, round)?, outcome))?;
    Ok(matches!(prepared, Answer::Prepared) && matches!(resolved, Answer::Resolved))
}

fn global_id(alloc: Global, number: usize, round: u8) -> Result<GlobalId, Fault> {
    let client = (number % 256) as u8;
    Ok(Sequence::from_vec(Vec::from_slice(alloc, &[client, round])?))
}

// How many rounds were answered, and how many records stand in the end.
fn decided<R: Threads + Wait + Clock + Sync + Send + Copy>(
    rt: R,
    alloc: Global,
) -> Result<(u64, usize), Fault> {
    let (log, volume) = devices(alloc, LOG_BYTES)?;
    let world = manager(alloc, log, volume)?;
    let (left, served) = serve(rt, alloc, world, CLIENTS, &[Decide]);
    let (log, volume) = left.into_devices();
    let mut right = 0u64;
    for done in served? {
        for rounds in done {
            right = right.saturating_add(rounds);
        }
    }
    Ok((right, records_in(alloc, log, volume)?))
}

// The records behind an open: what was changed in memory alone is forgotten, and the log has it.
fn records_in(alloc: Global, log: MemDisk, volume: MemDisk) -> Result<usize, Fault> {
    let mut world = manager(alloc, log, volume)?;
    let shown = world.dump(alloc, StoreId(0));
    let _devices = world.into_devices();
    let pairs = shown?;
    Ok(pairs.len())
}

#[test]
fn prepares_and_resolves_are_answered_once_durable(rt: HostRuntime) -> Result<(), Fail> {
    let rounds = CLIENTS as u64 * ROUNDS as u64;
    match decided(rt, rt.alloc()) {
        Ok((right, records)) if right == rounds && records as u64 == rounds / 2 => Ok(()),
        Ok((right, records)) => Err(Fail::new(format_args!(
            "{right} rounds of {rounds}, and {records} records"
        ))),
        Err(fault) => Err(Fail::new(format_args!("{fault}"))),
    }
}
