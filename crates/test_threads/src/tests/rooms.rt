//! Transactions that begin together over the shortest log: none is refused while nobody keeps it, and all are answered beside one that does.
use super::life::{bytes_of, devices, manager};
use shore_model::{Answer, Call};
use shore_shared::{Client, Job, serve};
use shore_types::{Fault, Rid, StoreId};
use std::alloc::Global;
use std::sync::Wait;
use std::sync::atomic::{AtomicU64, Ordering};
use std::test::Fail;
use std::thread::{Threads, sleep};
use std::time::{Clock, Duration};

const CLIENTS: u32 = 8;

// So many transactions of each: they fill the log ten times and more.
const ROUNDS: u64 = 500;

const LOG_BYTES: usize = 135_168;

// The one that keeps the log waits for the others so many milliseconds at most.
const MOST_NAPS: u32 = 120_000;

#[derive(Drop)]
struct Fill<'r, 'm, R: Clock> {
    rt: &'r R,
    // Whether the first client keeps the log: its transaction makes no call until all others have ended.
    keeps: bool,
    ended: &'m AtomicU64,
}

impl<'r, 'm, R: Clock> Job for Fill<'r, 'm, R> {
    // How many of its transactions were refused since the log was full.
    type Done = u64;

    ghost use Rattle.std.specs.Prelude.{⊤};

    // Nothing is claimed of it.
    ghost says = { λ _ _ _ _ _. ⊤ };

    fn work<C: Client>(&self, alloc: Global, number: usize, client: &mut C) -> Result<u64, Fault> {
        if self.keeps && number == 0 {
            return self.keep(alloc, client);
        }
        let refused = make_and_change(alloc, client);
        self.ended.fetch_add(1, Ordering::SeqCst);
        refused
    }
}

impl<'r, 'm, R: Clock> Fill<'r, 'm, R> {
    fn keep<C: Client>(&self, alloc: Global, client: &mut C) -> Result<u64, Fault> {
        client.call(Call::Begin)?;
        client.call(Call::Insert(StoreId(0), bytes_of(alloc, 0)?))?;
        for _ in 0..MOST_NAPS {
            if self.ended.load(Ordering::SeqCst) >= u64::from(CLIENTS - 1) {
                client.call(Call::Commit)?;
                return Ok(0);
            }
            sleep(self.rt, Duration::from_millis(1));
        }
        Err(Fault::NotQuiet)
    }
}

// The record of a client is made, and then changed again and again. Beside one that keeps the log it may be full by then.
fn make_and_change(alloc: Global, client: &mut impl Client) -> Result<u64, Fault> {
    match made(alloc, client) {
        Ok(record) => turns_of(alloc, client, &record),
        Err(Fault::LogFull) => {
            let _ended = client.call(Call::Abort);
            Ok(1)
        }
        Err(fault) => Err(fault),
    }
}

fn turns_of(alloc: Global, client: &mut impl Client, record: &Rid) -> Result<u64, Fault> {
    let mut refused = 0u64;
    for round in 0..ROUNDS {
        match change(alloc, client, *record, round) {
            Ok(()) => {}
            Err(Fault::LogFull) => {
                refused = refused.saturating_add(1);
                // It may have been refused before it began.
                let _ended = client.call(Call::Abort);
            }
            Err(fault) => return Err(fault),
        }
    }
    Ok(refused)
}

// The record of a client is made.
fn made(alloc: Global, client: &mut impl Client) -> Result<Rid, Fault> {
    client.call(Call::Begin)?;
    if let Answer::Inserted(id) = client.call(Call::Insert(StoreId(0), bytes_of(alloc, 0)?))? {
        client.call(Call::Commit)?;
        return Ok(id);
    }
    Err(Fault::NoRecord)
}

// A transaction that changes it.
fn change(alloc: Global, client: &mut impl Client, record: Rid, round: u64) -> Result<(), Fault> {
    client.call(Call::Begin)?;
    client.call(Call::Update(record, bytes_of(alloc, round)?))?;
    client.call(Call::Commit)?;
    Ok(())
}

// How many transactions were refused.
fn refused_of_all<R: Threads + Wait + Sync + Send + Copy + Clock>(
    rt: R,
    alloc: Global,
    keeps: bool,
) -> Result<u64, Fault> {
    let (log, volume) = devices(alloc, LOG_BYTES)?;
    let world = manager(alloc, log, volume)?;
    let ended = AtomicU64::new(0);
    let jobs = [Fill {
        rt: &rt,
        keeps,
        ended: &ended,
    }];
    let (left, served) = serve(rt, alloc, world, CLIENTS, &jobs);
    let _devices = left.into_devices();
    let mut refused = 0u64;
    for of_clients in served? {
        for more in of_clients {
            refused = refused.saturating_add(more);
        }
    }
    Ok(refused)
}

#[test]
fn no_begin_is_refused_while_nobody_keeps_the_log(rt: HostRuntime) -> Result<(), Fail> {
    match refused_of_all(rt, rt.alloc(), false) {
        Ok(0) => Ok(()),
        Ok(refused) => Err(Fail::new(format_args!("{refused} transactions were refused"))),
        Err(fault) => Err(Fail::new(format_args!("{fault}"))),
    }
}

#[test]
fn begins_are_answered_beside_one_that_keeps_the_log(rt: HostRuntime) -> Result<(), Fail> {
    match refused_of_all(rt, rt.alloc(), true) {
        Ok(refused) if refused > 0 => Ok(()),
        Ok(_) => Err(Fail::new(format_args!("nobody was refused, though the log was kept"))),
        Err(fault) => Err(Fail::new(format_args!("{fault}"))),
    }
}
