//! A work over a manager: one client makes the records, and then each does its rounds.
use crate::latencies::Latencies;
use crate::rounds::{Rounds, Span};
use crate::works::{Fill, Plan, Work};
use bench_parts::host::Host;
use shore_disk::FileDisk;
use shore_shared::{Left, serve};
use shore_types::{Fault, Rid};
use shore_world::World;
use std::sync::Wait;
use std::thread::Threads;
use std::time::Clock;

/// How many rounds were done, how many of them were refused, in how many nanoseconds, and what those that were timed alone took.
#[derive(Drop)]
pub struct Took {
    pub done: u64,
    pub refused: u64,
    pub nanos: u64,
    pub latencies: Latencies,
}

/// What a plan takes.
pub fn run<R: Threads + Wait + Clock + Sync + Send + Copy>(
    threads: R,
    host: Host<'_>,
    world: World<FileDisk, FileDisk>,
    plan: Plan,
) -> Result<Took, Fault> {
    let (left, filled) = serve(threads, host.alloc(), world, 1, &[Fill { plan }]);
    match (left, filled) {
        (Left::World(world), Ok(filled)) => go_on(threads, host, world, plan, filled),
        (Left::Devices(log, volume, fault), Ok(_)) => {
            let _files = (log, volume);
            Err(fault)
        }
        (left, Err(fault)) => {
            let _files = left.into_devices();
            Err(fault)
        }
    }
}

// .. behind its records.
fn go_on<R: Threads + Wait + Clock + Sync + Send + Copy>(
    threads: R,
    host: Host<'_>,
    world: World<FileDisk, FileDisk>,
    plan: Plan,
    filled: Vec<Vec<Vec<Rid>>>,
) -> Result<Took, Fault> {
    let records = match records_of(filled) {
        Ok(records) => records,
        Err(fault) => {
            let _files = world.into_devices();
            return Err(fault);
        }
    };
    let rounds = [Rounds {
        plan,
        records,
        host,
    }];
    let (left, served) = serve(threads, host.alloc(), world, clients_of(plan), &rounds);
    let _files = left.into_devices();
    Ok(whole_of(served?))
}

// What the one client of the one job made.
fn records_of(filled: Vec<Vec<Vec<Rid>>>) -> Result<Vec<Rid>, Fault> {
    for made in filled {
        for records in made {
            return Ok(records);
        }
    }
    Err(Fault::NoRecord)
}

fn clients_of(plan: Plan) -> u32 {
    match plan.work {
        Work::Idle | Work::Lock | Work::Commit => 1,
        Work::Pages
        | Work::Page
        | Work::Record
        | Work::Think
        | Work::Latency
        | Work::Gets
        | Work::Short
        | Work::Middle
        | Work::Updates => { plan.threads as u32 }
    }
}

// From the first that began to the last that ended.
fn whole_of(served: Vec<Vec<Span>>) -> Took {
    let (mut done, mut refused, mut began, mut ended) = (0u64, 0u64, u64::MAX, 0u64);
    let mut latencies = Latencies::new();
    for spans in served {
        for span in spans {
            done = done.saturating_add(span.done);
            refused = refused.saturating_add(span.refused);
            began = began.min(span.began);
            ended = ended.max(span.ended);
            latencies.join(&span.latencies);
        }
    }
    Took {
        done,
        refused,
        nanos: ended.saturating_sub(began),
        latencies,
    }
}
