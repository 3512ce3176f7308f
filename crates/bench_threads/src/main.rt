//! How many transactions threads make durable in a second, over files. `bench_threads WORK THREADS ROUNDS DIR`: see bench/threads.
#![tactic(auto)]

mod latencies;
mod plain;
mod rounds;
mod serving;
mod works;

use anyhow::{Error, Result};
use bench_parts::host::Host;
use serving::{Took, run};
use shore_disk::{FilePlaces, open_files};
use shore_types::{Geometry, Sequence, Version};
use shore_world::{World, format, volume_bytes};
use std::env;
use std::sync::Wait;
use std::thread::Threads;
use std::time::Clock;
use works::{Plan, Work, named};

// 64 stores of 16 pages: a store for each of the first threads.

const STORES: usize = 64;

const FRAMES: usize = 256;

// The length of the log.
fn log_bytes(work: Work) -> u64 {
    match work {
        Work::Short => 1 << 20,
        Work::Middle => 1 << 22,
        Work::Pages
        | Work::Page
        | Work::Record
        | Work::Think
        | Work::Latency
        | Work::Gets
        | Work::Idle
        | Work::Lock
        | Work::Commit
        | Work::Updates => 1 << 28,
    }
}

fn make(rt: &HostRuntime, log: &str, volume: &str, log_bytes: u64) -> Result<()> {
    let stores = Vec::from_elem(rt.alloc(), 16u32, STORES)?;
    let geometry = Geometry {
        version: Version::One,
        pair: 1,
        max_locks: 4_096,
        stores: Sequence::from_vec(stores),
    };
    let places = FilePlaces::look(rt, log, volume)?;
    let (mut log, mut volume) = places.cleared(rt, log_bytes, volume_bytes(&geometry))?;
    format(rt.alloc(), &mut log, &mut volume, &geometry)?;
    Ok(())
}

fn plan_of(work: &str, threads: &str, rounds: &str) -> Option<Plan> {
    Some(Plan {
        work: named(work)?,
        threads: threads.parse::<u16>().ok()?,
        rounds: rounds.parse::<u32>().ok()?,
    })
}

fn measured<R: Threads + Wait + Clock + Sync + Send + Copy>(
    threads: R,
    rt: &HostRuntime,
    plan: Plan,
    folder: &str,
) -> Result<Took> {
    let host = Host::new(rt)?;
    let (log, volume) = (
        format!(in rt.alloc(); "{folder}/threads.log")?,
        format!(in rt.alloc(); "{folder}/threads.volume")?,
    );
    make(rt, log.as_str(), volume.as_str(), log_bytes(plan.work))?;
    let (log, volume) = open_files(rt, log.as_str(), volume.as_str())?;
    match World::open(rt.alloc(), log, volume, FRAMES) {
        Ok(world) => Ok(run(threads, host, world, plan)?),
        Err((fault, _, _)) => Err(Error::from(fault)),
    }
}

fn main(rt: HostRuntime) -> Result<()> {
    let words: Vec<String> = env::args(&rt)?.collect(rt.alloc())?;
    let [_, work, threads, rounds, folder] = words.as_slice() else {
        println!(&rt; "bench_threads WORK THREADS ROUNDS DIR: bench/threads names the works")?;
        return Ok(());
    };
    let (name, threads) = (work.as_str(), threads.as_str());
    let took = match plain::syncs_of(name) {
        Some(syncs) => plain::measured(
            &rt,
            syncs,
            rounds.as_str().parse::<u64>()?,
            folder.as_str(),
        )?,
        None => match plan_of(name, threads, rounds.as_str()) {
            Some(plan) => measured(rt, &rt, plan, folder.as_str())?,
            None => {
                println!(&rt; "{name} is no work: bench/threads names them")?;
                return Ok(());
            }
        },
    };
    println!(&rt;
        "{name}.t{threads} {} a_second",
        took.done.saturating_mul(1_000_000_000) / took.nanos.max(1)
    )?;
    println!(&rt;
        "{name}_time.t{threads} {} nanoseconds",
        took.nanos / took.done.max(1)
    )?;
    if let Some(micros) = took.latencies.percentile(99) {
        println!(&rt; "{name}_p99.t{threads} {micros} microseconds")?;
    }
    if took.refused > 0 {
        println!(&rt; "{name}_refused.t{threads} {} transactions", took.refused)?;
    }
    Ok(())
}
