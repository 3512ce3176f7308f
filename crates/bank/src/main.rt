//! The manager as a library with sessions in threads: eight clients move money between accounts, a transfer that is a victim of a deadlock is made again, and the sum stays.
#![tactic(auto)]

mod transfers;

use anyhow::{Error, Result};
use shore_disk::{FileDisk, FilePlaces};
use shore_shared::serve;
use shore_types::{Geometry, Sequence, Version};
use shore_world::{World, format, volume_bytes};
use transfers::{CLIENTS, Task};

// Makes both files anew, as each run counts for itself; who keeps records looks first whether the files hold any (`FilePlaces::filled`). A log of half a megabyte, which some six checkpoints go into meanwhile, and a volume of one store with 16 pages.
fn make(rt: &HostRuntime) -> Result<(FileDisk, FileDisk)> {
    let stores = Sequence::from_vec(Vec::from_slice(rt.alloc(), &[16u32])?);
    let geometry = Geometry {
        version: Version::One,
        pair: 1,
        max_locks: 1_024,
        stores,
    };
    let places = FilePlaces::look(rt, "bank.log", "bank.volume")?;
    let (mut log, mut volume) = places.cleared(rt, 1 << 19, volume_bytes(&geometry))?;
    format(rt.alloc(), &mut log, &mut volume, &geometry)?;
    Ok((log, volume))
}

fn main(rt: HostRuntime) -> Result<()> {
    let (log, volume) = make(&rt)?;
    let tasks = [Task::Open, Task::Transfer, Task::Look];
    let (left, served) = match World::open(rt.alloc(), log, volume, 64) {
        // The log writer, the flusher and the checkpointer turn meanwhile, and are stopped in the end.
        Ok(manager) => serve(rt, rt.alloc(), manager, CLIENTS as u32, &tasks),
        Err((fault, _, _)) => return Err(Error::from(fault)),
    };
    let _files = left.into_devices();
    let done = served?;
    for (task, amounts) in tasks.iter().zip(done.iter()) {
        let sum = amounts
            .iter()
            .fold(0u64, |sum, amount| sum.wrapping_add(*amount));
        match task {
            Task::Open => println!(&rt; "opened with {sum}")?,
            // How many there are differs from run to run, so they are no part of the output.
            Task::Transfer => eprintln!(&rt; "victims that were made again {sum}")?,
            Task::Look => println!(&rt; "the sum is {sum}")?,
        }
    }
    Ok(())
}
