//! A manager over files whose clients meet deadlocks, roll back and go back to savepoints, for a check that kills it: `turmoil make DIR [LOG_BYTES]`, `turmoil run DIR CLIENTS` and `turmoil kinds DIR
//! CLIENTS`, which end by a kill alone, and `turmoil look DIR`. See tools/check-threads.
#![tactic(auto)]

mod clients;
mod deciding;
mod filling;
mod kinds;

use anyhow::{Error, Result};
use clients::{MOST_CLIENTS, Turmoil, number_of};
use deciding::Settle;
use filling::Fill;
use kinds::Kinds;
use shore_disk::{FileDisk, FilePlaces, open_files};
use shore_shared::{Job, Left, serve};
use shore_types::{Fault, Geometry, Sequence, StoreId, Version};
use shore_world::{World, format, volume_bytes};
use std::env;
use std::sync::Wait;
use std::thread::Threads;
use std::time::Clock;

// If no length is given.
const LOG_BYTES: u64 = 1 << 20;

// Fewer frames than pages, so that some are written back to make room for others.
const FRAMES: usize = 8;

type Manager = World<FileDisk, FileDisk>;

fn open(rt: &HostRuntime, folder: &str) -> Result<Manager> {
    let (log, volume) = (
        format!(in rt.alloc(); "{folder}/log")?,
        format!(in rt.alloc(); "{folder}/volume")?,
    );
    let (log, volume) = open_files(rt, log.as_str(), volume.as_str())?;
    match World::open(rt.alloc(), log, volume, FRAMES) {
        Ok(manager) => Ok(manager),
        Err((fault, _, _)) => Err(Error::from(fault)),
    }
}

// Both files, formatted.
fn format_files(rt: &HostRuntime, folder: &str, log_bytes: u64) -> Result<()> {
    let stores = Vec::from_elem(rt.alloc(), 1u32, 1 + MOST_CLIENTS)?;
    let geometry = Geometry {
        version: Version::One,
        pair: 1,
        max_locks: 4_096,
        stores: Sequence::from_vec(stores),
    };
    let (log, volume) = (
        format!(in rt.alloc(); "{folder}/log")?,
        format!(in rt.alloc(); "{folder}/volume")?,
    );
    let places = FilePlaces::look(rt, log.as_str(), volume.as_str())?;
    let (mut log, mut volume) = places.cleared(rt, log_bytes, volume_bytes(&geometry))?;
    format(rt.alloc(), &mut log, &mut volume, &geometry)?;
    Ok(())
}

fn make<R: Threads + Wait + Clock + Sync + Send + Copy>(
    threads: R,
    rt: &HostRuntime,
    folder: &str,
    log_bytes: u64,
) -> Result<()> {
    format_files(rt, folder, log_bytes)?;
    let (left, served) = serve(threads, rt.alloc(), open(rt, folder)?, 1, &[Fill]);
    let _files = left.into_devices();
    served?;
    Ok(())
}

// .. where nobody is in doubt any more: who was is decided as its client would have done.
fn open_settled<R: Threads + Wait + Clock + Sync + Send + Copy>(
    threads: R,
    rt: &HostRuntime,
    folder: &str,
) -> Result<Manager> {
    let (left, served) = serve(threads, rt.alloc(), open(rt, folder)?, 1, &[Settle]);
    let Left::World(manager) = left else {
        return Err(Error::from(Fault::Memory));
    };
    match served {
        Ok(_) => Ok(manager),
        Err(fault) => {
            let _files = manager.into_devices();
            Err(Error::from(fault))
        }
    }
}

fn run<R: Threads + Wait + Clock + Sync + Send + Copy, J: Job + Sync>(
    threads: R,
    rt: &HostRuntime,
    folder: &str,
    clients: u32,
    jobs: &[J],
) -> Result<()> {
    let manager = open_settled(threads, rt, folder)?;
    let told = println!(rt; "opened");
    let (left, served) = serve(threads, rt.alloc(), manager, clients, jobs);
    let _files = left.into_devices();
    told?;
    served?;
    Ok(())
}

// What each account has, and each counter of each client.
fn look<R: Threads + Wait + Clock + Sync + Send + Copy>(
    threads: R,
    rt: &HostRuntime,
    folder: &str,
) -> Result<()> {
    let mut manager = open_settled(threads, rt, folder)?;
    let shown = show(rt, &mut manager);
    let _files = manager.into_devices();
    shown
}

fn show(rt: &HostRuntime, manager: &mut Manager) -> Result<()> {
    for store in 0..1 + MOST_CLIENTS {
        let pairs = manager.dump(rt.alloc(), StoreId(store as u32))?;
        for nth in 0..pairs.len() {
            if let Some((_, bytes)) = pairs.get(nth) {
                let Some(number) = number_of(bytes) else {
                    return Err(Error::from(Fault::NoRecord));
                };
                if store == 0 {
                    println!(rt; "account {nth} {number}")?;
                } else {
                    println!(rt; "counter {} {nth} {number}", store - 1)?;
                }
            }
        }
    }
    Ok(())
}

fn turmoil<'r, 'f>(rt: &'r HostRuntime, folder: &'f str) -> Turmoil<'r, 'f> {
    Turmoil { rt, folder }
}

fn main(rt: HostRuntime) -> Result<()> {
    let words: Vec<String> = env::args(&rt)?.collect(rt.alloc())?;
    match words.as_slice() {
        [_, what, folder] if what.as_str() == "make" => make(rt, &rt, folder.as_str(), LOG_BYTES),
        [_, what, folder, bytes] if what.as_str() == "make" => {
            make(rt, &rt, folder.as_str(), bytes.as_str().parse::<u64>()?)
        }
        [_, what, folder] if what.as_str() == "look" => look(rt, &rt, folder.as_str()),
        [_, what, folder, clients] if what.as_str() == "run" => {
            let clients = clients.as_str().parse::<u32>()?;
            run(
                rt,
                &rt,
                folder.as_str(),
                clients,
                &[turmoil(&rt, folder.as_str())],
            )
        }
        [_, what, folder, clients] if what.as_str() == "kinds" => {
            let clients = clients.as_str().parse::<u32>()?;
            let of = turmoil(&rt, folder.as_str());
            run(rt, &rt, folder.as_str(), clients, &[Kinds { of }])
        }
        _ => {
            println!(&rt;
                "turmoil make DIR [LOG_BYTES]; turmoil run DIR CLIENTS; turmoil kinds DIR CLIENTS; turmoil look DIR"
            )?;
            Ok(())
        }
    }
}
