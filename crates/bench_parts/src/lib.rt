//! What is measured below a manager: pages, batches of them, a pool of them, a device in memory, the lock table and the search for cycles.
#![tactic(auto)]

pub mod counted;
mod cycles;
mod devices;
pub mod figures;
pub mod files;
pub mod host;
pub mod layout;
mod locks;
mod pages;
mod pools;
pub mod records;
mod volumes;

use host::Host;
use locks::Places;
use std::alloc::AllocError;
use std::io;

/// What is measured of a part.
#[derive(Clone, Copy)]
pub enum Work {
    Page(pages::Work),
    Volume(volumes::Work),
    Pool(pools::Work),
    Device(devices::Work),
    Locks(locks::Work),
    Cycles(cycles::Work),
}

/// All works of the parts, by their names.
pub const WORKS: [(&str, Work); 34] = [
    ("new", Work::Page(pages::Work::New)),
    ("fill", Work::Page(pages::Work::Fill)),
    ("get", Work::Page(pages::Work::Get)),
    ("write", Work::Page(pages::Work::Write)),
    ("read", Work::Page(pages::Work::Read)),
    ("compact", Work::Page(pages::Work::Compact)),
    ("copy", Work::Volume(volumes::Work::Copy)),
    ("batch", Work::Volume(volumes::Work::Batch)),
    ("load", Work::Volume(volumes::Work::Load)),
    ("hit", Work::Pool(pools::Work::Hit)),
    ("miss", Work::Pool(pools::Work::Miss)),
    ("steal", Work::Pool(pools::Work::Steal)),
    ("force", Work::Device(devices::Work::Force)),
    ("crash", Work::Device(devices::Work::Crash)),
    (
        "locks",
        Work::Locks(locks::Work::Records(Places::Slots, 1_000, 4_096)),
    ),
    (
        "pages",
        Work::Locks(locks::Work::Records(Places::Pages, 1_000, 4_096)),
    ),
    (
        "slots",
        Work::Locks(locks::Work::Records(Places::Pages, 2_000, 2_053)),
    ),
    (
        "remainders",
        Work::Locks(locks::Work::Records(Places::Remainder, 4_000, 4_096)),
    ),
    (
        "bucket",
        Work::Locks(locks::Work::Records(Places::Bucket, 4_000, 4_096)),
    ),
    ("waiters", Work::Locks(locks::Work::Waiters)),
    ("conversions", Work::Locks(locks::Work::Conversions(254))),
    ("conversions_64", Work::Locks(locks::Work::Conversions(64))),
    (
        "conversions_128",
        Work::Locks(locks::Work::Conversions(128)),
    ),
    ("record", Work::Locks(locks::Work::Path(0))),
    ("record_16", Work::Locks(locks::Work::Path(16))),
    ("record_64", Work::Locks(locks::Work::Path(64))),
    ("record_255", Work::Locks(locks::Work::Path(255))),
    ("again", Work::Locks(locks::Work::Again(0))),
    ("again_16", Work::Locks(locks::Work::Again(16))),
    ("again_64", Work::Locks(locks::Work::Again(64))),
    ("again_255", Work::Locks(locks::Work::Again(255))),
    ("victims", Work::Cycles(cycles::Work::Victims)),
    ("search_queue", Work::Cycles(cycles::Work::Queue)),
    ("search_waiters", Work::Cycles(cycles::Work::Waiters)),
];

/// What has a name in a table.
pub fn named<W: Copy>(table: &[(&str, W)], name: &str) -> Option<W> {
    for (known, work) in table {
        if *known == name {
            return Some(*work);
        }
    }
    None
}

/// The nanoseconds of a round, and how much was done or a sum of it all.
pub fn measured(host: &Host, work: Work, rounds: u64) -> Result<(u64, u64), AllocError> {
    match work {
        Work::Page(work) => pages::measured(host, work, rounds),
        Work::Volume(work) => volumes::measured(host, work, rounds),
        Work::Pool(work) => pools::measured(host, work, rounds),
        Work::Device(work) => devices::measured(host, work, rounds),
        Work::Locks(work) => locks::measured(host, work, rounds),
        Work::Cycles(work) => cycles::measured(host, work, rounds),
    }
}

/// Prints how many records a page takes, and what a round of each kind of work with the lock table counts.
pub fn count(rt: &HostRuntime) -> io::Result<()> {
    let records = pages::filled(rt.alloc())?.slot_count();
    let [locks, pages, chosen, waiters, conversions, path] = locks::counted(rt.alloc())?;
    println!(rt; "{records} records")?;
    println!(rt;
        "{locks} locks, {pages} pages, {chosen} of one head, {waiters} requests, {conversions} that convert, {path} on a path"
    )
}
