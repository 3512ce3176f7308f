//! How long the lock table takes for locks that nobody stands in the way of, alone and beside others, and for a queue of waiters.
ghost use Rattle.std.specs.Prelude.{◌≡◌, false};
ghost use Rattle.shore_locks.specs.Tables.{is_waiting};

use crate::host::Host;
use crate::layout::{STORE, page_id, record_id};
use shore_locks::laws::waits_only_if_told_to;
use shore_locks::{LetThrough, LockTable, Requested};
use shore_types::{Granule, Mode, TxnId};
use std::alloc::{AllocError, Global};

const NODES: usize = 4096;

const WAITERS: u64 = 64;

const FIRST: TxnId = TxnId(1);

/// Which records a transaction takes, one after another.
#[derive(Clone, Copy)]
pub enum Places {
    /// The slots of one page.
    Slots,
    /// Slot 0 of each page.
    Pages,
    /// Those whose numbers have one remainder by the table's limit.
    Remainder,
    /// Those that were chosen so that all have one head: the worst for a hash that is known.
    Bucket,
}

/// What a round does with a table in which others stand.
#[derive(Clone, Copy)]
pub enum Work {
    /// One transaction takes so many records, in a table for so many nodes, and releases them.
    Records(Places, u32, usize),
    /// 64 transactions wait for a record that another holds; it releases, and so do they.
    Waiters,
    /// So many transactions hold IS and wait for IX, for one that holds SH; it releases, and all are granted: the worst release of a queue.
    Conversions(u64),
    /// One transaction takes a record with the intentions above it, and releases them, beside so many others with intentions on the volume and on a store.
    Path(u64),
    /// The same beside so many others, but it asks for all that again, and has it already.
    Again(u64),
}

fn record_in(page: u32, slot: u16) -> Granule {
    Granule::Record(record_id(page, slot))
}

/// A record of the first page.
pub fn record(slot: u16) -> Granule {
    record_in(0, slot)
}

/// A record of a page whose number, as the table numbers records, is a multiple of 4,096.
fn remainder(page: u32) -> Granule {
    let number = (u64::from(page) + 65) * 2053;
    let slot = (4096 - number % 4096) % 4096;
    record_in(page, u16::try_from(slot).unwrap_or(0))
}

/// A record of the same head as all others of these: their numbers are apart by a number of Fibonacci, which the hash brings close together.
fn in_bucket(index: u32) -> Granule {
    let number = 200_000 + u64::from(index) * 102_334_155;
    let page = (number / 2053).saturating_sub(65);
    let slot = number % 2053;
    record_in(
        u32::try_from(page).unwrap_or(0),
        u16::try_from(slot).unwrap_or(0),
    )
}

fn take(table: &mut LockTable, granule: Granule, mode: Mode)
    requires { is_waiting 1 table.old.requests ≡ false }
    ensures { is_waiting 1 table.new.requests ≡ false }
{
    waits_only_if_told_to();
    table.nodes();
    table.try_request(FIRST, granule, mode);
}

fn take_records(table: &mut LockTable, places: Places, count: u32)
    requires { is_waiting 1 table.old.requests ≡ false }
{
    // A loop for each: a choice in the loop would be measured with each lock.
    match places {
        Places::Slots => {
            for slot in 0..count {
                take(table, record((slot & 0xffff) as u16), Mode::EX);
            }
        }
        Places::Pages => {
            for page in 0..count {
                take(table, record_in(page, 0), Mode::EX);
            }
        }
        Places::Remainder => {
            for number in 0..count {
                take(table, remainder(number), Mode::EX);
            }
        }
        Places::Bucket => {
            for index in 0..count {
                take(table, in_bucket(index), Mode::EX);
            }
        }
    }
}

fn take_path(table: &mut LockTable)
    requires { is_waiting 1 table.old.requests ≡ false }
{
    take(table, Granule::Volume, Mode::IX);
    take(table, Granule::Store(STORE), Mode::IX);
    take(table, Granule::Page(page_id(0)), Mode::IX);
    take(table, record(1), Mode::EX);
}

/// Others take their intentions.
fn place_others(table: &mut LockTable, others: u64) {
    for txn in 2..others.saturating_add(2) {
        ask(table, txn, Granule::Volume, Mode::IX);
        ask(table, txn, Granule::Store(STORE), Mode::IX);
    }
}

/// All others up to a last one ask for the first page.
fn ask_to(table: &mut LockTable, last: u64, mode: Mode) {
    for txn in 2..last.saturating_add(1) {
        ask(table, txn, Granule::Page(page_id(0)), mode);
    }
}

/// Whether a transaction could ask, since it does not wait, and there was a node for it.
pub fn ask(table: &mut LockTable, txn: u64, granule: Granule, mode: Mode) -> bool {
    if table.is_waiting(TxnId(txn)) {
        return false;
    }
    match table.request(TxnId(txn), granule, mode) {
        Requested::Granted | Requested::Waiting => true,
        Requested::Full => false,
    }
}

/// How many nodes stand, before all up to a last one release theirs.
fn release_to(table: &mut LockTable, last: u64) -> usize {
    let nodes = table.nodes();
    for txn in 1..last.saturating_add(1) {
        table.release_all(TxnId(txn), &mut LetThrough::nobody());
    }
    nodes
}

/// One round. It answers how many nodes stood, or were released.
fn round(table: &mut LockTable, work: Work) -> usize {
    match work {
        Work::Waiters => {
            ask(table, 1, record(0), Mode::EX);
            for txn in 2..WAITERS + 2 {
                ask(table, txn, record(0), Mode::SH);
            }
            release_to(table, WAITERS + 1)
        }
        Work::Conversions(count) => {
            let last = count.saturating_add(1);
            ask(table, 1, Granule::Page(page_id(0)), Mode::SH);
            ask_to(table, last, Mode::IS);
            ask_to(table, last, Mode::IX);
            release_to(table, last)
        }
        _ => round_of_first(table, work),
    }
}

/// One round of the first transaction alone.
fn round_of_first(table: &mut LockTable, work: Work) -> usize {
    if table.is_waiting(FIRST) {
        return 0;
    }
    match work {
        Work::Records(places, count, _) => take_records(table, places, count),
        _ => take_path(table),
    }
    match work {
        Work::Again(_) => table.nodes(),
        _ => table.release_all(FIRST, &mut LetThrough::nobody()),
    }
}

/// The nanoseconds of a round, and the sum of them all.
pub fn measured(host: &Host, work: Work, rounds: u64) -> Result<(u64, u64), AllocError> {
    let (limit, others) = match work {
        Work::Records(_, _, limit) => (limit, 0),
        Work::Path(others) | Work::Again(others) => (NODES, others),
        Work::Waiters | Work::Conversions(_) => (NODES, 0),
    };
    let mut table = LockTable::new(host.alloc(), limit)?;
    place_others(&mut table, others);
    let start = host.nanos();
    let mut sum = 0usize;
    for _ in 0..rounds {
        sum = sum.wrapping_add(round(&mut table, work));
    }
    Ok((host.nanos_of_a_round(start, rounds), sum as u64))
}

/// What one round of each kind of work counts, all in one table.
pub fn counted(alloc: Global) -> Result<[usize; 6], AllocError> {
    let mut table = LockTable::new(alloc, NODES)?;
    let locks = round(&mut table, Work::Records(Places::Slots, 1_000, NODES));
    let pages = round(&mut table, Work::Records(Places::Pages, 1_000, NODES));
    let chosen = round(&mut table, Work::Records(Places::Bucket, 4_000, NODES));
    let waiters = round(&mut table, Work::Waiters);
    let conversions = round(&mut table, Work::Conversions(254));
    place_others(&mut table, 255);
    let path = round(&mut table, Work::Path(255));
    Ok([locks, pages, chosen, waiters, conversions, path])
}
