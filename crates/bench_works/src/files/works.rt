//! The works, each over a pair of files of a folder.
use super::plan::{Plan, Work};
use super::rings;
use super::store::{change_record, new_manager, open_manager};
use crate::manager::{Manager, SESSION};
use bench_parts::figures::{Figure, tell};
use bench_parts::files::{file_of, write_and_sync};
use bench_parts::layout::STORE;
use bench_parts::records::numbered;
use shore_disk::FileDisk;
use shore_model::Call;
use shore_types::{Fault, Granule, Mode, Pairs};

pub(super) const MILLION: u64 = 1_000_000;

// A force carries so many lazy commits.
const LAZY_COMMITS: u64 = 100;

/// Does a work, and prints its figures. A record that is missing or has other bytes is the fault `NoRecord`.
pub fn perform(plan: &Plan) -> Result<(), Fault> {
    match plan.work {
        Work::Recover | Work::Verify | Work::Undo => on_opened(plan),
        Work::RingOpen | Work::FullOpen => on_opened(plan),
        _ => on_new(plan),
    }
}

fn on_new(plan: &Plan) -> Result<(), Fault> {
    let mut manager = new_manager(plan)?;
    let times = work_on(plan, &mut manager);
    let (log, volume) = manager.into_devices();
    let written = (log.written(), volume.written());
    match (times, plan.work) {
        (Ok(times), Work::Insert) => tell_inserts(plan, times, written),
        (Ok((nanos, _)), Work::Lazy) => tell_lazy(plan, nanos, written),
        (Ok(_), _) => Ok(()),
        (Err(fault), _) => Err(fault),
    }
}

fn work_on(plan: &Plan, manager: &mut Manager) -> Result<(u64, u64), Fault> {
    let records = match plan.work {
        Work::Insert | Work::Scan | Work::ScanParts => plan.count,
        _ => plan.updated_records(),
    };
    let times = timed_fill(plan, manager, records)?;
    match plan.work {
        Work::Insert => {}
        Work::Lazy => return Ok((timed_lazy(plan, manager)?, 0)),
        Work::Scan => scanned(plan, manager)?,
        Work::ScanParts => scanned_in_parts(plan, manager)?,
        _ => updates(plan, manager)?,
    }
    Ok(times)
}

// So many records, in one transaction that is committed. Record I tells the number I. The nanoseconds of the inserts, and with their commit.
fn timed_fill(plan: &Plan, manager: &mut Manager, records: u64) -> Result<(u64, u64), Fault> {
    let start = plan.host.nanos();
    manager.begin_alone()?;
    for number in 0..records {
        change_record(plan, manager, &None, number)?;
    }
    let inserted = plan.host.nanos_since(start);
    manager.commit(SESSION)?;
    Ok((inserted, plan.host.nanos_since(start)))
}

fn tell_inserts(plan: &Plan, times: (u64, u64), written: (u64, u64)) -> Result<(), Fault> {
    let bytes = plan.count.saturating_mul(plan.size as u64);
    let (time, share) = ("microseconds_per_record", "bytes_per_byte");
    let figures = [
        Figure::ratio("insert", times.0, plan.count, 1, time),
        Figure::ratio("insert_and_commit", times.1, plan.count, 1, time),
        Figure::ratio("insert_log", written.0, bytes, 1_000, share),
        Figure::ratio("insert_volume", written.1, bytes, 1_000, share),
    ];
    tell(&plan.host, plan.size, &figures)
}

// The nanoseconds of the transactions, with the forces behind them.
fn timed_lazy(plan: &Plan, manager: &mut Manager) -> Result<u64, Fault> {
    let pairs = manager.records()?;
    let start = plan.host.nanos();
    for number in 0..plan.count {
        manager.ask(SESSION, Call::Begin)?;
        update_one(plan, manager, &pairs, number)?;
        manager.ask(SESSION, Call::Commit)?;
        if number % LAZY_COMMITS == LAZY_COMMITS - 1 {
            manager.force()?;
        }
    }
    manager.force()?;
    Ok(plan.host.nanos_since(start))
}

// The bytes are those of the records before, too: they are few beside so many transactions.
fn tell_lazy(plan: &Plan, nanos: u64, written: (u64, u64)) -> Result<(), Fault> {
    let second = 1_000 * 1_000 * MILLION;
    let figures = [
        Figure::ratio("lazy", plan.count, nanos, second, "transactions_per_second"),
        Figure::ratio(
            "lazy_log",
            written.0,
            plan.count,
            1_000,
            "bytes_per_transaction",
        ),
        Figure::ratio(
            "lazy_volume",
            written.1,
            plan.count,
            1_000,
            "bytes_per_transaction",
        ),
    ];
    tell(&plan.host, plan.size, &figures)
}

// A scan, and how many records it shows.
fn scanned(plan: &Plan, manager: &mut Manager) -> Result<(), Fault> {
    manager.ask(SESSION, Call::Begin)?;
    let start = plan.host.nanos();
    let count = manager.scan()?.len() as u64;
    let nanos = plan.host.nanos_since(start);
    let figures = [
        Figure::ratio("scan", nanos, count, 1, "microseconds_per_record"),
        Figure::whole("scan_shown", count, "records"),
    ];
    tell(&plan.host, plan.size, &figures)
}

// Parts of a scan have so many records, and a page's more at most.
const PART_RECORDS: usize = 1_000;

// A scan in parts, under the lock that a scan takes.
fn scanned_in_parts(plan: &Plan, manager: &mut Manager) -> Result<(), Fault> {
    manager.ask(SESSION, Call::Begin)?;
    manager.ask(SESSION, Call::Lock(Granule::Store(STORE), Mode::SH))?;
    let start = plan.host.nanos();
    let count = manager.scan_in_parts(PART_RECORDS)?;
    let nanos = plan.host.nanos_since(start);
    if count != plan.count {
        return Err(Fault::NoRecord);
    }
    let time = "microseconds_per_record";
    let figures = [Figure::ratio("scan_parts", nanos, count, 1, time)];
    tell(&plan.host, plan.size, &figures)
}

fn updates(plan: &Plan, manager: &mut Manager) -> Result<(), Fault> {
    let pairs = manager.records()?;
    match plan.work {
        Work::Durable => durable(plan, manager, &pairs),
        Work::Crash => crash(plan, manager, &pairs),
        Work::Ring | Work::Whole => rings::updated(plan, manager, &pairs),
        Work::Full => rings::filled(plan, manager, &pairs),
        _ => lose(plan, manager, &pairs),
    }
}

// Update N is of record N of those in place, counted round and round.
pub(super) fn update_one(
    plan: &Plan,
    manager: &mut Manager,
    pairs: &Pairs,
    nth: u64,
) -> Result<bool, Fault> {
    let place = nth % (pairs.len() as u64).max(1);
    match pairs.get(place as usize) {
        Some((id, _)) => change_record(plan, manager, &Some(id), told(plan, nth)),
        None => Err(Fault::NoRecord),
    }
}

// What the record tells behind update N: a number that no insert has.
fn told(plan: &Plan, number: u64) -> u64 {
    number.saturating_add(plan.updated_records())
}

fn commit_one(plan: &Plan, manager: &mut Manager, pairs: &Pairs, nth: u64) -> Result<(), Fault> {
    manager.ask(SESSION, Call::Begin)?;
    update_one(plan, manager, pairs, nth)?;
    manager.commit(SESSION)
}

// Beside them a file with room for every plain write, one behind another, as a log has it.
fn durable(plan: &Plan, manager: &mut Manager, pairs: &Pairs) -> Result<(), Fault> {
    let text = numbered(plan.host.alloc(), 0, plan.size)?;
    let room = plan.count.saturating_mul(plan.size as u64);
    let mut raw = file_of(&plan.host, plan.folder, "raw", Some(room))?;
    let (commits, syncs) = timed_commits(plan, manager, pairs, &mut raw, text.as_slice())?;
    let second = 1_000 * 1_000 * MILLION;
    let figures = [
        Figure::ratio("durable", plan.count, commits, second, "commits_per_second"),
        Figure::ratio("durable_raw", plan.count, syncs, second, "syncs_per_second"),
        Figure::ratio("durable_ratio", syncs, commits, 1_000, "commits_per_sync"),
    ];
    tell(&plan.host, plan.size, &figures)
}

// The nanoseconds of the commits, and of the plain writes and syncs.
fn timed_commits(
    plan: &Plan,
    manager: &mut Manager,
    pairs: &Pairs,
    raw: &mut FileDisk,
    text: &[u8],
) -> Result<(u64, u64), Fault> {
    let (mut commits, mut syncs) = (0u64, 0u64);
    for number in 0..plan.count {
        let start = plan.host.nanos();
        commit_one(plan, manager, pairs, number)?;
        commits = commits.saturating_add(plan.host.nanos_since(start));
        let start = plan.host.nanos();
        write_and_sync(raw, number, text)?;
        syncs = syncs.saturating_add(plan.host.nanos_since(start));
    }
    Ok((commits, syncs))
}

// So many updates that are acknowledged, and one more that is not committed.
fn crash(plan: &Plan, manager: &mut Manager, pairs: &Pairs) -> Result<(), Fault> {
    for number in 0..plan.count {
        commit_one(plan, manager, pairs, number)?;
    }
    manager.ask(SESSION, Call::Begin)?;
    update_one(plan, manager, pairs, plan.count)?;
    let figures = [Figure::whole("crash", plan.count, "acknowledged_updates")];
    tell(&plan.host, plan.size, &figures)
}

// So many updates in one transaction, forced and written back.
fn lose(plan: &Plan, manager: &mut Manager, pairs: &Pairs) -> Result<(), Fault> {
    manager.begin_alone()?;
    for number in 0..plan.count {
        update_one(plan, manager, pairs, number)?;
    }
    manager.force()?;
    manager.write_back()?;
    let figures = [Figure::whole("lose", plan.count, "undecided_updates")];
    tell(&plan.host, plan.size, &figures)
}

// A work on the manager that an open makes of what a crash left.
fn on_opened(plan: &Plan) -> Result<(), Fault> {
    let start = plan.host.nanos();
    let mut manager = open_manager(plan)?;
    let nanos = plan.host.nanos_since(start);
    let told = tell_opened(plan, &mut manager, nanos);
    manager.into_devices();
    told
}

fn tell_opened(plan: &Plan, manager: &mut Manager, nanos: u64) -> Result<(), Fault> {
    match plan.work {
        Work::Recover => recover(plan, manager, nanos),
        Work::RingOpen | Work::FullOpen => rings::opened(plan, manager, nanos),
        Work::Verify => {
            let count = shown(plan, manager)?;
            let figures = [Figure::whole("verify", count, "records_as_acknowledged")];
            tell(&plan.host, plan.size, &figures)
        }
        _ => undo(plan, manager, nanos),
    }
}

fn recover(plan: &Plan, manager: &Manager, nanos: u64) -> Result<(), Fault> {
    let (report, time) = (manager.world.report(), "microseconds_per_log_record");
    let figures = [
        Figure::ratio("recover", nanos, report.read, 1, time),
        Figure::whole("recover_log", report.read, "records"),
        Figure::whole("recover_redone", report.redone, "records"),
        Figure::ratio("recover_open", nanos, MILLION, 1_000, "milliseconds"),
    ];
    tell(&plan.host, plan.size, &figures)
}

fn undo(plan: &Plan, manager: &mut Manager, nanos: u64) -> Result<(), Fault> {
    let report = manager.world.report();
    let logged = manager.logged().saturating_sub(report.read);
    let count = shown(plan, manager)?;
    let figures = [
        Figure::ratio("undo", nanos, plan.count, 1, "microseconds_per_update"),
        Figure::whole("undo_log", report.read, "records"),
        Figure::whole("undo_redone", report.redone, "records"),
        Figure::whole("undo_logged", logged, "records"),
        Figure::ratio("undo_open", nanos, MILLION, 1_000, "milliseconds"),
        Figure::whole("undo_shown", count, "records_as_before"),
    ];
    tell(&plan.host, plan.size, &figures)
}

// How many records there are. Each tells what it has to, and none is missing.
fn shown(plan: &Plan, manager: &mut Manager) -> Result<u64, Fault> {
    let pairs = manager.records()?;
    let count = plan.updated_records();
    if pairs.len() as u64 != count {
        return Err(Fault::NoRecord);
    }
    for index in 0..pairs.len() {
        let wanted = numbered(plan.host.alloc(), number_in(plan, index as u64), plan.size)?;
        match pairs.get(index) {
            Some((_, found)) if found == wanted.as_slice() => {}
            _ => return Err(Fault::NoRecord),
        }
    }
    Ok(count)
}

// What a record tells: the last update of it that was acknowledged, or else what its insert did.
fn number_in(plan: &Plan, record: u64) -> u64 {
    match plan.work {
        Work::Verify => {
            let records = plan.updated_records().max(1);
            let rounds = plan.count.saturating_sub(record.saturating_add(1)) / records;
            told(plan, record.saturating_add(rounds.saturating_mul(records)))
        }
        _ => record,
    }
}
