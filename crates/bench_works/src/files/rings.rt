//! Many updates through a short log whose front is cut off, beside the same through one that holds all; a log that is filled to its end; and the opens behind both.
use super::plan::{Plan, RING_LOG_BYTES, Work};
use super::works::{MILLION, update_one};
use crate::manager::{Manager, SESSION};
use bench_parts::figures::{Figure, tell};
use shore_model::Call;
use shore_types::{Fault, Pairs};

// A transaction has so many updates.
const UPDATES: u64 = 100;

// The bytes of a record of the log beside those of its two images.
const BYTES_OF_A_RECORD: u64 = 45;

/// Updates in transactions that are each answered once they are durable; with a flush and a checkpoint whenever half of the log is used, if it is a short one.
pub fn updated(plan: &Plan, manager: &mut Manager, pairs: &Pairs) -> Result<(), Fault> {
    let half = transactions_of_half(plan);
    let (mut checkpoints, mut within) = (0u64, 0u64);
    let start = plan.host.nanos();
    for nth in 0..plan.count / UPDATES {
        make_one(plan, manager, pairs, nth)?;
        manager.commit(SESSION)?;
        within = within.saturating_add(1);
        if matches!(plan.work, Work::Ring) && within >= half {
            manager.write_back()?;
            manager.checkpoint()?;
            checkpoints = checkpoints.saturating_add(1);
            within = 0;
        }
    }
    let nanos = plan.host.nanos_since(start);
    tell_updated(plan, nanos, checkpoints)
}

// So many transactions take half of the short log.
fn transactions_of_half(plan: &Plan) -> u64 {
    let of_a_record = (plan.size as u64)
        .saturating_mul(2)
        .saturating_add(BYTES_OF_A_RECORD);
    RING_LOG_BYTES / 2 / of_a_record.saturating_mul(UPDATES).max(1)
}

// The updates of a transaction, which is not committed yet.
fn make_one(plan: &Plan, manager: &mut Manager, pairs: &Pairs, nth: u64) -> Result<(), Fault> {
    manager.ask(SESSION, Call::Begin)?;
    let first = nth.saturating_mul(UPDATES);
    for update in 0..UPDATES {
        update_one(plan, manager, pairs, first.saturating_add(update))?;
    }
    Ok(())
}

fn tell_updated(plan: &Plan, nanos: u64, checkpoints: u64) -> Result<(), Fault> {
    let second = 1_000 * 1_000 * MILLION;
    let speed = if matches!(plan.work, Work::Ring) {
        "ring"
    } else {
        "whole"
    };
    let figures = [
        Figure::ratio(speed, plan.count, nanos, second, "updates_per_second"),
        Figure::whole("checkpoints", checkpoints, "made"),
    ];
    tell(&plan.host, plan.size, &figures)
}

/// Transactions of updates until the log has no room for more; what was begun then is committed.
pub fn filled(plan: &Plan, manager: &mut Manager, pairs: &Pairs) -> Result<(), Fault> {
    let start = plan.host.nanos();
    for nth in 0..u64::MAX {
        match make_one(plan, manager, pairs, nth) {
            Ok(()) => manager.commit(SESSION)?,
            Err(Fault::LogFull) => break,
            Err(fault) => return Err(fault),
        }
    }
    let nanos = plan.host.nanos_since(start);
    let records = manager.logged();
    let figures = [
        Figure::ratio("full", nanos, records, 1, "microseconds_per_log_record"),
        Figure::whole("full_log", records, "records"),
    ];
    tell(&plan.host, plan.size, &figures)
}

/// What an open read, of how much that is kept, and how long it took.
pub fn opened(plan: &Plan, manager: &Manager, nanos: u64) -> Result<(), Fault> {
    let report = manager.world.report();
    let below = manager.world.tail().0.saturating_sub(1);
    let kept = manager.logged().saturating_sub(below);
    let time = "microseconds_per_log_record";
    let figures = [
        Figure::ratio("open", nanos, report.read, 1, time),
        Figure::whole("open_read", report.read, "records"),
        Figure::whole("open_redone", report.redone, "records"),
        Figure::whole("open_kept", kept, "records"),
        Figure::whole("open_cut_off", below, "records"),
        Figure::ratio("open_time", nanos, MILLION, 1_000, "milliseconds"),
    ];
    tell(&plan.host, plan.size, &figures)
}
