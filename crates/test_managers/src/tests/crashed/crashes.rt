//! What a crash leaves of a manager, judged by the slow functions alone.
use super::devices::{Devices, Loss, Manager, NO_FUSES, cut_off};
use super::doings::{ONE_COMMIT, STORES};
use super::doubts::{check_given_back, opening_of};
use super::lives::{Ground, Life, Pair, Past, live};
use super::log_copies::{copy_of_log, cut_off_of, log_of};
use super::short_histories::decision_of;
use super::trouble::{Trouble, require, require_all};
use shore_model::{Decision, LogRecord, Payload, RidMap};
use shore_types::{Bytes, Fault, Pairs, StoreId};
use slow_histories::decisions::is_kept;
use slow_histories::replays::{serial_records, shown_records};
use slow_logs::lawful_logs::is_lawful;
use slow_logs::recovered_records::records_told;
use slow_logs::transaction_records::{is_in_doubt, is_over};
use std::alloc::{AllocError, Global};

/// Opens what a loss of power has left of the devices, and checks what is there.
pub(super) fn check_crash(
    alloc: Global,
    ground: &Ground,
    past: &Past,
    devices: Devices,
) -> Result<Pair, Trouble> {
    let mut world = devices.open(alloc)?;
    let shown = check_opened(alloc, ground, past, &mut world);
    let (devices, _) = cut_off(world, NO_FUSES);
    Ok(Pair {
        ground: shown?,
        devices,
    })
}

// What an open shows behind this past.
fn check_opened(
    alloc: Global,
    ground: &Ground,
    past: &Past,
    world: &mut Manager,
) -> Result<Ground, Trouble> {
    let cut_off = cut_off_of(world);
    let found = log_of(alloc, world, &past.list)?;
    let is_durable = world.durable().0 == found.len() as u64;
    require(is_durable, "a record is not durable after an open")?;
    let report = world.report();
    let told = check_log(
        alloc,
        ground,
        past,
        &found,
        cut_off.saturating_add(report.read as usize),
        report.undone,
    )?;
    let in_doubt = told.opening.in_doubt.as_slice().len() as u64;
    require(report.in_doubt == in_doubt, "not so many in doubt")?;
    let is_shown = are_in_place(alloc, world, &told.shown)?;
    require(is_shown, "the dump was refused")?;
    check_given_back(alloc, world, &told.found, &told.opening)?;
    Ok(told)
}

// What the log tells behind this past, of which so many records were there before the open, and so many transactions undone.
fn check_log(
    alloc: Global,
    ground: &Ground,
    past: &Past,
    found: &[LogRecord],
    read: usize,
    undone: u64,
) -> Result<Ground, Trouble> {
    check_found(alloc, past, found, read, undone)?;
    let shown = records_told(alloc, found)?;
    let opening = opening_of(alloc, found)?;
    check_kept(alloc, ground, past, found, &opening.records, &shown)?;
    let found = copy_of_log(alloc, found)?;
    Ok(Ground {
        opening,
        shown,
        found,
        read,
    })
}

// What the restart found is a prefix of the list with all that was durable, of which it read what lies behind the tail. Behind it are records of undo alone, and with them each transaction is over.
fn check_found(
    alloc: Global,
    past: &Past,
    found: &[LogRecord],
    read: usize,
    undone: u64,
) -> Result<(), Trouble> {
    let (Some(kept), Some(added)) = (found.get(..read), found.get(read..)) else {
        return Err(Trouble("more is read than there is"));
    };
    let is_prefix = past.list.starts_with(kept);
    let all_are_undone = count_undone(added)? == undone;
    require_all(&[
        (is_lawful(alloc, found)?, "no lawful log"),
        (is_prefix, "no prefix of the list"),
        (past.durable <= read, "a durable record is gone"),
        (all_are_undone, "not so many losers"),
        (are_over(found), "a loser is left"),
    ])
}

// How many transactions end by these records, which are of undo alone.
fn count_undone(records: &[LogRecord]) -> Result<u64, Trouble> {
    let mut undone = 0u64;
    for logged in records {
        match &logged.payload {
            Payload::End => undone = undone.saturating_add(1),
            Payload::Compensation { .. } => {}
            _ => return Err(Trouble("undo logs another record")),
        }
    }
    Ok(undone)
}

// Each transaction is over, or in doubt.
fn are_over(records: &[LogRecord]) -> bool {
    for logged in records {
        let is_of_one = logged.txn.0 > 0;
        let is_settled = is_over(records, logged.txn) || is_in_doubt(records, logged.txn);
        if is_of_one && !is_settled {
            return false;
        }
    }
    true
}

// The decisions are kept ones, and the records are those that they come to: these are the decisions whose records the list has gained.
fn check_kept(
    alloc: Global,
    ground: &Ground,
    past: &Past,
    found: &[LogRecord],
    committed: &RidMap<Bytes>,
    shown: &RidMap<Bytes>,
) -> Result<(), Trouble> {
    let Some(gained) = found.get(ground.found.len()..) else {
        return Err(Trouble("a record of before is gone"));
    };
    let kept = decisions_in(alloc, gained)?;
    let entries = past.history.entries();
    require(is_kept(alloc, entries, &kept)?, "not kept")?;
    let serial = serial_records(alloc, &ground.opening, entries, &kept)?;
    require_same(alloc, committed, &serial, "not the serial records")?;
    let all = shown_records(alloc, &ground.opening, entries, &kept)?;
    require_same(alloc, shown, &all, "not what is shown")
}

// Both have the same records in each store.
fn require_same(
    alloc: Global,
    some: &RidMap<Bytes>,
    others: &RidMap<Bytes>,
    otherwise: &'static str,
) -> Result<(), Trouble> {
    for store in 0..STORES {
        let found = some.scan(alloc, StoreId(store))?;
        let is_same = found.equals(&others.scan(alloc, StoreId(store))?);
        require(is_same, otherwise)?;
    }
    Ok(())
}

/// A dump of each store has these records, and no more. One that a failure or a page without a force refuses shows nothing: then it is answered that they are
/// not all dumped.
pub(super) fn are_in_place(
    alloc: Global,
    world: &mut Manager,
    records: &RidMap<Bytes>,
) -> Result<bool, Trouble> {
    for store in 0..STORES {
        let wanted = records.scan(alloc, StoreId(store))?;
        match is_dumped(alloc, world, StoreId(store), &wanted) {
            Ok(is_right) => require(is_right, "not what the list tells")?,
            Err(fault) => {
                let may_be = matches!(fault, Fault::NeedForce { .. }) || world.has_failed();
                return if may_be {
                    Ok(false)
                } else {
                    Err(Trouble("a dump was refused"))
                };
            }
        }
    }
    Ok(true)
}

fn is_dumped(
    alloc: Global,
    world: &mut Manager,
    store: StoreId,
    wanted: &Pairs,
) -> Result<bool, Fault> {
    Ok(world.dump(alloc, store)?.equals(wanted))
}

/// On a pair a record more is committed, is acknowledged, and survives a crash.
pub(super) fn check_commit(
    alloc: Global,
    ground: &Ground,
    devices: Devices,
    loss: Loss,
) -> Result<Pair, Trouble> {
    let Life { past, devices, .. } = live(alloc, ground, devices, &[], &ONE_COMMIT, NO_FUSES)?;
    let devices = devices.lose(alloc, loss)?;
    let left = check_crash(alloc, ground, &past, devices)?;
    require(past.acknowledged == 1, "no commit is answered")?;
    Ok(left)
}

// The decisions that records have.
fn decisions_in(alloc: Global, records: &[LogRecord]) -> Result<Vec<Decision>, AllocError> {
    let mut found = Vec::new(alloc);
    for logged in records {
        if let Some(decision) = decision_of(alloc, logged)? {
            found.push(decision)?;
        }
    }
    Ok(found)
}
