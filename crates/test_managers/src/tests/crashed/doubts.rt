//! What an open gives back of those in doubt, by the slow functions, and who is told to be in doubt.
use super::devices::Manager;
use super::lock_lists::have_the_same;
use super::trouble::{Trouble, require, require_all};
use shore_model::rid_map::overlaid;
use shore_model::{Answer, Call, InDoubt, LogRecord, Opening, Payload, Request, RidMap};
use shore_modes::sup;
use shore_types::{GlobalId, Granule, Mode, Sequence, SessionId, TxnId, Version};
use shore_world::{Event, Step};
use slow_histories::decisions::in_doubt;
use slow_logs::recovered_records::logged_writes;
use slow_logs::transaction_records::is_in_doubt;
use std::alloc::{AllocError, Global};
use std::cmp::Ordering;

// A session that no run has.
const ASKER: SessionId = SessionId(999);

/// The committed records of a log, and those in doubt in the order of their Prepares.
pub(super) fn opening_of(alloc: Global, found: &[LogRecord]) -> Result<Opening, AllocError> {
    let mut records = RidMap::new(alloc);
    let mut doubts = Sequence::new(alloc);
    for logged in found {
        let txn = logged.txn;
        match &logged.payload {
            Payload::Commit => {
                records = overlaid(alloc, &records, &logged_writes(alloc, found, txn)?)?;
            }
            Payload::Prepare { global, .. } => {
                if is_in_doubt(found, txn) {
                    doubts.push(InDoubt {
                        txn,
                        global: global.try_clone(alloc)?,
                        writes: logged_writes(alloc, found, txn)?,
                    })?;
                }
            }
            _ => {}
        }
    }
    Ok(Opening {
        slots: Version::One.slot_limit(),
        records,
        in_doubt: doubts,
    })
}

/// Behind an open that has found this log there are the locks of those in doubt, and no others, and a session that asks is told just them.
pub(super) fn check_given_back(
    alloc: Global,
    world: &mut Manager,
    found: &[LogRecord],
    opening: &Opening,
) -> Result<(), Trouble> {
    let locks = locks_given_back(alloc, found)?;
    require(
        have_the_same(&world.nodes(alloc)?, &locks),
        "not the locks of those in doubt",
    )?;
    let wanted = in_doubt(alloc, opening, &[])?;
    match world.step(alloc, Event::Call(ASKER, Call::InDoubt)) {
        Step::Done(Answer::AreInDoubt(told)) => check_told(told.as_slice(), wanted.as_slice()),
        _ => Err(Trouble("who is in doubt is not told")),
    }
}

/// What is told rises by the bytes of the names, and is just these.
pub(super) fn check_told(
    told: &[(GlobalId, TxnId)],
    wanted: &[(TxnId, GlobalId)],
) -> Result<(), Trouble> {
    let mut before: Option<&GlobalId> = None;
    for pair in told {
        let rises = match before {
            Some(before) => matches!(before.as_slice().cmp(pair.0.as_slice()), Ordering::Less),
            None => true,
        };
        require_all(&[
            (rises, "who is in doubt is told in another order"),
            (is_among(pair, wanted), "one is told that is not in doubt"),
        ])?;
        before = Some(&pair.0);
    }
    require(told.len() == wanted.len(), "one in doubt is not told")
}

fn is_among(pair: &(GlobalId, TxnId), wanted: &[(TxnId, GlobalId)]) -> bool {
    for other in wanted {
        if other.0 == pair.1 && other.1 == pair.0 {
            return true;
        }
    }
    false
}

// EX on each granule of a Prepare, and IX above.
fn locks_given_back(alloc: Global, found: &[LogRecord]) -> Result<Vec<Request>, AllocError> {
    let mut locks = Vec::new(alloc);
    for logged in found {
        if let Payload::Prepare { granules, .. } = &logged.payload {
            if is_in_doubt(found, logged.txn) {
                for granule in granules.as_slice() {
                    lock_path(&mut locks, logged.txn, granule)?;
                }
            }
        }
    }
    Ok(locks)
}

fn lock_path(locks: &mut Vec<Request>, txn: TxnId, granule: &Granule) -> Result<(), AllocError> {
    lock(locks, txn, granule, Mode::EX)?;
    let mut above = granule.parent();
    for _ in 0..3 {
        let Some(ancestor) = above else {
            break;
        };
        lock(locks, txn, &ancestor, Mode::IX)?;
        above = ancestor.parent();
    }
    Ok(())
}

// The transaction has the mode, and what it has besides.
fn lock(
    locks: &mut Vec<Request>,
    txn: TxnId,
    granule: &Granule,
    mode: Mode,
) -> Result<(), AllocError> {
    for request in locks.iter_mut() {
        if request.txn == txn && request.granule == *granule {
            let held = request.held.unwrap_or(mode);
            request.held = Some(sup(held, mode));
            return Ok(());
        }
    }
    locks.push(Request {
        txn,
        granule: *granule,
        held: Some(mode),
        wanted: None,
    })?;
    Ok(())
}
