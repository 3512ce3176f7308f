//! What savepoints and rollbacks come to: which records they append, what is in place behind them, and how often each has come up.
use super::lives::Ground;
use super::short_histories::ShortHistory;
use super::trouble::{Trouble, require};
use shore_model::rid_map::overlaid;
use shore_model::{Answer, LogRecord, Payload, RidMap};
use shore_types::{Bytes, Fault, SessionId, TxnId};
use shore_world::Step;
use slow_histories::decisions::decisions;
use slow_histories::replays::{shown_records, writes_of_txn};
use std::alloc::{AllocError, Global};

// What is to come up often has come up so many times.
const OFTEN: u64 = 20;

/// How often what has come up.
#[derive(Clone, Copy)]
pub(super) struct Rollbacks {
    /// Aborts that put changes back, and those that had none to put back.
    pub(super) aborts: u64,
    pub(super) aborts_of_nothing: u64,
    /// Ways back to a savepoint that put changes back, and those that had none to put back.
    pub(super) ways_back: u64,
    pub(super) ways_back_to_here: u64,
    pub(super) savepoints: u64,
    pub(super) no_savepoints: u64,
}

pub(super) const NO_ROLLBACKS: Rollbacks = Rollbacks {
    aborts: 0,
    aborts_of_nothing: 0,
    ways_back: 0,
    ways_back_to_here: 0,
    savepoints: 0,
    no_savepoints: 0,
};

impl Rollbacks {
    /// Each kind that comes up while all pages are in frames, and often.
    pub(super) fn has_each(&self) -> bool {
        let of_aborts = self.aborts >= OFTEN && self.aborts_of_nothing >= OFTEN;
        let of_ways_back = self.ways_back >= OFTEN && self.ways_back_to_here >= OFTEN;
        of_aborts && of_ways_back && self.savepoints >= OFTEN && self.no_savepoints >= OFTEN
    }

    /// Counts what a step came to that has appended so many records.
    pub(super) fn count(&mut self, step: &Step, appended: usize) {
        let counted = match step {
            Step::Done(Answer::Aborted) if appended > 1 => &mut self.aborts,
            Step::Done(Answer::Aborted) => &mut self.aborts_of_nothing,
            Step::Done(Answer::WentBack) if appended > 0 => &mut self.ways_back,
            Step::Done(Answer::WentBack) => &mut self.ways_back_to_here,
            Step::Done(Answer::Saved(_)) => &mut self.savepoints,
            Step::Refused(Fault::NoSavepoint) => &mut self.no_savepoints,
            _ => return,
        };
        *counted = counted.saturating_add(1);
    }
}

/// A way back appends Compensations alone; an abort too, and an End behind them unless its transaction has logged nothing; a savepoint appends nothing, nor what
/// is refused to one that must abort.
/// Answers how many records one of these has appended, before which so many waited.
pub(super) fn check_appended(
    handed_over: &[LogRecord],
    waiting: &[LogRecord],
    txn: TxnId,
    waited: usize,
    step: &Step,
) -> Result<usize, Trouble> {
    let appended = waiting.get(waited..).unwrap_or(&[]);
    let is_right = match step {
        Step::Done(Answer::Aborted) => {
            is_abort(txn, appended) || !(has_record(handed_over, txn) || has_record(waiting, txn))
        }
        Step::Done(Answer::WentBack) => are_compensations(txn, appended),
        Step::Done(Answer::Saved(_)) => appended.is_empty(),
        Step::Refused(Fault::Deadlock { .. } | Fault::MustAbort) => appended.is_empty(),
        _ => return Ok(0),
    };
    require(is_right, "other records are appended")?;
    Ok(appended.len())
}

/// What the commits that are decided come to, overlaid with what those in doubt and each session's transaction have written: behind a rollback this is in place.
pub(super) fn records_put_back(
    alloc: Global,
    ground: &Ground,
    history: &ShortHistory,
    sessions: u32,
) -> Result<RidMap<Bytes>, AllocError> {
    let entries = history.entries();
    let decided = decisions(alloc, entries)?;
    let mut records = shown_records(alloc, &ground.opening, entries, decided.as_slice())?;
    for number in 1..=sessions {
        let txn = history.txn(SessionId(number));
        let writes = writes_of_txn(alloc, &ground.opening, entries, txn)?;
        records = overlaid(alloc, &records, &writes)?;
    }
    Ok(records)
}

fn are_compensations(txn: TxnId, records: &[LogRecord]) -> bool {
    for logged in records {
        if logged.txn != txn || !matches!(logged.payload, Payload::Compensation { .. }) {
            return false;
        }
    }
    true
}

// Compensations, and an End.
fn is_abort(txn: TxnId, records: &[LogRecord]) -> bool {
    let Some((last, before)) = records.split_last() else {
        return false;
    };
    last.txn == txn && matches!(last.payload, Payload::End) && are_compensations(txn, before)
}

/// A record is the transaction's.
pub(super) fn has_record(records: &[LogRecord], txn: TxnId) -> bool {
    for logged in records {
        if logged.txn == txn {
            return true;
        }
    }
    false
}
