//! Records of the log as words: a transaction, the number of its record before, and what the record says.
use super::steps::Step;
use super::words::Words;
use shore_model::{LogRecord, LogTxn, Payload, TxnState};
use shore_types::Sequence;
use std::alloc::Global;

impl Step for LogRecord {
    fn read(alloc: Global, words: &mut Words) -> LogRecord {
        LogRecord {
            txn: words.txn(),
            previous: words.lsn(),
            payload: payload(alloc, words),
        }
    }
}

fn payload(alloc: Global, words: &mut Words) -> Payload {
    match words.word() {
        "change" => Payload::Change {
            id: words.rid(),
            before: words.image(alloc),
            after: words.image(alloc),
        },
        "compensation" => Payload::Compensation {
            id: words.rid(),
            undo_next: words.lsn(),
            after: words.image(alloc),
        },
        "prepare" => Payload::Prepare {
            global: words.bytes(alloc),
            granules: words.granules(alloc),
        },
        kind => plain(alloc, kind, words),
    }
}

// The table of dirty pages stays empty: no definition of these runs speaks of it.
fn plain(alloc: Global, kind: &str, words: &mut Words) -> Payload {
    match kind {
        "commit" => Payload::Commit,
        "end" => Payload::End,
        "rollback_decided" => Payload::RollbackDecided,
        "checkpoint_begin" => Payload::CheckpointBegin,
        "checkpoint_end" => Payload::CheckpointEnd {
            begin: words.lsn(),
            next: words.txn(),
            txns: entries(alloc, words),
            dirty: Sequence::new(alloc),
        },
        "anchor" => Payload::Anchor {
            checkpoint: words.lsn(),
            tail: words.lsn(),
        },
        _ => words.refused(Payload::End),
    }
}

/// How many there are, and then each.
pub(super) fn entries(alloc: Global, words: &mut Words) -> Sequence<LogTxn> {
    let count = words.number();
    let mut txns = Sequence::new(alloc);
    for _ in 0..count {
        let is_pushed = txns.push(entry(words)).is_ok();
        words.require(is_pushed);
    }
    txns
}

// As `7 active 1 4 3 0`: the transaction, its state, and the numbers of its first and its last record, of the Change to be
// undone next, and of its Prepare.
fn entry(words: &mut Words) -> LogTxn {
    LogTxn {
        txn: words.txn(),
        state: state(words),
        first: words.lsn(),
        last: words.lsn(),
        undo_next: words.lsn(),
        prepare: words.lsn(),
    }
}

fn state(words: &mut Words) -> TxnState {
    match words.word() {
        "active" => TxnState::Active,
        "prepared" => TxnState::Prepared,
        "rolling_back" => TxnState::RollingBack,
        _ => words.refused(TxnState::Active),
    }
}
