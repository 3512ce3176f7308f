//! How far each transaction of a list of log records has come, computed slowly: each call goes through the list again.
ghost use Rattle.std.specs.Prelude.{◌≡◌, reverse, IfOk, OnOk};
ghost use Rattle.shore_model.specs.Logs as logs;

use shore_model::{LogRecord, Payload, UnansweredChange};
use shore_types::images::copy_of;
use shore_types::{Lsn, TxnId};
use std::alloc::{AllocError, Global};

/// The number of a transaction's last record, 0 if it has none.
pub fn last_of(records: &[LogRecord], txn: TxnId) -> Lsn
    ensures { result ≡ logs.last_of txn records.now }
{
    let mut last = Lsn(0);
    for (index, record) in records.iter().enumerate() {
        if record.txn == txn {
            last = Lsn(index as u64 + 1);
        }
    }
    last
}

/// The number of a transaction's first record, 0 if it has none.
pub fn first_of(records: &[LogRecord], txn: TxnId) -> Lsn
    ensures { result ≡ logs.first_of txn records.now }
{
    for (index, record) in records.iter().enumerate() {
        if record.txn == txn {
            return Lsn(index as u64 + 1);
        }
    }
    Lsn(0)
}

/// The number of a transaction's Prepare, 0 if it has none.
pub fn prepare_number(records: &[LogRecord], txn: TxnId) -> Lsn
    ensures { result ≡ logs.prepare_number txn records.now }
{
    for (index, record) in records.iter().enumerate() {
        if record.txn == txn && record.payload.is_prepare() {
            return Lsn(index as u64 + 1);
        }
    }
    Lsn(0)
}

/// A transaction has a Commit or an End.
pub fn is_over(records: &[LogRecord], txn: TxnId) -> bool
    ensures { result ≡ logs.is_over txn records.now }
{
    has_commit(records, txn) || has_end(records, txn)
}

/// A transaction has a Prepare, no Commit and no Rollback decided.
pub fn is_in_doubt(records: &[LogRecord], txn: TxnId) -> bool
    ensures { result ≡ logs.is_in_doubt txn records.now }
{
    has_prepare(records, txn) && !has_commit(records, txn) && !has_rollback(records, txn)
}

/// A transaction may change records: it has no Prepare.
pub fn is_unprepared(records: &[LogRecord], txn: TxnId) -> bool
    ensures { result ≡ logs.is_unprepared txn records.now }
{
    !has_prepare(records, txn)
}

/// A transaction may put back what it changed: it has no Prepare, or a Rollback decided after it.
pub fn is_undoable(records: &[LogRecord], txn: TxnId) -> bool
    ensures { result ≡ logs.is_undoable txn records.now }
{
    is_unprepared(records, txn) || has_rollback(records, txn)
}

fn has_commit(records: &[LogRecord], txn: TxnId) -> bool
    ensures { result ≡ logs.has logs.is_commit txn records.now }
{
    records
        .iter()
        .any(|record| record.txn == txn && record.payload.is_commit())
}

fn has_end(records: &[LogRecord], txn: TxnId) -> bool
    ensures { result ≡ logs.has logs.is_end txn records.now }
{
    records
        .iter()
        .any(|record| record.txn == txn && record.payload.is_end())
}

fn has_prepare(records: &[LogRecord], txn: TxnId) -> bool
    ensures { result ≡ logs.has logs.is_prepare txn records.now }
{
    records
        .iter()
        .any(|record| record.txn == txn && record.payload.is_prepare())
}

fn has_rollback(records: &[LogRecord], txn: TxnId) -> bool
    ensures { result ≡ logs.has logs.is_rollback txn records.now }
{
    records
        .iter()
        .any(|record| record.txn == txn && record.payload.is_rollback())
}

/// A transaction's Changes that no Compensation has answered, the newest last.
pub fn unanswered(
    alloc: Global,
    records: &[LogRecord],
    txn: TxnId,
) -> Result<Vec<UnansweredChange>, AllocError>
    ensures { IfOk result (λ changes. reverse changes.items ≡ logs.unanswered txn records.now) }
{
    let mut changes = Vec::new(alloc);
    for (index, record) in records.iter().enumerate() {
        if record.txn == txn {
            answer(alloc, &mut changes, Lsn(index as u64 + 1), &record.payload)?;
        }
    }
    Ok(changes)
}

// Adds a Change, or drops the newest one, which a Compensation answers.
fn answer(
    alloc: Global,
    changes: &mut Vec<UnansweredChange>,
    number: Lsn,
    payload: &Payload,
) -> Result<(), AllocError>
    ensures { OnOk result (reverse changes.new.items ≡ logs.answered_by number payload.now (reverse changes.old.items)) }
{
    match payload {
        Payload::Change { id, before, .. } => {
            let before = copy_of(alloc, before)?;
            changes.push(UnansweredChange {
                number,
                id: *id,
                before,
            })?;
        }
        Payload::Compensation { .. } => {
            let _ = changes.pop();
        }
        _ => {}
    }
    Ok(())
}

/// The number of the newest of the Changes, which is the last: the one to be undone next, 0 if there is none.
pub fn undo_next_of(changes: &[UnansweredChange]) -> Lsn
    ensures { result ≡ logs.undo_next_of (reverse changes.now) }
{
    match changes.last() {
        Some(newest) => newest.number,
        None => Lsn(0),
    }
}
