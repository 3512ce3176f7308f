//! Whether a checkpoint's table says what the records before its begin say, decided slowly.
ghost use Rattle.std.specs.Prelude.{◌≡◌, ◌↔◌, ◌<◌, All, IfOk, IsTrue};
ghost use Rattle.shore_model.specs.Logs as logs;

use crate::transaction_records::{
    first_of, is_in_doubt, is_over, last_of, prepare_number, unanswered, undo_next_of,
};
use shore_model::{LogRecord, LogTxn};
use shore_types::{Lsn, TxnId};
use std::alloc::{AllocError, Global};

/// A checkpoint's table and next number are as at its begin, which has this number.
pub fn is_as_at_begin(
    alloc: Global,
    records: &[LogRecord],
    begin: Lsn,
    next: TxnId,
    txns: &[LogTxn],
) -> Result<bool, AllocError>
    ensures { IfOk result (λ yes. IsTrue yes ↔ logs.IsAsAtBegin records.now begin next txns.now) }
{
    if !is_begin(records, begin) {
        return Ok(false);
    }
    let before = before_begin(records, begin);
    let is_table = is_table(alloc, before, txns)?;
    Ok(is_table && are_below(before, next))
}

fn is_begin(records: &[LogRecord], begin: Lsn) -> bool
    ensures { IsTrue result ↔ logs.IsBegin records.now begin }
{
    let number = begin.0;
    if number == 0 {
        return false;
    }
    match records.get(number as usize - 1) {
        Some(record) => record.payload.is_checkpoint_begin(),
        None => false,
    }
}

fn before_begin(records: &[LogRecord], begin: Lsn) -> &[LogRecord]
    requires { logs.IsBegin records.now begin }
    ensures { result.now ≡ logs.before_begin records.now begin }
{
    &records[..begin.0 as usize - 1]
}

// The number is above those of the records' transactions.
fn are_below(records: &[LogRecord], next: TxnId) -> bool
    ensures { IsTrue result ↔ All (λ r. r.txn < next) records.now }
{
    records.iter().all(|record| record.txn < next)
}

// The table has the list's transactions that have not ended, each once, rising.
fn is_table(alloc: Global, records: &[LogRecord], txns: &[LogTxn]) -> Result<bool, AllocError>
    ensures { IfOk result (λ yes. IsTrue yes ↔ logs.IsTable records.now txns.now) }
{
    let are_entries = are_entries(alloc, records, txns)?;
    Ok(rise(txns) && are_entries && are_listed(records, txns))
}

fn rise(txns: &[LogTxn]) -> bool
    ensures { result ≡ logs.rise_above 0 txns.now }
{
    let mut last = TxnId(0);
    for entry in txns {
        if entry.txn <= last {
            return false;
        }
        last = entry.txn;
    }
    true
}

fn are_listed(records: &[LogRecord], txns: &[LogTxn]) -> bool
    ensures { IsTrue result ↔ All (logs.IsListed records.now txns.now) records.now }
{
    records
        .iter()
        .all(|record| is_listed(records, txns, record))
}

// The record's transaction has ended, or the table lists it.
fn is_listed(records: &[LogRecord], txns: &[LogTxn], earlier: &LogRecord) -> bool
    ensures { IsTrue result ↔ logs.IsListed records.now txns.now earlier.now }
{
    earlier.txn == TxnId(0) || is_over(records, earlier.txn) || lists(txns, earlier.txn)
}

#[tactic(auto, unfolding(shore_model::specs::Logs::Lists))]
fn lists(txns: &[LogTxn], txn: TxnId) -> bool
    ensures { IsTrue result ↔ logs.Lists txns.now txn }
{
    txns.iter().any(|entry| entry.txn == txn)
}

fn are_entries(alloc: Global, records: &[LogRecord], txns: &[LogTxn]) -> Result<bool, AllocError>
    ensures { IfOk result (λ yes. IsTrue yes ↔ All (logs.IsEntry records.now) txns.now) }
{
    for entry in txns {
        if !is_entry(alloc, records, entry)? {
            return Ok(false);
        }
    }
    Ok(true)
}

// The entry says what the list says of its transaction, which has records and has not ended.
fn is_entry(alloc: Global, records: &[LogRecord], entry: &LogTxn) -> Result<bool, AllocError>
    ensures { IfOk result (λ yes. IsTrue yes ↔ logs.IsEntry records.now entry.now) }
{
    let has_numbers = has_numbers(alloc, records, entry)?;
    Ok(is_unended(records, entry) && has_numbers)
}

fn is_unended(records: &[LogRecord], entry: &LogTxn) -> bool
    ensures { IsTrue result ↔ logs.IsUnended records.now entry.now }
{
    let txn = entry.txn;
    txn != TxnId(0)
        && last_of(records, txn) != Lsn(0)
        && !is_over(records, txn)
        && entry.state.is_prepared() == is_in_doubt(records, txn)
}

fn has_numbers(alloc: Global, records: &[LogRecord], entry: &LogTxn) -> Result<bool, AllocError>
    ensures { IfOk result (λ yes. IsTrue yes ↔ logs.HasNumbers records.now entry.now) }
{
    let txn = entry.txn;
    let changes = unanswered(alloc, records, txn)?;
    Ok(
        entry.first == first_of(records, txn)
            && entry.last == last_of(records, txn)
            && entry.undo_next == undo_next_of(&changes)
            && entry.prepare == prepare_number(records, txn),
    )
}
