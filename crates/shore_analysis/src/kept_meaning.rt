//! What a record of a log whose front may be cut off is asked, beside what it has to mean in a whole log.
ghost use Rattle.std.specs.Prelude.{◌≡◌, ◌↔◌, ◌<◌, All, IsTrue, true};
ghost use Rattle.shore_model.specs.Logs.{is_prepared, rise_above};
ghost use Rattle.shore_model.specs.declared.log_records.Payload.TheVariants.{CheckpointBegin};
ghost use Rattle.shore_analysis.specs.KeptMeant as kept_meant;
ghost use Rattle.shore_analysis.specs.KeptMeant.{IsChangeOf, IsEndInBounds, IsEndNamed, IsEntryInBounds, IsEntryNamed, IsOf, IsPageInBounds, IsPrepareOf, NamesIfKept, SaysCutOff, SaysInBounds, SaysOfCheckpoint};
ghost use Rattle.shore_analysis.specs.Meant.{IsChange};

use crate::chains::record_behind;
use crate::prepares::are_granules;
use shore_model::{DirtyPage, LogRecord, LogTxn, Payload};
use shore_types::layout::LAST_TXN;
use shore_types::{Geometry, Lsn, TxnId};

// ---- bounds

/// Whether what the record of this number says lies inside the geometry and the limits of numbers.
pub(crate) fn says_in_bounds(geometry: &Geometry, number: Lsn, payload: &Payload) -> bool
    ensures { IsTrue result ↔ SaysInBounds geometry.now number payload.now }
{
    match payload {
        Payload::Change { id, .. } => geometry.has_slot(*id),
        Payload::Compensation { id, .. } => geometry.has_slot(*id),
        Payload::Prepare { granules, .. } => are_granules(geometry, granules.as_slice()),
        Payload::CheckpointEnd {
            begin,
            next,
            txns,
            dirty,
        } => {
            begin.0 != 0
                && next.0 <= LAST_TXN
                && are_entries_in_bounds(number, txns.as_slice())
                && are_pages_in_bounds(geometry, number, dirty.as_slice())
        }
        Payload::Commit => true,
        Payload::End => true,
        Payload::RollbackDecided => true,
        Payload::CheckpointBegin => true,
        Payload::Anchor { .. } => true,
    }
}

fn are_entries_in_bounds(number: Lsn, entries: &[LogTxn]) -> bool
    ensures { IsTrue result ↔ All (IsEntryInBounds number) entries.now }
{
    for entry in entries {
        if !is_entry_in_bounds(number, entry) {
            return false;
        }
    }
    true
}

fn is_entry_in_bounds(number: Lsn, entry: &LogTxn) -> bool
    ensures { IsTrue result ↔ IsEntryInBounds number entry.now }
{
    entry.txn.0 != 0 && entry.txn.0 < LAST_TXN && entry.prepare < number
}

fn are_pages_in_bounds(geometry: &Geometry, number: Lsn, pages: &[DirtyPage]) -> bool
    ensures { IsTrue result ↔ All (IsPageInBounds geometry.now number) pages.now }
{
    for dirty in pages {
        if !is_page_in_bounds(geometry, number, dirty) {
            return false;
        }
    }
    true
}

fn is_page_in_bounds(geometry: &Geometry, number: Lsn, dirty: &DirtyPage) -> bool
    ensures { IsTrue result ↔ IsPageInBounds geometry.now number dirty.now }
{
    geometry.has_page(dirty.page) && dirty.recovery < number
}

// ---- numbers that name records

// Whether the record of this number, if it is not cut off, is there and is the transaction's.
fn names_own(cut: u64, before: &[LogRecord], number: Lsn, txn: TxnId) -> bool
    ensures { IsTrue result ↔ NamesIfKept cut before.now number (IsOf txn) }
{
    if number.0 <= cut {
        return true;
    }
    match record_behind(cut, before, number) {
        Some(logged) => logged.txn == txn,
        None => false,
    }
}

fn names_change(cut: u64, before: &[LogRecord], number: Lsn, txn: TxnId) -> bool
    ensures { IsTrue result ↔ NamesIfKept cut before.now number (IsChangeOf txn) }
{
    if number.0 <= cut {
        return true;
    }
    match record_behind(cut, before, number) {
        Some(logged) => logged.txn == txn && is_change(&logged.payload),
        None => false,
    }
}

fn names_prepare(cut: u64, before: &[LogRecord], number: Lsn, txn: TxnId) -> bool
    ensures { IsTrue result ↔ NamesIfKept cut before.now number (IsPrepareOf txn) }
{
    if number.0 <= cut {
        return true;
    }
    match record_behind(cut, before, number) {
        Some(logged) => logged.txn == txn && logged.payload.is_prepare(),
        None => false,
    }
}

fn names_begin(cut: u64, before: &[LogRecord], number: Lsn) -> bool
    ensures { IsTrue result ↔ NamesIfKept cut before.now number (λ r. r.payload ≡ CheckpointBegin) }
{
    if number.0 <= cut {
        return true;
    }
    match record_behind(cut, before, number) {
        Some(logged) => logged.payload.is_checkpoint_begin(),
        None => false,
    }
}

fn is_change(payload: &Payload) -> bool
    ensures { IsTrue result ↔ IsChange payload.now }
{
    match payload {
        Payload::Change { .. } => true,
        Payload::Compensation { .. } => false,
        Payload::Commit => false,
        Payload::End => false,
        Payload::Prepare { .. } => false,
        Payload::RollbackDecided => false,
        Payload::CheckpointBegin => false,
        Payload::CheckpointEnd { .. } => false,
        Payload::Anchor { .. } => false,
    }
}

// ---- transactions whose front is cut off

/// Whether a record says what one of a transaction may whose front is cut off: of what is undone only the name of a Change that is kept is looked at.
pub(crate) fn says_cut_off(cut: u64, before: &[LogRecord], txn: TxnId, payload: &Payload) -> bool
    ensures { IsTrue result ↔ SaysCutOff cut before.now txn payload.now }
{
    match payload {
        Payload::Compensation { undo_next, .. } => names_change(cut, before, *undo_next, txn),
        Payload::Change { .. } => true,
        Payload::Commit => true,
        Payload::End => true,
        Payload::Prepare { .. } => true,
        Payload::RollbackDecided => true,
        Payload::CheckpointBegin => false,
        Payload::CheckpointEnd { .. } => false,
        Payload::Anchor { .. } => false,
    }
}

// ---- checkpoints

/// Whether a record of nobody says what one of a checkpoint may.
pub(crate) fn says_of_checkpoint(cut: u64, before: &[LogRecord], payload: &Payload) -> bool
    ensures { IsTrue result ↔ SaysOfCheckpoint cut before.now payload.now }
{
    match payload {
        Payload::CheckpointBegin => true,
        Payload::CheckpointEnd { begin, txns, .. } => {
            is_end_named(cut, before, *begin, txns.as_slice())
        }
        Payload::Anchor { .. } => true,
        Payload::Change { .. } => false,
        Payload::Compensation { .. } => false,
        Payload::Commit => false,
        Payload::End => false,
        Payload::Prepare { .. } => false,
        Payload::RollbackDecided => false,
    }
}

// Whether the begin of an End is there or cut off, its transactions rise, and each entry names records of its own.
fn is_end_named(cut: u64, before: &[LogRecord], begin: Lsn, entries: &[LogTxn]) -> bool
    ensures { IsTrue result ↔ IsEndNamed cut before.now begin entries.now }
{
    names_begin(cut, before, begin) && rise(entries) && are_entries_named(cut, before, entries)
}

fn rise(entries: &[LogTxn]) -> bool
    ensures { result ≡ rise_above 0 entries.now }
{
    rise_above_number(0, entries)
}

fn rise_above_number(txn: u64, entries: &[LogTxn]) -> bool
    ensures { result ≡ rise_above txn entries.now }
{
    match entries.split_first() {
        Some((first, rest)) => txn < first.txn.0 && rise_above_number(first.txn.0, rest),
        None => true,
    }
}

fn are_entries_named(cut: u64, before: &[LogRecord], entries: &[LogTxn]) -> bool
    ensures { IsTrue result ↔ All (IsEntryNamed cut before.now) entries.now }
{
    for entry in entries {
        if !is_entry_named(cut, before, entry) {
            return false;
        }
    }
    true
}

fn is_entry_named(cut: u64, before: &[LogRecord], entry: &LogTxn) -> bool
    ensures { IsTrue result ↔ IsEntryNamed cut before.now entry.now }
{
    let txn = entry.txn;
    entry.first.0 != 0
        && names_own(cut, before, entry.first, txn)
        && entry.last.0 != 0
        && names_own(cut, before, entry.last, txn)
        && names_change(cut, before, entry.undo_next, txn)
        && is_prepare_named(cut, before, entry)
}

fn is_prepare_named(cut: u64, before: &[LogRecord], entry: &LogTxn) -> bool
    ensures { IsTrue result ↔ (is_prepared entry.now.state ≡ true → (0 < entry.now.prepare) × NamesIfKept cut before.now entry.now.prepare (IsPrepareOf entry.now.txn)) }
{
    if !entry.state.is_prepared() {
        return true;
    }
    entry.prepare.0 != 0 && names_prepare(cut, before, entry.prepare, entry.txn)
}

/// Whether one of the entry's numbers is that of a record that is cut off.
pub(crate) fn names_cut_off(cut: u64, entry: &LogTxn) -> bool
    ensures { result ≡ kept_meant.names_cut_off cut entry.now }
{
    is_cut_off(cut, entry.first)
        || is_cut_off(cut, entry.last)
        || is_cut_off(cut, entry.undo_next)
        || (entry.state.is_prepared() && is_cut_off(cut, entry.prepare))
}

/// Whether the record of this number is cut off.
pub(crate) fn is_cut_off(cut: u64, number: Lsn) -> bool
    ensures { result ≡ kept_meant.is_cut_off cut number }
{
    0 < number.0 && number.0 <= cut
}
