//! Which lists of log records are lawful, decided slowly: each record is judged anew by all those before it.
ghost use Rattle.std.specs.Prelude.{◌≡◌, ◌↔◌, reverse, All, Contains, IfOk, IfSome, IsTrue};
ghost use Rattle.shore_types.specs.declared.locking.Granule.{Granule};
ghost use Rattle.shore_model.specs.Locks.{path};
ghost use Rattle.shore_model.specs.Logs as logs;

use crate::checkpoint_tables::is_as_at_begin;
use crate::recovered_records::last_images;
use crate::transaction_records::{
    is_in_doubt, is_over, is_undoable, is_unprepared, last_of, unanswered, undo_next_of,
};
use shore_model::{LogRecord, Payload, UnansweredChange};
use shore_types::{Bytes, Granule, Lsn, Rid, TxnId};
use std::alloc::{AllocError, Global};

/// Each record may follow those before it.
pub fn is_lawful(alloc: Global, records: &[LogRecord]) -> Result<bool, AllocError>
    ensures { IfOk result (λ yes. IsTrue yes ↔ logs.Lawful records.now) }
{
    for (index, record) in records.iter().enumerate() {
        if !may_follow(alloc, &records[..index], record)? {
            return Ok(false);
        }
    }
    Ok(true)
}

/// A record may follow these: it is of a transaction or of a checkpoint, it names its transaction's record before
/// it, its transaction has not ended, and may say this.
pub fn may_follow(
    alloc: Global,
    records: &[LogRecord],
    next: &LogRecord,
) -> Result<bool, AllocError>
    ensures { IfOk result (λ yes. IsTrue yes ↔ logs.MayFollow records.now next.now) }
{
    let may_say = may_say(alloc, records, next.txn, &next.payload)?;
    let is_of_none = next.txn == TxnId(0);
    Ok(
        next.payload.is_of_checkpoint() == is_of_none
            && next.previous == previous_of(records, next.txn)
            && !is_over(records, next.txn)
            && may_say,
    )
}

// The number that a transaction's next record names.
fn previous_of(records: &[LogRecord], txn: TxnId) -> Lsn
    ensures { result ≡ logs.previous_of txn records.now }
{
    if txn == TxnId(0) {
        return Lsn(0);
    }
    last_of(records, txn)
}

// A transaction's next record may say this.
fn may_say(
    alloc: Global,
    records: &[LogRecord],
    txn: TxnId,
    payload: &Payload,
) -> Result<bool, AllocError>
    ensures { IfOk result (λ yes. IsTrue yes ↔ logs.MaySay records.now txn payload.now) }
{
    match payload {
        Payload::Change { id, before, .. } => change_may_follow(alloc, records, txn, *id, before),
        Payload::Compensation {
            id,
            after,
            undo_next,
        } => compensation_may_follow(alloc, records, txn, *id, after, *undo_next),
        Payload::Commit => Ok(commit_may_follow(records, txn)),
        Payload::End => end_may_follow(alloc, records, txn),
        Payload::Prepare { granules, .. } => Ok(prepare_may_follow(
            records,
            txn,
            granules.as_slice(),
        )),
        Payload::RollbackDecided => Ok(is_in_doubt(records, txn)),
        Payload::CheckpointBegin => Ok(true),
        Payload::CheckpointEnd {
            begin,
            next,
            txns,
            dirty: _,
        } => is_as_at_begin(alloc, records, *begin, *next, txns.as_slice()),
        Payload::Anchor { .. } => Ok(true),
    }
}

// No Prepare comes before a Change, its before image is what the list leaves at the id, and no other has changed that.
fn change_may_follow(
    alloc: Global,
    records: &[LogRecord],
    txn: TxnId,
    id: Rid,
    before: &Option<Bytes>,
) -> Result<bool, AllocError>
    ensures { IfOk result (λ yes. IsTrue yes ↔ logs.MayChange records.now txn id before.now) }
{
    let is_left = is_left_at(alloc, records, id, before)?;
    Ok(is_unprepared(records, txn) && is_left && no_other_changed(records, txn, id))
}

// The image is what the records leave at the id.
fn is_left_at(
    alloc: Global,
    records: &[LogRecord],
    id: Rid,
    image: &Option<Bytes>,
) -> Result<bool, AllocError>
    ensures { IfOk result (λ yes. IsTrue yes ↔ (image.now ≡ logs.image_of_record records.now id)) }
{
    let images = last_images(alloc, records)?;
    match images.get(id) {
        Some(left) => Ok(image == left),
        None => Ok(image.is_none()),
    }
}

fn no_other_changed(records: &[LogRecord], txn: TxnId, id: Rid) -> bool
    ensures { IsTrue result ↔ logs.NoOtherChanged records.now txn id }
{
    records
        .iter()
        .all(|record| leaves_free(records, txn, id, record))
}

// The record is not a change of the id by another transaction that has not ended.
fn leaves_free(records: &[LogRecord], txn: TxnId, id: Rid, earlier: &LogRecord) -> bool
    ensures { IsTrue result ↔ logs.LeavesFree records.now txn id earlier.now }
{
    match earlier.payload.id() {
        Some(changed) => changed != id || earlier.txn == txn || is_over(records, earlier.txn),
        None => true,
    }
}

// A Compensation answers the newest unanswered Change.
fn compensation_may_follow(
    alloc: Global,
    records: &[LogRecord],
    txn: TxnId,
    id: Rid,
    image: &Option<Bytes>,
    undo_next: Lsn,
) -> Result<bool, AllocError>
    ensures { IfOk result (λ yes. IsTrue yes ↔ logs.MayCompensate records.now txn id image.now undo_next) }
{
    let changes = unanswered(alloc, records, txn)?;
    Ok(is_undoable(records, txn) && answers(&changes, id, image, undo_next))
}

// A Compensation (CLR) answers the newest of the Changes, which is the last.
fn answers(changes: &[UnansweredChange], id: Rid, image: &Option<Bytes>, undo_next: Lsn) -> bool
    ensures { IsTrue result ↔ logs.Answers (reverse changes.now) id image.now undo_next }
{
    match changes.split_last() {
        Some((newest, older)) => undo_next == undo_next_of(older) && undoes(newest, id, image),
        None => false,
    }
}

// The image is a Change's before image, at its id.
fn undoes(change: &UnansweredChange, id: Rid, image: &Option<Bytes>) -> bool
    ensures { IsTrue result ↔ (id ≡ change.now.id) × (image.now ≡ change.now.before) }
{
    id == change.id && *image == change.before
}

fn commit_may_follow(records: &[LogRecord], txn: TxnId) -> bool
    ensures { IsTrue result ↔ logs.MayCommit records.now txn }
{
    is_unprepared(records, txn) || is_in_doubt(records, txn)
}

// No Change of a transaction is unanswered at its End.
fn end_may_follow(alloc: Global, records: &[LogRecord], txn: TxnId) -> Result<bool, AllocError>
    ensures { IfOk result (λ yes. IsTrue yes ↔ logs.MayEnd records.now txn) }
{
    let changes = unanswered(alloc, records, txn)?;
    Ok(is_undoable(records, txn) && changes.is_empty())
}

fn prepare_may_follow(records: &[LogRecord], txn: TxnId, granules: &[Granule]) -> bool
    ensures { IsTrue result ↔ logs.MayPrepare records.now txn granules.now }
{
    is_unprepared(records, txn) && lie_under(records, txn, granules)
}

// Each id that the transaction has changed lies at or under one of the granules.
fn lie_under(records: &[LogRecord], txn: TxnId, granules: &[Granule]) -> bool
    ensures { IsTrue result ↔ logs.LieUnder records.now txn granules.now }
{
    records
        .iter()
        .all(|record| keeps_under(record, txn, granules))
}

// The record is another transaction's, or changes no id, or changes one that lies at or under one of the granules.
fn keeps_under(earlier: &LogRecord, txn: TxnId, granules: &[Granule]) -> bool
    ensures { IsTrue result ↔ logs.KeepsUnder txn granules.now earlier.now }
{
    match earlier.payload.id() {
        Some(id) => earlier.txn != txn || lies_under(granules, id),
        None => true,
    }
}

#[tactic(auto, unfolding(shore_model::specs::Logs::LiesUnder))]
fn lies_under(granules: &[Granule], id: Rid) -> bool
    ensures { IsTrue result ↔ logs.LiesUnder granules.now id }
{
    granules.iter().any(|granule| is_on_path(*granule, id))
}

// The granule is the record or one that it lies in.
fn is_on_path(granule: Granule, id: Rid) -> bool
    ensures { IsTrue result ↔ Contains (path (Granule.Record id)) granule }
{
    match granule {
        Granule::Volume => true,
        Granule::Store(store) => store == id.page.store,
        Granule::Page(page) => page == id.page,
        Granule::Record(record_id) => record_id == id,
    }
}
