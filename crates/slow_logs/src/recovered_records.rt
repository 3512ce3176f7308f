//! What a list of log records tells, computed slowly.
ghost use Rattle.std.specs.Prelude.{◌≡◌, ◌∷◌, [], map, filter, IfOk, OnOk};
ghost use Rattle.std.specs.List.{filter_map};
ghost use Rattle.shore_model.specs.Logs as logs;
ghost use Rattle.shore_model.specs.Records.{overlays};

use crate::transaction_records::is_in_doubt;
use shore_model::rid_map::overlaid;
use shore_model::{LogRecord, Payload, RidMap};
use shore_types::images::copy_of;
use shore_types::{Bytes, TxnId};
use std::alloc::{AllocError, Global};

/// What a list tells: the writes of the committed in the order of their Commits, and then of those in doubt.
pub fn records_told(alloc: Global, records: &[LogRecord]) -> Result<RidMap<Bytes>, AllocError>
    ensures { IfOk result (λ found. found ≡ logs.records_told records.now) }
{
    let mut found = RidMap::new(alloc);
    for record in records {
        found = committed(alloc, records, found, record)?;
    }
    for record in records {
        found = doubted(alloc, records, found, record)?;
    }
    Ok(found)
}

// What is found so far, overlaid with a transaction's writes if the record is its Commit.
fn committed(
    alloc: Global,
    records: &[LogRecord],
    found: RidMap<Bytes>,
    candidate: &LogRecord,
) -> Result<RidMap<Bytes>, AllocError>
    ensures { IfOk result (λ after. after ≡
        overlays found (map (logs.logged_writes records.now) (logs.committed_in (candidate.now ∷ [])))) }
{
    if !candidate.payload.is_commit() {
        return Ok(found);
    }
    let writes = logged_writes(alloc, records, candidate.txn)?;
    overlaid(alloc, &found, &writes)
}

// What is found so far, overlaid with a transaction's writes if the record is its Prepare and it is in doubt.
fn doubted(
    alloc: Global,
    records: &[LogRecord],
    found: RidMap<Bytes>,
    candidate: &LogRecord,
) -> Result<RidMap<Bytes>, AllocError>
    ensures { IfOk result (λ after. after ≡
        overlays found (map (logs.logged_writes records.now)
        (filter (λ t. logs.is_in_doubt t records.now) (filter_map logs.prepare_of (candidate.now ∷ []))))) }
{
    if !candidate.payload.is_prepare() || !is_in_doubt(records, candidate.txn) {
        return Ok(found);
    }
    let writes = logged_writes(alloc, records, candidate.txn)?;
    overlaid(alloc, &found, &writes)
}

/// The last image for each id that the records change.
pub fn last_images(
    alloc: Global,
    records: &[LogRecord],
) -> Result<RidMap<Option<Bytes>>, AllocError>
    ensures { IfOk result (λ images. images ≡ logs.last_images records.now) }
{
    let mut images = RidMap::new(alloc);
    for record in records {
        put_image(alloc, &mut images, &record.payload)?;
    }
    Ok(images)
}

/// The last image for each id that a transaction's records change.
pub fn logged_writes(
    alloc: Global,
    records: &[LogRecord],
    txn: TxnId,
) -> Result<RidMap<Option<Bytes>>, AllocError>
    ensures { IfOk result (λ writes. writes ≡ logs.logged_writes records.now txn) }
{
    let mut writes = RidMap::new(alloc);
    for record in records {
        if record.txn == txn {
            put_image(alloc, &mut writes, &record.payload)?;
        }
    }
    Ok(writes)
}

// Adds the image that a record leaves.
fn put_image(
    alloc: Global,
    images: &mut RidMap<Option<Bytes>>,
    payload: &Payload,
) -> Result<(), AllocError>
    ensures { OnOk result (images.new ≡ logs.with_image images.old (logs.image_in payload.now)) }
{
    match payload {
        Payload::Change { id, after, .. } | Payload::Compensation { id, after, .. } => {
            images.insert(*id, copy_of(alloc, after)?)?;
        }
        _ => {}
    }
    Ok(())
}
