//! The records that decisions leave, computed slowly.
ghost use Rattle.std.specs.Prelude.{◌≡◌, ◌∷◌, ◌↔◌, [], map, filter, IfOk, if◌then◌else◌};
ghost use Rattle.std.specs.Option.{option_copied};
ghost use Rattle.std.specs.List.{list_any, filter_map};
ghost use Rattle.shore_model.specs.Histories.{History, writes_given, writes_in, serial, shown, is_ended_by, is_undecided, prepared_by};
ghost use Rattle.shore_model.specs.Records.{overlay, overlays};

use crate::decisions::in_doubt;
use crate::progress::{enter, start};
use shore_model::rid_map::{copy_records, copy_writes, overlaid};
use shore_model::{Decision, Entry, InDoubt, Opening, RidMap};
use shore_types::{Bytes, TxnId};
use std::alloc::{AllocError, Global};

/// What a transaction wrote.
pub fn writes_of_txn(
    alloc: Global,
    opening: &Opening,
    entries: &[Entry],
    txn: TxnId,
) -> Result<RidMap<Option<Bytes>>, AllocError>
    ensures { IfOk result (λ writes. writes ≡ writes_in (record { opening = opening.now; entries = entries.now }) txn) }
{
    if let Some(writes) = given_writes(opening.in_doubt.as_slice(), txn) {
        return copy_writes(alloc, writes);
    }
    let mut progress = start(alloc);
    for entry in entries {
        enter(alloc, &mut progress, txn, entry)?;
    }
    Ok(progress.writes)
}

// What an opening says that a transaction in doubt wrote.
fn given_writes(in_doubt: &[InDoubt], txn: TxnId) -> Option<&RidMap<Option<Bytes>>>
    ensures { option_copied result ≡ writes_given in_doubt.now txn }
{
    for doubt in in_doubt {
        if doubt.txn == txn {
            return Some(&doubt.writes);
        }
    }
    None
}

/// The opening's records, with the write sets of the committed laid over them in the order of the commits.
pub fn serial_records(
    alloc: Global,
    opening: &Opening,
    entries: &[Entry],
    decisions: &[Decision],
) -> Result<RidMap<Bytes>, AllocError>
    ensures { IfOk result (λ records. records ≡
        serial (writes_in (record { opening = opening.now; entries = entries.now })) opening.now.records decisions.now) }
{
    let mut records = copy_records(alloc, &opening.records)?;
    for decision in decisions {
        records = decided(alloc, opening, entries, records, decision)?;
    }
    Ok(records)
}

// The records after one decision.
fn decided(
    alloc: Global,
    opening: &Opening,
    entries: &[Entry],
    records: RidMap<Bytes>,
    decision: &Decision,
) -> Result<RidMap<Bytes>, AllocError>
    ensures { IfOk result (λ after. after ≡
        serial (writes_in (record { opening = opening.now; entries = entries.now })) records (decision.now ∷ [])) }
{
    match decision {
        Decision::Commit(txn) => {
            let writes = writes_of_txn(alloc, opening, entries, *txn)?;
            overlaid(alloc, &records, &writes)
        }
        Decision::Prepare(_, _) => Ok(records),
        Decision::RollBack(_) => Ok(records),
    }
}

/// The serial records, overlaid with the write sets of those in doubt.
pub fn shown_records(
    alloc: Global,
    opening: &Opening,
    entries: &[Entry],
    decisions: &[Decision],
) -> Result<RidMap<Bytes>, AllocError>
    ensures { IfOk result (λ records. records ≡
        shown (record { opening = opening.now; entries = entries.now }) decisions.now) }
{
    let mut records = serial_records(alloc, opening, entries, decisions)?;
    let doubts = in_doubt(alloc, opening, decisions)?;
    for doubt in doubts.as_slice() {
        let writes = writes_of_txn(alloc, opening, entries, doubt.0)?;
        records = overlaid(alloc, &records, &writes)?;
    }
    Ok(records)
}
