//! What a restart gives back to those in doubt: their locks, their undo lists, and the room for both of their endings.
ghost use Rattle.std.specs.Prelude.{◌≡◌, ◌≢◌, ◌⊎◌, ◌↔◌, ◌+◌, ◌<◌, ◌≤◌, ◌++◌, ◌∷◌, [], ℕ, List, All, Any, IfErr, IfNone, IfOk, IfSome, IsTrue, OnOk, Some, false, length, map, max, unwrap_or};
ghost use Rattle.std.specs.BTreeMap.{get};
ghost use Rattle.shore_types.specs.Ids.{rid_cmp};
ghost use Rattle.shore_types.specs.Images.{Image};
ghost use Rattle.shore_types.specs.declared.faults.Fault.{Fault};
ghost use Rattle.shore_types.specs.declared.ids.Rid.{Rid};
ghost use Rattle.shore_types.specs.declared.layout.Geometry.{Geometry};
ghost use Rattle.shore_types.specs.declared.layout.TheConstants.{LONGEST_FRAME};
ghost use Rattle.shore_types.specs.declared.locking.Granule.{Granule};
ghost use Rattle.shore_model.specs.declared.log_records.LogRecord.{LogRecord};
ghost use Rattle.shore_model.specs.Logs.{HasNumbers, is_in_doubt, is_over, unanswered, undo_next_of};
ghost use Rattle.shore_model.specs.Requests.{held_by_all};
ghost use Rattle.shore_logrec.specs.Text.{Fits};
ghost use Rattle.shore_types.specs.declared.locking.Mode.TheVariants.{EX};
ghost use Rattle.shore_model.specs.Locks.{path};
ghost use Rattle.shore_locks.specs.Orderly.{IsOrderly};
ghost use Rattle.shore_path.specs.Restoring.{KeepsOthers, NobodyWaits, StopsAmong, TakesWhole};
ghost use Rattle.shore_path.specs.Walks.{asked_of};
ghost use Rattle.shore_analysis.specs.KeptMeant.{AreMeantKept, IsWholeIn};
ghost use Rattle.shore_analysis.specs.Padded.{padded};
ghost use Rattle.laws_lives.specs.Doubts.{LoggedDoubt, undo_in};
ghost use Rattle.laws_lives.specs.Views.{IsAmong};
ghost use Rattle.laws_room.specs.LogRooms.{compensation_costs};
ghost use Rattle.shore_txn.specs.ActiveTxns.{OneBecomes};
ghost use Rattle.shore_txn.specs.Transactions.{AtSeat, IsSeatIn, next_in, room_in, txns_in};
ghost use Rattle.shore_txn.specs.Txns.{entries_of, number_of};
ghost use Rattle.shore_txn.specs.declared.txn.Txn.{Txn};
ghost use Rattle.shore_restart.specs.declared.errors.RestartError.TheVariants as RestartError;
ghost use Rattle.shore_analysis.specs.Doubts.{doubts_left};
ghost use Rattle.shore_restart.specs.Doubts.{AreEntriesOfDoubts, AreLocksOf, CanHold, CannotHold, HasNoPlace, IsChangeAt, name_at, owed_in, reserved_told};
ghost use Rattle.shore_restart.specs.GivenBack.{HasChangesBack, HasDoubts, HasLocksBack, IsGivenBack};
ghost use Rattle.shore_restart.specs.Room.{HasSums};

use crate::errors::RestartError;
use shore_analysis::{prepare_behind, record_behind, to_be_undone_behind};
use shore_locks::LockTable;
use shore_logrec::{LogRecord, Payload, compensation_cost};
use shore_model::LogTxn;
use shore_path::restore;
use shore_txn::laws::transactions_are_apart;
use shore_txn::{LogRoom, Seat, Transactions, UndoEntry};
use shore_types::images::{bytes_in, copy_of, len_of};
use shore_types::layout::ENDING_COST;
use shore_types::{Bytes, Geometry, GlobalId, Granule, Lsn, Rid, TxnId};
use std::alloc::Global;
use std::collections::BTreeMap;

/// A lock table in which those in doubt, which are in the order of their Prepares, hold what these list, and no more than they need above it. Refused at the
/// later Prepare if two of them have one name, or cannot both hold what is theirs, or if there are too many nodes.
pub fn locks_of(
    alloc: Global,
    geometry: &Geometry,
    cut: u64,
    kept: &[LogRecord],
    doubts: &[LogTxn],
) -> Result<LockTable, RestartError>
    requires meant { AreMeantKept geometry.now cut kept.now }
    requires doubts { AreEntriesOfDoubts (padded cut kept.now) doubts.now }
    ensures back { IfOk result (HasLocksBack geometry.now.max_locks (padded cut kept.now)) }
    ensures hold { OnOk result (CanHold geometry.now.max_locks (doubts_left (padded cut kept.now))) }
    ensures refused { IfErr result (λ error. (error ≡ RestartError.Memory) ⊎ ((n : ℕ) × (error ≡ RestartError.BadRecord n) × CannotHold geometry.now.max_locks (padded cut kept.now) n)) }
{
    let mut locks = LockTable::new(alloc, geometry.max_locks as usize)?;
    for index in 0..doubts.len() {
        let entry = &doubts[index];
        let Some((global, granules)) = prepare_behind(cut, kept, entry.prepare) else {
            return Err(RestartError::BadRecord(entry.prepare));
        };
        is_orderly(&locks);
        if is_used(cut, kept, &doubts[..index], global) {
            return Err(RestartError::BadRecord(entry.prepare));
        }
        restore_locks(&mut locks, entry, granules)?;
    }
    is_orderly(&locks);
    Ok(locks)
}

// For the proof: the requests of any table are orderly, and no more than it may have. Nothing runs.
fn is_orderly(locks: &LockTable)
    ensures orderly { IsOrderly locks.now.requests }
    ensures within { length locks.now.requests ≤ locks.now.limit }
{
    let _nodes = locks.nodes();
}

// Whether one of these has the name, by its Prepare.
fn is_used(cut: u64, kept: &[LogRecord], doubts: &[LogTxn], global: &GlobalId) -> bool
    ensures { IsTrue result ↔ Any (λ e. name_at (padded cut kept.now) e.prepare ≡ Some global.now) doubts.now }
{
    doubts
        .iter()
        .any(|entry| has_name(cut, kept, entry.prepare, global))
}

// Whether the Prepare of this number gives the name.
fn has_name(cut: u64, kept: &[LogRecord], number: Lsn, global: &GlobalId) -> bool
    ensures { IsTrue result ↔ (name_at (padded cut kept.now) number ≡ Some global.now) }
{
    match prepare_behind(cut, kept, number) {
        Some((name, _)) => is_same(name, global),
        None => false,
    }
}

fn is_same(one: &GlobalId, other: &GlobalId) -> bool
    ensures { IsTrue result ↔ (one.now ≡ other.now) }
{
    *one == *other
}

// Gives one in doubt the locks on these granules, behind those of the ones before it.
fn restore_locks(
    locks: &mut LockTable,
    entry: &LogTxn,
    granules: &[Granule],
) -> Result<(), RestartError>
    requires { NobodyWaits locks.old.requests }
    ensures taken { (before : List LoggedDoubt) (d : LoggedDoubt) → AreLocksOf before (held_by_all locks.old.requests) → (IsAmong d.txn (map (λ e. e.txn) before) → ⊥)
        → d.txn ≡ entry.now.txn → d.granules ≡ granules.now → OnOk result (AreLocksOf (before ++ d ∷ []) (held_by_all locks.new.requests)) }
    ensures refused { (before : List LoggedDoubt) (d : LoggedDoubt) → AreLocksOf before (held_by_all locks.old.requests) → (IsAmong d.txn (map (λ e. e.txn) before) → ⊥)
        → d.txn ≡ entry.now.txn → d.granules ≡ granules.now → IfErr result (λ error. (error ≡ RestartError.BadRecord entry.now.prepare) × HasNoPlace locks.old.limit before d) }
    ensures keeps { KeepsOthers locks.old locks.new entry.now.txn }
{
    for granule in granules {
        restore_one(locks, entry, granule)?;
    }
    Ok(())
}

// The lock on one of them.
fn restore_one(locks: &mut LockTable, entry: &LogTxn, granule: &Granule) -> Result<(), RestartError>
    requires { NobodyWaits locks.old.requests }
    ensures ok { OnOk result (TakesWhole locks.old.requests locks.new.requests entry.now.txn granule.now) }
    ensures err { IfErr result (λ error. (error ≡ RestartError.BadRecord entry.now.prepare) × ((fault : Fault) × StopsAmong locks.old locks.new entry.now.txn (path granule.now) (asked_of granule.now EX) fault)) }
    ensures keeps { KeepsOthers locks.old locks.new entry.now.txn }
    ensures was { IsOrderly locks.old.requests }
    ensures is { IsOrderly locks.new.requests }
{
    is_orderly(locks);
    let done = restore(locks, entry.txn, granule);
    is_orderly(locks);
    match done {
        Ok(()) => Ok(()),
        Err(_) => Err(RestartError::BadRecord(entry.prepare)),
    }
}

/// A table of those in doubt, with their undo lists and what they have reserved, that of the first Prepare the newest. Refused if the log has no room for that.
pub fn txns_of(
    alloc: Global,
    room: LogRoom,
    next: TxnId,
    cut: u64,
    kept: &[LogRecord],
    doubts: &[LogTxn],
) -> Result<Transactions, RestartError>
    requires meant { (g : Geometry) × AreMeantKept g cut kept.now }
    requires fit { All Fits kept.now }
    requires doubts { AreEntriesOfDoubts (padded cut kept.now) doubts.now }
    requires some { 1 ≤ next }
    requires next { All (λ r. r.txn < next) kept.now }
    requires unreserved { room.reserved ≡ 0 }
    requires frame { room.kept + LONGEST_FRAME ≤ room.stream_bytes }
    ensures back { IfOk result (HasDoubts (padded cut kept.now)) }
    ensures next { IfOk result (λ txns. next_in txns ≡ next) }
    ensures room { IfOk result (λ txns. HasSums room.stream_bytes room.kept (reserved_told (padded cut kept.now)) (room_in txns)) }
    ensures holds { OnOk result (room.kept + reserved_told (padded cut kept.now) + LONGEST_FRAME ≤ room.stream_bytes) }
    ensures refused { IfErr result (λ error. (error ≡ RestartError.Memory) ⊎ ((error ≡ RestartError.NoRoom) × (room.stream_bytes < room.kept + reserved_told (padded cut kept.now) + LONGEST_FRAME))) }
{
    let mut txns = Transactions::new(alloc, room, next.0);
    // The newest of the table is that of the first Prepare: so the sessions have those in doubt in the order of their Prepares.
    let mut index = doubts.len();
    while index > 0 {
        index -= 1;
        restore_txn(alloc, &mut txns, cut, kept, &doubts[index])?;
    }
    Ok(txns)
}

// One of them more.
fn restore_txn(
    alloc: Global,
    txns: &mut Transactions,
    cut: u64,
    kept: &[LogRecord],
    entry: &LogTxn,
) -> Result<(), RestartError>
    requires meant { (g : Geometry) × AreMeantKept g cut kept.now }
    requires fit { All Fits kept.now }
    requires doubt { IsTrue (is_in_doubt entry.now.txn (padded cut kept.now)) }
    requires runs { is_over entry.now.txn (padded cut kept.now) ≡ false }
    requires numbers { HasNumbers (padded cut kept.now) entry.now }
    requires below { entry.now.txn < next_in txns.old }
    requires new { (t : Txn) → IsAmong t (txns_in txns.old) → number_of t ≢ entry.now.txn }
    ensures back { OnOk result ((d : LoggedDoubt) × (t : Txn) × IsAmong d (doubts_left (padded cut kept.now)) × (d.txn ≡ entry.now.txn) × IsGivenBack (padded cut kept.now) d t
        × (txns_in txns.new ≡ t ∷ txns_in txns.old)) }
    ensures next { next_in txns.new ≡ next_in txns.old }
    ensures room { OnOk result (HasSums (room_in txns.old).stream_bytes (room_in txns.old).kept ((room_in txns.old).reserved + owed_in (padded cut kept.now) entry.now.txn) (room_in txns.new)) }
    ensures holds { OnOk result ((room_in txns.new).kept + (room_in txns.new).reserved + LONGEST_FRAME ≤ (room_in txns.new).stream_bytes) }
    ensures refused { IfErr result (λ error. (error ≡ RestartError.Memory) ⊎ ((error ≡ RestartError.NoRoom)
        × ((room_in txns.old).stream_bytes < (room_in txns.old).kept + ((room_in txns.old).reserved + owed_in (padded cut kept.now) entry.now.txn) + LONGEST_FRAME))) }
{
    let Some((global, _)) = prepare_behind(cut, kept, entry.prepare) else {
        return Err(RestartError::BadRecord(entry.prepare));
    };
    if !txns.holds(ENDING_COST) {
        return Err(RestartError::NoRoom);
    }
    let seat = txns.restore(alloc, entry.txn, entry.first)?;
    restore_changes(alloc, txns, &seat, cut, kept, entry.undo_next)?;
    if !txns.holds(ENDING_COST) {
        return Err(RestartError::NoRoom);
    }
    txns.restore_prepare(&seat, global.try_clone(alloc)?, entry.prepare);
    Ok(())
}

// The undo list, the oldest first. A change's claim goes on with the greatest image that came before it in its slot.
fn restore_changes(
    alloc: Global,
    txns: &mut Transactions,
    seat: &Seat,
    cut: u64,
    kept: &[LogRecord],
    newest: Lsn,
) -> Result<(), RestartError>
    requires seated { IsSeatIn seat.now txns.old }
    requires some { 0 < seat.now.txn }
    requires meant { (g : Geometry) × AreMeantKept g cut kept.now }
    requires whole { IsWholeIn cut kept.now seat.now.txn }
    requires fit { All Fits kept.now }
    requires none { AtSeat seat.now txns.old (λ t. entries_of t ≡ []) }
    requires newest { newest ≡ undo_next_of (unanswered seat.now.txn (padded cut kept.now)) }
    requires frame { (room_in txns.old).kept + (room_in txns.old).reserved + LONGEST_FRAME ≤ (room_in txns.old).stream_bytes }
    ensures back { OnOk result (OneBecomes seat.now.txn (HasChangesBack (padded cut kept.now)) (txns_in txns.old) (txns_in txns.new)) }
    ensures next { next_in txns.new ≡ next_in txns.old }
    ensures room { OnOk result (HasSums (room_in txns.old).stream_bytes (room_in txns.old).kept ((room_in txns.old).reserved + compensation_costs (undo_in (padded cut kept.now) seat.now.txn).images) (room_in txns.new)) }
    ensures holds { OnOk result ((room_in txns.new).kept + (room_in txns.new).reserved + LONGEST_FRAME ≤ (room_in txns.new).stream_bytes) }
    ensures refused { IfErr result (λ error. (error ≡ RestartError.Memory) ⊎ ((error ≡ RestartError.NoRoom)
        × ((room_in txns.old).stream_bytes < (room_in txns.old).kept + ((room_in txns.old).reserved + compensation_costs (undo_in (padded cut kept.now) seat.now.txn).images) + LONGEST_FRAME))) }
{
    let mut claims = BTreeMap::new(alloc);
    for number in &to_be_undone_behind(alloc, cut, kept, newest)? {
        let Some((id, before)) = change_at(cut, kept, *number) else {
            return Err(RestartError::BadRecord(*number));
        };
        let undo = compensation_cost(len_of(before));
        if !txns.holds(undo) {
            return Err(RestartError::NoRoom);
        }
        let entry = UndoEntry {
            id,
            lsn: *number,
            before: copy_of(alloc, before)?,
            claim: claim_after(&claims, &id, bytes_in(before)) as u16,
        };
        claims.insert(id, usize::from(entry.claim))?;
        // For the proof: no number is that of two transactions. Nothing runs.
        transactions_are_apart(txns);
        txns.restore_change(alloc, seat, entry, undo)?;
    }
    Ok(())
}

// What a slot claims that has so many bytes, beside what may come back to it.
fn claim_after(claims: &BTreeMap<Rid, usize>, id: &Rid, bytes: usize) -> usize
    ensures { result ≡ max bytes (unwrap_or (get rid_cmp claims.now id.now) 0) }
{
    match claims.get(id) {
        Some(claim) => bytes.max(*claim),
        None => bytes,
    }
}

// The id that the Change of this number is of, and the image before it.
fn change_at(cut: u64, kept: &[LogRecord], number: Lsn) -> Option<(Rid, &Option<Bytes>)>
    ensures some { IfSome result (λ change. IsChangeAt (padded cut kept.now) number change.0 change.1.now) }
    ensures none { IfNone result ((id : Rid) (before : Image) → IsChangeAt (padded cut kept.now) number id before → ⊥) }
{
    match &record_behind(cut, kept, number)?.payload {
        Payload::Change { id, before, .. } => Some((*id, before)),
        Payload::Compensation { .. }
        | Payload::Commit
        | Payload::End
        | Payload::Prepare { .. }
        | Payload::RollbackDecided
        | Payload::CheckpointBegin
        | Payload::CheckpointEnd { .. }
        | Payload::Anchor { .. } => None,
    }
}
