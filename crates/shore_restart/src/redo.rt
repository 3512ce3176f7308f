//! Redo: each record of the log that its page does not have is done on it again (ARIES: the redo pass, which repeats history).
ghost use Rattle.std.specs.Prelude.{◌≡◌, ◌↔◌, ◌≢◌, ◌++◌, ◌+◌, ◌-◌, ◌<◌, ◌≤◌, ◌∷◌, [], ℕ, List, IfErr, IfOk, IsTrue, OnOk, Some, length, min, slice_get};
ghost use Rattle.shore_disk.specs.Cause.{HasCause};
ghost use Rattle.shore_disk.specs.Device.{DeviceHistory, may_leave};
ghost use Rattle.shore_types.specs.Layout.{HasPage, HasSlot};
ghost use Rattle.shore_types.specs.declared.faults.Fault.{Fault};
ghost use Rattle.shore_types.specs.declared.faults.Fault.TheVariants as Fault;
ghost use Rattle.shore_types.specs.declared.ids.Rid.{Rid};
ghost use Rattle.shore_model.specs.declared.log_records.LogRecord.{LogRecord};
ghost use Rattle.shore_model.specs.declared.log_records.Payload.{Payload};
ghost use Rattle.shore_model.specs.Logs.{id_in, image_in};
ghost use Rattle.shore_heap.specs.Heaps.{faults_of, geometry_of};
ghost use Rattle.laws_lives.specs.DirtyPages.{redo_begins_behind, surely_on_page};
ghost use Rattle.laws_lives.specs.Recovery.{RecoveryState};
ghost use Rattle.shore_analysis.specs.KeptMeant.{AreMeantKept};
ghost use Rattle.shore_restart.specs.AnyPages.{AllFindRoom, AreOnPage, FindsNoRoom, IsFirstMisfit, IsOnPage, due_record, due_seen};
ghost use Rattle.shore_restart.specs.declared.errors.RestartError.{RestartError};
ghost use Rattle.shore_restart.specs.declared.errors.RestartError.TheVariants as RestartError;
ghost use Rattle.shore_restart.specs.Errors.{DoesNotFit, volume_answer};
ghost use Rattle.shore_gate.specs.declared.anchors.Anchor.{Anchor};
ghost use Rattle.shore_types.specs.declared.layout.TheConstants.{LAST_OPENED};
ghost use Rattle.laws_checkpoints.specs.Checkpoints.{TableIsRight};
ghost use Rattle.laws_images.specs.MomentsBehind.{GivesKeptPrefix};
ghost use Rattle.shore_restart.specs.Held.{IsHeld, WorksHeld};
ghost use Rattle.shore_restart.specs.Missing.{is_missing, missing_on};
ghost use Rattle.shore_restart.specs.Standing.{IsToRedo, Redoes, RedoesAll, SameVolume, Stands};

use crate::errors::RestartError;
use crate::pages::{fetch, put};
use shore_analysis::RedoTable;
use shore_disk::Disk;
use shore_heap::Heap;
use shore_logrec::{LogRecord, Payload};
use shore_types::images::bytes_in;
use shore_types::{Bytes, LogEnds, Lsn, PageId, Rid};
use std::alloc::Global;

/// Redoes the records that a log has behind the first `cut`, all of them durable, first to last: each that its page may lack by this table. Answers how many
/// were missing on their pages.
pub fn redo<V: Disk>(
    alloc: Global,
    heap: &mut Heap<V>,
    cut: u64,
    kept: &[LogRecord],
    table: &RedoTable,
) -> Result<u64, RestartError>
    requires few { cut < LAST_OPENED }
    requires meant { AreMeantKept (geometry_of heap.old) cut kept.now }
    ensures redone { (front : List ℕ) (disk : ℕ → List ℕ) (s : RecoveryState) → Stands front disk heap.old s → IsToRedo cut kept.now table.now s
        → (h : DeviceHistory) (log_front : List ℕ) (anchor : Anchor) → ((c : List ℕ) → may_leave h c → GivesKeptPrefix log_front anchor s c) → RedoesAll result h log_front front anchor heap.old heap.new s }
    ensures missing { (front : List ℕ) (disk : ℕ → List ℕ) (s : RecoveryState) → Stands front disk heap.old s → IsToRedo cut kept.now table.now s
        → IfOk result (λ redone. redone ≡ missing_on s.log s.in_place) }
    ensures bad { (front : List ℕ) (disk : ℕ → List ℕ) (s : RecoveryState) → Stands front disk heap.old s → IsToRedo cut kept.now table.now s
        → IfErr result (λ error. (n : ℕ) → error ≡ RestartError.BadRecord n → DoesNotFit (geometry_of heap.old).version s.log n) }
    ensures device { (front : List ℕ) (disk : ℕ → List ℕ) (s : RecoveryState) → Stands front disk heap.old s → IsToRedo cut kept.now table.now s
        → IfErr result (λ error. (f : Fault) → error ≡ RestartError.Page f → f ≡ Fault.Device) }
    ensures bad_number { IfErr result (λ error. (n : ℕ) → error ≡ RestartError.BadRecord n → (cut < n) × (n ≤ cut + length kept.now)) }
    ensures any_pages { (front : List ℕ) (first disk : ℕ → List ℕ) → IsHeld front first disk heap.old [] (cut + length kept.now)
        → WorksHeld result (AreOnPage (due_seen table.now cut kept.now)) front first disk heap.old heap.new (cut + length kept.now) (due_seen table.now cut kept.now) (cut + length kept.now) }
    ensures any_bad { (front : List ℕ) (first disk : ℕ → List ℕ) → IsHeld front first disk heap.old [] (cut + length kept.now)
        → IfErr result (λ error. (n : ℕ) → error ≡ RestartError.BadRecord n → IsFirstMisfit (geometry_of heap.old) first (due_seen table.now cut kept.now) n) }
    ensures any_fit { (front : List ℕ) (first disk : ℕ → List ℕ) → IsHeld front first disk heap.old [] (cut + length kept.now) → OnOk result (AllFindRoom (geometry_of heap.old) first (due_seen table.now cut kept.now)) }
    ensures others { IfErr result (λ error. (error ≢ RestartError.NoRoom) × ((f : Fault) → error ≢ RestartError.Log f) × (error ≢ RestartError.BadAnchor)) }
    ensures most { IfOk result (λ redone. redone ≤ length kept.now) }
    ensures volume { SameVolume heap.old heap.new }
    ensures cause { HasCause (volume_answer result) (faults_of heap.old) (faults_of heap.new) }
{
    let last = Lsn(cut + kept.len() as u64);
    let first = first_index(cut, kept, table);
    let mut redone = 0u64;
    for index in first..kept.len() {
        let number = Lsn(cut + index as u64 + 1);
        if redo_record(alloc, heap, table, &kept[index], number, last)? {
            redone += 1;
        }
    }
    Ok(redone)
}

// Where redo begins among these records.
fn first_index(cut: u64, kept: &[LogRecord], table: &RedoTable) -> usize
    ensures { result ≡ min (length kept.now) (redo_begins_behind table.now.begin table.now.dirty - cut) }
{
    let passed = table.begins_behind().0.saturating_sub(cut);
    (kept.len() as u64).min(passed) as usize
}

// Redoes a record on its page, if it has one that may lack it by the table and does not have it, and answers whether it did.
fn redo_record<V: Disk>(
    alloc: Global,
    heap: &mut Heap<V>,
    table: &RedoTable,
    logged: &LogRecord,
    number: Lsn,
    last: Lsn,
) -> Result<bool, RestartError>
    requires there { (id : Rid) → id_in logged.now.payload ≡ Some id → HasSlot (geometry_of heap.old) id }
    requires some { 0 < number }
    ensures redone { (front : List ℕ) (disk : ℕ → List ℕ) (s : RecoveryState) → Stands front disk heap.old s → slice_get s.log s.redone ≡ Some logged.now
        → number ≡ s.redone + 1 → last ≡ length s.log → s.durable ≡ length s.log
        → TableIsRight s.log table.now.begin table.now.dirty s.in_place → Redoes result front heap.old heap.new s }
    ensures missing { (front : List ℕ) (disk : ℕ → List ℕ) (s : RecoveryState) → Stands front disk heap.old s → slice_get s.log s.redone ≡ Some logged.now
        → number ≡ s.redone + 1 → last ≡ length s.log → s.durable ≡ length s.log
        → TableIsRight s.log table.now.begin table.now.dirty s.in_place → IfOk result (λ did. did ≡ is_missing s.in_place number (image_in logged.now.payload)) }
    ensures bad { (front : List ℕ) (disk : ℕ → List ℕ) (s : RecoveryState) → Stands front disk heap.old s → slice_get s.log s.redone ≡ Some logged.now
        → number ≡ s.redone + 1 → last ≡ length s.log → s.durable ≡ length s.log → IfErr result (λ error. (n : ℕ) → error ≡ RestartError.BadRecord n → DoesNotFit (geometry_of heap.old).version s.log n) }
    ensures device { (front : List ℕ) (disk : ℕ → List ℕ) (s : RecoveryState) → Stands front disk heap.old s → last ≡ length s.log → s.durable ≡ length s.log
        → IfErr result (λ error. (f : Fault) → error ≡ RestartError.Page f → f ≡ Fault.Device) }
    ensures bad_number { IfErr result (λ error. (n : ℕ) → error ≡ RestartError.BadRecord n → n ≡ number) }
    ensures any_pages { (front : List ℕ) (first disk : ℕ → List ℕ) (done : List LogRecord) → IsHeld front first disk heap.old done last → number ≡ length done + 1 → number ≤ last
        → WorksHeld result (IsOnPage (due_record table.now number logged.now)) front first disk heap.old heap.new last (done ++ due_record table.now number logged.now ∷ []) last }
    ensures any_bad { (front : List ℕ) (first disk : ℕ → List ℕ) (done : List LogRecord) → IsHeld front first disk heap.old done last
        → IfErr result (λ error. (n : ℕ) → error ≡ RestartError.BadRecord n → FindsNoRoom (geometry_of heap.old) first done n (due_record table.now number logged.now).payload) }
    ensures any_fit { (front : List ℕ) (first disk : ℕ → List ℕ) (done : List LogRecord) → IsHeld front first disk heap.old done last
        → OnOk result (FindsNoRoom (geometry_of heap.old) first done number (due_record table.now number logged.now).payload → ⊥) }
    ensures others { IfErr result (λ error. (error ≢ RestartError.NoRoom) × ((f : Fault) → error ≢ RestartError.Log f) × (error ≢ RestartError.BadAnchor)) }
    ensures volume { SameVolume heap.old heap.new }
    ensures cause { HasCause (volume_answer result) (faults_of heap.old) (faults_of heap.new) }
{
    match &logged.payload {
        Payload::Change { id, after, .. } | Payload::Compensation { id, after, .. } => {
            if is_passed_over(table, id, number) {
                return Ok(false);
            }
            redo_image(alloc, heap, *id, after, number, last)
        }
        Payload::Commit
        | Payload::End
        | Payload::Prepare { .. }
        | Payload::RollbackDecided
        | Payload::CheckpointBegin
        | Payload::CheckpointEnd { .. }
        | Payload::Anchor { .. } => Ok(false),
    }
}

// Whether the page of this id has the record of this number by the table.
fn is_passed_over(table: &RedoTable, id: &Rid, number: Lsn) -> bool
    requires { 0 < number }
    ensures { IsTrue result ↔ (number ≤ surely_on_page table.now.begin table.now.dirty id.now.page) }
{
    number.0 < table.begin.0 && number.0 <= table.surely_on(id.page).0
}

// Redoes a record with an image, if its page does not have it.
fn redo_image<V: Disk>(
    alloc: Global,
    heap: &mut Heap<V>,
    id: Rid,
    image: &Option<Bytes>,
    number: Lsn,
    last: Lsn,
) -> Result<bool, RestartError>
    requires { HasPage (geometry_of heap.old) id.page }
    ensures redone { (front : List ℕ) (disk : ℕ → List ℕ) (s : RecoveryState) (r : LogRecord) → Stands front disk heap.old s → slice_get s.log s.redone ≡ Some r
        → image_in r.payload ≡ Some (id, image.now) → number ≡ s.redone + 1 → last ≡ length s.log → s.durable ≡ length s.log → Redoes result front heap.old heap.new s }
    ensures missing { (front : List ℕ) (disk : ℕ → List ℕ) (s : RecoveryState) → Stands front disk heap.old s → last ≡ length s.log → s.durable ≡ length s.log
        → IfOk result (λ did. did ≡ is_missing s.in_place number (Some (id, image.now))) }
    ensures bad { (front : List ℕ) (disk : ℕ → List ℕ) (s : RecoveryState) (r : LogRecord) → Stands front disk heap.old s → slice_get s.log s.redone ≡ Some r
        → image_in r.payload ≡ Some (id, image.now) → number ≡ s.redone + 1 → last ≡ length s.log → s.durable ≡ length s.log
        → IfErr result (λ error. (n : ℕ) → error ≡ RestartError.BadRecord n → DoesNotFit (geometry_of heap.old).version s.log n) }
    ensures device { (front : List ℕ) (disk : ℕ → List ℕ) (s : RecoveryState) → Stands front disk heap.old s → last ≡ length s.log → s.durable ≡ length s.log
        → IfErr result (λ error. (f : Fault) → error ≡ RestartError.Page f → f ≡ Fault.Device) }
    ensures bad_number { IfErr result (λ error. (n : ℕ) → error ≡ RestartError.BadRecord n → n ≡ number) }
    ensures any_pages { (front : List ℕ) (first disk : ℕ → List ℕ) (done : List LogRecord) (r : LogRecord) → IsHeld front first disk heap.old done last
        → image_in r.payload ≡ Some (id, image.now) → number ≡ length done + 1 → number ≤ last → WorksHeld result (IsOnPage r) front first disk heap.old heap.new last (done ++ r ∷ []) last }
    ensures any_bad { (front : List ℕ) (first disk : ℕ → List ℕ) (done : List LogRecord) (payload : Payload) → IsHeld front first disk heap.old done last
        → image_in payload ≡ Some (id, image.now) → IfErr result (λ error. (n : ℕ) → error ≡ RestartError.BadRecord n → FindsNoRoom (geometry_of heap.old) first done n payload) }
    ensures any_fit { (front : List ℕ) (first disk : ℕ → List ℕ) (done : List LogRecord) (payload : Payload) → IsHeld front first disk heap.old done last
        → image_in payload ≡ Some (id, image.now) → OnOk result (FindsNoRoom (geometry_of heap.old) first done number payload → ⊥) }
    ensures others { IfErr result (λ error. (error ≢ RestartError.NoRoom) × ((f : Fault) → error ≢ RestartError.Log f) × (error ≢ RestartError.BadAnchor)) }
    ensures volume { SameVolume heap.old heap.new }
    ensures cause { HasCause (volume_answer result) (faults_of heap.old) (faults_of heap.new) }
{
    let Rid { page, slot } = id;
    let PageId { store, page } = page;
    let ends = LogEnds {
        last,
        durable: last,
    };
    fetch(alloc, heap, PageId { store, page }, &ends)?;
    let found = heap.number(PageId { store, page });
    if found.0 >= number.0 {
        return Ok(false);
    }
    let there = Rid {
        page: PageId { store, page },
        slot,
    };
    if !heap.fits(there, bytes_in(image)) {
        return Err(RestartError::BadRecord(number));
    }
    let there = Rid {
        page: PageId { store, page },
        slot,
    };
    put(heap, there, number, image);
    Ok(true)
}
