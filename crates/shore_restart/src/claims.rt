//! What pages keep for the rollbacks of those in doubt.
ghost use Rattle.std.specs.Prelude.{◌≡◌, ◌≢◌, ◌≤◌, ◌++◌, ◌∷◌, ℕ, List, IfErr, IsTrue, OnOk, is_some, length, map};
ghost use Rattle.shore_disk.specs.Cause.{HasCause};
ghost use Rattle.shore_types.specs.Images.{image_len};
ghost use Rattle.shore_types.specs.Layout.{HasPage};
ghost use Rattle.shore_types.specs.declared.faults.Fault.{Fault};
ghost use Rattle.shore_types.specs.declared.faults.Fault.TheVariants as Fault;
ghost use Rattle.shore_types.specs.declared.ids.PageId.{PageId};
ghost use Rattle.shore_model.specs.declared.log_records.LogRecord.{LogRecord};
ghost use Rattle.shore_page.specs.Slots.{Slot};
ghost use Rattle.shore_heap.specs.Contents.{CanKeep, claimed_by};
ghost use Rattle.shore_heap.specs.Heaps.{faults_of, frame_of, geometry_of};
ghost use Rattle.laws_lives.specs.Recovery.{RecoveryState};
ghost use Rattle.laws_lives.specs.Views.{IsAmong};
ghost use Rattle.shore_txn.specs.ActiveTxns.{all_changes};
ghost use Rattle.shore_txn.specs.Transactions.{kept_in, txns_in};
ghost use Rattle.shore_txn.specs.UndoEntries.{claims_on};
ghost use Rattle.shore_txn.specs.declared.undo.UndoEntry.{UndoEntry};
ghost use Rattle.shore_restart.specs.declared.errors.RestartError.TheVariants as RestartError;
ghost use Rattle.shore_restart.specs.Errors.{volume_answer};
ghost use Rattle.shore_restart.specs.GivenBack.{AreOfPage, CanKeepOn, CannotKeep, CannotKeepOn, Keeps, StandsSoFar, StandsWith};
ghost use Rattle.shore_restart.specs.Held.{IsHeld, IsHeldSoFar, IsPageFault, KeepsHeld};
ghost use Rattle.shore_restart.specs.Standing.{SameVolume, Stands};

use crate::errors::{RestartError, page_error};
use shore_disk::Disk;
use shore_heap::Heap;
use shore_txn::{Transactions, UndoEntry};
use shore_types::{LogEnds, Lsn, PageId};
use std::alloc::Global;

/// The pages keep what those in doubt may put back, over a log that ends at this number and is durable: in frames now, and others as they are read. Changes are
/// taken newest first, as rollbacks take them. Refused at the first whose image before finds no room beside those.
pub fn keep_claims<V: Disk>(
    alloc: Global,
    heap: &mut Heap<V>,
    txns: &Transactions,
    last: Lsn,
) -> Result<(), RestartError>
    requires there { (e : UndoEntry) → IsAmong e (all_changes (txns_in txns.now)) → HasPage (geometry_of heap.old) e.id.page }
    ensures keeps { (front : List ℕ) (disk : ℕ → List ℕ) (s : RecoveryState) → Stands front disk heap.old s → last ≤ s.durable
        → Keeps result front heap.old heap.new s (λ left later. StandsWith (kept_in txns.now) front left heap.new later) }
    ensures bad { (front : List ℕ) (disk : ℕ → List ℕ) (s : RecoveryState) (stands : Stands front disk heap.old s) → last ≤ s.durable
        → IfErr result (λ error. (n : ℕ) → error ≡ RestartError.BadRecord n → CannotKeep (geometry_of heap.old).version txns.now stands.slots n) }
    ensures device { (front : List ℕ) (disk : ℕ → List ℕ) (s : RecoveryState) → Stands front disk heap.old s → length s.log ≤ last → last ≤ s.durable
        → IfErr result (λ error. (f : Fault) → error ≡ RestartError.Page f → f ≡ Fault.Device) }
    ensures bad_number { IfErr result (λ error. (n : ℕ) → error ≡ RestartError.BadRecord n → IsAmong n (map (λ e. e.lsn) (all_changes (txns_in txns.now)))) }
    ensures any_pages { (front : List ℕ) (first disk : ℕ → List ℕ) (done : List LogRecord) → IsHeld front first disk heap.old done last
        → IfErr result (λ error. (f : Fault) → error ≡ RestartError.Page f → IsPageFault (geometry_of heap.old) (AreOfPage (all_changes (txns_in txns.now))) disk last f) }
    ensures any_bad { (front : List ℕ) (first disk : ℕ → List ℕ) (done : List LogRecord) → IsHeld front first disk heap.old done last
        → IfErr result (λ error. (n : ℕ) → error ≡ RestartError.BadRecord n → CannotKeepOn (geometry_of heap.old) txns.now first done n) }
    ensures any_fit { (front : List ℕ) (first disk : ℕ → List ℕ) (done : List LogRecord) → IsHeld front first disk heap.old done last
        → OnOk result (CanKeepOn (geometry_of heap.old) txns.now first done) }
    ensures others { IfErr result (λ error. (error ≢ RestartError.NoRoom) × ((f : Fault) → error ≢ RestartError.Log f) × (error ≢ RestartError.BadAnchor)) }
    ensures volume { SameVolume heap.old heap.new }
    ensures cause { HasCause (volume_answer result) (faults_of heap.old) (faults_of heap.new) }
{
    let mut index = txns.count();
    while index > 0 {
        index -= 1;
        keep_changes(alloc, heap, txns, txns.changes(index), last)?;
    }
    Ok(())
}

// What one of them may put back, beside what is kept for those that are newer in the table.
fn keep_changes<V: Disk>(
    alloc: Global,
    heap: &mut Heap<V>,
    txns: &Transactions,
    changes: &[UndoEntry],
    last: Lsn,
) -> Result<(), RestartError>
    requires there { (e : UndoEntry) → IsAmong e changes.now → HasPage (geometry_of heap.old) e.id.page }
    ensures keeps { (older newer : List UndoEntry) (slots : PageId → List Slot) (front : List ℕ) (disk : ℕ → List ℕ) (s : RecoveryState)
        → all_changes (txns_in txns.now) ≡ older ++ (changes.now ++ newer) → StandsSoFar (kept_in txns.now) (λ p. claims_on p newer) slots front disk heap.old s → last ≤ s.durable
        → Keeps result front heap.old heap.new s (λ left later. StandsSoFar (kept_in txns.now) (λ p. claims_on p (changes.now ++ newer)) slots front left heap.new later) }
    ensures bad { (older newer : List UndoEntry) (slots : PageId → List Slot) (front : List ℕ) (disk : ℕ → List ℕ) (s : RecoveryState)
        → all_changes (txns_in txns.now) ≡ older ++ (changes.now ++ newer) → ((e : UndoEntry) → IsAmong e newer → HasPage (geometry_of heap.old) e.id.page) → StandsSoFar (kept_in txns.now) (λ p. claims_on p newer) slots front disk heap.old s → last ≤ s.durable
        → IfErr result (λ error. (n : ℕ) → error ≡ RestartError.BadRecord n → CannotKeep (geometry_of heap.old).version txns.now slots n) }
    ensures device { (older newer : List UndoEntry) (slots : PageId → List Slot) (front : List ℕ) (disk : ℕ → List ℕ) (s : RecoveryState)
        → all_changes (txns_in txns.now) ≡ older ++ (changes.now ++ newer) → StandsSoFar (kept_in txns.now) (λ p. claims_on p newer) slots front disk heap.old s → length s.log ≤ last → last ≤ s.durable
        → IfErr result (λ error. (f : Fault) → error ≡ RestartError.Page f → f ≡ Fault.Device) }
    ensures bad_number { IfErr result (λ error. (n : ℕ) → error ≡ RestartError.BadRecord n → IsAmong n (map (λ e. e.lsn) changes.now)) }
    ensures any_pages { (older newer : List UndoEntry) (front : List ℕ) (first disk : ℕ → List ℕ) (done : List LogRecord) → all_changes (txns_in txns.now) ≡ older ++ (changes.now ++ newer)
        → IsHeldSoFar (kept_in txns.now) (λ p. claims_on p newer) front first disk heap.old done last
        → KeepsHeld result (AreOfPage changes.now) (kept_in txns.now) (λ p. claims_on p (changes.now ++ newer)) front first disk heap.old heap.new done last }
    ensures any_bad { (older newer : List UndoEntry) (front : List ℕ) (first disk : ℕ → List ℕ) (done : List LogRecord) → all_changes (txns_in txns.now) ≡ older ++ (changes.now ++ newer)
        → IsHeldSoFar (kept_in txns.now) (λ p. claims_on p newer) front first disk heap.old done last
        → IfErr result (λ error. (n : ℕ) → error ≡ RestartError.BadRecord n → CannotKeepOn (geometry_of heap.old) txns.now first done n) }
    ensures others { IfErr result (λ error. (error ≢ RestartError.NoRoom) × ((f : Fault) → error ≢ RestartError.Log f) × (error ≢ RestartError.BadAnchor)) }
    ensures volume { SameVolume heap.old heap.new }
    ensures cause { HasCause (volume_answer result) (faults_of heap.old) (faults_of heap.new) }
{
    let mut index = changes.len();
    while index > 0 {
        index -= 1;
        keep_claim(alloc, heap, txns, &changes[index], last)?;
    }
    Ok(())
}

// What one change may put back, beside what is kept for the newer ones.
fn keep_claim<V: Disk>(
    alloc: Global,
    heap: &mut Heap<V>,
    txns: &Transactions,
    entry: &UndoEntry,
    last: Lsn,
) -> Result<(), RestartError>
    requires there { HasPage (geometry_of heap.old) entry.now.id.page }
    ensures keeps { (older newer : List UndoEntry) (slots : PageId → List Slot) (front : List ℕ) (disk : ℕ → List ℕ) (s : RecoveryState)
        → all_changes (txns_in txns.now) ≡ older ++ entry.now ∷ newer → StandsSoFar (kept_in txns.now) (λ p. claims_on p newer) slots front disk heap.old s → last ≤ s.durable
        → Keeps result front heap.old heap.new s (λ left later. StandsSoFar (kept_in txns.now) (λ p. claims_on p (entry.now ∷ newer)) slots front left heap.new later) }
    ensures bad { (older newer : List UndoEntry) (slots : PageId → List Slot) (front : List ℕ) (disk : ℕ → List ℕ) (s : RecoveryState)
        → all_changes (txns_in txns.now) ≡ older ++ entry.now ∷ newer → StandsSoFar (kept_in txns.now) (λ p. claims_on p newer) slots front disk heap.old s → last ≤ s.durable
        → IfErr result (λ error. (n : ℕ) → error ≡ RestartError.BadRecord n
        → CanKeep (geometry_of heap.old).version (claimed_by (claims_on entry.now.id.page newer) (slots entry.now.id.page)) entry.now.id.slot (image_len entry.now.before) → ⊥) }
    ensures device { (so_far : PageId → List (ℕ × ℕ)) (slots : PageId → List Slot) (front : List ℕ) (disk : ℕ → List ℕ) (s : RecoveryState)
        → StandsSoFar (kept_in txns.now) so_far slots front disk heap.old s → length s.log ≤ last → last ≤ s.durable
        → IfErr result (λ error. (f : Fault) → error ≡ RestartError.Page f → f ≡ Fault.Device) }
    ensures bad_number { IfErr result (λ error. (n : ℕ) → error ≡ RestartError.BadRecord n → n ≡ entry.now.lsn) }
    ensures any_pages { (older newer : List UndoEntry) (front : List ℕ) (first disk : ℕ → List ℕ) (done : List LogRecord) → all_changes (txns_in txns.now) ≡ older ++ entry.now ∷ newer
        → IsHeldSoFar (kept_in txns.now) (λ p. claims_on p newer) front first disk heap.old done last
        → KeepsHeld result (λ p. p ≡ entry.now.id.page) (kept_in txns.now) (λ p. claims_on p (entry.now ∷ newer)) front first disk heap.old heap.new done last }
    ensures any_bad { (older newer : List UndoEntry) (front : List ℕ) (first disk : ℕ → List ℕ) (done : List LogRecord) → all_changes (txns_in txns.now) ≡ older ++ entry.now ∷ newer
        → IsHeldSoFar (kept_in txns.now) (λ p. claims_on p newer) front first disk heap.old done last
        → IfErr result (λ error. (n : ℕ) → error ≡ RestartError.BadRecord n → CannotKeepOn (geometry_of heap.old) txns.now first done n) }
    ensures others { IfErr result (λ error. (error ≢ RestartError.NoRoom) × ((f : Fault) → error ≢ RestartError.Log f) × (error ≢ RestartError.BadAnchor)) }
    ensures volume { SameVolume heap.old heap.new }
    ensures cause { HasCause (volume_answer result) (faults_of heap.old) (faults_of heap.new) }
{
    fetch_claimed(alloc, heap, txns, entry.id.page, last)?;
    if !heap.keep_claim(&entry.id, entry.image_len()) {
        return Err(RestartError::BadRecord(entry.lsn));
    }
    Ok(())
}

// Brings a page into a frame, if it is in none: what is kept so far stays, and a page that is read is told all claims.
fn fetch_claimed<V: Disk>(
    alloc: Global,
    heap: &mut Heap<V>,
    txns: &Transactions,
    page: PageId,
    last: Lsn,
) -> Result<(), RestartError>
    requires { HasPage (geometry_of heap.old) page }
    ensures held { OnOk result (IsTrue (is_some (frame_of heap.new page))) }
    ensures keeps { (so_far : PageId → List (ℕ × ℕ)) (slots : PageId → List Slot) (front : List ℕ) (disk : ℕ → List ℕ) (s : RecoveryState)
        → StandsSoFar (kept_in txns.now) so_far slots front disk heap.old s → last ≤ s.durable
        → Keeps result front heap.old heap.new s (λ left later. StandsSoFar (kept_in txns.now) so_far slots front left heap.new later) }
    ensures device { (so_far : PageId → List (ℕ × ℕ)) (slots : PageId → List Slot) (front : List ℕ) (disk : ℕ → List ℕ) (s : RecoveryState)
        → StandsSoFar (kept_in txns.now) so_far slots front disk heap.old s → length s.log ≤ last → last ≤ s.durable
        → IfErr result (λ error. (f : Fault) → error ≡ RestartError.Page f → f ≡ Fault.Device) }
    ensures any_pages { (so_far : PageId → List (ℕ × ℕ)) (front : List ℕ) (first disk : ℕ → List ℕ) (done : List LogRecord) → IsHeldSoFar (kept_in txns.now) so_far front first disk heap.old done last
        → KeepsHeld result (λ p. p ≡ page) (kept_in txns.now) so_far front first disk heap.old heap.new done last }
    ensures others { IfErr result (λ error. (error ≢ RestartError.NoRoom) × ((n : ℕ) → error ≢ RestartError.BadRecord n) × ((f : Fault) → error ≢ RestartError.Log f) × (error ≢ RestartError.BadAnchor)) }
    ensures volume { SameVolume heap.old heap.new }
    ensures cause { HasCause (volume_answer result) (faults_of heap.old) (faults_of heap.new) }
{
    let ends = LogEnds {
        last,
        durable: last,
    };
    match heap.fetch(alloc, page, txns, &ends) {
        Ok(()) => Ok(()),
        Err(fault) => Err(page_error(fault)),
    }
}
