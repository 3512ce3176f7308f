//! Undo: the losers' turns, a record of undo in each (ARIES: the undo pass).
ghost use Rattle.std.specs.Prelude.{◌≡◌, ◌≢◌, ◌<◌, ◌≤◌, ◌++◌, ◌+◌, ◌∷◌, ◌↔◌, [], ℕ, List, Err, IfErr, IfOk, IsFalse, IsSome, IsTrue, None, OnOk, Some, is_some, length};
ghost use Rattle.shore_disk.specs.Cause.{HasCause};
ghost use Rattle.shore_gate.specs.declared.anchors.Anchor.{Anchor};
ghost use Rattle.shore_types.specs.Layout.{HasPage, HasSlot};
ghost use Rattle.shore_types.specs.declared.faults.Fault.{Fault};
ghost use Rattle.shore_types.specs.declared.faults.Fault.TheVariants as Fault;
ghost use Rattle.shore_model.specs.declared.log_records.LogRecord.{LogRecord};
ghost use Rattle.shore_model.specs.declared.log_records.Payload.{Payload};
ghost use Rattle.shore_model.specs.Logs.{id_in, image_in, unanswered};
ghost use Rattle.shore_page.specs.Room.{Fits};
ghost use Rattle.shore_types.specs.Images.{image_len};
ghost use Rattle.shore_heap.specs.Heaps.{faults_of, frame_of, geometry_of};
ghost use Rattle.shore_log.specs.Settled.{HasRecordRoom, cut_of_log, records_of_log, waiting};
ghost use Rattle.laws_lives.specs.Recovery.{RecoveryState};
ghost use Rattle.laws_lives.specs.Undo.{HasNoLosers, undo_payload, undo_record};
ghost use Rattle.shore_analysis.specs.Padded.{padded};
ghost use Rattle.laws_runs.specs.SlotCounts.{FitsBehind, slots_left};
ghost use Rattle.shore_types.specs.declared.ids.Rid.{Rid};
ghost use Rattle.shore_restart.specs.AnyPages.{AllFindRoom, FindsNoRoom, FindsNoRoomToUndo, IsOnPage, IsUndoneOnPage, MayBeUndoneOnPage};
ghost use Rattle.shore_restart.specs.declared.errors.RestartError.{RestartError};
ghost use Rattle.shore_restart.specs.declared.errors.RestartError.TheVariants as RestartError;
ghost use Rattle.shore_restart.specs.Errors.{log_answer, volume_answer};
ghost use Rattle.shore_restart.specs.Held.{IsHeld, WorksHeld};
ghost use Rattle.shore_restart.specs.Standing.{Appends, IsAtRest, IsReady, RestartMoves, SameLog, SameVolume, log_faults, log_history, log_seen, stream_bytes_of};
ghost use Rattle.shore_restart.specs.Quiet.{IsQuiet, StaysQuiet};
ghost use Rattle.shore_restart.specs.Room.{LeavesRoom};
ghost use Rattle.shore_restart.specs.Turns.{CannotUndo, HasNoTurnRoom, IsUndoOf, IsUndoneSoFar, TakesTurn, TurnsFit, gone_on};

use crate::errors::RestartError;
use crate::forcing::force;
use crate::found::found_in;
use crate::log_sums::room_with;
use crate::pages::{fetch, put};
use shore_analysis::Losers;
use shore_disk::Disk;
use shore_heap::Heap;
use shore_log::LogDev;
use shore_logrec::{LogRecord, Payload};
use shore_txn::LogRoom;
use shore_types::images::bytes_in;
use shore_types::{Bytes, Fault, LogEnds, Lsn, PageId, Rid};
use std::alloc::Global;

/// What undo works with: the losers that are left, and the room of the log with the records of undo so far.
#[derive(Drop)]
pub struct Undo {
    /// The losers that are left, after the records of undo so far.
    pub losers: Losers,
    /// The room of the log with these records in it.
    pub room: LogRoom,
}

impl Undo {
    /// Undoes all losers and forces the records of it. If it is stopped, what is forced stays, and the next restart goes on with that.
    pub fn undo_all<L: Disk, V: Disk>(
        &mut self,
        alloc: Global,
        log: &mut LogDev<L>,
        heap: &mut Heap<V>,
    ) -> Result<(), RestartError>
        requires { IsUndoOf (geometry_of heap.old) (cut_of_log log.old) (records_of_log log.old) (stream_bytes_of log.old) self.old }
        ensures undone { OnOk result (IsUndoneSoFar (log_seen log.old) (log_seen log.new)) }
        ensures done { OnOk result (HasNoLosers (log_seen log.new)) }
        ensures undo { OnOk result (IsUndoOf (geometry_of heap.new) (cut_of_log log.new) (records_of_log log.new) (stream_bytes_of log.new) self.new) }
        ensures moves { (log_front front : List ℕ) (anchor : Anchor) (disk : ℕ → List ℕ) (s : RecoveryState) → IsReady log_front front anchor disk log.old heap.old s
            → RestartMoves result log_front front anchor log.old log.new heap.old heap.new s (λ later. (later.durable ≡ length later.log) × IsUndoneSoFar s.log later.log) }
        ensures no_room { IfErr result (λ error. error ≡ RestartError.NoRoom → (so_far : List LogRecord) × IsUndoneSoFar (log_seen log.old) (padded (cut_of_log log.old) so_far)
            × HasNoTurnRoom (cut_of_log log.old) so_far (stream_bytes_of log.old)) }
        ensures anchor { IfErr result (λ error. error ≢ RestartError.BadAnchor) }
        ensures bad { (log_front front : List ℕ) (anchor : Anchor) (disk : ℕ → List ℕ) (s : RecoveryState) → IsReady log_front front anchor disk log.old heap.old s
            → IfErr result (λ error. (n : ℕ) → error ≡ RestartError.BadRecord n → (so_far : List LogRecord) × IsUndoneSoFar s.log so_far
            × TurnsFit (geometry_of heap.old).version s.log so_far × CannotUndo (geometry_of heap.old).version so_far n) }
        ensures fits { (log_front front : List ℕ) (anchor : Anchor) (disk : ℕ → List ℕ) (s : RecoveryState) → IsReady log_front front anchor disk log.old heap.old s
            → OnOk result (TurnsFit (geometry_of heap.old).version s.log (gone_on s.log (log_seen log.old) (log_seen log.new))) }
        ensures device { (log_front front : List ℕ) (anchor : Anchor) (disk : ℕ → List ℕ) (s : RecoveryState) → IsReady log_front front anchor disk log.old heap.old s
            → IfErr result (λ error. (f : Fault) → error ≡ RestartError.Page f → f ≡ Fault.Device) }
        ensures log_device { (log_front : List ℕ) → IsQuiet log_front log.old → StaysQuiet result log_front log.old log.new }
        ensures bad_number { IfErr result (λ error. (n : ℕ) → error ≡ RestartError.BadRecord n → (cut_of_log log.old < n) × (n ≤ length (log_seen log.old))) }
        ensures any_pages { (front : List ℕ) (first disk : ℕ → List ℕ) (due : List LogRecord) → length due ≡ length (log_seen log.old) → IsHeld front first disk heap.old due (length due)
            → WorksHeld result (MayBeUndoneOnPage (log_seen log.old)) front first disk heap.old heap.new (length due) (gone_on due (log_seen log.old) (log_seen log.new)) (length (log_seen log.new)) }
        ensures any_bad { (front : List ℕ) (first disk : ℕ → List ℕ) (due : List LogRecord) → length due ≡ length (log_seen log.old) → IsHeld front first disk heap.old due (length due)
            → AllFindRoom (geometry_of heap.old) first due → IfErr result (λ error. (n : ℕ) → error ≡ RestartError.BadRecord n → (so_far : List LogRecord)
            × IsUndoneSoFar (log_seen log.old) so_far × AllFindRoom (geometry_of heap.old) first (gone_on due (log_seen log.old) so_far)
            × FindsNoRoomToUndo (geometry_of heap.old) first so_far (gone_on due (log_seen log.old) so_far) n) }
        ensures any_fit { (front : List ℕ) (first disk : ℕ → List ℕ) (due : List LogRecord) → length due ≡ length (log_seen log.old) → IsHeld front first disk heap.old due (length due)
            → AllFindRoom (geometry_of heap.old) first due → OnOk result (AllFindRoom (geometry_of heap.old) first (gone_on due (log_seen log.old) (log_seen log.new))) }
        ensures volume { SameVolume heap.old heap.new }
        ensures log { SameLog log.old log.new }
        ensures forced { OnOk result (log.old.staged ≡ None → waiting log.new ≡ []) }
        ensures volume_cause { HasCause (volume_answer result) (faults_of heap.old) (faults_of heap.new) }
        ensures log_cause { HasCause (log_answer result) (log_faults log.old) (log_faults log.new) }
    {
        while self.turn(alloc, log, heap)? {}
        force(alloc, log)
    }

    // Appends the next record of undo and does it on its page, and answers whether there was one.
    fn turn<L: Disk, V: Disk>(
        &mut self,
        alloc: Global,
        log: &mut LogDev<L>,
        heap: &mut Heap<V>,
    ) -> Result<bool, RestartError>
        requires { IsUndoOf (geometry_of heap.old) (cut_of_log log.old) (records_of_log log.old) (stream_bytes_of log.old) self.old }
        ensures turn { IfOk result (λ more. IsTrue more → TakesTurn (log_seen log.old) (log_seen log.new) self.old self.new) }
        ensures undo { OnOk result (IsUndoOf (geometry_of heap.new) (cut_of_log log.new) (records_of_log log.new) (stream_bytes_of log.new) self.new) }
        ensures done { IfOk result (λ more. IsFalse more → (records_of_log log.new ≡ records_of_log log.old) × HasNoLosers (log_seen log.new)) }
        ensures moves { (log_front front : List ℕ) (anchor : Anchor) (disk : ℕ → List ℕ) (s : RecoveryState) → IsReady log_front front anchor disk log.old heap.old s
            → RestartMoves result log_front front anchor log.old log.new heap.old heap.new s (λ later. later.log ≡ gone_on s.log (log_seen log.old) (log_seen log.new)) }
        ensures no_room { IfErr result (λ error. error ≡ RestartError.NoRoom → HasNoTurnRoom (cut_of_log log.old) (records_of_log log.old) (stream_bytes_of log.old)) }
        ensures anchor { IfErr result (λ error. error ≢ RestartError.BadAnchor) }
        ensures bad { (log_front front : List ℕ) (anchor : Anchor) (disk : ℕ → List ℕ) (s : RecoveryState) → IsReady log_front front anchor disk log.old heap.old s
            → IfErr result (λ error. (n : ℕ) → error ≡ RestartError.BadRecord n → CannotUndo (geometry_of heap.old).version s.log n) }
        ensures fits { (log_front front : List ℕ) (anchor : Anchor) (disk : ℕ → List ℕ) (s : RecoveryState) (found : List LogRecord) → IsReady log_front front anchor disk log.old heap.old s
            → TurnsFit (geometry_of heap.old).version found s.log → OnOk result (TurnsFit (geometry_of heap.old).version found (gone_on s.log (log_seen log.old) (log_seen log.new))) }
        ensures device { (log_front front : List ℕ) (anchor : Anchor) (disk : ℕ → List ℕ) (s : RecoveryState) → IsReady log_front front anchor disk log.old heap.old s
            → IfErr result (λ error. (f : Fault) → error ≡ RestartError.Page f → f ≡ Fault.Device) }
        ensures log_device { (log_front : List ℕ) → IsQuiet log_front log.old → StaysQuiet result log_front log.old log.new }
        ensures bad_number { (found : List LogRecord) → IsUndoneSoFar found (log_seen log.old) → IfErr result (λ error. (n : ℕ) → error ≡ RestartError.BadRecord n → (cut_of_log log.old < n) × (n ≤ length found)) }
        ensures any_pages { (front : List ℕ) (first disk : ℕ → List ℕ) (due : List LogRecord) → length due ≡ length (log_seen log.old) → IsHeld front first disk heap.old due (length due)
            → WorksHeld result (IsUndoneOnPage (log_seen log.old)) front first disk heap.old heap.new (length due) (gone_on due (log_seen log.old) (log_seen log.new)) (length (log_seen log.new)) }
        ensures any_bad { (front : List ℕ) (first disk : ℕ → List ℕ) (due : List LogRecord) → length due ≡ length (log_seen log.old) → IsHeld front first disk heap.old due (length due)
            → IfErr result (λ error. (n : ℕ) → error ≡ RestartError.BadRecord n → FindsNoRoomToUndo (geometry_of heap.old) first (log_seen log.old) due n) }
        ensures any_fit { (front : List ℕ) (first disk : ℕ → List ℕ) (due : List LogRecord) → length due ≡ length (log_seen log.old) → IsHeld front first disk heap.old due (length due)
            → AllFindRoom (geometry_of heap.old) first due → OnOk result (AllFindRoom (geometry_of heap.old) first (gone_on due (log_seen log.old) (log_seen log.new))) }
        ensures volume { SameVolume heap.old heap.new }
        ensures log { SameLog log.old log.new }
        ensures unstaged { OnOk result (log.old.staged ≡ None → log.new.staged ≡ None) }
        ensures volume_cause { HasCause (volume_answer result) (faults_of heap.old) (faults_of heap.new) }
        ensures log_cause { HasCause (log_answer result) (log_faults log.old) (log_faults log.new) }
    {
        let cut = log.cut_off();
        let found = found_in(log)?;
        let Some(logged) = self.losers.next_record_behind(alloc, cut, found)? else {
            return Ok(false);
        };
        let last = log.last();
        let Some(room) = room_with(&self.room, &logged, last) else {
            return Err(RestartError::NoRoom);
        };
        let number = Lsn(last.0 + 1);
        append(
            alloc,
            log,
            heap,
            &logged.payload,
            number,
            self.losers.next_change(),
        )?;
        self.losers.note_logged(&logged, number);
        self.room = room;
        log.take(logged);
        Ok(true)
    }
}

// Does a record of undo on its page, if it is of one, and takes the memory for it in the log. `undone` is the number of the Change that it undoes.
fn append<L: Disk, V: Disk>(
    alloc: Global,
    log: &mut LogDev<L>,
    heap: &mut Heap<V>,
    payload: &Payload,
    number: Lsn,
    undone: Lsn,
) -> Result<(), RestartError>
    requires there { (id : Rid) → id_in payload.now ≡ Some id → HasSlot (geometry_of heap.old) id }
    requires room { LeavesRoom (cut_of_log log.old) (records_of_log log.old) (stream_bytes_of log.old) }
    ensures appends { (log_front front : List ℕ) (anchor : Anchor) (disk : ℕ → List ℕ) (s : RecoveryState) (t : ℕ) → IsReady log_front front anchor disk log.old heap.old s
        → payload.now ≡ undo_payload (unanswered t s.log) → number ≡ length s.log + 1
        → Appends result log_front front anchor log.old log.new heap.old heap.new s (undo_record s.log t) }
    ensures reserved { OnOk result (HasRecordRoom log.new 1) }
    ensures bad { (log_front front : List ℕ) (anchor : Anchor) (disk : ℕ → List ℕ) (s : RecoveryState) → IsReady log_front front anchor disk log.old heap.old s
        → IfErr result (λ error. (n : ℕ) → error ≡ RestartError.BadRecord n → (n ≡ undone) × (FitsBehind (geometry_of heap.old).version s.log payload.now → ⊥)) }
    ensures fits { (log_front front : List ℕ) (anchor : Anchor) (disk : ℕ → List ℕ) (s : RecoveryState) (t : ℕ) → IsReady log_front front anchor disk log.old heap.old s
        → payload.now ≡ undo_payload (unanswered t s.log) → OnOk result (FitsBehind (geometry_of heap.old).version s.log payload.now) }
    ensures device { (log_front front : List ℕ) (anchor : Anchor) (disk : ℕ → List ℕ) (s : RecoveryState) → IsReady log_front front anchor disk log.old heap.old s
        → IfErr result (λ error. (f : Fault) → error ≡ RestartError.Page f → f ≡ Fault.Device) }
    ensures log_device { (log_front : List ℕ) → IsQuiet log_front log.old → StaysQuiet result log_front log.old log.new }
    ensures others { IfErr result (λ error. (error ≢ RestartError.NoRoom) × (error ≢ RestartError.BadAnchor)) }
    ensures same { records_of_log log.new ≡ records_of_log log.old }
    ensures log { SameLog log.old log.new }
    ensures unstaged { OnOk result (log.old.staged ≡ None → log.new.staged ≡ None) }
    ensures bad_number { IfErr result (λ error. (n : ℕ) → error ≡ RestartError.BadRecord n → (n ≡ undone) × IsSome (id_in payload.now)) }
    ensures any_pages { (front : List ℕ) (first disk : ℕ → List ℕ) (due : List LogRecord) (r : LogRecord) (t : ℕ) → length due ≡ length (log_seen log.old) → IsHeld front first disk heap.old due (length due)
        → r.payload ≡ payload.now → payload.now ≡ undo_payload (unanswered t (log_seen log.old)) → number ≡ length due + 1
        → WorksHeld result (IsOnPage r) front first disk heap.old heap.new (length due) (due ++ r ∷ []) (length due + 1) }
    ensures any_bad { (front : List ℕ) (first disk : ℕ → List ℕ) (due : List LogRecord) → length due ≡ length (log_seen log.old) → IsHeld front first disk heap.old due (length due)
        → IfErr result (λ error. (n : ℕ) → error ≡ RestartError.BadRecord n → (n ≡ undone)
        × FindsNoRoom (geometry_of heap.old) first due (length due + 1) payload.now) }
    ensures any_fit { (front : List ℕ) (first disk : ℕ → List ℕ) (due : List LogRecord) (t : ℕ) → length due ≡ length (log_seen log.old) → IsHeld front first disk heap.old due (length due)
        → payload.now ≡ undo_payload (unanswered t (log_seen log.old))
        → OnOk result (FindsNoRoom (geometry_of heap.old) first due (length due + 1) payload.now → ⊥) }
    ensures volume { SameVolume heap.old heap.new }
    ensures volume_cause { HasCause (volume_answer result) (faults_of heap.old) (faults_of heap.new) }
    ensures log_cause { HasCause (log_answer result) (log_faults log.old) (log_faults log.new) }
{
    match payload {
        Payload::Compensation { id, after, .. } => {
            put_back(alloc, log, heap, *id, after, number, undone)
        }
        // An End changes no page, and undo logs no record of another kind.
        Payload::End
        | Payload::Change { .. }
        | Payload::Commit
        | Payload::Prepare { .. }
        | Payload::RollbackDecided
        | Payload::CheckpointBegin
        | Payload::CheckpointEnd { .. }
        | Payload::Anchor { .. } => reserve(log),
    }
}

// Puts an image back by a record of undo of this number, and takes the memory for the record in the log.
fn put_back<L: Disk, V: Disk>(
    alloc: Global,
    log: &mut LogDev<L>,
    heap: &mut Heap<V>,
    id: Rid,
    image: &Option<Bytes>,
    number: Lsn,
    undone: Lsn,
) -> Result<(), RestartError>
    requires there { HasPage (geometry_of heap.old) id.page }
    requires room { LeavesRoom (cut_of_log log.old) (records_of_log log.old) (stream_bytes_of log.old) }
    ensures appends { (log_front front : List ℕ) (anchor : Anchor) (disk : ℕ → List ℕ) (s : RecoveryState) (r : LogRecord) → IsReady log_front front anchor disk log.old heap.old s
        → image_in r.payload ≡ Some (id, image.now) → number ≡ length s.log + 1 → Appends result log_front front anchor log.old log.new heap.old heap.new s r }
    ensures reserved { OnOk result (HasRecordRoom log.new 1) }
    ensures bad { (log_front front : List ℕ) (anchor : Anchor) (disk : ℕ → List ℕ) (s : RecoveryState) → IsReady log_front front anchor disk log.old heap.old s
        → IfErr result (λ error. (n : ℕ) → error ≡ RestartError.BadRecord n → (n ≡ undone) × (Fits (geometry_of heap.old).version (slots_left s.log id.page) id.slot (image_len image.now) → ⊥)) }
    ensures fits { (log_front front : List ℕ) (anchor : Anchor) (disk : ℕ → List ℕ) (s : RecoveryState) → IsReady log_front front anchor disk log.old heap.old s
        → OnOk result (Fits (geometry_of heap.old).version (slots_left s.log id.page) id.slot (image_len image.now)) }
    ensures device { (log_front front : List ℕ) (anchor : Anchor) (disk : ℕ → List ℕ) (s : RecoveryState) → IsReady log_front front anchor disk log.old heap.old s
        → IfErr result (λ error. (f : Fault) → error ≡ RestartError.Page f → f ≡ Fault.Device) }
    ensures log_device { (log_front : List ℕ) → IsQuiet log_front log.old → StaysQuiet result log_front log.old log.new }
    ensures others { IfErr result (λ error. (error ≢ RestartError.NoRoom) × (error ≢ RestartError.BadAnchor)) }
    ensures same { records_of_log log.new ≡ records_of_log log.old }
    ensures log { SameLog log.old log.new }
    ensures unstaged { OnOk result (log.old.staged ≡ None → log.new.staged ≡ None) }
    ensures bad_number { IfErr result (λ error. (n : ℕ) → error ≡ RestartError.BadRecord n → n ≡ undone) }
    ensures any_pages { (front : List ℕ) (first disk : ℕ → List ℕ) (due : List LogRecord) (r : LogRecord) → length due ≡ length (log_seen log.old) → IsHeld front first disk heap.old due (length due)
        → image_in r.payload ≡ Some (id, image.now) → number ≡ length due + 1
        → WorksHeld result (IsOnPage r) front first disk heap.old heap.new (length due) (due ++ r ∷ []) (length due + 1) }
    ensures any_bad { (front : List ℕ) (first disk : ℕ → List ℕ) (due : List LogRecord) (payload : Payload) → length due ≡ length (log_seen log.old) → IsHeld front first disk heap.old due (length due)
        → image_in payload ≡ Some (id, image.now) → IfErr result (λ error. (n : ℕ) → error ≡ RestartError.BadRecord n → (n ≡ undone)
        × FindsNoRoom (geometry_of heap.old) first due (length due + 1) payload) }
    ensures any_fit { (front : List ℕ) (first disk : ℕ → List ℕ) (due : List LogRecord) (payload : Payload) → length due ≡ length (log_seen log.old) → IsHeld front first disk heap.old due (length due)
        → image_in payload ≡ Some (id, image.now)
        → OnOk result (FindsNoRoom (geometry_of heap.old) first due (length due + 1) payload → ⊥) }
    ensures volume { SameVolume heap.old heap.new }
    ensures volume_cause { HasCause (volume_answer result) (faults_of heap.old) (faults_of heap.new) }
    ensures log_cause { HasCause (log_answer result) (log_faults log.old) (log_faults log.new) }
{
    let Rid { page, slot } = id;
    let PageId { store, page } = page;
    bring(alloc, log, heap, PageId { store, page })?;
    let there = Rid {
        page: PageId { store, page },
        slot,
    };
    if !heap.fits(there, bytes_in(image)) {
        return Err(RestartError::BadRecord(undone));
    }
    reserve(log)?;
    let there = Rid {
        page: PageId { store, page },
        slot,
    };
    put(heap, there, number, image);
    Ok(())
}

// Brings a page into a frame. If a force is needed for that, the records of undo so far are forced first.
fn bring<L: Disk, V: Disk>(
    alloc: Global,
    log: &mut LogDev<L>,
    heap: &mut Heap<V>,
    page: PageId,
) -> Result<(), RestartError>
    requires there { HasPage (geometry_of heap.old) page }
    requires room { LeavesRoom (cut_of_log log.old) (records_of_log log.old) (stream_bytes_of log.old) }
    ensures held { OnOk result (IsTrue (is_some (frame_of heap.new page))) }
    ensures moves { (log_front front : List ℕ) (anchor : Anchor) (disk : ℕ → List ℕ) (s : RecoveryState) → IsReady log_front front anchor disk log.old heap.old s
        → RestartMoves result log_front front anchor log.old log.new heap.old heap.new s (λ later. (later.log ≡ s.log) × (later.in_place ≡ s.in_place)) }
    ensures no_record { IfErr result (λ error. (n : ℕ) → error ≢ RestartError.BadRecord n) }
    ensures device { (log_front front : List ℕ) (anchor : Anchor) (disk : ℕ → List ℕ) (s : RecoveryState) → IsReady log_front front anchor disk log.old heap.old s
        → IfErr result (λ error. (f : Fault) → error ≡ RestartError.Page f → f ≡ Fault.Device) }
    ensures log_device { (log_front : List ℕ) → IsQuiet log_front log.old → StaysQuiet result log_front log.old log.new }
    ensures others { IfErr result (λ error. (error ≢ RestartError.NoRoom) × (error ≢ RestartError.BadAnchor)) }
    ensures same { records_of_log log.new ≡ records_of_log log.old }
    ensures log { SameLog log.old log.new }
    ensures unstaged { OnOk result (log.old.staged ≡ None → log.new.staged ≡ None) }
    ensures any_pages { (front : List ℕ) (first disk : ℕ → List ℕ) (done : List LogRecord) → IsHeld front first disk heap.old done (length (log_seen log.old))
        → WorksHeld result (λ p. p ≡ page) front first disk heap.old heap.new (length (log_seen log.old)) done (length (log_seen log.old)) }
    ensures volume { SameVolume heap.old heap.new }
    ensures volume_cause { HasCause (volume_answer result) (faults_of heap.old) (faults_of heap.new) }
    ensures log_cause { HasCause (log_answer result) (log_faults log.old) (log_faults log.new) }
{
    let last = log.last();
    let durable = log.durable().number();
    let PageId { store, page } = page;
    let ends = LogEnds { last, durable };
    let fetched = fetch(alloc, heap, PageId { store, page }, &ends);
    if !needs_force(&fetched) {
        return fetched;
    }
    force(alloc, log)?;
    let all = LogEnds {
        last,
        durable: last,
    };
    fetch(alloc, heap, PageId { store, page }, &all)
}

// Whether a page was refused since the log has to be forced first.
fn needs_force(fetched: &Result<(), RestartError>) -> bool
    ensures { IsTrue result ↔ ((n : ℕ) × (fetched.now ≡ Err (RestartError.Page (Fault.NeedForce n)))) }
{
    match fetched {
        Err(error) => is_force(error),
        Ok(()) => false,
    }
}

fn is_force(error: &RestartError) -> bool
    ensures { IsTrue result ↔ ((n : ℕ) × (error.now ≡ RestartError.Page (Fault.NeedForce n))) }
{
    match error {
        RestartError::Page(fault) => matches!(fault, Fault::NeedForce { .. }),
        _ => false,
    }
}

// Takes the memory for a record more in the log.
fn reserve<L: Disk>(log: &mut LogDev<L>) -> Result<(), RestartError>
    ensures room { OnOk result (HasRecordRoom log.new 1) }
    ensures at_rest { (log_front : List ℕ) (anchor : Anchor) (s : RecoveryState) → IsAtRest log_front anchor log.old s → IsAtRest log_front anchor log.new s }
    ensures log_device { (log_front : List ℕ) → IsQuiet log_front log.old → StaysQuiet result log_front log.old log.new }
    ensures refused { IfErr result (λ error. error ≡ RestartError.Memory) }
    ensures same { (records_of_log log.new ≡ records_of_log log.old) × (log_history log.new ≡ log_history log.old) × (log_faults log.new ≡ log_faults log.old) }
    ensures log { SameLog log.old log.new }
    ensures unstaged { OnOk result (log.old.staged ≡ None → log.new.staged ≡ None) }
{
    match log.reserve(1) {
        Ok(()) => Ok(()),
        Err(_) => Err(RestartError::Memory),
    }
}
