//! Calls that change records, which have their locks.
ghost use Rattle.std.specs.Prelude.{◌≡◌, ◌⊎◌, ◌≤◌, IfErr, IsSomeAnd, IsTrue, Ok, is_some, false, length, option_map};
ghost use Rattle.shore_types.specs.Layout.{HasSlot};
ghost use Rattle.shore_types.specs.declared.faults.Fault.TheVariants as Fault;
ghost use Rattle.shore_types.specs.declared.layout.TheConstants.{MAX_RECORD_BYTES};
ghost use Rattle.shore_model.specs.declared.calls.Call.TheVariants as Call;
ghost use Rattle.shore_page.specs.Room.{Fits};
ghost use Rattle.shore_page.specs.Slots.{image_at_slot};
ghost use Rattle.shore_model.specs.declared.log_records.Payload.TheVariants.{Change};
ghost use Rattle.shore_types.specs.Images.{Image, image_len};
ghost use Rattle.shore_types.specs.declared.ids.Rid.{Rid};
ghost use Rattle.shore_heap.specs.Heaps.{frame_of};
ghost use Rattle.shore_txn.specs.Transactions.{IsSeatIn, room_in};

use crate::core_calls::Core;
use shore_disk::Disk;
use shore_log::Tail;
use shore_logrec::{LogRecord, Payload, change_cost, compensation_cost};
use shore_model::{Answer, Step};
use shore_txn::{Seat, UndoEntry};
use shore_types::images::{bytes_of, len_of};
use shore_types::{Bytes, Fault, Lsn, Rid, Sequence, TxnId};
use std::alloc::Global;

impl<T: Tail, V: Disk> Core<T, V> {
    ghost use Rattle.shore_core.specs.Callers.{IsOfCaller};
    ghost use Rattle.shore_core.specs.Cores.{geometry_of, has_failed, heap_of, locks_of, txns_of};
    ghost use Rattle.shore_core.specs.Replies.{Changes, ForWriter, InEach, MakesNoCall, Served, ServesCall};

    pub(crate) fn update(
        &mut self,
        alloc: Global,
        seat: &Seat,
        id: Rid,
        bytes: Bytes,
    ) -> Result<Step, Fault>
        requires there { HasSlot (geometry_of self.old) id }
        requires short { length bytes ≤ MAX_RECORD_BYTES }
        requires seated { IsSeatIn seat.now (txns_of self.old) }
        requires own { IsOfCaller seat.now (txns_of self.old) }
        ensures served { has_failed self.old ≡ false → InEach (λ front disk before s store. ForWriter seat.now.session (locks_of self.old).requests id s (λ a. Served a (Call.Update id bytes) result self.old self.new front before s store)) self.old }
        ensures serves { ServesCall (λ page. page ≡ id.page) self.old result self.old self.new }
        ensures ring { (room_in (txns_of self.new)).stream_bytes ≡ (room_in (txns_of self.old)).stream_bytes }
    {
        let before = Some(self.find(alloc, id)?);
        if !self.heap.fits(id, bytes.as_slice().len()) {
            return Err(Fault::StoreFull);
        }
        self.change(alloc, seat, id, before, Some(bytes))?;
        Ok(Step::Done(Answer::Updated))
    }

    pub(crate) fn delete(&mut self, alloc: Global, seat: &Seat, id: Rid) -> Result<Step, Fault>
        requires there { HasSlot (geometry_of self.old) id }
        requires seated { IsSeatIn seat.now (txns_of self.old) }
        requires own { IsOfCaller seat.now (txns_of self.old) }
        ensures served { has_failed self.old ≡ false → InEach (λ front disk before s store. ForWriter seat.now.session (locks_of self.old).requests id s (λ a. Served a (Call.Delete id) result self.old self.new front before s store)) self.old }
        ensures serves { ServesCall (λ page. page ≡ id.page) self.old result self.old self.new }
        ensures ring { (room_in (txns_of self.new)).stream_bytes ≡ (room_in (txns_of self.old)).stream_bytes }
    {
        let before = Some(self.find(alloc, id)?);
        self.change(alloc, seat, id, before, None)?;
        Ok(Step::Done(Answer::Deleted))
    }

    // Logs a change of the session's transaction, which has the record locked, and makes it on its page, which is in a frame and has room. All
    // memory is taken before the record is logged, and behind that nothing can fail.
    pub(crate) fn change(
        &mut self,
        alloc: Global,
        seat: &Seat,
        id: Rid,
        before: Option<Bytes>,
        after: Option<Bytes>,
    ) -> Result<(), Fault>
        requires there { HasSlot (geometry_of self.old) id }
        requires found { IsSomeAnd (frame_of (heap_of self.old) id.page) (λ f. (image_at_slot f.page.slots id.slot ≡ before) × Fits (geometry_of self.old).version f.page.slots id.slot (image_len after)) }
        requires before { image_len before ≤ MAX_RECORD_BYTES }
        requires some { IsTrue (is_some before) ⊎ IsTrue (is_some after) }
        requires seated { IsSeatIn seat.now (txns_of self.old) }
        requires own { IsOfCaller seat.now (txns_of self.old) }
        ensures changed { has_failed self.old ≡ false → InEach (λ front disk before s store. ForWriter seat.now.session (locks_of self.old).requests id s (λ a. Changes (geometry_of self.old).version self.new a id after result front before s store)) self.old }
        ensures no_call { MakesNoCall self.old self.new }
        ensures refused { IfErr result (λ f. (f ≡ Fault.Memory) ⊎ (f ≡ Fault.LogFull)) }
        ensures ring { (room_in (txns_of self.new)).stream_bytes ≡ (room_in (txns_of self.old)).stream_bytes }
    {
        let own = self.control.txn(seat);
        let (txn, previous) = (own.id(), own.last());
        let logged = change_cost(len_of(&before), len_of(&after));
        let undo = compensation_cost(len_of(&before));
        if !self.admits(logged + undo) {
            return Err(Fault::LogFull);
        }
        let claim = self.heap.claim(id);
        self.control.reserve_entry(alloc, seat)?;
        let record = change_record(txn, previous, &id, before, after);
        let lsn = match self.tail.push(&record) {
            Ok(lsn) => lsn,
            Err(fault) => return Err(fault),
        };
        // The log has a copy of its own, so the record's images go on: one to the page, the other to the undo entry.
        self.heap.change(id, lsn, after_of(&record));
        let entry = UndoEntry {
            id,
            lsn,
            before: before_of(record),
            claim,
        };
        self.control.note_change(seat, entry, logged, undo);
        Ok(())
    }
}

// The record of a change.
fn change_record(
    txn: TxnId,
    previous: Lsn,
    id: &Rid,
    before: Option<Bytes>,
    after: Option<Bytes>,
) -> LogRecord
    ensures { result ≡ record { txn = txn; previous = previous; payload = Change id.now before after } }
{
    let payload = Payload::Change {
        id: *id,
        before,
        after,
    };
    LogRecord {
        txn,
        previous,
        payload,
    }
}

// The image behind a change, lent by its record.
fn after_of(change: &LogRecord) -> Option<&[u8]>
    ensures { (id : Rid) (before after : Image) → change.now.payload ≡ Change id before after → option_map (λ bytes. bytes.now) result ≡ after }
{
    match &change.payload {
        Payload::Change { after, .. } => bytes_of(after),
        // It is asked of the record of a change alone, and that has a change.
        _ => None,
    }
}

// The image before a change, which its record gives up.
fn before_of(change: LogRecord) -> Option<Bytes>
    ensures { (id : Rid) (before after : Image) → change.payload ≡ Change id before after → result ≡ before }
{
    match change.payload {
        Payload::Change { before, .. } => before,
        // As above: the record of a change has a change.
        _ => None,
    }
}
