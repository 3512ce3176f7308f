//! New records: where they go, and what the insert of one comes to.
ghost use Rattle.std.specs.Prelude.{◌≡◌, ◌⊎◌, ◌≤◌, IfErr, IfOk, IsSomeAnd, MatchResult, Ok, false, length};
ghost use Rattle.shore_types.specs.Layout.{HasSlot, HasStore};
ghost use Rattle.shore_types.specs.declared.faults.Fault.TheVariants as Fault;
ghost use Rattle.shore_model.specs.declared.calls.Call.TheVariants as Call;
ghost use Rattle.shore_heap.specs.Heaps.{frame_of};
ghost use Rattle.shore_page.specs.Room.{IsCandidate};
ghost use Rattle.shore_heap.specs.Places.{HasNoPlace, IsPlace};
ghost use Rattle.laws_calls.specs.StateChanges.{IsPageFault};
ghost use Rattle.laws_calls.specs.CallSteps.{with_requests};
ghost use Rattle.laws_calls.specs.States.{State, page_slots};
ghost use Rattle.shore_sessions.specs.Standing.{HasControl};
ghost use Rattle.shore_locks.specs.Tables.{is_waiting};
ghost use Rattle.shore_path.specs.Intending.{CoversRecords, IntendsToWrite};
ghost use Rattle.shore_path.specs.declared.intending.WayToWrite.TheVariants as WayToWrite;
ghost use Rattle.shore_path.specs.Walks.{acquired};
ghost use Rattle.shore_path.specs.declared.answers.OnConflict.TheVariants.{Refuse};
ghost use Rattle.shore_core.specs.Replies.{acquire_as, can_lock};
ghost use Rattle.shore_txn.specs.Transactions.{IsSeatIn, room_in};
ghost use Rattle.shore_types.specs.declared.layout.TheConstants.{MAX_RECORD_BYTES};
ghost use Rattle.shore_types.specs.declared.locking.Granule.TheVariants as Granule;
ghost use Rattle.shore_types.specs.declared.locking.Mode.TheVariants as Mode;

use crate::core_calls::Core;
use crate::lockable::Lockable;
use shore_disk::Disk;
use shore_log::Tail;
use shore_model::{Answer, Step};
use shore_path::{WayToWrite, way_to_write};
use shore_txn::Seat;
use shore_types::{Bytes, Fault, LogEnds, Lsn, PageId, Rid, Sequence, StoreId, TxnId};
use std::alloc::Global;

impl<T: Tail, V: Disk> Core<T, V> {
    ghost use Rattle.shore_core.specs.Callers.{IsOfCaller};
    ghost use Rattle.shore_core.specs.Cores.{control_of, geometry_of, has_failed, heap_of, locks_of, txns_of};
    ghost use Rattle.shore_core.specs.Replies.{ForTxn, InEach, OnlyLocks, OnlyReads, Served, Serves, ServesCall, Stays};

    // The lowest place that can be locked now is chosen, and then locked.
    pub(crate) fn insert(
        &mut self,
        alloc: Global,
        seat: &Seat,
        txn: TxnId,
        store: StoreId,
        bytes: Bytes,
    ) -> Result<Step, Fault>
        requires there { HasStore (geometry_of self.old) store }
        requires short { length bytes ≤ MAX_RECORD_BYTES }
        requires quiet { is_waiting txn (locks_of self.old).requests ≡ false }
        requires seated { IsSeatIn seat.now (txns_of self.old) }
        requires own { IsOfCaller seat.now (txns_of self.old) }
        ensures served { has_failed self.old ≡ false → InEach (λ front disk before s plain. ForTxn seat.now.session txn s (λ a. Served a (Call.Insert store bytes) result self.old self.new front before s plain)) self.old }
        ensures serves { ServesCall (λ page. page.store ≡ store) self.old result self.old self.new }
        ensures ring { (room_in (txns_of self.new)).stream_bytes ≡ (room_in (txns_of self.old)).stream_bytes }
    {
        // Mostly the volume and the store are held with the intention to write, or in a mode that covers the records, and are not looked at again.
        let way = way_to_write(self.control.locks(), txn, store);
        let place = self.find_place(alloc, txn, store, bytes.as_slice().len(), way)?;
        let Rid { page, slot } = place;
        let PageId { store, page } = page;
        let id = PageId { store, page };
        self.lock_place(txn, Rid { page: id, slot }, way)?;
        let id = PageId { store, page };
        self.change(alloc, seat, Rid { page: id, slot }, None, Some(bytes))?;
        let page = PageId { store, page };
        Ok(Step::Done(Answer::Inserted(Rid { page, slot })))
    }

    // A place that can be locked now is locked, unless the table is full.
    fn lock_place(&mut self, txn: TxnId, place: Rid, way: WayToWrite) -> Result<(), Fault>
        requires quiet { is_waiting txn (locks_of self.old).requests ≡ false }
        requires covered { way ≡ WayToWrite.Covered → CoversRecords (locks_of self.old).requests txn place.page.store }
        requires intended { way ≡ WayToWrite.Intended → IntendsToWrite (locks_of self.old).requests txn place.page.store }
        requires lockable { can_lock (locks_of self.old).requests txn place }
        ensures answer { (acquired Refuse (locks_of self.old) txn (Granule.Record place) Mode.EX).answer ≡ acquire_as result }
        ensures refused { IfErr result (λ f. f ≡ Fault.LockTableFull) }
        ensures stands { (s : State) → HasControl (control_of self.old) s → HasControl (control_of self.new) (with_requests s (acquired Refuse s.locks txn (Granule.Record place) Mode.EX).requests) }
        ensures only { OnlyLocks self.old self.new }
        ensures ring { (room_in (txns_of self.new)).stream_bytes ≡ (room_in (txns_of self.old)).stream_bytes }
    {
        self.control.acquire_record(txn, &place, way)?;
        Ok(())
    }

    // Where a new record of a store goes, with its page in a frame. `StoreFull` if no slot that can be locked now takes it.
    fn find_place(
        &mut self,
        alloc: Global,
        txn: TxnId,
        store: StoreId,
        len: usize,
        way: WayToWrite,
    ) -> Result<Rid, Fault>
        requires there { HasStore (geometry_of self.old) store }
        requires covered { way ≡ WayToWrite.Covered → CoversRecords (locks_of self.old).requests txn store }
        requires intended { way ≡ WayToWrite.Intended → IntendsToWrite (locks_of self.old).requests txn store }
        ensures there { IfOk result (HasSlot (geometry_of self.old)) }
        ensures of_store { IfOk result (λ id. id.page.store ≡ store) }
        ensures framed { IfOk result (λ id. IsSomeAnd (frame_of (heap_of self.new) id.page) (λ f. IsCandidate (geometry_of self.old).version f.page.slots id.slot len)) }
        ensures found { has_failed self.old ≡ false → InEach (λ front disk before s plain. MatchResult result (IsPlace (geometry_of self.old) (page_slots s) store len (can_lock (locks_of self.old).requests txn))
            (λ f. ((f ≡ Fault.StoreFull) × HasNoPlace (geometry_of self.old) (page_slots s) store len (can_lock (locks_of self.old).requests txn)) ⊎ (f ≡ Fault.Memory) ⊎ IsPageFault s f)) self.old }
        ensures lockable { IfOk result (can_lock (locks_of self.old).requests txn) }
        ensures serves { Serves (λ page. page.store ≡ store) self.old result self.old self.new }
        ensures stays { InEach (λ front disk before s plain. Stays self.new result front before s plain) self.old }
        ensures reads { OnlyReads self.old self.new }
        ensures ring { (room_in (txns_of self.new)).stream_bytes ≡ (room_in (txns_of self.old)).stream_bytes }
    {
        let last = Lsn(self.tail.next().0 - 1);
        let places = Lockable {
            locks: self.control.locks(),
            txn,
            store,
            way,
        };
        let ends = LogEnds {
            last,
            durable: self.durable,
        };
        let place = self
            .heap
            .place_for(alloc, store, len, &places, self.control.txns(), &ends)?;
        match place {
            Some(id) => Ok(id),
            None => Err(Fault::StoreFull),
        }
    }
}
