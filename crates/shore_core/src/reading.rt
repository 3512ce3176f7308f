//! Calls that read records, which have their locks.
ghost use Rattle.std.specs.Prelude.{◌≡◌, ◌⊎◌, ◌≤◌, IfErr, IfOk, IsSomeAnd, IsTrue, Ok, OnOk, Some, false, is_some, length};
ghost use Rattle.std.specs.FinMap.{get};
ghost use Rattle.shore_types.specs.Layout.{HasPage, HasSlot, HasStore};
ghost use Rattle.shore_types.specs.declared.faults.Fault.TheVariants as Fault;
ghost use Rattle.shore_types.specs.declared.layout.TheConstants.{MAX_RECORD_BYTES};
ghost use Rattle.shore_model.specs.declared.calls.Call.TheVariants as Call;
ghost use Rattle.shore_page.specs.Slots.{image_at_slot};
ghost use Rattle.shore_heap.specs.Heaps.{frame_of};
ghost use Rattle.laws_lives.specs.Sessions.{SessionTxn};
ghost use Rattle.laws_lives.specs.Views.{IsAmong};
ghost use Rattle.laws_calls.specs.CallSteps.{RefusesRead};
ghost use Rattle.laws_calls.specs.StateChanges.{IsPageFault};
ghost use Rattle.shore_txn.specs.Transactions.{room_in};

use crate::core_calls::Core;
use shore_disk::Disk;
use shore_log::Tail;
use shore_model::{Answer, Step};
use shore_types::images::copied;
use shore_types::{Bytes, Fault, LogEnds, Lsn, PageId, Rid, StoreId};
use std::alloc::Global;

impl<T: Tail, V: Disk> Core<T, V> {
    ghost use Rattle.shore_core.specs.Cores.{geometry_of, has_failed, heap_of, txns_of};
    ghost use Rattle.shore_core.specs.Replies.{InEach, NeedsForceIn, OnlyReads, Served, Serves, ServesCall, Stays};
    ghost use Rattle.shore_core.specs.Undoing.{WritesBack};

    pub(crate) fn get(&mut self, alloc: Global, id: Rid) -> Result<Step, Fault>
        requires { HasSlot (geometry_of self.old) id }
        ensures served { has_failed self.old ≡ false → InEach (λ front disk before s store. (a : SessionTxn) → IsAmong a s.sessions.active
            → Served a (Call.Get id) result self.old self.new front before s store × Served a (Call.GetForUpdate id) result self.old self.new front before s store) self.old }
        ensures serves { ServesCall (λ page. page ≡ id.page) self.old result self.old self.new }
        ensures ring { (room_in (txns_of self.new)).stream_bytes ≡ (room_in (txns_of self.old)).stream_bytes }
    {
        let bytes = self.find(alloc, id)?;
        Ok(Step::Done(Answer::Got(bytes)))
    }

    // A copy of a record that is there, with its page in a frame. `NoRecord` if there is none.
    pub(crate) fn find(&mut self, alloc: Global, id: Rid) -> Result<Bytes, Fault>
        requires { HasSlot (geometry_of self.old) id }
        ensures framed { IfOk result (λ bytes. IsSomeAnd (frame_of (heap_of self.new) id.page) (λ f. image_at_slot f.page.slots id.slot ≡ Some bytes)) }
        ensures short { IfOk result (λ bytes. length bytes ≤ MAX_RECORD_BYTES) }
        ensures found { has_failed self.old ≡ false → InEach (λ front disk before s store. IfOk result (λ bytes. get s.sessions.records id ≡ Some bytes)) self.old }
        ensures refused { has_failed self.old ≡ false → InEach (λ front disk before s store. IfErr result (λ f. (f ≡ Fault.Memory) ⊎ RefusesRead s id f)) self.old }
        ensures serves { Serves (λ page. page ≡ id.page) self.old result self.old self.new }
        ensures stays { InEach (λ front disk before s store. Stays self.new result front before s store) self.old }
        ensures reads { OnlyReads self.old self.new }
        ensures ring { (room_in (txns_of self.new)).stream_bytes ≡ (room_in (txns_of self.old)).stream_bytes }
    {
        self.fetch(alloc, id.page)?;
        match self.heap.record(id) {
            Some(bytes) => Ok(copied(alloc, bytes)?),
            None => Err(Fault::NoRecord),
        }
    }

    pub(crate) fn fetch(&mut self, alloc: Global, page: PageId) -> Result<(), Fault>
        requires { HasPage (geometry_of self.old) page }
        ensures there { OnOk result (IsTrue (is_some (frame_of (heap_of self.new) page))) }
        ensures refused { has_failed self.old ≡ false → InEach (λ front disk before s store. IfErr result (λ f. (f ≡ Fault.Memory) ⊎ IsPageFault s f)) self.old }
        ensures serves { Serves (λ id. id ≡ page) self.old result self.old self.new }
        ensures stays { InEach (λ front disk before s store. Stays self.new result front before s store) self.old }
        ensures forced_now { NeedsForceIn self.old self.new result }
        ensures wrote { OnOk result (WritesBack self.old self.new) }
        ensures reads { OnlyReads self.old self.new }
        ensures ring { (room_in (txns_of self.new)).stream_bytes ≡ (room_in (txns_of self.old)).stream_bytes }
    {
        let last = Lsn(self.tail.next().0 - 1);
        let ends = LogEnds {
            last,
            durable: self.durable,
        };
        self.heap.fetch(alloc, page, self.control.txns(), &ends)
    }

    pub(crate) fn scan(&mut self, alloc: Global, store: StoreId) -> Result<Step, Fault>
        requires { HasStore (geometry_of self.old) store }
        ensures served { has_failed self.old ≡ false → InEach (λ front disk before s plain. (a : SessionTxn) → IsAmong a s.sessions.active → Served a (Call.Scan store) result self.old self.new front before s plain) self.old }
        ensures serves { ServesCall (λ page. page.store ≡ store) self.old result self.old self.new }
        ensures ring { (room_in (txns_of self.new)).stream_bytes ≡ (room_in (txns_of self.old)).stream_bytes }
    {
        let pairs = self.pairs_of(alloc, store)?;
        Ok(Step::Done(Answer::Scanned(pairs)))
    }
}
