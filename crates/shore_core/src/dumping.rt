//! The records of a store, as they are in place.
ghost use Rattle.std.specs.Prelude.{◌≡◌, ◌⊎◌, ◌↔◌, false, IfErr, IfOk, IsErrAnd, IsTrue, MatchResult};
ghost use Rattle.shore_types.specs.Layout.{HasStore};
ghost use Rattle.shore_types.specs.declared.faults.Fault.TheVariants as Fault;
ghost use Rattle.shore_model.specs.Records.{scan_of};
ghost use Rattle.laws_calls.specs.StateChanges.{IsPageFault, after_refusal};
ghost use Rattle.shore_core.specs.Replies.{Fails};
ghost use Rattle.shore_txn.specs.Transactions.{room_in};

use crate::core_calls::Core;
use shore_disk::Disk;
use shore_log::Tail;
use shore_types::{Fault, LogEnds, Lsn, Pairs, StoreId};
use std::alloc::Global;

impl<T: Tail, V: Disk> Core<T, V> {
    ghost use Rattle.shore_core.specs.Cores.{CoreComesTo, geometry_of, has_failed, heap_of, control_of, tail_of, txns_of};
    ghost use Rattle.shore_core.specs.Replies.{InEach, OnlyReads, Serves, Stays};

    /// The records in place of a store, decided or not, in place order; no transaction is asked for. `Failed` if a device has failed, or a page was
    /// damaged; `NoStore`; and as its pages have to be read: `Device` and `Damaged`, after which every call is refused, `Memory`, and `NeedForce(n)` if
    /// a page needs a frame that is free once the log is forced up to number n.
    pub fn dump(&mut self, alloc: Global, store: StoreId) -> Result<Pairs, Fault>
        ensures shown { InEach (λ front disk before s plain. IfOk result (λ pairs. pairs ≡ scan_of store s.sessions.records)) self.old }
        ensures left { InEach (λ front disk before s plain. MatchResult result (λ _. CoreComesTo self.new front before plain s) (λ f. CoreComesTo self.new front before plain (after_refusal f s))) self.old }
        ensures serves { Serves (λ page. page.store ≡ store) self.old result self.old self.new }
        ensures failed { IsTrue (has_failed self.old) → IfErr result (λ f. f ≡ Fault.Failed) }
        ensures still { IsTrue (has_failed self.old) → heap_of self.new ≡ heap_of self.old }
        ensures fails { IsTrue (has_failed self.new) ↔ (IsTrue (has_failed self.old) ⊎ IsErrAnd result Fails) }
        ensures served { IfOk result (λ _. HasStore (geometry_of self.old) store) }
        ensures refused { InEach (λ front disk before s plain. IfErr result (λ f. (IsTrue (has_failed self.old) × (f ≡ Fault.Failed))
            ⊎ ((f ≡ Fault.NoStore) × ¬ HasStore (geometry_of self.old) store) ⊎ (f ≡ Fault.Memory) ⊎ IsPageFault s f)) self.old }
        ensures tail { tail_of self.new ≡ tail_of self.old }
        ensures control { control_of self.new ≡ control_of self.old }
        ensures ring { (room_in (txns_of self.new)).stream_bytes ≡ (room_in (txns_of self.old)).stream_bytes }
    {
        if self.failed {
            return Err(Fault::Failed);
        }
        if !self.heap.geometry().has_store(store) {
            return Err(Fault::NoStore);
        }
        let pairs = self.pairs_of(alloc, store);
        if let Err(fault) = &pairs {
            self.note_failure(fault);
        }
        pairs
    }

    /// The records of a store that is there.
    pub(crate) fn pairs_of(&mut self, alloc: Global, store: StoreId) -> Result<Pairs, Fault>
        requires { HasStore (geometry_of self.old) store }
        ensures pairs { has_failed self.old ≡ false → InEach (λ front disk before s plain. IfOk result (λ pairs. pairs ≡ scan_of store s.sessions.records)) self.old }
        ensures refused { has_failed self.old ≡ false → InEach (λ front disk before s plain. IfErr result (λ f. (f ≡ Fault.Memory) ⊎ IsPageFault s f)) self.old }
        ensures stays { InEach (λ front disk before s plain. Stays self.new result front before s plain) self.old }
        ensures serves { Serves (λ page. page.store ≡ store) self.old result self.old self.new }
        ensures reads { OnlyReads self.old self.new }
        ensures ring { (room_in (txns_of self.new)).stream_bytes ≡ (room_in (txns_of self.old)).stream_bytes }
    {
        let last = Lsn(self.tail.next().0 - 1);
        let ends = LogEnds {
            last,
            durable: self.durable,
        };
        self.heap.scan(alloc, store, self.control.txns(), &ends)
    }
}
