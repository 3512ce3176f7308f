//! What a core hands over: its records to the log device, and at its end the volume.
ghost use Rattle.laws_checkpoints.specs.CheckpointedStores.{CheckpointedStore};
ghost use Rattle.shore_model.specs.declared.log_records.LogRecord.{LogRecord};
ghost use Rattle.std.specs.Prelude.{◌≡◌, ◌+◌, ◌++◌, [], ℕ, List, IfOk, length};
ghost use Rattle.shore_log.specs.Settled.{IsSettledFrom, IsSpelled, KnowsRoom, cut_of_log, records_of_log, stable};
ghost use Rattle.shore_log.specs.Told.{aside_for};
ghost use Rattle.shore_heap.specs.Heaps as heaps;
ghost use Rattle.laws_calls.specs.States.{State};
ghost use Rattle.shore_txn.specs.Transactions.{room_in};

use crate::core_calls::Core;
use shore_disk::Disk;
use shore_dwrite::PageDev;
use shore_log::{LogDev, PlainTail, Tail};
use shore_logrec::LogRecord;
use shore_types::Lsn;
use std::alloc::{AllocError, Global};

impl<V: Disk> Core<PlainTail, V> {
    ghost use Rattle.shore_core.specs.Cores.{IsIn, IsOver, KeepsAllButRoom, durable_of, first_of, geometry_of, has_failed, heap_of, told_of, txns_of, waiting_of};

    /// Copies of the records that wait in the log buffer.
    pub fn waiting(&self, alloc: Global) -> Result<Vec<LogRecord>, AllocError>
        ensures { IfOk result (λ records. records.items ≡ waiting_of self.now) }
    {
        self.tail.waiting(alloc)
    }

    /// The number that the next record will have.
    pub fn next(&self) -> Lsn
        ensures { result ≡ first_of self.now + length (waiting_of self.now) }
    {
        self.tail.next()
    }

    /// Hands the records that wait in the log buffer over to the log device, which needs no memory: what it takes was taken as they came.
    pub fn hand_over<D: Disk>(&mut self, log: &mut LogDev<D>)
        requires numbers { first_of self.old ≡ cut_of_log log.old + 1 + length (records_of_log log.old) }
        requires knows { KnowsRoom log.old (told_of self.old) }
        requires spelled { IsSpelled log.old }
        ensures state { (front : List ℕ) (disk : ℕ → List ℕ) (cut : List LogRecord) (s : State) → length cut ≡ cut_of_log log.old → IsIn front disk (cut ++ records_of_log log.old) self.old s
            → IsIn front disk (cut ++ records_of_log log.new) self.new s }
        ensures over { (disk : ℕ → List ℕ) (s : State) (store : CheckpointedStore) → IsOver disk self.old s store → IsOver disk self.new s store }
        ensures heap { heap_of self.new ≡ heap_of self.old }
        ensures geometry { geometry_of self.new ≡ geometry_of self.old }
        ensures durable { durable_of self.new ≡ durable_of self.old }
        ensures running { has_failed self.new ≡ has_failed self.old }
        ensures list { records_of_log log.new ++ waiting_of self.new ≡ records_of_log log.old ++ waiting_of self.old }
        ensures emptied { waiting_of self.new ≡ [] }
        ensures numbers { first_of self.new ≡ cut_of_log log.new + 1 + length (records_of_log log.new) }
        ensures cut { cut_of_log log.new ≡ cut_of_log log.old }
        ensures anchors { log.new.anchors ≡ log.old.anchors }
        ensures ring { (room_in (txns_of self.new)).stream_bytes ≡ (room_in (txns_of self.old)).stream_bytes }
        ensures knows { KnowsRoom log.new (told_of self.new) }
        ensures aside { (told_of self.new).aside ≡ (told_of self.old).aside }
        ensures spelled { IsSpelled log.new }
        ensures still { (log.new.device ≡ log.old.device) × (log.new.staged ≡ log.old.staged) × (stable log.new ≡ stable log.old) }
        ensures settled { (tail place : ℕ) (front : List ℕ) → IsSettledFrom tail place log.old front → IsSettledFrom tail place log.new front }
    {
        let Ok(()) = log.take_in(&mut self.tail) else {
            unreachable!()
        };
    }

    /// The log buffer learns what the log device has room for, of which nothing is kept aside, if nothing waits there.
    pub fn learn_room<D: Disk>(&mut self, log: &LogDev<D>)
        ensures same { KeepsAllButRoom self.old self.new }
        ensures knows { waiting_of self.old ≡ [] → IsSpelled log.now → KnowsRoom log.now (told_of self.new) }
        ensures aside { waiting_of self.old ≡ [] → IsSpelled log.now → (told_of self.new).aside ≡ aside_for 0 0 }
    {
        log.tell_room(&mut self.tail);
    }

    /// The log buffer learns how little the log device holds after a force.
    pub fn learn_left<D: Disk>(&mut self, log: &LogDev<D>)
        ensures same { KeepsAllButRoom self.old self.new }
        ensures knows { KnowsRoom log.now (told_of self.old) → KnowsRoom log.now (told_of self.new) }
        ensures aside { (told_of self.new).aside ≡ (told_of self.old).aside }
    {
        log.tell_left(&mut self.tail);
    }

    /// The volume's device, as it is. What was changed in memory is forgotten.
    pub fn into_volume(self) -> PageDev<V>
        ensures { result ≡ heaps.device_of (heap_of self) }
    {
        self.heap.into_device()
    }
}
