//! The flush: dirty pages go back to the volume between the calls of sessions.
ghost use Rattle.std.specs.Prelude.{◌≡◌, ◌⊎◌, ◌↔◌, ◌+◌, ◌≤◌, ℕ, List, IsErrAnd, IsTrue, MatchResult, length};
ghost use Rattle.shore_types.specs.declared.faults.Fault.TheVariants as Fault;
ghost use Rattle.shore_dwrite.specs.Syncs.{syncs_of};
ghost use Rattle.shore_pool.specs.Pools.{PoolHolds, batch_of};
ghost use Rattle.shore_heap.specs.Heaps.{WroteBack, amid_of, history_of, honesty_of, pool_of};
ghost use Rattle.shore_model.specs.declared.step.Step.TheVariants as Step;
ghost use Rattle.shore_txn.specs.Transactions.{room_in};

use crate::core_calls::Core;
use shore_disk::Disk;
use shore_log::Tail;
use shore_model::{Answer, Step};
use shore_pool::Amid;
use shore_types::Fault;

impl<T: Tail, V: Disk> Core<T, V> {
    ghost use Rattle.shore_core.specs.Cores.{durable_of, has_failed, heap_of, tail_of, control_of, txns_of};
    ghost use Rattle.shore_core.specs.Flushing.{FlushAnswers, FlushSteps, TurnAnswers};
    ghost use Rattle.shore_core.specs.Replies.{InEach, Serves, fault_at};

    /// A step of the flush: writes a batch of dirty pages with durable numbers back, the first of the volume, and answers how many. `Nothing` if no
    /// page is due: then nothing has changed. `Failed` after a failure of a device or a damaged page. It takes no memory. After
    /// `Device` every later call is refused.
    pub fn flush_step(&mut self) -> Step
        // In whatever state it was, it is in the same, but for a failure. The store beside it comes to another by flushes of pages alone.
        ensures step { InEach (λ front disk before s store. FlushSteps result self.new front before s store) self.old }
        ensures answers { FlushAnswers self.old result self.new }
        ensures failed { IsTrue (has_failed self.old) → result ≡ Step.Refused Fault.Failed }

        // What is clean is on the volume; so what was counted is, as long as the volume has not failed.
        ensures written { (front : List ℕ) (disk : ℕ → List ℕ) → PoolHolds (pool_of (heap_of self.old)) front disk
            → MatchResult (fault_at result) (λ _. WroteBack (heap_of self.old) (heap_of self.new) (durable_of self.old) front disk)
            (λ f. (f ≡ Fault.Device) ⊎ WroteBack (heap_of self.old) (heap_of self.new) (durable_of self.old) front disk) }

        // At any moment a page of the volume is as it was, or as it was in place with a durable number. No page is read, and no force is asked for.
        ensures serves { Serves (λ page. ⊥) self.old (fault_at result) self.old self.new }

        // After a failure no page is touched.
        ensures still { IsTrue (has_failed self.old) → heap_of self.new ≡ heap_of self.old }
        ensures fails { IsTrue (has_failed self.new) ↔ (IsTrue (has_failed self.old) ⊎ IsErrAnd (fault_at result) (λ f. f ≡ Fault.Device)) }
        ensures tail { tail_of self.new ≡ tail_of self.old }
        ensures control { control_of self.new ≡ control_of self.old }
        ensures ring { (room_in (txns_of self.new)).stream_bytes ≡ (room_in (txns_of self.old)).stream_bytes }
    {
        if self.failed {
            return Step::Refused(Fault::Failed);
        }
        match self.heap.flush(self.durable) {
            Ok(0) => Step::Nothing,
            Ok(count) => Step::Done(Answer::Flushed(count)),
            Err(fault) => self.refuse_flush(fault),
        }
    }

    /// How far the batch is that is on its way to the volume.
    pub fn amid(&self) -> Amid
        ensures { result ≡ amid_of (heap_of self.now) }
    {
        self.heap.amid()
    }

    /// How many pages that batch has, or the last one had.
    pub fn batch_pages(&self) -> usize
        ensures { result ≡ length (batch_of (pool_of (heap_of self.now))) }
    {
        self.heap.batch_pages()
    }

    /// A step of the flush that makes one sync of the four by which a batch is written back: it begins a batch, or goes on with the one that is under way. `Nothing`
    /// is answered if it could: a step between two events of the manager, which asks for no record. Other calls may be made between two such steps.
    pub fn flush_on(&mut self) -> Step
        // In whatever state it was, it is in the same, but for a failure. The store beside it comes to another by flushes of pages alone.
        ensures step { InEach (λ front disk before s store. FlushSteps result self.new front before s store) self.old }
        ensures answers { TurnAnswers self.old result self.new }
        ensures syncs { IsTrue (honesty_of (heap_of self.old)) → syncs_of (history_of (heap_of self.new)) ≤ syncs_of (history_of (heap_of self.old)) + 1 }
        ensures failed { IsTrue (has_failed self.old) → result ≡ Step.Refused Fault.Failed }

        // What is clean is on the volume; so what was counted is, as long as the volume has not failed.
        ensures written { (front : List ℕ) (disk : ℕ → List ℕ) → PoolHolds (pool_of (heap_of self.old)) front disk
            → MatchResult (fault_at result) (λ _. WroteBack (heap_of self.old) (heap_of self.new) (durable_of self.old) front disk)
            (λ f. (f ≡ Fault.Device) ⊎ WroteBack (heap_of self.old) (heap_of self.new) (durable_of self.old) front disk) }

        // At any moment a page of the volume is as it was, or as it was in place with a durable number. No page is read, and no force is asked for.
        ensures serves { Serves (λ page. ⊥) self.old (fault_at result) self.old self.new }

        // After a failure no page is touched.
        ensures still { IsTrue (has_failed self.old) → heap_of self.new ≡ heap_of self.old }
        ensures fails { IsTrue (has_failed self.new) ↔ (IsTrue (has_failed self.old) ⊎ IsErrAnd (fault_at result) (λ f. f ≡ Fault.Device)) }
        ensures tail { tail_of self.new ≡ tail_of self.old }
        ensures control { control_of self.new ≡ control_of self.old }
        ensures ring { (room_in (txns_of self.new)).stream_bytes ≡ (room_in (txns_of self.old)).stream_bytes }
    {
        if self.has_failed() {
            return Step::Refused(Fault::Failed);
        }
        match self.heap.flush_on(self.durable) {
            Ok(_) => Step::Nothing,
            Err(fault) => self.refuse_flush(fault),
        }
    }

    // After a failure of the volume every call is refused.
    fn refuse_flush(&mut self, fault: Fault) -> Step
        ensures refused { result ≡ Step.Refused fault }
        ensures fails { IsTrue (has_failed self.new) ↔ (IsTrue (has_failed self.old) ⊎ (fault ≡ Fault.Device)) }
        ensures heap { heap_of self.new ≡ heap_of self.old }
        ensures durable { durable_of self.new ≡ durable_of self.old }
        ensures tail { tail_of self.new ≡ tail_of self.old }
        ensures control { control_of self.new ≡ control_of self.old }
        ensures ring { (room_in (txns_of self.new)).stream_bytes ≡ (room_in (txns_of self.old)).stream_bytes }
    {
        if matches!(fault, Fault::Device) {
            self.failed = true;
        }
        Step::Refused(fault)
    }
}
