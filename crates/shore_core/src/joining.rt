//! A core over another log buffer, and what is looked at in its log buffer from outside.
ghost use Rattle.std.specs.Prelude.{◌≡◌, ◌+◌, ◌++◌, ℕ, List, length};
ghost use Rattle.laws_calls.specs.States.{State};
ghost use Rattle.laws_checkpoints.specs.CheckpointedStores.{CheckpointedStore};
ghost use Rattle.shore_model.specs.declared.log_records.LogRecord.{LogRecord};

use crate::core_calls::Core;
use shore_disk::Disk;
use shore_log::Tail;
use shore_types::Lsn;

/// What is done with a core's log buffer from outside: the log buffer stays as it is, and `tells` says what was learned of it.
pub trait Probe<T: Tail> {
    /// Of the probe before, the log buffer, and the probe behind.
    ghost tells: { Self → T → Self → Type 0 };

    fn touch(&mut self, tail: &mut T)
        ensures same { tail.new ≡ tail.old }
        ensures tells { tells self.old tail.old self.new };
}

impl<T: Tail, V: Disk> Core<T, V> {
    ghost use Rattle.shore_core.specs.Cores.{IsIn, IsOver, control_of, durable_of, first_of, has_failed, heap_of, tail_of, waiting_of};
    ghost use Rattle.shore_core.specs.Cores as cores;

    /// The number of the log's last record.
    pub fn last(&self) -> Lsn
        ensures { result ≡ cores.last_of self.now }
    {
        Lsn(self.tail.next().0 - 1)
    }

    /// Lets a probe touch the log buffer. Nothing else changes.
    pub fn probe<P: Probe<T>>(&mut self, probe: &mut P)
        ensures tells { P.tells probe.old (tail_of self.old) probe.new }
        ensures state { (front : List ℕ) (disk : ℕ → List ℕ) (before : List LogRecord) (s : State) → IsIn front disk before self.old s → IsIn front disk before self.new s }
        ensures over { (disk : ℕ → List ℕ) (s : State) (store : CheckpointedStore) → IsOver disk self.old s store → IsOver disk self.new s store }
        ensures tail { tail_of self.new ≡ tail_of self.old }
        ensures heap { heap_of self.new ≡ heap_of self.old }
        ensures control { control_of self.new ≡ control_of self.old }
        ensures durable { durable_of self.new ≡ durable_of self.old }
        ensures running { has_failed self.new ≡ has_failed self.old }
    {
        probe.touch(&mut self.tail);
    }

    /// The same core over another log buffer, whose next record has the number that this one's has; and this one's. Records that one has and the other has not are
    /// before those of the other.
    pub fn with_tail<U: Tail>(self, tail: U) -> (Core<U, V>, T)
        requires { U.first tail + length (U.records tail) ≡ first_of self + length (waiting_of self) }
        ensures state { (front : List ℕ) (disk : ℕ → List ℕ) (before after : List LogRecord) (s : State) → before ++ waiting_of self ≡ after ++ U.records tail
            → IsIn front disk before self s → IsIn front disk after result.0 s }
        ensures over { (disk : ℕ → List ℕ) (s : State) (store : CheckpointedStore) → IsOver disk self s store → IsOver disk result.0 s store }
        ensures tail { tail_of result.0 ≡ tail }
        ensures back { result.1 ≡ tail_of self }
        ensures heap { heap_of result.0 ≡ heap_of self }
        ensures control { control_of result.0 ≡ control_of self }
        ensures durable { durable_of result.0 ≡ durable_of self }
        ensures running { has_failed result.0 ≡ has_failed self }
    {
        let Core {
            heap,
            tail: old,
            control,
            durable,
            failed,
        } = self;
        (
            Core {
                heap,
                tail,
                control,
                durable,
                failed,
            },
            old,
        )
    }
}
