//! Makes a core of what a restart has left.
ghost use Rattle.laws_checkpoints.specs.CheckpointedStores.{CheckpointedStore};
ghost use Rattle.std.specs.Prelude.{◌≡◌, ◌+◌, ◌≤◌, [], ℕ, List, false, length};
ghost use Rattle.shore_types.specs.declared.layout.TheConstants.{LAST_OPENED};
ghost use Rattle.laws_calls.specs.States.{State, page_slots};
ghost use Rattle.shore_heap.specs.Heaps.{Shows};
ghost use Rattle.shore_sessions.specs.Controls.{txns_in};
ghost use Rattle.shore_sessions.specs.Standing.{HasControl};
ghost use Rattle.shore_txn.specs.Transactions as table;
ghost use Rattle.shore_txn.specs.Transactions.{kept_in, room_in};
ghost use Rattle.shore_txn.specs.Txns.{last_of};
ghost use Rattle.shore_txn.specs.declared.txn.Txn.{Txn};
ghost use Rattle.laws_lives.specs.Views.{IsAmong};
ghost use Rattle.shore_core.specs.Stores.{IsHeapOf};

use crate::core_calls::Core;
use shore_disk::Disk;
use shore_heap::Heap;
use shore_log::PlainTail;
use shore_sessions::Control;
use shore_types::Lsn;
use std::alloc::Global;

impl<V: Disk> Core<PlainTail, V> {
    ghost use Rattle.shore_core.specs.Cores.{IsIn, IsKept, IsOver, durable_of, first_of, has_failed, heap_of, control_of, waiting_of};

    /// The core over a heap whose pages show a log with no transaction under way but those in doubt, which the control has: what a restart has left. `last` is
    /// the number of the log's last record, and `durable` that up to which it is durable.
    pub fn over(
        alloc: Global,
        heap: Heap<V>,
        control: Control,
        last: Lsn,
        durable: Lsn,
    ) -> Core<PlainTail, V>
        requires earlier { (t : Txn) → IsAmong t (table.txns_in (txns_in control)) → last_of t ≤ last }
        requires durable { durable ≤ last }
        requires few { last + 1 + (room_in (txns_in control)).reserved ≤ LAST_OPENED }
        ensures heap { heap_of result ≡ heap }
        ensures control { control_of result ≡ control }
        ensures durable { durable_of result ≡ durable }
        ensures first { first_of result ≡ last + 1 }
        ensures waiting { waiting_of result ≡ [] }
        ensures running { has_failed result ≡ false }

        // It is in each state that table, log and pages stand for.
        ensures state { (front : List ℕ) (disk : ℕ → List ℕ) (s : State) → length s.log ≡ last → s.durable ≡ durable → s.failed ≡ false
            → HasControl control s → Shows (kept_in (txns_in control)) heap front disk (page_slots s) → IsIn front disk s.log result s }
        ensures over { (disk : ℕ → List ℕ) (s : State) (store : CheckpointedStore) → IsKept s store → IsHeapOf heap disk store → IsOver disk result s store }
    {
        Core {
            heap,
            tail: PlainTail::new(alloc, Lsn(last.0 + 1)),
            control,
            durable,
            failed: false,
        }
    }
}
