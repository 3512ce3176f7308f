//! A volume that is made to fail.
ghost use Rattle.laws_checkpoints.specs.CheckpointedStores.{CheckpointedStore};
ghost use Rattle.std.specs.Prelude.{◌≡◌, ℕ, List};
ghost use Rattle.shore_heap.specs.Heaps.{KeepsVolume};
ghost use Rattle.laws_calls.specs.States.{State};
ghost use Rattle.shore_model.specs.declared.log_records.LogRecord.{LogRecord};
ghost use Rattle.shore_txn.specs.Transactions.{room_in};

use crate::core_calls::Core;
use shore_disk::{Disk, FuseDisk};
use shore_log::Tail;

impl<T: Tail, V: Disk> Core<T, FuseDisk<V>> {
    ghost use Rattle.shore_disk.specs.Fuse.{fuse_calls, fuse_inner};
    ghost use Rattle.shore_core.specs.Cores.{control_of, IsIn, IsOver, durable_of, faults_of, geometry_of, has_failed, heap_of, history_of, tail_of, volume_of, txns_of};

    /// Lets so many more writes and syncs of the volume pass; then every call of it fails.
    pub fn set_volume_fuse(&mut self, calls: u64)
        ensures calls { fuse_calls (volume_of self.new) ≡ calls }
        ensures inner { fuse_inner (volume_of self.new) ≡ fuse_inner (volume_of self.old) }
        ensures state { (front : List ℕ) (disk : ℕ → List ℕ) (before : List LogRecord) (s : State) → IsIn front disk before self.old s → IsIn front disk before self.new s }
        ensures over { (disk : ℕ → List ℕ) (s : State) (store : CheckpointedStore) → IsOver disk self.old s store → IsOver disk self.new s store }
        ensures volume { KeepsVolume (heap_of self.old) (heap_of self.new) }
        ensures geometry { geometry_of self.new ≡ geometry_of self.old }
        ensures tail { tail_of self.new ≡ tail_of self.old }
        ensures durable { durable_of self.new ≡ durable_of self.old }
        ensures running { has_failed self.new ≡ has_failed self.old }
        ensures control { control_of self.new ≡ control_of self.old }
        ensures history { history_of self.new ≡ history_of self.old }
        ensures faults { faults_of self.new ≡ faults_of self.old }
        ensures ring { (room_in (txns_of self.new)).stream_bytes ≡ (room_in (txns_of self.old)).stream_bytes }
    {
        self.heap.set_fuse(calls);
    }
}
