//! Pages as they go back to the volume.
ghost use Rattle.std.specs.Prelude.{◌≡◌, ◌⊎◌, ◌+◌, ◌≤◌, ℕ, List, IfErr, IfOk, IsTrue, MatchResult, length};
ghost use Rattle.shore_disk.specs.Cause.{HasCause};
ghost use Rattle.shore_disk.specs.Device.{LeavesOnly, size};
ghost use Rattle.shore_dwrite.specs.Syncs.{syncs_of};
ghost use Rattle.shore_flush.specs.Flushes.{Flushes, GoesOn};
ghost use Rattle.shore_page.specs.Slots.{Slot};
ghost use Rattle.shore_pool.specs.Pools.{PoolHolds, batch_of};
ghost use Rattle.shore_types.specs.declared.faults.Fault.TheVariants as Fault;
ghost use Rattle.shore_types.specs.declared.ids.PageId.{PageId};
ghost use Rattle.shore_heap.specs.Contents.{ClaimsOfPages};

use crate::heap::Heap;
use shore_disk::Disk;
use shore_flush::{flush_on, flush_step};
use shore_pool::Amid;
use shore_types::{Fault, Lsn};

impl<D: Disk> Heap<D> {
    ghost use Rattle.shore_heap.specs.Heaps.{KeepsSlots, LeavesPages, Shows, WroteBack, amid_of, bounds_of, faults_of, frame_at, geometry_of, history_of, honesty_of, limit_of, pool_of};

    /// Writes a batch of dirty pages back, the first of the volume, and answers how many: 0 only if no page is due. `durable` is the number up to
    /// which the log is durable; no page with a number above it is written. Pages stay in their frames, whatever is told of claims. It takes no
    /// memory. After `Device` the frames are as they were, and nothing is said of the volume but what a crash
    /// leaves of it.
    pub fn flush(&mut self, durable: Lsn) -> Result<usize, Fault>
        // What was written is clean, and all other frames are as they were.
        ensures flushed { IfOk result (λ count. Flushes (pool_of self.old) (pool_of self.new) durable count) }
        ensures idle { IfOk result (λ count. count ≡ 0 → pool_of self.new ≡ pool_of self.old) }
        ensures refused { IfErr result (λ fault. (fault ≡ Fault.Device) × ((k : ℕ) → frame_at self.new k ≡ frame_at self.old k)) }
        ensures kept { (K : ClaimsOfPages) (front : List ℕ) (disk : ℕ → List ℕ) (S : PageId → List Slot) → Shows K self.old front disk S
            → MatchResult result (λ _. KeepsSlots K self.old self.new durable front disk S) (λ fault. (fault ≡ Fault.Device) ⊎ KeepsSlots K self.old self.new durable front disk S) }

        // Whatever the pages hold: what is in place stays, and a crash leaves pages that are old, or those that were in place with durable numbers.
        ensures wrote { (front : List ℕ) (disk : ℕ → List ℕ) → PoolHolds (pool_of self.old) front disk
            → MatchResult result (λ _. WroteBack self.old self.new durable front disk) (λ fault. (fault ≡ Fault.Device) ⊎ WroteBack self.old self.new durable front disk) }
        ensures any_moment { (front : List ℕ) (disk : ℕ → List ℕ) → PoolHolds (pool_of self.old) front disk
            → LeavesOnly (history_of self.old) (history_of self.new) (LeavesPages self.old durable front disk) }
        ensures bounds { bounds_of self.new ≡ bounds_of self.old }
        ensures honest { honesty_of self.new ≡ honesty_of self.old }
        ensures size { size (history_of self.new) ≡ size (history_of self.old) }
        ensures geometry { geometry_of self.new ≡ geometry_of self.old }
        ensures limit { limit_of self.new ≡ limit_of self.old }
        ensures cause { HasCause result (faults_of self.old) (faults_of self.new) }
    {
        flush_step(&mut self.pool, durable)
    }

    /// How far the batch is that is on its way to the volume.
    pub fn amid(&self) -> Amid
        ensures { result ≡ amid_of self.now }
    {
        self.pool.amid()
    }

    /// How many pages the batch has that is under way, or was last.
    pub fn batch_pages(&self) -> usize
        ensures { result ≡ length (batch_of (pool_of self.now)) }
    {
        self.pool.batch_pages()
    }

    /// Makes one of the four syncs by which a batch of dirty pages is written back, the first of the volume: it begins one if none is under way, or goes on with
    /// the one that is. Answers whether there was anything to do. The batch's pages are written, and clean, by the second sync, whose durable number counts.
    pub fn flush_on(&mut self, durable: Lsn) -> Result<bool, Fault>
        ensures goes_on { IfOk result (λ made. GoesOn (pool_of self.old) (pool_of self.new) durable made) }
        ensures syncs { IsTrue (honesty_of self.old) → syncs_of (history_of self.new) ≤ syncs_of (history_of self.old) + 1 }
        ensures refused { IfErr result (λ fault. (fault ≡ Fault.Device) × ((k : ℕ) → frame_at self.new k ≡ frame_at self.old k)) }
        ensures kept { (K : ClaimsOfPages) (front : List ℕ) (disk : ℕ → List ℕ) (S : PageId → List Slot) → Shows K self.old front disk S
            → MatchResult result (λ _. KeepsSlots K self.old self.new durable front disk S) (λ fault. (fault ≡ Fault.Device) ⊎ KeepsSlots K self.old self.new durable front disk S) }

        // Whatever the pages hold: what is in place stays, and a crash leaves pages that are old, or those that were in place with durable numbers.
        ensures wrote { (front : List ℕ) (disk : ℕ → List ℕ) → PoolHolds (pool_of self.old) front disk
            → MatchResult result (λ _. WroteBack self.old self.new durable front disk) (λ fault. (fault ≡ Fault.Device) ⊎ WroteBack self.old self.new durable front disk) }
        ensures any_moment { (front : List ℕ) (disk : ℕ → List ℕ) → PoolHolds (pool_of self.old) front disk
            → LeavesOnly (history_of self.old) (history_of self.new) (LeavesPages self.old durable front disk) }
        ensures bounds { bounds_of self.new ≡ bounds_of self.old }
        ensures honest { honesty_of self.new ≡ honesty_of self.old }
        ensures size { size (history_of self.new) ≡ size (history_of self.old) }
        ensures geometry { geometry_of self.new ≡ geometry_of self.old }
        ensures limit { limit_of self.new ≡ limit_of self.old }
        ensures cause { HasCause result (faults_of self.old) (faults_of self.new) }
    {
        flush_on(&mut self.pool, durable)
    }
}
