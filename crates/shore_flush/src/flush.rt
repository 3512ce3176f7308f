//! Which pages go into a batch, and their way to the volume.
ghost use Rattle.std.specs.Prelude.{IsTrue, option_map, ◌≡◌, ◌⊎◌, ◌+◌, ◌<◌, ◌≤◌, ℕ, [], List, All, IfErr, IfOk, MatchResult, length};
ghost use Rattle.shore_disk.specs.Cause.{HasCause};
ghost use Rattle.shore_disk.specs.Device.{LeavesOnly, size};
ghost use Rattle.shore_dwrite.specs.Shown.{RiseFrom};
ghost use Rattle.shore_dwrite.specs.Syncs.{syncs_of};
ghost use Rattle.shore_types.specs.declared.faults.Fault.TheVariants as Fault;
ghost use Rattle.shore_types.specs.declared.layout.TheConstants.{MAX_BATCH_PAGES};
ghost use Rattle.shore_pool.specs.Batches.{AreDue};
ghost use Rattle.shore_pool.specs.Changes.{settled};
ghost use Rattle.shore_pool.specs.declared.amid.Amid.TheVariants as Amid;
ghost use Rattle.shore_pool.specs.Pools.{PoolHolds, LeavesPages, WroteBack, amid_of, count_of, faults_of, frame_at, geometry_of, history_of, honesty_of, limit_of};
ghost use Rattle.shore_flush.specs.Batches.{pages_of};
ghost use Rattle.shore_flush.specs.Flushes.{AreFirst, Flushes, GoesOn, GoesOnFrom, NoneDue};

use shore_disk::Disk;
use shore_pool::{Amid, BatchPages, Pool};
use shore_types::{Fault, Lsn};

/// Pages that are written together, by their numbers on the volume.
#[derive(Drop)]
pub struct Batch {
    // They rise and are due, as `choose` says.
    pages: BatchPages,
}

impl Batch {
    pub fn pages(&self) -> &[u32]
        ensures { result.now ≡ pages_of self.now }
    {
        &self.pages
    }
}

/// The first dirty pages of the volume with numbers up to the durable one: all of them, or as many as a batch may have.
pub fn choose<D: Disk>(pool: &Pool<D>, durable: Lsn) -> Batch
    ensures rise { RiseFrom 0 (pages_of result) }
    ensures most { length (pages_of result) ≤ MAX_BATCH_PAGES }
    ensures due { AreDue pool.now durable (pages_of result) }
    ensures first { AreFirst pool.now durable (pages_of result) }
    ensures none { pages_of result ≡ [] → NoneDue pool.now durable }
{
    Batch {
        pages: pool.due(0, durable),
    }
}

/// Writes a batch of pages back, and answers how many. It takes no memory.
pub fn flush_step<D: Disk>(pool: &mut Pool<D>, durable: Lsn) -> Result<usize, Fault>
    ensures flushed { IfOk result (λ count. Flushes pool.old pool.new durable count) }
    ensures refused { IfErr result (λ fault. (fault ≡ Fault.Device) × ((k : ℕ) → frame_at pool.new k ≡ frame_at pool.old k)) }
    ensures kept { (front : List ℕ) (disk : ℕ → List ℕ) → PoolHolds pool.old front disk
        → MatchResult result (λ _. WroteBack pool.old pool.new durable front disk) (λ fault. (fault ≡ Fault.Device) ⊎ WroteBack pool.old pool.new durable front disk) }

    // A crash at any moment of the call leaves pages that are old, or those of their frames with durable numbers.
    ensures any_moment { (front : List ℕ) (disk : ℕ → List ℕ) → PoolHolds pool.old front disk
        → LeavesOnly (history_of pool.old) (history_of pool.new) (LeavesPages pool.old durable front disk) }

    // An answer of 0 has changed nothing.
    ensures idle { IfOk result (λ count. count ≡ 0 → pool.new ≡ pool.old) }
    ensures honest { honesty_of pool.new ≡ honesty_of pool.old }
    ensures size { size (history_of pool.new) ≡ size (history_of pool.old) }
    ensures count { count_of pool.new ≡ count_of pool.old }
    ensures limit { limit_of pool.new ≡ limit_of pool.old }
    ensures geometry { geometry_of pool.new ≡ geometry_of pool.old }
    ensures cause { HasCause result (faults_of pool.old) (faults_of pool.new) }
{
    let batch = choose(pool, durable);
    let pages = batch.pages();
    if pages.is_empty() {
        return Ok(0);
    }
    pool.finish()?;
    pool.write(pages)?;
    Ok(pages.len())
}

/// Makes one of the four syncs of a batch: it begins one if none is under way, or goes on with the one that is. Answers whether there was anything to do.
/// Pages are written, and clean, by the second.
pub fn flush_on<D: Disk>(pool: &mut Pool<D>, durable: Lsn) -> Result<bool, Fault>
    ensures frames { (k : ℕ) → (frame_at pool.new k ≡ frame_at pool.old k) ⊎ (frame_at pool.new k ≡ option_map settled (frame_at pool.old k)) }
    ensures refused { IfErr result (λ fault. (fault ≡ Fault.Device) × ((k : ℕ) → frame_at pool.new k ≡ frame_at pool.old k)) }
    ensures kept { (front : List ℕ) (disk : ℕ → List ℕ) → PoolHolds pool.old front disk
        → MatchResult result (λ _. WroteBack pool.old pool.new durable front disk) (λ fault. (fault ≡ Fault.Device) ⊎ WroteBack pool.old pool.new durable front disk) }

    // A crash at any moment of the call leaves pages that are old, or those of their frames with durable numbers.
    ensures any_moment { (front : List ℕ) (disk : ℕ → List ℕ) → PoolHolds pool.old front disk
        → LeavesOnly (history_of pool.old) (history_of pool.new) (LeavesPages pool.old durable front disk) }

    // Each turn goes on, and none is left out while a page is due. It makes one sync at most.
    ensures goes_on { IfOk result (λ made. GoesOn pool.old pool.new durable made) }
    ensures syncs { IsTrue (honesty_of pool.old) → syncs_of (history_of pool.new) ≤ syncs_of (history_of pool.old) + 1 }
    ensures honest { honesty_of pool.new ≡ honesty_of pool.old }
    ensures size { size (history_of pool.new) ≡ size (history_of pool.old) }
    ensures limit { limit_of pool.new ≡ limit_of pool.old }
    ensures geometry { geometry_of pool.new ≡ geometry_of pool.old }
    ensures cause { HasCause result (faults_of pool.old) (faults_of pool.new) }
{
    match pool.amid() {
        Amid::Rest => begin_on(pool, durable),
        Amid::Written => open_on(pool, durable),
        Amid::Opened => {
            pool.place()?;
            Ok(true)
        }
        Amid::Placed => {
            pool.end()?;
            Ok(true)
        }
    }
}

// Begins a batch, if a page is due.
fn begin_on<D: Disk>(pool: &mut Pool<D>, durable: Lsn) -> Result<bool, Fault>
    requires { amid_of pool.old ≡ Amid.Rest }
    ensures frames { (k : ℕ) → (frame_at pool.new k ≡ frame_at pool.old k) ⊎ (frame_at pool.new k ≡ option_map settled (frame_at pool.old k)) }
    ensures refused { IfErr result (λ fault. (fault ≡ Fault.Device) × ((k : ℕ) → frame_at pool.new k ≡ frame_at pool.old k)) }
    ensures kept { (front : List ℕ) (disk : ℕ → List ℕ) → PoolHolds pool.old front disk
        → MatchResult result (λ _. WroteBack pool.old pool.new durable front disk) (λ fault. (fault ≡ Fault.Device) ⊎ WroteBack pool.old pool.new durable front disk) }
    ensures any_moment { (front : List ℕ) (disk : ℕ → List ℕ) → PoolHolds pool.old front disk
        → LeavesOnly (history_of pool.old) (history_of pool.new) (LeavesPages pool.old durable front disk) }
    ensures goes_on { IfOk result (λ made. GoesOnFrom Amid.Rest pool.old pool.new durable made) }
    ensures syncs { IsTrue (honesty_of pool.old) → syncs_of (history_of pool.new) ≤ syncs_of (history_of pool.old) + 1 }
    ensures honest { honesty_of pool.new ≡ honesty_of pool.old }
    ensures size { size (history_of pool.new) ≡ size (history_of pool.old) }
    ensures limit { limit_of pool.new ≡ limit_of pool.old }
    ensures geometry { geometry_of pool.new ≡ geometry_of pool.old }
    ensures cause { HasCause result (faults_of pool.old) (faults_of pool.new) }
{
    let batch = choose(pool, durable);
    let pages = batch.pages();
    if pages.is_empty() {
        return Ok(false);
    }
    pool.begin(pages)?;
    Ok(true)
}

// Opens the gate of a batch. Its pages are due still, since none was changed; it is given up if they are not.
fn open_on<D: Disk>(pool: &mut Pool<D>, durable: Lsn) -> Result<bool, Fault>
    requires { amid_of pool.old ≡ Amid.Written }
    ensures frames { (k : ℕ) → (frame_at pool.new k ≡ frame_at pool.old k) ⊎ (frame_at pool.new k ≡ option_map settled (frame_at pool.old k)) }
    ensures refused { IfErr result (λ fault. (fault ≡ Fault.Device) × ((k : ℕ) → frame_at pool.new k ≡ frame_at pool.old k)) }
    ensures kept { (front : List ℕ) (disk : ℕ → List ℕ) → PoolHolds pool.old front disk
        → MatchResult result (λ _. WroteBack pool.old pool.new durable front disk) (λ fault. (fault ≡ Fault.Device) ⊎ WroteBack pool.old pool.new durable front disk) }
    ensures any_moment { (front : List ℕ) (disk : ℕ → List ℕ) → PoolHolds pool.old front disk
        → LeavesOnly (history_of pool.old) (history_of pool.new) (LeavesPages pool.old durable front disk) }
    ensures goes_on { IfOk result (λ made. GoesOnFrom Amid.Written pool.old pool.new durable made) }
    ensures syncs { IsTrue (honesty_of pool.old) → syncs_of (history_of pool.new) ≤ syncs_of (history_of pool.old) + 1 }
    ensures honest { honesty_of pool.new ≡ honesty_of pool.old }
    ensures size { size (history_of pool.new) ≡ size (history_of pool.old) }
    ensures limit { limit_of pool.new ≡ limit_of pool.old }
    ensures geometry { geometry_of pool.new ≡ geometry_of pool.old }
    ensures cause { HasCause result (faults_of pool.old) (faults_of pool.new) }
{
    if !pool.is_up_to(durable) {
        pool.finish()?;
        return Ok(true);
    }
    pool.open()?;
    Ok(true)
}
