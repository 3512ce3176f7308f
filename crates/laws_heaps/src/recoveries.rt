//! The laws of the recovery numbers of a heap's pages, each stated as the contract of an empty function.
ghost use Rattle.std.specs.Prelude.{◌≡◌, ◌+◌, ◌-◌, ◌<◌, ◌≤◌, ℕ, All, IsTrue, List, None, Some, is_some, length, map, option_map, slice_get};
ghost use Rattle.shore_types.specs.Images.{Image};
ghost use Rattle.shore_types.specs.Layout.{HasPage};
ghost use Rattle.shore_types.specs.declared.ids.PageId.{PageId};
ghost use Rattle.shore_types.specs.declared.ids.Rid.{Rid};
ghost use Rattle.shore_model.specs.declared.log_records.DirtyPage.{DirtyPage};
ghost use Rattle.shore_model.specs.declared.log_records.LogRecord.{LogRecord};
ghost use Rattle.shore_model.specs.Logs.{image_in};
ghost use Rattle.shore_pool.specs.declared.frame.Frame.{Frame};
ghost use Rattle.shore_pool.specs.Pools.{PoolHolds};
ghost use Rattle.shore_heap.specs.Dirty.{HasAllDirty, IsDirtyIn};
ghost use Rattle.shore_heap.specs.declared.heap.Heap.{Heap};
ghost use Rattle.shore_heap.specs.Heaps.{StayInPlace, frame_at, frame_of, geometry_of, pool_of};
ghost use Rattle.laws_lives.specs.DirtyPages.{HasAllUpTo};
ghost use Rattle.laws_lives.specs.ManagerSteps.{WorksTo};
ghost use Rattle.laws_lives.specs.Pages.{LacksNone};
ghost use Rattle.laws_lives.specs.Recovery.{AppendRecord, IsRecoverable, RecoveryEvent, RecoveryState, RedoRecord};
ghost use Rattle.laws_lives.specs.Restarts.{RestartsTo};
ghost use Rattle.laws_checkpoints.specs.CheckpointedStores.{CheckpointedLeadTo, CheckpointedStore, StoreEvent};
ghost use Rattle.laws_checkpoints.specs.RecoveryNumbers.{IsDirtyTableOf, RecoveryNumbers, recovery_after};
ghost use Rattle.laws_checkpoints.specs.StoresInOrder.{AreRecoveryNumbers};
ghost use Rattle.laws_heaps.specs.HeapRecoveries.{HasRecoveries};
ghost use Rattle.laws_heaps.specs.LoggedHeaps.{IsMade, IsStoreOf};

use shore_disk::Disk;

/// A page that was clean, and that a record changes, gets the number of that record; any other keeps its own. So it is for a record that is appended, and
/// for one that is redone, also if the page has it already (`passed`). A record without an image leaves them all.
pub fn changes_note_recoveries<D: Disk>()
    ensures appended { (old new : Heap D D.Disk) (s : RecoveryState) (recovery : RecoveryNumbers) (r : LogRecord) (id : Rid) (image : Image) →
        HasRecoveries old recovery → IsRecoverable s → s.redone ≡ length s.log → image_in r.payload ≡ Some (id, image) → HasPage (geometry_of old) id.page →
        IsTrue (is_some (frame_of old id.page)) → IsMade old new (length s.log + 1) id image → geometry_of new ≡ geometry_of old →
        HasRecoveries new (recovery_after s (AppendRecord r) recovery) }
    ensures redone { (old new : Heap D D.Disk) (s : RecoveryState) (recovery : RecoveryNumbers) (r : LogRecord) (id : Rid) (image : Image) →
        HasRecoveries old recovery → slice_get s.log s.redone ≡ Some r → image_in r.payload ≡ Some (id, image) → HasPage (geometry_of old) id.page →
        IsTrue (is_some (frame_of old id.page)) → (s.in_place id.page).number ≤ s.redone → IsMade old new (s.redone + 1) id image → geometry_of new ≡ geometry_of old →
        HasRecoveries new (recovery_after s RedoRecord recovery) }
    ensures passed { (heap : Heap D D.Disk) (s : RecoveryState) (recovery : RecoveryNumbers) (r : LogRecord) (id : Rid) (image : Image) →
        HasRecoveries heap recovery → slice_get s.log s.redone ≡ Some r → image_in r.payload ≡ Some (id, image) → s.redone < (s.in_place id.page).number →
        HasRecoveries heap (recovery_after s RedoRecord recovery) }
    ensures without { (heap : Heap D D.Disk) (s : RecoveryState) (recovery : RecoveryNumbers) (r : LogRecord) →
        HasRecoveries heap recovery → image_in r.payload ≡ None →
        HasRecoveries heap (recovery_after s (AppendRecord r) recovery) × (slice_get s.log s.redone ≡ Some r → HasRecoveries heap (recovery_after s RedoRecord recovery)) }
{}

/// Pages that a call of the heap has written back are flushes of a checkpointed store, after which the numbers are the heap's again: each page that is clean
/// now has none, and one that is dirty still has kept its own.
pub fn pages_written_back_have_no_recoveries<D: Disk>()
    ensures { (old new : Heap D D.Disk) (seen : ℕ) (front : List ℕ) (disk left : ℕ → List ℕ) (c : CheckpointedStore) →
        IsStoreOf old disk c.store → HasRecoveries old c.recovery → IsRecoverable c.store → PoolHolds (pool_of new) front left → StayInPlace old new seen disk left →
        seen ≤ c.store.durable → geometry_of new ≡ geometry_of old →
        (works : List RecoveryEvent) × (later : CheckpointedStore) × CheckpointedLeadTo c (map StoreEvent works) later × WorksTo c.store works later.store
        × RestartsTo c.store works later.store × IsStoreOf new left later.store × HasRecoveries new later.recovery
        × (later ≡ record c { store = record c.store { volume = later.store.volume }; recovery = later.recovery }) }
{}

/// A heap with no page in a frame has no dirty page (`opened`). Calls that make no page dirty or clean leave the numbers (`unmoved`).
pub fn clean_heaps_have_no_recoveries<D: Disk>()
    ensures opened { (heap : Heap D D.Disk) → ((k : ℕ) → frame_at heap k ≡ None) → HasRecoveries heap (λ p. 0) }
    ensures unmoved { (old new : Heap D D.Disk) (recovery : RecoveryNumbers) → HasRecoveries old recovery →
        ((k : ℕ) → option_map (λ f. f.recovery) (frame_at new k) ≡ option_map (λ f. f.recovery) (frame_at old k)) → geometry_of new ≡ geometry_of old → HasRecoveries new recovery }
{}

/// The list of dirty pages that a heap answers is the table that a checkpoint takes: it has each dirty page with its recovery number, and no other.
pub fn heaps_list_their_dirty_pages<D: Disk>()
    ensures { (heap : Heap D D.Disk) (recovery : RecoveryNumbers) (list : List DirtyPage) → HasRecoveries heap recovery → All (IsDirtyIn heap) list → HasAllDirty heap list →
        IsDirtyTableOf recovery list }
{}

/// What the volume's page lacks of a dirty one is nothing below its recovery number: each record before it that changes the page is on it (`dirty`). A page
/// that is clean, or in no frame, is on the volume as it is in place (`clean`).
pub fn volumes_lack_nothing_below<D: Disk>()
    ensures dirty { (heap : Heap D D.Disk) (c : CheckpointedStore) (p : PageId) (f : Frame) (number : ℕ) → HasRecoveries heap c.recovery → AreRecoveryNumbers c → IsRecoverable c.store →
        HasPage (geometry_of heap) p → frame_of heap p ≡ Some f → f.recovery ≡ Some number →
        HasAllUpTo c.store.log p (c.store.volume p) (number - 1) × LacksNone c.store.log p (number - 1) (c.store.volume p) }
    ensures clean { (heap : Heap D D.Disk) (c : CheckpointedStore) (p : PageId) → HasRecoveries heap c.recovery → AreRecoveryNumbers c → HasPage (geometry_of heap) p →
        (frame_of heap p ≡ None → c.store.volume p ≡ c.store.in_place p)
        × ((f : Frame) → frame_of heap p ≡ Some f → f.recovery ≡ None → c.store.volume p ≡ c.store.in_place p) }
{}
