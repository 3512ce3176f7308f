//! The laws that join a heap with its store, each stated as the contract of an empty function.
ghost use Rattle.std.specs.Prelude.{◌≡◌, ◌≢◌, ◌+◌, ◌<◌, ◌≤◌, [], ℕ, IsTrue, List, None, Some, is_some, length, slice_get, take};
ghost use Rattle.shore_disk.specs.Device.{may_leave};
ghost use Rattle.shore_types.specs.Images.{Image};
ghost use Rattle.shore_types.specs.Layout.{HasPage};
ghost use Rattle.shore_types.specs.declared.ids.PageId.{PageId};
ghost use Rattle.shore_types.specs.declared.ids.Rid.{Rid};
ghost use Rattle.shore_types.specs.declared.layout.Geometry.{Geometry};
ghost use Rattle.shore_model.specs.declared.log_records.LogRecord.{LogRecord};
ghost use Rattle.shore_model.specs.Logs.{image_in};
ghost use Rattle.laws_lives.specs.Pages.{LoggedPages, empty_page};
ghost use Rattle.laws_lives.specs.Recovery.{AppendRecord, CrashMayLeave, ForceLog, IsRecoverable, LeadsTo, RecoveryEvent, RecoveryState, RedoRecord, after_append, after_force, after_redo};
ghost use Rattle.laws_lives.specs.Restarts.{RestartsTo};
ghost use Rattle.laws_lives.specs.ManagerSteps.{WorksTo};
ghost use Rattle.laws_runs.specs.SlotCounts.{slots_left};
ghost use Rattle.shore_page.specs.Slots.{Slot};
ghost use Rattle.shore_dwrite.specs.Shown.{ShowsBehind};
ghost use Rattle.shore_dwrite.specs.Volumes.{AreEmpty};
ghost use Rattle.shore_pool.specs.declared.frame.Frame.{Frame};
ghost use Rattle.shore_pool.specs.Pages.{SamePages};
ghost use Rattle.shore_pool.specs.Pools.{PoolHolds};
ghost use Rattle.shore_heap.specs.Contents.{AreBounds, AreKept, unclaimed};
ghost use Rattle.shore_heap.specs.declared.heap.Heap.{Heap};
ghost use Rattle.shore_heap.specs.Heaps.{LeavesPages, Shows, StayInPlace, bounds_of, frame_at, frame_of, geometry_of, history_of, pool_of};
ghost use Rattle.laws_heaps.specs.LoggedHeaps.{AreSettled, AreTextsOf, IsMade, IsReleased, IsSamePage, IsStoreOf, LeavesStore, slots_in_place};
ghost use Rattle.laws_runs.specs.SoundStores.{found_state};

use shore_disk::Disk;

/// Pages that a call of the heap has written back are work of its store, which comes to the volume that is left: a flush of each page that was
/// written, and nothing else of the store is another. It is work of a manager, and of a restart too.
pub fn pages_written_back_are_work<D: Disk>()
    ensures { (old new : Heap D D.Disk) (seen : ℕ) (disk left : ℕ → List ℕ) (s : RecoveryState) →
        IsStoreOf old disk s → StayInPlace old new seen disk left → seen ≤ s.durable → geometry_of new ≡ geometry_of old →
        (works : List RecoveryEvent) × (later : RecoveryState) × WorksTo s works later × RestartsTo s works later × IsStoreOf new left later
        × (later.log ≡ s.log) × (later.durable ≡ s.durable) × (later.redone ≡ s.redone) × (later.in_place ≡ s.in_place) }
{}

/// A call that wrote no page leaves the heap its store: each page is what it was, be it in a frame or on the volume alone. So does one that
/// changed claims alone.
pub fn only_reads_keep_the_store<D: Disk>()
    ensures unwritten { (old new : Heap D D.Disk) (disk : ℕ → List ℕ) (s : RecoveryState) →
        IsStoreOf old disk s → SamePages (geometry_of old).version (frame_at old) disk (frame_at new) disk → geometry_of new ≡ geometry_of old → IsStoreOf new disk s }
    ensures same_frames { (old new : Heap D D.Disk) (disk : ℕ → List ℕ) (s : RecoveryState) →
        IsStoreOf old disk s → ((k : ℕ) → frame_at new k ≡ frame_at old k) → geometry_of new ≡ geometry_of old → IsStoreOf new disk s }
{}

/// A change made on a page in a frame, under the number of the record that tells it, is that record done on its page: the next one of the log in
/// a run (`appended`), or one that is redone (`redone`). One that the page has already (`passed`) leaves the heap as it is, and so does one
/// without an image (`without`).
pub fn changes_are_records<D: Disk>()
    ensures appended { (old new : Heap D D.Disk) (disk : ℕ → List ℕ) (s : RecoveryState) (r : LogRecord) (id : Rid) (image : Image) →
        IsStoreOf old disk s → IsRecoverable s → s.redone ≡ length s.log → image_in r.payload ≡ Some (id, image) →
        HasPage (geometry_of old) id.page → IsTrue (is_some (frame_of old id.page)) → IsMade old new (length s.log + 1) id image → geometry_of new ≡ geometry_of old →
        LeadsTo s (AppendRecord r) (after_append s r) × IsStoreOf new disk (after_append s r) }
    ensures redone { (old new : Heap D D.Disk) (disk : ℕ → List ℕ) (s : RecoveryState) (r : LogRecord) (id : Rid) (image : Image) →
        IsStoreOf old disk s → slice_get s.log s.redone ≡ Some r → image_in r.payload ≡ Some (id, image) →
        HasPage (geometry_of old) id.page → IsTrue (is_some (frame_of old id.page)) → (s.in_place id.page).number ≤ s.redone →
        IsMade old new (s.redone + 1) id image → geometry_of new ≡ geometry_of old →
        LeadsTo s RedoRecord (after_redo s r) × IsStoreOf new disk (after_redo s r) }
    ensures passed { (heap : Heap D D.Disk) (disk : ℕ → List ℕ) (s : RecoveryState) (r : LogRecord) (id : Rid) (image : Image) →
        IsStoreOf heap disk s → slice_get s.log s.redone ≡ Some r → image_in r.payload ≡ Some (id, image) → s.redone < (s.in_place id.page).number →
        LeadsTo s RedoRecord (after_redo s r) × IsStoreOf heap disk (after_redo s r) }
    ensures without { (heap : Heap D D.Disk) (disk : ℕ → List ℕ) (s : RecoveryState) (r : LogRecord) →
        IsStoreOf heap disk s → slice_get s.log s.redone ≡ Some r → image_in r.payload ≡ None →
        LeadsTo s RedoRecord (after_redo s r) × IsStoreOf heap disk (after_redo s r) }
{}

/// A record without an image changes no page, and neither does a force.
pub fn records_without_images_change_no_page<D: Disk>()
    ensures appended { (heap : Heap D D.Disk) (disk : ℕ → List ℕ) (s : RecoveryState) (r : LogRecord) →
        IsStoreOf heap disk s → IsRecoverable s → s.redone ≡ length s.log → image_in r.payload ≡ None →
        LeadsTo s (AppendRecord r) (after_append s r) × IsStoreOf heap disk (after_append s r) }
    ensures forced { (heap : Heap D D.Disk) (disk : ℕ → List ℕ) (s : RecoveryState) (n : ℕ) →
        IsStoreOf heap disk s → s.durable ≤ n → n ≤ length s.log → LeadsTo s (ForceLog n) (after_force s n) × IsStoreOf heap disk (after_force s n) }
{}

/// An image of the volume that a crash leaves in the midst of a call that writes pages back shows pages that a crash may leave of the store
/// (`amid`); between two calls it shows the pages of the volume (`settled`). It shows them also for a log that a crash has cut behind the numbers
/// of these pages (`cut`).
pub fn crashes_leave_pages<D: Disk>()
    ensures amid { (heap : Heap D D.Disk) (seen : ℕ) (front : List ℕ) (disk : ℕ → List ℕ) (s : RecoveryState) (image : List ℕ) →
        IsStoreOf heap disk s → LeavesPages heap seen front disk image → seen ≤ s.durable →
        (left : LoggedPages) × CrashMayLeave s left × LeavesStore s.log (geometry_of heap) front left image }
    ensures settled { (heap : Heap D D.Disk) (front : List ℕ) (disk : ℕ → List ℕ) (s : RecoveryState) (image : List ℕ) →
        IsStoreOf heap disk s → PoolHolds (pool_of heap) front disk → may_leave (history_of heap) image → LeavesStore s.log (geometry_of heap) front s.volume image }
    ensures cut { (log : List LogRecord) (g : Geometry) (front : List ℕ) (pages : LoggedPages) (image : List ℕ) (n : ℕ) →
        LeavesStore log g front pages image → ((p : PageId) → (pages p).number ≤ n) → LeavesStore (take n log) g front pages image }
{}

/// A heap with no page in a frame, over texts that such an image shows, is a store's: it has the log, all of it durable, and nothing is redone on its
/// pages (`opened`). Any texts that the image shows are texts of the same pages (`shown`). Of no log the pages are empty (`empty`).
pub fn opened_heaps_have_what_was_left<D: Disk>()
    ensures opened { (heap : Heap D D.Disk) (log : List LogRecord) (texts : ℕ → List ℕ) (pages : LoggedPages) →
        AreTextsOf log (geometry_of heap) texts pages → ((k : ℕ) → frame_at heap k ≡ None) →
        IsStoreOf heap texts (found_state log pages) × AreSettled heap }
    ensures shown { (log : List LogRecord) (g : Geometry) (front : List ℕ) (texts : ℕ → List ℕ) (pages : LoggedPages) (image : List ℕ) →
        LeavesStore log g front pages image → ShowsBehind g front texts image → AreTextsOf log g texts pages }
    ensures empty { (g : Geometry) (texts : ℕ → List ℕ) → AreEmpty g texts → AreTextsOf [] g texts (λ p. empty_page) }
{}

/// A heap whose frames claim what their records take shows the pages of its store in place, if the bounds of its pages are right of these. Once
/// all records are done they are what the log leaves (`whole`, `slots`). It shows no other (`only`), and each of these may leave its frame (`kept`).
pub fn settled_heaps_show<D: Disk>()
    ensures in_place { (heap : Heap D D.Disk) (front : List ℕ) (disk : ℕ → List ℕ) (s : RecoveryState) →
        IsStoreOf heap disk s → AreSettled heap → PoolHolds (pool_of heap) front disk → AreBounds (geometry_of heap) (bounds_of heap) (slots_in_place s) →
        Shows unclaimed heap front disk (slots_in_place s) }
    ensures whole { (heap : Heap D D.Disk) (front : List ℕ) (disk : ℕ → List ℕ) (s : RecoveryState) →
        IsStoreOf heap disk s → IsRecoverable s → s.redone ≡ length s.log → AreSettled heap → PoolHolds (pool_of heap) front disk →
        AreBounds (geometry_of heap) (bounds_of heap) (slots_left s.log) → Shows unclaimed heap front disk (slots_left s.log) }
    ensures only { (heap : Heap D D.Disk) (front : List ℕ) (disk : ℕ → List ℕ) (s : RecoveryState) (S : PageId → List Slot) →
        IsStoreOf heap disk s → AreSettled heap → Shows unclaimed heap front disk S → (p : PageId) → HasPage (geometry_of heap) p → S p ≡ slots_in_place s p }
    ensures kept { (heap : Heap D D.Disk) (disk : ℕ → List ℕ) (s : RecoveryState) → IsStoreOf heap disk s → AreKept (geometry_of heap) unclaimed (slots_in_place s) }
    ensures slots { (heap : Heap D D.Disk) (disk : ℕ → List ℕ) (s : RecoveryState) →
        IsStoreOf heap disk s → IsRecoverable s → s.redone ≡ length s.log → (p : PageId) → HasPage (geometry_of heap) p → slots_in_place s p ≡ slots_left s.log p }
{}

/// A page in a frame has the number of the store's page in place (`number`). If no record above those that are done is on it, and the frame claims
/// what its records take, it has the slots that the records done leave: what the next record has to fit, be it redone (`due`) or, if all are done,
/// appended (`whole`).
pub fn frames_have_what_is_left<D: Disk>()
    ensures number { (heap : Heap D D.Disk) (disk : ℕ → List ℕ) (s : RecoveryState) (p : PageId) (f : Frame) →
        IsStoreOf heap disk s → HasPage (geometry_of heap) p → frame_of heap p ≡ Some f → f.page.number ≡ (s.in_place p).number }
    ensures due { (heap : Heap D D.Disk) (disk : ℕ → List ℕ) (s : RecoveryState) (p : PageId) (f : Frame) →
        IsStoreOf heap disk s → IsRecoverable s → AreSettled heap → HasPage (geometry_of heap) p → frame_of heap p ≡ Some f →
        (s.in_place p).number ≤ s.redone → f.page.slots ≡ slots_left (take s.redone s.log) p }
    ensures whole { (heap : Heap D D.Disk) (disk : ℕ → List ℕ) (s : RecoveryState) (p : PageId) (f : Frame) →
        IsStoreOf heap disk s → IsRecoverable s → AreSettled heap → HasPage (geometry_of heap) p → frame_of heap p ≡ Some f →
        s.redone ≡ length s.log → f.page.slots ≡ slots_left s.log p }
{}

/// Frames claim what their records take if the slots do that the heap shows (`shown`), and after a change whose slot then keeps what its record
/// takes and no more (`changed`).
pub fn heaps_stay_settled<D: Disk>()
    ensures shown { (heap : Heap D D.Disk) (front : List ℕ) (disk : ℕ → List ℕ) (S : PageId → List Slot) →
        Shows unclaimed heap front disk S → AreKept (geometry_of heap) unclaimed S → AreSettled heap }
    ensures changed { (old mid new : Heap D D.Disk) (number : ℕ) (id : Rid) (image : Image) →
        AreSettled old → IsMade old mid number id image → geometry_of mid ≡ geometry_of old → IsReleased mid new id → AreSettled new }
{}

/// A heap is the store of one set of pages alone: of two stores of it each page has one number, and one image in each slot, in place and on the
/// volume.
pub fn heaps_have_one_store<D: Disk>()
    ensures { (heap : Heap D D.Disk) (disk : ℕ → List ℕ) (s t : RecoveryState) → IsStoreOf heap disk s → IsStoreOf heap disk t →
        (p : PageId) → IsSamePage (s.in_place p) (t.in_place p) × IsSamePage (s.volume p) (t.volume p) }
{}
