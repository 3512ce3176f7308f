//! Laws, as functions that do nothing: what a scan is to the model, and which slots a heap shows.
ghost use Rattle.std.specs.Prelude.{◌≡◌, ℕ, List, None};
ghost use Rattle.shore_page.specs.Slots.{Slot};
ghost use Rattle.shore_types.specs.Layout.{HasPage};
ghost use Rattle.shore_types.specs.declared.ids.PageId.{PageId};
ghost use Rattle.shore_heap.specs.Contents.{ClaimsOfPages};
ghost use Rattle.shore_heap.specs.Heaps.{Shows, frame_of, geometry_of};
ghost use Rattle.shore_heap.specs.Scans.{PartsAsTheModel, ScansAsTheModel};

use crate::heap::Heap;
use shore_disk::Disk;

/// The records of a store in its pages, each once and with rising ids, are the model's scan of it.
pub fn scans_are_the_models()
    ensures { ScansAsTheModel }
{}

/// The records on some pages of a store, each once and with rising ids, are the model's part of it.
pub fn parts_are_the_models()
    ensures { PartsAsTheModel }
{}

/// What a heap shows is said by the pages of the volume alone.
pub fn pages_of_the_volume_decide<D: Disk>(heap: &Heap<D>)
    ensures { (K : ClaimsOfPages) (front : List ℕ) (disk : ℕ → List ℕ) (S T : PageId → List Slot) → ((id : PageId) → HasPage (geometry_of heap.now) id → T id ≡ S id)
        → Shows K heap.now front disk S → Shows K heap.now front disk T }
{}

/// What may come back to the slots of pages in frames may be told otherwise: it counts for pages in no frame alone.
pub fn claims_count_out_of_frames<D: Disk>(heap: &Heap<D>)
    ensures { (K L : ClaimsOfPages) (front : List ℕ) (disk : ℕ → List ℕ) (S : PageId → List Slot) → ((id : PageId) → HasPage (geometry_of heap.now) id
        → frame_of heap.now id ≡ None → L id ≡ K id) → Shows K heap.now front disk S → Shows L heap.now front disk S }
{}
