//! Slots of one page that a new record may take.
ghost use Rattle.std.specs.Prelude.{◌≡◌, MatchOption};
ghost use Rattle.shore_heap.specs.Heaps.{allowed_by};
ghost use Rattle.shore_heap.specs.Places.{HasNoSlot, IsFirstSlot, slots_of};

use crate::choices::Places;
use shore_page::Page;
use shore_types::{PageId, Rid};

/// Of all candidates of a page for so many bytes that may be taken, the first: empty slots, and the one behind the last, but none further.
#[tactic(auto, using(shore_types::specs::Versions::sizes))]
pub fn first_allowed<P: Places>(page: &Page, id: &PageId, bytes: usize, places: &P) -> Option<u16>
    requires { P.Places.MayUse places.now id.now }
    ensures { MatchOption result (HasNoSlot page.now.version page.now.slots bytes (slots_of (allowed_by P.Places places.now) id.now))
        (IsFirstSlot page.now.version page.now.slots bytes (slots_of (allowed_by P.Places places.now) id.now)) }
{
    let mut from = 0;
    while let Some(slot) = page.candidate(from, bytes) {
        if places.may_take(&Rid { page: *id, slot }) {
            return Some(slot);
        }
        from = slot + 1;
    }
    None
}
