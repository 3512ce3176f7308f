//! Which places a new record may take.
ghost use Rattle.std.specs.Prelude.{◌≡◌, ◌↔◌, IsFalse, IsTrue};
ghost use Rattle.shore_types.specs.declared.ids.PageId.{PageId};
ghost use Rattle.shore_types.specs.declared.ids.Rid.{Rid};
ghost use Rattle.shore_heap.specs.Places.{anywhere};

use shore_types::{PageId, Rid};

/// Which places a new record may take, whatever the pages hold. Who knows the locks tells it to whoever looks for a place.
pub trait Places {
    /// A place may be taken.
    ghost MayTake: { Self → Rid → Type 0 };

    /// The places of a page may be asked for one by one.
    ghost MayUse: { Self → PageId → Type 0 };

    /// Whether the places of a page are worth a look: none may be taken if not.
    fn may_use(&self, page: &PageId) -> bool
        ensures may { IsTrue result → MayUse self.now page.now }
        ensures none { IsFalse result → (id : Rid) → id.page ≡ page.now → MayTake self.now id → ⊥ };

    /// Whether a place may be taken, on a page that may be used.
    fn may_take(&self, id: &Rid) -> bool
        requires { MayUse self.now id.now.page }
        ensures { IsTrue result ↔ MayTake self.now id.now };
}

/// Any place may be taken.
pub struct AnyPlace;

impl Places for AnyPlace {
    ghost MayTake = { λ _ id. anywhere id };

    ghost MayUse = { λ _ _. Unit {0} };

    fn may_use(&self, _page: &PageId) -> bool {
        true
    }

    fn may_take(&self, _id: &Rid) -> bool {
        true
    }
}
