//! What undecided changes may put back on pages.
ghost use Rattle.std.specs.Prelude.{◌≡◌, ◌<◌, ◌≤◌, ◌++◌, [], ℕ, List, option_to_list};
ghost use Rattle.shore_types.specs.declared.ids.PageId.{PageId};

use shore_types::PageId;

/// A place of a page's chain.
#[derive(Clone, Copy)]
pub struct ChainPlace {
    /// A slot of the page and how many bytes may come back to it; None if the place is of another page.
    pub claim: Option<(u16, u16)>,
    /// The next older place, 0 for none.
    pub older: usize,
}

/// How many bytes undecided changes may put back into the slots of pages: for each page a chain of places, from the newest to the oldest. Who
/// keeps the undo lists tells it to whoever fetches pages.
pub trait Claims {
    /// What may come back to the slots of a page: pairs of a slot and bytes, the oldest first.
    ghost kept: { Self → PageId → List (ℕ × ℕ) };

    /// What a place of its chain and the older ones tell.
    ghost kept_from: { Self → PageId → ℕ → List (ℕ × ℕ) };

    /// A place is one of the page's chain, or its end.
    ghost IsOnChain: { Self → PageId → ℕ → Type 0 };

    /// The newest place of a page's chain, 0 for none.
    fn newest(&self, page: &PageId) -> usize
        ensures chain { IsOnChain self.now page.now result }
        ensures all { kept_from self.now page.now result ≡ kept self.now page.now }
        ensures end { kept_from self.now page.now 0 ≡ [] };

    /// What a place of a page's chain has.
    fn place(&self, page: &PageId, place: usize) -> ChainPlace
        requires some { 1 ≤ place }
        requires chain { IsOnChain self.now page.now place }
        ensures older { result.older < place }
        ensures chain { IsOnChain self.now page.now result.older }
        ensures kept { kept_from self.now page.now place ≡ kept_from self.now page.now result.older ++ option_to_list result.claim };
}

/// Nothing comes back to any page.
pub struct NoClaims;

impl Claims for NoClaims {
    ghost kept = { λ _ _. [] };

    ghost kept_from = { λ _ _ _. [] };

    ghost IsOnChain = { λ _ _ _. Unit {0} };

    fn newest(&self, _page: &PageId) -> usize {
        0
    }

    fn place(&self, _page: &PageId, _place: usize) -> ChainPlace {
        ChainPlace {
            claim: None,
            older: 0,
        }
    }
}
