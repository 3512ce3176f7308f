//! Laws, as functions that do nothing: why no undo lacks room on its page, which claims fit again, and that bytes are read in one way.
ghost use Rattle.std.specs.Prelude.{◌≡◌, ◌≤◌, List, ℕ, ◌∷◌, Some, length, map, slice_get};
ghost use Rattle.shore_page.specs.Claims.{AreThere, FitIn, claimed_by};
ghost use Rattle.shore_page.specs.Slots.{settled, with_change, with_image};
ghost use Rattle.shore_types.specs.Images.{image_len, Image};
ghost use Rattle.shore_page.specs.Room.{Fits, HasRoom, lowered};
ghost use Rattle.shore_types.specs.declared.ids.PageId.{PageId};
ghost use Rattle.shore_types.specs.declared.versions.Version.{Version};
ghost use Rattle.shore_types.specs.Versions.{slot_limit};
ghost use Rattle.shore_page.specs.Text.{IsPageText};
ghost use Rattle.shore_page.specs.Undo.{Undecided, longest, claiming_all, with_undecided, undoing, deciding, UndoFits};

/// If a change fits, every undo of undecided changes fits after it, in whatever order the slots are taken.
pub fn every_undo_fits()
    ensures { (v : Version) (slots : List Undecided) (slot : ℕ) (after : Image) (turns : List ℕ)
        → HasRoom v (claiming_all slots) → Fits v (claiming_all slots) slot (image_len after)
        → UndoFits v (with_undecided slots slot after) turns }
{}

/// Claims of undecided slots stay so when `Page::put`, `Page::remove` or `Page::apply` makes an undecided change.
pub fn change_keeps_claims()
    ensures { (slots : List Undecided) (slot : ℕ) (after : Image)
        → with_image (claiming_all slots) slot after ≡ claiming_all (with_undecided slots slot after) }
{}

/// They stay so when `Page::apply` puts back the image before a slot's newest change, and `Page::unreserve` then keeps what the
/// longest image that is left has.
pub fn undo_keeps_claims()
    ensures { (slots : List Undecided) (slot : ℕ) (image before : Image) (rest : List Image)
        → slice_get slots slot ≡ Some record { image = image; befores = before ∷ rest }
        → with_change (lowered (longest rest)) (with_image (claiming_all slots) slot before) slot
        ≡ claiming_all (with_change undoing slots slot) }
{}

/// And when a slot's changes are decided and `Page::unreserve` keeps nothing for it but its record.
pub fn decision_keeps_claims()
    ensures { (slots : List Undecided) (slot : ℕ)
        → with_change (lowered 0) (claiming_all slots) slot ≡ claiming_all (with_change deciding slots slot) }
{}

/// If a page has room for all that is told of it, each claim fits when its turn comes.
pub fn claims_with_room_fit()
    ensures { (v : Version) (kept : List (ℕ × ℕ)) (images : List Image) → length images ≤ slot_limit v → AreThere (length (map settled images)) kept
        → HasRoom v (claimed_by kept (map settled images)) → FitIn v kept (map settled images) }
{}

/// Bytes are the text of one page at most.
pub fn page_encoding_is_unique()
    ensures { (v : Version) (bytes : List ℕ) (a b : PageId) (m n : ℕ) (images others : List Image)
        → IsPageText v bytes a m images → IsPageText v bytes b n others → (a ≡ b) × (m ≡ n) × (images ≡ others) }
{}
