//! Laws, as functions that do nothing: the transactions of a table are apart, and the claims that it tells are those of its undo lists, and bring
//! back those of a page.
ghost use Rattle.std.specs.Prelude.{◌≡◌, ◌+◌, ◌*◌, ◌<◌, ℕ, List, length, map};
ghost use Rattle.std.specs.List.{AllByRecursion};
ghost use Rattle.shore_types.specs.declared.ids.PageId.{PageId};
ghost use Rattle.shore_types.specs.declared.layout.TheConstants.{ENDING_COST};
ghost use Rattle.shore_model.specs.Records.{Records};
ghost use Rattle.shore_page.specs.Claims.{FitIn, claimed_by};
ghost use Rattle.shore_page.specs.Slots.{Slot, settled};
ghost use Rattle.shore_page.specs.Text.{images_of};
ghost use Rattle.laws_room.specs.Claims.{Claimed, SlotCounts, slots_of};
ghost use Rattle.laws_room.specs.Settling.{let_go, reserved_for_all, settled_slots};
ghost use Rattle.laws_room.specs.LogRooms.{owed_by_all};
ghost use Rattle.laws_lives.specs.Sessions.{EachOnce, SessionTxn, txns_of, without_txn};
ghost use Rattle.laws_lives.specs.Views.{IsAmong};
ghost use Rattle.shore_txn.specs.ActiveTxns.{AreApart};
ghost use Rattle.shore_txn.specs.Transactions.{kept_in, next_in, prepared_in, room_in, txns_in, undos_in};
ghost use Rattle.shore_types.specs.declared.versions.Version.{Version};

use crate::transactions::Transactions;

/// No session is in two transactions, and each has a number of its own below the next. What is reserved is what they owe, and for each in doubt a second
/// ending.
pub fn transactions_are_apart(table: &Transactions)
    ensures sessions { AreApart (txns_in table.now) }
    ensures numbers { EachOnce (txns_of (undos_in table.now)) }
    ensures below { AllByRecursion (λ a. a.txn < next_in table.now) (undos_in table.now) }
    ensures owed { (room_in table.now).reserved ≡ owed_by_all (undos_in table.now) + ENDING_COST * length (prepared_in table.now) }
{}

/// What a table tells of a page claims as much as a `Page::reserve` for each entry of its undo lists, in whatever order.
pub fn claims_are_those_of_undo_lists(table: &Transactions)
    ensures { (p : PageId) (slots : List Slot) → claimed_by (kept_in table.now p) slots ≡ reserved_for_all p (undos_in table.now) slots }
{}

/// If each page has room for its slots as they claim, what a table tells brings the claims of a page back when it is read, and each fits: so a
/// page may leave its frame.
pub fn claimed_pages_may_go(table: &Transactions)
    ensures claims { (v : Version) (R : Records) (counts : SlotCounts) (p : PageId) → Claimed v R (undos_in table.now) counts
        → slots_of R (undos_in table.now) p (counts p) ≡ claimed_by (kept_in table.now p) (settled_slots R p (counts p)) }
    ensures fit { (v : Version) (R : Records) (counts : SlotCounts) (p : PageId) → Claimed v R (undos_in table.now) counts → FitIn v (kept_in table.now p) (settled_slots R p (counts p)) }

    // A page as it is read has the images of its slots, and each slot claims what its record takes.
    ensures read { (R : Records) (p : PageId) (n : ℕ) → map settled (images_of (slots_of R (undos_in table.now) p n)) ≡ settled_slots R p n }
    ensures kept { (v : Version) (R : Records) (counts : SlotCounts) (p : PageId) → Claimed v R (undos_in table.now) counts
        → (slots_of R (undos_in table.now) p (counts p) ≡ claimed_by (kept_in table.now p) (map settled (images_of (slots_of R (undos_in table.now) p (counts p)))))
        × FitIn v (kept_in table.now p) (map settled (images_of (slots_of R (undos_in table.now) p (counts p)))) }
{}

/// Once a transaction is taken out, slots that let its claims go are those of the page as it is read again: each has what is left to be told of it.
pub fn left_pages_may_go(old: &Transactions, new: &Transactions)
    ensures claims { (v : Version) (R : Records) (counts : SlotCounts) (a : SessionTxn) (p : PageId) → Claimed v R (undos_in old.now) counts → IsAmong a (undos_in old.now)
        → undos_in new.now ≡ without_txn a.txn (undos_in old.now)
        → let_go p a.undo.images (slots_of R (undos_in old.now) p (counts p)) ≡ claimed_by (kept_in new.now p) (map settled (images_of (slots_of R (undos_in old.now) p (counts p)))) }
    ensures fit { (v : Version) (R : Records) (counts : SlotCounts) (a : SessionTxn) (p : PageId) → Claimed v R (undos_in old.now) counts → IsAmong a (undos_in old.now)
        → undos_in new.now ≡ without_txn a.txn (undos_in old.now) → FitIn v (kept_in new.now p) (map settled (images_of (slots_of R (undos_in old.now) p (counts p)))) }
{}
