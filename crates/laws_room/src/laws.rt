//! The laws of claims and of the log's room, each stated as the contract of an empty function.
ghost use Rattle.std.specs.Prelude.{◌*◌, ◌+◌, ◌++◌, ◌<◌, ◌≡◌, ◌≢◌, ◌≤◌, ◌↔◌, ◌∷◌, ℕ, Bool, IsTrue, List, Option, [], None, Some, length, max, suc};
ghost use Rattle.std.specs.FinMap.{get};
ghost use Rattle.shore_types.specs.Images.{Image, image_len};
ghost use Rattle.shore_types.specs.declared.ids.PageId.{PageId};
ghost use Rattle.shore_types.specs.declared.ids.Rid.{Rid};
ghost use Rattle.shore_types.specs.declared.layout.TheConstants.{ENDING_COST, GREATEST_CHECKPOINT, LONGEST_FRAME, MAX_LOG_BYTES, SLOT_ENTRY_BYTES};
ghost use Rattle.shore_types.specs.Versions.{page_room, slot_limit};
ghost use Rattle.shore_types.specs.declared.versions.Version.{Version};
ghost use Rattle.shore_types.specs.declared.versions.Version.TheVariants.{One};
ghost use Rattle.shore_model.specs.declared.histories.Entry.{Entry};
ghost use Rattle.shore_model.specs.declared.histories.Opening.{Opening};
ghost use Rattle.shore_types.specs.declared.locking.Granule.{Granule};
ghost use Rattle.shore_model.specs.declared.log_records.Payload.TheVariants.{Change, Commit, Compensation, End, Prepare, RollbackDecided};
ghost use Rattle.shore_model.specs.Records.{Records, put_image};
ghost use Rattle.shore_logrec.specs.Text.{cost_of};
ghost use Rattle.shore_page.specs.Layout.{record_bytes};
ghost use Rattle.shore_page.specs.Room.{Fits, HasRoom, claim_at, claims, lowered};
ghost use Rattle.shore_page.specs.Slots.{settled, with_change, with_image};
ghost use Rattle.shore_page.specs.Undo.{UndoFits, longest};
ghost use Rattle.laws_lives.specs.SessionSteps.{SessionEvent, StepsTo};
ghost use Rattle.laws_lives.specs.Sessions.{EachOnce, SessionTxn, Sessions, in_doubt_of, txns_of, with_undo, without_txn};
ghost use Rattle.laws_lives.specs.Soundness.{IsJustOpened, IsSoundAfter};
ghost use Rattle.shore_model.specs.declared.rollbacks.Rollback.{Rollback};
ghost use Rattle.laws_lives.specs.UndoLists.{UndoList, with_before_image};
ghost use Rattle.laws_lives.specs.Views.{IsAmong};
ghost use Rattle.laws_room.specs.Choosing.{IsChoice, Serves, first_of};
ghost use Rattle.laws_room.specs.Claims.{Claimed, Grows, NoOthers, SlotCounts, befores_at, befores_in, rid_on, slots_of, undecided_on};
ghost use Rattle.laws_room.specs.Entries.{claim_before, claims_before};
ghost use Rattle.laws_room.specs.Events.{ChangeFitsPage, EventFits};
ghost use Rattle.laws_room.specs.CutRooms.{cut_room, kept_room};
ghost use Rattle.laws_room.specs.LogRooms.{Admits, ChangeAdmits, EventAdmits, HasLogRoom, LogRoom, RoomAfter, Takes, TurnsTake, begun_room, change_cost, changed_room, compensation_cost, ended_room, left_room, owed, prepare_cost, prepared_room, undone_room};
ghost use Rattle.laws_room.specs.RolledBack.{all_rolled_back, images_on};
ghost use Rattle.laws_room.specs.Settling.{AllReservesFit, let_go, reserved_for_all, settled_slots};
ghost use Rattle.laws_room.specs.Tables.{AllHaveRoom, IsRoomy, MayStepAll, RunsWithRoom, TxnTable, TableStep, stepped_all};
ghost use Rattle.laws_room.specs.Turns.{TurnsFit};

/// A slot's claim is the greatest of its record's length and of those of the images that could come back, which are one transaction's.
/// With the slot table the claims are within the page.
pub fn claims_in_numbers()
    ensures greatest { (R : Records) (undos : List SessionTxn) (p : PageId) (n slot : ℕ) → slot < n
        → claim_at (slots_of R undos p n) slot ≡ max (image_len (get R (rid_on p slot))) (longest (befores_at (rid_on p slot) undos)) }
    ensures of_one { (v : Version) (R : Records) (undos : List SessionTxn) (counts : SlotCounts) (a : SessionTxn) (e : Rid × Image) →
        Claimed v R undos counts → IsAmong a undos → IsAmong e a.undo.images → befores_at e.0 undos ≡ befores_in e.0 a.undo.images }
    ensures within { (v : Version) (R : Records) (undos : List SessionTxn) (counts : SlotCounts) (p : PageId) → Claimed v R undos counts
        → (SLOT_ENTRY_BYTES * counts p + claims (slots_of R undos p (counts p)) ≤ page_room v) × (counts p ≤ slot_limit v) }
{}

/// While nothing is undecided each slot claims what its record takes. At each time, what `shore_page` says of undecided slots holds of
/// each page.
pub fn pages_are_claimed()
    ensures alike { (R : Records) (p : PageId) (n : ℕ) → slots_of R [] p n ≡ settled_slots R p n }
    ensures settled { (v : Version) (R : Records) (counts : SlotCounts) → ((p : PageId) → HasRoom v (settled_slots R p (counts p)))
        → ((id : Rid) → counts id.page ≤ id.slot → get R id ≡ None) → Claimed v R [] counts }
    ensures each { (v : Version) (R : Records) (undos : List SessionTxn) (counts : SlotCounts) (p : PageId) (turns : List ℕ) →
        Claimed v R undos counts → UndoFits v (undecided_on R undos p (counts p)) turns }
{}

/// A transaction that begins, and one whose savepoints change, leave the slots of every page as they were.
pub fn begins_and_savepoints_keep_claims()
    ensures begin { (v : Version) (R : Records) (undos : List SessionTxn) (counts : SlotCounts) (a : SessionTxn) → Claimed v R undos counts
        → a.undo.images ≡ [] → (IsAmong a.txn (txns_of undos) → ⊥) →
        Claimed v R (a ∷ undos) counts × ((p : PageId) → slots_of R (a ∷ undos) p (counts p) ≡ slots_of R undos p (counts p)) }
    ensures marks { (v : Version) (R : Records) (undos : List SessionTxn) (counts : SlotCounts) (a : SessionTxn) (undo : UndoList) → Claimed v R undos counts
        → IsAmong a undos → undo.images ≡ a.undo.images →
        Claimed v R (with_undo a.txn undo undos) counts
        × ((p : PageId) → slots_of R (with_undo a.txn undo undos) p (counts p) ≡ slots_of R undos p (counts p)) }
{}

/// A change that fits, to an id that no other transaction has changed, keeps the claims: its page is as `Page::put`, `Page::remove` or
/// `Page::apply` leaves it, and no other page is touched.
pub fn changes_keep_claims()
    ensures { (v : Version) (R : Records) (undos : List SessionTxn) (counts new : SlotCounts) (a : SessionTxn) (id : Rid) (image : Image) →
        Claimed v R undos counts → IsAmong a undos → NoOthers undos a.txn id
        → Fits v (slots_of R undos id.page (counts id.page)) id.slot (image_len image) → Grows counts new id →
        Claimed v (put_image R id image) (with_undo a.txn (with_before_image R a.undo id) undos) new
        × (slots_of (put_image R id image) (with_undo a.txn (with_before_image R a.undo id) undos) id.page (new id.page)
        ≡ with_image (slots_of R undos id.page (counts id.page)) id.slot image)
        × ((p : PageId) → p ≢ id.page →
        slots_of (put_image R id image) (with_undo a.txn (with_before_image R a.undo id) undos) p (new p) ≡ slots_of R undos p (counts p)) }
{}

/// The newest image of any transaction fits when it is put back, and keeps the claims: its page is as `Page::apply` leaves it, and then
/// `Page::unreserve` by the longest image of the slot that the transaction has left. Its savepoints may change as they like.
pub fn undos_keep_claims()
    ensures { (v : Version) (R : Records) (undos : List SessionTxn) (counts : SlotCounts) (a : SessionTxn) (kept : List (Rid × Image)) (e : Rid × Image) (marks : List ℕ) (rolling : Option Rollback) →
        Claimed v R undos counts → IsAmong a undos → a.undo.images ≡ kept ++ e ∷ [] →
        Fits v (slots_of R undos e.0.page (counts e.0.page)) e.0.slot (image_len e.1)
        × Claimed v (put_image R e.0 e.1) (with_undo a.txn record { images = kept; marks = marks; rolling = rolling } undos) counts
        × (slots_of (put_image R e.0 e.1) (with_undo a.txn record { images = kept; marks = marks; rolling = rolling } undos) e.0.page (counts e.0.page)
        ≡ with_change (lowered (longest (befores_in e.0 kept))) (with_image (slots_of R undos e.0.page (counts e.0.page)) e.0.slot e.1) e.0.slot)
        × ((p : PageId) → p ≢ e.0.page →
        slots_of (put_image R e.0 e.1) (with_undo a.txn record { images = kept; marks = marks; rolling = rolling } undos) p (counts p) ≡ slots_of R undos p (counts p)) }
{}

/// A transaction that is decided, or has ended, lets its claims go: `Page::unreserve` with no bytes for each of its entries does it.
pub fn endings_let_claims_go()
    ensures { (v : Version) (R : Records) (undos : List SessionTxn) (counts : SlotCounts) (a : SessionTxn) → Claimed v R undos counts → IsAmong a undos →
        Claimed v R (without_txn a.txn undos) counts
        × ((p : PageId) → slots_of R (without_txn a.txn undos) p (counts p) ≡ let_go p a.undo.images (slots_of R undos p (counts p))) }
{}

/// An undo list that keeps with each entry the claim that a change has found tells what to lower the claim to when the entry is undone.
/// It gives the same slots as the longest image that is left, and need not look for that.
pub fn entries_keep_claims_before()
    ensures change { (v : Version) (R : Records) (undos : List SessionTxn) (counts : SlotCounts) (a : SessionTxn) (id : Rid) →
        Claimed v R undos counts → IsAmong a undos → NoOthers undos a.txn id →
        claims_before (with_before_image R a.undo id).images
        ≡ claims_before a.undo.images ++ claim_at (slots_of R undos id.page (counts id.page)) id.slot ∷ [] }
    ensures undo { (v : Version) (R : Records) (undos : List SessionTxn) (counts : SlotCounts) (a : SessionTxn) (kept : List (Rid × Image)) (e : Rid × Image) (marks : List ℕ) (rolling : Option Rollback) →
        Claimed v R undos counts → IsAmong a undos → a.undo.images ≡ kept ++ e ∷ [] →
        (claims_before a.undo.images ≡ claims_before kept ++ claim_before kept e ∷ [])
        × (slots_of (put_image R e.0 e.1) (with_undo a.txn record { images = kept; marks = marks; rolling = rolling } undos) e.0.page (counts e.0.page)
        ≡ with_change (lowered (claim_before kept e)) (with_image (slots_of R undos e.0.page (counts e.0.page)) e.0.slot e.1) e.0.slot)
        × (claim_at (slots_of (put_image R e.0 e.1) (with_undo a.txn record { images = kept; marks = marks; rolling = rolling } undos) e.0.page (counts e.0.page)) e.0.slot
        ≡ claim_before kept e) }
{}

/// In a table with one transaction no other has changed anything. Once it is decided, `Page::unreserve` with no bytes for each of its
/// entries leaves each slot with what its record takes.
pub fn one_transaction_has_no_others()
    ensures alone { (a : SessionTxn) (id : Rid) → NoOthers (a ∷ []) a.txn id }
    ensures decided { (v : Version) (R : Records) (counts : SlotCounts) (a : SessionTxn) → Claimed v R (a ∷ []) counts →
        Claimed v R [] counts × ((p : PageId) → let_go p a.undo.images (slots_of R (a ∷ []) p (counts p)) ≡ settled_slots R p (counts p)) }
{}

/// Whatever is in place once some of the transactions are rolled back, or all, or none, has room on the pages: the first n slots with what
/// they have, for any n that are there.
pub fn rolled_back_records_fit()
    ensures room { (v : Version) (R : Records) (undos some : List SessionTxn) (counts : SlotCounts) (p : PageId) (n : ℕ) → Claimed v R undos counts
        → ((a : SessionTxn) → IsAmong a some → IsAmong a undos) → n ≤ counts p → HasRoom v (settled_slots (all_rolled_back R some) p n) }
    ensures bytes { (v : Version) (R : Records) (undos some : List SessionTxn) (counts : SlotCounts) (p : PageId) (n : ℕ) → Claimed v R undos counts
        → ((a : SessionTxn) → IsAmong a some → IsAmong a undos) → n ≤ counts p →
        SLOT_ENTRY_BYTES * n + record_bytes (images_on (all_rolled_back R some) p n) ≤ page_room v }
    ensures claimed { (v : Version) (R : Records) (undos some : List SessionTxn) (counts : SlotCounts) → Claimed v R undos counts
        → ((a : SessionTxn) → IsAmong a some → IsAmong a undos) → Claimed v (all_rolled_back R some) [] counts }
    ensures in_place { (v : Version) (R : Records) (undos : List SessionTxn) (counts : SlotCounts) (p : PageId) (n : ℕ) → Claimed v R undos counts → n ≤ counts p →
        HasRoom v (settled_slots R p n) × (SLOT_ENTRY_BYTES * n + record_bytes (images_on R p n) ≤ page_room v) }
{}

/// Rollbacks of any transactions, in steps that take turns as they like, fit their pages.
pub fn rollbacks_in_turns_fit()
    ensures { (v : Version) (R : Records) (undos : List SessionTxn) (counts : SlotCounts) (turns : List ℕ) → Claimed v R undos counts → TurnsFit v R undos counts turns }
{}

/// When a page is fetched again, `Page::reserve` for each entry of all undo lists brings its claims back, and may be called each time.
pub fn claims_come_back()
    ensures { (v : Version) (R : Records) (undos : List SessionTxn) (counts : SlotCounts) (p : PageId) → Claimed v R undos counts →
        (reserved_for_all p undos (settled_slots R p (counts p)) ≡ slots_of R undos p (counts p))
        × AllReservesFit v p undos (settled_slots R p (counts p)) }
{}

/// A record that is there can be deleted. What fits by the claims fits by fewer: by those of the records alone, as a redo will find them,
/// and by those of some of the transactions, as an undo of losers will if only transactions in doubt have theirs.
pub fn deletes_and_fewer_claims_fit()
    ensures delete { (v : Version) (R : Records) (undos : List SessionTxn) (counts : SlotCounts) (id : Rid) (bytes : List ℕ) → Claimed v R undos counts
        → get R id ≡ Some bytes → ChangeFitsPage v R undos counts id None counts }
    ensures settled { (v : Version) (R : Records) (undos : List SessionTxn) (counts : SlotCounts) (p : PageId) (slot bytes : ℕ) → Claimed v R undos counts
        → Fits v (slots_of R undos p (counts p)) slot bytes → Fits v (settled_slots R p (counts p)) slot bytes }
    ensures some { (v : Version) (R : Records) (undos some : List SessionTxn) (counts : SlotCounts) (p : PageId) (slot bytes : ℕ) → Claimed v R undos counts
        → ((a : SessionTxn) → IsAmong a some → IsAmong a undos)
        → Fits v (slots_of R undos p (counts p)) slot bytes → Fits v (slots_of R some p (counts p)) slot bytes }
{}

/// A redo has to let claims go, since `Page::apply` lowers none. Two records of 4,000 bytes stand; the first is made empty, which is decided,
/// and a new one of 3,000 bytes fits. Redone on the page as it was read, the third fits only if the first slot's claim went between.
pub fn redo_must_let_claims_go()
    ensures kept { (a b : List ℕ) → length a ≡ 4000 → length b ≡ 4000
        → Fits One (with_image (settled (Some a) ∷ settled (Some b) ∷ []) 0 (Some [])) 2 3000 → ⊥ }
    ensures let_go { (a b : List ℕ) → length a ≡ 4000 → length b ≡ 4000
        → Fits One (with_change (lowered 0) (with_image (settled (Some a) ∷ settled (Some b) ∷ []) 0 (Some [])) 0) 2 3000 }
{}

/// A search page by page and slot by slot finds the lowest id that serves, and finds none only if none serves. Its slot is one that a page
/// may have.
pub fn search_finds_lowest_place()
    ensures choice { (v : Version) (R : Records) (undos : List SessionTxn) (counts : SlotCounts) (store pages bytes : ℕ) (may_lock : Rid → Bool) (test : Rid → Bool) →
        ((id : Rid) → IsTrue (test id) ↔ Serves v R undos counts store pages bytes may_lock id)
        → IsChoice (Serves v R undos counts store pages bytes may_lock) (first_of test counts store 0 pages) }
    ensures below { (v : Version) (R : Records) (undos : List SessionTxn) (counts : SlotCounts) (store pages bytes : ℕ) (may_lock : Rid → Bool) (id : Rid) →
        Serves v R undos counts store pages bytes may_lock id → id.slot < slot_limit v }
{}

/// What the log's room counts for a record is what its encoding takes.
pub fn costs_are_those_of_records()
    ensures change { (id : Rid) (before after : Image) → change_cost before after ≡ cost_of (Change id before after) }
    ensures compensation { (id : Rid) (image : Image) (undo_next : ℕ) → compensation_cost image ≡ cost_of (Compensation id image undo_next) }
    ensures prepare { (global : List ℕ) (granules : List Granule) →
        (prepare_cost global granules ≡ cost_of (Prepare global granules)) × (prepare_cost global granules ≡ ENDING_COST + 5 + length global + 11 * length granules) }
    ensures rollback { ENDING_COST ≡ cost_of RollbackDecided }
    ensures ending { (ENDING_COST ≡ cost_of Commit) × (ENDING_COST ≡ cost_of End) }
{}

/// Each step keeps the log's room. A begin and a change ask for it; a Compensation and an ending take what was reserved for them.
pub fn steps_keep_log_room()
    ensures begin { (spare doubts : ℕ) (undos : List SessionTxn) (room : LogRoom) (a : SessionTxn) → spare ≤ LONGEST_FRAME + GREATEST_CHECKPOINT
        → HasLogRoom spare doubts undos room → a.undo.images ≡ [] → Admits room ENDING_COST → HasLogRoom spare doubts (a ∷ undos) (begun_room room) }
    ensures change { (spare doubts : ℕ) (R : Records) (undos : List SessionTxn) (room : LogRoom) (a : SessionTxn) (id : Rid) (image : Image) →
        spare ≤ LONGEST_FRAME + GREATEST_CHECKPOINT → HasLogRoom spare doubts undos room → EachOnce (txns_of undos) → IsAmong a undos → ChangeAdmits R id image room
        → HasLogRoom spare doubts (with_undo a.txn (with_before_image R a.undo id) undos) (changed_room (get R id) image room) }
    ensures marks { (spare doubts : ℕ) (undos : List SessionTxn) (room : LogRoom) (a : SessionTxn) (undo : UndoList) → HasLogRoom spare doubts undos room
        → EachOnce (txns_of undos) → IsAmong a undos → undo.images ≡ a.undo.images → HasLogRoom spare doubts (with_undo a.txn undo undos) room }
    ensures compensation { (spare doubts : ℕ) (undos : List SessionTxn) (room : LogRoom) (a : SessionTxn) (kept : List (Rid × Image)) (e : Rid × Image) (marks : List ℕ) (rolling : Option Rollback) →
        HasLogRoom spare doubts undos room → EachOnce (txns_of undos) → IsAmong a undos → a.undo.images ≡ kept ++ e ∷ [] →
        Takes spare room (compensation_cost e.1)
        × HasLogRoom spare doubts (with_undo a.txn record { images = kept; marks = marks; rolling = rolling } undos) (undone_room e.1 room) }
    ensures prepare { (spare doubts : ℕ) (undos : List SessionTxn) (room : LogRoom) (global : List ℕ) (granules : List Granule) → spare ≤ LONGEST_FRAME + GREATEST_CHECKPOINT
        → HasLogRoom spare doubts undos room → Admits room (prepare_cost global granules + ENDING_COST) → HasLogRoom spare (doubts + 1) undos (prepared_room global granules room) }
    ensures resolve { (spare doubts : ℕ) (undos : List SessionTxn) (room : LogRoom) (a : SessionTxn) →
        HasLogRoom spare (suc doubts) undos room → EachOnce (txns_of undos) → IsAmong a undos →
        Takes spare room ENDING_COST
        × HasLogRoom spare doubts (without_txn a.txn undos) (ended_room (owed a + ENDING_COST) room)
        × ((undo : UndoList) → undo.images ≡ a.undo.images → HasLogRoom spare doubts (with_undo a.txn undo undos) (ended_room ENDING_COST room)) }
    ensures ending { (spare doubts : ℕ) (undos : List SessionTxn) (room : LogRoom) (a : SessionTxn) →
        HasLogRoom spare doubts undos room → EachOnce (txns_of undos) → IsAmong a undos →
        Takes spare room ENDING_COST
        × HasLogRoom spare doubts (without_txn a.txn undos) (ended_room (owed a) room) × HasLogRoom spare doubts (without_txn a.txn undos) (left_room (owed a) room) }
{}

/// A cut changes no sum: by what is kept alone, and by the stream's own bytes, just the same is admitted, taken and left. Once more is cut off, what was there
/// is there still, and there is more room by what was cut off.
pub fn cuts_leave_room()
    ensures admits { (room : LogRoom) (cut need : ℕ) → cut ≤ room.kept → cut ≤ room.stream_bytes → Admits room need ↔ Admits (kept_room cut room) need }
    ensures takes { (spare cost cut : ℕ) (room : LogRoom) → cut ≤ room.kept → cut ≤ room.stream_bytes → Takes spare room cost ↔ Takes spare (kept_room cut room) cost }
    ensures has { (spare doubts cut : ℕ) (undos : List SessionTxn) (room : LogRoom) → cut ≤ room.kept → cut ≤ room.stream_bytes →
        HasLogRoom spare doubts undos room ↔ HasLogRoom spare doubts undos (kept_room cut room) }
    ensures more { (spare doubts freed : ℕ) (undos : List SessionTxn) (room : LogRoom) → HasLogRoom spare doubts undos room →
        room.stream_bytes + freed ≤ room.kept + MAX_LOG_BYTES → HasLogRoom (spare + freed) doubts undos (cut_room freed room) }
{}

/// Rollbacks of any transactions, in steps that take turns as they like, and the endings after them, have their room in the log.
pub fn rollbacks_in_turns_have_log_room()
    ensures { (spare doubts : ℕ) (undos : List SessionTxn) (room : LogRoom) (turns : List ℕ) →
        EachOnce (txns_of undos) → HasLogRoom spare doubts undos room → TurnsTake spare undos room turns }
{}

/// Steps of any transactions, mingled as they like, keep the room of pages and log; and no Compensation and no ending lacks it.
pub fn steps_keep_room()
    ensures { (v : Version) (spare doubts : ℕ) (s : TxnTable) (steps : List TableStep) → spare ≤ LONGEST_FRAME + GREATEST_CHECKPOINT → IsRoomy v spare doubts s → MayStepAll v s steps →
        IsRoomy v spare doubts (stepped_all s steps) × AllHaveRoom v spare s steps }
{}

/// Each event of the sessions keeps the claims: only insert, update and delete ask for room. That nobody else has changed the id follows
/// from the locks.
pub fn events_keep_claims()
    ensures { (v : Version) (o : Opening) (es : List Entry) (old new : Sessions) (e : SessionEvent) (counts later : SlotCounts) →
        IsSoundAfter o es old → Claimed v old.records old.active counts → StepsTo old e new → EventFits v old counts e later
        → Claimed v new.records new.active later }
{}

/// Each event of the sessions keeps the log's room: only begin, insert, update, delete and prepare ask for it, and no resolve does.
pub fn events_keep_log_room()
    ensures { (spare : ℕ) (old new : Sessions) (e : SessionEvent) (room later : LogRoom) → spare ≤ LONGEST_FRAME + GREATEST_CHECKPOINT
        → HasLogRoom spare (length old.prepared) old.active room → EachOnce (txns_of old.active) → EachOnce (in_doubt_of old) → StepsTo old e new → EventAdmits old e room → RoomAfter old e room later
        → HasLogRoom spare (length new.prepared) new.active later }
{}

/// After any events of any sessions, from an open on, all transactions under way can be rolled back, in any turns.
pub fn undo_is_never_refused()
    ensures { (v : Version) (spare : ℕ) (o : Opening) (first last : Sessions) (counts c : SlotCounts) (room r : LogRoom) (events : List SessionEvent) (turns : List ℕ) →
        spare ≤ LONGEST_FRAME + GREATEST_CHECKPOINT → IsJustOpened o first → Claimed v first.records first.active counts → HasLogRoom spare (length first.prepared) first.active room
        → RunsWithRoom v first counts room events last c r
        → TurnsFit v last.records last.active c turns × TurnsTake spare last.active r turns }
{}
