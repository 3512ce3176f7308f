//! Transactions that begin and change records.
ghost use Rattle.std.specs.Prelude.{◌≡◌, ◌≢◌, ◌+◌, ◌<◌, ◌≤◌, ◌∷◌, [], ℕ, IfOk, IsOk, OnErr, OnOk, length};
ghost use Rattle.std.specs.FinMap.{get};
ghost use Rattle.shore_types.specs.Images.{Image, image_len};
ghost use Rattle.shore_types.specs.declared.ids.PageId.{PageId};
ghost use Rattle.shore_types.specs.declared.layout.TheConstants.{ENDING_COST, LAST_TXN, MAX_RECORD_BYTES};
ghost use Rattle.shore_model.specs.declared.log_records.Payload.TheVariants.{Change};
ghost use Rattle.shore_logrec.specs.Text.{cost_of};
ghost use Rattle.shore_page.specs.Room.{claim_at};
ghost use Rattle.laws_room.specs.Claims.{Claimed, NoOthers, SlotCounts};
ghost use Rattle.laws_room.specs.LogRooms.{compensation_cost};
ghost use Rattle.laws_lives.specs.Sessions.{SessionTxn};
ghost use Rattle.laws_lives.specs.UndoLists.{nothing_to_undo};
ghost use Rattle.laws_calls.specs.StateChanges.{begun};
ghost use Rattle.laws_calls.specs.States.{DoesNotWait, State, page_slots};
ghost use Rattle.shore_txn.specs.ActiveTxns.{HasMore, IsBegun, OneBecomes};
ghost use Rattle.shore_txn.specs.Transactions as table;
ghost use Rattle.shore_txn.specs.Txns.{IsAfterChange, SameTxn};
ghost use Rattle.shore_txn.specs.declared.txn.Txn.{Txn};
ghost use Rattle.shore_txn.specs.Transactions.{HasNoTxnOf, HasRoomToNote, HasTxnRoom, IsSeatIn, IsUnchanged, kept_in, next_in, room_in, undos_in};
ghost use Rattle.shore_types.specs.declared.versions.Version.{Version};

use crate::control::Control;
use shore_txn::{Seat, UndoEntry};
use shore_types::{SessionId, TxnId};
use std::alloc::{AllocError, Global};

impl Control {
    ghost use Rattle.shore_sessions.specs.Controls.{HasWaitRoom, HasNoWait, locks_in, txns_in, waits_in};
    ghost use Rattle.shore_sessions.specs.Standing.{HasControl, IsAt, changed};

    /// Begins a transaction of a session that has none, and reserves what its ending costs. If memory is short nothing has changed.
    pub fn begin(&mut self, alloc: Global, session: SessionId) -> Result<TxnId, AllocError>
        requires none { HasNoTxnOf session (txns_in self.old) }
        requires below { next_in (txns_in self.old) < LAST_TXN }
        requires room { (room_in (txns_in self.old)).kept + (room_in (txns_in self.old)).reserved + ENDING_COST ≤ (room_in (txns_in self.old)).stream_bytes }
        ensures number { IfOk result (λ number. number ≡ next_in (txns_in self.old)) }
        ensures begun { OnOk result (undos_in (txns_in self.new) ≡ record { session = session; txn = next_in (txns_in self.old); undo = nothing_to_undo } ∷ undos_in (txns_in self.old)) }
        ensures listed { OnOk result ((t : Txn) × (table.txns_in (txns_in self.new) ≡ t ∷ table.txns_in (txns_in self.old)) × IsBegun (next_in (txns_in self.old)) session t) }
        ensures idle { HasTxnRoom (txns_in self.old) → IsOk result }
        ensures refused { OnErr result (IsUnchanged (txns_in self.old) (txns_in self.new)) }
        ensures claims { (p : PageId) → kept_in (txns_in self.new) p ≡ kept_in (txns_in self.old) p }
        ensures locks { locks_in self.new ≡ locks_in self.old }
        ensures waits { waits_in self.new ≡ waits_in self.old }
        ensures stands { OnOk result ((s : State) → HasControl self.old s → DoesNotWait s session → HasControl self.new (begun s session)) }
        ensures unchanged { OnErr result ((s : State) → HasControl self.old s → HasControl self.new s) }
        ensures stream { (room_in (txns_in self.new)).stream_bytes ≡ (room_in (txns_in self.old)).stream_bytes }
    {
        self.txns.begin(alloc, session)
    }

    /// Takes the memory for a change more of the transaction at a seat. If that fails nothing has changed but the memory.
    pub fn reserve_entry(&mut self, alloc: Global, seat: &Seat) -> Result<(), AllocError>
        requires seated { IsSeatIn seat.now (txns_in self.old) }
        ensures memory { OnOk result (HasRoomToNote seat.now.txn (txns_in self.new)) }
        ensures idle { HasRoomToNote seat.now.txn (txns_in self.old) → IsOk result }
        ensures same { OneBecomes seat.now.txn SameTxn (table.txns_in (txns_in self.old)) (table.txns_in (txns_in self.new)) }
        ensures undos { undos_in (txns_in self.new) ≡ undos_in (txns_in self.old) }
        ensures room { room_in (txns_in self.new) ≡ room_in (txns_in self.old) }
        ensures claims { (p : PageId) → kept_in (txns_in self.new) p ≡ kept_in (txns_in self.old) p }
        ensures locks { locks_in self.new ≡ locks_in self.old }
        ensures waits { waits_in self.new ≡ waits_in self.old }
        ensures stands { (s : State) → HasControl self.old s → HasControl self.new s }
    {
        self.txns.reserve_entry(alloc, seat)
    }

    /// A change of the transaction at a seat was logged. `logged` is what its record costs, and `undo` what that of its undo would.
    /// It stands for the state with another image at the id, if nobody else could put an image back there.
    pub fn note_change(&mut self, seat: &Seat, entry: UndoEntry, logged: u64, undo: u64)
        requires seated { IsSeatIn seat.now (txns_in self.old) }
        requires memory { HasRoomToNote seat.now.txn (txns_in self.old) }
        requires short { image_len entry.before ≤ MAX_RECORD_BYTES }
        requires cost { undo ≡ compensation_cost entry.before }
        requires room { (room_in (txns_in self.old)).kept + (room_in (txns_in self.old)).reserved + logged + undo ≤ (room_in (txns_in self.old)).stream_bytes }
        ensures noted { OneBecomes seat.now.txn (λ old new. IsAfterChange old entry new) (table.txns_in (txns_in self.old)) (table.txns_in (txns_in self.new)) }
        ensures reserved { (room_in (txns_in self.new)).reserved ≡ (room_in (txns_in self.old)).reserved + undo }
        ensures claimed { HasMore ((entry.id.slot, image_len entry.before) ∷ []) (kept_in (txns_in self.old) entry.id.page) (kept_in (txns_in self.new) entry.id.page) }
        ensures elsewhere { (p : PageId) → p ≢ entry.id.page → kept_in (txns_in self.new) p ≡ kept_in (txns_in self.old) p }
        ensures locks { locks_in self.new ≡ locks_in self.old }
        ensures waits { waits_in self.new ≡ waits_in self.old }
        ensures stands { (v : Version) (s : State) (a : SessionTxn) (image : Image) (counts : SlotCounts) → HasControl self.old s → IsAt seat.now s a
            → entry.lsn ≡ 1 + length s.log → entry.before ≡ get s.sessions.records entry.id → logged ≡ cost_of (Change entry.id entry.before image)
            → Claimed v s.sessions.records s.sessions.active s.counts → NoOthers s.sessions.active a.txn entry.id → entry.claim ≡ claim_at (page_slots s entry.id.page) entry.id.slot
            → HasControl self.new (changed s a entry.id image counts) }
        ensures stream { (room_in (txns_in self.new)).stream_bytes ≡ (room_in (txns_in self.old)).stream_bytes }
    {
        self.txns.note_change(seat, entry, logged, undo);
    }
}
