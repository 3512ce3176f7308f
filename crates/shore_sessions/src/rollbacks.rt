//! Savepoints, and transactions that are rolled back.
ghost use Rattle.std.specs.Prelude.{◌≡◌, ◌≢◌, ◌+◌, ◌<◌, ◌++◌, ◌∷◌, [], List, IfOk, IsOk, OnErr, OnOk, false, length, true};
ghost use Rattle.shore_types.specs.Images.{Image, image_len};
ghost use Rattle.shore_types.specs.declared.ids.PageId.{PageId};
ghost use Rattle.shore_types.specs.declared.ids.Rid.{Rid};
ghost use Rattle.shore_types.specs.declared.layout.TheConstants.{ENDING_COST, MAX_SAVEPOINTS};
ghost use Rattle.shore_model.specs.declared.calls.Answer.TheVariants.{Saved, WentBack};
ghost use Rattle.shore_model.specs.declared.calls.Call.TheVariants as call;
ghost use Rattle.shore_locks.specs.Grants.{released};
ghost use Rattle.laws_room.specs.Entries.{claim_before};
ghost use Rattle.laws_room.specs.LogRooms.{compensation_cost};
ghost use Rattle.laws_lives.specs.Sessions.{ResolvedTxn, SessionTxn};
ghost use Rattle.laws_lives.specs.UndoLists.{images_since};
ghost use Rattle.laws_lives.specs.Views.{IsAmong};
ghost use Rattle.laws_calls.specs.Resolves.{rollback_done};
ghost use Rattle.laws_calls.specs.StateChanges.{answered};
ghost use Rattle.laws_calls.specs.States.{IsOfSession, State};
ghost use Rattle.shore_txn.specs.ActiveTxns.{HasMore, OneBecomes, OneLeaves};
ghost use Rattle.shore_txn.specs.Transactions as table;
ghost use Rattle.shore_txn.specs.Transactions.{AtSeat, HasRoomToMark, IsSeatIn, kept_in, room_in, undos_in};
ghost use Rattle.shore_txn.specs.TxnStates.{is_in_doubt};
ghost use Rattle.shore_txn.specs.Txns.{IsAfterSavepoint, IsAfterUndo, IsBackAt, SameTxn, state_of};
ghost use Rattle.shore_txn.specs.UndoEntries.{image_of};

use crate::control::Control;
use shore_locks::LetThrough;
use shore_model::Rollback;
use shore_txn::{Seat, UndoEntry};
use shore_types::Lsn;
use std::alloc::AllocError;

impl Control {
    ghost use Rattle.shore_sessions.specs.Controls.{HasNoWait, HasWaitRoom, locks_in, txns_in, waits_in};
    ghost use Rattle.shore_sessions.specs.Standing.{HasControl, HasControlBut, IsAt, abort_ended, put_back};

    /// A savepoint more of the transaction at a seat. Answers its index. If memory is short nothing has changed.
    pub fn savepoint(&mut self, seat: &Seat) -> Result<usize, AllocError>
        requires seated { IsSeatIn seat.now (txns_in self.old) }
        requires few { (a : SessionTxn) → IsAmong a (undos_in (txns_in self.old)) → a.txn ≡ seat.now.txn → length a.undo.marks < MAX_SAVEPOINTS }
        ensures set { OnOk result (OneBecomes seat.now.txn IsAfterSavepoint (table.txns_in (txns_in self.old)) (table.txns_in (txns_in self.new))) }
        ensures idle { HasRoomToMark seat.now.txn (txns_in self.old) → IsOk result }
        ensures same { OnErr result (OneBecomes seat.now.txn SameTxn (table.txns_in (txns_in self.old)) (table.txns_in (txns_in self.new))) }
        ensures room { room_in (txns_in self.new) ≡ room_in (txns_in self.old) }
        ensures claims { (p : PageId) → kept_in (txns_in self.new) p ≡ kept_in (txns_in self.old) p }
        ensures locks { locks_in self.new ≡ locks_in self.old }
        ensures waits { waits_in self.new ≡ waits_in self.old }
        ensures stands { IfOk result (λ index. (s : State) (a : SessionTxn) → HasControl self.old s → IsAt seat.now s a
            → (index ≡ length a.undo.marks) × HasControl self.new (answered s a call.Savepoint (Saved index) s.counts)) }
        ensures unchanged { OnErr result ((s : State) → HasControl self.old s → HasControl self.new s) }
    {
        self.txns.savepoint(seat)
    }

    /// The newest change of the transaction at a seat was put back in this rollback, and its Compensation, which costs so much, was logged under this
    /// number. Hands the change over, with what its slot claims now. It takes no memory.
    pub fn note_compensation(
        &mut self,
        seat: &Seat,
        lsn: Lsn,
        rollback: Rollback,
        cost: u64,
    ) -> UndoEntry
        requires seated { IsSeatIn seat.now (txns_in self.old) }
        requires unprepared { AtSeat seat.now (txns_in self.old) (λ t. is_in_doubt (state_of t) ≡ false) }
        requires some { (a : SessionTxn) → IsAmong a (undos_in (txns_in self.old)) → a.txn ≡ seat.now.txn → a.undo.images ≢ [] }
        requires cost { (a : SessionTxn) (kept : List (Rid × Image)) (e : Rid × Image) → IsAmong a (undos_in (txns_in self.old)) → a.txn ≡ seat.now.txn
            → a.undo.images ≡ kept ++ e ∷ [] → cost ≡ compensation_cost e.1 }
        ensures undone { OneBecomes seat.now.txn (IsAfterUndo lsn rollback result) (table.txns_in (txns_in self.old)) (table.txns_in (txns_in self.new)) }
        ensures reserved { (room_in (txns_in self.new)).reserved + cost ≡ (room_in (txns_in self.old)).reserved }
        ensures claimed { HasMore ((result.id.slot, image_len result.before) ∷ []) (kept_in (txns_in self.new) result.id.page) (kept_in (txns_in self.old) result.id.page) }
        ensures elsewhere { (p : PageId) → p ≢ result.id.page → kept_in (txns_in self.new) p ≡ kept_in (txns_in self.old) p }
        ensures locks { locks_in self.new ≡ locks_in self.old }
        ensures waits { waits_in self.new ≡ waits_in self.old }
        ensures memory { HasWaitRoom self.old → HasWaitRoom self.new }
        ensures newest { (s : State) (a : SessionTxn) → HasControl self.old s → IsAt seat.now s a
            → (kept : List (Rid × Image)) × (a.undo.images ≡ kept ++ image_of result ∷ []) }
        ensures claim { (s : State) (a : SessionTxn) (kept : List (Rid × Image)) → HasControl self.old s → IsAt seat.now s a
            → a.undo.images ≡ kept ++ image_of result ∷ [] → result.claim ≡ claim_before kept (image_of result) }
        ensures stands { (s : State) (a : SessionTxn) (kept : List (Rid × Image)) → HasControl self.old s → IsAt seat.now s a
            → a.undo.images ≡ kept ++ image_of result ∷ [] → lsn ≡ 1 + length s.log → HasControl self.new (put_back s a kept (image_of result) rollback) }
        ensures stream { (room_in (txns_in self.new)).stream_bytes ≡ (room_in (txns_in self.old)).stream_bytes }
    {
        self.txns.note_compensation(seat, lsn, rollback, cost)
    }

    /// The transaction at a seat is back at the savepoint of this index, behind which it has no change left: the savepoints behind it are gone. It takes
    /// no memory.
    pub fn go_back(&mut self, seat: &Seat, index: usize)
        requires seated { IsSeatIn seat.now (txns_in self.old) }
        requires unprepared { AtSeat seat.now (txns_in self.old) (λ t. is_in_doubt (state_of t) ≡ false) }
        ensures back { OneBecomes seat.now.txn (IsBackAt index) (table.txns_in (txns_in self.old)) (table.txns_in (txns_in self.new)) }
        ensures room { room_in (txns_in self.new) ≡ room_in (txns_in self.old) }
        ensures claims { (p : PageId) → kept_in (txns_in self.new) p ≡ kept_in (txns_in self.old) p }
        ensures locks { locks_in self.new ≡ locks_in self.old }
        ensures waits { waits_in self.new ≡ waits_in self.old }
        ensures stands { (s : State) (a : SessionTxn) → HasControl self.old s → IsAt seat.now s a → images_since a.undo index ≡ []
            → HasControl self.new (answered s a (call.BackTo index) WentBack s.counts) }
    {
        self.txns.go_back(seat, index);
    }

    /// The rollback of the transaction at a seat has ended, which has no change left: it is in the table no more, and its locks go. Its End was appended if
    /// it is logged. An abort is answered with it; a resolve is answered next, or waits (`await_resolve`).
    pub fn end_abort(&mut self, seat: &Seat, logged: bool)
        requires seated { IsSeatIn seat.now (txns_in self.old) }
        requires unprepared { AtSeat seat.now (txns_in self.old) (λ t. is_in_doubt (state_of t) ≡ false) }
        requires empty { (a : SessionTxn) → IsAmong a (undos_in (txns_in self.old)) → a.txn ≡ seat.now.txn → a.undo.images ≡ [] }
        requires free { HasNoWait seat.now.session self.old }
        ensures left { OneLeaves seat.now.txn [] (table.txns_in (txns_in self.old)) (table.txns_in (txns_in self.new)) }
        ensures reserved { (room_in (txns_in self.new)).reserved + ENDING_COST ≡ (room_in (txns_in self.old)).reserved }
        ensures claims { (p : PageId) → kept_in (txns_in self.new) p ≡ kept_in (txns_in self.old) p }
        ensures locks { locks_in self.new ≡ record { limit = (locks_in self.old).limit; requests = released seat.now.txn (locks_in self.old).requests } }
        ensures waits { waits_in self.new ≡ waits_in self.old }
        ensures memory { HasWaitRoom self.old → HasWaitRoom self.new }
        ensures stands { (s : State) (a : SessionTxn) → HasControl self.old s → IsOfSession s seat.now.session a → a.txn ≡ seat.now.txn → HasControl self.new (abort_ended s a logged) }
        ensures resolves { (s : State) (a : SessionTxn) (r : ResolvedTxn) → HasControl self.old s → s.failed ≡ false → IsAt seat.now s a → IsAmong r s.sessions.resolving → r.txn ≡ a.txn
            → logged ≡ true → HasControlBut r self.new (rollback_done s a) }
        ensures stream { (room_in (txns_in self.new)).stream_bytes ≡ (room_in (txns_in self.old)).stream_bytes }
    {
        let txn = self.txns.note_end(seat, logged);
        let mut let_through = LetThrough::nobody();
        self.locks.release_all(txn, &mut let_through);
        self.waits.note_let_through(&let_through, &self.locks);
    }
}
