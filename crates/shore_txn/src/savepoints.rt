//! Savepoints and rollbacks of the transactions of the table.
ghost use Rattle.std.specs.Prelude.{◌≡◌, ◌≢◌, ◌+◌, ◌<◌, ◌++◌, ◌∷◌, [], List, IfOk, IsOk, OnErr, OnOk, false, length, if◌then◌else◌};
ghost use Rattle.shore_types.specs.Images.{Image, image_len};
ghost use Rattle.shore_types.specs.declared.ids.PageId.{PageId};
ghost use Rattle.shore_types.specs.declared.ids.Rid.{Rid};
ghost use Rattle.shore_types.specs.declared.layout.TheConstants.{ENDING_COST, MAX_SAVEPOINTS};
ghost use Rattle.laws_room.specs.LogRooms.{compensation_cost};
ghost use Rattle.laws_lives.specs.Sessions.{SessionTxn, with_undo, without_txn};
ghost use Rattle.laws_lives.specs.UndoLists.{undo_rolled};
ghost use Rattle.shore_model.specs.declared.rollbacks.Rollback.TheVariants.{Whole};
ghost use Rattle.laws_lives.specs.Views.{IsAmong};
ghost use Rattle.shore_txn.specs.ActiveTxns.{HasMore, OneBecomes, OneLeaves, back_at, with_mark};
ghost use Rattle.shore_txn.specs.TxnStates.{is_in_doubt};
ghost use Rattle.shore_txn.specs.Txns.{IsAfterSavepoint, IsAfterUndo, IsBackAt, IsDoomed, SameTxn, state_of};
ghost use Rattle.shore_txn.specs.UndoEntries.{image_of};

use crate::seat::Seat;
use crate::transactions::Transactions;
use crate::undo::UndoEntry;
use shore_model::Rollback;
use shore_types::layout::ENDING_COST;
use shore_types::{Lsn, TxnId};
use std::alloc::AllocError;

impl Transactions {
    ghost use Rattle.shore_txn.specs.Transactions.{AtSeat, HasRoomToMark, IsSeatIn, kept_in, next_in, prepared_in, room_in, txns_in, undos_in};

    /// A savepoint more of the transaction at a seat. Answers its index. If memory is short nothing has changed.
    pub fn savepoint(&mut self, seat: &Seat) -> Result<usize, AllocError>
        requires seated { IsSeatIn seat.now self.old }
        requires few { (a : SessionTxn) → IsAmong a (undos_in self.old) → a.txn ≡ seat.now.txn → length a.undo.marks < MAX_SAVEPOINTS }
        ensures set { OnOk result (OneBecomes seat.now.txn IsAfterSavepoint (txns_in self.old) (txns_in self.new)) }
        ensures index { IfOk result (λ index. (a : SessionTxn) → IsAmong a (undos_in self.old) → a.txn ≡ seat.now.txn → index ≡ length a.undo.marks) }
        ensures undos { OnOk result ((a : SessionTxn) → IsAmong a (undos_in self.old) → a.txn ≡ seat.now.txn
            → undos_in self.new ≡ with_undo a.txn (with_mark a.undo) (undos_in self.old)) }
        ensures idle { HasRoomToMark seat.now.txn self.old → IsOk result }
        ensures same { OnErr result (OneBecomes seat.now.txn SameTxn (txns_in self.old) (txns_in self.new)) }
        ensures unchanged { OnErr result (undos_in self.new ≡ undos_in self.old) }
        ensures claims { (p : PageId) → kept_in self.new p ≡ kept_in self.old p }
        ensures doubts { prepared_in self.new ≡ prepared_in self.old }
        ensures next { next_in self.new ≡ next_in self.old }
        ensures room { room_in self.new ≡ room_in self.old }
    {
        self.active[seat.index].savepoint()
    }

    /// The newest change of the transaction at a seat was put back in this rollback, and its Compensation, which costs so much, was logged under this
    /// number: what was reserved for it pays for it. Hands the change over, whose claim goes now. It takes no memory.
    pub fn note_compensation(
        &mut self,
        seat: &Seat,
        lsn: Lsn,
        rollback: Rollback,
        cost: u64,
    ) -> UndoEntry
        requires seated { IsSeatIn seat.now self.old }
        requires free { AtSeat seat.now self.old (λ t. is_in_doubt (state_of t) ≡ false) }
        requires some { (a : SessionTxn) → IsAmong a (undos_in self.old) → a.txn ≡ seat.now.txn → a.undo.images ≢ [] }
        requires cost { (a : SessionTxn) (kept : List (Rid × Image)) (e : Rid × Image) → IsAmong a (undos_in self.old) → a.txn ≡ seat.now.txn
            → a.undo.images ≡ kept ++ e ∷ [] → cost ≡ compensation_cost e.1 }
        ensures undone { OneBecomes seat.now.txn (IsAfterUndo lsn rollback result) (txns_in self.old) (txns_in self.new) }
        ensures undos { (a : SessionTxn) → IsAmong a (undos_in self.old) → a.txn ≡ seat.now.txn
            → (kept : List (Rid × Image)) × (a.undo.images ≡ kept ++ image_of result ∷ [])
            × (undos_in self.new ≡ with_undo a.txn (undo_rolled a.undo kept rollback) (undos_in self.old)) }
        ensures claimed { HasMore ((result.id.slot, image_len result.before) ∷ []) (kept_in self.new result.id.page) (kept_in self.old result.id.page) }
        ensures elsewhere { (p : PageId) → p ≢ result.id.page → kept_in self.new p ≡ kept_in self.old p }
        ensures doubts { prepared_in self.new ≡ prepared_in self.old }
        ensures next { next_in self.new ≡ next_in self.old }
        ensures reserved { (room_in self.new).reserved + cost ≡ (room_in self.old).reserved }
        ensures kept { (room_in self.new).kept ≡ (room_in self.old).kept + cost }
        ensures stream { (room_in self.new).stream_bytes ≡ (room_in self.old).stream_bytes }
    {
        let undone = self.active[seat.index].note_compensation(lsn, rollback, cost);
        self.room.release(cost);
        self.room.append(cost);
        undone
    }

    /// The transaction at a seat is back at the savepoint of this index: those behind it are gone. It takes no memory.
    pub fn go_back(&mut self, seat: &Seat, index: usize)
        requires seated { IsSeatIn seat.now self.old }
        requires free { AtSeat seat.now self.old (λ t. is_in_doubt (state_of t) ≡ false) }
        ensures back { OneBecomes seat.now.txn (IsBackAt index) (txns_in self.old) (txns_in self.new) }
        ensures undos { (a : SessionTxn) → IsAmong a (undos_in self.old) → a.txn ≡ seat.now.txn
            → undos_in self.new ≡ with_undo a.txn (back_at index a.undo) (undos_in self.old) }
        ensures claims { (p : PageId) → kept_in self.new p ≡ kept_in self.old p }
        ensures doubts { prepared_in self.new ≡ prepared_in self.old }
        ensures next { next_in self.new ≡ next_in self.old }
        ensures room { room_in self.new ≡ room_in self.old }
    {
        self.active[seat.index].go_back(index);
    }

    /// From now on the transaction at a seat can only be rolled back, whole: its savepoints are gone, and it asks for nothing else. Nothing of it is put
    /// back yet, and what is reserved for that stays. It takes no memory.
    pub fn doom(&mut self, seat: &Seat)
        requires seated { IsSeatIn seat.now self.old }
        requires free { AtSeat seat.now self.old (λ t. is_in_doubt (state_of t) ≡ false) }
        ensures doomed { OneBecomes seat.now.txn IsDoomed (txns_in self.old) (txns_in self.new) }
        ensures undos { (a : SessionTxn) → IsAmong a (undos_in self.old) → a.txn ≡ seat.now.txn
            → undos_in self.new ≡ with_undo a.txn (undo_rolled a.undo a.undo.images Whole) (undos_in self.old) }
        ensures claims { (p : PageId) → kept_in self.new p ≡ kept_in self.old p }
        ensures doubts { prepared_in self.new ≡ prepared_in self.old }
        ensures next { next_in self.new ≡ next_in self.old }
        ensures room { room_in self.new ≡ room_in self.old }
    {
        self.active[seat.index].doom();
    }

    /// The rollback of the transaction at a seat has ended, which has no change left: what was reserved for its ending is free, and pays for its End if
    /// one was logged. Answers its number.
    pub fn note_end(&mut self, seat: &Seat, logged: bool) -> TxnId
        requires seated { IsSeatIn seat.now self.old }
        requires free { AtSeat seat.now self.old (λ t. is_in_doubt (state_of t) ≡ false) }
        requires empty { (a : SessionTxn) → IsAmong a (undos_in self.old) → a.txn ≡ seat.now.txn → a.undo.images ≡ [] }
        ensures number { result ≡ seat.now.txn }
        ensures left { OneLeaves seat.now.txn [] (txns_in self.old) (txns_in self.new) }
        ensures undos { (a : SessionTxn) → IsAmong a (undos_in self.old) → a.txn ≡ seat.now.txn → undos_in self.new ≡ without_txn a.txn (undos_in self.old) }
        ensures claims { (p : PageId) → kept_in self.new p ≡ kept_in self.old p }
        ensures doubts { prepared_in self.new ≡ prepared_in self.old }
        ensures next { next_in self.new ≡ next_in self.old }
        ensures reserved { (room_in self.new).reserved + ENDING_COST ≡ (room_in self.old).reserved }
        ensures kept { (room_in self.new).kept ≡ (room_in self.old).kept + (if logged then ENDING_COST else 0) }
        ensures stream { (room_in self.new).stream_bytes ≡ (room_in self.old).stream_bytes }
    {
        let ended = self.take_out(seat);
        self.room.append(if logged { ENDING_COST } else { 0 });
        ended.txn().id()
    }
}
