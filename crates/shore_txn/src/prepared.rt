//! Transactions of the table that are prepared: by a session, or found so in the log.
ghost use Rattle.std.specs.Prelude.{◌≡◌, ◌≢◌, ◌+◌, ◌<◌, ◌≤◌, ◌↔◌, ◌∷◌, [], All, IfNone, IfOk, IfSome, IsOk, IsTrue, OnErr, OnOk, Some, false, length, map, reverse, slice_get, true};
ghost use Rattle.std.specs.List.{HoldsAt};
ghost use Rattle.std.specs.List.Sorted.{IsPermutation};
ghost use Rattle.shore_types.specs.Images.{image_len};
ghost use Rattle.shore_types.specs.declared.ids.PageId.{PageId};
ghost use Rattle.shore_types.specs.declared.layout.TheConstants.{ENDING_COST, LAST_TXN, LONGEST_FRAME, MAX_RECORD_BYTES};
ghost use Rattle.laws_room.specs.LogRooms.{compensation_cost};
ghost use Rattle.laws_lives.specs.Sessions.{PreparedTxn, SessionTxn, with_answered, with_undo, without_prepared};
ghost use Rattle.laws_lives.specs.UndoLists.{nothing_to_undo, undo_rolled};
ghost use Rattle.laws_lives.specs.Views.{IsAmong};
ghost use Rattle.shore_model.specs.declared.rollbacks.Rollback.TheVariants.{Whole};
ghost use Rattle.shore_txn.specs.ActiveTxns.{HasMore, IsFound, OneBecomes, with_entry};
ghost use Rattle.shore_txn.specs.TxnStates as states;
ghost use Rattle.shore_txn.specs.Txns.{IsAfterAnswer, IsAfterChange, IsAfterDecision, IsAfterPrepare, IsFoundPrepared, SameTxn, entries_of, global_of, number_of, state_of};
ghost use Rattle.shore_txn.specs.declared.txn.Txn.{Txn};
ghost use Rattle.shore_txn.specs.declared.txn_state.TxnState.TheVariants as state;

use crate::active::{ActiveTxn, NOBODY};
use crate::seat::Seat;
use crate::transactions::Transactions;
use crate::undo::UndoEntry;
use shore_types::layout::ENDING_COST;
use shore_types::{GlobalId, Lsn, SessionId, TxnId};
use std::alloc::{AllocError, Global};

impl Transactions {
    ghost use Rattle.shore_txn.specs.Transactions.{AtSeat, HasRoomToNote, HasTxnRoom, IsSeatIn, IsUnchanged, kept_in, next_in, prepared_in, room_in, txns_in, undos_in};

    /// The Prepare of the transaction at a seat, which gives it this name, was logged under this number, and costs so much. A second ending is reserved
    /// for: its RollbackDecided.
    pub fn note_prepare(&mut self, seat: &Seat, global: GlobalId, lsn: Lsn, cost: u64)
        requires seated { IsSeatIn seat.now self.old }
        requires active { AtSeat seat.now self.old (λ t. state_of t ≡ state.Active) }
        requires room { (room_in self.old).kept + (room_in self.old).reserved + cost + ENDING_COST ≤ (room_in self.old).stream_bytes }
        ensures noted { OneBecomes seat.now.txn (IsAfterPrepare global lsn) (txns_in self.old) (txns_in self.new) }
        ensures undos { undos_in self.new ≡ undos_in self.old }
        ensures claims { (p : PageId) → kept_in self.new p ≡ kept_in self.old p }
        ensures doubts { IsPermutation (record { txn = seat.now.txn; global = global; answered = false } ∷ prepared_in self.old) (prepared_in self.new) }
        ensures next { next_in self.new ≡ next_in self.old }
        ensures reserved { (room_in self.new).reserved ≡ (room_in self.old).reserved + ENDING_COST }
        ensures kept { (room_in self.new).kept ≡ (room_in self.old).kept + cost }
        ensures stream { (room_in self.new).stream_bytes ≡ (room_in self.old).stream_bytes }
    {
        self.active[seat.index].note_prepare(global, lsn);
        self.room.append(cost);
        self.room.reserve(ENDING_COST);
    }

    /// The prepare of the transaction at a seat is answered: from now on it can be resolved.
    pub fn note_answer(&mut self, seat: &Seat)
        requires seated { IsSeatIn seat.now self.old }
        requires preparing { AtSeat seat.now self.old (λ t. state_of t ≡ state.Preparing) }
        ensures answered { OneBecomes seat.now.txn IsAfterAnswer (txns_in self.old) (txns_in self.new) }
        ensures undos { undos_in self.new ≡ undos_in self.old }
        ensures claims { (p : PageId) → kept_in self.new p ≡ kept_in self.old p }
        ensures doubts { prepared_in self.new ≡ with_answered seat.now.txn (prepared_in self.old) }
        ensures next { next_in self.new ≡ next_in self.old }
        ensures room { room_in self.new ≡ room_in self.old }
    {
        self.active[seat.index].note_answer();
    }

    /// The RollbackDecided of the transaction at a seat was logged under this number: what was reserved for it pays for it. It can only be rolled back,
    /// whole, and no session is in it any more.
    pub fn note_rollback(&mut self, seat: &Seat, lsn: Lsn)
        requires seated { IsSeatIn seat.now self.old }
        requires doubt { AtSeat seat.now self.old (λ t. states.is_in_doubt (state_of t) ≡ true) }
        ensures decided { OneBecomes seat.now.txn (IsAfterDecision lsn) (txns_in self.old) (txns_in self.new) }
        ensures undos { (a : SessionTxn) → IsAmong a (undos_in self.old) → a.txn ≡ seat.now.txn
            → undos_in self.new ≡ with_undo a.txn (undo_rolled a.undo a.undo.images Whole) (undos_in self.old) }
        ensures claims { (p : PageId) → kept_in self.new p ≡ kept_in self.old p }
        ensures doubts { prepared_in self.new ≡ without_prepared seat.now.txn (prepared_in self.old) }
        ensures next { next_in self.new ≡ next_in self.old }
        ensures reserved { (room_in self.new).reserved + ENDING_COST ≡ (room_in self.old).reserved }
        ensures kept { (room_in self.new).kept ≡ (room_in self.old).kept + ENDING_COST }
        ensures stream { (room_in self.new).stream_bytes ≡ (room_in self.old).stream_bytes }
    {
        self.active[seat.index].note_rollback(lsn);
        self.room.release(ENDING_COST);
        self.room.append(ENDING_COST);
    }

    /// The seat, for a session that resolves it, of the transaction that has this name.
    pub fn seat_of_global(&self, session: SessionId, global: &GlobalId) -> Option<Seat>
        ensures some { IfSome result (λ seat. IsSeatIn seat self.now × (seat.session ≡ session)) }
        ensures named { IfSome result (λ seat. AtSeat seat self.now (λ t. global_of t ≡ Some global.now)) }
        ensures none { IfNone result ((t : Txn) → IsAmong t (txns_in self.now) → global_of t ≢ Some global.now) }
    {
        let index = self.named(global)?;
        Some(self.seat_at(session, index))
    }

    // Where the transaction is that has this name.
    fn named(&self, global: &GlobalId) -> Option<usize>
        ensures some { IfSome result (λ index. (index < length self.now.active.items) × HoldsAt (λ a. global_of a.txn ≡ Some global.now) self.now.active.items index) }
        ensures none { IfNone result (All (λ a. global_of a.txn ≢ Some global.now) self.now.active.items) }
    {
        self.active
            .iter()
            .position(|active| active.txn().has_global(global))
    }

    /// Those in doubt, each by its name, the oldest first.
    pub fn in_doubt(&self, alloc: Global) -> Result<Vec<(GlobalId, TxnId)>, AllocError>
        ensures { IfOk result (λ found. found.items ≡ map (λ (p : PreparedTxn). (p.global, p.txn)) (reverse (prepared_in self.now))) }
    {
        let mut found = Vec::new(alloc);
        for active in &self.active {
            if let Some(doubt) = active.txn().doubt(alloc)? {
                found.push(doubt)?;
            }
        }
        Ok(found)
    }

    /// Whether so much more may be reserved for a transaction that an open has found.
    pub fn holds(&self, cost: u64) -> bool
        ensures { IsTrue result ↔ ((room_in self.now).kept + (room_in self.now).reserved + cost + LONGEST_FRAME ≤ (room_in self.now).stream_bytes) }
    {
        self.room.holds(cost)
    }

    /// A transaction that the log has from this number on, with no session in it and none of its changes yet: they are noted next, and then its Prepare.
    /// Its first record may be one that is undone, so they do not tell it. The room of its ending is reserved. If memory is short nothing has changed.
    pub fn restore(&mut self, alloc: Global, txn: TxnId, first: Lsn) -> Result<Seat, AllocError>
        requires some { 1 ≤ txn }
        requires last { txn < LAST_TXN }
        requires below { txn < next_in self.old }
        requires new { (t : Txn) → IsAmong t (txns_in self.old) → number_of t ≢ txn }
        requires room { (room_in self.old).kept + (room_in self.old).reserved + ENDING_COST ≤ (room_in self.old).stream_bytes }
        ensures seated { IfOk result (λ seat. IsSeatIn seat self.new × (seat.txn ≡ txn)) }
        ensures found { OnOk result ((t : Txn) × (txns_in self.new ≡ t ∷ txns_in self.old) × IsFound txn first t) }
        ensures undos { OnOk result (undos_in self.new ≡ record { session = 0; txn = txn; undo = nothing_to_undo } ∷ undos_in self.old) }
        ensures claims { (p : PageId) → kept_in self.new p ≡ kept_in self.old p }
        ensures doubts { prepared_in self.new ≡ prepared_in self.old }
        ensures next { next_in self.new ≡ next_in self.old }
        ensures reserved { OnOk result ((room_in self.new).reserved ≡ (room_in self.old).reserved + ENDING_COST) }
        ensures kept { (room_in self.new).kept ≡ (room_in self.old).kept }
        ensures stream { (room_in self.new).stream_bytes ≡ (room_in self.old).stream_bytes }
        ensures idle { HasTxnRoom self.old → IsOk result }
        ensures unchanged { OnErr result (IsUnchanged self.old self.new) }
    {
        self.active.reserve(1)?;
        let index = self.active.len();
        self.active
            .push_reserved(ActiveTxn::found(alloc, txn, first));
        self.room.reserve(ENDING_COST);
        Ok(self.seat_at(NOBODY, index))
    }

    /// A change that the log has of a transaction that is restored. What its undo costs is reserved. If memory is short nothing has changed but the memory.
    pub fn restore_change(
        &mut self,
        alloc: Global,
        seat: &Seat,
        entry: UndoEntry,
        undo: u64,
    ) -> Result<(), AllocError>
        requires seated { IsSeatIn seat.now self.old }
        requires short { image_len entry.before ≤ MAX_RECORD_BYTES }
        requires cost { undo ≡ compensation_cost entry.before }
        requires room { (room_in self.old).kept + (room_in self.old).reserved + undo ≤ (room_in self.old).stream_bytes }
        ensures noted { OnOk result (OneBecomes seat.now.txn (λ old new. IsAfterChange old entry new) (txns_in self.old) (txns_in self.new)) }
        ensures undos { OnOk result ((a : SessionTxn) → IsAmong a (undos_in self.old) → a.txn ≡ seat.now.txn → undos_in self.new ≡ with_undo a.txn (with_entry a.undo entry) (undos_in self.old)) }
        ensures claimed { OnOk result (HasMore ((entry.id.slot, image_len entry.before) ∷ []) (kept_in self.old entry.id.page) (kept_in self.new entry.id.page)) }
        ensures elsewhere { OnOk result ((p : PageId) → p ≢ entry.id.page → kept_in self.new p ≡ kept_in self.old p) }
        ensures doubts { prepared_in self.new ≡ prepared_in self.old }
        ensures next { next_in self.new ≡ next_in self.old }
        ensures reserved { OnOk result ((room_in self.new).reserved ≡ (room_in self.old).reserved + undo) }
        ensures kept { (room_in self.new).kept ≡ (room_in self.old).kept }
        ensures stream { (room_in self.new).stream_bytes ≡ (room_in self.old).stream_bytes }
        ensures same { OnErr result (OneBecomes seat.now.txn SameTxn (txns_in self.old) (txns_in self.new)) }
        ensures idle { HasRoomToNote seat.now.txn self.old → IsOk result }
        ensures unchanged { OnErr result (room_in self.new ≡ room_in self.old) }
    {
        self.active[seat.index].restore_change(alloc, entry, undo)?;
        self.room.reserve(undo);
        Ok(())
    }

    /// The Prepare that the log has of a transaction that is restored: it waits for its decision. A second ending is reserved for: its RollbackDecided.
    pub fn restore_prepare(&mut self, seat: &Seat, global: GlobalId, lsn: Lsn)
        requires seated { IsSeatIn seat.now self.old }
        requires active { AtSeat seat.now self.old (λ t. state_of t ≡ state.Active) }
        requires room { (room_in self.old).kept + (room_in self.old).reserved + ENDING_COST ≤ (room_in self.old).stream_bytes }
        ensures found { OneBecomes seat.now.txn (IsFoundPrepared global lsn) (txns_in self.old) (txns_in self.new) }
        ensures undos { undos_in self.new ≡ undos_in self.old }
        ensures claims { (p : PageId) → kept_in self.new p ≡ kept_in self.old p }
        ensures doubts { IsPermutation (record { txn = seat.now.txn; global = global; answered = true } ∷ prepared_in self.old) (prepared_in self.new) }
        ensures next { next_in self.new ≡ next_in self.old }
        ensures reserved { (room_in self.new).reserved ≡ (room_in self.old).reserved + ENDING_COST }
        ensures kept { (room_in self.new).kept ≡ (room_in self.old).kept }
        ensures stream { (room_in self.new).stream_bytes ≡ (room_in self.old).stream_bytes }
    {
        self.active[seat.index].find_prepared(global, lsn);
        self.room.reserve(ENDING_COST);
    }

    /// The changes of the transaction of an index, that of the oldest 0: the oldest first.
    pub fn changes(&self, index: usize) -> &[UndoEntry]
        requires { index < length (txns_in self.now) }
        ensures { (t : Txn) → slice_get (reverse (txns_in self.now)) index ≡ Some t → result.now ≡ entries_of t }
    {
        self.active[index].txn().undo()
    }
}
