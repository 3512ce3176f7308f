//! The table of transactions of many sessions.
ghost use Rattle.std.specs.Prelude.{◌≡◌, ◌≢◌, ◌+◌, ◌*◌, ◌<◌, ◌≤◌, ◌↔◌, ◌∷◌, [], All, IfNone, IfOk, IfSome, IsOk, IsTrue, OnErr, OnOk, length};
ghost use Rattle.std.proofs.Props.{props};
ghost use Rattle.std.specs.List.{AllByRecursion, HoldsAt};
ghost use Rattle.shore_types.specs.declared.ids.PageId.{PageId};
ghost use Rattle.shore_types.specs.declared.layout.TheConstants.{ENDING_COST, GREATEST_CHECKPOINT, LAST_TXN, LONGEST_FRAME, MAX_RECORD_BYTES};
ghost use Rattle.shore_types.specs.Images.{image_len};
ghost use Rattle.laws_room.specs.LogRooms.{compensation_cost, owed_by_all};
ghost use Rattle.laws_lives.specs.Sessions.{EachOnce, SessionTxn, txns_of, with_undo, without_prepared, without_txn};
ghost use Rattle.laws_lives.specs.UndoLists.{nothing_to_undo};
ghost use Rattle.laws_lives.specs.Views.{IsAmong};
ghost use Rattle.shore_txn.specs.ActiveTxns as listed;
ghost use Rattle.shore_txn.specs.ActiveTxns.{AreApart, EachOnce-prop, HasMore, IsBegun, OneBecomes, OneLeaves, undos_of, with_entry};
ghost use Rattle.shore_txn.specs.Txns.{IsAfterChange, IsOf, SameTxn, as_session_txn, entries_of, number_of, prepared_of, reserved_for};
ghost use Rattle.shore_txn.specs.UndoEntries.{claims_on};
ghost use Rattle.shore_txn.specs.declared.txn.Txn.{Txn};

use crate::active::ActiveTxn;
use crate::guesses::Guesses;
use crate::log_room::LogRoom;
use crate::seat::Seat;
use crate::txn::Txn;
use crate::undo::UndoEntry;
use shore_types::layout::{ENDING_COST, LAST_TXN};
use shore_types::{SessionId, TxnId};
use std::alloc::{AllocError, Global};

/// The transactions under way, and the room of the log that they share with all records. A session is in one at most.
#[derive(Drop)]
pub struct Transactions {
    /// The number of the next transaction: those under way have lower ones (`below`).
    next: u64,
    /// The transactions under way, the oldest first: no two of a number (`numbers`), and no session in two (`sessions`).
    pub(crate) active: Vec<ActiveTxn>,
    /// Where the transaction of a session may be among them.
    pub(crate) guesses: Guesses,
    /// The room of the log: what is reserved in it is what those under way owe (`sum`).
    pub(crate) room: LogRoom,
    ghost some: { 1 ≤ next },
    ghost sum: { room.reserved ≡ owed_by_all (undos_of active.items) + ENDING_COST * length (prepared_of (listed.txns_of active.items)) },
    ghost numbers: { EachOnce (txns_of (undos_of active.items)) } by { EachOnce-prop (txns_of (undos_of active.items)) },
    ghost sessions: { AreApart (listed.txns_of active.items) },
    ghost below: { AllByRecursion (λ a. a.txn < next) (undos_of active.items) } by { Prim.hlevel props },
}

impl Transactions {
    ghost use Rattle.shore_txn.specs.Transactions.{AtSeat, HasNoTxnOf, HasRoomToNote, HasTxnRoom, IsSeatIn, IsUnchanged, kept_in, next_in, prepared_in, room_in, txns_in, undos_in};

    /// A table with no transaction, whose next has this number.
    pub fn new(alloc: Global, room: LogRoom, next: u64) -> Transactions
        requires some { 1 ≤ next }
        requires unreserved { room.reserved ≡ 0 }
        ensures none { txns_in result ≡ [] }
        ensures next { next_in result ≡ next }
        ensures room { room_in result ≡ room }
    {
        Transactions {
            next,
            active: Vec::new(alloc),
            guesses: Guesses::new(),
            room,
        }
    }

    /// Where the transaction is that a session is in.
    pub fn seat(&self, session: SessionId) -> Option<Seat>
        ensures some { IfSome result (λ seat. IsSeatIn seat self.now × (seat.session ≡ session)) }
        ensures own { IfSome result (λ seat. AtSeat seat self.now (IsOf session)) }
        ensures none { IfNone result (HasNoTxnOf session self.now) }
    {
        let index = self.find(session)?;
        Some(self.seat_at(session, index))
    }

    // The seat of a session that works on the transaction of an index.
    pub(crate) fn seat_at(&self, session: SessionId, index: usize) -> Seat
        requires { index < length self.now.active.items }
        ensures seated { IsSeatIn result self.now }
        ensures session { result.session ≡ session }
        ensures index { result.index ≡ index }
        ensures number { HoldsAt (λ a. number_of a.txn ≡ result.txn) self.now.active.items index }
    {
        Seat {
            session,
            txn: self.active[index].txn().id(),
            index,
        }
    }

    /// The transaction at a seat.
    pub fn txn(&self, seat: &Seat) -> &Txn
        requires { IsSeatIn seat.now self.now }
        ensures among { IsAmong result.now (txns_in self.now) }
        ensures there { IsAmong (as_session_txn result.now) (undos_in self.now) }
        ensures number { number_of result.now ≡ seat.now.txn }
    {
        self.active[seat.index].txn()
    }

    /// How many transactions are under way.
    pub fn count(&self) -> usize
        ensures { result ≡ length (undos_in self.now) }
    {
        self.active.len()
    }

    /// The number of the next transaction.
    pub fn next(&self) -> u64
        ensures { result ≡ next_in self.now }
    {
        self.next
    }

    /// Whether so much more, in records and in what is reserved, leaves room for the longest frame and the greatest checkpoint.
    pub fn admits(&self, need: u64) -> bool
        ensures { IsTrue result ↔ ((room_in self.now).kept + (room_in self.now).reserved + need + LONGEST_FRAME + GREATEST_CHECKPOINT ≤ (room_in self.now).stream_bytes) }
    {
        self.room.admits(need)
    }

    /// The room of the log.
    pub fn room(&self) -> LogRoom
        ensures { result ≡ room_in self.now }
    {
        self.room
    }

    /// Records were appended that no transaction of the table has logged, or are no longer kept: the room of the log is this one, in which as much is reserved.
    pub fn set_room(&mut self, room: LogRoom)
        requires reserved { room.reserved ≡ (room_in self.old).reserved }
        ensures room { room_in self.new ≡ room }
        ensures txns { txns_in self.new ≡ txns_in self.old }
        ensures next { next_in self.new ≡ next_in self.old }
    {
        self.room = room;
    }

    /// Begins a transaction of a session that is in none, and reserves what its ending costs. If memory is short nothing has changed.
    pub fn begin(&mut self, alloc: Global, session: SessionId) -> Result<TxnId, AllocError>
        requires none { HasNoTxnOf session self.old }
        requires below { next_in self.old < LAST_TXN }
        requires room { (room_in self.old).kept + (room_in self.old).reserved + ENDING_COST ≤ (room_in self.old).stream_bytes }
        ensures number { IfOk result (λ number. number ≡ next_in self.old) }
        ensures begun { OnOk result ((t : Txn) × (txns_in self.new ≡ t ∷ txns_in self.old) × IsBegun (next_in self.old) session t) }
        ensures undos { OnOk result (undos_in self.new ≡ record { session = session; txn = next_in self.old; undo = nothing_to_undo } ∷ undos_in self.old) }
        ensures claims { (p : PageId) → kept_in self.new p ≡ kept_in self.old p }
        ensures doubts { prepared_in self.new ≡ prepared_in self.old }
        ensures next { OnOk result (next_in self.new ≡ next_in self.old + 1) }
        ensures reserved { OnOk result ((room_in self.new).reserved ≡ (room_in self.old).reserved + ENDING_COST) }
        ensures kept { (room_in self.new).kept ≡ (room_in self.old).kept }
        ensures stream { (room_in self.new).stream_bytes ≡ (room_in self.old).stream_bytes }
        ensures idle { HasTxnRoom self.old → IsOk result }
        ensures unchanged { OnErr result (IsUnchanged self.old self.new) }
    {
        self.active.reserve(1)?;
        let number = TxnId(self.next);
        self.guesses.note(session, self.active.len());
        self.active
            .push_reserved(ActiveTxn::new(alloc, number, session));
        self.next += 1;
        self.room.reserve(ENDING_COST);
        Ok(number)
    }

    /// Takes the memory for a change more of the transaction at a seat. If that fails nothing has changed but the memory.
    pub fn reserve_entry(&mut self, alloc: Global, seat: &Seat) -> Result<(), AllocError>
        requires seated { IsSeatIn seat.now self.old }
        ensures memory { OnOk result (HasRoomToNote seat.now.txn self.new) }
        ensures idle { HasRoomToNote seat.now.txn self.old → IsOk result }
        ensures same { OneBecomes seat.now.txn SameTxn (txns_in self.old) (txns_in self.new) }
        ensures undos { undos_in self.new ≡ undos_in self.old }
        ensures claims { (p : PageId) → kept_in self.new p ≡ kept_in self.old p }
        ensures doubts { prepared_in self.new ≡ prepared_in self.old }
        ensures next { next_in self.new ≡ next_in self.old }
        ensures room { room_in self.new ≡ room_in self.old }
    {
        self.active[seat.index].reserve_entry(alloc)
    }

    /// A change of the transaction at a seat was logged. `logged` is what its record costs, and `undo` what that of its undo would.
    pub fn note_change(&mut self, seat: &Seat, entry: UndoEntry, logged: u64, undo: u64)
        requires seated { IsSeatIn seat.now self.old }
        requires memory { HasRoomToNote seat.now.txn self.old }
        requires short { image_len entry.before ≤ MAX_RECORD_BYTES }
        requires cost { undo ≡ compensation_cost entry.before }
        requires room { (room_in self.old).kept + (room_in self.old).reserved + logged + undo ≤ (room_in self.old).stream_bytes }
        ensures noted { OneBecomes seat.now.txn (λ old new. IsAfterChange old entry new) (txns_in self.old) (txns_in self.new) }
        ensures undos { (a : SessionTxn) → IsAmong a (undos_in self.old) → a.txn ≡ seat.now.txn → undos_in self.new ≡ with_undo a.txn (with_entry a.undo entry) (undos_in self.old) }
        ensures claimed { HasMore ((entry.id.slot, image_len entry.before) ∷ []) (kept_in self.old entry.id.page) (kept_in self.new entry.id.page) }
        ensures elsewhere { (p : PageId) → p ≢ entry.id.page → kept_in self.new p ≡ kept_in self.old p }
        ensures doubts { prepared_in self.new ≡ prepared_in self.old }
        ensures next { next_in self.new ≡ next_in self.old }
        ensures reserved { (room_in self.new).reserved ≡ (room_in self.old).reserved + undo }
        ensures kept { (room_in self.new).kept ≡ (room_in self.old).kept + logged }
        ensures stream { (room_in self.new).stream_bytes ≡ (room_in self.old).stream_bytes }
    {
        self.active[seat.index].note_change(entry, undo);
        self.room.append(logged);
        self.room.reserve(undo);
    }

    /// The Commit of the transaction at a seat was logged: what was reserved for it is free. Answers its number, and its changes, the oldest first,
    /// whose claims go now.
    pub fn note_commit(&mut self, seat: &Seat) -> (TxnId, Vec<UndoEntry>)
        requires seated { IsSeatIn seat.now self.old }
        ensures number { result.0 ≡ seat.now.txn }
        ensures left { OneLeaves seat.now.txn result.1.items (txns_in self.old) (txns_in self.new) }
        ensures undos { (a : SessionTxn) → IsAmong a (undos_in self.old) → a.txn ≡ seat.now.txn → undos_in self.new ≡ without_txn a.txn (undos_in self.old) }
        ensures claims { (p : PageId) → HasMore (claims_on p result.1.items) (kept_in self.new p) (kept_in self.old p) }
        ensures doubts { prepared_in self.new ≡ without_prepared seat.now.txn (prepared_in self.old) }
        ensures next { next_in self.new ≡ next_in self.old }
        ensures kept { (room_in self.new).kept ≡ (room_in self.old).kept + ENDING_COST }
        ensures reserved { AtSeat seat.now self.old (λ t. (room_in self.new).reserved + reserved_for t ≡ (room_in self.old).reserved) }
        ensures stream { (room_in self.new).stream_bytes ≡ (room_in self.old).stream_bytes }
    {
        let decided = self.take_out(seat);
        self.room.append(ENDING_COST);
        (decided.txn().id(), decided.into_undo())
    }

    // Takes the transaction at a seat out: what was reserved for it is free.
    pub(crate) fn take_out(&mut self, seat: &Seat) -> ActiveTxn
        requires seated { IsSeatIn seat.now self.old }
        ensures among { IsAmong result.txn (txns_in self.old) }
        ensures number { number_of result.txn ≡ seat.now.txn }
        ensures left { OneLeaves seat.now.txn (entries_of result.txn) (txns_in self.old) (txns_in self.new) }
        ensures next { next_in self.new ≡ next_in self.old }
        ensures reserved { (room_in self.new).reserved + reserved_for result.txn ≡ (room_in self.old).reserved }
        ensures kept { (room_in self.new).kept ≡ (room_in self.old).kept }
        ensures stream { (room_in self.new).stream_bytes ≡ (room_in self.old).stream_bytes }
    {
        let one = self.active.remove(seat.index);
        self.guesses.note_from(&self.active, seat.index);
        self.room.release(one.txn().reserved());
        one
    }

    // Where the transaction is that a session is in.
    fn find(&self, session: SessionId) -> Option<usize>
        ensures some { IfSome result (λ index. (index < length self.now.active.items) × HoldsAt (λ a. IsOf session a.txn) self.now.active.items index) }
        ensures none { IfNone result (All (λ a. IsOf session a.txn → ⊥) self.now.active.items) }
    {
        let guess = self.guesses.of(session);
        if let Some(active) = self.active.get(guess)
            && active.txn().is_of(session)
        {
            return Some(guess);
        }
        self.active
            .iter()
            .position(|active| active.txn().is_of(session))
    }
}
