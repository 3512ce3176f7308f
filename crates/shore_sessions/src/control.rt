//! Active transactions.
ghost use Rattle.std.specs.Prelude.{◌≡◌, ◌≢◌, ◌+◌, ◌<◌, ◌≤◌, ◌↔◌, [], ℕ, IfNone, IfOk, IfSome, IsTrue, List, Some, false, filter, length, slice_get, true};
ghost use Rattle.std.specs.List.Sorted.{IsPermutation, IsSorted};
ghost use Rattle.shore_model.specs.declared.calls.Call.TheVariants as call;
ghost use Rattle.shore_model.specs.declared.calls.Outcome.{Outcome};
ghost use Rattle.shore_types.specs.declared.layout.TheConstants.{GREATEST_CHECKPOINT, LONGEST_FRAME, MOST_MAX_LOCKS};
ghost use Rattle.laws_lives.specs.OwnSeats.{HasOwnSeats};
ghost use Rattle.laws_lives.specs.Sessions.{SessionTxn};
ghost use Rattle.laws_lives.specs.Views.{IsAmong};
ghost use Rattle.shore_locks.specs.Listing.{request_cmp};
ghost use Rattle.shore_locks.specs.Tables.{is_waiting};
ghost use Rattle.laws_calls.specs.CallSteps.{HasEnded, IsPreparing, txn_count};
ghost use Rattle.laws_calls.specs.States.{DoesNotWait, HasNoTxn, HasPrepared, IsOfSession, State};
ghost use Rattle.shore_txn.specs.Transactions.{AtSeat, HasNoTxnOf, IsSeatIn, next_in, room_in, undos_in};
ghost use Rattle.shore_txn.specs.Transactions as table;
ghost use Rattle.shore_txn.specs.TxnStates.{is_in_doubt};
ghost use Rattle.shore_txn.specs.Txns.{IsOf, as_session_txn, number_of, state_of};
ghost use Rattle.shore_sessions.specs.Calls.{as_waiting, awaits_record, is_resolve, logs_decision};
ghost use Rattle.shore_sessions.specs.declared.waits.WaitingCall.{WaitingCall};
ghost use Rattle.shore_sessions.specs.Seated.{rolled_in, seat_as};
ghost use Rattle.shore_sessions.specs.Waits.{AreMarked};

use crate::waits::{WaitingCall, Waits};
use shore_locks::LockTable;
use shore_model::{Request, Wait};
use shore_txn::{Seat, Transactions, Txn};
use shore_types::{SessionId, TxnId};
use std::alloc::{AllocError, Global};

/// The transactions of sessions, their locks, and their calls that wait.
#[derive(Drop)]
pub struct Control {
    /// The transactions under way, and the room of the log.
    pub(crate) txns: Transactions,
    /// The requests of locks, of those under way: no more than a Prepare may list (`few_locks`).
    pub(crate) locks: LockTable,
    /// The calls that wait: for a lock, or for the force of a prepare or of a resolve. Of those that were let through each is marked (`marked`).
    pub(crate) waits: Waits,
    ghost few_locks: { locks.limit ≤ MOST_MAX_LOCKS },
    ghost marked: { AreMarked locks.requests waits },
}

impl Control {
    ghost use Rattle.shore_sessions.specs.Controls.{HasNoWait, IsLetThrough, NoneLetThrough, locks_in, txns_in, waits_in};
    ghost use Rattle.shore_sessions.specs.Standing.{HasControl, HasTxns};

    /// A control with no call that waits. It stands for each state with these locks in which nobody waits, and no resolve has ended a transaction.
    pub fn new(alloc: Global, txns: Transactions, locks: LockTable) -> Control
        requires few { locks.limit ≤ MOST_MAX_LOCKS }
        ensures txns { txns_in result ≡ txns }
        ensures locks { locks_in result ≡ locks }
        ensures waits { waits_in result ≡ [] }
        ensures stands { (s : State) → HasTxns txns s → IsPermutation s.sessions.resolving (rolled_in txns) → s.waiting ≡ [] → s.locks ≡ locks → HasControl result s }
    {
        Control {
            txns,
            locks,
            waits: Waits::new(alloc),
        }
    }

    // ---- transactions

    /// The transactions under way.
    pub fn txns(&self) -> &Transactions
        ensures { result.now ≡ txns_in self.now }
    {
        &self.txns
    }

    /// Where the transaction under way is that a session is in.
    pub fn seat(&self, session: SessionId) -> Option<Seat>
        ensures some { IfSome result (λ seat. IsSeatIn seat (txns_in self.now) × (seat.session ≡ session)) }
        ensures own { IfSome result (λ seat. AtSeat seat (txns_in self.now) (IsOf session)) }
        ensures of_some { IfSome result (λ seat. (s : State) → HasControl self.now s → AtSeat seat (txns_in self.now) (λ t. s.sessions.seats session ≡ seat_as t)) }
        ensures none { IfNone result (HasNoTxnOf session (txns_in self.now)) }
        ensures of_none { IfNone result ((s : State) → HasControl self.now s → (a : SessionTxn) → IsOfSession s session a → ⊥) }
        ensures free { IfNone result ((s : State) → HasControl self.now s → HasOwnSeats s.sessions → s.failed ≡ false → DoesNotWait s session → HasNoTxn s session) }
    {
        self.txns.seat(session)
    }

    /// The transaction at a seat.
    pub fn txn(&self, seat: &Seat) -> &Txn
        requires { IsSeatIn seat.now (txns_in self.now) }
        ensures among { IsAmong result.now (table.txns_in (txns_in self.now)) }
        ensures there { IsAmong (as_session_txn result.now) (undos_in (txns_in self.now)) }
        ensures number { number_of result.now ≡ seat.now.txn }
        ensures of_session { AtSeat seat.now (txns_in self.now) (IsOf seat.now.session) → is_in_doubt (state_of result.now) ≡ false
            → (s : State) → HasControl self.now s → IsOfSession s seat.now.session (as_session_txn result.now) }
        ensures prepared { AtSeat seat.now (txns_in self.now) (IsOf seat.now.session) → is_in_doubt (state_of result.now) ≡ true
            → (s : State) → HasControl self.now s → HasPrepared s seat.now.session }
    {
        self.txns.txn(seat)
    }

    /// How many transactions there are, with those whose resolves wait.
    pub fn count(&self) -> usize
        ensures number { result ≡ length (undos_in (txns_in self.now)) + length (filter is_resolve (waits_in self.now)) }
        ensures count { (s : State) → HasControl self.now s → s.failed ≡ false → result ≡ txn_count s }
    {
        self.txns.count() + self.waits.resolves_waiting()
    }

    /// The number of the next transaction.
    pub fn next(&self) -> u64
        ensures { result ≡ next_in (txns_in self.now) }
    {
        self.txns.next()
    }

    /// Whether so much more, in records and in what is reserved, leaves room for the longest frame and the greatest checkpoint.
    pub fn admits(&self, need: u64) -> bool
        ensures { IsTrue result ↔ ((room_in (txns_in self.now)).kept + (room_in (txns_in self.now)).reserved + need + LONGEST_FRAME + GREATEST_CHECKPOINT ≤ (room_in (txns_in self.now)).stream_bytes) }
    {
        self.txns.admits(need)
    }

    // ---- calls that wait

    /// The call of a session that waits.
    pub fn waiting(&self, session: SessionId) -> Option<&WaitingCall>
        ensures some { IfSome result (λ w. IsAmong w.now (waits_in self.now) × (w.now.session ≡ session)) }
        ensures none { IfNone result (HasNoWait session self.now) }
        ensures waits { IfSome result (λ w. (s : State) → HasControl self.now s → IsAmong (as_waiting w.now) s.waiting) }
        ensures does_not { IfNone result ((s : State) → HasControl self.now s → DoesNotWait s session) }
        ensures kinds { IfSome result (λ w. (s : State) → HasControl self.now s → awaits_record w.now ≡ logs_decision w.now.call) }
        ensures asks { IfSome result (λ w. awaits_record w.now ≡ false → (s : State) → HasControl self.now s → (a : SessionTxn) × IsOfSession s session a × (a.txn ≡ w.now.txn)) }
        ensures prepares { IfSome result (λ w. (global : List ℕ) → w.now.call ≡ call.Prepare global → (s : State) → HasControl self.now s → IsPreparing s.sessions session w.now.txn global) }
        ensures resolves { IfSome result (λ w. (global : List ℕ) (asked : Outcome) → w.now.call ≡ call.Resolve global asked → (s : State) → HasControl self.now s → s.failed ≡ false
            → HasEnded s.sessions (record { txn = w.now.txn; global = global; outcome = asked })) }
    {
        self.waits.of(session)
    }

    /// All calls that wait, the oldest first.
    pub fn calls(&self) -> &[WaitingCall]
        ensures { result.now ≡ waits_in self.now }
    {
        self.waits.all()
    }

    /// The place of the first call, from this one of their list on, that was let through: it waits for a lock, and its transaction waits no more. Only those are looked at
    /// that were let through since they began to wait.
    pub fn next_let_through(&self, from: usize) -> Option<usize>
        ensures some { IfSome result (λ place. (w : WaitingCall) × (slice_get (waits_in self.now) place ≡ Some w) × IsLetThrough self.now w) }
        ensures first { IfSome result (λ place. (from ≤ place) × NoneLetThrough self.now from place) }
        ensures none { IfNone result (NoneLetThrough self.now from (length (waits_in self.now))) }
    {
        let mut next = from;
        while let Some(place) = self.waits.next_let_through(next) {
            if self.is_let_through(place) {
                return Some(place);
            }
            next = place + 1;
        }
        None
    }

    // Whether the call at a place waits for a lock, and its transaction waits no more.
    fn is_let_through(&self, place: usize) -> bool
        requires { place < length (waits_in self.now) }
        ensures { (w : WaitingCall) → slice_get (waits_in self.now) place ≡ Some w → IsTrue result ↔ IsLetThrough self.now w }
    {
        let waiting = &self.waits.all()[place];
        matches!(waiting.wait, Wait::Lock(_)) && !self.locks.is_waiting(waiting.txn)
    }

    // ---- locks

    /// The lock table.
    pub fn locks(&self) -> &LockTable
        ensures { result.now ≡ locks_in self.now }
    {
        &self.locks
    }

    /// Whether a transaction waits in the lock table.
    pub fn is_waiting(&self, txn: TxnId) -> bool
        ensures { result ≡ is_waiting txn (locks_in self.now).requests }
    {
        self.locks.is_waiting(txn)
    }

    /// All requests, by granule and then by transaction.
    pub fn requests(&self, alloc: Global) -> Result<Vec<Request>, AllocError>
        ensures all { IfOk result (λ all. IsPermutation (locks_in self.now).requests all.items) }
        ensures order { IfOk result (λ all. IsSorted request_cmp all.items) }
    {
        self.locks.requests(alloc)
    }
}
