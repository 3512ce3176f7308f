//! Decisions on transactions that are prepared.
ghost use Rattle.std.specs.Prelude.{◌≡◌, ◌≢◌, ◌+◌, ◌⊎◌, ◌++◌, ◌∷◌, ◌↔◌, [], ℕ, List, IfNone, IfSome, IsTrue, None, Some, false, filter, length, not, true, ◌==◌};
ghost use Rattle.shore_types.specs.declared.ids.PageId.{PageId};
ghost use Rattle.shore_types.specs.declared.layout.TheConstants.{ENDING_COST};
ghost use Rattle.shore_model.specs.Histories as histories;
ghost use Rattle.shore_locks.specs.Grants.{released};
ghost use Rattle.laws_lives.specs.OwnSeats.{HasOwnSeats};
ghost use Rattle.laws_lives.specs.Sessions.{ResolvedTxn, SessionTxn};
ghost use Rattle.laws_lives.specs.Views.{IsAmong};
ghost use Rattle.laws_calls.specs.Resolves.{IsResolvable, IsRollingBack, MayResolve, resolve_committed, resolve_ended, rollback_decided};
ghost use Rattle.laws_calls.specs.StateChanges.{decision_waiting};
ghost use Rattle.laws_calls.specs.States.{DoesNotWait, State};
ghost use Rattle.shore_txn.specs.ActiveTxns.{HasMore, OneBecomes, OneLeaves};
ghost use Rattle.shore_txn.specs.Transactions as table;
ghost use Rattle.shore_txn.specs.Transactions.{AtSeat, IsSeatIn, kept_in, room_in};
ghost use Rattle.shore_txn.specs.TxnStates.{is_in_doubt};
ghost use Rattle.shore_txn.specs.Txns.{IsAfterDecision, global_of, state_of};
ghost use Rattle.shore_txn.specs.UndoEntries.{claims_on, images_of};
ghost use Rattle.shore_txn.specs.declared.txn_state.TxnState.TheVariants as state;
ghost use Rattle.shore_sessions.specs.Calls.{as_resolved};
ghost use Rattle.shore_sessions.specs.declared.waits.WaitingCall.{WaitingCall};

use crate::control::Control;
use crate::waits::WaitingCall;
use shore_locks::LetThrough;
use shore_model::{Call, Outcome, Wait};
use shore_txn::{Seat, TxnState, UndoEntry};
use shore_types::{GlobalId, Lsn, SessionId, TxnId};

impl Control {
    ghost use Rattle.shore_sessions.specs.Controls.{HasNoWait, HasWaitRoom, locks_in, txns_in, waits_in};
    ghost use Rattle.shore_sessions.specs.Seated.{CanResolve, NamesDiffer};
    ghost use Rattle.shore_sessions.specs.Standing.{HasControl, HasControlBut, IsAt};

    /// Whether a session may resolve the transaction that has this name: it is in no other.
    pub fn may_resolve(&self, session: SessionId, global: &GlobalId) -> bool
        ensures { (s : State) → HasControl self.now s → HasOwnSeats s.sessions → s.failed ≡ false → DoesNotWait s session → IsTrue result ↔ MayResolve s session global.now }
    {
        match self.txns.seat(session) {
            Some(seat) => self.txns.txn(&seat).has_global(global),
            None => true,
        }
    }

    /// The seat, for a session that resolves it, of the transaction that has this name and whose prepare is answered.
    pub fn prepared(&self, session: SessionId, global: &GlobalId) -> Option<Seat>
        ensures some { IfSome result (λ seat. IsSeatIn seat (txns_in self.now) × (seat.session ≡ session)) }
        ensures named { IfSome result (λ seat. AtSeat seat (txns_in self.now) (λ t. (global_of t ≡ Some global.now) × (state_of t ≢ state.Preparing))) }
        ensures can { IfSome result (λ seat. (s : State) → HasControl self.now s → s.failed ≡ false → AtSeat seat (txns_in self.now) (λ t. CanResolve s t global.now)) }
        ensures none { IfNone result ((s : State) (a : SessionTxn) → HasControl self.now s → s.failed ≡ false → NamesDiffer s.sessions
            → IsResolvable s a global.now ⊎ IsRollingBack s a global.now → ⊥) }
    {
        let seat = self.txns.seat_of_global(session, global)?;
        if matches!(self.txns.txn(&seat).state(), TxnState::Preparing) {
            return None;
        }
        Some(seat)
    }

    /// The Commit of the transaction at a seat was logged under this number by a resolve, which waits for the force. Its locks go. Answers its changes,
    /// the oldest first, whose claims go too.
    pub fn resolve(&mut self, seat: &Seat, global: GlobalId, number: Lsn) -> Vec<UndoEntry>
        requires seated { IsSeatIn seat.now (txns_in self.old) }
        requires memory { HasWaitRoom self.old }
        requires free { HasNoWait seat.now.session self.old }
        ensures left { OneLeaves seat.now.txn result.items (table.txns_in (txns_in self.old)) (table.txns_in (txns_in self.new)) }
        ensures claims { (p : PageId) → HasMore (claims_on p result.items) (kept_in (txns_in self.new) p) (kept_in (txns_in self.old) p) }
        ensures locks { locks_in self.new ≡ record { limit = (locks_in self.old).limit; requests = released seat.now.txn (locks_in self.old).requests } }
        ensures waits { waits_in self.new ≡ waits_in self.old
            ++ record { session = seat.now.session; txn = seat.now.txn; call = Call.Resolve global Outcome.Commit; wait = Wait.Durable number; cycle = None } ∷ [] }
        ensures undone { (s : State) (a : SessionTxn) → HasControl self.old s → IsAt seat.now s a → images_of result.items ≡ a.undo.images }
        ensures stands { (s : State) (a : SessionTxn) → HasControl self.old s → IsAt seat.now s a → IsResolvable s a global → MayResolve s seat.now.session global
            → NamesDiffer s.sessions → number ≡ 1 + length s.log → HasControl self.new (resolve_committed s seat.now.session a global) }
        ensures stream { (room_in (txns_in self.new)).stream_bytes ≡ (room_in (txns_in self.old)).stream_bytes }
    {
        let (txn, changes) = self.txns.note_commit(seat);
        let mut let_through = LetThrough::nobody();
        self.locks.release_all(txn, &mut let_through);
        self.waits.note_let_through(&let_through, &self.locks);
        self.await_resolve(seat.session, txn, global, Outcome::Commit, number);
        changes
    }

    /// The RollbackDecided of the transaction at a seat was logged under this number. From now on it can only be rolled back, whole, and no session is in it;
    /// its locks stay until its End.
    pub fn note_rollback(&mut self, seat: &Seat, number: Lsn)
        requires seated { IsSeatIn seat.now (txns_in self.old) }
        requires doubt { AtSeat seat.now (txns_in self.old) (λ t. is_in_doubt (state_of t) ≡ true) }
        ensures decided { OneBecomes seat.now.txn (IsAfterDecision number) (table.txns_in (txns_in self.old)) (table.txns_in (txns_in self.new)) }
        ensures reserved { (room_in (txns_in self.new)).reserved + ENDING_COST ≡ (room_in (txns_in self.old)).reserved }
        ensures claims { (p : PageId) → kept_in (txns_in self.new) p ≡ kept_in (txns_in self.old) p }
        ensures locks { locks_in self.new ≡ locks_in self.old }
        ensures waits { waits_in self.new ≡ waits_in self.old }
        ensures memory { HasWaitRoom self.old → HasWaitRoom self.new }
        ensures stands { (s : State) (a : SessionTxn) (global : List ℕ) → HasControl self.old s → IsAt seat.now s a → IsResolvable s a global → number ≡ 1 + length s.log
            → HasControl self.new (rollback_decided s a global) }
        ensures stream { (room_in (txns_in self.new)).stream_bytes ≡ (room_in (txns_in self.old)).stream_bytes }
    {
        self.txns.note_rollback(seat, number);
    }

    /// The resolve of a session waits for the force of its decision's record. Its transaction is in the table no more.
    pub fn await_resolve(
        &mut self,
        session: SessionId,
        txn: TxnId,
        global: GlobalId,
        outcome: Outcome,
        number: Lsn,
    )
        requires memory { HasWaitRoom self.old }
        requires free { HasNoWait session self.old }
        ensures txns { txns_in self.new ≡ txns_in self.old }
        ensures locks { locks_in self.new ≡ locks_in self.old }
        ensures waits { waits_in self.new ≡ waits_in self.old ++ record { session = session; txn = txn; call = Call.Resolve global outcome; wait = Wait.Durable number; cycle = None } ∷ [] }
        ensures stands { (s : State) → HasControlBut (record { txn = txn; global = global; outcome = outcome }) self.old s → s.sessions.seats session ≡ histories.free
            → HasControl self.new (record s { waiting = decision_waiting session (Call.Resolve global outcome) number ∷ s.waiting }) }
    {
        let call = WaitingCall {
            session,
            txn,
            call: Call::Resolve(global, outcome),
            wait: Wait::Durable(number),
            cycle: None,
        };
        self.waits.push(call, false);
    }

    /// The resolve of a session is answered: the name of its transaction is free.
    pub fn end_resolve(&mut self, session: SessionId)
        ensures txns { txns_in self.new ≡ txns_in self.old }
        ensures left { waits_in self.new ≡ filter (λ (w : WaitingCall). not (w.session == session)) (waits_in self.old) }
        ensures free { HasNoWait session self.new }
        ensures locks { locks_in self.new ≡ locks_in self.old }
        ensures stands { (s : State) (w : WaitingCall) (r : ResolvedTxn) → HasControl self.old s → s.failed ≡ false → IsAmong w (waits_in self.old) → w.session ≡ session
            → as_resolved w ≡ Some r → HasControl self.new (resolve_ended s session r) }
    {
        let _ = self.waits.take(session);
    }
}
