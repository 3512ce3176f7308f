//! Transactions that are prepared, and wait for their decision.
ghost use Rattle.std.specs.Prelude.{◌≡◌, ◌≢◌, ◌+◌, ◌≤◌, ◌++◌, ◌∷◌, ◌↔◌, [], ℕ, Contains, IfOk, IsFalse, IsTrue, List, None, Some, false, filter, length, map, not, reverse, ◌==◌};
ghost use Rattle.std.specs.Cmp.Lexicographic.{slice_cmp};
ghost use Rattle.std.specs.List.Sorted.{IsPermutation, IsSortedByKey, IsStrictlySortedBy};
ghost use Rattle.std.specs.Ordering.{nat_cmp};
ghost use Rattle.shore_types.specs.Locking.{granule_cmp};
ghost use Rattle.shore_types.specs.declared.ids.PageId.{PageId};
ghost use Rattle.shore_types.specs.declared.layout.TheConstants.{ENDING_COST, MOST_MAX_LOCKS};
ghost use Rattle.shore_types.specs.declared.locking.Mode.TheVariants as mode;
ghost use Rattle.shore_model.specs.declared.log_records.Payload.TheVariants as payload;
ghost use Rattle.shore_logrec.specs.Text.{cost_of};
ghost use Rattle.shore_locks.specs.Tables.{mode_held};
ghost use Rattle.laws_lives.specs.OwnSeats.{HasOwnSeats};
ghost use Rattle.laws_lives.specs.Sessions.{IsUnused, PreparedTxn, SessionTxn};
ghost use Rattle.laws_calls.specs.CallSteps.{IsPreparing, listed_in_doubt, prepare_ended};
ghost use Rattle.laws_calls.specs.LockedStates.{HasTrueLocks};
ghost use Rattle.laws_calls.specs.Prepares.{granules_in_ex, prepared};
ghost use Rattle.laws_calls.specs.States.{IsOfSession, State};
ghost use Rattle.shore_txn.specs.ActiveTxns.{OneBecomes};
ghost use Rattle.shore_txn.specs.Transactions as table;
ghost use Rattle.shore_txn.specs.Transactions.{AtSeat, IsSeatIn, kept_in, prepared_in, room_in, undos_in};
ghost use Rattle.shore_txn.specs.Txns.{IsAfterPrepare, last_of, state_of};
ghost use Rattle.shore_txn.specs.declared.txn_state.TxnState.TheVariants as state;
ghost use Rattle.shore_sessions.specs.Controls.{IsNameTaken};
ghost use Rattle.shore_sessions.specs.declared.waits.WaitingCall.{WaitingCall};

use crate::control::Control;
use crate::waits::WaitingCall;
use shore_model::{Call, Wait};
use shore_txn::{Seat, TxnState};
use shore_types::{GlobalId, Granule, Lsn, Sequence, SessionId, TxnId};
use std::alloc::{AllocError, Global};

impl Control {
    ghost use Rattle.shore_sessions.specs.Controls.{HasNoWait, HasWaitRoom, locks_in, txns_in, waits_in};
    ghost use Rattle.shore_sessions.specs.Seated.{NamesDiffer};
    ghost use Rattle.shore_sessions.specs.Standing.{HasControl};

    /// Whether a transaction has this name: one under way, or one whose resolve is not answered yet.
    pub fn uses(&self, session: SessionId, global: &GlobalId) -> bool
        ensures taken { IsTrue result ↔ IsNameTaken self.now global.now }
        ensures used { IsTrue result → (s : State) → HasControl self.now s → s.failed ≡ false → IsUnused s.sessions global.now → ⊥ }
        ensures unused { IsFalse result → (s : State) → HasControl self.now s → s.failed ≡ false → IsUnused s.sessions global.now }
    {
        self.txns.seat_of_global(session, global).is_some() || self.waits.resolves(global)
    }

    /// The granules that a transaction holds in EX, rising.
    pub fn exclusive(&self, alloc: Global, txn: TxnId) -> Result<Sequence<Granule>, AllocError>
        ensures held { IfOk result (λ granules. (g : Granule) → Contains granules g ↔ (mode_held txn g (locks_in self.now).requests ≡ Some mode.EX)) }
        ensures order { IfOk result (λ granules. IsStrictlySortedBy granule_cmp granules) }
        ensures few { IfOk result (λ granules. length granules ≤ MOST_MAX_LOCKS) }
        ensures listed { IfOk result (λ granules. (s : State) (a : SessionTxn) → HasControl self.now s → HasTrueLocks s → a.txn ≡ txn → granules ≡ granules_in_ex s a) }
    {
        self.locks.exclusive(alloc, txn)
    }

    /// The Prepare of a session's transaction was logged under this number, and costs so much: its call waits for the force, and its locks and claims stay.
    /// `asked` is a copy of its name. A second ending is reserved for.
    pub fn prepare(
        &mut self,
        seat: &Seat,
        global: GlobalId,
        asked: GlobalId,
        number: Lsn,
        cost: u64,
    )
        requires seated { IsSeatIn seat.now (txns_in self.old) }
        requires active { AtSeat seat.now (txns_in self.old) (λ t. state_of t ≡ state.Active) }
        requires room { (room_in (txns_in self.old)).kept + (room_in (txns_in self.old)).reserved + cost + ENDING_COST ≤ (room_in (txns_in self.old)).stream_bytes }
        requires memory { HasWaitRoom self.old }
        requires free { HasNoWait seat.now.session self.old }
        requires copy { asked ≡ global }
        ensures noted { OneBecomes seat.now.txn (IsAfterPrepare global number) (table.txns_in (txns_in self.old)) (table.txns_in (txns_in self.new)) }
        ensures undos { undos_in (txns_in self.new) ≡ undos_in (txns_in self.old) }
        ensures reserved { (room_in (txns_in self.new)).reserved ≡ (room_in (txns_in self.old)).reserved + ENDING_COST }
        ensures claims { (p : PageId) → kept_in (txns_in self.new) p ≡ kept_in (txns_in self.old) p }
        ensures locks { locks_in self.new ≡ locks_in self.old }
        ensures waits { waits_in self.new ≡ waits_in self.old ++ record { session = seat.now.session; txn = seat.now.txn; call = Call.Prepare global; wait = Wait.Durable number; cycle = None } ∷ [] }
        ensures stands { (s : State) (a : SessionTxn) (granules : List Granule) → HasControl self.old s → IsOfSession s seat.now.session a → a.txn ≡ seat.now.txn
            → number ≡ 1 + length s.log → cost ≡ cost_of (payload.Prepare global granules) → HasControl self.new (prepared s a global granules) }
        ensures stream { (room_in (txns_in self.new)).stream_bytes ≡ (room_in (txns_in self.old)).stream_bytes }
    {
        let txn = self.txns.txn(seat).id();
        self.txns.note_prepare(seat, global, number, cost);
        let call = WaitingCall {
            session: seat.session,
            txn,
            call: Call::Prepare(asked),
            wait: Wait::Durable(number),
            cycle: None,
        };
        self.waits.push(call, false);
    }

    /// The prepare of a session is answered: its transaction can be resolved.
    pub fn end_prepare(&mut self, session: SessionId)
        ensures undos { undos_in (txns_in self.new) ≡ undos_in (txns_in self.old) }
        ensures lasts { map last_of (table.txns_in (txns_in self.new)) ≡ map last_of (table.txns_in (txns_in self.old)) }
        ensures room { room_in (txns_in self.new) ≡ room_in (txns_in self.old) }
        ensures claims { (p : PageId) → kept_in (txns_in self.new) p ≡ kept_in (txns_in self.old) p }
        ensures left { waits_in self.new ≡ filter (λ (w : WaitingCall). not (w.session == session)) (waits_in self.old) }
        ensures free { HasNoWait session self.new }
        ensures locks { locks_in self.new ≡ locks_in self.old }
        ensures stands { (s : State) (t : ℕ) (global : List ℕ) → HasOwnSeats s.sessions → HasControl self.old s → s.failed ≡ false → IsPreparing s.sessions session t global
            → HasControl self.new (prepare_ended s session t global) }
    {
        let _ = self.waits.take(session);
        let Some(seat) = self.txns.seat(session) else {
            return;
        };
        if !matches!(self.txns.txn(&seat).state(), TxnState::Preparing) {
            return;
        }
        self.txns.note_answer(&seat);
    }

    /// Those in doubt, rising by their names.
    pub fn in_doubt(&self, alloc: Global) -> Result<Sequence<(GlobalId, TxnId)>, AllocError>
        ensures all { IfOk result (λ found. IsPermutation (map (λ (p : PreparedTxn). (p.global, p.txn)) (reverse (prepared_in (txns_in self.now)))) found) }
        ensures order { IfOk result (λ found. IsSortedByKey (λ (p : List ℕ × ℕ). p.0) (slice_cmp nat_cmp) found) }
        ensures listed { IfOk result (λ found. (s : State) → HasControl self.now s → NamesDiffer s.sessions → found ≡ listed_in_doubt s.sessions) }
    {
        let mut found = self.txns.in_doubt(alloc)?;
        put_in_order(&mut found);
        Ok(Sequence::from_vec(found))
    }
}

// Puts names in order, by their bytes.
fn put_in_order(found: &mut Vec<(GlobalId, TxnId)>)
    ensures same { IsPermutation found.old.items found.new.items }
    ensures order { IsSortedByKey (λ (p : List ℕ × ℕ). p.0) (slice_cmp nat_cmp) found.new.items }
{
    found.sort_unstable_by(|one, other| one.0.as_slice().cmp(other.0.as_slice()));
}
