//! Locks that are asked for, and calls that wait.
ghost use Rattle.std.specs.Prelude.{◌≡◌, ◌≢◌, ◌==◌, ◌∷◌, ◌++◌, [], ℕ, IfErr, IfNone, IfSome, IsFalse, IsOk, IsSome, None, Ok, OnOk, false, filter, not};
ghost use Rattle.shore_types.specs.declared.locking.Granule.{Granule};
ghost use Rattle.shore_types.specs.declared.locking.Mode.{Mode};
ghost use Rattle.shore_model.specs.declared.calls.Call.{Call};
ghost use Rattle.laws_lives.specs.Sessions.{SessionTxn};
ghost use Rattle.laws_lives.specs.Views.{IsAmong};
ghost use Rattle.shore_locks.specs.Tables.{is_waiting, waiters_at};
ghost use Rattle.shore_path.specs.Acquires.{IsReached, MayRefuse};
ghost use Rattle.shore_path.specs.Intending.{CoversRecords, IntendsToWrite};
ghost use Rattle.shore_path.specs.declared.intending.WayToWrite.TheVariants as WayToWrite;
ghost use Rattle.shore_path.specs.Walks.{acquired};
ghost use Rattle.shore_path.specs.declared.answers.Acquired.TheVariants as Acquired;
ghost use Rattle.shore_path.specs.declared.answers.OnConflict.TheVariants.{Refuse};
ghost use Rattle.laws_calls.specs.StateChanges.{wait_refused};
ghost use Rattle.laws_calls.specs.CallSteps.{lock_waiting, with_requests};
ghost use Rattle.laws_calls.specs.States.{DoesNotWait, IsOfSession, State};
ghost use Rattle.shore_sessions.specs.Calls.{awaits_record, logs_decision};
ghost use Rattle.shore_sessions.specs.declared.waits.WaitingCall.{WaitingCall};

use crate::control::Control;
use crate::waits::WaitingCall;
use shore_locks::laws::tables_are_orderly;
use shore_model::{Call, Wait};
use shore_path::laws::{acquire_lets_nobody_through, covered_records_are_had};
use shore_path::{Acquired, OnConflict, WayToWrite};
use shore_types::{Fault, Granule, Mode, Rid, SessionId, TxnId};
use std::alloc::AllocError;

impl Control {
    ghost use Rattle.shore_sessions.specs.Controls.{HasWaitRoom, HasNoWait, locks_in, txns_in, waits_in};
    ghost use Rattle.shore_sessions.specs.Standing.{HasControl};

    /// Takes a granule in a mode for a transaction that does not wait, after the intentions above it. What it has taken stays, whatever the answer.
    pub fn acquire(
        &mut self,
        txn: TxnId,
        granule: Granule,
        mode: Mode,
        on_conflict: OnConflict,
    ) -> Result<Acquired, Fault>
        requires { is_waiting txn (locks_in self.old).requests ≡ false }
        ensures answer { result ≡ (acquired on_conflict (locks_in self.old) txn granule mode).answer }
        ensures locks { locks_in self.new ≡ record { limit = (locks_in self.old).limit; requests = (acquired on_conflict (locks_in self.old) txn granule mode).requests } }
        ensures txns { txns_in self.new ≡ txns_in self.old }
        ensures waits { waits_in self.new ≡ waits_in self.old }
        ensures memory { HasWaitRoom self.old → HasWaitRoom self.new }
        ensures reached { result ≡ Ok Acquired.Done → IsReached (locks_in self.new).requests txn granule mode }
        ensures quiet { ((at : Granule) → result ≢ Ok (Acquired.Waiting at)) → is_waiting txn (locks_in self.new).requests ≡ false }
        ensures refused { IfErr result (MayRefuse on_conflict (locks_in self.new) txn granule mode) }
        ensures stands { (s : State) → HasControl self.old s → HasControl self.new (with_requests s (acquired on_conflict s.locks txn granule mode).requests) }
    {
        // For the proof: the requests of any table are orderly, and an acquire lets nobody through. Nothing runs.
        tables_are_orderly(&self.locks);
        acquire_lets_nobody_through();
        let may_be_others = self.may_let_through(&granule, mode);
        let answer = shore_path::acquire(&mut self.locks, txn, granule, mode, on_conflict);
        self.waits.note_others(may_be_others, &self.locks);
        answer
    }

    // Whether an acquire of a granule in a mode may let somebody through. What is granted refuses no less than what was held before, so mostly it lets nobody; but IS refuses UD,
    // and SH does not.
    fn may_let_through(&self, granule: &Granule, mode: Mode) -> bool
        ensures { IsFalse result → mode ≡ Mode.SH → waiters_at granule.now (locks_in self.now).requests ≡ [] }
    {
        matches!(mode, Mode::SH) && self.locks.may_have_waiters(granule)
    }

    /// As `acquire`, for a record in EX, if the transaction may not wait. Only what its way to write leaves is asked for: nothing if the store's records are
    /// covered, and the page and the record if it intends to write them.
    pub fn acquire_record(
        &mut self,
        txn: TxnId,
        id: &Rid,
        way: WayToWrite,
    ) -> Result<Acquired, Fault>
        requires quiet { is_waiting txn (locks_in self.old).requests ≡ false }
        requires covered { way ≡ WayToWrite.Covered → CoversRecords (locks_in self.old).requests txn id.now.page.store }
        requires intended { way ≡ WayToWrite.Intended → IntendsToWrite (locks_in self.old).requests txn id.now.page.store }
        ensures answer { result ≡ (acquired Refuse (locks_in self.old) txn (Granule.Record id.now) Mode.EX).answer }
        ensures locks { locks_in self.new ≡ record { limit = (locks_in self.old).limit; requests = (acquired Refuse (locks_in self.old) txn (Granule.Record id.now) Mode.EX).requests } }
        ensures txns { txns_in self.new ≡ txns_in self.old }
        ensures waits { waits_in self.new ≡ waits_in self.old }
        ensures memory { HasWaitRoom self.old → HasWaitRoom self.new }
        ensures reached { result ≡ Ok Acquired.Done → IsReached (locks_in self.new).requests txn (Granule.Record id.now) Mode.EX }
        ensures quiet { ((at : Granule) → result ≢ Ok (Acquired.Waiting at)) → is_waiting txn (locks_in self.new).requests ≡ false }
        ensures refused { IfErr result (MayRefuse Refuse (locks_in self.new) txn (Granule.Record id.now) Mode.EX) }
        ensures stands { (s : State) → HasControl self.old s → HasControl self.new (with_requests s (acquired Refuse s.locks txn (Granule.Record id.now) Mode.EX).requests) }
    {
        // For the proof: what covers a store's records leaves nothing to ask for, the requests of any table are orderly, and an acquire lets nobody through. Nothing runs.
        covered_records_are_had();
        tables_are_orderly(&self.locks);
        acquire_lets_nobody_through();
        match way {
            WayToWrite::Covered => Ok(Acquired::Done),
            WayToWrite::Intended => shore_path::acquire_in_store(&mut self.locks, txn, id),
            WayToWrite::Unknown => {
                self.acquire(txn, Granule::Record(*id), Mode::EX, OnConflict::Refuse)
            }
        }
    }

    /// Takes the memory for a call more that waits, if there is none. If that fails nothing has changed.
    pub fn reserve_wait(&mut self) -> Result<(), AllocError>
        ensures memory { OnOk result (HasWaitRoom self.new) }
        ensures idle { HasWaitRoom self.old → IsOk result }
        ensures txns { txns_in self.new ≡ txns_in self.old }
        ensures locks { locks_in self.new ≡ locks_in self.old }
        ensures waits { waits_in self.new ≡ waits_in self.old }
        ensures stands { (s : State) → HasControl self.old s → HasControl self.new s }
    {
        self.waits.reserve()
    }

    /// The call of a session's transaction waits for a lock of this granule.
    pub fn wait(&mut self, session: SessionId, txn: TxnId, call: Call, granule: Granule)
        requires memory { HasWaitRoom self.old }
        requires free { HasNoWait session self.old }
        ensures txns { txns_in self.new ≡ txns_in self.old }
        ensures locks { locks_in self.new ≡ locks_in self.old }
        ensures waits { waits_in self.new ≡ waits_in self.old ++ record { session = session; txn = txn; call = call; wait = Wait.Lock granule; cycle = None } ∷ [] }
        ensures stands { (s : State) (a : SessionTxn) → HasControl self.old s → IsOfSession s session a → a.txn ≡ txn → logs_decision call ≡ false
            → HasControl self.new (record s { waiting = lock_waiting a call granule ∷ s.waiting }) }
    {
        let is_let_through = !self.locks.is_waiting(txn);
        let call = WaitingCall {
            session,
            txn,
            call,
            wait: Wait::Lock(granule),
            cycle: None,
        };
        self.waits.push(call, is_let_through);
    }

    /// The call of a session waits no more, and is handed over. One that waits for its record is taken so once a device has failed.
    pub fn take_wait(&mut self, session: SessionId) -> Option<WaitingCall>
        ensures some { IfSome result (λ w. IsAmong w (waits_in self.old) × (w.session ≡ session)) }
        ensures none { IfNone result (HasNoWait session self.old × (waits_in self.new ≡ waits_in self.old)) }
        ensures left { waits_in self.new ≡ filter (λ (w : WaitingCall). not (w.session == session)) (waits_in self.old) }
        ensures free { HasNoWait session self.new }
        ensures memory { IsSome result → HasWaitRoom self.new }
        ensures txns { txns_in self.new ≡ txns_in self.old }
        ensures locks { locks_in self.new ≡ locks_in self.old }
        ensures stands { IfSome result (λ w. (s : State) → HasControl self.old s → (s.failed ≡ false → awaits_record w ≡ false) → HasControl self.new (wait_refused s session)) }
        ensures same { IfNone result ((s : State) → HasControl self.old s → DoesNotWait s session × HasControl self.new s) }
    {
        self.waits.take(session)
    }
}
