//! Locks that are waited for, and the victims of the cycles that a wait closes.
ghost use Rattle.std.specs.Prelude.{◌≡◌, ◌≢◌, ◌==◌, ℕ, IfErr, List, None, Ok, Some, false, if◌then◌else◌, map};
ghost use Rattle.shore_types.specs.declared.ids.PageId.{PageId};
ghost use Rattle.shore_types.specs.declared.locking.Granule.{Granule};
ghost use Rattle.shore_model.specs.declared.calls.Call.{Call};
ghost use Rattle.shore_model.specs.declared.histories.Entry.{Entry};
ghost use Rattle.shore_model.specs.declared.histories.Opening.{Opening};
ghost use Rattle.shore_model.specs.declared.log_records.LogRecord.{LogRecord};
ghost use Rattle.shore_locks.specs.Tables.{is_waiting};
ghost use Rattle.shore_path.specs.Acquires.{IsReached};
ghost use Rattle.shore_path.specs.declared.answers.Acquired.TheVariants as Acquired;
ghost use Rattle.shore_path.specs.declared.answers.OnConflict.TheVariants as conflict;
ghost use Rattle.laws_lives.specs.Sessions.{SessionTxn};
ghost use Rattle.laws_calls.specs.CallSteps.{on_conflict_of};
ghost use Rattle.laws_calls.specs.Events.{IsStateAfter};
ghost use Rattle.laws_calls.specs.LockRounds.{LocksTo};
ghost use Rattle.laws_calls.specs.States.{HasSeat, IsOfSession, State};
ghost use Rattle.shore_txn.specs.Transactions.{AtSeat, IsSeatIn, kept_in, next_in, room_in, undos_in};
ghost use Rattle.shore_txn.specs.Transactions as table;
ghost use Rattle.shore_txn.specs.Txns.{IsOf, last_of};
ghost use Rattle.shore_sessions.specs.Calls.{names_of};
ghost use Rattle.shore_sessions.specs.Seated.{rolled_in};
ghost use Rattle.shore_sessions.specs.Noting as noting;

use crate::control::Control;
use shore_deadlock::{Locked, Reply, Victim};
use shore_locks::LetThrough;
use shore_locks::laws::tables_are_orderly;
use shore_path::{Acquired, OnConflict};
use shore_txn::Seat;
use shore_types::{Fault, Granule, Mode, Sequence, SessionId, TxnId};
use std::alloc::Global;

impl Control {
    ghost use Rattle.shore_sessions.specs.Controls.{HasWaitRoom, HasNoWait, locks_in, txns_in, waits_in};
    ghost use Rattle.shore_sessions.specs.Noting.{AreNoted, IsNotable, IsOfNoDevice, KeepsOwners, RefusesToLock, HasSessionsOf, told_cycle, victim_noted};
    ghost use Rattle.shore_sessions.specs.Standing.{HasControl, HasTxns};

    /// Takes a granule in a mode for a session's transaction that does not wait, after the intentions above it. If it may wait and has to, each cycle of waits
    /// that this closes is broken first: of the cycle the transaction with the greatest number waits no more, and can only be rolled back. Others learn of
    /// it as their calls are resumed; `Deadlock`, with its cycle, if it is one itself. If it waits, the caller notes its call. What it has taken stays,
    /// whatever the answer; the memory that this takes is that of the search.
    pub fn lock(
        &mut self,
        alloc: Global,
        seat: &Seat,
        txn: TxnId,
        granule: Granule,
        mode: Mode,
        on_conflict: OnConflict,
    ) -> Result<Acquired, Fault>
        requires quiet { is_waiting txn (locks_in self.old).requests ≡ false }
        requires free { HasNoWait seat.now.session self.old }
        requires seated { IsSeatIn seat.now (txns_in self.old) }
        ensures locks { (s : State) (o : Opening) (found : List LogRecord) (es : List Entry) (a : SessionTxn) (c : Call) → HasControl self.old s → IsStateAfter o found es s
            → s.failed ≡ false → IsOfSession s seat.now.session a → a.txn ≡ txn → on_conflict_of c ≡ on_conflict
            → (new : State) × LocksTo s a c (record { granule = granule; mode = mode }) result new × HasControl self.new new }
        ensures reached { result ≡ Ok Acquired.Done → IsReached (locks_in self.new).requests txn granule mode }
        ensures quiet { ((at : Granule) → result ≢ Ok (Acquired.Waiting at)) → is_waiting txn (locks_in self.new).requests ≡ false }
        ensures plain { IfErr result IsOfNoDevice }
        ensures seated { IsSeatIn seat.now (txns_in self.new) }
        ensures own { AtSeat seat.now (txns_in self.old) (IsOf seat.now.session) → AtSeat seat.now (txns_in self.new) (IsOf seat.now.session) }
        ensures names { names_of (undos_in (txns_in self.new)) ≡ names_of (undos_in (txns_in self.old)) }
        ensures lasts { map last_of (table.txns_in (txns_in self.new)) ≡ map last_of (table.txns_in (txns_in self.old)) }
        ensures next { next_in (txns_in self.new) ≡ next_in (txns_in self.old) }
        ensures room { room_in (txns_in self.new) ≡ room_in (txns_in self.old) }
        ensures claims { (p : PageId) → kept_in (txns_in self.new) p ≡ kept_in (txns_in self.old) p }
        ensures free { HasNoWait seat.now.session self.new }
        ensures memory { HasWaitRoom self.old → HasWaitRoom self.new }
    {
        match on_conflict {
            OnConflict::Refuse => self.acquire(txn, granule, mode, OnConflict::Refuse),
            OnConflict::Wait => self.lock_or_wait(alloc, seat, txn, granule, mode),
        }
    }

    // .. for a call that may wait.
    fn lock_or_wait(
        &mut self,
        alloc: Global,
        seat: &Seat,
        txn: TxnId,
        granule: Granule,
        mode: Mode,
    ) -> Result<Acquired, Fault>
        requires quiet { is_waiting txn (locks_in self.old).requests ≡ false }
        requires free { HasNoWait seat.now.session self.old }
        requires seated { IsSeatIn seat.now (txns_in self.old) }
        ensures locks { (s : State) (o : Opening) (found : List LogRecord) (es : List Entry) (a : SessionTxn) (c : Call) → HasControl self.old s → IsStateAfter o found es s
            → s.failed ≡ false → IsOfSession s seat.now.session a → a.txn ≡ txn → on_conflict_of c ≡ conflict.Wait
            → (new : State) × LocksTo s a c (record { granule = granule; mode = mode }) result new × HasControl self.new new }
        ensures reached { result ≡ Ok Acquired.Done → IsReached (locks_in self.new).requests txn granule mode }
        ensures quiet { ((at : Granule) → result ≢ Ok (Acquired.Waiting at)) → is_waiting txn (locks_in self.new).requests ≡ false }
        ensures refused { IfErr result RefusesToLock }
        ensures seated { IsSeatIn seat.now (txns_in self.new) }
        ensures own { AtSeat seat.now (txns_in self.old) (IsOf seat.now.session) → AtSeat seat.now (txns_in self.new) (IsOf seat.now.session) }
        ensures names { names_of (undos_in (txns_in self.new)) ≡ names_of (undos_in (txns_in self.old)) }
        ensures lasts { map last_of (table.txns_in (txns_in self.new)) ≡ map last_of (table.txns_in (txns_in self.old)) }
        ensures next { next_in (txns_in self.new) ≡ next_in (txns_in self.old) }
        ensures room { room_in (txns_in self.new) ≡ room_in (txns_in self.old) }
        ensures claims { (p : PageId) → kept_in (txns_in self.new) p ≡ kept_in (txns_in self.old) p }
        ensures free { HasNoWait seat.now.session self.new }
        ensures memory { HasWaitRoom self.old → HasWaitRoom self.new }
    {
        // This does nothing: it brings the fact that the requests are orderly.
        tables_are_orderly(&self.locks);
        let granule = &granule;
        match self.acquire(txn, *granule, mode, OnConflict::Wait)? {
            Acquired::Done => Ok(Acquired::Done),
            Acquired::Waiting(_) => {
                let mut let_through = LetThrough::nobody();
                let Reply { answer, victims } = shore_deadlock::settle(
                    alloc,
                    &mut self.locks,
                    txn,
                    *granule,
                    mode,
                    &mut let_through,
                );
                self.waits.note_let_through(&let_through, &self.locks);
                let told = self.note_victims(seat.session, txn, victims);
                answer_of(answer, told)
            }
        }
    }

    // Notes victims in their turn. The answer is the cycle of the caller, if it is one of them.
    fn note_victims(
        &mut self,
        session: SessionId,
        txn: TxnId,
        victims: Vec<Victim>,
    ) -> Option<Sequence<TxnId>>
        ensures told { result ≡ told_cycle txn None victims.items }
        ensures keeps { KeepsOwners self.old self.new }
        ensures stands { (s new : State) → HasSessionsOf self.old s → HasNoWait session self.old → AreNoted session txn s victims.items new → HasSessionsOf self.new new }
    {
        let mut told = None;
        for victim in victims {
            told = self.note_victim(session, txn, victim, told);
        }
        told
    }

    // A victim can only be rolled back from now on, and its call that waits is to be told its cycle. The caller's call does not wait yet: what it is to be
    // told is the answer.
    fn note_victim(
        &mut self,
        session: SessionId,
        txn: TxnId,
        victim: Victim,
        told: Option<Sequence<TxnId>>,
    ) -> Option<Sequence<TxnId>>
        ensures told { result ≡ (if victim.txn == txn then Some victim.cycle else told) }
        ensures keeps { KeepsOwners self.old self.new }
        ensures stands { (s : State) (b : SessionTxn) → HasSessionsOf self.old s → IsNotable session txn s victim b → HasNoWait session self.old
            → HasSessionsOf self.new (victim_noted s b victim.cycle) }
    {
        if victim.txn == txn {
            self.doom(session);
            return Some(victim.cycle);
        }
        if let Some(waiter) = self.waits.note_cycle(victim.txn, victim.cycle) {
            self.doom(waiter);
        }
        told
    }

    // A session's transaction, if it is in one that is not prepared, can only be rolled back from now on.
    fn doom(&mut self, session: SessionId)
        ensures waits { waits_in self.new ≡ waits_in self.old }
        ensures keeps { KeepsOwners self.old self.new }
        ensures rolled { rolled_in (txns_in self.new) ≡ rolled_in (txns_in self.old) }
        ensures stands { (s : State) (b : SessionTxn) (cycle : List ℕ) → HasTxns (txns_in self.old) s → HasSeat s.sessions b → b.session ≡ session
            → HasTxns (txns_in self.new) (victim_noted s b cycle) }
    {
        let Some(seat) = self.txns.seat(session) else {
            return;
        };
        if self.txns.txn(&seat).is_in_doubt() {
            return;
        }
        self.txns.doom(&seat);
    }
}

// A victim is told its cycle.
fn answer_of(
    answer: Result<Locked, Fault>,
    told: Option<Sequence<TxnId>>,
) -> Result<Acquired, Fault>
    ensures { result ≡ noting.answer_of answer told }
{
    match answer? {
        Locked::Done => Ok(Acquired::Done),
        Locked::Waiting(granule) => Ok(Acquired::Waiting(granule)),
        Locked::Deadlock => match told {
            Some(cycle) => Err(Fault::Deadlock { cycle }),
            None => Err(Fault::MustAbort),
        },
    }
}
