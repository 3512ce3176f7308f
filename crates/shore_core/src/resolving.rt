//! Resolves: the decisions on transactions that are prepared.
ghost use Rattle.laws_checkpoints.specs.CheckpointedStores.{CheckpointedStore};
ghost use Rattle.std.specs.Prelude.{◌≡◌, ◌≤◌, ℕ, List, IfErr, Ok, OnOk, false};
ghost use Rattle.shore_types.specs.declared.faults.Fault.TheVariants as Fault;
ghost use Rattle.shore_model.specs.Histories as histories;
ghost use Rattle.shore_model.specs.declared.calls.Call.TheVariants as Call;
ghost use Rattle.shore_model.specs.declared.calls.Outcome.TheVariants as Outcome;
ghost use Rattle.shore_model.specs.declared.log_records.LogRecord.{LogRecord};
ghost use Rattle.laws_calls.specs.Resolves.{MayResolve};
ghost use Rattle.laws_calls.specs.States.{DoesNotWait, State};
ghost use Rattle.shore_sessions.specs.Controls.{HasNoWait, HasWaitRoom};
ghost use Rattle.shore_txn.specs.Transactions.{IsSeatIn, room_in};

use crate::core_calls::Core;
use crate::resuming::awaits_force;
use shore_disk::Disk;
use shore_log::Tail;
use shore_logrec::{LogRecord, Payload};
use shore_model::{Answer, Outcome, Rollback, Step, Wait};
use shore_txn::Seat;
use shore_types::{Fault, GlobalId, Lsn, SessionId, TxnId};
use std::alloc::Global;

impl<T: Tail, V: Disk> Core<T, V> {
    ghost use Rattle.shore_core.specs.Callers.{IsNotInDoubt, IsToResolve};
    ghost use Rattle.shore_core.specs.Cores.{IsOver, control_of, has_failed, heap_of, last_of, txns_of, waits_of};
    ghost use Rattle.shore_core.specs.Replies.{InEach, MakesNoCall, Reads, Replied, ServesCall, fault_at, forced_at};
    ghost use Rattle.shore_core.specs.Resolving.{AnswersRollback, DecidesAt, IsInBut};

    // The session may be in no transaction but the one that it resolves. What has its record is decided, and is answered once that is durable; its locks go
    // with the Commit, or with the End of its rollback.
    pub(crate) fn resolve(
        &mut self,
        alloc: Global,
        session: SessionId,
        global: GlobalId,
        outcome: Outcome,
    ) -> Result<Step, Fault>
        requires { HasNoWait session (control_of self.old) }
        ensures replied { has_failed self.old ≡ false → InEach (λ front disk before s store. DoesNotWait s session → Replied session (Call.Resolve global outcome) result self.old self.new front before s store) self.old }
        ensures serves { ServesCall (Reads (Call.Resolve global outcome)) (forced_at (Call.Resolve global outcome) self.old self.new) result self.old self.new }
        ensures ring { (room_in (txns_of self.new)).stream_bytes ≡ (room_in (txns_of self.old)).stream_bytes }
    {
        if !self.control.may_resolve(session, &global) {
            return Err(Fault::AlreadyActive);
        }
        let Some(seat) = self.control.prepared(session, &global) else {
            return Err(Fault::NoGlobalId);
        };
        match outcome {
            Outcome::Commit => self.resolve_to_commit(&seat, global),
            Outcome::Abort => self.resolve_to_abort(alloc, &seat, global),
        }
    }

    // The record of the commit was reserved for at the begin, so it is never refused for room. The transaction's claims and locks go with it. One that a
    // resolve has decided to roll back is not committed any more.
    fn resolve_to_commit(&mut self, seat: &Seat, global: GlobalId) -> Result<Step, Fault>
        requires free { HasNoWait seat.now.session (control_of self.old) }
        requires seated { IsSeatIn seat.now (txns_of self.old) }
        ensures replied { has_failed self.old ≡ false → InEach (λ front disk before s store. DoesNotWait s seat.now.session → MayResolve s seat.now.session global → IsToResolve seat.now (txns_of self.old) s global
            → Replied seat.now.session (Call.Resolve global Outcome.Commit) result self.old self.new front before s store) self.old }
        ensures serves { ServesCall (Reads (Call.Resolve global Outcome.Commit)) self.old result self.old self.new }
        ensures ring { (room_in (txns_of self.new)).stream_bytes ≡ (room_in (txns_of self.old)).stream_bytes }
    {
        let own = self.control.txn(seat);
        if !own.is_in_doubt() {
            return Err(Fault::MustAbort);
        }
        let record = LogRecord {
            txn: own.id(),
            previous: own.last(),
            payload: Payload::Commit,
        };
        self.control.reserve_wait()?;
        let number = match self.tail.push(&record) {
            Ok(number) => number,
            Err(fault) => return Err(fault),
        };
        let changes = self.control.resolve(seat, global, number);
        for change in &changes {
            self.heap.release(change.id);
        }
        Ok(Step::Waits(Wait::Durable(number)))
    }

    // Logs the decision, unless an interrupted resolve has done so, then rolls back and logs the End, with which the locks go. What was done before a
    // refusal stays so, and the same call goes on with the rest. The memory for a wait is taken before the decision, since behind the End nothing may fail.
    fn resolve_to_abort(
        &mut self,
        alloc: Global,
        seat: &Seat,
        global: GlobalId,
    ) -> Result<Step, Fault>
        requires free { HasNoWait seat.now.session (control_of self.old) }
        requires seated { IsSeatIn seat.now (txns_of self.old) }
        ensures replied { has_failed self.old ≡ false → InEach (λ front disk before s store. DoesNotWait s seat.now.session → MayResolve s seat.now.session global → IsToResolve seat.now (txns_of self.old) s global
            → Replied seat.now.session (Call.Resolve global Outcome.Abort) result self.old self.new front before s store) self.old }
        ensures serves { ServesCall (Reads (Call.Resolve global Outcome.Abort)) self.new result self.old self.new }
        ensures ring { (room_in (txns_of self.new)).stream_bytes ≡ (room_in (txns_of self.old)).stream_bytes }
    {
        self.control.reserve_wait()?;
        self.decide_rollback(seat)?;
        let own = self.control.txn(seat);
        let (txn, decided) = (own.id(), own.decided());
        self.put_back(alloc, seat, Rollback::Whole, 0)?;
        self.end(seat)?;
        Ok(self.answer_rollback(seat.session, txn, global, decided))
    }

    // Logs the RollbackDecided of a transaction, if it has none. Its room was reserved at the Prepare, so it is never refused for room.
    fn decide_rollback(&mut self, seat: &Seat) -> Result<(), Fault>
        requires { IsSeatIn seat.now (txns_of self.old) }
        ensures decides { has_failed self.old ≡ false → InEach (λ front disk before s store. (global : List ℕ) → IsToResolve seat.now (txns_of self.old) s global
            → DecidesAt seat.now global self.new result front before s store) self.old }
        ensures seated { IsSeatIn seat.now (txns_of self.new) }
        ensures unprepared { OnOk result (IsNotInDoubt seat.now (txns_of self.new)) }
        ensures longer { last_of self.old ≤ last_of self.new }
        ensures waits { waits_of self.new ≡ waits_of self.old }
        ensures memory { HasWaitRoom (control_of self.old) → HasWaitRoom (control_of self.new) }
        ensures no_call { MakesNoCall self.old self.new }
        ensures heap { heap_of self.new ≡ heap_of self.old }
        ensures refused { IfErr result (λ f. f ≡ Fault.Memory) }
        ensures ring { (room_in (txns_of self.new)).stream_bytes ≡ (room_in (txns_of self.old)).stream_bytes }
    {
        let own = self.control.txn(seat);
        if !own.is_in_doubt() {
            return Ok(());
        }
        let record = LogRecord {
            txn: own.id(),
            previous: own.last(),
            payload: Payload::RollbackDecided,
        };
        let number = match self.tail.push(&record) {
            Ok(number) => number,
            Err(fault) => return Err(fault),
        };
        self.control.note_rollback(seat, number);
        Ok(())
    }

    // The rollback has ended: it is answered once its decision is durable, which it may be already. It takes no memory.
    fn answer_rollback(
        &mut self,
        session: SessionId,
        txn: TxnId,
        global: GlobalId,
        decided: Lsn,
    ) -> Step
        requires memory { HasWaitRoom (control_of self.old) }
        requires free { HasNoWait session (control_of self.old) }
        ensures answers { (front : List ℕ) (disk : ℕ → List ℕ) (before : List LogRecord) (s : State) (store : CheckpointedStore)
            → IsInBut (record { txn = txn; global = global; outcome = Outcome.Abort }) front disk before self.old s → IsOver disk self.old s store → s.sessions.seats session ≡ histories.free
            → AnswersRollback self.new session (record { txn = txn; global = global; outcome = Outcome.Abort }) decided result front before s store }
        ensures plain { fault_at result ≡ Ok tt }
        ensures no_call { MakesNoCall self.old self.new }
        ensures heap { heap_of self.new ≡ heap_of self.old }
        ensures ring { (room_in (txns_of self.new)).stream_bytes ≡ (room_in (txns_of self.old)).stream_bytes }
    {
        if !awaits_force(decided, self.durable) {
            return Step::Done(Answer::Resolved);
        }
        self.control
            .await_resolve(session, txn, global, Outcome::Abort, decided);
        Step::Waits(Wait::Durable(decided))
    }
}
