//! Calls of a transaction under way: their locks, and what is done behind them.
ghost use Rattle.std.specs.Prelude.{◌≡◌, IsSome, None, Ok, Some, false};
ghost use Rattle.shore_locks.specs.Tables.{is_waiting};
ghost use Rattle.shore_path.specs.Acquires.{IsReached};
ghost use Rattle.laws_locks.specs.CallLocks as held;
ghost use Rattle.laws_calls.specs.CallSteps.{MayAsk};
ghost use Rattle.laws_calls.specs.States.{DoesNotWait};
ghost use Rattle.shore_sessions.specs.Controls.{HasNoWait};
ghost use Rattle.shore_txn.specs.Transactions.{IsSeatIn, room_in};

use crate::checks::{asked_by, check, on_conflict};
use crate::core_calls::Core;
use shore_disk::Disk;
use shore_log::Tail;
use shore_model::{Answer, Call, Step, Wait};
use shore_path::Acquired;
use shore_txn::Seat;
use shore_types::{Fault, TxnId};
use std::alloc::Global;

impl<T: Tail, V: Disk> Core<T, V> {
    ghost use Rattle.shore_core.specs.Callers.{IsOfCaller};
    ghost use Rattle.shore_core.specs.Cores.{control_of, geometry_of, has_failed, locks_of, txns_of};
    ghost use Rattle.shore_core.specs.Replies.{AskedFor, Called, ForTxn, InEach, Reads, Served, ServesCall};

    pub(crate) fn with_txn(&mut self, alloc: Global, seat: &Seat, call: Call) -> Result<Step, Fault>
        requires free { HasNoWait seat.now.session (control_of self.old) }
        requires seated { IsSeatIn seat.now (txns_of self.old) }
        requires own { IsOfCaller seat.now (txns_of self.old) }
        ensures replied { IsSome (held.lock_asked_by call) → has_failed self.old ≡ false → InEach (λ front disk before s store. DoesNotWait s seat.now.session → Called seat.now.session call result self.old self.new front before s store) self.old }
        ensures serves { ServesCall (Reads call) self.old result self.old self.new }
        ensures ring { (room_in (txns_of self.new)).stream_bytes ≡ (room_in (txns_of self.old)).stream_bytes }
    {
        let own = self.active(seat)?;
        let txn = own.id();
        // Who waits in the table has a call that waits, so this is never so.
        if self.control.is_waiting(txn) {
            return Err(Fault::Busy);
        }
        self.take_locks(alloc, seat, txn, call)
    }

    // A call from what refuses it before its locks on.
    pub(crate) fn take_locks(
        &mut self,
        alloc: Global,
        seat: &Seat,
        txn: TxnId,
        call: Call,
    ) -> Result<Step, Fault>
        requires seated { IsSeatIn seat.now (txns_of self.old) }
        requires own { IsOfCaller seat.now (txns_of self.old) }
        requires free { HasNoWait seat.now.session (control_of self.old) }
        requires quiet { is_waiting txn (locks_of self.old).requests ≡ false }
        ensures asked { IsSome (held.lock_asked_by call) → has_failed self.old ≡ false → InEach (λ front disk before s store.
            ForTxn seat.now.session txn s (λ a. a.undo.rolling ≡ None → AskedFor a call result self.old self.new front before s store)) self.old }
        ensures serves { ServesCall (Reads call) self.old result self.old self.new }
        ensures ring { (room_in (txns_of self.new)).stream_bytes ≡ (room_in (txns_of self.old)).stream_bytes }
    {
        check(self.heap.geometry(), &call)?;
        let Some(asked) = asked_by(&call) else {
            return Ok(Step::Nothing);
        };
        self.control.reserve_wait()?;
        let on_conflict = on_conflict(&call);
        let acquired = self
            .control
            .lock(alloc, seat, txn, asked.granule, asked.mode, on_conflict)?;
        match &acquired {
            Acquired::Done => self.behind_locks(alloc, seat, txn, call),
            Acquired::Waiting(granule) => {
                self.control.wait(seat.session, txn, call, *granule);
                Ok(Step::Waits(Wait::Lock(*granule)))
            }
        }
    }

    // A call that has its locks.
    fn behind_locks(
        &mut self,
        alloc: Global,
        seat: &Seat,
        txn: TxnId,
        call: Call,
    ) -> Result<Step, Fault>
        requires may { MayAsk (geometry_of self.old) call }
        requires reached { (lock : held.Asked) → held.lock_asked_by call ≡ Some lock → IsReached (locks_of self.old).requests txn lock.granule lock.mode }
        requires seated { IsSeatIn seat.now (txns_of self.old) }
        requires own { IsOfCaller seat.now (txns_of self.old) }
        requires quiet { is_waiting txn (locks_of self.old).requests ≡ false }
        ensures served { has_failed self.old ≡ false → InEach (λ front disk before s store. ForTxn seat.now.session txn s (λ a. Served a call result self.old self.new front before s store)) self.old }
        ensures serves { ServesCall (Reads call) self.old result self.old self.new }
        ensures ring { (room_in (txns_of self.new)).stream_bytes ≡ (room_in (txns_of self.old)).stream_bytes }
    {
        match call {
            Call::Get(id) | Call::GetForUpdate(id) => self.get(alloc, id),
            Call::Insert(store, bytes) => self.insert(alloc, seat, txn, store, bytes),
            Call::Update(id, bytes) => self.update(alloc, seat, id, bytes),
            Call::Delete(id) => self.delete(alloc, seat, id),
            Call::Scan(store) => self.scan(alloc, store),
            Call::Lock(..) | Call::TryLock(..) => Ok(Step::Done(Answer::Locked)),
            // These ask for no lock, so they never come here.
            Call::Begin
            | Call::Savepoint
            | Call::BackTo(_)
            | Call::Commit
            | Call::Abort
            | Call::Prepare(_)
            | Call::Resolve(..)
            | Call::InDoubt => unreachable!(),
        }
    }
}
