//! Going on with calls that wait.
ghost use Rattle.std.specs.Prelude.{◌≡◌, ◌≤◌, ◌<◌, IsFalse, IsTrue, Ok, false};
ghost use Rattle.laws_lives.specs.Views.{IsAmong};
ghost use Rattle.shore_model.specs.declared.step.Wait.TheVariants as Wait;
ghost use Rattle.laws_calls.specs.States.{Waiting};
ghost use Rattle.shore_sessions.specs.declared.waits.WaitingCall.{WaitingCall};
ghost use Rattle.shore_core.specs.Resumes.{IsAwaited};
ghost use Rattle.shore_txn.specs.Transactions.{room_in};

use crate::core_calls::Core;
use shore_disk::Disk;
use shore_log::Tail;
use shore_model::{Answer, Call, Step, Wait};
use shore_sessions::WaitingCall;
use shore_types::{Fault, Granule, Lsn, SessionId, TxnId};
use std::alloc::Global;

/// What it is that waits for its record.
#[derive(Clone, Copy)]
enum Awaited {
    Prepare,
    Resolve,
}

impl<T: Tail, V: Disk> Core<T, V> {
    ghost use Rattle.shore_core.specs.Cores.{has_failed, heap_of, txns_of, waits_of};
    ghost use Rattle.shore_core.specs.Resumes.{NoneWaits};
    ghost use Rattle.shore_core.specs.Replies.{ForTxn, InEach, MakesNoCall, ReadsWaiting, Resumed, Serves, fault_at};

    /// Goes on with the session's call that waits. A prepare and a resolve are answered once the record of the decision is durable; a call that waits
    /// for a lock goes on once its transaction waits no more, and may then be refused as any call, or wait for another granule of its path. Once a device has failed it is
    /// refused by `Failed`, once; and if its transaction has become the victim of a cycle, by `Deadlock`, once. With no call that waits there is nothing to do.
    pub fn resume(&mut self, alloc: Global, session: SessionId) -> Step
        // A decision is answered only if the force of its record was told.
        ensures step { InEach (λ front disk before s store. Resumed session result self.old self.new front before s store) self.old }
        ensures serves { Serves (ReadsWaiting self.old session) self.old (fault_at result) self.old self.new }
        ensures still { IsTrue (has_failed self.old) → heap_of self.new ≡ heap_of self.old }
        ensures stays_failed { IsTrue (has_failed self.old) → IsTrue (has_failed self.new) }
        ensures ring { (room_in (txns_of self.new)).stream_bytes ≡ (room_in (txns_of self.old)).stream_bytes }
        ensures none { NoneWaits self.old session → (result ≡ Step.Nothing) × (self.new ≡ self.old) }
    {
        let Some(waiting) = self.control.waiting(session) else {
            return Step::Nothing;
        };
        let (txn, wait) = (waiting.txn, waiting.wait);
        let awaited = awaited_by(&waiting.call);
        if self.failed {
            self.control.take_wait(session);
            return Step::Refused(Fault::Failed);
        }
        match wait {
            Wait::Durable(number) => self.resume_durable(session, number, awaited),
            Wait::Lock(granule) => self.resume_call(alloc, session, txn, granule),
        }
    }

    // A call that waits for its record. The locks of a prepare stay, and those of a resolve are gone.
    fn resume_durable(&mut self, session: SessionId, number: Lsn, awaited: Awaited) -> Step
        ensures step { has_failed self.old ≡ false → InEach (λ front disk before s store. (w : WaitingCall) → IsAmong w (waits_of self.old) → w.session ≡ session → w.wait ≡ Wait.Durable number
            → IsAwaited w.call awaited → Resumed session result self.old self.new front before s store) self.old }
        ensures plain { fault_at result ≡ Ok tt }
        ensures no_call { MakesNoCall self.old self.new }
        ensures heap { heap_of self.new ≡ heap_of self.old }
        ensures ring { (room_in (txns_of self.new)).stream_bytes ≡ (room_in (txns_of self.old)).stream_bytes }
    {
        if awaits_force(number, self.durable) {
            return Step::Waits(Wait::Durable(number));
        }
        match awaited {
            Awaited::Prepare => {
                self.control.end_prepare(session);
                Step::Done(Answer::Prepared)
            }
            Awaited::Resolve => {
                self.control.end_resolve(session);
                Step::Done(Answer::Resolved)
            }
        }
    }

    // The table is asked first, so that a call that waits on costs one look. While a call waits its transaction is under way. The session of a victim is told
    // its cycle here.
    fn resume_call(
        &mut self,
        alloc: Global,
        session: SessionId,
        txn: TxnId,
        granule: Granule,
    ) -> Step
        ensures step { has_failed self.old ≡ false → InEach (λ front disk before s store. (w : Waiting) → IsAmong w s.waiting → w.session ≡ session → w.wait ≡ Wait.Lock granule
            → ForTxn session txn s (λ a. Resumed session result self.old self.new front before s store)) self.old }
        ensures serves { Serves (ReadsWaiting self.old session) self.old (fault_at result) self.old self.new }
        ensures ring { (room_in (txns_of self.new)).stream_bytes ≡ (room_in (txns_of self.old)).stream_bytes }
    {
        if self.control.is_waiting(txn) {
            return Step::Waits(Wait::Lock(granule));
        }
        let Some(seat) = self.control.seat(session) else {
            return Step::Waits(Wait::Lock(granule));
        };
        let Some(waiting) = self.control.take_wait(session) else {
            return Step::Nothing;
        };
        let WaitingCall { call, cycle, .. } = waiting;
        if let Some(cycle) = cycle {
            return Step::Refused(Fault::Deadlock { cycle });
        }
        match self.take_locks(alloc, &seat, txn, call) {
            Ok(step) => step,
            Err(fault) => self.refuse(fault),
        }
    }
}

// What a call is, if it is one of those that wait for their records.
fn awaited_by(call: &Call) -> Awaited
    ensures { IsAwaited call.now result }
{
    match call {
        Call::Resolve(..) => Awaited::Resolve,
        Call::Prepare(_)
        | Call::Commit
        | Call::Begin
        | Call::Get(_)
        | Call::GetForUpdate(_)
        | Call::Insert(..)
        | Call::Update(..)
        | Call::Delete(_)
        | Call::Scan(_)
        | Call::Lock(..)
        | Call::TryLock(..)
        | Call::Savepoint
        | Call::BackTo(_)
        | Call::Abort
        | Call::InDoubt => Awaited::Prepare,
    }
}

// Whether a record of this number is still to be forced.
pub(crate) fn awaits_force(number: Lsn, durable: Lsn) -> bool
    ensures awaits { IsTrue result → durable < number }
    ensures durable { IsFalse result → number ≤ durable }
{
    number > durable
}
