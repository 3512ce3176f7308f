//! Prepares, and who is in doubt.
ghost use Rattle.std.specs.Prelude.{◌≡◌, IfErr, OnOk, false};
ghost use Rattle.shore_types.specs.declared.faults.Fault.TheVariants as Fault;
ghost use Rattle.shore_model.specs.declared.calls.Call.TheVariants as Call;
ghost use Rattle.laws_calls.specs.Prepares.{IsGlobalId};
ghost use Rattle.laws_calls.specs.States.{DoesNotWait};
ghost use Rattle.shore_sessions.specs.Controls.{HasNoWait};
ghost use Rattle.shore_txn.specs.Transactions.{IsSeatIn, room_in};

use crate::core_calls::Core;
use shore_disk::Disk;
use shore_log::Tail;
use shore_logrec::{LogRecord, Payload, granules_fit, prepare_cost};
use shore_model::{Answer, Step, Wait};
use shore_txn::Seat;
use shore_types::layout::ENDING_COST;
use shore_types::{Fault, Geometry, GlobalId, SessionId};
use std::alloc::Global;

impl<T: Tail, V: Disk> Core<T, V> {
    ghost use Rattle.shore_core.specs.Callers.{IsOfCaller};
    ghost use Rattle.shore_core.specs.Cores.{control_of, has_failed, heap_of, txns_of};
    ghost use Rattle.shore_core.specs.Replies.{InEach, Reads, Replied, ServesCall};

    // Logs a Prepare with what the transaction holds in EX, and asks for room for it and for a RollbackDecided. Its locks and claims stay. All memory is
    // taken before the record is logged, and behind that nothing can fail.
    pub(crate) fn prepare(
        &mut self,
        alloc: Global,
        seat: &Seat,
        global: GlobalId,
    ) -> Result<Step, Fault>
        requires free { HasNoWait seat.now.session (control_of self.old) }
        requires seated { IsSeatIn seat.now (txns_of self.old) }
        requires own { IsOfCaller seat.now (txns_of self.old) }
        ensures replied { has_failed self.old ≡ false → InEach (λ front disk before s store. DoesNotWait s seat.now.session → Replied seat.now.session (Call.Prepare global) result self.old self.new front before s store) self.old }
        ensures serves { ServesCall (Reads (Call.Prepare global)) self.old result self.old self.new }
        ensures heap { heap_of self.new ≡ heap_of self.old }
        ensures ring { (room_in (txns_of self.new)).stream_bytes ≡ (room_in (txns_of self.old)).stream_bytes }
    {
        let own = self.active(seat)?;
        let (txn, previous) = (own.id(), own.last());
        check_global(self.heap.geometry(), &global)?;
        if self.control.uses(seat.session, &global) {
            return Err(Fault::GlobalIdInUse);
        }
        let granules = self.control.exclusive(alloc, txn)?;
        // This does nothing: it brings the fact that a record can name each of them.
        granules_fit(granules.as_slice());
        let cost = prepare_cost(global.as_slice().len(), granules.as_slice().len());
        if !self.admits(cost + ENDING_COST) {
            return Err(Fault::LogFull);
        }
        let kept = global.try_clone(alloc)?;
        let asked = global.try_clone(alloc)?;
        self.control.reserve_wait()?;
        let payload = Payload::Prepare { global, granules };
        let number = match self.tail.push(&LogRecord {
            txn,
            previous,
            payload,
        }) {
            Ok(number) => number,
            Err(fault) => return Err(fault),
        };
        self.control.prepare(seat, kept, asked, number, cost);
        Ok(Step::Waits(Wait::Durable(number)))
    }

    // Those in doubt, told to any session that does not wait. It changes nothing, also if memory is short.
    pub(crate) fn list_in_doubt(&self, alloc: Global, session: SessionId) -> Result<Step, Fault>
        ensures replied { has_failed self.now ≡ false → InEach (λ front disk before s store. DoesNotWait s session → Replied session Call.InDoubt result self.now self.now front before s store) self.now }
        ensures serves { ServesCall (Reads Call.InDoubt) self.now result self.now self.now }
    {
        let found = self.control.in_doubt(alloc)?;
        Ok(Step::Done(Answer::AreInDoubt(found)))
    }
}

// A global id has a byte, and no more than fit.
fn check_global(geometry: &Geometry, global: &GlobalId) -> Result<(), Fault>
    ensures is { OnOk result (IsGlobalId geometry.now.version global.now) }
    ensures bad { IfErr result (λ f. (f ≡ Fault.BadGlobalId) × ¬ IsGlobalId geometry.now.version global.now) }
{
    let len = global.as_slice().len();
    if len == 0 || len > geometry.version.global_limit() {
        return Err(Fault::BadGlobalId);
    }
    Ok(())
}
