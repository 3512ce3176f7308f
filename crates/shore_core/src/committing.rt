//! Commits.
ghost use Rattle.std.specs.Prelude.{◌≡◌, Ok, false};
ghost use Rattle.shore_model.specs.declared.calls.Call.TheVariants as Call;
ghost use Rattle.laws_calls.specs.States.{DoesNotWait};
ghost use Rattle.shore_sessions.specs.Controls.{HasNoWait};
ghost use Rattle.shore_txn.specs.Transactions.{IsSeatIn, room_in};

use crate::core_calls::Core;
use shore_disk::Disk;
use shore_log::Tail;
use shore_logrec::{LogRecord, Payload};
use shore_model::{Answer, Step};
use shore_txn::Seat;
use shore_types::{Fault, Ticket};

impl<T: Tail, V: Disk> Core<T, V> {
    ghost use Rattle.shore_core.specs.Callers.{IsOfCaller};
    ghost use Rattle.shore_core.specs.Cores.{control_of, faults_of, has_failed, txns_of};
    ghost use Rattle.shore_core.specs.Replies.{InEach, Reads, Replied, ServesCall};

    // The record of the commit was reserved for at the begin, so it is never refused for room. The transaction's claims and its locks go with it, and its
    // ticket is the record's number. Behind the record nothing can fail.
    pub(crate) fn commit(&mut self, seat: &Seat) -> Result<Step, Fault>
        requires free { HasNoWait seat.now.session (control_of self.old) }
        requires seated { IsSeatIn seat.now (txns_of self.old) }
        requires own { IsOfCaller seat.now (txns_of self.old) }
        ensures replied { has_failed self.old ≡ false → InEach (λ front disk before s store. DoesNotWait s seat.now.session → Replied seat.now.session Call.Commit result self.old self.new front before s store) self.old }
        ensures serves { ServesCall (Reads Call.Commit) self.old result self.old self.new }
        ensures faults { faults_of self.new ≡ faults_of self.old }
        ensures ring { (room_in (txns_of self.new)).stream_bytes ≡ (room_in (txns_of self.old)).stream_bytes }
    {
        let txn = self.active(seat)?;
        let record = LogRecord {
            txn: txn.id(),
            previous: txn.last(),
            payload: Payload::Commit,
        };
        let number = match self.tail.push(&record) {
            Ok(number) => number,
            Err(fault) => return Err(fault),
        };
        let changes = self.control.commit(seat);
        for change in &changes {
            self.heap.release(change.id);
        }
        Ok(Step::Done(Answer::Committed(Ticket::of(number))))
    }
}
