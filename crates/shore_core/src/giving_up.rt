//! Waits for locks that are taken back.
ghost use Rattle.std.specs.Prelude.{◌≡◌};
ghost use Rattle.shore_txn.specs.Transactions.{room_in};

use crate::core_calls::Core;
use shore_disk::Disk;
use shore_log::Tail;
use shore_model::Step;
use shore_types::{Fault, SessionId};

impl<T: Tail, V: Disk> Core<T, V> {
    ghost use Rattle.shore_core.specs.Cores.{has_failed, heap_of, txns_of};
    ghost use Rattle.shore_core.specs.Replies.{GaveUp, InEach, Serves, fault_at};

    /// Takes back the wait of a session's call that waits in the lock table: the call is refused by `WouldBlock`, as a try would be, and its transaction goes on. There is nothing to do
    /// if no call of the session waits there. One that was let through goes on by its resume, which also tells a victim its cycle, and each call of a failure; and a prepare and a
    /// resolve wait for their records.
    pub fn give_up(&mut self, session: SessionId) -> Step
        ensures step { InEach (λ front disk before s store. GaveUp session result self.old self.new front before s store) self.old }
        ensures serves { Serves (λ page. ⊥) self.old (fault_at result) self.old self.new }
        ensures heap { heap_of self.new ≡ heap_of self.old }
        ensures failed { has_failed self.new ≡ has_failed self.old }
        ensures ring { (room_in (txns_of self.new)).stream_bytes ≡ (room_in (txns_of self.old)).stream_bytes }
        ensures nothing { result ≡ Step.Nothing → self.new ≡ self.old }
    {
        if self.failed {
            return Step::Nothing;
        }
        match self.control.give_up(session) {
            Some(holder) => Step::Refused(Fault::WouldBlock { holder }),
            None => Step::Nothing,
        }
    }
}
