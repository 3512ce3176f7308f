//! Waits for locks that are taken back.
ghost use Rattle.std.specs.Prelude.{◌≡◌, IfNone, IfSome, false};
ghost use Rattle.shore_types.specs.declared.faults.Fault.TheVariants as Fault;
ghost use Rattle.shore_model.specs.declared.step.Step.TheVariants as Step;
ghost use Rattle.shore_locks.specs.Grants.{cancelled};
ghost use Rattle.laws_calls.specs.CallSteps.{with_requests};
ghost use Rattle.laws_calls.specs.GivingUp.{GivesUp, HasNoRequest};
ghost use Rattle.laws_calls.specs.States.{State};
ghost use Rattle.shore_sessions.specs.Calls.{is_durable};

use crate::control::Control;
use shore_locks::LetThrough;
use shore_model::Wait;
use shore_types::{SessionId, TxnId};

impl Control {
    ghost use Rattle.shore_sessions.specs.Controls.{HasNoWait, txns_in, waits_in};
    ghost use Rattle.shore_sessions.specs.Standing.{HasControl};

    /// Takes back the wait of a session's call whose request waits in the lock table, with that request: those behind it may be granted then. What its transaction held before
    /// stays. The answer is one for whom it would wait if it asked now. It takes no memory. None if no request of the session's call waits: then nothing has changed.
    pub fn give_up(&mut self, session: SessionId) -> Option<TxnId>
        ensures txns { txns_in self.new ≡ txns_in self.old }
        ensures gives { IfSome result (λ holder. (s : State) → HasControl self.old s → s.failed ≡ false →
            (new : State) × GivesUp s session (Step.Refused (Fault.WouldBlock holder)) new × HasControl self.new new) }
        ensures free { IfSome result (λ holder. HasNoWait session self.new) }
        ensures none { IfNone result ((s : State) → HasControl self.old s → HasNoRequest s session) }
        ensures same { IfNone result (self.new ≡ self.old) }
    {
        let waiting = self.waiting(session)?;
        let txn = waiting.txn;
        if is_for_force(&waiting.wait) {
            return None;
        }
        let request = self.locks.waiting_request(txn)?;
        let holder = self.locks.in_its_way(request)?;
        self.take_wait(session);
        self.cancel(txn);
        Some(holder)
    }

    // The request with which a transaction waits is taken back.
    fn cancel(&mut self, txn: TxnId)
        ensures txns { txns_in self.new ≡ txns_in self.old }
        ensures waits { waits_in self.new ≡ waits_in self.old }
        ensures stands { (s : State) → HasControl self.old s → HasControl self.new (with_requests s (cancelled txn s.locks.requests)) }
    {
        let mut let_through = LetThrough::nobody();
        self.locks.cancel(txn, &mut let_through);
        self.waits.note_let_through(&let_through, &self.locks);
    }
}

// Whether a force is waited for, and no lock.
fn is_for_force(wait: &Wait) -> bool
    ensures { result ≡ is_durable wait.now }
{
    matches!(wait, Wait::Durable(_))
}
