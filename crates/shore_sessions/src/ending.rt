//! Transactions that commit.
ghost use Rattle.std.specs.Prelude.{◌≡◌};
ghost use Rattle.shore_types.specs.declared.ids.PageId.{PageId};
ghost use Rattle.shore_locks.specs.Grants.{released};
ghost use Rattle.laws_lives.specs.Sessions.{SessionTxn};
ghost use Rattle.laws_calls.specs.StateChanges.{committed};
ghost use Rattle.laws_calls.specs.States.{IsOfSession, State};
ghost use Rattle.shore_txn.specs.ActiveTxns.{HasMore, OneLeaves};
ghost use Rattle.shore_txn.specs.Transactions.{IsSeatIn, kept_in, room_in};
ghost use Rattle.shore_txn.specs.Transactions as table;
ghost use Rattle.shore_txn.specs.UndoEntries.{claims_on, images_of};

use crate::control::Control;
use shore_locks::LetThrough;
use shore_txn::{Seat, UndoEntry};

impl Control {
    ghost use Rattle.shore_sessions.specs.Controls.{HasNoWait, HasWaitRoom, locks_in, txns_in, waits_in};
    ghost use Rattle.shore_sessions.specs.Standing.{HasControl, IsAt};

    /// The Commit of a session's transaction was logged: it is in the table no more, and its locks go. Answers its changes, the oldest first, whose claims
    /// go too. It takes no memory.
    pub fn commit(&mut self, seat: &Seat) -> Vec<UndoEntry>
        requires seated { IsSeatIn seat.now (txns_in self.old) }
        requires free { HasNoWait seat.now.session self.old }
        ensures left { OneLeaves seat.now.txn result.items (table.txns_in (txns_in self.old)) (table.txns_in (txns_in self.new)) }
        ensures claims { (p : PageId) → HasMore (claims_on p result.items) (kept_in (txns_in self.new) p) (kept_in (txns_in self.old) p) }
        ensures waits { waits_in self.new ≡ waits_in self.old }
        ensures memory { HasWaitRoom self.old → HasWaitRoom self.new }
        ensures locks { locks_in self.new ≡ record { limit = (locks_in self.old).limit; requests = released seat.now.txn (locks_in self.old).requests } }
        ensures undone { (s : State) (a : SessionTxn) → HasControl self.old s → IsAt seat.now s a → images_of result.items ≡ a.undo.images }
        ensures stands { (s : State) (a : SessionTxn) → HasControl self.old s → IsOfSession s seat.now.session a → a.txn ≡ seat.now.txn → HasControl self.new (committed s a) }
        ensures stream { (room_in (txns_in self.new)).stream_bytes ≡ (room_in (txns_in self.old)).stream_bytes }
    {
        let (txn, changes) = self.txns.note_commit(seat);
        let mut let_through = LetThrough::nobody();
        self.locks.release_all(txn, &mut let_through);
        self.waits.note_let_through(&let_through, &self.locks);
        changes
    }
}
