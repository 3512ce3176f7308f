//! What a checkpoint takes of the transactions, and what it makes of the room of the log.
ghost use Rattle.std.specs.Prelude.{◌≡◌, ◌+◌, ◌-◌, ◌<◌, ◌≤◌, ◌++◌, ◌∷◌, [], ℕ, All, IfNone, IfOk, IfSome, IsPermutation, IsTrue, length};
ghost use Rattle.shore_types.specs.declared.ids.PageId.{PageId};
ghost use Rattle.shore_model.specs.declared.log_records.LogRecord.{LogRecord};
ghost use Rattle.shore_model.specs.Logs.{IsTable, rise_above};
ghost use Rattle.shore_logrec.specs.Text.{cost_of};
ghost use Rattle.laws_calls.specs.States.{State};
ghost use Rattle.laws_lives.specs.Views.{IsAmong};
ghost use Rattle.shore_txn.specs.LogEntries.{IsOldest, entries_logged};
ghost use Rattle.shore_txn.specs.Transactions as table;
ghost use Rattle.shore_txn.specs.Transactions.{kept_in, next_in, room_in, undos_in};
ghost use Rattle.shore_txn.specs.Txns.{first_of};
ghost use Rattle.shore_txn.specs.declared.txn.Txn.{Txn};
ghost use Rattle.shore_sessions.specs.Checkpoints.{TellsUnended};

use crate::control::Control;
use shore_model::LogTxn;
use shore_txn::{LogRoom, Txn};
use std::alloc::{AllocError, Global};

impl Control {
    ghost use Rattle.shore_sessions.specs.Controls.{HasWaitRoom, locks_in, txns_in, waits_in};
    ghost use Rattle.shore_sessions.specs.Standing.{HasControl};

    /// The room of the log.
    pub fn room(&self) -> LogRoom
        ensures { result ≡ room_in (txns_in self.now) }
    {
        self.txns.room()
    }

    /// The transactions under way that have logged a record, rising by their numbers: the transaction table of a checkpoint that begins now. The number of the
    /// next transaction is above all that the log has.
    pub fn log_table(&self, alloc: Global) -> Result<Vec<LogTxn>, AllocError>
        ensures each { IfOk result (λ listed. IsPermutation (entries_logged (table.txns_in (txns_in self.now))) listed.items) }
        ensures rising { IfOk result (λ listed. IsTrue (rise_above 0 listed.items)) }
        ensures few { IfOk result (λ listed. length listed.items ≤ length (undos_in (txns_in self.now))) }
        ensures table { IfOk result (λ listed. (s : State) → HasControl self.now s → TellsUnended s → IsTable s.log listed.items) }
        ensures above { (s : State) → HasControl self.now s → All (λ r. r.txn < next_in (txns_in self.now)) s.log }
    {
        self.txns.log_table(alloc)
    }

    /// The transaction under way whose first record was logged first, of those that have logged one. None if no transaction has.
    pub fn oldest(&self) -> Option<&Txn>
        ensures some { IfSome result (λ t. IsOldest t.now (table.txns_in (txns_in self.now))) }
        ensures none { IfNone result ((t : Txn) → IsAmong t (table.txns_in (txns_in self.now)) → first_of t ≡ 0) }
    {
        self.txns.oldest()
    }

    /// A record of a checkpoint was logged, which costs so much and for which room was admitted: nothing was reserved for it.
    pub fn note_checkpoint(&mut self, cost: u64)
        requires room { (room_in (txns_in self.old)).kept + (room_in (txns_in self.old)).reserved + cost ≤ (room_in (txns_in self.old)).stream_bytes }
        ensures kept { (room_in (txns_in self.new)).kept ≡ (room_in (txns_in self.old)).kept + cost }
        ensures reserved { (room_in (txns_in self.new)).reserved ≡ (room_in (txns_in self.old)).reserved }
        ensures stream { (room_in (txns_in self.new)).stream_bytes ≡ (room_in (txns_in self.old)).stream_bytes }
        ensures txns { table.txns_in (txns_in self.new) ≡ table.txns_in (txns_in self.old) }
        ensures next { next_in (txns_in self.new) ≡ next_in (txns_in self.old) }
        ensures claims { (p : PageId) → kept_in (txns_in self.new) p ≡ kept_in (txns_in self.old) p }
        ensures locks { locks_in self.new ≡ locks_in self.old }
        ensures waits { waits_in self.new ≡ waits_in self.old }
        ensures memory { HasWaitRoom self.old → HasWaitRoom self.new }
        ensures stands { (s : State) (r : LogRecord) → HasControl self.old s → r.txn ≡ 0 → cost ≡ cost_of r.payload → HasControl self.new (record s { log = s.log ++ r ∷ [] }) }
    {
        let mut room = self.txns.room();
        room.append(cost);
        self.txns.set_room(room);
    }

    /// Records that cost so much are no longer kept: as much more may be logged. What all records may cost grows by it.
    pub fn note_cut(&mut self, freed: u64)
        ensures kept { (room_in (txns_in self.new)).kept ≡ (room_in (txns_in self.old)).kept - freed }
        ensures reserved { (room_in (txns_in self.new)).reserved ≡ (room_in (txns_in self.old)).reserved }
        ensures stream { (room_in (txns_in self.new)).stream_bytes ≡ (room_in (txns_in self.old)).stream_bytes }
        ensures txns { table.txns_in (txns_in self.new) ≡ table.txns_in (txns_in self.old) }
        ensures next { next_in (txns_in self.new) ≡ next_in (txns_in self.old) }
        ensures claims { (p : PageId) → kept_in (txns_in self.new) p ≡ kept_in (txns_in self.old) p }
        ensures locks { locks_in self.new ≡ locks_in self.old }
        ensures waits { waits_in self.new ≡ waits_in self.old }
        ensures memory { HasWaitRoom self.old → HasWaitRoom self.new }
        ensures stands { (s : State) → HasControl self.old s → freed ≤ (room_in (txns_in self.old)).kept → HasControl self.new (record s { stream_bytes = s.stream_bytes + freed }) }
    {
        let mut room = self.txns.room();
        room.free(freed);
        self.txns.set_room(room);
    }
}
