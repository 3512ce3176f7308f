//! The table of transactions as a checkpoint takes it.
ghost use Rattle.std.specs.Prelude.{◌≡◌, ◌⊎◌, ◌<◌, ◌≤◌, All, IfNone, IfOk, IfSome, IsPermutation, IsTrue, length, map};
ghost use Rattle.std.specs.List.{HoldsAt};
ghost use Rattle.shore_model.specs.Logs.{rise_above};
ghost use Rattle.laws_lives.specs.Views.{IsAmong};
ghost use Rattle.shore_txn.specs.LogEntries.{BeginsAt, IsLeastFirst, IsOldest, entries_logged};
ghost use Rattle.shore_txn.specs.Txns.{first_of};
ghost use Rattle.shore_txn.specs.declared.txn.Txn.{Txn};

use crate::active::NOBODY;
use crate::transactions::Transactions;
use crate::txn::Txn;
use shore_model::LogTxn;
use shore_types::Lsn;
use std::alloc::{AllocError, Global};

impl Transactions {
    ghost use Rattle.shore_txn.specs.Transactions.{txns_in};

    /// The transactions under way that have logged a record, rising by their numbers: the transaction table of a checkpoint that begins now.
    pub fn log_table(&self, alloc: Global) -> Result<Vec<LogTxn>, AllocError>
        ensures each { IfOk result (λ table. IsPermutation (entries_logged (txns_in self.now)) table.items) }
        ensures rising { IfOk result (λ table. IsTrue (rise_above 0 table.items)) }
    {
        let mut table = self.entries(alloc)?;
        table.sort_unstable_by_key(|entry| entry.txn.0);
        Ok(table)
    }

    // Those that have logged a record, the oldest first.
    fn entries(&self, alloc: Global) -> Result<Vec<LogTxn>, AllocError>
        ensures { IfOk result (λ table. table.items ≡ entries_logged (map (λ a. a.txn) self.now.active.items)) }
    {
        let mut table = Vec::new(alloc);
        for active in &self.active {
            if active.txn().has_logged() {
                table.push(active.txn().entry())?;
            }
        }
        Ok(table)
    }

    /// The transaction under way whose first record was logged first, of those that have logged one: the log is kept from there on. None if no transaction has.
    pub fn oldest(&self) -> Option<&Txn>
        ensures some { IfSome result (λ t. IsOldest t.now (txns_in self.now)) }
        ensures none { IfNone result ((t : Txn) → IsAmong t (txns_in self.now) → first_of t ≡ 0) }
    {
        let index = self.begun_at(self.least_first())?;
        let seat = self.seat_at(NOBODY, index);
        Some(self.txn(&seat))
    }

    // The least of the first numbers of the transactions under way, 0 if none has logged a record.
    fn least_first(&self) -> Lsn
        ensures { IsLeastFirst (txns_in self.now) result }
    {
        let mut least = Lsn(0);
        for active in &self.active {
            least = lesser(least, active.txn().first());
        }
        least
    }

    // Where a transaction is whose first record has this number.
    fn begun_at(&self, first: Lsn) -> Option<usize>
        ensures some { IfSome result (λ index. (index < length self.now.active.items) × HoldsAt (λ a. BeginsAt first a.txn) self.now.active.items index) }
        ensures none { IfNone result (All (λ a. BeginsAt first a.txn → ⊥) self.now.active.items) }
    {
        self.active
            .iter()
            .position(|active| active.txn().begins_at(first))
    }
}

// The least of a number and of a first number, each of them 0 for none.
fn lesser(least: Lsn, first: Lsn) -> Lsn
    ensures still { 0 < least → (0 < result) × (result ≤ least) }
    ensures below { 0 < first → (0 < result) × (result ≤ first) }
    ensures one { (result ≡ least) ⊎ ((0 < first) × (first ≡ result)) }
{
    if least.0 == 0 || (0 < first.0 && first.0 < least.0) {
        first
    } else {
        least
    }
}
