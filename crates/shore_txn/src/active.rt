//! A transaction of the table, with the places of its changes.
ghost use Rattle.std.specs.Prelude.{◌≡◌, ◌-◌, ◌+◌, ◌<◌, ◌≤◌, ◌++◌, ◌∷◌, [], List, IfOk, IsOk, OnErr, OnOk, Some, false, get_or, length, option_to_list, slice_get, take, true};
ghost use Rattle.shore_types.specs.declared.layout.TheConstants.{ENDING_COST, LAST_TXN, MAX_LOG_BYTES, MAX_RECORD_BYTES, MAX_SAVEPOINTS};
ghost use Rattle.shore_types.specs.Images.{image_len};
ghost use Rattle.laws_room.specs.LogRooms.{compensation_cost};
ghost use Rattle.shore_txn.specs.Chains.{bucket_of, newest_in, page_buckets};
ghost use Rattle.shore_txn.specs.Places.{buckets_in};
ghost use Rattle.shore_txn.specs.TxnStates.{is_in_doubt};
ghost use Rattle.shore_txn.specs.Txns.{HasMarkRoom, IsAfterAnswer, IsAfterChange, IsAfterDecision, IsAfterPrepare, IsAfterSavepoint, IsAfterUndo, IsBackAt, IsDoomed, IsFoundPrepared, SameTxn, entries_of, marks_of, state_of};
ghost use Rattle.shore_txn.specs.UndoEntries.{claims_on};
ghost use Rattle.shore_txn.specs.declared.undo.UndoEntry.{UndoEntry};

use crate::chains::PageChains;
use crate::txn::Txn;
use crate::undo::UndoEntry;
use shore_model::Rollback;
use shore_types::{GlobalId, Lsn, PageId, SessionId, TxnId};
use std::alloc::{AllocError, Global};

/// The session of one that an open has found, which is in it no more.
pub(crate) const NOBODY: SessionId = SessionId(0);

/// A transaction under way, with chains of its own.
#[derive(Drop)]
pub(crate) struct ActiveTxn {
    /// Its number, its undo list, and what it may do.
    txn: Txn,
    /// A place for each entry of the undo list (`chained`): who adds or takes an entry does so in both.
    chains: PageChains,
    ghost chained: { buckets_in chains ≡ page_buckets (entries_of txn) },
}

impl ActiveTxn {
    ghost use Rattle.shore_txn.specs.ActiveTxns.{CanNote, IsBegun, IsFound};

    /// A transaction that has logged nothing.
    pub(crate) fn new(alloc: Global, number: TxnId, session: SessionId) -> ActiveTxn
        requires some { 1 ≤ number }
        requires below { number < LAST_TXN }
        ensures { IsBegun number session result.txn }
    {
        ActiveTxn {
            txn: Txn::new(alloc, number, session),
            chains: PageChains::new(alloc),
        }
    }

    /// A transaction that an open has found, whose first record has this number, with none of its changes yet: no session is in it.
    pub(crate) fn found(alloc: Global, number: TxnId, first: Lsn) -> ActiveTxn
        requires some { 1 ≤ number }
        requires below { number < LAST_TXN }
        ensures { IsFound number first result.txn }
    {
        let mut txn = Txn::new(alloc, number, NOBODY);
        txn.start_at(first);
        ActiveTxn {
            txn,
            chains: PageChains::new(alloc),
        }
    }

    pub(crate) fn txn(&self) -> &Txn
        ensures { result.now ≡ self.now.txn }
    {
        &self.txn
    }

    /// Takes the memory for a change more. If that fails nothing is changed but the memory.
    pub(crate) fn reserve_entry(&mut self, alloc: Global) -> Result<(), AllocError>
        ensures room { OnOk result (CanNote self.new) }
        ensures idle { CanNote self.old → IsOk result }
        ensures same { SameTxn self.old.txn self.new.txn }
        ensures reserved { self.new.txn.reserved ≡ self.old.txn.reserved }
    {
        self.chains.reserve(alloc)?;
        self.txn.reserve_entry()
    }

    /// A change of it was logged, and its undo costs so much.
    pub(crate) fn note_change(&mut self, entry: UndoEntry, cost: u64)
        requires room { CanNote self.old }
        requires short { image_len entry.before ≤ MAX_RECORD_BYTES }
        requires cost { cost ≡ compensation_cost entry.before }
        requires sum { self.old.txn.reserved + cost ≤ MAX_LOG_BYTES }
        ensures { IsAfterChange self.old.txn entry self.new.txn }
    {
        self.chains.push(&entry.id.page);
        self.txn.note_change(entry, cost);
    }

    /// A change that the log has of it, and its undo costs so much. If memory is short nothing is changed but the memory.
    pub(crate) fn restore_change(
        &mut self,
        alloc: Global,
        entry: UndoEntry,
        cost: u64,
    ) -> Result<(), AllocError>
        requires short { image_len entry.before ≤ MAX_RECORD_BYTES }
        requires cost { cost ≡ compensation_cost entry.before }
        requires sum { self.old.txn.reserved + cost ≤ MAX_LOG_BYTES }
        ensures noted { OnOk result (IsAfterChange self.old.txn entry self.new.txn) }
        ensures idle { CanNote self.old → IsOk result }
        ensures same { OnErr result (SameTxn self.old.txn self.new.txn) }
    {
        self.reserve_entry(alloc)?;
        self.note_change(entry, cost);
        Ok(())
    }

    /// A savepoint more. Answers its index. If memory is short nothing has changed.
    pub(crate) fn savepoint(&mut self) -> Result<usize, AllocError>
        requires few { length (marks_of self.old.txn) < MAX_SAVEPOINTS }
        ensures index { IfOk result (λ index. index ≡ length (marks_of self.old.txn)) }
        ensures set { OnOk result (IsAfterSavepoint self.old.txn self.new.txn) }
        ensures idle { HasMarkRoom self.old.txn → IsOk result }
        ensures same { OnErr result (SameTxn self.old.txn self.new.txn) }
    {
        self.txn.savepoint()
    }

    /// Its newest change was put back in this rollback, and the Compensation, which costs so much, was logged under this number. Hands the change
    /// over. It takes no memory.
    pub(crate) fn note_compensation(&mut self, lsn: Lsn, rollback: Rollback, cost: u64) -> UndoEntry
        requires free { is_in_doubt (state_of self.old.txn) ≡ false }
        requires some { 0 < length (entries_of self.old.txn) }
        requires cost { (kept : List UndoEntry) (e : UndoEntry) → entries_of self.old.txn ≡ kept ++ e ∷ [] → cost ≡ compensation_cost e.before }
        ensures { IsAfterUndo lsn rollback result self.old.txn self.new.txn }
    {
        self.chains.pop();
        self.txn.note_compensation(lsn, rollback, cost)
    }

    /// It is back at the savepoint of this index: those behind it are gone.
    pub(crate) fn go_back(&mut self, index: usize)
        requires free { is_in_doubt (state_of self.old.txn) ≡ false }
        ensures { IsBackAt index self.old.txn self.new.txn }
    {
        self.txn.go_back(index);
    }

    /// From now on it can only be rolled back, whole: its savepoints are gone. Nothing of it is put back yet.
    pub(crate) fn doom(&mut self)
        requires free { is_in_doubt (state_of self.old.txn) ≡ false }
        ensures { IsDoomed self.old.txn self.new.txn }
    {
        self.txn.doom();
    }

    /// Its Prepare, which gives it this name, was logged under this number.
    pub(crate) fn note_prepare(&mut self, global: GlobalId, number: Lsn)
        requires free { is_in_doubt (state_of self.old.txn) ≡ false }
        requires sum { self.old.txn.reserved + ENDING_COST ≤ MAX_LOG_BYTES }
        ensures { IsAfterPrepare global number self.old.txn self.new.txn }
    {
        self.txn.note_prepare(global, number);
    }

    /// Its Prepare, which gives it this name, was found in the log under this number: it waits for its decision.
    pub(crate) fn find_prepared(&mut self, global: GlobalId, number: Lsn)
        requires free { is_in_doubt (state_of self.old.txn) ≡ false }
        requires sum { self.old.txn.reserved + ENDING_COST ≤ MAX_LOG_BYTES }
        ensures { IsFoundPrepared global number self.old.txn self.new.txn }
    {
        self.txn.note_prepare(global, number);
        self.txn.note_answer();
    }

    /// Its prepare is answered.
    pub(crate) fn note_answer(&mut self)
        requires { is_in_doubt (state_of self.old.txn) ≡ true }
        ensures { IsAfterAnswer self.old.txn self.new.txn }
    {
        self.txn.note_answer();
    }

    /// Its RollbackDecided was logged under this number.
    pub(crate) fn note_rollback(&mut self, number: Lsn)
        requires { is_in_doubt (state_of self.old.txn) ≡ true }
        ensures { IsAfterDecision number self.old.txn self.new.txn }
    {
        self.txn.note_rollback(number);
    }

    /// The newest place of a page's bucket, 0 for none.
    pub(crate) fn newest(&self, page: &PageId) -> usize
        ensures { result ≡ newest_in (bucket_of page.now) (buckets_in self.now.chains) }
    {
        self.chains.newest(page)
    }

    /// The next older place in the bucket of a place, 0 for none.
    pub(crate) fn older(&self, place: usize) -> usize
        requires some { 1 ≤ place }
        requires there { place ≤ length (buckets_in self.now.chains) }
        ensures { result ≡ newest_in (get_or (buckets_in self.now.chains) (place - 1) 0) (take (place - 1) (buckets_in self.now.chains)) }
    {
        self.chains.older(place)
    }

    /// What its change of an index may put back on a page: the slot, and the length of the image before. None if the change is of another page.
    pub(crate) fn claim(&self, index: usize, page: &PageId) -> Option<(u16, u16)>
        requires { index < length (entries_of self.now.txn) }
        ensures { (e : UndoEntry) → slice_get (entries_of self.now.txn) index ≡ Some e → option_to_list result ≡ claims_on page.now (e ∷ []) }
    {
        self.txn.claim(index, page)
    }

    /// Its changes, the oldest first, once it is decided.
    pub(crate) fn into_undo(self) -> Vec<UndoEntry>
        ensures { result.items ≡ entries_of self.txn }
    {
        self.txn.into_undo()
    }
}
