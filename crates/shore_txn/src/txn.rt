//! A transaction under way.
ghost use Rattle.std.specs.Prelude.{◌≡◌, ◌↔◌, ◌+◌, ◌<◌, ◌≤◌, ◌++◌, ◌∷◌, [], ℕ, List, IfNone, IfOk, IfSome, IsOk, IsTrue, MatchOption, None, OnErr, OnOk, Some, false, is_some, length, option_to_list, reverse, slice_get, true};
ghost use Rattle.shore_types.specs.declared.layout.TheConstants.{ENDING_COST, LAST_TXN, MAX_LOG_BYTES, MAX_RECORD_BYTES, MAX_SAVEPOINTS};
ghost use Rattle.shore_types.specs.Images.{image_len};
ghost use Rattle.laws_room.specs.LogRooms.{compensation_cost, compensation_costs};
ghost use Rattle.std.specs.Option.{option_map};
ghost use Rattle.shore_model.specs.declared.rollbacks.Rollback.TheVariants.{Whole};
ghost use Rattle.laws_lives.specs.Sessions.{PreparedTxn};
ghost use Rattle.laws_lives.specs.UndoLists.{marks_kept};
ghost use Rattle.shore_txn.specs.TxnStates as states;
ghost use Rattle.shore_txn.specs.Numbers as numbers;
ghost use Rattle.shore_txn.specs.TxnStates.{second_ending};
ghost use Rattle.shore_txn.specs.UndoEntries.{AreShort, claims_on, first_number, images_of, number_behind};
ghost use Rattle.shore_txn.specs.declared.txn_state.TxnState.TheVariants as state;
ghost use Rattle.shore_txn.specs.declared.undo.UndoEntry.{UndoEntry};

use crate::txn_state::TxnState;
use crate::undo::UndoEntry;
use shore_model::{LogTxn, Rollback};
use shore_types::layout::ENDING_COST;
use shore_types::{GlobalId, Lsn, PageId, SessionId, TxnId};
use smallvec::SmallVec;
use std::alloc::{AllocError, Global};

/// The marks of savepoints: most transactions have few, and take no memory for them.
type Marks = SmallVec<usize, 4>;

/// A transaction of a session: its last record, and what a rollback has to put back.
#[derive(Drop)]
pub struct Txn {
    /// Its number.
    txn: TxnId,
    /// The session that began it, 0 for one that an open has found in doubt.
    session: SessionId,
    /// Whether that session is in it: not once a resolve has decided that it is rolled back, nor if an open has found it.
    is_seated: bool,
    /// The number of its last record, 0 if it has logged none.
    last: Lsn,
    /// That of its first, 0 if it has logged none: nothing of the log from there on may be cut off while it is under way.
    first: Lsn,
    /// Its changes that are not undone, the oldest first.
    undo: Vec<UndoEntry>,
    /// For each savepoint that stands, how many changes there were when it was set.
    marks: Marks,
    /// What it may do.
    state: TxnState,
    /// The name that its coordinator gave it, from its Prepare on.
    global: Option<GlobalId>,
    /// The number of its Prepare, 0 if it has none.
    prepare: Lsn,
    /// The number of its RollbackDecided, 0 if it has none.
    decided: Lsn,
    /// What is reserved for its ending and for the undo of its changes (`owed`): each change adds to it, and each undo takes from it. While it is in doubt
    /// it has the cost of a second ending, that of a RollbackDecided.
    reserved: u64,
    ghost some: { 1 ≤ txn },
    ghost below: { txn < LAST_TXN },
    ghost owed: { reserved ≡ ENDING_COST + compensation_costs (images_of undo.items) + second_ending state },
    ghost named: { states.is_in_doubt state ≡ true → is_some global ≡ true },
    ghost short: { AreShort undo.items },
    ghost few: { length marks.items ≤ MAX_SAVEPOINTS },
}

impl Txn {
    ghost use Rattle.shore_txn.specs.LogEntries.{BeginsAt, entry_of, has_logged};
    ghost use Rattle.shore_txn.specs.Txns.{HasEntryRoom, HasMarkRoom, IsAfterAnswer, IsAfterChange, IsAfterDecision, IsAfterPrepare, IsAfterSavepoint, IsAfterUndo, IsBackAt, IsDoomed, IsFoundPrepared, IsOf, SameTxn, as_prepared, decided_of, entries_of, first_of, global_of, last_of, marks_of, number_of, prepare_of, reserved_for, state_of};

    /// A transaction that has logged nothing.
    pub fn new(alloc: Global, txn: TxnId, session: SessionId) -> Txn
        requires some { 1 ≤ txn }
        requires below { txn < LAST_TXN }
        ensures txn { number_of result ≡ txn }
        ensures session { result.session ≡ session }
        ensures seated { result.is_seated ≡ true }
        ensures last { last_of result ≡ 0 }
        ensures first { first_of result ≡ 0 }
        ensures nothing { entries_of result ≡ [] }
        ensures marks { marks_of result ≡ [] }
        ensures state { state_of result ≡ state.Active }
        ensures global { global_of result ≡ None }
        ensures prepare { prepare_of result ≡ 0 }
        ensures decided { decided_of result ≡ 0 }
        ensures reserved { result.reserved ≡ ENDING_COST }
    {
        Txn {
            txn,
            session,
            is_seated: true,
            last: Lsn(0),
            first: Lsn(0),
            undo: Vec::new(alloc),
            marks: SmallVec::new(alloc),
            state: TxnState::Active,
            global: None,
            prepare: Lsn(0),
            decided: Lsn(0),
            reserved: ENDING_COST,
        }
    }

    /// Its number.
    pub fn id(&self) -> TxnId
        ensures number { result ≡ number_of self.now }
        ensures some { 1 ≤ result }
        ensures below { result < LAST_TXN }
    {
        self.txn
    }

    pub fn session(&self) -> SessionId
        ensures { result ≡ self.now.session }
    {
        self.session
    }

    /// The number of its last record, 0 if it has logged none.
    pub fn last(&self) -> Lsn
        ensures { result ≡ last_of self.now }
    {
        self.last
    }

    /// The number of its first record, 0 if it has logged none.
    pub fn first(&self) -> Lsn
        ensures { result ≡ first_of self.now }
    {
        self.first
    }

    /// Whether it has logged a record, and its first has this number.
    pub(crate) fn begins_at(&self, first: Lsn) -> bool
        ensures { IsTrue result ↔ BeginsAt first self.now }
    {
        self.has_logged() && self.first == first
    }

    /// The session that is in it: none if an open has found it, or a resolve rolls it back.
    pub fn seated(&self) -> Option<SessionId>
        ensures some { IfSome result (λ session. IsOf session self.now) }
        ensures none { IfNone result ((session : ℕ) → IsOf session self.now → ⊥) }
    {
        if self.is_seated {
            Some(self.session)
        } else {
            None
        }
    }

    /// What is reserved for its endings and its undo, in bytes of the log.
    pub fn reserved(&self) -> u64
        ensures is { result ≡ self.now.reserved }
        ensures sum { result ≡ reserved_for self.now }
    {
        self.reserved
    }

    /// Its changes, the oldest first.
    pub fn undo(&self) -> &[UndoEntry]
        ensures entries { result.now ≡ entries_of self.now }
    {
        &self.undo
    }

    /// What its change of an index may put back on a page: the slot, and the length of the image before. None if the change is of another page.
    pub fn claim(&self, index: usize, page: &PageId) -> Option<(u16, u16)>
        requires { index < length (entries_of self.now) }
        ensures { (e : UndoEntry) → slice_get (entries_of self.now) index ≡ Some e → option_to_list result ≡ claims_on page.now (e ∷ []) }
    {
        let entry = &self.undo[index];
        if entry.id.page != *page {
            return None;
        }
        Some((entry.id.slot, entry.image_len() as u16))
    }

    /// What it may do.
    pub fn state(&self) -> TxnState
        ensures { result ≡ state_of self.now }
    {
        self.state
    }

    /// How many savepoints stand.
    pub fn savepoints(&self) -> usize
        ensures { result ≡ length (marks_of self.now) }
    {
        self.marks.len()
    }

    /// How many changes there were when the savepoint of an index was set. None if it does not stand.
    pub fn mark(&self, index: usize) -> Option<usize>
        ensures { result ≡ slice_get (marks_of self.now) index }
    {
        self.marks.as_slice().get(index).copied()
    }

    /// The change that is undone next: the newest.
    pub fn newest(&self) -> Option<&UndoEntry>
        ensures some { IfSome result (λ e. (kept : List UndoEntry) × (entries_of self.now ≡ kept ++ e.now ∷ [])) }
        ensures none { IfNone result (entries_of self.now ≡ []) }
    {
        self.undo.last()
    }

    /// The number of the change that is undone behind the newest, 0 if there is none. A Compensation of the newest names it.
    pub fn undo_next(&self) -> Lsn
        ensures { result ≡ number_behind (entries_of self.now) }
    {
        let count = self.undo.len();
        if count < 2 {
            return Lsn(0);
        }
        self.undo[count - 2].lsn
    }

    /// Whether it has logged a record.
    pub fn has_logged(&self) -> bool
        ensures { result ≡ has_logged self.now }
    {
        0 < self.first.0
    }

    /// Its entry in the table of a checkpoint.
    pub fn entry(&self) -> LogTxn
        ensures { result ≡ entry_of self.now }
    {
        LogTxn {
            txn: self.txn,
            state: self.state.listed(),
            first: self.first,
            last: self.last,
            undo_next: self.newest_number(),
            prepare: self.prepare,
        }
    }

    // The number of its newest change, 0 if there is none.
    fn newest_number(&self) -> Lsn
        ensures { result ≡ first_number (reverse (entries_of self.now)) }
    {
        match self.undo.last() {
            Some(entry) => entry.lsn,
            None => Lsn(0),
        }
    }

    /// Takes the memory for an entry more. If that fails nothing has changed.
    pub fn reserve_entry(&mut self) -> Result<(), AllocError>
        ensures room { OnOk result (HasEntryRoom self.new) }
        ensures idle { HasEntryRoom self.old → IsOk result }
        ensures same { SameTxn self.old self.new }
        ensures reserved { self.new.reserved ≡ self.old.reserved }
    {
        self.undo.reserve(1)?;
        Ok(())
    }

    /// A change of it was logged, and its undo costs so much.
    pub fn note_change(&mut self, entry: UndoEntry, cost: u64)
        requires room { HasEntryRoom self.old }
        requires short { image_len entry.before ≤ MAX_RECORD_BYTES }
        requires cost { cost ≡ compensation_cost entry.before }
        requires sum { self.old.reserved + cost ≤ MAX_LOG_BYTES }
        ensures noted { IsAfterChange self.old entry self.new }
        ensures reserved { self.new.reserved ≡ self.old.reserved + cost }
    {
        self.first = first_with(self.first, entry.lsn);
        self.last = entry.lsn;
        self.undo.push_reserved(entry);
        self.reserved += cost;
    }

    /// A savepoint more. Answers its index. If memory is short nothing has changed.
    pub fn savepoint(&mut self) -> Result<usize, AllocError>
        requires few { length (marks_of self.old) < MAX_SAVEPOINTS }
        ensures index { IfOk result (λ index. index ≡ length (marks_of self.old)) }
        ensures set { OnOk result (IsAfterSavepoint self.old self.new) }
        ensures idle { HasMarkRoom self.old → IsOk result }
        ensures same { OnErr result (SameTxn self.old self.new) }
        ensures reserved { self.new.reserved ≡ self.old.reserved }
    {
        self.marks.reserve(1)?;
        let index = self.marks.len();
        self.marks.push_reserved(self.undo.len());
        Ok(index)
    }

    /// Its newest change was put back in this rollback, and the Compensation, which costs so much, was logged under this number. Hands the change
    /// over. It takes no memory.
    pub fn note_compensation(&mut self, lsn: Lsn, rollback: Rollback, cost: u64) -> UndoEntry
        requires free { states.is_in_doubt (state_of self.old) ≡ false }
        requires some { 0 < length (entries_of self.old) }
        requires cost { (kept : List UndoEntry) (e : UndoEntry) → entries_of self.old ≡ kept ++ e ∷ [] → cost ≡ compensation_cost e.before }
        ensures undone { IsAfterUndo lsn rollback result self.old self.new }
        ensures reserved { self.new.reserved + cost ≡ self.old.reserved }
    {
        let undone = self.undo.take_last();
        keep_marks(&mut self.marks, rollback);
        self.state = TxnState::RollingBack(rollback);
        self.reserved -= cost;
        self.first = first_with(self.first, lsn);
        self.last = lsn;
        undone
    }

    /// It is back at the savepoint of this index: those behind it are gone.
    pub fn go_back(&mut self, index: usize)
        requires free { states.is_in_doubt (state_of self.old) ≡ false }
        ensures back { IsBackAt index self.old self.new }
        ensures reserved { self.new.reserved ≡ self.old.reserved }
    {
        keep_marks(&mut self.marks, Rollback::To(index));
        self.state = TxnState::Active;
    }

    /// From now on it can only be rolled back, whole: its savepoints are gone.
    pub fn doom(&mut self)
        requires { states.is_in_doubt (state_of self.old) ≡ false }
        ensures { IsDoomed self.old self.new }
    {
        keep_marks(&mut self.marks, Rollback::Whole);
        self.state = self.state.doomed();
    }

    /// The name that its coordinator gave it.
    pub fn global(&self) -> Option<&GlobalId>
        ensures { MatchOption result (global_of self.now ≡ None) (λ name. global_of self.now ≡ Some name.now) }
    {
        self.global.as_ref()
    }

    /// Whether a session is in it.
    pub fn is_of(&self, session: SessionId) -> bool
        ensures { IsTrue result ↔ IsOf session self.now }
    {
        self.is_seated && self.session == session
    }

    /// The log has it, and no session is in it.
    pub(crate) fn unseat(&mut self)
        ensures { self.new ≡ record self.old { is_seated = false } }
    {
        self.is_seated = false;
    }

    /// The log has it from this number on, and no session is in it.
    pub(crate) fn start_at(&mut self, first: Lsn)
        ensures { self.new ≡ record self.old { is_seated = false; first = first } }
    {
        self.unseat();
        self.first = first;
    }

    /// Whether its coordinator gave it this name.
    pub fn has_global(&self, global: &GlobalId) -> bool
        ensures { IsTrue result ↔ (global_of self.now ≡ Some global.now) }
    {
        match &self.global {
            Some(own) => *own == *global,
            None => false,
        }
    }

    /// Whether it has a Prepare, and no decision.
    pub fn is_in_doubt(&self) -> bool
        ensures { result ≡ states.is_in_doubt (state_of self.now) }
    {
        matches!(self.state, TxnState::Preparing | TxnState::Prepared)
    }

    /// Its name and its number, if it is in doubt.
    pub fn doubt(&self, alloc: Global) -> Result<Option<(GlobalId, TxnId)>, AllocError>
        ensures { IfOk result (λ found. found ≡ option_map (λ (p : PreparedTxn). (p.global, p.txn)) (as_prepared self.now)) }
    {
        if !self.is_in_doubt() {
            return Ok(None);
        }
        let Some(global) = &self.global else {
            return Ok(None);
        };
        Ok(Some((global.try_clone(alloc)?, self.txn)))
    }

    /// The number of its RollbackDecided, 0 if it has none.
    pub fn decided(&self) -> Lsn
        ensures { result ≡ decided_of self.now }
    {
        self.decided
    }

    /// Its Prepare, which gives it this name, was logged under this number.
    pub fn note_prepare(&mut self, global: GlobalId, number: Lsn)
        requires free { states.is_in_doubt (state_of self.old) ≡ false }
        requires sum { self.old.reserved + ENDING_COST ≤ MAX_LOG_BYTES }
        ensures noted { IsAfterPrepare global number self.old self.new }
        ensures reserved { self.new.reserved ≡ self.old.reserved + ENDING_COST }
    {
        self.global = Some(global);
        self.state = TxnState::Preparing;
        self.reserved += ENDING_COST;
        self.prepare = number;
        self.first = first_with(self.first, number);
        self.last = number;
    }

    /// Its prepare is answered: from now on it can be resolved.
    pub fn note_answer(&mut self)
        requires { states.is_in_doubt (state_of self.old) ≡ true }
        ensures answered { IsAfterAnswer self.old self.new }
        ensures reserved { self.new.reserved ≡ self.old.reserved }
    {
        self.state = TxnState::Prepared;
    }

    /// Its RollbackDecided was logged under this number, which was reserved for: it can only be rolled back, and no session is in it.
    pub fn note_rollback(&mut self, number: Lsn)
        requires { states.is_in_doubt (state_of self.old) ≡ true }
        ensures decided { IsAfterDecision number self.old self.new }
        ensures reserved { self.new.reserved + ENDING_COST ≡ self.old.reserved }
    {
        self.unseat();
        self.marks.clear();
        self.state = TxnState::RollingBack(Rollback::Whole);
        self.reserved -= ENDING_COST;
        self.decided = number;
        self.first = first_with(self.first, number);
        self.last = number;
    }

    /// Its changes, the oldest first, once it is decided.
    pub fn into_undo(self) -> Vec<UndoEntry>
        ensures { result.items ≡ entries_of self }
    {
        self.undo
    }
}

// The number of the first record once one more is logged under this number: it stays, if there was one.
fn first_with(first: Lsn, lsn: Lsn) -> Lsn
    ensures { result ≡ numbers.first_with first lsn }
{
    if first.0 == 0 { lsn } else { first }
}

// The marks of the savepoints that a rollback keeps stay.
fn keep_marks(marks: &mut Marks, rollback: Rollback)
    ensures kept { marks.new.items ≡ marks_kept rollback marks.old.items }
    ensures fewer { length marks.new.items ≤ length marks.old.items }
{
    match rollback {
        Rollback::Whole => marks.clear(),
        Rollback::To(index) => {
            if index < marks.len() {
                marks.truncate(index + 1);
            }
        }
    }
}
