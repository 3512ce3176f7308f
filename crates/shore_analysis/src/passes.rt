//! A pass over the records of a log.
ghost use Rattle.std.specs.Prelude.{◌≡◌, ◌↔◌, ◌++◌, ◌∷◌, ◌<◌, ◌+◌, [], ℕ, List, IfOk, IsTrue, OnOk, map, Some, None, true, length};
ghost use Rattle.std.specs.Ordering.{nat_cmp};
ghost use Rattle.std.specs.BTreeMap.{IsOrdered, Updates, get, values};
ghost use Rattle.std.specs.BTreeSet as set;
ghost use Rattle.shore_types.specs.Ids.{page_cmp};
ghost use Rattle.shore_types.specs.declared.ids.PageId.{PageId};
ghost use Rattle.shore_types.specs.declared.layout.Geometry.{Geometry};
ghost use Rattle.shore_types.specs.declared.layout.TheConstants.{LAST_TXN};
ghost use Rattle.shore_model.specs.declared.log_records.LogRecord.{LogRecord};
ghost use Rattle.shore_analysis.specs.Tables.{AreTables, is_on_page};
ghost use Rattle.shore_model.specs.Logs.{id_in};
ghost use Rattle.shore_analysis.specs.Meant.{AreMeant, AreMeantOf, MayBeNext, IsMeant, Means, MeansCompensation};
ghost use Rattle.shore_analysis.specs.Padded.{padded};
ghost use Rattle.shore_analysis.specs.Passes.{Knows, as_dirty, entry_after, noted, over_after, progress_at, txn_after};

use crate::analysis::Tables;
use crate::chains::is_answer;
use crate::prepares::may_prepare;
use crate::progress::{Phase, Progress, begun, entry_by, progress_of};
use crate::sizes::has_sizes;
use shore_model::{DirtyPage, LogRecord, LogTxn, Payload};
use shore_types::layout::{LAST_TXN, MAX_TRANSACTIONS};
use shore_types::{Bytes, Geometry, Lsn, PageId, Rid, Sequence, TxnId};
use std::alloc::{AllocError, Global};
use std::collections::{BTreeMap, BTreeSet};

/// What is known of the records so far.
#[derive(Drop)]
pub(crate) struct Pass {
    // The entries of the transactions that have not ended.
    running: BTreeMap<u64, LogTxn>,
    // Those that have ended.
    over: BTreeSet<u64>,
    // The pages that were changed, each with the number of the first record that changed it.
    dirty: BTreeMap<PageId, Lsn>,
    // 1 above the greatest number of a transaction.
    next: u64,
}

impl Pass {
    pub(crate) fn new(alloc: Global) -> Pass
        ensures { Knows [] result }
    {
        Pass {
            running: BTreeMap::new(alloc),
            over: BTreeSet::new(alloc),
            dirty: BTreeMap::new(alloc),
            next: 1,
        }
    }

    /// Takes the next record in, if the log may go on by it.
    pub(crate) fn goes_on(
        &mut self,
        geometry: &Geometry,
        before: &[LogRecord],
        logged: &LogRecord,
    ) -> Result<bool, AllocError>
        requires knows { Knows before.now self.old }
        requires meant { AreMeant geometry.now before.now }
        ensures test { IfOk result (λ goes_on. IsTrue goes_on ↔ MayBeNext geometry.now before.now logged.now) }
        ensures knows { IfOk result (λ goes_on. IsTrue goes_on → Knows (before.now ++ logged.now ∷ []) self.new) }
    {
        if !self.is_meant(geometry, before, logged) {
            return Ok(false);
        }
        self.take_in(before, logged)?;
        Ok(self.running.len() <= MAX_TRANSACTIONS)
    }

    /// The tables of the log whose records were taken in.
    pub(crate) fn into_tables(self, alloc: Global) -> Result<Tables, AllocError>
        ensures { (g : Geometry) (rs : List LogRecord) → Knows rs self → AreMeant g rs → IfOk result (AreTables rs) }
    {
        Ok(Tables {
            txns: list_txns(alloc, &self.running)?,
            dirty: list_pages(alloc, &self.dirty)?,
            next: TxnId(self.next),
        })
    }

    // Whether the record means what it has to behind those before it.
    fn is_meant(&self, geometry: &Geometry, before: &[LogRecord], logged: &LogRecord) -> bool
        requires knows { Knows before.now self.now }
        requires meant { AreMeant geometry.now before.now }
        ensures { IsTrue result ↔ IsMeant geometry.now before.now logged.now }
    {
        let txn = logged.txn;
        if txn.0 == 0 || txn.0 >= LAST_TXN {
            return false;
        }
        if !has_sizes(geometry.version, &logged.payload) {
            return false;
        }
        match self.progress(txn) {
            Some(progress) => logged.previous == progress.last
                && means(geometry, 0, before, &progress, &logged.payload),
            None => false,
        }
    }

    // How far a transaction has come; None if it has ended.
    fn progress(&self, txn: TxnId) -> Option<Progress>
        ensures { (rs : List LogRecord) → Knows rs self.now → 0 < txn → result ≡ progress_at txn rs }
    {
        match self.running.get(&txn.0) {
            Some(entry) => Some(progress_of(entry)),
            None if self.over.contains(&txn.0) => None,
            None => Some(Progress {
                last: Lsn(0),
                newest: Lsn(0),
                phase: Phase::Free,
            }),
        }
    }

    // Takes a record in that means what it has to.
    fn take_in(&mut self, before: &[LogRecord], logged: &LogRecord) -> Result<(), AllocError>
        requires number { logged.now.txn < LAST_TXN }
        ensures { (g : Geometry) → Knows before.now self.old → AreMeant g before.now → IsMeant g before.now logged.now
            → OnOk result (Knows (before.now ++ logged.now ∷ []) self.new) }
    {
        let number = Lsn(before.len() as u64 + 1);
        note_page(&mut self.dirty, number, &logged.payload)?;
        self.next = self.next.max(logged.txn.0 + 1);
        note_txn(&mut self.running, &mut self.over, number, logged)
    }
}

/// The entries, rising by number.
pub(crate) fn list_txns(
    alloc: Global,
    running: &BTreeMap<u64, LogTxn>,
) -> Result<Sequence<LogTxn>, AllocError>
    ensures listed { IfOk result (λ txns. txns ≡ values running.now) }
    ensures ordered { IsOrdered nat_cmp running.now }
{
    let mut txns = Sequence::new(alloc);
    for (_, entry) in running.iter() {
        txns.push(*entry)?;
    }
    Ok(txns)
}

// The pages, rising by store and page.
fn list_pages(
    alloc: Global,
    dirty: &BTreeMap<PageId, Lsn>,
) -> Result<Sequence<DirtyPage>, AllocError>
    ensures listed { IfOk result (λ pages. pages ≡ map as_dirty dirty.now.entries) }
    ensures ordered { IsOrdered page_cmp dirty.now }
{
    let mut pages = Sequence::new(alloc);
    for (page, recovery) in dirty.iter() {
        pages.push(DirtyPage {
            page: *page,
            recovery: *recovery,
        })?;
    }
    Ok(pages)
}

/// Whether the payload means what it has to behind the kept records before it, with its transaction so far, of which all records are kept.
pub(crate) fn means(
    geometry: &Geometry,
    cut: u64,
    before: &[LogRecord],
    progress: &Progress,
    payload: &Payload,
) -> bool
    ensures { (t : ℕ) → 0 < t → AreMeantOf geometry.now t (padded cut before.now) → Some progress.now ≡ progress_at t (padded cut before.now)
        → (IsTrue result ↔ Means geometry.now (padded cut before.now) t payload.now) }
{
    match payload {
        Payload::Change { id, .. } => progress.phase.is_free() && geometry.has_slot(*id),
        Payload::Compensation {
            id,
            after,
            undo_next,
        } => compensates(geometry, cut, before, progress, id, after, *undo_next),
        Payload::Commit => !progress.phase.is_decided(),
        Payload::End => !progress.phase.is_doubtful() && progress.newest.0 == 0,
        Payload::Prepare { granules, .. } => {
            progress.phase.is_free()
                && may_prepare(geometry, cut, before, progress.last, granules.as_slice())
        }
        Payload::RollbackDecided => progress.phase.is_doubtful(),
        Payload::CheckpointBegin | Payload::CheckpointEnd { .. } | Payload::Anchor { .. } => false,
    }
}

// Whether a Compensation means what it has to.
fn compensates(
    geometry: &Geometry,
    cut: u64,
    before: &[LogRecord],
    progress: &Progress,
    id: &Rid,
    after: &Option<Bytes>,
    undo_next: Lsn,
) -> bool
    ensures { (t : ℕ) → 0 < t → AreMeantOf geometry.now t (padded cut before.now) → Some progress.now ≡ progress_at t (padded cut before.now)
        → (IsTrue result ↔ MeansCompensation geometry.now (padded cut before.now) t id.now after.now undo_next) }
{
    if progress.phase.is_doubtful() {
        return false;
    }
    if !geometry.has_slot(*id) {
        return false;
    }
    is_answer(cut, before, progress.newest, id, after, undo_next)
}

// Notes the page that the record of this number changes, unless an earlier one has changed it.
fn note_page(
    dirty: &mut BTreeMap<PageId, Lsn>,
    number: Lsn,
    payload: &Payload,
) -> Result<(), AllocError>
    ensures { OnOk result ((p : PageId)
        → get page_cmp dirty.new p ≡ noted (is_on_page p (id_in payload.now)) number (get page_cmp dirty.old p)) }
{
    let Some(id) = payload.id() else {
        return Ok(());
    };
    if !dirty.contains_key(&id.page) {
        dirty.insert(id.page, number)?;
    }
    Ok(())
}

// Notes what the record of this number makes of its transaction.
fn note_txn(
    running: &mut BTreeMap<u64, LogTxn>,
    over: &mut BTreeSet<u64>,
    number: Lsn,
    logged: &LogRecord,
) -> Result<(), AllocError>
    ensures running { OnOk result (Updates nat_cmp running.old running.new logged.now.txn
        (txn_after number logged.now (get nat_cmp running.old logged.now.txn))) }
    ensures over { OnOk result ((t : ℕ) → set.contains nat_cmp over.new t ≡ over_after logged.now t (set.contains nat_cmp over.old t)) }
{
    if logged.payload.is_commit() || logged.payload.is_end() {
        end(running, over, logged.txn)
    } else {
        go_on(running, number, logged)
    }
}

/// Ends a transaction.
pub(crate) fn end(
    running: &mut BTreeMap<u64, LogTxn>,
    over: &mut BTreeSet<u64>,
    txn: TxnId,
) -> Result<(), AllocError>
    ensures running { OnOk result (Updates nat_cmp running.old running.new txn None) }
    ensures over { OnOk result (set.Updates nat_cmp over.old over.new txn true) }
{
    over.insert(txn.0)?;
    let _ = running.remove(&txn.0);
    Ok(())
}

// Puts the entry of a transaction that goes on by this record.
fn go_on(
    running: &mut BTreeMap<u64, LogTxn>,
    number: Lsn,
    logged: &LogRecord,
) -> Result<(), AllocError>
    ensures { OnOk result (Updates nat_cmp running.old running.new logged.now.txn
        (Some (entry_after number logged.now (get nat_cmp running.old logged.now.txn)))) }
{
    let known = running.get(&logged.txn.0).copied();
    let before = known.unwrap_or(begun(logged.txn, number));
    let entry = entry_by(number, &logged.payload, &before);
    running.insert(logged.txn.0, entry)?;
    Ok(())
}
