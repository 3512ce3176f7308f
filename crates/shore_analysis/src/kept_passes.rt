//! A pass over the kept records of a log whose front may be cut off.
ghost use Rattle.std.specs.Prelude.{◌≡◌, ◌==◌, ◌↔◌, ◌⊎◌, ◌++◌, ◌∷◌, ◌<◌, ◌≤◌, ◌+◌, [], ℕ, List, Some, None, IfNone, IfSome, IsTrue, OnOk, cond, is_some, length, take, true, false};
ghost use Rattle.std.specs.Ordering.{nat_cmp};
ghost use Rattle.std.specs.BTreeMap.{get, is_at};
ghost use Rattle.std.specs.BTreeSet as set;
ghost use Rattle.shore_types.specs.declared.layout.Geometry.{Geometry};
ghost use Rattle.shore_types.specs.declared.layout.TheConstants.{LAST_OPENED, LAST_TXN};
ghost use Rattle.shore_model.specs.declared.log_records.LogRecord.{LogRecord};
ghost use Rattle.shore_analysis.specs.KeptMeant.{IsKeptCrowded, IsMeantNow, IsWholeIn, SaysCutOff, SaysInBounds, SaysOfCheckpoint, is_own_cut_off, listed_cut_off, to_have_ended, txns_cut_off};
ghost use Rattle.shore_analysis.specs.KeptPasses as kept_passes;
ghost use Rattle.shore_analysis.specs.KeptPasses.{IsEarlier, KnowsEnds, KnowsKept, StandsAs, entry_behind, kept_txn_after, noted_all, standing_of_first};
ghost use Rattle.shore_analysis.specs.Meant.{AreMeantOf, Means};
ghost use Rattle.shore_analysis.specs.Padded.{padded};
ghost use Rattle.shore_analysis.specs.Passes.{noted, over_after, progress_at};
ghost use Rattle.shore_analysis.specs.Sizes.{HasSizes};

use crate::kept_meaning::{
    is_cut_off, names_cut_off, says_cut_off, says_in_bounds, says_of_checkpoint,
};
use crate::passes::{end, means};
use crate::progress::{Phase, Progress, begun, entry_by, progress_of};
use crate::sizes::has_sizes;
use shore_model::{LogRecord, LogTxn, Payload};
use shore_types::layout::{LAST_TXN, MAX_TRANSACTIONS};
use shore_types::{Geometry, Lsn, TxnId};
use std::alloc::{AllocError, Global};
use std::collections::{BTreeMap, BTreeSet};

/// What is known of the kept records so far.
#[derive(Drop)]
pub(crate) struct KeptPass {
    // The entries of the transactions that have not ended. Of one whose front is cut off the first number is that of a record that is cut off, and of its
    // other numbers the last alone is right.
    pub(crate) running: BTreeMap<u64, LogTxn>,
    // Those that have ended.
    pub(crate) over: BTreeSet<u64>,
    // Those that have to have ended in the end, each with the number of the first record that takes it so.
    pub(crate) awaited: BTreeMap<u64, Lsn>,
    // 1 above the greatest number of a transaction.
    pub(crate) next: u64,
}

/// How a record stands to those of its transaction before it.
#[derive(Clone, Copy)]
pub(crate) enum Standing {
    /// The transaction is whole in what is kept, and has come so far.
    Whole(Progress),
    /// Its front is cut off, and this is the number that the record has to name.
    CutOff(Lsn),
    /// It has ended, or the record names one before it that is not there.
    Nowhere,
}

impl Standing {
    fn is_cut_off(self) -> bool
        ensures { result ≡ kept_passes.stands_cut_off self }
    {
        matches!(self, Standing::CutOff(_))
    }
}

impl KeptPass {
    pub(crate) fn new(alloc: Global) -> KeptPass
        ensures knows { (g : Geometry) (cut : ℕ) → KnowsKept g cut [] result }
        ensures awaited { (t : ℕ) → get nat_cmp result.awaited t ≡ None }
    {
        KeptPass {
            running: BTreeMap::new(alloc),
            over: BTreeSet::new(alloc),
            awaited: BTreeMap::new(alloc),
            next: 1,
        }
    }

    /// Whether the record means what it has to, as far as those before it tell.
    pub(crate) fn is_meant(
        &self,
        geometry: &Geometry,
        cut: u64,
        before: &[LogRecord],
        logged: &LogRecord,
    ) -> bool
        requires cut { cut < LAST_OPENED }
        requires knows { KnowsKept geometry.now cut before.now self.now }
        ensures { IsTrue result ↔ IsMeantNow geometry.now cut before.now logged.now }
    {
        let number = Lsn(cut + 1 + before.len() as u64);
        let txn = logged.txn;
        if txn.0 >= LAST_TXN {
            return false;
        }
        if !says_in_bounds(geometry, number, &logged.payload) {
            return false;
        }
        if !has_sizes(geometry.version, &logged.payload) {
            return false;
        }
        if txn.0 == 0 {
            return of_nobody(cut, before, logged);
        }
        let standing = self.standing(cut, logged);
        stands(geometry, cut, before, logged, &standing)
    }

    // How the record stands.
    fn standing(&self, cut: u64, logged: &LogRecord) -> Standing
        ensures { (g : Geometry) (before : List LogRecord) → 0 < logged.now.txn → KnowsKept g cut before self.now → StandsAs g cut before logged.now result }
    {
        let Some(entry) = self.running.get(&logged.txn.0) else {
            return self.standing_of_new(cut, logged);
        };
        if is_cut_off(cut, entry.first) {
            return Standing::CutOff(entry.last);
        }
        Standing::Whole(progress_of(entry))
    }

    // How the record stands, if its transaction has no entry.
    fn standing_of_new(&self, cut: u64, logged: &LogRecord) -> Standing
        ensures { (g : Geometry) (before : List LogRecord) → 0 < logged.now.txn → KnowsKept g cut before self.now → get nat_cmp self.now.running logged.now.txn ≡ None
            → StandsAs g cut before logged.now result }
    {
        if self.over.contains(&logged.txn.0) {
            return Standing::Nowhere;
        }
        first_standing(cut, logged.previous)
    }

    /// Takes a record in that means what it has to.
    pub(crate) fn take_in(
        &mut self,
        cut: u64,
        before: &[LogRecord],
        logged: &LogRecord,
    ) -> Result<(), AllocError>
        requires cut { cut < LAST_OPENED }
        requires number { logged.now.txn < LAST_TXN }
        ensures knows { (g : Geometry) → KnowsKept g cut before.now self.old → IsMeantNow g cut before.now logged.now
            → OnOk result (KnowsKept g cut (before.now ++ logged.now ∷ []) self.new) }
        ensures awaited { (g : Geometry) → KnowsKept g cut before.now self.old → IsMeantNow g cut before.now logged.now
            → OnOk result ((t : ℕ) → get nat_cmp self.new.awaited t ≡ noted_all (to_have_ended cut before.now logged.now) (cut + 1 + length before.now) t (get nat_cmp self.old.awaited t)) }
    {
        let number = Lsn(cut + 1 + before.len() as u64);
        self.await_ends(cut, number, logged)?;
        self.next = self.next.max(logged.txn.0 + 1);
        note_kept(&mut self.running, &mut self.over, number, logged)
    }

    // Notes those that the record takes to have ended.
    fn await_ends(&mut self, cut: u64, number: Lsn, logged: &LogRecord) -> Result<(), AllocError>
        ensures awaited { (g : Geometry) (before : List LogRecord) → KnowsKept g cut before self.old → IsMeantNow g cut before logged.now
            → OnOk result ((t : ℕ) → get nat_cmp self.new.awaited t ≡ noted_all (to_have_ended cut before logged.now) number t (get nat_cmp self.old.awaited t)) }
        ensures running { self.new.running ≡ self.old.running }
        ensures over { self.new.over ≡ self.old.over }
        ensures next { self.new.next ≡ self.old.next }
    {
        let is_own = self.is_of_cut_off(cut, logged);
        await_own(&mut self.awaited, is_own, logged.txn, number)?;
        await_listed(&mut self.awaited, cut, number, &logged.payload)
    }

    // Whether the record is of a transaction whose front is cut off.
    fn is_of_cut_off(&self, cut: u64, logged: &LogRecord) -> bool
        ensures { (g : Geometry) (before : List LogRecord) → KnowsKept g cut before self.now → IsMeantNow g cut before logged.now
            → result ≡ is_own_cut_off cut before logged.now }
    {
        let txn = logged.txn;
        if txn.0 == 0 {
            return false;
        }
        // If the log has its front nobody's is cut off.
        if cut == 0 {
            return false;
        }
        let standing = self.standing(cut, logged);
        standing.is_cut_off()
    }

    /// More transactions have not ended than there may be.
    pub(crate) fn is_crowded(&self) -> bool
        ensures { (g : Geometry) (cut : ℕ) (before : List LogRecord) → KnowsKept g cut before self.now → (IsTrue result ↔ IsKeptCrowded cut before) }
    {
        self.running.len() > MAX_TRANSACTIONS
    }

    /// Notes who has ended by these records, of which it is not known what they mean.
    pub(crate) fn note_rest(&mut self, rest: &[LogRecord]) -> Result<(), AllocError>
        ensures ends { (cut : ℕ) (before : List LogRecord) → KnowsEnds cut before self.old → OnOk result (KnowsEnds cut (before ++ rest.now) self.new) }
        ensures awaited { self.new.awaited ≡ self.old.awaited }
    {
        for logged in rest {
            note_kept(&mut self.running, &mut self.over, Lsn(1), logged)?;
        }
        Ok(())
    }

    /// The first number of a record that takes one to have ended which has not.
    pub(crate) fn first_awaited(&self) -> Option<Lsn>
        ensures none { IfNone result ((t m : ℕ) → get nat_cmp self.now.awaited t ≡ Some m → is_some (get nat_cmp self.now.running t) ≡ false) }
        ensures some { IfSome result (λ m. (t : ℕ) × (get nat_cmp self.now.awaited t ≡ Some m) × (is_some (get nat_cmp self.now.running t) ≡ true)) }
        ensures first { IfSome result (λ m. (t k : ℕ) → get nat_cmp self.now.awaited t ≡ Some k → is_some (get nat_cmp self.now.running t) ≡ true → m ≤ k) }
    {
        let mut first = None;
        for (txn, number) in self.awaited.iter() {
            if self.running.contains_key(txn) {
                first = Some(earlier(first, *number));
            }
        }
        first
    }
}

/// The lesser of two numbers, of which the first may not be there.
pub(crate) fn earlier(first: Option<Lsn>, number: Lsn) -> Lsn
    ensures { IsEarlier first number result }
{
    match first {
        Some(other) if other < number => other,
        _ => number,
    }
}

// How a transaction's first kept record stands, which names this number.
fn first_standing(cut: u64, previous: Lsn) -> Standing
    ensures { result ≡ standing_of_first cut previous }
{
    if previous.0 == 0 {
        Standing::Whole(Progress {
            last: Lsn(0),
            newest: Lsn(0),
            phase: Phase::Free,
        })
    } else if previous.0 <= cut {
        Standing::CutOff(previous)
    } else {
        Standing::Nowhere
    }
}

// Whether a record of nobody is a checkpoint's and means what it has to.
fn of_nobody(cut: u64, before: &[LogRecord], logged: &LogRecord) -> bool
    ensures { IsTrue result ↔ ((logged.now.previous ≡ 0) × SaysOfCheckpoint cut before.now logged.now.payload) }
{
    logged.previous.0 == 0 && says_of_checkpoint(cut, before, &logged.payload)
}

// Whether a record of a transaction in bounds, which stands so, means what it has to.
fn stands(
    geometry: &Geometry,
    cut: u64,
    before: &[LogRecord],
    logged: &LogRecord,
    standing: &Standing,
) -> bool
    ensures { 0 < logged.now.txn → logged.now.txn < LAST_TXN → SaysInBounds geometry.now (cut + 1 + length before.now) logged.now.payload
        → HasSizes geometry.now.version logged.now.payload → StandsAs geometry.now cut before.now logged.now standing.now → (IsWholeIn cut before.now logged.now.txn → AreMeantOf geometry.now logged.now.txn (padded cut before.now))
        → (IsTrue result ↔ IsMeantNow geometry.now cut before.now logged.now) }
{
    match standing {
        Standing::Whole(progress) => goes_on_whole(geometry, cut, before, logged, progress),
        Standing::CutOff(last) => goes_on_cut_off(cut, before, logged, *last),
        Standing::Nowhere => false,
    }
}

fn goes_on_whole(
    geometry: &Geometry,
    cut: u64,
    before: &[LogRecord],
    logged: &LogRecord,
    progress: &Progress,
) -> bool
    ensures { 0 < logged.now.txn → AreMeantOf geometry.now logged.now.txn (padded cut before.now) → Some progress.now ≡ progress_at logged.now.txn (padded cut before.now)
        → (IsTrue result ↔ ((logged.now.previous ≡ progress.now.last) × Means geometry.now (padded cut before.now) logged.now.txn logged.now.payload)) }
{
    logged.previous == progress.last && means(geometry, cut, before, progress, &logged.payload)
}

fn goes_on_cut_off(cut: u64, before: &[LogRecord], logged: &LogRecord, last: Lsn) -> bool
    ensures { IsTrue result ↔ ((logged.now.previous ≡ last) × SaysCutOff cut before.now logged.now.txn logged.now.payload) }
{
    logged.previous == last && says_cut_off(cut, before, logged.txn, &logged.payload)
}

// ---- who has to have ended

fn await_own(
    awaited: &mut BTreeMap<u64, Lsn>,
    is_own: bool,
    txn: TxnId,
    number: Lsn,
) -> Result<(), AllocError>
    ensures { OnOk result ((t : ℕ) → get nat_cmp awaited.new t ≡ noted_all (cond is_own (txn ∷ []) []) number t (get nat_cmp awaited.old t)) }
{
    if !is_own {
        return Ok(());
    }
    await_end(awaited, txn, number)
}

fn await_listed(
    awaited: &mut BTreeMap<u64, Lsn>,
    cut: u64,
    number: Lsn,
    payload: &Payload,
) -> Result<(), AllocError>
    ensures { OnOk result ((t : ℕ) → get nat_cmp awaited.new t ≡ noted_all (listed_cut_off cut payload.now) number t (get nat_cmp awaited.old t)) }
{
    match payload {
        Payload::CheckpointEnd { txns, .. } => {
            await_entries(awaited, cut, number, txns.as_slice())
        }
        Payload::Change { .. } => Ok(()),
        Payload::Compensation { .. } => Ok(()),
        Payload::Commit => Ok(()),
        Payload::End => Ok(()),
        Payload::Prepare { .. } => Ok(()),
        Payload::RollbackDecided => Ok(()),
        Payload::CheckpointBegin => Ok(()),
        Payload::Anchor { .. } => Ok(()),
    }
}

fn await_entries(
    awaited: &mut BTreeMap<u64, Lsn>,
    cut: u64,
    number: Lsn,
    entries: &[LogTxn],
) -> Result<(), AllocError>
    ensures { OnOk result ((t : ℕ) → get nat_cmp awaited.new t ≡ noted_all (txns_cut_off cut entries.now) number t (get nat_cmp awaited.old t)) }
{
    match entries.split_first() {
        Some((entry, rest)) => {
            await_own(awaited, names_cut_off(cut, entry), entry.txn, number)?;
            await_entries(awaited, cut, number, rest)
        }
        None => Ok(()),
    }
}

// The transaction has to have ended, by the record of this number, unless an earlier one says so.
fn await_end(awaited: &mut BTreeMap<u64, Lsn>, txn: TxnId, number: Lsn) -> Result<(), AllocError>
    ensures { (t : ℕ) → OnOk result (get nat_cmp awaited.new t ≡ noted (txn == t) number (get nat_cmp awaited.old t)) }
{
    if !awaited.contains_key(&txn.0) {
        awaited.insert(txn.0, number)?;
    }
    Ok(())
}

// ---- transactions

// Notes what the record of this number makes of its transaction.
fn note_kept(
    running: &mut BTreeMap<u64, LogTxn>,
    over: &mut BTreeSet<u64>,
    number: Lsn,
    logged: &LogRecord,
) -> Result<(), AllocError>
    ensures running { (t : ℕ) → 0 < t → OnOk result (get nat_cmp running.new t ≡ cond (is_at (nat_cmp logged.now.txn) t)
        (kept_txn_after number logged.now (set.contains nat_cmp over.old logged.now.txn) (get nat_cmp running.old logged.now.txn)) (get nat_cmp running.old t)) }
    ensures nobody { get nat_cmp running.old 0 ≡ None → OnOk result (get nat_cmp running.new 0 ≡ None) }
    ensures over { OnOk result ((t : ℕ) → set.contains nat_cmp over.new t ≡ over_after logged.now t (set.contains nat_cmp over.old t)) }
{
    if logged.payload.is_commit() || logged.payload.is_end() {
        return end(running, over, logged.txn);
    }
    let txn = logged.txn;
    if txn.0 == 0 {
        return Ok(());
    }
    if over.contains(&txn.0) {
        return Ok(());
    }
    go_on_behind(running, number, logged)
}

// Puts the entry of a transaction that goes on by this record.
fn go_on_behind(
    running: &mut BTreeMap<u64, LogTxn>,
    number: Lsn,
    logged: &LogRecord,
) -> Result<(), AllocError>
    ensures { (t : ℕ) → OnOk result (get nat_cmp running.new t ≡ cond (is_at (nat_cmp logged.now.txn) t)
        (Some (entry_behind number logged.now (get nat_cmp running.old logged.now.txn))) (get nat_cmp running.old t)) }
{
    let known = running.get(&logged.txn.0).copied();
    let before = known.unwrap_or(begun_behind(number, logged));
    let entry = entry_by(number, &logged.payload, &before);
    running.insert(logged.txn.0, entry)?;
    Ok(())
}

// The entry of a transaction before its first kept record, which has this number. If its front is cut off, the record names one of it.
fn begun_behind(number: Lsn, logged: &LogRecord) -> LogTxn
    ensures { result ≡ kept_passes.begun_behind number logged.now }
{
    if logged.previous.0 == 0 {
        begun(logged.txn, number)
    } else {
        begun(logged.txn, logged.previous)
    }
}
