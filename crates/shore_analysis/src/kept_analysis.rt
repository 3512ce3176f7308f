//! Analysis of a log whose front may be cut off.
ghost use Rattle.std.specs.Prelude.{◌≡◌, ◌<◌, [], ℕ, None, Some, IfErr, IfOk, IfNone, IfSome, OnOk, is_some, length};
ghost use Rattle.shore_types.specs.declared.layout.Geometry.{Geometry};
ghost use Rattle.shore_types.specs.declared.layout.TheConstants.{LAST_OPENED};
ghost use Rattle.laws_checkpoints.specs.Checkpoints.{Checkpoint, end_among, end_in};
ghost use Rattle.shore_analysis.specs.declared.analysis.NotAnalysed.TheVariants.{Memory, Unlawful};
ghost use Rattle.shore_analysis.specs.AnchoredMeant.{AreMeantAnchored, IsFirstUnmeantAnchored};
ghost use Rattle.shore_analysis.specs.KeptMeant.{AreMeantKept};
ghost use Rattle.shore_analysis.specs.KeptPasses.{AreMeantUpTo, IsFirstOf, IsFirstRefused, KnowsAwaited, KnowsEnds, KnowsKept};
ghost use Rattle.shore_analysis.specs.KeptTables.{AreKeptTables, next_told, redo_table};

use crate::analysis::NotAnalysed;
use crate::anchored_end::{place_of_end, unended_end};
use crate::kept_passes::{KeptPass, earlier};
use crate::kept_tables::{KeptTables, RedoTable};
use crate::passes::list_txns;
use shore_model::{LogRecord, Payload};
use shore_types::{Geometry, Lsn, Sequence, TxnId};
use std::alloc::{AllocError, Global};

/// The tables of a log whose first `cut` records are cut off, by the others and the anchored checkpoint, whose begin has this number, 0 if there is none.
/// One pass; if a record does not mean what it has to, the rest is read for who has ended, since a record before it may have taken one to have ended that
/// has not. So may the anchored checkpoint's End, which lists who had not ended as the checkpoint began.
pub fn analyse_kept(
    alloc: Global,
    geometry: &Geometry,
    cut: u64,
    checkpoint: Lsn,
    kept: &[LogRecord],
) -> Result<KeptTables, NotAnalysed>
    requires { cut < LAST_OPENED }
    ensures meant { IfOk result (λ tables. AreMeantKept geometry.now cut kept.now) }
    ensures tables { IfOk result (AreKeptTables cut checkpoint kept.now) }
    ensures anchored { IfOk result (λ tables. AreMeantAnchored geometry.now cut checkpoint kept.now) }
    ensures unlawful { IfErr result (λ error. (n : ℕ) → error ≡ Unlawful n → IsFirstUnmeantAnchored geometry.now cut checkpoint kept.now n) }
{
    let mut pass = KeptPass::new(alloc);
    let refused = judge(&mut pass, geometry, cut, kept)?;
    let awaited = pass.first_awaited();
    let unended = unended_end(&pass, cut, checkpoint, kept);
    let unmeant = first_of(refused, awaited);
    match first_of(unmeant, unended) {
        Some(number) => Err(NotAnalysed::Unlawful(number)),
        None => tables_of(alloc, checkpoint, kept, &pass),
    }
}

// The tables of kept records that a pass has taken in.
fn tables_of(
    alloc: Global,
    checkpoint: Lsn,
    kept: &[LogRecord],
    pass: &KeptPass,
) -> Result<KeptTables, NotAnalysed>
    ensures tables { (g : Geometry) (cut : ℕ) → KnowsKept g cut kept.now pass.now → AreMeantKept g cut kept.now → IfOk result (AreKeptTables cut checkpoint kept.now) }
    ensures memory { IfErr result (λ error. error ≡ Memory) }
{
    let (redo, next) = told_by_end(alloc, checkpoint, kept)?;
    let txns = list_txns(alloc, &pass.running)?;
    Ok(KeptTables {
        txns,
        redo,
        next: TxnId(next.0.max(pass.next)),
    })
}

// Takes the records in up to the first that does not mean what it has to as far as those before it tell, and of the rest who has ended.
fn judge(
    pass: &mut KeptPass,
    geometry: &Geometry,
    cut: u64,
    kept: &[LogRecord],
) -> Result<Option<Lsn>, AllocError>
    requires cut { cut < LAST_OPENED }
    requires knows { KnowsKept geometry.now cut [] pass.old }
    requires none { KnowsAwaited cut kept.now 0 pass.old }
    ensures all { IfOk result (λ refused. IfNone refused (KnowsKept geometry.now cut kept.now pass.new × AreMeantUpTo geometry.now cut kept.now (length kept.now))) }
    ensures first { IfOk result (λ refused. IfSome refused (IsFirstRefused geometry.now cut kept.now pass.new)) }
    ensures ends { OnOk result (KnowsEnds cut kept.now pass.new) }
    ensures awaited { IfOk result (λ refused. IfNone refused (KnowsAwaited cut kept.now (length kept.now) pass.new)) }
{
    for index in 0..kept.len() {
        let before = &kept[..index];
        let logged = &kept[index];
        if !pass.is_meant(geometry, cut, before, logged) {
            pass.note_rest(&kept[index..])?;
            return Ok(Some(Lsn(cut + 1 + index as u64)));
        }
        pass.take_in(cut, before, logged)?;
        if pass.is_crowded() {
            pass.note_rest(&kept[index + 1..])?;
            return Ok(Some(Lsn(cut + 1 + index as u64)));
        }
    }
    Ok(None)
}

// The lesser of two numbers, of those that are there.
fn first_of(one: Option<Lsn>, other: Option<Lsn>) -> Option<Lsn>
    ensures { IsFirstOf one other result }
{
    let Some(number) = one else {
        return other;
    };
    Some(earlier(other, number))
}

// What the anchored checkpoint's End says that redo needs, and its next number; 0 if there is none.
fn told_by_end(
    alloc: Global,
    checkpoint: Lsn,
    kept: &[LogRecord],
) -> Result<(RedoTable, TxnId), AllocError>
    ensures redo { IfOk result (λ told. told.0 ≡ redo_table (end_among checkpoint kept.now)) }
    ensures next { IfOk result (λ told. told.1 ≡ next_told (end_among checkpoint kept.now)) }
{
    let Some(index) = place_of_end(checkpoint, kept) else {
        return no_end(alloc);
    };
    let logged = &kept[index];
    told_by(alloc, &logged.payload)
}

fn no_end(alloc: Global) -> Result<(RedoTable, TxnId), AllocError>
    ensures redo { IfOk result (λ told. told.0 ≡ redo_table None) }
    ensures next { IfOk result (λ told. told.1 ≡ 0) }
{
    let redo = RedoTable {
        begin: Lsn(0),
        dirty: Sequence::new(alloc),
    };
    Ok((redo, TxnId(0)))
}

// What it says, if it is an End.
fn told_by(alloc: Global, payload: &Payload) -> Result<(RedoTable, TxnId), AllocError>
    ensures { IfOk result (λ told. (checkpoint : ℕ) (c : Checkpoint) → end_in checkpoint payload.now ≡ Some c → (told.0 ≡ redo_table (Some c)) × (told.1 ≡ c.next)) }
{
    match payload {
        Payload::CheckpointEnd {
            begin,
            next,
            dirty,
            ..
        } => {
            let redo = RedoTable {
                begin: *begin,
                dirty: dirty.try_clone(alloc)?,
            };
            Ok((redo, *next))
        }
        Payload::Change { .. } => no_end(alloc),
        Payload::Compensation { .. } => no_end(alloc),
        Payload::Commit => no_end(alloc),
        Payload::End => no_end(alloc),
        Payload::Prepare { .. } => no_end(alloc),
        Payload::RollbackDecided => no_end(alloc),
        Payload::CheckpointBegin => no_end(alloc),
        Payload::Anchor { .. } => no_end(alloc),
    }
}
