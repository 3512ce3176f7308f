//! The passes of a restart over its two devices: analysis, redo, undo, and the force of undo's records.
ghost use Rattle.std.specs.Prelude.{◌≡◌, ◌≢◌, ◌⊎◌, ◌<◌, ◌≤◌, [], ℕ, List, IfErr, IfOk, None, OnOk, length};
ghost use Rattle.shore_disk.specs.Cause.{HasCause};
ghost use Rattle.shore_gate.specs.declared.anchors.Anchor.{Anchor};
ghost use Rattle.shore_model.specs.Logs.{IsTable};
ghost use Rattle.shore_types.specs.Layout.{LocksInLimits};
ghost use Rattle.shore_types.specs.declared.layout.TheConstants.{LAST_OPENED};
ghost use Rattle.shore_types.specs.declared.faults.Fault.{Fault};
ghost use Rattle.shore_types.specs.declared.faults.Fault.TheVariants as Fault;
ghost use Rattle.shore_log.specs.Settled.{cut_of_log, records_of_log, waiting};
ghost use Rattle.shore_heap.specs.Heaps.{faults_of, geometry_of};
ghost use Rattle.shore_sessions.specs.Controls.{txns_in};
ghost use Rattle.shore_txn.specs.Transactions.{next_in, room_in};
ghost use Rattle.laws_lives.specs.Recovery.{RecoveryState};
ghost use Rattle.laws_lives.specs.Undo.{HasNoLosers};
ghost use Rattle.shore_analysis.specs.declared.analysis.NotAnalysed.TheVariants as NotAnalysed;
ghost use Rattle.shore_analysis.specs.declared.kept_tables.KeptTables.{KeptTables};
ghost use Rattle.shore_analysis.specs.AnchoredMeant.{AreMeantAnchored, IsFirstUnmeantAnchored};
ghost use Rattle.shore_analysis.specs.KeptMeant.{AreMeantKept};
ghost use Rattle.shore_analysis.specs.KeptTables.{AreKeptTables, IsNextKept, redo_table};
ghost use Rattle.shore_analysis.specs.Padded.{padded};
ghost use Rattle.laws_checkpoints.specs.Checkpoints.{end_among};
ghost use Rattle.shore_restart.specs.Anchors.{HasCheckpoint};
ghost use Rattle.shore_restart.specs.AnyPages.{IsBadOn, MayRead, NoneMisfitsOn, due_seen};
ghost use Rattle.shore_restart.specs.declared.errors.RestartError.{RestartError};
ghost use Rattle.shore_restart.specs.declared.errors.RestartError.TheVariants as RestartError;
ghost use Rattle.shore_restart.specs.Doubts.{IsRefusedBy, IsTaken};
ghost use Rattle.shore_restart.specs.Errors.{log_answer, volume_answer};
ghost use Rattle.shore_restart.specs.GivenBack.{HasDoubtsBack, PassesMove};
ghost use Rattle.shore_restart.specs.Held.{IsHeld, IsPageFault};
ghost use Rattle.shore_restart.specs.Missing.{missing_on};
ghost use Rattle.shore_restart.specs.Quiet.{IsQuiet, StaysQuiet};
ghost use Rattle.shore_restart.specs.Reports.{IsReportOf};
ghost use Rattle.shore_restart.specs.Room.{IsRoomBehind};
ghost use Rattle.shore_restart.specs.Standing.{IsFound, SameLog, SameVolume, log_faults, log_seen, stream_bytes_of};
ghost use Rattle.shore_restart.specs.Turns.{IsBadRecord, IsUndoneSoFar, LacksRoom};

use crate::anchored::is_whole;
use crate::claims::keep_claims;
use crate::doubts::{locks_of, txns_of};
use crate::errors::RestartError;
use crate::found::found_in;
use crate::log_sums::{has_numbers, room_of};
use crate::redo::redo;
use crate::turns::Undo;
use shore_analysis::{KeptTables, Losers, NotAnalysed, analyse_kept, in_doubt};
use shore_disk::Disk;
use shore_heap::Heap;
use shore_log::LogDev;
use shore_logrec::LogRecord;
use shore_sessions::Control;
use shore_types::{Geometry, Lsn};
use std::alloc::Global;

/// What a restart did.
#[derive(Clone, Copy)]
pub struct Report {
    /// How many records the log had from its tail on.
    pub read: u64,
    /// How many of them were missing on their pages.
    pub redone: u64,
    /// How many losers were ended.
    pub undone: u64,
    /// How many transactions are in doubt.
    pub in_doubt: u64,
}

/// What the passes of a restart leave beside the devices.
#[derive(Drop)]
pub struct Passed {
    /// Those in doubt with their locks, the next number, and the room of the log.
    pub control: Control,
    /// How much was redone and undone.
    pub report: Report,
}

/// Gives those in doubt what the log says is theirs, redoes the log that the device has, undoes its losers and forces the records of that. Then the pages keep what
/// those in doubt may put back.
pub fn run_passes<L: Disk, V: Disk>(
    alloc: Global,
    log: &mut LogDev<L>,
    heap: &mut Heap<V>,
    checkpoint: Lsn,
) -> Result<Passed, RestartError>
    requires limits { LocksInLimits (geometry_of heap.old) }
    ensures moves { (log_front front : List ℕ) (anchor : Anchor) (disk : ℕ → List ℕ) (s : RecoveryState) → checkpoint ≡ anchor.checkpoint → IsFound log_front front anchor disk log.old heap.old s
        → PassesMove result log_front front anchor log.old log.new heap.old heap.new s }
    ensures undone { OnOk result (IsUndoneSoFar (log_seen log.old) (log_seen log.new)) }
    ensures done { OnOk result (HasNoLosers (log_seen log.new)) }
    ensures doubts { IfOk result (λ left. HasDoubtsBack (geometry_of heap.old).max_locks (log_seen log.old) left.control) }
    ensures next { IfOk result (λ left. IsNextKept (records_of_log log.old) (end_among checkpoint (records_of_log log.old)) (next_in (txns_in left.control))) }
    ensures room { IfOk result (λ left. IsRoomBehind (cut_of_log log.new) (records_of_log log.new) (stream_bytes_of log.new) (room_in (txns_in left.control))) }
    ensures report { IfOk result (λ left. IsReportOf (cut_of_log log.old) checkpoint (records_of_log log.old) left.report) }
    ensures missing { (log_front front : List ℕ) (anchor : Anchor) (disk : ℕ → List ℕ) (s : RecoveryState) → checkpoint ≡ anchor.checkpoint → IsFound log_front front anchor disk log.old heap.old s
        → IfOk result (λ left. left.report.redone ≡ missing_on s.log s.in_place) }
    ensures bad { (log_front front : List ℕ) (anchor : Anchor) (disk : ℕ → List ℕ) (s : RecoveryState) → checkpoint ≡ anchor.checkpoint → IsFound log_front front anchor disk log.old heap.old s
        → IfErr result (λ error. (n : ℕ) → error ≡ RestartError.BadRecord n → IsBadRecord (geometry_of heap.old) (cut_of_log log.old) checkpoint (records_of_log log.old) s.log n) }
    ensures meant { IfErr result (λ error. error ≢ RestartError.Memory → ((error ≡ RestartError.BadAnchor) × (HasCheckpoint (cut_of_log log.old) checkpoint (records_of_log log.old) → ⊥))
        ⊎ (HasCheckpoint (cut_of_log log.old) checkpoint (records_of_log log.old) × (error ≢ RestartError.BadAnchor) × (IsTaken (geometry_of heap.old) (cut_of_log log.old) checkpoint (records_of_log log.old)
        ⊎ ((n : ℕ) × (error ≡ RestartError.BadRecord n) × IsRefusedBy (geometry_of heap.old) (cut_of_log log.old) checkpoint (records_of_log log.old) n)))) }
    ensures anchored { OnOk result (HasCheckpoint (cut_of_log log.old) checkpoint (records_of_log log.old)) }
    ensures taken { OnOk result (IsTaken (geometry_of heap.old) (cut_of_log log.old) checkpoint (records_of_log log.old)) }
    ensures no_room { IfErr result (λ error. error ≡ RestartError.NoRoom → LacksRoom (cut_of_log log.old) (records_of_log log.old) (stream_bytes_of log.old)) }
    ensures device { (log_front front : List ℕ) (anchor : Anchor) (disk : ℕ → List ℕ) (s : RecoveryState) → checkpoint ≡ anchor.checkpoint → IsFound log_front front anchor disk log.old heap.old s
        → IfErr result (λ error. (f : Fault) → error ≡ RestartError.Page f → f ≡ Fault.Device) }
    ensures log_device { (log_front : List ℕ) → IsQuiet log_front log.old → StaysQuiet result log_front log.old log.new }
    ensures bad_number { IfErr result (λ error. (n : ℕ) → error ≡ RestartError.BadRecord n → (cut_of_log log.old < n) × (n ≤ length (log_seen log.old))) }
    ensures any_pages { (front : List ℕ) (first disk : ℕ → List ℕ) → IsHeld front first disk heap.old [] (length (log_seen log.old))
        → IfErr result (λ error. (f : Fault) → error ≡ RestartError.Page f → IsPageFault (geometry_of heap.old) (MayRead (cut_of_log log.old) checkpoint (records_of_log log.old)) disk (length (log_seen log.old)) f) }
    ensures any_bad { (front : List ℕ) (first disk : ℕ → List ℕ) → IsHeld front first disk heap.old [] (length (log_seen log.old))
        → IfErr result (λ error. (n : ℕ) → error ≡ RestartError.BadRecord n → IsBadOn (geometry_of heap.old) first (cut_of_log log.old) checkpoint (records_of_log log.old) n) }
    ensures any_fit { (front : List ℕ) (first disk : ℕ → List ℕ) → IsHeld front first disk heap.old [] (length (log_seen log.old))
        → OnOk result (NoneMisfitsOn (geometry_of heap.old) first (log_seen log.old) (due_seen (redo_table (end_among checkpoint (records_of_log log.old))) (cut_of_log log.old) (records_of_log log.old)) (log_seen log.new)) }
    ensures volume { SameVolume heap.old heap.new }
    ensures log { SameLog log.old log.new }
    ensures forced { OnOk result (log.old.staged ≡ None → waiting log.new ≡ []) }
    ensures volume_cause { HasCause (volume_answer result) (faults_of heap.old) (faults_of heap.new) }
    ensures log_cause { HasCause (log_answer result) (log_faults log.old) (log_faults log.new) }
{
    let cut = log.cut_off();
    let kept = found_in(log)?;
    if !is_whole(cut, kept, checkpoint) {
        return Err(RestartError::BadAnchor);
    }
    let tables = tables_of(alloc, heap.geometry(), cut, kept, checkpoint)?;
    let doubts = in_doubt(alloc, tables.txns.as_slice())?;
    let locks = locks_of(alloc, heap.geometry(), cut, kept, &doubts)?;
    let Some(room) = room_of(kept, log.stream_bytes()) else {
        return Err(RestartError::NoRoom);
    };
    let mut txns = txns_of(alloc, room, tables.next, cut, kept, &doubts)?;
    if !has_numbers(&txns.room(), log.last()) {
        return Err(RestartError::NoRoom);
    }
    let read = kept.len() as u64;
    let redone = redo(alloc, heap, cut, kept, &tables.redo)?;
    let losers = Losers::of(tables.txns);
    let undone = losers.count() as u64;
    let room = txns.room();
    let mut undo = Undo { losers, room };
    undo.undo_all(alloc, log, heap)?;
    txns.set_room(undo.room);
    keep_claims(alloc, heap, &txns, log.last())?;
    Ok(Passed {
        control: Control::new(alloc, txns, locks),
        report: Report {
            read,
            redone,
            undone,
            in_doubt: doubts.len() as u64,
        },
    })
}

// The tables of a log.
fn tables_of(
    alloc: Global,
    geometry: &Geometry,
    cut: u64,
    kept: &[LogRecord],
    checkpoint: Lsn,
) -> Result<KeptTables, RestartError>
    requires { cut < LAST_OPENED }
    ensures meant { OnOk result (AreMeantKept geometry.now cut kept.now) }
    ensures tables { IfOk result (AreKeptTables cut checkpoint kept.now) }
    ensures txns { IfOk result (λ tables. IsTable (padded cut kept.now) tables.txns) }
    ensures anchored { OnOk result (AreMeantAnchored geometry.now cut checkpoint kept.now) }
    ensures refused { IfErr result (λ error. (error ≡ RestartError.Memory) ⊎ ((n : ℕ) × (error ≡ RestartError.BadRecord n) × IsFirstUnmeantAnchored geometry.now cut checkpoint kept.now n)) }
{
    match analyse_kept(alloc, geometry, cut, checkpoint, kept) {
        Ok(tables) => Ok(tables),
        Err(error) => Err(refusal(error)),
    }
}

// The error that a log has which analysis refuses.
fn refusal(error: NotAnalysed) -> RestartError
    ensures { ((error ≡ NotAnalysed.Memory) × (result ≡ RestartError.Memory)) ⊎ ((n : ℕ) × (error ≡ NotAnalysed.Unlawful n) × (result ≡ RestartError.BadRecord n)) }
{
    match error {
        NotAnalysed::Memory => RestartError::Memory,
        NotAnalysed::Unlawful(number) => RestartError::BadRecord(number),
    }
}
