//! How far a transaction has come that has not ended, by its entry.
ghost use Rattle.std.specs.Prelude.{◌≡◌};
ghost use Rattle.shore_analysis.specs.Passes as passes;
ghost use Rattle.shore_analysis.specs.Passes.{phase_by, progress_by};

use shore_model::{LogTxn, Payload, TxnState};
use shore_types::{Lsn, TxnId};

/// How far a transaction has come.
#[derive(Clone, Copy)]
pub(crate) struct Progress {
    /// The number of its last record.
    pub(crate) last: Lsn,
    /// The number of its Change to be undone next.
    pub(crate) newest: Lsn,
    /// Which records may follow.
    pub(crate) phase: Phase,
}

/// Which records of a transaction may follow.
#[derive(Clone, Copy)]
pub(crate) enum Phase {
    /// It has no Prepare.
    Free,
    /// It is in doubt: only a decision follows.
    InDoubt,
    /// It has a Rollback decided: only its undo follows, and its End.
    Decided,
}

impl Phase {
    pub(crate) fn is_free(self) -> bool
        ensures { result ≡ passes.is_free self }
    {
        matches!(self, Phase::Free)
    }

    pub(crate) fn is_doubtful(self) -> bool
        ensures { result ≡ passes.is_doubtful self }
    {
        matches!(self, Phase::InDoubt)
    }

    pub(crate) fn is_decided(self) -> bool
        ensures { result ≡ passes.is_decided self }
    {
        matches!(self, Phase::Decided)
    }
}

/// How far a transaction with this entry has come.
pub(crate) fn progress_of(entry: &LogTxn) -> Progress
    ensures { result ≡ progress_by entry.now }
{
    Progress {
        last: entry.last,
        newest: entry.undo_next,
        phase: phase_of(entry),
    }
}

fn phase_of(entry: &LogTxn) -> Phase
    ensures { result ≡ phase_by entry.now }
{
    if entry.state.is_prepared() {
        Phase::InDoubt
    } else if entry.prepare.0 == 0 {
        Phase::Free
    } else {
        Phase::Decided
    }
}

/// The entry of a transaction whose first record has this number, before that record.
pub(crate) fn begun(txn: TxnId, first: Lsn) -> LogTxn
    ensures { result ≡ passes.begun txn first }
{
    LogTxn {
        txn,
        state: TxnState::Active,
        first,
        last: Lsn(0),
        undo_next: Lsn(0),
        prepare: Lsn(0),
    }
}

/// The entry of a transaction that goes on by the record of this number.
pub(crate) fn entry_by(number: Lsn, payload: &Payload, before: &LogTxn) -> LogTxn
    ensures { result ≡ passes.entry_by number payload.now before.now }
{
    LogTxn {
        txn: before.txn,
        state: state_after(payload),
        first: before.first,
        last: number,
        undo_next: undo_next_after(number, payload, before.undo_next),
        prepare: prepare_after(number, payload, before.prepare),
    }
}

// The state of a transaction that has not ended and whose last record says this.
fn state_after(payload: &Payload) -> TxnState
    ensures { result ≡ passes.state_after payload.now }
{
    match payload {
        Payload::Compensation { .. } | Payload::RollbackDecided => TxnState::RollingBack,
        Payload::Prepare { .. } => TxnState::Prepared,
        Payload::Change { .. }
        | Payload::Commit
        | Payload::End
        | Payload::CheckpointBegin
        | Payload::CheckpointEnd { .. }
        | Payload::Anchor { .. } => TxnState::Active,
    }
}

// The number of the Change to be undone next. A Prepare and a Rollback decided undo nothing, and leave nothing more to be undone.
fn undo_next_after(number: Lsn, payload: &Payload, was: Lsn) -> Lsn
    ensures { result ≡ passes.undo_next_after number payload.now was }
{
    match payload {
        Payload::Change { .. } => number,
        Payload::Compensation { undo_next, .. } => *undo_next,
        Payload::Prepare { .. } | Payload::RollbackDecided => was,
        Payload::Commit
        | Payload::End
        | Payload::CheckpointBegin
        | Payload::CheckpointEnd { .. }
        | Payload::Anchor { .. } => Lsn(0),
    }
}

// The number of a transaction's Prepare, 0 if it has none.
fn prepare_after(number: Lsn, payload: &Payload, was: Lsn) -> Lsn
    ensures { result ≡ passes.prepare_after number payload.now was }
{
    match payload {
        Payload::Prepare { .. } => number,
        Payload::Change { .. }
        | Payload::Compensation { .. }
        | Payload::Commit
        | Payload::End
        | Payload::RollbackDecided
        | Payload::CheckpointBegin
        | Payload::CheckpointEnd { .. }
        | Payload::Anchor { .. } => was,
    }
}
