//! The records of the log.
ghost use Rattle.std.specs.Prelude.{◌≡◌, ◌↔◌, IsTrue};
ghost use Rattle.shore_model.specs.declared.log_records.Payload.{Payload};
ghost use Rattle.shore_model.specs.Logs as logs;

use shore_types::{Bytes, GlobalId, Granule, Lsn, PageId, Rid, Sequence, TxnId};

/// What a checkpoint says of a transaction's state.
#[derive(Clone, Copy, PartialEq)]
pub enum TxnState {
    Active,
    Prepared,
    RollingBack,
}

impl TxnState {
    pub fn is_prepared(self) -> bool
        ensures { result ≡ logs.is_prepared self }
    {
        matches!(self, TxnState::Prepared)
    }
}

/// A transaction in the table of a checkpoint: an entry of the transaction table (first, LastLSN, UndoNxtLSN, state).
#[derive(Clone, Copy, PartialEq)]
pub struct LogTxn {
    /// Its number.
    pub txn: TxnId,
    /// How far it has come.
    pub state: TxnState,
    /// The number of its first record.
    pub first: Lsn,
    /// The number of its last record (LastLSN).
    pub last: Lsn,
    /// The number of its Change to be undone next (UndoNxtLSN), 0 for none.
    pub undo_next: Lsn,
    /// The number of its Prepare, 0 if none.
    pub prepare: Lsn,
}

/// A page in the table of a checkpoint: an entry of the dirty page table. Redo of it begins at this number (RecLSN).
#[derive(Clone, Copy, PartialEq)]
pub struct DirtyPage {
    /// The page.
    pub page: PageId,
    /// The number of the first record that the volume may lack of it (RecLSN).
    pub recovery: Lsn,
}

/// What a record says.
#[derive(Drop, PartialEq)]
pub enum Payload {
    Change {
        id: Rid,
        before: Option<Bytes>,
        after: Option<Bytes>,
    },
    Compensation {
        id: Rid,
        after: Option<Bytes>,
        undo_next: Lsn,
    },
    Commit,
    End,
    Prepare {
        global: GlobalId,
        granules: Sequence<Granule>,
    },
    RollbackDecided,
    CheckpointBegin,
    CheckpointEnd {
        begin: Lsn,
        next: TxnId,
        txns: Sequence<LogTxn>,
        dirty: Sequence<DirtyPage>,
    },
    Anchor {
        checkpoint: Lsn,
        tail: Lsn,
    },
}

impl Payload {
    pub fn is_commit(&self) -> bool
        ensures { result ≡ logs.is_commit self.now }
    {
        matches!(self, Payload::Commit)
    }

    pub fn is_end(&self) -> bool
        ensures { result ≡ logs.is_end self.now }
    {
        matches!(self, Payload::End)
    }

    pub fn is_prepare(&self) -> bool
        ensures { result ≡ logs.is_prepare self.now }
    {
        matches!(self, Payload::Prepare { .. })
    }

    pub fn is_rollback(&self) -> bool
        ensures { result ≡ logs.is_rollback self.now }
    {
        matches!(self, Payload::RollbackDecided)
    }

    pub fn is_checkpoint_begin(&self) -> bool
        ensures { IsTrue result ↔ (self.now ≡ Payload.CheckpointBegin) }
    {
        matches!(self, Payload::CheckpointBegin)
    }

    /// The record is a checkpoint's, and of no transaction.
    pub fn is_of_checkpoint(&self) -> bool
        ensures { result ≡ logs.is_of_checkpoint self.now }
    {
        matches!(
            self,
            Payload::CheckpointBegin | Payload::CheckpointEnd { .. } | Payload::Anchor { .. }
        )
    }

    /// The id that the record changes.
    pub fn id(&self) -> Option<Rid>
        ensures { result ≡ logs.id_in self.now }
    {
        match self {
            Payload::Change { id, .. } | Payload::Compensation { id, .. } => Some(*id),
            _ => None,
        }
    }
}

/// A record: its transaction (0 for a checkpoint's), the number of that transaction's record before it (PrevLSN, 0 if none), and
/// what it says. A Change is an update record with its undo and redo images, a Compensation a CLR with its UndoNxtLSN.
#[derive(Drop, PartialEq)]
pub struct LogRecord {
    /// The transaction's number, 0 for a record of a checkpoint.
    pub txn: TxnId,
    /// The number of that transaction's record before it (PrevLSN), 0 if it is the first.
    pub previous: Lsn,
    /// What the record says.
    pub payload: Payload,
}
