//! What a session asks, and what it is answered.
ghost use Rattle.std.specs.Prelude.{◌≡◌, IfOk};

use shore_types::{
    Bytes, Fault, GlobalId, Granule, Lsn, Mode, Pairs, Rid, Sequence, StoreId, Ticket, TxnId,
};
use std::alloc::{AllocError, Global};

/// How a transaction ends.
#[derive(Clone, Copy)]
pub enum Outcome {
    Commit,
    Abort,
}

/// What a session asks.
#[derive(Drop)]
pub enum Call {
    Begin,
    Get(Rid),
    GetForUpdate(Rid),
    Insert(StoreId, Bytes),
    Update(Rid, Bytes),
    Delete(Rid),
    Scan(StoreId),
    Lock(Granule, Mode),
    TryLock(Granule, Mode),
    Savepoint,
    BackTo(usize),
    Commit,
    Abort,
    Prepare(GlobalId),
    Resolve(GlobalId, Outcome),
    InDoubt,
}

impl Call {
    /// A second call that asks the same.
    pub fn try_clone(&self, alloc: Global) -> Result<Call, AllocError>
        ensures { IfOk result (λ call. call ≡ self.now) }
    {
        Ok(match self {
            Call::Begin => Call::Begin,
            Call::Get(id) => Call::Get(*id),
            Call::GetForUpdate(id) => Call::GetForUpdate(*id),
            Call::Insert(store, bytes) => Call::Insert(*store, bytes.try_clone(alloc)?),
            Call::Update(id, bytes) => Call::Update(*id, bytes.try_clone(alloc)?),
            Call::Delete(id) => Call::Delete(*id),
            Call::Scan(store) => Call::Scan(*store),
            Call::Lock(granule, mode) => Call::Lock(*granule, *mode),
            Call::TryLock(granule, mode) => Call::TryLock(*granule, *mode),
            Call::Savepoint => Call::Savepoint,
            Call::BackTo(index) => Call::BackTo(*index),
            Call::Commit => Call::Commit,
            Call::Abort => Call::Abort,
            Call::Prepare(global) => Call::Prepare(global.try_clone(alloc)?),
            Call::Resolve(global, outcome) => Call::Resolve(global.try_clone(alloc)?, *outcome),
            Call::InDoubt => Call::InDoubt,
        })
    }
}

/// What is answered: a variant for each call, and one for each step that no session asks for.
#[derive(Drop)]
pub enum Answer {
    Began(TxnId),
    Got(Bytes),
    Inserted(Rid),
    Updated,
    Deleted,
    Scanned(Pairs),
    Locked,
    Saved(usize),
    WentBack,
    /// The commit's record is appended, under this number. Whether it is durable an `Asked` says.
    Committed(Ticket),
    Aborted,
    Prepared,
    Resolved,
    AreInDoubt(Sequence<(GlobalId, TxnId)>),
    Staged(Lsn),
    Forced(Lsn),
    Flushed(usize),
    Begun(Lsn),
    Ended(Lsn),
    Anchored { checkpoint: Lsn, tail: Lsn },
    Moved,
    Cut,
    IsDurable(bool),
}

/// A call with its answer, or the fault that it was refused with.
#[derive(Drop)]
pub struct Exchange {
    /// What was asked.
    pub call: Call,
    /// What it was answered.
    pub reply: Result<Answer, Fault>,
}
