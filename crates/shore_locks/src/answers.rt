//! What requests for locks are answered.
use shore_types::{Mode, TxnId};

/// What became of a request. Full: it needs a new node, and the table is at its limit.
#[derive(Clone, Copy, PartialEq)]
pub enum Requested {
    Granted,
    Waiting,
    Full,
}

/// What became of a request that never waits. Blocked: it would have waited for this transaction.
#[derive(Clone, Copy, PartialEq)]
pub enum Tried {
    Granted,
    Blocked(TxnId),
    Full,
}

/// The modes in which a transaction holds a page, its store and the volume.
#[derive(Clone, Copy)]
pub struct HeldAbove {
    /// That of the volume.
    pub volume: Mode,
    /// That of the store.
    pub store: Mode,
    /// That of the page.
    pub page: Mode,
}
