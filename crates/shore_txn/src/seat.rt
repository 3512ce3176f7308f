//! Where the transaction of a session is in the table.
use shore_types::{SessionId, TxnId};

/// The place of a session's transaction in the table (`IsSeatIn`), or of one that it resolves: a call looks for it once, and hands it on. It stays right
/// until a transaction is taken out, since a begin puts the new one behind all others.
#[derive(Clone, Copy)]
pub struct Seat {
    /// The session that calls.
    pub session: SessionId,
    /// The transaction.
    pub txn: TxnId,
    /// The index of the transaction, that of the oldest 0.
    pub(crate) index: usize,
}
