//! The state of a session.
use shore_types::TxnId;

/// The state of a session: its transaction, 0 if it has none, and whether that is prepared.
#[derive(Clone, Copy)]
pub struct SessionState {
    /// The session's transaction, 0 if it has none.
    pub txn: TxnId,
    /// Whether that transaction is prepared.
    pub prepared: bool,
}
