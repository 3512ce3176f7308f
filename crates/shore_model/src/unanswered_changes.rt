//! What a transaction of a list of log records has still to undo.
use shore_types::{Bytes, Lsn, Rid};

/// A Change that no Compensation has answered.
#[derive(Drop)]
pub struct UnansweredChange {
    /// The Change's number.
    pub number: Lsn,
    /// The id that it changed.
    pub id: Rid,
    /// The image before it, which an undo puts back.
    pub before: Option<Bytes>,
}
