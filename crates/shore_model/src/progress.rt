//! A transaction that runs alone.
use crate::RidMap;
use shore_types::{Bytes, Sequence};

/// How far a transaction has come: what it has written, and what it had written at each savepoint that is left.
#[derive(Drop)]
pub struct Progress {
    /// The image that it has last written at each id.
    pub writes: RidMap<Option<Bytes>>,
    /// What `writes` was at each savepoint that is left, the oldest first.
    pub saved: Sequence<RidMap<Option<Bytes>>>,
}
