//! Locks that are asked.
use shore_types::{Granule, Mode, TxnId};

/// What a transaction holds and wants of a granule. A conversion has both.
#[derive(Clone, Copy, PartialEq)]
pub struct Request {
    /// Who asks.
    pub txn: TxnId,
    /// What is asked for.
    pub granule: Granule,
    /// The mode that is held, if any.
    pub held: Option<Mode>,
    /// The mode that is waited for, if any.
    pub wanted: Option<Mode>,
}

/// The groups of a granule's queue, in their order.
#[derive(Clone, Copy, PartialEq)]
pub enum Group {
    Holders,
    Conversions,
    NewWaiters,
}
