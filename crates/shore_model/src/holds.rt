//! Locks that are held.
use shore_types::{Granule, Mode, TxnId};

/// A transaction holds a granule in a mode.
#[derive(Clone, Copy, PartialEq)]
pub struct Hold {
    /// Who holds it.
    pub txn: TxnId,
    /// What is held.
    pub granule: Granule,
    /// In which mode.
    pub mode: Mode,
}
