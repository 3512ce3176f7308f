//! Where the log ends, in memory and on its device.
use crate::Lsn;

/// The ends of the log, by the numbers of its records.
#[derive(Clone, Copy)]
pub struct LogEnds {
    /// The number of its last record; 0 if it has none.
    pub last: Lsn,
    /// The number up to which its records are durable.
    pub durable: Lsn,
}
