//! How far the log goes.
use shore_types::Lsn;

/// What both locks say together.
#[derive(Clone, Copy)]
pub struct Meeting {
    /// The last number of the core's records.
    pub core_end: Lsn,
    /// The last durable number of the log device.
    pub device_end: Lsn,
    /// The number that the seat has seen.
    pub seen: Lsn,
}
