//! What one event comes to.
use crate::Answer;
use shore_types::{Fault, Granule, Lsn};

/// What a call waits for.
#[derive(Clone, Copy)]
pub enum Wait {
    /// A lock of this granule.
    Lock(Granule),
    /// The force of the record of its decision, which has this number.
    Durable(Lsn),
}

/// What an event came to.
#[derive(Drop)]
pub enum Step {
    Done(Answer),
    Waits(Wait),
    Refused(Fault),
    /// There was nothing to do, and nothing has changed.
    Nothing,
}
