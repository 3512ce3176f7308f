//! Where a worker passes, for who watches it or holds it up.

/// A worker.
#[derive(Clone, Copy, PartialEq)]
pub enum Role {
    LogWriter,
    Flusher,
    Checkpointer,
}

/// Where a worker is: before a turn, or before a sync of one. The log writer is there before each of its syncs: before that of a frame's text, and before that of its gate, with which it may
/// write the text of the next. The flusher and the checkpointer are there before each turn of a batch of pages, which makes one sync under the core's lock, or two where the batch was given up; and the
/// checkpointer before each step: what syncs that takes are made under both locks.
#[derive(Clone, Copy, PartialEq)]
pub enum Place {
    Turn(Role),
    Sync(Role),
}

/// What a worker passes before each turn, and before each sync or step of it.
pub trait Gate {
    fn pass(&self, place: Place);
}

/// A gate that stands open.
#[derive(Clone, Copy)]
pub struct Open;

impl Gate for Open {
    fn pass(&self, _place: Place) {}
}
