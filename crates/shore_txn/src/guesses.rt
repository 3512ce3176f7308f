//! Where the transactions of sessions may be in their table.
use crate::active::ActiveTxn;
use shore_types::SessionId;

// The sessions of a program, 1 to 999, have one guess each.
const GUESSES: usize = 1_024;

/// For each session an index, by the low bits of its number: a guess, which nothing is said of. Who takes it looks.
#[derive(Drop)]
pub(crate) struct Guesses {
    /// The low bits of an index, by the low bits of a session's number.
    indices: [u8; GUESSES],
}

impl Guesses {
    pub(crate) fn new() -> Guesses {
        Guesses {
            indices: [0; GUESSES],
        }
    }

    /// The index where the session's transaction was last.
    pub(crate) fn of(&self, session: SessionId) -> usize {
        usize::from(self.indices[session.0 as usize % GUESSES])
    }

    /// The session's transaction is at this index.
    pub(crate) fn note(&mut self, session: SessionId, index: usize) {
        self.indices[session.0 as usize % GUESSES] = (index % 256) as u8;
    }

    /// The transactions from this index on are where they are.
    pub(crate) fn note_from(&mut self, active: &[ActiveTxn], from: usize) {
        for index in from..active.len() {
            self.note(active[index].txn().session(), index);
        }
    }
}
