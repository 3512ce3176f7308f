//! The room that a checkpoint asks of the log.
ghost use Rattle.std.specs.Prelude.{◌↔◌, IsTrue};
ghost use Rattle.laws_checkpoints.specs.RingRooms.{AdmitsCheckpoint};

use shore_types::Lsn;
use shore_types::layout::{GREATEST_CHECKPOINT, LAST_LSN, LONGEST_FRAME};
use std::marker::Model;

/// The sums of costs of a log, in bytes, and the number of its last record.
#[derive(Clone, Copy)]
pub struct Sums {
    /// The length of the log's stream.
    pub stream_bytes: u64,
    /// The costs of all records from the tail on.
    pub kept: u64,
    /// What the endings and rollbacks of the transactions in the table would cost.
    pub reserved: u64,
    /// The number of the last record, 0 for none.
    pub last: Lsn,
}

impl Model for Sums {
    ghost use Rattle.laws_room.specs.LogRooms.{LogRoom};

    ghost Value = { LogRoom };

    ghost view = { λ s. record { kept = s.kept; reserved = s.reserved; stream_bytes = s.stream_bytes; last_lsn = s.last } };

    ghost inverse = { λ r. record { stream_bytes = r.stream_bytes; kept = r.kept; reserved = r.reserved; last = r.last_lsn } };
}

impl Sums {
    /// Whether a checkpoint of this cost may begin, and is not LogFull, if the forced frames that lie wholly below the tail that it will name cost so
    /// much. It has its room before they are freed; and once they are, a next one has.
    pub fn admits_checkpoint(&self, cost: u64, freed: u64) -> bool
        ensures { IsTrue result ↔ AdmitsCheckpoint self.now cost freed }
    {
        let behind = u128::from(self.kept)
            + u128::from(self.reserved)
            + u128::from(cost)
            + u128::from(LONGEST_FRAME);
        let room = u128::from(self.stream_bytes);
        self.last.0 < LAST_LSN
            && behind <= room
            && behind + u128::from(GREATEST_CHECKPOINT) <= room + u128::from(freed)
    }
}
