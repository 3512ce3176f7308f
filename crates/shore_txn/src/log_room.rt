//! The room of the log: what its records cost, and what is reserved for records that must not be refused.
ghost use Rattle.std.specs.Prelude.{◌≡◌, ◌+◌, ◌-◌, ◌≤◌, ◌↔◌, IsTrue, IsSome, IfSome};
ghost use Rattle.shore_types.specs.declared.layout.TheConstants.{GREATEST_CHECKPOINT, LONGEST_FRAME, MAX_LOG_BYTES};

use shore_types::layout::{GREATEST_CHECKPOINT, LONGEST_FRAME, MAX_LOG_BYTES};

/// The sums of costs, in bytes. Each is kept as records come and go, and never computed anew.
#[derive(Clone, Copy)]
pub struct LogRoom {
    /// The length of the log's stream.
    pub stream_bytes: u64,
    /// The costs of all records from the oldest kept number on: `append` adds that of a record.
    pub kept: u64,
    /// What the endings and rollbacks of the transactions in the table would cost: `reserve` adds to it, `release` takes from it.
    pub reserved: u64,
    ghost short: { stream_bytes ≤ MAX_LOG_BYTES },
    ghost within: { kept + reserved ≤ stream_bytes },
}

impl LogRoom {
    /// The room of a log whose records have these costs. `None` if they leave no room for the longest frame.
    pub fn new(stream_bytes: u64, kept: u64) -> Option<LogRoom>
        ensures some { IfSome result (λ room. (room.stream_bytes ≡ stream_bytes) × (room.kept ≡ kept) × (room.reserved ≡ 0)) }
        ensures none { IsSome result ↔ ((stream_bytes ≤ MAX_LOG_BYTES) × (kept + LONGEST_FRAME ≤ stream_bytes)) }
    {
        if stream_bytes > MAX_LOG_BYTES
            || stream_bytes < LONGEST_FRAME
            || kept > stream_bytes - LONGEST_FRAME
        {
            return None;
        }
        Some(LogRoom {
            stream_bytes,
            kept,
            reserved: 0,
        })
    }

    /// Whether so much more, in records and in what is reserved, leaves room for the longest frame and the greatest checkpoint.
    pub fn admits(&self, need: u64) -> bool
        ensures { IsTrue result ↔ (self.now.kept + self.now.reserved + need + LONGEST_FRAME + GREATEST_CHECKPOINT ≤ self.now.stream_bytes) }
    {
        let taken = self.kept + self.reserved + LONGEST_FRAME + GREATEST_CHECKPOINT;
        taken <= self.stream_bytes && need <= self.stream_bytes - taken
    }

    /// Whether so much more leaves room for the longest frame: all that is asked for what an open has found.
    pub fn holds(&self, cost: u64) -> bool
        ensures { IsTrue result ↔ (self.now.kept + self.now.reserved + cost + LONGEST_FRAME ≤ self.now.stream_bytes) }
    {
        let taken = self.kept + self.reserved + LONGEST_FRAME;
        taken <= self.stream_bytes && cost <= self.stream_bytes - taken
    }

    /// The room behind a record more, for which nothing was reserved. `None` if it leaves none for the longest frame.
    pub fn with_record(&self, cost: u64) -> Option<LogRoom>
        ensures some { IfSome result (λ room. (room.stream_bytes ≡ self.now.stream_bytes) × (room.kept ≡ self.now.kept + cost) × (room.reserved ≡ self.now.reserved)) }
        ensures none { IsSome result ↔ (self.now.kept + self.now.reserved + cost + LONGEST_FRAME ≤ self.now.stream_bytes) }
    {
        if !self.holds(cost) {
            return None;
        }
        let mut room = *self;
        room.append(cost);
        Some(room)
    }

    /// Reserves room that was admitted.
    pub fn reserve(&mut self, cost: u64)
        requires { self.old.kept + self.old.reserved + cost ≤ self.old.stream_bytes }
        ensures reserved { self.new.reserved ≡ self.old.reserved + cost }
        ensures others { (self.new.kept ≡ self.old.kept) × (self.new.stream_bytes ≡ self.old.stream_bytes) }
    {
        self.reserved += cost;
    }

    /// A record was appended for which room was admitted.
    pub fn append(&mut self, cost: u64)
        requires { self.old.kept + self.old.reserved + cost ≤ self.old.stream_bytes }
        ensures kept { self.new.kept ≡ self.old.kept + cost }
        ensures others { (self.new.reserved ≡ self.old.reserved) × (self.new.stream_bytes ≡ self.old.stream_bytes) }
    {
        self.kept += cost;
    }

    /// Records that cost so much are no longer kept.
    pub fn free(&mut self, cost: u64)
        ensures kept { self.new.kept ≡ self.old.kept - cost }
        ensures others { (self.new.reserved ≡ self.old.reserved) × (self.new.stream_bytes ≡ self.old.stream_bytes) }
    {
        self.kept = self.kept.saturating_sub(cost);
    }

    /// What was reserved is no longer owed.
    pub fn release(&mut self, cost: u64)
        requires { cost ≤ self.old.reserved }
        ensures reserved { self.new.reserved + cost ≡ self.old.reserved }
        ensures others { (self.new.kept ≡ self.old.kept) × (self.new.stream_bytes ≡ self.old.stream_bytes) }
    {
        self.reserved -= cost;
    }
}
