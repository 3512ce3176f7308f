//! The works over files, and what a run of one is asked for.
use bench_parts::host::Host;
use bench_parts::layout::{log_bytes_for, pages_for};
use shore_types::layout::MAX_LOG_BYTES;

/// The most records that updates go round.
const UPDATED_RECORDS: u64 = 1_000;

/// The log of `Ring`.
pub const RING_LOG_BYTES: u64 = 4 << 20;

/// All works over files, by their names, with how many calls are made if nothing is said.
pub const WORKS: [(&str, (Work, u64)); 15] = [
    ("durable", (Work::Durable, 1_000)),
    ("lazy", (Work::Lazy, 100_000)),
    ("insert", (Work::Insert, 100_000)),
    ("scan", (Work::Scan, 100_000)),
    ("scan_parts", (Work::ScanParts, 100_000)),
    ("crash", (Work::Crash, 1_000)),
    ("recover", (Work::Recover, 1_000)),
    ("verify", (Work::Verify, 1_000)),
    ("lose", (Work::Lose, 1_000)),
    ("undo", (Work::Undo, 1_000)),
    ("ring", (Work::Ring, 1_000_000)),
    ("ring_open", (Work::RingOpen, 1_000_000)),
    ("whole", (Work::Whole, 1_000_000)),
    ("full", (Work::Full, 1_000_000)),
    ("full_open", (Work::FullOpen, 1_000_000)),
];

/// What a run does. All but those that tell of an open make both files anew, with records in one transaction that is committed; these open what a crash left.
#[derive(Clone, Copy)]
pub enum Work {
    /// Updates, each in a transaction that is answered once it is durable, in turns with a plain write and sync of as many bytes.
    Durable,
    /// Updates, each in a transaction that is committed lazily, and a force behind each hundred.
    Lazy,
    /// Nothing more: the records are what is measured.
    Insert,
    /// A scan of all records.
    Scan,
    /// The same in parts, by one list.
    ScanParts,
    /// Updates as `Durable` makes, and one more that is not committed. The files are left as they are then: no call closes a manager.
    Crash,
    /// Updates in one transaction that is not committed, all of them written back. The files are left as they are then.
    Lose,
    /// How long the open took.
    Recover,
    /// What the open shows, against what was acknowledged.
    Verify,
    /// How long the open of what `Lose` left took, which undoes all of it, and whether it shows the records as they were before.
    Undo,
    /// Updates in transactions of a hundred, through a log of four megabytes, with a flush and a checkpoint whenever half of it is used. The files are left as they are then.
    Ring,
    /// How long the open of what `Ring` left took.
    RingOpen,
    /// The updates of `Ring`, through a log that holds all of them, with no checkpoint.
    Whole,
    /// Such updates through the longest log there may be, until it is full, with no checkpoint. The files are left as they are then.
    Full,
    /// How long the open of what `Full` left took.
    FullOpen,
}

/// How long records are, how many calls are made, and where the files are.
#[derive(Clone, Copy)]
pub struct Plan<'a> {
    /// Memory and clock.
    pub host: Host<'a>,
    /// What is measured.
    pub work: Work,
    /// How many bytes each record has.
    pub size: usize,
    /// How many calls are made.
    pub count: u64,
    /// Where the files lie.
    pub folder: &'a str,
}

impl Plan<'_> {
    /// How long the log is to be.
    pub fn log_bytes(&self) -> u64 {
        match self.work {
            Work::Ring => RING_LOG_BYTES,
            Work::Full => MAX_LOG_BYTES,
            _ => log_bytes_for(self.count, self.size),
        }
    }

    /// How many pages the volume is to have.
    pub fn pages(&self) -> u32 {
        match self.work {
            Work::Ring | Work::Whole | Work::Full => pages_for(self.updated_records(), self.size),
            _ => pages_for(self.count, self.size),
        }
    }

    /// How many records updates go round.
    pub fn updated_records(&self) -> u64 {
        self.count.min(UPDATED_RECORDS)
    }
}
