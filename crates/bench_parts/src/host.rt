//! What works have of the machine: memory, and a clock.
use std::alloc::Global;
use std::io;
use std::time::Instant;

/// Memory, and a clock that begins with a run.
#[derive(Clone, Copy)]
pub struct Host<'a> {
    /// What gives memory, files and the clock.
    pub rt: &'a HostRuntime,
    // When the run began.
    start: Instant,
}

impl Host<'_> {
    pub fn new(rt: &HostRuntime) -> io::Result<Host<'_>> {
        let start = Instant::now(rt)?;
        Ok(Host { rt, start })
    }

    pub fn alloc(&self) -> Global {
        self.rt.alloc()
    }

    /// The nanoseconds so far: the greatest number if the clock cannot be read, which is the time of no run.
    pub fn nanos(&self) -> u64 {
        match self.start.elapsed(self.rt) {
            Ok(time) => u64::try_from(time.as_nanos()).unwrap_or(u64::MAX),
            Err(_) => u64::MAX,
        }
    }

    /// The nanoseconds since a moment.
    pub fn nanos_since(&self, moment: u64) -> u64 {
        self.nanos().saturating_sub(moment)
    }

    /// The nanoseconds of each of so many rounds since a moment.
    pub fn nanos_of_a_round(&self, moment: u64, rounds: u64) -> u64 {
        self.nanos_since(moment) / rounds.max(1)
    }
}
