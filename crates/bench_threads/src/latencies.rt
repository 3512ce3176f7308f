//! How long commits took, counted by lengths.

// A length is told up to this, in nanoseconds.
const STEP: u64 = 250_000;

const STEPS: usize = 128;

/// How many took so long: each place is of a quarter of a millisecond more, and the last one of all that took longer.
#[derive(Clone, Copy)]
pub struct Latencies {
    counts: [u32; STEPS],
}

impl Latencies {
    pub fn new() -> Latencies {
        Latencies { counts: [0; STEPS] }
    }

    /// One more took so many nanoseconds.
    pub fn note(&mut self, nanos: u64) {
        let step = usize::try_from(nanos / STEP).unwrap_or(STEPS);
        self.count(step.min(STEPS - 1), 1);
    }

    /// Those of another are counted too.
    pub fn join(&mut self, other: &Latencies) {
        for step in 0..STEPS {
            if let Some(count) = other.counts.get(step) {
                self.count(step, *count);
            }
        }
    }

    fn count(&mut self, step: usize, more: u32) {
        if let Some(count) = self.counts.get_mut(step) {
            *count = count.saturating_add(more);
        }
    }

    fn all(&self) -> u64 {
        let mut all = 0u64;
        for count in &self.counts {
            all = all.saturating_add(*count as u64);
        }
        all
    }

    /// So many of a hundred took no longer than this, in microseconds. None if nothing was timed.
    pub fn percentile(&self, part: u64) -> Option<u64> {
        let all = self.all();
        if all == 0 {
            return None;
        }
        let mut passed = 0u64;
        for step in 0..STEPS {
            if let Some(count) = self.counts.get(step) {
                passed = passed.saturating_add(*count as u64);
            }
            if passed.saturating_mul(100) >= all.saturating_mul(part) {
                return Some((step as u64 + 1) * STEP / 1_000);
            }
        }
        None
    }
}
