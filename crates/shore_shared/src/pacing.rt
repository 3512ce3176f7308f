//! How long the log writer gathers, by what its last forces took; and how long a flush leaves the core's lock free, by how long it had it.
ghost use Rattle.std.specs.Prelude.{◌≡◌, ◌↔◌, ◌⊎◌, ◌*◌, ◌-◌, ◌≤◌, ◌<◌, ℕ, None, IfNone, IfSome, IsTrue, Some};

use std::time::{Clock, Duration};

// A force counts for so much of the mean as this part of it.
const WEIGHT: u64 = 4;

// The log writer gathers for no more than this part of what a force takes.
const PART: u64 = 4;

// A shorter time than this, in microseconds, is not worth a sleep.
const LEAST_MICROS: u64 = 100;

// As long as nobody came while it gathered so, so many turns do without.
const SPARES: u32 = 7;

// How long a flush leaves the core's lock free at least, in microseconds: longer than who finds it taken naps, or its holds are one in effect. And at most.
const LEAST_FREE: u64 = 400;

const MOST_FREE: u64 = 20_000;

/// What a clock shows, in microseconds from its start. None if it cannot be read.
pub(crate) fn moment(clock: &impl Clock) -> Option<u64> {
    match clock.monotonic() {
        Ok(time) => u64::try_from(time.as_micros()).ok(),
        Err(_) => None,
    }
}

/// What the log writer knows of its forces.
#[derive(Clone, Copy)]
pub(crate) struct Pace {
    // What a force takes: a running mean, in microseconds.
    mean: u64,
    // How many turns to come do without.
    spared: u32,
    // Whether the last frame had no place for all that was there to be forced: then as much waits as one more holds.
    is_full: bool,
}

impl Pace {
    pub(crate) fn new() -> Pace {
        Pace {
            mean: 0,
            spared: 0,
            is_full: false,
        }
    }

    // A force took the time between these moments.
    pub(crate) fn note_force(&mut self, began: Option<u64>, ended: Option<u64>) {
        let (Some(began), Some(ended)) = (began, ended) else {
            return;
        };
        let took = ended.saturating_sub(began);
        let kept = self.mean.saturating_sub(self.mean / WEIGHT);
        self.mean = kept.saturating_add(took / WEIGHT);
    }

    // Records up to a number were there, and those up to another are durable.
    pub(crate) fn note_frame(&mut self, taken: u64, durable: u64)
        ensures full { IsTrue self.new.is_full ↔ (durable < taken) }
        ensures same { (self.new.mean ≡ self.old.mean) × (self.new.spared ≡ self.old.spared) }
    {
        self.is_full = durable < taken;
    }

    // Whether a frame that is full waits for the next turn.
    pub(crate) fn has_more(&self) -> bool
        ensures { result ≡ self.now.is_full }
    {
        self.is_full
    }

    // How many microseconds a turn gathers that begins now, if it pays.
    pub(crate) fn gathers_for(&mut self) -> Option<u64>
        ensures pays { IfSome result (λ most. (LEAST_MICROS ≤ most) × (most * PART ≤ self.old.mean) × (self.old.spared ≡ 0)) }
        ensures none { IfNone result ((self.old.mean < LEAST_MICROS * PART) ⊎ (0 < self.old.spared)) }
        ensures same { (self.new.mean ≡ self.old.mean) × (self.new.is_full ≡ self.old.is_full) }
    {
        let most = self.mean / PART;
        if most < LEAST_MICROS {
            return None;
        }
        if self.spared > 0 {
            self.spared -= 1;
            return None;
        }
        Some(most)
    }

    // Whether anybody came meanwhile.
    pub(crate) fn note_gathered(&mut self, has_paid: bool)
        ensures spares { IsTrue has_paid ↔ (self.new.spared ≡ 0) }
        ensures same { (self.new.mean ≡ self.old.mean) × (self.new.is_full ≡ self.old.is_full) }
    {
        self.spared = if has_paid { 0 } else { SPARES };
    }
}

/// What is left of so many microseconds since a moment. None if nothing is, or if the clock cannot be read.
pub(crate) fn left_of(clock: &impl Clock, most: u64, began: u64) -> Option<Duration> {
    let spent = moment(clock)?.saturating_sub(began);
    if spent < most {
        Some(Duration::from_micros(most - spent))
    } else {
        None
    }
}

/// How many microseconds a flush leaves the core's lock free that had it between these moments: so many times as long, as far as that may be. The least where the clock could not be read.
pub(crate) fn free_after(began: Option<u64>, ended: Option<u64>, times: u64) -> u64
    ensures least { LEAST_FREE ≤ result }
    ensures most { result ≤ MOST_FREE }
    ensures held { (b e : ℕ) → began ≡ Some b → ended ≡ Some e → LEAST_FREE ≤ (e - b) * times → (e - b) * times ≤ MOST_FREE → result ≡ (e - b) * times }
    ensures short { (b e : ℕ) → began ≡ Some b → ended ≡ Some e → (e - b) * times ≤ LEAST_FREE → result ≡ LEAST_FREE }
    ensures long { (b e : ℕ) → began ≡ Some b → ended ≡ Some e → MOST_FREE ≤ (e - b) * times → result ≡ MOST_FREE }
    ensures unread { began ≡ None ⊎ ended ≡ None → result ≡ LEAST_FREE }
{
    let held = match (began, ended) {
        (Some(began), Some(ended)) => ended.saturating_sub(began),
        _ => 0,
    };
    held.saturating_mul(times).max(LEAST_FREE).min(MOST_FREE)
}
