//! Who is under way, whose commits the log writer gathers, and the core's lock as it is taken by many.
use crate::pacing::{Pace, left_of, moment};
use crate::shared::{CROWD, Shared, WRITER};
use shore_disk::Disk;
use shore_held::{CoreHeld, Named};
use shore_log::Tail;
use shore_queue::Numbers;
use std::sync::atomic::{AtomicU64, Ordering};
use std::sync::{MutexGuard, Wait};
use std::thread::yield_now;
use std::time::{Clock, Duration};

// How often the log writer lets others run while it gathers: some 50 microseconds of a processor that nobody else wants.
const GATHERS: u32 = 160;

// How often who finds the core's lock taken looks again before it naps, some 20 microseconds; how often it naps before it sleeps, and how long.
const TRIES: u32 = 50;

const NAPS: u32 = 3;

const NAP_MICROS: u64 = 50;

// Whoever comes wakes the log writer that gathers for long: it sleeps again, no more often than this.
const GATHER_NAPS: u32 = 2_000;

// More threads never lessen a count at one time.
const MOST_LESSENING: u32 = 2_000;

// One less, and no less than none.
fn lessen(count: &AtomicU64) {
    for _ in 0..MOST_LESSENING {
        let now = count.load(Ordering::SeqCst);
        if now == 0 {
            return;
        }
        if count
            .compare_exchange(now, now - 1, Ordering::SeqCst, Ordering::SeqCst)
            .is_ok()
        {
            return;
        }
    }
}

impl<N: Numbers, B: Named, T: Tail, L: Disk, V: Disk> Shared<N, B, T, L, V> {
    // A session is under way, and waits for nobody.
    pub(crate) fn count_in(&self) {
        self.busy.fetch_add(1, Ordering::SeqCst);
    }

    // It has committed, or waits.
    pub(crate) fn count_out(&self) {
        lessen(&self.busy);
    }

    // .. if it was counted.
    pub(crate) fn count_out_if(&self, is_counted: bool) {
        if is_counted {
            self.count_out();
        }
    }

    // Which turn of the log writer is to come, or goes on.
    pub(crate) fn turn(&self) -> u64 {
        self.turns.load(Ordering::SeqCst)
    }

    // A session waits for the log from now on.
    pub(crate) fn count_asking(&self) {
        self.asking.fetch_add(1, Ordering::SeqCst);
    }

    // It found in the same turn that it need not.
    pub(crate) fn count_answered(&self, turn: u64) {
        if self.turn() == turn {
            lessen(&self.asking);
        }
    }

    // The log writer begins a turn: how many sessions wait for what it forces now.
    pub(crate) fn take_asking(&self) -> u64 {
        self.turns.fetch_add(1, Ordering::SeqCst);
        self.asking.swap(0, Ordering::SeqCst)
    }

    // A sync was made: those whose records were staged go on, and are under way again, so that their next commits are gathered. These go on with the next sync if a frame is
    // staged now, and else with this one.
    pub(crate) fn count_forced(&self, sessions: u64, is_staged: bool) {
        let (staged, now) = if is_staged {
            (sessions, 0)
        } else {
            (0, sessions)
        };
        let before = self.staged_for.swap(staged, Ordering::SeqCst);
        self.busy
            .fetch_add(before.saturating_add(now), Ordering::SeqCst);
    }

    // What the sessions that are under way commit within a short time is forced together: the time begins as the first of them waits, or who waits for a frame that is staged. Who has
    // not come by then is not awaited any more. As long as nobody has, there is nothing to force. After a frame that was full nobody is awaited: there is enough for another.
    pub(crate) fn gather(&self, rt: &(impl Wait + Clock), pace: &mut Pace) {
        if pace.has_more() {
            return;
        }
        let began = moment(rt);
        if self.gather_shortly() && self.busy.load(Ordering::SeqCst) > 0 {
            if let Some(began) = began {
                self.gather_on(rt, pace, began);
            }
            self.busy.store(0, Ordering::SeqCst);
        }
    }

    // .. for some 50 microseconds. The answer is whether anybody waits.
    fn gather_shortly(&self) -> bool {
        let mut waited = 0u32;
        for _ in 0..2 * GATHERS {
            if self.busy.load(Ordering::SeqCst) == 0 {
                return false;
            }
            if self.asking.load(Ordering::SeqCst) > 0
                || self.staged_for.load(Ordering::SeqCst) > 0
            {
                waited = waited.saturating_add(1);
            }
            if waited >= GATHERS {
                break;
            }
            yield_now();
        }
        waited > 0
    }

    // .. and on from there, where a force takes long: until all who are under way wait, or until what a force takes would not repay it.
    fn gather_on(&self, rt: &(impl Wait + Clock), pace: &mut Pace, began: u64) {
        let Some(most) = pace.gathers_for() else {
            return;
        };
        let asked = self.asking.load(Ordering::SeqCst);
        for _ in 0..GATHER_NAPS {
            let glanced = self.sleepers.glance(WRITER);
            if self.busy.load(Ordering::SeqCst) == 0 {
                break;
            }
            match left_of(rt, most, began) {
                Some(left) => self.sleepers.nap(rt, WRITER, glanced, left),
                None => break,
            }
        }
        pace.note_gathered(self.asking.load(Ordering::SeqCst) > asked);
    }

    // The core's lock. It is mostly held for less than a microsecond, so who finds it taken looks again for a short time: a lock on which somebody sleeps is handed over in
    // the time of a wake, and all others would sleep too.
    pub(crate) fn lock_core(&self, rt: &impl Wait) -> MutexGuard<'_, CoreHeld<B, T, V>> {
        for _ in 0..NAPS {
            for _ in 0..TRIES {
                if let Some(core) = self.core.try_lock() {
                    return core;
                }
                yield_now();
            }
            let glanced = self.sleepers.glance(CROWD);
            self.sleepers
                .nap(rt, CROWD, glanced, Duration::from_micros(NAP_MICROS));
        }
        self.core.lock(rt)
    }
}
