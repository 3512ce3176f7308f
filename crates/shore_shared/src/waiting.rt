//! Waiting for the log and for locks, and waking who does.
ghost use Rattle.std.specs.Prelude.{◌≡◌, ◌↔◌, ◌≤◌, IsTrue, false, true};
ghost use Rattle.shore_shared.specs.Heard.{AwaitsLock, HasLooked};

use crate::shared::{NEWS, ROOM, Shared, sleeper_of};
use shore_core::{Step, Wait as Awaits};
use shore_disk::Disk;
use shore_held::{CoreHeld, Named, Seat};
use shore_log::Tail;
use shore_queue::Numbers;
use shore_types::{Lsn, SessionId};
use std::sync::Wait;
use std::sync::atomic::Ordering;
use std::thread::yield_now;
use std::time::Duration;

// How often a waiter looks before it sleeps, and lets others run meanwhile: some 20 microseconds.
const LOOKS: u32 = 50;

// .. and how often one that waits for a lock, beside as many as may be.
const LOOKS_FOR_LOCK: u32 = 10;

// Beside so many more none looks: its turn comes later, and each look takes a processor from the one whose turn it is.
const MOST_LOOKING: u64 = 4;

// Who looked in vain spares the looks of so many waits to come.
const SPARES: u32 = 15;

// How long who gives way does.
const GIVES_MICROS: u64 = 200;

// How long a begin sleeps for room before it looks again, and how often: then it is made all the same.
const ROOM_NAP_MILLIS: u64 = 20;

const MOST_ROOM_NAPS: u32 = 100;

// More calls never wait.
const MOST_WAITING: u32 = 2_000;

impl<N: Numbers, B: Named, T: Tail, L: Disk, V: Disk> Shared<N, B, T, L, V> {
    /// Waits until the number is durable. False if a device has failed, as the seat has found then. `spared` is how many waits to come spare their looks, as the waiter keeps it between its waits: 0 in
    /// the beginning. `is_counted`: whether the waiter counts as under way; then it does so until it counts as one who waits, so that the log writer never misses it.
    pub fn wait_for(
        &self,
        rt: &impl Wait,
        seat: &mut Seat<B>,
        spared: &mut u32,
        is_counted: bool,
        number: Lsn,
    ) -> bool
        ensures seen { IsTrue result ↔ (number ≤ seat.new.seen) }
        ensures failed { result ≡ false → seat.new.failed ≡ true }
        ensures seat { HasLooked seat.old seat.new }
    {
        if self.looks_for(seat, number, 0) {
            self.count_out_if(is_counted);
            return true;
        }
        let turn = self.turn();
        self.count_asking();
        self.count_out_if(is_counted);
        self.ask_force();
        let looks = if *spared == 0 { LOOKS } else { 0 };
        *spared = if *spared == 0 { SPARES } else { *spared - 1 };
        if self.looks_for(seat, number, looks) {
            self.count_answered(turn);
            *spared = 0;
            return true;
        }
        for _ in rt.forever() {
            let glanced = self.sleepers.glance(NEWS);
            if self.looks_for(seat, number, 0) {
                self.count_answered(turn);
                return true;
            }
            if self.has_failed(seat) {
                return false;
            }
            self.sleepers.sleep(rt, NEWS, glanced);
        }
        unreachable!()
    }

    // Looks whether the number is durable, and so often again.
    fn looks_for(&self, seat: &mut Seat<B>, number: Lsn, looks: u32) -> bool
        ensures seen { IsTrue result ↔ (number ≤ seat.new.seen) }
        ensures seat { (seat.new ≡ record seat.old { seen = seat.new.seen }) × (seat.old.seen ≤ seat.new.seen) }
    {
        for _ in 0..looks {
            if number <= self.durable_seen(seat) {
                return true;
            }
            yield_now();
        }
        number <= self.durable_seen(seat)
    }

    // Waits, with no lock held, while the log has little room for another transaction and a checkpoint, or who holds the tail, may free some.
    pub(crate) fn wait_for_room(&self, rt: &impl Wait) {
        for _ in 0..MOST_ROOM_NAPS {
            let glanced = self.sleepers.glance(ROOM);
            if !self.freeing.lets_begins_wait() {
                return;
            }
            self.sleepers
                .nap(rt, ROOM, glanced, Duration::from_millis(ROOM_NAP_MILLIS));
        }
    }

    // Waits, once it was let through at the glance or behind it. It may return for no reason.
    pub(crate) fn sleep_for_lock(&self, rt: &impl Wait, session: SessionId, glanced: u64) {
        let sleeper = sleeper_of(session);
        let ahead = self.queued.fetch_add(1, Ordering::SeqCst);
        if ahead >= MOST_LOOKING || !self.is_woken_soon(sleeper, glanced) {
            self.sleepers.sleep(rt, sleeper, glanced);
        }
        self.queued.fetch_sub(1, Ordering::SeqCst);
    }

    // Looks for a short time whether it is woken.
    fn is_woken_soon(&self, sleeper: u32, glanced: u64) -> bool {
        for _ in 0..LOOKS_FOR_LOCK {
            if self.sleepers.glance(sleeper) != glanced {
                return true;
            }
            yield_now();
        }
        false
    }

    // Waits so, and no longer than this. False if nobody has woken it: the time is over, or it returned for no reason.
    pub(crate) fn nap_for_lock(
        &self,
        rt: &impl Wait,
        session: SessionId,
        glanced: u64,
        most: Duration,
    ) -> bool {
        let sleeper = sleeper_of(session);
        self.sleepers.nap(rt, sleeper, glanced, most);
        self.sleepers.glance(sleeper) != glanced
    }

    /// A session waits for no lock any more: its call that waits, and each call that would, is refused by `WouldBlock`, until it is welcome again. It waits for nobody.
    pub fn give_up(&self, session: SessionId) {
        self.sleepers.give_up(sleeper_of(session));
    }

    /// A session may wait for locks again.
    pub fn welcome(&self, session: SessionId) {
        self.sleepers.welcome(sleeper_of(session));
    }

    // Leaves the core's lock to others for a short time.
    pub(crate) fn give_way(&self, rt: &impl Wait, session: SessionId) {
        let sleeper = sleeper_of(session);
        let glanced = self.sleepers.glance(sleeper);
        self.sleepers
            .nap(rt, sleeper, glanced, Duration::from_micros(GIVES_MICROS));
    }

    // Wakes the sessions whose calls may go on, after any step: also one that is answered may have doomed another, whose call goes on to be refused. The core's lock is held, so none begins to wait
    // meanwhile.
    pub(crate) fn wake_let_through(&self, core: &CoreHeld<B, T, V>) {
        let mut from = 0;
        for _ in 0..MOST_WAITING {
            let Some((session, place)) = core.next_let_through(from) else {
                return;
            };
            self.sleepers.wake(sleeper_of(session));
            from = place.saturating_add(1);
        }
    }
}

// Whether the call waits for a lock.
pub(crate) fn waits_for_lock(step: &Step) -> bool
    ensures { IsTrue result ↔ AwaitsLock step.now }
{
    matches!(step, Step::Waits(Awaits::Lock(_)))
}
