//! The workers: each turns until the stop is asked for.
ghost use Rattle.std.specs.Prelude.{◌≡◌, ◌≤◌, ◌<◌, Ok, true};

use crate::freeing::Latest;
use crate::gate::{Gate, Place, Role};
use crate::pacing::{Pace, moment};
use crate::shared::{CHECKPOINTER, FLUSHER, ROOM, Shared, WRITER};
use crate::turns::{checkpoint_held, is_device, is_due};
use shore_core::{Answer, Step};
use shore_disk::Disk;
use shore_held::{Named, Seat};
use shore_log::Tail;
use shore_queue::{Numbers, QueueTail};
use shore_txn::LogRoom;
use shore_types::Fault;
use std::alloc::Global;
use std::sync::Wait;
use std::sync::atomic::Ordering;
use std::time::{Clock, Duration};

// A turn of the checkpointer makes no more steps than this.
const MOST_STEPS: u32 = 4;

// How long the flusher sleeps behind a batch, and any worker that finds nothing to do; and how long who has to wait for a force.
const PAUSE_MILLIS: u64 = 20;

const SHORT_PAUSE_MILLIS: u64 = 1;

impl<N: Numbers, B: Named, T: Tail, L: Disk, V: Disk> Shared<N, B, T, L, V> {
    /// Writes the log until the stop is asked for: what is queued goes to the log device and is made durable, whenever somebody waits for that. The core's lock is not held
    /// meanwhile.
    pub fn log_writer(
        &self,
        rt: &(impl Wait + Clock),
        alloc: Global,
        seat: &mut Seat<B>,
        gate: &impl Gate,
    )
        ensures { seat.new ≡ record seat.old { stopped = true } }
    {
        let mut pace = Pace::new();
        let mut known = seat.reader(&self.words);
        for _ in rt.forever() {
            let glanced = self.sleepers.glance(WRITER);
            gate.pass(Place::Turn(Role::LogWriter));
            if seat.stopping(&self.words) {
                self.open_last(rt, gate, &mut known);
                return;
            }
            match self.write_turn(rt, alloc, gate, &mut known, &mut pace) {
                Ok(true) => {}
                Ok(false) => self.sleepers.sleep(rt, WRITER, glanced),
                Err(fault) => {
                    self.note_refused(rt, &fault);
                    self.sleepers.sleep(rt, WRITER, glanced);
                }
            }
        }
        unreachable!()
    }

    // One turn of the log writer. False if no record waited. The seat has seen what was told by then: if there is news, more than before.
    fn write_turn(
        &self,
        rt: &(impl Wait + Clock),
        alloc: Global,
        gate: &impl Gate,
        known: &mut Seat<B>,
        pace: &mut Pace,
    ) -> Result<bool, Fault>
        ensures rises { known.old.seen ≤ known.new.seen }
        ensures news { result ≡ Ok true → known.old.seen < known.new.seen }
    {
        self.gather(rt, pace);
        let mut held = self.log.lock(rt);
        held.compare(&self.words, known);
        let (began, taken) = (moment(rt), held.last());
        let (forced, _) = self.write_held(rt, alloc, gate, &mut held)?;
        if forced {
            pace.note_force(began, moment(rt));
        }
        *known = held.seat(&self.words);
        drop(held);
        pace.note_frame(taken.0, known.look(&self.words));
        if forced {
            self.wake_waiting();
        }
        Ok(forced)
    }

    // The last turn of the log writer: no frame stays staged.
    fn open_last(&self, rt: &impl Wait, gate: &impl Gate, known: &mut Seat<B>) {
        let mut held = self.log.lock(rt);
        held.compare(&self.words, known);
        let opened = self.open_held(gate, &mut held);
        drop(held);
        match opened {
            Ok(true) => self.wake_waiting(),
            Ok(false) => {}
            Err(fault) => self.note_refused(rt, &fault),
        }
    }

    // The core learns that the log device has failed, and so does who waits for it.
    fn note_refused(&self, rt: &impl Wait, fault: &Fault) {
        if is_device(fault) {
            let mut core = self.lock_core(rt);
            self.fail_held(&mut core);
            drop(core);
            self.wake_waiting();
        }
    }

    /// Writes pages back until the stop is asked for, a batch at a time: the core's lock is held for one sync of it and then for the next, and pages that are changed all the time
    /// need not be written each time.
    pub fn flusher(&self, rt: &(impl Wait + Clock), seat: &mut Seat<B>, gate: &impl Gate)
        ensures { seat.new ≡ record seat.old { stopped = true } }
    {
        for _ in rt.forever() {
            let glanced = self.sleepers.glance(FLUSHER);
            gate.pass(Place::Turn(Role::Flusher));
            if seat.stopping(&self.words) {
                return;
            }
            self.flush_batch(rt, gate, Role::Flusher);
            self.sleepers
                .nap(rt, FLUSHER, glanced, Duration::from_millis(PAUSE_MILLIS));
        }
        unreachable!()
    }
}

impl<N: Numbers, B: Named, R: Wait + Clock + Copy, L: Disk, V: Disk> Shared<
    N,
    B,
    QueueTail<N, B, R>,
    L,
    V,
> {
    /// Makes checkpoints until the stop is asked for. One begins once 1,000 records were appended since the last began; once half of the room that calls have is kept, and another would
    /// move the tail; and once a call was refused since the log is full. Before it what is dirty is flushed.
    pub fn checkpointer(&self, rt: &R, alloc: Global, seat: &mut Seat<B>, gate: &impl Gate)
        ensures { seat.new ≡ record seat.old { stopped = true } }
    {
        let mut latest = Latest::none(self.lock_core(rt).last());
        for _ in rt.forever() {
            let glanced = self.sleepers.glance(CHECKPOINTER);
            gate.pass(Place::Turn(Role::Checkpointer));
            if seat.stopping(&self.words) {
                self.end_waits_for_room();
                return;
            }
            self.checkpoint_turn(rt, alloc, gate, &mut latest);
            let is_wanted = self.look_behind(rt, &mut latest);
            let pause = if is_wanted || self.is_full() || self.is_under_way(rt) {
                SHORT_PAUSE_MILLIS
            } else {
                PAUSE_MILLIS
            };
            self.sleepers
                .nap(rt, CHECKPOINTER, glanced, Duration::from_millis(pause));
        }
        unreachable!()
    }

    // Whether a checkpoint is under way.
    fn is_under_way(&self, rt: &R) -> bool {
        !self.lock_core(rt).rests()
    }

    // What begins may wait for is told to them. The answer is whether another checkpoint is due by bytes.
    fn look_behind(&self, rt: &R, latest: &mut Latest) -> bool {
        let core = self.lock_core(rt);
        let (room, holder) = (core.room(), core.tail_holder());
        latest.look(&self.freeing, &room, &holder);
        drop(core);
        self.sleepers.wake(ROOM);
        latest.is_due_by_bytes(&room, &holder)
    }

    // Whether a checkpoint is due.
    fn is_checkpoint_due(&self, rt: &R, latest: &Latest) -> bool {
        let core = self.lock_core(rt);
        is_due(&core, latest.begun) || latest.is_due_by_bytes(&core.room(), &core.tail_holder())
    }

    // The steps of a checkpoint that may be made now, if one is under way or is to begin.
    fn checkpoint_turn(&self, rt: &R, alloc: Global, gate: &impl Gate, latest: &mut Latest) {
        latest.note_refused(false);
        if !self.is_under_way(rt) {
            if !self.is_checkpoint_due(rt, latest) && !self.is_full() {
                return;
            }
            // A page that is changed all the time is written back once its last change is durable; in a full log nothing else frees what it stands on.
            let flushed = self.flush_all(rt, gate, Role::Checkpointer);
            latest.note_refused(flushed.is_refused);
            if !flushed.is_durable && self.is_full() {
                return;
            }
            self.full.store(0, Ordering::SeqCst);
        }
        for _ in 0..MOST_STEPS {
            gate.pass(Place::Sync(Role::Checkpointer));
            let (step, room) = self.checkpoint_step(rt, alloc);
            note_step(latest, &step, &room);
            if lacks_memory(&step) && !self.is_under_way(rt) {
                // A begin is tried again. What is under way goes on by itself.
                self.full.store(1, Ordering::SeqCst);
            }
            if !matches!(step, Step::Done(_)) || !self.is_under_way(rt) {
                break;
            }
        }
        // What was logged is to be durable, and what was freed may let a force through that was refused.
        self.ask_force();
    }

    // One step, under both locks, the core's first; and the room that it leaves.
    fn checkpoint_step(&self, rt: &R, alloc: Global) -> (Step, LogRoom) {
        let mut core = self.lock_core(rt);
        let mut held = self.log.lock(rt);
        let (step, fails) = checkpoint_held(alloc, &self.words, &mut core, &mut held);
        let room = core.room();
        drop(held);
        if fails {
            // The log writer may have met the failure a moment ago: nobody is told of it before the core refuses calls.
            self.fail_held(&mut core);
            drop(core);
            self.wake_waiting();
        }
        (step, room)
    }
}

fn lacks_memory(step: &Step) -> bool {
    matches!(step, Step::Refused(Fault::Memory))
}

// What the checkpointer keeps of a step.
fn note_step(latest: &mut Latest, step: &Step, room: &LogRoom) {
    match step {
        Step::Done(Answer::Begun(number)) => latest.begin(*number, room),
        Step::Done(Answer::Anchored { tail, .. }) => latest.name(*tail, room),
        Step::Done(Answer::Moved) => latest.end(room),
        Step::Refused(Fault::LogFull | Fault::Failed | Fault::Device) => latest.note_refused(true),
        Step::Done(_) | Step::Refused(_) | Step::Waits(_) | Step::Nothing => {}
    }
}
