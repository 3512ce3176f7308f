//! Pages are written back by turns: each hold of the core's lock makes one sync of a batch, and who waits for the lock has it between two.
use crate::gate::{Gate, Place, Role};
use crate::pacing::{free_after, moment};
use crate::shared::{CHECKPOINTER, FLUSHER, Shared, WRITER};
use crate::turns::flush_held;
use shore_core::Step;
use shore_disk::Disk;
use shore_held::{CoreHeld, Named};
use shore_log::Tail;
use shore_pool::Amid;
use shore_queue::Numbers;
use shore_types::layout::MAX_BATCH_PAGES;
use std::sync::Wait;
use std::time::{Clock, Duration};

// All that is due is looked for in no more batches than this.
const MOST_BATCHES: u32 = 64;

// A batch is written under so many holds of the core's lock: one a sync.
const HOLDS: u32 = 4;

// The flusher leaves the lock free so many times as long as it had it: pages may wait, and calls may not. A checkpoint, for which begins may wait, leaves it free as long.
const FLUSHER_LEAVES: u64 = 3;

// What a batch, or all of them, came to.
#[derive(Clone, Copy)]
pub(crate) struct Flushed {
    // More pages may be due.
    pub(crate) may_more: bool,
    // Of a batch: all that was logged was durable as it was begun, and nothing was refused. If no more may be due then, no page that was due was left; of all batches it says that too.
    pub(crate) is_durable: bool,
    // A step was refused: a device has failed.
    pub(crate) is_refused: bool,
}

// What a turn of a flush has left.
#[derive(Clone, Copy)]
struct Turn {
    // How far the batch is.
    amid: Amid,
    // Whether the turn looked for pages that are due. Then it began a batch of them, if there was one; and more may be due only if the batch has all that it may have.
    has_looked: bool,
    may_more: bool,
    // Whether all that is logged was durable.
    is_durable: bool,
    is_refused: bool,
    // When it had the core's lock.
    began: Option<u64>,
    ended: Option<u64>,
}

impl Turn {
    // Others have ended the batch meanwhile, so nothing was left to do.
    fn idle(began: Option<u64>) -> Turn {
        Turn {
            amid: Amid::Rest,
            has_looked: false,
            may_more: true,
            is_durable: true,
            is_refused: false,
            began,
            ended: began,
        }
    }

    // No batch is under way.
    fn is_last(&self) -> bool {
        self.is_refused || matches!(self.amid, Amid::Rest)
    }
}

impl<N: Numbers, B: Named, T: Tail, L: Disk, V: Disk> Shared<N, B, T, L, V> {
    // All pages that are due are written back.
    pub(crate) fn flush_all(
        &self,
        rt: &(impl Wait + Clock),
        gate: &impl Gate,
        role: Role,
    ) -> Flushed {
        for _ in 1..MOST_BATCHES {
            let flushed = self.flush_batch(rt, gate, role);
            if !flushed.may_more {
                return flushed;
            }
        }
        let last = self.flush_batch(rt, gate, role);
        Flushed {
            is_durable: last.is_durable && !last.may_more,
            ..last
        }
    }

    // One batch is written back, or the one under way is gone on with. What is not durable as it is begun is asked for.
    pub(crate) fn flush_batch(
        &self,
        rt: &(impl Wait + Clock),
        gate: &impl Gate,
        role: Role,
    ) -> Flushed {
        gate.pass(Place::Sync(role));
        let mut turn = self.flush_turn(rt, Amid::Rest);
        let (mut may_more, mut is_durable) = (turn.may_more, turn.is_durable);
        if !is_durable {
            self.ask_force();
        }
        for _ in 1..HOLDS {
            if turn.is_last() {
                break;
            }
            self.leave_free(rt, role, &turn);
            gate.pass(Place::Sync(role));
            turn = self.flush_turn(rt, turn.amid);
            if turn.has_looked {
                may_more = turn.may_more;
                is_durable = turn.is_durable;
            }
        }
        Flushed {
            may_more: may_more && !turn.is_refused,
            is_durable: is_durable && !turn.is_refused,
            is_refused: turn.is_refused,
        }
    }

    // One turn, with what the core has seen. A batch that was given up since the turn before, as a page of it was changed, is begun anew and its gate is opened under this one hold:
    // else a page that is changed all the time would keep others from being written. One that others have ended meanwhile leaves nothing to do.
    fn flush_turn(&self, rt: &(impl Wait + Clock), before: Amid) -> Turn {
        let mut core = self.lock_core(rt);
        let began = moment(rt);
        let seen = core.look(&self.words);
        let rests = matches!(core.amid(), Amid::Rest);
        if rests && matches!(before, Amid::Opened | Amid::Placed) {
            return Turn::idle(began);
        }
        let (mut step, is_durable) = flush_held(seen, &mut core);
        if rests && matches!(before, Amid::Written) && matches!(core.amid(), Amid::Written) {
            (step, _) = flush_held(seen, &mut core);
        }
        let is_refused = matches!(step, Step::Refused(_));
        if is_refused {
            self.wake_let_through(&core);
        }
        Turn {
            amid: core.amid(),
            has_looked: rests,
            may_more: !rests || is_full(&core),
            is_durable,
            is_refused,
            began,
            ended: moment(rt),
        }
    }

    // Leaves the core's lock to others, the longer the longer the turn had it.
    fn leave_free(&self, rt: &impl Wait, role: Role, turn: &Turn) {
        let sleeper = match role {
            Role::LogWriter => WRITER,
            Role::Flusher => FLUSHER,
            Role::Checkpointer => CHECKPOINTER,
        };
        let times = match role {
            Role::Flusher => FLUSHER_LEAVES,
            Role::LogWriter | Role::Checkpointer => 1,
        };
        let micros = free_after(turn.began, turn.ended, times);
        let glanced = self.sleepers.glance(sleeper);
        self.sleepers
            .nap(rt, sleeper, glanced, Duration::from_micros(micros));
    }
}

// Whether the batch under way has all that it may have, so that more may be due.
fn is_full<B: Named, T: Tail, V: Disk>(core: &CoreHeld<B, T, V>) -> bool {
    !matches!(core.amid(), Amid::Rest) && core.batch_pages() >= MAX_BATCH_PAGES
}
