//! How much room the log has for transactions to come, as sessions and the checkpointer tell one another.
use shore_core::TailHolder;
use shore_txn::LogRoom;
use shore_types::layout::{GREATEST_CHECKPOINT, LONGEST_FRAME};
use shore_types::{Lsn, SessionId, TxnId};
use std::sync::atomic::{AtomicU64, Ordering};

// How much of the room for calls is taken, as `Freeing` has it: less than half, half, or so much that less than a quarter is free.
const LITTLE: u64 = 0;

const HALF: u64 = 1;

const MOST: u64 = 2;

// Who holds the tail and has made no step for so many turns of the checkpointer is awaited by no begin. They come every 20 milliseconds, and every one while a checkpoint is due.
// One whose thread has lost its processor is not idle yet.
const IDLE_TURNS: u32 = 20;

fn taken(room: &LogRoom) -> u64 {
    let calls = room
        .stream_bytes
        .saturating_sub(LONGEST_FRAME + GREATEST_CHECKPOINT);
    let free = calls.saturating_sub(room.kept.saturating_add(room.reserved));
    if free < calls / 4 {
        MOST
    } else if room.kept >= calls / 2 {
        HALF
    } else {
        LITTLE
    }
}

/// What sessions and the checkpointer know of the log's room without a lock.
#[derive(Drop)]
pub(crate) struct Freeing {
    // How much is taken, as the last step under the core's lock left it.
    taken: AtomicU64,
    // Not 0 while no begin waits for room: the checkpointer found that nothing would come of a wait, or has ended.
    futile: AtomicU64,
    // The session that holds the tail, 0 for none, and how many steps it made since the checkpointer looked.
    holder: AtomicU64,
    steps: AtomicU64,
}

impl Freeing {
    pub(crate) fn new() -> Freeing {
        Freeing {
            taken: AtomicU64::new(LITTLE),
            futile: AtomicU64::new(0),
            holder: AtomicU64::new(0),
            steps: AtomicU64::new(0),
        }
    }

    // The room that a step left, under the core's lock, and who made it. Whether more is taken than was, so that a checkpoint may be due.
    pub(crate) fn note_step(&self, room: &LogRoom, session: SessionId) -> bool {
        if self.holder.load(Ordering::SeqCst) == u64::from(session.0) {
            self.steps.fetch_add(1, Ordering::SeqCst);
        }
        self.note_room(room)
    }

    fn note_room(&self, room: &LogRoom) -> bool {
        let (now, before) = (taken(room), self.taken.load(Ordering::SeqCst));
        if now != before {
            self.taken.store(now, Ordering::SeqCst);
        }
        now > before
    }

    // Whether a begin waits: little is free, and something may come of it.
    pub(crate) fn lets_begins_wait(&self) -> bool {
        self.taken.load(Ordering::SeqCst) == MOST && self.futile.load(Ordering::SeqCst) == 0
    }

    // Nothing comes of a wait any more, or not before the checkpointer has looked.
    pub(crate) fn end_waits(&self) {
        self.futile.store(1, Ordering::SeqCst);
    }
}

/// What the checkpointer knows of its latest checkpoint, and of who has held the tail since.
#[derive(Clone, Copy)]
pub(crate) struct Latest {
    /// The number of its begin.
    pub(crate) begun: Lsn,
    // The tail that it named, once it has.
    tail: Lsn,
    // What was kept as it began, and as it had ended.
    kept_at_begin: u64,
    kept: u64,
    // How much was logged meanwhile, and no more than an eighth of the room: as much is logged before the next begins by bytes.
    logged: u64,
    // Whose first record holds the tail, and how many turns it has been idle.
    holder: TxnId,
    idle: u32,
    // Whether its last step was refused.
    was_refused: bool,
}

impl Latest {
    // None was made yet.
    pub(crate) fn none(last: Lsn) -> Latest {
        Latest {
            begun: last,
            tail: Lsn(0),
            kept_at_begin: 0,
            kept: 0,
            logged: 0,
            holder: TxnId(0),
            idle: 0,
            was_refused: false,
        }
    }

    // One has begun under this number.
    pub(crate) fn begin(&mut self, number: Lsn, room: &LogRoom) {
        self.begun = number;
        self.kept_at_begin = room.kept;
    }

    // It has named this tail.
    pub(crate) fn name(&mut self, tail: Lsn, room: &LogRoom) {
        self.tail = tail;
        self.logged = room
            .kept
            .saturating_sub(self.kept_at_begin)
            .min(room.stream_bytes / 8);
    }

    // Its anchor has moved.
    pub(crate) fn end(&mut self, room: &LogRoom) {
        self.kept = room.kept;
    }

    // Its last step was refused, or none was.
    pub(crate) fn note_refused(&mut self, was_refused: bool) {
        self.was_refused = was_refused;
    }

    // Whether the next is due by bytes: half of the room for calls is kept, as much was logged since this one as it took, or anything if begins wait, and another would move the tail.
    pub(crate) fn is_due_by_bytes(&self, room: &LogRoom, holder: &TailHolder) -> bool {
        let taken = taken(room);
        let logged = room.kept.saturating_sub(self.kept);
        let is_enough = taken == MOST || (taken == HALF && logged >= self.logged);
        is_enough && self.would_move(room, holder)
    }

    // Whether another checkpoint would move the tail, once the pages that hold it are flushed.
    fn would_move(&self, room: &LogRoom, holder: &TailHolder) -> bool {
        match holder {
            TailHolder::Transaction { first, .. } => self.tail.0 < first.0,
            TailHolder::Page(_) => true,
            TailHolder::Nobody => self.tail.0 < self.begun.0 || room.kept > self.kept,
        }
    }

    // The checkpointer's look behind a turn: whether begins may wait for the next. Whoever holds the tail is awaited while it makes steps.
    pub(crate) fn look(&mut self, freeing: &Freeing, room: &LogRoom, holder: &TailHolder) {
        let (txn, session) = match holder {
            TailHolder::Transaction { txn, session, .. } => (*txn, *session),
            TailHolder::Page(_) | TailHolder::Nobody => (TxnId(0), None),
        };
        let number = match session {
            Some(session) => u64::from(session.0),
            None => 0,
        };
        freeing.holder.store(number, Ordering::SeqCst);
        let steps = freeing.steps.swap(0, Ordering::SeqCst);
        if txn.0 != self.holder.0 || steps > 0 {
            self.idle = 0;
        } else {
            self.idle = self.idle.saturating_add(1);
        }
        self.holder = txn;
        let is_awaited = session.is_some() && self.idle < IDLE_TURNS;
        let may_free = self.would_move(room, holder);
        let is_futile = self.was_refused || (taken(room) == MOST && !may_free && !is_awaited);
        freeing.futile.store(u64::from(is_futile), Ordering::SeqCst);
        freeing.note_room(room);
    }
}
