//! The core and the log device under locks of their own, and what may be asked without waiting.
ghost use Rattle.std.specs.Prelude.{◌≡◌, ◌↔◌, ◌≤◌, ◌<◌, ℕ, [], IfSome, IsTrue, true};
ghost use Rattle.shore_core.specs.Cores.{heap_of, txns_of};
ghost use Rattle.shore_core.specs.TailHolders.{HoldsTail};
ghost use Rattle.shore_core.specs.declared.core_calls.Core.{Core};
ghost use Rattle.shore_held.specs.declared.core_held.TheConstants.{ALL_PARTS};
ghost use Rattle.shore_words.specs.Words.{looker};

use crate::freeing::Freeing;
use crate::session::Session;
use shore_core::TailHolder;
use shore_disk::Disk;
use shore_held::{ALL_PARTS, CoreHeld, LogHeld, Meeting, Named, Seat, meeting};
use shore_log::Tail;
use shore_queue::{Numbers, QueueTail};
use shore_types::{Lsn, SessionId, Ticket};
use shore_words::{WakeWords, Words};
use shore_world::Report;
use std::sync::atomic::{AtomicU64, Ordering};
use std::sync::{Mutex, Wait};

// The wake words: those of the workers, that of all who wait for the log, one to nap on, and behind these one for each session.
pub(crate) const WRITER: u32 = 0;

pub(crate) const FLUSHER: u32 = 1;

pub(crate) const CHECKPOINTER: u32 = 2;

pub(crate) const NEWS: u32 = 3;

// Nobody raises it: who finds the core's lock taken for long naps on it.
pub(crate) const CROWD: u32 = 4;

// Who begins a transaction waits on it for room in the log.
pub(crate) const ROOM: u32 = 5;

const SESSIONS_AT: u32 = 6;

/// So many wake words.
pub(crate) const SLEEPERS: u32 = SESSIONS_AT + ALL_PARTS;

// The wake word of a session.
pub(crate) fn sleeper_of(session: SessionId) -> u32 {
    SESSIONS_AT.saturating_add(session.0)
}

/// What threads share.
#[derive(Drop)]
pub struct Shared<N: Numbers, B: Named, T: Tail, L: Disk, V: Disk> {
    pub(crate) words: Words,
    pub(crate) sleepers: WakeWords,
    // What the restart did that opened the manager.
    pub(crate) report: Report,
    // Not 0 once a call was refused since the log is full, until a checkpoint begins.
    pub(crate) full: AtomicU64,
    // How much room the log has for transactions to come.
    pub(crate) freeing: Freeing,
    // How many sessions are under way and wait for nobody: in a transaction, or told a moment ago that their last is durable. The log writer gathers their commits.
    pub(crate) busy: AtomicU64,
    // How many sessions began to wait for the log since its latest turn began, and how many turns did.
    pub(crate) asking: AtomicU64,
    pub(crate) turns: AtomicU64,
    // How many of them wait for records that are staged: they go on with the next sync.
    pub(crate) staged_for: AtomicU64,
    // How many sessions wait for locks, with no time set.
    pub(crate) queued: AtomicU64,
    pub(crate) core: Mutex<CoreHeld<B, T, V>>,
    pub(crate) log: Mutex<LogHeld<N, B, L>>,
    ghost words_are: { words.table.shared.table_id ≡ B.table },
    ghost all_words: { 4 < B.table.words },
    ghost all_is: { B.all ≡ ALL_PARTS },
}

impl<N: Numbers, B: Named, T: Tail, L: Disk, V: Disk> Shared<N, B, T, L, V> {
    pub(crate) fn of(
        words: Words,
        sleepers: WakeWords,
        report: Report,
        core: CoreHeld<B, T, V>,
        log: LogHeld<N, B, L>,
    ) -> Shared<N, B, T, L, V>
        requires { (words.table.shared.table_id ≡ B.table) × (4 < B.table.words) × (B.all ≡ ALL_PARTS) }
        ensures { result.report ≡ report }
    {
        Shared {
            words,
            sleepers,
            report,
            full: AtomicU64::new(0),
            freeing: Freeing::new(),
            busy: AtomicU64::new(0),
            asking: AtomicU64::new(0),
            turns: AtomicU64::new(0),
            staged_for: AtomicU64::new(0),
            queued: AtomicU64::new(0),
            core: Mutex::new(core),
            log: Mutex::new(log),
        }
    }

    // The words and both locks' values, which nobody shares any more.
    pub(crate) fn taken_apart(
        self,
    ) -> (
        Words,
        WakeWords,
        Report,
        CoreHeld<B, T, V>,
        LogHeld<N, B, L>,
    )
        ensures words { (result.0.table.shared.table_id ≡ B.table) × (4 < B.table.words) × (B.all ≡ ALL_PARTS) }
        ensures report { result.2 ≡ self.report }
    {
        let Shared {
            words,
            sleepers,
            report,
            core,
            log,
            ..
        } = self;
        (words, sleepers, report, core.into_inner(), log.into_inner())
    }

    /// A new session, whose number is the next, from 1 on. None once 999 were made.
    pub fn session(&self, rt: &impl Wait) -> Option<Session<B>>
        ensures number { IfSome result (λ s. (0 < s.number) × (s.number < ALL_PARTS)) }
        ensures none_made { IfSome result (λ s. s.share.amount ≡ 0) }
        ensures seat { IfSome result (λ s. (seen : ℕ) × (s.seat ≡ looker seen)) }
        ensures heard { IfSome result (λ s. s.ear.heard ≡ []) }
    {
        let (number, share, seat, ear) = self.core.lock(rt).session(&self.words)?;
        Some(Session::new(number, share, seat, ear))
    }

    /// A seat for a worker, or for one who looks.
    pub fn seat(&self, rt: &impl Wait) -> Seat<B>
        ensures { (seen : ℕ) × (result ≡ looker seen) }
    {
        self.core.lock(rt).seat(&self.words)
    }

    /// Whom the log has to be kept for from furthest back on, as the core has it at a moment between two calls. It takes the core's lock.
    pub fn tail_holder(&self, rt: &impl Wait) -> TailHolder
        ensures { (core : Core T V T.Tail V.Disk) × HoldsTail (txns_of core) (heap_of core) result }
    {
        self.core.lock(rt).tail_holder()
    }

    /// The durable number. It waits for nobody.
    pub fn durable_seen(&self, seat: &mut Seat<B>) -> Lsn
        ensures { (seat.new ≡ record seat.old { seen = result }) × (seat.old.seen ≤ result) }
    {
        Lsn(seat.look(&self.words))
    }

    /// Whether the Commit of a ticket is durable, as the seat sees it now. It is asked of the manager that gave the ticket. It waits for nobody.
    pub fn is_durable(&self, seat: &mut Seat<B>, ticket: Ticket) -> bool
        ensures answer { IsTrue result ↔ (ticket ≤ seat.new.seen) }
        ensures seat { (seat.new ≡ record seat.old { seen = seat.new.seen }) × (seat.old.seen ≤ seat.new.seen) }
    {
        ticket.number().0 <= seat.look(&self.words)
    }

    /// Asks the workers to stop. It waits for nobody.
    pub fn ask_stop(&self, seat: &mut Seat<B>)
        ensures { seat.new ≡ record seat.old { asked = true } }
    {
        seat.ask_stop(&self.words);
        self.sleepers.wake(WRITER);
        self.sleepers.wake(FLUSHER);
        self.sleepers.wake(CHECKPOINTER);
    }

    // Whether a device has failed, as who waits for the log is told. Who found it once finds it again.
    pub(crate) fn has_failed(&self, seat: &mut Seat<B>) -> bool
        ensures failed { seat.new ≡ record seat.old { failed = result } }
        ensures stays { seat.old.failed ≡ true → result ≡ true }
    {
        seat.has_failed(&self.words)
    }

    // The log is full: a checkpoint is wanted.
    pub(crate) fn note_full(&self) {
        if self.full.swap(1, Ordering::SeqCst) == 0 {
            self.sleepers.wake(CHECKPOINTER);
        }
    }

    // Whether it was found so.
    pub(crate) fn is_full(&self) -> bool {
        self.full.load(Ordering::SeqCst) != 0
    }

    // More of the log is taken: a checkpoint may be due.
    pub(crate) fn note_taken(&self) {
        self.sleepers.wake(CHECKPOINTER);
    }

    // No begin waits for room any more.
    pub(crate) fn end_waits_for_room(&self) {
        self.freeing.end_waits();
        self.sleepers.wake(ROOM);
    }

    // Asks the log writer for a force.
    pub(crate) fn ask_force(&self) {
        self.sleepers.wake(WRITER);
    }

    // Who waits for the log looks again: more is durable, or a device has failed.
    pub(crate) fn wake_waiting(&self) {
        self.sleepers.wake(NEWS);
    }
}

impl<N: Numbers, B: Named, R: Wait + Copy, L: Disk, V: Disk> Shared<
    N,
    B,
    QueueTail<N, B, R>,
    L,
    V,
> {
    /// What both locks' values say together: it takes both, the core's first.
    pub fn meet(&self, rt: &R, seat: &mut Seat<B>) -> Meeting
        ensures seen { (seat.new ≡ record seat.old { seen = result.seen }) × (seat.old.seen ≤ result.seen) }
        ensures order { (result.seen ≤ result.device_end) × (result.device_end ≤ result.core_end) }
    {
        let mut core = self.core.lock(rt);
        let mut held = self.log.lock(rt);
        meeting(&self.words, &mut core, &mut held, seat)
    }
}
