//! While the log writer syncs, other sessions are answered: before it writes the text of a frame, and before it opens its gate.
use super::life::{RECORD, add_one, insert, live};
use shore_model::Call;
use shore_shared::{Client, Gate, Job, Place, Role};
use shore_types::Fault;
use std::alloc::Global;
use std::process::Abort;
use std::sync::Wait;
use std::sync::atomic::{AtomicU64, Ordering};
use std::test::Fail;
use std::thread::{Threads, yield_now};
use std::time::Clock;

const MOST_TURNS: u32 = 1_000_000;

// Where the test is.
const MAKING: u64 = 0;

const COMMITTING: u64 = 1;

const HELD: u64 = 2;

const ANSWERED: u64 = 3;

// It holds the log writer before a sync for a commit, until the other session was answered. A commit alone takes two: one for the text of its frame, and one for its gate.
#[derive(Drop)]
struct Holding {
    at: AtomicU64,
    // How many of these syncs are to pass first, and have.
    passing: u64,
    passed: AtomicU64,
    gave_up: AtomicU64,
    // Whether the commit was answered before the other session was.
    committed: AtomicU64,
    hasty: AtomicU64,
}

impl Holding {
    fn is_at(&self, stage: u64) -> bool {
        self.at.load(Ordering::SeqCst) == stage
    }

    fn goes_to(&self, stage: u64) {
        self.at.store(stage, Ordering::SeqCst);
    }

    // Whether the stage came within so many turns.
    fn waits_for(&self, stage: u64) -> bool {
        for _ in 0..MOST_TURNS {
            if self.is_at(stage) {
                return true;
            }
            yield_now();
        }
        false
    }
}

impl Gate for Holding {
    fn pass(&self, place: Place) {
        if place == Place::Sync(Role::LogWriter) && self.is_at(COMMITTING) {
            if self.passed.fetch_add(1, Ordering::SeqCst) < self.passing {
                return;
            }
            self.goes_to(HELD);
            if !self.waits_for(ANSWERED) {
                self.gave_up.store(1, Ordering::SeqCst);
            }
        }
    }
}

// The first client makes the record. Then it commits, and the other begins and gets while the log writer is held before its sync.
#[derive(Drop)]
struct Task<'r, 'h, A: Abort> {
    rt: &'r A,
    holding: &'h Holding,
    makes: bool,
}

impl<'r, 'h, A: Abort> Job for Task<'r, 'h, A> {
    type Done = ();

    ghost use Rattle.std.specs.Prelude.{⊤};

    // Nothing is claimed of it.
    ghost says = { λ _ _ _ _ _. ⊤ };

    fn work<C: Client>(&self, alloc: Global, number: usize, client: &mut C) -> Result<(), Fault> {
        let stage = self.holding;
        if self.makes {
            if number == 0 {
                insert(alloc, client)?;
                stage.goes_to(COMMITTING);
            }
            return Ok(());
        }
        if number == 0 {
            add_one(alloc, client)?;
            client.commit_durable()?;
            stage.committed.store(1, Ordering::SeqCst);
            return Ok(());
        }
        if !stage.waits_for(HELD) {
            // The first client would wait for ever.
            self.rt.abort();
        }
        client.call(Call::Begin)?;
        client.call(Call::Get(RECORD))?;
        stage
            .hasty
            .store(stage.committed.load(Ordering::SeqCst), Ordering::SeqCst);
        stage.goes_to(ANSWERED);
        client.call(Call::Commit)?;
        Ok(())
    }
}

// The log writer is held before that sync of a commit.
fn holds<R: Threads + Wait + Clock + Abort + Sync + Send + Copy>(
    rt: R,
    alloc: Global,
    passing: u64,
) -> Result<(), Fail> {
    let holding = Holding {
        at: AtomicU64::new(MAKING),
        passing,
        passed: AtomicU64::new(0),
        gave_up: AtomicU64::new(0),
        committed: AtomicU64::new(0),
        hasty: AtomicU64::new(0),
    };
    let tasks = [
        Task {
            rt: &rt,
            holding: &holding,
            makes: true,
        },
        Task {
            rt: &rt,
            holding: &holding,
            makes: false,
        },
    ];
    let lived = live(rt, alloc, 1 << 20, 2, &tasks, &holding);
    if let Err(fault) = lived {
        return Err(Fail::new(format_args!("{fault}")));
    }
    if holding.gave_up.load(Ordering::SeqCst) != 0 {
        return Err(Fail::new(format_args!("nobody was answered while the log writer was held")));
    }
    if holding.hasty.load(Ordering::SeqCst) != 0 {
        return Err(Fail::new(format_args!("a commit was answered before its last sync")));
    }
    Ok(())
}

#[test]
fn gate_holds_sync(rt: HostRuntime) -> Result<(), Fail> {
    holds(rt, rt.alloc(), 0)
}

#[test]
fn gate_holds_between_text_and_gate(rt: HostRuntime) -> Result<(), Fail> {
    holds(rt, rt.alloc(), 1)
}
