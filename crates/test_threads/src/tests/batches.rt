//! Between two syncs of a batch of pages a session is answered.
use super::life::{RECORD, add_one, insert, live};
use shore_model::Call;
use shore_shared::{Client, Gate, Job, Place, Role};
use shore_types::Fault;
use std::alloc::Global;
use std::sync::atomic::{AtomicU64, Ordering};
use std::test::Fail;
use std::thread::yield_now;

const MOST_TURNS: u32 = 4_000_000;

// Where the test is.
const MAKING: u64 = 0;

const AWAITING: u64 = 1;

const HELD: u64 = 2;

const ANSWERED: u64 = 3;

// It holds the flusher before the second sync of a batch, until the session was answered.
#[derive(Drop)]
struct Holding {
    at: AtomicU64,
    // How many syncs the flusher has come to in its turn.
    syncs: AtomicU64,
    gave_up: AtomicU64,
}

impl Holding {
    fn is_at(&self, stage: u64) -> bool {
        self.at.load(Ordering::SeqCst) == stage
    }

    fn goes_to(&self, stage: u64) {
        self.at.store(stage, Ordering::SeqCst);
    }

    // Whether the stage came within so many turns.
    fn waits_for(&self, stage: u64) -> bool {
        for _ in 0..MOST_TURNS {
            if self.is_at(stage) {
                return true;
            }
            yield_now();
        }
        self.gave_up.store(1, Ordering::SeqCst);
        false
    }
}

impl Gate for Holding {
    fn pass(&self, place: Place) {
        if place == Place::Turn(Role::Flusher) {
            self.syncs.store(0, Ordering::SeqCst);
        }
        if place == Place::Sync(Role::Flusher) {
            let before = self.syncs.fetch_add(1, Ordering::SeqCst);
            if before == 1 && self.is_at(AWAITING) {
                self.goes_to(HELD);
                let _is_answered = self.waits_for(ANSWERED);
            }
        }
    }
}

// The client makes the record and changes it, so that its page is written back. Amid that it gets the record and changes it again.
#[derive(Drop)]
struct Task<'h> {
    holding: &'h Holding,
}

impl<'h> Job for Task<'h> {
    type Done = ();

    ghost use Rattle.std.specs.Prelude.{⊤};

    // Nothing is claimed of it.
    ghost says = { λ _ _ _ _ _. ⊤ };

    fn work<C: Client>(&self, alloc: Global, _number: usize, client: &mut C) -> Result<(), Fault> {
        let stage = self.holding;
        insert(alloc, client)?;
        stage.goes_to(AWAITING);
        add_one(alloc, client)?;
        client.commit_durable()?;
        if !stage.waits_for(HELD) {
            return Ok(());
        }
        client.call(Call::Begin)?;
        client.call(Call::Get(RECORD))?;
        client.call(Call::Commit)?;
        stage.goes_to(ANSWERED);
        Ok(())
    }
}

#[test]
fn batch_leaves_the_lock(rt: HostRuntime) -> Result<(), Fail> {
    let holding = Holding {
        at: AtomicU64::new(MAKING),
        syncs: AtomicU64::new(0),
        gave_up: AtomicU64::new(0),
    };
    let tasks = [Task { holding: &holding }];
    let lived = live(rt, rt.alloc(), 1 << 20, 1, &tasks, &holding);
    let gave_up = holding.gave_up.load(Ordering::SeqCst) != 0;
    match lived {
        Ok(_) if !gave_up => Ok(()),
        Ok(_) => Err(Fail::new(format_args!("nobody was answered between two syncs of a batch"))),
        Err(fault) => Err(Fail::new(format_args!("{fault}"))),
    }
}
