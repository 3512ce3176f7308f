//! Who is in a transaction, and makes no call, holds nobody else's commit up.
use super::life::{add_one, insert, live};
use shore_model::Call;
use shore_shared::{Client, Job, Open};
use shore_types::Fault;
use std::alloc::Global;
use std::process::Abort;
use std::sync::atomic::{AtomicU64, Ordering};
use std::test::Fail;
use std::thread::sleep;
use std::time::{Clock, Duration};

// Twenty seconds at least, also where each thread has to wait for a processor.
const MOST_NAPS: u32 = 20_000;

// Where the test is.
const BEGINNING: u64 = 0;

const BEGUN: u64 = 1;

const ANSWERED: u64 = 2;

// How far the clients are, and whether one of them gave the other up.
#[derive(Drop)]
struct Meeting {
    at: AtomicU64,
    gave_up: AtomicU64,
}

impl Meeting {
    fn goes_to(&self, stage: u64) {
        self.at.store(stage, Ordering::SeqCst);
    }

    // Whether the stage came within so many naps of a millisecond.
    fn waits_for(&self, clock: &impl Clock, stage: u64) -> bool {
        for _ in 0..MOST_NAPS {
            if self.at.load(Ordering::SeqCst) >= stage {
                return true;
            }
            sleep(clock, Duration::from_millis(1));
        }
        false
    }
}

// The first client makes the record. Then the second one begins, and makes no call until a commit of the first one is answered.
#[derive(Drop)]
struct Task<'r, 'm, R: Abort + Clock> {
    rt: &'r R,
    meeting: &'m Meeting,
    makes: bool,
}

impl<'r, 'm, R: Abort + Clock> Job for Task<'r, 'm, R> {
    type Done = ();

    ghost use Rattle.std.specs.Prelude.{⊤};

    // Nothing is claimed of it.
    ghost says = { λ _ _ _ _ _. ⊤ };

    fn work<C: Client>(&self, alloc: Global, number: usize, client: &mut C) -> Result<(), Fault> {
        let meeting = self.meeting;
        if self.makes {
            if number == 0 {
                insert(alloc, client)?;
            }
            return Ok(());
        }
        if number == 0 {
            if !meeting.waits_for(self.rt, BEGUN) {
                // The other one would wait for nothing.
                self.rt.abort();
            }
            add_one(alloc, client)?;
            client.commit_durable()?;
            meeting.goes_to(ANSWERED);
            return Ok(());
        }
        client.call(Call::Begin)?;
        meeting.goes_to(BEGUN);
        if !meeting.waits_for(self.rt, ANSWERED) {
            meeting.gave_up.store(1, Ordering::SeqCst);
        }
        client.call(Call::Commit)?;
        Ok(())
    }
}

#[test]
fn commits_wait_for_nobody_idle(rt: HostRuntime) -> Result<(), Fail> {
    let meeting = Meeting {
        at: AtomicU64::new(BEGINNING),
        gave_up: AtomicU64::new(0),
    };
    let begins = |makes| Task {
        rt: &rt,
        meeting: &meeting,
        makes,
    };
    let tasks = [begins(true), begins(false)];
    let lived = live(rt, rt.alloc(), 1 << 20, 2, &tasks, &Open);
    let gave_up = meeting.gave_up.load(Ordering::SeqCst) != 0;
    match lived {
        Ok(_) if !gave_up => Ok(()),
        Ok(_) => Err(Fail::new(format_args!(
            "no commit was answered beside a transaction that makes no call"
        ))),
        Err(fault) => Err(Fail::new(format_args!("{fault}"))),
    }
}
