//! Who is asked whom the log is kept for names the session that keeps it, and not the one that asks.
use super::life::{bytes_of, live};
use shore_core::TailHolder;
use shore_model::Call;
use shore_shared::{Client, Job, Open};
use shore_types::{Fault, StoreId};
use std::alloc::Global;
use std::sync::atomic::{AtomicU64, Ordering};
use std::test::Fail;
use std::thread::sleep;
use std::time::{Clock, Duration};

// Twenty seconds at least, also where each thread has to wait for a processor.
const MOST_NAPS: u32 = 20_000;

// The session of the second client, which keeps the log.
const KEEPER: u64 = 2;

// What is told where no session keeps it.
const NO_SESSION: u64 = 0;

// How far the two are: the log is kept, and the other has asked.
#[derive(Drop)]
struct Meeting {
    kept: AtomicU64,
    asked: AtomicU64,
}

// Whether the word was set within so many naps of a millisecond.
fn is_set(clock: &impl Clock, word: &AtomicU64) -> bool {
    for _ in 0..MOST_NAPS {
        if word.load(Ordering::SeqCst) != 0 {
            return true;
        }
        sleep(clock, Duration::from_millis(1));
    }
    false
}

fn session_in(holder: &TailHolder) -> u64 {
    match holder {
        TailHolder::Transaction {
            session: Some(session),
            ..
        } => u64::from(session.0),
        TailHolder::Transaction { session: None, .. } => NO_SESSION,
        TailHolder::Page(_) | TailHolder::Nobody => NO_SESSION,
    }
}

// The second client logs a record and stays in its transaction until the first one has asked.
#[derive(Drop)]
struct Task<'r, 'm, R: Clock> {
    rt: &'r R,
    meeting: &'m Meeting,
}

impl<'r, 'm, R: Clock> Job for Task<'r, 'm, R> {
    // Which session the client was told of.
    type Done = u64;

    ghost use Rattle.std.specs.Prelude.{⊤};

    // Nothing is claimed of it.
    ghost says = { λ _ _ _ _ _. ⊤ };

    fn work<C: Client>(&self, alloc: Global, number: usize, client: &mut C) -> Result<u64, Fault> {
        if number > 0 {
            client.call(Call::Begin)?;
            client.call(Call::Insert(StoreId(0), bytes_of(alloc, 0)?))?;
            self.meeting.kept.store(1, Ordering::SeqCst);
            let _asked = is_set(self.rt, &self.meeting.asked);
            client.call(Call::Commit)?;
            return Ok(KEEPER);
        }
        let _kept = is_set(self.rt, &self.meeting.kept);
        let told = session_in(&client.tail_holder());
        self.meeting.asked.store(1, Ordering::SeqCst);
        Ok(told)
    }
}

#[test]
fn keeper_of_the_log_is_named(rt: HostRuntime) -> Result<(), Fail> {
    let meeting = Meeting {
        kept: AtomicU64::new(0),
        asked: AtomicU64::new(0),
    };
    let tasks = [Task {
        rt: &rt,
        meeting: &meeting,
    }];
    match live(rt, rt.alloc(), 1 << 20, 2, &tasks, &Open) {
        Ok(lived) => {
            if let Some(came) = lived.done.last() {
                for told in came.iter() {
                    if *told != KEEPER {
                        return Err(Fail::new(format_args!("session {told} keeps the log")));
                    }
                }
            }
            Ok(())
        }
        Err(fault) => Err(Fail::new(format_args!("{fault}"))),
    }
}
