//! Waits that end before their locks are free: by their time, and by another client.
use super::life::{MOST_NAPS, comes, comes_within, insert, live, told};
use shore_model::{Answer, Call};
use shore_shared::{Client, Job, Open};
use shore_types::{Fault, Granule, Mode, PageId, Rid, SessionId, StoreId};
use std::alloc::Global;
use std::sync::Wait;
use std::sync::atomic::{AtomicU64, Ordering};
use std::test::Fail;
use std::thread::{Threads, sleep};
use std::time::{Clock, Duration};

// The record that the first client has.
const ID: Rid = Rid {
    page: PageId {
        store: StoreId(0),
        page: 0,
    },
    slot: 0,
};

// Naps in which whoever is refused at once would have been told so.
const REFUSED_NAPS: u32 = 200;

// So many milliseconds a client waits for a lock that does not come.
const SHORT: u64 = 100;

// No wait is as long.
const NEVER: u64 = 600_000;

const WOULD_BLOCK: u64 = 21;

// Where the test is: the first client has the record; so many others have come to an end.
#[derive(Drop)]
struct Meeting {
    has_it: AtomicU64,
    ended: AtomicU64,
}

#[derive(Drop)]
enum Doing {
    // The first client makes the record.
    Insert,
    // The first deletes it and waits for the two others, of which the second waits for a short time alone, and the third until the first takes its wait back.
    Meet,
    // The first reads it. The second would delete it, and waits for a short time; the third reads it too, and waits for the second. It is let through as the second's wait ends, though nobody else makes a step.
    Behind,
    // The first deletes it, takes back the waits of so many others, and waits until each of them has aborted.
    Clear(u32),
    // The first deletes it and gives up the second, which is refused at once; then it is welcome again, and waits until the first has aborted.
    Welcome,
}

impl Doing {
    // What the client of this number is told.
    fn wanted(&self, number: usize) -> u64 {
        let waits_in_vain = match self {
            Doing::Insert | Doing::Welcome => false,
            Doing::Meet | Doing::Clear(_) => number > 0,
            Doing::Behind => number == 1,
        };
        if waits_in_vain { WOULD_BLOCK } else { 0 }
    }
}

#[derive(Drop)]
struct Task<'r, 'm, R: Clock> {
    rt: &'r R,
    meeting: &'m Meeting,
    doing: Doing,
}

impl<'r, 'm, R: Clock> Task<'r, 'm, R> {
    // The first has the record from here on.
    fn takes<C: Client>(&self, call: Call, client: &mut C) -> Result<(), Fault> {
        client.call(Call::Begin)?;
        client.call(call)?;
        self.meeting.has_it.store(1, Ordering::SeqCst);
        Ok(())
    }

    // What a client was told that asked for it once the first had it.
    fn asks<C: Client>(&self, call: Call, millis: u64, client: &mut C) -> Result<u64, Fault> {
        if !comes(self.rt, &self.meeting.has_it, 1) {
            return Err(Fault::NotQuiet);
        }
        client.call(Call::Begin)?;
        Ok(told(client.call_within(call, Duration::from_millis(millis))))
    }

    // Tries to read the record until somebody waits who would delete it.
    fn lets_one_wait<C: Client>(&self, client: &mut C) -> Result<(), Fault> {
        for _ in 0..MOST_NAPS {
            client.call(Call::Begin)?;
            let tried = client.call(Call::TryLock(Granule::Record(ID), Mode::SH));
            client.call(Call::Abort)?;
            if told(tried) == WOULD_BLOCK {
                return Ok(());
            }
            sleep(self.rt, Duration::from_millis(1));
        }
        Err(Fault::NotQuiet)
    }

    fn ends(&self) {
        self.meeting.ended.fetch_add(1, Ordering::SeqCst);
    }

    fn meet<C: Client>(&self, number: usize, client: &mut C) -> Result<u64, Fault> {
        let came = match number {
            0 => {
                self.takes(Call::Delete(ID), client)?;
                client.give_up(SessionId(3));
                if comes(self.rt, &self.meeting.ended, 2) {
                    0
                } else {
                    1
                }
            }
            1 => self.asks(Call::Get(ID), SHORT, client)?,
            _ => self.asks(Call::Get(ID), NEVER, client)?,
        };
        client.call(Call::Abort)?;
        self.ends();
        Ok(came)
    }

    fn behind<C: Client>(&self, number: usize, client: &mut C) -> Result<u64, Fault> {
        let came = match number {
            0 => {
                self.takes(Call::Get(ID), client)?;
                if comes(self.rt, &self.meeting.ended, 1) {
                    0
                } else {
                    1
                }
            }
            1 => {
                let told = self.asks(Call::Delete(ID), SHORT, client)?;
                if comes(self.rt, &self.meeting.ended, 1) {
                    told
                } else {
                    1
                }
            }
            _ => {
                self.lets_one_wait(client)?;
                let told = self.asks(Call::Get(ID), NEVER, client)?;
                self.ends();
                told
            }
        };
        client.call(Call::Abort)?;
        Ok(came)
    }

    fn clear<C: Client>(&self, number: usize, others: u32, client: &mut C) -> Result<u64, Fault> {
        let came = if number == 0 {
            self.takes(Call::Delete(ID), client)?;
            for session in 0..others {
                client.give_up(SessionId(session.saturating_add(2)));
            }
            if comes(self.rt, &self.meeting.ended, u64::from(others)) {
                0
            } else {
                1
            }
        } else {
            self.asks(Call::Get(ID), NEVER, client)?
        };
        client.call(Call::Abort)?;
        if number > 0 {
            self.ends();
        }
        Ok(came)
    }

    fn welcome<C: Client>(&self, number: usize, client: &mut C) -> Result<u64, Fault> {
        let second = SessionId(2);
        let came = if number == 0 {
            self.takes(Call::Delete(ID), client)?;
            client.give_up(second);
            self.meeting.has_it.store(2, Ordering::SeqCst);
            if !comes(self.rt, &self.meeting.ended, 1) {
                return Ok(1);
            }
            client.welcome(second);
            self.meeting.has_it.store(3, Ordering::SeqCst);
            let is_refused = comes_within(self.rt, &self.meeting.ended, 2, REFUSED_NAPS);
            u64::from(is_refused)
        } else {
            if !comes(self.rt, &self.meeting.has_it, 2) {
                return Ok(1);
            }
            let before = self.asks(Call::Get(ID), NEVER, client)?;
            client.call(Call::Abort)?;
            self.ends();
            if before != WOULD_BLOCK || !comes(self.rt, &self.meeting.has_it, 3) {
                return Ok(1);
            }
            self.asks(Call::Get(ID), NEVER, client)?
        };
        client.call(Call::Abort)?;
        self.ends();
        Ok(came)
    }
}

impl<'r, 'm, R: Clock> Job for Task<'r, 'm, R> {
    type Done = u64;

    ghost use Rattle.std.specs.Prelude.{⊤};

    // Nothing is claimed of it.
    ghost says = { λ _ _ _ _ _. ⊤ };

    fn work<C: Client>(&self, alloc: Global, number: usize, client: &mut C) -> Result<u64, Fault> {
        match self.doing {
            Doing::Insert if number == 0 => {
                insert(alloc, client)?;
                Ok(0)
            }
            Doing::Insert => Ok(0),
            Doing::Meet => self.meet(number, client),
            Doing::Behind => self.behind(number, client),
            Doing::Clear(others) => self.clear(number, others, client),
            Doing::Welcome => self.welcome(number, client),
        }
    }
}

fn check<R: Threads + Wait + Clock + Sync + Send + Copy>(
    rt: R,
    alloc: Global,
    sessions: u32,
    doing: Doing,
) -> Result<(), Fail> {
    let meeting = Meeting {
        has_it: AtomicU64::new(0),
        ended: AtomicU64::new(0),
    };
    let tasks = [
        Task {
            rt: &rt,
            meeting: &meeting,
            doing: Doing::Insert,
        },
        Task {
            rt: &rt,
            meeting: &meeting,
            doing,
        },
    ];
    match live(rt, alloc, 1 << 22, sessions, &tasks, &Open) {
        Ok(lived) => {
            let [_, task] = &tasks;
            if let Some(came) = lived.done.last() {
                for (number, told) in came.iter().enumerate() {
                    if *told != task.doing.wanted(number) {
                        return Err(Fail::new(format_args!("client {number} is told {told}")));
                    }
                }
            }
            Ok(())
        }
        Err(fault) => Err(Fail::new(format_args!("{fault}"))),
    }
}

#[test]
fn waits_end_by_their_time_and_by_another_client(rt: HostRuntime) -> Result<(), Fail> {
    check(rt, rt.alloc(), 3, Doing::Meet)
}

#[test]
fn whoever_waits_behind_one_is_let_through(rt: HostRuntime) -> Result<(), Fail> {
    check(rt, rt.alloc(), 3, Doing::Behind)
}

#[test]
fn as_many_as_there_may_be_are_cleared(rt: HostRuntime) -> Result<(), Fail> {
    check(rt, rt.alloc(), 255, Doing::Clear(254))
}

#[test]
fn who_is_welcome_waits_again(rt: HostRuntime) -> Result<(), Fail> {
    check(rt, rt.alloc(), 2, Doing::Welcome)
}
