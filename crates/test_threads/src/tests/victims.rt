//! Whoever is doomed by a step of another is told at once, also where that step is answered.
use super::life::{MOST_NAPS, bytes_of, comes, insert, live, told};
use shore_model::Call;
use shore_shared::{Client, Job, Open};
use shore_types::{Fault, Granule, Mode, PageId, Rid, StoreId};
use std::alloc::Global;
use std::sync::Wait;
use std::sync::atomic::{AtomicU64, Ordering};
use std::test::Fail;
use std::thread::{Threads, sleep};
use std::time::{Clock, Duration};

const PAGE: PageId = PageId {
    store: StoreId(0),
    page: 0,
};

// The record that the second client reads, the third would change, and then the first reads.
const READ: Rid = Rid {
    page: PAGE,
    slot: 0,
};

// The record that the first client has, and the second waits for.
const HELD: Rid = Rid {
    page: PAGE,
    slot: 1,
};

const DEADLOCK: u64 = 12;

const WOULD_BLOCK: u64 = 21;

// How far the clients are: the first has its record, the second has read, and the third waits, as the fourth has seen.
const HAS_IT: u64 = 1;

const HAS_READ: u64 = 2;

const WAITS: u64 = 3;

#[derive(Drop)]
struct Meeting {
    stage: AtomicU64,
    // The victim has been told, and has aborted.
    ended: AtomicU64,
}

#[derive(Drop)]
enum Doing {
    // The first client makes both records.
    Insert,
    Meet,
}

#[derive(Drop)]
struct Task<'r, 'm, R: Clock> {
    rt: &'r R,
    meeting: &'m Meeting,
    doing: Doing,
}

impl<'r, 'm, R: Clock> Task<'r, 'm, R> {
    fn comes_to(&self, stage: u64) -> Result<(), Fault> {
        if comes(self.rt, &self.meeting.stage, stage) {
            Ok(())
        } else {
            Err(Fault::NotQuiet)
        }
    }

    // Its last call closes the ring and is answered, since the victim alone was in its way. 1 if the victim is not told.
    fn closes<C: Client>(&self, alloc: Global, client: &mut C) -> Result<u64, Fault> {
        client.call(Call::Begin)?;
        client.call(Call::Update(HELD, bytes_of(alloc, 1)?))?;
        self.meeting.stage.store(HAS_IT, Ordering::SeqCst);
        self.comes_to(WAITS)?;
        client.call(Call::Get(READ))?;
        let is_told = comes(self.rt, &self.meeting.ended, 1);
        Ok(u64::from(!is_told))
    }

    fn reads<C: Client>(&self, client: &mut C) -> Result<u64, Fault> {
        self.comes_to(HAS_IT)?;
        client.call(Call::Begin)?;
        client.call(Call::Get(READ))?;
        self.meeting.stage.store(HAS_READ, Ordering::SeqCst);
        Ok(told(client.call(Call::Get(HELD))))
    }

    // The youngest of the three.
    fn is_doomed<C: Client>(&self, alloc: Global, client: &mut C) -> Result<u64, Fault> {
        self.comes_to(HAS_READ)?;
        client.call(Call::Begin)?;
        let reply = client.call(Call::Update(READ, bytes_of(alloc, 2)?));
        Ok(told(reply))
    }

    // Tries to read the record until somebody waits who would change it.
    fn looks<C: Client>(&self, client: &mut C) -> Result<u64, Fault> {
        self.comes_to(HAS_READ)?;
        for _ in 0..MOST_NAPS {
            client.call(Call::Begin)?;
            let tried = client.call(Call::TryLock(Granule::Record(READ), Mode::SH));
            client.call(Call::Abort)?;
            if told(tried) == WOULD_BLOCK {
                self.meeting.stage.store(WAITS, Ordering::SeqCst);
                return Ok(0);
            }
            sleep(self.rt, Duration::from_millis(1));
        }
        Err(Fault::NotQuiet)
    }

    fn meet<C: Client>(&self, alloc: Global, number: usize, client: &mut C) -> Result<u64, Fault> {
        let came = match number {
            0 => self.closes(alloc, client)?,
            1 => self.reads(client)?,
            2 => self.is_doomed(alloc, client)?,
            _ => return self.looks(client),
        };
        client.call(Call::Abort)?;
        if number == 2 {
            self.meeting.ended.store(1, Ordering::SeqCst);
        }
        Ok(came)
    }
}

impl<'r, 'm, R: Clock> Job for Task<'r, 'm, R> {
    type Done = u64;

    ghost use Rattle.std.specs.Prelude.{⊤};

    // Nothing is claimed of it.
    ghost says = { λ _ _ _ _ _. ⊤ };

    fn work<C: Client>(&self, alloc: Global, number: usize, client: &mut C) -> Result<u64, Fault> {
        match self.doing {
            Doing::Insert if number == 0 => {
                insert(alloc, client)?;
                insert(alloc, client)?;
                Ok(0)
            }
            Doing::Insert => Ok(0),
            Doing::Meet => self.meet(alloc, number, client),
        }
    }
}

fn check<R: Threads + Wait + Clock + Sync + Send + Copy>(rt: R, alloc: Global) -> Result<(), Fail> {
    let meeting = Meeting {
        stage: AtomicU64::new(0),
        ended: AtomicU64::new(0),
    };
    let tasks = [
        Task {
            rt: &rt,
            meeting: &meeting,
            doing: Doing::Insert,
        },
        Task {
            rt: &rt,
            meeting: &meeting,
            doing: Doing::Meet,
        },
    ];
    match live(rt, alloc, 1 << 22, 4, &tasks, &Open) {
        Ok(lived) => {
            let wanted = [0, 0, DEADLOCK, 0];
            match lived.done.last() {
                Some(came) if came.as_slice() == wanted.as_slice() => Ok(()),
                _ => Err(Fail::new(format_args!("a client is not told what it should be"))),
            }
        }
        Err(fault) => Err(Fail::new(format_args!("{fault}"))),
    }
}

#[test]
fn who_is_doomed_is_told_at_once(rt: HostRuntime) -> Result<(), Fail> {
    check(rt, rt.alloc())
}
